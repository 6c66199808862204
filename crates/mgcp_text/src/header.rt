//! The header line of a command (RFC 3435, 3.2.1) and of a response (3.3).
ghost use Rattle.std.specs.Prelude.{◌≡◌, map};
ghost use Rattle.std.specs.List.{list_all};
ghost use Rattle.std.specs.Char.{is_ascii_alphanumeric};
ghost use Rattle.mgcp_text.specs.Header.{is_verb_word, verb_in, verb_of, command_verb, return_code, start_of, header_of, is_version};
ghost use Rattle.mg_bytes.specs.Words.{words as words_of};

use crate::id::{TransactionId, id_of};
use crate::message::Verb;
use mg_bytes::{Words, decimal, same_no_case, words};

/// What the first word of a header says.
#[derive(Clone, Copy)]
pub enum Start {
    /// A command begins, with this verb (RFC 3435, 3.2.1.1).
    Command(Verb),
    /// A response begins, with this return code (RFC 3435, 2.4 and 3.3).
    Response(u16),
}

/// How a header begins, and the words after the id.
#[derive(Drop)]
pub struct Header<'a> {
    pub start: Start,
    pub id: TransactionId,
    pub rest: Words<'a>,
}

fn all_alphanumeric(word: &[u8]) -> bool
    ensures { result ≡ list_all is_ascii_alphanumeric word.now }
{
    word.iter().all(|byte| byte.is_ascii_alphanumeric())
}

fn is_verb_word(word: &[u8]) -> bool
    ensures { result ≡ is_verb_word word.now }
{
    word.len() == 4 && all_alphanumeric(word)
}

// The verbs, one a row (RFC 3435, 3.2.1.1).
const VERBS: [(&[u8], Verb); 9] = [
    (b"EPCF", Verb::Epcf),
    (b"RQNT", Verb::Rqnt),
    (b"NTFY", Verb::Ntfy),
    (b"CRCX", Verb::Crcx),
    (b"MDCX", Verb::Mdcx),
    (b"DLCX", Verb::Dlcx),
    (b"AUEP", Verb::Auep),
    (b"AUCX", Verb::Aucx),
    (b"RSIP", Verb::Rsip),
];

fn verb_in(rows: &[(&[u8], Verb)], word: &[u8]) -> Verb
    ensures { result ≡ verb_in (map (λ row. (row.0.now, row.1)) rows.entry.now) word.now }
{
    let mut rows = rows;
    while let [row, others @ ..] = rows {
        if same_no_case(word, row.0) {
            return row.1;
        }
        rows = others;
    }
    Verb::Other
}

#[tactic(auto, unfolding(crate::specs::Header::verb_of))]
fn verb_of(word: &[u8]) -> Verb
    ensures { result ≡ verb_of word.now }
{
    verb_in(&VERBS, word)
}

fn command_verb(word: &[u8]) -> Option<Verb>
    ensures { result ≡ command_verb word.now }
{
    if !is_verb_word(word) {
        return None;
    }
    Some(verb_of(word))
}

// Three digits.
fn return_code(word: &[u8]) -> Option<u16>
    ensures { result ≡ return_code word.now }
{
    if word.len() != 3 {
        return None;
    }
    let code = decimal(word)?;
    Some(code as u16)
}

#[tactic(auto, unfolding(crate::specs::Header::start_of))]
fn start_of(word: &[u8]) -> Option<Start>
    ensures { result ≡ start_of word.now }
{
    match return_code(word) {
        Some(code) => Some(Start::Response(code)),
        None => {
            let verb = command_verb(word)?;
            Some(Start::Command(verb))
        }
    }
}

/// The header that a line is.
#[tactic(auto, unfolding(crate::specs::Header::header_of))]
pub fn header_of(line: &[u8]) -> Option<Header<'_>>
    ensures { result ≡ header_of (words_of line.now) }
{
    let mut rest = words(line);
    let start = start_of(rest.next()?)?;
    let id = id_of(rest.next()?)?;
    Some(Header { start, id, rest })
}

/// Whether two words are the protocol and the version that this gateway speaks.
pub fn is_version(protocol: &[u8], version: &[u8]) -> bool
    ensures { result ≡ is_version protocol.now version.now }
{
    same_no_case(protocol, b"MGCP") && version == b"1.0".as_slice()
}
