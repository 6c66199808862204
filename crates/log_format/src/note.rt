//! What is noted beside messages.
ghost use Rattle.std.specs.Prelude.{◌≡◌, ◌++◌, codes, decimal};
ghost use Rattle.mg_bytes.specs.ReturnCode.{code_with};
ghost use Rattle.log_format.specs.Notes.{words_from, untold_text, note_text, notice_text};

use crate::grouping::write_number;
use crate::host::put_host;
use mg_bytes::{Draft, ReturnCode};
use mgcp_text::TransactionId;
use std::net::Ipv4Addr;

/// What is noted of what came or went.
#[derive(Clone, Copy)]
pub enum Note {
    /// The command with this id is a repeat, and its answer went out again (RFC 3435, 3.5.1).
    AnsweredAgain(TransactionId),
    /// The command with this id is a repeat whose answer was confirmed, so nothing goes out (RFC 3435, 3.5.1).
    Unanswered(TransactionId),
    /// The gateway's own command with this id wasn't answered in time, and went out again (RFC 3435, 3.5.3).
    SentAgain(TransactionId),
    /// The command with this id is refused with this return code (RFC 3435, 2.4).
    Refused { id: TransactionId, code: u16 },
    /// What came is no message.
    Unreadable,
    /// What came is longer than any datagram that is taken: so many bytes of it were seen (RFC 3435, 3.5.4).
    TooLong { length: usize },
    /// What was to be sent couldn't be, and didn't leave.
    Unsent,
    /// What came or was sent is lost on a network that spoils what goes over it.
    Lost,
    /// It comes later by so many ms.
    Late { ms: u64 },
    /// It comes twice, later by so many ms each time.
    Copied { first: u64, second: u64 },
    /// Memory was refused, and nothing was done.
    OutOfMemory,
    /// What came isn't heard, since who sent it may not speak; of so many others that came before it isn't told.
    Stranger { untold: u64 },
    /// What is sent goes to who may not speak, at this address: no answer will be heard.
    Unheard { host: Ipv4Addr },
    /// A command is lost: so many others are young, and no more are remembered.
    NoRoom { young: u64 },
}

/// What is noted of the program itself.
#[derive(Clone, Copy)]
pub enum Notice {
    /// So many lines of the log weren't kept, since what was written before them wasn't taken.
    Dropped { lines: u64 },
    /// The machine's time of day was set on, by so many ms.
    SetOn { ms: u64 },
    /// The machine's time of day was set back, by so many ms.
    SetBack { ms: u64 },
}

// Pieces around a number.
fn put_around(out: &mut Draft, before: &[u8], number: u64, after: &[u8])
    ensures { out.new ≡ out.old ++ (before.now ++ decimal number ++ after.now) }
{
    out.put(before);
    out.put_decimal(number);
    out.put(after);
}

// That the command with this id came or went again, and what became of it.
fn put_repeat(out: &mut Draft, id: TransactionId, fate: &[u8])
    ensures { out.new ≡ out.old ++ (codes "repeat of " ++ decimal id ++ fate.now) }
{
    put_around(out, b"repeat of ", number_of(id), fate);
}

// What the standard says of a return code, behind a blank, where it is one of this gateway's.
fn put_words(out: &mut Draft, code: u16)
    ensures { out.new ≡ out.old ++ words_from (code_with code) }
{
    if let Some(code) = ReturnCode::with_number(code) {
        out.put_byte(b' ');
        out.put(code.words().as_bytes());
    }
}

// Why a command is refused, by the code alone.
fn put_refusal(out: &mut Draft, id: TransactionId, code: u16)
    ensures { out.new ≡ out.old
        ++ (codes "refused " ++ decimal id ++ codes ": " ++ decimal code ++ words_from (code_with code)) }
{
    put_around(out, b"refused ", number_of(id), b": ");
    out.put_decimal(u64::from(code));
    put_words(out, code);
}

// How many strangers aren't told of, where there are any.
fn put_untold(out: &mut Draft, untold: u64)
    ensures { out.new ≡ out.old ++ untold_text untold }
{
    if untold != 0 {
        put_around(out, b", as ", untold, b" before it");
    }
}

// The number that an id is.
fn number_of(id: TransactionId) -> u64
    ensures { result ≡ id }
{
    u64::from(id.number())
}

/// Puts what a note says.
#[tactic(auto, unfolding(crate::specs::Notes::note_text))]
pub(crate) fn put_note_text(out: &mut Draft, note: Note)
    ensures { out.new ≡ out.old ++ note_text note }
{
    match note {
        Note::AnsweredAgain(id) => put_repeat(out, id, b", answered again"),
        Note::Unanswered(id) => put_repeat(out, id, b", confirmed, not answered"),
        Note::SentAgain(id) => put_repeat(out, id, b", no answer yet"),
        Note::Refused { id, code } => put_refusal(out, id, code),
        Note::Unreadable => out.put(b"no message"),
        Note::TooLong { length } => {
            put_around(out, b"too long: ", length as u64, b" bytes or more")
        }
        Note::Unsent => out.put(b"not sent"),
        Note::Lost => out.put(b"lost on its way"),
        Note::Late { ms } => put_around(out, b"late by ", ms, b" ms"),
        Note::Copied { first, second } => {
            put_around(out, b"copied, late by ", first, b" and ");
            out.put_decimal(second);
            out.put(b" ms");
        }
        Note::OutOfMemory => out.put(b"out of memory, nothing was done"),
        Note::Stranger { untold } => {
            out.put(b"a stranger's, not heard");
            put_untold(out, untold);
        }
        Note::Unheard { host } => {
            out.put(b"no answer is heard from there, but with --agents ");
            put_host(out, host);
        }
        Note::NoRoom { young } => {
            out.put(b"lost: ");
            write_number(out, young);
            out.put(b" commands are young");
        }
    }
}

/// Puts what a notice says.
#[tactic(auto, unfolding(crate::specs::Notes::notice_text))]
pub(crate) fn put_notice_text(out: &mut Draft, notice: Notice)
    ensures { out.new ≡ out.old ++ notice_text notice }
{
    match notice {
        Notice::Dropped { lines } => {
            put_around(out, b"dropped ", lines, b" lines, which nobody took")
        }
        Notice::SetOn { ms } => put_around(out, b"the time of day was set on by ", ms, b" ms"),
        Notice::SetBack { ms } => put_around(out, b"the time of day was set back by ", ms, b" ms"),
    }
}
