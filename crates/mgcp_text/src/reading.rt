//! What a text is read as (RFC 3435, 3.2 and 3.3).
ghost use Rattle.std.specs.Prelude.{◌≡◌, ◌≤◌, IfSome, List, ℕ};
ghost use Rattle.mg_bytes.specs.Lines.{cut, TakesLine};
ghost use Rattle.std.specs.List.{list_all};
ghost use Rattle.mgcp_text.specs.Reading.{is_empty_line, skip_empty, description_of, Outcome, id_in, code_in, outcome_of, command_from, response_from, message_from, read_text};
ghost use Rattle.mgcp_text.specs.Reading.{takes_memory, ReadsForMemory};
ghost use Rattle.mgcp_text.specs.Spelling.{Reads};

use crate::bytes::Bytes;
use crate::header::{Header, Start, header_of, is_version};
use crate::id::TransactionId;
use crate::message::{Message, TextFault, Verb};
use crate::parameter::{params_of, some_params_of};
use mg_bytes::{Lines, Words, lines};
use std::alloc::Global;

// The next line that is not empty.
#[tactic(auto, unfolding(crate::specs::Reading::skip_empty))]
fn first_full<'a>(lines: &mut Lines<'a>) -> Option<&'a [u8]>
    ensures { TakesLine (skip_empty lines.old) result lines.new }
{
    while let Some(line) = lines.next() {
        if !line.is_empty() {
            return Some(line);
        }
    }
    None
}

/// Whether each line of a text is empty, or of blanks.
pub(crate) fn has_only_empty_lines(text: &[u8]) -> bool
    ensures { result ≡ list_all is_empty_line (cut text.now) }
{
    for line in lines(text) {
        if !line.is_empty() {
            return false;
        }
    }
    true
}

#[tactic(auto, unfolding(crate::specs::Reading::description_of))]
fn description_of(text: &[u8]) -> &[u8]
    ensures { result.now ≡ description_of (cut text.now) }
{
    if has_only_empty_lines(text) {
        return &[];
    }
    text
}

// The command of a header, whose parameters and description are the lines after it.
#[tactic(auto, unfolding(crate::specs::Reading::command_from))]
fn read_command<'a>(
    alloc: Global,
    verb: Verb,
    id: TransactionId,
    mut words: Words<'a>,
    mut lines: Lines<'a>,
) -> Result<Message<'a>, TextFault>
    ensures value { IfSome (outcome_of result) (λ outcome. outcome ≡ command_from verb id words.entry lines.entry) }
    ensures memory { ReadsForMemory (takes_memory (command_from verb id words.entry lines.entry)) result }
{
    let (Some(name), Some(protocol), Some(version)) = (words.next(), words.next(), words.next())
    else {
        return Err(TextFault::BadBody { id });
    };
    if !is_version(protocol, version) {
        return Err(TextFault::BadVersion { id });
    }
    let Some(params) = params_of(alloc, &mut lines)? else {
        return Err(TextFault::BadBody { id });
    };
    Ok(Message::Command {
        verb,
        id,
        name: Bytes::of(name),
        params,
        body: Bytes::of(description_of(lines.rest())),
    })
}

// The response of a header, whose parameters and description are among the lines after it.
#[tactic(auto, unfolding(crate::specs::Reading::response_from))]
fn read_response<'a>(
    alloc: Global,
    code: u16,
    id: TransactionId,
    mut lines: Lines<'a>,
) -> Result<Message<'a>, TextFault>
    ensures value { IfSome (outcome_of result) (λ outcome. outcome ≡ response_from code id lines.entry) }
    ensures memory { ReadsForMemory (takes_memory (response_from code id lines.entry)) result }
{
    let params = some_params_of(alloc, &mut lines)?;
    let body = Bytes::of(description_of(lines.rest()));
    Ok(Message::Response {
        code,
        id,
        params,
        body,
    })
}

fn read_headed<'a>(
    alloc: Global,
    header: Header<'a>,
    lines: Lines<'a>,
) -> Result<Message<'a>, TextFault>
    ensures value { IfSome (outcome_of result) (λ outcome.
        outcome ≡ message_from header.entry.start header.entry.id header.entry.rest lines.entry) }
    ensures memory { ReadsForMemory
        (takes_memory (message_from header.entry.start header.entry.id header.entry.rest lines.entry)) result }
{
    match header.start {
        Start::Command(verb) => read_command(alloc, verb, header.id, header.rest, lines),
        Start::Response(code) => read_response(alloc, code, header.id, lines),
    }
}

#[tactic(auto, unfolding(crate::specs::Reading::read_text))]
fn read_first(alloc: Global, text: &[u8]) -> Result<Message<'_>, TextFault>
    ensures value { IfSome (outcome_of result) (λ outcome. outcome ≡ read_text text.now) }
    ensures memory { ReadsForMemory (takes_memory (read_text text.now)) result }
{
    let mut rest = lines(text);
    let Some(line) = first_full(&mut rest) else {
        return Err(TextFault::NoHeader);
    };
    let Some(header) = header_of(line) else {
        return Err(TextFault::NoHeader);
    };
    read_headed(alloc, header, rest)
}

/// Reads the message that a text spells (RFC 3435, 3.2 and 3.3).
///
/// Empty lines before it are skipped, the next line is the header, then come parameter lines, and after an
/// empty line the description. In a response lines that are no parameters are skipped.
pub fn read_message(alloc: Global, text: &[u8]) -> Result<Message<'_>, TextFault>
    // Unless memory is refused: a message exactly where the text spells it, each fault exactly where it is read so.
    ensures reads { IfSome (outcome_of result) (Reads text.now) }
    // The same, as a function that computes (`one_reading` joins them).
    ensures value { IfSome (outcome_of result) (λ outcome. outcome ≡ read_text text.now) }
    // Memory is wanted for parameters alone: a text without a header, or with another version, takes none.
    ensures memory { ReadsForMemory (takes_memory (read_text text.now)) result }
{
    read_first(alloc, text)
}

/// Each text is read as one outcome, and as no other.
pub fn one_reading()
    ensures some { (text : List ℕ) → Reads text (read_text text) }
    ensures only { (text : List ℕ) (outcome : Outcome) → Reads text outcome → outcome ≡ read_text text }
{}

/// What is read has a transaction id from 1 to 999,999,999, if it has one (RFC 3435, 3.2.1.2).
pub fn ids_are_in_their_bounds()
    ensures { (text : List ℕ) → IfSome (id_in (read_text text)) (λ id. (1 ≤ id) × (id ≤ 999999999)) }
{}

/// The return code of a response that is read has three digits (RFC 3435, 2.4).
pub fn return_codes_are_in_their_bounds()
    ensures { (text : List ℕ) → IfSome (code_in (read_text text)) (λ code. code ≤ 999) }
{}
