//! What the log notes of a text in its place: its header alone is read for that.
ghost use Rattle.std.specs.Prelude.{◌≡◌, ◌-◌, length, take, IfOk, Some, option_map};
ghost use Rattle.mgcp_text.specs.Reading.{outcome_of};
ghost use Rattle.agent_log.specs.Noting.{header_in as header_of, command_note as note_of_command, note_as, text_note as note_of_text};

use log_format::Note;
use mg_bytes::{OutOfMemory, lines};
use mgcp_text::{Message, TextFault, TransactionId, read_message};
use std::alloc::{AllocError, Global};

// What stands in a text before what is left of it.
fn before<'t>(text: &'t [u8], left: &[u8]) -> &'t [u8]
    ensures { result.now ≡ take (length text.now - length left.now) text.now }
{
    let end = text.len().saturating_sub(left.len());
    &text[..end]
}

// The header of a text, with its end; nothing where all lines are empty.
#[tactic(auto, unfolding(mgcp_text::specs::Reading::skip_empty))]
fn header_in(text: &[u8]) -> &[u8]
    ensures { result.now ≡ header_of text.now }
{
    let mut here = text;
    let mut left = lines(text);
    while let Some(line) = left.next() {
        let behind = left.rest();
        if !line.is_empty() {
            return before(here, behind);
        }
        here = behind;
    }
    &[]
}

fn command_note(is_repeat: bool, id: TransactionId) -> Option<Note>
    ensures { result ≡ note_of_command is_repeat id }
{
    if is_repeat {
        Some(Note::SentAgain(id))
    } else {
        None
    }
}

// What is noted of a text that was read so.
fn note_for(
    read: &Result<Message<'_>, TextFault>,
    is_repeat: bool,
) -> Result<Option<Note>, OutOfMemory>
    ensures { IfOk result (λ note. Some note ≡ option_map (note_as is_repeat) (outcome_of read.now)) }
{
    match read {
        Err(TextFault::OutOfMemory) => Err(AllocError),
        Err(TextFault::NoHeader) => Ok(Some(Note::Unreadable)),
        Err(TextFault::BadVersion { id } | TextFault::BadBody { id }) => Ok(command_note(
            is_repeat, *id,
        )),
        Ok(Message::Command { id, .. }) => Ok(command_note(is_repeat, *id)),
        Ok(Message::Response { .. }) => Ok(None),
    }
}

/// What is noted in its place of a text that came or is sent, for the first time or again, if anything is. An error is for want of memory.
pub(crate) fn text_note(
    alloc: Global,
    is_repeat: bool,
    text: &[u8],
) -> Result<Option<Note>, OutOfMemory>
    ensures { IfOk result (λ note. note ≡ note_of_text is_repeat text.now) }
{
    let read = read_message(alloc, header_in(text));
    note_for(&read, is_repeat)
}
