//! What an end hears: the texts of a datagram, and of each what every end does at it, whether it is a gateway or a call agent
//! (RFC 3435, 3.5).
ghost use Rattle.std.specs.Prelude.{◌≡◌, ◌≤◌, ◌++◌, ℕ, nat_lt, if◌then◌else◌, List, [], length, Some, None, is_none, IfSome, MatchOption, IfOk, OnOk, OnErr};
ghost use Rattle.std.specs.Result.{result_ok};
ghost use Rattle.mgcp_text.specs.Reading.{message, outcome_of, read_text};
ghost use Rattle.transmission.specs.Texts.{largest_datagram, most_texts, texts_of};
ghost use Rattle.transmission.specs.Hearing.{outcome_in, refused, heard_at};

use crate::LARGEST_DATAGRAM;
use crate::acknowledging::acknowledge;
use crate::history::History;
use crate::output::OutDatagram;
use crate::transacting::{Origin, admit, answer};
use mg_bytes::{OutOfMemory, ReturnCode, Sequence};
use mgcp_text::{AnswerContent, Message, Parts, TextFault, parts};
use small_rules::is_too_long;
use std::alloc::{AllocError, Global};
use std::net::SocketAddrV4;

/// The texts of a datagram in their order; none where it is too long (RFC 3435, 3.5.4 and 3.5.5). This takes no memory.
#[tactic(auto, unfolding(crate::specs::Texts::texts_of), using(crate::proofs::TextLaws::few_within))]
pub fn texts(datagram: &[u8]) -> Option<Parts<'_>>
    ensures texts { MatchOption result (texts_of datagram.now ≡ []) (λ texts. texts ≡ texts_of datagram.now) }
    ensures long { is_none result ≡ nat_lt largest_datagram (length datagram.now) }
    ensures few { IfSome result (λ texts. length texts ≤ most_texts) }
{
    if is_too_long(datagram.len(), LARGEST_DATAGRAM) {
        return None;
    }
    Some(parts(datagram))
}

// A command that can't be read past its id is answered by this code, if it is new.
fn refuse(
    alloc: Global,
    history: &mut History,
    origin: Origin,
    now: u64,
    code: u16,
    out: &mut Vec<OutDatagram>,
) -> Result<(), OutOfMemory>
    requires { code ≤ 999 }
    ensures kept { OnOk result (history.new ≡ (refused history.old origin.source now origin.id code).history) }
    ensures sent { OnOk result (out.new.items ≡ out.old.items ++ (refused history.old origin.source now origin.id code).sent) }
    ensures err { OnErr result (history.new ≡ history.old) }
    ensures unsent { OnErr result (out.new.items ≡ out.old.items) }
    ensures settled { history.new.settled ≡ history.old.settled }
{
    if !admit(alloc, history, origin, now, out)? {
        return Ok(());
    }
    let confirms = Sequence::new(alloc);
    let refusal = AnswerContent::plain(alloc, code);
    answer(alloc, history, origin, now, confirms, &refusal, out)
}

// Whether a message is left to the end: a command that is new, or a response, which is acknowledged.
fn is_left(
    alloc: Global,
    history: &History,
    source: SocketAddrV4,
    now: u64,
    said: &Message<'_>,
    out: &mut Vec<OutDatagram>,
) -> Result<bool, OutOfMemory>
    ensures left { IfOk result (λ left. (heard_at history.now source now (message said.now)).left
        ≡ if left then Some said.now else None) }
    ensures kept { (heard_at history.now source now (message said.now)).history ≡ history.now }
    ensures sent { OnOk result (out.new.items ≡ out.old.items ++ (heard_at history.now source now (message said.now)).sent) }
    ensures err { OnErr result (out.new.items ≡ out.old.items) }
{
    match said {
        Message::Command { id, .. } => {
            Ok(admit(alloc, history, Origin { source, id: *id }, now, out)?)
        }
        Message::Response { code, id, .. } => {
            acknowledge(alloc, Origin { source, id: *id }, now, *code, said, out)?;
            Ok(true)
        }
    }
}

/// Hears a text that came now (in ms) from this source, by what it was read as, and does what every end does at it (RFC 3435,
/// 3.5): a command that can't be read is answered by 528 or 510, and kept, if it is new; a repeat gets its stored answer again,
/// or silence once that is confirmed; a response is acknowledged. Whether a message is left to the end: a new command, which
/// it executes and answers, or a response. After an error the history and the messages are as they were; and `undo` still leads
/// to what the history was after the last purge.
pub fn hear(
    alloc: Global,
    history: &mut History,
    source: SocketAddrV4,
    now: u64,
    read: &Result<Message<'_>, TextFault>,
    out: &mut Vec<OutDatagram>,
) -> Result<bool, OutOfMemory>
    ensures left { IfOk result (λ left. (heard_at history.old source now (outcome_in read.now)).left
        ≡ if left then result_ok read.now else None) }
    ensures kept { OnOk result (history.new ≡ (heard_at history.old source now (outcome_in read.now)).history) }
    ensures sent { OnOk result (out.new.items
        ≡ out.old.items ++ (heard_at history.old source now (outcome_in read.now)).sent) }
    ensures err { OnErr result (history.new ≡ history.old) }
    ensures unsent { OnErr result (out.new.items ≡ out.old.items) }
    ensures settled { history.new.settled ≡ history.old.settled }
    // It was read, unless memory was refused, and then that is the error.
    ensures text { (text : List ℕ) → IfSome (outcome_of read.now) (λ outcome. outcome ≡ read_text text) →
        OnOk result (outcome_in read.now ≡ read_text text) }
{
    match read {
        Err(TextFault::OutOfMemory) => Err(AllocError),
        Err(TextFault::NoHeader) => Ok(false),
        Err(TextFault::BadVersion { id }) => {
            let code = ReturnCode::IncompatibleVersion.number();
            refuse(alloc, history, Origin { source, id: *id }, now, code, out)?;
            Ok(false)
        }
        Err(TextFault::BadBody { id }) => {
            let code = ReturnCode::ProtocolError.number();
            refuse(alloc, history, Origin { source, id: *id }, now, code, out)?;
            Ok(false)
        }
        Ok(said) => {
            let left = is_left(alloc, history, source, now, said, out)?;
            Ok(left)
        }
    }
}
