//! The acknowledgement of a response.
ghost use Rattle.std.specs.Prelude.{◌≡◌, ◌++◌, IfOk, OnOk, OnErr, MatchOption, true, false};
ghost use Rattle.mgcp_text.specs.Message.{params_in};
ghost use Rattle.transmission.specs.Acknowledging.{is_empty_k, asks_for_acknowledgement, acknowledgement_text, acknowledgements};

use crate::output::OutDatagram;
use crate::sending::send;
use crate::transacting::Origin;
use mg_bytes::{OutOfMemory, ReturnCode, Text};
use mgcp_text::{AnswerContent, KValue, Message, TransactionId, read_k};
use std::alloc::Global;

fn is_empty_k(value: &KValue) -> bool
    ensures { result ≡ is_empty_k value.now }
{
    match value {
        KValue::Absent | KValue::Unreadable => false,
        KValue::Items(ranges) => ranges.as_slice().is_empty(),
    }
}

fn asks_for_acknowledgement(
    alloc: Global,
    code: u16,
    said: &Message<'_>,
) -> Result<bool, OutOfMemory>
    ensures { IfOk result (λ asks. asks ≡ asks_for_acknowledgement code (params_in said.now)) }
{
    if code < 200 || code > 999 {
        return Ok(false);
    }
    Ok(is_empty_k(&read_k(alloc, said)?))
}

// The acknowledgement of a response with this return code and id, where that asks for one.
fn acknowledgement(
    alloc: Global,
    code: u16,
    id: TransactionId,
    said: &Message<'_>,
) -> Result<Option<Text>, OutOfMemory>
    ensures { IfOk result (λ found. MatchOption found (asks_for_acknowledgement code (params_in said.now) ≡ false)
        (λ text. (asks_for_acknowledgement code (params_in said.now) ≡ true) × (text ≡ acknowledgement_text id))) }
{
    if !asks_for_acknowledgement(alloc, code, said)? {
        return Ok(None);
    }
    let answer = AnswerContent::plain(alloc, ReturnCode::ResponseAcknowledgement.number());
    Ok(Some(answer.text(alloc, id)?))
}

/// A response with this return code that arrives now (in ms) is acknowledged to where it came from, where it asks for that:
/// it is final, and its first K is empty (RFC 3435, 3.2.2.1 and 3.5.6). After an error the messages are as they were.
pub fn acknowledge(
    alloc: Global,
    origin: Origin,
    now: u64,
    code: u16,
    said: &Message<'_>,
    out: &mut Vec<OutDatagram>,
) -> Result<(), OutOfMemory>
    ensures ok { OnOk result (out.new.items ≡ out.old.items
        ++ acknowledgements now origin.source code origin.id (params_in said.now)) }
    ensures err { OnErr result (out.new.items ≡ out.old.items) }
{
    match acknowledgement(alloc, code, origin.id, said)? {
        Some(text) => send(out, origin.source, now, text),
        None => Ok(()),
    }
}
