//! What is done at a text that came in a datagram.
ghost use Rattle.std.specs.Prelude.{◌≡◌, ◌<◌, ◌^◌, nat_lt, length, IfSome, None};
ghost use Rattle.std.specs.Result.{result_err, result_ok};
ghost use Rattle.mgcp_text.specs.Reading.{outcome_of, read_text};
ghost use Rattle.transmission.specs.Texts.{largest_datagram, texts_of};
ghost use Rattle.plain_machine.specs.Refusing.{ends};
ghost use Rattle.call_agent.specs.Hearing.{handled, left_done, took_all};
ghost use Rattle.call_agent.specs.State.{kept_in, Does, Happens};

use crate::responding::respond;
use crate::state::{Context, State};
use crate::taking::execute;
use mg_bytes::OutOfMemory;
use mgcp_text::{Message, TextFault, read_message};
use plain_machine::{OutDatagram, Refusal};
use std::net::SocketAddrV4;
use transmission::{Origin, hear, texts};

// What is left to the agent at a text that it heard (`left_done`).
fn handle(
    context: Context<'_>,
    state: &mut State,
    source: SocketAddrV4,
    read: &Result<Message<'_>, TextFault>,
    text: &[u8],
    out: &mut Vec<OutDatagram>,
) -> Result<(), OutOfMemory>
    requires { state.old.clock < 2 ^ 62 }
    ensures { Does result (left_done context.entry.setup.now (result_ok read.now) (kept_in state.old) source text.now)
        state.old state.new out.old.items out.new.items }
{
    let Ok(said) = read else {
        return Ok(());
    };
    match said {
        Message::Command { verb, id, name, .. } => {
            let origin = Origin { source, id: *id };
            execute(context, state, origin, *verb, name.as_slice(), said, out)
        }
        Message::Response { code, id, .. } => respond(context, state, *id, *code, text),
    }
}

// A text, by what it was read as (`handled`).
#[tactic(auto, unfolding(crate::specs::Hearing::handled, crate::specs::Responding::responded))]
fn take_read(
    context: Context<'_>,
    state: &mut State,
    source: SocketAddrV4,
    read: &Result<Message<'_>, TextFault>,
    text: &[u8],
    out: &mut Vec<OutDatagram>,
) -> Result<(), OutOfMemory>
    requires clock { state.old.clock < 2 ^ 62 }
    requires read { IfSome (outcome_of read.now) (λ outcome. outcome ≡ read_text text.now) }
    ensures { Does result (handled context.entry.setup.now (kept_in state.old) source text.now)
        state.old state.new out.old.items out.new.items }
{
    if !hear(
        context.alloc,
        &mut state.history,
        source,
        state.clock,
        read,
        out,
    )? {
        return Ok(());
    }
    handle(context, state, source, read, text, out)?;
    Ok(())
}

// A text. Nothing fails beside what it is read as: a check pays for a large value at each step.
fn take(
    context: Context<'_>,
    state: &mut State,
    source: SocketAddrV4,
    text: &[u8],
    out: &mut Vec<OutDatagram>,
) -> Result<(), OutOfMemory>
    requires { state.old.clock < 2 ^ 62 }
    ensures { Does result (handled context.entry.setup.now (kept_in state.old) source text.now)
        state.old state.new out.old.items out.new.items }
{
    let read = read_message(context.alloc, text);
    take_read(context, state, source, &read, text, out)
}

/// A datagram: what is sent. Its texts are taken in their order, each completely; one that is too long does nothing, and takes
/// no memory.
pub(crate) fn take_datagram(
    context: Context<'_>,
    state: &mut State,
    source: SocketAddrV4,
    bytes: &[u8],
) -> Result<Vec<OutDatagram>, Refusal>
    requires { state.old.clock < 2 ^ 62 }
    ensures happens { Happens result (took_all context.entry.setup.now (kept_in state.old) source (texts_of bytes.now))
        state.old state.new }
    ensures ends { ends None (nat_lt largest_datagram (length bytes.now)) (result_err result) }
{
    let mut out = Vec::new(context.alloc);
    let Some(mut rest) = texts(bytes) else {
        return Ok(out);
    };
    while let Some(text) = rest.next() {
        take(context, state, source, text, &mut out)?;
    }
    Ok(out)
}
