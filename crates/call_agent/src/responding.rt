//! What a response does to a command of the agent's in flight (RFC 3435, 3.5 and 3.5.6).
ghost use Rattle.std.specs.Prelude.{◌≡◌, ◌<◌, ◌^◌, find, OnOk};
ghost use Rattle.retransmission.specs.declared.reply.Reply.TheVariants as replies;
ghost use Rattle.retransmission.specs.Flight.{InFlight};
ghost use Rattle.call_agent.specs.Choosing.{has_id};
ghost use Rattle.call_agent.specs.Responding.{replied, responded_to};
ghost use Rattle.call_agent.specs.State.{kept_in, found_in};

use crate::state::{Context, State};
use mg_bytes::{OutOfMemory, Text};
use mgcp_text::TransactionId;
use retransmission::{Answer, Answered, Reply};

// A final response lands the command with this id: it is its answer.
fn land(
    context: Context<'_>,
    state: &mut State,
    id: TransactionId,
    code: u16,
    text: &[u8],
) -> Result<(), OutOfMemory>
    ensures ok { (heard : InFlight) → heard.id ≡ id → OnOk result (kept_in state.new
        ≡ replied replies.Answered (kept_in state.old) heard code text.now) }
    ensures found { found_in state.new ≡ found_in state.old }
{
    let text = Text::of(Vec::from_slice(context.alloc, text)?);
    state.flights.land(id)?;
    state.answers.push(Answered {
        id: id.number(),
        answer: Answer { code, text },
    })?;
    Ok(())
}

/// What a response with this text is to the command in flight with its id, if there is one.
pub(crate) fn respond(
    context: Context<'_>,
    state: &mut State,
    id: TransactionId,
    code: u16,
    text: &[u8],
) -> Result<(), OutOfMemory>
    requires { state.old.clock < 2 ^ 62 }
    ensures ok { OnOk result (kept_in state.new
        ≡ responded_to (find (has_id id) state.old.flights.is) (kept_in state.old) code id text.now) }
    ensures found { found_in state.new ≡ found_in state.old }
{
    let Some(flight) = state.flights.with_id(id) else {
        return Ok(());
    };
    let mut heard = flight.try_copy()?;
    match heard.answer(id, code, state.clock) {
        Reply::Answered => land(context, state, heard.id(), code, text),
        Reply::Provisional => state.flights.put(heard),
        Reply::Stranger => Ok(()),
    }
}
