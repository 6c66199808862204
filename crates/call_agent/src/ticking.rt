//! What falls due of the commands in flight (RFC 3435, 3.5.3 and 4.3).
ghost use Rattle.std.specs.Prelude.{◌<◌, ◌^◌, is_none};
ghost use Rattle.std.specs.Result.{result_err};
ghost use Rattle.retransmission.specs.Flight.{repeat_of};
ghost use Rattle.plain_machine.specs.Refusing.{ends};
ghost use Rattle.machine_rules.specs.Refusing.{tick_refusal};
ghost use Rattle.call_agent.specs.Choosing.{first_flight, if_due};
ghost use Rattle.call_agent.specs.Flying.{flown_on, pass, ticked};
ghost use Rattle.call_agent.specs.State.{kept_in, Flies, Happens};

use crate::flights::Flights;
use crate::state::{Context, State};
use machine_rules::tick_refusal;
use mg_bytes::{OutOfMemory, Text};
use plain_machine::{OutDatagram, Refusal};
use retransmission::{Pending, Repeat};
use std::alloc::Global;
use transmission::send;

// A command in flight, at its own moment: it goes out once more, or it is given up.
fn fly_on(
    alloc: Global,
    flights: &mut Flights,
    mut flight: Pending,
    out: &mut Vec<OutDatagram>,
) -> Result<(), OutOfMemory>
    requires { flight.due < 2 ^ 62 }
    ensures { Flies result (flown_on (repeat_of flight flight.due) flights.old.is flight) flights.old flights.new
        out.old.items out.new.items }
{
    let moment = flight.due();
    match flight.repeat(moment) {
        Repeat::Sent => {
            let text = Text::of(Vec::from_slice(alloc, flight.text())?);
            send(out, flight.to(), moment, text)?;
            flights.put(flight)?;
        }
        Repeat::GivenUp => flights.give_up(flight.id())?,
    }
    Ok(())
}

// What falls due up to a moment, the first first.
fn pass(
    alloc: Global,
    flights: &mut Flights,
    moment: u64,
    out: &mut Vec<OutDatagram>,
) -> Result<(), OutOfMemory>
    requires { moment < 2 ^ 62 }
    ensures { Flies result (pass flights.old.is moment) flights.old flights.new out.old.items out.new.items }
{
    for _ in 0..flights.most_due() {
        let Some(flight) = flights.first_due(moment) else {
            return Ok(());
        };
        let flight = flight.try_copy()?;
        fly_on(alloc, flights, flight, out)?;
    }
    Ok(())
}

/// A tick to a moment: what is sent. One up to which nothing is due takes no memory.
pub(crate) fn tick(
    context: Context<'_>,
    state: &mut State,
    moment: u64,
) -> Result<Vec<OutDatagram>, Refusal>
    requires { state.old.clock < 2 ^ 62 }
    ensures happens { Happens result (ticked (kept_in state.old) moment (pass state.old.flights.is moment)) state.old state.new }
    ensures ends { ends (tick_refusal state.old.clock moment)
        (is_none (if_due moment (first_flight state.old.flights.is))) (result_err result) }
{
    if let Some(refusal) = tick_refusal(state.clock, moment) {
        return Err(refusal);
    }
    let mut out = Vec::new(context.alloc);
    state.clock = moment;
    if state.flights.first_due(moment).is_none() {
        return Ok(out);
    }
    pass(context.alloc, &mut state.flights, moment, &mut out)?;
    Ok(out)
}
