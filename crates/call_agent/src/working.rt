//! What an event does, with all that it sends: all of it, or nothing.
ghost use Rattle.std.specs.Prelude.{◌≡◌, IfOk, OnErr};
ghost use Rattle.std.specs.Result.{result_err};
ghost use Rattle.plain_machine.specs.Event.{event_of};
ghost use Rattle.call_agent.specs.Hearing.{AgentEnds, agent_effect, hears};
ghost use Rattle.call_agent.specs.Agent.{AgentMachine};
ghost use Rattle.call_agent.specs.AgentAlike.{AgentAlike};
ghost use Rattle.call_agent.specs.AgentStands.{IsAgentSound};
ghost use Rattle.call_agent.specs.State.{kept_in, found_in, machine_of, purged_in, Happens, PutsOut, AllOr, GoesOnAs};

use crate::hearing::take_datagram;
use crate::state::{Context, State};
use crate::ticking::tick;
use plain_machine::{Event, OutDatagram, Outputs, Refusal};
use transmission::packed;

// An event happens, or is refused: what is to be sent.
#[tactic(auto, unfolding(crate::specs::Hearing::agent_effect))]
fn happen(
    context: Context<'_>,
    state: &mut State,
    event: Event<'_>,
) -> Result<Vec<OutDatagram>, Refusal>
    requires { IsAgentSound context.setup.now (kept_in state.old) }
    ensures happens { Happens result (agent_effect context.entry.setup.now (kept_in state.old) (hears (event_of event.entry)))
        state.old state.new }
    ensures ends { AgentEnds (kept_in state.old) (event_of event.entry) (result_err result) }
{
    match event {
        Event::Datagram { source, bytes } => take_datagram(context, state, source, bytes),
        Event::Phone { .. } => Err(Refusal::NoSuchLine),
        Event::Tick { moment } => tick(context, state, moment),
    }
}

// An event happens, and this goes out. After a refusal what the event found can still be had.
fn carry_out(context: Context<'_>, state: &mut State, event: Event<'_>) -> Result<Outputs, Refusal>
    requires { IsAgentSound context.setup.now (kept_in state.old) }
    ensures ok { IfOk result (λ outputs. PutsOut (agent_effect context.entry.setup.now (kept_in state.old)
        (hears (event_of event.entry))) state.new outputs) }
    ensures found { OnErr result (found_in state.new ≡ found_in state.old) }
    ensures ends { AgentEnds (kept_in state.old) (event_of event.entry) (result_err result) }
{
    let sent = happen(context, state, event)?;
    if sent.is_empty() {
        return Ok(Outputs::new(context.alloc));
    }
    Ok(packed(context.alloc, sent)?)
}

// What the next event finds is what is there, but for transactions that can't matter any more.
fn commit(state: &mut State)
    ensures kept { kept_in state.new ≡ purged_in (kept_in state.old) }
    ensures found { machine_of state.old.clock (found_in state.new) ≡ purged_in (kept_in state.old) }
{
    state.flights.commit();
    state.answers.commit();
    state.told.commit();
    state.history.purge(state.clock);
}

// An event that came at this moment failed: all is again what it found.
fn rollback(state: &mut State, clock: u64)
    ensures { kept_in state.new ≡ machine_of clock (found_in state.old) }
{
    state.flights.rollback();
    state.answers.rollback();
    state.told.rollback();
    state.history.undo();
    state.clock = clock;
}

// An event, after a purge; after a refusal the agent is as it was, but for the purge.
fn attempt(context: Context<'_>, state: &mut State, event: Event<'_>) -> Result<Outputs, Refusal>
    requires { IsAgentSound context.setup.now (kept_in state.old) }
    ensures all { AllOr (purged_in (kept_in state.old)) result
        (agent_effect context.entry.setup.now (purged_in (kept_in state.old)) (hears (event_of event.entry))) state.new }
    ensures ends { AgentEnds (kept_in state.old) (event_of event.entry) (result_err result) }
{
    let clock = state.clock;
    commit(state);
    match carry_out(context, state, event) {
        Ok(outputs) => Ok(outputs),
        Err(refusal) => {
            rollback(state, clock);
            Err(refusal)
        }
    }
}

/// One event: what goes out. After a refusal all that the agent stands for stays.
// `attempt` meets its clauses at the agent after a purge. These say the same of each agent that is alike, and follow from those at the
// one call.
pub(crate) fn step_state(
    context: Context<'_>,
    state: &mut State,
    event: Event<'_>,
) -> Result<Outputs, Refusal>
    requires { IsAgentSound context.setup.now (kept_in state.old) }
    ensures sound { IsAgentSound context.entry.setup.now (kept_in state.new) }
    ensures ok { (m : AgentMachine) → AgentAlike (kept_in state.old) m → IfOk result (λ outputs.
        GoesOnAs (agent_effect context.entry.setup.now m (hears (event_of event.entry))) (kept_in state.new) outputs) }
    ensures err { (m : AgentMachine) → AgentAlike (kept_in state.old) m → OnErr result (AgentAlike (kept_in state.new) m) }
    ensures ends { AgentEnds (kept_in state.old) (event_of event.entry) (result_err result) }
{
    attempt(context, state, event)
}
