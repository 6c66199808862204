//! What an event does, with all that it sends: all of it, or nothing.
ghost use Rattle.std.specs.Prelude.{◌≡◌, is_ok, OnOk, OnErr};
ghost use Rattle.plain_machine.specs.Event.{event_of};
ghost use Rattle.plain_machine.specs.Happening.{effect};
ghost use Rattle.gateway_core.specs.Labelling.{labels_of};
ghost use Rattle.plain_machine.specs.GivingUp.{given_up_with};
ghost use Rattle.std.specs.Result.{result_err};
ghost use Rattle.plain_machine.specs.Refusing.{Ends};
ghost use Rattle.gateway_core.specs.Sound.{IsSound};
ghost use Rattle.gateway_core.specs.Alike.{Alike, GoesOn};
ghost use Rattle.gateway_core.specs.State.{machine_in, found_in, purged_in, Happens, PutsOut, AllOr};
ghost use Rattle.gateway_core.specs.Outcomes.{outcomes_of};
ghost use Rattle.gateway_core.specs.Accounts.{account_of};
ghost use Rattle.gateway_core.specs.AccountState.{account_in};
ghost use Rattle.gateway_core.specs.Changing.{Changes, StaysFound};

use crate::account::Account;
use crate::acting::act_on;
use crate::answering::take_datagram;
use crate::changing::mark;
use crate::outcomes::Outcomes;
use crate::parting::part;
use crate::state::State;
use crate::ticking::tick;
use endpoints::Context;
use plain_machine::{Event, GivenUpCommand, OutMessage, Outputs, Refusal};
use transmission::packed;

// An event happens, or is refused: what is to be sent, what its texts were, and what was given up.
#[tactic(auto, unfolding(plain_machine::specs::Happening::effect, plain_machine::specs::Refusing::refusal_of, plain_machine::specs::GivingUp::given_up_with, crate::specs::Outcomes::outcomes_of))]
fn happen(
    context: Context<'_>,
    state: &mut State,
    event: Event<'_>,
    told: &mut Outcomes,
    given_up: &mut Vec<GivenUpCommand>,
) -> Result<Vec<OutMessage>, Refusal>
    requires { IsSound context.setup.now (machine_in state.old) }
    ensures happens { Happens result (effect context.entry.setup.now (machine_in state.old) (event_of event.entry))
        state.old state.new }
    ensures told { OnOk result (told.new
        ≡ outcomes_of context.entry.setup.now (machine_in state.old) (event_of event.entry)) }
    ensures given_up { OnOk result (given_up.new.items
        ≡ given_up_with context.entry.setup.now (machine_in state.old) (event_of event.entry)) }
    ensures stays { OnOk result (StaysFound (event_of event.entry) state.old state.new) }
    ensures ends { Ends (machine_in state.old) (event_of event.entry) (result_err result) }
{
    told.clear();
    given_up.clear();
    match event {
        Event::Datagram { source, bytes } => take_datagram(context, state, source, bytes, told),
        Event::Phone { line, act } => act_on(context, state, line, act),
        Event::Tick { moment } => tick(context, state, moment, given_up),
    }
}

// An event happens, and what it sends goes out after the outputs that there are. After a refusal these are as they were,
// and what the event found can still be had.
fn carry_out(
    context: Context<'_>,
    state: &mut State,
    event: Event<'_>,
    told: &mut Outcomes,
    account: &mut Account,
    outputs: &mut Outputs,
) -> Result<(), Refusal>
    requires { IsSound context.setup.now (machine_in state.old) }
    ensures ok { OnOk result (PutsOut (effect context.entry.setup.now (machine_in state.old) (event_of event.entry))
        state.new outputs.old outputs.new) }
    ensures told { OnOk result (told.new
        ≡ outcomes_of context.entry.setup.now (machine_in state.old) (event_of event.entry)) }
    ensures labels { OnOk result (account.new.sent.items
        ≡ labels_of (effect context.entry.setup.now (machine_in state.old) (event_of event.entry)).sent) }
    ensures given_up { OnOk result (account.new.given_up.items
        ≡ given_up_with context.entry.setup.now (machine_in state.old) (event_of event.entry)) }
    ensures err { OnErr result (outputs.new ≡ outputs.old) }
    ensures found { OnErr result (found_in state.new ≡ found_in state.old) }
    ensures stays { OnOk result (StaysFound (event_of event.entry) state.old state.new) }
    ensures ends { Ends (machine_in state.old) (event_of event.entry) (result_err result) }
{
    let sent = happen(context, state, event, told, &mut account.given_up)?;
    if sent.is_empty() {
        account.sent.clear();
        return Ok(());
    }
    let datagrams = part(context.alloc, sent, &mut account.sent)?;
    outputs.append(packed(context.alloc, datagrams)?)?;
    Ok(())
}

// The same after a purge; after a refusal the machine is as it was too, but for the purge. The lines at which it may have changed
// something are marked, unless it is refused.
fn attempt(
    context: Context<'_>,
    state: &mut State,
    event: Event<'_>,
    told: &mut Outcomes,
    account: &mut Account,
    changed: &mut Vec<bool>,
    outputs: &mut Outputs,
) -> Result<(), Refusal>
    requires { IsSound context.setup.now (machine_in state.old) }
    ensures all { AllOr (purged_in (machine_in state.old)) result
        (effect context.entry.setup.now (purged_in (machine_in state.old)) (event_of event.entry))
        state.new outputs.old outputs.new }
    ensures told { OnOk result (told.new
        ≡ outcomes_of context.entry.setup.now (purged_in (machine_in state.old)) (event_of event.entry)) }
    ensures labels { OnOk result (account.new.sent.items
        ≡ labels_of (effect context.entry.setup.now (purged_in (machine_in state.old)) (event_of event.entry)).sent) }
    ensures given_up { OnOk result (account.new.given_up.items
        ≡ given_up_with context.entry.setup.now (purged_in (machine_in state.old)) (event_of event.entry)) }
    ensures changes { Changes (is_ok result) changed.new.items state.old.store.endpoints state.new.store.endpoints }
    ensures unmarked { OnErr result (changed.new ≡ changed.old) }
    ensures ends { Ends (machine_in state.old) (event_of event.entry) (result_err result) }
{
    let clock = state.clock;
    state.store.commit();
    state.history.purge(clock);
    match carry_out(context, state, event, told, account, outputs) {
        Ok(()) => {
            mark(&state.store, event, changed);
            state.store.commit();
            Ok(())
        }
        Err(refusal) => {
            state.store.rollback();
            state.history.undo();
            state.clock = clock;
            Err(refusal)
        }
    }
}

/// One event, whose outputs go after those that there are. What its texts were is told, what it sent, what was given up, and
/// at which lines it may have changed something, unless it is refused; after a refusal all that the gateway stands for stays.
// `attempt` meets its clauses at the machine after a purge. These say the same of each machine that is alike, and follow from those at
// the one call, and not at each way out of the work.
pub(crate) fn step_state(
    context: Context<'_>,
    state: &mut State,
    event: Event<'_>,
    told: &mut Outcomes,
    account: &mut Account,
    changed: &mut Vec<bool>,
    outputs: &mut Outputs,
) -> Result<(), Refusal>
    requires { IsSound context.setup.now (machine_in state.old) }
    ensures sound { IsSound context.entry.setup.now (machine_in state.new) }
    ensures ok { (m : _) → Alike (machine_in state.old) m → OnOk result
        (GoesOn context.entry.setup.now m (event_of event.entry) (machine_in state.new) outputs.old outputs.new) }
    ensures told { (m : _) → Alike (machine_in state.old) m → OnOk result
        (told.new ≡ outcomes_of context.entry.setup.now m (event_of event.entry)) }
    ensures account { (m : _) → Alike (machine_in state.old) m → OnOk result
        (account_in account.new ≡ account_of context.entry.setup.now m (event_of event.entry)) }
    ensures err { (m : _) → Alike (machine_in state.old) m → OnErr result (Alike (machine_in state.new) m) }
    ensures no_outputs { OnErr result (outputs.new ≡ outputs.old) }
    ensures changes { Changes (is_ok result) changed.new.items state.old.store.endpoints state.new.store.endpoints }
    ensures unmarked { OnErr result (changed.new ≡ changed.old) }
    ensures ends { Ends (machine_in state.old) (event_of event.entry) (result_err result) }
{
    attempt(context, state, event, told, account, changed, outputs)
}
