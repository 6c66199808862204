//! What a tick does.
ghost use Rattle.std.specs.Prelude.{◌≡◌, ◌++◌, not, OnOk};
ghost use Rattle.plain_machine.specs.Falling.{is_due, pass};
ghost use Rattle.plain_machine.specs.GivingUp.{given_up_until};
ghost use Rattle.plain_machine.specs.Happening.{ticked};
ghost use Rattle.std.specs.Result.{result_err};
ghost use Rattle.plain_machine.specs.Refusing.{ends};
ghost use Rattle.machine_rules.specs.Refusing.{tick_refusal};
ghost use Rattle.endpoints.specs.Telling.{MayTell};
ghost use Rattle.gateway_core.specs.State.{machine_in, found_in, Happens};

use crate::state::State;
use endpoints::{Context, is_due, pass};
use machine_rules::tick_refusal;
use plain_machine::{GivenUpCommand, OutMessage, Refusal};

/// A tick to a moment: what is sent; and what is given up is noted behind what was given up before. One up to which nothing is
/// due takes no memory.
pub(crate) fn tick(
    context: Context<'_>,
    state: &mut State,
    moment: u64,
    given_up: &mut Vec<GivenUpCommand>,
) -> Result<Vec<OutMessage>, Refusal>
    requires { MayTell context.setup.now state.old.clock }
    ensures happens { Happens result (ticked (machine_in state.old) moment
        (pass context.entry.setup.now state.old.store.endpoints moment)) state.old state.new }
    ensures given_up { OnOk result (given_up.new.items
        ≡ given_up.old.items ++ given_up_until context.entry.setup.now state.old.store.endpoints moment) }
    ensures found { OnOk result (found_in state.new ≡ found_in state.old) }
    ensures ends { ends (tick_refusal state.old.clock moment)
        (not (is_due state.old.store.endpoints moment)) (result_err result) }
{
    if let Some(refusal) = tick_refusal(state.clock, moment) {
        return Err(refusal);
    }
    let mut out = Vec::new(context.alloc);
    state.clock = moment;
    if !is_due(&state.store, moment) {
        return Ok(out);
    }
    pass(context, &mut state.store, moment, &mut out, given_up)?;
    Ok(out)
}
