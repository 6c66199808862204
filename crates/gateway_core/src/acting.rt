//! What an act at a telephone does.
ghost use Rattle.plain_machine.specs.Machine.{told_in, endpoint_at};
ghost use Rattle.plain_machine.specs.Acting.{acted};
ghost use Rattle.std.specs.Result.{result_err};
ghost use Rattle.plain_machine.specs.Refusing.{act_refusal, is_unheeded, ends};
ghost use Rattle.endpoints.specs.Telling.{MayTell};
ghost use Rattle.gateway_core.specs.State.{machine_in, Happens};

use crate::state::State;
use endpoints::{Context, Occasion, acted_on};
use machine_rules::act_refusal;
use mg_line::Act;
use plain_machine::{OutMessage, Refusal};

/// An act at the telephone of a line: what is sent. One that the line doesn't heed takes no memory.
#[tactic(auto, unfolding(plain_machine::specs::Machine::on_line))]
pub(crate) fn act_on(
    context: Context<'_>,
    state: &mut State,
    line: u16,
    act: Act,
) -> Result<Vec<OutMessage>, Refusal>
    requires { MayTell context.setup.now state.old.clock }
    ensures happens { Happens result (told_in (machine_in state.old)
        (acted context.entry.setup.now state.old.store.endpoints line state.old.clock act)) state.old state.new }
    ensures ends { ends (act_refusal (endpoint_at state.old.store.endpoints line) act)
        (is_unheeded (endpoint_at state.old.store.endpoints line) act) (result_err result) }
{
    let Some(endpoint) = state.store.endpoint(line) else {
        return Err(Refusal::NoSuchLine);
    };
    if let Some(refusal) = act_refusal(endpoint.line.takes(act)) {
        return Err(refusal);
    }
    let mut out = Vec::new(context.alloc);
    if !endpoint.line.heeds(act) {
        state.store.pass_over(line, act);
        return Ok(out);
    }
    let occasion = Occasion {
        line,
        moment: state.clock,
    };
    let Context { alloc, setup } = context;
    state.store.change(line, &mut out, |endpoint, out| {
        acted_on(Context { alloc, setup }, occasion, endpoint, act, out)
    })??;
    Ok(out)
}
