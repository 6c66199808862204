//! What an act at the telephone of an endpoint does.
ghost use Rattle.std.specs.Prelude.{IsTrue, OnOk, OnErr};
ghost use Rattle.mg_line.specs.Acting.{is_possible};
ghost use Rattle.plain_machine.specs.Acting.{acted_on};
ghost use Rattle.endpoints.specs.Telling.{MayTell, IsLine};
ghost use Rattle.endpoints.specs.Effects.{HasEffect};
ghost use Rattle.endpoints.specs.Undoing.{IsUndoneByItsOwner};

use crate::rules::context::Context;
use crate::rules::notifying::tell;
use crate::rules::posting::Occasion;
use mg_bytes::OutOfMemory;
use mg_line::Act;
use plain_machine::{Endpoint, OutMessage};

/// An act at the telephone of an endpoint, which its hook state allows. An error is for want of memory only.
#[tactic(auto, unfolding(plain_machine::specs::Notifying::noted))]
pub fn acted_on(
    context: Context<'_>,
    occasion: Occasion,
    endpoint: &mut Endpoint,
    act: Act,
    out: &mut Vec<OutMessage>,
) -> Result<(), OutOfMemory>
    requires possible { IsTrue (is_possible endpoint.old.line.hook act) }
    requires line { IsLine occasion.line }
    requires may { MayTell context.setup.now occasion.moment }
    ensures turn { OnOk result (HasEffect (acted_on context.entry.setup.now occasion.line occasion.moment act endpoint.old)
        endpoint.new out.old.items out.new.items) }
    ensures err { OnErr result (IsUndoneByItsOwner out.old.items out.new.items) }
{
    let notice = endpoint.line.phone(act, occasion.moment)?;
    tell(context, occasion, endpoint, notice, out)
}
