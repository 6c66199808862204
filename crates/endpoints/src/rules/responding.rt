//! What a response does to an endpoint (RFC 3435, 3.5, 4.4.1, 4.4.6 and 4.4.7).
ghost use Rattle.std.specs.Prelude.{◌≡◌, ℕ, OnOk, OnErr};
ghost use Rattle.mg_line.specs.Answering.{answered};
ghost use Rattle.plain_machine.specs.Effect.{silently};
ghost use Rattle.plain_machine.specs.Notifying.{noted};
ghost use Rattle.plain_machine.specs.Responding.{responded_on, redirected_on, opened_on};
ghost use Rattle.endpoints.specs.Telling.{MayTell, IsLine};
ghost use Rattle.endpoints.specs.Effects.{HasEffect};
ghost use Rattle.endpoints.specs.Undoing.{IsUndoneByItsOwner};

use crate::rules::announcing::{heard_on, replied};
use crate::rules::context::Context;
use crate::rules::notifying::tell;
use crate::rules::posting::{Occasion, redirect};
use endpoint_names::Entity;
use mg_bytes::OutOfMemory;
use plain_machine::{Endpoint, OutMessage, Response};
use retransmission::Heard;

/// What a response does to an endpoint. An error is for want of memory only.
#[tactic(auto, unfolding(plain_machine::specs::Responding::responded_on))]
pub fn responded_on(
    context: Context<'_>,
    occasion: Occasion,
    endpoint: &mut Endpoint,
    response: &Response,
    out: &mut Vec<OutMessage>,
) -> Result<(), OutOfMemory>
    requires line { IsLine occasion.line }
    requires may { MayTell context.setup.now occasion.moment }
    ensures turn { OnOk result (HasEffect
        (responded_on context.entry.setup.now occasion.line occasion.moment response.now endpoint.old)
        endpoint.new out.old.items out.new.items) }
    ensures err { OnErr result (IsUndoneByItsOwner out.old.items out.new.items) }
{
    let heard = heard_on(&endpoint.post, response);
    match heard {
        Heard::Nothing => Ok(()),
        Heard::PutOff => replied(context, occasion, &mut endpoint.post, response, heard, out),
        Heard::Redirected(_) => {
            replied(context, occasion, &mut endpoint.post, response, heard, out)
        }
        Heard::Answered(_) => {
            replied(context, occasion, &mut endpoint.post, response, heard, out)?;
            answered_on(context, occasion, endpoint, out)
        }
    }
}

// The answer to the command that was in flight comes to the line of an endpoint.
#[tactic(auto, unfolding(plain_machine::specs::Notifying::noted))]
fn answered_on(
    context: Context<'_>,
    occasion: Occasion,
    endpoint: &mut Endpoint,
    out: &mut Vec<OutMessage>,
) -> Result<(), OutOfMemory>
    requires line { IsLine occasion.line }
    requires may { MayTell context.setup.now occasion.moment }
    ensures turn { OnOk result (HasEffect (noted context.entry.setup.now occasion.line occasion.moment
        endpoint.old (answered endpoint.old.line occasion.moment))
        endpoint.new out.old.items out.new.items) }
    ensures err { OnErr result (IsUndoneByItsOwner out.old.items out.new.items) }
{
    let notice = endpoint.line.answered(occasion.moment)?;
    tell(context, occasion, endpoint, notice, out)
}

/// The line of an endpoint notifies this entity from now on.
#[tactic(auto, unfolding(plain_machine::specs::Responding::redirected_on))]
pub fn redirected_on(endpoint: &mut Endpoint, entity: Entity)
    ensures { (line : ℕ) → silently endpoint.new ≡ redirected_on entity line endpoint.old }
{
    endpoint.post.entity = entity;
}

/// The gateway serves from now on: an endpoint notifies the entity that is given, and its quarantined events occur
/// (RFC 3435, 4.4.1). An error is for want of memory only.
#[tactic(auto, unfolding(plain_machine::specs::Responding::opened_on, plain_machine::specs::Notifying::noted))]
pub fn opened_on(
    context: Context<'_>,
    occasion: Occasion,
    endpoint: &mut Endpoint,
    entity: Option<Entity>,
    out: &mut Vec<OutMessage>,
) -> Result<(), OutOfMemory>
    requires line { IsLine occasion.line }
    requires may { MayTell context.setup.now occasion.moment }
    ensures turn { OnOk result (HasEffect
        (opened_on entity context.entry.setup.now occasion.moment occasion.line endpoint.old)
        endpoint.new out.old.items out.new.items) }
    ensures err { OnErr result (IsUndoneByItsOwner out.old.items out.new.items) }
{
    let notice = endpoint.line.opened(occasion.moment)?;
    redirect(&mut endpoint.post, entity);
    tell(context, occasion, endpoint, notice, out)
}
