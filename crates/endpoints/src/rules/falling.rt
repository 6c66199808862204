//! What falls due on an endpoint, and under a post: of a line the end of timer T and the ends of signals; and of a post the
//! repeats of the command in flight, and the announcement, each at its own moment (RFC 3435, 2.1.5, 2.1.7, 3.5.3 and
//! 4.4.6).
ghost use Rattle.std.specs.Prelude.{◌≡◌, option_map, OnOk, OnErr};
ghost use Rattle.mg_line.specs.Falling.{due_of};
ghost use Rattle.retransmission.specs.Restarting.{announced_at};
ghost use Rattle.plain_machine.specs.Falling.{line_item, command_item, announcement_item, post_due, due_on};
ghost use Rattle.plain_machine.specs.Falling.{happened_on, happened_under};
ghost use Rattle.endpoints.specs.Telling.{MayTell, IsLine};
ghost use Rattle.endpoints.specs.Ids.{HasId};
ghost use Rattle.endpoints.specs.Effects.{HasEffect};
ghost use Rattle.endpoints.specs.Undoing.{IsUndoneByItsOwner};

use crate::rules::announcing::announced_on;
use crate::rules::context::Context;
use crate::rules::notifying::tell;
use crate::rules::posting::{Occasion, resent_on};
use mg_bytes::OutOfMemory;
use plain_machine::{Endpoint, OutMessage, Post};
use timers::{DueItem, DueKind, earlier};

// What falls due first of a line.
fn line_item(line: u16, endpoint: &Endpoint) -> Option<DueItem>
    ensures { result ≡ option_map (line_item line) (due_of endpoint.now.line) }
{
    let (moment, due) = endpoint.line.due()?;
    Some(DueItem {
        moment,
        line,
        kind: DueKind::OfLine(due),
    })
}

// When the command in flight under a post is due.
fn command_item(line: u16, post: &Post) -> Option<DueItem>
    ensures { result ≡ option_map (command_item line) post.now.pending }
{
    match &post.pending {
        None => None,
        Some(message) => Some(DueItem {
            moment: message.due(),
            line,
            kind: DueKind::Resend,
        }),
    }
}

// When the announcement under a post is due, where it waits.
fn announcement_item(line: u16, post: &Post) -> Option<DueItem>
    ensures { result ≡ option_map (announcement_item line) (announced_at post.now.restart) }
{
    let moment = post.restart.due()?;
    Some(DueItem {
        moment,
        line,
        kind: DueKind::Announce,
    })
}

/// What falls due first of a post: that of a line, or of the gateway itself, which is line 0. It takes no memory.
#[tactic(auto, unfolding(plain_machine::specs::Falling::post_due))]
pub fn post_due(line: u16, post: &Post) -> Option<DueItem>
    ensures { result ≡ post_due line post.now }
{
    earlier(command_item(line, post), announcement_item(line, post))
}

/// What falls due first on the endpoint of this line.
#[tactic(auto, unfolding(plain_machine::specs::Falling::due_on))]
pub fn due_on(line: u16, endpoint: &Endpoint) -> Option<DueItem>
    ensures { result ≡ due_on (line, endpoint.now) }
{
    earlier(line_item(line, endpoint), post_due(line, &endpoint.post))
}

/// What falls due happens to an endpoint. An error is for want of memory only.
#[tactic(auto, unfolding(plain_machine::specs::Falling::happened_on, plain_machine::specs::Notifying::noted))]
pub fn happened_on(
    context: Context<'_>,
    occasion: Occasion,
    endpoint: &mut Endpoint,
    kind: DueKind,
    out: &mut Vec<OutMessage>,
) -> Result<(), OutOfMemory>
    requires line { IsLine occasion.line }
    requires may { MayTell context.setup.now occasion.moment }
    ensures turn { OnOk result (HasEffect
        (happened_on kind context.entry.setup.now occasion.line occasion.moment endpoint.old)
        endpoint.new out.old.items out.new.items) }
    ensures err { OnErr result (IsUndoneByItsOwner out.old.items out.new.items) }
{
    match kind {
        DueKind::OfLine(due) => {
            let notice = endpoint.line.fire(due, occasion.moment)?;
            tell(context, occasion, endpoint, notice, out)
        }
        DueKind::Resend => resent_on(context, occasion, &mut endpoint.post, out),
        DueKind::Announce => announced_on(context, occasion, &mut endpoint.post, out),
    }
}

/// What falls due under a post happens: nothing that falls due of lines. An error is for want of memory only.
#[tactic(auto, unfolding(plain_machine::specs::Falling::happened_under))]
pub fn happened_under(
    context: Context<'_>,
    occasion: Occasion,
    post: &mut Post,
    kind: DueKind,
    out: &mut Vec<OutMessage>,
) -> Result<(), OutOfMemory>
    requires id { HasId occasion.line post.old.number }
    requires may { MayTell context.setup.now occasion.moment }
    ensures turn { OnOk result (HasEffect
        (happened_under kind context.entry.setup.now occasion.line occasion.moment post.old)
        post.new out.old.items out.new.items) }
    ensures id { HasId occasion.line post.new.number }
    ensures err { OnErr result (IsUndoneByItsOwner out.old.items out.new.items) }
{
    match kind {
        DueKind::OfLine(_) => Ok(()),
        DueKind::Resend => resent_on(context, occasion, post, out),
        DueKind::Announce => announced_on(context, occasion, post, out),
    }
}
