//! What is done under a post, be it a line's or that of the gateway itself: a command begins, and is sent again or given
//! up (RFC 3435, 3.5 and 4.3).
ghost use Rattle.std.specs.Prelude.{◌≡◌, ◌<◌, ◌^◌, IsTrue, IfOk, OnOk, OnErr};
ghost use Rattle.std.specs.Option.{unwrap_or};
ghost use Rattle.mgcp_text.specs.Writing.{is_writable};
ghost use Rattle.plain_machine.specs.Posting.{wait_of, given_up, with_command, resent_on};
ghost use Rattle.endpoints.specs.Ids.{HasId};
ghost use Rattle.endpoints.specs.Effects.{HasEffect};
ghost use Rattle.endpoints.specs.Undoing.{IsUndoneByItsOwner};

use crate::rules::context::Context;
use crate::rules::sending::{again_label, begun_label, send};
use endpoint_names::Entity;
use mg_bytes::{OutOfMemory, Text};
use mgcp_text::{Message, write_message};
use plain_machine::{OutMessage, Post, PostOwner, Setup, owner_of};
use retransmission::{Pending, Repeat, Restart};

/// Which line it is, and what time (in ms). The gateway itself is line 0.
#[derive(Clone, Copy)]
pub struct Occasion {
    pub line: u16,
    pub moment: u64,
}

/// An equal command in flight, if there is one. An error is for want of memory only.
pub(crate) fn pending_of(pending: &Option<Pending>) -> Result<Option<Pending>, OutOfMemory>
    ensures { IfOk result (λ copy. copy ≡ pending.now) }
{
    match pending {
        None => Ok(None),
        Some(message) => Ok(Some(message.try_copy()?)),
    }
}

/// An equal post. An error is for want of memory only.
pub fn same_post(post: &Post) -> Result<Post, OutOfMemory>
    ensures { IfOk result (λ copy. copy ≡ post.now) }
{
    Ok(Post {
        entity: post.entity,
        number: post.number,
        pending: pending_of(&post.pending)?,
        restart: post.restart,
    })
}

/// A post becomes equal to another, of whose command in flight there is a copy.
pub(crate) fn copy_post(from: &Post, pending: Option<Pending>, into: &mut Post)
    requires { pending ≡ from.now.pending }
    ensures { into.new ≡ from.now }
{
    into.entity = from.entity;
    into.number = from.number;
    into.pending = pending;
    into.restart = from.restart;
}

/// What is sent under a post goes to this entity from now on, where one is given.
pub(crate) fn redirect(post: &mut Post, entity: Option<Entity>)
    ensures { post.new ≡ record post.old { entity = unwrap_or entity post.old.entity } }
{
    if let Some(entity) = entity {
        post.entity = entity;
    }
}

/// A command that can be written begins under a post: it goes out under the next id, and is in flight. An error is for
/// want of memory only.
pub(crate) fn begin(
    context: Context<'_>,
    occasion: Occasion,
    post: &mut Post,
    said: &Message<'_>,
    out: &mut Vec<OutMessage>,
) -> Result<(), OutOfMemory>
    requires id { HasId occasion.line post.old.number }
    requires early { occasion.moment < 2 ^ 62 }
    requires writable { IsTrue (is_writable said.now) }
    ensures turn { OnOk result (HasEffect (with_command occasion.line occasion.moment post.old said.now)
        post.new out.old.items out.new.items) }
    ensures id { HasId occasion.line post.new.number }
    ensures err { OnErr result (IsUndoneByItsOwner out.old.items out.new.items) }
{
    let id = post.number.id_on(occasion.line);
    let route = post.entity.route;
    let text = write_message(context.alloc, said)?;
    let pending = Pending::begin(context.alloc, id, route, text.as_bytes(), occasion.moment)?;
    let label = begun_label(occasion.line, said);
    send(out, route.at(0), occasion.moment, text, label)?;
    post.number = post.number.after_on(occasion.line, context.setup.first);
    post.pending = Some(pending);
    Ok(())
}

// How long the gateway itself waits before it announces itself, or a line that lost its agent (in ms).
fn wait_of(setup: &Setup, line: u16) -> u32
    ensures { result ≡ wait_of setup.now line }
{
    match owner_of(line) {
        PostOwner::Gateway => setup.restart_wait,
        PostOwner::Line(_) => setup.disconnected_wait,
    }
}

// The command in flight under a post is given up: the wait for an announcement begins.
fn give_up(context: Context<'_>, occasion: Occasion, post: &mut Post)
    requires { occasion.moment < 2 ^ 62 }
    ensures { post.new ≡ given_up context.entry.setup.now occasion.line occasion.moment post.old }
{
    post.pending = None;
    post.restart = Restart::begin(occasion.moment, wait_of(context.setup, occasion.line));
}

/// The command in flight under a post is sent again or given up. An error is for want of memory only.
pub(crate) fn resent_on(
    context: Context<'_>,
    occasion: Occasion,
    post: &mut Post,
    out: &mut Vec<OutMessage>,
) -> Result<(), OutOfMemory>
    requires { occasion.moment < 2 ^ 62 }
    ensures turn { OnOk result (HasEffect (resent_on context.entry.setup.now occasion.line occasion.moment post.old)
        post.new out.old.items out.new.items) }
    ensures number { post.new.number ≡ post.old.number }
    ensures err { OnErr result (IsUndoneByItsOwner out.old.items out.new.items) }
{
    let Some(message) = &mut post.pending else {
        return Ok(());
    };
    let label = again_label(occasion.line, message);
    match message.repeat(occasion.moment) {
        Repeat::GivenUp => give_up(context, occasion, post),
        Repeat::Sent => {
            let text = Text::of(Vec::from_slice(context.alloc, message.text())?);
            send(out, message.to(), occasion.moment, text, label)?;
        }
    }
    Ok(())
}
