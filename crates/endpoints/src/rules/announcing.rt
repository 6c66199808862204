//! A line, or the gateway itself, announces that it is in service again; and what a response is to what is in flight
//! (RFC 3435, 2.3.12, 3.5, 4.4.6 and 4.4.7).
ghost use Rattle.std.specs.Prelude.{◌≡◌, ◌∷◌, [], ◌<◌, ◌^◌, true, codes, None, IsTrue, IfOk, OnOk, OnErr};
ghost use Rattle.std.specs.Option.{unwrap_or};
ghost use Rattle.std.specs.List.{list_all};
ghost use Rattle.mgcp_text.specs.Writing.{is_writable_param, is_writable};
ghost use Rattle.endpoint_names.specs.Table.{is_domain};
ghost use Rattle.plain_machine.specs.Announcing.{announced_lines, method_of, announcement, announced, announced_on};
ghost use Rattle.plain_machine.specs.Announcing.{heard_on, put_off, replied, replied_on};
ghost use Rattle.retransmission.specs.declared.restart.Restart.TheVariants.{Serving};
ghost use Rattle.endpoints.specs.Telling.{MayTell};
ghost use Rattle.endpoints.specs.Ids.{HasId};
ghost use Rattle.endpoints.specs.Effects.{HasEffect};
ghost use Rattle.endpoints.specs.Undoing.{IsUndoneByItsOwner};

use crate::rules::context::Context;
use crate::rules::posting::{Occasion, begin, redirect};
use endpoint_names::{Entity, Pattern, write_name};
use mg_bytes::OutOfMemory;
use mgcp_text::{Bytes, Message, Param, Params, TransactionId, Verb};
use plain_machine::{OutMessage, Post, PostOwner, Response, owner_of};
use retransmission::{Heard, Restart};

// Which lines are announced: the gateway itself announces all of its lines.
fn announced_lines(line: u16) -> Pattern
    ensures { result ≡ announced_lines line }
{
    match owner_of(line) {
        PostOwner::Gateway => Pattern::All,
        PostOwner::Line(line) => Pattern::One(line),
    }
}

// Why it is announced (RFC 3435, 2.3.12: RestartMethod).
#[tactic(auto, unfolding(mg_bytes::specs::Blanks::trimmed, mg_bytes::specs::Blanks::trimmed_end))]
fn method_param(line: u16) -> Param<'static>
    ensures value { result ≡ record { code = codes "RM"; value = method_of line } }
    ensures writable { is_writable_param result ≡ true }
{
    let code = Bytes::of(b"RM");
    match owner_of(line) {
        PostOwner::Gateway => Param {
            code,
            value: Bytes::of(b"restart"),
        },
        PostOwner::Line(_) => Param {
            code,
            value: Bytes::of(b"disconnected"),
        },
    }
}

fn announcement_params(context: Context<'_>, line: u16) -> Result<Params<'static>, OutOfMemory>
    ensures value { IfOk result (λ params. params ≡ (record { code = codes "RM"; value = method_of line }) ∷ []) }
    ensures writable { IfOk result (λ params. list_all is_writable_param params ≡ true) }
{
    let mut params: Params<'static> = Params::new(context.alloc);
    params.push(method_param(line))?;
    Ok(params)
}

// The announcement of a line, or of the gateway itself, under this id.
#[tactic(auto, unfolding(plain_machine::specs::Announcing::announcement))]
fn announcement(
    context: Context<'_>,
    line: u16,
    id: TransactionId,
) -> Result<Message<'static>, OutOfMemory>
    requires domain { is_domain context.setup.now.names.domain ≡ true }
    ensures value { IfOk result (λ said. said ≡ announcement context.entry.setup.now line id) }
    ensures writable { IfOk result (λ said. IsTrue (is_writable said)) }
{
    let domain = context.setup.names.domain.as_bytes();
    let name = write_name(context.alloc, announced_lines(line), domain)?;
    Ok(Message::Command {
        verb: Verb::Rsip,
        id,
        name: Bytes::owned(name),
        params: announcement_params(context, line)?,
        body: Bytes::of(b""),
    })
}

// An announcement begins under a post, whether or not it waits there.
#[tactic(auto, unfolding(plain_machine::specs::Announcing::announced))]
fn announced(
    context: Context<'_>,
    occasion: Occasion,
    post: &mut Post,
    out: &mut Vec<OutMessage>,
) -> Result<(), OutOfMemory>
    requires id { HasId occasion.line post.old.number }
    requires may { MayTell context.setup.now occasion.moment }
    ensures turn { OnOk result (HasEffect (announced context.entry.setup.now occasion.line occasion.moment post.old)
        post.new out.old.items out.new.items) }
    ensures id { HasId occasion.line post.new.number }
    ensures err { OnErr result (IsUndoneByItsOwner out.old.items out.new.items) }
{
    let id = post.number.id_on(occasion.line);
    let said = announcement(context, occasion.line, id)?;
    begin(context, occasion, post, &said, out)?;
    post.restart = Restart::Announced;
    Ok(())
}

/// What waits under a post announces itself: where nothing waits, nothing is sent. An error is for want of memory only.
pub(crate) fn announced_on(
    context: Context<'_>,
    occasion: Occasion,
    post: &mut Post,
    out: &mut Vec<OutMessage>,
) -> Result<(), OutOfMemory>
    requires id { HasId occasion.line post.old.number }
    requires may { MayTell context.setup.now occasion.moment }
    ensures turn { OnOk result (HasEffect
        (announced_on context.entry.setup.now occasion.line occasion.moment post.old)
        post.new out.old.items out.new.items) }
    ensures id { HasId occasion.line post.new.number }
    ensures err { OnErr result (IsUndoneByItsOwner out.old.items out.new.items) }
{
    match post.restart {
        Restart::Waiting(_) => announced(context, occasion, post, out),
        Restart::Announced => Ok(()),
        Restart::Serving => Ok(()),
    }
}

/// What a response is to the command in flight under a post, which its id joins it to (RFC 3435, 3.2.1.2).
pub fn heard_on(post: &Post, response: &Response) -> Heard
    ensures { result ≡ heard_on post.now response.now }
{
    match &post.pending {
        None => Heard::Nothing,
        Some(message) => {
            let reply = message.reply(response.id, response.code);
            post.restart.answer(reply, response.code, response.entity)
        }
    }
}

// A provisional response puts off what is due of a post.
fn put_off(response: &Response, moment: u64, post: &mut Post)
    requires { moment < 2 ^ 62 }
    ensures { post.new ≡ put_off response.now moment post.old }
{
    if let Some(message) = &mut post.pending {
        let _ = message.answer(response.id, response.code, moment);
    }
}

// The command in flight under a post is answered: the entity that the answer names is notified from now on.
fn end_flight(post: &mut Post, agent: Option<Entity>)
    ensures { post.new ≡ record post.old { entity = unwrap_or agent post.old.entity; pending = None; restart = Serving } }
{
    redirect(post, agent);
    post.pending = None;
    post.restart = Restart::Serving;
}

/// What becomes of a post at a response that is this to it. An error is for want of memory only.
#[tactic(auto, unfolding(plain_machine::specs::Announcing::replied))]
pub(crate) fn replied(
    context: Context<'_>,
    occasion: Occasion,
    post: &mut Post,
    response: &Response,
    heard: Heard,
    out: &mut Vec<OutMessage>,
) -> Result<(), OutOfMemory>
    requires id { HasId occasion.line post.old.number }
    requires may { MayTell context.setup.now occasion.moment }
    ensures turn { OnOk result (HasEffect
        (replied heard context.entry.setup.now occasion.line occasion.moment response.now post.old)
        post.new out.old.items out.new.items) }
    ensures id { HasId occasion.line post.new.number }
    ensures err { OnErr result (IsUndoneByItsOwner out.old.items out.new.items) }
{
    match heard {
        Heard::Nothing => {}
        Heard::PutOff => put_off(response, occasion.moment, post),
        Heard::Redirected(agent) => {
            post.entity = agent;
            announced(context, occasion, post, out)?;
        }
        Heard::Answered(agent) => end_flight(post, agent),
    }
    Ok(())
}

/// What becomes of a post at a response. An error is for want of memory only.
#[tactic(auto, unfolding(plain_machine::specs::Announcing::replied_on))]
pub fn replied_on(
    context: Context<'_>,
    occasion: Occasion,
    post: &mut Post,
    response: &Response,
    out: &mut Vec<OutMessage>,
) -> Result<(), OutOfMemory>
    requires id { HasId occasion.line post.old.number }
    requires may { MayTell context.setup.now occasion.moment }
    ensures turn { OnOk result (HasEffect
        (replied_on context.entry.setup.now occasion.line occasion.moment response.now post.old)
        post.new out.old.items out.new.items) }
    ensures id { HasId occasion.line post.new.number }
    ensures err { OnErr result (IsUndoneByItsOwner out.old.items out.new.items) }
{
    let heard = heard_on(post, response);
    replied(context, occasion, post, response, heard, out)
}
