//! What a response does to the line of its id, or to the gateway itself and then to all lines (RFC 3435, 3.5, 4.4.1, 4.4.6
//! and 4.4.7).
ghost use Rattle.std.specs.Prelude.{◌≡◌, [], OnErr};
ghost use Rattle.mgcp_text.specs.Message.{params_in};
ghost use Rattle.plain_machine.specs.Machine.{on_line, on_own};
ghost use Rattle.plain_machine.specs.Responding.{responded_on, redirected_on, opened_on};
ghost use Rattle.plain_machine.specs.Announcing.{replied_on};
ghost use Rattle.plain_machine.specs.Responding.{on_all, lines_told, own_heard, responded, entity_in, response_with};
ghost use Rattle.endpoints.specs.Telling.{MayTell};
ghost use Rattle.endpoints.specs.Undoing.{IsUndoneByItsOwner};
ghost use Rattle.endpoints.specs.Tells.{Tells};

use crate::rules::{
    Context, Occasion, heard_on, opened_on, redirected_on, replied_on, responded_on,
};
use crate::store::Store;
use endpoint_names::{Entity, read_entity};
use mg_bytes::OutOfMemory;
use mgcp_text::{Message, TransactionId, param_at};
use plain_machine::{OutMessage, PostOwner, Response, line_of_id, owner_of};
use retransmission::Heard;

// What a response does to this line.
#[tactic(auto, unfolding(plain_machine::specs::Machine::on_line))]
fn respond_on_line(
    context: Context<'_>,
    store: &mut Store,
    occasion: Occasion,
    response: &Response,
    out: &mut Vec<OutMessage>,
) -> Result<(), OutOfMemory>
    requires { MayTell context.setup.now occasion.moment }
    ensures told { Tells result (on_line store.old.endpoints occasion.line
        (responded_on context.entry.setup.now occasion.line occasion.moment response.now))
        store.old store.new out.old.items out.new.items }
    ensures err { OnErr result (IsUndoneByItsOwner out.old.items out.new.items) }
{
    let Some(endpoint) = store.endpoint(occasion.line) else {
        return Ok(());
    };
    // What says nothing to the line changes nothing, and takes no memory.
    if let Heard::Nothing = heard_on(&endpoint.post, response) {
        return Ok(());
    }
    let Context { alloc, setup } = context;
    store.change(occasion.line, out, |endpoint, out| {
        responded_on(Context { alloc, setup }, occasion, endpoint, response, out)
    })?
}

// What a response does to the post of the gateway itself.
fn respond_to_own(
    context: Context<'_>,
    store: &mut Store,
    moment: u64,
    response: &Response,
    out: &mut Vec<OutMessage>,
) -> Result<(), OutOfMemory>
    requires { MayTell context.setup.now moment }
    ensures { Tells result (on_own store.old.endpoints (replied_on context.entry.setup.now 0 moment response.now))
        store.old store.new out.old.items out.new.items }
{
    let Context { alloc, setup } = context;
    store.change_own(out, |post, out| {
        replied_on(
            Context { alloc, setup },
            Occasion { line: 0, moment },
            post,
            response,
            out,
        )
    })?
}

// This line notifies another agent from now on.
#[tactic(auto, unfolding(plain_machine::specs::Machine::on_line))]
fn redirect_line(store: &mut Store, line: u16, agent: Entity) -> Result<(), OutOfMemory>
    ensures { Tells result (on_line store.old.endpoints line (redirected_on agent line)) store.old store.new [] [] }
{
    let Some(_) = store.endpoint(line) else {
        return Ok(());
    };
    store.change(line, &mut (), |endpoint, _| redirected_on(endpoint, agent))?;
    Ok(())
}

// And so does each line.
fn redirect_all(store: &mut Store, agent: &Entity) -> Result<(), OutOfMemory>
    ensures { Tells result (on_all store.old.endpoints (redirected_on agent.now)) store.old store.new [] [] }
{
    for place in 0..store.list().len() {
        redirect_line(store, place as u16 + 1, *agent)?;
    }
    Ok(())
}

// The gateway serves this line from now on.
#[tactic(auto, unfolding(plain_machine::specs::Machine::on_line))]
fn open_line(
    context: Context<'_>,
    store: &mut Store,
    occasion: Occasion,
    agent: Option<Entity>,
    out: &mut Vec<OutMessage>,
) -> Result<(), OutOfMemory>
    requires { MayTell context.setup.now occasion.moment }
    ensures { Tells result (on_line store.old.endpoints occasion.line
        (opened_on agent context.entry.setup.now occasion.moment occasion.line))
        store.old store.new out.old.items out.new.items }
{
    let Some(_) = store.endpoint(occasion.line) else {
        return Ok(());
    };
    let Context { alloc, setup } = context;
    store.change(occasion.line, out, |endpoint, out| {
        opened_on(Context { alloc, setup }, occasion, endpoint, agent, out)
    })?
}

// And so it does each line, in the order of their numbers.
fn open_all(
    context: Context<'_>,
    store: &mut Store,
    moment: u64,
    agent: &Option<Entity>,
    out: &mut Vec<OutMessage>,
) -> Result<(), OutOfMemory>
    requires { MayTell context.setup.now moment }
    ensures { Tells result (on_all store.old.endpoints (opened_on agent.now context.entry.setup.now moment))
        store.old store.new out.old.items out.new.items }
{
    for place in 0..store.list().len() {
        let line = place as u16 + 1;
        open_line(context, store, Occasion { line, moment }, *agent, out)?;
    }
    Ok(())
}

// What comes to all lines where this is heard by the gateway itself.
fn tell_lines(
    context: Context<'_>,
    store: &mut Store,
    moment: u64,
    heard: Heard,
    out: &mut Vec<OutMessage>,
) -> Result<(), OutOfMemory>
    requires { MayTell context.setup.now moment }
    ensures { Tells result (lines_told heard context.entry.setup.now moment store.old.endpoints)
        store.old store.new out.old.items out.new.items }
{
    match heard {
        Heard::Nothing => Ok(()),
        Heard::PutOff => Ok(()),
        Heard::Redirected(agent) => redirect_all(store, &agent),
        Heard::Answered(agent) => open_all(context, store, moment, &agent, out),
    }
}

// What a response does to the gateway itself, and then to its lines.
fn respond_itself(
    context: Context<'_>,
    store: &mut Store,
    moment: u64,
    response: &Response,
    out: &mut Vec<OutMessage>,
) -> Result<(), OutOfMemory>
    requires { MayTell context.setup.now moment }
    ensures { Tells result (own_heard context.entry.setup.now store.old.endpoints moment response.now)
        store.old store.new out.old.items out.new.items }
{
    let heard = heard_on(store.own(), response);
    respond_to_own(context, store, moment, response, out)?;
    tell_lines(context, store, moment, heard, out)
}

// The same, where all of it goes out, or, after an error, nothing.
fn respond_whole(
    context: Context<'_>,
    store: &mut Store,
    moment: u64,
    response: &Response,
    out: &mut Vec<OutMessage>,
) -> Result<(), OutOfMemory>
    requires { MayTell context.setup.now moment }
    ensures told { Tells result (own_heard context.entry.setup.now store.old.endpoints moment response.now)
        store.old store.new out.old.items out.new.items }
    ensures err { OnErr result (IsUndoneByItsOwner out.old.items out.new.items) }
{
    let mut sent = Vec::new(context.alloc);
    respond_itself(context, store, moment, response, &mut sent)?;
    out.append(&mut sent)?;
    Ok(())
}

// What a response does to whom its id names. After an error, which is for want of memory, nothing goes out, and what the event
// found can still be had.
fn respond_to_its_id(
    context: Context<'_>,
    store: &mut Store,
    moment: u64,
    response: &Response,
    out: &mut Vec<OutMessage>,
) -> Result<(), OutOfMemory>
    requires { MayTell context.setup.now moment }
    ensures told { Tells result (responded context.entry.setup.now store.old.endpoints moment response.now)
        store.old store.new out.old.items out.new.items }
    ensures err { OnErr result (IsUndoneByItsOwner out.old.items out.new.items) }
{
    match owner_of(line_of_id(response.id)) {
        PostOwner::Gateway => respond_whole(context, store, moment, response, out),
        PostOwner::Line(line) => {
            respond_on_line(context, store, Occasion { line, moment }, response, out)
        }
    }
}

// Whom the first N of a response names, where that can be read (RFC 3435, 3.2.2: NotifiedEntity).
fn entity_in(context: Context<'_>, said: &Message<'_>) -> Option<Entity>
    ensures { result ≡ entity_in context.entry.setup.now (params_in said.now) }
{
    let param = param_at(b"N", said.params())?;
    read_entity(param.value.as_slice(), &context.setup.names.table)
}

/// What a response does at this moment (in ms) to the line of its id, or to the gateway itself and then to all lines.
pub fn respond(
    context: Context<'_>,
    store: &mut Store,
    moment: u64,
    id: TransactionId,
    code: u16,
    said: &Message<'_>,
    out: &mut Vec<OutMessage>,
) -> Result<(), OutOfMemory>
    requires { MayTell context.setup.now moment }
    ensures { Tells result (responded context.entry.setup.now store.old.endpoints moment
        (response_with context.entry.setup.now id code (params_in said.now)))
        store.old store.new out.old.items out.new.items }
{
    let response = Response {
        id,
        code,
        entity: entity_in(context, said),
    };
    respond_to_its_id(context, store, moment, &response, out)
}
