//! What falls due happens, the first first, each thing at its own moment (RFC 3435, 2.1.5, 2.1.7, 3.5.3 and 4.4.6).
ghost use Rattle.std.specs.Prelude.{◌≡◌, ◌++◌, OnOk, OnErr};
ghost use Rattle.plain_machine.specs.Machine.{on_line, on_own};
ghost use Rattle.plain_machine.specs.Falling.{is_due, happened_on, happened_under, happened, pass};
ghost use Rattle.plain_machine.specs.GivingUp.{given_up_until};
ghost use Rattle.endpoints.specs.Telling.{MayTell};
ghost use Rattle.endpoints.specs.Undoing.{IsUndoneByItsOwner};
ghost use Rattle.endpoints.specs.Tells.{Tells};

use crate::giving_up::{given_up_at, note};
use crate::rules::{Context, Occasion, happened_on, happened_under};
use crate::store::Store;
use mg_bytes::OutOfMemory;
use plain_machine::{GivenUpCommand, OutMessage, PostOwner, owner_of};
use timers::{DueItem, DueKind};

/// Whether something is due up to a moment (in ms). It takes no memory.
pub fn is_due(store: &Store, moment: u64) -> bool
    ensures { result ≡ is_due store.now.endpoints moment }
{
    store.due_by(moment).is_some()
}

// What falls due on this line happens.
#[tactic(auto, unfolding(plain_machine::specs::Machine::on_line))]
fn happen_on_line(
    context: Context<'_>,
    store: &mut Store,
    occasion: Occasion,
    kind: DueKind,
    out: &mut Vec<OutMessage>,
) -> Result<(), OutOfMemory>
    requires { MayTell context.setup.now occasion.moment }
    ensures { Tells result (on_line store.old.endpoints occasion.line
        (happened_on kind context.entry.setup.now occasion.line occasion.moment))
        store.old store.new out.old.items out.new.items }
{
    let Some(_) = store.endpoint(occasion.line) else {
        return Ok(());
    };
    let Context { alloc, setup } = context;
    store.change(occasion.line, out, |endpoint, out| {
        happened_on(Context { alloc, setup }, occasion, endpoint, kind, out)
    })?
}

// What falls due of the gateway itself happens.
fn happen_itself(
    context: Context<'_>,
    store: &mut Store,
    moment: u64,
    kind: DueKind,
    out: &mut Vec<OutMessage>,
) -> Result<(), OutOfMemory>
    requires { MayTell context.setup.now moment }
    ensures { Tells result (on_own store.old.endpoints (happened_under kind context.entry.setup.now 0 moment))
        store.old store.new out.old.items out.new.items }
{
    let Context { alloc, setup } = context;
    store.change_own(out, |post, out| {
        happened_under(
            Context { alloc, setup },
            Occasion { line: 0, moment },
            post,
            kind,
            out,
        )
    })?
}

// What falls due happens at its own moment.
fn happen(
    context: Context<'_>,
    store: &mut Store,
    item: DueItem,
    out: &mut Vec<OutMessage>,
) -> Result<(), OutOfMemory>
    requires { MayTell context.setup.now item.moment }
    ensures { Tells result (happened context.entry.setup.now store.old.endpoints item)
        store.old store.new out.old.items out.new.items }
{
    let DueItem { moment, line, kind } = item;
    match owner_of(line) {
        PostOwner::Gateway => happen_itself(context, store, moment, kind, out),
        PostOwner::Line(line) => {
            happen_on_line(context, store, Occasion { line, moment }, kind, out)
        }
    }
}

// What is due up to a moment happens, the first first.
fn happen_all(
    context: Context<'_>,
    store: &mut Store,
    moment: u64,
    out: &mut Vec<OutMessage>,
    given_up: &mut Vec<GivenUpCommand>,
) -> Result<(), OutOfMemory>
    requires { MayTell context.setup.now moment }
    ensures told { Tells result (pass context.entry.setup.now store.old.endpoints moment)
        store.old store.new out.old.items out.new.items }
    ensures given_up { OnOk result (given_up.new.items
        ≡ given_up.old.items ++ given_up_until context.entry.setup.now store.old.endpoints moment) }
{
    while let Some(item) = store.due_by(moment) {
        let found = given_up_at(store, item);
        note(given_up, found)?;
        happen(context, store, item, out)?;
    }
    Ok(())
}

/// What is due up to a moment (in ms) happens, the first first, each thing at its own moment; what is given up is noted behind
/// what was given up before. After an error, which is for want of memory, nothing goes out, and what the event found can still
/// be had.
pub fn pass(
    context: Context<'_>,
    store: &mut Store,
    moment: u64,
    out: &mut Vec<OutMessage>,
    given_up: &mut Vec<GivenUpCommand>,
) -> Result<(), OutOfMemory>
    requires { MayTell context.setup.now moment }
    ensures told { Tells result (pass context.entry.setup.now store.old.endpoints moment)
        store.old store.new out.old.items out.new.items }
    ensures given_up { OnOk result (given_up.new.items
        ≡ given_up.old.items ++ given_up_until context.entry.setup.now store.old.endpoints moment) }
    ensures err { OnErr result (IsUndoneByItsOwner out.old.items out.new.items) }
{
    let mut sent = Vec::new(context.alloc);
    happen_all(context, store, moment, &mut sent, given_up)?;
    out.append(&mut sent)?;
    Ok(())
}
