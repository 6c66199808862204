//! A deed on the lines that a command is for: on all of them, or on none (RFC 3435, 2.3.2 to 2.3.9 and 3.2.1.3).
ghost use Rattle.std.specs.Prelude.{◌≡◌, IfOk, OnErr};
ghost use Rattle.plain_machine.specs.Machine.{endpoint_at, on_line};
ghost use Rattle.plain_machine.specs.Requesting.{refusal_on, refused_by, deed_on};
ghost use Rattle.plain_machine.specs.Requesting.{deed_on_all, shown_on, shown_of, line_with_place};
ghost use Rattle.endpoints.specs.News.{shown_as};
ghost use Rattle.endpoints.specs.Telling.{MayTell};
ghost use Rattle.endpoints.specs.Undoing.{IsUndoneByItsOwner};
ghost use Rattle.endpoints.specs.Tells.{Tells};

use crate::rules::{Context, News, Occasion, deed_on, has_place, refusal_by};
use crate::store::Store;
use command_forms::{Deed, Target};
use mg_bytes::OutOfMemory;
use plain_machine::{Endpoint, OutMessage};

// The code with which a line refuses a deed, if that is for it.
fn refusal_on(lines: Target, deed: &Deed, number: u16, endpoint: &Endpoint) -> Option<u16>
    ensures { result ≡ refusal_on lines deed.now (number, endpoint.now) }
{
    if !lines.is_for(number) {
        return None;
    }
    refusal_by(deed, endpoint)
}

// The code of the least line that refuses a deed, where it may be for several.
#[tactic(auto, unfolding(plain_machine::specs::Requesting::refused_by))]
fn refused_by_one_of(store: &Store, lines: Target, deed: &Deed) -> Option<u16>
    ensures { result ≡ refused_by store.now.endpoints lines deed.now }
{
    let list = store.list();
    for (place, endpoint) in list.iter().enumerate() {
        if let Some(code) = refusal_on(lines, deed, place as u16 + 1, endpoint) {
            return Some(code);
        }
    }
    None
}

/// The code of the least line that refuses a deed. It takes no memory.
pub fn refused_by(store: &Store, lines: Target, deed: &Deed) -> Option<u16>
    ensures { result ≡ refused_by store.now.endpoints lines deed.now }
{
    match lines {
        Target::One(line) => match store.endpoint(line) {
            Some(endpoint) => refusal_by(deed, endpoint),
            None => None,
        },
        Target::All | Target::Any => refused_by_one_of(store, lines, deed),
    }
}

// A deed on this line: what there is to be told of its connections.
#[tactic(auto, unfolding(plain_machine::specs::Machine::on_line))]
fn deed_on_line(
    context: Context<'_>,
    store: &mut Store,
    occasion: Occasion,
    deed: &Deed,
    sent: &mut Vec<OutMessage>,
) -> Result<News, OutOfMemory>
    requires { MayTell context.setup.now occasion.moment }
    ensures told { Tells result (on_line store.old.endpoints occasion.line (deed_on context.entry.setup.now deed.now
        occasion.moment occasion.line)) store.old store.new sent.old.items sent.new.items }
    ensures news { IfOk result (λ news. shown_as news ≡ shown_on (endpoint_at store.old.endpoints occasion.line) deed.now) }
    ensures err { OnErr result (IsUndoneByItsOwner sent.old.items sent.new.items) }
{
    let Some(_) = store.endpoint(occasion.line) else {
        return Ok(News::Nothing);
    };
    let Context { alloc, setup } = context;
    store.change(occasion.line, sent, |endpoint, sent| {
        deed_on(Context { alloc, setup }, occasion, endpoint, deed, sent)
    })?
}

// A deed on each line that it is for, in the order of their numbers, which none of them refuses.
fn deed_on_each(
    context: Context<'_>,
    store: &mut Store,
    moment: u64,
    lines: Target,
    deed: &Deed,
    sent: &mut Vec<OutMessage>,
) -> Result<(), OutOfMemory>
    requires { MayTell context.setup.now moment }
    ensures { Tells result (deed_on_all context.entry.setup.now store.old.endpoints lines deed.now moment)
        store.old store.new sent.old.items sent.new.items }
{
    for place in 0..store.list().len() {
        let line = place as u16 + 1;
        if lines.is_for(line) {
            deed_on_line(context, store, Occasion { line, moment }, deed, sent)?;
        }
    }
    Ok(())
}

// The same, where all of it goes out, or, after an error, nothing.
fn deed_on_several(
    context: Context<'_>,
    store: &mut Store,
    moment: u64,
    lines: Target,
    deed: &Deed,
    sent: &mut Vec<OutMessage>,
) -> Result<(), OutOfMemory>
    requires { MayTell context.setup.now moment }
    ensures told { Tells result (deed_on_all context.entry.setup.now store.old.endpoints lines deed.now moment)
        store.old store.new sent.old.items sent.new.items }
    ensures err { OnErr result (IsUndoneByItsOwner sent.old.items sent.new.items) }
{
    let mut all = Vec::new(context.alloc);
    deed_on_each(context, store, moment, lines, deed, &mut all)?;
    sent.append(&mut all)?;
    Ok(())
}

/// A deed on each line that it is for, in the order of their numbers, which none of them refuses: what there is to be told
/// of connections, of one line that of its connections, of all lines nothing. After an error, which is for want of memory,
/// nothing goes out, and what the event found can still be had.
#[tactic(auto, unfolding(plain_machine::specs::Requesting::shown_of))]
pub fn deed_on_all(
    context: Context<'_>,
    store: &mut Store,
    moment: u64,
    lines: Target,
    deed: &Deed,
    sent: &mut Vec<OutMessage>,
) -> Result<News, OutOfMemory>
    requires { MayTell context.setup.now moment }
    ensures told { Tells result (deed_on_all context.entry.setup.now store.old.endpoints lines deed.now moment)
        store.old store.new sent.old.items sent.new.items }
    ensures news { IfOk result (λ news. shown_as news ≡ shown_of store.old.endpoints lines deed.now) }
    ensures err { OnErr result (IsUndoneByItsOwner sent.old.items sent.new.items) }
{
    match lines {
        Target::One(line) => deed_on_line(context, store, Occasion { line, moment }, deed, sent),
        Target::All | Target::Any => {
            deed_on_several(context, store, moment, lines, deed, sent)?;
            Ok(News::Nothing)
        }
    }
}

/// The least line that has a place for one more connection.
#[tactic(auto, unfolding(plain_machine::specs::Requesting::line_with_place))]
pub fn line_with_place(store: &Store) -> Option<u16>
    ensures { result ≡ line_with_place store.now.endpoints }
{
    let list = store.list();
    for (place, endpoint) in list.iter().enumerate() {
        if has_place(endpoint) {
            return Some(place as u16 + 1);
        }
    }
    None
}
