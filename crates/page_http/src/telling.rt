//! What happened, as JSON. What came from outside goes in hexadecimal digits alone.
ghost use Rattle.std.specs.Prelude.{◌≡◌, ◌==◌, ◌&&◌, not, nat_lt, length, [], map, IfOk, OnOk, string_bytes};
ghost use Rattle.serde_json.specs.View.{view};
ghost use Rattle.page_state.specs.Keeping.{event_of};
ghost use Rattle.page_http.specs.Telling.{kind_word as word_of_kind, event_data, told_after, next_after, first_number, events_text as text_of_events};

use crate::label::put_said;
use crate::members::Object;
use page_state::{Happening, Kind, Ring};
use serde_json::Value;
use std::alloc::{AllocError, Global};

// So many are told at once.
const MOST_TOLD: usize = 128;

fn kind_word(kind: Kind) -> &'static str
    ensures { result.now ≡ word_of_kind kind }
{
    match kind {
        Kind::Received => "in",
        Kind::Sent => "out",
        Kind::Act => "act",
        Kind::Told => "told",
        Kind::GivenUp => "given up",
    }
}

// One that happened: when, what it was, and with whom. Nothing of its text but hexadecimal digits is told, and what its messages are.
fn happening_value(alloc: Global, happening: &Happening) -> Result<Value, AllocError>
    ensures { IfOk result (λ value. view value ≡ event_data (event_of happening.now)) }
{
    let mut object = Object::new(alloc);
    object.put_number("n", happening.number);
    object.put_number("at", happening.moment);
    object.put_text("kind", kind_word(happening.kind));
    object.put_string("peer", happening.peer.to_string(alloc));
    object.put_string("hex", hex::encode(alloc, happening.text.as_slice()));
    put_said(alloc, &mut object, happening.said.as_slice());
    object.end()
}

// Puts what is told of those behind a number. Gives the number of the last of them.
fn put_told(
    alloc: Global,
    list: &mut Vec<Value>,
    ring: &Ring,
    after: u64,
) -> Result<u64, AllocError>
    requires { list.old.items ≡ [] }
    ensures told { OnOk result (map view list.new.items ≡ map event_data (told_after MOST_TOLD after ring.now.events)) }
    ensures next { IfOk result (λ next. next ≡ next_after after ring.now) }
{
    let mut last = after.min(ring.last());
    for happening in ring.kept().iter() {
        if happening.number > after && list.len() < MOST_TOLD {
            list.push(happening_value(alloc, happening)?)?;
            last = happening.number;
        }
    }
    Ok(last)
}

// The number of the oldest that is kept, or of the next.
fn first_of(ring: &Ring) -> u64
    ensures { result ≡ first_number ring.now.last ring.now.events }
{
    match ring.kept().front() {
        Some(happening) => happening.number,
        None => ring.last().saturating_add(1),
    }
}

// Whether there is more than what is told, where anything is: the last of it has this number.
fn has_more(ring: &Ring, told: &[Value], last: u64) -> bool
    ensures { result ≡ (nat_lt last ring.now.last && not (length told.now == 0)) }
{
    last < ring.last() && !told.is_empty()
}

/// What happened after a number, oldest first: at most 128, and where to go on. `version` says which state is shown, `clock` is
/// the gateway's, in ms.
pub fn events_text(
    alloc: Global,
    ring: &Ring,
    after: u64,
    version: u64,
    clock: u64,
) -> Result<String, AllocError>
    ensures { IfOk result (λ text. string_bytes text ≡ text_of_events ring.now after version clock) }
{
    let mut list = Vec::new(alloc);
    let next = put_told(alloc, &mut list, ring, after)?;
    let more = has_more(ring, list.as_slice(), next);
    let mut object = Object::new(alloc);
    object.put_shown(version, clock, first_of(ring));
    object.put("events", Value::from(list));
    object.put_number("next", next);
    object.put_truth("more", more);
    let value = object.end()?;
    value.to_string(alloc)
}
