//! The quarantine of a line, a row each. It has room for as many events as that of a line, `MOST_QUARANTINED`.
//!
//! - `room 2` a new one with room for so many; `hold L/hf` this event comes; `clear` all are dropped;
//! - `take L/hf` what came first is taken out; `take -` there is nothing;
//! - `holds 64`, `lost 1`: so many are held, and so many found no room;
//! - `into 2`: it goes on as its copy, in a quarantine that had room for so many, and held one event;
//! - `keep` and `back`: the quarantine as it was once.
use crate::events::observed_of;
use crate::keeping::{Held, Kept};
use event_syntax::write_observed;
use events_and_signals::Buffer;
use mg_bytes::OutOfMemory;
use mg_line::MOST_QUARANTINED;
use packages::Observed;
use scenario_files::{Outcome, Row, Scenario};
use std::alloc::Global;

// `L/hf`: this event comes.
fn hold(held: &mut Held<Buffer>, row: &mut Row<'_>) {
    let word = row.rest();
    match observed_of(&mut row.given, word) {
        Some(event) => held.thing.hold(event),
        None => row.given.unread(),
    }
}

// What came first.
fn put_taken(given: &mut Outcome, taken: Option<Observed>) {
    match taken {
        Some(first) => given.put_text(write_observed(given.alloc, &[first])),
        None => given.put(b"-"),
    }
}

// A quarantine with room for so many.
fn with_room(alloc: Global, room: u32) -> Result<Held<Buffer>, OutOfMemory> {
    Held::of(alloc, Buffer::new(alloc, room as usize)?)
}

// Its copy in another quarantine, with room for so many, which held one event.
fn copy_into(alloc: Global, held: &Held<Buffer>, room: u32) -> Result<Held<Buffer>, OutOfMemory> {
    let mut other = with_room(alloc, room)?;
    other.thing.hold(Observed::default());
    other.thing.try_copy_from(&held.thing)?;
    Ok(other)
}

// Another quarantine stands in its place.
fn become_other(
    held: &mut Held<Buffer>,
    given: &mut Outcome,
    other: Result<Held<Buffer>, OutOfMemory>,
) {
    match other {
        Ok(other) => *held = other,
        Err(_) => given.refuse(),
    }
}

impl Scenario for Held<Buffer> {
    fn begin(alloc: Global) -> Result<Held<Buffer>, OutOfMemory> {
        Held::of(alloc, Buffer::new(alloc, MOST_QUARANTINED)?)
    }

    fn turn(&mut self, row: &mut Row<'_>) {
        match row.before(" ") {
            "room" => {
                let room = row.number();
                let other = with_room(row.given.alloc, room);
                become_other(self, &mut row.given, other);
            }
            "into" => {
                let room = row.number();
                let other = copy_into(row.given.alloc, self, room);
                become_other(self, &mut row.given, other);
            }
            "hold" => hold(self, row),
            "clear" => self.thing.clear(),
            "take" => put_taken(&mut row.given, self.thing.take()),
            "holds" => row.given.put_shown(self.thing.count()),
            "lost" => row.given.put_shown(self.thing.lost()),
            _ => row.given.unread(),
        }
    }
}

impl Kept for Held<Buffer> {
    fn copy(&self, alloc: Global) -> Result<Held<Buffer>, OutOfMemory> {
        Held::of(alloc, self.thing.try_copy()?)
    }
}
