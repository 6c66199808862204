//! The endpoints that an event changes, as it found them.
ghost use Rattle.std.specs.Prelude.{ℕ, ◌≡◌, ◌<◌, ◌≤◌, ◌+◌, [], false, true, length, slice_index_or, vec_capacity, IfOk, OnOk, OnErr};
ghost use Rattle.endpoints.specs.Saving.{with_saved, is_saved, with_mark, Popped, Forgotten, Fills, LeavesFilled};

use crate::rules::{copy_endpoint, same_endpoint};
use mg_bytes::OutOfMemory;
use plain_machine::Endpoint;
use std::alloc::Global;
use std::marker::Model;

/// An endpoint as an event found it.
#[derive(Drop)]
pub(crate) struct Saved {
    pub place: usize,
    pub endpoint: Endpoint,
}

/// The endpoints that an event changes, as it found them, in the order of their first touch. A contract sees them, and for how
/// many there is room.
///
/// The room of an endpoint outlives the event: that of its quarantine is made where more endpoints are saved than ever before.
#[derive(Drop)]
pub(crate) struct Saves {
    // The first `count` are saved; the others are room.
    slots: Vec<Saved>,
    count: usize,
}

impl Model for Saves {
    ghost use Rattle.std.specs.Prelude.{◌≤◌, length, take, vec_capacity};
    ghost use Rattle.endpoints.specs.Saving.{SavesState};

    ghost Value = { SavesState };

    ghost view = { λ s. record { list = take s.count s.slots.items; room = vec_capacity s.slots } };

    ghost invariant = { λ s. s.count ≤ length s.slots.items };
}

// A slot has this endpoint, which is at this place. After an error, which is for want of memory, what it has isn't said.
fn refill(slot: &mut Saved, place: usize, endpoint: &Endpoint) -> Result<(), OutOfMemory>
    ensures { OnOk result (slot.new ≡ record { place = place; endpoint = endpoint.now }) }
{
    copy_endpoint(endpoint, &mut slot.endpoint)?;
    slot.place = place;
    Ok(())
}

// Behind the first `count` slots one more has this endpoint, which is at this place. After an error, which is for want of
// memory, those slots are as they were.
fn fill(
    slots: &mut Vec<Saved>,
    count: usize,
    place: usize,
    endpoint: &Endpoint,
) -> Result<(), OutOfMemory>
    requires within { count ≤ length slots.old.items }
    requires room { count < vec_capacity slots.old }
    ensures ok { OnOk result (Fills (record { place = place; endpoint = endpoint.now }) count slots.old.items slots.new.items) }
    ensures err { OnErr result (LeavesFilled count slots.old.items slots.new.items) }
    ensures room { vec_capacity slots.new ≡ vec_capacity slots.old }
{
    if count < slots.len() {
        refill(&mut slots[count], place, endpoint)?;
        return Ok(());
    }
    let endpoint = same_endpoint(endpoint)?;
    slots.push_reserved(Saved { place, endpoint });
    Ok(())
}

/// A place is marked, if there is a mark for it.
pub(crate) fn mark(marks: &mut Vec<bool>, place: usize)
    ensures { marks.new.items ≡ with_mark place marks.old.items }
{
    if place < marks.len() {
        marks[place] = true;
    }
}

impl Saves {
    /// Nothing is saved, and there is room for so many. An error is for want of memory only.
    pub(crate) fn new(alloc: Global, room: usize) -> Result<Saves, OutOfMemory>
        ensures none { IfOk result (λ saves. saves.list ≡ []) }
        ensures room { IfOk result (λ saves. saves.room ≡ room) }
    {
        let slots = Vec::with_capacity(alloc, room)?;
        Ok(Saves { slots, count: 0 })
    }

    /// The endpoint at this place is saved too. After an error, which is for want of memory, all is as it was.
    pub(crate) fn save(&mut self, place: usize, endpoint: &Endpoint) -> Result<(), OutOfMemory>
        requires { length self.old.list < self.old.room }
        ensures ok { OnOk result (self.new ≡ with_saved place endpoint.now self.old) }
        ensures err { OnErr result (self.new ≡ self.old) }
    {
        fill(&mut self.slots, self.count, place, endpoint)?;
        self.count += 1;
        Ok(())
    }

    /// The places at which an endpoint is saved are marked, as far as there are marks.
    pub(crate) fn mark_all(&self, marks: &mut Vec<bool>)
        ensures marks { length marks.new.items ≡ length marks.old.items }
        ensures unmarked { (place : ℕ) → slice_index_or marks.new.items place true ≡ false → is_saved place self.now.list ≡ false }
    {
        for index in 0..self.count {
            mark(marks, self.slots[index].place);
        }
    }

    /// The place of what was saved last, which is so no more; `None` where nothing is. Its room stays.
    pub(crate) fn forget(&mut self) -> Option<usize>
        ensures last { Forgotten result self.old.list self.new.list }
        ensures room { self.new.room ≡ self.old.room }
    {
        if self.count == 0 {
            return None;
        }
        self.count -= 1;
        Some(self.slots[self.count].place)
    }

    /// Takes out what was saved last, with its room, and drops what was only room; `None` where nothing is saved, and then
    /// nothing changes.
    pub(crate) fn pop(&mut self) -> Option<Saved>
        ensures last { Popped result self.old.list self.new.list }
        ensures room { self.new.room ≡ self.old.room }
    {
        if self.count == 0 {
            return None;
        }
        self.slots.truncate(self.count);
        let last = self.slots.pop();
        self.count = self.slots.len();
        last
    }
}
