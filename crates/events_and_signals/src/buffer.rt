//! The quarantined events of a line.

use circular_buffer::{HeapCircularBuffer, Iter};
use mg_bytes::OutOfMemory;
use packages::Observed;
use std::alloc::Global;
use std::marker::Model;

/// The quarantined events of a line, in the order in which they came, and the count of those that were lost (RFC 3435,
/// 4.4.1).
///
/// A contract sees the events, for how many there is room, and the count.
#[derive(Drop)]
pub struct Buffer {
    // A ring of one block: an event stays where it was put, also when others are taken out.
    events: HeapCircularBuffer<Observed>,
    lost: u64,
}

impl Model for Buffer {
    ghost use Rattle.events_and_signals.specs.Held.{Held};

    ghost Value = { Held };

    ghost view = { λ b. record { events = b.events.items; room = b.events.capacity; lost = b.lost } };
}

impl Buffer {
    ghost use Rattle.std.specs.Prelude.{◌≡◌, ◌≢◌, ◌<◌, ◌≤◌, ◌^◌, IfOk, IfErr, OnOk, OnErr, length, slice_get};
    ghost use Rattle.std.specs.Map.Iter.{ShowsInOrder, deref};
    ghost use Rattle.packages.specs.declared.observed.Observed.{Observed};
    ghost use Rattle.events_and_signals.specs.Held.{nothing_held, holding, first_of, without_first, without_front, cleared};

    /// No events, and room for so many. An error is for want of memory only.
    pub fn new(alloc: Global, room: usize) -> Result<Self, OutOfMemory>
        ensures { IfOk result (λ buffer. buffer ≡ nothing_held room) }
    {
        Ok(Buffer {
            events: HeapCircularBuffer::with_capacity(alloc, room)?,
            lost: 0,
        })
    }

    /// The same events, room and count, in memory of its own. An error is for want of memory only.
    pub fn try_copy(&self) -> Result<Self, OutOfMemory>
        ensures { IfOk result (λ copy. copy ≡ self.now) }
    {
        let mut copy = Buffer::new(*self.events.allocator(), self.events.capacity())?;
        copy.fill_from(self);
        Ok(copy)
    }

    /// Becomes equal to another. Where it has as much room as that one, this takes no memory, and as long as what that one
    /// holds; else the room is made anew. An error is for want of memory only, and then it is as it was.
    pub fn try_copy_from(&mut self, other: &Buffer) -> Result<(), OutOfMemory>
        ensures ok { OnOk result (self.new ≡ other.now) }
        ensures err { OnErr result (self.new ≡ self.old) }
        ensures in_its_room { IfErr result (λ _. self.old.room ≢ other.now.room) }
    {
        if self.events.capacity() == other.events.capacity() {
            self.fill_from(other);
        } else {
            *self = other.try_copy()?;
        }
        Ok(())
    }

    // Becomes equal to another that has as much room.
    fn fill_from(&mut self, other: &Buffer)
        requires { self.old.room ≡ other.now.room }
        ensures { self.new ≡ other.now }
    {
        let _room = other.events.capacity();
        let (front, back) = other.events.as_slices();
        let held = &mut self.events;
        held.clear();
        held.extend_from_slice(front);
        held.extend_from_slice(back);
        self.lost = other.lost;
    }

    /// An event comes: it stands behind the others where there is room; else it is lost, and the count of lost events is
    /// one more, up to its greatest value. This takes no memory.
    #[tactic(auto, unfolding(crate::specs::Held::holding))]
    pub fn hold(&mut self, event: Observed)
        ensures { self.new ≡ holding self.old event }
    {
        match self.events.try_push_back(event) {
            Ok(()) => {}
            Err(_lost) => self.lost = self.lost.saturating_add(1),
        }
    }

    /// Takes out the event that came first; `None` where there is none, and then nothing changes. The others aren't moved.
    pub fn take(&mut self) -> Option<Observed>
        ensures value { result ≡ first_of self.old.events }
        ensures rest { self.new ≡ without_first self.old }
    {
        self.events.pop_front()
    }

    /// The event before which so many came; `None` where there is none.
    pub fn nth(&self, count: usize) -> Option<Observed>
        ensures value { result ≡ slice_get self.now.events count }
        ensures few { length self.now.events < 2 ^ 63 }
    {
        let _count = self.events.len();
        match self.events.get(count) {
            None => None,
            Some(event) => Some(*event),
        }
    }

    /// How many events there are.
    pub fn count(&self) -> usize
        ensures value { result ≡ length self.now.events }
        ensures few { result < 2 ^ 63 }
    {
        self.events.len()
    }

    /// Drops so many events, those that came first; all, where there are no more. They don't count as lost.
    #[tactic(auto, using(crate::proofs::FrontLemmas::front_dropped))]
    pub fn drop_front(&mut self, count: usize)
        ensures { self.new ≡ without_front count self.old }
    {
        let left = self.events.len().saturating_sub(count);
        self.events.truncate_front(left);
    }

    /// Drops all events. They don't count as lost.
    pub fn clear(&mut self)
        ensures { self.new ≡ cleared self.old }
    {
        self.events.clear();
    }

    /// How many events found no room since the quarantine was made, up to 18,446,744,073,709,551,615.
    pub fn lost(&self) -> u64
        ensures { result ≡ self.now.lost }
    {
        self.lost
    }

    /// The events, in the order in which they came.
    pub fn iter(&self) -> Iter<'_, Observed>
        ensures value { result ≡ self.now.events }
        ensures few { length result ≤ self.now.room }
        ensures runs { ShowsInOrder (deref {X = Observed}) }
    {
        let _room = self.events.capacity();
        self.events.iter()
    }
}
