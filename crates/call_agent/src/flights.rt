//! The commands in flight, and the id of the next.
ghost use Rattle.std.specs.Prelude.{◌≡◌, ◌<◌, ◌≤◌, ◌*◌, ◌++◌, ◌∷◌, [], length, find, position, slice_set, slice_index_or, OnOk, OnErr, OnSome, option_copied, option_map};
ghost use Rattle.call_agent.specs.Flights.{flights_in, holds_id, exchanged, sooner_at, put_back, none_from, begun, settled, undone};
ghost use Rattle.call_agent.specs.Choosing.{has_id, first_flight, if_due, with_flight, without_flight};

use mg_bytes::OutOfMemory;
use mgcp_text::TransactionId;
use retransmission::Pending;
use std::alloc::{AllocError, Global};
use std::marker::Model;
use std::mem;

/// What a place held before an event changed it.
#[derive(Drop)]
struct Saved {
    place: usize,
    flight: Option<Pending>,
}

/// The commands in flight, in the order of their ids, and the id of the next. A contract sees that, and their list, as it is
/// and as the event that happens found it.
///
/// What was there before a change is saved, so that it can be put back; that takes no memory. What landed leaves its place
/// empty until the event is over.
pub struct Flights {
    alloc: Global,
    next: u32,
    places: Vec<Option<Pending>>,
    saved: Vec<Saved>,
}

// Written out: a derived drop, and those of all its parts, are proved anew by each crate that lets one go.
impl Drop for Flights {
    fn drop(self) {
        let Flights {
            alloc: _,
            next: _,
            places,
            saved,
        } = self;
        mem::drop(places);
        mem::drop(saved);
    }
}

impl Model for Flights {
    ghost use Rattle.call_agent.specs.Flights.{Commands, flights_in, restored};

    ghost Value = { Commands };

    ghost view = { λ f. record {
      next = f.next;
      is = flights_in f.places.items;
      found = flights_in (restored f.saved.items f.places.items);
    } };
}

impl Flights {
    /// Nothing is in flight, and the ids begin with the first. This takes no memory yet.
    #[tactic(auto, unfolding(crate::specs::Flights::restored))]
    pub fn none(alloc: Global, first: u32) -> Flights
        ensures { result ≡ none_from first }
    {
        Flights {
            alloc,
            next: first,
            places: Vec::new(alloc),
            saved: Vec::new(alloc),
        }
    }

    /// The id of the next command.
    pub fn next_id(&self) -> u32
        ensures { result ≡ self.now.next }
    {
        self.next
    }

    /// The flight with this id.
    pub fn with_id(&self, id: TransactionId) -> Option<&Pending>
        ensures { option_copied result ≡ find (has_id id) self.now.is }
    {
        flight_with(&self.places, id)
    }

    /// The flight of which something falls due first up to a moment (in ms).
    pub fn first_due(&self, moment: u64) -> Option<&Pending>
        ensures { option_copied result ≡ if_due moment (first_flight self.now.is) }
    {
        let flight = first_flight(&self.places)?;
        if flight.due() <= moment {
            Some(flight)
        } else {
            None
        }
    }

    /// When something falls due next, in ms.
    pub fn next_due(&self) -> Option<u64>
        ensures { result ≡ option_map (λ flight. flight.due) (first_flight self.now.is) }
    {
        let flight = first_flight(&self.places)?;
        Some(flight.due())
    }

    /// How many things fall due at most: of each flight seven repeats, and its end.
    pub fn most_due(&self) -> u64
        ensures { result ≡ 8 * length self.now.is }
    {
        8 * count(&self.places) as u64
    }

    /// A flight goes on as this one, which has its id. After an error all is as it was.
    pub fn put(&mut self, flight: Pending) -> Result<(), OutOfMemory>
        ensures ok { OnOk result (self.new ≡ record self.old { is = with_flight flight self.old.is }) }
        ensures err { OnErr result (self.new ≡ self.old) }
    {
        self.exchange(flight.id(), Some(flight))
    }

    /// The command with this id was answered: it isn't in flight any more. After an error all is as it was.
    pub fn land(&mut self, id: TransactionId) -> Result<(), OutOfMemory>
        ensures ok { OnOk result (self.new ≡ record self.old { is = without_flight id self.old.is }) }
        ensures err { OnErr result (self.new ≡ self.old) }
    {
        self.exchange(id, None)
    }

    /// The command with this id is given up: it isn't in flight any more, and its id isn't used again (RFC 3435, 3.2.1.2).
    /// After an error all is as it was.
    pub fn give_up(&mut self, id: TransactionId) -> Result<(), OutOfMemory>
        ensures ok { OnOk result (self.new ≡ record self.old { is = without_flight id self.old.is }) }
        ensures err { OnErr result (self.new ≡ self.old) }
    {
        self.land(id)
    }

    // What is in flight with this id becomes this.
    fn exchange(&mut self, id: TransactionId, becomes: Option<Pending>) -> Result<(), OutOfMemory>
        ensures ok { OnOk result (self.new ≡ record self.old { is = exchanged id becomes self.old.is }) }
        ensures err { OnErr result (self.new ≡ self.old) }
    {
        let Some(place) = place_of(&self.places, id) else {
            return Ok(());
        };
        let flight = replaced(&mut self.places, place, becomes);
        match self.saved.push(Saved { place, flight }) {
            Ok(()) => Ok(()),
            Err(refused) => {
                put_back(&mut self.places, refused.value);
                Err(AllocError)
            }
        }
    }

    /// A command begins, behind those that there are, and nothing is saved any more; the id behind its own is the next. After an
    /// error these are as they were.
    #[tactic(auto, unfolding(crate::specs::Flights::restored))]
    pub fn begin(&mut self, flight: Pending) -> Result<(), OutOfMemory>
        ensures ok { OnOk result (self.new ≡ begun flight self.old) }
        ensures err { OnErr result (self.new ≡ settled self.old) }
    {
        let id = flight.id();
        self.saved = Vec::new(self.alloc);
        self.places.push(Some(flight))?;
        self.next = id.number() + 1;
        Ok(())
    }

    /// What the next event finds is what is there: nothing is saved any more. This takes no memory.
    #[tactic(auto, unfolding(crate::specs::Flights::restored))]
    pub fn commit(&mut self)
        ensures { self.new ≡ settled self.old }
    {
        self.saved = Vec::new(self.alloc);
        self.places.retain(|place| place.is_some());
    }

    /// An event failed: all is again what it found. This takes no memory.
    pub fn rollback(&mut self)
        ensures { self.new ≡ undone self.old }
    {
        while let Some(saved) = self.saved.pop() {
            put_back(&mut self.places, saved);
        }
    }
}

fn holds_id(place: &Option<Pending>, id: TransactionId) -> bool
    ensures { result ≡ holds_id id place.now }
{
    match place {
        Some(flight) => flight.id().number() == id.number(),
        None => false,
    }
}

// How many flights there are.
fn count(places: &[Option<Pending>]) -> usize
    ensures value { result ≡ length (flights_in places.now) }
    ensures few { result ≤ length places.now }
{
    let mut count = 0;
    for place in places {
        if place.is_some() {
            count += 1;
        }
    }
    count
}

// The place of the flight with this id.
fn place_of(places: &[Option<Pending>], id: TransactionId) -> Option<usize>
    ensures { result ≡ position (holds_id id) places.now }
{
    places.iter().position(|place| holds_id(place, id))
}

// The flight with this id.
fn flight_with(places: &[Option<Pending>], id: TransactionId) -> Option<&Pending>
    ensures { option_copied result ≡ find (has_id id) (flights_in places.now) }
{
    let place = place_of(places, id)?;
    places[place].as_ref()
}

// Which falls due first of what is first so far and of what this place holds; of both at one moment it is the one before.
fn sooner<'a>(first: Option<&'a Pending>, place: &'a Option<Pending>) -> Option<&'a Pending>
    ensures { option_copied result ≡ sooner_at (option_copied first.entry) place.now }
{
    match (first, place) {
        (_, None) => first,
        (Some(other), Some(flight)) if other.due() <= flight.due() => first,
        (_, Some(flight)) => Some(flight),
    }
}

// The flight of which something falls due first.
fn first_flight(places: &[Option<Pending>]) -> Option<&Pending>
    ensures { option_copied result ≡ first_flight (flights_in places.now) }
{
    let mut first = None;
    for place in places {
        first = sooner(first, place);
    }
    first
}

// What this place holds becomes this: what it held.
fn replaced(
    places: &mut Vec<Option<Pending>>,
    place: usize,
    becomes: Option<Pending>,
) -> Option<Pending>
    requires { place < length places.old.items }
    ensures was { result ≡ slice_index_or places.old.items place result }
    ensures is { places.new.items ≡ slice_set places.old.items place becomes }
{
    mem::replace(&mut places[place], becomes)
}

// Puts back what was saved last.
fn put_back(places: &mut Vec<Option<Pending>>, saved: Saved)
    ensures { places.new.items ≡ put_back saved places.old.items }
{
    let Saved { place, flight } = saved;
    if place < places.len() {
        places[place] = flight;
    }
}
