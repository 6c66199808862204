//! Who is told what changes: a few at a time, each as long as it asked for that last, unless others want to be told and it is silent.
ghost use Rattle.std.specs.Prelude.{◌≡◌, ◌<◌, ◌≤◌, ◌^◌, length, true, false, None, IfSome, Some};
ghost use Rattle.line_changes.specs.Watching.{longest_watch, nobody, is_of, is_watching, is_free, is_watched, place_where, asked_at, first_asked};
ghost use Rattle.line_changes.specs.Watching.{has_asked_by, silent_place, other_place, place_for, with_watcher, told_at};

use crate::address::is_same_address;
use std::net::SocketAddrV4;

/// So many watch at a time.
pub const MOST_WATCHERS: usize = 8;

/// So long it is watched at most, in s, where that isn't asked for again.
pub const LONGEST_WATCH: u64 = 60;

// Milliseconds in a second.
const SECOND: u64 = 1000;

// Who hasn't asked again for so long, in ms, may lose its place to another.
const LONGEST_SILENCE: u64 = 30_000;

/// Who watches, when it asked for that last, and the moment at which it ends, in ms.
#[derive(Clone, Copy)]
pub struct Watcher {
    pub address: SocketAddrV4,
    pub asked: u64,
    pub end: u64,
}

/// All who watch, each in its place.
#[derive(Clone, Copy)]
pub struct Watchers {
    pub places: [Option<Watcher>; MOST_WATCHERS],
}

fn is_of(address: SocketAddrV4, held: Option<Watcher>) -> bool
    ensures { result ≡ is_of address held }
{
    match held {
        None => false,
        Some(watcher) => is_same_address(watcher.address, address),
    }
}

fn is_watching(now: u64, held: Option<Watcher>) -> bool
    ensures { result ≡ is_watching now held }
{
    match held {
        None => false,
        Some(watcher) => now < watcher.end,
    }
}

fn is_free(now: u64, held: Option<Watcher>) -> bool
    ensures { result ≡ is_free now held }
{
    !is_watching(now, held)
}

// Whether somebody watches.
fn is_watched(now: u64, places: &[Option<Watcher>]) -> bool
    ensures { result ≡ is_watched now places.now }
{
    for held in places {
        if is_watching(now, *held) {
            return true;
        }
    }
    false
}

// The place of who watches from this address.
#[tactic(auto, unfolding(crate::specs::Watching::place_where))]
fn own_place(places: &[Option<Watcher>], address: SocketAddrV4) -> Option<usize>
    ensures place { result ≡ place_where (is_of address) 0 places.now }
    ensures within { IfSome result (λ place. place < length places.now) }
{
    for (place, held) in places.iter().enumerate() {
        if is_of(address, *held) {
            return Some(place);
        }
    }
    None
}

// The first free place.
#[tactic(auto, unfolding(crate::specs::Watching::place_where))]
fn free_place(now: u64, places: &[Option<Watcher>]) -> Option<usize>
    ensures place { result ≡ place_where (is_free now) 0 places.now }
    ensures within { IfSome result (λ place. place < length places.now) }
{
    for (place, held) in places.iter().enumerate() {
        if is_free(now, *held) {
            return Some(place);
        }
    }
    None
}

fn asked_at(moment: u64, held: Option<Watcher>) -> u64
    ensures { result ≡ asked_at moment held }
{
    match held {
        None => moment,
        Some(watcher) => watcher.asked,
    }
}

// When the one asked that is silent longest, and no later than at this moment.
#[tactic(auto, unfolding(crate::specs::Watching::first_asked))]
fn first_asked(now: u64, places: &[Option<Watcher>]) -> u64
    ensures { result ≡ first_asked now places.now }
{
    let mut first = now;
    for held in places {
        first = first.min(asked_at(first, *held));
    }
    first
}

fn has_asked_by(moment: u64, held: Option<Watcher>) -> bool
    ensures { result ≡ has_asked_by moment held }
{
    match held {
        None => false,
        Some(watcher) => watcher.asked <= moment,
    }
}

// The first place of who asked by this moment.
#[tactic(auto, unfolding(crate::specs::Watching::place_where))]
fn place_since(moment: u64, places: &[Option<Watcher>]) -> Option<usize>
    ensures place { result ≡ place_where (has_asked_by moment) 0 places.now }
    ensures within { IfSome result (λ place. place < length places.now) }
{
    for (place, held) in places.iter().enumerate() {
        if has_asked_by(moment, *held) {
            return Some(place);
        }
    }
    None
}

// The place of who is silent longest, where that is long enough, for who wants to watch for so many seconds.
fn silent_place(now: u64, seconds: u64, places: &[Option<Watcher>]) -> Option<usize>
    ensures place { result ≡ silent_place now seconds places.now }
    ensures within { IfSome result (λ place. place < length places.now) }
{
    let first = first_asked(now, places);
    if seconds > 0 && LONGEST_SILENCE <= now.saturating_sub(first) {
        place_since(first, places)
    } else {
        None
    }
}

// The first free place; where none is, that of who is silent too long.
fn other_place(now: u64, seconds: u64, places: &[Option<Watcher>]) -> Option<usize>
    ensures place { result ≡ other_place now seconds places.now }
    ensures within { IfSome result (λ place. place < length places.now) }
{
    if let Some(place) = free_place(now, places) {
        return Some(place);
    }
    silent_place(now, seconds, places)
}

fn place_for(
    now: u64,
    seconds: u64,
    places: &[Option<Watcher>],
    address: SocketAddrV4,
) -> Option<usize>
    ensures place { result ≡ place_for now seconds places.now address }
    ensures within { IfSome result (λ place. place < length places.now) }
{
    match own_place(places, address) {
        Some(place) => Some(place),
        None => other_place(now, seconds, places),
    }
}

/// Where it is told at this moment, in ms, what changes, of who has a place, if its time isn't over.
pub fn told_at(now: u64, held: Option<Watcher>) -> Option<SocketAddrV4>
    ensures { result ≡ told_at now held }
{
    match held {
        None => None,
        Some(watcher) => {
            if now < watcher.end {
                Some(watcher.address)
            } else {
                None
            }
        }
    }
}

impl Watchers {
    /// Nobody watches.
    pub fn none() -> Watchers
        ensures { result.places ≡ nobody }
    {
        Watchers {
            places: [None; MOST_WATCHERS],
        }
    }

    /// Whether somebody watches at this moment, in ms.
    pub fn is_watched(&self, now: u64) -> bool
        ensures { result ≡ is_watched now self.now.places }
    {
        is_watched(now, &self.places)
    }

    /// Somebody asks to be told what changes, from this moment on, in ms, for so many seconds, where 0 ends it: whether it is; where as
    /// many watch as may, and none of them is silent too long, it isn't. Who watches already does so for so long from now.
    pub fn watch(&mut self, address: SocketAddrV4, now: u64, seconds: u64) -> bool
        requires clock { now < 2 ^ 62 }
        requires time { seconds ≤ longest_watch }
        ensures watches { result ≡ true → with_watcher self.old.places address now seconds ≡ Some self.new.places }
        ensures full { result ≡ false → with_watcher self.old.places address now seconds ≡ None }
        ensures kept { result ≡ false → self.new ≡ self.old }
    {
        let Some(place) = place_for(now, seconds, &self.places, address) else {
            return false;
        };
        self.places[place] = Some(Watcher {
            address,
            asked: now,
            end: now + seconds * SECOND,
        });
        true
    }

    /// Nobody watches any more.
    pub fn clear(&mut self)
        ensures { self.new.places ≡ nobody }
    {
        self.places = [None; MOST_WATCHERS];
    }
}
