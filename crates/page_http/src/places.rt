//! Who gets a place at the site, and who gives way to them: so nobody who is silent keeps others out, and no address has all.
ghost use Rattle.std.specs.Prelude.{◌≡◌, None};
ghost use Rattle.page_http.specs.Places.{is_free, free_from, is_of, room_behind, room_from, idler, is_meant, seen, idlest_from, idlest, place_for};

use std::net::Ipv4Addr;

/// So many visitors from one address are served at a time.
pub const MOST_OF_ONE_HOST: usize = 8;

/// Who has a place: from which address, and the moment at which something came from there or went there last, in ms.
#[derive(Clone, Copy)]
pub struct Seat {
    pub host: Ipv4Addr,
    pub active: u64,
}

/// A place, and since which moment its visitor is idle, in ms.
#[derive(Clone, Copy)]
pub(crate) struct Idle {
    pub(crate) place: usize,
    pub(crate) since: u64,
}

fn is_free(held: Option<Seat>) -> bool
    ensures { result ≡ is_free held }
{
    match held {
        None => true,
        Some(_) => false,
    }
}

// The first free place.
#[tactic(auto, unfolding(crate::specs::Places::free_from))]
fn free_place(seats: &[Option<Seat>]) -> Option<usize>
    ensures { result ≡ free_from 0 seats.now }
{
    for (place, held) in seats.iter().enumerate() {
        if is_free(*held) {
            return Some(place);
        }
    }
    None
}

// Whether a visitor from this address has the place.
fn is_of(host: Ipv4Addr, held: Option<Seat>) -> bool
    ensures { result ≡ is_of host held }
{
    match held {
        None => false,
        Some(seat) => {
            let one = seat.host.octets();
            let other = host.octets();
            one.as_slice() == other.as_slice()
        }
    }
}

fn room_behind(room: usize, is_held: bool) -> usize
    ensures { result ≡ room_behind room is_held }
{
    if is_held {
        room.saturating_sub(1)
    } else {
        room
    }
}

// How many more places an address may have.
#[tactic(auto, unfolding(crate::specs::Places::room_from))]
fn room_left(seats: &[Option<Seat>], host: Ipv4Addr) -> usize
    ensures { result ≡ room_from MOST_OF_ONE_HOST host seats.now }
{
    let mut room = MOST_OF_ONE_HOST;
    for held in seats {
        room = room_behind(room, is_of(host, *held));
    }
    room
}

// The one of two that was idle longer.
fn idler(found: Option<Idle>, next: Idle) -> Option<Idle>
    ensures { result ≡ idler found next }
{
    match found {
        None => Some(next),
        Some(one) => {
            if one.since <= next.since {
                Some(one)
            } else {
                Some(next)
            }
        }
    }
}

// Whether the place is held, by a visitor from this address where one is meant.
fn is_meant(host: Option<Ipv4Addr>, held: Option<Seat>) -> bool
    ensures { result ≡ is_meant host held }
{
    match (host, held) {
        (_, None) => false,
        (None, Some(_)) => true,
        (Some(host), Some(seat)) => is_of(host, Some(seat)),
    }
}

// Who was idle longest, where this place is looked at too.
fn seen(
    host: Option<Ipv4Addr>,
    place: usize,
    found: Option<Idle>,
    held: Option<Seat>,
) -> Option<Idle>
    ensures { result ≡ seen host place found held }
{
    match held {
        None => found,
        Some(seat) => {
            if is_meant(host, Some(seat)) {
                let since = seat.active;
                idler(found, Idle { place, since })
            } else {
                found
            }
        }
    }
}

// Who was idle longest, and since when.
#[tactic(auto, unfolding(crate::specs::Places::idlest_from))]
fn idlest_one(seats: &[Option<Seat>], host: Option<Ipv4Addr>) -> Option<Idle>
    ensures { result ≡ idlest_from 0 host None seats.now }
{
    let mut found = None;
    for (place, held) in seats.iter().enumerate() {
        found = seen(host, place, found, *held);
    }
    found
}

// The place of whoever was idle longest, of those from this address where one is meant.
fn idlest(seats: &[Option<Seat>], host: Option<Ipv4Addr>) -> Option<usize>
    ensures { result ≡ idlest host seats.now }
{
    match idlest_one(seats, host) {
        Some(idle) => Some(idle.place),
        None => None,
    }
}

/// The place of somebody who comes from this address, who gives way where somebody has it: of an address that has as many as it
/// may have its own visitor who was idle longest, else, where no place is free, whoever was.
#[tactic(auto, unfolding(crate::specs::Places::place_for))]
pub fn place_for(seats: &[Option<Seat>], host: Ipv4Addr) -> Option<usize>
    ensures { result ≡ place_for seats.now host }
{
    if room_left(seats, host) == 0 {
        return idlest(seats, Some(host));
    }
    match free_place(seats) {
        Some(place) => Some(place),
        None => idlest(seats, None),
    }
}
