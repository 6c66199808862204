//! Counts the sends of the gateway's own commands by which of its agent's addresses they go to. A count stays at its greatest value.
ghost use Rattle.std.specs.Prelude.{◌≡◌};
ghost use Rattle.std.specs.List.{position};
ghost use Rattle.message_counts.specs.Places.{is_same, no_sends, place_in, place_among, with_send, with_sends};

use crate::waiting::is_own;
use endpoint_names::Route;
use gateway_core::SentMessage;
use page_state::PLACES;
use small_rules::count;
use std::net::SocketAddrV4;

// The place of all other addresses.
const OTHERS: usize = PLACES - 1;

/// Sends of commands of its own, by the place of their receiver among the addresses of its agent; the last are those to others.
#[derive(Clone, Copy)]
pub struct PlaceCounts {
    pub sends: [u64; PLACES],
}

// Whether two addresses are one.
fn is_same(one: SocketAddrV4, other: SocketAddrV4) -> bool
    ensures { result ≡ is_same one other }
{
    let here = one.ip().octets();
    let there = other.ip().octets();
    one.port() == other.port() && here.as_slice() == there.as_slice()
}

// The first place of an address among these, if it has one.
fn first_place(addresses: &[SocketAddrV4], to: SocketAddrV4) -> Option<usize>
    ensures { result ≡ position (is_same to) addresses.now }
{
    addresses.iter().position(|address| is_same(to, *address))
}

// The first place of an address among these, or that of all others.
fn place_in(addresses: &[SocketAddrV4], to: SocketAddrV4) -> usize
    ensures { result ≡ place_in addresses.now to }
{
    match first_place(addresses, to) {
        Some(place) => place,
        None => OTHERS,
    }
}

// The first place of an address among those of a receiver.
fn place_among(route: &Route<SocketAddrV4>, to: SocketAddrV4) -> usize
    ensures { result ≡ place_among route.now to }
{
    match route {
        Route::One(a) => place_in(&[*a], to),
        Route::Two(a, b) => place_in(&[*a, *b], to),
        Route::Three(a, b, c) => place_in(&[*a, *b, *c], to),
        Route::Four(a, b, c, d) => place_in(&[*a, *b, *c, *d], to),
    }
}

impl PlaceCounts {
    /// Nothing was counted.
    pub fn new() -> PlaceCounts
        ensures { result.sends ≡ no_sends }
    {
        PlaceCounts { sends: [0; PLACES] }
    }

    // A message was sent.
    #[tactic(auto, using(std::proofs::lemmas::List::set_past))]
    fn add_message(&mut self, route: &Route<SocketAddrV4>, message: SentMessage)
        ensures { self.new.sends ≡ with_send route.now self.old.sends message }
    {
        if !is_own(message.label.what) {
            return;
        }
        let place = place_among(route, message.to);
        if place < self.sends.len() {
            count(&mut self.sends[place]);
        }
    }

    /// These messages were sent, where the agent has this route.
    pub fn add(&mut self, route: &Route<SocketAddrV4>, sent: &[SentMessage])
        ensures { self.new.sends ≡ with_sends route.now self.old.sends sent.now }
    {
        for message in sent {
            self.add_message(route, *message);
        }
    }
}
