//! The addresses that a message goes to, in turn.
ghost use Rattle.std.specs.Prelude.{◌≡◌, ◌<◌, ◌≤◌};
ghost use Rattle.endpoint_names.specs.Route.{route_of, place_of, at, with_port};

use small_rules::place_in_turn;
use std::alloc::AllocError;
use std::net::{Ipv4Addr, SocketAddrV4};

/// The most addresses of one receiver (this gateway's profile).
pub const MOST_ADDRESSES: usize = 4;

// So many sends go to one address before the next one's turn (this gateway's profile).
const SENDS_EACH: u64 = 2;

/// The addresses of one receiver, one to `MOST_ADDRESSES`, in the order in which they are tried (RFC 3435, 3.5 and 4.3): a host
/// has a route of addresses, a call agent one of addresses with its port. Two of them may be equal.
pub enum Route<A> {
    One(A),
    Two(A, A),
    Three(A, A, A),
    Four(A, A, A, A),
}

// Written by hand: what a derive writes goes through the variants, and costs a check seconds.
impl<A: Copy> Clone for Route<A> {
    ghost use Rattle.std.specs.Prelude.{⊤};

    ghost is_clone = { λ route copy. copy ≡ route };

    ghost is_infallible = { λ _. ⊤ };

    fn clone(&self) -> Result<Route<A>, AllocError> {
        Ok(*self)
    }
}

impl<A: Copy> Copy for Route<A> {}

// The place, from 0, that a send with this number has among so many addresses.
fn place_of(count: usize, send: u64) -> usize
    requires { 1 ≤ count }
    ensures value { result ≡ place_of count send }
    ensures within { result < count }
{
    place_in_turn(count, SENDS_EACH, send)
}

impl<A: Copy> Route<A> {
    /// The route of these addresses; `None` where there are none, or more than `MOST_ADDRESSES`.
    pub fn of(addresses: &[A]) -> Option<Route<A>>
        ensures { result ≡ route_of addresses.now }
    {
        match addresses {
            [a] => Some(Route::One(*a)),
            [a, b] => Some(Route::Two(*a, *b)),
            [a, b, c] => Some(Route::Three(*a, *b, *c)),
            [a, b, c, d] => Some(Route::Four(*a, *b, *c, *d)),
            _ => None,
        }
    }
}

impl Route<SocketAddrV4> {
    /// The address that the send with this number goes to, counted from 0 (RFC 3435, 4.3): each address is tried twice, then
    /// the next, and after the last the first again.
    #[tactic(auto, unfolding(crate::specs::Route::at))]
    pub fn at(&self, send: u64) -> SocketAddrV4
        ensures { result ≡ at self.now send }
    {
        match self {
            Route::One(a) => *a,
            Route::Two(a, b) => [*a, *b][place_of(2, send)],
            Route::Three(a, b, c) => [*a, *b, *c][place_of(3, send)],
            Route::Four(a, b, c, d) => [*a, *b, *c, *d][place_of(4, send)],
        }
    }
}

impl Route<Ipv4Addr> {
    /// The same addresses, each with this port (RFC 3435, 3.5).
    pub fn with_port(self, port: u16) -> Route<SocketAddrV4>
        ensures { result ≡ with_port port self }
    {
        match self {
            Route::One(a) => Route::One(SocketAddrV4::new(a, port)),
            Route::Two(a, b) => {
                Route::Two(SocketAddrV4::new(a, port), SocketAddrV4::new(b, port))
            }
            Route::Three(a, b, c) => Route::Three(
                SocketAddrV4::new(a, port),
                SocketAddrV4::new(b, port),
                SocketAddrV4::new(c, port),
            ),
            Route::Four(a, b, c, d) => Route::Four(
                SocketAddrV4::new(a, port),
                SocketAddrV4::new(b, port),
                SocketAddrV4::new(c, port),
                SocketAddrV4::new(d, port),
            ),
        }
    }
}
