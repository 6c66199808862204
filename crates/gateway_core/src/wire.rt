//! What a gateway is served over: inputs come from it, and datagrams are handed to it.
ghost use Rattle.std.specs.Prelude.{◌≡◌, length, IfOk};
ghost use Rattle.gateway_core.specs.Wire.{WireLog, Carries, IsWithin, traffic_of_next, traffic_of_send};

use mg_line::Act;
use std::net::SocketAddrV4;
use transmission::LARGEST_DATAGRAM;

/// The room for a datagram that a wire is given: one byte more than a gateway takes.
pub const DATAGRAM_ROOM: usize = LARGEST_DATAGRAM + 1;

/// What a wire gives at a turn.
#[derive(Clone, Copy)]
pub enum Input {
    /// A datagram from this address: so many bytes at the front of the room. One that is longer than the room fills it.
    Datagram { source: SocketAddrV4, len: usize },
    /// An act at the telephone of this line, from 1.
    Phone { line: u16, act: Act },
    /// The clock: it is this moment, in ms from 0.
    Tick { moment: u64 },
    /// Nothing comes any more.
    End,
}

/// The wire failed to give or to take, and has counted that.
#[derive(Clone, Copy, PartialEq, Eq)]
pub struct WireFault;

/// What gives inputs and takes datagrams, and counts how often it fails to.
///
/// A wire says whether it tells what went over it. One that does has the lists of what it gave and of what was handed to
/// it; one that doesn't, as a socket, has none. A count stays at its greatest value, 18,446,744,073,709,551,615.
pub trait Wire {
    /// What it tells, and how often it failed.
    ghost log: { Self → WireLog };

    /// Gives the next input; a datagram's bytes are put at the front of the room. After a fault nothing was given.
    fn next(&mut self, room: &mut [u8]) -> Result<Input, WireFault>
        requires { length room.old ≡ DATAGRAM_ROOM }
        ensures room { length room.new ≡ DATAGRAM_ROOM }
        ensures within { IfOk result (λ input. IsWithin input room.new) }
        ensures log { Carries (log self.old) (traffic_of_next result room.new) (log self.new) };

    /// Takes a datagram that is to be sent to this address. After a fault it counts as lost in the network.
    fn send(&mut self, to: SocketAddrV4, bytes: &[u8]) -> Result<(), WireFault>
        ensures log { Carries (log self.old) (traffic_of_send result to bytes.now) (log self.new) };
}
