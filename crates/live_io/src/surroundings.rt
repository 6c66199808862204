//! What a program stands on.
ghost use Rattle.std.specs.Prelude.{◌≡◌, ◌≤◌, ◌∷◌, [], length, IfOk, IfSome};
ghost use Rattle.live_io.specs.Sending.{Grows, received_at};

use std::net::{SocketAddr, SocketAddrV4};

/// A socket or the clock failed.
#[derive(Clone, Copy, PartialEq, Eq)]
pub struct Fault;

/// Of which sockets it was told that something may have come, and which weren't found empty since.
#[derive(Clone, Copy)]
pub struct Told {
    pub lines: bool,
    pub datagrams: bool,
}

/// A socket for datagrams, another for lines, a clock, and a wait for all of them.
///
/// It says whether it tells what went over it: one in memory does, sockets don't; and what it can be held to of what it gave, of what
/// it was told to answer, of what became of what it was to send, and of each wait. Who calls it is held to that it was asked so. No
/// call waits but `wait`.
pub trait Surroundings {
    ghost use Rattle.live_io.specs.Around.{Around};

    /// All that it can be held to.
    ghost around: { Around Self };

    /// How long it is since the start, in ms.
    fn moment(&self) -> Result<u64, Fault>
        ensures { around.passes self.now result };

    /// What time it is, in microseconds since 1970 began, in UTC. It may be set meanwhile, on or back; moments aren't.
    fn time(&self) -> u64
        ensures { around.dates self.now result };

    /// The addresses of its two sockets.
    fn own(&self) -> [SocketAddrV4; 2]
        ensures { result ≡ around.sockets self.now };

    /// Of which sockets it was told that something may have come.
    fn told(&self) -> Told
        ensures { around.tells self.now result };

    /// Waits until something comes, but no longer than this, in ms; at 0 it only asks what has come.
    fn wait(&mut self, longest: u64) -> Result<(), Fault>
        ensures kept { around.traffic self.new ≡ around.traffic self.old }
        ensures waited { around.sleeps self.old longest result self.new };

    /// A datagram, put at the start of the room, if one has come: from where, and how long it is. One that is longer than the room
    /// fills it.
    fn receive(&mut self, room: &mut [u8]) -> Result<Option<(SocketAddrV4, usize)>, Fault>
        ensures length { length room.new ≡ length room.old }
        ensures within { IfOk result (λ found. IfSome found (λ p. p.1 ≤ length room.new)) }
        ensures sent { (around.traffic self.new).sent ≡ (around.traffic self.old).sent }
        ensures received { Grows (around.traffic self.old).received (received_at result room.new) (around.traffic self.new).received }
        ensures looked { around.receives self.old result room.new self.new };

    /// Sends a datagram. After a fault it counts as lost in the network.
    fn send(&mut self, to: SocketAddrV4, bytes: &[u8]) -> Result<(), Fault>
        ensures sent { Grows (around.traffic self.old).sent (record { to = to; bytes = bytes.now } ∷ []) (around.traffic self.new).sent }
        ensures received { (around.traffic self.new).received ≡ (around.traffic self.old).received }
        ensures handed { around.sends self.old to bytes.now result self.new };

    /// A datagram of lines of who types, put at the start of the room, if one has come: from whom, and how long it is.
    fn hear(&mut self, room: &mut [u8]) -> Option<(SocketAddr, usize)>
        ensures length { length room.new ≡ length room.old }
        ensures within { IfSome result (λ p. p.1 ≤ length room.new) }
        ensures kept { around.traffic self.new ≡ around.traffic self.old }
        ensures looked { around.hears self.old result room.new self.new };

    /// Answers who typed. What can't be sent is lost.
    fn answer(&mut self, to: SocketAddr, text: &[u8])
        ensures kept { around.traffic self.new ≡ around.traffic self.old }
        ensures answered { around.answers self.old to text.now self.new };
}
