//! A bad network before the sockets.
ghost use Rattle.std.specs.Prelude.{◌≡◌, ◌≤◌, ◌∷◌, [], length, take, None, Some, IfSome, option_map};
ghost use Rattle.impairment.specs.declared.packet.Way.TheVariants.{In, Out};
ghost use Rattle.impairment.specs.Waiting.{first_due};
ghost use Rattle.live_io.specs.Keeping.{copies_of};
ghost use Rattle.live_io.specs.Sending.{Grows};
ghost use Rattle.live_gateway.specs.Offering.{offered_by, came_over, brings, brought, Offers, TakesFirst};

use impairment::{BadNetwork, Fate, Packet, Way};
use live_io::{SentDatagram, keep};
use mg_bytes::OutOfMemory;
use std::alloc::Global;
use std::net::SocketAddrV4;

/// A bad network before the sockets; and what was offered to it on the way out, and what it handed over on the way in, where that is
/// kept.
pub struct SpoiltWay {
    alloc: Global,
    network: BadNetwork,
    // Copies of all that was offered on the way out; nothing where none are kept, or memory was refused for one.
    offered: Option<Vec<SentDatagram>>,
    // Likewise of all that it handed over on the way in, each with the address that it came from.
    came: Option<Vec<SentDatagram>>,
}

// Written out: a derived drop, and those of all its parts, are proved anew by each crate that lets one go.
impl Drop for SpoiltWay {
    fn drop(self) {
        let SpoiltWay {
            alloc: _,
            network,
            offered,
            came,
        } = self;
        drop(network);
        drop(offered);
        drop(came);
    }
}

// Puts as much as there is room for at the front of the room: how much that is.
fn put_into(room: &mut [u8], bytes: &[u8]) -> usize
    ensures length { length room.new ≡ length room.old }
    ensures within { result ≤ length room.new }
    ensures put { take result room.new ≡ take (length room.old) bytes.now }
{
    let len = bytes.len().min(room.len());
    room[..len].copy_from_slice(&bytes[..len]);
    len
}

// Keeps a copy of a datagram of this moment, in ms, where copies are kept; where memory is refused for it none are any more.
fn keep_copy(
    alloc: Global,
    kept: &mut Option<Vec<SentDatagram>>,
    now: u64,
    peer: SocketAddrV4,
    bytes: &[u8],
)
    ensures { Grows (option_map (λ copies. copies_of copies.items) kept.old) (record { to = peer; bytes = bytes.now } ∷ [])
        (option_map (λ copies. copies_of copies.items) kept.new) }
{
    let Some(copies) = kept else {
        return;
    };
    match keep(alloc, copies, now, peer, bytes) {
        Ok(()) => {}
        Err(_) => *kept = None,
    }
}

impl SpoiltWay {
    /// The way over this network, over which nothing went. What goes over it isn't kept.
    pub fn new(alloc: Global, network: BadNetwork) -> SpoiltWay
        ensures offered { offered_by result ≡ None }
        ensures came { came_over result ≡ None }
        ensures network { result.network ≡ network }
    {
        SpoiltWay {
            alloc,
            network,
            offered: None,
            came: None,
        }
    }

    /// The same, which keeps what is offered on the way out and what it hands over on the way in, each until memory is refused for that.
    pub fn keeping(alloc: Global, network: BadNetwork) -> SpoiltWay
        ensures offered { offered_by result ≡ Some [] }
        ensures came { came_over result ≡ Some [] }
        ensures network { result.network ≡ network }
    {
        SpoiltWay {
            alloc,
            network,
            offered: Some(Vec::new(alloc)),
            came: Some(Vec::new(alloc)),
        }
    }

    /// The moment, in ms, at which the network hands something out, if it will.
    pub fn next_due(&self) -> Option<u64>
        ensures { result ≡ first_due self.now.network.waiting.items }
    {
        self.network.next_due()
    }

    // A packet is handed over: of one that comes in as much as there is room for is put at the front of the room. How much that is.
    #[tactic(auto, using(crate::proofs::HearingLemmas::nothing_kept))]
    fn hand_over(&mut self, packet: &Packet, room: &mut [u8]) -> usize
        ensures length { length room.new ≡ length room.old }
        ensures within { result ≤ length room.new }
        ensures put { packet.now.way ≡ In → take result room.new ≡ take (length room.old) packet.now.bytes }
        ensures came { Grows (came_over self.old) (brings packet.now.way packet.now.peer (take result room.new)) (came_over self.new) }
        ensures offered { offered_by self.new ≡ offered_by self.old }
        ensures network { self.new.network ≡ self.old.network }
    {
        match packet.way {
            Way::Out => 0,
            Way::In => {
                let len = put_into(room, packet.bytes.as_bytes());
                keep_copy(
                    self.alloc,
                    &mut self.came,
                    packet.due,
                    packet.peer,
                    &room[..len],
                );
                len
            }
        }
    }

    /// The next packet that the network hands out by this moment, in ms, if there is one. Of one that comes in as much as there is room for
    /// is put at the front of the room: how much that is.
    #[tactic(auto, using(crate::proofs::HearingLemmas::nothing_kept))]
    pub fn take_due(&mut self, now: u64, room: &mut [u8]) -> Option<(Packet, usize)>
        ensures length { length room.new ≡ length room.old }
        ensures within { IfSome result (λ found. found.1 ≤ length room.new) }
        ensures taken { TakesFirst now self.old.network (option_map (λ found. found.0) result) self.new.network }
        ensures put { IfSome result (λ found. found.0.way ≡ In → take found.1 room.new ≡ take (length room.old) found.0.bytes) }
        ensures came { Grows (came_over self.old) (brought result room.new) (came_over self.new) }
        ensures offered { offered_by self.new ≡ offered_by self.old }
    {
        match self.network.take_due(now) {
            Some(packet) => {
                let len = self.hand_over(&packet, room);
                Some((packet, len))
            }
            None => None,
        }
    }

    /// Offers a datagram that came from this source, at this moment in ms: what becomes of it.
    pub fn offer_in(
        &mut self,
        source: SocketAddrV4,
        bytes: &[u8],
        now: u64,
    ) -> Result<Fate, OutOfMemory>
        ensures offered { offered_by self.new ≡ offered_by self.old }
        ensures came { came_over self.new ≡ came_over self.old }
        ensures offers { Offers In self.old.network source bytes.now now result self.new.network }
    {
        self.network.offer(Way::In, source, bytes, now)
    }

    /// Offers a datagram that goes there, at this moment in ms: what becomes of it.
    pub fn offer_out(
        &mut self,
        to: SocketAddrV4,
        bytes: &[u8],
        now: u64,
    ) -> Result<Fate, OutOfMemory>
        ensures offered { Grows (offered_by self.old) (record { to = to; bytes = bytes.now } ∷ []) (offered_by self.new) }
        ensures came { came_over self.new ≡ came_over self.old }
        ensures offers { Offers Out self.old.network to bytes.now now result self.new.network }
    {
        keep_copy(self.alloc, &mut self.offered, now, to, bytes);
        self.network.offer(Way::Out, to, bytes, now)
    }
}
