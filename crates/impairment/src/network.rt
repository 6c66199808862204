//! The network.
ghost use Rattle.std.specs.Prelude.{◌≡◌, ◌≤◌, length, OnOk, OnErr, IfOk, []};
ghost use Rattle.impairment.specs.Drawing.{generators_of, after_draws_on};
ghost use Rattle.impairment.specs.Fates.{fate_on};
ghost use Rattle.impairment.specs.Waiting.{packet_of, copies_of, place_in, put_in, put_all, first_due, taken, IsPutInPart};

use crate::draws::Generators;
use crate::fate::{Fate, fate_of};
use crate::packet::{Packet, Way};
use crate::spoiling::Spoiling;
use mg_bytes::{OutOfMemory, Text};
use std::alloc::Global;
use std::collections::VecDeque;
use std::net::SocketAddrV4;

/// A network that spoils what goes over it.
#[derive(Drop)]
pub struct BadNetwork {
    alloc: Global,
    spoiling: Spoiling,
    generators: Generators,
    // Those that are on their way, in the order in which they are handed out.
    waiting: VecDeque<Packet>,
}

// How many stand in front of the first that is due later than this.
#[tactic(auto, using(crate::proofs::WaitingLemmas::walking))]
fn place_in(waiting: &VecDeque<Packet>, due: u64) -> usize
    ensures place { result ≡ place_in due waiting.now.items }
    ensures within { result ≤ length waiting.now.items }
{
    for place in 0..waiting.len() {
        if due < waiting[place].due {
            return place;
        }
    }
    waiting.len()
}

// A packet that is offered now, and comes so late.
fn packet_of(
    alloc: Global,
    way: Way,
    peer: SocketAddrV4,
    bytes: &[u8],
    now: u64,
    late: u64,
) -> Result<Packet, OutOfMemory>
    ensures { IfOk result (λ packet. packet ≡ packet_of way peer bytes.now now late) }
{
    let bytes = Vec::from_slice(alloc, bytes)?;
    Ok(Packet {
        way,
        peer,
        offered: now,
        due: now.saturating_add(late),
        bytes: Text::of(bytes),
    })
}

impl BadNetwork {
    /// A network on which nothing is on its way yet.
    pub fn new(alloc: Global, spoiling: Spoiling) -> BadNetwork
        ensures spoiling { result.spoiling ≡ spoiling }
        ensures generators { result.generators ≡ generators_of spoiling }
        ensures waiting { result.waiting.items ≡ [] }
    {
        BadNetwork {
            alloc,
            spoiling,
            generators: Generators::of(spoiling),
            waiting: VecDeque::new(alloc),
        }
    }

    #[tactic(auto, unfolding(crate::specs::Waiting::put_in))]
    fn put_in(&mut self, packet: Packet) -> Result<(), OutOfMemory>
        ensures ok { OnOk result (self.new.waiting.items ≡ put_in packet self.old.waiting.items) }
        ensures err { OnErr result (self.new.waiting.items ≡ self.old.waiting.items) }
        ensures spoiling { self.new.spoiling ≡ self.old.spoiling }
        ensures generators { self.new.generators ≡ self.old.generators }
    {
        let place = place_in(&self.waiting, packet.due);
        self.waiting.insert(place, packet)?;
        Ok(())
    }

    // A copy is on its way.
    fn hold(
        &mut self,
        way: Way,
        peer: SocketAddrV4,
        bytes: &[u8],
        now: u64,
        late: u64,
    ) -> Result<(), OutOfMemory>
        ensures ok { OnOk result (self.new.waiting.items ≡ put_in (packet_of way peer bytes.now now late) self.old.waiting.items) }
        ensures err { OnErr result (self.new.waiting.items ≡ self.old.waiting.items) }
        ensures spoiling { self.new.spoiling ≡ self.old.spoiling }
        ensures generators { self.new.generators ≡ self.old.generators }
    {
        let packet = packet_of(self.alloc, way, peer, bytes, now, late)?;
        self.put_in(packet)
    }

    // What a packet with this fate becomes is on its way.
    fn put_all(
        &mut self,
        fate: Fate,
        way: Way,
        peer: SocketAddrV4,
        bytes: &[u8],
        now: u64,
    ) -> Result<(), OutOfMemory>
        ensures ok { OnOk result (self.new.waiting.items
            ≡ put_all (copies_of fate way peer bytes.now now) self.old.waiting.items) }
        ensures err { OnErr result (IsPutInPart (copies_of fate way peer bytes.now now)
            self.old.waiting.items self.new.waiting.items) }
        ensures spoiling { self.new.spoiling ≡ self.old.spoiling }
        ensures generators { self.new.generators ≡ self.old.generators }
    {
        match fate {
            Fate::Lost => Ok(()),
            Fate::Once { late } => self.hold(way, peer, bytes, now, late),
            Fate::Twice { first, second } => {
                self.hold(way, peer, bytes, now, first)?;
                self.hold(way, peer, bytes, now, second)
            }
        }
    }

    /// Offers a packet at this moment, in ms, and gives what becomes of it: it is lost, or one or two copies are on their way, each
    /// of which comes as late as its fate says. That is drawn by its way's own generator. Where memory is refused none is on its way, or the first of two alone.
    pub fn offer(
        &mut self,
        way: Way,
        peer: SocketAddrV4,
        bytes: &[u8],
        now: u64,
    ) -> Result<Fate, OutOfMemory>
        ensures fate { IfOk result (λ fate. fate ≡ fate_on way self.old.spoiling self.old.generators) }
        ensures ok { OnOk result (self.new.waiting.items
            ≡ put_all (copies_of (fate_on way self.old.spoiling self.old.generators) way peer bytes.now now) self.old.waiting.items) }
        ensures err { OnErr result (IsPutInPart (copies_of (fate_on way self.old.spoiling self.old.generators) way peer bytes.now now)
            self.old.waiting.items self.new.waiting.items) }
        ensures spoiling { self.new.spoiling ≡ self.old.spoiling }
        ensures generators { self.new.generators ≡ after_draws_on way self.old.generators }
    {
        let draws = self.generators.draw(way);
        let fate = fate_of(self.spoiling.on(way), draws);
        self.put_all(fate, way, peer, bytes, now)?;
        Ok(fate)
    }

    /// The moment, in ms, at which the next packet is due, if one is on its way.
    pub fn next_due(&self) -> Option<u64>
        ensures { result ≡ first_due self.now.waiting.items }
    {
        match self.waiting.front() {
            Some(first) => Some(first.due),
            None => None,
        }
    }

    /// Hands out the packet that is due first, where it is due by this moment, in ms. Of those due at one moment the one that was
    /// offered first comes first.
    pub fn take_due(&mut self, now: u64) -> Option<Packet>
        ensures taken { (result, self.new.waiting.items) ≡ taken now self.old.waiting.items }
        ensures spoiling { self.new.spoiling ≡ self.old.spoiling }
        ensures generators { self.new.generators ≡ self.old.generators }
    {
        let due = self.next_due()?;
        if now < due {
            return None;
        }
        self.waiting.pop_front()
    }
}
