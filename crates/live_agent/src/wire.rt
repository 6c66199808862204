//! The wire: what datagrams and typed lines come over, and a bad network, where one lies between; and the journal of what goes over it.
ghost use Rattle.std.specs.Prelude.{◌≡◌, ◌≤◌, ⊤, ◌∷◌, ℕ, Bool, Option, Some, None, Result, [], true, false, not, length, is_some, IfOk, IfSome};
ghost use Rattle.std.specs.declared.net.socket_addr.SocketAddrV4.{SocketAddrV4 as Peer};
ghost use Rattle.impairment.specs.declared.packet.Way.TheVariants.{In};
ghost use Rattle.agent_log.specs.Telling.{Tells};
ghost use Rattle.log_format.specs.Pausing.{pause_line};
ghost use Rattle.live_system.specs.Waiting.{longest_wait};
ghost use Rattle.mg_bytes.specs.Lists.{is_empty};
ghost use Rattle.live_agent.specs.Wiring.{due_of, with_read, read_at, heard_at, ready_by};
ghost use Rattle.live_agent.specs.Handing.{comes_in, HandsOver, Leaves, Offers, OffersTo};
ghost use Rattle.live_agent.specs.Sending.{SendsAll, SendsOne, SendsOver};
ghost use Rattle.live_agent.specs.Tallying.{looked_counted, waited_counted, with_fate};
ghost use Rattle.live_agent.specs.Tallying.{CountsLeaving, CountsOffer, CountsSent, OnlyCounts, OnlyNotes};
ghost use Rattle.live_io.specs.Hearing.{Hears, AnswersTo};
ghost use Rattle.live_io.specs.Requests.{requests_from};
ghost use Rattle.live_io.specs.Sending.{Grows};
ghost use Rattle.live_io.specs.Typing.{left_of, behind};
ghost use Rattle.live_io.specs.declared.surroundings.Fault.{Fault};
ghost use Rattle.live_io.specs.declared.surroundings.Told.{Told};

use agent_log::{Journal, Tally, count};
use impairment::{BadNetwork, Fate, Packet, Way};
use live_io::{Lines, Surroundings};
use live_system::longest_wait;
use log_format::{Note, Stamp, put_pause};
use output_queues::{Now, Record};
use plain_machine::OutDatagram;
use std::alloc::{AllocError, Global};
use std::net::SocketAddrV4;
use turns::{Pause, Ready};

/// So many packets are handed out at most at a turn, or commands given up, or lines woken, where more are due: the others are at the next.
pub(crate) const MOST_AT_ONCE: u16 = 65_535;

/// A wire over these surroundings.
pub struct Wire<S> {
    pub around: S,
    // What is left of what was typed.
    pub(crate) lines: Lines,
    // The network that spoils what comes and what is sent, where there is one.
    network: Option<BadNetwork>,
    // In a box: a check pays for all that a value holds inline at each step of a function that is lent it.
    pub journal: Box<Journal>,
    // What clocks say at the turn under way.
    pub(crate) now: Now,
    // The agents' clock is behind, as where what came in a pause is read.
    pub(crate) is_behind: bool,
    // So many datagrams were read since the start, of lines too.
    pub(crate) read: u64,
    // The moment at which it ends, in ms.
    pub(crate) end: Option<u64>,
    // Whether something that was recorded waits to be taken.
    pub(crate) is_offering: bool,
}

// Written out: a derived drop, and those of all its parts, are proved anew by each crate that lets one go.
impl<S: Drop> Drop for Wire<S> {
    fn drop(self) {
        let Wire {
            around,
            lines,
            network,
            journal,
            now: _,
            is_behind: _,
            read: _,
            end: _,
            is_offering: _,
        } = self;
        drop(around);
        drop(lines);
        drop(network);
        drop(journal);
    }
}

// What becomes of a packet counts: what is noted of it in the log, unless it goes on at once.
fn count_fate(tally: &mut Tally, fate: Fate) -> Option<Note>
    ensures { tally.new ≡ with_fate fate tally.old }
{
    match fate {
        Fate::Lost => {
            count(&mut tally.lost);
            Some(Note::Lost)
        }
        Fate::Once { late } => {
            if late == 0 {
                return None;
            }
            count(&mut tally.late);
            Some(Note::Late { ms: late })
        }
        Fate::Twice { first, second } => {
            count(&mut tally.copied);
            Some(Note::Copied { first, second })
        }
    }
}

// A packet is offered to the network that spoils it, at this moment of its clock, in ms. What becomes of it is counted, and noted in the
// log.
fn offer_to(
    network: &mut BadNetwork,
    journal: &mut Journal,
    stamp: Stamp,
    way: Way,
    bytes: &[u8],
    clock: u64,
)
    ensures tally { CountsOffer way (Some network.old) journal.old.tally journal.new.tally }
    ensures offers { Offers way stamp.peer bytes.now clock network.old network.new journal.old.tally journal.new.tally }
    ensures notes { OnlyNotes journal.old journal.new }
{
    let fate = match network.offer(way, stamp.peer, bytes, clock) {
        Ok(fate) => fate,
        Err(_) => return count(&mut journal.tally.refused),
    };
    let Some(note) = count_fate(&mut journal.tally, fate) else {
        return;
    };
    journal.note(stamp, note);
}

/// That the program was stopped, and goes on at this moment, in microseconds since 1970, is put into the log.
#[tactic(auto, using(agent_log::proofs::TellingLemmas::telling))]
pub(crate) fn log_pause(alloc: Global, log: &mut Record, time: u64, pause: Pause)
    ensures { Tells (pause_line time pause.lateness pause.read) log.old log.new }
{
    if log.is_on() && put_pause(alloc, &mut log.out, time, pause.lateness, pause.read).is_err() {
        log.refuse();
    }
}

// Whether a packet comes in.
fn comes_in(way: Way) -> bool
    ensures { result ≡ comes_in way }
{
    match way {
        Way::In => true,
        Way::Out => false,
    }
}

impl<S: Surroundings + Drop> Wire<S> {
    /// The wire over these surroundings, over which nothing went, at moment 0, at the time of day that these tell. This network spoils what
    /// goes over it, where there is one; it ends at a moment of its clock, in ms, if one is given. An error is for want of memory.
    pub fn new(
        alloc: Global,
        around: S,
        network: Option<BadNetwork>,
        journal: Box<Journal>,
        end: Option<u64>,
    ) -> Result<Wire<S>, AllocError>
        ensures around { IfOk result (λ wire. wire.around ≡ around) }
        ensures network { IfOk result (λ wire. wire.network ≡ network) }
        ensures journal { IfOk result (λ wire. wire.journal ≡ journal) }
        ensures lines { IfOk result (λ wire. left_of wire.lines ≡ []) }
        ensures moments { IfOk result (λ wire. (wire.now.clock ≡ 0) × (wire.read ≡ 0) × (wire.end ≡ end)) }
        ensures dated { IfOk result (λ wire. S.around.dates around wire.now.time) }
        ensures quiet { IfOk result (λ wire. (wire.is_behind ≡ false) × (wire.is_offering ≡ false)) }
    {
        // By hand: a question mark is some twenty steps more, at each of which a check pays for all that stands there.
        let Ok(lines) = Lines::new(alloc) else {
            return Err(AllocError);
        };
        let now = Now {
            clock: 0,
            time: around.time(),
        };
        Ok(Wire {
            around,
            lines,
            network,
            journal,
            now,
            is_behind: false,
            read: 0,
            end,
            is_offering: false,
        })
    }

    /// The moment at which the network hands something out, in ms, if it will.
    pub(crate) fn network_due(&self) -> Option<u64>
        ensures { result ≡ due_of self.entry.now.network }
    {
        match &self.network {
            Some(network) => network.next_due(),
            None => None,
        }
    }

    /// What may come now.
    pub(crate) fn ready(&self) -> Ready
        ensures { (told : Told) × S.around.tells self.entry.now.around told
            × (result ≡ ready_by told (not (is_empty (left_of self.entry.now.lines))) (due_of self.entry.now.network)
            self.entry.now.now.clock) }
    {
        let told = self.around.told();
        let is_due = match self.network_due() {
            Some(due) => due <= self.now.clock,
            None => false,
        };
        Ready {
            commands: told.lines || !self.lines.is_empty(),
            datagrams: told.datagrams || is_due,
            visitors: false,
        }
    }

    /// A datagram, where one has come: who sent it, and its length. One without a port can't be answered, and doesn't count.
    pub(crate) fn receive(&mut self, room: &mut [u8]) -> Option<(SocketAddrV4, usize)>
        ensures length { length room.new ≡ length room.old }
        ensures within { IfSome result (λ p. p.1 ≤ length room.new) }
        ensures looked { (outcome : Result (Option (Peer × ℕ)) Fault) × S.around.receives self.old.around outcome room.new self.new.around
            × (result ≡ heard_at outcome) × (self.new.read ≡ read_at outcome self.old.read)
            × (self.new.journal.value.tally ≡ looked_counted outcome self.old.journal.value.tally) }
        ensures alone { OnlyCounts self.old.journal.value self.new.journal.value }
        ensures rest { self.new ≡ record self.old { around = self.new.around; read = self.new.read; journal = self.new.journal } }
    {
        match self.around.receive(room) {
            Ok(Some((source, len))) => {
                self.read = self.read.saturating_add(1);
                if source.port() > 0 {
                    return Some((source, len));
                }
                None
            }
            Ok(None) => None,
            Err(_) => {
                count(&mut self.journal.tally.receive_faults);
                None
            }
        }
    }

    /// Takes a datagram of lines, where one has come and none is left of the one before.
    pub(crate) fn hear_lines(&mut self)
        ensures heard { (taken : Bool) × Hears S.around self.old.around self.old.lines taken self.new.around self.new.lines
            × (self.new.read ≡ with_read taken self.old.read) }
        ensures rest { self.new ≡ record self.old { around = self.new.around; lines = self.new.lines; read = self.new.read } }
    {
        if self.lines.hear(&mut self.around) {
            self.read = self.read.saturating_add(1);
        }
    }

    /// Answers the line that was typed, and goes on to the next.
    pub(crate) fn answer(&mut self, text: &[u8])
        ensures answered { AnswersTo S.around.answers self.old.lines.sender self.old.around text.now self.new.around }
        ensures left { left_of self.new.lines ≡ requests_from (behind (left_of self.old.lines)) }
        ensures rest { self.new ≡ record self.old { around = self.new.around; lines = self.new.lines } }
    {
        self.lines.answer(&mut self.around, text);
    }

    /// Answers it together with all that stands behind it in its datagram.
    pub(crate) fn answer_all(&mut self, text: &[u8])
        ensures answered { AnswersTo S.around.answers self.old.lines.sender self.old.around text.now self.new.around }
        ensures left { left_of self.new.lines ≡ [] }
        ensures rest { self.new ≡ record self.old { around = self.new.around; lines = self.new.lines } }
    {
        self.lines.answer_all(&mut self.around, text);
    }

    /// Offers a packet to the network that spoils it: whether there is one.
    pub(crate) fn offer(&mut self, way: Way, peer: SocketAddrV4, bytes: &[u8]) -> bool
        ensures spoilt { result ≡ is_some self.old.network }
        ensures around { self.new.around ≡ self.old.around }
        ensures tally { CountsOffer way self.old.network self.old.journal.value.tally self.new.journal.value.tally }
        ensures offers { OffersTo way peer bytes.now self.old.now.clock self.old.network self.new.network
            self.old.journal.value.tally self.new.journal.value.tally }
        ensures notes { OnlyNotes self.old.journal.value self.new.journal.value }
        ensures none { result ≡ false → self.new ≡ self.old }
        ensures rest { self.new ≡ record self.old { network = self.new.network; journal = self.new.journal } }
    {
        let stamp = Stamp {
            moment: self.now.time,
            peer,
        };
        let Some(network) = &mut self.network else {
            return false;
        };
        let clock = self.now.clock;
        offer_to(network, &mut self.journal, stamp, way, bytes, clock);
        true
    }

    /// The next packet that the network hands over now, if there is one. Those before it that go out are sent.
    pub(crate) fn handed_over(&mut self) -> Option<Packet>
        ensures comes { IfSome result (λ packet. packet.way ≡ In) }
        ensures over { SendsOver self.old self.new }
        ensures hands { HandsOver S.around result self.old self.new }
    {
        for _ in 0..MOST_AT_ONCE {
            let Some(network) = &mut self.network else {
                return None;
            };
            let Some(packet) = network.take_due(self.now.clock) else {
                return None;
            };
            if comes_in(packet.way) {
                return Some(packet);
            }
            self.transmit(packet.peer, packet.bytes.as_bytes());
        }
        None
    }

    // Puts a datagram onto the machine's network. One that doesn't leave is counted, and noted in the log.
    fn transmit(&mut self, to: SocketAddrV4, bytes: &[u8])
        ensures sent { Grows (S.around.traffic self.old.around).sent (record { to = to; bytes = bytes.now } ∷ [])
            (S.around.traffic self.new.around).sent }
        ensures received { (S.around.traffic self.new.around).received ≡ (S.around.traffic self.old.around).received }
        ensures tally { CountsLeaving self.old.journal.value.tally self.new.journal.value.tally }
        ensures leaves { Leaves S.around to bytes.now self.old self.new }
        ensures rest { self.new ≡ record self.old { around = self.new.around; journal = self.new.journal } }
    {
        let sent = self.around.send(to, bytes);
        match sent {
            Ok(()) => {}
            Err(_) => {
                count(&mut self.journal.tally.send_faults);
                let stamp = Stamp {
                    moment: self.now.time,
                    peer: to,
                };
                self.journal.note(stamp, Note::Unsent);
            }
        }
    }

    /// Sends a datagram, for the first time or again.
    pub(crate) fn send(&mut self, to: SocketAddrV4, bytes: &[u8], is_repeat: bool)
        ensures sent { is_some self.old.network ≡ false →
            Grows (S.around.traffic self.old.around).sent (record { to = to; bytes = bytes.now } ∷ [])
            (S.around.traffic self.new.around).sent }
        ensures offered { is_some self.old.network ≡ true → self.new.around ≡ self.old.around }
        ensures tally { CountsSent is_repeat self.old.network self.old.journal.value.tally self.new.journal.value.tally }
        ensures over { SendsOver self.old self.new }
        ensures one { SendsOne S.around is_repeat to bytes.now self.old self.new }
    {
        self.journal.sent(self.now.time, to, bytes, is_repeat);
        if self.offer(Way::Out, to, bytes) {
            return;
        }
        self.transmit(to, bytes);
    }

    /// Sends datagrams, for the first time or again.
    pub(crate) fn send_all(&mut self, datagrams: &[OutDatagram], is_repeat: bool)
        ensures { SendsAll S.around is_repeat datagrams.now self.old self.new }
    {
        for datagram in datagrams {
            self.send(datagram.to, datagram.bytes.as_bytes(), is_repeat);
        }
    }

    /// Waits until something comes, but no longer than this, in ms, nor than until what waits to be taken is offered again.
    pub(crate) fn wait(&mut self, longest: u64)
        ensures traffic { S.around.traffic self.new.around ≡ S.around.traffic self.old.around }
        ensures waited { (outcome : Result ⊤ Fault)
            × S.around.sleeps self.old.around (longest_wait self.old.is_offering longest) outcome self.new.around
            × (self.new.journal.value.tally ≡ waited_counted outcome self.old.journal.value.tally) }
        ensures journal { self.new.journal.value ≡ record self.old.journal.value { tally = self.new.journal.value.tally } }
        ensures rest { self.new ≡ record self.old { around = self.new.around; journal = self.new.journal } }
    {
        let longest = longest_wait(self.is_offering, longest);
        if self.around.wait(longest).is_err() {
            count(&mut self.journal.tally.receive_faults);
        }
    }
}
