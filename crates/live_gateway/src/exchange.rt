//! What goes between the gateway and others: over sockets, behind a bad network where one is asked for; and its journal.
ghost use Rattle.std.specs.Prelude.{◌≡◌, ◌<◌, ◌≤◌, ◌∷◌, ◌⊎◌, ⊤, [], true, false, length, take, ℕ, Bool, List, Option, Result, IfOk, IfSome, is_some, option_map};
ghost use Rattle.small_rules.specs.Counting.{counted};
ghost use Rattle.live_io.specs.declared.surroundings.Fault.{Fault};
ghost use Rattle.live_io.specs.Hearing.{Hears};
ghost use Rattle.live_io.specs.Sending.{Sent, Grows, found_by};
ghost use Rattle.live_gateway.specs.Admitting.{is_heard};
ghost use Rattle.live_gateway.specs.Offering.{brought, TakesDue};
ghost use Rattle.live_gateway.specs.Exchanging.{handed_by, received_by, came_by, next_due, moment_at, with_read, faults_by, Waits, Becomes, HandsOver, LosesOver, IsSameTurn, LooksOnce, CountsReceived, FoundSince};
ghost use Rattle.live_gateway.specs.Visiting.{ServesOnce};
ghost use Rattle.live_gateway.specs.Leaving.{OnlyTells};
ghost use Rattle.live_gateway.specs.Noting.{NotesReceived, TurnsAway, NotesArrival, NotesLate, CountsFound};
ghost use Rattle.live_gateway.specs.Opening.{CountsNothing, BeginsBoard, BeginsRecords, BeginsNetwork, IsUnused};
ghost use Rattle.live_gateway.specs.Passing.{HandsOut, LooksOver, Looks};
ghost use Rattle.live_play.specs.Readable.{first_unread};

use crate::admission::Admission;
use crate::opening::{DeskSettings, journal_of, network_of};
use crate::spoilt_way::SpoiltWay;
use crate::visitors::Visitors;
use gateway_core::{Gateway, SentMessage};
use impairment::{Fate, Packet, Way};
use live_io::{Fault, Lines, Surroundings};
use live_journal::Journal;
use live_play::{FIRST_UNREAD, Outlet};
use live_system::longest_wait;
use log_format::Note;
use message_counts::{Faults, Taken};
use output_queues::Now;
use small_rules::count;
use std::alloc::{AllocError, Global};
use std::net::SocketAddrV4;
use traces::Mark;

/// So many packets are handed out at most where the network before the socket is looked for one that comes in.
pub(crate) const MOST_AT_ONCE: u16 = 65_535;

/// The way between a gateway and others, and what is kept of what went over it.
pub struct Exchange<S> {
    pub around: S,
    // What spoils what goes over it, where that is asked for.
    network: Option<Box<SpoiltWay>>,
    pub journal: Journal,
    /// What clocks say at the turn under way.
    pub now: Now,
    /// So many datagrams were read since the start, of lines too.
    pub read: u64,
    pub faults: Faults,
    /// Whether something that was recorded waits to be taken.
    pub is_offering: bool,
}

// Written out: a derived drop, and those of all its parts, are proved anew by each crate that lets one go.
impl<S: Drop> Drop for Exchange<S> {
    fn drop(self) {
        let Exchange {
            around,
            network: way,
            journal,
            now: _,
            read: _,
            faults: _,
            is_offering: _,
        } = self;
        drop(around);
        drop(way);
        drop(journal);
    }
}

/// The way between the gateway of this domain and others, over which nothing went. Its only error is want of memory.
pub(crate) fn exchange_of<S: Surroundings + Drop>(
    alloc: Global,
    settings: &DeskSettings<'_>,
    domain: &[u8],
    around: Box<S>,
) -> Result<Exchange<S>, AllocError>
    ensures around { IfOk result (λ exchange. exchange.around ≡ around.value) }
    ensures spoilt { IfOk result (λ exchange. BeginsNetwork settings.now.network domain.now exchange.network) }
    ensures page { IfOk result (λ exchange. BeginsBoard settings.now.has_page exchange.journal.board) }
    ensures counted { IfOk result (λ exchange. CountsNothing exchange.journal.tally.value) }
    ensures recorded { IfOk result (λ exchange. BeginsRecords settings.now domain.now exchange.journal) }
    ensures unused { IfOk result (λ exchange. IsUnused exchange) }
{
    let Ok(network) = network_of(alloc, settings.network, domain) else {
        return Err(AllocError);
    };
    let Ok(journal) = journal_of(alloc, settings, domain) else {
        return Err(AllocError);
    };
    let around = Box::into_inner(around);
    let now = Now {
        clock: 0,
        time: around.time(),
    };
    Ok(Exchange {
        around,
        network,
        journal,
        now,
        read: 0,
        faults: Faults::NONE,
        is_offering: false,
    })
}

impl<S: Surroundings + Drop> Exchange<S> {
    /// A turn begins, where ticks have come to this moment, in ms.
    pub fn begin(&mut self, ticked: u64)
        ensures network { self.new.network ≡ self.old.network }
        ensures around { self.new.around ≡ self.old.around }
        ensures clock { self.new.now.clock ≡ ticked }
        ensures time { S.around.dates self.old.around self.new.now.time }
        ensures journal { self.new.journal ≡ self.old.journal }
        ensures read { self.new.read ≡ self.old.read }
        ensures faults { self.new.faults ≡ self.old.faults }
        ensures offering { self.new.is_offering ≡ self.old.is_offering }
    {
        self.now = Now {
            clock: ticked,
            time: self.around.time(),
        };
    }

    /// The moment at which the network hands something out, in ms, if it will.
    pub fn network_due(&self) -> Option<u64>
        ensures { result ≡ next_due self.entry.now.network }
    {
        match &self.network {
            Some(network) => network.next_due(),
            None => None,
        }
    }

    /// How long it is since the start, in ms. A clock that fails stands still, at the moment to which ticks have come; so does one that
    /// tells a moment that no trace has read again, some 31 million years later.
    pub fn moment(&mut self, ticked: u64) -> u64
        ensures network { self.new.network ≡ self.old.network }
        ensures around { self.new.around ≡ self.old.around }
        ensures short { (result < first_unread) ⊎ (result ≡ ticked) }
        ensures clock { (clock : Result ℕ Fault) × S.around.passes self.old.around clock × (result ≡ moment_at clock ticked)
            × (self.new.faults ≡ faults_by clock self.old.faults) }
        ensures refused { self.new.faults.refused ≡ self.old.faults.refused }
        ensures journal { self.new.journal ≡ self.old.journal }
        ensures read { self.new.read ≡ self.old.read }
        ensures turn { IsSameTurn self.old self.new }
    {
        match self.around.moment() {
            Ok(moment) if moment < FIRST_UNREAD => moment,
            Ok(_) | Err(_) => {
                count(&mut self.faults.receive);
                ticked
            }
        }
    }

    /// A visitor is served, at this moment in ms, if one is there.
    pub fn serve_visitor<V: Visitors<S>>(&mut self, visitors: &mut Option<Box<V>>, moment: u64)
        ensures traffic { S.around.traffic self.new.around ≡ S.around.traffic self.old.around }
        ensures rest { OnlyTells self.old self.new }
        ensures served { ServesOnce V.visits.serves moment visitors.old self.old.around self.old.journal.board
            visitors.new self.new.around self.new.journal.board }
    {
        if let Some(visitors) = visitors {
            if let Some(board) = &mut self.journal.board {
                visitors.turn(&mut self.around, board, moment);
            }
        }
    }

    /// A datagram of lines is taken, where no line is left and one has come.
    pub fn hear(&mut self, lines: &mut Lines)
        ensures traffic { S.around.traffic self.new.around ≡ S.around.traffic self.old.around }
        ensures rest { self.new ≡ record self.old { around = self.new.around; read = self.new.read } }
        ensures heard { (taken : Bool) × Hears S.around self.old.around lines.old taken self.new.around lines.new
            × (self.new.read ≡ with_read taken self.old.read) }
        ensures read { ((self.new.read ≡ self.old.read) × (lines.new ≡ lines.old)) ⊎ (self.new.read ≡ counted self.old.read 1) }
    {
        if lines.hear(&mut self.around) {
            count(&mut self.read);
        }
    }

    /// Waits until something comes, but no longer than this, in ms, nor than until what waits to be taken is offered again.
    pub fn wait(&mut self, longest: u64)
        ensures handed { handed_by self.new.network (S.around.traffic self.new.around).sent
            ≡ handed_by self.old.network (S.around.traffic self.old.around).sent }
        ensures waited { Waits S.around.sleeps longest self.old self.new }
        ensures received { received_by self.new.network (S.around.traffic self.new.around).received
            ≡ received_by self.old.network (S.around.traffic self.old.around).received }
        ensures refused { self.new.faults.refused ≡ self.old.faults.refused }
        ensures rest { self.new ≡ record self.old { around = self.new.around; faults = self.new.faults } }
    {
        let longest = longest_wait(self.is_offering, longest);
        if self.around.wait(longest).is_err() {
            count(&mut self.faults.receive);
        }
    }

    // The next packet that the network hands out now, if there is one. Of one that comes in as much as there is room for is put at the
    // front of the room: how much that is.
    #[tactic(auto, using(crate::proofs::HearingLemmas::nothing_kept))]
    fn take_due(&mut self, room: &mut [u8]) -> Option<(Packet, usize)>
        ensures length { length room.new ≡ length room.old }
        ensures within { IfSome result (λ found. found.1 ≤ length room.new) }
        ensures rest { self.new ≡ record self.old { network = self.new.network } }
        ensures spoilt { is_some self.new.network ≡ is_some self.old.network }
        ensures handed { handed_by self.new.network (S.around.traffic self.new.around).sent
            ≡ handed_by self.old.network (S.around.traffic self.old.around).sent }
        ensures behind { IfSome result (λ _. (sent : Option (List Sent)) →
            handed_by self.new.network sent ≡ handed_by self.old.network (S.around.traffic self.old.around).sent) }
        ensures came { Grows (received_by self.old.network (S.around.traffic self.old.around).received) (brought result room.new)
            (received_by self.new.network (S.around.traffic self.new.around).received) }
        ensures due { TakesDue self.old.now.clock self.old.network (option_map (λ found. found.0) result) self.new.network }
        ensures put { IfSome result (λ found. found.0.way ≡ Way.In → take found.1 room.new ≡ take (length room.old) found.0.bytes) }
    {
        match &mut self.network {
            Some(network) => network.take_due(self.now.clock, room),
            None => None,
        }
    }

    // A datagram has come from a stranger, which is counted, and told of now and then; one without a port can't be answered, and isn't
    // counted.
    fn turn_away(&mut self, source: SocketAddrV4)
        ensures rest { self.new ≡ record self.old { journal = self.new.journal } }
        ensures noted { TurnsAway self.old.journal self.old.now.time source self.new.journal }
    {
        if 0 < source.port() {
            self.journal.stranger(self.now, source);
        }
    }

    // A datagram has come, with these bytes, so many ms late by the network before the socket: whether it is heard.
    fn come(&mut self, admission: &Admission, source: SocketAddrV4, bytes: &[u8], late: u64) -> bool
        ensures heard { result ≡ is_heard admission.now source }
        ensures rest { self.new ≡ record self.old { journal = self.new.journal } }
        ensures noted { NotesArrival admission.now self.old.journal self.old.now.time source self.new.journal }
        ensures received { is_heard admission.now source ≡ true
            → NotesReceived self.old.now late source bytes.now self.old.journal self.new.journal }
    {
        if !admission.hears(source) {
            self.turn_away(source);
            return false;
        }
        self.journal.came(self.now, source, bytes, late);
        true
    }

    // A datagram that the network hands out now is sent. That it couldn't be the log alone tells: the turn that it is of is over.
    fn send_late(&mut self, to: SocketAddrV4, bytes: &[u8])
        ensures rest { self.new ≡ record self.old { around = self.new.around; journal = self.new.journal } }
        ensures received { (S.around.traffic self.new.around).received ≡ (S.around.traffic self.old.around).received }
        ensures noted { (sent : Result ⊤ Fault) × S.around.sends self.old.around to bytes.now sent self.new.around
            × NotesLate self.old.journal self.old.now.time to sent self.new.journal }
        ensures tally { self.new.journal.tally ≡ self.old.journal.tally }
    {
        match self.around.send(to, bytes) {
            Ok(()) => {}
            Err(_) => self.journal.unsent(self.now, to),
        }
    }

    // A datagram that the network hands to the gateway now, if there is one, from who is heard. Those that go out now are sent.
    fn handed_over(
        &mut self,
        admission: &Admission,
        room: &mut [u8],
    ) -> Option<(SocketAddrV4, usize)>
        ensures length { length room.new ≡ length room.old }
        ensures within { IfSome result (λ p. p.1 ≤ length room.new) }
        ensures admitted { IfSome result (λ p. is_heard admission.now p.0 ≡ true) }
        ensures handed { handed_by self.new.network (S.around.traffic self.new.around).sent
            ≡ handed_by self.old.network (S.around.traffic self.old.around).sent }
        ensures faults { self.new.faults ≡ self.old.faults }
        ensures read { self.new.read ≡ self.old.read }
        ensures turn { IsSameTurn self.old self.new }
        ensures spoilt { is_some self.new.network ≡ is_some self.old.network }
        ensures came { FoundSince S.around.traffic admission.now self.old result room.new self.new }
        ensures tally { CountsFound self.old.journal.tally.value result self.new.journal.tally.value }
        ensures hands { HandsOut S.around.sends admission.now result room.new self.old self.new }
    {
        for _ in 0..MOST_AT_ONCE {
            let (packet, len) = self.take_due(room)?;
            match packet.way {
                Way::Out => self.send_late(packet.peer, packet.bytes.as_bytes()),
                Way::In => {
                    let late = packet.due.saturating_sub(packet.offered);
                    if self.come(admission, packet.peer, &room[..len], late) {
                        return Some((packet.peer, len));
                    }
                }
            }
        }
        None
    }

    // A datagram that has come goes over the network: whether that loses it.
    fn is_lost(&mut self, source: SocketAddrV4, bytes: &[u8]) -> bool
        ensures received { received_by self.new.network (S.around.traffic self.new.around).received
            ≡ received_by self.old.network (S.around.traffic self.old.around).received }
        ensures handed { handed_by self.new.network (S.around.traffic self.new.around).sent
            ≡ handed_by self.old.network (S.around.traffic self.old.around).sent }
        ensures rest { self.new ≡ record self.old { network = self.new.network } }
        ensures spoilt { is_some self.new.network ≡ is_some self.old.network }
        ensures lost { LosesOver source bytes.now self.old.now.clock result self.old.network self.new.network }
    {
        let now = self.now.clock;
        match &mut self.network {
            Some(network) => match network.offer_in(source, bytes, now) {
                Ok(fate) => matches!(fate, Fate::Lost),
                Err(_) => true,
            },
            None => false,
        }
    }

    // A datagram of the socket, if one has come.
    fn read_socket(&mut self, room: &mut [u8]) -> Option<(SocketAddrV4, usize)>
        ensures length { length room.new ≡ length room.old }
        ensures within { IfSome result (λ p. p.1 ≤ length room.new) }
        ensures rest { self.new ≡ record self.old { around = self.new.around; read = self.new.read; faults = self.new.faults } }
        ensures sent { (S.around.traffic self.new.around).sent ≡ (S.around.traffic self.old.around).sent }
        ensures received { Grows (S.around.traffic self.old.around).received (found_by result room.new)
            (S.around.traffic self.new.around).received }
        ensures refused { self.new.faults.refused ≡ self.old.faults.refused }
        ensures counts { LooksOnce S.around.receives self.old result room.new self.new }
    {
        match self.around.receive(room) {
            Ok(Some(found)) => {
                count(&mut self.read);
                Some(found)
            }
            Ok(None) => None,
            Err(_) => {
                count(&mut self.faults.receive);
                None
            }
        }
    }

    // A datagram that the network before the socket hands over from who is heard, if one is due. What comes of the socket goes over that
    // network, which may lose it, or hand over another one; but a stranger's doesn't: so nothing that one sends changes what becomes of what
    // others send.
    fn receive_spoilt(
        &mut self,
        admission: &Admission,
        room: &mut [u8],
    ) -> Option<(SocketAddrV4, usize)>
        requires { is_some self.old.network ≡ true }
        ensures length { length room.new ≡ length room.old }
        ensures within { IfSome result (λ p. p.1 ≤ length room.new) }
        ensures admitted { IfSome result (λ p. is_heard admission.now p.0 ≡ true) }
        ensures handed { handed_by self.new.network (S.around.traffic self.new.around).sent
            ≡ handed_by self.old.network (S.around.traffic self.old.around).sent }
        ensures refused { self.new.faults.refused ≡ self.old.faults.refused }
        ensures counts { CountsReceived S.around.receives admission.now self.old result room.new self.new }
        ensures turn { IsSameTurn self.old self.new }
        ensures came { FoundSince S.around.traffic admission.now self.old result room.new self.new }
        ensures tally { CountsFound self.old.journal.tally.value result self.new.journal.tally.value }
        ensures looks { LooksOver S.around admission.now result room.new self.old self.new }
    {
        if let Some(found) = self.handed_over(admission, room) {
            return Some(found);
        }
        let (source, len) = self.read_socket(room)?;
        if !admission.hears(source) {
            self.turn_away(source);
            return None;
        }
        if self.is_lost(source, &room[..len]) {
            self.journal
                .untaken(self.now, source, &room[..len], Note::Lost);
            return None;
        }
        self.handed_over(admission, room)
    }

    /// A datagram for the gateway, put at the start of the room, if one has come from one of those who are heard: from where, and how
    /// long it is. What comes from others, or from the gateway's own sockets, is counted, and told of once a second; it does nothing else.
    pub fn receive(
        &mut self,
        admission: &Admission,
        room: &mut [u8],
    ) -> Option<(SocketAddrV4, usize)>
        ensures length { length room.new ≡ length room.old }
        ensures within { IfSome result (λ p. p.1 ≤ length room.new) }
        ensures admitted { IfSome result (λ p. is_heard admission.now p.0 ≡ true) }
        ensures handed { handed_by self.new.network (S.around.traffic self.new.around).sent
            ≡ handed_by self.old.network (S.around.traffic self.old.around).sent }
        ensures refused { self.new.faults.refused ≡ self.old.faults.refused }
        ensures counts { CountsReceived S.around.receives admission.now self.old result room.new self.new }
        ensures turn { IsSameTurn self.old self.new }
        ensures came { FoundSince S.around.traffic admission.now self.old result room.new self.new }
        ensures tally { CountsFound self.old.journal.tally.value result self.new.journal.tally.value }
        ensures looks { Looks S.around admission.now result room.new self.old self.new }
    {
        if self.network.is_some() {
            return self.receive_spoilt(admission, room);
        }
        let (source, len) = self.read_socket(room)?;
        if self.come(admission, source, &room[..len], 0) {
            return Some((source, len));
        }
        None
    }

    // Sends a datagram, over the network where there is one: what becomes of it.
    fn send(&mut self, to: SocketAddrV4, bytes: &[u8]) -> Result<Fate, Fault>
        ensures handed { Grows (handed_by self.old.network (S.around.traffic self.old.around).sent)
            (record { to = to; bytes = bytes.now } ∷ []) (handed_by self.new.network (S.around.traffic self.new.around).sent) }
        ensures received { received_by self.new.network (S.around.traffic self.new.around).received
            ≡ received_by self.old.network (S.around.traffic self.old.around).received }
        ensures became { Becomes S.around.sends self.old to bytes.now result self.new }
        ensures faults { self.new.faults ≡ self.old.faults }
        ensures rest { (self.new.read ≡ self.old.read) × IsSameTurn self.old self.new }
        ensures journal { self.new.journal ≡ self.old.journal }
    {
        if let Some(network) = &mut self.network {
            return match network.offer_out(to, bytes, self.now.clock) {
                Ok(fate) => Ok(fate),
                Err(_) => Err(Fault),
            };
        }
        self.around.send(to, bytes)?;
        Ok(Fate::Once { late: 0 })
    }
}

impl<S: Surroundings + Drop> Outlet for Exchange<S> {
    ghost use Rattle.live_gateway.specs.Exchanging.{handed_by, came_by, IsTold, HandsOver};

    ghost handed = { λ e. handed_by e.network (S.around.traffic e.around).sent };

    ghost came = { λ e. came_by S.around.traffic e };

    ghost turns = { λ was gateway is. IsTold was gateway is };

    ghost hands = { λ was to bytes messages mark is. HandsOver S.around.sends was to bytes messages mark is };

    fn turned(&mut self, gateway: &Gateway) {
        let taken = Taken {
            outcomes: gateway.outcomes(),
            sent: gateway.sent(),
            given_up: gateway.given_up(),
            route: &gateway.setup().agent.route,
        };
        self.journal.turned(self.now, &taken);
    }

    fn hand(&mut self, to: SocketAddrV4, bytes: &[u8], messages: &[SentMessage]) -> Option<Mark>
        ensures handed { Grows (handed_by self.old.network (S.around.traffic self.old.around).sent)
            (record { to = to; bytes = bytes.now } ∷ []) (handed_by self.new.network (S.around.traffic self.new.around).sent) }
        ensures came { came_by S.around.traffic self.new ≡ came_by S.around.traffic self.old }
        ensures hands { HandsOver S.around.sends self.old to bytes.now messages.now result self.new }
    {
        self.journal.sent(self.now, to, bytes, messages);
        match self.send(to, bytes) {
            Ok(fate) => {
                self.journal.spoilt(self.now, to, fate);
                match fate {
                    Fate::Lost => Some(Mark::Lost),
                    Fate::Once { .. } | Fate::Twice { .. } => None,
                }
            }
            Err(_) => {
                count(&mut self.faults.send);
                self.journal.unsent(self.now, to);
                Some(Mark::Unsent)
            }
        }
    }
}
