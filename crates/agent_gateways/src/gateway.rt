//! A gateway that a call agent works with.
ghost use Rattle.std.specs.Prelude.{◌≡◌, [], ◌∷◌, ◌++◌, IfErr, IfOk, OnOk, OnErr, slice_get};
ghost use Rattle.std.specs.Result.{result_err};
ghost use Rattle.plain_machine.specs.Event.{tick};
ghost use Rattle.call_agent.specs.Hearing.{hears, issues};
ghost use Rattle.call_agent.specs.AgentStands.{AgentTook, AgentStays};
ghost use Rattle.agent_gateways.specs.AgentClock.{first_id, tick_to};
ghost use Rattle.agent_gateways.specs.Announcing.{is_new, last_new};
ghost use Rattle.agent_gateways.specs.Dues.{FallsDueAt};
ghost use Rattle.agent_gateways.specs.Ended.{asked_in, first_ended, is_ended_in, still_flying};
ghost use Rattle.agent_gateways.specs.Issuing.{Fails, Flies};
ghost use Rattle.agent_gateways.specs.Opening.{begins_as, known_as, StandsNew};
ghost use Rattle.agent_gateways.specs.Steps.{Refuses};
ghost use Rattle.agent_gateways.specs.Wakes.{first_moment, first_woken, behind_woken};

use crate::flight::Flight;
use crate::own_copy::Room;
use agent_config::copied;
use call_agent::{Agent, IssueFault, Issued};
use endpoint_names::Route;
use mg_bytes::{OutOfMemory, Text};
use mgcp_text::TransactionId;
use plain_machine::{Event, Outputs, Refusal};
use std::alloc::{AllocError, Global};
use std::net::SocketAddrV4;
use turns::earlier;

// The clock of an agent goes on by no more than this at once, in ms.
const LONGEST_TICK: u64 = 1000;

// How long an announcement with the same id is a repeat, from the first on, in ms (RFC 3435, 3.5.1).
const REPEAT_TIME: u64 = 30_000;

// Ids begin up to here, so that enough are left.
const FIRST_IDS: u64 = 900_000_000;

/// A line to which a command is sent again at a moment, in ms.
#[derive(Clone, Copy)]
pub(crate) struct Wake {
    pub(crate) moment: u64,
    pub(crate) line: usize,
}

/// A gateway, with the agent that works with it.
#[derive(Drop)]
pub(crate) struct Gateway {
    // In a box: a check pays for all that a value holds inline at each step of a function that is lent it.
    pub(crate) agent: Box<Agent>,
    pub(crate) address: SocketAddrV4,
    /// What stands behind the `@` of its endpoints' names.
    pub(crate) domain: Text,
    /// The place of its first line among those of all gateways, and how many it has.
    pub(crate) first: usize,
    pub(crate) lines: u16,
    // What isn't answered yet, in the order in which it was issued.
    flights: Vec<Flight>,
    // The lines of which commands were put off. Each is sent again as long behind its answer, so they stand in the order of that.
    wakes: Vec<Wake>,
    // The moment of the agent's clock, in ms.
    pub(crate) ticked: u64,
    // The id of the last announcement, and when it came.
    announced: Option<(u32, u64)>,
}

// The first id that an agent issues that is started at this time of day, in ms.
fn first_id(time: u64) -> u32
    ensures { result ≡ first_id time }
{
    (time % FIRST_IDS) as u32 + 1
}

// How far a clock that has come to here goes on to a moment, in ms.
fn tick_to(ticked: u64, moment: u64) -> u64
    ensures { result ≡ tick_to ticked moment }
{
    moment.min(ticked.saturating_add(LONGEST_TICK))
}

// Whether an announcement under this id is new at a moment, in ms, behind the last one that was.
fn is_new(announced: Option<(u32, u64)>, id: u32, now: u64) -> bool
    ensures { result ≡ is_new announced id now }
{
    match announced {
        None => true,
        Some((last, first)) => last != id || now.saturating_sub(first) >= REPEAT_TIME,
    }
}

// When the first of these commands is sent again, in ms.
fn first_moment(wakes: &[Wake]) -> Option<u64>
    ensures { result ≡ first_moment wakes.now }
{
    match wakes.first() {
        Some(wake) => Some(wake.moment),
        None => None,
    }
}

// Whether the command at a place is over at a moment, in ms: answered by a response with this id and return code; without a response,
// given up.
fn is_ended_at(
    flights: &mut Vec<Flight>,
    place: usize,
    response: &Option<(TransactionId, u16)>,
    moment: u64,
) -> bool
    ensures over { result ≡ is_ended_in response.now moment (slice_get flights.old.items place) }
    ensures flights { flights.new.items ≡ asked_in response.now moment flights.old.items place (slice_get flights.old.items place) }
{
    match flights.get_mut(place) {
        Some(flight) => flight.is_over(response, moment),
        None => false,
    }
}

impl Gateway {
    /// A gateway at this address with this domain and so many lines, of which the first has this place. The agent has this address of
    /// its own. It is this time of day, in ms: an agent that is started again issues its commands behind the ids of the one before, of
    /// which the gateway may know some still. An error is for want of memory only.
    pub(crate) fn new(
        alloc: Global,
        own: SocketAddrV4,
        address: SocketAddrV4,
        domain: &[u8],
        first: usize,
        lines: u16,
        time: u64,
    ) -> Result<Gateway, OutOfMemory>
        ensures agent { IfOk result (λ made. StandsNew made) }
        ensures begins { IfOk result (λ made. known_as made ≡ begins_as time own first address domain.now lines) }
    {
        let kept = copied(alloc, domain)?;
        let named = copied(alloc, domain)?;
        let first_id = first_id(time);
        let agent = Agent::new(alloc, Route::One(own), address, named, lines, first_id)?;
        let Ok(agent) = Box::new(alloc, agent) else {
            return Err(AllocError);
        };
        Ok(Gateway {
            agent,
            address,
            domain: kept,
            first,
            lines,
            flights: Vec::new(alloc),
            wakes: Vec::new(alloc),
            ticked: 0,
            announced: None,
        })
    }

    /// Issues a command; to the line at this place, where an exchange sends it. It is in flight from now on, and this is sent. After an
    /// error nothing was issued, and nothing is to be sent: room for what is in flight is made before, so want of memory comes before any
    /// other reason.
    pub(crate) fn issue(
        &mut self,
        alloc: Global,
        verb: &[u8],
        name: &[u8],
        rest: &[u8],
        line: Option<usize>,
    ) -> Result<Issued, IssueFault>
        ensures took { IfOk result (λ issued. AgentTook self.old.agent.value (issues verb.now name.now rest.now) self.new.agent.value
            (issued.datagram ∷ [])) }
        ensures flight { IfOk result (λ issued. Flies line issued self.old self.new) }
        ensures err { OnErr result (AgentStays self.old.agent.value self.new.agent.value) }
        ensures fails { IfErr result (λ fault. Fails verb.now name.now rest.now fault self.old) }
        ensures none_flies { OnErr result (self.new.flights.items ≡ self.old.flights.items) }
        ensures others { self.new ≡ record self.old { agent = self.new.agent; flights = self.new.flights } }
    {
        if self.flights.reserve(1).is_err() {
            return Err(IssueFault::OutOfMemory);
        }
        let Ok(room) = Room::new(alloc, self.address, self.ticked) else {
            return Err(IssueFault::OutOfMemory);
        };
        let issued = match self.agent.issue(verb, name, rest) {
            Ok(issued) => issued,
            Err(fault) => return Err(fault),
        };
        let flight = Flight::begin(room, &issued, line);
        self.flights.push_reserved(flight);
        Ok(issued)
    }

    /// The clock goes on to this moment (in ms), but by no more than a second: what is sent. It stands still where its agent refuses that,
    /// for its reason.
    pub(crate) fn tick(&mut self, moment: u64) -> Result<Outputs, Refusal>
        ensures ok { IfOk result (λ outputs.
            AgentTook self.old.agent.value (hears (tick (tick_to self.old.ticked moment))) self.new.agent.value outputs) }
        ensures ends { Refuses (tick (tick_to self.old.ticked moment)) (result_err result) self.old }
        ensures ticked { OnOk result (self.new.ticked ≡ tick_to self.old.ticked moment) }
        ensures err { OnErr result (AgentStays self.old.agent.value self.new.agent.value) }
        ensures not_ticked { OnErr result (self.new.ticked ≡ self.old.ticked) }
        ensures rest { self.new ≡ record self.old { agent = self.new.agent; ticked = self.new.ticked } }
    {
        let moment = tick_to(self.ticked, moment);
        let outputs = self.agent.step(Event::Tick { moment })?;
        self.ticked = moment;
        Ok(outputs)
    }

    /// A command to the line at this place is sent again at a moment, in ms: no earlier one than those before. An error is for want of
    /// memory only, and leaves that out.
    pub(crate) fn put_off(&mut self, line: usize, moment: u64) -> Result<(), OutOfMemory>
        ensures ok { OnOk result (self.new.wakes.items ≡ self.old.wakes.items ++ (record { moment = moment; line = line }) ∷ []) }
        ensures err { OnErr result (self.new.wakes.items ≡ self.old.wakes.items) }
        ensures rest { self.new ≡ record self.old { wakes = self.new.wakes } }
    {
        match self.wakes.push(Wake { moment, line }) {
            Ok(()) => Ok(()),
            Err(_) => Err(AllocError),
        }
    }

    /// When something falls due next at its agent, or a command is sent again that was put off, in ms.
    pub(crate) fn next_due(&self) -> Option<u64>
        ensures { FallsDueAt self.now result }
    {
        earlier(self.agent.next_due(), first_moment(self.wakes.as_slice()))
    }

    /// The next line to which a command is sent again by now. It isn't put off any more.
    pub(crate) fn woken(&mut self) -> Option<Wake>
        ensures wake { result ≡ first_woken self.old.ticked self.old.wakes.items }
        ensures others { self.new.wakes.items ≡ behind_woken self.old.ticked self.old.wakes.items }
        ensures rest { self.new ≡ record self.old { wakes = self.new.wakes } }
    {
        let first = self.wakes.first().copied()?;
        if first.moment <= self.ticked {
            self.wakes.remove(0);
            return Some(first);
        }
        None
    }

    /// The command that a response with this id and return code answers; without a response, the next one that is given up by now. It
    /// isn't in flight any more.
    pub(crate) fn ended(&mut self, response: Option<(TransactionId, u16)>) -> Option<Flight>
        ensures ended { result ≡ first_ended response self.old.ticked self.old.flights.items }
        ensures left { self.new.flights.items ≡ still_flying response self.old.ticked self.old.flights.items }
        ensures rest { self.new ≡ record self.old { flights = self.new.flights } }
    {
        let now = self.ticked;
        for place in 0..self.flights.len() {
            if is_ended_at(&mut self.flights, place, &response, now) {
                return Some(self.flights.remove(place));
            }
        }
        None
    }

    /// Something is announced under this id: whether that is new.
    pub(crate) fn announces(&mut self, id: TransactionId) -> bool
        ensures new { result ≡ is_new self.old.announced id self.old.ticked }
        ensures last { self.new ≡ record self.old { announced = last_new self.old.announced id self.old.ticked } }
    {
        let (id, now) = (id.number(), self.ticked);
        let is_new = is_new(self.announced, id, now);
        if is_new {
            self.announced = Some((id, now));
        }
        is_new
    }
}
