//! The call agent.
ghost use Rattle.std.specs.Prelude.{◌≡◌, ◌≤◌, ◌∷◌, [], List, option_map, option_copied, IfOk, OnErr};
ghost use Rattle.std.specs.Result.{result_err};
ghost use Rattle.plain_machine.specs.Event.{event_of};
ghost use Rattle.call_agent.specs.Agent.{answer_for, observed_on};
ghost use Rattle.call_agent.specs.Choosing.{first_flight};
ghost use Rattle.call_agent.specs.Issuing.{issue_refusal};
ghost use Rattle.call_agent.specs.Hearing.{AgentEvent, AgentEnds, issues, hears, plain_agent};
ghost use Rattle.call_agent.specs.State.{answer_in};
ghost use Rattle.call_agent.specs.AgentStands.{AgentStands, AgentTook, AgentStays, IssueEnds};

use crate::flights::Flights;
use crate::growing::Growing;
use crate::issuing::{IssueFault, Issued, issue_under_next_id};
use crate::setup::AgentSetup;
use crate::state::{Context, State};
use crate::told::TakenEvents;
use crate::working::step_state;
use endpoint_names::Route;
use mg_bytes::{OutOfMemory, Text};
use packages::Observed;
use plain_machine::{Event, Outputs, Refusal};
use retransmission::{Answer, answer_with};
use std::alloc::Global;
use std::marker::Model;
use std::net::SocketAddrV4;
use transmission::History;

/// A call agent that works with one gateway. It issues commands, each under an id of its own, and repeats each until it is
/// answered or given up; and it takes the commands of the gateway, each once (RFC 3435, 3.5).
///
/// A contract sees who it is, and what it keeps of the plain agent; `AgentStands` says which lists of events it stands for.
pub struct Agent {
    alloc: Global,
    setup: AgentSetup,
    state: State,
}

// Written out: a derived drop, and those of all its parts, are proved anew by each crate that lets one go.
impl Drop for Agent {
    fn drop(self) {
        let Agent {
            alloc: _,
            setup,
            state,
        } = self;
        drop(setup);
        drop(state);
    }
}

impl Model for Agent {
    ghost use Rattle.call_agent.specs.State.{kept_in};
    ghost use Rattle.call_agent.specs.AgentStands.{AgentState, IsAgentSound};

    ghost Value = { AgentState };

    ghost view = { λ a. record { setup = a.setup; machine = kept_in a.state } };

    ghost invariant = { λ a. IsAgentSound a.setup (kept_in a.state) };
}

impl Agent {
    /// An agent with these addresses of its own, for the gateway at this address, which has this domain and so many lines. It
    /// sends from the first of them. Its ids begin with the first; at moment 0 nothing was issued and nothing came.
    pub fn new(
        alloc: Global,
        own: Route<SocketAddrV4>,
        gateway: SocketAddrV4,
        domain: Text,
        lines: u16,
        first: u32,
    ) -> Result<Agent, OutOfMemory>
        requires some { 1 ≤ first }
        requires short { first ≤ 999999999 }
        ensures setup { IfOk result (λ a. a.setup
            ≡ record { own = own; gateway = gateway; domain = domain; lines = lines; first = first }) }
        ensures stands { IfOk result (λ a. AgentStands a []) }
    {
        let told = TakenEvents::nothing(alloc, lines)?;
        let setup = AgentSetup {
            own,
            gateway,
            domain,
            lines,
            first,
        };
        let state = State {
            clock: 0,
            flights: Flights::none(alloc, first),
            answers: Growing::new(alloc),
            told,
            history: History::new(alloc),
        };
        Ok(Agent {
            alloc,
            setup,
            state,
        })
    }

    /// Its own addresses: it sends from the first, and receives at each (RFC 3435, 3.5).
    pub fn own(&self) -> Route<SocketAddrV4>
        ensures { result ≡ self.now.setup.own }
    {
        self.setup.own
    }

    /// Issues the command `verb id name MGCP 1.0`, with these bytes behind its line, under the next id (RFC 3435, 3.2.1).
    /// The datagram goes out at once, and again by `step` until the command is answered or given up.
    ///
    /// `NoMoreIds` comes before want of memory. After an error the agent is as it was, and no id was used.
    pub fn issue(&mut self, verb: &[u8], name: &[u8], rest: &[u8]) -> Result<Issued, IssueFault>
        ensures ok { IfOk result (λ issued. AgentTook self.old (issues verb.now name.now rest.now) self.new
            (issued.datagram ∷ [])) }
        ensures id { (before : List AgentEvent) → AgentStands self.old before → IfOk result (λ issued. issued.id
            ≡ (plain_agent self.old.setup before).next) }
        ensures err { OnErr result (AgentStays self.old self.new) }
        ensures ends { (before : List AgentEvent) → AgentStands self.old before → IssueEnds
            (issue_refusal (plain_agent self.old.setup before) verb.now name.now rest.now) (result_err result) }
    {
        let to = self.setup.gateway;
        let moment = self.state.clock;
        issue_under_next_id(
            self.alloc,
            &mut self.state.flights,
            to,
            moment,
            verb,
            name,
            rest,
        )
    }

    /// One event, as of a gateway: a datagram comes, or the clock goes on (in ms); what goes out. An agent has no telephones,
    /// so an act is `NoSuchLine`; a tick is refused as a gateway's is. A datagram that is too long, and a tick up to which nothing
    /// is due, take no memory. What the agent stood for before a refused event it stands for still.
    pub fn step(&mut self, event: Event<'_>) -> Result<Outputs, Refusal>
        ensures ok { IfOk result (λ outputs. AgentTook self.old (hears (event_of event.entry)) self.new outputs) }
        ensures err { OnErr result (AgentStays self.old self.new) }
        ensures ends { (before : List AgentEvent) → AgentStands self.old before → AgentEnds
            (plain_agent self.old.setup before) (event_of event.entry) (result_err result) }
    {
        let context = Context {
            alloc: self.alloc,
            setup: &self.setup,
        };
        step_state(context, &mut self.state, event)
    }

    /// The answer to the command with this id: the first final response that came while it was in flight. This takes no
    /// memory.
    pub fn answers(&self, id: u32) -> Option<&Answer>
        ensures { (events : List AgentEvent) → AgentStands self.now events →
            option_copied result ≡ option_map answer_in (answer_for id (plain_agent self.now.setup events)) }
    {
        answer_with(self.state.answers.as_slice(), id)
    }

    /// The moment, in ms, at which something falls due next: a command is sent again, or given up (RFC 3435, 3.5.3 and 4.3).
    /// `None` where nothing is in flight. Until then no tick does anything but move the clock. This takes no memory.
    pub fn next_due(&self) -> Option<u64>
        ensures { (events : List AgentEvent) → AgentStands self.now events →
            result ≡ option_map (λ flight. flight.due) (first_flight (plain_agent self.now.setup events).flights) }
    {
        self.state.flights.next_due()
    }

    /// All that notifications of a line told, joined; nothing of a line that there isn't. This takes no memory.
    pub fn taken(&self, line: u16) -> &[Observed]
        ensures { (events : List AgentEvent) → AgentStands self.now events →
            result.now ≡ observed_on line (plain_agent self.now.setup events) }
    {
        self.state.told.of_line(line)
    }
}
