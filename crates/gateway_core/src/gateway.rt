//! The gateway.
ghost use Rattle.std.specs.Prelude.{◌≡◌, is_ok, ◌∷◌, [], List, map, option_map, ◌<◌, ◌≤◌, ◌^◌, Some, IfOk, IfErr, OnOk, OnErr};
ghost use Rattle.transmission.specs.Memory.{most_firsts};
ghost use Rattle.plain_machine.specs.Setup.{setup_from, setup_of};
ghost use Rattle.small_rules.specs.Numbering.{firsts};
ghost use Rattle.plain_machine.specs.Machine.{serves};
ghost use Rattle.plain_machine.specs.Event.{GatewayEvent, event_of};
ghost use Rattle.gateway_core.specs.State.{machine_in};

use crate::account::{Account, give_way};
use crate::changing::{is_marked, no_marks};
use crate::outcome::TextOutcome;
use crate::outcomes::Outcomes;
use crate::sent::SentMessage;
use crate::state::{State, opening_state};
use crate::stopped::Stopped;
use crate::working::step_state;
use arrayvec::ArrayVec;
use connections::Connection;
use endpoints::{Context, judged};
use events_and_signals::ActiveSignal;
use mg_line::Hook;
use plain_machine::{Config, ConfigFault, Event, GivenUpCommand, Outputs, Refusal, Setup};
use std::alloc::Global;
use std::marker::Model;
use std::mem::swap;
use transmission::MOST_FIRSTS;

/// A residential gateway. A contract sees its setup, what it keeps of the plain machine, and what is told of the last event: what
/// its texts were, what was sent, what was given up, and at which lines it may have changed something; `Stands` says which lists of events it stands for.
pub struct Gateway {
    alloc: Global,
    setup: Setup,
    state: Box<State>,
    // What the texts of the last event were that it took.
    outcomes: Outcomes,
    // The same of the event under way. Both have their room from the beginning, so that no event takes memory for them.
    under_way: Outcomes,
    // What the last event that it took sent, and what was given up at it; and the same of the event under way.
    account: Account,
    account_under_way: Account,
    // A mark for each line at which it may have changed something. Its room is there from the beginning too.
    changed: Vec<bool>,
}

// Written out: a derived drop, and those of all its parts, are proved anew by each crate that lets one go.
impl Drop for Gateway {
    fn drop(self) {
        let Gateway {
            alloc: _,
            setup,
            state,
            outcomes,
            under_way,
            account,
            account_under_way,
            changed,
        } = self;
        drop(setup);
        drop(state);
        drop(outcomes);
        drop(under_way);
        drop(account);
        drop(account_under_way);
        drop(changed);
    }
}

impl Model for Gateway {
    ghost use Rattle.gateway_core.specs.AccountState.{account_in};
    ghost use Rattle.gateway_core.specs.GatewayState.{GatewayState};
    ghost use Rattle.gateway_core.specs.State.{machine_in};
    ghost use Rattle.gateway_core.specs.Sound.{IsSound};

    ghost Value = { GatewayState };

    ghost view = { λ g. record {
      setup = g.setup;
      machine = machine_in g.state.value;
      outcomes = g.outcomes;
      account = account_in g.account;
      changed = g.changed.items;
    } };

    ghost invariant = { λ g. IsSound g.setup (machine_in g.state.value) };
}

impl Gateway {
    ghost use Rattle.std.specs.Result.{result_err};
    ghost use Rattle.plain_machine.specs.Refusing.{Ends};
    ghost use Rattle.plain_machine.specs.Falling.{first_due};
    ghost use Rattle.plain_machine.specs.Lists.{plain, hook_of, signals_of, connections_of, lost_of};
    ghost use Rattle.gateway_core.specs.Outcomes.{last_outcomes};
    ghost use Rattle.gateway_core.specs.Accounts.{last_account};
    ghost use Rattle.gateway_core.specs.Changing.{is_marked, Changes};
    ghost use Rattle.gateway_core.specs.Remembering.{remembered};
    ghost use Rattle.gateway_core.specs.Stands.{Stands, Opens, Took, StoppedAt};

    /// A gateway of this configuration, at moment 0, with room to tell what the texts of any datagram were. The ids of each line
    /// begin with 0, and its own with 1.
    ///
    /// The faults 2 to 6 come in the order of their numbers, and before want of memory.
    #[tactic(auto, unfolding(plain_machine::specs::Setup::setup_of))]
    pub fn new(alloc: Global, config: Config) -> Result<Gateway, ConfigFault>
        ensures { Opens (setup_of config) result }
    {
        Gateway::starting_at(alloc, config, 0)
    }

    /// The same, but that the ids of each line begin with this number, below `FIRSTS`, and its own one higher: so the ids of a
    /// gateway that starts again needn't be those that it used last (RFC 3435, 3.2.1.2).
    pub fn starting_at(alloc: Global, config: Config, first: u32) -> Result<Gateway, ConfigFault>
        requires { first < firsts }
        ensures { Opens (setup_from config first) result }
    {
        let setup = judged(config, first)?;
        let state = opening_state(alloc, &setup)?;
        let outcomes = Outcomes::new(alloc)?;
        let under_way = Outcomes::new(alloc)?;
        let account = Account::new(alloc);
        let account_under_way = Account::new(alloc);
        let changed = no_marks(alloc, setup.names.lines)?;
        Ok(Gateway {
            alloc,
            setup,
            state,
            outcomes,
            under_way,
            account,
            account_under_way,
            changed,
        })
    }

    /// What it is set up to be.
    pub fn setup(&self) -> &Setup
        ensures { result.now ≡ self.now.setup }
    {
        &self.setup
    }

    /// How many lines it has.
    pub fn lines(&self) -> u16
        ensures { result ≡ self.now.setup.names.lines }
    {
        self.setup.names.lines
    }

    /// Whether it serves: its announcement was answered (RFC 3435, 4.4.6).
    pub fn serves(&self) -> bool
        ensures { (events : List GatewayEvent) → Stands self.now events → result ≡ serves (plain self.now.setup events).endpoints }
    {
        self.state.store.serves()
    }

    /// The hook state of a line, from 1 to the number of lines.
    pub fn hook(&self, line: u16) -> Hook
        requires low { 1 ≤ line }
        requires high { line ≤ self.now.setup.names.lines }
        ensures { (events : List GatewayEvent) → Stands self.now events → hook_of (plain self.now.setup events) line ≡ Some result }
    {
        self.state.store.list()[usize::from(line) - 1].line.hook()
    }

    /// The active signals of a line, from 1 to the number of lines, with their ends (ms), in the order of the table: those
    /// of L before those of G (RFC 3435, 2.1.7).
    pub fn signals(&self, line: u16) -> ArrayVec<ActiveSignal, 9>
        requires low { 1 ≤ line }
        requires high { line ≤ self.now.setup.names.lines }
        ensures { (events : List GatewayEvent) → Stands self.now events →
            signals_of (plain self.now.setup events) line ≡ Some result.items }
    {
        self.state.store.list()[usize::from(line) - 1]
            .line
            .signals()
    }

    /// What each of the four places of a line, from 1 to the number of lines, holds (RFC 3435, 2.1.3).
    pub fn connections(&self, line: u16) -> &[Option<Connection>]
        requires low { 1 ≤ line }
        requires high { line ≤ self.now.setup.names.lines }
        ensures { (events : List GatewayEvent) → Stands self.now events →
            connections_of (plain self.now.setup events) line ≡ Some result.now }
    {
        self.state.store.list()[usize::from(line) - 1]
            .connections
            .list()
    }

    /// How many events of a line, from 1 to the number of lines, found no room in its quarantine, up to
    /// 18,446,744,073,709,551,615 (RFC 3435, 4.4.1).
    pub fn lost(&self, line: u16) -> u64
        requires low { 1 ≤ line }
        requires high { line ≤ self.now.setup.names.lines }
        ensures { (events : List GatewayEvent) → Stands self.now events →
            lost_of (plain self.now.setup events) line ≡ Some result }
    {
        self.state.store.list()[usize::from(line) - 1].line.lost()
    }

    /// The moment of the last tick that was taken, in ms; 0 before any. It is below 2^62.
    pub fn now(&self) -> u64
        ensures value { (events : List GatewayEvent) → Stands self.now events → result ≡ (plain self.now.setup events).now }
        ensures below { result < 2 ^ 62 }
    {
        self.state.clock
    }

    /// How many transactions are remembered: commands that were executed less than 30,000 ms before the moment of the last tick, of which
    /// there are at most `MOST_FIRSTS` (RFC 3435, 3.5.1). This takes no memory.
    #[tactic(auto, using(crate::proofs::StandLemmas::remembered_alike))]
    pub fn remembered(&self) -> usize
        ensures value { (events : List GatewayEvent) → Stands self.now events →
            result ≡ remembered (plain self.now.setup events) }
        ensures most { result ≤ most_firsts }
    {
        MOST_FIRSTS.min(self.state.history.young(self.state.clock))
    }

    /// The moment, in ms, at which something falls due next: a signal or timer T ends, a command is sent again or given
    /// up, or an announcement is due (RFC 3435, 2.1.5, 2.1.7, 3.5.3 and 4.4.6). `None` where nothing does. Until then no
    /// tick does anything but move the clock.
    pub fn next_due(&self) -> Option<u64>
        ensures { (events : List GatewayEvent) → Stands self.now events →
            result ≡ option_map (λ item. item.moment) (first_due (plain self.now.setup events).endpoints) }
    {
        match self.state.store.first_due() {
            Some(item) => Some(item.moment),
            None => None,
        }
    }

    /// What each text was of the last event that was taken, in their order: nothing where that was an act or a tick, where its
    /// datagram was too long, and before any event (RFC 3435, 3.5). A refused event leaves what was told of the one before it.
    pub fn outcomes(&self) -> &[TextOutcome]
        ensures last { (events : List GatewayEvent) → Stands self.now events →
            result.now ≡ last_outcomes self.now.setup events }
        ensures kept { result.now ≡ self.now.outcomes }
    {
        self.outcomes.as_slice()
    }

    /// Each message that was sent at the last event that was taken, in their order, with its label: where to and when, whose it is,
    /// what, its transaction id, its return code or verb, which send of it this is, and how many bytes it has: by these `split_sent`
    /// finds its datagram, and `split_text` its text there. A refused event leaves what was told of the one before it.
    pub fn sent(&self) -> &[SentMessage]
        ensures last { (events : List GatewayEvent) → Stands self.now events →
            result.now ≡ (last_account self.now.setup events).sent }
        ensures kept { result.now ≡ self.now.account.sent }
    {
        self.account.sent.as_slice()
    }

    /// The commands of its own that were given up at the last event that was taken, in their order, since nobody answered them
    /// (RFC 3435, 4.3). A refused event leaves what was told of the one before it.
    pub fn given_up(&self) -> &[GivenUpCommand]
        ensures last { (events : List GatewayEvent) → Stands self.now events →
            result.now ≡ (last_account self.now.setup events).given_up }
        ensures kept { result.now ≡ self.now.account.given_up }
    {
        self.account.given_up.as_slice()
    }

    /// Whether the last event that was taken may have changed something at a line. Where it says no, hook state, signals and connections
    /// are there as before that event. A refused event leaves what was told of the one before it.
    pub fn is_changed(&self, line: u16) -> bool
        ensures { result ≡ is_marked self.now.changed line }
    {
        is_marked(&self.changed, line)
    }

    // One event, whose outputs go after those that there are.
    fn step_onto(&mut self, event: Event<'_>, outputs: &mut Outputs) -> Result<(), Refusal>
        ensures ok { OnOk result (Took self.old (event_of event.entry ∷ []) self.new outputs.old outputs.new) }
        ensures err { OnErr result (Took self.old [] self.new outputs.old outputs.new) }
        ensures ends { Ends self.old.machine (event_of event.entry) (result_err result) }
        ensures changes { Changes (is_ok result) self.new.changed self.old.machine.endpoints self.new.machine.endpoints }
    {
        let context = Context {
            alloc: self.alloc,
            setup: &self.setup,
        };
        match step_state(
            context,
            &mut self.state,
            event,
            &mut self.under_way,
            &mut self.account_under_way,
            &mut self.changed,
            outputs,
        ) {
            Ok(()) => {
                swap(&mut self.outcomes, &mut self.under_way);
                give_way(&mut self.account, &mut self.account_under_way);
                Ok(())
            }
            Err(refusal) => Err(refusal),
        }
    }

    /// One event. The refusals 2 to 5 come exactly where the plain machine says; `NoSuchLine` comes before `PhoneState`.
    /// What the gateway stood for before a refused event it stands for still.
    pub fn step(&mut self, event: Event<'_>) -> Result<Outputs, Refusal>
        // It took the event, and its outputs are what the plain machine sends; or it took none.
        ensures ok { IfOk result (λ outputs. Took self.old (event_of event.entry ∷ []) self.new [] outputs) }
        ensures err { OnErr result (Took self.old [] self.new [] []) }
        // It is refused exactly as the plain machine says, or for want of memory, and never so where it takes none.
        ensures ends { (before : List GatewayEvent) → Stands self.old before →
            Ends (plain self.old.setup before) (event_of event.entry) (result_err result) }
        // Where it took the event, each line at which nothing is marked to have changed is as before; else each is.
        ensures changes { Changes (is_ok result) self.new.changed self.old.machine.endpoints self.new.machine.endpoints }
    {
        let mut outputs = Outputs::new(self.alloc);
        match self.step_onto(event, &mut outputs) {
            Ok(()) => Ok(outputs),
            Err(refusal) => Err(refusal),
        }
    }

    /// Events in order, up to the first that is refused: the events before it stand.
    pub fn run(&mut self, events: &[Event<'_>]) -> Result<Outputs, Stopped>
        ensures ok { IfOk result (λ outputs. Took self.old (map event_of events.now) self.new [] outputs) }
        ensures err { IfErr result (λ stopped. StoppedAt self.old events.now self.new stopped) }
    {
        let mut outputs = Outputs::new(self.alloc);
        for (place, event) in events.iter().enumerate() {
            if let Err(refusal) = self.step_onto(*event, &mut outputs) {
                return Err(Stopped {
                    place,
                    refusal,
                    outputs,
                });
            }
        }
        Ok(outputs)
    }
}
