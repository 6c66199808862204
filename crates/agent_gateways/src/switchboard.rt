//! A board: the gateways that a call agent works with, and their lines; how it is made, and what its agents hear.
ghost use Rattle.std.specs.Prelude.{◌≡◌, [], ◌++◌, Ok, All, length, map, position, slice_get};
ghost use Rattle.std.specs.Prelude.{IfNone, IfOk, OnErr, OnOk, is_ok};
ghost use Rattle.std.specs.Result.{result_err};
ghost use Rattle.plain_machine.specs.Event.{datagram, tick};
ghost use Rattle.call_agent.specs.Hearing.{hears};
ghost use Rattle.call_agent.specs.AgentStands.{AgentStays, AgentTook};
ghost use Rattle.agent_gateways.specs.AgentClock.{tick_to};
ghost use Rattle.agent_gateways.specs.Boards.{is_at};
ghost use Rattle.agent_gateways.specs.Opening.{gateways_from, known_as, lines_of, stations_behind, stations_from};
ghost use Rattle.agent_gateways.specs.Opening.{BoardOf, StandsNew};
ghost use Rattle.agent_gateways.specs.Steps.{AtPlace, OthersStay, Refuses, Ticks};

use crate::dialling::Dialling;
use crate::gateway::Gateway;
use agent_config::{AgentConfig, copied};
use agent_log::Station;
use call_processing::NumberPlan;
use endpoint_names::{Pattern, write_name};
use line_control::{Office, Worklist};
use mg_bytes::{OutOfMemory, Sequence, Text};
use plain_machine::{Event, Outputs, Refusal};
use std::alloc::{AllocError, Global};
use std::net::SocketAddrV4;
use transmission::same_address;

/// The gateways, the lines of all of them, and where calls are routed the exchange.
pub struct Switchboard {
    pub(crate) alloc: Global,
    pub(crate) gateways: Vec<Gateway>,
    pub(crate) stations: Vec<Station>,
    // In a box: a check pays for all that a value holds inline at each step of a function that is lent it.
    pub(crate) office: Option<Box<Office>>,
    pub(crate) dialling: Box<Dialling>,
    // The lines of the gateway that was heard last whose notifications came.
    pub(crate) notifying: Worklist,
}

// Written out: a derived drop, and those of all its parts, are proved anew by each crate that lets one go.
impl Drop for Switchboard {
    fn drop(self) {
        let Switchboard {
            alloc: _,
            gateways,
            stations,
            office,
            dialling,
            notifying,
        } = self;
        drop(gateways);
        drop(stations);
        drop(office);
        drop(dialling);
        drop(notifying);
    }
}

// Puts the lines of a gateway behind the others, one for each number.
fn put_stations(
    alloc: Global,
    stations: &mut Vec<Station>,
    gateway: usize,
    domain: &[u8],
    numbers: &[Text],
) -> Result<(), OutOfMemory>
    ensures { OnOk result (stations.new.items ≡ stations.old.items ++ stations_behind gateway domain.now 0 numbers.now) }
{
    let mut line: u16 = 0;
    for number in numbers {
        line = line.saturating_add(1);
        let name = write_name(alloc, Pattern::One(line), domain)?;
        let number = copied(alloc, number.as_bytes())?;
        stations.push(Station {
            gateway,
            line,
            name,
            number,
            taken: 0,
        })?;
    }
    Ok(())
}

// How many lines a gateway with these numbers has.
fn lines_of(numbers: &[Text]) -> u16
    ensures { result ≡ lines_of numbers.now }
{
    u16::try_from(numbers.len()).unwrap_or(u16::MAX)
}

// How the lines are dialled: by their numbers, in their order, and by this map.
fn dialling_of(
    alloc: Global,
    stations: &[Station],
    map: &[u8],
) -> Result<Box<Dialling>, OutOfMemory> {
    let mut numbers = Vec::new(alloc);
    for station in stations {
        numbers.push(copied(alloc, station.number.as_bytes())?)?;
    }
    let map = copied(alloc, map)?;
    Dialling::of(alloc, NumberPlan::of(numbers), map)
}

fn is_at(gateway: &Gateway, address: SocketAddrV4) -> bool
    ensures { result ≡ is_at address gateway.now }
{
    same_address(gateway.address, address)
}

impl Switchboard {
    // Adds the gateways of a configuration behind the others, each with a line for each number. The agents have the configuration's own
    // address; it is this time of day, in ms.
    fn add_all(&mut self, config: &AgentConfig, time: u64) -> Result<(), OutOfMemory>
        ensures gateways { OnOk result (map known_as self.new.gateways.items ≡ map known_as self.old.gateways.items
            ++ gateways_from time config.now.own (length self.old.stations.items) config.now.gateways.items) }
        ensures stands { OnOk result (All StandsNew self.old.gateways.items → All StandsNew self.new.gateways.items) }
        ensures stations { OnOk result (self.new.stations.items
            ≡ self.old.stations.items ++ stations_from (length self.old.gateways.items) config.now.gateways.items) }
        ensures office { self.new.office ≡ self.old.office }
    {
        for gateway in config.gateways.iter() {
            let place = self.gateways.len();
            let first = self.stations.len();
            let domain = gateway.domain.as_bytes();
            let numbers = gateway.numbers.as_slice();
            let (own, address, lines) = (config.own, gateway.address, lines_of(numbers));
            // By hand, as below: a gateway is held here.
            let Ok(made) = Gateway::new(self.alloc, own, address, domain, first, lines, time) else {
                return Err(AllocError);
            };
            let Ok(()) = self.gateways.push(made) else {
                return Err(AllocError);
            };
            let Ok(()) = put_stations(self.alloc, &mut self.stations, place, domain, numbers) else {
                return Err(AllocError);
            };
        }
        Ok(())
    }

    /// The gateways of a configuration, and an exchange for their lines where calls are routed. It is this time of day, in ms. An error
    /// is for want of memory only.
    pub fn of(
        alloc: Global,
        config: &AgentConfig,
        is_routed: bool,
        time: u64,
    ) -> Result<Switchboard, OutOfMemory>
        ensures { IfOk result (λ board. BoardOf config.now is_routed time board) }
    {
        let plan = NumberPlan::of(Vec::new(alloc));
        let dialling = Dialling::of(alloc, plan, Text::of(Vec::new(alloc)))?;
        let gateways = Vec::new(alloc);
        let stations = Vec::new(alloc);
        let mut board = Switchboard {
            alloc,
            gateways,
            stations,
            office: None,
            dialling,
            notifying: Worklist::new(alloc, false),
        };
        // By hand: a question mark is some twenty steps more, at each of which a check pays for all that stands there.
        let Ok(()) = board.add_all(config, time) else {
            return Err(AllocError);
        };
        if !is_routed {
            return Ok(board);
        }
        let Some(map) = &config.map else {
            return Ok(board);
        };
        let Ok(office) = Office::new(alloc, board.stations.len()) else {
            return Err(AllocError);
        };
        let Ok(dialling) = dialling_of(alloc, &board.stations, map.as_bytes()) else {
            return Err(AllocError);
        };
        board.dialling = dialling;
        board.office = Some(office);
        Ok(board)
    }

    /// Lets it go. Where it is dropped instead, the drops of all its parts are checked once more.
    pub fn close(self) {}

    /// How many gateways there are.
    pub fn gateways(&self) -> usize
        ensures { result ≡ length self.now.gateways.items }
    {
        self.gateways.len()
    }

    /// The agent of the gateway at this place hears a datagram: what is sent; nothing, where there is no such gateway. After an error it
    /// stands for what it did before.
    pub fn step(
        &mut self,
        place: usize,
        source: SocketAddrV4,
        bytes: &[u8],
    ) -> Result<Outputs, Refusal>
        ensures took { AtPlace place (λ was is. IfOk result (λ outputs.
            AgentTook was.agent.value (hears (datagram source bytes.now)) is.agent.value outputs))
            self.old.gateways.items self.new.gateways.items }
        ensures err { AtPlace place (λ was is. OnErr result (AgentStays was.agent.value is.agent.value))
            self.old.gateways.items self.new.gateways.items }
        ensures ends { AtPlace place (λ was is. Refuses (datagram source bytes.now) (result_err result) was)
            self.old.gateways.items self.new.gateways.items }
        ensures nobody { IfNone (slice_get self.old.gateways.items place) (result ≡ Ok []) }
        ensures own { AtPlace place (λ was is. is ≡ record was { agent = is.agent }) self.old.gateways.items self.new.gateways.items }
        ensures office { self.new.office ≡ self.old.office }
        ensures others { OthersStay place self.old.gateways.items self.new.gateways.items }
        ensures rest { self.new ≡ record self.old { gateways = self.new.gateways } }
    {
        match self.gateways.get_mut(place) {
            Some(gateway) => gateway.agent.step(Event::Datagram { source, bytes }),
            None => Ok(Sequence::new(self.alloc)),
        }
    }

    /// The clock of the agent of the gateway at this place goes on to this moment (in ms), but by no more than a second: what is sent;
    /// nothing, where there is no such gateway. After an error it stands still, and the agent stands for what it did before.
    pub fn tick(&mut self, place: usize, moment: u64) -> Result<Outputs, Refusal>
        ensures took { AtPlace place (λ was is. IfOk result (λ outputs.
            AgentTook was.agent.value (hears (tick (tick_to was.ticked moment))) is.agent.value outputs))
            self.old.gateways.items self.new.gateways.items }
        ensures err { AtPlace place (λ was is. OnErr result (AgentStays was.agent.value is.agent.value))
            self.old.gateways.items self.new.gateways.items }
        ensures ends { AtPlace place (λ was is. Refuses (tick (tick_to was.ticked moment)) (result_err result) was)
            self.old.gateways.items self.new.gateways.items }
        ensures nobody { IfNone (slice_get self.old.gateways.items place) (result ≡ Ok []) }
        ensures clock { AtPlace place (Ticks (is_ok result) moment) self.old.gateways.items self.new.gateways.items }
        ensures own { AtPlace place (λ was is. is ≡ record was { agent = is.agent; ticked = is.ticked })
            self.old.gateways.items self.new.gateways.items }
        ensures office { self.new.office ≡ self.old.office }
        ensures others { OthersStay place self.old.gateways.items self.new.gateways.items }
        ensures rest { self.new ≡ record self.old { gateways = self.new.gateways } }
    {
        match self.gateways.get_mut(place) {
            Some(gateway) => gateway.tick(moment),
            None => Ok(Sequence::new(self.alloc)),
        }
    }

    /// The place of the gateway at this address.
    pub fn place_of(&self, address: SocketAddrV4) -> Option<usize>
        ensures { result ≡ position (is_at address) self.now.gateways.items }
    {
        self.gateways
            .iter()
            .position(|gateway| is_at(gateway, address))
    }
}
