//! What a board issues: what is typed, what lines that are settled are sent; and what falls due: what is given up, who is woken.
ghost use Rattle.std.specs.Prelude.{◌≡◌, IfOk, None, is_err, is_some, option_map, position, slice_get};
ghost use Rattle.agent_log.specs.Counts.{with_given_up};
ghost use Rattle.agent_gateways.specs.Boards.{settling_in, SettlesIn, woken_at, WakesIn};
ghost use Rattle.agent_gateways.specs.Dues.{FallsDue};
ghost use Rattle.agent_gateways.specs.GivingUp.{ended_in, EndsAt, GivesUp};
ghost use Rattle.agent_gateways.specs.Issuing.{ordered_in, IssuesSettled, IssuesTo, SendsAlone, SendsAtMost};
ghost use Rattle.agent_gateways.specs.Meaning.{has_domain, meant};
ghost use Rattle.line_control.specs.Orders.{shown};
ghost use Rattle.line_control.specs.Showing.{ShowsIn};
ghost use Rattle.line_control.specs.Steps.{Begins, Forgets};
ghost use Rattle.agent_gateways.specs.Steps.{settled_in, AtPlace, InOffice, IssuesAt, LinesWaitOn, OfOffice};
ghost use Rattle.agent_gateways.specs.Steps.{OthersStay, SameLines, ToldAt, Wakens};
ghost use Rattle.agent_gateways.specs.Tallying.{counted_if};
ghost use Rattle.agent_gateways.specs.TypedCommands.{IssuesThere, IssuesTyped};
ghost use Rattle.line_control.specs.Waiting.{Touches};

use crate::flight::Flight;
use crate::gateway::Gateway;
use crate::naming::has_domain;
use crate::orders::issue_named;
use crate::switchboard::Switchboard;
use crate::typed::{TypedFault, typed_in};
use agent_log::Journal;
use call_agent::{IssueFault, Issued};
use line_control::{Office, Order};
use mg_bytes::{OutOfMemory, split_once};
use mgcp_text::TransactionId;
use turns::earlier;

// The exchange, if there is one, is told that its command in flight to a line was given up, or couldn't be issued.
fn forget(office: &mut Option<Box<Office>>, line: usize)
    ensures office { OfOffice (Forgets line) office.old office.new }
    ensures touches { InOffice (Touches line) office.old office.new }
{
    if let Some(office) = office {
        office.given_up(line);
    }
}

// The place of the gateway with this domain.
fn place_named(gateways: &Vec<Gateway>, domain: &[u8]) -> Option<usize>
    ensures { result ≡ position (has_domain domain.now) gateways.now.items }
{
    gateways
        .iter()
        .position(|gateway| has_domain(gateway, domain))
}

// The place of the gateway that an endpoint's name means, and the name without its domain. Where there is one gateway alone its domain
// may be left out.
fn meant<'t>(gateways: &Vec<Gateway>, name: &'t [u8]) -> Option<(usize, &'t [u8])>
    ensures { option_map (λ found. (found.0, found.1.now)) result ≡ meant gateways.now.items name.now }
{
    match split_once(name, b'@') {
        Some((local, domain)) => match place_named(gateways, domain) {
            Some(place) => Some((place, local)),
            None => None,
        },
        None => {
            if gateways.len() == 1 {
                Some((0, name))
            } else {
                None
            }
        }
    }
}

impl Switchboard {
    /// The lines to which something has happened are settled now: each is shown (`show`), then each is sent what it is to be sent
    /// (`issue_next`).
    pub fn begin_settling(&mut self)
        ensures settles { SettlesIn self.old.office self.new.office }
        ensures rest { self.new ≡ record self.old { office = self.new.office } }
    {
        if let Some(office) = &mut self.office {
            office.begin_settling();
        }
    }

    /// How many lines are settled now.
    pub fn settling(&self) -> usize
        ensures { result ≡ settling_in self.now.office }
    {
        match &self.office {
            Some(office) => office.settling(),
            None => 0,
        }
    }

    /// Issues a command that was typed (`typed_text`): what is to be sent.
    pub fn issue_typed(&mut self, text: &[u8]) -> Result<Issued, TypedFault>
        ensures { IssuesTyped text.now result self.old self.new }
    {
        let Some(typed) = typed_in(text) else {
            return Err(TypedFault::Unknown);
        };
        let Some(found) = meant(&self.gateways, typed.name) else {
            return Err(TypedFault::NoSuchGateway);
        };
        self.issue_there(found.0, typed.verb, found.1, typed.rest)
    }

    // Issues it by the gateway at this place, under a name without its domain.
    fn issue_there(
        &mut self,
        place: usize,
        verb: &[u8],
        local: &[u8],
        rest: &[u8],
    ) -> Result<Issued, TypedFault>
        ensures { IssuesThere place verb.now local.now rest.now (slice_get self.old.gateways.items place) result self.old self.new }
    {
        let Some(gateway) = self.gateways.get_mut(place) else {
            return Err(TypedFault::NoSuchGateway);
        };
        issue_named(self.alloc, gateway, verb, local, rest)
    }

    // Issues a command of the exchange to a line.
    fn issue(&mut self, line: usize, order: &Order) -> Result<Issued, IssueFault>
        ensures issued { IssuesTo line (shown order.now) result (slice_get self.old.stations.items line)
            self.old.gateways.items self.new.gateways.items }
        ensures alone { SendsAlone (slice_get self.old.stations.items line) self.old.gateways.items self.new.gateways.items }
        ensures office { self.new.office ≡ self.old.office }
        ensures rest { self.new ≡ record self.old { gateways = self.new.gateways } }
    {
        let Some(station) = self.stations.get(line) else {
            return Err(IssueFault::BadCommand);
        };
        let Some(gateway) = self.gateways.get_mut(station.gateway) else {
            return Err(IssueFault::BadCommand);
        };
        let name = station.name.as_bytes();
        let rest = order.rest.as_bytes();
        gateway.issue(self.alloc, order.verb, name, rest, Some(line))
    }

    // The command that is to be issued to a line now, if one is; it is in flight from then on. After an error, which is for want of
    // memory, it was given up.
    fn order(&mut self, line: usize) -> Result<Option<Order>, OutOfMemory>
        ensures order { IfOk result (λ order. option_map shown order ≡ ordered_in line self.old.dialling.value.map self.old.office) }
        ensures office { OfOffice (Begins line) self.old.office self.new.office }
        ensures lines { InOffice SameLines self.old.office self.new.office }
        ensures rest { self.new ≡ record self.old { office = self.new.office } }
    {
        match &mut self.office {
            Some(office) => office.order(self.alloc, line, self.dialling.map.as_bytes()),
            None => Ok(None),
        }
    }

    /// Issues what the line that is settled so many behind the first is to be sent now: what is to be sent, if anything is. Where it
    /// can't be issued it counts as given up.
    pub fn issue_next(&mut self, index: usize) -> Result<Option<Issued>, IssueFault>
        ensures office { IssuesAt (settled_in index self.old.office) (is_err result) self.old.office self.new.office }
        ensures issued { IssuesSettled (settled_in index self.old.office) result self.old self.new }
        ensures alone { SendsAtMost (settled_in index self.old.office) self.old self.new }
        ensures rest { self.new ≡ record self.old { gateways = self.new.gateways; office = self.new.office } }
    {
        let Some(office) = &self.office else {
            return Ok(None);
        };
        let Some(line) = office.settled_at(index) else {
            return Ok(None);
        };
        let order = match self.order(line) {
            Ok(Some(order)) => order,
            Ok(None) => return Ok(None),
            Err(_) => {
                forget(&mut self.office, line);
                return Err(IssueFault::OutOfMemory);
            }
        };
        match self.issue(line, &order) {
            Ok(issued) => Ok(Some(issued)),
            Err(fault) => {
                forget(&mut self.office, line);
                Err(fault)
            }
        }
    }

    /// Tells how the line that is settled so many behind the first stands, where that has changed.
    pub fn show(&mut self, journal: &mut Journal, index: usize)
        ensures told { ShowsIn self.old.stations.items (settled_in index self.old.office) self.old.office journal.old journal.new }
        ensures office { ToldAt (settled_in index self.old.office) self.old.office self.new.office }
        ensures rest { self.new ≡ record self.old { office = self.new.office } }
    {
        let Some(office) = &mut self.office else {
            return;
        };
        if let Some(line) = office.settled_at(index) {
            office.show(self.alloc, journal, &self.stations, line);
        }
    }

    /// The moment at which something falls due next at an agent, or a command is sent again that was put off, in ms.
    pub fn next_due(&self) -> Option<u64>
        ensures { FallsDue self.now.gateways.items result }
    {
        let mut least = None;
        for gateway in self.gateways.iter() {
            least = earlier(least, gateway.next_due());
        }
        least
    }

    // The command that a response with this id and return code answers; without a response, the next one that is given up.
    pub(crate) fn ended(
        &mut self,
        place: usize,
        response: Option<(TransactionId, u16)>,
    ) -> Option<Flight>
        ensures ended { result ≡ ended_in response (slice_get self.old.gateways.items place) }
        ensures gateway { EndsAt place response self.old self.new }
    {
        let gateway = self.gateways.get_mut(place)?;
        gateway.ended(response)
    }

    /// The next command to the gateway at this place that is given up by now is so: whether there is one. It is this time, in
    /// microseconds since 1970.
    pub fn give_up(&mut self, journal: &mut Journal, place: usize, time: u64) -> bool
        ensures found { result ≡ is_some (ended_in None (slice_get self.old.gateways.items place)) }
        ensures gives_up { GivesUp place self.old self.new }
        ensures tally { journal.new.tally ≡ counted_if (is_some (ended_in None (slice_get self.old.gateways.items place)))
            with_given_up journal.old.tally }
        ensures rest { journal.new ≡ record journal.old { tally = journal.new.tally; told = journal.new.told; log = journal.new.log } }
    {
        let Some(flight) = self.ended(place, None) else {
            return false;
        };
        journal.tell_given_up(time, flight.pending.to(), flight.pending.text());
        let Some(line) = flight.line else {
            return true;
        };
        forget(&mut self.office, line);
        true
    }

    /// The next line of the gateway at this place to which a command is sent again by now waits to be settled: whether there is one.
    pub fn wake(&mut self, place: usize) -> bool
        ensures found { result ≡ is_some (woken_at (slice_get self.old.gateways.items place)) }
        ensures line { WakesIn (woken_at (slice_get self.old.gateways.items place)) self.old.office self.new.office }
        ensures lines { InOffice LinesWaitOn self.old.office self.new.office }
        ensures gateway { AtPlace place Wakens self.old.gateways.items self.new.gateways.items }
        ensures own { AtPlace place (λ was is. is ≡ record was { wakes = is.wakes }) self.old.gateways.items self.new.gateways.items }
        ensures others { OthersStay place self.old.gateways.items self.new.gateways.items }
        ensures rest { self.new ≡ record self.old { gateways = self.new.gateways; office = self.new.office } }
    {
        let Some(found) = self.gateways.get_mut(place) else {
            return false;
        };
        let Some(wake) = found.woken() else {
            return false;
        };
        if let Some(office) = &mut self.office {
            office.wake(wake.line, wake.moment);
        }
        true
    }
}
