//! What a board hears from its gateways: answers, announcements, notifications; and what lines have told is taken of them.
ghost use Rattle.std.specs.Prelude.{◌≡◌, true, IfSome, slice_get};
ghost use Rattle.agent_log.specs.Counts.{with_notification, with_strange_name};
ghost use Rattle.agent_gateways.specs.Boards.{taking_in};
ghost use Rattle.agent_gateways.specs.Hearing.{is_strange, AnswersAt};
ghost use Rattle.agent_gateways.specs.Hearing.{announcement_counted, command_counted, message_counted, response_counted};
ghost use Rattle.agent_gateways.specs.Hearing.{HearsAnnouncement, HearsCommand, HearsMessage, HearsResponse, HearsText};
ghost use Rattle.agent_gateways.specs.Steps.{AnnouncesTo, WaitsIn};
ghost use Rattle.agent_gateways.specs.Taking.{taken_place, TakesOf};
ghost use Rattle.agent_gateways.specs.Tallying.{counted_if};
ghost use Rattle.line_control.specs.Waiting.{Settles};

use crate::announcing::announce_all;
use crate::gateway::Gateway;
use crate::naming::{line_meant, method_of};
use crate::switchboard::Switchboard;
use crate::taking::take_from;
use agent_log::Journal;
use endpoint_names::read_name;
use mg_bytes::same_no_case;
use mgcp_text::{Message, Param, TextFault, TransactionId, Verb, read_message};

// Tells of a command whose name isn't of the gateway at this place.
fn tell_strange(
    gateways: &Vec<Gateway>,
    journal: &mut Journal,
    place: usize,
    message: &Message<'_>,
    text: &[u8],
)
    ensures tally { journal.new.tally ≡ counted_if (is_strange message.now (slice_get gateways.now.items place)) with_strange_name
        journal.old.tally }
    ensures rest { journal.new ≡ record journal.old { tally = journal.new.tally; told = journal.new.told } }
{
    let Message::Command { name, .. } = message else {
        return;
    };
    let Some(gateway) = gateways.get(place) else {
        return;
    };
    if read_name(name.as_slice(), gateway.domain.as_bytes(), gateway.lines).is_err() {
        journal.tell_strange(text);
    }
}

impl Switchboard {
    // The exchange's command to a line of the gateway at this place was answered.
    fn answer(&mut self, place: usize, line: usize, code: u16, text: &[u8])
        ensures { AnswersAt place line code text.now self.old self.new }
    {
        let Some(gateway) = self.gateways.get_mut(place) else {
            return;
        };
        let Some(office) = &mut self.office else {
            return;
        };
        let Some(again) = office.answered(self.alloc, line, gateway.ticked, code, text) else {
            return;
        };
        // Where memory is refused for keeping when it is sent again, it is so at once.
        match gateway.put_off(line, again) {
            Ok(()) => {}
            Err(_) => office.wake(line, again),
        }
    }

    // A response came from the gateway at this place.
    fn hear_response(
        &mut self,
        journal: &mut Journal,
        place: usize,
        id: TransactionId,
        code: u16,
        text: &[u8],
    )
        ensures hears { HearsResponse place id code text.now self.old self.new }
        ensures tally { journal.new.tally ≡ response_counted id code (slice_get self.old.gateways.items place) journal.old.tally }
        ensures rest { journal.new ≡ record journal.old { tally = journal.new.tally; told = journal.new.told } }
    {
        let Some(flight) = self.ended(place, Some((id, code))) else {
            return;
        };
        journal.tell_answer(flight.pending.text(), text);
        let Some(line) = flight.line else {
            return;
        };
        self.answer(place, line, code, text);
    }

    // The lines of a gateway that a name means are there again, or lost their agent.
    fn announce(&mut self, place: usize, name: &[u8], is_restart: bool)
        ensures office { AnnouncesTo is_restart name.now (slice_get self.old.gateways.items place) self.old.office self.new.office }
        ensures rest { self.new ≡ record self.old { office = self.new.office } }
    {
        let Some(gateway) = self.gateways.get(place) else {
            return;
        };
        let Ok(pattern) = read_name(name, gateway.domain.as_bytes(), gateway.lines) else {
            return;
        };
        if let Some(office) = &mut self.office {
            announce_all(
                &mut **office,
                pattern,
                gateway.first,
                gateway.lines,
                is_restart,
            );
        }
    }

    // An announcement came (RFC 3435, 2.3.12).
    fn hear_announcement(
        &mut self,
        journal: &mut Journal,
        place: usize,
        id: TransactionId,
        name: &[u8],
        params: &[Param<'_>],
    )
        ensures hears { HearsAnnouncement place id name.now params.now self.old self.new }
        ensures tally { journal.new.tally ≡ announcement_counted id (slice_get self.old.gateways.items place) journal.old.tally }
        ensures rest { journal.new ≡ record journal.old { tally = journal.new.tally; told = journal.new.told } }
    {
        let Some(gateway) = self.gateways.get_mut(place) else {
            return;
        };
        if !gateway.announces(id) {
            return;
        }
        let method = method_of(params);
        journal.tell_announcement(name, method);
        if same_no_case(method, b"restart") {
            return self.announce(place, name, true);
        }
        if !same_no_case(method, b"disconnected") {
            return;
        }
        self.announce(place, name, false);
    }

    // A command came from the gateway at this place.
    fn hear_command(
        &mut self,
        journal: &mut Journal,
        place: usize,
        verb: Verb,
        id: TransactionId,
        name: &[u8],
        params: &[Param<'_>],
    )
        ensures hears { HearsCommand verb place id name.now params.now self.old self.new }
        ensures tally { journal.new.tally ≡ command_counted verb id (slice_get self.old.gateways.items place) journal.old.tally }
        ensures rest { journal.new ≡ record journal.old { tally = journal.new.tally; told = journal.new.told } }
    {
        match verb {
            Verb::Rsip => self.hear_announcement(journal, place, id, name, params),
            // What the agent took of it is to be taken of its line.
            Verb::Ntfy => {
                let Some(gateway) = self.gateways.get(place) else {
                    return;
                };
                let domain = gateway.domain.as_bytes();
                if let Some(line) = line_meant(name, domain, gateway.lines, gateway.first) {
                    self.notifying.put(line);
                }
            }
            Verb::Epcf | Verb::Rqnt | Verb::Crcx | Verb::Mdcx | Verb::Dlcx => {}
            Verb::Auep | Verb::Aucx | Verb::Other => {}
        }
    }

    // A message came from the gateway at this place, which this text is.
    fn hear_message(
        &mut self,
        journal: &mut Journal,
        place: usize,
        message: &Message<'_>,
        text: &[u8],
    )
        ensures hears { HearsMessage message.now place text.now self.old self.new }
        ensures tally { journal.new.tally ≡ message_counted message.now (slice_get self.old.gateways.items place) journal.old.tally }
        ensures rest { journal.new ≡ record journal.old { tally = journal.new.tally; told = journal.new.told } }
    {
        match message {
            Message::Response { code, id, .. } => {
                self.hear_response(journal, place, *id, *code, text);
            }
            Message::Command {
                verb,
                id,
                name,
                params,
                ..
            } => self.hear_command(
                journal,
                place,
                *verb,
                *id,
                name.as_slice(),
                params.as_slice(),
            ),
        }
    }

    /// A text came from the gateway at this place, of which its agent has heard.
    pub fn hear(&mut self, journal: &mut Journal, place: usize, text: &[u8])
        ensures hears { HearsText place text.now self.old journal.old self.new journal.new }
        ensures rest { journal.new ≡ record journal.old { tally = journal.new.tally; told = journal.new.told } }
    {
        match read_message(self.alloc, text) {
            Ok(message) => {
                tell_strange(&self.gateways, journal, place, &message, text);
                self.hear_message(journal, place, &message, text);
            }
            // It may have been a notification of any line.
            Err(TextFault::OutOfMemory) => self.notifying.put_all(),
            Err(TextFault::NoHeader) => {}
            Err(TextFault::BadVersion { .. } | TextFault::BadBody { .. }) => {}
        }
    }

    /// The lines are taken from now on whose notifications came from the gateway at this place: how many they are.
    pub fn begin_taking(&mut self, place: usize) -> usize
        ensures count { result ≡ taking_in (slice_get self.old.gateways.items place) self.new.notifying }
        ensures settles { Settles self.old.notifying self.new.notifying }
        ensures rest { self.new ≡ record self.old { notifying = self.new.notifying } }
    {
        self.notifying.begin();
        match self.gateways.get(place) {
            Some(gateway) => self.notifying.len(usize::from(gateway.lines)),
            None => 0,
        }
    }

    /// Takes what the line that is so many behind the first of these has told and wasn't taken yet: whether there was anything. Then the
    /// line waits to be settled.
    pub fn take(&mut self, journal: &mut Journal, place: usize, index: usize) -> bool
        ensures takes { TakesOf place (taken_place index (slice_get self.old.gateways.items place) self.old.notifying) result
            self.old self.new }
        ensures waits { result ≡ true → IfSome (taken_place index (slice_get self.old.gateways.items place) self.old.notifying)
            (λ line. WaitsIn line self.new.office) }
        ensures tally { journal.new.tally ≡ counted_if result with_notification journal.old.tally }
        ensures rest { self.new ≡ record self.old { stations = self.new.stations; office = self.new.office } }
        ensures journal { journal.new ≡ record journal.old { tally = journal.new.tally; told = journal.new.told } }
    {
        let Some(gateway) = self.gateways.get(place) else {
            return false;
        };
        let Some(line) = self.notifying.at(gateway.first, index) else {
            return false;
        };
        let Some(station) = self.stations.get_mut(line) else {
            return false;
        };
        take_from(
            self.alloc,
            &self.dialling.plan,
            gateway,
            station,
            &mut self.office,
            journal,
            line,
        )
    }
}
