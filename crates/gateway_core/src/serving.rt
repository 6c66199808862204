//! Serves a wire.
ghost use Rattle.std.specs.Prelude.{◌≡◌, ◌≤◌, ◌⊎◌, List, length, MatchOption, true};
ghost use Rattle.plain_machine.specs.Event.{event_of};
ghost use Rattle.gateway_core.specs.Wire.{Carries, IsWithin, given_in, event, end};
ghost use Rattle.gateway_core.specs.Serving.{Serves, Turn};
ghost use Rattle.gateway_core.specs.Turning.{handing, noted, Turned};

use crate::gateway::Gateway;
use crate::served::Served;
use crate::wire::{DATAGRAM_ROOM, Input, Wire, WireFault};
use machine_rules::{TurnEnd, is_last};
use plain_machine::{Event, OutDatagram};

// The event that an input is, but for the end.
fn event_in(input: Input, room: &[u8]) -> Option<Event<'_>>
    requires { IsWithin input room.now }
    ensures { MatchOption result (given_in input room.now ≡ end) (λ found. given_in input room.now ≡ event (event_of found)) }
{
    match input {
        Input::Datagram { source, len } => Some(Event::Datagram {
            source,
            bytes: &room[..len],
        }),
        Input::Phone { line, act } => Some(Event::Phone { line, act }),
        Input::Tick { moment } => Some(Event::Tick { moment }),
        Input::End => None,
    }
}

// Hands datagrams to a wire in their order, whether or not it fails to take one: how often it failed.
fn hand_over<W: Wire>(wire: &mut W, datagrams: &[OutDatagram]) -> u64
    ensures log { Carries (W.log wire.old) (handing datagrams.now result) (W.log wire.new) }
    ensures few { result ≤ length datagrams.now }
{
    let mut faults = 0;
    for datagram in datagrams {
        if wire.send(datagram.to, datagram.bytes.as_bytes()).is_err() {
            faults += 1;
        }
    }
    faults
}

impl Served {
    const NONE: Served = Served {
        turns: 0,
        refused: 0,
        receive_faults: 0,
        send_faults: 0,
        ended: false,
    };

    // One turn more.
    fn note(&mut self, turn: TurnEnd)
        ensures { self.new ≡ noted self.old turn }
    {
        self.turns = self.turns.saturating_add(1);
        match turn {
            TurnEnd::Took { send_faults } => {
                self.send_faults = self.send_faults.saturating_add(send_faults);
            }
            TurnEnd::Refused => self.refused = self.refused.saturating_add(1),
            TurnEnd::Failed => self.receive_faults = self.receive_faults.saturating_add(1),
            TurnEnd::Ended => self.ended = true,
        }
    }
}

impl Gateway {
    // One turn.
    fn turn<W: Wire>(&mut self, wire: &mut W, room: &mut [u8]) -> TurnEnd
        requires { length room.old ≡ DATAGRAM_ROOM }
        ensures room { length room.new ≡ DATAGRAM_ROOM }
        ensures turn { Turned result self.old (W.log wire.old) self.new (W.log wire.new) }
    {
        let Ok(input) = wire.next(room) else {
            return TurnEnd::Failed;
        };
        let Some(event) = event_in(input, room) else {
            return TurnEnd::Ended;
        };
        match self.step(event) {
            Ok(outputs) => TurnEnd::Took {
                send_faults: hand_over(wire, outputs.as_slice()),
            },
            Err(_) => TurnEnd::Refused,
        }
    }

    /// Serves a wire: takes one input a turn, for so many turns or until the end comes, and hands over what is sent.
    ///
    /// Where the wire fails to give an input the turn has no event. Where it fails to take a datagram, that counts as lost in
    /// the network. An input that is refused, for want of memory too, changes nothing. It goes on after each of these, and
    /// counts them.
    pub fn serve<W: Wire>(&mut self, wire: &mut W, turns: u64) -> Served
        ensures serves { (went : List Turn) × Serves self.old (W.log wire.old) went result self.new (W.log wire.new) }
        ensures bounded { result.turns ≤ turns }
        ensures stops { (result.ended ≡ true) ⊎ (result.turns ≡ turns) }
    {
        let mut served = Served::NONE;
        let mut room = [0; DATAGRAM_ROOM];
        for _ in 0..turns {
            let turn = self.turn(wire, &mut room);
            served.note(turn);
            if is_last(turn) {
                return served;
            }
        }
        served
    }
}
