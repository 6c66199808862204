//! What comes, as the log says it, by what each text was to the gateway; and what the gateway gives up.
ghost use Rattle.std.specs.Prelude.{◌≡◌, ◌++◌, None, OnOk};
ghost use Rattle.std.specs.List.{flat_map};
ghost use Rattle.told_messages.specs.Coming.{waited_for, came_text, datagram_came, late_text, arrival_text, given_up_text};
ghost use Rattle.told_messages.specs.Logging.{turned_text, Receives, Turns};

use crate::log::{Arrival, LastCommands, Log, ms_between};
use gateway_core::{GivenUpCommand, TextOutcome};
use log_format::{Note, Stamp, Way, put_given_up, put_message, put_note};
use message_counts::Taken;
use mg_bytes::{OutOfMemory, Text};
use mgcp_text::TransactionId;
use output_queues::Now;
use plain_machine::line_of_id;
use std::alloc::Global;
use std::net::SocketAddrV4;
use transmission::texts;

// A response came at this moment to the command with this id: how long that waited, in ms, where it is what its line sent last.
#[tactic(auto, unfolding(crate::specs::Coming::waited_for))]
fn waited_for(own: &LastCommands, moment: u64, id: TransactionId) -> Option<u64>
    ensures { result ≡ waited_for own.now.entries moment id }
{
    let Some(command) = own.get(&line_of_id(id)) else {
        return None;
    };
    if command.id.number() != id.number() {
        return None;
    }
    Some(ms_between(command.first.moment, moment))
}

// Puts what is said of a text that came, by what it was to the gateway.
#[tactic(auto, unfolding(crate::specs::Coming::came_text))]
fn put_came(
    alloc: Global,
    out: &mut Vec<u8>,
    domain: &[u8],
    own: &LastCommands,
    came: Stamp,
    text: &[u8],
    outcome: &TextOutcome,
) -> Result<(), OutOfMemory>
    ensures { OnOk result (out.new.items ≡ out.old.items ++ came_text domain.now own.now.entries came text.now outcome.now) }
{
    match outcome {
        TextOutcome::NoMessage => put_note(alloc, out, came, Note::Unreadable),
        TextOutcome::Command { .. } => {
            put_message(alloc, out, domain, came, Way::Came, text, None)
        }
        TextOutcome::Response { id, .. } => {
            let waited = waited_for(own, came.moment, *id);
            put_message(alloc, out, domain, came, Way::Came, text, waited)
        }
    }
}

// The same of each text of a datagram, whose bytes say where each ends; or that it is too long.
#[tactic(auto, unfolding(crate::specs::Coming::datagram_came, crate::specs::Coming::texts_came))]
fn put_datagram_came(
    alloc: Global,
    out: &mut Vec<u8>,
    domain: &[u8],
    own: &LastCommands,
    came: Stamp,
    bytes: &[u8],
    outcomes: &[TextOutcome],
) -> Result<(), OutOfMemory>
    ensures { OnOk result (out.new.items ≡ out.old.items ++ datagram_came domain.now own.now.entries came bytes.now outcomes.now) }
{
    let Some(texts) = texts(bytes) else {
        let length = bytes.len();
        return put_note(alloc, out, came, Note::TooLong { length });
    };
    let mut left = outcomes;
    for text in texts {
        let [outcome, others @ ..] = left else {
            return Ok(());
        };
        put_came(alloc, out, domain, own, came, text, outcome)?;
        left = others;
    }
    Ok(())
}

// Puts that a datagram came late, where it did.
fn put_late(alloc: Global, out: &mut Vec<u8>, came: Stamp, late: u64) -> Result<(), OutOfMemory>
    ensures { OnOk result (out.new.items ≡ out.old.items ++ late_text came late) }
{
    match late {
        0 => Ok(()),
        ms => put_note(alloc, out, came, Note::Late { ms }),
    }
}

// Puts that a command of the gateway's own is given up at this time.
#[tactic(auto, unfolding(crate::specs::Coming::given_up_text))]
fn put_one_given_up(
    alloc: Global,
    out: &mut Vec<u8>,
    domain: &[u8],
    own: &LastCommands,
    time: u64,
    given_up: GivenUpCommand,
) -> Result<(), OutOfMemory>
    ensures { OnOk result (out.new.items ≡ out.old.items ++ given_up_text domain.now own.now.entries time given_up) }
{
    let Some(command) = own.get(&given_up.line) else {
        return Ok(());
    };
    let stamp = Stamp {
        moment: time,
        peer: command.first.peer,
    };
    put_given_up(alloc, out, domain, stamp, command.text.as_bytes())
}

// The same of each that is.
fn put_all_given_up(
    alloc: Global,
    out: &mut Vec<u8>,
    domain: &[u8],
    own: &LastCommands,
    time: u64,
    given_up: &[GivenUpCommand],
) -> Result<(), OutOfMemory>
    ensures { OnOk result (out.new.items
        ≡ out.old.items ++ flat_map (given_up_text domain.now own.now.entries time) given_up.now) }
{
    for command in given_up {
        put_one_given_up(alloc, out, domain, own, time, *command)?;
    }
    Ok(())
}

impl Log {
    /// A datagram comes for the gateway, so late, in ms: it is told once the gateway took it.
    #[tactic(auto, using(crate::proofs::RecordLemmas::putting, crate::proofs::RecordLemmas::puts_none))]
    pub fn receive(&mut self, now: Now, source: SocketAddrV4, bytes: &[u8], late: u64)
        ensures { Receives self.old (record { moment = now.time; peer = source }) bytes.now late self.new }
    {
        if !self.record.is_on() {
            return;
        }
        self.came = Stamp {
            moment: now.time,
            peer: source,
        };
        match Vec::from_slice(self.alloc, bytes) {
            Ok(bytes) => self.arrival = Some(Arrival {
                bytes: Text::of(bytes),
                late,
            }),
            Err(_) => self.record.refuse(),
        }
    }

    // Puts what is said of the datagram that came and isn't told yet, by what its texts were, and that it came late.
    fn put_arrival(&mut self, outcomes: &[TextOutcome]) -> Result<(), OutOfMemory>
        ensures out { OnOk result (self.new.record.out.items ≡ self.old.record.out.items
            ++ arrival_text self.old.domain self.old.own.entries self.old.came self.old.arrival outcomes.now) }
        ensures rest { self.new ≡ record self.old {
          «record» = record self.old.record { out = self.new.record.out };
          arrival = None;
        } }
    {
        let Some(Arrival { bytes, late }) = self.arrival.take() else {
            return Ok(());
        };
        put_datagram_came(
            self.alloc,
            &mut self.record.out,
            self.domain.as_bytes(),
            &self.own,
            self.came,
            bytes.as_bytes(),
            outcomes,
        )?;
        put_late(self.alloc, &mut self.record.out, self.came, late)
    }

    // Puts what is said of an event that the gateway took at this time.
    fn put_turned(&mut self, time: u64, taken: &Taken<'_>) -> Result<(), OutOfMemory>
        ensures out { OnOk result (self.new.record.out.items
            ≡ self.old.record.out.items ++ turned_text self.old time taken.now.outcomes.now taken.now.given_up.now) }
        ensures rest { self.new ≡ record self.old {
          «record» = record self.old.record { out = self.new.record.out };
          arrival = None;
        } }
    {
        self.put_arrival(taken.outcomes)?;
        put_all_given_up(
            self.alloc,
            &mut self.record.out,
            self.domain.as_bytes(),
            &self.own,
            time,
            taken.given_up,
        )
    }

    /// The gateway took an event: what came is told, and what it gave up is noted.
    #[tactic(auto, using(crate::proofs::RecordLemmas::putting))]
    pub fn turned(&mut self, now: Now, taken: &Taken<'_>)
        ensures { Turns self.old now.time taken.now.outcomes.now taken.now.given_up.now self.new }
    {
        if !self.record.is_on() {
            return;
        }
        match self.put_turned(now.time, taken) {
            Ok(()) => {}
            Err(_) => self.record.refuse(),
        }
    }
}
