//! What is told of the conversation: on standard output, in the log, in a capture, and in counts.
ghost use Rattle.std.specs.Prelude.{◌≡◌, ◌⊎◌, ◌++◌, true, false, [], IfOk, OnOk};
ghost use Rattle.output_queues.specs.declared.record.RecordState.TheVariants as states;
ghost use Rattle.output_queues.specs.Recording.{state_when};
ghost use Rattle.log_format.specs.File.{file_head};
ghost use Rattle.output_queues.specs.Written.{faults_in, written_line};
ghost use Rattle.agent_log.specs.Counts.{counts_text, nothing_counted, with_answer, with_notification, with_announcement, with_strange_name};
ghost use Rattle.agent_log.specs.Counts.{with_given_up, with_received, with_handed_out};
ghost use Rattle.agent_log.specs.Telling.{plain, line_of_pieces, Tells};

use crate::noting::text_note;
use crate::tally::{Tally, count};
use crate::text::header_word;
use log_format::{
    Note, Packet, Stamp, Way, put_given_up, put_head, put_message, put_note, put_packet,
    write_shown,
};
use mg_bytes::{Draft, OutOfMemory, lines};
use mgcp_text::parts;
use output_queues::{Outlets, Record, Written};
use packages::{Observed, write_observed};
use std::alloc::Global;
use std::io::Write;
use std::net::SocketAddrV4;
use transmission::texts;

// The call agent has gateways of many domains, and no domain of its own: the log has each name whole.
const NO_DOMAIN: &[u8] = b"";

/// What is told, and was counted.
pub struct Journal {
    alloc: Global,
    // The address of the socket for gateways.
    here: SocketAddrV4,
    /// What happened, on standard output.
    pub told: Record,
    /// The log, for people, on standard error.
    pub log: Record,
    /// The capture, for a file, and that file's name; empty where there is none.
    pub capture: Record,
    capture_name: Vec<u8>,
    // What became of what was recorded.
    written: Written,
    pub tally: Tally,
}

// Written out: a derived drop, and those of all its parts, are proved anew by each crate that lets one go.
impl Drop for Journal {
    fn drop(self) {
        let Journal {
            alloc: _,
            here: _,
            told,
            log,
            capture,
            capture_name,
            written: _,
            tally: _,
        } = self;
        drop(told);
        drop(log);
        drop(capture);
        drop(capture_name);
    }
}

// Each byte is told as the log shows it.
fn put_plain(out: &mut Draft, bytes: &[u8])
    ensures { out.new ≡ out.old ++ plain bytes.now }
{
    for byte in bytes {
        write_shown(out, &[*byte]);
    }
}

// A line of these pieces.
#[tactic(auto, unfolding(crate::specs::Telling::line_of_pieces))]
fn put_line(out: &mut Vec<u8>, pieces: &[&[u8]]) -> Result<(), OutOfMemory>
    ensures { OnOk result (out.new.items ≡ out.old.items ++ line_of_pieces pieces.now) }
{
    let mut line = Draft::new(*out.allocator());
    for piece in pieces {
        put_plain(&mut line, piece);
    }
    line.put_byte(b'\n');
    line.append_to(out)
}

// The lines of a text in one, with bars between them.
fn joined(alloc: Global, text: &[u8]) -> Result<Vec<u8>, OutOfMemory> {
    let mut all = Draft::new(alloc);
    let mut is_first = true;
    for line in lines(text) {
        if !line.is_empty() {
            if !is_first {
                all.put(b" | ");
            }
            all.put(line);
            is_first = false;
        }
    }
    all.end()
}

// Puts a note into the log.
fn log_note(alloc: Global, log: &mut Record, stamp: Stamp, note: Note) {
    if log.is_on() && put_note(alloc, &mut log.out, stamp, note).is_err() {
        log.refuse();
    }
}

// Puts a text that came or is sent into the log.
fn log_text(alloc: Global, log: &mut Record, stamp: Stamp, way: Way, is_repeat: bool, text: &[u8]) {
    let note = match text_note(alloc, is_repeat, text) {
        Ok(note) => note,
        Err(_) => {
            log.refuse();
            return;
        }
    };
    if let Some(note) = note {
        log_note(alloc, log, stamp, note);
        return;
    }
    if put_message(alloc, &mut log.out, NO_DOMAIN, stamp, way, text, None).is_err() {
        log.refuse();
    }
}

// Puts a datagram that came into the log, text by text.
fn log_came(alloc: Global, log: &mut Record, stamp: Stamp, bytes: &[u8]) {
    let Some(mut rest) = texts(bytes) else {
        let length = bytes.len();
        log_note(alloc, log, stamp, Note::TooLong { length });
        return;
    };
    while let Some(text) = rest.next() {
        log_text(alloc, log, stamp, Way::Came, false, text);
    }
}

// Puts a datagram that is sent into the log, text by text.
fn log_sent(alloc: Global, log: &mut Record, stamp: Stamp, is_repeat: bool, bytes: &[u8]) {
    for text in parts(bytes) {
        log_text(alloc, log, stamp, Way::Sent, is_repeat, text);
    }
}

impl Journal {
    /// A journal with a log and a capture where they are asked for; the socket for gateways is here.
    pub fn new(alloc: Global, has_log: bool, has_capture: bool, here: SocketAddrV4) -> Journal
        ensures told { result.told.out.items ≡ [] }
        ensures log { result.log.out.items ≡ [] }
        ensures tells { result.told.state ≡ state_when true }
        ensures logs { result.log.state ≡ state_when has_log }
        ensures captures { (result.capture.state ≡ state_when has_capture) ⊎ (result.capture.state ≡ states.OutOfMemory) }
        ensures here { result.here ≡ here }
        ensures tally { result.tally ≡ nothing_counted }
        ensures capture_name { result.capture_name.items ≡ [] }
        ensures head { result.capture.state ≡ states.On → result.capture.out.items ≡ file_head }
        ensures no_capture { has_capture ≡ false → result.capture.out.items ≡ [] }
        ensures faults { faults_in result.written ≡ 0 }
        ensures dropped { result.written.dropped ≡ 0 }
    {
        let mut capture = Record::new(alloc, has_capture);
        if has_capture && put_head(&mut capture.out).is_err() {
            capture.refuse();
        }
        Journal {
            alloc,
            here,
            told: Record::new(alloc, true),
            log: Record::new(alloc, has_log),
            capture,
            capture_name: Vec::new(alloc),
            written: Written::ALL,
            tally: Tally::NOTHING,
        }
    }

    /// The capture's file has this name. An error is for want of memory.
    pub fn name_capture(&mut self, name: &str) -> Result<(), OutOfMemory>
        ensures { OnOk result (self.new.capture_name.items ≡ self.old.capture_name.items ++ name.now) }
    {
        self.capture_name.extend_from_slice(name.as_bytes())
    }

    /// Keeps what was recorded since this was called last, at this moment, in microseconds since 1970, and writes what is taken at once.
    pub fn write<F: Write + Drop>(&mut self, outlets: &mut Outlets<F>, time: u64)
        ensures tally { self.new.tally ≡ self.old.tally }
        ensures rest { self.new ≡ record self.old {
          told = self.new.told;
          log = self.new.log;
          capture = self.new.capture;
          written = self.new.written;
        } }
    {
        let output = &mut *outlets.output;
        output.keep_log(&mut self.told, time);
        output.end_refused(&self.told, b"");
        let error = &mut *outlets.error;
        error.keep_log(&mut self.log, time);
        error.say_refused(&self.log);
        if let Some(capture) = &mut outlets.capture {
            let capture = &mut **capture;
            capture.keep_whole(&mut self.capture, b"");
            capture.end_refused(&self.capture, b"");
        }
        outlets.offer();
        self.written = outlets.written();
    }

    /// What was counted, as text, one kind a line. Its only error is want of memory.
    pub fn counts(&self) -> Result<Vec<u8>, OutOfMemory>
        ensures { IfOk result (λ text. text.items
            ≡ counts_text self.now.tally ++ written_line self.now.written self.now.capture_name.items) }
    {
        let mut counts = Draft::new(self.alloc);
        self.tally.put_text(&mut counts);
        let mut text = counts.end()?;
        self.written
            .put_line(self.alloc, &mut text, self.capture_name.as_slice())?;
        Ok(text)
    }

    /// Tells a line of these pieces.
    #[tactic(auto, using(crate::proofs::TellingLemmas::telling))]
    pub(crate) fn tell(&mut self, pieces: &[&[u8]])
        ensures tells { Tells (line_of_pieces pieces.now) self.old.told self.new.told }
        ensures rest { self.new ≡ record self.old { told = self.new.told } }
    {
        if self.told.is_on() && put_line(&mut self.told.out, pieces).is_err() {
            self.told.refuse();
        }
    }

    /// A command was answered by this text.
    pub fn tell_answer(&mut self, command: &[u8], text: &[u8])
        ensures tally { self.new.tally ≡ with_answer self.old.tally }
        ensures rest { self.new ≡ record self.old { tally = self.new.tally; told = self.new.told } }
    {
        count(&mut self.tally.answered);
        match joined(self.alloc, text) {
            Ok(text) => {
                let name = header_word(command, 2);
                self.tell(&[
                    b"answer ".as_slice(),
                    name,
                    b" ".as_slice(),
                    text.as_slice(),
                ]);
            }
            Err(_) => self.told.refuse(),
        }
    }

    /// A notification of an endpoint was taken.
    pub fn tell_notification(&mut self, name: &[u8], observed: &[Observed])
        ensures tally { self.new.tally ≡ with_notification self.old.tally }
        ensures rest { self.new ≡ record self.old { tally = self.new.tally; told = self.new.told } }
    {
        count(&mut self.tally.notifications);
        match write_observed(self.alloc, observed) {
            Ok(events) => {
                self.tell(&[
                    b"notify ".as_slice(),
                    name,
                    b" ".as_slice(),
                    events.as_bytes(),
                ]);
            }
            Err(_) => self.told.refuse(),
        }
    }

    /// An announcement of endpoints came, of this kind.
    pub fn tell_announcement(&mut self, name: &[u8], method: &[u8])
        ensures tally { self.new.tally ≡ with_announcement self.old.tally }
        ensures rest { self.new ≡ record self.old { tally = self.new.tally; told = self.new.told } }
    {
        count(&mut self.tally.announcements);
        self.tell(&[b"announce ".as_slice(), name, b" ".as_slice(), method]);
    }

    /// A command came under a name that its gateway doesn't have.
    pub fn tell_strange(&mut self, command: &[u8])
        ensures tally { self.new.tally ≡ with_strange_name self.old.tally }
        ensures rest { self.new ≡ record self.old { tally = self.new.tally; told = self.new.told } }
    {
        count(&mut self.tally.strange_names);
        self.tell(&[
            b"strange ".as_slice(),
            header_word(command, 2),
            b" ".as_slice(),
            header_word(command, 0),
        ]);
    }

    /// A command was given up, which went to this address.
    pub fn tell_given_up(&mut self, time: u64, to: SocketAddrV4, command: &[u8])
        ensures tally { self.new.tally ≡ with_given_up self.old.tally }
        ensures rest { self.new ≡ record self.old { tally = self.new.tally; told = self.new.told; log = self.new.log } }
    {
        count(&mut self.tally.given_up);
        self.tell(&[
            b"given up ".as_slice(),
            header_word(command, 0),
            b" ".as_slice(),
            header_word(command, 1),
            b" ".as_slice(),
            header_word(command, 2),
        ]);
        let stamp = Stamp {
            moment: time,
            peer: to,
        };
        if self.log.is_on()
            && put_given_up(self.alloc, &mut self.log.out, NO_DOMAIN, stamp, command).is_err()
        {
            self.log.refuse();
        }
    }

    /// Puts a note into the log.
    pub fn note(&mut self, stamp: Stamp, note: Note)
        ensures rest { self.new ≡ record self.old { log = self.new.log } }
    {
        log_note(self.alloc, &mut self.log, stamp, note);
    }

    fn put_capture(&mut self, moment: u64, from: SocketAddrV4, to: SocketAddrV4, bytes: &[u8])
        ensures rest { self.new ≡ record self.old { capture = self.new.capture } }
    {
        let packet = Packet {
            moment,
            from,
            to,
            bytes,
        };
        if self.capture.is_on() && put_packet(self.alloc, &mut self.capture.out, &packet).is_err() {
            self.capture.refuse();
        }
    }

    /// A datagram came. The time is microseconds since 1970.
    pub fn came(&mut self, time: u64, peer: SocketAddrV4, bytes: &[u8])
        ensures tally { self.new.tally ≡ with_received self.old.tally }
        ensures rest { self.new ≡ record self.old { tally = self.new.tally; log = self.new.log; capture = self.new.capture } }
    {
        count(&mut self.tally.datagrams_in);
        self.put_capture(time, peer, self.here, bytes);
        if !self.log.is_on() {
            return;
        }
        let stamp = Stamp { moment: time, peer };
        log_came(self.alloc, &mut self.log, stamp, bytes);
    }

    /// A datagram is sent, again or for the first time. The time is microseconds since 1970.
    pub fn sent(&mut self, time: u64, peer: SocketAddrV4, bytes: &[u8], is_repeat: bool)
        ensures tally { self.new.tally ≡ with_handed_out is_repeat self.old.tally }
        ensures rest { self.new ≡ record self.old { tally = self.new.tally; log = self.new.log; capture = self.new.capture } }
    {
        count(&mut self.tally.datagrams_out);
        if is_repeat {
            count(&mut self.tally.again);
        }
        self.put_capture(time, self.here, peer, bytes);
        if !self.log.is_on() {
            return;
        }
        let stamp = Stamp { moment: time, peer };
        log_sent(self.alloc, &mut self.log, stamp, is_repeat, bytes);
    }
}
