//! What a program records, kept as it is written.
ghost use Rattle.std.specs.Prelude.{◌≡◌};

use crate::stories::Transcript;
use crate::stories::clocks::Clocks;
use crate::stories::late_log::{LateLog, LateRecord};
use crate::stories::story::Story;
use live_journal::{Journal, Trace};
use live_system::{CommonEnding, DayWatch};
use output_queues::{Finisher, Record, TEXT_ROOM, Written, boxed};
use std::alloc::{AllocError, Global};
use std::rc::Rc;
use std::rt::Clock;
use traces::{broken_off_line, put_verdict, replay};

/// What was recorded.
#[derive(Drop)]
pub struct Records {
    alloc: Global,
    clocks: Rc<Clocks>,
    pub given: Transcript,
    /// All of the trace.
    pub trace: Vec<u8>,
    /// So many bytes of it find room.
    pub room: usize,
    /// What is said to become of it.
    pub written: Written,
    /// Whether it is told what was counted at the end.
    pub is_counted: bool,
    /// Records that are read late.
    late_log: Option<Box<LateLog>>,
    days: DayWatch,
}

// The outlets of a program whose records are read late, where a story says so. What goes to standard output is this.
fn late_log_of(
    alloc: Global,
    story: &Story,
    output: LateRecord,
) -> Result<Option<Box<LateLog>>, AllocError> {
    match story.reading {
        Some(reading) => {
            let late_log = LateLog::new(alloc, reading, output, &story.clocks)?;
            Ok(Some(boxed(alloc, late_log)?))
        }
        None => Ok(None),
    }
}

impl Records {
    /// Nothing yet, by these clocks; this is said to become of what is recorded.
    pub fn new(alloc: Global, clocks: Rc<Clocks>, written: Written) -> Records {
        Records {
            alloc,
            clocks,
            given: Transcript::new(alloc),
            trace: Vec::new(alloc),
            room: TEXT_ROOM,
            written,
            is_counted: false,
            late_log: None,
            days: DayWatch::new(),
        }
    }

    /// Nothing yet; what becomes of what is recorded is as a story says it. What goes to standard output is this.
    pub fn of_story(
        alloc: Global,
        story: &Story,
        output: LateRecord,
    ) -> Result<Records, AllocError> {
        let mut records = Records::new(alloc, story.clocks.clone()?, story.written);
        records.is_counted = story.is_counted;
        records.room = story.room;
        records.late_log = late_log_of(alloc, story, output)?;
        Ok(records)
    }

    /// These lines are given now, each behind this.
    pub fn tell(&mut self, before: &[u8], text: &[u8]) {
        let at = self.clocks.stamp();
        self.given.tell(at, before, text);
    }

    /// Keeps what was put together of a record, each line behind this.
    pub fn keep(&mut self, before: &[u8], record: &mut Record) {
        self.tell(before, record.out.as_slice());
        record.out.clear();
    }

    /// Keeps that the time of day was set, where a log has something and that wasn't kept yet.
    pub fn keep_day(&mut self, log: &Record) {
        if let Some(line) = self.days.line(self.clocks.as_ref(), self.alloc, log) {
            self.tell(b"log ", line.as_slice());
        }
    }

    // This is told of a trace.
    fn tell_trace(&mut self, text: &[u8]) {
        if self.trace.extend_from_slice(text).is_err() {
            self.given.refuse();
        }
        self.tell(b"trace ", text);
    }

    /// Keeps what a trace was told, and that it was broken off; it gets the room that is left.
    pub fn keep_trace(&mut self, trace: &mut Trace) {
        self.tell_trace(trace.record.out.as_slice());
        trace.record.out.clear();
        if trace.has_ended() {
            self.tell_trace(broken_off_line());
        }
        trace.give_room(self.room.saturating_sub(self.trace.len()));
    }

    /// Keeps what was recorded at this time as the program does, where that is read late: whether it is.
    pub fn keep_late(&mut self, journal: &mut Journal, trace: &mut Trace, time: u64) -> bool
        ensures { (journal.new.tally ≡ journal.old.tally) × (journal.new.board ≡ journal.old.board) }
    {
        let Some(late_log) = &mut self.late_log else {
            return false;
        };
        late_log.write(journal, trace, time);
        true
    }

    /// Keeps what a call agent recorded at this time as that does, where that is read late: whether it is.
    pub fn keep_agent_late(&mut self, journal: &mut agent_log::Journal, time: u64) -> bool
        ensures { journal.new.tally ≡ journal.old.tally }
    {
        let Some(late_log) = &mut self.late_log else {
            return false;
        };
        late_log.write_agent(journal, time);
        true
    }

    /// Whether something waits to be read.
    pub fn waits_to_be_read(&self) -> bool {
        match &self.late_log {
            Some(late_log) => late_log.is_offering(),
            None => false,
        }
    }

    /// Keeps what was put together of a capture, in hexadecimal digits.
    pub fn keep_capture(&mut self, record: &mut Record) {
        match hex::encode(self.alloc, record.out.as_slice()) {
            Ok(digits) => self.tell(b"capture ", digits.as_bytes()),
            Err(_) => self.given.refuse(),
        }
        record.out.clear();
    }

    // Tells what a replay finds of a trace, if there is one.
    fn tell_replay(&mut self) {
        if self.trace.is_empty() {
            return;
        }
        let Ok(verdict) = replay(self.alloc, self.trace.as_slice()) else {
            return self.given.refuse();
        };
        let mut text = Vec::new(self.alloc);
        if put_verdict(self.alloc, &mut text, &verdict).is_err() {
            self.given.refuse();
        }
        self.tell(b"replay ", text.as_slice());
    }

    /// Tells with which status the program ends, where a story asks for that.
    pub fn tell_status(&mut self, ending: CommonEnding, story: &Story) {
        if story.has_status {
            let at = self.clocks.stamp();
            self.given.tell_status(at, ending.status());
        }
    }

    /// Puts what was given.
    pub fn put_given(&mut self, given: &mut Transcript) {
        if let Some(late_log) = &self.late_log {
            late_log.put_read(given);
        }
        given.append(&mut self.given);
    }
}

impl Finisher for Records {
    ghost use Rattle.std.specs.Prelude.{⊤};

    ghost ends = { λ last was written is. ⊤ };

    fn end_with<R: Clock>(&mut self, rt: &R, last: &[u8], moment: u64) -> Written {
        self.tell_replay();
        if let Some(late_log) = &mut self.late_log {
            return late_log.end_with(rt, last, moment);
        }
        if self.is_counted {
            self.tell(b"count ", last);
        }
        self.written
    }
}
