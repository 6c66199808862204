//! What a program records, kept as the program keeps it, and read late, or never.
ghost use Rattle.std.specs.Prelude.{◌≡◌};

use crate::stories::clocks::Clocks;
use crate::stories::transcript::Transcript;
use live_journal::{Journal, Trace};
use output_queues::{Finisher, Outlet, Outlets, Stream, Written};
use std::alloc::{AllocError, Global};
use std::cell::Cell;
use std::io::{self, ErrorKind, Write};
use std::rc::Rc;
use std::rt::Clock;

/// When somebody begins to read a record, in ms, if anybody does, and how many bytes wait for that from the start.
#[derive(Clone, Copy)]
pub struct Late {
    pub from: Option<u64>,
    pub waiting: usize,
}

/// When the log is read, and what goes to standard output.
#[derive(Clone, Copy)]
pub struct Reading {
    pub log: Late,
    pub output: Late,
}

// Nobody ever does, and nothing waits.
const NOBODY: Late = Late {
    from: None,
    waiting: 0,
};

impl Reading {
    /// Nobody ever does, and nothing waits.
    pub const NEVER: Reading = Reading {
        log: NOBODY,
        output: NOBODY,
    };
}

// What was read so far; nothing while something is put there.
type Read = Rc<Cell<Option<Transcript>>>;

/// Where a record is written: nothing is taken while nobody reads.
#[derive(Drop)]
pub struct Pipe {
    clocks: Rc<Clocks>,
    from: Option<u64>,
    record: LateRecord,
    read: Read,
}

/// What is read late.
#[derive(Clone, Copy)]
pub enum LateRecord {
    Log,
    Trace,
    Print,
}

// What stands before each line of it. No text is held: a type that holds one for ever can't be that of a loop's recorder.
fn before(record: LateRecord) -> &'static [u8] {
    match record {
        LateRecord::Log => b"log ",
        LateRecord::Trace => b"trace ",
        LateRecord::Print => b"print ",
    }
}

impl Pipe {
    // Whether somebody reads now.
    fn is_read(&self) -> bool {
        match self.from {
            Some(from) => from <= self.clocks.moment(),
            None => false,
        }
    }
}

impl Write for Pipe {
    fn write(&mut self, buf: &[u8]) -> io::Result<usize> {
        if !self.is_read() {
            return Err(io::Error::from(ErrorKind::WouldBlock));
        }
        if let Some(mut read) = self.read.replace(None) {
            let at = self.clocks.stamp();
            read.tell(at, before(self.record), buf);
            self.read.set(Some(read));
        }
        Ok(buf.len())
    }

    fn flush(&mut self) -> io::Result<()> {
        Ok(())
    }
}

/// The outlets of a program whose records are read late.
#[derive(Drop)]
pub struct LateLog {
    read: Read,
    outlets: Outlets<Pipe>,
}

// The outlet of this name. What waits there are empty lines.
fn outlet_of(
    alloc: Global,
    name: &str,
    record: LateRecord,
    late: Late,
    clocks: &Rc<Clocks>,
    read: &Read,
) -> Result<Box<Outlet<Pipe>>, AllocError> {
    let pipe = Pipe {
        clocks: clocks.clone()?,
        from: late.from,
        record,
        read: read.clone()?,
    };
    let mut outlet = Outlet::new(alloc, name, Stream::over(pipe))?;
    let empty_lines = vec![in alloc; b'\n'; late.waiting]?;
    outlet.say(empty_lines.as_slice());
    Ok(outlet)
}

impl LateLog {
    /// Outlets of which this is standard output. So much waits there as is said, and nobody reads yet.
    pub fn new(
        alloc: Global,
        reading: Reading,
        output: LateRecord,
        clocks: &Rc<Clocks>,
    ) -> Result<LateLog, AllocError> {
        let read: Read = Rc::new(alloc, Cell::new(Some(Transcript::new(alloc))))?;
        let output = outlet_of(
            alloc,
            "standard output",
            output,
            reading.output,
            clocks,
            &read,
        )?;
        let error = outlet_of(
            alloc,
            "standard error",
            LateRecord::Log,
            reading.log,
            clocks,
            &read,
        )?;
        let outlets = Outlets {
            output,
            error,
            capture: None,
        };
        Ok(LateLog { read, outlets })
    }

    /// Keeps what was recorded, at this time, as the program does.
    pub fn write(&mut self, journal: &mut Journal, trace: &mut Trace, time: u64)
        ensures { (journal.new.tally ≡ journal.old.tally) × (journal.new.board ≡ journal.old.board) }
    {
        journal.write(trace, &mut self.outlets, time);
    }

    /// Keeps what a call agent recorded, at this time, as that does.
    pub fn write_agent(&mut self, journal: &mut agent_log::Journal, time: u64)
        ensures { journal.new.tally ≡ journal.old.tally }
    {
        journal.write(&mut self.outlets, time);
    }

    /// Offers what waits, and behind it these last words, as the program does at its end, at this time.
    pub fn end_with<R: Clock>(&mut self, rt: &R, last: &[u8], time: u64) -> Written {
        self.outlets.end_with(rt, last, time)
    }

    /// Whether something waits to be read.
    pub fn is_offering(&self) -> bool {
        !self.outlets.are_taken()
    }

    /// Puts what was read.
    pub fn put_read(&self, given: &mut Transcript) {
        match self.read.replace(None) {
            Some(mut read) => given.append(&mut read),
            None => given.refuse(),
        }
    }
}
