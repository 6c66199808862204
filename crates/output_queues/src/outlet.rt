//! An outlet: what is recorded waits there until it is taken.
ghost use Rattle.std.specs.Prelude.{◌≡◌, ◌≢◌, [], true, false, IfOk, string_bytes};
ghost use Rattle.mg_bytes.specs.Lists.{is_empty};
ghost use Rattle.output_queues.specs.declared.outlet.OutletState.TheVariants.{Open, BrokenOff, Failed};
ghost use Rattle.output_queues.specs.declared.record.RecordState.TheVariants.{Off};
ghost use Rattle.output_queues.specs.declared.backlog.TheConstants.{NOTE_ROOM, TEXT_ROOM};
ghost use Rattle.output_queues.specs.Backlog.{nothing_waits, is_kept, room_left, offered, ended_within, closed};
ghost use Rattle.output_queues.specs.Recording.{is_refused, is_open, faults_of, said, Says, Notes, KeepsLog, given_up, state_given_up};

use crate::backlog::Backlog;
use crate::reasons::reason_of;
use crate::record::Record;
use crate::stream::Stream;
use log_format::{Notice, put_notice};
use mg_bytes::boxed;
use std::alloc::{AllocError, Global};
use std::io::{ErrorKind, Write};

// How it stands with an outlet where memory was refused for what is recorded there.
const REFUSED: OutletState = OutletState::Failed {
    kind: ErrorKind::OutOfMemory,
};

// So often something is written in a turn.
const MOST_WRITES: u16 = 512;

/// How it stands with an outlet. No text is held here: a type that holds one for ever can't be that of a loop's recorder.
#[derive(Clone, Copy)]
pub enum OutletState {
    /// All is written, as it is taken.
    Open,
    /// Too much wasn't taken; nothing is recorded behind that.
    BrokenOff,
    /// It can't be written, by the system's error of this kind; nothing is recorded any more.
    Failed { kind: ErrorKind },
}

/// Standard output, standard error or a file, and what waits for it.
pub struct Outlet<F> {
    alloc: Global,
    /// Its name, for people.
    pub name: String,
    stream: Stream<F>,
    backlog: Backlog,
    state: OutletState,
    // Whether it was told that it isn't open any more.
    is_told: bool,
}

// Written out: a derived drop, and those of all its parts, are proved anew by each crate that lets one go.
impl<F: Drop> Drop for Outlet<F> {
    fn drop(self) {
        let Outlet {
            alloc: _,
            name,
            stream,
            backlog,
            state: _,
            is_told: _,
        } = self;
        drop(name);
        drop(stream);
        drop(backlog);
    }
}

// Keeps whole lines, as they are, where there is room for them: whether there is.
#[tactic(auto, unfolding(crate::specs::Backlog::offered))]
fn say(backlog: &mut Backlog, lines: &[u8]) -> bool
    ensures kept { result ≡ is_kept TEXT_ROOM backlog.old lines.now }
    ensures new { backlog.new ≡ said TEXT_ROOM backlog.old lines.now }
{
    if !backlog.has_room(lines) {
        return false;
    }
    backlog.keep(lines)
}

// Notes the lines that weren't kept, where that may be and memory is there.
fn note_dropped(alloc: Global, backlog: &mut Backlog, moment: u64)
    ensures { Notes TEXT_ROOM backlog.old moment backlog.new }
{
    if !backlog.may_note() {
        return;
    }
    let mut note = Vec::new(alloc);
    let lines = backlog.unnoted();
    match put_notice(alloc, &mut note, moment, Notice::Dropped { lines }) {
        Ok(()) => backlog.note(note.as_slice()),
        Err(_) => {}
    }
}

impl<F: Write + Drop> Outlet<F> {
    /// The outlet of this name, over this stream. Its only error is want of memory.
    pub fn new(alloc: Global, name: &str, stream: Stream<F>) -> Result<Box<Outlet<F>>, AllocError>
        ensures backlog { IfOk result (λ outlet. outlet.value.backlog ≡ nothing_waits) }
        ensures state { IfOk result (λ outlet. outlet.value.state ≡ Open) }
        ensures told { IfOk result (λ outlet. outlet.value.is_told ≡ false) }
        ensures name { IfOk result (λ outlet. string_bytes outlet.value.name ≡ name.now) }
        ensures stream { IfOk result (λ outlet. outlet.value.stream ≡ stream) }
    {
        let outlet = Outlet {
            alloc,
            name: String::from_str(alloc, name)?,
            stream,
            backlog: Backlog::new(alloc)?,
            state: OutletState::Open,
            is_told: false,
        };
        boxed(alloc, outlet)
    }

    /// How it stands.
    pub fn state(&self) -> OutletState
        ensures { result ≡ self.now.state }
    {
        self.state
    }

    /// Whether all is written, as it is taken.
    pub fn is_open(&self) -> bool
        ensures { result ≡ is_open self.now.state }
    {
        matches!(self.state, OutletState::Open)
    }

    /// How often it failed, or was broken off: once, or not at all.
    pub fn faults(&self) -> u64
        ensures { result ≡ faults_of self.now.state }
    {
        if self.is_open() { 0 } else { 1 }
    }

    /// Whether nothing waits to be taken.
    pub fn is_taken(&self) -> bool
        ensures { result ≡ is_empty self.now.backlog.waiting }
    {
        self.backlog.waiting().is_empty()
    }

    /// So many bytes of what is recorded next are kept whole.
    pub fn room_left(&self) -> usize
        ensures { result ≡ room_left TEXT_ROOM self.now.backlog }
    {
        self.backlog.room_left()
    }

    /// How many lines weren't kept.
    pub fn dropped(&self) -> u64
        ensures { result ≡ self.now.backlog.dropped }
    {
        self.backlog.dropped()
    }

    // Nothing is recorded from then on, and nothing waits.
    fn fail(&mut self, kind: ErrorKind)
        ensures state { self.new.state ≡ Failed kind }
        ensures backlog { self.new.backlog ≡ closed self.old.backlog }
        ensures rest { self.new ≡ record self.old { backlog = self.new.backlog; state = self.new.state } }
    {
        self.state = OutletState::Failed { kind };
        self.backlog.close();
    }

    /// It can't be written, by the system's error of this kind: nothing is recorded any more.
    pub fn refuse(&mut self, kind: ErrorKind)
        ensures state { self.new.state ≡ Failed kind }
        ensures backlog { self.new.backlog ≡ closed self.old.backlog }
        ensures rest { self.new ≡ record self.old { backlog = self.new.backlog; state = self.new.state } }
    {
        self.fail(kind);
    }

    /// Keeps whole lines, as they are, where there is room for them: whether there is.
    pub fn say(&mut self, lines: &[u8]) -> bool
        ensures kept { result ≡ is_kept TEXT_ROOM self.old.backlog lines.now }
        ensures backlog { self.new.backlog ≡ said TEXT_ROOM self.old.backlog lines.now }
        ensures state { self.new.state ≡ self.old.state }
        ensures rest { self.new ≡ record self.old { backlog = self.new.backlog } }
    {
        say(&mut self.backlog, lines)
    }

    /// Notes the lines that weren't kept, at this moment, in microseconds since 1970: where there are any that wasn't noted of, and no
    /// more than half of the room is taken.
    pub fn note_dropped(&mut self, moment: u64)
        ensures backlog { Notes TEXT_ROOM self.old.backlog moment self.new.backlog }
        ensures state { self.new.state ≡ self.old.state }
        ensures rest { self.new ≡ record self.old { backlog = self.new.backlog } }
    {
        note_dropped(self.alloc, &mut self.backlog, moment);
    }

    /// Keeps what a turn put together of a log, behind a note of the lines before it that weren't kept, at this moment, in microseconds
    /// since 1970.
    pub fn keep_log(&mut self, record: &mut Record, moment: u64)
        ensures backlog { KeepsLog TEXT_ROOM self.old.backlog moment record.old.out.items self.new.backlog }
        ensures state { self.new.state ≡ self.old.state }
        ensures rest { self.new ≡ record self.old { backlog = self.new.backlog } }
        ensures out { record.new.out.items ≡ [] }
        ensures record { record.new.state ≡ record.old.state }
    {
        if record.out.is_empty() {
            return;
        }
        self.note_dropped(moment);
        self.backlog.keep(record.out.as_slice());
        record.out.clear();
    }

    /// Keeps what a turn put together of a record that is of no use with a gap: where there is no room for all of it, it is broken off
    /// before that, with this last line.
    pub fn keep_whole(&mut self, record: &mut Record, last: &[u8])
        ensures nothing { record.old.out.items ≡ [] → self.new.backlog ≡ self.old.backlog }
        ensures untouched { record.old.out.items ≡ [] → (self.new.state ≡ self.old.state) × (record.new.state ≡ record.old.state) }
        ensures kept { record.old.out.items ≢ [] → is_kept TEXT_ROOM self.old.backlog record.old.out.items ≡ true →
            self.new.backlog ≡ offered TEXT_ROOM self.old.backlog record.old.out.items }
        ensures told { is_kept TEXT_ROOM self.old.backlog record.old.out.items ≡ true →
            (self.new.state ≡ self.old.state) × (record.new.state ≡ record.old.state) }
        ensures ended { record.old.out.items ≢ [] → is_kept TEXT_ROOM self.old.backlog record.old.out.items ≡ false
            → record.new.state ≡ Off }
        ensures broken_off { record.old.out.items ≢ [] → is_kept TEXT_ROOM self.old.backlog record.old.out.items ≡ false →
            is_open self.old.state ≡ true → self.new.state ≡ BrokenOff }
        ensures last { record.old.out.items ≢ [] → is_kept TEXT_ROOM self.old.backlog record.old.out.items ≡ false →
            is_open self.old.state ≡ true → self.new.backlog ≡ ended_within NOTE_ROOM TEXT_ROOM self.old.backlog last.now }
        ensures not_open { is_open self.old.state ≡ false → self.new.state ≡ self.old.state }
        ensures no_last { is_kept TEXT_ROOM self.old.backlog record.old.out.items ≡ false → is_open self.old.state ≡ false →
            self.new.backlog ≡ self.old.backlog }
        ensures out { record.new.out.items ≡ [] }
        ensures rest { self.new ≡ record self.old { backlog = self.new.backlog; state = self.new.state } }
    {
        if record.out.is_empty() {
            return;
        }
        if self.backlog.has_room(record.out.as_slice()) {
            self.backlog.keep(record.out.as_slice());
            record.out.clear();
            return;
        }
        record.end();
        self.break_off(last);
    }

    /// There is no room for what is recorded next: behind what waits it is broken off, with this last line, where it is open.
    pub fn break_off(&mut self, last: &[u8])
        ensures broken_off { is_open self.old.state ≡ true → self.new.state ≡ BrokenOff }
        ensures last { is_open self.old.state ≡ true → self.new.backlog ≡ ended_within NOTE_ROOM TEXT_ROOM self.old.backlog last.now }
        ensures not_open { is_open self.old.state ≡ false → (self.new.state ≡ self.old.state) × (self.new.backlog ≡ self.old.backlog) }
        ensures rest { self.new ≡ record self.old { backlog = self.new.backlog; state = self.new.state } }
    {
        if self.is_open() {
            self.state = OutletState::BrokenOff;
            self.backlog.end(last);
        }
    }

    /// Where memory was refused for a record, what is written of it ends with this last line, and that is a write fault.
    pub fn end_refused(&mut self, record: &Record, last: &[u8])
        ensures not_refused { is_refused record.now.state ≡ false
            → (self.new.state ≡ self.old.state) × (self.new.backlog ≡ self.old.backlog) }
        ensures not_open { is_open self.old.state ≡ false → (self.new.state ≡ self.old.state) × (self.new.backlog ≡ self.old.backlog) }
        ensures fault { is_refused record.now.state ≡ true → is_open self.new.state ≡ false }
        ensures memory { is_refused record.now.state ≡ true → is_open self.old.state ≡ true
            → self.new.state ≡ Failed ErrorKind.OutOfMemory }
        ensures last { is_refused record.now.state ≡ true → is_open self.old.state ≡ true →
            self.new.backlog ≡ ended_within NOTE_ROOM TEXT_ROOM self.old.backlog last.now }
        ensures rest { self.new ≡ record self.old { backlog = self.new.backlog; state = self.new.state } }
    {
        if record.is_refused() && self.is_open() {
            self.state = REFUSED;
            self.backlog.end(last);
        }
    }

    /// Where memory was refused for a log, that is a write fault; a line says so where the log stood, and others may follow.
    pub fn say_refused(&mut self, log: &Record)
        ensures not_refused { is_refused log.now.state ≡ false → (self.new.state ≡ self.old.state) × (self.new.backlog ≡ self.old.backlog) }
        ensures not_open { is_open self.old.state ≡ false → (self.new.state ≡ self.old.state) × (self.new.backlog ≡ self.old.backlog) }
        ensures fault { is_refused log.now.state ≡ true → is_open self.new.state ≡ false }
        ensures memory { is_refused log.now.state ≡ true → is_open self.old.state ≡ true → self.new.state ≡ Failed ErrorKind.OutOfMemory }
        ensures says { Says TEXT_ROOM self.old.backlog self.new.backlog }
        ensures rest { self.new ≡ record self.old { backlog = self.new.backlog; state = self.new.state } }
    {
        if !log.is_refused() || !self.is_open() {
            return;
        }
        self.state = REFUSED;
        if let Ok(line) = self.fault_line() {
            self.say(line.as_bytes());
        }
    }

    // Writes what is taken at once: whether more may be.
    fn write(&mut self) -> bool {
        let came = self.stream.take(self.backlog.waiting());
        match came {
            Ok(count) => {
                self.backlog.pass(count);
                count > 0
            }
            Err(fault) => {
                self.fail(fault.kind());
                false
            }
        }
    }

    /// Writes of what waits as much as is taken at once; the rest goes on waiting.
    pub fn offer(&mut self) {
        for _ in 0..MOST_WRITES {
            if self.is_taken() || !self.write() {
                return;
            }
        }
    }

    /// What waits is given up.
    pub fn give_up(&mut self)
        ensures backlog { self.new.backlog ≡ given_up self.old.backlog }
        ensures state { self.new.state ≡ state_given_up self.old.state self.old.backlog }
        ensures rest { self.new ≡ record self.old { backlog = self.new.backlog; state = self.new.state } }
    {
        if !self.is_taken() {
            self.state = OutletState::BrokenOff;
            self.backlog.close();
        }
    }

    // What is told of it where it isn't open any more.
    fn fault_line(&self) -> Result<String, AllocError> {
        let name = self.name.as_str();
        match self.state {
            OutletState::Failed { kind } => {
                let reason = reason_of(kind);
                format!(in self.alloc; "{name}: write fault{reason}\n")
            }
            _ => format!(in self.alloc; "{name}: broken off, nobody took it\n"),
        }
    }

    /// Says by another outlet why this one isn't open any more, where that wasn't said yet.
    pub fn tell_fault(&mut self, error: &mut Outlet<F>) {
        if self.is_open() || self.is_told {
            return;
        }
        if let Ok(line) = self.fault_line() {
            self.is_told = error.say(line.as_bytes());
        }
    }
}
