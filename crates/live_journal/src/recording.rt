//! What was recorded is kept for its outlets, and written as far as these take it; and what is told of that, and of what was counted.
ghost use Rattle.std.specs.Prelude.{◌≡◌, [], false, true, IfOk, IfSome};
ghost use Rattle.output_queues.specs.Backlog.{room_left};
ghost use Rattle.output_queues.specs.Recording.{is_open, is_refused};
ghost use Rattle.live_io.specs.Sending.{Grows};
ghost use Rattle.live_journal.specs.Reporting.{counts_with};
ghost use Rattle.live_journal.specs.Writing.{IsKept, IsKeptFor, KeepsLog, KeepsCapture, IsWritten};

use crate::journal::Journal;
use crate::trace::Trace;
use live_io::Teller;
use message_counts::{Faults, report_text};
use output_queues::{Outlet, Outlets, Record, TEXT_ROOM};
use std::alloc::{AllocError, Global};
use std::io::Write;

/// Where what was recorded is written. What it makes of that is its own; that it was told to write it is said.
pub trait Recorder<T: Teller> {
    ghost use Rattle.live_journal.specs.Writing.{WriterBy, any_writer};

    /// All that it can be held to.
    ghost writer: { WriterBy Self T } = { any_writer };

    /// Keeps what was recorded at a turn, at this moment, in microseconds since 1970, and writes of what is kept as much as is taken. What
    /// was counted stays, and what the page is shown.
    fn write(&mut self, journal: &mut Journal, trace: &mut T, time: u64)
        ensures told { Grows (T.told trace.old) [] (T.told trace.new) }
        ensures kept { (journal.new.tally ≡ journal.old.tally) × (journal.new.board ≡ journal.old.board) }
        ensures wrote { writer.writes self.old journal.old trace.old time self.new journal.new trace.new };

    /// Whether something waits to be taken: so it is offered again soon, whether anything comes or not.
    fn is_offering(&self) -> bool
        ensures { writer.offers self.now result };
}

// What the log says is kept for standard error, or that memory was refused for it.
fn keep_log<F: Write + Drop>(error: &mut Outlet<F>, log: &mut Record, time: u64)
    ensures kept { IsKept log.old log.new }
    ensures refused { is_refused log.old.state ≡ true → is_open error.new.state ≡ false }
{
    error.keep_log(log, time);
    error.say_refused(log);
}

// What is captured is kept for its file, where there is one, which ends where memory was refused for that.
fn keep_capture<F: Write + Drop>(file: &mut Option<Box<Outlet<F>>>, capture: &mut Record)
    ensures kept { IsKeptFor file.old capture.old capture.new }
    ensures refused { is_refused capture.old.state ≡ true → capture.old.out.items ≡ []
        → IfSome file.new (λ file. is_open file.value.state ≡ false) }
{
    if let Some(file) = file {
        file.keep_whole(capture, b"");
        file.end_refused(capture, b"");
    }
}

impl Journal {
    /// Keeps what was recorded since this was called last, at this moment, in microseconds since 1970, and writes what is taken at once. To
    /// be called when a turn is over: what the trace was told at it had its place already, and gets room for the next.
    pub fn write<F: Write + Drop>(&mut self, trace: &mut Trace, outlets: &mut Outlets<F>, time: u64)
        ensures room { trace.new.room ≡ room_left TEXT_ROOM outlets.new.output.value.backlog }
        ensures trace { trace.new.record.out.items ≡ [] }
        ensures log { KeepsLog self.old.log.value self.new.log.value }
        ensures capture { KeepsCapture outlets.old.capture self.old.capture.value self.new.capture.value }
        ensures written { IsWritten outlets.new self.new.written }
        ensures rest { (self.new.tally ≡ self.old.tally) × (self.new.board ≡ self.old.board) }
    {
        trace.keep(&mut outlets.output);
        keep_log(&mut outlets.error, &mut self.log.record, time);
        keep_capture(&mut outlets.capture, &mut self.capture.record);
        outlets.offer();
        trace.give_room(outlets.output.room_left());
        self.written = outlets.written();
    }
}

/// The counts as text, where so many events of all lines were lost. Its only error is want of memory.
pub fn report_with(
    alloc: Global,
    journal: &Journal,
    lost: u64,
    faults: Faults,
) -> Result<Vec<u8>, AllocError>
    ensures { IfOk result (λ text. text.items ≡ counts_with journal.now lost faults) }
{
    let mut text = report_text(alloc, &journal.tally, lost, faults)?;
    let capture = journal.capture.name.as_bytes();
    journal.written.put_line(alloc, &mut text, capture)?;
    Ok(text)
}
