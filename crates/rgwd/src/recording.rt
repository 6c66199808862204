//! What a gateway's records go to: its outlets, and the files of its capture, of which the next is made where one is full.
use live_journal::{Capture, Journal, Recorder, Trace};
use live_system::{CaptureFiles, DayWatch};
use output_queues::{Finisher, Outlet, Outlets, Written};
use std::cell::Cell;
use std::io::Write;
use std::rc::Rc;
use std::rt::{Clock, Files};

/// The outlets of a program, the files of its gateway's capture, where that is parted, and what makes these; and where its log notes that the
/// time of day was set.
#[derive(Drop)]
pub struct Recording<R: Files> {
    pub rt: R,
    pub outlets: Outlets<R::File>,
    pub files: Option<Box<CaptureFiles>>,
    pub days: DayWatch,
    /// Whether no visitor of the page is let in for want of files, and whether that is said.
    pub is_full: Rc<Cell<bool>>,
    pub is_full_said: bool,
}

// That no visitor of the page is let in is said once, until one is let in again.
fn say_full<F: Write + Drop>(error: &mut Outlet<F>, is_full: bool, is_said: &mut bool) {
    if is_full && !*is_said {
        error.say(b"page: nobody is let in: too many open files\n");
    }
    *is_said = is_full;
}

// What a turn has put goes into the next file, where the one that is written is full, and has taken all that was put before; where that
// can't be made the capture has failed.
fn turn_over<R: Files>(
    rt: &R,
    files: &mut CaptureFiles,
    outlets: &mut Outlets<R::File>,
    captured: &mut Capture,
) {
    let more = captured.record.out.len();
    let is_taken = match &outlets.capture {
        Some(capture) => capture.is_taken(),
        None => true,
    };
    if more > 0 && files.is_full(more) && is_taken {
        match files.next(rt) {
            Ok(outlet) => {
                outlets.capture = Some(outlet);
                captured.begin_file();
            }
            Err(kind) => {
                if let Some(capture) = &mut outlets.capture {
                    if let Ok(name) = files.file() {
                        capture.name = name;
                    }
                    capture.refuse(kind);
                }
            }
        }
    }
    files.put(captured.record.out.len());
}

impl<R: Files + Clock> Recorder<Trace> for Recording<R> {
    ghost use Rattle.std.specs.Prelude.{◌≡◌, ◌&&◌, [], not};
    ghost use Rattle.mg_bytes.specs.Lists.{is_empty};
    ghost use Rattle.live_journal.specs.Writing.{KeepsLog, IsWritten};

    ghost writer = { record {
      writes = λ was journal trace time is left told. KeepsLog journal.log.value left.log.value
          × (told.record.out.items ≡ []) × IsWritten is.outlets left.written;
      offers = λ recording waits. waits ≡ not (is_empty recording.outlets.output.value.backlog.waiting
          && is_empty recording.outlets.error.value.backlog.waiting);
    } };

    fn write(&mut self, journal: &mut Journal, trace: &mut Trace, time: u64) {
        if let Some(files) = &mut self.files {
            turn_over(&self.rt, files, &mut self.outlets, &mut journal.capture);
        }
        let log = &journal.log;
        if let Some(line) = self.days.line(&self.rt, log.alloc, &log.record) {
            self.outlets.error.say(line.as_slice());
        }
        let is_full = self.is_full.get();
        say_full(&mut self.outlets.error, is_full, &mut self.is_full_said);
        journal.write(trace, &mut self.outlets, time);
    }

    fn is_offering(&self) -> bool {
        !self.outlets.are_taken()
    }
}

impl<R: Files> Finisher for Recording<R> {
    ghost use Rattle.std.specs.Prelude.{⊤};

    ghost ends = { λ last was written is. ⊤ };

    fn end_with<C: Clock>(&mut self, rt: &C, last: &[u8], moment: u64) -> Written {
        self.outlets.end_with(rt, last, moment)
    }
}
