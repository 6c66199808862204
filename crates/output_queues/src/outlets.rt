//! The outlets of a program: standard output, standard error, and the file of a capture.
ghost use Rattle.std.specs.Prelude.{◌≡◌, ◌&&◌, IfSome, IfNone};
ghost use Rattle.mg_bytes.specs.Lists.{is_empty};
ghost use Rattle.output_queues.specs.Backlog.{sum_within};
ghost use Rattle.output_queues.specs.Recording.{faults_of, offer_left};

use crate::outlet::Outlet;
use crate::stream::{Stream, wait_for_streams};
use crate::written::Written;
use std::alloc::{AllocError, Global};
use std::io::Write;
use std::os::fd::AsRawFd;
use std::rt::{Clock, Files};
use std::time::Instant;

// So long what waits is offered at an end, in ms.
const LONGEST_OFFER: u64 = 1000;

/// What waits is offered again after so long, in ms, where nothing else comes.
pub const NEXT_OFFER: u64 = 20;

/// The outlets of a program. Each stands in a box: a check pays for all that a value holds inline at each step of a function that is lent
/// it.
#[derive(Drop)]
pub struct Outlets<F> {
    pub output: Box<Outlet<F>>,
    pub error: Box<Outlet<F>>,
    /// Where one is asked for, once it is made.
    pub capture: Option<Box<Outlet<F>>>,
}

// How long it is still offered after so long, in ms.
fn offer_left(passed: u64) -> u64
    ensures { result ≡ offer_left passed }
{
    LONGEST_OFFER.saturating_sub(passed)
}

// How long it is still offered, in ms; no longer where the clock has failed.
fn time_left<R: Clock>(rt: &R, start: Instant) -> u64 {
    match start.elapsed(rt) {
        Ok(passed) => {
            let passed = u64::try_from(passed.as_millis()).unwrap_or(u64::MAX);
            offer_left(passed)
        }
        Err(_) => 0,
    }
}

impl<F: Write + Drop> Outlets<F> {
    /// Standard output and standard error. The only error is want of memory.
    pub fn open<R: Files<File = F>>(rt: &R, alloc: Global) -> Result<Outlets<F>, AllocError>
    where
        F: AsRawFd,
    {
        Ok(Outlets {
            output: Outlet::new(alloc, "standard output", Stream::output(rt))?,
            error: Outlet::new(alloc, "standard error", Stream::error(rt))?,
            capture: None,
        })
    }

    /// Writes of what waits as much as is taken at once, and says on standard error where that failed.
    pub fn offer(&mut self) {
        self.output.offer();
        self.output.tell_fault(&mut self.error);
        if let Some(capture) = &mut self.capture {
            capture.offer();
            capture.tell_fault(&mut self.error);
        }
        self.error.offer();
    }

    /// What became of what was recorded so far.
    pub fn written(&self) -> Written
        ensures dropped { result.dropped ≡ sum_within self.now.output.value.backlog.dropped self.now.error.value.backlog.dropped }
        ensures output { result.output ≡ faults_of self.now.output.value.state }
        ensures error { result.error ≡ faults_of self.now.error.value.state }
        ensures capture { IfSome self.now.capture (λ capture. result.capture ≡ faults_of capture.value.state) }
        ensures no_capture { IfNone self.now.capture (result.capture ≡ 0) }
    {
        Written {
            dropped: self.output.dropped().saturating_add(self.error.dropped()),
            output: self.output.faults(),
            error: self.error.faults(),
            capture: match &self.capture {
                Some(capture) => capture.faults(),
                None => 0,
            },
        }
    }

    /// Whether nothing waits to be taken.
    pub fn are_taken(&self) -> bool
        ensures { result ≡ (is_empty self.now.output.value.backlog.waiting && is_empty self.now.error.value.backlog.waiting) }
    {
        self.output.is_taken() && self.error.is_taken()
    }

    // Offers what waits, notes lines that weren't kept, and says these last words, once there is room for them: whether they are said.
    fn offer_last(&mut self, last: &[u8], moment: u64) -> bool {
        self.offer();
        self.output.note_dropped(moment);
        self.error.note_dropped(moment);
        let is_said = self.error.say(last);
        self.offer();
        is_said
    }

    // What wasn't taken is given up, and that is said.
    fn give_up(&mut self) {
        self.output.give_up();
        self.output.tell_fault(&mut self.error);
        self.error.offer();
        self.error.give_up();
    }

    /// Offers what waits, and behind it these last words, on standard error, until all is taken, but no longer than a second; what isn't
    /// taken then is given up. The moment is in microseconds since 1970.
    pub fn finish<R: Clock>(&mut self, rt: &R, last: &[u8], moment: u64) {
        let start = Instant::now(rt).ok();
        let mut left_to_say = last;
        for _ in 0..u16::MAX {
            if self.offer_last(left_to_say, moment) || !self.error.is_open() {
                left_to_say = b"";
            }
            let left = match start {
                Some(start) => time_left(rt, start),
                None => 0,
            };
            if left == 0 || (left_to_say.is_empty() && self.are_taken()) {
                break;
            }
            wait_for_streams(!self.output.is_taken(), !self.error.is_taken(), left);
        }
        self.give_up();
    }
}
