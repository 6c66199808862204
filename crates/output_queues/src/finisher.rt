//! Who writes what was recorded to its end.
ghost use Rattle.std.specs.Prelude.{◌≡◌, ℕ, List};

use crate::outlets::Outlets;
use crate::written::Written;
use std::io::Write;
use std::rt::Clock;

/// Who writes what was recorded to its end. What it does where it is told to is its own; that it was told is said.
pub trait Finisher {
    ghost use Rattle.output_queues.specs.declared.written.Written.{Written};

    /// It was told once to end, with these last words, and this became of what was recorded.
    ghost ends: { List ℕ → Self → Written → Self → Type 0 };

    /// Writes what waits, and behind it these last words, which are what was counted, for as long as that is waited for at an end: what
    /// became of what was recorded. The moment is in microseconds since 1970.
    fn end_with<R: Clock>(&mut self, rt: &R, last: &[u8], moment: u64) -> Written
        ensures ended { ends last.now self.old result self.new };
}

impl<F: Write + Drop> Finisher for Outlets<F> {
    ghost use Rattle.std.specs.Prelude.{⊤};

    ghost ends = { λ last was written is. ⊤ };

    fn end_with<R: Clock>(&mut self, rt: &R, last: &[u8], moment: u64) -> Written {
        self.finish(rt, last, moment);
        self.written()
    }
}
