//! Where what was recorded is written.
ghost use Rattle.std.specs.Prelude.{◌≡◌, ◌&&◌, not};
ghost use Rattle.mg_bytes.specs.Lists.{is_empty};

use agent_log::Journal;
use live_system::DayWatch;
use output_queues::{Finisher, Outlets, Written};
use std::alloc::Global;
use std::rt::{Clock, Files};

/// Where what was recorded is written. What it makes of that is its own; that it was told to is said.
pub trait Recorder {
    ghost use Rattle.std.specs.Prelude.{⊤, ℕ};
    ghost use Rattle.agent_log.specs.declared.journal.Journal.{Journal};

    /// It was told once to write what was recorded, at a moment: that left this of it.
    ghost writes: { Self → Journal → ℕ → Self → Journal → Type 0 } = { λ was journal time is left. ⊤ };

    /// Keeps what was recorded at a turn, at this moment, in microseconds since 1970, and writes as much of what is kept as is taken
    /// at once. That counts nothing, and what was counted stays.
    fn write(&mut self, journal: &mut Journal, time: u64)
        ensures kept { journal.new.tally ≡ journal.old.tally }
        ensures wrote { writes self.old journal.old time self.new journal.new };

    /// Whether something waits to be taken: so it is offered again soon, whether anything comes or not.
    fn is_offering(&self) -> bool;
}

/// The outlets of a program, and where its log notes that the time of day was set.
#[derive(Drop)]
pub(crate) struct Recording<'a, R: Files> {
    pub rt: &'a R,
    pub alloc: Global,
    pub outlets: &'a mut Outlets<R::File>,
    pub days: DayWatch,
}

impl<'a, R: Files + Clock> Recorder for Recording<'a, R> {
    fn write(&mut self, journal: &mut Journal, time: u64) {
        if let Some(line) = self.days.line(self.rt, self.alloc, &journal.log) {
            self.outlets.error.say(line.as_slice());
        }
        journal.write(self.outlets, time);
    }

    fn is_offering(&self) -> bool
        ensures { result ≡ not (is_empty self.now.outlets.now.output.value.backlog.waiting
            && is_empty self.now.outlets.now.error.value.backlog.waiting) }
    {
        !self.outlets.are_taken()
    }
}

impl<'a, R: Files> Finisher for Recording<'a, R> {
    ghost use Rattle.std.specs.Prelude.{⊤};

    ghost ends = { λ last was written is. ⊤ };

    fn end_with<C: Clock>(&mut self, rt: &C, last: &[u8], moment: u64) -> Written {
        self.outlets.end_with(rt, last, moment)
    }
}
