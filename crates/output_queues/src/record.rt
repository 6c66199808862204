//! What is put together while a turn goes on, to be kept for an outlet when it is over.
ghost use Rattle.std.specs.Prelude.{◌≡◌, []};
ghost use Rattle.output_queues.specs.declared.record.RecordState.TheVariants.{Off, OutOfMemory};
ghost use Rattle.output_queues.specs.Recording.{state_when, is_told, is_refused};

use std::alloc::Global;

/// How it stands with a record.
#[derive(Clone, Copy)]
pub enum RecordState {
    /// Nothing is told.
    Off,
    /// All is told.
    On,
    /// Memory was refused; nothing is told from then on.
    OutOfMemory,
}

/// A record, as the trace, the log or a capture.
#[derive(Drop)]
pub struct Record {
    state: RecordState,
    /// What was put together, and isn't kept yet.
    pub out: Vec<u8>,
}

impl Record {
    /// A record that has nothing yet.
    pub fn new(alloc: Global, is_on: bool) -> Record
        ensures state { result.state ≡ state_when is_on }
        ensures out { result.out.items ≡ [] }
    {
        let state = if is_on {
            RecordState::On
        } else {
            RecordState::Off
        };
        Record {
            state,
            out: Vec::new(alloc),
        }
    }

    /// How it stands.
    pub fn state(&self) -> RecordState
        ensures { result ≡ self.now.state }
    {
        self.state
    }

    /// Whether it is told all.
    pub fn is_on(&self) -> bool
        ensures { result ≡ is_told self.now.state }
    {
        matches!(self.state, RecordState::On)
    }

    /// Whether memory was refused for it.
    pub fn is_refused(&self) -> bool
        ensures { result ≡ is_refused self.now.state }
    {
        matches!(self.state, RecordState::OutOfMemory)
    }

    /// Memory was refused: nothing is told from then on.
    pub fn refuse(&mut self)
        ensures state { self.new.state ≡ OutOfMemory }
        ensures out { self.new.out.items ≡ [] }
    {
        self.state = RecordState::OutOfMemory;
        self.out.clear();
    }

    /// Nothing is told from then on.
    pub fn end(&mut self)
        ensures state { self.new.state ≡ Off }
        ensures out { self.new.out.items ≡ [] }
    {
        self.state = RecordState::Off;
        self.out.clear();
    }
}
