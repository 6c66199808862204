//! What comes of a replay.
use std::alloc::AllocError;
use std::io::ErrorKind;

/// What a replay finds.
#[derive(Drop)]
pub enum Verdict {
    /// Each line that went out is what the gateway sends for the lines before it; there are so many.
    AsTold {
        lines: u64,
    },
    /// The line with this number, counted from 1, is the first that isn't: how the trace tells it, and what the gateway sends there,
    /// which is empty where it sends nothing.
    Differs {
        line: u64,
        told: Vec<u8>,
        sent: Vec<u8>,
    },
    /// No trace has the line with this number where it stands, or it broke off there.
    Broken {
        line: u64,
    },
}

/// Why nothing is found.
#[derive(Clone, Copy)]
pub enum ReplayFault {
    /// Memory was refused.
    OutOfMemory,
    /// The trace can't be read, as the system says.
    Read { kind: ErrorKind },
}

impl From<AllocError> for ReplayFault {
    fn from(_refused: AllocError) -> ReplayFault {
        ReplayFault::OutOfMemory
    }
}
