//! Traces of a gateway: what they have of what it sends and answers, and how one is replayed; and what a gateway draws at its start, which
//! begins a trace: with which number its ids begin, and how long it waits.
//!
//! A trace is a configuration, a line `%%`, and lines: what came in, as a script has it, and after `| ` what went out, without its time. Who
//! writes a trace and who replays one put what went out alike, here. It is read a line at a time, so it may have any length.
//!
//! It reads no clock and no file: whoever starts says what time of day it is, and who replays gives a reader. Nothing that a crate above can
//! name has a gateway in it: a check loads all of what it has. `rgwd` stands on it.
#![tactic(auto)]

pub mod examples;
mod first_number;
mod head;
pub mod laws;
mod replaying;
mod reporting;
mod script;
pub mod start_examples;
mod steps;
mod telling;
mod verdict;
mod waiting;
mod wording;

pub use crate::first_number::FirstNumber;
pub use crate::reporting::replay;
pub use crate::script::Script;
pub use crate::telling::{Mark, broken_off_line, put_first, put_mark};
pub use crate::verdict::{ReplayFault, Verdict};
pub use crate::waiting::{LONGEST_SPREAD, spread_in, waited};
pub use crate::wording::put_verdict;
