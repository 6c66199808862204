//! What a call agent tells of its conversation, and of the calls that it routes: lines on standard output, a log, a capture, and
//! counts. Nothing here writes a file or reads a clock; whoever has these writes what was put together, and says what time it is.
#![tactic(auto)]

pub mod examples;
mod journal;
mod noting;
mod refusals;
mod standing;
mod station;
mod tally;
mod text;

pub use crate::journal::Journal;
pub use crate::refusals::{Refusals, refusals_of, tell_refusals};
pub use crate::standing::{Standing, standing_of, tell_change};
pub use crate::station::Station;
pub use crate::tally::{Tally, count};
