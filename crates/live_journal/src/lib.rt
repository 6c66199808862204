//! What is kept and told of a gateway on a live network: its counts, its trace, the log for people, a capture, and what the page is shown.
//! It opens no socket and no file; whoever serves tells it what goes over the wire, and gives it outlets for what it has put.
#![tactic(auto)]

mod capture;
pub mod examples;
mod journal;
mod recording;
mod trace;

pub use crate::capture::Capture;
pub use crate::journal::Journal;
pub use crate::recording::{Recorder, report_with};
pub use crate::trace::Trace;
