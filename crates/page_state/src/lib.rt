//! What the page of a gateway is shown, and asks to be done: what happened of late, with its labels, and acts that wait; and the counts, with
//! the metrics that Prometheus reads.
//!
//! The state holds a fixed number of entries, and tells readers by numbers how far they are. Where memory is refused something is left out,
//! and counted. It touches values alone. `rgwd`'s loop writes it; `page_http` and `page_server` read it.
#![tactic(auto)]

mod act;
mod board;
pub mod board_examples;
mod counts;
mod families;
mod label;
mod metrics;
pub mod metrics_examples;
mod picture;
mod ring;

pub use crate::act::{QueuedAct, act_named};
pub use crate::board::Board;
pub use crate::counts::{CodeCount, Counts, FileCount, PLACES, VerbCount, verb_word};
pub use crate::label::{MessageKind, MessageLabel};
pub use crate::metrics::{code_digits, metrics_text};
pub use crate::picture::{ConnectionView, LineView, Picture, SignalView};
pub use crate::ring::{Happening, Kind, Ring};
