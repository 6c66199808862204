//! Transactions over UDP, as both ends have them (RFC 3435, 3.5): the messages of a datagram, what each is heard as, which command is
//! executed and which is a repeat ("at most once"), what a K confirms, acknowledgements, and messages packed into datagrams.
//!
//! `History` keeps of all that arrived what it takes to tell the same: new transactions, their answers, and confirmations, in their order.
//! `specs/` says it of the whole list of what arrived; `history_laws` joins the two, and the examples have the definitions at work.
//!
//! It knows no command, no clock and no socket: the owner says what time it is, and sends. The gateway (`plain_machine`, `gateway_core`) and the
//! call agent (`call_agent`) stand on it.
#![tactic(auto)]

mod acknowledging;
mod confirming;
mod entry;
pub mod examples;
mod hearing;
mod history;
pub mod history_examples;
pub mod history_laws;
pub mod laws;
mod look;
mod output;
mod packing;
mod recall;
mod sending;
mod span;
mod spots;
mod transacting;

pub use crate::acknowledging::acknowledge;
pub use crate::confirming::spans_of;
pub use crate::entry::{Entry, KeptFirst};
pub use crate::hearing::{hear, texts};
pub use crate::history::History;
pub use crate::look::Look;
pub use crate::output::{OutDatagram, Outputs};
pub use crate::packing::{packed, same_address};
pub use crate::recall::MOST_FIRSTS;
pub use crate::sending::send;
pub use crate::span::IdSpan;
pub use crate::transacting::{Origin, admit, answer, keep_answer};

/// The largest datagram that is taken, in bytes (RFC 3435, 3.5.4).
pub const LARGEST_DATAGRAM: usize = 4000;

/// The most texts that it has: between two texts stands a line that is a single dot, which takes two bytes (RFC 3435, 3.5.5).
pub const MOST_TEXTS: usize = LARGEST_DATAGRAM / 2 + 1;
