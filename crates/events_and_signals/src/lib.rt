//! What a line has of events and signals: the request in force and what is done at an event by its R and T (RFC 3435, 2.3.3 and 4.4.1), the
//! active signals with their ends (2.1.7), and the quarantine, which keeps events while the line can't process them (4.4.1).
//!
//! What was read is shared: a copy of a request takes no list anew. Deciding takes no memory, nor do signals; the quarantine has its room
//! once. `specs/` says what becomes of each signal by itself, and what is held; the laws say it once more by what follows.
//!
//! It knows no line, no clock and no message: `mg_line` owns these values, says what time it is, and does what is decided.
#![tactic(auto)]

mod active;
mod buffer;
mod choice;
mod decision;
mod due;
mod embedded;
mod event_request;
mod maps;
mod naming;
pub mod quarantine_examples;
pub mod quarantine_laws;
mod request;
pub mod request_examples;
pub mod request_laws;
mod set;
pub mod signal_examples;
pub mod signal_laws;
mod signal_request;
mod slot;
mod source;

pub use crate::active::ActiveSignal;
pub use crate::buffer::Buffer;
pub use crate::decision::{Decision, Doing};
pub use crate::event_request::{EventRequest, decide};
pub use crate::request::Request;
pub use crate::set::SignalSet;
pub use crate::signal_request::refused;
