//! The values of parameters that name events and signals (RFC 3435, 3.2.2): R and T, and with them S, Q and O, which
//! `packages` reads.
//!
//! The spelling of a value is judged as a whole, and then it is read entry by entry. Reading T takes no memory.
#![tactic(auto)]

mod detect;
mod embedded;
pub mod event_examples;
pub mod event_laws;
mod event_spelling;
mod events;
mod range;
mod request;
pub mod request_examples;
pub mod request_laws;
mod request_writing;
mod requested;
mod rule;
mod walk;

pub use crate::detect::{DetectedEvents, MOST_EVENTS, read_detect, write_detect};
pub use crate::events::Events;
pub use crate::request::{
    Action, EmbeddedEvent, EmbeddedEvents, EmbeddedRequest, Embedding, Reaction, RequestedEvent,
    RequestedEvents,
};
pub use crate::request_writing::{write_embedded_events, write_events};
pub use crate::requested::read_events;
pub use packages::{
    Handling, Notifying, Observed, Quarantined, Setting, SignalRequest, SignalRequests,
    read_handling, read_observed, read_signals, write_handling, write_observed, write_signals,
};
