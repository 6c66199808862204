//! The packages L (line), G (generic) and D (DTMF), as far as this gateway has them (RFC 3660, 2.5, 2.1 and 2.2): their events and signals, and
//! what the tables say of each; and the values of S, Q and O (RFC 3435, 3.2.2): signals that are asked for, how quarantined events are handled,
//! and the events of a notification.
//!
//! A new event or signal is a row of `specs/Tables` and a variant. A value is cut at the commas and parentheses that stand outside of others,
//! those of R and T too, so nothing recurses on the rest of a text; its spelling is judged as a whole, and then it is read entry by entry.
//! Names are read in any case. Only reading O takes memory.
//!
//! It touches texts alone. Requests (`event_syntax`, `events_and_signals`), lines (`mg_line`), timers and both ends stand on it.
#![tactic(auto)]

mod cut;
pub mod cut_examples;
pub mod cut_laws;
mod event;
mod form;
mod handling;
mod hook;
mod naming;
mod observed;
mod package;
pub mod package_examples;
pub mod package_laws;
mod signal;
mod signal_spelling;
mod signals;
mod spelling;
pub mod value_examples;
pub mod value_laws;

pub use crate::cut::{deeper, entries, items};
pub use crate::event::{LineEvent, completion_of, event_name, is_persistent};
pub use crate::form::{Inside, form_of};
pub use crate::handling::{Handling, Notifying, Quarantined, read_handling, write_handling};
pub use crate::hook::Hook;
pub use crate::naming::{event_in, event_of, signal_of};
pub use crate::observed::{Observed, read_observed, write_observed};
pub use crate::package::{Package, in_package};
pub use crate::signal::{Kind, SIGNALS, Signal, kind_of, refused_in, signal_name, time_of};
pub use crate::signal_spelling::are_signals;
pub use crate::signals::{
    Setting, SignalRequest, SignalRequests, read_signals, signals_in, write_signals,
};
pub use crate::spelling::{are_parameters, has_at_most, is_name, is_word, with_parameters};
