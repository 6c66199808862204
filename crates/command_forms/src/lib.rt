//! What a command asks for, by its verb, its name, its parameters and its description, or the return code of its first
//! fault (RFC 3435, 2.3, 2.4 and 3.2.2).
//!
//! The checks stand in one order, which is this gateway's profile, and the first that applies gives the code: `meant`
//! judges the verb and the name, `asked` the rest, and `form` is one behind the other. `form_while` is the same of a
//! gateway that may not serve yet, and then takes audits alone. Each check says its return code and what it looks at: for
//! people `explained` says what of a refused command is at fault, and `explain` puts it into words. Nothing here knows a
//! line: what a line refuses is judged above. Only a deed and the words for people take memory.
#![tactic(auto)]

pub mod audit_examples;
mod boxed_deed;
pub mod checking_examples;
pub mod code_examples;
pub mod connection_examples;
mod deeds;
pub mod examples;
pub mod explaining_examples;
mod forms;
pub mod laws;
mod meaning;
mod params;
mod reading;
mod refused;
pub mod restart_examples;
mod values;
mod verbs;

pub use crate::boxed_deed::BoxedDeed;
pub use crate::forms::{Asks, Audit, AuditTarget, ConnectionDeed, Deed, Target};
pub use crate::meaning::meant;
pub use crate::reading::{asked, explained, form, form_while, judged_while};
pub use crate::refused::{FaultyPart, Refused, Stop, explain};
pub use crate::verbs::Meant;
