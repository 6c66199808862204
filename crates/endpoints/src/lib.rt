//! All endpoints of a gateway, and its own post: their store, and what comes to several of them.
//!
//! What comes to one line or to several is brought to their endpoints here; what is done on each is said in `rules`. The store
//! knows what falls due first, and where an event failed, it is again what that found.
#![tactic(auto)]

mod due_table;
mod falling;
mod giving_up;
mod opening;
mod reporting;
mod requesting;
mod responding;
mod rules;
mod saves;
mod store;
mod timed;

pub use crate::falling::{is_due, pass};
pub use crate::opening::{judged, key_at_fault, opening_list, opening_own};
pub use crate::reporting::{answer_to_audit, name_alone};
pub use crate::requesting::{deed_on_all, line_with_place, refused_by};
pub use crate::responding::respond;
pub use crate::rules::{Context, Occasion, acted_on, answer_with, send};
pub use crate::store::Store;
