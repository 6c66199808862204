//! What falls due of a gateway and its lines, when, and what of it falls due first (RFC 3435, 2.1.5, 2.1.7, 3.5.3 and
//! 4.4.6).
//!
//! Nothing here knows a clock, or what happens when something falls due: the owner sets and clears moments, and asks
//! for the least.
#![tactic(auto)]

mod due;
mod due_item;
pub mod examples;
mod kind;
pub mod laws;
mod winners;

pub use crate::due::Due;
pub use crate::due_item::{DueItem, comes_before, earlier};
pub use crate::kind::{DueKind, LineDue};
