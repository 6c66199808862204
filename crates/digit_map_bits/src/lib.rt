//! Matchers of digit maps (RFC 3435, 2.1.5): one keeps a bit for each place of its map, so that what a letter costs doesn't grow
//! with the letters before it; another walks its map anew for each letter.
//!
//! What its calls promise stands in `digit_map`, at `Matcher`, and speaks of the words of the map alone. `specs/` says
//! what is kept. It is nothing that a caller has to believe: of that the contracts say that letters lead from one state
//! to the next, and the promises are proved from it.
#![tactic(auto)]

mod block;
mod compiled;
mod dialling;
pub mod laws;
mod plan;
mod slow;

pub use crate::compiled::Compiled;
pub use crate::dialling::Dialling;
pub use crate::slow::SlowMap;
