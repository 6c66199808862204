//! What comes next of a program that waits for several sources: an exact function of what is ready and of the clock.
//!
//! It opens no socket, reads no clock and takes no memory: who asks says how things stand, and does the one turn that is answered. So
//! no source holds up another, and what came while the program was stopped is read before its clock goes on.
#![tactic(auto)]

mod circle;
pub mod examples;
pub mod laws;
mod schedule;
mod situation;
mod turn;

pub use crate::circle::{Ready, Source};
pub use crate::schedule::Schedule;
pub use crate::situation::{LONGEST_TICK, Situation, earlier};
pub use crate::turn::{Pause, Turn};
