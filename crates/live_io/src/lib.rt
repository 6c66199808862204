//! What a program on a live network stands on: a socket for datagrams, another for lines of who types, a clock and a wait, and what its
//! trace is told.
//!
//! A program's loop is written over it, so that it runs on the machine's sockets and clock, and in memory, by a script, just so.
#![tactic(auto)]

mod arrivals;
pub mod examples;
pub mod hearing_examples;
mod keeping;
mod lines;
mod requests;
mod scripted;
mod speaking;
pub mod speaking_examples;
mod surroundings;
mod telling;
pub mod waiting_examples;

pub use crate::keeping::{SentDatagram, keep};
pub use crate::lines::Lines;
pub use crate::requests::is_own;
pub use crate::scripted::{Answer, Coming, Happening, Scripted};
pub use crate::speaking::{Network, Speakers};
pub use crate::surroundings::{Fault, Surroundings, Told};
pub use crate::telling::Teller;
