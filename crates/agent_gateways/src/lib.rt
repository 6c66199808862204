//! The gateways that a call agent works with, and their lines.
//!
//! Each gateway has an agent (`gateway`), which issues what is typed for it (`typed`, `orders`), and what call processing orders where calls
//! are routed between the lines of all gateways (`line_control`). What is in flight is kept as its agent keeps it (`flight`, `own_copy`), so
//! it is known which line an answer is of, and what was given up. What lines tell is taken, each event once (`taking`). All of them are a
//! board (`switchboard`), which hears what comes (`hearing`), and issues what is due (`issuing`).
//!
//! It has neither a socket nor a clock: who has these says what came and what time it is, and sends what is to be sent. That is the loop, in
//! `live_agent`, which stands on it.
#![tactic(auto)]

mod announcing;
mod dialling;
pub mod examples;
mod flight;
mod gateway;
mod hearing;
pub mod hearing_examples;
mod issuing;
mod naming;
mod orders;
mod own_copy;
pub mod step_examples;
mod switchboard;
mod taking;
mod typed;

pub use crate::switchboard::Switchboard;
pub use crate::typed::{TypedFault, typed_text};
