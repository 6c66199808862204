//! Laws of one gateway, as the plain machine has it (RFC 3435): what it keeps of transactions and does with each command, which number a
//! command gets, what a line has in flight, where announcements are, how many connections a line has, and what falls due in which order.
//! And lines are isolated (2.1.1): what goes on at one line of the gateway is no matter of another.
//!
//! Nothing here runs: each law is a function without a body, whose clauses are proved for every setup, every machine and every list of
//! events. No program stands on this crate. `specs/` has the few words that the laws need beside the plain machine's own.
#![tactic(auto)]

pub mod announcement_laws;
pub mod connection_laws;
pub mod examples;
pub mod flight_laws;
pub mod isolation_examples;
pub mod isolation_laws;
pub mod laws;
