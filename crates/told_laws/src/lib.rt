//! What a line tells of what was done at its telephone, whatever is asked of it (RFC 3435, 2.3.3 and 4.4.1): in the order in which it was
//! done, and nothing twice; and what the first notification after a request tells of it.
//!
//! Nothing here runs: each law is a function without a body, whose clauses are proved for every setup and every list of events.
//! `specs/` says what is among what, and how what is told walks through what was done.
#![tactic(auto)]

pub mod examples;
pub mod law_examples;
pub mod laws;
