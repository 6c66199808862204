//! Laws of the live programs: the loop of `rgwd`, whose run is a play, the trace of that replays, and what strangers send changes nothing;
//! and the calls that `rgca` puts through (`call_laws`), for every list of events. And worked examples of what they speak of.
//!
//! Nothing here runs: each law is a function without a body, and its clauses are the theorems.
#![tactic(auto)]

pub mod call_examples;
pub mod call_laws;
pub mod call_record_examples;
pub mod desk_examples;
pub mod examples;
pub mod law_examples;
pub mod laws;
pub mod passing_examples;
pub mod play_laws;
pub mod return_code_examples;
pub mod telephone_examples;
pub mod turning_examples;
pub mod way_examples;
