//! The gateway for programs in C: behind a look at what is out of range each export calls one public function of the libraries below, or
//! two (`rgw_open`, `rgw_check`, `rgw_connection`), and states their clauses again.
//!
//! A program keeps a handle, one word, which begins as null. `include/rgw.h` says what C has to keep at each call, since nothing here
//! can check it: pointers that are not null and have their room, and one call at a time on a handle. All else that can go wrong has a
//! number, and what is left then stands in the clauses. Nothing is global.
#![tactic(auto)]

mod account;
mod acts;
mod copying;
mod events;
pub mod examples;
mod handle;
mod instance;
mod lines;
mod numbers;
mod opening;
mod outcomes;
mod outputs;
mod structs;
mod times;
