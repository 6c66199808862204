//! Laws of a world: a call agent, a gateway, and a network between them that loses, copies and delays (RFC 3435, 3.5). Each command is
//! executed once, answers are those that were given, and each notification is taken once (`laws`); what it means that a world stands and
//! runs (`standing_laws`).
//!
//! What is delivered is served (`delivery_laws`): a copy that arrives is answered there and then, an answer that comes back in time is
//! had, and a command goes out eight times while nothing comes back. What a telephone does reaches the agent once and in its order, and
//! nothing dialled is doubled or skipped (`dialled_laws`; 2.3.4 and 4.4.1).
//!
//! Nothing here runs: each law is a function without a body, whose clauses are proved for every setup and every list of events or steps.
//! `specs/` has what the laws speak of beside the words of `call_agent` and `agent_core`.
#![tactic(auto)]

pub mod delivery_examples;
pub mod delivery_laws;
pub mod dialled_examples;
pub mod dialled_laws;
pub mod examples;
pub mod law_examples;
pub mod laws;
pub mod standing_laws;
