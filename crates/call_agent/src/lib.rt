//! A call agent (RFC 3435, 3.5): what it means, and its code; its commands in flight (`flights`), and its next transaction id.
//!
//! It is fully deterministic, with no network and no clock inside, and knows nothing of a gateway's code; `agent_core` has it in one world
//! with a gateway. After an error it is as it was before the event.
//!
//! `rgca` stands on it, by `switchboard`.
#![tactic(auto)]

mod agent;
mod flights;
mod growing;
mod hearing;
mod issuing;
mod responding;
mod setup;
mod state;
mod taking;
mod ticking;
mod told;
mod working;

pub use crate::agent::Agent;
pub use crate::issuing::{IssueFault, Issued};
pub use crate::setup::AgentSetup;
pub use retransmission::Answer;
