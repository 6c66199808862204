//! A call agent on a live network: what the program `rgca` serves.
//!
//! Behind one socket is an agent for each gateway, which issues what is typed at a socket for commands. Where that is asked for,
//! calls are routed between the lines of all gateways, and a bad network lies between. The desk (`agent_gateways`), the gateways and their
//! lines, what is typed for them, and the calls that are routed, has neither a socket nor a clock: who has these says what came and what
//! moment it is, and sends what is to be sent. That is the loop (`session`), which asks what comes next and does that.
#![tactic(auto)]

pub mod command_examples;
pub mod desk_examples;
pub mod next_examples;
mod recorder;
mod serving;
mod session;
pub mod turn_examples;
pub mod typed_examples;
mod wire;

pub use crate::recorder::Recorder;
pub use crate::serving::{WireSettings, serve_agent, serve_over, wire_over};
pub use crate::wire::Wire;
