//! A world of both ends, a call agent and a gateway, with a bad network between them (RFC 3435, 3.5).
#![tactic(auto)]

mod ends;
mod packet;
mod step;
mod world;

pub use crate::packet::Packet;
pub use crate::step::{Step, StepRefusal, WorldStopped};
pub use crate::world::{World, world_run};
pub use call_agent::{Agent, AgentSetup, Answer, IssueFault, Issued};
