//! Scenarios of a gateway and of a call agent, of the kinds that the files' first lines say. No program is in them.
//!
//! - `refused`: scripts at a gateway beside a twin, for a run in which memory is refused.
//! - `sockets`: a gateway that is served over a UDP socket, with the call agent's in the same process.
//! - `memory`: a gateway that takes events in one run, or over a wire in memory, which plays a plan and fails where that says
//!   so.
//! - `agents`: a call agent alone.
//! - `worlds`: a gateway and a call agent, and a bad network between both.
//!
//! What is told otherwise than it happens is printed under its title. `docs/SCENARIOS.md` says how scenarios are written.
#![tactic(auto)]

mod agents;
mod boxing;
mod filling;
mod forms;
mod gateways;
mod given;
mod keeping;
mod memory;
mod outputs;
mod plan;
mod planned;
mod playing;
mod refused;
mod runs;
mod sockets;
mod twins;
mod worlds;

use crate::agents::AgentScenario;
use crate::memory::MemoryScenario;
use crate::worlds::WorldScenario;
use scenario_files::{Kinds, Report, told};
use std::net::Net;

/// The kinds of scenarios of one end, or of both.
pub struct Ends;

impl Kinds for Ends {
    fn told<R: AllocGlobal + Net>(rt: &R, kind: &str, text: &str, report: &mut Report) -> bool {
        match kind {
            "refused" => refused::told(rt, text, report),
            "sockets" => sockets::told(rt, text, report),
            "memory" => told::<MemoryScenario>(rt.alloc(), text, report),
            "agents" => told::<AgentScenario>(rt.alloc(), text, report),
            "worlds" => told::<WorldScenario>(rt.alloc(), text, report),
            _ => return false,
        }
        true
    }
}
