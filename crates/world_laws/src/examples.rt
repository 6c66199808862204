//! Worked examples of an agent and of a world, as theorems: each sentence of a definition has one that a slip in it breaks.

pub mod agent_commands;
pub mod agent_firsts;
pub mod agents;
pub mod final_responses;
pub mod networks;
pub mod reached_commands;
pub mod refused_steps;
pub mod worlds;
