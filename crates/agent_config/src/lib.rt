//! The configuration that a call agent reads: its own address, the digit map, and the gateways with the numbers of their lines; and in
//! words why one is refused. Nothing here opens a file.
#![tactic(auto)]

mod config;
mod config_fault;
pub mod examples;
mod text;

pub use crate::config::{AgentConfig, GatewayConfig, read_config};
pub use crate::config_fault::{ConfigRefusal, too_long};
pub use crate::text::copied;
