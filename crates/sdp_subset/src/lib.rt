//! Session descriptions (RFC 3435, 3.4; RFC 2327): how a remote one is read, and how one is written.
//!
//! One audio stream over RTP at an IPv4 address is understood: its address, its port and its payload types. Everything
//! else that a description may say is ignored. What is read owns no memory; only writing takes some.
#![tactic(auto)]

mod audio;
mod connection;
pub mod examples;
mod fault;
mod field;
pub mod laws;
mod payloads;
mod reading;
mod session;
mod writing;

pub use crate::fault::SdpFault;
pub use crate::payloads::Payloads;
pub use crate::reading::read_sdp;
pub use crate::session::{Origin, Session};
pub use crate::writing::write_sdp;
