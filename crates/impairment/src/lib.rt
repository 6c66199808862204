//! A network that spoils what goes over it: it loses packets, copies them, and hands them over late and out of order.
//!
//! It opens no socket and reads no clock: whoever runs it offers packets, says what moment it is, and takes those that are due. What
//! becomes of a packet is drawn by a generator with a seed, so that the same offers have the same fates each time; each way has a
//! generator of its own, so that what comes changes nothing of what goes. A seed is mixed with the name of who runs the network, so
//! that two of one seed don't lose alike.
#![tactic(auto)]

mod draws;
pub mod examples;
mod fate;
pub mod laws;
mod naming;
mod network;
mod packet;
mod spoiling;

pub use crate::fate::Fate;
pub use crate::naming::mixed;
pub use crate::network::BadNetwork;
pub use crate::packet::{Packet, Way};
pub use crate::spoiling::{Impairment, Spoiling, SpoilingFault};
