//! Packets in the network between the two ends of a world.

use mg_bytes::Text;
use std::net::SocketAddrV4;

/// An end of a world.
#[derive(Clone, Copy)]
pub(crate) enum End {
    /// The gateway.
    GatewayEnd,
    /// The call agent.
    AgentEnd,
}

/// A datagram in the network.
#[derive(Drop)]
pub struct Packet {
    /// When it was sent, in ms.
    pub moment: u64,
    /// The address of the end that sent it.
    pub sender: SocketAddrV4,
    /// Where it goes.
    pub to: SocketAddrV4,
    pub bytes: Text,
}

/// A packet, and the end that sent it.
#[derive(Drop)]
pub(crate) struct Posted {
    pub end: End,
    pub packet: Packet,
}
