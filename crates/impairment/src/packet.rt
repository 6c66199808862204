//! A packet on its way.
use mg_bytes::Text;
use std::net::SocketAddrV4;

/// Which way a packet goes.
#[derive(Clone, Copy, PartialEq)]
pub enum Way {
    /// To who runs the network.
    In,
    /// From who runs it.
    Out,
}

/// A packet on its way: the address of the other end, its bytes, and the moments at which it was offered and is due, in ms.
#[derive(Drop)]
pub struct Packet {
    pub way: Way,
    pub peer: SocketAddrV4,
    pub offered: u64,
    pub due: u64,
    pub bytes: Text,
}
