//! What an end sends.

use mg_bytes::{Sequence, Text};
use std::net::SocketAddrV4;

/// A datagram that an end sends.
#[derive(Drop)]
pub struct OutDatagram {
    pub to: SocketAddrV4,
    /// When it is sent, in ms.
    pub moment: u64,
    pub bytes: Text,
}

/// Datagrams in the order in which they are sent. A contract sees their list.
pub type Outputs = Sequence<OutDatagram>;
