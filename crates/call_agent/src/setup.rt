//! Who an agent is.

use endpoint_names::Route;
use mg_bytes::Text;
use std::net::SocketAddrV4;

/// Who an agent is: its addresses, and the gateway that it works with.
#[derive(Drop)]
pub struct AgentSetup {
    /// Its own addresses: it sends from the first, and receives at each (RFC 3435, 3.5).
    pub own: Route<SocketAddrV4>,
    /// The gateway's address.
    pub gateway: SocketAddrV4,
    /// The gateway's domain.
    pub domain: Text,
    /// How many lines the gateway has.
    pub lines: u16,
    /// The first id that it issues.
    pub first: u32,
}
