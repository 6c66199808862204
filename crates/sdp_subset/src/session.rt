//! What a description says of a session.
use crate::payloads::Payloads;
use mg_bytes::OutOfMemory;
use std::net::Ipv4Addr;

/// The numbers by which a description of our own is told from others (RFC 2327, 6).
#[derive(Clone, Copy)]
pub struct Origin {
    /// The number of the session.
    pub number: u32,
    /// The number of this version of its description.
    pub version: u32,
}

/// What a description says (RFC 3435, 3.4): one audio stream over RTP.
#[derive(Drop)]
pub struct Session {
    /// The origin, in a description of our own.
    pub origin: Option<Origin>,
    /// Where the stream is received.
    pub address: Ipv4Addr,
    /// The port there, where 0 is allowed.
    pub port: u16,
    /// The payload types that are offered, in their order.
    pub payloads: Payloads,
    /// The time of a packet in ms, in a description of our own.
    pub ptime: Option<u16>,
}

impl Session {
    ghost use Rattle.std.specs.Prelude.{◌≡◌, Ok};

    /// An equal session. It takes no memory.
    pub fn copy(&self) -> Session
        ensures { result ≡ self.now }
    {
        Session {
            origin: self.origin,
            address: self.address,
            port: self.port,
            payloads: self.payloads.copy(),
            ptime: self.ptime,
        }
    }

    /// The same as `copy`, for who asks where a copy can be refused: this one never is.
    pub fn try_copy(&self) -> Result<Session, OutOfMemory>
        ensures { result ≡ Ok self.now }
    {
        Ok(self.copy())
    }
}
