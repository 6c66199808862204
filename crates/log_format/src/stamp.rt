//! When something happened, and with whom.
use std::net::SocketAddrV4;

/// What each line begins with.
#[derive(Clone, Copy)]
pub struct Stamp {
    /// The moment, in microseconds since 1970 began, in UTC.
    pub moment: u64,
    /// The other end.
    pub peer: SocketAddrV4,
}

/// Which way a message goes.
#[derive(Clone, Copy)]
pub enum Way {
    /// It came from the other end.
    Came,
    /// It is sent to the other end.
    Sent,
}
