//! What a wire in memory is to give.
use mg_bytes::Text;
use mg_line::Act;
use std::net::SocketAddrV4;

/// What a wire in memory is to give at a turn.
#[derive(Drop)]
pub enum Planned {
    /// A datagram from this address. What it has past 4,001 bytes is lost.
    Datagram { source: SocketAddrV4, bytes: Text },
    /// An act at the telephone of a line.
    Phone { line: u16, act: Act },
    /// The clock: it is this moment, in ms from 0.
    Tick { moment: u64 },
    /// The end.
    End,
    /// Nothing: the wire fails.
    Fault,
}
