//! What is captured.
use std::marker::Model;
use std::net::SocketAddrV4;

/// A datagram that went over the network. A contract sees its bytes.
#[derive(Drop)]
pub struct Packet<'a> {
    /// When it went, in microseconds since 1970 began, in UTC.
    pub moment: u64,
    /// Where it came from.
    pub from: SocketAddrV4,
    /// Where it went.
    pub to: SocketAddrV4,
    /// What it had.
    pub bytes: &'a [u8],
}

impl<'a> Model for Packet<'a> {
    ghost use Rattle.log_format.specs.Packet.{Packet};

    ghost Value = { Packet };

    ghost view = { λ p. record {
      moment = p.moment;
      from = p.from;
      to = p.to;
      bytes = p.bytes.now;
    } };
}
