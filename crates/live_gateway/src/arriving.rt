//! What came is of its types: bytes, octets and a port. Contracts know of a number that it is of its type once it is read.
ghost use Rattle.std.specs.Prelude.{◌≡◌, ◌<◌, ◌≤◌};
ghost use Rattle.std.specs.List.{AllByRecursion};
ghost use Rattle.live_play.specs.Readable.{IsAddress};

use mg_bytes::octets_of;
use std::net::SocketAddrV4;

fn port_of(address: SocketAddrV4) -> u16
    ensures value { result ≡ address.port }
    ensures high { result ≤ 65535 }
{
    address.port()
}

/// An address is one.
pub(crate) fn read_address(address: SocketAddrV4)
    ensures { IsAddress address }
{
    let _octets = octets_of(*address.ip());
    let _port = port_of(address);
}

/// Bytes are such.
pub(crate) fn read_bytes(bytes: &[u8])
    ensures { AllByRecursion (λ byte. byte < 256) bytes.now }
{}
