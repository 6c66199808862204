//! Addresses that are compared.
ghost use Rattle.std.specs.Prelude.{◌≡◌};
ghost use Rattle.line_changes.specs.Changes.{is_same_host, is_same_address, is_same_remote};

use std::net::SocketAddrV4;

fn is_same_host(one: &[u8], other: &[u8]) -> bool
    ensures { result ≡ is_same_host one.now other.now }
{
    one == other
}

/// Whether two addresses are the same, with their ports.
pub(crate) fn is_same_address(one: SocketAddrV4, other: SocketAddrV4) -> bool
    ensures { result ≡ is_same_address one other }
{
    let host = one.ip().octets();
    let other_host = other.ip().octets();
    one.port() == other.port() && is_same_host(host.as_slice(), other_host.as_slice())
}

/// Whether two addresses are the same that may not be known.
pub(crate) fn is_same_remote(one: Option<SocketAddrV4>, other: Option<SocketAddrV4>) -> bool
    ensures { result ≡ is_same_remote one other }
{
    match (one, other) {
        (None, None) => true,
        (Some(one), Some(other)) => is_same_address(one, other),
        (None, Some(_)) | (Some(_), None) => false,
    }
}
