//! Addresses as text.
ghost use Rattle.std.specs.Prelude.{◌≡◌, ◌++◌};
ghost use Rattle.std.specs.Net.Addr.{ipv4_octets};
ghost use Rattle.std.specs.Net.Text.{ipv4_text, socket_v4_text};

use mg_bytes::Draft;
use std::net::{Ipv4Addr, SocketAddrV4};

/// Puts an address, as `10.0.0.7`.
pub fn put_host(out: &mut Draft, host: Ipv4Addr)
    ensures { out.new ≡ out.old ++ ipv4_text (ipv4_octets host) }
{
    let [a, b, c, d] = host.octets();
    out.put_decimal(u64::from(a));
    out.put_byte(b'.');
    out.put_decimal(u64::from(b));
    out.put_byte(b'.');
    out.put_decimal(u64::from(c));
    out.put_byte(b'.');
    out.put_decimal(u64::from(d));
}

/// Puts an address and a port, as `10.0.0.7:2727`.
pub fn put_peer(out: &mut Draft, peer: SocketAddrV4)
    ensures { out.new ≡ out.old ++ socket_v4_text peer }
{
    put_host(out, *peer.ip());
    out.put_byte(b':');
    out.put_decimal(u64::from(peer.port()));
}
