//! Whom the page serves, and who may work its telephones.
ghost use Rattle.std.specs.Prelude.{◌≡◌, option_map, option_copied};
ghost use Rattle.mg_bytes.specs.Bytes.{colon};
ghost use Rattle.mg_bytes.specs.Words.{split_once as split_at_first};
ghost use Rattle.page_http.specs.Access.{address_named as address_of_name, sides_of as sides_of_host, place_of as place_of_host};
ghost use Rattle.page_http.specs.Access.{is_anywhere as is_nowhere, is_same_place as is_same, is_known_host as is_known, is_origin_at as is_origin, is_same_origin as is_same_site, is_json as is_json_kind};

use mg_bytes::{ipv4_address, port_number, split_once};
use std::net::{Ipv4Addr, SocketAddrV4};

// The port where none stands.
const HTTP_PORT: u16 = 80;

// The address that a host's name means.
fn address_named(name: &[u8]) -> Option<Ipv4Addr>
    ensures { result ≡ address_of_name name.now }
{
    if name == b"localhost".as_slice() {
        return Some(Ipv4Addr::new(127, 0, 0, 1));
    }
    ipv4_address(name)
}

// A host's name and its port.
fn sides_of(host: &[u8]) -> Option<(&[u8], u16)>
    ensures { option_map (λ sides. (sides.0.now, sides.1)) result
        ≡ sides_of_host host.now (split_at_first colon host.now) }
{
    match split_once(host, b':') {
        Some((name, port)) => Some((name, port_number(port)?)),
        None => Some((host, HTTP_PORT)),
    }
}

// The address and the port that a host means.
#[tactic(auto, unfolding(crate::specs::Access::place_of))]
fn place_of(host: &[u8]) -> Option<SocketAddrV4>
    ensures { result ≡ place_of_host host.now }
{
    let (name, port) = sides_of(host)?;
    Some(SocketAddrV4::new(address_named(name)?, port))
}

// Whether a socket is at each address of its machine, and so at none that it can tell.
fn is_anywhere(site: SocketAddrV4) -> bool
    ensures { result ≡ is_nowhere site }
{
    site.ip().octets().as_slice() == [0u8, 0, 0, 0].as_slice()
}

fn is_same_place(site: SocketAddrV4, place: SocketAddrV4) -> bool
    ensures { result ≡ is_same site place }
{
    let there = place.ip().octets();
    let here = site.ip().octets();
    there.as_slice() == here.as_slice() && place.port() == site.port()
}

/// Whether a host means the very address and port that the page listens at (RFC 9110, 7.2). A name other than `localhost`
/// means none, so that no name of another's can be led here; nor does any where the page is at each address of its machine.
pub fn is_known_host(site: SocketAddrV4, host: &[u8]) -> bool
    ensures { result ≡ is_known site host.now }
{
    if is_anywhere(site) {
        return false;
    }
    match place_of(host) {
        Some(place) => is_same_place(site, place),
        None => false,
    }
}

// Whether an origin is that of the pages at a host.
fn is_origin_at(host: &[u8], origin: &[u8]) -> bool
    ensures { result ≡ is_origin host.now origin.now }
{
    match origin.strip_prefix(b"http://".as_slice()) {
        Some(rest) => rest == host,
        None => false,
    }
}

/// Whether the fields Host and Origin, where each stands there once, are those of a page at this address (RFC 6454, 7).
pub fn is_same_origin(site: SocketAddrV4, host: Option<&[u8]>, origin: Option<&[u8]>) -> bool
    ensures { result ≡ is_same_site site (option_copied host.entry) (option_copied origin.entry) }
{
    match (host, origin) {
        (Some(host), Some(origin)) => is_known_host(site, host) && is_origin_at(host, origin),
        _ => false,
    }
}

/// Whether the content is JSON, and says just so.
pub(crate) fn is_json(kind: Option<&[u8]>) -> bool
    ensures { result ≡ is_json_kind (option_copied kind.entry) }
{
    match kind {
        Some(kind) => kind == b"application/json".as_slice(),
        None => false,
    }
}
