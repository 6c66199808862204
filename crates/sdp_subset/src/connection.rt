//! The line that says where a stream is received (RFC 2327, 6).
ghost use Rattle.std.specs.Prelude.{◌≡◌};
ghost use Rattle.sdp_subset.specs.Reading.{address_of};

use mg_bytes::{ipv4_address, words};
use std::net::Ipv4Addr;

/// The address of a line `c=IN IP4 a.b.c.d`, with blanks between the words; `None` for any other line (RFC 2327, 6).
#[tactic(auto, unfolding(crate::specs::Reading::address_of))]
pub(crate) fn address_of(line: &[u8]) -> Option<Ipv4Addr>
    ensures { result ≡ address_of line.now }
{
    let mut words = words(line);
    let (Some(network), Some(kind), Some(address), None) = (
        words.next(),
        words.next(),
        words.next(),
        words.next(),
    ) else {
        return None;
    };
    if network != b"c=IN".as_slice() || kind != b"IP4".as_slice() {
        return None;
    }
    ipv4_address(address)
}
