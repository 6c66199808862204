//! The headers of a packet: IPv4 (RFC 791, 3.1) and UDP (RFC 768).
ghost use Rattle.std.specs.Prelude.{◌≡◌, ◌+◌, ◌*◌, [], ◌∷◌, ◌++◌};
ghost use Rattle.std.specs.Net.Addr.{segments_of};
ghost use Rattle.log_format.specs.Packet.{header_words, ipv4_header, udp_header};

use crate::checksum::checksum_of;
use crate::octets::put_words;
use mg_bytes::Draft;
use std::net::Ipv4Addr;

// Version 4, a header of five words of 32 bits, and the usual service.
const VERSION_AND_SIZE: u16 = 0x4500;

// The packet isn't to be fragmented.
const NO_FRAGMENTS: u16 = 0x4000;

// 64 hops, and UDP, which is 17.
const HOPS_AND_UDP: u16 = 0x4011;

// Two octets as a word.
fn word_of(high: u8, low: u8) -> u16
    ensures { result ≡ high * 256 + low }
{
    u16::from(high) * 256 + u16::from(low)
}

// An address as two words.
#[tactic(auto, using(crate::proofs::PacketLaws::segments_four))]
fn words_of(address: Ipv4Addr) -> (u16, u16)
    ensures { segments_of address.octets ≡ result.0 ∷ result.1 ∷ [] }
{
    let [a, b, c, d] = address.octets();
    (word_of(a, b), word_of(c, d))
}

// The words of the header of a packet of this length, with this checksum.
fn header_words(total: u16, source: Ipv4Addr, destination: Ipv4Addr, checksum: u16) -> [u16; 10]
    ensures { result ≡ header_words total source.octets destination.octets checksum }
{
    let (a, b) = words_of(source);
    let (c, d) = words_of(destination);
    [
        VERSION_AND_SIZE,
        total,
        0,
        NO_FRAGMENTS,
        HOPS_AND_UDP,
        checksum,
        a,
        b,
        c,
        d,
    ]
}

/// Puts the IPv4 header of a packet of this length, in bytes.
#[tactic(auto, unfolding(crate::specs::Packet::ipv4_header))]
pub(crate) fn put_ipv4_header(out: &mut Draft, total: u16, source: Ipv4Addr, destination: Ipv4Addr)
    ensures { out.new ≡ out.old ++ ipv4_header total source.octets destination.octets }
{
    let unchecked = header_words(total, source, destination, 0);
    let words = header_words(total, source, destination, checksum_of(&unchecked));
    put_words(out, &words);
}

/// Puts the UDP header of a datagram of this length, in bytes, the header's own among them.
#[tactic(auto, unfolding(crate::specs::Packet::udp_header))]
pub(crate) fn put_udp_header(out: &mut Draft, source: u16, destination: u16, total: u16)
    ensures { out.new ≡ out.old ++ udp_header source destination total }
{
    put_words(out, &[source, destination, total, 0]);
}
