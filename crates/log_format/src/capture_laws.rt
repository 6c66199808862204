//! Laws of the definitions. Each function has an empty body: its clauses are the theorems.
ghost use Rattle.std.specs.Prelude.{◌≡◌, ◌≤◌, ◌++◌, ◌+◌, ℕ, List, All, length};
ghost use Rattle.std.specs.Net.Addr.{segments_of};
ghost use Rattle.log_format.specs.Checksum.{ones_sum, checksum_of};
ghost use Rattle.log_format.specs.Packet.{Packet, carried, packet_length, header_words, ipv4_packet};

/// Who gets a packet adds up its header, with the checksum in its place, and finds all bits set (RFC 791, 3.1; RFC 1071, 1).
pub fn a_receiver_finds_the_header_right()
    ensures { (total : ℕ) (source destination : List ℕ) → total ≤ 65535
        → All (λ word. word ≤ 65535) (segments_of source ++ segments_of destination)
        → ones_sum (header_words total source destination (checksum_of (header_words total source destination 0))) ≡ 65535 }
{}

/// A datagram of up to 65,507 bytes is captured whole, and no packet is longer than its length can say.
pub fn what_is_captured_is_whole()
    ensures whole { (bytes : List ℕ) → length bytes ≤ 65507 → carried bytes ≡ bytes }
    ensures within { (bytes : List ℕ) → packet_length bytes ≤ 65535 }
{}

/// A packet is as long as it says, where its addresses have four octets.
pub fn a_packet_is_as_long_as_it_says()
    ensures { (packet : Packet) → length packet.from.ip.octets ≡ 4 → length packet.to.ip.octets ≡ 4
        → length (ipv4_packet packet) ≡ packet_length packet.bytes }
{}
