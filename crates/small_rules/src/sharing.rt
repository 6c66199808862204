//! Datagrams: which messages share one, and which are taken.
ghost use Rattle.std.specs.Prelude.{◌≡◌, ◌&&◌, ◌==◌, nat_lt};

/// Whether a message goes into the datagram that is begun (RFC 3435, 3.5.5): it goes to the same address, at the same moment (in
/// ms), and the datagram has room for it.
pub fn share_a_datagram(same_address: bool, begun: u64, next: u64, has_room: bool) -> bool
    ensures { result ≡ (same_address && begun == next && has_room) }
{
    let same_moment = begun == next;
    same_address && same_moment && has_room
}

/// Whether a datagram of this length is not taken, where this is the largest that is (RFC 3435, 3.5.4).
pub fn is_too_long(length: usize, largest: usize) -> bool
    ensures { result ≡ nat_lt largest length }
{
    length > largest
}
