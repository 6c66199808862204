//! Puts a datagram into the room for it.
ghost use Rattle.std.specs.Prelude.{◌≡◌, ◌≤◌, length, take};

use gateway_core::DATAGRAM_ROOM;

/// Puts as much of a datagram as there is room for at the front of the room: how much that is.
pub fn fill(room: &mut [u8], bytes: &[u8]) -> usize
    requires { length room.old ≡ DATAGRAM_ROOM }
    ensures room { length room.new ≡ DATAGRAM_ROOM }
    ensures within { result ≤ length room.new }
    ensures bytes { take result room.new ≡ take DATAGRAM_ROOM bytes.now }
{
    let len = bytes.len().min(room.len());
    room[..len].copy_from_slice(&bytes[..len]);
    len
}
