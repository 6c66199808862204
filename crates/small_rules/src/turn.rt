//! Whose turn it is among several.
ghost use Rattle.std.specs.Prelude.{◌≡◌, ◌≤◌, ◌<◌, ◌/◌, ◌%◌};

/// The place, from 0, among so many, whose turn a send with this number is, counted from 0 (RFC 3435, 4.3): each has so many
/// sends, then the next has its turn, and after the last the first again.
pub fn place_in_turn(count: usize, sends_each: u64, send: u64) -> usize
    requires counted { 1 ≤ count }
    requires each { 1 ≤ sends_each }
    ensures value { result ≡ send / sends_each % count }
    ensures within { result < count }
{
    (send / sends_each) as usize % count
}
