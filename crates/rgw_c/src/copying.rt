//! How a text goes into a buffer of C.
ghost use Rattle.std.specs.Prelude.{◌≡◌, ◌≢◌, ◌≤◌, length, take, nat_lt, if◌then◌else◌};

use crate::numbers::{OK, SMALL_BUFFER};
use small_rules::lacks_room;

/// Copies a text to the start of a buffer, if it fits, and says how long it is, also where it doesn't: then the buffer is as it was.
pub fn copy_out(text: &[u8], buffer: &mut [u8], needed: &mut usize) -> u32
    ensures number { result ≡ (if nat_lt (length buffer.old) (length text.now) then SMALL_BUFFER else OK) }
    ensures small { result ≢ OK → result ≡ SMALL_BUFFER }
    ensures fits { result ≡ OK → length text.now ≤ length buffer.old }
    ensures needed { needed.new ≡ length text.now }
    ensures copied { result ≡ OK → take (length text.now) buffer.new ≡ text.now }
    ensures left { result ≢ OK → buffer.new ≡ buffer.old }
{
    if lacks_room(text, buffer, needed) {
        SMALL_BUFFER
    } else {
        OK
    }
}
