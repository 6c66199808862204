//! How a text goes into a buffer of C.
ghost use Rattle.std.specs.Prelude.{◌≡◌, ◌≤◌, length, take, nat_lt, true, false};

/// Copies a text to the start of a buffer, if it fits, and says how long it is, also where it doesn't: then the buffer is as it was.
/// Gives whether there are too few bytes of it.
pub fn lacks_room(text: &[u8], buffer: &mut [u8], needed: &mut usize) -> bool
    ensures which { result ≡ nat_lt (length buffer.old) (length text.now) }
    ensures fits { result ≡ false → length text.now ≤ length buffer.old }
    ensures needed { needed.new ≡ length text.now }
    ensures copied { result ≡ false → take (length text.now) buffer.new ≡ text.now }
    ensures left { result ≡ true → buffer.new ≡ buffer.old }
{
    *needed = text.len();
    if text.len() > buffer.len() {
        return true;
    }
    buffer[..text.len()].copy_from_slice(text);
    false
}
