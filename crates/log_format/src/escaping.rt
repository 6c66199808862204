//! How bytes of a datagram are shown.
ghost use Rattle.std.specs.Prelude.{◌≡◌, ◌++◌, OnOk};
ghost use Rattle.log_format.specs.Escaping.{is_plain, shown_byte, escaped, shown};

use mg_bytes::{Draft, OutOfMemory, hex_digit};

// So many bytes of a value are shown.
const LONGEST_VALUE: usize = 64;

fn is_plain(byte: u8) -> bool
    ensures { result ≡ is_plain byte }
{
    byte >= b' ' && byte <= b'~' && byte != b'\\'
}

fn put_byte(out: &mut Draft, byte: u8)
    ensures { out.new ≡ out.old ++ shown_byte byte }
{
    if is_plain(byte) {
        out.put_byte(byte);
    } else {
        out.put(&[b'\\', b'x', hex_digit(byte / 16 % 16), hex_digit(byte % 16)]);
    }
}

/// Puts bytes as printable ASCII: each that is none, and the backslash, as `\x` and two hexadecimal digits.
pub(crate) fn put_escaped(out: &mut Draft, bytes: &[u8])
    ensures { out.new ≡ out.old ++ escaped bytes.now }
{
    for byte in bytes {
        put_byte(out, *byte);
    }
}

/// Puts a value as printable ASCII: each byte that is none, and the backslash, as `\x` and two hexadecimal digits; of a longer
/// value the first 64 bytes, and `..`.
#[tactic(auto, unfolding(crate::specs::Escaping::shown))]
pub fn write_shown(out: &mut Draft, value: &[u8])
    ensures { out.new ≡ out.old ++ shown value.now }
{
    if value.len() <= LONGEST_VALUE {
        put_escaped(out, value);
    } else {
        let front = &value[..LONGEST_VALUE];
        put_escaped(out, front);
        out.put(b"..");
    }
}

/// Puts a value as `write_shown` does. Its only error is want of memory.
pub fn put_shown(out: &mut Vec<u8>, value: &[u8]) -> Result<(), OutOfMemory>
    ensures { OnOk result (out.new.items ≡ out.old.items ++ shown value.now) }
{
    let mut draft = Draft::new(*out.allocator());
    write_shown(&mut draft, value);
    draft.append_to(out)
}
