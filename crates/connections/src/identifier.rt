//! Identifiers of calls and of connections (RFC 3435, 2.1.3, 3.2.2): how they are compared, and how that of a connection is
//! written.
ghost use Rattle.std.specs.Prelude.{◌≡◌, ◌<◌, ◌++◌, true, OnOk, OnErr};
ghost use Rattle.std.specs.Fmt.{digits, digit_glyph};
ghost use Rattle.mg_bytes.specs.Case.{same_but_case};
ghost use Rattle.connections.specs.Numbers.{number_text, names_number};

use arrayvec::ArrayVec;
use mg_bytes::{Identifier, OutOfMemory, same_no_case};
use std::alloc::Global;

// Whether two identifiers are the same text without case.
pub(crate) fn is_same(own: &Identifier, other: &Identifier) -> bool
    ensures { result ≡ same_but_case own.now other.now }
{
    same_no_case(own.as_slice(), other.as_slice())
}

// A hexadecimal digit, in upper case.
fn glyph(digit: u32) -> u8
    requires { digit < 16 }
    ensures { result ≡ digit_glyph true digit }
{
    if digit < 10 {
        b'0' + digit as u8
    } else {
        b'A' + (digit as u8 - 10)
    }
}

// The digits of a number, without leading zeros.
fn digits_of(number: u32) -> ArrayVec<u8, 8>
    ensures { result.items ≡ number_text number }
{
    let mut digits = ArrayVec::new();
    let mut rest = number;
    while rest >= 16 {
        digits.insert(0, glyph(rest % 16));
        rest /= 16;
    }
    digits.insert(0, glyph(rest));
    digits
}

// Whether this is the identifier of the connection with this number.
pub(crate) fn names_number(id: &Identifier, number: u32) -> bool
    ensures { result ≡ names_number id.now number }
{
    same_no_case(id.as_slice(), digits_of(number).as_slice())
}

/// Appends the identifier of the connection with this number (RFC 3435, 3.2.2): the number in hexadecimal digits, in upper
/// case and without leading zeros. After an error `out` is as it was.
pub fn write_number(_alloc: Global, out: &mut Vec<u8>, number: u32) -> Result<(), OutOfMemory>
    ensures ok { OnOk result (out.new.items ≡ out.old.items ++ number_text number) }
    ensures err { OnErr result (out.new.items ≡ out.old.items) }
{
    out.extend_from_slice(digits_of(number).as_slice())
}
