//! Numbers as digits.
ghost use Rattle.std.specs.Prelude.{◌≡◌, ◌++◌, OnOk, OnErr, decimal as decimal_text, IfSome, ◌<◌, ◌^◌, length};
ghost use Rattle.std.specs.List.{list_all};
ghost use Rattle.std.specs.Char.{digit_char, is_ascii_digit, is_ascii_hexdigit};
ghost use Rattle.mg_bytes.specs.Numbers.{is_decimal, decimal_of, is_hex_text};

use crate::owned::OutOfMemory;
use itoa::Buffer;
use std::alloc::Global;

fn all_digits(text: &[u8]) -> bool
    ensures { result ≡ list_all is_ascii_digit text.now }
{
    text.iter().all(|byte| byte.is_ascii_digit())
}

fn all_hex_digits(text: &[u8]) -> bool
    ensures { result ≡ list_all is_ascii_hexdigit text.now }
{
    text.iter().all(|byte| byte.is_ascii_hexdigit())
}

fn is_decimal(text: &[u8]) -> bool
    ensures { result ≡ is_decimal text.now }
{
    text.len() >= 1 && text.len() <= 18 && all_digits(text)
}

/// The number that 1 to 18 decimal digits spell; `None` for any other text.
#[tactic(auto, unfolding(crate::specs::Numbers::decimal_of))]
pub fn decimal(text: &[u8]) -> Option<u64>
    ensures value { result ≡ decimal_of text.now }
    ensures below { IfSome result (λ n. n < 10 ^ length text.now) }
{
    if !is_decimal(text) {
        return None;
    }
    let mut number: u64 = 0;
    for byte in text {
        number = number * 10 + u64::from(*byte - b'0');
    }
    Some(number)
}

/// Whether a text is 1 to 32 hexadecimal digits.
pub fn hex_text(text: &[u8]) -> bool
    ensures { result ≡ is_hex_text text.now }
{
    text.len() >= 1 && text.len() <= 32 && all_hex_digits(text)
}

/// The hexadecimal digit of this value: `0` to `9`, and `a` to `f`.
pub fn hex_digit(value: u8) -> u8
    requires { value < 16 }
    ensures { result ≡ digit_char value }
{
    if value < 10 {
        b'0' + value
    } else {
        b'a' - 10 + value
    }
}

/// Appends a number in decimal digits, without leading zeros. After an error `out` is as it was.
pub fn put_decimal(_alloc: Global, out: &mut Vec<u8>, number: u64) -> Result<(), OutOfMemory>
    ensures ok { OnOk result (out.new.items ≡ out.old.items ++ decimal_text number) }
    ensures err { OnErr result (out.new.items ≡ out.old.items) }
{
    let mut buffer = Buffer::new();
    out.extend_from_slice(buffer.format(number).as_bytes())
}
