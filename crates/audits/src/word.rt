//! Parameters that are one word, or nothing.
ghost use Rattle.std.specs.Prelude.{◌≡◌, true, false, IfOk};
ghost use Rattle.std.specs.List.{list_any};
ghost use Rattle.mg_bytes.specs.Blanks.{is_blank};
ghost use Rattle.mg_bytes.specs.Lines.{is_line_feed};
ghost use Rattle.mgcp_text.specs.Parameter.{is_code};
ghost use Rattle.mgcp_text.specs.Writing.{is_writable_param};

use mg_bytes::{OutOfMemory, Text};
use mgcp_text::{Bytes, Param};
use std::alloc::Global;

fn of_word(code: &'static [u8], value: Bytes<'static>) -> Param<'static>
    requires code { is_code code.now ≡ true }
    requires no_blanks { list_any is_blank value ≡ false }
    requires one_line { list_any is_line_feed value ≡ false }
    ensures value { result ≡ record { code = code.now; value = value.entry } }
    ensures writable { is_writable_param result ≡ true }
{
    Param {
        code: Bytes::of(code),
        value,
    }
}

/// A parameter of this code and a text, which is one word or nothing.
pub(crate) fn of_text(code: &'static [u8], value: Text) -> Param<'static>
    requires code { is_code code.now ≡ true }
    requires no_blanks { list_any is_blank value ≡ false }
    requires one_line { list_any is_line_feed value ≡ false }
    ensures value { result ≡ record { code = code.now; value = value } }
    ensures writable { is_writable_param result ≡ true }
{
    of_word(code, Bytes::owned(value))
}

/// The same of a text that is known from the start.
pub(crate) fn of_name(code: &'static [u8], value: &'static [u8]) -> Param<'static>
    requires code { is_code code.now ≡ true }
    requires no_blanks { list_any is_blank value.now ≡ false }
    requires one_line { list_any is_line_feed value.now ≡ false }
    ensures value { result ≡ record { code = code.now; value = value.now } }
    ensures writable { is_writable_param result ≡ true }
{
    of_word(code, Bytes::of(value))
}

/// The same of a copy of a text. An error is for want of memory only.
pub(crate) fn of_copy(
    alloc: Global,
    code: &'static [u8],
    value: &[u8],
) -> Result<Param<'static>, OutOfMemory>
    requires code { is_code code.now ≡ true }
    requires no_blanks { list_any is_blank value.now ≡ false }
    requires one_line { list_any is_line_feed value.now ≡ false }
    ensures value { IfOk result (λ param. param ≡ record { code = code.now; value = value.now }) }
    ensures writable { IfOk result (λ param. is_writable_param param ≡ true) }
{
    let copy = Vec::from_slice(alloc, value)?;
    Ok(of_text(code, Text::of(copy)))
}
