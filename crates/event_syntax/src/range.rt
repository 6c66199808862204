//! Ranges of the events of D: what stands in brackets.
ghost use Rattle.std.specs.Prelude.{◌≡◌, ◌++◌, ◌==◌, length, map, OnOk};
ghost use Rattle.mg_bytes.specs.Letter.{byte_of};
ghost use Rattle.mg_bytes.specs.Words.{in_brackets};
ghost use Rattle.event_syntax.specs.Ranges.{is_bracketed, letters_in, letters_of, letters_text};

use digit_map::{is_in_range, is_range};
use mg_bytes::{LETTERS, OutOfMemory, in_brackets};

/// Whether a text is a range in its brackets.
pub(crate) fn is_bracketed(text: &[u8]) -> bool
    ensures { result ≡ is_bracketed text.now }
{
    match in_brackets(text) {
        Some(inside) => is_range(inside),
        None => false,
    }
}

/// The set of the letters of a range: of each letter, in their order, whether it is in the range.
#[tactic(auto, unfolding(crate::specs::Ranges::letters_in))]
pub(crate) fn letters_in(range: &[u8]) -> [bool; 17]
    ensures { result ≡ letters_in range.now }
{
    let mut set = [false; 17];
    for (place, letter) in LETTERS.iter().enumerate() {
        set[place] = is_in_range(range, *letter);
    }
    set
}

fn put_each(out: &mut Vec<u8>, set: [bool; 17]) -> Result<(), OutOfMemory>
    ensures { OnOk result (out.new.items ≡ out.old.items ++ map byte_of (letters_of set)) }
{
    for (place, letter) in LETTERS.iter().enumerate() {
        if set[place] {
            out.push(letter.byte())?;
        }
    }
    Ok(())
}

/// Writes a set of letters: one by itself, others all in brackets.
#[tactic(auto, unfolding(crate::specs::Ranges::letters_text))]
pub(crate) fn put_letters(out: &mut Vec<u8>, set: [bool; 17]) -> Result<(), OutOfMemory>
    ensures { OnOk result (out.new.items ≡ out.old.items ++ letters_text set) }
{
    if is_single(set) {
        return put_each(out, set);
    }
    out.push(b'[')?;
    put_each(out, set)?;
    out.extend_from_slice(b"]")
}

fn is_single(set: [bool; 17]) -> bool
    ensures { result ≡ (length (letters_of set) == 1) }
{
    set.iter().filter(|has| **has).count() == 1
}
