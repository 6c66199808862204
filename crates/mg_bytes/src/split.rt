//! A text taken apart: into lines, words, items, or at a byte.
ghost use Rattle.std.specs.Prelude.{◌≡◌, ◌≤◌, length, option_map};
ghost use Rattle.std.specs.List.{concat, list_any};
ghost use Rattle.mg_bytes.specs.Lines.{cut, is_dot_line};
ghost use Rattle.mg_bytes.specs.Items.{items_of};
ghost use Rattle.mg_bytes.specs.Words.{words as words_of, split_once, in_brackets};

use crate::item::ListItems;
use crate::line::Lines;
use crate::word::Words;
use memchr::memchr;

/// The lines of a text, from the first: each ends in CRLF or LF, and bytes after the last end are a line too.
/// A line is given without its end and without the blanks round it.
pub fn lines(text: &[u8]) -> Lines<'_>
    ensures pieces { result ≡ cut text.now }
    // No byte of the text is lost.
    ensures whole { concat result ≡ text.now }
    ensures few { length result ≤ length text.now }
{
    Lines { rest: text }
}

/// Whether a line of the text is a single dot, which parts the messages of a datagram (RFC 3435, 3.5.5).
pub fn has_dot_line(text: &[u8]) -> bool
    ensures { result ≡ list_any is_dot_line (cut text.now) }
{
    for line in lines(text) {
        if line == b".".as_slice() {
            return true;
        }
    }
    false
}

/// The words of a line, which spaces and tabs part.
pub fn words(line: &[u8]) -> Words<'_>
    ensures { result ≡ words_of line.now }
{
    Words { rest: line }
}

/// The items of a list, which commas part, each without the blanks round it. An empty text is one empty item.
pub fn list_items(text: &[u8]) -> ListItems<'_>
    ensures { result ≡ items_of text.now }
{
    ListItems { rest: Some(text) }
}

/// What stands before the first such byte, and what stands after it; `None` where there is none.
pub fn split_once(text: &[u8], byte: u8) -> Option<(&[u8], &[u8])>
    ensures { option_map (λ sides. (sides.0.now, sides.1.now)) result ≡ split_once byte text.now }
{
    match memchr(byte, text) {
        Some(place) => Some((&text[..place], &text[place + 1..])),
        None => None,
    }
}

/// What stands between `[` and `]`; `None` for a text that doesn't stand in brackets.
pub fn in_brackets(text: &[u8]) -> Option<&[u8]>
    ensures { option_map (λ inner. inner.now) result ≡ in_brackets text.now }
{
    match text {
        [b'[', inner @ .., b']'] => Some(inner),
        _ => None,
    }
}
