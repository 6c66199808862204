//! Words in places of fixed size, which can be copied.
ghost use Rattle.std.specs.Prelude.{◌≡◌, ◌≤◌, false, length};
ghost use Rattle.std.specs.List.{list_any};
ghost use Rattle.mg_bytes.specs.Blanks.{is_blank};
ghost use Rattle.mg_bytes.specs.Lines.{is_line_feed};

use std::marker::Model;

/// A word of at most N bytes, or nothing, in a place of fixed size, so that it can be copied: no byte of it is a blank or a
/// line feed. A contract sees the list of its bytes.
#[derive(Clone, Copy)]
pub struct FixedText<const N: usize> {
    bytes: [u8; N],
    len: usize,
}

impl<const N: usize> Model for FixedText<N> {
    ghost use Rattle.std.specs.Prelude.{◌≡◌, ◌≤◌, ◌-◌, false, List, ℕ, take, drop, replicate, length};
    ghost use Rattle.std.specs.List.{list_any};
    ghost use Rattle.mg_bytes.specs.Blanks.{is_blank};
    ghost use Rattle.mg_bytes.specs.Lines.{is_line_feed};

    ghost Value = { List ℕ };

    ghost use Rattle.endpoint_names.specs.Fixed.{fields_of, fields_again};

    ghost view = { λ t. take t.len t.bytes };

    // The bytes after the text are 0, so that equal texts have equal fields.
    ghost invariant = { λ t. (t.len ≤ N) × (length t.bytes ≡ N)
        × (drop t.len t.bytes ≡ replicate (N - t.len) 0)
        × (list_any is_blank (take t.len t.bytes) ≡ false) × (list_any is_line_feed (take t.len t.bytes) ≡ false) };

    ghost inverse = { fields_of N };

    ghost inverse_ok = { λ t h. fields_again N t.bytes t.len h.0 h.1 h.2 };
}

impl<const N: usize> FixedText<N> {
    /// The word of these bytes, of which there are at most N.
    pub fn of(text: &[u8]) -> Self
        requires short { length text.now ≤ N }
        requires no_blanks { list_any is_blank text.now ≡ false }
        requires one_line { list_any is_line_feed text.now ≡ false }
        ensures { result ≡ text.now }
    {
        let mut bytes = [0; N];
        bytes[..text.len()].copy_from_slice(text);
        FixedText {
            bytes,
            len: text.len(),
        }
    }

    /// Its bytes.
    pub fn as_bytes(&self) -> &[u8]
        ensures value { result.now ≡ self.now }
        ensures fits { length result.now ≤ N }
        ensures no_blanks { list_any is_blank result.now ≡ false }
        ensures one_line { list_any is_line_feed result.now ≡ false }
    {
        &self.bytes[..self.len]
    }
}
