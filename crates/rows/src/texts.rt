//! Pieces and fields of what a row gives, and what tables have under the words of a row.
ghost use Rattle.std.specs.Iterator.{IsFinite};

use scenario_files::{Outcome, Row};

/// What a table has under a name.
pub fn named<T: Copy>(table: &[(&str, T)], name: &str) -> Option<T> {
    for (known, meant) in table {
        if is_word(*known, name) {
            return Some(*meant);
        }
    }
    None
}

/// Whether a word is this one. Asked by a call: two texts that are compared in place are some twenty steps of each function that does.
pub fn is_word(word: &str, name: &str) -> bool {
    word == name
}

/// Whether bytes are these, asked by a call for the same reason.
pub fn are_same(bytes: &[u8], others: &[u8]) -> bool {
    bytes == others
}

/// Bytes of ASCII as words, as they stand in a text that is formed.
pub fn words_of(bytes: &[u8]) -> &str {
    str::from_utf8(bytes).unwrap_or("")
}

/// Puts a piece, with a `|` behind it.
pub fn put_piece(given: &mut Outcome, piece: &[u8]) {
    given.put_both(piece, b"|");
}

/// Puts pieces, each with a `|` behind it.
pub fn put_pieces<'v, I: Iterator<Item = &'v [u8]> + Drop>(given: &mut Outcome, pieces: I)
    requires can { I.can_next pieces }
    requires ends { IsFinite (I.remaining pieces) }
{
    for piece in pieces {
        put_piece(given, piece);
    }
}

// Whether this is one of the fields of a text.
fn has_field(text: &str, wanted: &str) -> bool {
    for field in text.split("  ") {
        if is_word(field, wanted) {
            return true;
        }
    }
    false
}

// Whether a text of fields has all these.
fn has_fields(text: &str, wanted: &str) -> bool {
    for field in wanted.split("  ") {
        if !has_field(text, field) {
            return false;
        }
    }
    true
}

/// Takes all fields back that were put, where those that are left of a row are among them.
pub fn unless_fields(row: &mut Row<'_>) {
    if has_fields(words_of(&row.given.bytes), row.left) {
        row.left = "";
        row.given.bytes.clear();
    }
}
