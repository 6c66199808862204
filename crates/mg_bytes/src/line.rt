//! The lines of a text.
ghost use Rattle.std.specs.Prelude.{◌≡◌, ◌≢◌, ◌++◌, ◌∷◌, []};
ghost use Rattle.std.specs.List.{concat};
ghost use Rattle.mg_bytes.specs.Lines.{cut, without_end};

use crate::blank::trimmed;
use memchr::memchr;
use std::marker::Model;

// The text up to and with the first line feed, and the rest.
fn split_piece(text: &[u8]) -> (&[u8], &[u8])
    requires { text.now ≢ [] }
    ensures pieces { cut text.now ≡ result.0.now ∷ cut result.1.now }
    ensures whole { text.now ≡ result.0.now ++ result.1.now }
{
    match memchr(b'\n', text) {
        Some(place) => text.split_at(place + 1),
        None => text.split_at(text.len()),
    }
}

fn without_end(piece: &[u8]) -> &[u8]
    ensures { result.now ≡ without_end piece.now }
{
    match piece {
        [before @ .., b'\r', b'\n'] => before,
        [before @ .., b'\n'] => before,
        _ => piece,
    }
}

/// The lines of a text that are left. A contract sees the pieces that they are cut from, each with its end.
#[derive(Drop)]
pub struct Lines<'a> {
    pub(crate) rest: &'a [u8],
}

impl<'a> Model for Lines<'a> {
    ghost use Rattle.std.specs.Prelude.{List, ℕ};
    ghost use Rattle.mg_bytes.specs.Lines.{cut};

    ghost Value = { List (List ℕ) };

    ghost view = { λ l. cut l.rest.now };
}

impl<'a> Lines<'a> {
    /// The bytes that no line was made of yet.
    pub fn rest(&self) -> &'a [u8]
        ensures whole { result.now ≡ concat self.now }
        ensures pieces { cut result.now ≡ self.now }
    {
        self.rest
    }
}

impl<'a> Iterator for Lines<'a> {
    ghost use Rattle.std.specs.Iterator.{item_count};
    ghost use Rattle.mg_bytes.specs.Lines.{TakesLine};

    type Item = &'a [u8];

    ghost next_gives = { TakesLine };

    ghost remaining = { item_count (λ pieces. pieces) };

    fn next(&mut self) -> Option<&'a [u8]> {
        if self.rest.is_empty() {
            return None;
        }
        let (piece, rest) = split_piece(self.rest);
        self.rest = rest;
        Some(trimmed(without_end(piece)))
    }
}
