//! The parts of a datagram.
ghost use Rattle.std.specs.Prelude.{◌≡◌, ◌∷◌};
ghost use Rattle.mgcp_text.specs.Parts.{parts_of, parts_left};

use mg_bytes::lines;
use std::marker::Model;

/// The parts of a datagram that are left. A contract sees their list.
#[derive(Drop)]
pub struct Parts<'a> {
    // What follows the last dot line so far; nothing once the last part was given.
    pub(crate) rest: Option<&'a [u8]>,
}

impl<'a> Model for Parts<'a> {
    ghost use Rattle.std.specs.Prelude.{List, ℕ};
    ghost use Rattle.mgcp_text.specs.Parts.{parts_left};

    ghost Value = { List (List ℕ) };

    ghost view = { λ p. parts_left p.rest };
}

// The text in front of the first dot line, and what follows that line, where there is one.
fn split_part(text: &[u8]) -> (&[u8], Option<&[u8]>)
    ensures { parts_of text.now ≡ result.0.now ∷ parts_left result.1 }
{
    let mut lines = lines(text);
    let mut taken = 0;
    while let Some(line) = lines.next() {
        if line == b".".as_slice() {
            return (&text[..taken], Some(lines.rest()));
        }
        taken = text.len() - lines.rest().len();
    }
    (text, None)
}

impl<'a> Iterator for Parts<'a> {
    ghost use Rattle.std.specs.Iterator.{YieldsFirstRef, item_count};

    type Item = &'a [u8];

    ghost next_gives = { YieldsFirstRef (λ parts. parts) };

    ghost remaining = { item_count (λ parts. parts) };

    fn next(&mut self) -> Option<&'a [u8]> {
        let text = self.rest?;
        let (part, rest) = split_part(text);
        self.rest = rest;
        Some(part)
    }
}
