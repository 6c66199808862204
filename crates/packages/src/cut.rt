//! A text cut at its commas or at its parentheses.
ghost use Rattle.std.specs.Prelude.{◌≡◌, ◌+◌, ◌≤◌, ◌∷◌, [], IfSome, map};
ghost use Rattle.mg_bytes.specs.Blanks.{trimmed};
ghost use Rattle.packages.specs.Cuts.{is_cut, deeper, pieces, pieces_behind, items, entries};

use mg_bytes::{all_blank, trimmed};
use std::marker::Model;

/// Where a text is cut.
#[derive(Clone, Copy)]
pub(crate) enum Cut {
    /// At the commas outside of all parentheses.
    Commas,
    /// At the outermost parentheses.
    Parentheses,
}

fn is_cut(cut: Cut, depth: usize, byte: u8) -> bool
    ensures { result ≡ is_cut cut depth byte }
{
    match cut {
        Cut::Commas => byte == b',' && depth == 0,
        Cut::Parentheses => (byte == b'(' && depth == 0) || (byte == b')' && depth == 1),
    }
}

/// How deep in parentheses the text behind this byte stands, where the byte stands so deep.
pub fn deeper(depth: usize, byte: u8) -> usize
    requires { depth + 1 ≤ usize.MAX }
    ensures value { result ≡ deeper depth byte }
    ensures by_one { result ≤ depth + 1 }
{
    match byte {
        b'(' => depth + 1,
        b')' => depth.saturating_sub(1),
        _ => depth,
    }
}

// The first piece, and what is behind the byte at which it ends, with the depth there.
#[tactic(auto, unfolding(crate::specs::Cuts::pieces))]
fn split_piece(cut: Cut, start: usize, text: &[u8]) -> (&[u8], Option<(&[u8], usize)>)
    requires { start ≤ 1 }
    ensures pieces { pieces cut start text.now ≡ result.0.now ∷ pieces_behind cut result.1 }
    ensures shallow { IfSome result.1 (λ behind. behind.1 ≤ 1) }
{
    let mut depth = start;
    for place in 0..text.len() {
        let byte = text[place];
        let behind = deeper(depth, byte);
        if is_cut(cut, depth, byte) {
            return (&text[..place], Some((&text[place + 1..], behind)));
        }
        depth = behind;
    }
    (text, None)
}

/// The pieces of a text that are left, without the blanks round them. A contract sees their list.
#[derive(Drop)]
pub struct Pieces<'a> {
    cut: Cut,
    depth: usize,
    rest: Option<&'a [u8]>,
}

impl<'a> Model for Pieces<'a> {
    ghost use Rattle.std.specs.Prelude.{◌≤◌, List, ℕ};
    ghost use Rattle.packages.specs.Cuts.{pieces_left};

    ghost Value = { List (List ℕ) };

    ghost view = { λ p. pieces_left p.cut p.depth p.rest };

    ghost invariant = { λ p. p.depth ≤ 1 };
}

impl<'a> Iterator for Pieces<'a> {
    ghost use Rattle.std.specs.Iterator.{YieldsFirstRef, item_count};

    type Item = &'a [u8];

    ghost next_gives = { YieldsFirstRef (λ pieces. pieces) };

    ghost remaining = { item_count (λ pieces. pieces) };

    fn next(&mut self) -> Option<&'a [u8]> {
        let text = self.rest?;
        let (piece, behind) = split_piece(self.cut, self.depth, text);
        match behind {
            Some((rest, depth)) => {
                self.rest = Some(rest);
                self.depth = depth;
            }
            None => self.rest = None,
        }
        Some(trimmed(piece))
    }
}

/// What the commas outside of all parentheses part, each without the blanks round it.
#[tactic(auto, unfolding(crate::specs::Cuts::items))]
pub fn items(text: &[u8]) -> Pieces<'_>
    ensures { result ≡ items text.now }
{
    Pieces {
        cut: Cut::Commas,
        depth: 0,
        rest: Some(text),
    }
}

/// The entries of a value: none where it is blank.
#[tactic(auto, unfolding(crate::specs::Cuts::entries))]
pub fn entries(value: &[u8]) -> Pieces<'_>
    ensures { result ≡ entries value.now }
{
    if all_blank(value) {
        return Pieces {
            cut: Cut::Commas,
            depth: 0,
            rest: None,
        };
    }
    items(value)
}

/// What the outermost parentheses part, each without the blanks round it.
pub(crate) fn between_parentheses(text: &[u8]) -> Pieces<'_>
    ensures { result ≡ map trimmed (pieces Cut.Parentheses 0 text.now) }
{
    Pieces {
        cut: Cut::Parentheses,
        depth: 0,
        rest: Some(text),
    }
}
