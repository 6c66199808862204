//! The parts of what stands at a position: single bytes and spans.
ghost use Rattle.std.specs.Prelude.{◌≡◌};
ghost use Rattle.digit_map.specs.Cuts.{parts_of, parts_split};

use std::marker::Model;

/// A part of what stands at a position.
#[derive(Clone, Copy)]
pub(crate) enum Part {
    /// A byte that stands for itself, as `5`.
    Single(u8),
    /// The bytes at the ends of a span, as `1-7`.
    Span(u8, u8),
}

/// The parts of a text that are left. A contract sees their list.
#[derive(Drop)]
pub(crate) struct PartsLeft<'a> {
    rest: &'a [u8],
}

impl<'a> Model for PartsLeft<'a> {
    ghost use Rattle.std.specs.Prelude.{List};
    ghost use Rattle.digit_map.specs.declared.part.Part.{Part};
    ghost use Rattle.digit_map.specs.Cuts.{parts_of};

    ghost Value = { List Part };

    ghost view = { λ p. parts_of p.rest.now };
}

// The first part, and what stands behind it.
#[tactic(auto, unfolding(crate::specs::Cuts::parts_of))]
fn split_part(text: &[u8]) -> Option<(Part, &[u8])>
    ensures { parts_of text.now ≡ parts_split result }
{
    match text {
        [low, b'-', high, rest @ ..] => Some((Part::Span(*low, *high), rest)),
        [byte, rest @ ..] => Some((Part::Single(*byte), rest)),
        [] => None,
    }
}

impl<'a> Iterator for PartsLeft<'a> {
    ghost use Rattle.std.specs.Iterator.{YieldsFirst, item_count};

    type Item = Part;

    ghost next_gives = { YieldsFirst (λ parts. parts) };

    ghost remaining = { item_count (λ parts. parts) };

    fn next(&mut self) -> Option<Part> {
        let (part, rest) = split_part(self.rest)?;
        self.rest = rest;
        Some(part)
    }
}

/// The parts of what stands at a position.
pub(crate) fn parts(text: &[u8]) -> PartsLeft<'_>
    ensures { result ≡ parts_of text.now }
{
    PartsLeft { rest: text }
}
