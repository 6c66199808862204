//! A map cut into its strings, and a string cut into its positions.
ghost use Rattle.std.specs.Prelude.{◌≡◌, ◌≤◌, ◌∷◌, length, take, drop, option_map};
ghost use Rattle.digit_map.specs.Cuts.{in_parentheses, strings_of, strings_in, strings_left, is_inside, begins};
ghost use Rattle.digit_map.specs.Cuts.{pieces, positions_of, positions_split, set_of};

use mg_bytes::split_once;
use std::marker::Model;

// The first string, and what stands behind its bar, if there is one.
fn split_string(parted: bool, text: &[u8]) -> (&[u8], Option<&[u8]>)
    ensures { strings_in parted text.now ≡ result.0.now ∷ strings_left parted result.1 }
{
    if !parted {
        return (text, None);
    }
    match split_once(text, b'|') {
        Some((string, rest)) => (string, Some(rest)),
        None => (text, None),
    }
}

/// The strings of a map that are left. A contract sees their list.
#[derive(Drop)]
pub struct StringsLeft<'a> {
    // Whether bars part what is left.
    parted: bool,
    rest: Option<&'a [u8]>,
}

impl<'a> Model for StringsLeft<'a> {
    ghost use Rattle.std.specs.Prelude.{List, ℕ};
    ghost use Rattle.digit_map.specs.Cuts.{strings_left};

    ghost Value = { List (List ℕ) };

    ghost view = { λ s. strings_left s.parted s.rest };
}

impl<'a> Iterator for StringsLeft<'a> {
    ghost use Rattle.std.specs.Iterator.{YieldsFirstRef, item_count};

    type Item = &'a [u8];

    ghost next_gives = { YieldsFirstRef (λ strings. strings) };

    ghost remaining = { item_count (λ strings. strings) };

    fn next(&mut self) -> Option<&'a [u8]> {
        let text = self.rest?;
        let (string, rest) = split_string(self.parted, text);
        self.rest = rest;
        Some(string)
    }
}

// What stands between a `(` at the start and a `)` at the end.
fn in_parentheses(text: &[u8]) -> Option<&[u8]>
    ensures { option_map (λ inside. inside.now) result ≡ in_parentheses text.now }
{
    let [b'(', behind @ ..] = text else {
        return None;
    };
    let [inside @ .., b')'] = behind else {
        return None;
    };
    Some(inside)
}

/// The strings of a map: what bars part in its parentheses, or its text itself where it has none.
#[tactic(auto, unfolding(crate::specs::Cuts::strings_of))]
pub fn strings(map: &[u8]) -> StringsLeft<'_>
    ensures { result ≡ strings_of map.now }
{
    match in_parentheses(map) {
        Some(inside) => StringsLeft {
            parted: true,
            rest: Some(inside),
        },
        None => StringsLeft {
            parted: false,
            rest: Some(map),
        },
    }
}

fn is_inside(inside: bool, byte: u8) -> bool
    ensures { result ≡ is_inside inside byte }
{
    match byte {
        b'[' => true,
        b']' => false,
        _ => inside,
    }
}

fn begins(inside: bool, byte: u8) -> bool
    ensures { result ≡ begins inside byte }
{
    !inside && byte != b'.'
}

// Where the next position begins, behind the byte at which one began.
fn next_begin(start: bool, behind: &[u8]) -> usize
    ensures value { pieces start behind.now ≡ take result behind.now ∷ positions_of (drop result behind.now) }
    ensures inside { result ≤ length behind.now }
{
    let mut inside = start;
    for place in 0..behind.len() {
        let byte = behind[place];
        if begins(inside, byte) {
            return place;
        }
        inside = is_inside(inside, byte);
    }
    behind.len()
}

// The first position, and what stands behind it.
fn split_position(text: &[u8]) -> Option<(&[u8], &[u8])>
    ensures { positions_of text.now ≡ positions_split result }
{
    if text.is_empty() {
        return None;
    }
    let end = next_begin(is_inside(false, text[0]), &text[1..]) + 1;
    Some((&text[..end], &text[end..]))
}

/// The positions of a string that are left, each with its brackets and its dot. A contract sees their list.
#[derive(Drop)]
pub struct PositionsLeft<'a> {
    rest: &'a [u8],
}

impl<'a> Model for PositionsLeft<'a> {
    ghost use Rattle.std.specs.Prelude.{List, ℕ};
    ghost use Rattle.digit_map.specs.Cuts.{positions_of};

    ghost Value = { List (List ℕ) };

    ghost view = { λ p. positions_of p.rest.now };
}

impl<'a> Iterator for PositionsLeft<'a> {
    ghost use Rattle.std.specs.Iterator.{YieldsFirstRef, item_count};

    type Item = &'a [u8];

    ghost next_gives = { YieldsFirstRef (λ positions. positions) };

    ghost remaining = { item_count (λ positions. positions) };

    fn next(&mut self) -> Option<&'a [u8]> {
        let (position, rest) = split_position(self.rest)?;
        self.rest = rest;
        Some(position)
    }
}

/// The positions of a string, from front to back.
pub fn positions(string: &[u8]) -> PositionsLeft<'_>
    ensures { result ≡ positions_of string.now }
{
    PositionsLeft { rest: string }
}

/// What may stand at a position: what its brackets have in them, or its byte.
#[tactic(auto, unfolding(crate::specs::Cuts::set_of))]
pub fn set_of(position: &[u8]) -> &[u8]
    ensures { result.now ≡ set_of position.now }
{
    let [first, behind @ ..] = position else {
        return position;
    };
    if *first != b'[' {
        return &position[..1];
    }
    match split_once(behind, b']') {
        Some((set, _)) => set,
        None => &behind[..0],
    }
}
