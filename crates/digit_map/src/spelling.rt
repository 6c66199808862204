//! How a digit map is spelled. Each test goes through its text once.
ghost use Rattle.std.specs.Prelude.{◌≡◌};
ghost use Rattle.std.specs.List.{list_all};
ghost use Rattle.digit_map.specs.Cuts.{parts_of, positions_of};
ghost use Rattle.digit_map.specs.Spelling.{is_digit, is_wildcard, is_part, is_range, is_dot_or_end, is_position};
ghost use Rattle.digit_map.specs.Spelling.{is_string, is_map};

use crate::cut::{positions, strings};
use crate::part::{Part, parts};
use mg_bytes::{letter_of, split_once};

pub(crate) fn is_digit(byte: u8) -> bool
    ensures { result ≡ is_digit byte }
{
    b'0' <= byte && byte <= b'9'
}

pub(crate) fn is_wildcard(byte: u8) -> bool
    ensures { result ≡ is_wildcard byte }
{
    byte.to_ascii_uppercase() == b'X'
}

fn is_part(part: Part) -> bool
    ensures { result ≡ is_part part }
{
    match part {
        Part::Single(byte) => letter_of(byte).is_some() || is_wildcard(byte),
        Part::Span(low, high) => is_digit(low) && is_digit(high) && low <= high,
    }
}

fn all_parts(text: &[u8]) -> bool
    ensures { result ≡ list_all is_part (parts_of text.now) }
{
    for part in parts(text) {
        if !is_part(part) {
            return false;
        }
    }
    true
}

/// Whether a text is spelled as what stands in brackets: one or more letters, `X` and digit spans (RFC 3435, 2.1.5).
pub fn is_range(text: &[u8]) -> bool
    ensures { result ≡ is_range text.now }
{
    !text.is_empty() && all_parts(text)
}

fn is_dot_or_end(text: &[u8]) -> bool
    ensures { result ≡ is_dot_or_end text.now }
{
    matches!(text, [] | [b'.'])
}

#[tactic(auto, unfolding(crate::specs::Spelling::is_position))]
fn is_position(text: &[u8]) -> bool
    ensures { result ≡ is_position text.now }
{
    let [first, behind @ ..] = text else {
        return false;
    };
    if *first != b'[' {
        return is_part(Part::Single(*first)) && is_dot_or_end(behind);
    }
    match split_once(behind, b']') {
        Some((range, behind)) => is_range(range) && is_dot_or_end(behind),
        None => false,
    }
}

fn all_positions(text: &[u8]) -> bool
    ensures { result ≡ list_all is_position (positions_of text.now) }
{
    for position in positions(text) {
        if !is_position(position) {
            return false;
        }
    }
    true
}

#[tactic(auto, unfolding(crate::specs::Spelling::is_string))]
fn is_string(text: &[u8]) -> bool
    ensures { result ≡ is_string text.now }
{
    !text.is_empty() && all_positions(text)
}

/// Whether a text without blanks is spelled as a digit map.
#[tactic(auto, unfolding(crate::specs::Spelling::is_map))]
pub(crate) fn is_map(text: &[u8]) -> bool
    ensures { result ≡ is_map text.now }
{
    for string in strings(text) {
        if !is_string(string) {
            return false;
        }
    }
    true
}
