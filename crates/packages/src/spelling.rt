//! How names and parameters are spelled. Each test goes through its text once.
ghost use Rattle.std.specs.Prelude.{◌≡◌, nat_le, length};
ghost use Rattle.std.specs.List.{list_all};
ghost use Rattle.packages.specs.Cuts.{items, entries, inside_seen};
ghost use Rattle.packages.specs.Spelling.{is_name_byte, is_word, is_name, is_parameter_byte, is_parameter};
ghost use Rattle.packages.specs.Spelling.{are_parameters, with_parameters};

use crate::cut::{entries, items};
use crate::form::Inside;
use mg_bytes::split_once;

fn is_name_byte(byte: u8) -> bool
    ensures { result ≡ is_name_byte byte }
{
    !(byte == b' '
        || byte == b'\t'
        || byte == b','
        || byte == b'('
        || byte == b')'
        || byte == b'/'
        || byte == b'@'
        || byte == b'['
        || byte == b']')
}

fn all_name_bytes(text: &[u8]) -> bool
    ensures { result ≡ list_all is_name_byte text.now }
{
    text.iter().all(|byte| is_name_byte(*byte))
}

/// Whether a text is one or more bytes of a name: no blank, and none of `,()/@[]`.
pub fn is_word(text: &[u8]) -> bool
    ensures { result ≡ is_word text.now }
{
    text.len() >= 1 && all_name_bytes(text)
}

/// Whether a text is a name, with `@` and a connection behind it or not (RFC 3435, 2.1.7).
#[tactic(auto, unfolding(crate::specs::Spelling::is_name))]
pub fn is_name(text: &[u8]) -> bool
    ensures { result ≡ is_name text.now }
{
    match split_once(text, b'@') {
        Some((name, connection)) => is_word(name) && is_word(connection),
        None => is_word(text),
    }
}

fn is_parameter_byte(byte: u8) -> bool
    ensures { result ≡ is_parameter_byte byte }
{
    !(byte == b',' || byte == b'(' || byte == b')')
}

fn all_parameter_bytes(text: &[u8]) -> bool
    ensures { result ≡ list_all is_parameter_byte text.now }
{
    text.iter().all(|byte| is_parameter_byte(*byte))
}

fn is_parameter(text: &[u8]) -> bool
    ensures { result ≡ is_parameter text.now }
{
    text.len() >= 1 && all_parameter_bytes(text)
}

/// Whether a text is parameters with commas between them, each one or more bytes without commas and parentheses.
#[tactic(auto, unfolding(crate::specs::Spelling::are_parameters))]
pub fn are_parameters(text: &[u8]) -> bool
    ensures { result ≡ are_parameters text.now }
{
    for item in items(text) {
        if !is_parameter(item) {
            return false;
        }
    }
    true
}

/// Whether a head is spelled that has this inside: none, or parameters in one pair of parentheses.
pub fn with_parameters(spelled: bool, inside: Inside<'_>) -> bool
    ensures { result ≡ with_parameters spelled (inside_seen inside.entry) }
{
    match inside {
        Inside::Nothing => spelled,
        Inside::Single(parameters) => spelled && are_parameters(parameters),
        Inside::Double(_, _) => false,
    }
}

/// Whether a value has at most so many entries.
pub fn has_at_most(value: &[u8], most: usize) -> bool
    ensures { result ≡ nat_le (length (entries value.now)) most }
{
    let mut left = most;
    for _entry in entries(value) {
        if left == 0 {
            return false;
        }
        left -= 1;
    }
    true
}
