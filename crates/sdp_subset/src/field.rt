//! The lines of a description, and which of them are used (RFC 2327, 6).
ghost use Rattle.std.specs.Prelude.{◌≡◌, ◌&&◌, ◌∷◌, [], MatchOption, map, option_map};
ghost use Rattle.std.specs.List.{list_all};
ghost use Rattle.mg_bytes.specs.Lines.{line_of, lines_of};
ghost use Rattle.mg_bytes.specs.Lists.{is_empty};
ghost use Rattle.sdp_subset.specs.Fields.{is_field, are_fields, has_version, is_media, is_audio};
ghost use Rattle.sdp_subset.specs.Fields.{is_connection, from_audio, first_connection, connection_of};

use mg_bytes::{Lines, lines};

fn is_field(line: &[u8]) -> bool
    ensures { result ≡ is_field line.now }
{
    match line {
        [letter, sign, ..] => letter.is_ascii_alphabetic() && *sign == b'=',
        _ => false,
    }
}

fn all_empty(rest: Lines<'_>) -> bool
    ensures { result ≡ list_all is_empty (map line_of rest.entry) }
{
    for line in rest {
        if !line.is_empty() {
            return false;
        }
    }
    true
}

#[tactic(auto, unfolding(crate::specs::Fields::are_fields))]
fn are_fields(text: &[u8]) -> bool
    ensures { result ≡ are_fields (lines_of text.now) }
{
    let mut rest = lines(text);
    while let Some(line) = rest.next() {
        if line.is_empty() {
            return all_empty(rest);
        }
        if !is_field(line) {
            return false;
        }
    }
    true
}

fn has_version(text: &[u8]) -> bool
    ensures { result ≡ has_version (lines_of text.now) }
{
    match lines(text).next() {
        Some(line) => line == b"v=0".as_slice(),
        None => false,
    }
}

/// Whether the lines of a text are `v=0` and further fields, each a letter, `=` and text; empty lines at the end are
/// dropped (RFC 2327, 6).
pub(crate) fn is_description(text: &[u8]) -> bool
    ensures { result ≡ (has_version (lines_of text.now) && are_fields (lines_of text.now)) }
{
    has_version(text) && are_fields(text)
}

fn is_media(line: &[u8]) -> bool
    ensures { result ≡ is_media line.now }
{
    line.starts_with(b"m=")
}

fn is_audio(line: &[u8]) -> bool
    ensures { result ≡ is_audio line.now }
{
    line.starts_with(b"m=audio")
}

fn is_connection(line: &[u8]) -> bool
    ensures { result ≡ is_connection line.now }
{
    line.starts_with(b"c=")
}

/// The first line that begins `m=audio`; those after it are left.
#[tactic(auto, unfolding(crate::specs::Fields::from_audio))]
pub(crate) fn next_audio<'a>(rest: &mut Lines<'a>) -> Option<&'a [u8]>
    ensures { MatchOption result (from_audio (map line_of rest.old) ≡ [])
        (λ line. from_audio (map line_of rest.old) ≡ line.now ∷ map line_of rest.new) }
{
    while let Some(line) = rest.next() {
        if is_audio(line) {
            return Some(line);
        }
    }
    None
}

#[tactic(auto, unfolding(crate::specs::Fields::first_connection))]
fn first_connection<'a>(rest: Lines<'a>) -> Option<&'a [u8]>
    ensures { option_map (λ line. line.now) result ≡ first_connection (map line_of rest.entry) }
{
    for line in rest {
        if is_media(line) {
            return None;
        }
        if is_connection(line) {
            return Some(line);
        }
    }
    None
}

/// The line that says where the audio stream of a text is received, where the lines after the audio line are given too:
/// among these the first that begins `c=`, if no line between begins `m=`; or else in the whole text the first that
/// does, if none before it begins `m=` (RFC 2327, 6).
#[tactic(auto, unfolding(crate::specs::Fields::connection_of))]
pub(crate) fn connection_of<'a>(text: &'a [u8], after: Lines<'a>) -> Option<&'a [u8]>
    ensures { option_map (λ line. line.now) result ≡ connection_of (lines_of text.now) (map line_of after.entry) }
{
    match first_connection(after) {
        Some(line) => Some(line),
        None => first_connection(lines(text)),
    }
}
