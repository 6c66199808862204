//! How the value of T is spelled.
ghost use Rattle.std.specs.Prelude.{◌≡◌};
ghost use Rattle.event_syntax.specs.EventSpelling.{is_event, is_detected, are_detected};

use crate::range::is_bracketed;
use mg_bytes::{same_no_case, split_once};
use packages::{entries, form_of, is_name, is_word, with_parameters};

#[tactic(auto, unfolding(crate::specs::EventSpelling::is_event))]
pub(crate) fn is_event(text: &[u8]) -> bool
    ensures { result ≡ is_event text.now }
{
    match split_once(text, b'/') {
        Some((package_name, name)) => {
            is_word(package_name)
                && (is_name(name) || (same_no_case(package_name, b"D") && is_bracketed(name)))
        }
        None => is_name(text),
    }
}

#[tactic(auto, unfolding(crate::specs::EventSpelling::is_detected))]
fn is_detected(entry: &[u8]) -> bool
    ensures { result ≡ is_detected entry.now }
{
    match form_of(entry) {
        Some(form) => with_parameters(is_event(form.head), form.inside),
        None => false,
    }
}

/// Whether a value of T is spelled: entries `[package/]name[@connection]`, or `D/` and a range, each with parameters in
/// one pair of parentheses or without.
#[tactic(auto, unfolding(crate::specs::EventSpelling::are_detected))]
pub(crate) fn are_detected(value: &[u8]) -> bool
    ensures { result ≡ are_detected value.now }
{
    for entry in entries(value) {
        if !is_detected(entry) {
            return false;
        }
    }
    true
}
