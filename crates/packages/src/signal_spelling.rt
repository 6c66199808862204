//! How the value of S is spelled.
ghost use Rattle.std.specs.Prelude.{◌≡◌};
ghost use Rattle.packages.specs.SignalSpelling.{is_signal, is_signal_entry, are_signals};

use crate::cut::entries;
use crate::form::form_of;
use crate::spelling::{is_name, is_word, with_parameters};
use mg_bytes::split_once;

#[tactic(auto, unfolding(crate::specs::SignalSpelling::is_signal))]
fn is_signal(text: &[u8]) -> bool
    ensures { result ≡ is_signal text.now }
{
    match split_once(text, b'/') {
        Some((package, name)) => is_word(package) && is_name(name),
        None => is_name(text),
    }
}

#[tactic(auto, unfolding(crate::specs::SignalSpelling::is_signal_entry))]
fn is_signal_entry(entry: &[u8]) -> bool
    ensures { result ≡ is_signal_entry entry.now }
{
    match form_of(entry) {
        Some(form) => with_parameters(is_signal(form.head), form.inside),
        None => false,
    }
}

/// Whether a value of S is spelled: entries `[package/]name[@connection]`, each with parameters in one pair of
/// parentheses or without.
#[tactic(auto, unfolding(crate::specs::SignalSpelling::are_signals))]
pub fn are_signals(value: &[u8]) -> bool
    ensures { result ≡ are_signals value.now }
{
    for entry in entries(value) {
        if !is_signal_entry(entry) {
            return false;
        }
    }
    true
}
