//! What a history keeps, and how it is read.
ghost use Rattle.std.specs.Prelude.{◌≡◌, option_map, length, filter};
ghost use Rattle.std.specs.List.{list_any};
ghost use Rattle.transmission.specs.Memory.{is_young};
ghost use Rattle.transmission.specs.Kept.{is_young_first, young_firsts};
ghost use Rattle.transmission.specs.Looking.{repeated, confirms};
ghost use Rattle.transmission.specs.Spots.{is_first};

use crate::span::{IdSpan, is_named};
use mg_bytes::{Sequence, Text};

/// A transaction that was executed: when its command first came, and the answer to it (RFC 3435, 3.5.1).
#[derive(Drop)]
pub struct KeptFirst {
    pub id: u32,
    /// In ms.
    pub moment: u64,
    pub answer: Text,
}

/// What a history keeps (RFC 3435, 3.5.1).
#[derive(Drop)]
pub enum Entry {
    First(KeptFirst),
    /// The firsts before it that one of these spans names are confirmed (3.2.2.1).
    Confirmation(Sequence<IdSpan>),
}

fn is_young(moment: u64, now: u64) -> bool
    ensures { result ≡ is_young now moment }
{
    now.saturating_sub(moment) < 30_000
}

/// Whether the entry is a first that is young.
pub fn is_young_first(entry: &Entry, now: u64) -> bool
    ensures { result ≡ is_young_first now entry.now }
{
    match entry {
        Entry::First(first) => is_young(first.moment, now),
        Entry::Confirmation(_) => false,
    }
}

/// How many firsts are young.
pub(crate) fn count_young(entries: &[Entry], now: u64) -> usize
    ensures { result ≡ length (young_firsts now entries.now) }
{
    entries
        .iter()
        .filter(|entry| is_young_first(entry, now))
        .count()
}

fn is_first(entry: &Entry) -> bool
    ensures { result ≡ is_first entry.now }
{
    matches!(entry, Entry::First(_))
}

/// How many firsts there are.
pub fn count_firsts(entries: &[Entry]) -> usize
    ensures { result ≡ length (filter is_first entries.now) }
{
    entries.iter().filter(|entry| is_first(entry)).count()
}

/// The first that the entry is, where a copy with this id repeats it.
pub(crate) fn repeated(entry: &Entry, id: u32, now: u64) -> Option<&KeptFirst>
    ensures { option_map (λ first. first.now) result ≡ repeated entry.now id now }
{
    match entry {
        Entry::First(first) if first.id == id && is_young(first.moment, now) => Some(first),
        _ => None,
    }
}

fn confirms(entry: &Entry, id: u32) -> bool
    ensures { result ≡ confirms id entry.now }
{
    match entry {
        Entry::First(_) => false,
        Entry::Confirmation(spans) => is_named(spans.as_slice(), id),
    }
}

/// Whether a confirmation among these entries names the id.
pub(crate) fn are_confirming(entries: &[Entry], id: u32) -> bool
    ensures { result ≡ list_any (confirms id) entries.now }
{
    entries.iter().any(|entry| confirms(entry, id))
}
