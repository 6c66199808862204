//! What a history recalls of an id.
ghost use Rattle.std.specs.Prelude.{◌≡◌, ◌<◌, ◌≤◌, IsTrue, Some, nat_lt, option_map};
ghost use Rattle.std.specs.Prelude.{length, take, drop, slice_get};
ghost use Rattle.std.specs.List.{list_any};
ghost use Rattle.transmission.specs.Memory.{most_firsts};
ghost use Rattle.transmission.specs.Kept.{young_firsts, firsts_in, AreInOrder};
ghost use Rattle.transmission.specs.declared.entry.Entry.{Entry as KeptEntry};
ghost use Rattle.transmission.specs.Looking.{latest, repeated, confirms, recalled};
ghost use Rattle.transmission.specs.Spots.{Indexes, recalled_in, also};

use crate::entry::{Entry, KeptFirst, are_confirming, count_young, is_young_first, repeated};
use crate::spots::{Spots, spot_of};
use mg_bytes::Text;

/// So many firsts are young at a time (this gateway's profile).
pub const MOST_FIRSTS: usize = 4096;

/// What is recalled of an id: the answer to the first that a copy repeats, and whether that is confirmed.
#[derive(Clone, Copy)]
pub struct Recollection<'a> {
    pub answer: &'a Text,
    pub confirmed: bool,
}

// The first that a copy with this id repeats, and the entries after it.
fn latest(entries: &[Entry], id: u32, now: u64) -> Option<(&KeptFirst, &[Entry])>
    ensures { option_map (λ found. record { first = found.0.now; after = found.1.now }) result
        ≡ latest entries.now id now }
{
    for place in (0..entries.len()).rev() {
        if let Some(first) = repeated(&entries[place], id, now) {
            return Some((first, &entries[place + 1..]));
        }
    }
    None
}

// What these entries recall, by a walk.
fn recall(entries: &[Entry], id: u32, now: u64) -> Option<Recollection<'_>>
    ensures { option_map recalled_in result ≡ recalled entries.now id now }
{
    let (first, after) = latest(entries, id, now)?;
    Some(Recollection {
        answer: &first.answer,
        confirmed: are_confirming(after, id),
    })
}

// The first at this place, where a copy with this id repeats it.
fn repeated_at(entries: &[Entry], place: usize, id: u32, now: u64) -> Option<&KeptFirst>
    requires { place < length entries.now }
    ensures { (entry : KeptEntry) → slice_get entries.now place ≡ Some entry →
        option_map (λ first. first.now) result ≡ repeated entry id now }
{
    repeated(&entries[place], id, now)
}

// What these entries recall, by their index, where so many of them are gone.
fn recall_settled<'a>(
    entries: &'a [Entry],
    gone: usize,
    spots: &Spots,
    id: u32,
    now: u64,
) -> Option<Recollection<'a>>
    requires gone { gone ≤ length entries.now }
    requires index { Indexes spots.now entries.now }
    ensures { option_map recalled_in result ≡ recalled (drop gone entries.now) id now }
{
    match spot_of(spots, id) {
        Some(spot) if spot.place >= gone => match repeated_at(entries, spot.place, id, now) {
            Some(first) => Some(Recollection {
                answer: &first.answer,
                confirmed: spot.confirmed,
            }),
            // An earlier one may be young where the clock went back.
            None => recall(&entries[gone..], id, now),
        },
        // What is gone isn't kept any more.
        Some(_) => None,
        None => None,
    }
}

// What was recalled of an id, where these entries came since.
fn also_confirmed<'a>(earlier: Recollection<'a>, since: &[Entry], id: u32) -> Recollection<'a>
    ensures { recalled_in result ≡ also (list_any (confirms id) since.now) (recalled_in earlier.entry) }
{
    Recollection {
        answer: earlier.answer,
        confirmed: earlier.confirmed || are_confirming(since, id),
    }
}

/// What these entries recall, where so many of them are gone, and so many are in the index. What came since is walked: it
/// is what one event keeps.
pub fn recall_kept<'a>(
    entries: &'a [Entry],
    gone: usize,
    settled: usize,
    spots: &Spots,
    id: u32,
    now: u64,
) -> Option<Recollection<'a>>
    requires gone { gone ≤ settled }
    requires settled { settled ≤ length entries.now }
    requires index { Indexes spots.now (take settled entries.now) }
    ensures { option_map recalled_in result ≡ recalled (drop gone entries.now) id now }
{
    let since = &entries[settled..];
    if let Some(recollection) = recall(since, id, now) {
        return Some(recollection);
    }
    let earlier = recall_settled(&entries[..settled], gone, spots, id, now)?;
    Some(also_confirmed(earlier, since, id))
}

/// How many of so many firsts are young. Where they came in the order of their moments, this is told without a walk after a
/// purge at the same moment.
pub fn count_young_of(entries: &[Entry], firsts: usize, in_order: bool, now: u64) -> usize
    requires counted { firsts ≡ length (firsts_in entries.now) }
    requires order { IsTrue in_order → AreInOrder (firsts_in entries.now) }
    ensures { result ≡ length (young_firsts now entries.now) }
{
    match entries {
        [first, ..] if in_order && is_young_first(first, now) => firsts,
        _ => count_young(entries, now),
    }
}

/// Whether fewer firsts are young than there may be.
pub fn has_room(entries: &[Entry], firsts: usize, in_order: bool, now: u64) -> bool
    requires counted { firsts ≡ length (firsts_in entries.now) }
    requires order { IsTrue in_order → AreInOrder (firsts_in entries.now) }
    ensures { result ≡ nat_lt (length (young_firsts now entries.now)) most_firsts }
{
    if firsts < MOST_FIRSTS {
        return true;
    }
    count_young_of(entries, firsts, in_order, now) < MOST_FIRSTS
}
