//! Where the firsts of a history stand, by their ids.
ghost use Rattle.std.specs.Prelude.{◌≡◌, ◌+◌, ◌-◌, ◌<◌, ◌≤◌, ℕ, nat_eq, false, true, if◌then◌else◌};
ghost use Rattle.std.specs.Prelude.{length, take, drop, None, Some, option_map};
ghost use Rattle.std.specs.Option.{option_and_then};
ghost use Rattle.indexmap.specs.IndexMap.{get, spare, Updates};
ghost use Rattle.transmission.specs.Span.{has_id, is_named};
ghost use Rattle.transmission.specs.Spots.{Indexes, marked_if, cut_by};

use crate::entry::Entry;
use crate::span::{IdSpan, is_named};
use indexmap::IndexMap;

/// Where the latest first with an id stands, and whether a confirmation behind it names the id.
#[derive(Clone, Copy)]
pub struct Spot {
    pub place: usize,
    pub confirmed: bool,
}

/// The spots by their ids.
pub type Spots = IndexMap<u32, Spot>;

/// The spot of this id.
pub(crate) fn spot_of(spots: &Spots, id: u32) -> Option<Spot>
    ensures { result ≡ get nat_eq spots.now id }
{
    spots.get(&id).copied()
}

// A first came behind all others.
fn put_first(spots: &mut Spots, id: u32, place: usize)
    requires { 0 < spare spots.old }
    ensures index { Updates nat_eq spots.old spots.new id (Some (record { place = place; confirmed = false })) }
    ensures room { spare spots.old ≤ spare spots.new + 1 }
{
    let spot = Spot {
        place,
        confirmed: false,
    };
    spots.insert(id, spot).unwrap();
}

fn mark_id(spots: &mut Spots, id: u32)
    ensures marked { (key : ℕ) → get nat_eq spots.new key
        ≡ option_map (marked_if (nat_eq id key)) (get nat_eq spots.old key) }
    ensures room { spare spots.old ≤ spare spots.new }
{
    if let Some(spot) = spots.get_mut(&id) {
        spot.confirmed = true;
    }
}

fn mark_span(spots: &mut Spots, span: &IdSpan)
    ensures marked { (key : ℕ) → get nat_eq spots.new key
        ≡ option_map (marked_if (has_id key span.now)) (get nat_eq spots.old key) }
    ensures room { spare spots.old ≤ spare spots.new }
{
    for id in span.first..=span.last {
        mark_id(spots, id);
    }
}

// Goes through the ids that are named.
fn mark_by_ids(spots: &mut Spots, spans: &[IdSpan])
    ensures marked { (key : ℕ) → get nat_eq spots.new key
        ≡ option_map (marked_if (is_named key spans.now)) (get nat_eq spots.old key) }
    ensures room { spare spots.old ≤ spare spots.new }
{
    for span in spans {
        mark_span(spots, span);
    }
}

// Goes through the spots.
fn mark_by_spots(spots: &mut Spots, spans: &[IdSpan])
    ensures marked { (key : ℕ) → get nat_eq spots.new key
        ≡ option_map (marked_if (is_named key spans.now)) (get nat_eq spots.old key) }
    ensures room { spare spots.old ≤ spare spots.new }
{
    // `len` says that no two spots have one id.
    let _len = spots.len();
    spots.retain(
        |id: &u32, spot: &mut Spot| -> bool
            ensures { (result ≡ true) × (spot.new ≡ marked_if (is_named id.now spans.entry.now) spot.old) }
        {
            spot.confirmed = spot.confirmed || is_named(spans, *id);
            true
        },
    );
}

// How many ids the spans name, or more than the limit.
fn count_ids(spans: &[IdSpan], limit: u64) -> u64 {
    let mut count = 0u64;
    for span in spans {
        if count > limit {
            break;
        }
        let width = u64::from(span.last).saturating_sub(u64::from(span.first));
        count = count.saturating_add(width).saturating_add(1);
    }
    count
}

/// Marks the spots of the ids that these spans name, by whichever is fewer, ids or spots.
pub(crate) fn mark_named(spots: &mut Spots, spans: &[IdSpan])
    ensures marked { (key : ℕ) → get nat_eq spots.new key
        ≡ option_map (marked_if (is_named key spans.now)) (get nat_eq spots.old key) }
    ensures room { spare spots.old ≤ spare spots.new }
{
    let limit = spots.len() as u64;
    if count_ids(spans, limit) < limit {
        mark_by_ids(spots, spans);
    } else {
        mark_by_spots(spots, spans);
    }
}

// Takes in the entry at this place, where those before it are in.
fn settle_one(spots: &mut Spots, entries: &[Entry], place: usize)
    requires inside { place < length entries.now }
    requires index { Indexes spots.old (take place entries.now) }
    requires room { 0 < spare spots.old }
    ensures index { Indexes spots.new (take (place + 1) entries.now) }
    ensures room { spare spots.old ≤ spare spots.new + 1 }
{
    match &entries[place] {
        Entry::First(first) => put_first(spots, first.id, place),
        Entry::Confirmation(spans) => mark_named(spots, spans.as_slice()),
    }
}

/// Takes in the entries from this place on, where those before it are in. This takes no memory.
pub fn settle(spots: &mut Spots, entries: &[Entry], from: usize)
    requires inside { from ≤ length entries.now }
    requires index { Indexes spots.old (take from entries.now) }
    requires room { length entries.now - from ≤ spare spots.old }
    ensures index { Indexes spots.new entries.now }
{
    for place in from..entries.len() {
        settle_one(spots, entries, place);
    }
}

/// Takes out what stands before this place, which comes to stand first. This takes no memory.
pub fn cut(spots: &mut Spots, gone: usize)
    ensures index { (key : ℕ) → get nat_eq spots.new key
        ≡ option_and_then (cut_by gone) (get nat_eq spots.old key) }
    ensures room { spare spots.old ≤ spare spots.new }
{
    // `len` says that no two spots have one id.
    let _len = spots.len();
    spots.retain(
        |_id: &u32, spot: &mut Spot| -> bool
            ensures { (if result then Some spot.new else None) ≡ cut_by gone spot.old }
        {
            match spot.place.checked_sub(gone) {
                Some(place) => {
                    spot.place = place;
                    true
                }
                None => false,
            }
        },
    );
}
