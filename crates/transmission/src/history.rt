//! The transactions that an end remembers.
ghost use Rattle.std.specs.Prelude.{◌≡◌, ◌+◌, ◌≤◌, ℕ, nat_lt, List, [], length, drop, position, Some, option_map, OnOk, OnErr};
ghost use Rattle.transmission.specs.declared.entry.Entry.{Entry as KeptEntry};
ghost use Rattle.transmission.specs.declared.entry.Entry.TheVariants.{Confirmation};
ghost use Rattle.transmission.specs.Memory.{most_firsts};
ghost use Rattle.transmission.specs.Kept.{settled_at, first_entry, kept_with};
ghost use Rattle.transmission.specs.Kept.{is_young_first, young_firsts, from_young};
ghost use Rattle.transmission.specs.Looking.{looked_in, recalled, look_of};
ghost use Rattle.transmission.specs.Spots.{recalled_in};
ghost use Rattle.transmission.specs.Recalling.{TellsArrival, TellsAlike};

use crate::entry::{Entry, KeptFirst, count_firsts, is_young_first};
use crate::look::Look;
use crate::recall::{Recollection, count_young_of, has_room, recall_kept};
use crate::span::IdSpan;
use crate::spots::{Spots, cut, settle};
use indexmap::IndexMap;
use mg_bytes::{OutOfMemory, Sequence, Text};
use std::alloc::Global;
use std::marker::Model;
use std::mem;

/// The transactions that an end remembers (RFC 3435, 3.5.1). A contract sees the firsts and confirmations that are kept,
/// in the order in which they came, and those of them that `undo` leaves.
///
/// For each command that arrives the end asks `look`. Where that is new, it executes the command, and calls `keep` with what
/// a readable K names and with its answer, or `confirm` and then `first`. Nothing else is kept.
pub struct History {
    // What is kept, behind what is gone and not cut off yet.
    entries: Vec<Entry>,
    gone: usize,
    // How many entries were there after the last purge. These are in the index.
    settled: usize,
    spots: Spots,
    // How many of those kept are firsts.
    firsts: usize,
    // The latest moment so far, unless the clock went back.
    reached: Option<u64>,
    // The moment of the last purge.
    purged: u64,
}

// Written out: a derived drop, and those of all its parts, are proved anew by each crate that lets one go.
impl Drop for History {
    fn drop(self) {
        let History {
            entries,
            gone: _,
            settled: _,
            spots,
            firsts: _,
            reached: _,
            purged: _,
        } = self;
        mem::drop(entries);
        mem::drop(spots);
    }
}

impl Model for History {
    ghost use Rattle.transmission.specs.Kept.{HistoryState};

    ghost Value = { HistoryState };

    ghost use Rattle.std.specs.Prelude.{length, take, drop};

    ghost view = { λ h. record {
      kept = drop h.gone h.entries.items;
      settled = drop h.gone (take h.settled h.entries.items);
      purged = h.purged;
    } };

    ghost use Rattle.transmission.specs.Spots.{IsIndexed};

    ghost invariant = { λ h. IsIndexed h.entries.items h.gone h.settled h.spots h.firsts h.reached };
}

impl History {
    /// No transactions (RFC 3435, 3.5.1). This takes no memory yet.
    pub fn new(alloc: Global) -> Self
        ensures { result ≡ settled_at 0 [] }
    {
        History {
            entries: Vec::new(alloc),
            gone: 0,
            settled: 0,
            spots: IndexMap::new(alloc),
            firsts: 0,
            reached: Some(0),
            purged: 0,
        }
    }

    /// How many firsts are kept that are young at the moment of the last purge (RFC 3435, 3.5.1). This takes no memory.
    pub fn len(&self) -> usize
        ensures young { result ≡ length (young_firsts self.now.purged self.now.kept) }
        // After a purge these are all that were kept before it and are young at its moment, in whatever order they came.
        ensures purged { (now : ℕ) (before : List KeptEntry) →
            self.now ≡ settled_at now (from_young now before) → result ≡ length (young_firsts now before) }
    {
        self.count()
    }

    fn count(&self) -> usize
        ensures { result ≡ length (young_firsts self.now.purged self.now.kept) }
    {
        self.young(self.purged)
    }

    /// How many firsts are kept that are young at this moment (RFC 3435, 3.5.1). This takes no memory.
    pub fn young(&self, now: u64) -> usize
        ensures { result ≡ length (young_firsts now self.now.kept) }
    {
        let in_order = self.reached.is_some();
        let kept = &self.entries[self.gone..];
        count_young_of(kept, self.firsts, in_order, now)
    }

    /// What a command is that arrives now with this id: a copy is sought first, so a repeat is never lost (RFC 3435,
    /// 3.5.1). This takes no memory.
    pub fn look(&self, id: u32, now: u64) -> Look<'_>
        ensures kept { looked_in result ≡ look_of most_firsts self.now.kept id now }
        // Where they recall all that arrived, this is what the command is of it.
        ensures arrived { TellsArrival (looked_in result) self.now.kept id now }
    {
        self.tell(id, now)
    }

    #[tactic(auto, unfolding(crate::specs::Looking::look_of))]
    fn tell(&self, id: u32, now: u64) -> Look<'_>
        ensures { looked_in result ≡ look_of most_firsts self.now.kept id now }
    {
        match self.recall(id, now) {
            Some(recollection) if recollection.confirmed => Look::Confirmed,
            Some(recollection) => Look::Repeat(recollection.answer),
            None if self.has_room(now) => Look::New,
            None => Look::Full,
        }
    }

    // What is recalled of this id.
    fn recall(&self, id: u32, now: u64) -> Option<Recollection<'_>>
        ensures { option_map recalled_in result ≡ recalled self.now.kept id now }
    {
        recall_kept(&self.entries, self.gone, self.settled, &self.spots, id, now)
    }

    // Whether fewer firsts are young than there may be.
    fn has_room(&self, now: u64) -> bool
        ensures { result ≡ nat_lt (length (young_firsts now self.now.kept)) most_firsts }
    {
        let in_order = self.reached.is_some();
        has_room(&self.entries[self.gone..], self.firsts, in_order, now)
    }

    /// Keeps a transaction that was executed (RFC 3435, 3.5.1). After an error the history is as it was.
    pub fn first(&mut self, id: u32, moment: u64, answer: Text) -> Result<(), OutOfMemory>
        ensures ok { OnOk result (self.new ≡ kept_with self.old (first_entry id moment answer)) }
        ensures err { OnErr result (self.new ≡ self.old) }
    {
        self.spots.reserve(self.entries.len() - self.settled + 1)?;
        self.entries
            .push(Entry::First(KeptFirst { id, moment, answer }))?;
        count_first(&mut self.firsts, &mut self.reached, moment);
        Ok(())
    }

    /// Confirms the firsts so far that these spans name (RFC 3435, 3.2.2.1 and 3.5.1): copies of them get silence from
    /// now on. After an error the history is as it was.
    pub fn confirm(&mut self, spans: Sequence<IdSpan>) -> Result<(), OutOfMemory>
        ensures ok { OnOk result (self.new ≡ kept_with self.old (Confirmation spans)) }
        ensures err { OnErr result (self.new ≡ self.old) }
    {
        self.spots.reserve(self.entries.len() - self.settled + 1)?;
        self.entries.push(Entry::Confirmation(spans))?;
        Ok(())
    }

    /// Keeps a transaction that was executed, behind what its K confirms (RFC 3435, 3.2.2.1 and 3.5.1): `confirm` and `first`
    /// in one, or, after an error, neither.
    pub fn keep(
        &mut self,
        id: u32,
        moment: u64,
        confirms: Sequence<IdSpan>,
        answer: Text,
    ) -> Result<(), OutOfMemory>
        ensures ok { OnOk result (self.new
            ≡ kept_with (kept_with self.old (Confirmation confirms)) (first_entry id moment answer)) }
        ensures err { OnErr result (self.new ≡ self.old) }
    {
        self.spots.reserve(self.entries.len() - self.settled + 2)?;
        self.entries.reserve(2)?;
        self.entries.push_reserved(Entry::Confirmation(confirms));
        let first = KeptFirst { id, moment, answer };
        self.entries.push_reserved(Entry::First(first));
        count_first(&mut self.firsts, &mut self.reached, moment);
        Ok(())
    }

    /// Drops what came before the first young first, and settles the rest: `undo` comes back here (RFC 3435, 3.5.1). What
    /// is told from now on stays the same. This takes no memory.
    pub fn purge(&mut self, now: u64)
        ensures kept { self.new ≡ settled_at now (from_young now self.old.kept) }
        // From now on the same is told of every command.
        ensures told { TellsAlike self.new.kept self.old.kept now }
    {
        self.settle();
        self.pass_old(now);
        self.cut_off();
    }

    // Takes into the index what isn't in it yet. There is room for that.
    fn settle(&mut self)
        ensures { self.new ≡ settled_at self.old.purged self.old.kept }
    {
        settle(&mut self.spots, &self.entries, self.settled);
        self.settled = self.entries.len();
    }

    // Passes what came before the first young one, where all is settled: that is the purge at this moment.
    fn pass_old(&mut self, now: u64)
        requires { self.old.settled ≡ self.old.kept }
        ensures { self.new ≡ settled_at now (from_young now self.old.kept) }
    {
        let kept = &self.entries[self.gone..];
        let old = count_old(kept, now);
        self.firsts -= count_firsts(&kept[..old]);
        self.gone += old;
        self.purged = now;
    }

    // Cuts off what is gone, once it is more than the rest: so each entry is moved less than once for one that came.
    fn cut_off(&mut self)
        ensures { self.new ≡ self.old }
    {
        if self.gone <= self.entries.len() - self.gone {
            return;
        }
        cut(&mut self.spots, self.gone);
        drop_front(&mut self.entries, self.gone);
        self.settled -= self.gone;
        self.gone = 0;
    }

    /// Takes back each `first` and `confirm` since the last purge, or since `new` where there was none, so that they never
    /// were (RFC 3435, 3.5.1). This takes no memory.
    pub fn undo(&mut self)
        ensures { self.new ≡ settled_at self.old.purged self.old.settled }
    {
        self.firsts -= count_firsts(&self.entries[self.settled..]);
        self.entries.truncate(self.settled);
    }
}

// The latest moment so far, where they rise.
fn later(reached: Option<u64>, moment: u64) -> Option<u64>
    ensures { (now : ℕ) → result ≡ Some now →
        (now ≡ moment) × (latest : ℕ) × (reached ≡ Some latest) × (latest ≤ moment) }
{
    match reached {
        Some(latest) if latest <= moment => Some(moment),
        _ => None,
    }
}

// One more first came, at this moment.
fn count_first(firsts: &mut usize, reached: &mut Option<u64>, moment: u64)
    requires { firsts.old + 1 ≤ usize.MAX }
    ensures firsts { firsts.new ≡ firsts.old + 1 }
    ensures reached { (now : ℕ) → reached.new ≡ Some now →
        (now ≡ moment) × (latest : ℕ) × (reached.old ≡ Some latest) × (latest ≤ moment) }
{
    *firsts += 1;
    *reached = later(*reached, moment);
}

// The place of the first young one.
fn first_young(entries: &[Entry], now: u64) -> Option<usize>
    ensures { result ≡ position (is_young_first now) entries.now }
{
    entries.iter().position(|entry| is_young_first(entry, now))
}

// How many entries stand before the first young one.
fn count_old(entries: &[Entry], now: u64) -> usize
    ensures rest { from_young now entries.now ≡ drop result entries.now }
    ensures within { result ≤ length entries.now }
{
    match first_young(entries, now) {
        Some(place) => place,
        None => entries.len(),
    }
}

// So many in front are dropped.
fn drop_front(entries: &mut Vec<Entry>, count: usize)
    requires { count ≤ length entries.old.items }
    ensures { entries.new.items ≡ drop count entries.old.items }
{
    entries.drain(..count);
}
