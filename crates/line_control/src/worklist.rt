//! Lines that wait until they are settled, so that what happens to one costs nothing at the others.
ghost use Rattle.std.specs.Prelude.{◌≡◌, ℕ, true, false, [], IsPermutation};
ghost use Rattle.line_control.specs.Waiting.{waits, settling, settled_at};

use std::alloc::Global;
use std::mem;

/// The places of lines that wait, and those that are settled now. Where memory is refused all lines wait.
pub struct Worklist {
    waiting: Vec<usize>,
    is_all: bool,
    // Those that are settled now, from the least.
    settled: Vec<usize>,
    settles_all: bool,
}

// Written out: a derived drop is proved anew by each crate that lets one go.
impl Drop for Worklist {
    fn drop(self) {
        let Worklist {
            waiting,
            is_all: _,
            settled,
            settles_all: _,
        } = self;
        drop(waiting);
        drop(settled);
    }
}

impl Worklist {
    /// None waits, or all do.
    pub fn new(alloc: Global, is_all: bool) -> Worklist
        ensures all { result.is_all ≡ is_all }
        ensures none { (result.waiting.items ≡ []) × (result.settled.items ≡ []) × (result.settles_all ≡ false) }
    {
        Worklist {
            waiting: Vec::new(alloc),
            is_all,
            settled: Vec::new(alloc),
            settles_all: false,
        }
    }

    /// The line at this place waits.
    #[tactic(auto, using(crate::proofs::WaitingLemmas::waits_last, crate::proofs::WaitingLemmas::waits_still))]
    pub fn put(&mut self, place: usize)
        ensures waits { waits self.new.waiting.items self.new.is_all place ≡ true }
        ensures others { (other : ℕ) → waits self.old.waiting.items self.old.is_all other ≡ true
            → waits self.new.waiting.items self.new.is_all other ≡ true }
        ensures rest { self.new ≡ record self.old { waiting = self.new.waiting; is_all = self.new.is_all } }
    {
        match self.waiting.push(place) {
            Ok(()) => {}
            Err(_) => self.is_all = true,
        }
    }

    /// All lines wait.
    pub fn put_all(&mut self)
        ensures { self.new ≡ record self.old { is_all = true } }
    {
        self.is_all = true;
    }

    /// Those that wait are settled now, in the order of their places; then none waits.
    pub fn begin(&mut self)
        ensures all { self.new.settles_all ≡ self.old.is_all }
        ensures settled { IsPermutation self.old.waiting.items self.new.settled.items }
        ensures none_waits { self.new.waiting.items ≡ [] }
        ensures not_all { self.new.is_all ≡ false }
    {
        mem::swap(&mut self.waiting, &mut self.settled);
        self.waiting.clear();
        self.settled.sort_unstable();
        self.settles_all = self.is_all;
        self.is_all = false;
    }

    /// How many lines are settled now, where there are so many.
    pub fn len(&self, lines: usize) -> usize
        ensures { result ≡ settling self.now.settled.items self.now.settles_all lines }
    {
        if self.settles_all {
            lines
        } else {
            self.settled.len()
        }
    }

    /// The line of these that is settled so many behind the first, where the first line that there is has this place.
    pub fn at(&self, first: usize, index: usize) -> Option<usize>
        ensures { result ≡ settled_at self.now.settled.items self.now.settles_all first index }
    {
        if self.settles_all {
            return Some(first.saturating_add(index));
        }
        self.settled.get(index).copied()
    }
}
