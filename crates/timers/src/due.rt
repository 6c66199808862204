//! A table of due moments.
ghost use Rattle.std.specs.Prelude.{◌≡◌, ◌↔◌, ◌+◌, ◌*◌, ◌<◌, ◌≤◌, IsTrue, IfOk, IfSome};
ghost use Rattle.timers.specs.Order.{kind_count};
ghost use Rattle.timers.specs.Leaves.{leaf_of};
ghost use Rattle.timers.specs.Table.{nothing_set, with_moment, without, least_of, IsLeast};

use crate::due_item::DueItem;
use crate::kind::{DueKind, KIND_COUNT, number_of};
use crate::winners::Winners;
use mg_bytes::OutOfMemory;
use std::alloc::Global;
use std::marker::Model;

/// What falls due, and when: for each kind of each line one moment at most, in ms. Line 0 is the gateway itself.
///
/// A contract sees how many lines there are, and the items that are set (`DueState`). All memory is taken by `new`
/// and `try_copy`.
#[derive(Drop)]
pub struct Due {
    lines: u16,
    // A leaf for each kind of each line.
    winners: Winners,
}

impl Model for Due {
    ghost use Rattle.timers.specs.Table.{DueState};
    ghost use Rattle.timers.specs.Leaves.{set_in, IsKept};

    ghost Value = { DueState };

    ghost view = { λ due. record { lines = due.lines; table = set_in due.winners } };

    ghost invariant = { λ due. IsKept due.lines due.winners };
}

impl Due {
    /// A table for the gateway itself and so many lines, in which nothing is set. An error is for want of memory only.
    pub fn new(alloc: Global, lines: u16) -> Result<Self, OutOfMemory>
        ensures { IfOk result (λ due. due ≡ nothing_set lines) }
    {
        let winners = Winners::new(alloc, (usize::from(lines) + 1) * KIND_COUNT)?;
        Ok(Due { lines, winners })
    }

    /// Whether the table has a place for the line: it is one of its lines, or 0.
    pub fn has_place(&self, line: u16) -> bool
        ensures { IsTrue result ↔ line ≤ self.now.lines }
    {
        line <= self.lines
    }

    /// Sets the moment, in ms, at which the kind falls due on the line, in place of the one that was set for it.
    pub fn set(&mut self, line: u16, kind: DueKind, moment: u64)
        requires { line ≤ self.old.lines }
        ensures table { self.new.table ≡ with_moment self.old.table line kind moment }
        ensures lines { self.new.lines ≡ self.old.lines }
    {
        self.winners
            .put(leaf_of(line, kind), Some(DueItem { moment, line, kind }));
    }

    /// Takes out the moment that is set for the kind on the line, where there is one.
    pub fn clear(&mut self, line: u16, kind: DueKind)
        requires { line ≤ self.old.lines }
        ensures table { self.new.table ≡ without self.old.table line kind }
        ensures lines { self.new.lines ≡ self.old.lines }
    {
        self.winners.put(leaf_of(line, kind), None);
    }

    /// What falls due first, by moment, then by line, then by kind; `None` where nothing is set.
    pub fn least(&self) -> Option<DueItem>
        ensures least { result ≡ least_of self.now.table }
        // It is set, and nothing that is set comes before it.
        ensures first { IfSome result (IsLeast self.now.table) }
        // So it can be cleared.
        ensures place { IfSome result (λ item. item.line ≤ self.now.lines) }
    {
        self.winners.first()
    }

    /// An equal table of its own. An error changes nothing, as the table is only read.
    pub fn try_copy(&self) -> Result<Self, OutOfMemory>
        ensures { IfOk result (λ copy. copy ≡ self.now) }
    {
        let winners = self.winners.try_copy()?;
        Ok(Due {
            lines: self.lines,
            winners,
        })
    }
}

// The leaf of a kind of a line: line after line, and for each all kinds.
fn leaf_of(line: u16, kind: DueKind) -> usize
    ensures value { result ≡ leaf_of line kind }
    ensures within { result < (line + 1) * kind_count }
{
    usize::from(line) * KIND_COUNT + number_of(kind)
}
