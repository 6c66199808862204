//! Which of many items falls due first.
ghost use Rattle.std.specs.Prelude.{◌≡◌, ◌<◌, ◌^◌, length, replicate, slice_set, IfOk, None};
ghost use Rattle.timers.specs.Leaves.{first_of};

use crate::due_item::{DueItem, earlier, is_same};
use mg_bytes::OutOfMemory;
use std::alloc::Global;
use std::marker::Model;

/// So many leaves, each with an item or with none, and the first of all items: a tree of winners, each node the
/// earlier of its two children, with the leaves behind the nodes.
///
/// A contract sees the leaves. Only `new` and `try_copy` take memory.
#[derive(Drop)]
pub(crate) struct Winners {
    leaves: usize,
    // The root is node 1; the children of node i are 2 i and 2 i + 1.
    nodes: Vec<Option<DueItem>>,
}

impl Model for Winners {
    ghost use Rattle.std.specs.Prelude.{List, Option, drop};
    ghost use Rattle.timers.specs.declared.due_item.DueItem.{DueItem};
    ghost use Rattle.timers.specs.Leaves.{IsTree};

    ghost Value = { List (Option DueItem) };

    ghost view = { λ w. drop w.leaves w.nodes.items };

    ghost invariant = { λ w. IsTree w.leaves w.nodes.items };
}

impl Winners {
    /// So many leaves, all of them empty.
    pub(crate) fn new(alloc: Global, leaves: usize) -> Result<Self, OutOfMemory>
        requires some { 0 < leaves }
        requires few { leaves < 2 ^ 32 }
        ensures { IfOk result (λ winners. winners ≡ replicate leaves None) }
    {
        let mut nodes = Vec::new(alloc);
        nodes.resize(2 * leaves, None)?;
        Ok(Winners { leaves, nodes })
    }

    /// A leaf has this now.
    pub(crate) fn put(&mut self, leaf: usize, item: Option<DueItem>)
        requires { leaf < length self.old }
        ensures { self.new ≡ slice_set self.old leaf item }
    {
        let mut node = self.leaves + leaf;
        self.nodes[node] = item;
        node /= 2;
        while node > 0 {
            let winner = earlier(self.nodes[2 * node], self.nodes[2 * node + 1]);
            // Where the winner stays, all further up does.
            if is_same(winner, self.nodes[node]) {
                return;
            }
            self.nodes[node] = winner;
            node /= 2;
        }
    }

    /// What falls due first.
    pub(crate) fn first(&self) -> Option<DueItem>
        ensures { result ≡ first_of self.now }
    {
        self.nodes[1]
    }

    /// Equal leaves of its own.
    pub(crate) fn try_copy(&self) -> Result<Self, OutOfMemory>
        ensures { IfOk result (λ copy. copy ≡ self.now) }
    {
        let nodes = self.nodes.clone()?;
        Ok(Winners {
            leaves: self.leaves,
            nodes,
        })
    }
}
