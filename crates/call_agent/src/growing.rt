//! A list that grows while an event happens, and is cut back where the event fails.
ghost use Rattle.std.specs.Prelude.{◌≡◌, ◌++◌, ◌∷◌, [], OnOk, OnErr};
ghost use Rattle.call_agent.specs.Growing.{grown_to, committed, rolled_back};

use mg_bytes::OutOfMemory;
use std::alloc::Global;
use std::marker::Model;

/// Values in their order. A contract sees their list, and as the event that happens found it.
#[derive(Drop)]
pub struct Growing<T> {
    items: Vec<T>,
    // How many there were before the event.
    count: usize,
}

impl<T> Model for Growing<T> {
    ghost use Rattle.std.specs.Prelude.{◌≤◌, length, take};
    ghost use Rattle.call_agent.specs.Growing.{Grown};

    ghost Value = { Grown T };

    ghost view = { λ g. record { is = g.items.items; found = take g.count g.items.items } };

    ghost invariant = { λ g. g.count ≤ length g.items.items };
}

impl<T: Drop> Growing<T> {
    /// No values. This takes no memory yet.
    pub fn new(alloc: Global) -> Self
        ensures { result ≡ grown_to [] }
    {
        Growing {
            items: Vec::new(alloc),
            count: 0,
        }
    }

    /// The values.
    pub fn as_slice(&self) -> &[T]
        ensures { result.now ≡ self.now.is }
    {
        &self.items
    }

    /// Adds a value at the end. After an error the values are as they were.
    pub fn push(&mut self, item: T) -> Result<(), OutOfMemory>
        ensures ok { OnOk result (self.new ≡ record self.old { is = self.old.is ++ item ∷ [] }) }
        ensures err { OnErr result (self.new ≡ self.old) }
    {
        self.items.push(item)?;
        Ok(())
    }

    /// Adds more values at the end: all of them, or after an error none.
    pub fn append(&mut self, mut more: Vec<T>) -> Result<(), OutOfMemory>
        ensures ok { OnOk result (self.new ≡ record self.old { is = self.old.is ++ more.items }) }
        ensures err { OnErr result (self.new ≡ self.old) }
    {
        self.items.append(&mut more)
    }

    /// What the next event finds is what is there. This takes no memory.
    pub fn commit(&mut self)
        ensures { self.new ≡ committed self.old }
    {
        self.count = self.items.len();
    }

    /// The event failed: there is again what it found. This takes no memory.
    pub fn rollback(&mut self)
        ensures { self.new ≡ rolled_back self.old }
    {
        self.items.truncate(self.count);
    }
}
