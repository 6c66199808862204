//! What rows go on with. Some kinds can be kept as they are, and come back: `keep` and `back` of each such kind.
use mg_bytes::{OutOfMemory, boxed};
use scenario_files::{Row, Scenario};
use std::alloc::Global;

/// A kind that can be kept.
pub trait Kept: Scenario {
    /// The same once more.
    fn copy(&self, alloc: Global) -> Result<Self, OutOfMemory>;
}

/// What rows go on with, in a box.
#[derive(Drop)]
pub struct Held<T> {
    pub(crate) thing: Box<T>,
}

impl<T: Drop> Held<T> {
    /// The only error is want of memory, at which the value is gone.
    pub fn of(alloc: Global, thing: T) -> Result<Held<T>, OutOfMemory> {
        Ok(Held {
            thing: boxed(alloc, thing)?,
        })
    }
}

/// A scenario, and as it was kept; under a new title that is as it begins.
#[derive(Drop)]
pub struct Keeping<T> {
    now: T,
    kept: T,
}

impl<T: Kept + Drop> Keeping<T> {
    // A row is played at a copy, which takes the place of the scenario once all is done.
    fn go_on(&mut self, row: &mut Row<'_>) {
        let Ok(mut next) = self.now.copy(row.given.alloc) else {
            return row.given.refuse();
        };
        next.turn(row);
        if row.given.is_refused {
            return;
        }
        self.now = next;
    }
}

impl<T: Kept + Drop> Scenario for Keeping<T> {
    fn begin(alloc: Global) -> Result<Keeping<T>, OutOfMemory> {
        let now = T::begin(alloc)?;
        let kept = now.copy(alloc)?;
        Ok(Keeping { now, kept })
    }

    fn turn(&mut self, row: &mut Row<'_>) {
        let alloc = row.given.alloc;
        match row.left {
            "keep" => match self.now.copy(alloc) {
                Ok(copy) => self.kept = copy,
                Err(_) => return row.given.refuse(),
            },
            "back" => match self.kept.copy(alloc) {
                Ok(copy) => self.now = copy,
                Err(_) => return row.given.refuse(),
            },
            _ => return self.go_on(row),
        }
        row.left = "";
    }
}
