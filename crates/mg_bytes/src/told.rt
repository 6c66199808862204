//! What was put into a draft, which only clauses read.
ghost use Rattle.std.specs.Prelude.{◌≡◌, ◌++◌, [], List, ℕ};
ghost use Rattle.std.specs.Borrow.{ftrue};

use std::marker::{Model, PhantomData};

/// A list of bytes that clauses read as `items`. It has none when the program runs, and takes no memory.
#[derive(Drop)]
pub struct Told {
    marker: PhantomData<u8>,
    pub ghost items: { List ℕ },
}

impl Model for Told {
    ghost also_owns = { λ _. ftrue };
}

impl Told {
    /// Nothing yet.
    pub fn new() -> Told
        ensures { result.items ≡ [] }
    {
        Told {
            marker: PhantomData,
        }
    }

    /// This piece behind what there is already.
    pub fn note(&mut self, _piece: &[u8])
        ensures { self.new.items ≡ self.old.items ++ _piece.now }
    {}
}
