//! A list of at most so many values, which takes no memory.
ghost use Rattle.std.specs.Prelude.{◌≡◌, ◌<◌, ◌≤◌, ◌++◌, ◌∷◌, [], length};

use std::marker::Model;

/// At most `N` values in their order, which lie in the list itself. A contract sees their list.
#[derive(Drop)]
pub struct Few<T, const N: usize> {
    // So many values stand at the front.
    places: [T; N],
    count: usize,
}

impl<T, const N: usize> Model for Few<T, N> {
    ghost use Rattle.std.specs.Prelude.{◌≤◌, List, take};

    ghost Value = { List T };

    ghost view = { λ f. take f.count f.places };

    ghost invariant = { λ f. f.count ≤ N };
}

impl<T: Copy + Default, const N: usize> Few<T, N> {
    /// No values.
    pub fn new() -> Self
        ensures { result ≡ [] }
    {
        Few {
            places: [T::default(); N],
            count: 0,
        }
    }

    /// Adds a value at the end; there are fewer than `N` before.
    pub fn push(&mut self, item: T)
        requires { length self.old < N }
        ensures { self.new ≡ self.old ++ item ∷ [] }
    {
        self.places[self.count] = item;
        self.count += 1;
    }

    /// The values.
    pub fn as_slice(&self) -> &[T]
        ensures value { result.now ≡ self.now }
        ensures few { length result.now ≤ N }
    {
        &self.places[..self.count]
    }
}
