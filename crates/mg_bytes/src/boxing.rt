//! What is large is put into a box at once: a check pays for all that a value holds inline at each step of a function that has one.
ghost use Rattle.std.specs.Prelude.{◌≡◌, IfOk};

use crate::owned::OutOfMemory;
use std::alloc::{AllocError, Global};

/// The value in a box. Its only error is want of memory, at which the value is gone.
pub fn boxed<T: Drop>(alloc: Global, value: T) -> Result<Box<T>, OutOfMemory>
    ensures { IfOk result (λ held. held.value ≡ value) }
{
    match Box::new(alloc, value) {
        Ok(held) => Ok(held),
        Err(_) => Err(AllocError),
    }
}
