//! Large values in a place of their own.
use mg_bytes::{OutOfMemory, boxed};
use std::alloc::Global;

/// A value that was made, in a box, or why it wasn't: a check pays for all that a value holds inline at each step of a function that has
/// one.
pub fn in_box<T: Drop, E: From<OutOfMemory> + Drop>(
    alloc: Global,
    made: Result<T, E>,
) -> Result<Box<T>, E> {
    let value = made?;
    Ok(boxed(alloc, value)?)
}
