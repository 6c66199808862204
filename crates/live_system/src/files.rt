//! Files that are read whole.
use std::alloc::Global;
use std::fs::File;
use std::io::{ErrorKind, Read};
use std::rt::Files;

/// What stands in a file that has so many bytes at most; of a longer one, one byte more. Where it can't be read, or memory is refused,
/// the error is of this kind.
pub fn read_file<R: Files>(
    rt: &R,
    alloc: Global,
    file: &str,
    most: u64,
) -> Result<Vec<u8>, ErrorKind> {
    let opened = match File::open(rt, file) {
        Ok(opened) => opened,
        Err(fault) => return Err(fault.kind()),
    };
    let mut reader = opened.take(most.saturating_add(1));
    let mut bytes = Vec::new(alloc);
    match reader.read_to_end(&mut bytes) {
        Ok(_) => Ok(bytes),
        Err(fault) => Err(fault.kind()),
    }
}
