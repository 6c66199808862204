//! The standard streams of a program that was started without some of them.
use std::alloc::Global;
use std::fs::OpenOptions;
use std::os::fd::AsRawFd;
use std::rt::Files;

// The last number of a standard stream.
const LAST: i32 = 2;

/// Holds the null device at those numbers of standard streams that aren't open, so that no file and no socket that is opened later
/// comes to stand there; none where it can't be had. To be called first, and kept to the end.
pub fn hold_standard<R: Files>(rt: &R, alloc: Global) -> Vec<R::File>
where
    R::File: AsRawFd,
{
    let mut held = Vec::new(alloc);
    for _ in 0..=LAST {
        let Ok(file) = OpenOptions::new()
            .read(true)
            .write(true)
            .open(rt, "/dev/null")
        else {
            return Vec::new(alloc);
        };
        if file.as_raw_fd() > LAST {
            break;
        }
        if held.push(file).is_err() {
            return Vec::new(alloc);
        }
    }
    held
}
