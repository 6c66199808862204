//! Rows under titles: a row is a turn of what its scenario is about, and says what it gives.
use crate::again;
use crate::report::Report;
use crate::row::Row;
use crate::texts::{in_full, parted};
use mg_bytes::{OutOfMemory, decimal};
use std::alloc::Global;

/// What the rows under a title are about.
pub trait Scenario {
    /// What it is under a new title.
    fn begin(alloc: Global) -> Result<Self, OutOfMemory>;

    /// Plays a row. Where memory was refused, which the row keeps, it is as it was.
    fn turn(&mut self, row: &mut Row<'_>);
}

// How often a row is played, and the row: `64 x 1000 flash`.
fn times_of(row: &str) -> (u64, &str) {
    if let Some((times, once)) = row.split_once(" x ") {
        if let Some(times) = decimal(times.as_bytes()) {
            return (times, once);
        }
    }
    (1, row)
}

// What a row gives that it doesn't say.
fn unlike<T: Scenario>(
    alloc: Global,
    scenario: &mut T,
    written: &str,
) -> Result<Option<String>, OutOfMemory> {
    let full = in_full(alloc, written)?;
    let mut row = Row::of(alloc, full.as_str());
    scenario.turn(&mut row);
    again!(row.unlike())
}

// What a row gives that it doesn't say, the first time that it does. It is played again where memory is refused.
fn first_unlike<T: Scenario>(
    alloc: Global,
    scenario: &mut T,
    written: &str,
) -> Result<Option<String>, OutOfMemory> {
    let (times, once) = times_of(written);
    for _ in 0..times {
        let given = again!(unlike(alloc, scenario, once))?;
        if given.is_some() {
            return Ok(given);
        }
    }
    Ok(None)
}

// Tells the rows under a title.
fn told_block<T: Scenario + Drop>(alloc: Global, title: &str, rows: &str, report: &mut Report) {
    let Ok(mut scenario) = again!(T::begin(alloc)) else {
        return report.refuse();
    };
    for written in rows.lines() {
        if !written.is_empty() && !written.starts_with('#') {
            let unlike = first_unlike(alloc, &mut scenario, written);
            report.row(title, written, &unlike);
        }
    }
}

/// Tells the rows of a text, which begin anew under each line `= TITLE`.
pub fn told<T: Scenario + Drop>(alloc: Global, text: &str, report: &mut Report) {
    let mut blocks = text.split("\n= ");
    let _ = blocks.next();
    for block in blocks {
        let (title, rows) = parted(block, "\n");
        told_block::<T>(alloc, title, rows, report);
    }
}
