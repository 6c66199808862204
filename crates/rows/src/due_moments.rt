//! A table of due moments of 96 lines, a row each. Line 0 is the gateway itself.
//!
//! - `set 1 T 500` timer T of line 1 is due at this moment, in ms, in place of the one that was set for it; `set 0-32
//!   signal 8 600` signal 8 of each of these lines; the kinds are `T`, `signal 0` and so on, `message` and `announcement`;
//! - `clear 1 T`, `clear 0-32 T` it isn't due any more;
//! - `least 500 1 T` what is due first; `least -` nothing is;
//! - `falls 36` so many are due, each behind the one before, and are cleared;
//! - `keep` and `back`: the table as it was once.
use crate::keeping::{Held, Kept};
use crate::texts::{is_word, named};
use mg_bytes::OutOfMemory;
use packages::SIGNALS;
use scenario_files::{Outcome, Row, Scenario, range_in};
use std::alloc::Global;
use timers::{Due, DueItem, DueKind, LineDue, comes_before};

// How many lines the table has beside the gateway itself.
const LINES: u16 = 96;

// The kinds that a row says by one word.
const KINDS: [(&str, DueKind); 3] = [
    ("T", DueKind::OfLine(LineDue::DigitTimer)),
    ("message", DueKind::Resend),
    ("announcement", DueKind::Announce),
];

// `T` or `signal 8`.
fn kind_of(row: &mut Row<'_>) -> Option<DueKind> {
    let word = row.before(" ");
    if !is_word(word, "signal") {
        return named(&KINDS, word);
    }
    let signal = SIGNALS.get(row.number() as usize)?;
    Some(DueKind::OfLine(LineDue::SignalEnd(*signal)))
}

// What is due first.
fn put_least(given: &mut Outcome, due: &Due) {
    let Some(item) = due.least() else {
        return given.put(b"-");
    };
    given.put_shown(item.moment);
    given.put_behind(b" ", item.line);
    match item.kind {
        DueKind::OfLine(LineDue::DigitTimer) => given.put(b" T"),
        DueKind::OfLine(LineDue::SignalEnd(signal)) => {
            given.put_behind(b" signal ", signal as u8);
        }
        DueKind::Resend => given.put(b" message"),
        DueKind::Announce => given.put(b" announcement"),
    }
}

// How many fall due one behind the other, of so many at most; these are cleared.
fn fallen(due: &mut Due, most: u32) -> u32 {
    let mut last: Option<DueItem> = None;
    for count in 0..most {
        let Some(item) = due.least() else {
            return count;
        };
        if let Some(before) = last {
            if !comes_before(before, item) {
                return count;
            }
        }
        due.clear(item.line, item.kind);
        last = Some(item);
    }
    most
}

// A moment for a kind of this line; without a moment it is cleared. There is no such row where the table has no such line.
fn set(due: &mut Due, given: &mut Outcome, line: u32, kind: DueKind, moment: Option<u32>) {
    let Ok(line) = u16::try_from(line) else {
        return given.unread();
    };
    if !due.has_place(line) {
        return given.unread();
    }
    match moment {
        Some(moment) => due.set(line, kind, u64::from(moment)),
        None => due.clear(line, kind),
    }
}

// The same for each of these places, as `0-32 signal 8 600` says.
fn set_all(due: &mut Due, row: &mut Row<'_>, is_cleared: bool) {
    let Some((first, last)) = range_in(row.before(" ")) else {
        return row.given.unread();
    };
    let Some(kind) = kind_of(row) else {
        return row.given.unread();
    };
    let moment = if is_cleared { None } else { Some(row.number()) };
    for line in first..=last {
        set(due, &mut row.given, line, kind, moment);
        if row.given.is_unread {
            return;
        }
    }
}

impl Scenario for Held<Due> {
    fn begin(alloc: Global) -> Result<Held<Due>, OutOfMemory> {
        Held::of(alloc, Due::new(alloc, LINES)?)
    }

    fn turn(&mut self, row: &mut Row<'_>) {
        let due = &mut *self.thing;
        match row.before(" ") {
            "set" => set_all(due, row, false),
            "clear" => set_all(due, row, true),
            "least" => put_least(&mut row.given, due),
            "falls" => {
                let most = row.left.parse::<u32>().unwrap_or(0);
                row.given.put_shown(fallen(due, most));
            }
            _ => row.given.unread(),
        }
    }
}

impl Kept for Held<Due> {
    fn copy(&self, alloc: Global) -> Result<Held<Due>, OutOfMemory> {
        Held::of(alloc, self.thing.try_copy()?)
    }
}
