//! Where the machine's time of day was set.
ghost use Rattle.std.specs.Prelude.{◌≡◌, None};
ghost use Rattle.live_system.specs.Days.{jump_from};

use crate::clock::time_of_day;
use log_format::{Notice, put_notice};
use output_queues::Record;
use std::alloc::Global;
use std::rt::Clock;
use std::time::Instant;

// By more than so much the time of day parts at once from the machine's clock where it is noted, in microseconds.
const SLACK: u64 = 1_000_000;

const MICROSECONDS: u64 = 1000;

// What the machine said last: a moment of its clock, and the time of day, in microseconds since 1970.
#[derive(Clone, Copy)]
struct Seen {
    at: Instant,
    time: u64,
}

/// The machine's time of day, beside its clock, which nobody sets.
#[derive(Clone, Copy)]
pub struct DayWatch {
    last: Option<Seen>,
}

// What is noted where it would be the first time of day, and is the second, both in microseconds since 1970.
fn jump_from(expected: u64, time: u64) -> Option<Notice>
    ensures { result ≡ jump_from expected time }
{
    let on = time.saturating_sub(expected);
    if SLACK < on {
        return Some(Notice::SetOn {
            ms: on / MICROSECONDS,
        });
    }
    let back = expected.saturating_sub(time);
    if SLACK < back {
        return Some(Notice::SetBack {
            ms: back / MICROSECONDS,
        });
    }
    None
}

impl DayWatch {
    /// The machine wasn't asked yet.
    pub fn new() -> DayWatch
        ensures { result.last ≡ None }
    {
        DayWatch { last: None }
    }

    // Asks the machine: the time of day, in microseconds since 1970, and what is noted, where it was set since it was asked last.
    fn look<R: Clock>(&mut self, rt: &R) -> Option<(u64, Notice)> {
        let Ok(at) = Instant::now(rt) else {
            return None;
        };
        let time = time_of_day(rt)?;
        let was = self.last;
        self.last = Some(Seen { at, time });
        let Some(seen) = was else {
            return None;
        };
        let passed = at.saturating_duration_since(seen.at).as_micros();
        let passed = u64::try_from(passed).unwrap_or(u64::MAX);
        match jump_from(seen.time.saturating_add(passed), time) {
            Some(notice) => Some((time, notice)),
            None => None,
        }
    }

    /// A line that stands before what a log has now, where it has anything: that the time of day was set since this was asked last, if it
    /// was. Where memory is refused there is none.
    pub fn line<R: Clock>(&mut self, rt: &R, alloc: Global, log: &Record) -> Option<Vec<u8>> {
        if log.out.is_empty() {
            return None;
        }
        let (time, notice) = self.look(rt)?;
        let mut line = Vec::new(alloc);
        match put_notice(alloc, &mut line, time, notice) {
            Ok(()) => Some(line),
            Err(_) => None,
        }
    }
}
