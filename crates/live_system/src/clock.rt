//! The machine's clock.
use std::io;
use std::rt::Clock;
use std::time::{Instant, SystemTime};

/// The machine's clock, whose moments are ms from the start.
#[derive(Drop)]
pub struct LiveClock<'a, R> {
    rt: &'a R,
    start: Instant,
    // The time of day at the start, in microseconds since 1970; 0 where the machine had none. It goes on from there while it has none.
    opened: u64,
}

/// The time of day, in microseconds since 1970, where the machine has one.
pub fn time_of_day<R: Clock>(rt: &R) -> Option<u64> {
    let Ok(now) = SystemTime::now(rt) else {
        return None;
    };
    match now.duration_since(SystemTime::UNIX_EPOCH) {
        Ok(passed) => u64::try_from(passed.as_micros()).ok(),
        Err(_) => None,
    }
}

impl<'a, R: Clock> LiveClock<'a, R> {
    /// The clock at moment 0.
    pub fn start(rt: &'a R) -> io::Result<LiveClock<'a, R>> {
        let start = match Instant::now(rt) {
            Ok(start) => start,
            Err(fault) => return Err(fault),
        };
        Ok(LiveClock {
            rt,
            start,
            opened: time_of_day(rt).unwrap_or(0),
        })
    }

    /// The clock begins anew, at moment 0.
    pub fn begin_anew(&mut self) -> io::Result<()> {
        self.start = match Instant::now(self.rt) {
            Ok(start) => start,
            Err(fault) => return Err(fault),
        };
        self.opened = time_of_day(self.rt).unwrap_or(0);
        Ok(())
    }

    /// What time it is, in microseconds since 1970 began, in UTC: the machine's time of day, wherever that was set. While the machine has
    /// none it goes on from that of the start.
    pub fn time(&self) -> u64 {
        if let Some(time) = time_of_day(self.rt) {
            return time;
        }
        let passed = match self.start.elapsed(self.rt) {
            Ok(passed) => u64::try_from(passed.as_micros()).unwrap_or(0),
            Err(_) => 0,
        };
        self.opened.saturating_add(passed)
    }

    /// How long it is since the start, in ms.
    pub fn passed(&self) -> io::Result<u64> {
        match self.start.elapsed(self.rt) {
            Ok(passed) => Ok(u64::try_from(passed.as_millis()).unwrap_or(u64::MAX)),
            Err(fault) => Err(fault),
        }
    }
}
