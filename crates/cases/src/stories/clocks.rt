//! What the clocks of a story's machine say, and in which order it is told what is given.
use std::cell::Cell;
use std::io;
use std::rt::Clock;
use std::time::Duration;

// The time of day at the start, in ms since 1970: 2026-01-01 00:00:00.
const OPENED: u64 = 1_767_225_600_000;

/// When something is given: at this moment of the story, in ms, and behind so much that was given before.
#[derive(Clone, Copy)]
pub struct Stamp {
    pub moment: u64,
    pub place: u64,
}

/// The clocks of a machine: one that a program counts its time by, and the time of day. A story tells by neither, but by the moments that
/// it says.
#[derive(Drop)]
pub struct Clocks {
    // The moment that it has come to, in ms, and so much the program's clock was set on, and back.
    moment: Cell<u64>,
    on: Cell<u64>,
    back: Cell<u64>,
    // Whether the program's clock can't be read any more.
    has_failed: Cell<bool>,
    // The time of day at moment 0, in ms since 1970.
    opened: Cell<u64>,
    // So much was given.
    given: Cell<u64>,
}

impl Clocks {
    /// At moment 0, at midnight.
    pub fn new() -> Clocks {
        Clocks {
            moment: Cell::new(0),
            on: Cell::new(0),
            back: Cell::new(0),
            has_failed: Cell::new(false),
            opened: Cell::new(OPENED),
            given: Cell::new(0),
        }
    }

    /// The moment that the story has come to, in ms.
    pub fn moment(&self) -> u64 {
        self.moment.get()
    }

    /// The story comes to this moment, in ms.
    pub fn reach(&self, moment: u64) {
        self.moment.set(moment);
    }

    /// The program's clock is set on, by so many ms.
    pub fn set_on(&self, ms: u64) {
        self.on.set(self.on.get().saturating_add(ms));
    }

    /// The program's clock is set back, by so many ms.
    pub fn set_back(&self, ms: u64) {
        self.back.set(self.back.get().saturating_add(ms));
    }

    /// The program's clock can't be read any more.
    pub fn fail(&self) {
        self.has_failed.set(true);
    }

    /// The time of day is set on, by so many ms.
    pub fn set_day_on(&self, ms: u64) {
        self.opened.set(self.opened.get().saturating_add(ms));
    }

    /// The time of day is set back, by so many ms.
    pub fn set_day_back(&self, ms: u64) {
        self.opened.set(self.opened.get().saturating_sub(ms));
    }

    /// Something is given now.
    pub fn stamp(&self) -> Stamp {
        let place = self.given.get();
        self.given.set(place.saturating_add(1));
        Stamp {
            moment: self.moment.get(),
            place,
        }
    }
}

impl Clock for Clocks {
    fn monotonic(&self) -> io::Result<Duration> {
        if self.has_failed.get() {
            return Err(io::Error::from(io::ErrorKind::Unsupported));
        }
        let passed = self.moment.get().saturating_add(self.on.get());
        Ok(Duration::from_millis(passed.saturating_sub(self.back.get())))
    }

    fn since_1970(&self) -> io::Result<Duration> {
        let now = self.opened.get().saturating_add(self.moment.get());
        Ok(Duration::from_millis(now))
    }
}

/// The same clocks at an end, where time goes by while it is asked for: a ms from each time to the next.
#[derive(Drop)]
pub struct EndClock<'c> {
    clocks: &'c Clocks,
    was_asked: Cell<bool>,
}

impl<'c> EndClock<'c> {
    /// It wasn't asked.
    pub fn over(clocks: &'c Clocks) -> EndClock<'c> {
        EndClock {
            clocks,
            was_asked: Cell::new(false),
        }
    }
}

impl Clock for EndClock<'_> {
    fn monotonic(&self) -> io::Result<Duration> {
        if self.was_asked.replace(true) {
            let moment = self.clocks.moment();
            self.clocks.reach(moment.saturating_add(1));
        }
        self.clocks.monotonic()
    }

    fn since_1970(&self) -> io::Result<Duration> {
        self.clocks.since_1970()
    }
}
