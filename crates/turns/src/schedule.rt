//! The schedule: what comes next, by how things stand and by what came before.
ghost use Rattle.std.specs.Prelude.{◌≡◌};
ghost use Rattle.turns.specs.Schedule.{opening, met, asked, slept, aim_of, tried_of, taken, is_refused_now, is_tick_due, is_stale, round_by, round, lateness_of, is_reading, is_paused, noted, is_far_behind, woken, of_sockets, read_by, reads_on, read_on, catch_up, onward, next_met, next_of};

use crate::circle::{Ready, Source, first_ready};
use crate::situation::{Situation, is_over, tick_to, ticks_behind, wait_until};
use crate::turn::{Pause, Turn, turn_of};
use small_rules::is_too_far_behind;

// Who wakes so late and no later, in ms, wasn't stopped.
const LONGEST_OVERSLEEP: u64 = 500;

// Where the clock is behind by more, in ms, what came isn't read first: three minutes after a transaction its id may be another's (RFC
// 3435, 3.2.1.2).
const LONGEST_READ_PAUSE: u64 = 150_000;

// So many datagrams of what came in a pause are read first.
const MOST_READ: u64 = 4096;

// Nothing is taken where it wasn't asked for so long, in ms, what has come.
const LONGEST_UNSEEN: u64 = 2;

// How it goes on.
#[derive(Clone, Copy)]
enum Mode {
    // Each source has its turn.
    Rounds,
    // What came in a pause is read; so many datagrams had been read before it.
    Reading { lateness: u64, before: u64 },
    // The clock catches up, in so many ticks at most.
    CatchingUp { left: u64 },
}

/// What comes next. It keeps a few numbers of what came before, and takes no memory.
#[derive(Clone, Copy)]
pub struct Schedule {
    mode: Mode,
    // Who had the last turn.
    last: Source,
    // The moment to which it slept, or at which it was asked last.
    awaited: u64,
    // When it was asked last what has come, and whether nothing was taken since.
    looked: u64,
    is_fresh: bool,
    // Where the last tick was to go, and when.
    aim: u64,
    tried: u64,
}

// When it was asked last what has come is now, if nothing was taken since.
fn met(schedule: Schedule, at: Situation) -> Schedule
    ensures { result ≡ met schedule at }
{
    if schedule.is_fresh {
        Schedule {
            looked: at.moment,
            ..schedule
        }
    } else {
        schedule
    }
}

// It is asked what has come.
fn asked(schedule: Schedule, at: Situation) -> Schedule
    ensures { result ≡ asked schedule at }
{
    Schedule {
        awaited: at.moment,
        is_fresh: true,
        ..schedule
    }
}

// It sleeps until then.
fn slept(schedule: Schedule, until: u64) -> Schedule
    ensures { result ≡ slept schedule until }
{
    Schedule {
        last: Source::Visitors,
        awaited: until,
        is_fresh: true,
        ..schedule
    }
}

// Where the last tick was to go.
fn aim_of(schedule: Schedule, at: Situation, source: Source) -> u64
    ensures { result ≡ aim_of schedule at source }
{
    match source {
        Source::Clock => tick_to(at),
        Source::Commands | Source::Datagrams | Source::Visitors => schedule.aim,
    }
}

// When that was.
fn tried_of(schedule: Schedule, at: Situation, source: Source) -> u64
    ensures { result ≡ tried_of schedule at source }
{
    match source {
        Source::Clock => at.moment,
        Source::Commands | Source::Datagrams | Source::Visitors => schedule.tried,
    }
}

// A source has its turn.
fn taken(schedule: Schedule, at: Situation, source: Source) -> Schedule
    ensures { result ≡ taken schedule at source }
{
    Schedule {
        last: source,
        awaited: at.moment,
        is_fresh: false,
        aim: aim_of(schedule, at, source),
        tried: tried_of(schedule, at, source),
        ..schedule
    }
}

// The last tick was refused, and that in this ms.
fn is_refused_now(schedule: Schedule, at: Situation) -> bool
    ensures { result ≡ is_refused_now schedule at }
{
    at.ticked < schedule.aim && schedule.tried == at.moment
}

// The clock is behind.
fn is_tick_due(schedule: Schedule, at: Situation) -> bool
    ensures { result ≡ is_tick_due schedule at }
{
    at.ticked < at.moment && !is_refused_now(schedule, at)
}

// It wasn't asked for too long what has come.
fn is_stale(schedule: Schedule, at: Situation) -> bool
    ensures { result ≡ is_stale schedule at }
{
    !schedule.is_fresh && LONGEST_UNSEEN <= at.moment.saturating_sub(schedule.looked)
}

fn round_by(found: Option<Source>, schedule: Schedule, at: Situation) -> (Turn, Schedule)
    ensures { result ≡ round_by found schedule at }
{
    let Some(source) = found else {
        let until = wait_until(at);
        return (Turn::Wait { until }, slept(schedule, until));
    };
    if is_stale(schedule, at) {
        (Turn::Look, asked(schedule, at))
    } else {
        (turn_of(at, source), taken(schedule, at, source))
    }
}

// Who is ready has a turn, each in its place in the circle; where nobody is, it sleeps.
fn round(schedule: Schedule, at: Situation) -> (Turn, Schedule)
    ensures { result ≡ round schedule at }
{
    let is_tick_due = is_tick_due(schedule, at);
    round_by(
        first_ready(is_tick_due, at.ready, schedule.last),
        schedule,
        at,
    )
}

// So late it is, in ms.
fn lateness_of(schedule: Schedule, at: Situation) -> u64
    ensures { result ≡ lateness_of schedule at }
{
    at.moment.saturating_sub(schedule.awaited)
}

fn is_reading(mode: Mode) -> bool
    ensures { result ≡ is_reading mode }
{
    match mode {
        Mode::Reading { .. } => true,
        Mode::Rounds | Mode::CatchingUp { .. } => false,
    }
}

// It was stopped, and what came meanwhile isn't being read.
fn is_paused(schedule: Schedule, at: Situation) -> bool
    ensures { result ≡ is_paused schedule at }
{
    LONGEST_OVERSLEEP < lateness_of(schedule, at) && !is_reading(schedule.mode)
}

// A pause is noted, and the clock catches up.
fn noted(schedule: Schedule, at: Situation, lateness: u64, read: Option<u64>) -> (Turn, Schedule)
    ensures { result ≡ noted schedule at lateness read }
{
    let pause = Pause { lateness, read };
    let next = Schedule {
        mode: Mode::CatchingUp {
            left: ticks_behind(at),
        },
        awaited: at.moment,
        ..schedule
    };
    (Turn::Note { pause }, next)
}

// The clock is too far behind for what comes to be read at its moment.
fn is_far_behind(at: Situation) -> bool
    ensures { result ≡ is_far_behind at }
{
    is_too_far_behind(at.moment.saturating_sub(at.ticked), LONGEST_READ_PAUSE)
}

// After a pause it is asked what has come; where the clock is too far behind for that it catches up.
fn woken(schedule: Schedule, at: Situation) -> (Turn, Schedule)
    ensures { result ≡ woken schedule at }
{
    let lateness = lateness_of(schedule, at);
    if is_far_behind(at) {
        return noted(schedule, at, lateness, None);
    }
    let mode = Mode::Reading {
        lateness,
        before: at.read,
    };
    let next = Schedule {
        mode,
        ..asked(schedule, at)
    };
    (Turn::Look, next)
}

// The sockets alone are read.
fn of_sockets(ready: Ready) -> Ready
    ensures { result ≡ of_sockets ready }
{
    Ready {
        visitors: false,
        ..ready
    }
}

fn read_by(
    found: Option<Source>,
    schedule: Schedule,
    at: Situation,
    lateness: u64,
    before: u64,
) -> (Turn, Schedule)
    ensures { result ≡ read_by found schedule at lateness before }
{
    let Some(source) = found else {
        let read = at.read.saturating_sub(before);
        return noted(schedule, at, lateness, Some(read));
    };
    if is_stale(schedule, at) {
        return (Turn::Look, asked(schedule, at));
    }
    (turn_of(at, source), taken(schedule, at, source))
}

// More of what came in a pause is read: it wasn't enough, and the clock isn't too far behind.
fn reads_on(at: Situation, before: u64) -> bool
    ensures { result ≡ reads_on at before }
{
    at.read.saturating_sub(before) < MOST_READ && !is_far_behind(at)
}

// What came in a pause is read.
fn read_on(schedule: Schedule, at: Situation, lateness: u64, before: u64) -> (Turn, Schedule)
    ensures { result ≡ read_on schedule at lateness before }
{
    let found = if reads_on(at, before) {
        first_ready(false, of_sockets(at.ready), schedule.last)
    } else {
        None
    };
    read_by(found, schedule, at, lateness, before)
}

// The clock catches up, and a round goes on.
fn catch_up(schedule: Schedule, at: Situation, left: u64) -> (Turn, Schedule)
    ensures { result ≡ catch_up schedule at left }
{
    if 0 < left && at.ticked < at.moment {
        let mode = Mode::CatchingUp {
            left: left.saturating_sub(1),
        };
        let next = Schedule {
            mode,
            ..taken(schedule, at, Source::Clock)
        };
        return (turn_of(at, Source::Clock), next);
    }
    let rounds = Schedule {
        mode: Mode::Rounds,
        ..schedule
    };
    round(rounds, at)
}

fn onward(mode: Mode, schedule: Schedule, at: Situation) -> (Turn, Schedule)
    ensures { result ≡ onward mode schedule at }
{
    match mode {
        Mode::Rounds => round(schedule, at),
        Mode::Reading { lateness, before } => read_on(schedule, at, lateness, before),
        Mode::CatchingUp { left } => catch_up(schedule, at, left),
    }
}

fn next_met(schedule: Schedule, at: Situation) -> (Turn, Schedule)
    ensures { result ≡ next_met schedule at }
{
    if is_paused(schedule, at) {
        woken(schedule, at)
    } else {
        onward(schedule.mode, schedule, at)
    }
}

#[tactic(auto, unfolding(crate::specs::Schedule::next_of))]
fn next_of(schedule: Schedule, at: Situation) -> (Turn, Schedule)
    ensures { result ≡ next_of schedule at }
{
    if is_over(at) {
        (Turn::End, schedule)
    } else {
        next_met(met(schedule, at), at)
    }
}

impl Schedule {
    /// The schedule of a program that begins at this moment, in ms from the start.
    pub fn starting_at(moment: u64) -> Schedule
        ensures { result ≡ opening moment }
    {
        Schedule {
            mode: Mode::Rounds,
            last: Source::Visitors,
            awaited: moment,
            looked: moment,
            is_fresh: false,
            aim: 0,
            tried: 0,
        }
    }

    /// What comes next, as things stand. Who asks does it before it asks again.
    pub fn next(&mut self, at: Situation) -> Turn
        ensures { (result, self.new) ≡ next_of self.old at }
    {
        let (turn, next) = next_of(*self, at);
        *self = next;
        turn
    }
}
