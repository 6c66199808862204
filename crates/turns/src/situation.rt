//! How things stand when it is asked what comes next.
ghost use Rattle.std.specs.Prelude.{◌≡◌, ◌<◌};
ghost use Rattle.turns.specs.Clock.{earlier, is_over, tick_to, ticks_behind, wait_until};

use crate::circle::Ready;

/// A tick goes on by no more than this, in ms.
pub const LONGEST_TICK: u64 = 1000;

/// So long nothing is done at most, in ms, if nothing comes.
pub const LONGEST_WAIT: u64 = 1000;

// Nor is it waited for less.
const SHORTEST_WAIT: u64 = 1;

/// How things stand. Moments are ms from the start.
#[derive(Clone, Copy)]
pub struct Situation {
    /// It is now this moment, by the machine's clock.
    pub moment: u64,
    /// The moment to which ticks have come.
    pub ticked: u64,
    /// The moment at which something falls due next, if anything does.
    pub due: Option<u64>,
    /// The moment at which all is over, if there is one.
    pub end: Option<u64>,
    /// So many datagrams were read since the start.
    pub read: u64,
    pub ready: Ready,
}

/// The earlier of two moments, if there are any.
pub fn earlier(one: Option<u64>, other: Option<u64>) -> Option<u64>
    ensures { result ≡ earlier one other }
{
    match (one, other) {
        (Some(one), Some(other)) => Some(one.min(other)),
        (Some(one), None) => Some(one),
        (None, other) => other,
    }
}

// Whether all is over.
pub(crate) fn is_over(at: Situation) -> bool
    ensures { result ≡ is_over at }
{
    match at.end {
        Some(end) => end <= at.ticked,
        None => false,
    }
}

// The moment to which a tick goes.
pub(crate) fn tick_to(at: Situation) -> u64
    ensures { result ≡ tick_to at }
{
    at.moment.min(at.ticked.saturating_add(LONGEST_TICK))
}

// So many ticks the clock is behind at most.
pub(crate) fn ticks_behind(at: Situation) -> u64
    ensures { result ≡ ticks_behind at }
{
    at.moment.saturating_sub(at.ticked) / LONGEST_TICK + 1
}

// The moment until which it is waited, where nothing is ready.
pub(crate) fn wait_until(at: Situation) -> u64
    ensures { result ≡ wait_until at }
{
    let longest = at.moment.saturating_add(LONGEST_WAIT);
    let due = at.due.unwrap_or(longest);
    let end = at.end.unwrap_or(longest);
    let shortest = at.moment.saturating_add(SHORTEST_WAIT);
    due.min(end).min(longest).max(shortest)
}
