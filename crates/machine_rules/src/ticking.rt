//! Why a tick is refused: how the clock of an end goes on.
ghost use Rattle.std.specs.Prelude.{◌≡◌, ◌<◌, ◌^◌};
ghost use Rattle.machine_rules.specs.Refusing.{tick_refusal};

use crate::refusal::Refusal;

// Moments are below this (in ms).
const END_OF_TIME: u64 = 1 << 62;

// How far a tick may go at once, in ms.
const LARGEST_TICK: u64 = 1000;

/// Why a tick to this moment is refused now (both in ms), but for want of memory: it goes too far, or back (this gateway's
/// profile).
pub fn tick_refusal(now: u64, moment: u64) -> Option<Refusal>
    requires { now < 2 ^ 62 }
    ensures { result ≡ tick_refusal now moment }
{
    if moment > now + LARGEST_TICK || moment >= END_OF_TIME {
        return Some(Refusal::TickTooFar);
    }
    if moment < now {
        return Some(Refusal::ClockBack);
    }
    None
}
