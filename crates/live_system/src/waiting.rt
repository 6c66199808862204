//! How long a loop waits.
ghost use Rattle.std.specs.Prelude.{◌≡◌};
ghost use Rattle.live_system.specs.Waiting.{longest_wait};

use output_queues::NEXT_OFFER;

/// So long a loop waits at most, in ms, that has nothing to do for so long: where something that was recorded waits to be taken, no
/// longer than until that is offered again.
pub fn longest_wait(is_offering: bool, longest: u64) -> u64
    ensures { result ≡ longest_wait is_offering longest }
{
    if is_offering {
        longest.min(NEXT_OFFER)
    } else {
        longest
    }
}
