//! What is wanted where a text says nothing of a network.
ghost use Rattle.std.specs.Prelude.{◌≡◌};
ghost use Rattle.live_system.specs.NetworkFaults.{wanted_by};

use impairment::SpoilingFault;

/// What stands, in a text that is right, at the place of this fault.
#[tactic(auto, unfolding(crate::specs::NetworkFaults::wanted_by))]
pub(crate) fn wanted_by(fault: SpoilingFault) -> &'static str
    ensures { result.now ≡ wanted_by fault }
{
    match fault {
        SpoilingFault::Lose => "lose: 0% to 100%, once for each direction",
        SpoilingFault::Copy => "copy: 0% to 100%, once for each direction",
        SpoilingFault::Late => "late: LEAST-MOST in ms, 10000 at most, once for each direction",
        SpoilingFault::Seed => "seed: a number, once for each direction",
        SpoilingFault::Other =>
            "lose N%, copy N%, late LEAST-MOST, seed N, or one of these after in or out",
    }
}
