//! What an embedded request makes of the accumulated events.
ghost use Rattle.std.specs.Prelude.{◌≡◌};
ghost use Rattle.machine_rules.specs.Rules.{accumulated_after_embedding};

use arrayvec::ArrayVec;
use packages::Observed;

/// An embedded request without accumulation takes effect: what was accumulated is dropped.
pub fn drop_accumulated<const N: usize>(events: &mut ArrayVec<Observed, N>)
    ensures { events.new.items ≡ accumulated_after_embedding events.old.items }
{
    events.clear();
}
