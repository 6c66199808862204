//! Who watches misses nothing, as a law, whose function does nothing.
ghost use Rattle.std.specs.Prelude.{◌≡◌, ◌&&◌, ℕ, Bool, false, List};
ghost use Rattle.plain_machine.specs.Event.{GatewayEvent};
ghost use Rattle.plain_machine.specs.Lists.{plain};
ghost use Rattle.gateway_core.specs.Changing.{Changes, is_marked};
ghost use Rattle.gateway_core.specs.GatewayState.{GatewayState};
ghost use Rattle.gateway_core.specs.Stands.{Stands};
ghost use Rattle.telephone_control.specs.Seeing.{seen_of};

/// A line that isn't marked where an event was taken, and each line where none was, isn't looked at (`WatchesOn`). It is seen then as it was
/// before: there is nothing to tell of it.
#[tactic(auto, using(crate::proofs::SeeingLemmas::seen_as_before))]
pub fn a_line_that_isnt_touched_isnt_told()
    ensures { (taken : Bool) (g g' : GatewayState) (before after : List GatewayEvent) (line : ℕ) → Stands g before → Stands g' after
        → Changes taken g'.changed g.machine.endpoints g'.machine.endpoints → (taken && is_marked g'.changed line) ≡ false
        → seen_of g.setup (plain g'.setup after) line ≡ seen_of g.setup (plain g.setup before) line }
{}
