//! Worked examples of what the laws say of a line's record, part by part, as theorems.
#![tactic(auto, unfolding(crate::proofs::Computing::on_examples))]

ghost use Rattle.std.specs.Prelude.{◌≡◌, codes, false, true, Some};
ghost use Rattle.call_processing.specs.Line.{new_line};
ghost use Rattle.live_laws.specs.CallExample.{created_first, pick_up, ready, ring, then_is};
ghost use Rattle.live_laws.specs.CallTurns.{after_one, IsApart, IsAsBefore, IsClear, IsConnected, IsPutOffOr};

use call_processing::{Asked, Cause, Command, Leg};

/// A line is clear that is asked for off hook alone, without a connection, and to which nothing is in flight.
pub fn a_line_is_clear_without_anything()
    ensures clear { IsClear (record new_line { asked = Some Asked.Rest }) }
    ensures a_signal { ¬ IsClear (record new_line { asked = Some Asked.BusyTone }) }
    ensures not_asked { ¬ IsClear new_line }
    ensures in_flight { ¬ IsClear (record new_line { asked = Some Asked.Rest; flight = Some (Command.Ask Asked.Rest) }) }
    ensures a_connection { ¬ IsClear (record new_line { asked = Some Asked.Rest; leg = Leg.Unknown 1 }) }
{}

/// A line is connected for a call whose connection stands there, with the description of the other end.
pub fn a_line_is_connected_with_a_description()
    ensures connected { IsConnected 1 (record new_line { leg = Leg.Standing 1 (codes "A") (codes "v=0"); joined = true }) }
    ensures not_joined { ¬ IsConnected 1 (record new_line { leg = Leg.Standing 1 (codes "A") (codes "v=0"); joined = false }) }
    ensures another_call { ¬ IsConnected 2 (record new_line { leg = Leg.Standing 1 (codes "A") (codes "v=0"); joined = true }) }
    ensures unknown { ¬ IsConnected 1 (record new_line { leg = Leg.Unknown 1; joined = true }) }
{}

/// What is put off is one more in a row, and no two.
pub fn what_is_put_off_is_one_more()
    ensures first { IsPutOffOr new_line (record new_line { put_off = Some (record { cause = Cause.Request; times = 1 }) }) (true ≡ false) }
    ensures second { ¬ IsPutOffOr new_line (record new_line { put_off = Some (record { cause = Cause.Request; times = 2 }) })
        (true ≡ false) }
    ensures not_put_off { ¬ IsPutOffOr new_line new_line (true ≡ false) }
    ensures otherwise { IsPutOffOr new_line new_line (true ≡ true) }
{}

/// A line isn't apart from itself, nor from the other end of its call, before or then. It isn't as before where it is to be sent something
/// that it wasn't.
pub fn another_line_is_apart()
    ensures itself { ¬ IsApart ready ready 1 1 }
    ensures then { ¬ IsApart ready (then_is ring) 0 1 }
    ensures before { ¬ IsApart (then_is ring) ready 0 1 }
    ensures third { IsApart (then_is ring) ready 0 2 }
    ensures owed { ¬ IsAsBefore (then_is pick_up) (after_one (then_is pick_up) created_first) 1 }
{}
