//! Worked examples of the definitions, as theorems.
#![tactic(auto, unfolding(crate::proofs::QuarantineComputing::on_examples))]

ghost use Rattle.std.specs.Prelude.{◌≡◌, [], ◌∷◌, ◌++◌, Some, None, replicate};
ghost use Rattle.events_and_signals.specs.Held.{most_lost, nothing_held, holding, first_of, without_first, without_front, cleared};
ghost use Rattle.events_and_signals.specs.Given.{is_taken, coming};
ghost use Rattle.events_and_signals.specs.QuarantineExample.{happened, come, held_of, given_of, holds};

use packages::{LineEvent, Observed, Signal};

/// Each sentence at an example.
pub fn each_sentence_has_an_example()
    // Events are held in the order in which they come, and each as often as it comes.
    ensures events_are_held_in_order_none { nothing_held 4 ≡ holds 4 [] 0 }
    ensures three { held_of 4 (come (LineEvent.OnHook ∷ LineEvent.OffHook ∷ LineEvent.OnHook ∷ []))
        ≡ holds 4 (LineEvent.OnHook ∷ LineEvent.OffHook ∷ LineEvent.OnHook ∷ []) 0 }
    ensures behind { holding (holds 2 (LineEvent.Flash ∷ []) 7) (Observed.Happened LineEvent.OnHook)
        ≡ holds 2 (LineEvent.Flash ∷ LineEvent.OnHook ∷ []) 7 }
    ensures signal { (holding (nothing_held 1) (Observed.Ended Signal.DialTone)).events
        ≡ Observed.Ended Signal.DialTone ∷ [] }
    // An event that finds no room is lost: where there is room for four, four flashes are held, and what comes then is
    // counted.
    ensures held { held_of 4 (come (replicate 4 LineEvent.Flash)) ≡ holds 4 (replicate 4 LineEvent.Flash) 0 }
    ensures lost { held_of 4 (come (replicate 4 LineEvent.Flash ++ LineEvent.OnHook ∷ [])) ≡ holds 4 (replicate 4 LineEvent.Flash) 1 }
    ensures no_room { held_of 0 (come (LineEvent.Flash ∷ LineEvent.OnHook ∷ [])) ≡ holds 0 [] 2 }
    ensures most { holding (holds 0 [] 18446744073709551614) (Observed.Happened LineEvent.Flash) ≡ holds 0 [] most_lost }
    ensures stays { holding (holds 0 [] 18446744073709551615) (Observed.Happened LineEvent.Flash)
        ≡ holds 0 [] 18446744073709551615 }
    // Events are taken from the front, and a place that is taken is free again.
    ensures first { first_of (happened (LineEvent.OnHook ∷ LineEvent.Flash ∷ [])) ≡ Some (Observed.Happened LineEvent.OnHook) }
    ensures events_are_taken_from_the_front_none { first_of [] ≡ None }
    ensures rest { without_first (holds 4 (LineEvent.OnHook ∷ LineEvent.Flash ∷ []) 3) ≡ holds 4 (LineEvent.Flash ∷ []) 3 }
    ensures rest_of_none { without_first (holds 4 [] 3) ≡ holds 4 [] 3 }
    ensures front { without_front 2 (holds 4 (LineEvent.OnHook ∷ LineEvent.Flash ∷ LineEvent.OffHook ∷ []) 3)
        ≡ holds 4 (LineEvent.OffHook ∷ []) 3 }
    ensures no_front { without_front 0 (holds 4 (LineEvent.OnHook ∷ []) 3) ≡ holds 4 (LineEvent.OnHook ∷ []) 3 }
    ensures whole_front { without_front 2 (holds 4 (LineEvent.OnHook ∷ []) 3) ≡ holds 4 [] 3 }
    ensures room_again { held_of 1 (come (LineEvent.OnHook ∷ []) ++ is_taken ∷ come (LineEvent.Flash ∷ []))
        ≡ holds 1 (LineEvent.Flash ∷ []) 0 }
    ensures given { given_of 2 (come (LineEvent.OnHook ∷ LineEvent.OffHook ∷ LineEvent.Flash ∷ []) ++ is_taken ∷ is_taken
        ∷ is_taken ∷ []) ≡ happened (LineEvent.OnHook ∷ LineEvent.OffHook ∷ []) }
    ensures given_in_turn { given_of 1 (come (LineEvent.OnHook ∷ []) ++ is_taken ∷ come (LineEvent.Flash ∷ [])
        ++ is_taken ∷ []) ≡ happened (LineEvent.OnHook ∷ LineEvent.Flash ∷ []) }
    ensures came { coming (come (LineEvent.OnHook ∷ []) ++ is_taken ∷ come (LineEvent.Flash ∷ []))
        ≡ happened (LineEvent.OnHook ∷ LineEvent.Flash ∷ []) }
    // Clearing drops the events, and keeps room and count.
    ensures clearing_keeps_the_count { cleared (holds 4 (LineEvent.OnHook ∷ LineEvent.Flash ∷ []) 3) ≡ holds 4 [] 3 }
{}
