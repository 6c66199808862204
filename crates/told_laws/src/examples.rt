//! Worked examples of the definitions, as theorems: each sentence of a definition has one that a slip in it breaks.
#![tactic(auto, unfolding(crate::proofs::Computing::on_examples))]

ghost use Rattle.std.specs.Prelude.{◌≡◌, [], ◌∷◌};
ghost use Rattle.mg_line.specs.declared.phone.Act.TheVariants as acts;
ghost use Rattle.mg_line.specs.declared.phone.Key.TheVariants as keys;
ghost use Rattle.plain_machine.specs.Event.{phone};
ghost use Rattle.plain_machine.specs.Example.{response};
ghost use Rattle.world_laws.specs.Rounds.{of_telephone};
ghost use Rattle.told_laws.specs.Among.{kept_by};
ghost use Rattle.world_laws.specs.Dialled.{told_along};
ghost use Rattle.told_laws.specs.Walking.{TellsAFront, TellsWhatWasKept};
ghost use Rattle.told_laws.specs.Example.{dials_two, has_keys_collected, has_lifting_told, WalksThen};
ghost use Rattle.world_laws.specs.OnceExample.{lifted, five, six, keys_are_collected, course_then, line_then};

/// A key that is collected by a digit map is kept until that is completed, and then all of them are told, in their order.
pub fn keys_are_told_together()
    ensures first { kept_by (line_then (keys_are_collected ∷ phone 1 acts.OffHook ∷ response 200 10000000
        ∷ phone 1 (acts.Key keys.Five) ∷ [])) ≡ five ∷ [] }
    ensures told { of_telephone (told_along (course_then (keys_are_collected ∷ dials_two))) ≡ lifted ∷ five ∷ six ∷ [] }
    ensures kept { kept_by (line_then (keys_are_collected ∷ dials_two)) ≡ [] }
    ensures walk { WalksThen (keys_are_collected ∷ dials_two) }
{}

/// The first notification tells a front of what was quarantined at the request, and done since; it skips nothing of it.
pub fn a_front_is_told()
    ensures all { TellsAFront has_keys_collected [] [] (five ∷ six ∷ []) (five ∷ six ∷ []) }
    ensures front { TellsAFront has_keys_collected [] [] (five ∷ six ∷ []) (five ∷ []) }
    ensures quarantined { TellsAFront has_keys_collected (lifted ∷ []) (lifted ∷ five ∷ []) (six ∷ []) (five ∷ six ∷ []) }
    ensures skipped { ¬ TellsAFront has_keys_collected [] [] (five ∷ six ∷ []) (six ∷ []) }
    ensures kept_meanwhile { TellsWhatWasKept has_keys_collected has_keys_collected (lifted ∷ []) (lifted ∷ []) (five ∷ []) (six ∷ [])
        (five ∷ six ∷ []) }
    ensures not_kept { TellsWhatWasKept has_lifting_told has_keys_collected (lifted ∷ []) (lifted ∷ []) (five ∷ []) (six ∷ []) (six ∷ []) }
    ensures dropped { ¬ TellsWhatWasKept has_keys_collected has_keys_collected (lifted ∷ []) (lifted ∷ []) (five ∷ []) (six ∷ [])
        (six ∷ []) }
{}
