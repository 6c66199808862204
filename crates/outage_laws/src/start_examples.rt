//! Worked examples, as theorems, of starts that wait behind the draw of their number: two lives that meet each premise of the law, and two
//! whose numbers are one.
#![tactic(auto, unfolding(crate::proofs::Computing::on_examples))]

ghost use Rattle.std.specs.Prelude.{◌≡◌, [], ◌∷◌, map, All, AllPairs, true};
ghost use Rattle.plain_machine.specs.Example.{two_lines};
ghost use Rattle.small_rules.specs.Numbering.{first_at};
ghost use Rattle.outage_laws.specs.Lives.{lives_opening, lives_are_taken, lives_of};
ghost use Rattle.outage_laws.specs.Apart.{begun_of, KeepsPace, LieApart, StartsByTime, StartsLater};
ghost use Rattle.outage_laws.specs.LifeExample.{lives, begun_key, drawn_then, waited_lives};

/// Where each number was drawn before its life started, and a second apart, lives lie apart; where both are one they don't.
pub fn lives_whose_starts_waited_lie_apart()
    ensures number { first_at 1800 ≡ 36 }
    ensures taken { lives_are_taken two_lines (lives_opening two_lines) (waited_lives 36) ≡ true }
    ensures began { map begun_key (begun_of (lives (waited_lives 36)).life) ≡ (37, 2002) ∷ (10000036, 2002) ∷ [] }
    ensures by_time { All (StartsByTime 300 drawn_then) (lives_of (lives (waited_lives 36))) }
    ensures paced { All (KeepsPace 300 drawn_then) (lives_of (lives (waited_lives 36))) }
    ensures later { AllPairs (StartsLater 300 drawn_then) (lives_of (lives (waited_lives 36))) }
    ensures one_number { ¬ LieApart (lives_of (lives (waited_lives 0))) }
{}
