//! Worked examples of what the page is shown, as theorems.
#![tactic(auto, unfolding(crate::proofs::Computing::on_examples))]

ghost use Rattle.std.specs.Prelude.{◌≡◌, codes, Option, None, Some, [], ◌∷◌};
ghost use Rattle.std.specs.Global.{Box};
ghost use Rattle.gateway_core.specs.declared.outcome.TextOutcome.TheVariants.{NoMessage};
ghost use Rattle.page_state.specs.declared.ring.Kind.TheVariants.{Sent};
ghost use Rattle.page_state.specs.Sums.{next_number};
ghost use Rattle.page_state.specs.BoardShowing.{BoardState};
ghost use Rattle.message_counts.specs.Example.{host};
ghost use Rattle.message_counts.specs.SentExample.{lost};
ghost use Rattle.told_messages.specs.Showing.{GoesOn, Happened, Labelled, HappenedWith, HadTexts, GaveUp, Turned};
ghost use Rattle.told_messages.specs.ShowingExample.{noise, answer, end, came, went, ended, board_of, IsElseSame};

/// What happens is shown behind what happened before it, with what its messages are, and all else as before.
pub fn what_happens_is_shown()
    // It is kept, unless memory is refused for that; it has a number in any case.
    ensures kept { (b : BoardState) → Happened 5020 Sent (host 9) (codes "200 7")
        (board_of b 7 (came [] ∷ [])) (board_of b 8 (came [] ∷ went [] ∷ [])) }
    ensures not_kept { (b : BoardState) → Happened 5020 Sent (host 9) (codes "200 7")
        (board_of b 7 (came [] ∷ [])) (board_of b 8 (came [] ∷ [])) }
    ensures numbered { (was is : BoardState) → Happened 5020 Sent (host 9) (codes "200 7") was is
        → is.ring.last ≡ next_number was.ring.last }
    ensures nothing_else { (was is : BoardState) → Happened 5020 Sent (host 9) (codes "200 7") was is → IsElseSame was is }
    // What its messages are is told of the last, unless memory is refused for that.
    ensures labelled { (b : BoardState) → Labelled (noise ∷ []) (board_of b 7 (came [] ∷ [])) (board_of b 7 (came (noise ∷ []) ∷ [])) }
    ensures unlabelled { (b : BoardState) → Labelled (noise ∷ []) b b }
    ensures no_number { (was is : BoardState) → Labelled (noise ∷ []) was is → is.ring.last ≡ was.ring.last }
    ensures no_more { (was is : BoardState) → Labelled (noise ∷ []) was is → IsElseSame was is }
    // What is sent is shown, and then what its messages are.
    ensures sent { (b : BoardState) → HappenedWith 5020 Sent (host 9) (codes "200 7") (answer ∷ [])
        (board_of b 7 (came [] ∷ [])) (board_of b 8 (came [] ∷ went (answer ∷ []) ∷ [])) }
{}

/// What the gateway tells of an event is shown: what the texts were that came last, and behind that what is given up.
pub fn what_is_told_of_an_event_is_shown()
    ensures text { (b : BoardState) → HadTexts (NoMessage ∷ []) (board_of b 7 (came [] ∷ [])) (board_of b 7 (came (noise ∷ []) ∷ [])) }
    ensures no_text { (was is : BoardState) → HadTexts [] was is → is ≡ was }
    ensures given_up { (b : BoardState) → GaveUp 5020 (lost ∷ [])
        (board_of b 7 (came [] ∷ [])) (board_of b 8 (came [] ∷ ended (end ∷ []) ∷ [])) }
    ensures nothing_given_up { (was is : BoardState) → GaveUp 5020 [] was is → is ≡ was }
    ensures both { (b : BoardState) → Turned 5020 (NoMessage ∷ []) (lost ∷ [])
        (board_of b 7 (came [] ∷ [])) (board_of b 8 (came (noise ∷ []) ∷ ended (end ∷ []) ∷ [])) }
    ensures neither { (was is : BoardState) → Turned 5020 [] [] was is → is ≡ was }
    // Where there is no page, none comes, and one that is there stays.
    ensures no_page { (is : Option (Box BoardState)) → GoesOn (Labelled (noise ∷ [])) None is → is ≡ None }
    ensures page { (was is : Box BoardState) → GoesOn (Labelled (noise ∷ [])) (Some was) (Some is)
        → Labelled (noise ∷ []) was.value is.value }
    ensures page_stays { (was : Box BoardState) → GoesOn (Labelled (noise ∷ [])) (Some was) None → ⊥ }
{}
