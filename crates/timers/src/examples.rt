//! Worked examples of the definitions, as theorems: each sentence of a definition has one that a slip in it breaks.
#![tactic(auto, unfolding(crate::proofs::Computing::on_examples))]

ghost use Rattle.std.specs.Prelude.{◌≡◌, [], ◌∷◌, Some, None};
ghost use Rattle.packages.specs.declared.signal.Signal.TheVariants.{DialTone, Busy, Reorder, Ringing, RingSplash, MessageWaiting, Ringback, Congestion, Confirm};
ghost use Rattle.timers.specs.declared.kind.DueKind.TheVariants.{Resend, Announce};
ghost use Rattle.timers.specs.Order.{earlier};
ghost use Rattle.timers.specs.Table.{nothing_set, due, moment_of, with_moment, without, least_of, IsLeast};
ghost use Rattle.timers.specs.Example.{timer, ends, table_of, drained, drained_from};

/// Each sentence at an example.
pub fn each_sentence_has_an_example()
    // At the opening nothing is set, and where nothing is set, nothing falls due.
    ensures opening { nothing_set 96 ≡ record { lines = 96; table = [] } }
    ensures least { least_of [] ≡ None }
    ensures nothing_falls_due_of_an_empty_table_moment { moment_of [] 0 Announce ≡ None }
    ensures cleared { without [] 1 timer ≡ [] }
    // What falls due earlier comes first, on whatever line and of whatever kind.
    ensures two { drained (due 16 2 timer ∷ due 15 7 Announce ∷ [])
        ≡ due 15 7 Announce ∷ due 16 2 timer ∷ [] }
    ensures far { drained (due 18446744073709551615 0 timer ∷ due 18446744073709551614 65535 Announce
        ∷ due 0 9 Resend ∷ [])
        ≡ due 0 9 Resend ∷ due 18446744073709551614 65535 Announce ∷ due 18446744073709551615 0 timer ∷ [] }
    // At one moment the gateway itself comes first, then its lines in the order of their numbers, whatever the kind.
    ensures at_one_moment_the_gateway_is_first_and_then_line_by_line { drained (due 500 10 timer ∷ due 500 2 (ends Ringing) ∷ due 500 0
        Announce ∷ due 500 1 Resend ∷ [])
        ≡ due 500 0 Announce ∷ due 500 1 Resend ∷ due 500 2 (ends Ringing) ∷ due 500 10 timer ∷ [] }
    // At one moment on one line timer T comes first, then the signals in the order of their table, then the command in
    // flight, then the announcement.
    ensures on_one_line_the_kinds_have_their_order { drained (due 500 1 Announce ∷ due 500 1 Resend ∷ due 500 1 (ends Confirm) ∷ due 500
        1 (ends Congestion)
        ∷ due 500 1 (ends Ringback) ∷ due 500 1 (ends MessageWaiting) ∷ due 500 1 (ends RingSplash)
        ∷ due 500 1 (ends Ringing) ∷ due 500 1 (ends Reorder) ∷ due 500 1 (ends Busy) ∷ due 500 1 (ends DialTone)
        ∷ due 500 1 timer ∷ [])
        ≡ due 500 1 timer ∷ due 500 1 (ends DialTone) ∷ due 500 1 (ends Busy) ∷ due 500 1 (ends Reorder)
        ∷ due 500 1 (ends Ringing) ∷ due 500 1 (ends RingSplash) ∷ due 500 1 (ends MessageWaiting)
        ∷ due 500 1 (ends Ringback) ∷ due 500 1 (ends Congestion) ∷ due 500 1 (ends Confirm) ∷ due 500 1 Resend
        ∷ due 500 1 Announce ∷ [] }
    // Of two the one that falls due first is the earlier, in whatever order they come; of one alone that one.
    ensures the_earlier_of_two_moment { earlier (Some (due 16 2 timer)) (Some (due 15 7 Announce)) ≡ Some (due 15 7 Announce) }
    ensures turned { earlier (Some (due 15 7 Announce)) (Some (due 16 2 timer)) ≡ Some (due 15 7 Announce) }
    ensures line { earlier (Some (due 500 1 timer)) (Some (due 500 0 Announce)) ≡ Some (due 500 0 Announce) }
    ensures alone { earlier (Some (due 16 2 timer)) None ≡ Some (due 16 2 timer) }
    ensures the_earlier_of_two_other { earlier None (Some (due 16 2 timer)) ≡ Some (due 16 2 timer) }
    ensures the_earlier_of_two_none { earlier None None ≡ None }
    // A moment that is set for a kind of a line is the only one, the earlier one as well as the later one.
    ensures later { drained (due 500 1 timer ∷ due 600 1 Resend ∷ due 700 1 timer ∷ [])
        ≡ due 600 1 Resend ∷ due 700 1 timer ∷ [] }
    ensures earlier { drained (due 700 1 timer ∷ due 600 1 Resend ∷ due 500 1 timer ∷ [])
        ≡ due 500 1 timer ∷ due 600 1 Resend ∷ [] }
    ensures again { drained (due 500 1 timer ∷ due 500 1 timer ∷ []) ≡ due 500 1 timer ∷ [] }
    ensures other_signal { drained (due 700 1 (ends RingSplash) ∷ due 500 1 (ends MessageWaiting) ∷ [])
        ≡ due 500 1 (ends MessageWaiting) ∷ due 700 1 (ends RingSplash) ∷ [] }
    ensures other_line { drained (due 700 1 timer ∷ due 500 2 timer ∷ []) ≡ due 500 2 timer ∷ due 700 1 timer ∷ [] }
    // What is cleared is the kind of the line, and nothing else; clearing what isn't set changes nothing.
    ensures kind { drained_from (without (table_of (due 500 1 timer ∷ due 600 1 Resend ∷ due 700 2 timer ∷ []))
        1 timer)
        ≡ due 600 1 Resend ∷ due 700 2 timer ∷ [] }
    ensures signal { drained_from (without (table_of (due 500 1 (ends RingSplash) ∷ due 600 1 (ends MessageWaiting) ∷ []))
        1 (ends MessageWaiting))
        ≡ due 500 1 (ends RingSplash) ∷ [] }
    ensures one_kind_of_one_line_is_cleared_none { without (table_of (due 500 1 (ends RingSplash) ∷ due 600 2 timer ∷ [])) 1 timer
        ≡ table_of (due 500 1 (ends RingSplash) ∷ due 600 2 timer ∷ []) }
    ensures last { without (table_of (due 500 1 timer ∷ [])) 1 timer ≡ [] }
    // A table is one list, in whatever order its moments were set: by line, then by kind.
    ensures order { table_of (due 9 2 timer ∷ due 8 1 Resend ∷ due 7 1 (ends Busy) ∷ due 6 0 Announce ∷ [])
        ≡ due 6 0 Announce ∷ due 7 1 (ends Busy) ∷ due 8 1 Resend ∷ due 9 2 timer ∷ [] }
    ensures found { moment_of (table_of (due 9 2 timer ∷ due 8 1 Resend ∷ [])) 1 Resend ≡ Some 8 }
    ensures a_table_is_in_the_order_of_its_places_other { moment_of (table_of (due 9 2 timer ∷ due 8 1 Resend ∷ [])) 2 Resend ≡ None }
    ensures replaced { with_moment (due 5 1 timer ∷ due 9 2 timer ∷ []) 2 timer 3 ≡ due 5 1 timer ∷ due 3 2 timer ∷ [] }
{}

/// What is least is set, at this moment, and nothing that is set comes before it.
pub fn the_least_is_set_and_nothing_comes_before_it()
    ensures first { IsLeast (table_of (due 9 2 timer ∷ due 8 1 Resend ∷ due 8 1 Announce ∷ [])) (due 8 1 Resend) }
    ensures alone { IsLeast (table_of (due 9 2 timer ∷ [])) (due 9 2 timer) }
    ensures behind { IsLeast (table_of (due 9 2 timer ∷ due 8 1 Resend ∷ [])) (due 9 2 timer) → ⊥ }
    ensures behind_at_one_moment { IsLeast (table_of (due 8 1 Resend ∷ due 8 1 Announce ∷ []))
        (due 8 1 Announce) → ⊥ }
    ensures at_another_moment { IsLeast (table_of (due 9 2 timer ∷ due 8 1 Resend ∷ [])) (due 7 1 Resend) → ⊥ }
    ensures not_set { IsLeast (table_of (due 9 2 timer ∷ [])) (due 8 1 Resend) → ⊥ }
    ensures of_nothing { IsLeast [] (due 0 0 timer) → ⊥ }
{}
