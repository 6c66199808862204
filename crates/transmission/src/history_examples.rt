//! Worked examples of the definitions, as theorems (RFC 3435, 3.5.1): each sentence of a definition has one that a slip in
//! it breaks.
#![tactic(auto, unfolding(crate::proofs::HistoryComputing::on_examples))]

ghost use Rattle.std.specs.Prelude.{◌≡◌, ◌++◌, [], ◌∷◌, length};
ghost use Rattle.transmission.specs.Memory.{memory_time, most_firsts};
ghost use Rattle.transmission.specs.Arrival.{unanswered};
ghost use Rattle.transmission.specs.Firsts.{a_first, a_repeat, lost, firsts_of};
ghost use Rattle.transmission.specs.Answers.{answers_of};
ghost use Rattle.transmission.specs.Kept.{settled_at, kept_with, young_firsts, from_young, entries_of, firsts_in};
ghost use Rattle.transmission.specs.Looking.{new, repeat, confirmed, full, look_of};
ghost use Rattle.transmission.specs.HistoryExample.{to, comes, comes_with, gets, silence, answers, kind_after};
ghost use Rattle.transmission.specs.HistoryExample.{kept, confirmed_ids, told};

/// Each sentence at an example.
pub fn each_sentence_has_an_example()
    // A first is remembered for 30,000 ms, and 4,096 of them are.
    ensures time { memory_time ≡ 30000 }
    ensures the_numbers_are_these_firsts { most_firsts ≡ 4096 }
    // A copy is a repeat while its first is less than 30,000 ms old; then it is executed anew.
    ensures a_copy_is_a_repeat_for_30_seconds_at_once { answers (comes 7 1000 1 ∷ comes 7 1000 2 ∷ []) ≡ gets 1 ∷ gets 1 ∷ [] }
    ensures a_copy_is_a_repeat_for_30_seconds_last { answers (comes 7 1000 1 ∷ comes 7 30999 2 ∷ []) ≡ gets 1 ∷ gets 1 ∷ [] }
    ensures a_copy_is_a_repeat_for_30_seconds_no_more { answers (comes 7 1000 1 ∷ comes 7 31000 2 ∷ []) ≡ gets 1 ∷ gets 2 ∷ [] }
    ensures later { answers (comes 7 1000 1 ∷ comes 7 31001 2 ∷ []) ≡ gets 1 ∷ gets 2 ∷ [] }
    ensures other_id { answers (comes 7 1000 1 ∷ comes 8 1000 2 ∷ []) ≡ gets 1 ∷ gets 2 ∷ [] }
    // The age counts from the first, never from a copy, and a copy of a copy is a copy of the first.
    ensures the_age_counts_from_the_first_old { answers (comes 7 0 1 ∷ comes 7 20000 2 ∷ comes 7 29999 3 ∷ comes 7 30000 4 ∷ [])
        ≡ gets 1 ∷ gets 1 ∷ gets 1 ∷ gets 4 ∷ [] }
    ensures the_age_counts_from_the_first_anew { answers (comes 7 0 1 ∷ comes 7 30000 2 ∷ comes 7 59999 3 ∷ comes 7 60000 4 ∷ [])
        ≡ gets 1 ∷ gets 2 ∷ gets 2 ∷ gets 4 ∷ [] }
    ensures the_age_counts_from_the_first_firsts { firsts_of most_firsts
        (comes 7 0 1 ∷ comes 7 20000 2 ∷ comes 8 20000 3 ∷ comes 7 30000 4 ∷ [])
        ≡ comes 7 0 1 ∷ comes 8 20000 3 ∷ comes 7 30000 4 ∷ [] }
    ensures the_age_counts_from_the_first_repeat { kind_after most_firsts (comes 7 0 1 ∷ comes 7 5 2 ∷ comes 8 6 3 ∷ []) (comes 7 9 4)
        ≡ a_repeat (record { original = comes 7 0 1; after = comes 8 6 3 ∷ [] }) }
    // A copy repeats the latest first that it is a copy of, where a clock that went back leaves two.
    ensures a_copy_repeats_the_latest { answers (comes 7 0 1 ∷ comes 7 30000 2 ∷ comes 7 29999 3 ∷ []) ≡ gets 1 ∷ gets 2 ∷ gets 2 ∷ [] }
    // K names single ids and ranges with both their ends, the smallest and the largest id too (3.2.2.1).
    ensures range { answers (comes 4 0 1 ∷ comes 5 0 2 ∷ comes 6 0 3 ∷ comes 7 0 4
        ∷ comes_with (to 5 6 ∷ []) 8 1 5 ∷ comes 4 2 9 ∷ comes 5 2 9 ∷ comes 6 2 9 ∷ comes 7 2 9 ∷ [])
        ≡ gets 1 ∷ gets 2 ∷ gets 3 ∷ gets 4 ∷ gets 5 ∷ gets 1 ∷ silence ∷ silence ∷ gets 4 ∷ [] }
    ensures several { answers (comes 4 0 1 ∷ comes 5 0 2 ∷ comes 6 0 3
        ∷ comes_with (to 4 4 ∷ to 6 6 ∷ []) 8 1 5 ∷ comes 4 2 9 ∷ comes 5 2 9 ∷ comes 6 2 9 ∷ [])
        ≡ gets 1 ∷ gets 2 ∷ gets 3 ∷ gets 5 ∷ silence ∷ gets 2 ∷ silence ∷ [] }
    ensures k_names_ids_and_ranges_all { answers (comes 1 0 1 ∷ comes 999999999 0 2
        ∷ comes_with (to 1 999999999 ∷ []) 8 1 5 ∷ comes 1 2 9 ∷ comes 999999999 2 9 ∷ [])
        ≡ gets 1 ∷ gets 2 ∷ gets 5 ∷ silence ∷ silence ∷ [] }
    ensures ends { answers (comes 1 0 1 ∷ comes 999999999 0 2
        ∷ comes_with (to 2 999999998 ∷ []) 8 1 5 ∷ comes 1 2 9 ∷ comes 999999999 2 9 ∷ [])
        ≡ gets 1 ∷ gets 2 ∷ gets 5 ∷ gets 1 ∷ gets 2 ∷ [] }
    ensures downwards { answers (comes 4 0 1 ∷ comes 5 0 2
        ∷ comes_with (to 5 4 ∷ []) 8 1 5 ∷ comes 4 2 9 ∷ comes 5 2 9 ∷ [])
        ≡ gets 1 ∷ gets 2 ∷ gets 5 ∷ gets 1 ∷ gets 2 ∷ [] }
    ensures k_names_ids_and_ranges_none { answers (comes 4 0 1 ∷ comes_with [] 8 1 5 ∷ comes 4 2 9 ∷ []) ≡ gets 1 ∷ gets 5 ∷ gets 1 ∷ [] }
    // K confirms the firsts before it: neither its own command, nor one that comes later, nor one that never comes.
    ensures its_own { answers (comes_with (to 8 8 ∷ []) 8 0 1 ∷ comes 8 1 9 ∷ []) ≡ gets 1 ∷ gets 1 ∷ [] }
    ensures to_come { answers (comes_with (to 5 5 ∷ []) 8 0 1 ∷ comes 5 1 2 ∷ comes 5 2 9 ∷ [])
        ≡ gets 1 ∷ gets 2 ∷ gets 2 ∷ [] }
    ensures never { answers (comes 4 0 1 ∷ comes_with (to 5 5 ∷ []) 8 1 2 ∷ comes 4 2 9 ∷ comes 8 2 9 ∷ [])
        ≡ gets 1 ∷ gets 2 ∷ gets 1 ∷ gets 2 ∷ [] }
    // It confirms at once, and by any first behind: other firsts in between change nothing.
    ensures k_confirms_what_came_before_at_once { answers (comes 5 0 1 ∷ comes_with (to 5 5 ∷ []) 8 0 2 ∷ comes 5 0 9 ∷ [])
        ≡ gets 1 ∷ gets 2 ∷ silence ∷ [] }
    ensures between { answers (comes 5 0 1 ∷ comes 6 0 2 ∷ comes_with (to 5 5 ∷ []) 8 0 3
        ∷ comes 9 0 4 ∷ comes 5 1 9 ∷ [])
        ≡ gets 1 ∷ gets 2 ∷ gets 3 ∷ gets 4 ∷ silence ∷ [] }
    ensures twice { answers (comes 5 0 1 ∷ comes_with (to 5 5 ∷ []) 8 0 2
        ∷ comes_with (to 5 5 ∷ []) 9 0 3 ∷ comes 5 1 9 ∷ [])
        ≡ gets 1 ∷ gets 2 ∷ gets 3 ∷ silence ∷ [] }
    // What is confirmed is answered with silence until it is 30,000 ms old. A new first with its id isn't confirmed.
    ensures silence_ends_with_the_first_last { answers (comes 5 0 1 ∷ comes_with (to 5 5 ∷ []) 8 9 2 ∷ comes 5 29999 3 ∷ [])
        ≡ gets 1 ∷ gets 2 ∷ silence ∷ [] }
    ensures silence_ends_with_the_first_anew { answers (comes 5 0 1 ∷ comes_with (to 5 5 ∷ []) 8 9 2 ∷ comes 5 30000 3 ∷ comes 5 30001 4
        ∷ [])
        ≡ gets 1 ∷ gets 2 ∷ gets 3 ∷ gets 3 ∷ [] }
    ensures silence_ends_with_the_first_old { answers (comes 5 0 1 ∷ comes_with (to 5 5 ∷ []) 8 9 2 ∷ comes 5 29999 3 ∷ comes 5 30000 4
        ∷ [])
        ≡ gets 1 ∷ gets 2 ∷ silence ∷ gets 4 ∷ [] }
    // The K of a repeat, or of what is lost, confirms nothing.
    ensures firsts_alone_confirm_repeat { answers (comes 5 0 1 ∷ comes 8 0 2 ∷ comes_with (to 5 5 ∷ []) 8 1 9 ∷ comes 5 2 9 ∷ [])
        ≡ gets 1 ∷ gets 2 ∷ gets 2 ∷ gets 1 ∷ [] }
    ensures firsts_alone_confirm_lost { answers_of 1 (comes 5 0 1 ∷ comes_with (to 5 5 ∷ []) 8 1 9 ∷ comes 5 2 9 ∷ [])
        ≡ gets 1 ∷ silence ∷ gets 1 ∷ [] }
{}

/// Each sentence at an example.
pub fn further_sentences_have_examples()
    // What comes while as many firsts as the limit are young is lost, a repeat never; confirmed firsts count like others.
    ensures a_full_memory_loses_what_is_new_lost { answers_of 2 (comes 1 0 1 ∷ comes 2 1 2 ∷ comes 3 2 3 ∷ comes 1 3 9 ∷ comes 2 3 9 ∷ [])
        ≡ gets 1 ∷ gets 2 ∷ silence ∷ gets 1 ∷ gets 2 ∷ [] }
    ensures a_full_memory_loses_what_is_new_room { answers_of 2 (comes 1 0 1 ∷ comes 2 1 2 ∷ comes 3 29999 3
        ∷ comes 3 30000 4 ∷ comes 4 30000 5 ∷ comes 4 30001 6 ∷ [])
        ≡ gets 1 ∷ gets 2 ∷ silence ∷ gets 4 ∷ silence ∷ gets 6 ∷ [] }
    ensures a_full_memory_loses_what_is_new_confirmed { answers_of 2 (comes 1 0 1 ∷ comes_with (to 1 1 ∷ []) 2 1 2 ∷ comes 3 2 3 ∷ comes
        1 3 9 ∷ [])
        ≡ gets 1 ∷ gets 2 ∷ silence ∷ silence ∷ [] }
    ensures kind { kind_after 2 (comes 1 0 1 ∷ comes 2 1 2 ∷ []) (comes 3 2 3) ≡ lost }
    ensures a_full_memory_loses_what_is_new_firsts { firsts_of 2 (comes 1 0 1 ∷ comes 2 1 2 ∷ comes 3 2 3 ∷ comes 3 30000 4 ∷ [])
        ≡ comes 1 0 1 ∷ comes 2 1 2 ∷ comes 3 30000 4 ∷ [] }
    ensures one { kind_after 2 (comes 1 0 1 ∷ []) (comes 2 1 2) ≡ a_first }
    // What is kept tells the same.
    ensures nothing { told [] 7 0 ≡ new }
    ensures entries_tell_what_a_command_is_last { told (kept 7 0 1 ∷ []) 7 29999 ≡ repeat (1 ∷ []) }
    ensures entries_tell_what_a_command_is_no_more { told (kept 7 0 1 ∷ []) 7 30000 ≡ new }
    ensures other { told (kept 7 0 1 ∷ []) 8 0 ≡ new }
    ensures latest { told (kept 7 0 1 ∷ kept 7 30000 2 ∷ []) 7 29999 ≡ repeat (2 ∷ []) }
    ensures entries_tell_what_a_command_is_confirmed { told (kept 7 0 1 ∷ confirmed_ids 6 7 ∷ kept 8 0 2 ∷ []) 7 29999 ≡ confirmed }
    ensures entries_tell_what_a_command_is_old { told (kept 7 0 1 ∷ confirmed_ids 6 7 ∷ []) 7 30000 ≡ new }
    ensures not_named { told (kept 7 0 1 ∷ confirmed_ids 8 9 ∷ []) 7 1 ≡ repeat (1 ∷ []) }
    ensures entries_tell_what_a_command_is_behind { told (kept 7 0 1 ∷ kept 8 0 2 ∷ []) 7 1 ≡ repeat (1 ∷ []) }
    ensures entries_tell_what_a_command_is_before { told (confirmed_ids 7 7 ∷ kept 7 0 1 ∷ []) 7 1 ≡ repeat (1 ∷ []) }
    ensures entries_tell_what_a_command_is_anew { told (kept 7 0 1 ∷ confirmed_ids 7 7 ∷ kept 7 30000 2 ∷ []) 7 30001 ≡ repeat (2 ∷ []) }
    ensures full { look_of 2 (kept 7 0 1 ∷ kept 8 0 2 ∷ []) 9 0 ≡ full }
    ensures repeat_when_full { look_of 2 (kept 7 0 1 ∷ kept 8 0 2 ∷ []) 8 0 ≡ repeat (2 ∷ []) }
    ensures silent_when_full { look_of 2 (kept 7 0 1 ∷ confirmed_ids 7 7 ∷ kept 8 0 2 ∷ []) 7 0 ≡ confirmed }
    ensures confirmations_count_not { look_of 2 (kept 7 0 1 ∷ confirmed_ids 7 7 ∷ confirmed_ids 7 7 ∷ []) 9 0 ≡ new }
    ensures entries_tell_what_a_command_is_room { look_of 2 (kept 7 0 1 ∷ kept 8 1 2 ∷ []) 9 30000 ≡ new }
    // A purge drops what came before the first young one, and no more.
    ensures a_purge_drops_the_old_front_young { from_young 29999 (kept 7 0 1 ∷ confirmed_ids 7 7 ∷ [])
        ≡ kept 7 0 1 ∷ confirmed_ids 7 7 ∷ [] }
    ensures a_purge_drops_the_old_front_old { from_young 30000 (kept 7 0 1 ∷ confirmed_ids 7 7 ∷ []) ≡ [] }
    ensures rest { from_young 30000 (kept 7 0 1 ∷ confirmed_ids 7 7 ∷ kept 8 1 2 ∷ confirmed_ids 8 8 ∷ [])
        ≡ kept 8 1 2 ∷ confirmed_ids 8 8 ∷ [] }
    ensures front { from_young 0 (confirmed_ids 7 7 ∷ kept 8 0 2 ∷ []) ≡ kept 8 0 2 ∷ [] }
    // What a purge leaves is counted: the firsts, confirmed or not, and no confirmation.
    ensures what_a_purge_leaves_is_counted_all { length (firsts_in
        (from_young 29999 (kept 7 0 1 ∷ confirmed_ids 7 7 ∷ kept 8 1 2 ∷ kept 9 1 3 ∷ []))) ≡ 3 }
    ensures what_a_purge_leaves_is_counted_young { length (firsts_in
        (from_young 30000 (kept 7 0 1 ∷ confirmed_ids 7 7 ∷ kept 8 1 2 ∷ kept 9 1 3 ∷ []))) ≡ 2 }
    ensures what_a_purge_leaves_is_counted_none { length (firsts_in
        (from_young 30001 (kept 7 0 1 ∷ confirmed_ids 7 7 ∷ kept 8 1 2 ∷ kept 9 1 3 ∷ []))) ≡ 0 }
    // Where the clock went back, old ones may stand behind young ones, and aren't counted.
    ensures what_a_purge_leaves_is_counted_behind { length (young_firsts 34000
        (from_young 34000 (kept 7 5000 1 ∷ kept 7 1000 2 ∷ kept 8 2000 3 ∷ []))) ≡ 1 }
    // A purge at a moment before the last one counts what that left.
    ensures what_a_purge_leaves_is_counted_before { length (young_firsts 31999
        (from_young 31999 (from_young 34000 (kept 7 3000 1 ∷ kept 8 5000 2 ∷ [])))) ≡ 1 }
    ensures order { firsts_in (kept 8 1 2 ∷ confirmed_ids 8 8 ∷ kept 7 0 1 ∷ [])
        ≡ record { id = 8; moment = 1; answer = 2 ∷ [] } ∷ record { id = 7; moment = 0; answer = 1 ∷ [] } ∷ [] }
    // What is kept after a purge isn't settled, so that `undo` takes it back.
    ensures what_is_kept_since_a_purge_is_not_settled { kept_with (settled_at 5 (kept 7 0 1 ∷ [])) (kept 8 1 2)
        ≡ record { kept = kept 7 0 1 ∷ kept 8 1 2 ∷ []; settled = kept 7 0 1 ∷ []; purged = 5 } }
    // A first is kept behind what it confirms.
    ensures a_first_is_kept_behind_its_k { entries_of (comes 5 0 1 ∷ comes_with (to 5 6 ∷ []) 8 3 2 ∷ [])
        ≡ entries_of (comes 5 0 1 ∷ []) ++ confirmed_ids 5 6 ∷ kept 8 3 2 ∷ [] }
    // An arrival without its answer has its id, its moment and what it confirms.
    ensures what_is_unanswered_is_the_same_otherwise { unanswered (comes_with (to 5 5 ∷ []) 8 1000 9)
        ≡ record { id = 8; moment = 1000; confirms = to 5 5 ∷ []; answer = [] } }
{}
