//! Worked examples of the definitions, as theorems: each sentence of a definition has one that a slip in it breaks.
#![tactic(auto, unfolding(crate::proofs::Computing::on_examples))]

ghost use Rattle.std.specs.Prelude.{◌≡◌, codes, [], ◌∷◌, Some, None, Ok, Err};
ghost use Rattle.impairment.specs.declared.draws.Generators.{Generators};
ghost use Rattle.impairment.specs.declared.fate.Fate.TheVariants.{Lost, Once, Twice};
ghost use Rattle.impairment.specs.declared.packet.Way.TheVariants.{In, Out};
ghost use Rattle.impairment.specs.declared.spoiling.Spoiling.{Spoiling};
ghost use Rattle.impairment.specs.declared.spoiling.SpoilingFault.TheVariants as faults;
ghost use Rattle.impairment.specs.Spelling.{percent_of, span_of};
ghost use Rattle.impairment.specs.Parts.{spoiling_of};
ghost use Rattle.impairment.specs.Naming.{mixed, named};
ghost use Rattle.impairment.specs.Drawing.{seeded, generators_of, after_draws, after_draws_on};
ghost use Rattle.impairment.specs.Fates.{fate_of, lateness, impairment_on, fate_on};
ghost use Rattle.impairment.specs.Waiting.{packet_of, copies_of, put_in, put_all, first_due, taken};
ghost use Rattle.impairment.specs.Ways.{number_on, fates_on};
ghost use Rattle.impairment.specs.Example.{rough, clear, both, drawn, peer, packet};

/// Each sentence at an example.
pub fn each_sentence_has_an_example()
    // A percentage is a number up to 100 before its sign, and a span two numbers up to 10,000 in their order.
    ensures numbers_have_their_bounds_none { percent_of (codes "0%") ≡ Some 0 }
    ensures all { percent_of (codes "100%") ≡ Some 100 }
    ensures more { percent_of (codes "101%") ≡ None }
    ensures no_sign { percent_of (codes "10") ≡ None }
    ensures numbers_have_their_bounds_behind { percent_of (codes "10%%") ≡ None }
    ensures no_number { percent_of (codes "%") ≡ None }
    ensures span { span_of (codes "100-10000") ≡ Some (100, 10000) }
    ensures equal { span_of (codes "5-5") ≡ Some (5, 5) }
    ensures numbers_have_their_bounds_turned { span_of (codes "6-5") ≡ None }
    ensures too_late { span_of (codes "0-10001") ≡ None }
    ensures numbers_have_their_bounds_one { span_of (codes "5") ≡ None }
    // Parts stand in any order, and where one is missing nothing is spoilt, with the seed 1.
    ensures whole { spoiling_of (codes "lose 10%, copy 5%, late 100-3000, seed 7") ≡ Ok (both rough) }
    ensures a_text_says_how_a_network_spoils_turned { spoiling_of (codes "seed 7,late 100-3000,copy  5%,lose 10%") ≡ Ok (both rough) }
    ensures a_text_says_how_a_network_spoils_one { spoiling_of (codes "late 0-20")
        ≡ Ok (both (record clear { most = 20 })) }
    // With a way in front a part is of that way alone.
    ensures by_way { spoiling_of (codes "in lose 10%, out late 0-500")
        ≡ Ok (record { incoming = record clear { lose = 10 }; outgoing = record clear { most = 500 } }) }
    ensures of_both { spoiling_of (codes "out  copy 5%, seed 7, out lose 1%")
        ≡ Ok (record { incoming = record clear { seed = 7 }; outgoing = record { lose = 1; copy = 5; least = 0; most = 0; seed = 7 } }) }
    ensures twice_for_a_way { spoiling_of (codes "lose 1%, out lose 2%") ≡ Err faults.Lose }
    ensures way_twice { spoiling_of (codes "in late 1-2, late 1-2") ≡ Err faults.Late }
    ensures both_ways { spoiling_of (codes "in out lose 1%") ≡ Err faults.Other }
    ensures way_alone { spoiling_of (codes "in") ≡ Err faults.Other }
    // The first part that is wrong is the fault.
    ensures lose { spoiling_of (codes "lose 101%, copy 101%") ≡ Err faults.Lose }
    ensures copy { spoiling_of (codes "lose 1%, copy") ≡ Err faults.Other }
    ensures percentage { spoiling_of (codes "copy x") ≡ Err faults.Copy }
    ensures late { spoiling_of (codes "late 3000-0") ≡ Err faults.Late }
    ensures seed { spoiling_of (codes "seed -1") ≡ Err faults.Seed }
    ensures other { spoiling_of (codes "drop 1%") ≡ Err faults.Other }
    ensures nothing { spoiling_of [] ≡ Err faults.Other }
    ensures lose_twice { spoiling_of (codes "lose 1%, lose 1%") ≡ Err faults.Lose }
    ensures copy_twice { spoiling_of (codes "copy 1%, copy 1%") ≡ Err faults.Copy }
    ensures late_twice { spoiling_of (codes "late 1-1, late 1-1") ≡ Err faults.Late }
    ensures seed_twice { spoiling_of (codes "seed 1, seed 1") ≡ Err faults.Seed }
{}

/// Each sentence at an example.
pub fn further_sentences_have_examples()
    // A seed is mixed with a name as FNV-1a is reckoned, which begins at 14,695,981,039,346,656,037 by itself. Nothing else of the
    // network is changed, and without a name its seed isn't either.
    ensures letter { mixed 14695981039346656037 (codes "a") ≡ 12638187200555641996 }
    ensures word { mixed 14695981039346656037 (codes "foobar") ≡ 9625390261332436968 }
    ensures short { mixed 7 (codes "a") ≡ 112150186077522 }
    ensures domain { mixed 7 (codes "rgw.example.net") ≡ 4552955192935780764 }
    ensures seeds_are_mixed_with_names_none { named (both rough) [] ≡ both rough }
    ensures seed_alone { named (record { incoming = rough; outgoing = clear }) (codes "b")
        ≡ record { incoming = record rough { seed = 111050674449311 }; outgoing = record clear { seed = 108851651192889 } } }
    // The draw for loss goes before that for a copy, and each copy has a lateness of its own.
    ensures fates_are_drawn_lost { fate_of rough (drawn 109 0 0 0) ≡ Lost }
    ensures just_not { fate_of rough (drawn 110 5 0 0) ≡ Once 100 }
    ensures fates_are_drawn_twice { fate_of rough (drawn 10 204 1 2900) ≡ Twice 101 3000 }
    ensures from_the_least { lateness rough 2901 ≡ 100 }
    ensures to_the_most { lateness rough 2900 ≡ 3000 }
    ensures never_later { lateness (record { lose = 0; copy = 0; least = 9999; most = 20000; seed = 1 }) 3 ≡ 10000 }
    // A copy is due so much later than its packet is offered.
    ensures copies_are_due_later_lost { copies_of Lost Out peer (7 ∷ []) 50 ≡ [] }
    ensures once { copies_of (Once 20) Out peer (7 ∷ []) 50
        ≡ record { way = Out; peer = peer; offered = 50; due = 70; bytes = 7 ∷ [] } ∷ [] }
    ensures copies_are_due_later_twice { copies_of (Twice 20 10) In peer [] 50
        ≡ packet_of In peer [] 50 20 ∷ packet_of In peer [] 50 10 ∷ [] }
    ensures end { (packet_of In peer [] 18446744073709551610 20).due ≡ 18446744073709551615 }
    // What is due first stands first, and of those due at one moment what was offered first; it is handed out where it is due.
    ensures front { put_in (packet 1 5) (packet 2 7 ∷ []) ≡ packet 1 5 ∷ packet 2 7 ∷ [] }
    ensures packets_wait_in_order_behind { put_in (packet 1 7) (packet 2 7 ∷ packet 3 8 ∷ []) ≡ packet 2 7 ∷ packet 1 7 ∷ packet 3 8 ∷ [] }
    ensures several { put_all (packet 1 7 ∷ packet 2 5 ∷ []) [] ≡ packet 2 5 ∷ packet 1 7 ∷ [] }
    ensures next { first_due (packet 1 7 ∷ packet 2 8 ∷ []) ≡ Some 7 }
    ensures early { taken 6 (packet 1 7 ∷ []) ≡ (None, packet 1 7 ∷ []) }
    ensures due { taken 7 (packet 1 7 ∷ packet 2 7 ∷ []) ≡ (Some (packet 1 7), packet 2 7 ∷ []) }
    ensures empty { taken 7 [] ≡ (None, []) }
{}

/// Each sentence at an example.
pub fn ways_have_examples()
    // A way's generator begins by its seed and its letter.
    ensures each_way_has_its_letter { generators_of (both rough)
        ≡ record { incoming = seeded 120946279103210; outgoing = seeded 114349209333944 } }
    // What goes one way is spoilt as that is said, and draws from its own generator alone.
    ensures in_alone { impairment_on In (record { incoming = rough; outgoing = clear }) ≡ rough }
    ensures out_alone { impairment_on Out (record { incoming = rough; outgoing = clear }) ≡ clear }
    ensures a_way_draws_for_itself_in { (generators : Generators) → after_draws_on In generators
        ≡ record { incoming = after_draws generators.incoming; outgoing = generators.outgoing } }
    ensures a_way_draws_for_itself_out { (generators : Generators) → after_draws_on Out generators
        ≡ record { incoming = generators.incoming; outgoing = after_draws generators.outgoing } }
    // Two announcements go out: what becomes of them is the same where three audits come between them.
    ensures counted { number_on Out (Out ∷ In ∷ In ∷ In ∷ Out ∷ []) ≡ 2 }
    ensures what_comes_changes_nothing_of_what_goes { (spoiling : Spoiling) (generators : Generators) →
        fates_on Out spoiling generators (Out ∷ In ∷ In ∷ In ∷ Out ∷ []) ≡ fates_on Out spoiling generators (Out ∷ Out ∷ []) }
    ensures what_becomes_of_them { (spoiling : Spoiling) (generators : Generators) →
        fates_on Out spoiling generators (In ∷ Out ∷ []) ≡ fate_on Out spoiling generators ∷ [] }
{}
