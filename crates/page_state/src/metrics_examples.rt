//! Worked examples of the definitions, as theorems: each sentence of a definition has one that a slip in it breaks.
#![tactic(auto, unfolding(crate::proofs::MetricsComputing::on_examples))]

ghost use Rattle.std.specs.Prelude.{◌≡◌, codes, true, false, Some, None};
ghost use Rattle.page_state.specs.Answering.{agent_answers};
ghost use Rattle.page_state.specs.Metrics.{escaped, labelled_sample, code_text, single, number_if};
ghost use Rattle.page_state.specs.Sums.{sum_within, next_number};
ghost use Rattle.page_state.specs.Verbs.{verb_word};

/// Each sentence at an example.
pub fn each_sentence_has_an_example()
    // A sum goes no further than its numbers do.
    ensures sum { sum_within 2 3 ≡ 5 }
    ensures what_happens_is_numbered_last { next_number 18446744073709551615 ≡ 18446744073709551615 }
    ensures last_but_one { next_number 18446744073709551614 ≡ 18446744073709551615 }
    // Samples are lines, and a label's value hides its backslashes, quotes and line ends.
    ensures labelled { labelled_sample (codes "rgw_commands_total") (codes "verb") (codes "RQNT") 12
        ≡ codes "rgw_commands_total{verb=\"RQNT\"} 12\n" }
    ensures plain { single (codes "rgw_lines") (codes "gauge") (codes "Lines.") 96
        ≡ codes "# HELP rgw_lines Lines.\n# TYPE rgw_lines gauge\nrgw_lines 96\n" }
    ensures quote { escaped (codes "a\"b") ≡ codes "a\\\"b" }
    ensures backslash { escaped (codes "a\\b") ≡ codes "a\\\\b" }
    ensures line_end { escaped (codes "a\nb") ≡ codes "a\\nb" }
    // Whether the gateway serves is told by a number.
    ensures serving { number_if true ≡ 1 }
    ensures not_serving { number_if false ≡ 0 }
{}

/// Each sentence at an example.
pub fn further_sentences_have_examples()
    // Verbs have their places.
    ensures verbs_have_places_first { verb_word 0 ≡ codes "EPCF" }
    ensures request { verb_word 1 ≡ codes "RQNT" }
    ensures notification { verb_word 2 ≡ codes "NTFY" }
    ensures creation { verb_word 3 ≡ codes "CRCX" }
    ensures modification { verb_word 4 ≡ codes "MDCX" }
    ensures deletion { verb_word 5 ≡ codes "DLCX" }
    ensures audit { verb_word 6 ≡ codes "AUEP" }
    ensures audit_of_connection { verb_word 7 ≡ codes "AUCX" }
    ensures announcement { verb_word 8 ≡ codes "RSIP" }
    ensures other { verb_word 9 ≡ codes "other" }
    // A code is told in three digits.
    ensures acknowledgement { code_text 0 ≡ codes "000" }
    ensures codes_have_three_digits_nine { code_text 9 ≡ codes "009" }
    ensures ten { code_text 10 ≡ codes "010" }
    ensures ninety_nine { code_text 99 ≡ codes "099" }
    ensures hundred { code_text 100 ≡ codes "100" }
    ensures fault { code_text 510 ≡ codes "510" }
{}

/// An agent answers that has answered the announcement, and owes an answer for two seconds at most.
pub fn an_agent_that_owes_an_answer_for_long_does_not_answer()
    ensures nothing_owed { agent_answers 9000 true None ≡ true }
    ensures never { agent_answers 9000 false None ≡ false }
    ensures soon { agent_answers 9000 true (Some 7000) ≡ true }
    ensures late { agent_answers 9000 true (Some 6999) ≡ false }
    ensures never_nor_soon { agent_answers 9000 false (Some 9000) ≡ false }
{}
