//! Worked examples of what a start draws, as theorems: each sentence of a definition has one that a slip in it breaks.
#![tactic(auto, unfolding(crate::proofs::StartComputing::on_examples))]

ghost use Rattle.std.specs.Prelude.{◌≡◌, codes, [], Some, None};
ghost use Rattle.traces.specs.Words.{first_in, spread_in};
ghost use Rattle.traces.specs.Waiting.{waited};

/// Each sentence at an example.
pub fn each_sentence_has_an_example()
    // Ids may begin with 0 to 9,999,998, as a word spells that in digits and nothing else.
    ensures a_word_says_the_first_number_none { first_in (codes "0") ≡ Some 0 }
    ensures a_word_says_the_first_number_some { first_in (codes "4711") ≡ Some 4711 }
    ensures last { first_in (codes "9999998") ≡ Some 9999998 }
    ensures a_word_says_the_first_number_past { first_in (codes "9999999") ≡ None }
    ensures sign { first_in (codes "-1") ≡ None }
    ensures letters { first_in (codes "now") ≡ None }
    ensures a_word_says_the_first_number_empty { first_in [] ≡ None }
    // A spread is 0 to 600,000 ms.
    ensures a_word_says_the_spread_none { spread_in (codes "0") ≡ Some 0 }
    ensures longest { spread_in (codes "600000") ≡ Some 600000 }
    ensures a_word_says_the_spread_past { spread_in (codes "600001") ≡ None }
    ensures unit { spread_in (codes "2s") ≡ None }
    ensures a_word_says_the_spread_empty { spread_in [] ≡ None }
    // A start waits for any time up to the spread, that itself too; without a spread it doesn't. Another time of day and another
    // domain have another.
    ensures a_start_waits_up_to_its_spread_none { waited 0 7 (codes "rgw.example.net") ≡ 0 }
    ensures a_start_waits_up_to_its_spread_some { waited 1000 7 (codes "rgw.example.net") ≡ 133 }
    ensures that_too { waited 22 20 (codes "a") ≡ 22 }
    ensures day { waited 100 8 (codes "a") ≡ 66 }
    ensures domain { waited 100 7 (codes "b") ≡ 0 }
    ensures short { waited 100 7 (codes "a") ≡ 67 }
    ensures no_domain { waited 100 250 [] ≡ 48 }
{}
