//! Worked examples of the definitions, as theorems: each sentence of a definition has one that a slip in it breaks.
#![tactic(auto, unfolding(crate::proofs::BoardComputing::on_examples))]

ghost use Rattle.std.specs.Prelude.{◌≡◌, codes, true, false, map, length, replicate, [], ◌∷◌, Some, None};
ghost use Rattle.page_state.specs.declared.act.PhoneAct.TheVariants.{Off, On, Flash, Key};
ghost use Rattle.page_state.specs.declared.ring.Kind.TheVariants.{Sent, Told};
ghost use Rattle.page_state.specs.Acts.{act_named, act_line};
ghost use Rattle.page_state.specs.Example.{queued, agent, ring_at, lifted, answered, sent_answer, noise};
ghost use Rattle.page_state.specs.Health.{is_alive};
ghost use Rattle.page_state.specs.Keeping.{kept_with, event_at, nothing_yet, counted, noted, labelled};

/// Each sentence at an example.
pub fn each_sentence_has_an_example()
    // The oldest gives way where no more are kept.
    ensures room { kept_with 3 (codes "ab") 99 ≡ codes "abc" }
    ensures full { kept_with 2 (codes "ab") 99 ≡ codes "bc" }
    ensures the_oldest_gives_way_first { kept_with 2 [] 99 ≡ codes "c" }
    // What happens has the next number, and is kept behind the others as far as its text is; else its number alone is taken.
    ensures what_happens_is_numbered_first { noted nothing_yet 5020 Told agent (codes "ok")
        ≡ ring_at 1 (event_at 1 5020 Told agent (codes "ok") ∷ []) }
    ensures second { noted (ring_at 7 (lifted ∷ [])) 5020 Told agent (codes "ok") ≡ ring_at 8 (lifted ∷ answered ∷ []) }
    ensures cut { map (λ e. length e.text) (noted nothing_yet 0 Sent agent (replicate 4097 65)).events ≡ 4096 ∷ [] }
    ensures counted { counted (ring_at 7 (lifted ∷ [])) ≡ ring_at 8 (lifted ∷ []) }
    // A gateway is well whose clock is behind by a second at most.
    ensures just { is_alive 1000 ≡ true }
    ensures who_is_behind_isnt_well_behind { is_alive 1001 ≡ false }
    ensures at_once { is_alive 0 ≡ true }
    // An act is done as a line of the telephones' socket does it.
    ensures an_act_is_a_line_off { act_line (queued 1 Off) ≡ codes "phone 1 off" }
    ensures an_act_is_a_line_on { act_line (queued 96 On) ≡ codes "phone 96 on" }
    ensures an_act_is_a_line_flash { act_line (queued 2 Flash) ≡ codes "phone 2 flash" }
    ensures key { act_line (queued 10 (Key 35)) ≡ codes "phone 10 #" }
{}

/// An act is `off`, `on`, `flash` or a key.
pub fn acts_have_words()
    ensures acts_have_words_off { act_named (codes "off") ≡ Some Off }
    ensures acts_have_words_on { act_named (codes "on") ≡ Some On }
    ensures acts_have_words_flash { act_named (codes "flash") ≡ Some Flash }
    ensures acts_have_words_zero { act_named (codes "0") ≡ Some (Key 48) }
    ensures acts_have_words_nine { act_named (codes "9") ≡ Some (Key 57) }
    ensures star { act_named (codes "*") ≡ Some (Key 42) }
    ensures hash { act_named (codes "#") ≡ Some (Key 35) }
    ensures acts_have_words_first { act_named (codes "A") ≡ Some (Key 65) }
    ensures acts_have_words_last { act_named (codes "D") ≡ Some (Key 68) }
    ensures below_zero { act_named (codes "/") ≡ None }
    ensures above_nine { act_named (codes ":") ≡ None }
    ensures below_a { act_named (codes "@") ≡ None }
    ensures above_d { act_named (codes "E") ≡ None }
    ensures small { act_named (codes "a") ≡ None }
    ensures two { act_named (codes "12") ≡ None }
    ensures acts_have_words_none { act_named [] ≡ None }
{}

/// What the messages of what happened last are is kept beside it.
pub fn what_messages_are_is_kept_beside_them()
    ensures latest { labelled (ring_at 8 (lifted ∷ answered ∷ [])) (sent_answer ∷ [])
        ≡ ring_at 8 (lifted ∷ record answered { said = sent_answer ∷ [] } ∷ []) }
    ensures alone { labelled (ring_at 8 (answered ∷ [])) (sent_answer ∷ noise ∷ [])
        ≡ ring_at 8 (record answered { said = sent_answer ∷ noise ∷ [] } ∷ []) }
    ensures not_kept { labelled (ring_at 9 (lifted ∷ answered ∷ [])) (sent_answer ∷ []) ≡ ring_at 9 (lifted ∷ answered ∷ []) }
    ensures none { labelled nothing_yet (sent_answer ∷ []) ≡ nothing_yet }
    ensures said_of_64 { map (λ e. length e.said) (labelled (ring_at 8 (answered ∷ [])) (replicate 65 noise)).events ≡ 64 ∷ [] }
{}
