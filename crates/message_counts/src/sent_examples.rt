//! What is counted of what is sent, as theorems.
#![tactic(auto, unfolding(crate::proofs::Computing::on_examples))]

ghost use Rattle.std.specs.Prelude.{◌≡◌, ◌-◌, ◌^◌, [], ◌∷◌, map, slice_index_or};
ghost use Rattle.mgcp_text.specs.declared.message.Verb.TheVariants as verbs;
ghost use Rattle.plain_machine.specs.declared.label.Whose.TheVariants.{AnswerOf, OwnOf, Nobody};
ghost use Rattle.plain_machine.specs.declared.label.What.TheVariants as whats;
ghost use Rattle.message_counts.specs.SentCounting.{no_tally, place_of, with_sent, with_given_up, all_given_up};
ghost use Rattle.message_counts.specs.SentExample.{said, lost, announcement, counted_once};

/// Each sentence at an example.
pub fn each_sentence_has_an_example()
    // An answer counts with its return code, and one that is given again in both counts; an acknowledgement counts as 000.
    ensures answers_are_counted_by_code_first { slice_index_or (counted_once (whats.Answer 401)).answers 401 0 ≡ 1 }
    ensures answers_are_counted_by_code_not_again { (counted_once (whats.Answer 401)).again ≡ 0 }
    ensures again_code { slice_index_or (counted_once (whats.Again 200)).answers 200 0 ≡ 1 }
    ensures answers_are_counted_by_code_again { (counted_once (whats.Again 200)).again ≡ 1 }
    ensures acknowledged { slice_index_or (counted_once whats.Acknowledgement).answers 0 0 ≡ 1 }
    ensures both { slice_index_or (with_sent no_tally (said (whats.Answer 200) ∷ said (whats.Again 200) ∷ [])).answers 200 0 ≡ 2 }
    // Each verb has a count of its own, in this order.
    ensures each_verb_has_its_place { map place_of (verbs.Epcf ∷ verbs.Rqnt ∷ verbs.Ntfy ∷ verbs.Crcx ∷ verbs.Mdcx ∷ verbs.Dlcx ∷
        verbs.Auep ∷ verbs.Aucx ∷ verbs.Rsip
        ∷ verbs.Other ∷ []) ≡ 0 ∷ 1 ∷ 2 ∷ 3 ∷ 4 ∷ 5 ∷ 6 ∷ 7 ∷ 8 ∷ 9 ∷ [] }
    // A command of its own counts by its verb at each send, and in both counts from the second on.
    ensures own_commands_are_counted_by_verb_first { (counted_once (whats.Command verbs.Ntfy)).commands
        ≡ 0 ∷ 0 ∷ 1 ∷ 0 ∷ 0 ∷ 0 ∷ 0 ∷ 0 ∷ 0 ∷ 0 ∷ [] }
    ensures own_commands_are_counted_by_verb_not_again { (counted_once (whats.Command verbs.Ntfy)).commands_again
        ≡ no_tally.commands_again }
    ensures resent { (counted_once (whats.Resent verbs.Rsip 2)).commands ≡ 0 ∷ 0 ∷ 0 ∷ 0 ∷ 0 ∷ 0 ∷ 0 ∷ 0 ∷ 1 ∷ 0 ∷ [] }
    ensures own_commands_are_counted_by_verb_again { (counted_once (whats.Resent verbs.Rsip 2)).commands_again
        ≡ 0 ∷ 0 ∷ 0 ∷ 0 ∷ 0 ∷ 0 ∷ 0 ∷ 0 ∷ 1 ∷ 0 ∷ [] }
    // What is given up is counted by whose it was, and a count stays at its greatest value.
    ensures two { (with_given_up no_tally (lost ∷ lost ∷ [])).given_up_by_lines ≡ 2 }
    ensures of_lines { (with_given_up no_tally (lost ∷ lost ∷ [])).given_up_by_gateway ≡ 0 }
    ensures of_the_gateway { (with_given_up no_tally (lost ∷ announcement ∷ [])).given_up_by_gateway ≡ 1 }
    ensures not_of_lines { (with_given_up no_tally (announcement ∷ [])).given_up_by_lines ≡ 0 }
    ensures all { all_given_up (with_given_up no_tally (lost ∷ announcement ∷ lost ∷ [])) ≡ 3 }
    ensures most { (with_given_up (record no_tally { given_up_by_lines = 2 ^ 64 - 1 }) (lost ∷ [])).given_up_by_lines ≡ 2 ^ 64 - 1 }
{}
