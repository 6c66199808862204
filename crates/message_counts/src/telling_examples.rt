//! How counts are told, as theorems.
#![tactic(auto, unfolding(crate::proofs::Computing::on_examples))]

ghost use Rattle.std.specs.Prelude.{◌≡◌, codes, replicate, [], ◌∷◌, ◌++◌};
ghost use Rattle.message_counts.specs.Reporting.{told_all, commands_text, datagrams_text, texts_text, others_text, answer_text, answers_from};
ghost use Rattle.message_counts.specs.declared.message_tally.MessageTally.{MessageTally};

/// Each sentence at an example.
pub fn each_count_is_told()
    // Numbers are told behind what they are the number of; commands by verb, and answers by those return codes that there were.
    ensures row { told_all ((codes "datagrams in ", 3) ∷ (codes " out ", 12) ∷ []) ≡ codes "datagrams in 3 out 12" }
    ensures commands { commands_text (1 ∷ 2 ∷ 3 ∷ 4 ∷ 5 ∷ 6 ∷ 7 ∷ 8 ∷ 9 ∷ 10 ∷ [])
        ≡ codes "\ncommands EPCF 1 RQNT 2 NTFY 3 CRCX 4 MDCX 5 DLCX 6 AUEP 7 AUCX 8 RSIP 9 other 10" }
    ensures datagrams { (tally : MessageTally) → datagrams_text (record tally { datagrams_in = 3; datagrams_out = 12 })
        ≡ codes "datagrams in 3 out 12" }
    ensures texts { (tally : MessageTally) → texts_text (record tally { texts = record tally.texts { responses = 3; others = 4 } })
        ≡ codes "\nresponses 3 no message 4" }
    ensures others { (tally : MessageTally) → others_text (record tally {
      strangers = 11;
      texts = record tally.texts { lost = 19 };
      sent = record tally.sent {
        again = 1;
        commands = 31 ∷ 32 ∷ 2 ∷ 33 ∷ 34 ∷ 35 ∷ 36 ∷ 37 ∷ 4 ∷ 38 ∷ [];
        commands_again = 21 ∷ 22 ∷ 3 ∷ 23 ∷ 24 ∷ 25 ∷ 26 ∷ 27 ∷ 5 ∷ 28 ∷ [];
        given_up_by_gateway = 2;
        given_up_by_lines = 4;
      };
    })
        7 (record { refused = 8; receive = 9; send = 10 })
        ≡ codes " repeated 1\nnotifications 2 repeated 3\nannouncements 4 repeated 5 given up 6\nlost events 7 refused 8"
        ++ codes "\nfaults receive 9 send 10\nstrangers 11 lost commands 19" }
    ensures counts_are_told_in_a_row_code { answer_text 200 5 ≡ codes " 200 5" }
    ensures counts_are_told_in_a_row_acknowledgement { answer_text 0 1 ≡ codes " 000 1" }
    ensures never { answer_text 510 0 ≡ [] }
    ensures by_code { answers_from 0 (2 ∷ replicate 99 0 ++ 7 ∷ []) ≡ codes " 000 2 100 7" }
    ensures none { answers_from 0 [] ≡ [] }
{}
