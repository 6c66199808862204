//! Worked examples of the definitions, as theorems: each sentence of a definition has one that a slip in it breaks.
#![tactic(auto, unfolding(crate::proofs::Computing::on_examples))]

ghost use Rattle.std.specs.Prelude.{◌≡◌, [], ◌∷◌, true, false, codes, Some, None};
ghost use Rattle.mgcp_text.specs.Reading.{message, no_header};
ghost use Rattle.mgcp_text.specs.declared.message.Verb.TheVariants as verbs;
ghost use Rattle.mgcp_text.specs.declared.message.Message.TheVariants as messages;
ghost use Rattle.endpoint_names.specs.declared.route.Route.TheVariants.{One, Two, Three, Four};
ghost use Rattle.endpoint_names.specs.RouteExample.{agent_at};
ghost use Rattle.retransmission.specs.declared.repeat.Repeat.TheVariants as repeats;
ghost use Rattle.retransmission.specs.declared.reply.Reply.TheVariants as replies;
ghost use Rattle.retransmission.specs.Sends.{sent, provisional, repeats_in, wait_after, due_of, may_repeat, repeat_at, after_repeat, after_reply};
ghost use Rattle.retransmission.specs.Flight.{Follows, sent_to, repeat_of, repeated, reply_by, reply_of, heard};
ghost use Rattle.retransmission.specs.Life.{falls_due, responds, resent, resent_to, is_answered, IsNoAnswer};
ghost use Rattle.retransmission.specs.Issued.{is_command_as, answered_with};
ghost use Rattle.retransmission.specs.PendingExample.{agent, notified_on, notified_at, repeated_times, since, goes_to, goes_out, is_given_up, told, kept_answer};

/// Each sentence at an example.
pub fn each_sentence_has_an_example()
    // The wait is doubled from 500 to 4,000 ms.
    ensures waits_are_doubled_first { wait_after 0 ≡ 500 }
    ensures waits_are_doubled_once { wait_after 1 ≡ 1000 }
    ensures waits_are_doubled_twice { wait_after 2 ≡ 2000 }
    ensures waits_are_doubled_thrice { wait_after 3 ≡ 4000 }
    ensures seven { wait_after 7 ≡ 4000 }
    // What is due next counts from the last send, by the number of repeats, or from a provisional response after it.
    ensures what_is_due_counts_from_the_last_moment_begun { due_of (since 1000 []) ≡ 1500 }
    ensures what_is_due_counts_from_the_last_moment_once { due_of (since 1000 (sent 1500 ∷ [])) ≡ 2500 }
    ensures what_is_due_counts_from_the_last_moment_twice { due_of (since 1000 (sent 2500 ∷ sent 1500 ∷ [])) ≡ 4500 }
    ensures what_is_due_counts_from_the_last_moment_thrice { due_of (since 1000 (sent 4500 ∷ sent 2500 ∷ sent 1500 ∷ [])) ≡ 8500 }
    ensures what_is_due_counts_from_the_last_moment_held { due_of (since 1000 (provisional 1200 ∷ [])) ≡ 6200 }
    ensures held_again { due_of (since 1000 (provisional 1400 ∷ provisional 1200 ∷ [])) ≡ 6400 }
    // A provisional response is no repeat, and the wait after a repeat goes on by the number of repeats.
    ensures after_held { due_of (since 1000 (sent 6200 ∷ provisional 1200 ∷ [])) ≡ 7200 }
    ensures held_later { due_of (since 1000 (provisional 1600 ∷ sent 1500 ∷ [])) ≡ 6600 }
    ensures after_both { due_of (since 1000 (sent 6600 ∷ provisional 1600 ∷ sent 1500 ∷ [])) ≡ 8600 }
    ensures repeats { repeats_in (provisional 9 ∷ sent 8 ∷ provisional 7 ∷ provisional 6 ∷ sent 5 ∷ []) ≡ 2 }
    // A message that is begun is first sent then, and its first repeat is due 500 ms later.
    ensures a_message_begins_with_its_first_send { notified_at 1000 ≡ record {
      id = 10000000;
      route = One agent;
      text = codes "NTFY 10000000 aaln/1@rgw.example.net MGCP 1.0\r\n";
      first = 1000;
      repeats = 0;
      due = 1500;
    } }
    // A repeat is counted, and moves what is due; nothing else of the message changes.
    ensures a_repeat_is_counted_first { repeated (notified_at 1000) 1500 ≡ record (repeated_times 1 1000) { due = 2500 } }
    ensures third { repeated (repeated_times 2 1000) 4600 ≡ record (repeated_times 3 1000) { due = 8600 } }
    // What is kept of a message follows its sends where all three agree: the first send, the repeats and what is due.
    ensures a_message_follows_its_sends_begun { Follows (notified_at 1000) (since 1000 []) }
    ensures repeated { Follows (repeated (notified_at 1000) 1500) (since 1000 (sent 1500 ∷ [])) }
    ensures a_message_follows_its_sends_held { Follows (heard (notified_at 1000) 10000000 100 1200) (since 1000 (provisional 1200 ∷ [])) }
    ensures other_first { ¬ Follows (record (notified_at 1000) { first = 999 }) (since 1000 []) }
    ensures other_count { ¬ Follows (record (notified_at 1000) { repeats = 1 }) (since 1000 []) }
    ensures other_due { ¬ Follows (record (notified_at 1000) { due = 1501 }) (since 1000 []) }
{}

/// Each sentence at an example.
pub fn further_sentences_have_examples()
    // A message is repeated seven times, and less than 20,000 ms after it was first sent.
    ensures last_moment { may_repeat 1000 6 20999 ≡ true }
    ensures a_message_is_repeated_for_20_seconds_too_late { may_repeat 1000 6 21000 ≡ false }
    ensures seventh { may_repeat 1000 6 1000 ≡ true }
    ensures a_message_is_repeated_for_20_seconds_eighth { may_repeat 1000 7 1000 ≡ false }
    ensures sent { repeat_at 20999 (since 1000 (provisional 15999 ∷ [])) ≡ repeats.Sent }
    ensures a_message_is_repeated_for_20_seconds_given_up { repeat_at 21000 (since 1000 (provisional 16000 ∷ [])) ≡ repeats.GivenUp }
    // A provisional response is no repeat.
    ensures seventh_sent { repeat_at 20998 (since 1000 (provisional 15998 ∷ sent 14500 ∷ sent 12500 ∷ sent 8500 ∷ sent 4500
        ∷ sent 2500 ∷ sent 1500 ∷ [])) ≡ repeats.Sent }
    ensures eighth_given_up { repeat_at 20600 (since 1000 (sent 16600 ∷ sent 14500 ∷ sent 12500 ∷ sent 8500 ∷ sent 4500
        ∷ sent 2500 ∷ sent 1500 ∷ [])) ≡ repeats.GivenUp }
    ensures kept_sent { repeat_of (repeated_times 6 1000) 20999 ≡ repeats.Sent }
    ensures kept_late { repeat_of (repeated_times 6 1000) 21000 ≡ repeats.GivenUp }
    ensures kept_often { repeat_of (repeated_times 7 1000) 1001 ≡ repeats.GivenUp }
    // One that is given up is as it was.
    ensures as_it_was { repeated (repeated_times 7 1000) 1001 ≡ repeated_times 7 1000 }
    ensures then_sent { after_repeat repeats.Sent 1500 (since 1000 []) ≡ since 1000 (sent 1500 ∷ []) }
    ensures then_sent_again { after_repeat repeats.Sent 2500 (since 1000 (sent 1500 ∷ []))
        ≡ since 1000 (sent 2500 ∷ sent 1500 ∷ []) }
    ensures then_given_up { after_repeat repeats.GivenUp 9 (since 1 (sent 5 ∷ [])) ≡ since 1 (sent 5 ∷ []) }
    // A message that nobody answers is sent eight times, and then given up.
    ensures a_message_that_nobody_answers_is_given_up { told 20 (notified_at 1000)
        ≡ goes_out 1500 ∷ goes_out 2500 ∷ goes_out 4500 ∷ goes_out 8500 ∷ goes_out 12500 ∷ goes_out 16500 ∷ goes_out 20500
        ∷ is_given_up 24500 ∷ [] }
    // It begins at the first address of its route, goes to each of them twice, and after the last to the first again.
    ensures begins { sent_to (notified_on (Four (agent_at 1) (agent_at 2) (agent_at 3) (agent_at 4)) 1000) ≡ agent_at 1 }
    ensures two { told 20 (notified_on (Two (agent_at 1) (agent_at 2)) 1000)
        ≡ goes_to (agent_at 1) 1500 ∷ goes_to (agent_at 2) 2500 ∷ goes_to (agent_at 2) 4500 ∷ goes_to (agent_at 1) 8500
        ∷ goes_to (agent_at 1) 12500 ∷ goes_to (agent_at 2) 16500 ∷ goes_to (agent_at 2) 20500 ∷ is_given_up 24500 ∷ [] }
    ensures three { told 20 (notified_on (Three (agent_at 1) (agent_at 2) (agent_at 3)) 1000)
        ≡ goes_to (agent_at 1) 1500 ∷ goes_to (agent_at 2) 2500 ∷ goes_to (agent_at 2) 4500 ∷ goes_to (agent_at 3) 8500
        ∷ goes_to (agent_at 3) 12500 ∷ goes_to (agent_at 1) 16500 ∷ goes_to (agent_at 1) 20500 ∷ is_given_up 24500 ∷ [] }
    ensures four { told 20 (notified_on (Four (agent_at 1) (agent_at 2) (agent_at 3) (agent_at 4)) 1000)
        ≡ goes_to (agent_at 1) 1500 ∷ goes_to (agent_at 2) 2500 ∷ goes_to (agent_at 2) 4500 ∷ goes_to (agent_at 3) 8500
        ∷ goes_to (agent_at 3) 12500 ∷ goes_to (agent_at 4) 16500 ∷ goes_to (agent_at 4) 20500 ∷ is_given_up 24500 ∷ [] }
    // A provisional response moves no place.
    ensures a_message_goes_to_its_addresses_in_turn_held { told 2 (heard (notified_on (Two (agent_at 1) (agent_at 2)) 1000) 10000000 100
        1200)
        ≡ goes_to (agent_at 1) 6200 ∷ goes_to (agent_at 2) 7200 ∷ [] }
    ensures a_message_goes_to_its_addresses_in_turn_resent { resent_to (notified_on (Two (agent_at 1) (agent_at 2)) 1000)
        (falls_due 1500 ∷ responds 10000000 100 1600
        ∷ falls_due 6600 ∷ responds 9 200 6700 ∷ falls_due 8600 ∷ falls_due 12600 ∷ responds 10000000 250 12700 ∷ falls_due 16600 ∷ [])
        ≡ agent_at 1 ∷ agent_at 2 ∷ agent_at 2 ∷ agent_at 1 ∷ [] }
    ensures a_message_goes_to_its_addresses_in_turn_given_up { resent_to (notified_on (Two (agent_at 1) (agent_at 2)) 1000)
        (falls_due 21000 ∷ falls_due 21500 ∷ []) ≡ [] }
    // After a provisional response the message waits 5,000 ms, and then goes on as before.
    ensures after_a_send { told 2 (heard (notified_at 1000) 10000000 100 1200) ≡ goes_out 6200 ∷ goes_out 7200 ∷ [] }
    ensures last { told 1 (heard (notified_at 1000) 10000000 199 15999) ≡ goes_out 20999 ∷ [] }
    ensures a_provisional_response_puts_off_what_is_due_too_late { told 2 (heard (notified_at 1000) 10000000 199 16000)
        ≡ is_given_up 21000 ∷ [] }
{}

/// Each sentence at an example.
pub fn more_sentences_have_examples()
    // It is no repeat, and changes nothing but what is due: the wait after the next repeat is that of the second one.
    ensures after_a_repeat { told 2 (heard (repeated (notified_at 1000) 1500) 10000000 100 1600)
        ≡ goes_out 6600 ∷ goes_out 8600 ∷ [] }
    ensures due_alone { heard (repeated_times 6 1000) 10000000 199 15999
        ≡ record (repeated_times 6 1000) { due = 20999 } }
    ensures since_then { after_reply replies.Provisional 1200 (since 1000 []) ≡ since 1000 (provisional 1200 ∷ []) }
    ensures since_then_again { after_reply replies.Provisional 1400 (since 1000 (provisional 1200 ∷ []))
        ≡ since 1000 (provisional 1400 ∷ provisional 1200 ∷ []) }
    // Any other response changes nothing.
    ensures a_provisional_response_puts_off_what_is_due_answered { heard (notified_at 1000) 10000000 200 1200 ≡ notified_at 1000 }
    ensures a_provisional_response_puts_off_what_is_due_low { heard (notified_at 1000) 10000000 99 1200 ≡ notified_at 1000 }
    ensures other_id { heard (notified_at 1000) 10000001 100 1200 ≡ notified_at 1000 }
    ensures since_answered { after_reply replies.Answered 1200 (since 1000 []) ≡ since 1000 [] }
    ensures since_stranger { after_reply replies.Stranger 1200 (since 1000 []) ≡ since 1000 [] }
    // A response is matched by its id alone; from 100 to 199 it is provisional, from 200 to 999 it is final.
    ensures zero { reply_by 0 ≡ replies.Stranger }
    ensures responses_are_told_apart_by_their_codes_low { reply_by 99 ≡ replies.Stranger }
    ensures least_provisional { reply_by 100 ≡ replies.Provisional }
    ensures greatest_provisional { reply_by 199 ≡ replies.Provisional }
    ensures least_final { reply_by 200 ≡ replies.Answered }
    ensures greatest_final { reply_by 999 ≡ replies.Answered }
    ensures high { reply_by 1000 ≡ replies.Stranger }
    ensures own { reply_of (notified_at 1000) 10000000 521 ≡ replies.Answered }
    ensures other { reply_of (notified_at 1000) 10000001 200 ≡ replies.Stranger }
    ensures other_provisional { reply_of (notified_at 1000) 1000000 100 ≡ replies.Stranger }
    // All that happens to a message, up to its end.
    ensures a_message_lives_up_to_its_end_resent { resent (notified_at 1000)
        (falls_due 1500 ∷ responds 10000000 100 1600 ∷ falls_due 6600 ∷ responds 9 200 6700 ∷ falls_due 8600
        ∷ responds 10000000 250 8700 ∷ falls_due 12600 ∷ []) ≡ 1500 ∷ 6600 ∷ 8600 ∷ [] }
    ensures a_message_lives_up_to_its_end_given_up { resent (notified_at 1000) (falls_due 21000 ∷ falls_due 1500 ∷ []) ≡ [] }
    ensures a_message_lives_up_to_its_end_eighth { resent (notified_at 1000)
        (falls_due 1500 ∷ falls_due 2500 ∷ falls_due 4500 ∷ falls_due 8500
        ∷ falls_due 12500 ∷ falls_due 16500 ∷ falls_due 20500 ∷ falls_due 20600 ∷ [])
        ≡ 1500 ∷ 2500 ∷ 4500 ∷ 8500 ∷ 12500 ∷ 16500 ∷ 20500 ∷ [] }
    ensures a_message_lives_up_to_its_end_answered { is_answered (notified_at 1000)
        (falls_due 1500 ∷ responds 10000000 100 1600 ∷ responds 9 200 6700 ∷ responds 10000000 250 8700 ∷ []) ≡ true }
    ensures not_yet { is_answered (notified_at 1000)
        (falls_due 1500 ∷ responds 10000000 100 1600 ∷ responds 9 200 6700 ∷ []) ≡ false }
    ensures a_message_lives_up_to_its_end_too_late { is_answered (notified_at 1000) (falls_due 21000 ∷ responds 10000000 200 21001 ∷ [])
        ≡ false }
    ensures too_often { is_answered (notified_at 1000) (falls_due 1500 ∷ falls_due 2500 ∷ falls_due 4500 ∷ falls_due 8500
        ∷ falls_due 12500 ∷ falls_due 16500 ∷ falls_due 20500 ∷ falls_due 20600 ∷ responds 10000000 200 20700 ∷ [])
        ≡ false }
    // What is no answer: something falls due, or a response that isn't final comes.
    ensures due_is_no_answer { IsNoAnswer (falls_due 1500) }
    ensures provisional_is_no_answer { IsNoAnswer (responds 10000000 199 1600) }
{}

/// A message is the command that was issued where it is a command with its id and its name.
pub fn a_command_is_known_by_its_id_and_its_name()
    ensures own { is_command_as 7 (codes "x") (message (messages.Command verbs.Auep 7 (codes "x") [] [])) ≡ true }
    ensures other_id { is_command_as 7 (codes "x") (message (messages.Command verbs.Auep 8 (codes "x") [] [])) ≡ false }
    ensures other_name { is_command_as 7 (codes "x") (message (messages.Command verbs.Auep 7 (codes "y") [] [])) ≡ false }
    ensures response { is_command_as 7 (codes "x") (message (messages.Response 200 7 [] [])) ≡ false }
    ensures unread { is_command_as 7 (codes "x") no_header ≡ false }
{}

/// A command has the first answer that is kept under its id.
pub fn a_command_has_the_answer_under_its_id()
    ensures own { answered_with 7 (kept_answer 6 510 ∷ kept_answer 7 200 ∷ kept_answer 7 400 ∷ [])
        ≡ Some (record { code = 200; text = codes "200 7" }) }
    ensures none { answered_with 8 (kept_answer 6 510 ∷ kept_answer 7 200 ∷ []) ≡ None }
{}
