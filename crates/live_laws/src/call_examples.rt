//! Worked examples of the definitions, as theorems: each sentence of a definition has one that a slip in it breaks.
#![tactic(auto, unfolding(crate::proofs::Computing::on_examples))]

ghost use Rattle.std.specs.Prelude.{◌≡◌, ◌++◌, ◌∷◌, [], true, false, codes, option_map, Some, None};
ghost use Rattle.mg_bytes.specs.declared.letter.Letter.TheVariants as keys;
ghost use Rattle.packages.specs.declared.event.LineEvent.TheVariants as events;
ghost use Rattle.packages.specs.declared.signal.Signal.TheVariants.{DialTone};
ghost use Rattle.packages.specs.declared.observed.Observed.TheVariants as observed;
ghost use Rattle.call_processing.specs.Phases.{other_end, named_by};
ghost use Rattle.call_processing.specs.Calls.{greatest_call, caller_of, put_through, all_resting};
ghost use Rattle.call_processing.specs.declared.fate.Fate.TheVariants as fates;
ghost use Rattle.call_processing.specs.declared.line.Line.{Line};
ghost use Rattle.call_processing.specs.Fates.{is_success, may_pass, is_deleted, hook_told, refusal_fate, put_off_then};
ghost use Rattle.call_processing.specs.Numbers.{line_called, told_in, tells_digits};
ghost use Rattle.call_processing.specs.Parameters.{verb_of, request_lines, creation_lines, change_lines, deletion_lines, parameters_of};
ghost use Rattle.call_processing.specs.Exchange.{phase_of, line_of, put_off_at, due};
ghost use Rattle.live_laws.specs.CallTurns.{tells, sends, clears, after, is_sent, is_answered, is_coded, is_put_off, is_settled, count_turns, commands_in, leaves_alone, is_asked_on, is_bare, is_request, is_creation, accepts, ends};
ghost use Rattle.live_laws.specs.CallExample.{opened, all_sent, driven, coded, accepted, given_up, created_first, created_second, ready, dial, ring, pick_up, connect, hang_up, then_is, phase_then, sent_at, key};

use call_processing::{Asked, Cause, Command, Leg, Outcome, Phase, Side, Told, Tone};
use packages::Hook;

/// Each sentence at an example.
pub fn each_sentence_has_an_example()
    // At the opening each line rests, and is asked for off hook. Once it is, nothing more is to be sent.
    ensures lines_are_asked_for_off_hook_first_first { commands_in opened all_sent
        ≡ (0, Command.Ask Asked.Rest) ∷ (1, Command.Ask Asked.Rest)
        ∷ (2, Command.Ask Asked.Rest) ∷ [] }
    ensures then_none { commands_in ready all_sent ≡ [] }
    ensures lines_are_asked_for_off_hook_first_phase { phase_of ready 2 ≡ Some Phase.Resting }
    ensures no_more { phase_of ready 3 ≡ None }
    ensures lines_are_asked_for_off_hook_first_no_line { due ready 3 ≡ None }
    ensures lines_are_asked_for_off_hook_first_given_up { commands_in opened (all_sent ++ given_up 1 ∷ all_sent)
        ≡ (0, Command.Ask Asked.Rest)
        ∷ (1, Command.Ask Asked.Rest) ∷ (2, Command.Ask Asked.Rest) ∷ (1, Command.Ask Asked.Rest) ∷ [] }
    ensures lines_are_asked_for_off_hook_first_refused { commands_in opened (all_sent ++ coded 1 512 ∷ all_sent)
        ≡ (0, Command.Ask Asked.Rest)
        ∷ (1, Command.Ask Asked.Rest) ∷ (2, Command.Ask Asked.Rest) ∷ [] }
    ensures put_off { commands_in opened (all_sent ++ coded 1 401 ∷ all_sent) ≡ (0, Command.Ask Asked.Rest)
        ∷ (1, Command.Ask Asked.Rest) ∷ (2, Command.Ask Asked.Rest) ∷ (1, Command.Ask Asked.Rest) ∷ [] }
    // A whole call: off hook asks for digits; the number of a line that rests rings it, and its caller hears that.
    ensures a_call_rings_off_hook { sent_at [] (tells 0 Told.OffHook) ≡ (0, Command.Ask Asked.Digits) ∷ [] }
    ensures a_call_rings_waits { sent_at (tells 0 Told.OffHook ∷ []) (tells 0 (Told.Dialled (Some 1)))
        ≡ (1, Command.Ask Asked.Ring) ∷ [] }
    ensures a_call_rings_dialled { sent_at (tells 0 Told.OffHook ∷ accepted 0 ∷ []) (tells 0 (Told.Dialled (Some 1)))
        ≡ (0, Command.Ask Asked.Ringback) ∷ (1, Command.Ask Asked.Ring) ∷ [] }
    ensures a_call_rings_caller { phase_then 0 ring ≡ Some (Phase.InCall (caller_of 1 1)) }
    ensures a_call_rings_called { phase_then 1 ring ≡ Some (Phase.InCall (other_end 0 (caller_of 1 1))) }
    ensures side { other_end 0 (caller_of 7 1)
        ≡ record { call = 7; other = 0; side = Side.Called; answered = false } }
    ensures third { phase_then 2 ring ≡ Some Phase.Resting }
    // The called line answers: the caller's connection comes first, then the called line's with the caller's description, then the
    // caller's is given that of the called line. Requests follow where a line isn't waited for.
    ensures an_answer_connects_both_off_hook { sent_at ring (tells 1 Told.OffHook)
        ≡ (0, Command.Create 1 false) ∷ (1, Command.Ask Asked.Talk) ∷ [] }
    ensures an_answer_connects_both_first { sent_at pick_up created_first
        ≡ (0, Command.Ask Asked.Talk) ∷ (1, Command.Create 1 true) ∷ [] }
    ensures second { sent_at (pick_up ++ created_first ∷ accepted 0 ∷ []) created_second
        ≡ (0, Command.Modify 1) ∷ [] }
    ensures done { sent_at (pick_up ++ created_first ∷ accepted 0 ∷ created_second ∷ []) (accepted 0) ≡ [] }
    ensures an_answer_connects_both_waits { sent_at (ring ++ tells 1 Told.OffHook ∷ []) created_first ≡ (0, Command.Ask Asked.Talk) ∷ [] }
    ensures talks { phase_then 1 connect ≡ Some (Phase.InCall (record { call = 1; other = 0; side = Side.Called; answered = true })) }
    ensures an_answer_connects_both_flash { sent_at connect (tells 0 Told.Flash) ≡ (0, Command.Ask Asked.Talk) ∷ [] }
    // One end hangs up: both connections are deleted; the other end hears the busy tone until it hangs up, too.
    ensures on_hook_ends_a_call_first { sent_at connect (tells 0 Told.OnHook) ≡ (0, Command.Delete 1) ∷ (1, Command.Delete 1) ∷ [] }
    ensures rests { sent_at (connect ++ tells 0 Told.OnHook ∷ []) (coded 0 250) ≡ (0, Command.Ask Asked.Rest) ∷ [] }
    ensures hears { sent_at (connect ++ tells 0 Told.OnHook ∷ []) (coded 1 250) ≡ (1, Command.Ask Asked.BusyTone) ∷ [] }
    ensures on_hook_ends_a_call_phase { phase_then 1 (connect ++ tells 0 Told.OnHook ∷ []) ≡ Some (Phase.Hearing Tone.Busy) }
    ensures on_hook_ends_a_call_called { phase_then 0 (connect ++ tells 1 Told.OnHook ∷ []) ≡ Some (Phase.Hearing Tone.Busy) }
    ensures both { phase_then 1 hang_up ≡ Some Phase.Resting }
    ensures none { sent_at hang_up (tells 2 Told.Flash) ≡ (2, Command.Ask Asked.Rest) ∷ [] }
    ensures on_hook_ends_a_call_refused { sent_at (connect ++ tells 0 Told.OnHook ∷ []) (coded 0 516) ≡ (0, Command.Ask Asked.Rest) ∷ [] }
    ensures lost { sent_at (connect ++ tells 0 Told.OnHook ∷ []) (given_up 0) ≡ (0, Command.Delete 1) ∷ [] }
{}

/// Each sentence at an example.
pub fn further_sentences_have_examples()
    // Both ends hang up at once: both rest.
    ensures both_ends_hang_up_at_once_caller { phase_then 0 (connect ++ tells 0 Told.OnHook ∷ tells 1 Told.OnHook ∷ [])
        ≡ Some Phase.Resting }
    ensures both_ends_hang_up_at_once_called { phase_then 1 (connect ++ tells 0 Told.OnHook ∷ tells 1 Told.OnHook ∷ [])
        ≡ Some Phase.Resting }
    ensures both_ends_hang_up_at_once_commands { commands_in (then_is connect) (tells 1 Told.OnHook ∷ tells 0 Told.OnHook ∷ all_sent)
        ≡ (0, Command.Delete 1) ∷ (1, Command.Delete 1) ∷ [] }
    ensures both_ends_hang_up_at_once_rest { sent_at (connect ++ tells 0 Told.OnHook ∷ tells 1 Told.OnHook ∷ coded 0 250 ∷ []) (coded 1 250)
        ≡ (1, Command.Ask Asked.Rest) ∷ [] }
    // A caller that hangs up while the other line rings: both rest, and the ringing is stopped. A line that rings and answers then
    // begins to dial.
    ensures a_call_is_abandoned_while_it_rings_commands { sent_at ring (tells 0 Told.OnHook)
        ≡ (0, Command.Ask Asked.Rest) ∷ (1, Command.Ask Asked.Rest) ∷ [] }
    ensures a_call_is_abandoned_while_it_rings_phase { phase_then 1 (ring ++ tells 0 Told.OnHook ∷ []) ≡ Some Phase.Resting }
    ensures late { phase_then 1 (ring ++ tells 0 Told.OnHook ∷ tells 1 Told.OffHook ∷ []) ≡ Some Phase.Dialling }
    ensures a_call_is_abandoned_while_it_rings_called { phase_then 0 (ring ++ tells 1 Told.OnHook ∷ []) ≡ Some (Phase.Hearing Tone.Busy) }
    // On hook is lost, and off hook comes: the call is over for the other end, and the line begins to dial.
    ensures dials { phase_then 0 (connect ++ tells 0 Told.OffHook ∷ []) ≡ Some Phase.Dialling }
    ensures off_hook_means_that_it_was_on_hook_other { phase_then 1 (connect ++ tells 0 Told.OffHook ∷ [])
        ≡ Some (Phase.Hearing Tone.Busy) }
    ensures off_hook_means_that_it_was_on_hook_caller { phase_then 1 (ring ++ tells 0 Told.OffHook ∷ []) ≡ Some Phase.Resting }
    ensures tone { phase_then 0 (tells 0 Told.OffHook ∷ tells 0 (Told.Dialled None) ∷ tells 0 Told.OffHook ∷ [])
        ≡ Some Phase.Dialling }
    // What a line tells uses its request up, also one that is in flight then: the line is asked anew once that is answered.
    ensures anew { sent_at [] (tells 0 Told.Flash) ≡ (0, Command.Ask Asked.Rest) ∷ [] }
    ensures crossing { sent_at (tells 0 Told.Flash ∷ []) (tells 0 Told.Flash) ≡ [] }
    ensures a_request_is_used_up_answered { sent_at (tells 0 Told.Flash ∷ tells 0 Told.Flash ∷ []) (accepted 0)
        ≡ (0, Command.Ask Asked.Rest) ∷ [] }
    ensures once { sent_at (tells 0 Told.Flash ∷ []) (accepted 0) ≡ [] }
    ensures nothing_in_flight { sent_at [] (accepted 0) ≡ [] }
    // Return codes from 200 to 299 say that a command was executed.
    ensures below { is_success 199 ≡ false }
    ensures return_codes_of_200_to_299_are_success_first { is_success 200 ≡ true }
    ensures deleted { is_success 250 ≡ true }
    ensures last { is_success 299 ≡ true }
    ensures above { is_success 300 ≡ false }
{}

/// Each sentence at an example.
pub fn more_sentences_have_examples()
    // Commands as they are written.
    ensures verbs { verb_of (Command.Ask Asked.Rest) ++ verb_of (Command.Create 1 false) ++ verb_of (Command.Modify 1)
        ++ verb_of (Command.Delete 1) ≡ codes "RQNTCRCXMDCXDLCX" }
    ensures commands_are_written_rest { request_lines Asked.Rest (codes "xxx") ≡ codes "X: 1\r\nR: L/hd(N)\r\n" }
    ensures digits { request_lines Asked.Digits (codes "xxx")
        ≡ codes "X: 2\r\nR: L/hu(N),L/oc(N),D/[0-9ABCD*#T](D)\r\nS: L/dl\r\nD: xxx\r\n" }
    ensures rings { request_lines Asked.Ring [] ≡ codes "X: 3\r\nR: L/hd(N),L/oc(N)\r\nS: L/rg\r\n" }
    ensures ringback { request_lines Asked.Ringback [] ≡ codes "X: 4\r\nR: L/hu(N),G/oc(N)\r\nS: G/rt\r\n" }
    ensures busy { request_lines Asked.BusyTone [] ≡ codes "X: 5\r\nR: L/hu(N)\r\nS: L/bz\r\n" }
    ensures reorder { request_lines Asked.ReorderTone [] ≡ codes "X: 6\r\nR: L/hu(N)\r\nS: L/ro\r\n" }
    ensures talk { request_lines Asked.Talk [] ≡ codes "X: 7\r\nR: L/hu(N)\r\n" }
    ensures create { creation_lines 12 false (codes "v=0\r\n") ≡ codes "C: 12\r\nM: recvonly\r\n" }
    ensures towards { creation_lines 12 true (codes "v=0\r\n") ≡ codes "C: 12\r\nM: sendrecv\r\n\r\nv=0\r\n" }
    ensures modify { change_lines 12 (Leg.Standing 12 (codes "A") (codes "v=1\r\n")) (codes "v=0\r\n")
        ≡ codes "C: 12\r\nI: A\r\nM: sendrecv\r\n\r\nv=0\r\n" }
    ensures delete { deletion_lines 12 (Leg.Standing 12 (codes "A") (codes "v=1\r\n")) ≡ codes "C: 12\r\nI: A\r\n" }
    ensures delete_all { deletion_lines 12 (Leg.Unknown 12) ≡ codes "C: 12\r\n" }
    // Each end is given the description of the other end, with the number of their call.
    ensures each_end_is_given_the_others_description_called { parameters_of (then_is (pick_up ++ created_first ∷ [])) 1 []
        ≡ codes "C: 1\r\nM: sendrecv\r\n\r\nv=first\r\n" }
    ensures each_end_is_given_the_others_description_caller { parameters_of
        (then_is (pick_up ++ created_first ∷ accepted 0 ∷ created_second ∷ [])) 0 []
        ≡ codes "C: 1\r\nI: A\r\nM: sendrecv\r\n\r\nv=second\r\n" }
    ensures each_end_is_given_the_others_description_first { parameters_of (then_is pick_up) 0 [] ≡ codes "C: 1\r\nM: recvonly\r\n" }
    ensures asked { parameters_of (then_is (tells 0 Told.OffHook ∷ [])) 0 (codes "xx.T")
        ≡ codes "X: 2\r\nR: L/hu(N),L/oc(N),D/[0-9ABCD*#T](D)\r\nS: L/dl\r\nD: xx.T\r\n" }
    ensures idle { parameters_of ready 0 (codes "xx.T") ≡ [] }
    // What the events of a notification tell.
    ensures a_notification_tells_what_came_last_off_hook { told_in [] (observed.Happened events.OffHook ∷ []) ≡ Some Told.OffHook }
    ensures on_hook { told_in [] (observed.Happened events.OnHook ∷ []) ≡ Some Told.OnHook }
    ensures a_notification_tells_what_came_last_flash { told_in [] (observed.Happened events.Flash ∷ []) ≡ Some Told.Flash }
    ensures a_notification_tells_what_came_last_dialled { told_in (codes "11" ∷ codes "12" ∷ []) (key keys.One ∷ key keys.Two ∷ [])
        ≡ Some (Told.Dialled (Some 1)) }
    ensures timer { told_in (codes "11" ∷ codes "12" ∷ []) (key keys.One ∷ key keys.One ∷ key keys.Timer ∷ [])
        ≡ Some (Told.Dialled (Some 0)) }
    ensures longer { told_in (codes "11" ∷ codes "12" ∷ []) (key keys.One ∷ []) ≡ Some (Told.Dialled None) }
    ensures twice { line_called (codes "1") (codes "2" ∷ codes "1" ∷ codes "1" ∷ []) ≡ Some 1 }
    ensures hung_up { told_in (codes "1" ∷ []) (key keys.One ∷ observed.Happened events.OnHook ∷ []) ≡ Some Told.OnHook }
    ensures keys_behind { told_in (codes "1" ∷ []) (observed.Happened events.OffHook ∷ key keys.One ∷ []) ≡ Some (Told.Dialled (Some 0)) }
    ensures ended { told_in [] (observed.Ended DialTone ∷ []) ≡ Some Told.TimedOut }
    ensures nothing { told_in [] [] ≡ None }
{}

/// Digits are gathered where a key or the end of the timer came last, and there is a key.
pub fn what_tells_digits_has_examples()
    ensures off_hook { tells_digits (observed.Happened events.OffHook ∷ []) ≡ false }
    ensures on_hook { tells_digits (observed.Happened events.OnHook ∷ []) ≡ false }
    ensures flash { tells_digits (observed.Happened events.Flash ∷ []) ≡ false }
    ensures line_complete { tells_digits (key keys.One ∷ observed.Happened events.LineComplete ∷ []) ≡ false }
    ensures generic_complete { tells_digits (key keys.One ∷ observed.Happened events.GenericComplete ∷ []) ≡ false }
    ensures ended { tells_digits (key keys.One ∷ observed.Ended DialTone ∷ []) ≡ false }
    ensures nothing { tells_digits [] ≡ false }
    ensures one { tells_digits (key keys.One ∷ []) ≡ true }
    ensures timer { tells_digits (key keys.One ∷ key keys.Timer ∷ []) ≡ true }
    ensures timer_alone { tells_digits (observed.Happened events.OffHook ∷ key keys.Timer ∷ []) ≡ false }
    ensures keys_behind { tells_digits (observed.Happened events.OffHook ∷ key keys.One ∷ []) ≡ true }
    ensures hung_up { tells_digits (key keys.One ∷ observed.Happened events.OnHook ∷ []) ≡ false }
{}

/// Each sentence at an example.
pub fn other_sentences_have_examples()
    // What the laws count: commands sent and answered, and what leaves a line alone.
    ensures sent { is_sent 1 opened (sends 1) ≡ true }
    ensures not_sent { is_sent 1 ready (sends 1) ≡ false }
    ensures of_another { is_sent 0 opened (sends 1) ≡ false }
    ensures turns_are_counted_answered { is_answered 1 (after opened all_sent) (given_up 1) ≡ true }
    ensures by_code { is_coded 1 (after opened all_sent) (coded 1 510) ≡ true }
    ensures turns_are_counted_given_up { is_coded 1 (after opened all_sent) (given_up 1) ≡ false }
    ensures stray { is_answered 1 ready (accepted 1) ≡ false }
    ensures stray_code { is_coded 1 ready (accepted 1) ≡ false }
    ensures anothers { is_coded 0 (after opened all_sent) (accepted 1) ≡ false }
    ensures count { count_turns (is_sent 0) ready (driven hang_up) ≡ 7 }
    ensures own { leaves_alone 0 (tells 0 Told.Flash) ≡ false }
    ensures turns_are_counted_dialled { leaves_alone 0 (tells 1 (Told.Dialled (Some 0))) ≡ false }
    ensures turns_are_counted_other { leaves_alone 0 (tells 1 (Told.Dialled (Some 1))) ≡ true }
    ensures wrong { leaves_alone 0 (tells 1 (Told.Dialled None)) ≡ true }
    ensures turns_are_counted_off_hook { leaves_alone 0 (tells 1 Told.OffHook) ≡ true }
    ensures restart { leaves_alone 0 (tells 1 Told.Restarted) ≡ true }
    ensures disconnected { leaves_alone 0 (tells 1 Told.Disconnected) ≡ true }
    ensures command { leaves_alone 0 (sends 0) ≡ true }
    ensures deletion { leaves_alone 0 (clears 0 250) ≡ true }
    // Whom what happens to a line concerns besides.
    ensures a_call_has_another_end_caller { named_by (phase_then 0 ring) ≡ Some 1 }
    ensures a_call_has_another_end_called { named_by (phase_then 1 ring) ≡ Some 0 }
    ensures resting { named_by (phase_then 2 ring) ≡ None }
    ensures dialling { named_by (phase_then 0 (tells 0 Told.OffHook ∷ [])) ≡ None }
    ensures hearing { named_by (phase_then 0 (tells 0 Told.OffHook ∷ tells 0 (Told.Dialled None) ∷ [])) ≡ None }
    ensures a_call_has_another_end_no_line { named_by (phase_then 7 ring) ≡ None }
{}

/// A line that isn't free is busy, and so is one's own; a number that no line has is wrong. Then digits mean nothing more.
pub fn busy_and_wrong_numbers_get_their_tones()
    ensures busy { sent_at (connect ++ tells 2 Told.OffHook ∷ accepted 2 ∷ []) (tells 2 (Told.Dialled (Some 0)))
        ≡ (2, Command.Ask Asked.BusyTone) ∷ [] }
    ensures ringing { phase_then 2 (ring ++ tells 2 Told.OffHook ∷ tells 2 (Told.Dialled (Some 1)) ∷ [])
        ≡ Some (Phase.Hearing Tone.Busy) }
    ensures itself { sent_at (tells 0 Told.OffHook ∷ accepted 0 ∷ []) (tells 0 (Told.Dialled (Some 0)))
        ≡ (0, Command.Ask Asked.BusyTone) ∷ [] }
    ensures wrong { sent_at (tells 0 Told.OffHook ∷ accepted 0 ∷ []) (tells 0 (Told.Dialled None))
        ≡ (0, Command.Ask Asked.ReorderTone) ∷ [] }
    ensures no_line { phase_then 0 (tells 0 Told.OffHook ∷ tells 0 (Told.Dialled (Some 3)) ∷ [])
        ≡ Some (Phase.Hearing Tone.Busy) }
    ensures stays { phase_then 0 (connect ++ tells 0 (Told.Dialled (Some 2)) ∷ []) ≡ phase_then 0 connect }
    ensures again { phase_then 0 (tells 0 Told.OffHook ∷ tells 0 (Told.Dialled None) ∷ tells 0 (Told.Dialled (Some 1)) ∷ [])
        ≡ Some (Phase.Hearing Tone.Reorder) }
    ensures resting { phase_then 0 (tells 0 (Told.Dialled (Some 1)) ∷ []) ≡ Some Phase.Resting }
    ensures numbers { (put_through (all_resting 2 18446744073709551614) 0 1).last ≡ greatest_call }
    ensures no_number { put_through (all_resting 2 greatest_call) 0 1
        ≡ record { last = greatest_call; phases = Phase.Hearing Tone.Reorder ∷ Phase.Resting ∷ [] } }
{}

/// Nobody answers, or nothing is dialled, for so long that the signal ends: reorder tone for the caller, and the called line
/// rings no more. In a call that was answered, and at a tone, it means nothing.
pub fn what_takes_too_long_ends()
    ensures caller { sent_at ring (tells 0 Told.TimedOut)
        ≡ (0, Command.Ask Asked.ReorderTone) ∷ (1, Command.Ask Asked.Rest) ∷ [] }
    ensures called { sent_at ring (tells 1 Told.TimedOut)
        ≡ (0, Command.Ask Asked.ReorderTone) ∷ (1, Command.Ask Asked.Rest) ∷ [] }
    ensures nothing_dialled { phase_then 0 (tells 0 Told.OffHook ∷ tells 0 Told.TimedOut ∷ [])
        ≡ Some (Phase.Hearing Tone.Reorder) }
    ensures talking { phase_then 0 (connect ++ tells 0 Told.TimedOut ∷ []) ≡ phase_then 0 connect }
    ensures resting { phase_then 0 (tells 0 Told.TimedOut ∷ []) ≡ Some Phase.Resting }
    ensures busy { phase_then 0 (tells 0 Told.OffHook ∷ tells 0 (Told.Dialled (Some 0)) ∷ tells 0 Told.TimedOut ∷ [])
        ≡ Some (Phase.Hearing Tone.Busy) }
{}

/// An answer is lost: CRCX is given up, so both ends hear the reorder tone. The connection may stand, so all of the call are
/// deleted.
pub fn a_lost_answer_ends_the_call()
    ensures given_up { sent_at pick_up (given_up 0) ≡ (0, Command.Delete 1) ∷ (1, Command.Ask Asked.ReorderTone) ∷ [] }
    ensures phase { phase_then 0 (pick_up ++ given_up 0 ∷ []) ≡ Some (Phase.Hearing Tone.Reorder) }
    ensures refused { sent_at pick_up (coded 0 540) ≡ (0, Command.Ask Asked.ReorderTone) ∷ (1, Command.Ask Asked.ReorderTone) ∷ [] }
    ensures unnamed { sent_at pick_up (coded 0 200) ≡ (0, Command.Delete 1) ∷ (1, Command.Ask Asked.ReorderTone) ∷ [] }
    ensures other_end { sent_at (pick_up ++ created_first ∷ accepted 0 ∷ []) (given_up 1)
        ≡ (0, Command.Delete 1) ∷ (1, Command.Delete 1) ∷ [] }
    ensures change { sent_at (pick_up ++ created_first ∷ accepted 0 ∷ created_second ∷ []) (coded 0 527)
        ≡ (0, Command.Delete 1) ∷ (1, Command.Delete 1) ∷ [] }
    ensures change_lost { phase_then 1 (pick_up ++ created_first ∷ accepted 0 ∷ created_second ∷ given_up 0 ∷ [])
        ≡ Some (Phase.Hearing Tone.Reorder) }
    ensures request { phase_then 1 (ring ++ tells 1 Told.OffHook ∷ given_up 1 ∷ [])
        ≡ phase_then 1 (ring ++ tells 1 Told.OffHook ∷ []) }
    ensures late { phase_then 0 (pick_up ++ tells 0 Told.OnHook ∷ coded 0 540 ∷ []) ≡ Some Phase.Resting }
    ensures late_connection { sent_at (pick_up ++ tells 0 Told.OnHook ∷ []) created_first ≡ (0, Command.Delete 1) ∷ [] }
    ensures another_call { phase_then 0 (pick_up ++ tells 0 Told.OnHook ∷ tells 0 Told.OffHook ∷ tells 0 (Told.Dialled (Some 2))
        ∷ given_up 0 ∷ []) ≡ Some (Phase.InCall (caller_of 2 2)) }
{}

/// A request that the hook state rules out tells it: the handset was put back before a tone was asked for, or lifted before the
/// ringing was.
pub fn a_refused_request_tells_the_hook_state()
    ensures put_back { sent_at (tells 0 Told.OffHook ∷ []) (coded 0 402) ≡ (0, Command.Ask Asked.Rest) ∷ [] }
    ensures rests { phase_then 0 (tells 0 Told.OffHook ∷ coded 0 402 ∷ []) ≡ Some Phase.Resting }
    ensures caller { phase_then 1 (dial ++ coded 0 402 ∷ []) ≡ Some Phase.Resting }
    ensures lifted { phase_then 0 (dial ++ coded 1 401 ∷ []) ≡ Some (Phase.Hearing Tone.Busy) }
    ensures not_rung { phase_then 1 (dial ++ coded 1 401 ∷ []) ≡ Some Phase.Resting }
    ensures answered { phase_then 1 (dial ++ tells 1 Told.OffHook ∷ coded 1 401 ∷ [])
        ≡ phase_then 1 (dial ++ tells 1 Told.OffHook ∷ []) }
    ensures rung { phase_then 0 (tells 0 Told.OffHook ∷ tells 0 Told.OnHook ∷ tells 2 Told.OffHook ∷ tells 2 (Told.Dialled (Some 0))
        ∷ coded 0 402 ∷ []) ≡ Some (Phase.InCall (other_end 2 (caller_of 1 0))) }
    ensures other_code { phase_then 0 (tells 0 Told.OffHook ∷ coded 0 400 ∷ []) ≡ Some Phase.Dialling }
    ensures of_a_connection { phase_then 0 (pick_up ++ coded 0 402 ∷ []) ≡ Some (Phase.Hearing Tone.Reorder) }
{}

/// A gateway that restarts has forgotten what it was told: its lines rest, and are told all anew; a connection that it has no more is
/// deleted none the less. A line that was disconnected is asked anew.
pub fn a_restart_begins_anew()
    ensures phase { phase_then 0 (connect ++ tells 0 Told.Restarted ∷ []) ≡ Some Phase.Resting }
    ensures other { phase_then 1 (connect ++ tells 0 Told.Restarted ∷ []) ≡ Some (Phase.Hearing Tone.Reorder) }
    ensures connection { sent_at connect (tells 0 Told.Restarted) ≡ (0, Command.Delete 1) ∷ (1, Command.Delete 1) ∷ [] }
    ensures unknown { sent_at (connect ++ tells 0 Told.Restarted ∷ []) (coded 0 516) ≡ (0, Command.Ask Asked.Rest) ∷ [] }
    ensures rests { sent_at [] (tells 2 Told.Restarted) ≡ (2, Command.Ask Asked.Rest) ∷ [] }
    ensures disconnected { sent_at connect (tells 0 Told.Disconnected) ≡ (0, Command.Ask Asked.Talk) ∷ [] }
    ensures goes_on { phase_then 0 (connect ++ tells 0 Told.Disconnected ∷ []) ≡ phase_then 0 connect }
{}

/// Return codes of 400 to 499 say that a cause may pass, and 501 and 520; 515 and 516 that there is no such connection; 401 and 402 how
/// the telephone is.
pub fn return_codes_say_whether_a_cause_may_pass()
    ensures below { may_pass 399 ≡ false }
    ensures first { may_pass 400 ≡ true }
    ensures last { may_pass 499 ≡ true }
    ensures hook { may_pass 401 ≡ false }
    ensures other_hook { may_pass 402 ≡ false }
    ensures restarts { may_pass 405 ≡ true }
    ensures unknown_endpoint { may_pass 500 ≡ false }
    ensures not_ready { may_pass 501 ≡ true }
    ensures resources { may_pass 502 ≡ false }
    ensures restarting { may_pass 520 ≡ true }
    ensures redirected { may_pass 521 ≡ false }
    ensures deleted { is_deleted 250 ≡ true }
    ensures no_such_connection { is_deleted 515 ≡ true }
    ensures no_such_call { is_deleted 516 ≡ true }
    ensures no_such_mode { is_deleted 517 ≡ false }
    ensures refused { is_deleted 400 ≡ false }
    ensures off_hook { hook_told 401 ≡ Some Hook.OffHook }
    ensures on_hook { hook_told 402 ≡ Some Hook.OnHook }
    ensures no_hook { hook_told 405 ≡ None }
{}

/// What was refused for a cause that may pass is sent again: the request before the connection's command that was put off.
pub fn what_was_put_off_is_sent_again()
    ensures ringing { sent_at dial (coded 1 405) ≡ (1, Command.Ask Asked.Ring) ∷ [] }
    ensures request_first { sent_at (connect ++ tells 0 Told.OnHook ∷ []) (coded 0 400) ≡ (0, Command.Ask Asked.Rest) ∷ [] }
    ensures then_deletion { sent_at (connect ++ tells 0 Told.OnHook ∷ coded 0 400 ∷ []) (accepted 0) ≡ (0, Command.Delete 1) ∷ [] }
    ensures creation { sent_at (pick_up ++ coded 0 409 ∷ []) (accepted 0) ≡ (0, Command.Create 1 false) ∷ [] }
    ensures goes_on { phase_then 0 (pick_up ++ coded 0 409 ∷ [])
        ≡ Some (Phase.InCall (record { call = 1; other = 1; side = Side.Caller; answered = true })) }
    ensures change { sent_at (pick_up ++ created_first ∷ accepted 0 ∷ created_second ∷ []) (coded 0 400)
        ≡ (0, Command.Modify 1) ∷ [] }
    ensures past { sent_at (dial ++ tells 0 Told.OnHook ∷ []) (coded 1 405) ≡ (1, Command.Ask Asked.Rest) ∷ [] }
{}

/// How a command is put off: for which cause, and how many were put off one behind another. What is past isn't put off.
pub fn commands_are_put_off_in_a_row()
    ensures request { put_off_at (then_is dial) 1 (Outcome.Answered 405) ≡ Some (record { cause = Cause.Request; times = 1 }) }
    ensures second { put_off_at (then_is (dial ++ coded 1 405 ∷ [])) 1 (Outcome.Answered 520)
        ≡ Some (record { cause = Cause.Request; times = 2 }) }
    ensures hook { put_off_at (after opened all_sent) 1 (Outcome.Answered 401) ≡ Some (record { cause = Cause.Hook; times = 1 }) }
    ensures connection { put_off_at (then_is pick_up) 0 (Outcome.Answered 403) ≡ Some (record { cause = Cause.Connection; times = 1 }) }
    ensures deletion { put_off_at (then_is (connect ++ tells 0 Told.OnHook ∷ [])) 0 (Outcome.Answered 400)
        ≡ Some (record { cause = Cause.Connection; times = 1 }) }
    ensures past { put_off_at (then_is (dial ++ tells 0 Told.OnHook ∷ [])) 1 (Outcome.Answered 405) ≡ None }
    ensures past_call { put_off_at (then_is (pick_up ++ tells 0 Told.OnHook ∷ [])) 0 (Outcome.Answered 403) ≡ None }
    ensures news { put_off_at (then_is (tells 0 Told.OffHook ∷ [])) 0 (Outcome.Answered 402) ≡ None }
    ensures accepted { put_off_at (then_is dial) 1 (Outcome.Answered 200) ≡ None }
    ensures given_up { put_off_at (then_is dial) 1 Outcome.GivenUp ≡ None }
    ensures nothing_in_flight { put_off_at ready 1 (Outcome.Answered 405) ≡ None }
    ensures last { refusal_fate Cause.Request 405 (Some (record { cause = Cause.Hook; times = 29 }))
        ≡ fates.Again (record { cause = Cause.Request; times = 30 }) }
    ensures no_more { refusal_fate Cause.Request 405 (Some (record { cause = Cause.Request; times = 30 })) ≡ fates.Refused 405 }
    ensures for_good { refusal_fate Cause.Request 512 None ≡ fates.Refused 512 }
    ensures of_a_hook { refusal_fate Cause.Hook 402 None ≡ fates.Again (record { cause = Cause.Hook; times = 1 }) }
    ensures of_a_connection { refusal_fate Cause.Connection 402 None ≡ fates.Refused 402 }
    ensures ends { put_off_then fates.Done (Some (record { cause = Cause.Request; times = 3 })) ≡ None }
    ensures ends_for_good { put_off_then (fates.Refused 512) (Some (record { cause = Cause.Request; times = 3 })) ≡ None }
    ensures lost { put_off_then fates.Open (Some (record { cause = Cause.Request; times = 3 }))
        ≡ Some (record { cause = Cause.Request; times = 3 }) }
{}

/// What was refused for good is on record, by its code: a request until the line tells something, and a connection until its gateway
/// starts again, or all that the line has is deleted.
pub fn what_was_refused_for_good_is_on_record()
    ensures request { option_map (λ (l : Line). l.refused) (line_of (after opened (all_sent ++ coded 1 512 ∷ [])) 1) ≡ Some (Some 512) }
    ensures asked_for { option_map (λ (l : Line). l.asked) (line_of (after opened (all_sent ++ coded 1 512 ∷ [])) 1)
        ≡ Some (Some Asked.Rest) }
    ensures anew { option_map (λ (l : Line). l.refused) (line_of (after opened (all_sent ++ coded 1 512 ∷ tells 1 Told.Flash ∷ [])) 1)
        ≡ Some None }
    ensures other_request { option_map (λ (l : Line). l.refused) (line_of (then_is (dial ++ coded 1 512 ∷ tells 0 Told.OnHook ∷ [])) 1)
        ≡ Some None }
    ensures connection { option_map (λ (l : Line). l.left) (line_of (then_is (connect ++ tells 0 Told.OnHook ∷ coded 0 510 ∷ [])) 0)
        ≡ Some (Some 510) }
    ensures goes_on { sent_at (connect ++ tells 0 Told.OnHook ∷ []) (coded 0 510) ≡ (0, Command.Ask Asked.Rest) ∷ [] }
    ensures gone { option_map (λ (l : Line). l.left) (line_of (then_is (connect ++ tells 0 Told.OnHook ∷ coded 0 515 ∷ [])) 0)
        ≡ Some None }
    ensures restarted { option_map (λ (l : Line). l.left)
        (line_of (then_is (connect ++ tells 0 Told.OnHook ∷ coded 0 510 ∷ tells 0 Told.Restarted ∷ [])) 0) ≡ Some None }
    ensures flash { option_map (λ (l : Line). l.left)
        (line_of (then_is (connect ++ tells 0 Told.OnHook ∷ coded 0 510 ∷ tells 0 Told.Flash ∷ [])) 0) ≡ Some (Some 510) }
    ensures cleared { option_map (λ (l : Line). l.left)
        (line_of (then_is (connect ++ tells 0 Told.OnHook ∷ coded 0 510 ∷ clears 0 250 ∷ [])) 0) ≡ Some None }
    ensures not_cleared { option_map (λ (l : Line). l.left) (line_of (after ready (clears 1 510 ∷ [])) 1) ≡ Some (Some 510) }
    ensures deleted_too { option_map (λ (l : Line). l.leg) (line_of (after (then_is connect) (clears 0 516 ∷ [])) 0) ≡ Some Leg.Absent }
    ensures not_put_off_then { option_map (λ (l : Line). l.put_off)
        (line_of (then_is (dial ++ coded 1 405 ∷ tells 1 Told.Restarted ∷ [])) 1) ≡ Some None }
    ensures put_off_still { option_map (λ (l : Line). l.put_off) (line_of (then_is (dial ++ coded 1 405 ∷ tells 1 Told.Flash ∷ [])) 1)
        ≡ Some (Some (record { cause = Cause.Request; times = 1 })) }
{}

/// What the laws say of what is on record: who put a command off, accepted a request, or has no connection any more.
pub fn records_are_told_of()
    ensures put_off { is_put_off 1 (then_is dial) (coded 1 405) ≡ true }
    ensures not_put_off { is_put_off 1 (then_is dial) (coded 1 512) ≡ false }
    ensures of_another { is_put_off 0 (then_is dial) (coded 1 405) ≡ false }
    ensures settled { is_settled 1 (then_is dial) (coded 1 512) ≡ true }
    ensures not_settled { is_settled 1 (then_is dial) (coded 1 405) ≡ false }
    ensures lost { is_settled 1 (then_is dial) (given_up 1) ≡ false }
    ensures asked { is_asked_on (line_of ready 1) ≡ true }
    ensures in_flight { is_asked_on (line_of (then_is dial) 1) ≡ false }
    ensures refused { is_asked_on (line_of (after opened (all_sent ++ coded 1 512 ∷ [])) 1) ≡ false }
    ensures told { is_asked_on (line_of (after ready (tells 1 Told.Flash ∷ [])) 1) ≡ false }
    ensures no_line { is_asked_on (line_of ready 3) ≡ false }
    ensures accepts { accepts 1 (then_is dial) (accepted 1) ≡ true }
    ensures refuses { accepts 1 (then_is dial) (coded 1 405) ≡ false }
    ensures gives_up { accepts 1 (then_is dial) (given_up 1) ≡ false }
    ensures accepts_another { accepts 0 (then_is dial) (accepted 1) ≡ false }
    ensures accepts_a_deletion { accepts 0 (then_is (connect ++ tells 0 Told.OnHook ∷ [])) (accepted 0) ≡ false }
    ensures bare { is_bare (line_of ready 1) ≡ true }
    ensures creating { is_bare (line_of (then_is pick_up) 0) ≡ false }
    ensures standing { is_bare (line_of (then_is connect) 0) ≡ false }
    ensures left { is_bare (line_of (then_is (connect ++ tells 0 Told.OnHook ∷ coded 0 510 ∷ [])) 0) ≡ false }
    ensures none_made { ends 0 (then_is pick_up) (coded 0 540) ≡ true }
    ensures one_made { ends 0 (then_is pick_up) created_first ≡ false }
    ensures unnamed { ends 0 (then_is pick_up) (accepted 0) ≡ false }
    ensures deleted { ends 0 (then_is (connect ++ tells 0 Told.OnHook ∷ [])) (coded 0 516) ≡ true }
    ensures not_deleted { ends 0 (then_is (connect ++ tells 0 Told.OnHook ∷ [])) (coded 0 400) ≡ false }
    ensures lost_deletion { ends 0 (then_is (connect ++ tells 0 Told.OnHook ∷ [])) (given_up 0) ≡ false }
    ensures restarted { ends 0 (then_is connect) (tells 0 Told.Restarted) ≡ true }
    ensures disconnected { ends 0 (then_is connect) (tells 0 Told.Disconnected) ≡ false }
    ensures cleared { ends 0 (then_is connect) (clears 0 250) ≡ true }
    ensures not_cleared { ends 0 (then_is connect) (clears 0 400) ≡ false }
    ensures another_ends { ends 1 (then_is connect) (tells 0 Told.Restarted) ≡ false }
    ensures creates { is_creation (Some (Command.Create 1 false)) ≡ true }
    ensures not_created { is_creation (Some (Command.Ask Asked.Rest)) ≡ false }
    ensures asks { is_request (Some (Command.Ask Asked.Rest)) ≡ true }
    ensures not_asked { is_request (Some (Command.Modify 1)) ≡ false }
{}
