//! Worked examples, as theorems: for each law that asks for something, a gateway that runs live, or an exchange, that meets all of it at
//! once.
#![tactic(auto, unfolding(crate::proofs::Computing::on_examples))]

ghost use Rattle.std.specs.Prelude.{◌≡◌, ◌≤◌, ◌<◌, ◌^◌, ◌-◌, ◌++◌, ◌∷◌, [], is_some, true, false, Some, None};
ghost use Rattle.plain_machine.specs.Event.{tick};
ghost use Rattle.plain_machine.specs.Example.{two_lines};
ghost use Rattle.gateway_core.specs.Stands.{Stands, Took};
ghost use Rattle.traces.specs.Writing.{IsPlay};
ghost use Rattle.live_play.specs.Readable.{AreByTicks, AreLater};
ghost use Rattle.live_play.specs.Running.{Ran};
ghost use Rattle.live_gateway.specs.declared.admission.Admission.{Admission};
ghost use Rattle.live_gateway.specs.Desk.{GoesOnBy};
ghost use Rattle.call_processing.specs.Calls.{caller_of};
ghost use Rattle.call_processing.specs.Exchange.{answered, due, flight_in, line_of, phase_of, told};
ghost use Rattle.call_processing.specs.Fates.{is_deleted, is_success, is_wanted};
ghost use Rattle.call_processing.specs.Parameters.{gives};
ghost use Rattle.live_laws.specs.CallTurns.{after, sends, count_turns, is_asked_on, is_bare, is_creation, is_in_flight, is_put_off, is_request, is_settled, AreQuietFor, IsApart};
ghost use Rattle.live_laws.specs.CallExample.{accepted, coded, created_first, created_second, dial, opened, pick_up, ready, ring, then_is};
ghost use Rattle.live_laws.specs.Example.{sockets};
ghost use Rattle.live_laws.specs.Replay.{AreWritable};
ghost use Rattle.live_laws.specs.LawExample.{announced_desk, announced_entries, announced_gateway, announced_live, announcement, comes_to_rest, connected, from_opening, hung_up, opened_desk, opened_gateway, opened_live, to_create, unheard};

use call_processing::{Asked, Command, Outcome, Phase, Side, Told};

/// What laws ask of a gateway that runs live is met by one that announces itself.
pub fn what_is_asked_of_a_run_has_examples()
    // a_live_run_is_a_play, the_trace_of_a_live_run_replays, runs_go_on
    ensures stands { Stands opened_gateway [] }
    ensures ran { Ran opened_live announced_entries announced_live }
    ensures ran_on { Ran announced_live [] announced_live }
    // each_message_is_told_with_its_datagram
    ensures took { Took opened_gateway (tick 1 ∷ []) announced_gateway [] (announcement ∷ []) }
    // a_written_trace_replays
    ensures play { IsPlay two_lines [] announced_entries }
    ensures by_ticks { AreByTicks announced_entries }
    ensures later { AreLater two_lines [] announced_entries }
    ensures writable { AreWritable announced_entries }
    // what_a_stranger_sends_changes_nothing, each_datagram_that_is_heard_is_an_event, the_trace_of_a_desk_replays
    ensures went { (admission : Admission) →
        GoesOnBy (record admission { own = sockets }) opened_desk announced_desk announced_entries (unheard ∷ []) 0 }
    ensures few { opened_desk.came.refused < 2 ^ 64 - 1 }
{}

/// What laws ask of calls is met where line 0 calls line 1.
pub fn what_is_asked_of_calls_has_examples()
    // both_ends_of_a_call_name_each_other, a_line_is_in_at_most_one_call, on_hook_ends_the_call, a_restart_ends_the_call
    ensures in_call { phase_of (after opened (from_opening ring)) 0 ≡ Some (Phase.InCall (caller_of 1 1)) }
    // a_line_that_hung_up_comes_to_rest
    ensures rests { phase_of (after opened hung_up) 0 ≡ Some Phase.Resting }
    ensures quiet { AreQuietFor 0 comes_to_rest }
    ensures three { 3 ≤ count_turns (is_settled 0) (after opened hung_up) comes_to_rest }
    ensures none_put_off { count_turns (is_put_off 0) (after opened hung_up) comes_to_rest ≡ 0 }
    ensures rests_then { phase_of (after opened (hung_up ++ comes_to_rest)) 0 ≡ Some Phase.Resting }
    ensures none_flies { is_in_flight (after opened (hung_up ++ comes_to_rest)) 0 ≡ false }
    ensures none_due { due (after opened (hung_up ++ comes_to_rest)) 0 ≡ None }
    // no_command_is_sent_while_one_is_in_flight
    ensures flies { is_in_flight (after opened hung_up) 0 ≡ true }
    // a_description_is_that_of_the_other_end
    ensures called { phase_of (after (then_is pick_up) (created_first ∷ [])) 1
        ≡ Some (Phase.InCall (record { call = 1; other = 0; side = Side.Called; answered = true })) }
    ensures creates { due (after (then_is pick_up) (created_first ∷ [])) 1 ≡ Some (Command.Create 1 true) }
    ensures describes { gives (Command.Create 1 true) ≡ Some 1 }
    // a_call_goes_on
    ensures asks_nothing { due ready 1 ≡ None }
    ensures waits { is_in_flight ready 1 ≡ false }
    ensures talks { phase_of connected 0 ≡ Some (Phase.InCall (record { call = 1; other = 1; side = Side.Caller; answered = true })) }
    ensures first_done { is_in_flight connected 0 ≡ false }
    ensures first_none { due connected 0 ≡ None }
    ensures second_done { is_in_flight connected 1 ≡ false }
    ensures second_none { due connected 1 ≡ None }
    // what_happens_to_a_line_concerns_its_call_alone
    ensures apart { IsApart (after opened (from_opening ring)) (told (after opened (from_opening ring)) 0 Told.OnHook) 0 2 }
    ensures apart_too { IsApart (after opened (from_opening dial))
        (answered (after opened (from_opening dial)) 1 (Outcome.Answered 200)) 1 2 }
{}

/// What laws ask of records is met by lines with a command in flight of each kind, which is refused, and by those that accept one.
pub fn what_is_asked_of_records_has_examples()
    // what_is_on_record_was_answered_so
    ensures asks { is_request (due (after opened []) 0) ≡ true }
    ensures asked { is_asked_on (line_of (after (after opened ([] ++ sends 0 ∷ [])) (accepted 0 ∷ [])) 0) ≡ true }
    ensures creates { is_creation (due (after opened to_create) 0) ≡ true }
    ensures bare { is_bare (line_of (after (after opened (to_create ++ sends 0 ∷ [])) (coded 0 540 ∷ [])) 0) ≡ true }
    // what_is_refused_is_on_record
    ensures request { flight_in (line_of (then_is dial) 1) ≡ Some (Command.Ask Asked.Ring) }
    ensures unsuccessful { is_success 512 ≡ false }
    ensures request_then { is_some (line_of (answered (then_is dial) 1 (Outcome.Answered 512)) 1) ≡ true }
    ensures wanted { is_wanted Asked.Ring (phase_of (answered (then_is dial) 1 (Outcome.Answered 512)) 1) ≡ true }
    ensures deletion { flight_in (line_of (after opened (hung_up ++ created_first ∷ sends 0 ∷ [])) 0) ≡ Some (Command.Delete 1) }
    ensures not_deleted { is_deleted 510 ≡ false }
    ensures creation { flight_in (line_of (then_is pick_up) 0) ≡ Some (Command.Create 1 false) }
    ensures change { flight_in (line_of (then_is (pick_up ++ created_first ∷ accepted 0 ∷ created_second ∷ [])) 0)
        ≡ Some (Command.Modify 1) }
{}
