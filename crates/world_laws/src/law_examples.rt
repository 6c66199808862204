//! Worked examples, as theorems: for each law that asks for something, an agent, a world or a line that meets all of it at once. What
//! `laws` ask of a setup, of steps and of numbers is met in `all_that_the_law_asks_for_may_hold` (`dialled_examples`), and so is all that
//! `what_is_dialled_reaches_the_agent_once` asks for.
#![tactic(auto, unfolding(crate::proofs::Computing::on_examples))]

ghost use Rattle.std.specs.Prelude.{◌≡◌, ◌≢◌, ◌≤◌, ◌<◌, ◌+◌, ◌*◌, ◌++◌, ◌∷◌, [], ℕ, List, Any, codes, find, length, true, false, Some, None};
ghost use Rattle.mgcp_text.specs.declared.message.Message.TheVariants as messages;
ghost use Rattle.mgcp_text.specs.declared.message.Param.{Param};
ghost use Rattle.mgcp_text.specs.Reading.{message, read_text};
ghost use Rattle.packages.specs.declared.signal.Signal.TheVariants.{DialTone};
ghost use Rattle.transmission.specs.HistoryExample.{comes, comes_with, to};
ghost use Rattle.timers.specs.declared.kind.LineDue.TheVariants.{SignalEnd};
ghost use Rattle.retransmission.specs.declared.reply.Reply.TheVariants.{Answered};
ghost use Rattle.retransmission.specs.Flight.{InFlight, reply_of};
ghost use Rattle.retransmission.specs.Sends.{most_repeats};
ghost use Rattle.transmission.specs.Packing.{packed};
ghost use Rattle.mg_line.specs.declared.phone.Act.TheVariants as acts;
ghost use Rattle.mg_line.specs.declared.phone.Key.TheVariants as keys;
ghost use Rattle.mg_line.specs.Acting.{phoned};
ghost use Rattle.mg_line.specs.Falling.{due_of};
ghost use Rattle.plain_machine.specs.Example.{ready, two_lines};
ghost use Rattle.plain_machine.specs.Lists.{plain, sent_from, sent_of};
ghost use Rattle.plain_machine.specs.Machine.{endpoint_at, serves};
ghost use Rattle.machine_laws.specs.Belonging.{of_line};
ghost use Rattle.call_agent.specs.Agent.{agent_opening};
ghost use Rattle.call_agent.specs.AgentAlike.{AgentAlike};
ghost use Rattle.call_agent.specs.AgentStands.{AgentStands, AgentStays, AgentTook, agent_takes};
ghost use Rattle.call_agent.specs.Choosing.{first_flight, has_id, if_due};
ghost use Rattle.call_agent.specs.Hearing.{agent_refusal};
ghost use Rattle.agent_core.specs.declared.packet.End.TheVariants.{AgentEnd, GatewayEnd};
ghost use Rattle.agent_core.specs.declared.step.Step.TheVariants as steps;
ghost use Rattle.agent_core.specs.declared.step.StepRefusal.TheVariants as refusals;
ghost use Rattle.agent_core.specs.World.{delivering, gateway_in, now_in};
ghost use Rattle.agent_core.specs.WorldStands.{WorldStands, WorldStoppedAt, WorldTook};
ghost use Rattle.world_laws.specs.Example.{agent_from, agent_posts, agent_then, announced, audit_by_agent, world};
ghost use Rattle.world_laws.specs.Copies.{HasRoom, IsConfirmedAmong, IsCopy, IsIssued, IsRun, answer_wait, gateway_firsts};
ghost use Rattle.world_laws.specs.Chances.{IsCarried, IsSentAfter, last_chance};
ghost use Rattle.world_laws.specs.Course.{accepts, acts as does, course_from, notifies};
ghost use Rattle.world_laws.specs.Dialled.{IsToldOnce, done_in};
ghost use Rattle.world_laws.specs.DialledExample.{endpoint_then};
ghost use Rattle.world_laws.specs.Fairness.{AgentAlwaysHasRoom, ReachTheAgent};
ghost use Rattle.world_laws.specs.Following.{AreInStep, IsResting, OnceForEach};
ghost use Rattle.world_laws.specs.Keeping.{AsksForAll, IsUntouched, KeepsAll};
ghost use Rattle.world_laws.specs.GivenUp.{has_given_up};
ghost use Rattle.world_laws.specs.OnceExample.{asks_for_all, course_then, five, lifted as off_hook, line_then};
ghost use Rattle.world_laws.specs.OwnChances.{IsOfLine};
ghost use Rattle.world_laws.specs.Rounds.{rounds_take};
ghost use Rattle.world_laws.specs.Taking.{AgentHasRoom, IsOwn};
ghost use Rattle.world_laws.specs.DeliveryExample.{answered, asked, audit, brought, freed, held, lifted, notification, notified, took_between, took_first};
ghost use Rattle.world_laws.specs.LawExample.{agent_with, all_in_step, all_told, announcement, audit_flight, confirmed, first_seven, issued, line_after, one_collected, opened_world, saved, sounding, told_in_step};

/// What laws ask of an agent is met by one that issued an audit.
pub fn what_is_asked_of_agents_has_examples()
    // an_agent_has_one_answer_to_a_command
    ensures reads { read_text (codes "200 1 OK\r\n") ≡ message (messages.Response 200 1 [] []) }
    ensures flies { find (has_id 1) (agent_then issued).flights ≡ Some audit_flight }
    ensures lands { reply_of audit_flight 1 200 ≡ Answered }
    ensures nothing_else { (code id : ℕ) (params : List Param) (body : List ℕ) (flight : InFlight) →
        read_text (codes "100 1\r\n") ≡ message (messages.Response code id params body) →
        find (has_id id) (agent_then issued).flights ≡ Some flight → reply_of flight id code ≢ Answered }
    // what_is_due_of_commands_happens_in_its_order
    ensures due { if_due 500 (first_flight (agent_then issued).flights) ≡ Some audit_flight }
    // an_agent_goes_on_as_the_plain_one
    ensures alike { AgentAlike (agent_then issued) (agent_then issued) }
    ensures goes_on { agent_refusal (agent_then issued) audit_by_agent ≡ None }
    // what_an_agent_stands_for, what_an_agent_takes, what_took_nothing_stands_for_nothing_else
    ensures stands { AgentStands (agent_with issued) issued }
    ensures opens { AgentStands (agent_with []) [] }
    ensures took { AgentTook (agent_with []) audit_by_agent (agent_with issued) (packed (agent_posts [] audit_by_agent)) }
    ensures stays { AgentStays (agent_with issued) (agent_with issued) }
    // clocks_stay_below_the_end_of_time
    ensures takes { agent_takes (agent_from 1) (agent_opening (agent_from 1)) issued ≡ true }
{}

/// What laws ask of a world as calls leave it is met by one that opened, and stopped at its first step: it had no packet, or memory was
/// refused.
pub fn what_is_asked_of_calls_has_examples()
    // what_a_world_stands_for, clocks_stay_below_the_end_of_time
    ensures stands { WorldStands opened_world [] }
    // what_running_a_world_means, what_took_nothing_stands_for_nothing_else
    ensures took { WorldTook opened_world [] opened_world }
    ensures stopped { WorldStoppedAt opened_world (steps.Deliver 0 ∷ []) opened_world
        (record { place = 0; refusal = refusals.NoSuchPacket }) }
    ensures wanted { WorldStoppedAt opened_world (steps.Tick 1 ∷ []) (record opened_world { spent = true })
        (record { place = 0; refusal = refusals.OutOfMemory }) }
    ensures fresh { opened_world.spent ≡ false }
{}

/// What laws ask of commands is met by an audit that is handed over at once, and so is its answer; and by one of which the last copy alone
/// is. That network is fair, with room at the gateway (`what_a_fair_network_is`).
pub fn what_is_asked_of_commands_has_examples()
    // a_delivered_command_is_answered_at_once, a_command_is_answered, stored_answers_are_final
    ensures run { IsRun two_lines (asked ++ delivering 2 ∷ []) }
    ensures issued { IsIssued two_lines (world asked) audit }
    ensures copy { IsCopy two_lines (world asked) AgentEnd audit.text 2 }
    ensures room { HasRoom (now_in two_lines (world (asked ++ delivering 2 ∷ [])))
        (gateway_firsts two_lines (world (asked ++ delivering 2 ∷ []))) }
    ensures answer { IsCopy two_lines (world (asked ++ delivering 2 ∷ [])) GatewayEnd (codes "200 1 OK\r\n") 3 }
    // an_answer_that_comes_in_time_is_had
    ensures run_on { IsRun two_lines answered }
    ensures issued_still { IsIssued two_lines (world (asked ++ delivering 2 ∷ [])) audit }
    ensures in_time { now_in two_lines (world (asked ++ delivering 2 ∷ [])) < audit.moment + answer_wait }
    ensures reads { read_text (codes "200 1 OK\r\n") ≡ message (messages.Response 200 audit.id [] []) }
    // a_command_is_sent_eight_times, a_fair_network_answers_each_command
    ensures issued_then { IsIssued two_lines (world answered) audit }
    ensures by_then { audit.moment + 2 * 0 ≤ now_in two_lines (world answered) }
    // one_copy_of_eight_is_enough
    ensures run_late { IsRun two_lines saved }
    ensures issued_late { IsIssued two_lines (world saved) audit }
    ensures late { audit.moment + last_chance ≤ now_in two_lines (world saved) }
    ensures few { length first_seven ≤ most_repeats }
    ensures carried { (number : ℕ) → IsCopy two_lines (world saved) AgentEnd audit.text number → ¬ Any (λ (n : ℕ). n ≡ number) first_seven →
        IsCarried two_lines saved audit number }
{}

/// When a copy of a command was sent, and which K confirms its answer: one that is executed after it.
pub fn commands_are_sent_and_confirmed()
    ensures sent { IsSentAfter two_lines (world asked) audit 0 }
    ensures not_sent { ¬ IsSentAfter two_lines (world asked) audit 500 }
    ensures confirmed { IsConfirmedAmong 1 (gateway_firsts two_lines (world confirmed)) }
    ensures not_confirmed { ¬ IsConfirmedAmong 2 (gateway_firsts two_lines (world confirmed)) }
    ensures named_before { ¬ IsConfirmedAmong 2 (comes_with (to 2 2 ∷ []) 1 0 65 ∷ comes 2 0 66 ∷ []) }
    ensures of_no_first { ¬ IsConfirmedAmong 7 (comes 1 0 65 ∷ comes_with (to 7 7 ∷ []) 2 0 66 ∷ []) }
{}

/// What laws ask of notifications is met where line 1 is lifted, and that and its answer are handed over at once. That network is fair, and
/// they go to the agent (`a_notification_is_brought`).
pub fn what_is_asked_of_notifications_has_examples()
    // a_delivered_notification_is_taken_at_once
    ensures run { IsRun two_lines (notified ++ delivering 2 ∷ []) }
    ensures own { IsOwn two_lines (world notified) lifted }
    ensures copy { IsCopy two_lines (world notified) GatewayEnd notification 2 }
    ensures room { AgentHasRoom two_lines (world (notified ++ delivering 2 ∷ [])) }
    // a_fair_network_brings_each_notification
    ensures run_on { IsRun two_lines brought }
    ensures room_always { AgentAlwaysHasRoom two_lines brought }
    ensures own_still { IsOwn two_lines (world brought) lifted }
    ensures by_then { lifted.moment + 2 * 0 ≤ now_in two_lines (world brought) }
    // a_fair_network_answers_each_notification_in_time
    ensures reaches { ReachTheAgent two_lines brought 1 }
    ensures split { (world brought).gateway_took ≡ took_first announced ++ took_between announced brought }
    ensures serving { serves (plain two_lines (took_first announced)).endpoints ≡ true }
    ensures line { endpoint_at (gateway_in two_lines (world brought)).endpoints 1 ≡ Some (endpoint_then brought) }
    ensures nothing_given_up { has_given_up (of_line 1 (sent_of two_lines (world brought).gateway_took)) (endpoint_then brought).post
        ≡ false }
    // a_notification_is_sent_eight_times
    ensures of_line { IsOfLine two_lines (world brought) 1 lifted }
    ensures of_gateway { IsOfLine two_lines (world brought) 0 announcement }
    // what_is_quarantined_goes_out_in_time, of which `what_is_quarantined_goes_out` has the other premises
    ensures was { endpoint_at (plain two_lines (ready ++ held)).endpoints 1 ≡ Some (line_after (ready ++ held)) }
    ensures is { endpoint_at (plain two_lines ((ready ++ held) ++ freed)).endpoints 1 ≡ Some (line_after ((ready ++ held) ++ freed)) }
    ensures none_given_up { has_given_up (of_line 1 (sent_from two_lines (plain two_lines (ready ++ held)) freed))
        (line_after ((ready ++ held) ++ freed)).post ≡ false }
    ensures over { (plain two_lines (ready ++ held)).now + rounds_take (length (line_after (ready ++ held)).line.quarantined.events) 0 0
        < (plain two_lines ((ready ++ held) ++ freed)).now }
    ensures rests { done_in (course_from two_lines (plain two_lines (ready ++ held)) 1 freed) ≡ [] }
{}

/// What laws ask of what a line does is met where all is asked for that its telephone does (`lines_are_asked_for_all`), in loop, and in
/// step where a request comes between two notifications.
pub fn what_is_asked_of_lines_has_examples()
    // nothing_dialled_is_doubled_or_skipped, a_notification_names_the_latest_request
    ensures line { endpoint_at (plain two_lines (ready ++ all_told)).endpoints 1 ≡ Some (line_after (ready ++ all_told)) }
    ensures told_once { IsToldOnce (course_then all_told) (line_then all_told) }
    ensures collected { ¬ IsToldOnce (course_then one_collected) (line_then one_collected) }
    // a_line_in_step_notifies_once_for_each_request
    ensures line_in_step { endpoint_at (plain two_lines (ready ++ told_in_step)).endpoints 1 ≡ Some (line_after (ready ++ told_in_step)) }
    ensures in_step { AreInStep (course_then told_in_step) }
    ensures in_loop { ¬ AreInStep (course_then all_told) }
    ensures once { OnceForEach (course_then told_in_step) }
    ensures two { course_then told_in_step ≡ (accepts all_in_step ∷ does acts.OffHook ∷ []) ++ notifies (codes "C2") (off_hook ∷ [])
        ∷ ((does (acts.Key keys.Five) ∷ does (acts.Key keys.Six) ∷ accepts all_in_step ∷ []) ++ notifies (codes "C2") (five ∷ []) ∷ []) }
    // each_call_skips_nothing, no_call_makes_anything_up
    ensures keeps { KeepsAll (sounding (line_then (asks_for_all 7 (codes "aaln/1") ∷ []))) }
    ensures none_lost { (phoned (sounding (line_then (asks_for_all 7 (codes "aaln/1") ∷ []))) acts.OffHook 1000).line.quarantined.lost ≡ 0 }
    ensures asks { AsksForAll all_in_step }
    ensures due { due_of (sounding (line_then (asks_for_all 7 (codes "aaln/1") ∷ []))) ≡ Some (17000, SignalEnd DialTone) }
    ensures untouched { IsUntouched (sounding (line_then [])) }
    ensures due_untouched { due_of (sounding (line_then [])) ≡ Some (17000, SignalEnd DialTone) }
    // each_call_follows_the_latest_request
    ensures rests { IsResting (line_then held) }
{}
