//! Worked examples of the definitions, as theorems: each sentence of a definition has one that a slip in it breaks.
#![tactic(auto, unfolding(crate::proofs::Computing::on_examples))]

ghost use Rattle.std.specs.Prelude.{◌≡◌, [], ◌∷◌, true, false, Some, None, codes};
ghost use Rattle.mg_bytes.specs.Items.{items_of};
ghost use Rattle.mgcp_text.specs.declared.message.Message.TheVariants as messages;
ghost use Rattle.mgcp_text.specs.Reading.{message, bad_version, bad_body};
ghost use Rattle.call_processing.specs.Phases.{named_by};
ghost use Rattle.call_processing.specs.Exchange.{opening, sent_to, told, answered, cleared_at};
ghost use Rattle.line_control.specs.declared.care.Duty.TheVariants.{Clear, Audit, Route};
ghost use Rattle.line_control.specs.Waiting.{waits, settling, settled_at};
ghost use Rattle.agent_log.specs.Refusals.{no_refusals};
ghost use Rattle.agent_log.specs.Example.{refused_with};
ghost use Rattle.line_control.specs.Duties.{new_care, duty_begun, begun, landed, owed, lost, outlived, announced, found, told_of, told_care, again_at, held_from, woken, duty_answered, routed_by, fixed_order};
ghost use Rattle.line_control.specs.Hooks.{hook_of, hook_among, hook_told, is_off, was_off, told_by_hook, notified};
ghost use Rattle.line_control.specs.Responses.{creates, connection_in, created, is_creation, created_by, outcome_by};
ghost use Rattle.line_control.specs.Orders.{duty_of, flight_of, was_found_off, is_outlived, has_told, again_of, is_put_off_in, cared, ordered};
ghost use Rattle.line_control.specs.Turns.{forsaken, heard_by, announced_by, outcome_with, told_by_audit, Routes, TakesResponse};
ghost use Rattle.line_control.specs.Showing.{shown_in};
ghost use Rattle.line_control.specs.Example.{cleared, audited, found_off, param, part, answered_part, creating};

use agent_log::Standing;
use call_processing::{Asked, Cause, Command, Outcome, Phase, Side, Told, Tone};

/// Each sentence at an example.
pub fn each_sentence_has_an_example()
    // A line is cleared first, then audited, and then the exchange says what it is sent; one command at a time.
    ensures nothing_told { new_care.has_told ≡ false }
    ensures nothing_found { new_care.is_found_off ≡ false }
    ensures a_line_is_cleared_audited_and_routed_not_outlived { new_care.is_outlived ≡ false }
    ensures at_rest { new_care.shown.standing ≡ Standing.Rest }
    ensures first { duty_begun new_care ≡ Some Clear }
    ensures second { duty_begun cleared ≡ Some Audit }
    ensures third { duty_begun audited ≡ Some Route }
    ensures from_then_on { duty_begun (landed (begun audited)) ≡ Some Route }
    ensures none_meanwhile { duty_begun (begun cleared) ≡ None }
    ensures stays { begun (begun cleared) ≡ begun cleared }
    ensures flies { (begun cleared).flight ≡ Some Audit }
    // What a line told before it was audited is older than that; what it tells from then on is newer.
    ensures an_audit_asks_for_what_is_told_since_older { (begun (told_care cleared)).has_told ≡ false }
    ensures newer { (told_care (begun cleared)).has_told ≡ true }
    ensures an_audit_asks_for_what_is_told_since_clearing { (begun (told_care new_care)).has_told ≡ true }
    ensures routing { (begun (told_care audited)).has_told ≡ true }
    ensures an_audit_asks_for_what_is_told_since_found { found_off.is_found_off ≡ true }
    ensures found_no_more { (told_care found_off).is_found_off ≡ false }
    // A line that isn't cleared yet is cleared, whatever is owed; another is audited, or cleared again.
    ensures what_is_owed_comes_next_uncleared { (owed new_care Audit).next ≡ Clear }
    ensures what_is_owed_comes_next_audit { (owed audited Audit).next ≡ Audit }
    ensures what_is_owed_comes_next_clearing { (owed audited Clear).next ≡ Clear }
    ensures cleared_again { (owed cleared Clear).next ≡ Clear }
    // What was given up is owed again, where the exchange doesn't know of it.
    ensures what_was_given_up_is_owed_again_clearing { (lost (begun new_care)).next ≡ Clear }
    ensures what_was_given_up_is_owed_again_audit { (lost (begun cleared)).next ≡ Audit }
    ensures what_was_given_up_is_owed_again_route { (lost (begun audited)).next ≡ Route }
    ensures lands { (lost (begun audited)).flight ≡ None }
    // What a gateway is answered that has started again since isn't believed.
    ensures a_restart_outlives_what_is_in_flight_in_flight { (outlived (begun new_care)).is_outlived ≡ true }
    ensures none { (outlived new_care).is_outlived ≡ false }
    ensures next_one { (begun (landed (outlived (begun new_care)))).is_outlived ≡ false }
    ensures a_restart_outlives_what_is_in_flight_found { (outlived (found true new_care)).is_found_off ≡ false }
{}

/// Each sentence at an example.
pub fn further_sentences_have_examples()
    // A line that is announced is asked for its hook; what is in flight to one that has started again isn't believed.
    ensures a_line_that_is_announced_is_audited_audit { (announced false audited).next ≡ Audit }
    ensures a_line_that_is_announced_is_audited_uncleared { (announced true new_care).next ≡ Clear }
    ensures restart { (announced true (begun audited)).is_outlived ≡ true }
    ensures a_line_that_is_announced_is_audited_disconnected { (announced false (begun audited)).is_outlived ≡ false }
    ensures found_before { (announced true (found true audited)).is_found_off ≡ false }
    ensures found_still { (announced false (found true audited)).is_found_off ≡ true }
    ensures a_line_that_is_announced_is_audited_found { (found true audited).is_found_off ≡ true }
    ensures shown { (told_of (record { standing = Standing.Busy; refusals = no_refusals }) audited).shown.standing
        ≡ Standing.Busy }
    ensures stands { (shown_in (opening 2 0) 1).standing ≡ Standing.Rest }
    ensures refuses { (shown_in (refused_with (Some 512) None) 0).refusals ≡ record { request = Some 512; deletion = None } }
    // The commands that the exchange doesn't know of.
    ensures orders_beside_the_exchange_clear { fixed_order Clear ≡ Some (codes "DLCX", []) }
    ensures orders_beside_the_exchange_audit { fixed_order Audit ≡ Some (codes "AUEP", codes "F: ES\r\n") }
    ensures orders_beside_the_exchange_route { fixed_order Route ≡ None }
    // What is kept of one line changes, and what is known of it is told; of a line that there isn't nothing is.
    ensures one { cared begun (new_care ∷ audited ∷ cleared ∷ []) 1 ≡ new_care ∷ begun audited ∷ cleared ∷ [] }
    ensures what_is_kept_of_a_line_changes_no_line { cared begun (new_care ∷ []) 1 ≡ new_care ∷ [] }
    ensures duty { duty_of (Some cleared) ≡ Some Audit }
    ensures no_duty { duty_of None ≡ None }
    ensures flight { flight_of (Some (begun cleared)) ≡ Some Audit }
    ensures on_ground { flight_of (Some cleared) ≡ None }
    ensures no_flight { flight_of None ≡ None }
    ensures lifted { was_found_off (Some found_off) ≡ true }
    ensures not_found { was_found_off (Some audited) ≡ false }
    ensures not_there { was_found_off None ≡ false }
    // A line is sent what is next: the exchange's command with its parameters as they are once it is sent.
    ensures a_line_is_sent_what_is_next_clear { (exchange line map : _) → ordered (Some new_care) exchange line map
        ≡ Some (codes "DLCX", []) }
    ensures a_line_is_sent_what_is_next_audit { (exchange line map : _) → ordered (Some cleared) exchange line map
        ≡ Some (codes "AUEP", codes "F: ES\r\n") }
    ensures a_line_is_sent_what_is_next_route { ordered (Some audited) (opening 2 0) 1 (codes "x")
        ≡ Some (codes "RQNT", codes "X: 1\r\nR: L/hd(N)\r\n") }
    ensures nothing_due { ordered (Some audited) (sent_to (opening 2 0) 1) 1 (codes "x") ≡ None }
    ensures a_line_is_sent_what_is_next_in_flight { (exchange line map : _) → ordered (Some (begun cleared)) exchange line map ≡ None }
    ensures a_line_is_sent_what_is_next_no_line { (exchange line map : _) → ordered None exchange line map ≡ None }
{}

/// Each sentence at an example.
pub fn more_sentences_have_examples()
    // What happens to a line is a turn of the exchange, or none.
    ensures none_given_up { (exchange line : _) → forsaken exchange line None ≡ exchange }
    ensures clearing_given_up { (exchange line : _) → forsaken exchange line (Some Clear) ≡ exchange }
    ensures audit_given_up { (exchange line : _) → forsaken exchange line (Some Audit) ≡ exchange }
    ensures what_happens_to_a_line_is_a_turn_given_up { (exchange line : _) → forsaken exchange line (Some Route)
        ≡ answered exchange line Outcome.GivenUp }
    ensures nothing_heard { (exchange line : _) → heard_by exchange line None ≡ exchange }
    ensures heard { (exchange line : _) → heard_by exchange line (Some Told.OffHook) ≡ told exchange line Told.OffHook }
    ensures restarted { (exchange line : _) → announced_by true exchange line ≡ told exchange line Told.Restarted }
    ensures what_happens_to_a_line_is_a_turn_disconnected { (exchange line : _) → announced_by false exchange line ≡ exchange }
    ensures created { outcome_with creating 1 200 (codes "200 7 OK\r\nI: 1F\r\n\r\nv=0\r\n")
        ≡ Outcome.Created (codes "1F") (codes "v=0\r\n") }
    ensures refused { (text : _) → outcome_with creating 1 500 text ≡ Outcome.Answered 500 }
    ensures what_happens_to_a_line_is_a_turn_audited { told_by_audit creating 1 (codes "200 7 OK\r\nES: L/hu\r\n") ≡ Told.OnHook }
    // What an answer is to a line is by what its command was for: one that is older than what the line told is nothing.
    ensures outlived { is_outlived (Some (outlived (begun new_care))) ≡ true }
    ensures a_response_is_taken_by_what_was_asked_not_outlived { is_outlived (Some new_care) ≡ false }
    ensures never_outlived { is_outlived None ≡ false }
    ensures has_told { has_told (Some (told_care audited)) ≡ true }
    ensures has_not { has_told (Some audited) ≡ false }
    ensures a_response_is_taken_by_what_was_asked_no_line { has_told None ≡ true }
    ensures nothing { (text : _) → TakesResponse None 1 70 200 text creating [] creating [] }
    ensures a_response_is_taken_by_what_was_asked_clearing { (text : _) → TakesResponse (Some Clear) 1 70 250 text creating
        (cleared ∷ cleared ∷ []) (cleared_at creating 1 250) (cleared ∷ cleared ∷ []) }
    ensures a_response_is_taken_by_what_was_asked_older { (text : _) → TakesResponse (Some Audit) 1 70 200 text creating [] creating [] }
    ensures a_response_is_taken_by_what_was_asked_audited { TakesResponse (Some Audit) 1 70 200 (codes "200 7 OK\r\nES: L/hu\r\n") creating
        (cleared ∷ audited ∷ [])
        (told creating 1 Told.OnHook) (cleared ∷ found false audited ∷ []) }
    ensures unread { (text : _) → TakesResponse (Some Audit) 1 70 200 text creating (cleared ∷ audited ∷ [])
        (told creating 1 Told.Flash) (cleared ∷ found false audited ∷ []) }
    ensures routed { (text : _) → TakesResponse (Some Route) 1 70 500 text creating [] (answered creating 1 (Outcome.Answered 500)) [] }
    ensures refused_still { (text is kept : _) → TakesResponse (Some Route) 1 70 500 text creating [] is kept
        → is ≡ answered creating 1 (Outcome.Answered 500) }
    ensures a_response_is_taken_by_what_was_asked_given_up { (text : _) → TakesResponse (Some Route) 1 70 200 text creating []
        (answered creating 1 Outcome.GivenUp) [] }
{}

/// Each sentence at an example.
pub fn other_sentences_have_examples()
    // An event state tells a hook with its package or without, in any case, and the first that tells it counts.
    ensures off { hook_of (codes "L/hd") ≡ Some true }
    ensures bare_off { hook_of (codes "hd") ≡ Some true }
    ensures on { hook_of (codes "l/HU") ≡ Some false }
    ensures bare_on { hook_of (codes "hu") ≡ Some false }
    ensures event_states_tell_a_hook_another { hook_of (codes "L/hf") ≡ None }
    ensures behind { hook_among (items_of (codes "L/wt, L/hd")) ≡ Some true }
    ensures event_states_tell_a_hook_first { hook_among (items_of (codes "hu,hd")) ≡ Some false }
    ensures event_states_tell_a_hook_none { hook_among (items_of (codes "")) ≡ None }
    ensures told { hook_told (param (codes "I") [] ∷ param (codes "es") (codes "L/hd") ∷ []) ≡ Some true }
    ensures not_told { hook_told (param (codes "I") (codes "hd") ∷ []) ≡ None }
    // The exchange is told what is new of a hook.
    ensures lifted { told_by_hook (Some true) (was_off (Some Phase.Resting)) ≡ Told.OffHook }
    ensures lifted_still { told_by_hook (Some true) (was_off (Some Phase.Dialling)) ≡ Told.Flash }
    ensures put_back { told_by_hook (Some false) (was_off (Some (Phase.Hearing Tone.Busy))) ≡ Told.OnHook }
    ensures put_back_still { told_by_hook (Some false) (was_off None) ≡ Told.Flash }
    ensures unknown { told_by_hook None (was_off (Some Phase.Resting)) ≡ Told.Flash }
    ensures caller { is_off (Phase.InCall (part Side.Caller)) ≡ true }
    ensures rings { is_off (Phase.InCall (part Side.Called)) ≡ false }
    ensures talks { is_off (Phase.InCall (answered_part Side.Called)) ≡ true }
    // The notification of what an audit found is no news.
    ensures found { notified true (Some Told.OffHook) ≡ Some Told.Flash }
    ensures new { notified false (Some Told.OffHook) ≡ Some Told.OffHook }
    ensures on_hook { notified true (Some Told.OnHook) ≡ Some Told.OnHook }
    ensures dialled { notified true (Some (Told.Dialled (Some 2))) ≡ Some (Told.Dialled (Some 2)) }
    ensures timed_out { notified true (Some Told.TimedOut) ≡ Some Told.TimedOut }
    ensures flash { notified true (Some Told.Flash) ≡ Some Told.Flash }
    ensures restarted { notified true (Some Told.Restarted) ≡ Some Told.Restarted }
    ensures disconnected { notified true (Some Told.Disconnected) ≡ Some Told.Disconnected }
    ensures a_notification_of_what_was_found_is_no_news_nothing { notified true None ≡ None }
{}

/// Each sentence at an example.
pub fn still_more_sentences_have_examples()
    // What CRCX created is known where its answer names a connection and describes it.
    ensures a_connection_was_created_whole { created 200 (Some (codes "A")) (codes "v=0\r\n")
        ≡ Outcome.Created (codes "A") (codes "v=0\r\n") }
    ensures undescribed { created 200 (Some (codes "A")) [] ≡ Outcome.Answered 200 }
    ensures unnamed { created 200 None (codes "v=0\r\n") ≡ Outcome.Answered 200 }
    ensures named { connection_in (param (codes "K") [] ∷ param (codes "i") (codes "1F") ∷ []) ≡ Some (codes "1F") }
    ensures misnamed { connection_in (param (codes "I") (codes "X") ∷ []) ≡ None }
    ensures not_named { connection_in [] ≡ None }
    ensures success { is_creation 299 (Some (Command.Create 1 true)) ≡ true }
    ensures refused { is_creation 300 (Some (Command.Create 1 true)) ≡ false }
    ensures change { creates (Some (Command.Modify 1)) ≡ false }
    ensures deletion { creates (Some (Command.Delete 1)) ≡ false }
    ensures request { creates (Some (Command.Ask Asked.Rest)) ≡ false }
    ensures a_connection_was_created_none { creates None ≡ false }
    ensures read { outcome_by 200 (Some (Command.Create 1 true)) (codes "200 7 OK\r\nI: 1F\r\n\r\nv=0\r\n")
        ≡ Outcome.Created (codes "1F") (codes "v=0\r\n") }
    ensures unreadable { outcome_by 200 (Some (Command.Create 1 true)) (codes "200") ≡ Outcome.GivenUp }
    ensures a_connection_was_created_another { (text : _) → outcome_by 200 (Some (Command.Modify 1)) text ≡ Outcome.Answered 200 }
    ensures refusal { (text : _) → outcome_by 500 (Some (Command.Create 1 true)) text ≡ Outcome.Answered 500 }
    ensures no_response { (verb id name params body : _) → created_by 200 (message (messages.Command verb id name params body))
        ≡ Outcome.Answered 200 }
    ensures bad_version { (id : _) → created_by 200 (bad_version id) ≡ Outcome.GivenUp }
    ensures bad_body { (id : _) → created_by 200 (bad_body id) ≡ Outcome.GivenUp }
    // What happens to a line in a call concerns the other end.
    ensures call { named_by (Some (Phase.InCall (part Side.Caller))) ≡ Some 3 }
    ensures rest { named_by (Some Phase.Resting) ≡ None }
    ensures dials { named_by (Some Phase.Dialling) ≡ None }
    ensures hears { named_by (Some (Phase.Hearing Tone.Busy)) ≡ None }
    ensures no_line { named_by None ≡ None }
{}

/// Each sentence at an example.
pub fn yet_more_sentences_have_examples()
    // A line waits that was put there, and where all do.
    ensures put { waits (3 ∷ 5 ∷ []) false 5 ≡ true }
    ensures not_put { waits (3 ∷ 5 ∷ []) false 4 ≡ false }
    ensures a_line_waits_until_it_is_settled_all { waits [] true 4 ≡ true }
    ensures a_line_waits_until_it_is_settled_none { waits [] false 4 ≡ false }
    // Of those that wait each is settled in its turn, or all lines are.
    ensures some { settling (3 ∷ 5 ∷ []) false 9 ≡ 2 }
    ensures lines_are_settled_one_by_one_all { settling (3 ∷ 5 ∷ []) true 9 ≡ 9 }
    ensures second { settled_at (3 ∷ 5 ∷ []) false 40 1 ≡ Some 5 }
    ensures past { settled_at (3 ∷ 5 ∷ []) false 40 2 ≡ None }
    ensures of_all { settled_at (3 ∷ 5 ∷ []) true 40 2 ≡ Some 42 }
{}

/// A duty beside the exchange that was refused for a cause that may pass is owed again a second later, thirty times in a row. Until then
/// its line is held, unless its gateway starts again.
pub fn a_duty_that_was_put_off_is_owed_again()
    ensures refuses_nothing { new_care.shown.refusals ≡ no_refusals }
    ensures nothing_put_off { new_care.put_off ≡ 0 }
    ensures held_by_nothing { new_care.again ≡ None }
    ensures none_while_held { duty_begun (held_from 5 cleared) ≡ None }
    ensures held_stays { begun (held_from 5 cleared) ≡ held_from 5 cleared }
    ensures at_once { (outlived (held_from 5 audited)).again ≡ None }
    ensures anew { (outlived (record audited { put_off = 7 })).put_off ≡ 0 }
    ensures again_at_its_moment { again_of (Some (held_from 70 audited)) ≡ Some 1070 }
    ensures not_again { again_of (Some audited) ≡ None }
    ensures no_line_again { again_of None ≡ None }
    ensures put_off { is_put_off_in 405 (Some audited) ≡ true }
    ensures refused { is_put_off_in 510 (Some audited) ≡ false }
    ensures no_line_put_off { is_put_off_in 405 None ≡ false }
    ensures clearing { (duty_answered 70 405 Clear (landed (begun new_care))).next ≡ Clear }
    ensures later { (duty_answered 70 405 Clear (landed (begun new_care))).again ≡ Some 1070 }
    ensures counted { (duty_answered 70 405 Clear (landed (begun new_care))).put_off ≡ 1 }
    ensures audit { (duty_answered 70 400 Audit audited).next ≡ Audit }
    ensures last { (duty_answered 70 400 Audit (record audited { put_off = 29 })).put_off ≡ 30 }
    ensures no_more { duty_answered 70 400 Audit (record audited { put_off = 30 }) ≡ audited }
    ensures over { (duty_answered 70 250 Clear (record cleared { put_off = 3 })).put_off ≡ 0 }
    ensures over_next { (duty_answered 70 250 Clear cleared).next ≡ Audit }
    ensures for_good { (duty_answered 70 510 Clear cleared).again ≡ None }
    ensures latest { again_at 18446744073709551615 ≡ 18446744073709551615 }
    ensures woken { (woken 1070 (held_from 70 audited)).again ≡ None }
    ensures another_moment { (woken 1071 (held_from 70 audited)).again ≡ Some 1070 }
    ensures not_held { (woken 1070 audited).again ≡ None }
{}

/// A command of the exchange's that was put off is sent again a second later. Its line is audited first where its hook was told; and at the
/// last time, or cleared. What an answer puts off is held, and no more comes of it.
pub fn what_comes_before_a_command_that_was_put_off()
    ensures second { routed_by 70 (Some (record { cause = Cause.Request; times = 1 })) audited ≡ held_from 70 audited }
    ensures connection { (routed_by 70 (Some (record { cause = Cause.Connection; times = 1 })) audited).again ≡ Some 1070 }
    ensures hook { routed_by 70 (Some (record { cause = Cause.Hook; times = 1 })) audited ≡ owed audited Audit }
    ensures hook_again { (routed_by 70 (Some (record { cause = Cause.Hook; times = 2 })) audited).again ≡ Some 1070 }
    ensures before_last { (routed_by 70 (Some (record { cause = Cause.Request; times = 29 })) audited).again ≡ Some 1070 }
    ensures last { routed_by 70 (Some (record { cause = Cause.Request; times = 30 })) audited ≡ owed audited Audit }
    ensures last_hook { routed_by 70 (Some (record { cause = Cause.Hook; times = 30 })) audited ≡ owed audited Audit }
    ensures last_connection { routed_by 70 (Some (record { cause = Cause.Connection; times = 30 })) audited ≡ owed audited Clear }
    ensures not_put_off { routed_by 70 None audited ≡ audited }
    ensures clearing_again { (text : _) → TakesResponse (Some Clear) 1 70 405 text creating (cleared ∷ cleared ∷ [])
        creating (cleared ∷ held_from 70 (record (owed cleared Clear) { put_off = 1 }) ∷ []) }
    ensures audited_again { (text : _) → TakesResponse (Some Audit) 1 70 400 text creating (cleared ∷ audited ∷ [])
        creating (cleared ∷ held_from 70 (record (owed audited Audit) { put_off = 1 }) ∷ []) }
    ensures routed_again { (text : _) → TakesResponse (Some Route) 1 70 409 text creating (cleared ∷ audited ∷ [])
        (answered creating 1 (Outcome.Answered 409)) (cleared ∷ held_from 70 audited ∷ []) }
    ensures routes { Routes (Outcome.Answered 409) 1 70 creating (cleared ∷ audited ∷ []) (answered creating 1 (Outcome.Answered 409))
        (cleared ∷ held_from 70 audited ∷ []) }
    ensures routes_given_up { Routes Outcome.GivenUp 1 70 creating (cleared ∷ audited ∷ []) (answered creating 1 Outcome.GivenUp)
        (cleared ∷ audited ∷ []) }
{}
