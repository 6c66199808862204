//! Worked examples of the laws of a line after an outage: worlds in which each premise holds, and the bound is met.
#![tactic(auto, unfolding(crate::proofs::Computing::on_examples))]

ghost use Rattle.std.specs.Prelude.{◌≡◌, ◌+◌, ◌*◌, ◌++◌, ℕ, [], ◌∷◌, true};
ghost use Rattle.retransmission.specs.declared.restart.Restart.TheVariants.{Announced, Serving};
ghost use Rattle.plain_machine.specs.Example.{two_lines};
ghost use Rattle.plain_machine.specs.Lists.{plain};
ghost use Rattle.plain_machine.specs.Machine.{serves};
ghost use Rattle.plain_machine.specs.Message.{Begun};
ghost use Rattle.agent_core.specs.World.{now_in};
ghost use Rattle.world_laws.specs.Example.{moments_in, world};
ghost use Rattle.world_laws.specs.Copies.{IsRun};
ghost use Rattle.world_laws.specs.Course.{course_from};
ghost use Rattle.world_laws.specs.Dialled.{done_in};
ghost use Rattle.world_laws.specs.DialledExample.{endpoint_then};
ghost use Rattle.world_laws.specs.DeliveryExample.{took_between, took_first};
ghost use Rattle.world_laws.specs.Fairness.{GoesToAgent};
ghost use Rattle.world_laws.specs.OnceExample.{five, six};
ghost use Rattle.world_laws.specs.OwnChances.{IsOfLine};
ghost use Rattle.world_laws.specs.Rounds.{IsAskedWithin, of_telephone, rounds_take};
ghost use Rattle.outage_laws.specs.AfterOutage.{AgentHasRoomFrom, IsFairFrom, gap_of, IsWell, well_by};
ghost use Rattle.outage_laws.specs.Example.{asked_again, asked_once, connected_in_step, connected_late, unconnected, another_lifted};

/// The eight sends of a notification, from 1 on, are lost, and the network is there again 1 ms behind the last; the line gives it up, and
/// announces itself 5,000 ms later. It is answered 4,000 ms, that wait and twice 300 ms behind that, and no sooner.
pub fn a_line_that_gave_up_has_its_agent_at_last()
    ensures run { IsRun two_lines connected_late }
    ensures fair { IsFairFrom two_lines connected_late 19502 300 }
    ensures fair_not_before { ¬ IsFairFrom two_lines connected_late 19501 300 }
    ensures room { AgentHasRoomFrom two_lines connected_late 19502 }
    ensures goes { (line : ℕ) (b : Begun) → IsOfLine two_lines (world connected_late) line b →
        GoesToAgent two_lines (world connected_late) b.text }
    ensures moments { moments_in unconnected ≡ 1 ∷ 1 ∷ 1 ∷ 501 ∷ 1501 ∷ 3501 ∷ 7501 ∷ 11501 ∷ 15501 ∷ 19501 ∷ 28501 ∷ 28801 ∷ 29001 ∷ [] }
    ensures late { 19502 + gap_of 300 + two_lines.disconnected_wait + 2 * 300 ≡ now_in two_lines (world connected_late) + 1 }
    ensures not_yet { (endpoint_then unconnected).post.restart ≡ Announced }
    ensures connected { (endpoint_then connected_late).post.restart ≡ Serving }
{}

/// Two events are quarantined when the line has its agent again, a packet takes 100 ms, and each request comes 100 ms behind an answer:
/// after twice 300 ms nothing is quarantined; before the second request one event is.
pub fn what_was_dialled_is_out_after_an_outage()
    ensures run { IsRun two_lines asked_again }
    ensures fair { IsFairFrom two_lines asked_again 19502 100 }
    ensures fair_not_before { ¬ IsFairFrom two_lines asked_again 19501 100 }
    ensures room { AgentHasRoomFrom two_lines asked_again 19502 }
    ensures goes { (line : ℕ) (b : Begun) → IsOfLine two_lines (world asked_again) line b →
        GoesToAgent two_lines (world asked_again) b.text }
    ensures split { (world asked_again).gateway_took ≡ took_first connected_in_step ++ took_between connected_in_step asked_again }
    ensures serving { serves (plain two_lines (took_first connected_in_step)).endpoints ≡ true }
    ensures held { of_telephone (endpoint_then connected_in_step).line.quarantined.events ≡ five ∷ six ∷ [] }
    ensures late { 19502 + gap_of 100 + two_lines.disconnected_wait + 2 * 100 ≡ (plain two_lines (took_first connected_in_step)).now }
    ensures asked { IsAskedWithin two_lines 1 (took_first connected_in_step) (took_between connected_in_step asked_again) 100 }
    ensures over { (plain two_lines (took_first connected_in_step)).now + rounds_take 2 (2 * 100) 100 + 1
        ≡ now_in two_lines (world asked_again) }
    ensures rests { done_in (course_from two_lines (plain two_lines (took_first connected_in_step)) 1
        (took_between connected_in_step asked_again)) ≡ [] }
    ensures one_left { of_telephone (endpoint_then asked_once).line.quarantined.events ≡ six ∷ [] }
    ensures none_left { of_telephone (endpoint_then asked_again).line.quarantined.events ≡ [] }
{}

/// The eight sends of the notification of line 1 are lost, and the network is there again 1 ms behind the last: all is well by that line's
/// wait, though line 2 began a notification just now; and what was dialled meanwhile is out two rounds later.
pub fn all_is_well_by_then()
    ensures by { well_by two_lines 19502 300 ≡ 29102 }
    ensures by_a_slower { well_by two_lines 19502 2000 ≡ 36502 }
    ensures run { IsRun two_lines another_lifted }
    ensures fair { IsFairFrom two_lines another_lifted 19502 300 }
    ensures room { AgentHasRoomFrom two_lines another_lifted 19502 }
    ensures goes { (line : ℕ) (b : Begun) → IsOfLine two_lines (world another_lifted) line b →
        GoesToAgent two_lines (world another_lifted) b.text }
    ensures late { well_by two_lines 19502 300 ≡ now_in two_lines (world another_lifted) + 1 }
    ensures well { IsWell two_lines (world another_lifted) 19502 300 }
    ensures goes_on { (line : ℕ) (b : Begun) → IsOfLine two_lines (world asked_again) line b →
        GoesToAgent two_lines (world asked_again) b.text }
    ensures late_then { well_by two_lines 19502 100 ≡ (plain two_lines (took_first connected_in_step)).now }
{}
