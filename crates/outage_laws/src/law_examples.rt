//! Worked examples, as theorems: for each law that asks for something, a gateway, a world or lives that meet all of it at once, where
//! `examples`, `line_examples` and `life_examples` don't have it all.
#![tactic(auto, unfolding(crate::proofs::Computing::on_examples))]

ghost use Rattle.std.specs.Prelude.{◌≡◌, ◌≢◌, ◌≤◌, ◌<◌, ◌+◌, ◌*◌, ◌++◌, ◌∷◌, [], ℕ, All, AllPairs, Any, length, slice_get, true, Some};
ghost use Rattle.transmission.specs.Arrival.{Arrival};
ghost use Rattle.transmission.specs.HistoryExample.{comes};
ghost use Rattle.transmission.specs.Firsts.{young_of};
ghost use Rattle.transmission.specs.Memory.{memory_time};
ghost use Rattle.retransmission.specs.Sends.{most_repeats};
ghost use Rattle.plain_machine.specs.Event.{tick};
ghost use Rattle.plain_machine.specs.Example.{lifted_again, two_lines};
ghost use Rattle.plain_machine.specs.Lists.{are_taken, plain};
ghost use Rattle.plain_machine.specs.Machine.{endpoint_at, opening};
ghost use Rattle.plain_machine.specs.Setup.{IsSetUp};
ghost use Rattle.agent_core.specs.declared.packet.End.TheVariants.{AgentEnd, GatewayEnd};
ghost use Rattle.agent_core.specs.World.{gateway_in, now_in, oldest_packet};
ghost use Rattle.world_laws.specs.Chances.{chances, last_chance};
ghost use Rattle.world_laws.specs.Copies.{IsCopy, answer_wait};
ghost use Rattle.world_laws.specs.DeliveryExample.{lifted, notification, redirected, took_first};
ghost use Rattle.world_laws.specs.DialledExample.{endpoint_then};
ghost use Rattle.world_laws.specs.Example.{world};
ghost use Rattle.world_laws.specs.Fairness.{GoesToAgent};
ghost use Rattle.world_laws.specs.LawExample.{first_seven, line_after};
ghost use Rattle.world_laws.specs.OwnChances.{IsOfLine};
ghost use Rattle.outage_laws.specs.AfterOutage.{ReachTheAgentSince, longest_pause};
ghost use Rattle.outage_laws.specs.Alone.{HasBegun};
ghost use Rattle.outage_laws.specs.Apart.{AllHaveNumbersLeft, IsByTime, KeepsPace, LieApart, StartsByTime, StartsLater};
ghost use Rattle.outage_laws.specs.Carrying.{IsCarriedBack};
ghost use Rattle.outage_laws.specs.Lives.{Letter, lives_are_taken, lives_of, lives_opening, number_of};
ghost use Rattle.outage_laws.specs.Example.{announcement, asked_again, connected_in_step, connected_late, saved, serving_late};
ghost use Rattle.outage_laws.specs.LifeExample.{lives};
ghost use Rattle.outage_laws.specs.LawExample.{at_start, announced_anew, announced_flight, answered_late, by_the_day, lifted_alone, lifted_later, line_announced, two_came};

/// What laws ask of a gateway alone is met where line 1 is lifted, and where the gateway announced itself; of firsts, where two came.
pub fn what_is_asked_of_a_gateway_has_examples()
    // a_command_of_its_own_is_sent_eight_times
    ensures begun { HasBegun two_lines lifted_alone 1 lifted_later }
    ensures line { endpoint_at (plain two_lines lifted_alone).endpoints 1 ≡ Some (line_after lifted_alone) }
    ensures flies { (line_after lifted_alone).post.pending ≡ Some (lifted_again 0 1500) }
    ensures own_flies { (plain two_lines (tick 1 ∷ [])).endpoints.own.pending ≡ Some announced_flight }
    ensures taken { are_taken two_lines (opening two_lines) lifted_alone ≡ true }
    // a_full_history_takes_a_command_again
    ensures young { Any (λ (one : Arrival). one ≡ comes 1 5 65) (young_of 10 two_came) }
    ensures old { 5 + memory_time ≤ 30005 }
    ensures came { All (λ (first : Arrival). first.moment ≤ 10) two_came }
    ensures all_old { 10 + memory_time ≤ 30010 }
{}

/// What laws ask of an outage is met by the worlds of `a_gateway_that_gave_up_serves_at_last` and of
/// `a_line_that_gave_up_has_its_agent_at_last`, and what they ask of a quarantine by that of `what_was_dialled_is_out_after_an_outage`: in
/// these the network is fair, and room never wanting.
pub fn what_is_asked_of_an_outage_has_examples()
    // what_is_in_flight_is_taken_after_an_outage
    ensures of_line { IsOfLine two_lines (world connected_late) 1 line_announced }
    ensures sent_since { 19502 ≤ line_announced.moment + last_chance }
    ensures by_then { line_announced.moment + 2 * 300 ≤ now_in two_lines (world connected_late) }
    ensures paused { 19502 + longest_pause + 2 * 300 ≤ now_in two_lines (world connected_late) + 1 }
    ensures of_gateway { IsOfLine two_lines (world serving_late) 0 announced_anew }
    ensures own_since { 19502 ≤ announced_anew.moment + last_chance }
    ensures own_by_then { announced_anew.moment + 2 * 300 ≤ now_in two_lines (world serving_late) }
    ensures own_paused { 19502 + longest_pause + 2 * 300 ≤ now_in two_lines (world serving_late) + 1 }
    // a_gateway_serves_after_an_outage, a_line_has_its_agent_again_after_an_outage: after any of the sends, here the last
    ensures chance { Any (λ (one : ℕ). one ≡ last_chance) chances }
    ensures in_time { last_chance + 2 * 300 < answer_wait }
    ensures serves_late { 19502 + answer_wait + two_lines.restart_wait + 2 * 300 ≤ now_in two_lines (world serving_late) + 1 + last_chance }
    ensures connects_late { 19502 + answer_wait + two_lines.disconnected_wait + 2 * 300
        ≤ now_in two_lines (world connected_late) + 1 + last_chance }
    ensures lasts { 300 ≤ oldest_packet }
    ensures reaches { ReachTheAgentSince two_lines (world connected_late) 1 19502 }
    ensures line { endpoint_at (gateway_in two_lines (world connected_late)).endpoints 1 ≡ Some (endpoint_then connected_late) }
    // a_quarantine_is_out_after_an_outage, all_is_well_after_an_outage
    ensures was { endpoint_at (plain two_lines (took_first connected_in_step)).endpoints 1 ≡ Some (endpoint_then connected_in_step) }
    ensures is { endpoint_at (gateway_in two_lines (world asked_again)).endpoints 1 ≡ Some (endpoint_then asked_again) }
    ensures held { length (endpoint_then connected_in_step).line.quarantined.events ≡ 2 }
{}

/// Of what a line began that counts alone whose last send isn't before a moment.
pub fn commands_reach_the_agent_since_a_moment()
    ensures reach_not { ¬ ReachTheAgentSince two_lines (world redirected) 1 19501 }
    ensures reach { ReachTheAgentSince two_lines (world redirected) 1 19502 }
    ensures of_another { ReachTheAgentSince two_lines (world redirected) 2 0 }
{}

/// What `one_copy_of_eight_of_its_own_is_enough` asks for is met by a notification of which the last copy alone is handed over, and by the
/// gateway's announcement, which is at once.
pub fn what_is_asked_of_copies_has_examples()
    ensures of_line { IsOfLine two_lines (world saved) 1 lifted }
    ensures goes { GoesToAgent two_lines (world saved) notification }
    ensures late { lifted.moment + last_chance ≤ now_in two_lines (world saved) }
    ensures few { length first_seven ≤ most_repeats }
    ensures carried { (number : ℕ) → IsCopy two_lines (world saved) GatewayEnd lifted.text number → ¬ Any (λ (n : ℕ). n
        ≡ number) first_seven →
        IsCarriedBack two_lines saved lifted number }
    ensures of_gateway { IsOfLine two_lines (world saved) 0 announcement }
    ensures own_late { announcement.moment + last_chance ≤ now_in two_lines (world saved) }
    ensures own_carried { (number : ℕ) → IsCopy two_lines (world saved) GatewayEnd announcement.text number → ¬ Any (λ (n : ℕ). n
        ≡ number) [] →
        IsCarriedBack two_lines saved announcement number }
{}

/// What laws ask of lives is met by two, the second of which starts 1,001 ms behind the first, with the number of that moment.
pub fn what_is_asked_of_lives_has_examples()
    // each_life_is_heard_once, no_life_is_taken_for_another
    ensures set_up { IsSetUp two_lines }
    ensures taken { lives_are_taken two_lines (lives_opening two_lines) by_the_day ≡ true }
    ensures left { AllHaveNumbersLeft (lives_of (lives by_the_day)) }
    ensures apart { LieApart (lives_of (lives by_the_day)) }
    ensures taken_on { lives_are_taken two_lines (lives_opening two_lines) answered_late ≡ true }
    ensures apart_then { LieApart (lives_of (lives answered_late)) }
    ensures answer { (letter : Letter) × (slice_get (lives by_the_day).letters 3 ≡ Some letter) × (letter.post.end ≡ AgentEnd)
        × (letter.life ≢ number_of (lives by_the_day)) }
    // lives_by_the_time_of_day_lie_apart, lives_that_keep_pace_follow_the_time_of_day
    ensures by_time { All (IsByTime 0 at_start) (lives_of (lives by_the_day)) }
    ensures starts { AllPairs (StartsLater 0 at_start) (lives_of (lives by_the_day)) }
    ensures starts_by_time { All (StartsByTime 0 at_start) (lives_of (lives by_the_day)) }
    ensures paced { All (KeepsPace 0 at_start) (lives_of (lives by_the_day)) }
{}
