//! Worked examples, as theorems: worlds in which all holds that a law asks for. A world without room at its agent is too large for one:
//! the scenarios of `full_history.txt` play one.
#![tactic(auto, unfolding(crate::proofs::Computing::on_examples))]

ghost use Rattle.std.specs.Prelude.{◌≡◌, ◌+◌, ◌*◌, ◌++◌, [], ◌∷◌, map, true, false, None, Some};
ghost use Rattle.retransmission.specs.declared.restart.Restart.TheVariants.{Waiting};
ghost use Rattle.plain_machine.specs.Event.{tick};
ghost use Rattle.plain_machine.specs.Example.{naming_other, response, two_lines};
ghost use Rattle.plain_machine.specs.Machine.{serves};
ghost use Rattle.plain_machine.specs.Message.{Begun};
ghost use Rattle.agent_core.specs.World.{delivering, gateway_in, now_in, steps_are_taken, ticking, world_opening};
ghost use Rattle.world_laws.specs.Reached.{key_reached, taken_in};
ghost use Rattle.world_laws.specs.Example.{moments_in, world};
ghost use Rattle.world_laws.specs.Copies.{IsRun};
ghost use Rattle.world_laws.specs.DialledExample.{endpoint_then};
ghost use Rattle.world_laws.specs.DeliveryExample.{flying_after, lifted};
ghost use Rattle.world_laws.specs.Fairness.{GoesToAgent};
ghost use Rattle.world_laws.specs.OwnChances.{IsOfLine};
ghost use Rattle.outage_laws.specs.AfterOutage.{AgentHasRoomFrom, IsFairFrom, gap_of};
ghost use Rattle.outage_laws.specs.Alone.{HasBegun, HasResponse, IsSentAt};
ghost use Rattle.outage_laws.specs.Carrying.{IsCarriedBack};
ghost use Rattle.outage_laws.specs.Example.{all_lost, announcement, last_copy, moments_of, put_off, put_off_twice, saved, serving_late, unserved};

/// An announcement goes out again after 500 ms, unless a response to it came. A provisional one puts that off to 5,000 ms after the last of
/// them, and 521 that names another agent is announced at once.
pub fn an_announcement_goes_out_again()
    ensures begun { HasBegun two_lines (tick 1 ∷ []) 0 announcement }
    ensures of_no_line { ¬ HasBegun two_lines (tick 1 ∷ []) 1 announcement }
    ensures sent { IsSentAt two_lines (tick 1 ∷ []) 0 announcement.text 1 }
    ensures sent_again { IsSentAt two_lines (tick 1 ∷ tick 501 ∷ []) 0 announcement.text 501 }
    ensures not_yet { ¬ IsSentAt two_lines (tick 1 ∷ tick 500 ∷ []) 0 announcement.text 501 }
    ensures of_another { ¬ IsSentAt two_lines (tick 1 ∷ tick 501 ∷ []) 1 announcement.text 501 }
    ensures none_came { ¬ HasResponse (tick 1 ∷ tick 501 ∷ []) 1 }
    ensures came { HasResponse put_off 1 }
    ensures another_came { ¬ HasResponse (tick 1 ∷ response 100 2 ∷ []) 1 }
    ensures eight { moments_of 0 (tick 1 ∷ tick 24000 ∷ []) ≡ 1 ∷ 501 ∷ 1501 ∷ 3501 ∷ 7501 ∷ 11501 ∷ 15501 ∷ 19501 ∷ 23502 ∷ [] }
    ensures provisional { moments_of 0 (put_off ++ tick 5001 ∷ []) ≡ 1 ∷ 5001 ∷ [] }
    ensures put_off_more { moments_of 0 (put_off_twice ++ tick 7001 ∷ []) ≡ 1 ∷ 7001 ∷ [] }
    ensures of_an_other_id { moments_of 0 (tick 1 ∷ response 100 2 ∷ tick 501 ∷ []) ≡ 1 ∷ 501 ∷ [] }
    ensures answered { moments_of 0 (tick 1 ∷ response 200 1 ∷ tick 501 ∷ []) ≡ 1 ∷ [] }
    ensures redirected { moments_of 0 (tick 1 ∷ tick 2 ∷ naming_other 521 1 ∷ []) ≡ 1 ∷ 2 ∷ [] }
{}

/// Of eight copies the last is enough, where it is handed over, and its answer is. Where none is the line gives its notification up.
pub fn the_last_copy_of_a_notification_is_enough()
    ensures moments { moments_in last_copy ≡ 1 ∷ 1 ∷ 1 ∷ 501 ∷ 1501 ∷ 3501 ∷ 7501 ∷ 11501 ∷ 15501 ∷ 19501 ∷ [] }
    ensures run { IsRun two_lines saved }
    ensures carried { IsCarriedBack two_lines saved lifted 9 }
    ensures taken { map key_reached (taken_in (world saved)) ≡ (1, 1) ∷ (10000000, 20001) ∷ [] }
    ensures over { flying_after saved ≡ None }
    ensures not_back { flying_after (last_copy ++ delivering 9 ∷ ticking 21001 ∷ []) ≡ Some 10000000 }
    ensures lost { steps_are_taken two_lines world_opening all_lost ≡ true }
    ensures not_taken { map key_reached (taken_in (world all_lost)) ≡ (1, 1) ∷ [] }
    ensures given_up { (endpoint_then all_lost).post.restart ≡ Waiting 28501 }
{}

/// The eight sends of the gateway's announcement, from 1 on, are lost, and the network is there again 1 ms behind the last; the gateway
/// gives it up, and announces itself anew 1 ms later. It serves 4,000 ms, that wait and twice 300 ms behind that, and no sooner.
pub fn a_gateway_that_gave_up_serves_at_last()
    ensures run { IsRun two_lines serving_late }
    ensures fair { IsFairFrom two_lines serving_late 19502 300 }
    ensures fair_not_before { ¬ IsFairFrom two_lines serving_late 19501 300 }
    ensures room { AgentHasRoomFrom two_lines serving_late 19502 }
    ensures moments { moments_in unserved ≡ 1 ∷ 501 ∷ 1501 ∷ 3501 ∷ 7501 ∷ 11501 ∷ 15501 ∷ 19501 ∷ 23502 ∷ 23802 ∷ 24002 ∷ [] }
    ensures goes { (b : Begun) → IsOfLine two_lines (world serving_late) 0 b → GoesToAgent two_lines (world serving_late) b.text }
    ensures late { 19502 + gap_of 300 + two_lines.restart_wait + 2 * 300 ≡ now_in two_lines (world serving_late) + 1 }
    ensures not_yet { serves (gateway_in two_lines (world unserved)).endpoints ≡ false }
    ensures serving { serves (gateway_in two_lines (world serving_late)).endpoints ≡ true }
{}
