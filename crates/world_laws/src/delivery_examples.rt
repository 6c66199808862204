//! Worked examples, as theorems: worlds in which all holds that a law asks for. A world without room at an end is too large for one: the
//! scenarios of `full_history.txt` play one for each end.
#![tactic(auto, unfolding(crate::proofs::Computing::on_examples))]

ghost use Rattle.std.specs.Prelude.{◌≡◌, ◌+◌, ◌++◌, codes, [], ◌∷◌, map, true, false, None, Some};
ghost use Rattle.plain_machine.specs.Example.{ready, response, two_lines};
ghost use Rattle.agent_core.specs.World.{delivering, now_in, steps_are_taken, ticking, world_opening};
ghost use Rattle.world_laws.specs.Reached.{key_reached, own_in, taken_in};
ghost use Rattle.world_laws.specs.Example.{world, moments_in, code_in, announced};
ghost use Rattle.mg_bytes.specs.declared.letter.Letter.TheVariants.{Timer};
ghost use Rattle.packages.specs.declared.event.LineEvent.TheVariants as events;
ghost use Rattle.packages.specs.declared.signal.Signal.TheVariants.{Ringing};
ghost use Rattle.packages.specs.declared.observed.Observed.TheVariants.{Happened, Ended};
ghost use Rattle.plain_machine.specs.Event.{tick};
ghost use Rattle.plain_machine.specs.Lists.{plain};
ghost use Rattle.world_laws.specs.OnceExample.{five, left_then as left_at, six};
ghost use Rattle.machine_laws.specs.Belonging.{of_line};
ghost use Rattle.world_laws.specs.DialledExample.{taken};
ghost use Rattle.world_laws.specs.Chances.{IsCarried};
ghost use Rattle.world_laws.specs.OwnChances.{HasCome, IsOfLine, IsToldAfter};
ghost use Rattle.world_laws.specs.Fairness.{AlwaysHasRoom, GoesToAgent, IsFair, ReachTheAgent};
ghost use Rattle.world_laws.specs.Rounds.{IsAnsweredWithin, IsAskedWithin, of_telephone, rounds_take};
ghost use Rattle.world_laws.specs.DeliveryExample.{audit, asked, answered, up_to, last_copy, lost, freed, held, in_step, took_first, unasked, brought, key_begun, lifted, notified, notification, redirected};

/// Where each packet is handed over at the moment at which it was sent the network is fair within 0 ms; where one isn't it is not. It
/// is fair within 1 ms as long as that isn't over, and then what was issued needn't be answered.
pub fn what_a_fair_network_is()
    ensures fair { IsFair two_lines answered 0 }
    ensures room { AlwaysHasRoom two_lines answered }
    ensures lost { ¬ IsFair two_lines (asked ++ delivering 2 ∷ []) 0 }
    ensures fair_yet { IsFair two_lines asked 1 }
    ensures not_yet { code_in 1 asked ≡ None }
{}

/// A command goes out eight times. The last copy and its answer are enough, where that comes less than 23,500 ms after the command
/// was issued at 1; at 23,500 ms it is given up. Seven that are lost are too many before the eighth goes out; and an answer comes too
/// late if the clock goes back, which no world takes.
pub fn the_last_copy_is_enough()
    ensures moments { moments_in (asked ++ up_to 20) ≡ 1 ∷ 1 ∷ 1 ∷ 501 ∷ 1501 ∷ 3501 ∷ 7501 ∷ 11501 ∷ 15501 ∷ 19501 ∷ [] }
    ensures taken { steps_are_taken two_lines world_opening (last_copy ++ ticking 23500 ∷ delivering 10 ∷ []) ≡ true }
    ensures soon { code_in 1 (last_copy ++ ticking 23500 ∷ delivering 10 ∷ []) ≡ Some 200 }
    ensures carried { IsCarried two_lines (last_copy ++ ticking 23500 ∷ delivering 10 ∷ []) audit 9 }
    ensures too_late { code_in 1 (last_copy ++ ticking 23501 ∷ delivering 10 ∷ []) ≡ None }
    ensures all_lost { code_in 1 (last_copy ++ ticking 23500 ∷ []) ≡ None }
    ensures seven_lost { code_in 1 (asked ++ up_to 19) ≡ None }
    ensures goes_back { now_in two_lines (world (last_copy ++ ticking 23501 ∷ ticking 23000 ∷ [])) ≡ 23000 }
    ensures not_taken { steps_are_taken two_lines world_opening
        (last_copy ++ ticking 23501 ∷ ticking 23000 ∷ delivering 10 ∷ []) ≡ false }
    ensures not_had { code_in 1 (last_copy ++ ticking 23501 ∷ ticking 23000 ∷ delivering 10 ∷ []) ≡ None }
{}

/// It is brought where the network is fair and where it goes to the agent; one that goes elsewhere needn't be, and then its line waits.
pub fn a_notification_is_brought()
    ensures own { map key_begun (own_in two_lines (world brought)) ≡ (1, 1) ∷ (10000000, 1) ∷ [] }
    ensures fair { IsFair two_lines brought 0 }
    ensures goes { GoesToAgent two_lines (world brought) notification }
    ensures took { map key_reached (taken_in (world brought)) ≡ (1, 1) ∷ (10000000, 1) ∷ [] }
    ensures goes_not { ¬ GoesToAgent two_lines (world redirected)
        (codes "NTFY 10000000 aaln/1@rgw.example.net MGCP 1.0\r\nX: A0\r\nO: L/hd\r\n") }
    ensures reaches_not { ¬ ReachTheAgent two_lines redirected 1 }
    ensures of_another { ReachTheAgent two_lines redirected 2 }
    ensures fair_too { IsFair two_lines (redirected ++ delivering 4 ∷ ticking 2 ∷ []) 0 }
    ensures took_too { took_first (redirected ++ delivering 4 ∷ ticking 2 ∷ []) ≡ took_first redirected ++ tick 2 ∷ [] }
    ensures not_answered { ¬ IsAnsweredWithin two_lines 1 (took_first redirected) (tick 2 ∷ []) 0 }
{}

/// It goes out again at its moments, but not once a response to it came.
pub fn a_notification_goes_out_again()
    ensures of_line { IsOfLine two_lines (world notified) 1 lifted }
    ensures told { IsToldAfter two_lines (world notified) lifted 0 }
    ensures not_told { ¬ IsToldAfter two_lines (world notified) lifted 500 }
    ensures none_told { ¬ IsToldAfter two_lines (world announced) lifted 0 }
    ensures again { moments_in (notified ++ up_to 2) ≡ 1 ∷ 1 ∷ 1 ∷ 501 ∷ 1501 ∷ [] }
    ensures not_yet { ¬ HasCome (world notified) 10000000 }
    ensures came { HasCome (world brought) 10000000 }
    ensures no_more { moments_in (brought ++ up_to 2) ≡ 1 ∷ 1 ∷ 1 ∷ 1 ∷ [] }
{}

/// What is quarantined goes out once the line is answered and asked, in either order, and one event at a time; in loop once it is
/// answered. Where it isn't answered, or in step isn't asked, it stays. A line that waits for both no longer than 0 ms has nothing
/// of it left after 0 ms. Before its gateway serves a line waits with nothing in flight.
pub fn what_is_quarantined_goes_out()
    ensures held { left_at held ≡ Some (five ∷ six ∷ []) }
    ensures unasked { left_at (held ++ response 200 10000000 ∷ tick 1500 ∷ []) ≡ Some (five ∷ six ∷ []) }
    ensures unanswered { left_at (held ++ in_step 8 ∷ tick 1001 ∷ []) ≡ Some (five ∷ six ∷ []) }
    ensures round { left_at (held ++ response 200 10000000 ∷ in_step 8 ∷ []) ≡ Some (six ∷ []) }
    ensures other_order { left_at (held ++ in_step 8 ∷ response 200 10000000 ∷ []) ≡ Some (six ∷ []) }
    ensures out { left_at (held ++ freed) ≡ Some [] }
    ensures answered_in_time { IsAnsweredWithin two_lines 1 (ready ++ held) freed 0 }
    ensures asked_in_time { IsAskedWithin two_lines 1 (ready ++ held) freed 0 }
    ensures begins { (plain two_lines (ready ++ held)).now ≡ 1000 }
    ensures ends { (plain two_lines (ready ++ (held ++ freed))).now ≡ 1001 }
    ensures not_answered { ¬ IsAnsweredWithin two_lines 1 (ready ++ held) (in_step 8 ∷ tick 1001 ∷ []) 0 }
    ensures not_serving { ¬ IsAnsweredWithin two_lines 1 [] [] 1000 }
    ensures not_asked { ¬ IsAskedWithin two_lines 1 (ready ++ held) (response 200 10000000 ∷ tick 1500 ∷ []) 499 }
    ensures most { rounds_take 256 1000 500 ≡ 384000 }
    ensures of_telephone { of_telephone (five ∷ Ended Ringing ∷ Happened (events.Letter Timer) ∷ []) ≡ five ∷ [] }
{}
