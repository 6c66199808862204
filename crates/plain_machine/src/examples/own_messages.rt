//! The message of the gateway itself that is in flight, as one of line 0 (RFC 3435, 3.2.1.2, 3.5 and 4.3), as theorems.
#![tactic(auto, unfolding(crate::proofs::Computing::on_examples))]

ghost use Rattle.std.specs.Prelude.{◌≡◌, ◌++◌, codes, [], ◌∷◌, option_map, true, false, None, Some};
ghost use Rattle.timers.specs.declared.kind.LineDue.TheVariants as ends;
ghost use Rattle.retransmission.specs.declared.restart.Restart.TheVariants.{Waiting, Announced};
ghost use Rattle.plain_machine.specs.Effect.{silently};
ghost use Rattle.plain_machine.specs.Event.{tick};
ghost use Rattle.plain_machine.specs.Message.{resent};
ghost use Rattle.plain_machine.specs.Machine.{opening_endpoints};
ghost use Rattle.plain_machine.specs.Falling.{due_at, first_due, due_by, happened, pass};
ghost use Rattle.plain_machine.specs.Refusing.{takes_none};
ghost use Rattle.plain_machine.specs.Lists.{sent_from};
ghost use Rattle.plain_machine.specs.Example.{example, agent_route, from_agent, from_other, to_agent_at, to_other_at, lifted, response, machine_at, machine_then, own_at, line_end, command_due, ending, announced, announcing, endpoints_announcing, announcing_machine, announcing_sends, announcing_then, own_then, ready_endpoints, lifted_again, announced_again};

/// Each sentence at an example.
pub fn each_sentence_has_an_example()
    // It is repeated at its moments, and given up, as a line's command is; the lines stay. It waits anew then, and goes out
    // under the next id.
    ensures sends { announcing_sends (tick 24500 ∷ [])
        ≡ to_agent_at 1500 announced ∷ to_agent_at 2500 announced ∷ to_agent_at 4500 announced
        ∷ to_agent_at 8500 announced ∷ to_agent_at 12500 announced ∷ to_agent_at 16500 announced
        ∷ to_agent_at 20500 announced ∷ [] }
    ensures before { announcing_sends (tick 1499 ∷ []) ≡ [] }
    ensures at { announcing_sends (tick 1499 ∷ tick 1500 ∷ tick 1500 ∷ []) ≡ to_agent_at 1500 announced ∷ [] }
    ensures message { sent_from example announcing_machine (tick 1500 ∷ []) ≡ own_at 0 1500 (resent (announced_again 0 1500)) ∷ [] }
    ensures repeated { own_then (tick 1500 ∷ []) ≡ record {
      entity = example.agent;
      number = 2;
      pending = Some (record { id = 1; route = agent_route; text = announced; first = 1000; repeats = 1; due = 2500 });
      restart = Announced;
    } }
    ensures an_own_message_is_repeated_and_given_up_lines { (announcing_then (tick 1500 ∷ [])).endpoints.list
        ≡ (opening_endpoints example).list }
    ensures still_in_flight { option_map (λ message. message.due) (own_then (tick 24499 ∷ [])).pending
        ≡ Some 24500 }
    ensures given_up { own_then (tick 24500 ∷ [])
        ≡ record (announcing None) { restart = Waiting 24501 } }
    ensures renewed { announcing_sends (tick 24499 ∷ tick 24500 ∷ tick 24501 ∷ [])
        ≡ to_agent_at 1500 announced ∷ to_agent_at 2500 announced ∷ to_agent_at 4500 announced
        ∷ to_agent_at 8500 announced ∷ to_agent_at 12500 announced ∷ to_agent_at 16500 announced
        ∷ to_agent_at 20500 announced
        ∷ to_agent_at 24501 (codes "RSIP 2 *@rgw.example.net MGCP 1.0\r\nRM: restart\r\n") ∷ [] }
    ensures without_lines { (pass example (endpoints_announcing []) 5000).sent ≡ own_at 0 5000 (resent (announced_again 0 5000)) ∷ [] }
    ensures memory { takes_none announcing_machine (tick 1500) ≡ false }
    ensures no_memory { takes_none announcing_machine (tick 1499) ≡ true }
    // At one moment it comes before all that falls due on lines; what is earlier comes before it. Of a line's own kinds
    // nothing falls due of the gateway itself.
    ensures timer { first_due (endpoints_announcing (ending (Some 5000) [] None ∷ [])) ≡ Some (command_due 5000 0) }
    ensures commands { first_due (endpoints_announcing (ending None [] (Some 5000) ∷ ending None [] (Some 5000) ∷ []))
        ≡ Some (command_due 5000 0) }
    ensures later { first_due (endpoints_announcing (ending None [] (Some 5001) ∷ [])) ≡ Some (command_due 5000 0) }
    ensures earlier { first_due (endpoints_announcing (ending (Some 5000) [] None ∷ ending (Some 4999) [] None ∷ []))
        ≡ Some (line_end 4999 2 ends.DigitTimer) }
    ensures alone { first_due (endpoints_announcing []) ≡ Some (command_due 5000 0) }
    ensures by { due_by (endpoints_announcing []) 5000 ≡ Some (command_due 5000 0) }
    ensures not_yet { due_by (endpoints_announcing []) 4999 ≡ None }
    ensures on_line_0 { due_at (endpoints_announcing (ending None [] (Some 4000) ∷ [])) 0 ≡ Some (command_due 5000 0) }
    ensures on_line_1 { due_at (endpoints_announcing (ending None [] (Some 4000) ∷ [])) 1 ≡ Some (command_due 4000 1) }
    ensures goes_first { (pass example (endpoints_announcing (ending None [] (Some 5000) ∷ [])) 5000).sent
        ≡ own_at 0 5000 (resent (announced_again 0 5000)) ∷ own_at 1 5000 (resent (lifted_again 0 5000)) ∷ [] }
    ensures in_its_place { (pass example (endpoints_announcing (ending None [] (Some 4900) ∷ [])) 5000).sent
        ≡ own_at 1 4900 (resent (lifted_again 0 4900)) ∷ own_at 0 5000 (resent (announced_again 0 5000)) ∷ [] }
    ensures no_timer { happened example (endpoints_announcing []) (line_end 5000 0 ends.DigitTimer)
        ≡ silently (endpoints_announcing []) }
    ensures idle { happened example (ready_endpoints example) (command_due 5000 0)
        ≡ silently (ready_endpoints example) }
    // A provisional response puts off what is due to 5,000 ms after it; the waits after that go on by the number of
    // repeats.
    ensures due { own_then (tick 1200 ∷ response 100 1 ∷ []) ≡ announcing (Some 6200) }
    ensures repeats { announcing_sends (tick 1200 ∷ response 100 1 ∷ tick 6199 ∷ tick 7200 ∷ [])
        ≡ to_agent_at 6200 announced ∷ to_agent_at 7200 announced ∷ [] }
    ensures then_answered { announcing_sends (response 100 1 ∷ response 200 1 ∷ tick 60000 ∷ []) ≡ [] }
    ensures an_own_message_is_put_off_lines { (announcing_then (tick 1200 ∷ response 100 1 ∷ [])).endpoints.list
        ≡ (opening_endpoints example).list }
{}

/// It is answered by its id and by no other, whoever responds; nothing is repeated after that.
pub fn an_own_message_is_answered_by_its_id()
    ensures flight { own_then (response 200 1 ∷ []) ≡ announcing None }
    ensures error { own_then (response 400 1 ∷ []) ≡ announcing None }
    ensures from_elsewhere { own_then (from_other (codes "200 1 OK\r\n") ∷ []) ≡ announcing None }
    ensures nothing_after { announcing_sends (response 200 1 ∷ tick 60000 ∷ []) ≡ [] }
    ensures after_repeats { announcing_sends (tick 1500 ∷ response 200 1 ∷ tick 60000 ∷ [])
        ≡ to_agent_at 1500 announced ∷ [] }
    ensures other_id { announcing_then (response 200 2 ∷ []) ≡ announcing_machine }
    ensures greatest_id { announcing_then (response 200 9999999 ∷ []) ≡ announcing_machine }
    ensures code_99 { announcing_then (from_agent (codes "099 1\r\n") ∷ []) ≡ announcing_machine }
    ensures of_a_line { announcing_then (response 200 10000000 ∷ []) ≡ announcing_machine }
    ensures nothing_in_flight { machine_then (response 200 1 ∷ []) ≡ machine_at 1000 }
    ensures given_up { own_then (tick 24500 ∷ response 200 1 ∷ [])
        ≡ record (announcing None) { restart = Waiting 24501 } }
    ensures acknowledged { announcing_sends (tick 1200 ∷ from_other (codes "200 1 OK\r\nK:\r\n") ∷ [])
        ≡ to_other_at 1200 (codes "000 1\r\n") ∷ [] }
{}
