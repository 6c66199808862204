//! Commands of an agent at their edges, as theorems: what can be issued, when commands fall due, and what a response is
//! where several are in flight.
#![tactic(auto, unfolding(crate::proofs::Computing::on_examples))]

ghost use Rattle.std.specs.Prelude.{◌≡◌, ◌++◌, codes, [], ◌∷◌, None, Some, map, replicate};
ghost use Rattle.plain_machine.specs.Event.{tick};
ghost use Rattle.plain_machine.specs.Example.{two_lines, other_agent};
ghost use Rattle.transmission.specs.Transacting.{message_to};
ghost use Rattle.call_agent.specs.declared.issuing.IssueFault.TheVariants as faults;
ghost use Rattle.call_agent.specs.Agent.{answer_for};
ghost use Rattle.call_agent.specs.Issuing.{bad_command, issue_fault_number};
ghost use Rattle.call_agent.specs.Flying.{pass};
ghost use Rattle.call_agent.specs.Hearing.{issues, hears, as_issue};
ghost use Rattle.call_agent.specs.State.{answer_in};
ghost use Rattle.agent_core.specs.World.{gateway_address};
ghost use Rattle.world_laws.specs.Example.{audit_by_agent, agent_refuses, agent_sends, agent_posts, agent_then, seconds_of_agent, from_gateway, from_elsewhere};

/// A command of 4,000 bytes is issued, and no longer one.
pub fn a_command_has_room_in_a_datagram()
    ensures longest { agent_refuses 1 [] (issues (codes "AUEP") (codes "aaln/1@rgw.example.net") (replicate 3960 10)) ≡ None }
    ensures too_long { agent_refuses 1 [] (issues (codes "AUEP") (codes "aaln/1@rgw.example.net") (replicate 3961 10))
        ≡ Some (as_issue bad_command) }
{}

/// Each sentence at an example.
pub fn each_sentence_has_an_example()
    // What is read under another id, or of another endpoint, isn't issued.
    ensures other_id { agent_refuses 1 [] (issues (codes "AUEP 77 a@b MGCP 1.0") (codes "a@b") []) ≡ Some (as_issue bad_command) }
    ensures its_id { agent_refuses 77 [] (issues (codes "AUEP 77 a@b MGCP 1.0") (codes "a@b") []) ≡ None }
    ensures other_name { agent_refuses 77 [] (issues (codes "AUEP 77 c@b MGCP 1.0") (codes "a@b") []) ≡ Some (as_issue bad_command) }
    ensures more_than_a_name { agent_refuses 1 [] (issues (codes "AUEP") (codes "a@b MGCP 1.0") []) ≡ Some (as_issue bad_command) }
    ensures blank { agent_refuses 1 [] (issues (codes "AUEP") (codes " a@b") []) ≡ Some (as_issue bad_command) }
    // Faults of issuing have the numbers 1 to 3.
    ensures memory { issue_fault_number faults.OutOfMemory ≡ 1 }
    ensures ids { issue_fault_number faults.NoMoreIds ≡ 2 }
    ensures command { issue_fault_number faults.BadCommand ≡ 3 }
    // A command goes to the gateway at the agent's moment, with all that stands behind its line, and its repeats go there too.
    ensures first { agent_posts (hears (tick 7) ∷ []) audit_by_agent
        ≡ message_to (gateway_address two_lines) 7 (codes "AUEP 1 aaln/1@rgw.example.net MGCP 1.0\r\n") ∷ [] }
    ensures early { agent_posts (hears (tick 7) ∷ audit_by_agent ∷ []) (hears (tick 506)) ≡ [] }
    ensures repeat { agent_posts (hears (tick 7) ∷ audit_by_agent ∷ []) (hears (tick 507))
        ≡ message_to (gateway_address two_lines) 507 (codes "AUEP 1 aaln/1@rgw.example.net MGCP 1.0\r\n") ∷ [] }
    ensures rest { agent_sends [] (issues (codes "RQNT") (codes "a@b") (codes "X: 1\nR:\r\n"))
        ≡ (0, codes "RQNT 1 a@b MGCP 1.0\r\nX: 1\nR:\r\n") ∷ [] }
    // All that falls due up to a moment happens: of a command seven repeats, each at its own moment, and its end.
    ensures repeats { map (λ out. out.moment) (pass (agent_then (audit_by_agent ∷ [])).flights 23500).sent
        ≡ 500 ∷ 1500 ∷ 3500 ∷ 7500 ∷ 11500 ∷ 15500 ∷ 19500 ∷ [] }
    ensures end { (pass (agent_then (audit_by_agent ∷ [])).flights 23500).flights ≡ [] }
    ensures before_the_end { map (λ flight. flight.id) (pass (agent_then (audit_by_agent ∷ [])).flights 23499).flights ≡ 1 ∷ [] }
    ensures both_end { (pass (agent_then (audit_by_agent ∷ audit_by_agent ∷ [])).flights 23500).flights ≡ [] }
    // A command goes out again less than 20,000 ms after its first send, and then is given up, also where it was put off.
    ensures in_time { map (λ out. out.moment) (pass (agent_then (audit_by_agent ∷ seconds_of_agent 14 ++ hears (tick 14999)
        ∷ from_gateway (codes "100 1 wait\r\n") ∷ [])).flights 19999).sent ≡ 19999 ∷ [] }
    ensures too_late { (pass (agent_then (audit_by_agent ∷ seconds_of_agent 15
        ++ from_gateway (codes "100 1 wait\r\n") ∷ [])).flights 20000).sent ≡ [] }
    ensures given_up { (pass (agent_then (audit_by_agent ∷ seconds_of_agent 15
        ++ from_gateway (codes "100 1 wait\r\n") ∷ [])).flights 20000).flights ≡ [] }
    // What falls due first happens first; of two commands at one moment that with the less id, whichever was put off first.
    ensures earlier { agent_sends (audit_by_agent ∷ hears (tick 600) ∷ audit_by_agent ∷ []) (hears (tick 1600))
        ≡ (1100, codes "AUEP 2 aaln/1@rgw.example.net MGCP 1.0\r\n") ∷ (1500, codes "AUEP 1 aaln/1@rgw.example.net MGCP 1.0\r\n") ∷ [] }
    ensures commands_fall_due_in_their_order_put_off { agent_sends (audit_by_agent ∷ audit_by_agent ∷ from_gateway (codes "100 2 wait\r\n")
        ∷ from_gateway (codes "100 1 wait\r\n")
        ∷ seconds_of_agent 4) (hears (tick 5000))
        ≡ (5000, codes "AUEP 1 aaln/1@rgw.example.net MGCP 1.0\r\n") ∷ (5000, codes "AUEP 2 aaln/1@rgw.example.net MGCP 1.0\r\n") ∷ [] }
    // A response is for the command with its id, from wherever it comes; one below 100 is for none.
    ensures lands { map (λ flight. flight.id) (agent_then (audit_by_agent ∷ audit_by_agent ∷ audit_by_agent
        ∷ from_gateway (codes "200 2 OK\r\n") ∷ [])).flights
        ≡ 1 ∷ 3 ∷ [] }
    ensures in_turn { map (λ answer. answer.id) (agent_then (audit_by_agent ∷ audit_by_agent ∷ from_gateway (codes "200 2 OK\r\n")
        ∷ from_gateway (codes "500 1\r\n") ∷ [])).answers ≡ 2 ∷ 1 ∷ [] }
    ensures a_response_is_for_its_command_put_off { map (λ flight. flight.due) (agent_then (audit_by_agent ∷ audit_by_agent
        ∷ from_gateway (codes "100 2 wait\r\n") ∷ [])).flights
        ≡ 500 ∷ 5000 ∷ [] }
    ensures elsewhere { answer_for 1 (agent_then (audit_by_agent ∷ from_elsewhere (codes "200 1 OK\r\n") ∷ []))
        ≡ Some (record { id = 1; code = 200; text = codes "200 1 OK\r\n" }) }
    ensures below { map (λ flight. flight.due) (agent_then (audit_by_agent ∷ from_gateway (codes "099 1 x\r\n") ∷ [])).flights ≡ 500 ∷ [] }
    ensures no_answer { answer_for 1 (agent_then (audit_by_agent ∷ from_gateway (codes "099 1 x\r\n") ∷ [])) ≡ None }
    ensures without_its_id { answer_in (record { id = 1; code = 200; text = codes "200 1\n" })
        ≡ record { code = 200; text = codes "200 1\n" } }
    // An acknowledgement goes to where its response came from, at the agent's moment.
    ensures an_acknowledgement_goes_back { agent_posts (hears (tick 7) ∷ []) (from_elsewhere (codes "200 0005 OK\r\nK:\r\n"))
        ≡ message_to other_agent 7 (codes "000 5\r\n") ∷ [] }
{}
