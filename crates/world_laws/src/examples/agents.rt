//! Agents at work, as theorems.
#![tactic(auto, unfolding(crate::proofs::Computing::on_examples))]

ghost use Rattle.std.specs.Prelude.{◌≡◌, ◌++◌, true, false, codes, replicate, [], ◌∷◌, None, Some, map};
ghost use Rattle.packages.specs.declared.event.LineEvent.TheVariants as events;
ghost use Rattle.mg_line.specs.declared.phone.Act.TheVariants as acts;
ghost use Rattle.packages.specs.declared.observed.Observed.TheVariants.{Happened};
ghost use Rattle.machine_rules.specs.declared.refusal.Refusal.TheVariants as refusals;
ghost use Rattle.plain_machine.specs.Event.{datagram, phone, tick};
ghost use Rattle.plain_machine.specs.Example.{other_agent};
ghost use Rattle.call_agent.specs.Agent.{answer_for, observed_on};
ghost use Rattle.call_agent.specs.Issuing.{no_more_ids, bad_command};
ghost use Rattle.call_agent.specs.Hearing.{issues, hears, as_event, as_issue, agent_takes_none, plain_agent};
ghost use Rattle.world_laws.specs.Example.{agent_from, agent_then, audit_by_agent, agent_refuses, agent_sends, seconds_of_agent, from_gateway};

/// Each sentence at an example.
pub fn each_sentence_has_an_example()
    // The greatest id is issued, and after it none.
    ensures greatest { agent_refuses 999999999 [] audit_by_agent ≡ None }
    ensures none { agent_refuses 999999999 (audit_by_agent ∷ []) audit_by_agent ≡ Some (as_issue no_more_ids) }
    ensures before_all_else { agent_refuses 999999999 (audit_by_agent ∷ []) (issues (codes "AUEPX") [] []) ≡ Some (as_issue no_more_ids) }
    // What isn't a command with its id and its name, whole and alone in a datagram, isn't issued.
    ensures verb { agent_refuses 1 [] (issues (codes "AUEPX") (codes "aaln/1@rgw.example.net") []) ≡ Some (as_issue bad_command) }
    ensures other_id { agent_refuses 1 [] (issues (codes "AUEP 77 a@b MGCP 1.0") (codes "aaln/1@rgw.example.net") [])
        ≡ Some (as_issue bad_command) }
    ensures line_end { agent_refuses 1 [] (issues (codes "AUEP") (codes "aaln/1@rgw.example.net") (codes "K: 1"))
        ≡ Some (as_issue bad_command) }
    ensures parameter { agent_refuses 1 [] (issues (codes "AUEP") (codes "aaln/1@rgw.example.net") (codes "K: 1\r\n")) ≡ None }
    ensures two_messages { agent_refuses 1 [] (issues (codes "AUEP") (codes "aaln/1@rgw.example.net") (codes ".\r\nK: 1\r\n"))
        ≡ Some (as_issue bad_command) }
    ensures name { agent_refuses 1 [] (issues (codes "AUEP") (codes "aaln/1 x") []) ≡ Some (as_issue bad_command) }
    ensures response { agent_refuses 1 [] (issues (codes "200") (codes "aaln/1@rgw.example.net") []) ≡ Some (as_issue bad_command) }
    ensures other_texts_are_not_issued_body { agent_refuses 1 [] (issues (codes "AUEP") (codes "aaln/1@rgw.example.net") (codes "K 1\r\n"))
        ≡ Some (as_issue bad_command) }
    // An agent has no telephones, and its clock goes as a gateway's.
    ensures phone { agent_refuses 1 [] (hears (phone 1 acts.OffHook)) ≡ Some (as_event refusals.NoSuchLine) }
    ensures far { agent_refuses 1 [] (hears (tick 1001)) ≡ Some (as_event refusals.TickTooFar) }
    ensures back { agent_refuses 1 (hears (tick 1000) ∷ []) (hears (tick 999)) ≡ Some (as_event refusals.ClockBack) }
    ensures again { agent_refuses 1 (hears (tick 1000) ∷ []) (hears (tick 1000)) ≡ None }
    ensures datagram { agent_refuses 1 [] (from_gateway []) ≡ None }
    // A datagram that is too long takes no memory, and neither does a tick up to which nothing is due.
    ensures idle { agent_takes_none (agent_then []) (tick 1000) ≡ true }
    ensures before { agent_takes_none (agent_then (audit_by_agent ∷ [])) (tick 499) ≡ true }
    ensures at { agent_takes_none (agent_then (audit_by_agent ∷ [])) (tick 500) ≡ false }
    ensures an_idle_agent_takes_no_memory_second { agent_takes_none
        (agent_then (audit_by_agent ∷ hears (tick 500) ∷ audit_by_agent ∷ [])) (tick 999) ≡ true }
    ensures of_second { agent_takes_none (agent_then (audit_by_agent ∷ hears (tick 500) ∷ audit_by_agent ∷ [])) (tick 1000) ≡ false }
    ensures longest { agent_takes_none (agent_then []) (datagram other_agent (replicate 4000 10)) ≡ false }
    ensures too_long { agent_takes_none (agent_then []) (datagram other_agent (replicate 4001 10)) ≡ true }
    ensures act { agent_takes_none (agent_then []) (phone 1 acts.OffHook) ≡ true }
{}

/// Each sentence at an example.
pub fn further_sentences_have_examples()
    // A command is sent at once, repeated as a gateway repeats, and given up after that.
    ensures first { agent_sends [] audit_by_agent ≡ (0, codes "AUEP 1 aaln/1@rgw.example.net MGCP 1.0\r\n") ∷ [] }
    ensures early { agent_sends (audit_by_agent ∷ []) (hears (tick 499)) ≡ [] }
    ensures repeat { agent_sends (audit_by_agent ∷ []) (hears (tick 1000))
        ≡ (500, codes "AUEP 1 aaln/1@rgw.example.net MGCP 1.0\r\n") ∷ [] }
    ensures next_id { agent_sends (audit_by_agent ∷ []) audit_by_agent ≡ (0, codes "AUEP 2 aaln/1@rgw.example.net MGCP 1.0\r\n") ∷ [] }
    ensures last { agent_sends (audit_by_agent ∷ seconds_of_agent 19) (hears (tick 20000))
        ≡ (19500, codes "AUEP 1 aaln/1@rgw.example.net MGCP 1.0\r\n") ∷ [] }
    ensures commands_are_repeated_and_given_up_in_flight { map (λ flight. flight.id)
        (plain_agent (agent_from 1) (audit_by_agent ∷ seconds_of_agent 23)).flights ≡ 1 ∷ [] }
    ensures given_up { (plain_agent (agent_from 1) (audit_by_agent ∷ seconds_of_agent 24)).flights ≡ [] }
    // At one moment the command with the least id is repeated first.
    ensures the_least_id_is_repeated_first { agent_sends (audit_by_agent ∷ audit_by_agent ∷ []) (hears (tick 500))
        ≡ (500, codes "AUEP 1 aaln/1@rgw.example.net MGCP 1.0\r\n") ∷ (500, codes "AUEP 2 aaln/1@rgw.example.net MGCP 1.0\r\n") ∷ [] }
    // The first final response is the answer, its text as it came; a provisional one puts the next repeat off by five seconds.
    ensures answer { answer_for 1 (plain_agent (agent_from 1) (audit_by_agent ∷ from_gateway (codes "200 1 fine\nZ: 1\n") ∷ []))
        ≡ Some (record { id = 1; code = 200; text = codes "200 1 fine\nZ: 1\n" }) }
    ensures the_first_final_response_is_the_answer_second { answer_for 1 (plain_agent (agent_from 1)
        (audit_by_agent ∷ from_gateway (codes "200 1 OK\r\n")
        ∷ from_gateway (codes "500 1 OK\r\n") ∷ []))
        ≡ Some (record { id = 1; code = 200; text = codes "200 1 OK\r\n" }) }
    ensures the_first_final_response_is_the_answer_other { answer_for 1 (plain_agent (agent_from 1)
        (audit_by_agent ∷ from_gateway (codes "200 2 OK\r\n") ∷ [])) ≡ None }
    ensures the_first_final_response_is_the_answer_provisional { answer_for 1 (plain_agent (agent_from 1)
        (audit_by_agent ∷ from_gateway (codes "100 1 wait\r\n") ∷ [])) ≡ None }
    ensures put_off { map (λ flight. flight.due) (plain_agent (agent_from 1) (audit_by_agent ∷ hears (tick 7)
        ∷ from_gateway (codes "100 1 wait\r\n") ∷ [])).flights ≡ 5007 ∷ [] }
    ensures late { answer_for 1 (plain_agent (agent_from 1) (audit_by_agent ∷ seconds_of_agent 24
        ++ from_gateway (codes "200 1 OK\r\n") ∷ [])) ≡ None }
    ensures in_time { answer_for 1 (plain_agent (agent_from 1) (audit_by_agent ∷ seconds_of_agent 23
        ++ from_gateway (codes "200 1 OK\r\n") ∷ []))
        ≡ Some (record { id = 1; code = 200; text = codes "200 1 OK\r\n" }) }
    // A final response with an empty K is acknowledged, whether or not its command is in flight.
    ensures a_response_that_asks_for_it_is_acknowledged_in_flight { agent_sends (audit_by_agent ∷ [])
        (from_gateway (codes "200 1 OK\r\nK:\r\n")) ≡ (0, codes "000 1\r\n") ∷ [] }
    ensures stranger { agent_sends [] (from_gateway (codes "200 7 OK\r\nK:\r\n")) ≡ (0, codes "000 7\r\n") ∷ [] }
    ensures a_response_that_asks_for_it_is_acknowledged_provisional { agent_sends (audit_by_agent ∷ [])
        (from_gateway (codes "100 1 OK\r\nK:\r\n")) ≡ [] }
    ensures without { agent_sends (audit_by_agent ∷ []) (from_gateway (codes "200 1 OK\r\n")) ≡ [] }
    // Notifications and announcements are taken, other commands are answered with 504, and what can't be read by its fault.
    ensures notification { agent_sends [] (from_gateway (codes "NTFY 10000000 aaln/1@rgw.example.net MGCP 1.0\r\nX: 0\r\nO: L/hd\r\n"))
        ≡ (0, codes "200 10000000 OK\r\n") ∷ [] }
    ensures announcement { agent_sends [] (from_gateway (codes "RSIP 1 *@rgw.example.net MGCP 1.0\r\nRM: restart\r\n"))
        ≡ (0, codes "200 1 OK\r\n") ∷ [] }
    ensures audit { agent_sends [] (from_gateway (codes "AUEP 5 aaln/1@rgw.example.net MGCP 1.0\r\n")) ≡ (0, codes "504 5\r\n") ∷ [] }
    ensures the_commands_of_a_gateway_are_answered_other { agent_sends []
        (from_gateway (codes "ABCD 5 aaln/1@rgw.example.net MGCP 1.0\r\n")) ≡ (0, codes "504 5\r\n") ∷ [] }
    ensures version { agent_sends [] (from_gateway (codes "NTFY 5 aaln/1@rgw.example.net MGCP 2.0\r\n")) ≡ (0, codes "528 5\r\n") ∷ [] }
    ensures the_commands_of_a_gateway_are_answered_body { agent_sends []
        (from_gateway (codes "NTFY 5 aaln/1@rgw.example.net MGCP 1.0\r\nX\r\n")) ≡ (0, codes "510 5\r\n") ∷ [] }
    ensures no_header { agent_sends [] (from_gateway (codes "\r\n")) ≡ [] }
    ensures two { agent_sends []
        (from_gateway (codes "NTFY 5 aaln/1@rgw.example.net MGCP 2.0\r\n.\r\nAUEP 6 aaln/1@rgw.example.net MGCP 1.0\r\n"))
        ≡ (0, codes "528 5\r\n") ∷ (0, codes "504 6\r\n") ∷ [] }
{}
