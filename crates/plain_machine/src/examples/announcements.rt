//! The announcement of the gateway itself (RFC 3435, 2.3.12, 4.4.6): the opening, and what waits for the answer, as theorems.
#![tactic(auto, unfolding(crate::proofs::Computing::on_examples))]

ghost use Rattle.std.specs.Prelude.{◌≡◌, ◌++◌, codes, [], ◌∷◌, true, false, None, Some};
ghost use Rattle.mgcp_text.specs.declared.message.Message.TheVariants as messages;
ghost use Rattle.mgcp_text.specs.declared.message.Verb.TheVariants as verbs;
ghost use Rattle.mg_line.specs.declared.phone.Act.TheVariants.{OffHook, OnHook};
ghost use Rattle.retransmission.specs.declared.restart.Restart.TheVariants.{Waiting, Announced, Serving};
ghost use Rattle.plain_machine.specs.Event.{phone, tick};
ghost use Rattle.plain_machine.specs.Message.{command};
ghost use Rattle.plain_machine.specs.Announcing.{announcement};
ghost use Rattle.plain_machine.specs.Machine.{opening, opening_endpoints, opening_endpoint, serves};
ghost use Rattle.plain_machine.specs.Falling.{due_at};
ghost use Rattle.plain_machine.specs.Refusing.{takes_none};
ghost use Rattle.plain_machine.specs.Lists.{machine_after, outputs_from, outputs_of, sent_of};
ghost use Rattle.plain_machine.specs.Example.{agent_route, example, two_lines, from_agent, to_agent_at, to_other_at, ready, ready_endpoints, ready_machine, audit, rqnt, lifted, lifted_on_2, response, own_at, from_other, announcement_due, announced, announcing_machine, announcing_sends, announcing_then, asking_nothing, asking_of, crcx, mdcx, dlcx, epcf, says};

/// Each sentence at an example.
pub fn each_sentence_has_an_example()
    // At the opening the gateway waits before it announces itself under the id 1, and doesn't serve; its lines have nothing
    // to announce.
    ensures own { (opening example).endpoints.own
        ≡ record { entity = example.agent; number = 1; pending = None; restart = Waiting 1 } }
    ensures due { due_at (opening_endpoints example) 0 ≡ Some (announcement_due 1 0) }
    ensures other_wait { due_at (opening_endpoints (record example { restart_wait = 600000 })) 0
        ≡ Some (announcement_due 600000 0) }
    ensures lines { (opening_endpoint example 16).post
        ≡ record { entity = example.agent; number = 0; pending = None; restart = Serving } }
    ensures nothing_of_lines { due_at (opening_endpoints example) 16 ≡ None }
    ensures the_gateway_opens_waiting_serves { serves (opening_endpoints example) ≡ false }
    ensures memory { takes_none (opening example) (tick 1) ≡ false }
    ensures no_memory { takes_none (opening example) (tick 0) ≡ true }
    // At its moment the announcement goes out to the configured agent, and is in flight from then on; it is of all lines.
    ensures datagram { outputs_of example (tick 1 ∷ []) ≡ to_agent_at 1 announced ∷ [] }
    ensures at_its_moment { outputs_of (record example { restart_wait = 100 }) (tick 99 ∷ tick 300 ∷ [])
        ≡ to_agent_at 100 announced ∷ [] }
    ensures before { outputs_of (record example { restart_wait = 100 }) (tick 99 ∷ []) ≡ [] }
    ensures message { sent_of example (tick 1 ∷ [])
        ≡ own_at 0 1 (command (messages.Command verbs.Rsip 1 (codes "*@rgw.example.net")
        ((record { code = codes "RM"; value = codes "restart" }) ∷ []) [])) ∷ [] }
    ensures in_flight { (machine_after example (opening example) (tick 1 ∷ [])).endpoints.own ≡ record {
      entity = example.agent;
      number = 2;
      pending = Some (record { id = 1; route = agent_route; text = announced; first = 1; repeats = 0; due = 501 });
      restart = Announced;
    } }
    ensures last { announcement example 0 9999999 ≡ messages.Command verbs.Rsip 9999999 (codes "*@rgw.example.net")
        ((record { code = codes "RM"; value = codes "restart" }) ∷ []) [] }
    // Once its announcement is answered the gateway is ready: its lines are, and it serves.
    ensures two_lines { machine_after two_lines (opening two_lines) ready ≡ ready_machine two_lines }
    ensures sixteen_lines { machine_after example (opening example) ready ≡ ready_machine example }
    ensures the_gateway_gets_ready_serves { serves (ready_endpoints example) ≡ true }
    ensures announced { serves announcing_machine.endpoints ≡ false }
{}

/// Until the answer every deed is refused, and does nothing; audits are served. After the answer deeds are served, and
/// the copy of what was refused is refused still.
pub fn deeds_wait_for_the_answer()
    ensures opening { outputs_of example (rqnt 1203 (codes "aaln/1") (codes "X: A0\r\n") ∷ from_agent (audit 1204) ∷ [])
        ≡ to_agent_at 0 (codes "405 1203\r\n") ∷ to_agent_at 0 (codes "200 1204 OK\r\n") ∷ [] }
    ensures announced { announcing_sends (asking_nothing ∷ []) ≡ says (codes "405 7") ∷ [] }
    ensures put_off { announcing_sends (response 100 1 ∷ asking_nothing ∷ []) ≡ says (codes "405 7") ∷ [] }
    ensures answered { announcing_sends (response 200 1 ∷ asking_nothing ∷ []) ≡ says (codes "200 7 OK") ∷ [] }
    ensures refused { announcing_sends (response 400 1 ∷ asking_nothing ∷ []) ≡ says (codes "200 7 OK") ∷ [] }
    ensures given_up { outputs_from example (announcing_then (tick 24500 ∷ [])) (asking_nothing ∷ [])
        ≡ to_agent_at 24500 (codes "405 7\r\n") ∷ [] }
    ensures other_deeds { announcing_sends (crcx 1 (codes "aaln/1") [] ∷ mdcx 2 (codes "C: 1a\r\nI: 1\r\n")
        ∷ dlcx 3 (codes "*") [] ∷ epcf 4 (codes "*") (codes "B: e:A\r\n") ∷ [])
        ≡ says (codes "405 1") ∷ says (codes "405 2") ∷ says (codes "405 3") ∷ says (codes "405 4") ∷ [] }
    ensures other_audits { announcing_sends (asking_of (codes "AUCX") 5 (codes "aaln/1") (codes "I: 1\r\n")
        ∷ asking_of (codes "AUEP") 6 (codes "aaln/1") (codes "F: ES\r\n") ∷ [])
        ≡ says (codes "515 5") ∷ says (codes "200 6 OK\r\nES: L/hu") ∷ [] }
    ensures nothing_is_done { (announcing_then (asking_nothing ∷ crcx 1 (codes "aaln/1") [] ∷ [])).endpoints
        ≡ announcing_machine.endpoints }
    ensures copy { announcing_sends (asking_nothing ∷ response 200 1 ∷ asking_nothing ∷ [])
        ≡ says (codes "405 7") ∷ says (codes "405 7") ∷ [] }
{}

/// That a gateway restarts comes behind the verb and the name, and before all else.
pub fn a_restart_has_its_place_among_faults()
    ensures verb { announcing_sends (asking_of (codes "NTFY") 1 (codes "aaln/1") [] ∷ []) ≡ says (codes "504 1") ∷ [] }
    ensures name { announcing_sends (rqnt 1 (codes "aaln/17") [] ∷ []) ≡ says (codes "500 1") ∷ [] }
    ensures any_line { announcing_sends (rqnt 1 (codes "$") [] ∷ []) ≡ says (codes "503 1") ∷ [] }
    ensures all_lines { announcing_sends (crcx 1 (codes "*") [] ∷ []) ≡ says (codes "503 1") ∷ [] }
    ensures critical { announcing_sends (rqnt 1 (codes "aaln/1") (codes "X+Y: 1\r\n") ∷ []) ≡ says (codes "405 1") ∷ [] }
    ensures foreign { announcing_sends (rqnt 1 (codes "aaln/1") (codes "F: ES\r\n") ∷ []) ≡ says (codes "405 1") ∷ [] }
    ensures missing { announcing_sends (rqnt 1 (codes "aaln/1") [] ∷ []) ≡ says (codes "405 1") ∷ [] }
    ensures of_an_audit { announcing_sends (asking_of (codes "AUEP") 1 (codes "aaln/1") (codes "M: x\r\n") ∷ [])
        ≡ says (codes "539 1") ∷ [] }
{}

/// Until the answer events are quarantined. At the answer they occur, at its moment and in the order of the lines, behind
/// the acknowledgement.
pub fn events_wait_for_the_answer()
    ensures silent { announcing_sends (phone 1 OffHook ∷ []) ≡ [] }
    ensures no_memory { takes_none announcing_machine (phone 1 OffHook) ≡ true }
    ensures told { announcing_sends (phone 1 OffHook ∷ response 200 1 ∷ []) ≡ to_agent_at 1000 lifted ∷ [] }
    ensures at_its_moment { announcing_sends (phone 1 OffHook ∷ tick 1200 ∷ response 200 1 ∷ [])
        ≡ to_agent_at 1200 lifted ∷ [] }
    ensures in_order { announcing_sends (phone 2 OffHook ∷ phone 1 OffHook ∷ response 200 1 ∷ [])
        ≡ to_agent_at 1000 (lifted ++ codes ".\r\n" ++ lifted_on_2) ∷ [] }
    ensures behind { announcing_sends (phone 1 OffHook ∷ from_agent (codes "200 1 OK\r\nK:\r\n") ∷ [])
        ≡ to_agent_at 1000 (codes "000 1\r\n.\r\n" ++ lifted) ∷ [] }
    ensures to_the_other { announcing_sends (phone 1 OffHook ∷ from_other (codes "200 1 OK\r\nK:\r\n") ∷ [])
        ≡ to_other_at 1000 (codes "000 1\r\n") ∷ to_agent_at 1000 lifted ∷ [] }
    ensures one_notifies { announcing_sends (phone 1 OffHook ∷ phone 1 OnHook ∷ response 200 1 ∷ [])
        ≡ to_agent_at 1000 lifted ∷ [] }
    ensures put_off { announcing_sends (phone 1 OffHook ∷ response 100 1 ∷ []) ≡ [] }
    ensures other_id { announcing_sends (phone 1 OffHook ∷ response 200 2 ∷ []) ≡ [] }
{}
