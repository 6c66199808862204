//! A line that lost its agent (RFC 3435, 2.3.12, 4.3 and 4.4.7): it waits, announces itself, and goes on once that is answered,
//! as theorems.
#![tactic(auto, unfolding(crate::proofs::Computing::on_examples))]

ghost use Rattle.std.specs.Prelude.{◌≡◌, ◌++◌, codes, [], ◌∷◌, replicate, option_map, true, false, None, Some};
ghost use Rattle.mgcp_text.specs.declared.message.Message.TheVariants as messages;
ghost use Rattle.mgcp_text.specs.declared.message.Verb.TheVariants as verbs;
ghost use Rattle.mg_line.specs.declared.phone.Act.TheVariants.{OffHook, OnHook};
ghost use Rattle.machine_rules.specs.declared.state.State.TheVariants as states;
ghost use Rattle.retransmission.specs.declared.restart.Restart.TheVariants.{Waiting, Announced};
ghost use Rattle.plain_machine.specs.Event.{phone, tick};
ghost use Rattle.plain_machine.specs.Message.{command};
ghost use Rattle.plain_machine.specs.Posting.{given_up};
ghost use Rattle.plain_machine.specs.Announcing.{announcement};
ghost use Rattle.plain_machine.specs.Machine.{serves, endpoint_at};
ghost use Rattle.plain_machine.specs.Refusing.{takes_none};
ghost use Rattle.plain_machine.specs.Lists.{machine_after, outputs_from, sent_from};
ghost use Rattle.plain_machine.specs.Example.{agent_route, other_route, other_entity, example, from_agent, to_agent_at, to_other_at, ready_post, ready_endpoint, rqnt, sends, ntfy, lifted, response, endpoint_then, own_at, naming_other, entities_of, lost_endpoint, losing, lost_machine, lost_sends, lost_then, lost_line_then, looping, disconnected, asking_nothing, says};

/// Each sentence at an example.
pub fn each_sentence_has_an_example()
    // Where a line gives its notification up nothing is in flight, and it waits before it announces itself; all else stays.
    ensures given_up { endpoint_then (phone 1 OffHook ∷ tick 24500 ∷ []) 1 ≡ Some (lost_endpoint 29500) }
    ensures others { endpoint_then (phone 1 OffHook ∷ tick 24500 ∷ []) 2 ≡ Some (ready_endpoint example 2) }
    ensures other_wait { (given_up (record example { disconnected_wait = 600000 }) 1 24500 (ready_post example 1)).restart
        ≡ Waiting 624500 }
    ensures of_the_gateway { (given_up (record example { restart_wait = 7 }) 0 24500 (ready_post example 1)).restart
        ≡ Waiting 24507 }
    ensures too_late { lost_then (response 200 10000000 ∷ []) ≡ lost_machine }
    ensures too_late_for_n { lost_then (naming_other 200 10000000 ∷ []) ≡ lost_machine }
    ensures silent { lost_sends (tick 5999 ∷ []) ≡ [] }
    ensures no_memory { takes_none lost_machine (tick 5999) ≡ true }
    ensures memory { takes_none lost_machine (tick 6000) ≡ false }
    ensures serves { serves lost_machine.endpoints ≡ true }
    // At its moment the line announces itself to whom it notifies, under its next id; this is in flight from then on.
    ensures row { sends (phone 1 OffHook ∷ tick 29500 ∷ [])
        ≡ to_agent_at 1000 lifted ∷ to_agent_at 1500 lifted ∷ to_agent_at 2500 lifted ∷ to_agent_at 4500 lifted
        ∷ to_agent_at 8500 lifted ∷ to_agent_at 12500 lifted ∷ to_agent_at 16500 lifted ∷ to_agent_at 20500 lifted
        ∷ to_agent_at 29500 (disconnected 10000001) ∷ [] }
    ensures at_its_moment { lost_sends (tick 7000 ∷ [])
        ≡ to_agent_at 6000 (disconnected 10000001) ∷ to_agent_at 6500 (disconnected 10000001) ∷ [] }
    ensures message { sent_from example lost_machine (tick 6000 ∷ [])
        ≡ own_at 1 6000 (command (messages.Command verbs.Rsip 10000001 (codes "aaln/1@rgw.example.net")
        ((record { code = codes "RM"; value = codes "disconnected" }) ∷ []) [])) ∷ [] }
    ensures last_line { announcement example 16 160000001
        ≡ messages.Command verbs.Rsip 160000001 (codes "aaln/16@rgw.example.net")
        ((record { code = codes "RM"; value = codes "disconnected" }) ∷ []) [] }
    ensures a_line_announces_itself_endpoint { lost_line_then (tick 6000 ∷ []) ≡ Some (record (lost_endpoint 6000) {
      post = record {
        entity = example.agent;
        number = 2;
        pending = Some (record { id = 10000001; route = agent_route; text = disconnected 10000001; first = 6000; repeats = 0; due = 6500 });
        restart = Announced;
      };
    }) }
    ensures entity { lost_sends (rqnt 7 (codes "aaln/1") (codes "X: A5\r\nN: ca2@[127.0.0.2]:2728\r\n") ∷ tick 6000 ∷ [])
        ≡ says (codes "200 7 OK") ∷ to_other_at 6000 (disconnected 10000001) ∷ [] }
    // An announcement is repeated and put off as a notification is; where it is given up the next comes after the same wait,
    // under the next id.
    ensures sends { lost_sends (tick 34500 ∷ [])
        ≡ to_agent_at 6000 (disconnected 10000001) ∷ to_agent_at 6500 (disconnected 10000001)
        ∷ to_agent_at 7500 (disconnected 10000001) ∷ to_agent_at 9500 (disconnected 10000001)
        ∷ to_agent_at 13500 (disconnected 10000001) ∷ to_agent_at 17500 (disconnected 10000001)
        ∷ to_agent_at 21500 (disconnected 10000001) ∷ to_agent_at 25500 (disconnected 10000001)
        ∷ to_agent_at 34500 (disconnected 10000002) ∷ [] }
    ensures put_off { lost_sends (tick 6000 ∷ response 100 10000001 ∷ tick 11000 ∷ [])
        ≡ to_agent_at 6000 (disconnected 10000001) ∷ to_agent_at 11000 (disconnected 10000001) ∷ [] }
    ensures still_waits { option_map (λ endpoint. endpoint.line) (lost_line_then (tick 6000 ∷ response 100 10000001 ∷ []))
        ≡ Some (lost_endpoint 6000).line }
    // At the answer the line waits for a request, where none came since its notification began; what is quarantined stays.
    ensures an_answered_line_waits_for_a_request_endpoint { lost_line_then (tick 6000 ∷ response 200 10000001 ∷ [])
        ≡ Some (record (lost_endpoint 6000) {
          line = record (lost_endpoint 6000).line { state = states.Lockstep };
          post = ready_post example 2;
        }) }
    ensures other_id { lost_line_then (tick 6000 ∷ response 200 10000000 ∷ []) ≡ lost_line_then (tick 6000 ∷ []) }
    ensures an_answered_line_waits_for_a_request_quarantined { lost_sends (phone 1 OnHook ∷ tick 6000 ∷ response 200 10000001 ∷ tick
        6500 ∷ asking_nothing ∷ [])
        ≡ to_agent_at 6000 (disconnected 10000001)
        ∷ to_agent_at 6500 (codes "200 7 OK\r\n.\r\n" ++ ntfy 10000002 1 (codes "A5") (codes "L/hu")) ∷ [] }
    // A line in loop goes on at the answer, without a request.
    ensures state { option_map (λ endpoint. endpoint.line.state) (endpoint_at
        (machine_after example looping (tick 6000 ∷ response 200 10000001 ∷ [])).endpoints 1) ≡ Some states.Normal }
    ensures a_loop_goes_on_at_the_answer_quarantined { outputs_from example looping
        (phone 1 OnHook ∷ tick 6000 ∷ response 200 10000001 ∷ [])
        ≡ to_agent_at 6000 (disconnected 10000001)
        ∷ to_agent_at 6000 (ntfy 10000002 1 (codes "0") (codes "L/hu")) ∷ [] }
    // 521 that names an agent sends the announcement of the line there at once, under its next id; the other lines and the
    // gateway itself keep theirs, and go on serving. One that names nobody is the answer.
    ensures sent { lost_sends (tick 6000 ∷ naming_other 521 10000001 ∷ [])
        ≡ to_agent_at 6000 (disconnected 10000001) ∷ to_other_at 6000 (disconnected 10000002) ∷ [] }
    ensures endpoints { (lost_then (tick 6000 ∷ naming_other 521 10000001 ∷ [])).endpoints
        ≡ (losing (record (lost_endpoint 6000) {
          post = record {
            entity = other_entity;
            number = 3;
            pending = Some (record {
              id = 10000002;
              route = other_route;
              text = disconnected 10000002;
              first = 6000;
              repeats = 0;
              due = 6500;
            });
            restart = Announced;
          };
        })).endpoints }
    ensures acknowledged { lost_sends (tick 6000 ∷ from_agent (codes "521 10000001\r\nK:\r\nN: ca2@[127.0.0.2]:2728\r\n") ∷ [])
        ≡ to_agent_at 6000 (disconnected 10000001) ∷ to_agent_at 6000 (codes "000 10000001\r\n")
        ∷ to_other_at 6000 (disconnected 10000002) ∷ [] }
    ensures to_nobody { lost_line_then (tick 6000 ∷ response 521 10000001 ∷ []) ≡ Some (record (lost_endpoint 6000) {
      line = record (lost_endpoint 6000).line { state = states.Lockstep };
      post = ready_post example 2;
    }) }
{}

/// A request while the line waits, or while its announcement is in flight, is remembered, and nothing is told before the
/// answer.
pub fn a_request_waits_for_the_answer()
    ensures waits { lost_sends (phone 1 OnHook ∷ asking_nothing ∷ []) ≡ says (codes "200 7 OK") ∷ [] }
    ensures state { option_map (λ endpoint. endpoint.line.state) (lost_line_then (asking_nothing ∷ []))
        ≡ Some states.Notification }
    ensures renewed { lost_sends (phone 1 OnHook ∷ asking_nothing ∷ tick 6000 ∷ response 200 10000001 ∷ [])
        ≡ says (codes "200 7 OK") ∷ to_agent_at 6000 (disconnected 10000001)
        ∷ to_agent_at 6000 (ntfy 10000002 1 (codes "A5") (codes "L/hu")) ∷ [] }
    ensures in_flight { lost_sends (phone 1 OnHook ∷ tick 6000 ∷ asking_nothing ∷ response 200 10000001 ∷ [])
        ≡ to_agent_at 6000 (disconnected 10000001) ∷ to_agent_at 6000 (codes "200 7 OK\r\n")
        ∷ to_agent_at 6000 (ntfy 10000002 1 (codes "A5") (codes "L/hu")) ∷ [] }
    ensures before_giving_up { sends (phone 1 OffHook ∷ phone 1 OnHook ∷ asking_nothing ∷ tick 16000
        ∷ response 100 10000000 ∷ tick 26000 ∷ response 200 10000001 ∷ [])
        ≡ to_agent_at 1000 lifted ∷ says (codes "200 7 OK") ∷ to_agent_at 1500 lifted ∷ to_agent_at 2500 lifted
        ∷ to_agent_at 4500 lifted ∷ to_agent_at 8500 lifted ∷ to_agent_at 12500 lifted
        ∷ to_agent_at 26000 (disconnected 10000001)
        ∷ to_agent_at 26000 (ntfy 10000002 1 (codes "A5") (codes "L/hu")) ∷ [] }
    ensures nothing_quarantined { option_map (λ endpoint. endpoint.line.state)
        (lost_line_then (asking_nothing ∷ tick 6000 ∷ response 200 10000001 ∷ [])) ≡ Some states.Normal }
{}

/// Whom the answer names that line notifies from then on, and no other, whatever the code; a provisional one names nobody,
/// nor does one that can't be read, nor the answer to a notification.
pub fn an_answer_names_whom_a_line_notifies()
    ensures endpoints { (lost_then (tick 6000 ∷ naming_other 500 10000001 ∷ [])).endpoints
        ≡ (losing (record (lost_endpoint 6000) {
          line = record (lost_endpoint 6000).line { state = states.Lockstep };
          post = record (ready_post example 2) { entity = other_entity };
        })).endpoints }
    ensures told { lost_sends (phone 1 OnHook ∷ asking_nothing ∷ tick 6000 ∷ naming_other 200 10000001 ∷ [])
        ≡ says (codes "200 7 OK") ∷ to_agent_at 6000 (disconnected 10000001)
        ∷ to_other_at 6000 (ntfy 10000002 1 (codes "A5") (codes "L/hu")) ∷ [] }
    ensures provisional { entities_of (lost_then (tick 6000 ∷ naming_other 100 10000001 ∷ [])) ≡ replicate 16 example.agent }
    ensures unreadable { entities_of (lost_then (tick 6000 ∷ from_agent (codes "200 10000001 OK\r\nN: nobody\r\n") ∷ []))
        ≡ replicate 16 example.agent }
    ensures then_nobody { entities_of (lost_then (phone 1 OnHook ∷ asking_nothing ∷ tick 6000
        ∷ response 200 10000001 ∷ naming_other 200 10000002 ∷ [])) ≡ replicate 16 example.agent }
{}
