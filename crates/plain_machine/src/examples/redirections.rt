//! Whom the answer to the gateway's own announcement names (RFC 3435, 2.3.12, 2.4 and 4.4.6), as theorems.
#![tactic(auto, unfolding(crate::proofs::Computing::on_examples))]

ghost use Rattle.std.specs.Prelude.{◌≡◌, ◌++◌, codes, [], ◌∷◌, map, replicate, true, false, None, Some};
ghost use Rattle.mg_line.specs.declared.phone.Act.TheVariants.{OffHook};
ghost use Rattle.retransmission.specs.declared.restart.Restart.TheVariants.{Waiting, Announced};
ghost use Rattle.plain_machine.specs.Event.{phone, tick};
ghost use Rattle.plain_machine.specs.Machine.{opening_endpoints, with_own, serves};
ghost use Rattle.plain_machine.specs.Responding.{entity_in};
ghost use Rattle.plain_machine.specs.Lists.{outputs_of};
ghost use Rattle.plain_machine.specs.Example.{other_entity, other_route, example, from_agent, to_agent_at, to_other_at, rqnt, sends, lifted, response, machine_then, from_other, announced, announcing, announcing_machine, announcing_sends, announcing_then, own_then, announced_under, naming_other, entities_of, asking_nothing};

/// Each sentence at an example.
pub fn each_sentence_has_an_example()
    // Whom the answer names the gateway and all of its lines notify from then on, whatever its code; what waited is told
    // there.
    ensures lines { entities_of (announcing_then (naming_other 200 1 ∷ [])) ≡ replicate 16 other_entity }
    ensures own { own_then (naming_other 200 1 ∷ [])
        ≡ record (announcing None) { entity = other_entity } }
    ensures error { own_then (naming_other 500 1 ∷ [])
        ≡ record (announcing None) { entity = other_entity } }
    ensures serves { serves (announcing_then (naming_other 520 1 ∷ [])).endpoints ≡ true }
    ensures notified { announcing_sends (phone 1 OffHook ∷ naming_other 200 1 ∷ []) ≡ to_other_at 1000 lifted ∷ [] }
    ensures nobody { entities_of (announcing_then (response 200 1 ∷ [])) ≡ replicate 16 example.agent }
    // The first N counts, be it spelled large or small; where it can't be read it names nobody.
    ensures large { entity_in example ((record { code = codes "N"; value = codes "ca2@[127.0.0.2]:2728" }) ∷ [])
        ≡ Some other_entity }
    ensures small { entity_in example ((record { code = codes "n"; value = codes "ca2@[127.0.0.2]:2728" }) ∷ [])
        ≡ Some other_entity }
    ensures first { entity_in example ((record { code = codes "N"; value = codes "ca2@[127.0.0.2]:2728" })
        ∷ (record { code = codes "N"; value = codes "ca@ca.example.net" }) ∷ []) ≡ Some other_entity }
    ensures hidden { entity_in example ((record { code = codes "N"; value = codes "nobody" })
        ∷ (record { code = codes "N"; value = codes "ca2@[127.0.0.2]:2728" }) ∷ []) ≡ None }
    ensures unknown { entity_in example ((record { code = codes "N"; value = codes "ca@else.example.net" }) ∷ []) ≡ None }
    ensures behind_others { entity_in example ((record { code = codes "X"; value = codes "1" })
        ∷ (record { code = codes "N"; value = codes "ca2@[127.0.0.2]:2728" }) ∷ []) ≡ Some other_entity }
    ensures none { entity_in example ((record { code = codes "X"; value = codes "ca2@[127.0.0.2]:2728" }) ∷ []) ≡ None }
    // 521 that names nobody is the answer.
    ensures absent { own_then (response 521 1 ∷ []) ≡ announcing None }
    ensures unreadable { own_then (from_agent (codes "521 1\r\nN: nobody\r\n") ∷ []) ≡ announcing None }
    ensures told { announcing_sends (phone 1 OffHook ∷ response 521 1 ∷ []) ≡ to_agent_at 1000 lifted ∷ [] }
    // A provisional response, one to another command and one to a notification name nobody.
    ensures provisional { announcing_then (naming_other 100 1 ∷ [])
        ≡ record announcing_machine { endpoints = with_own (opening_endpoints example) (announcing (Some 6000)) } }
    ensures other_id { announcing_then (naming_other 200 2 ∷ []) ≡ announcing_machine }
    ensures redirecting { announcing_then (naming_other 521 2 ∷ []) ≡ announcing_machine }
    ensures to_a_notification { entities_of (machine_then (phone 1 OffHook ∷ naming_other 200 10000000 ∷ []))
        ≡ replicate 16 example.agent }
    ensures redirecting_a_notification { sends (phone 1 OffHook ∷ naming_other 521 10000000 ∷ tick 24500 ∷ [])
        ≡ to_agent_at 1000 lifted ∷ [] }
    // A redirected announcement that is given up goes to the other agent again.
    ensures given_up { own_then (naming_other 521 1 ∷ tick 24500 ∷ [])
        ≡ record { entity = other_entity; number = 3; pending = None; restart = Waiting 24501 } }
{}

/// 521 that names an agent isn't the answer: the announcement goes there at once, under the next id, and the gateway
/// doesn't serve before that is answered.
pub fn an_announcement_is_redirected()
    ensures row { outputs_of example (tick 1 ∷ from_agent (codes "521 1\r\nN: ca2@[127.0.0.2]:2728\r\n")
        ∷ asking_nothing ∷ response 200 2 ∷ rqnt 8 (codes "aaln/1") (codes "X: A5\r\n") ∷ [])
        ≡ to_agent_at 1 announced ∷ to_other_at 1 (announced_under 2) ∷ to_agent_at 1 (codes "405 7\r\n")
        ∷ to_agent_at 1 (codes "200 8 OK\r\n") ∷ [] }
    ensures own { own_then (tick 1200 ∷ naming_other 521 1 ∷ []) ≡ record {
      entity = other_entity;
      number = 3;
      pending = Some (record { id = 2; route = other_route; text = announced_under 2; first = 1200; repeats = 0; due = 1700 });
      restart = Announced;
    } }
    ensures lines { entities_of (announcing_then (naming_other 521 1 ∷ [])) ≡ replicate 16 other_entity }
    ensures waits { announcing_sends (phone 1 OffHook ∷ naming_other 521 1 ∷ [])
        ≡ to_other_at 1000 (announced_under 2) ∷ [] }
    ensures serves { serves (announcing_then (naming_other 521 1 ∷ [])).endpoints ≡ false }
    ensures acknowledged { announcing_sends (from_agent (codes "521 1\r\nK:\r\nN: ca2@[127.0.0.2]:2728\r\n") ∷ [])
        ≡ to_agent_at 1000 (codes "000 1\r\n") ∷ to_other_at 1000 (announced_under 2) ∷ [] }
    ensures older_answer { own_then (naming_other 521 1 ∷ response 200 1 ∷ []) ≡ own_then (naming_other 521 1 ∷ []) }
    ensures again { announcing_sends (naming_other 521 1 ∷ from_other (codes "521 2\r\nN: ca@ca.example.net\r\n") ∷ [])
        ≡ to_other_at 1000 (announced_under 2) ∷ to_agent_at 1000 (announced_under 3) ∷ [] }
{}
