//! Which responses are the answers of an agent, as theorems: final ones that come while their commands are in flight.
#![tactic(auto, unfolding(crate::proofs::Computing::on_examples))]

ghost use Rattle.std.specs.Prelude.{◌≡◌, ◌++◌, codes, [], ◌∷◌, true, false, map};
ghost use Rattle.mg_line.specs.declared.phone.Act.TheVariants as acts;
ghost use Rattle.plain_machine.specs.Event.{phone, tick};
ghost use Rattle.call_agent.specs.Hearing.{hears};
ghost use Rattle.world_laws.specs.Landing.{is_final, landing_from};
ghost use Rattle.world_laws.specs.Example.{agent_from, agent_then, audit_by_agent, from_elsewhere, from_gateway, landings_then, ntfy, seconds_of_agent};

/// Each sentence at an example.
pub fn each_sentence_has_an_example()
    // Final responses have the codes from 200 to 999.
    ensures below { is_final 199 ≡ false }
    ensures least { is_final 200 ≡ true }
    ensures greatest { is_final 999 ≡ true }
    ensures above { is_final 1000 ≡ false }
    // A final response counts while its command is in flight, with its code and its whole text; no other response does.
    ensures whole { landings_then (audit_by_agent ∷ from_gateway (codes "500 1 fine\nZ: 1\n") ∷ [])
        ≡ (record { id = 1; code = 500; text = codes "500 1 fine\nZ: 1\n" }) ∷ [] }
    ensures elsewhere { map (λ one. one.id) (landings_then (audit_by_agent ∷ audit_by_agent
        ∷ from_elsewhere (codes "200 2 OK\r\n") ∷ [])) ≡ 2 ∷ [] }
    ensures provisional { landings_then (audit_by_agent ∷ from_gateway (codes "100 1 wait\r\n") ∷ []) ≡ [] }
    ensures behind_a_provisional { map (λ one. one.code) (landings_then (audit_by_agent ∷ from_gateway (codes "100 1 wait\r\n")
        ∷ from_gateway (codes "200 1 OK\r\n") ∷ [])) ≡ 200 ∷ [] }
    ensures other { landings_then (audit_by_agent ∷ from_gateway (codes "200 2 OK\r\n") ∷ []) ≡ [] }
    ensures second { map (λ one. one.code) (landings_then (audit_by_agent ∷ from_gateway (codes "200 1 OK\r\n")
        ∷ from_gateway (codes "500 1 OK\r\n") ∷ [])) ≡ 200 ∷ [] }
    ensures too_early { landings_then (from_gateway (codes "200 1 OK\r\n") ∷ audit_by_agent ∷ []) ≡ [] }
    ensures in_time { map (λ one. one.id) (landings_then (audit_by_agent ∷ seconds_of_agent 23
        ++ from_gateway (codes "200 1 OK\r\n") ∷ [])) ≡ 1 ∷ [] }
    ensures given_up { landings_then (audit_by_agent ∷ seconds_of_agent 24 ++ from_gateway (codes "200 1 OK\r\n") ∷ []) ≡ [] }
    // Nothing else that comes counts.
    ensures command { landings_then (audit_by_agent ∷ from_gateway (ntfy 1 []) ∷ []) ≡ [] }
    ensures version { landings_then (audit_by_agent ∷ from_gateway (codes "AUEP 1 x MGCP 2.0\r\n") ∷ []) ≡ [] }
    ensures body { landings_then (audit_by_agent ∷ from_gateway (codes "AUEP 1\r\n") ∷ []) ≡ [] }
    ensures no_header { landings_then (audit_by_agent ∷ from_gateway (codes "\r\n") ∷ []) ≡ [] }
    ensures no_text { landings_then (audit_by_agent ∷ hears (tick 500) ∷ hears (phone 1 acts.OffHook) ∷ []) ≡ [] }
    // They count in the order in which they come, each after those before it, also within a datagram, and from any moment on.
    ensures datagrams { map (λ one. one.id) (landings_then (audit_by_agent ∷ audit_by_agent ∷ from_gateway (codes "200 2 OK\r\n")
        ∷ from_gateway (codes "500 1\r\n") ∷ [])) ≡ 2 ∷ 1 ∷ [] }
    ensures texts { map (λ one. one.id) (landings_then (audit_by_agent ∷ audit_by_agent
        ∷ from_gateway (codes "200 2 OK\r\n.\r\n500 1\r\n") ∷ [])) ≡ 2 ∷ 1 ∷ [] }
    ensures once { map (λ one. one.code) (landings_then (audit_by_agent
        ∷ from_gateway (codes "200 1 OK\r\n.\r\n500 1\r\n") ∷ [])) ≡ 200 ∷ [] }
    ensures from_then_on { map (λ one. one.id) (landing_from (agent_from 1) (agent_then (audit_by_agent ∷ []))
        (from_gateway (codes "200 1 OK\r\n") ∷ [])) ≡ 1 ∷ [] }
{}
