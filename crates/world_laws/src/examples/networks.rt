//! What stands between the ends of a world, as theorems: packets with their addresses, which end is first, what is lost, and
//! what is refused.
#![tactic(auto, unfolding(crate::proofs::Computing::on_examples))]

ghost use Rattle.std.specs.Prelude.{◌≡◌, ◌++◌, codes, [], ◌∷◌, map, true, false, None, Some, ℕ, List};
ghost use Rattle.std.specs.Borrow.{Bor};
ghost use Rattle.packages.specs.declared.event.LineEvent.TheVariants as events;
ghost use Rattle.mg_line.specs.declared.phone.Act.TheVariants as acts;
ghost use Rattle.packages.specs.declared.observed.Observed.TheVariants.{Happened};
ghost use Rattle.endpoint_names.specs.declared.route.Route.TheVariants.{One, Two, Four};
ghost use Rattle.plain_machine.specs.Example.{two_lines, agent, local_host, other_host, other_agent, second_agent, third_agent, fourth_agent};
ghost use Rattle.agent_core.specs.declared.packet.End.TheVariants.{GatewayEnd, AgentEnd};
ghost use Rattle.agent_core.specs.declared.step.Step.TheVariants as steps;
ghost use Rattle.call_agent.specs.Agent.{observed_on};
ghost use Rattle.call_agent.specs.Issuing.{bad_command};
ghost use Rattle.plain_machine.specs.Event.{datagram};
ghost use Rattle.call_agent.specs.Hearing.{hears, as_issue};
ghost use Rattle.agent_core.specs.World.{world_opening, steps_are_taken, gateway_address, agent_of, agent_in, gateway_in, is_among, to_agent, delivered_from, plain_world, issuing, dialling, ticking, delivering, by_agent};
ghost use Rattle.agent_core.specs.WorldStands.{step_of, steps_before};
ghost use Rattle.world_laws.specs.Example.{world, agent_after_steps, texts_in, texts_with, shared_address, two_addresses, four_addresses, notified_twice, code_in, refused_after, announced, audits};

/// Each sentence at an example.
pub fn each_sentence_has_an_example()
    // A gateway has its media address and the port 2427; its agent is the one that it reports to, and begins with the id 1.
    ensures gateway { gateway_address (record two_lines { media_address = other_host }) ≡ record { ip = other_host; port = 2427 } }
    ensures agent { agent_of (record two_lines { media_address = other_host })
        ≡ record {
          own = One agent;
          gateway = record { ip = other_host; port = 2427 };
          domain = codes "rgw.example.net";
          lines = 2;
          first = 1;
        } }
    // A packet has its moment, the address of its sender, that to which it goes, and its bytes.
    ensures of_gateway { (world (ticking 1 ∷ [])).posted ≡ (record {
      end = GatewayEnd;
      packet = record {
        moment = 1;
        sender = record { ip = local_host; port = 2427 };
        to = record { ip = local_host; port = 2727 };
        bytes = codes "RSIP 1 *@rgw.example.net MGCP 1.0\r\nRM: restart\r\n";
      };
    }) ∷ [] }
    ensures of_agent { (world (audits ∷ [])).posted ≡ (record {
      end = AgentEnd;
      packet = record {
        moment = 0;
        sender = record { ip = local_host; port = 2727 };
        to = record { ip = local_host; port = 2427 };
        bytes = codes "AUEP 1 aaln/1@rgw.example.net MGCP 1.0\r\n";
      };
    }) ∷ [] }
    // A packet goes to the end that didn't send it, where that has its address; else it is lost.
    ensures to_agent { delivered_from AgentEnd two_lines (world announced)
        (record { moment = 1; sender = agent; to = agent; bytes = codes "AUEP 1 aaln/1@rgw.example.net MGCP 1.0\r\n" }) ≡ world announced }
    ensures to_another { delivered_from AgentEnd two_lines (world announced)
        (record { moment = 1; sender = agent; to = other_agent; bytes = codes "AUEP 1 aaln/1@rgw.example.net MGCP 1.0\r\n" })
        ≡ world announced }
    ensures to_gateway { delivered_from GatewayEnd two_lines (world announced)
        (record {
          moment = 1;
          sender = gateway_address two_lines;
          to = gateway_address two_lines;
          bytes = codes "RSIP 1 *@rgw.example.net MGCP 1.0\r\n";
        })
        ≡ world announced }
    // Where both ends have one address, each still gets what the other sent.
    ensures ends_may_share_an_address { texts_with shared_address (announced
        ++ issuing (codes "RQNT") (codes "aaln/1@rgw.example.net") (codes "X: 1\r\n") ∷ delivering 2 ∷ [])
        ≡ codes "RSIP 1 *@rgw.example.net MGCP 1.0\r\nRM: restart\r\n" ∷ codes "200 1 OK\r\n"
        ∷ codes "RQNT 1 aaln/1@rgw.example.net MGCP 1.0\r\nX: 1\r\n" ∷ codes "200 1 OK\r\n" ∷ [] }
    // A notification of the last line reaches the agent, and so does one that comes late, behind a later one.
    ensures last_line { observed_on 2 (agent_after_steps (announced ++ dialling 2 acts.OffHook ∷ delivering 2 ∷ []))
        ≡ Happened events.OffHook ∷ [] }
    ensures first_line { observed_on 1 (agent_after_steps (announced ++ dialling 1 acts.OffHook ∷ dialling 2 acts.OffHook
        ∷ delivering 3 ∷ delivering 2 ∷ []))
        ≡ Happened events.OffHook ∷ [] }
    ensures lost { observed_on 1 (agent_after_steps (announced ++ dialling 1 acts.OffHook ∷ [])) ≡ [] }
    // What the agent refuses to issue a world refuses.
    ensures bad { refused_after [] (issuing (codes "AUEPX") (codes "aaln/1@rgw.example.net") []) ≡ Some (by_agent (as_issue bad_command)) }
    ensures good { refused_after [] audits ≡ None }
    ensures the_agent_judges_what_is_issued_tick { refused_after [] (ticking 1000) ≡ None }
    ensures act { refused_after announced (dialling 2 acts.OffHook) ≡ None }
    // Steps are taken where none is refused, each after those before it.
    ensures none { steps_are_taken two_lines world_opening [] ≡ true }
    ensures first { steps_are_taken two_lines world_opening (ticking 1001 ∷ ticking 1000 ∷ []) ≡ false }
    ensures last { steps_are_taken two_lines world_opening (ticking 1000 ∷ ticking 2001 ∷ []) ≡ false }
    ensures not_yet { steps_are_taken two_lines world_opening (announced ++ delivering 2 ∷ audits ∷ []) ≡ false }
    ensures there { steps_are_taken two_lines world_opening (announced ++ audits ∷ delivering 2 ∷ []) ≡ true }
    // A step as it is given is the step of the definitions.
    ensures issue { (verb name rest : Bor (List ℕ)) → step_of (steps.Issue verb name rest) ≡ issuing verb.now name.now rest.now }
    ensures dial { step_of (steps.Dial 2 acts.Flash) ≡ dialling 2 acts.Flash }
    ensures steps_are_as_they_are_given_tick { step_of (steps.Tick 7) ≡ ticking 7 }
    ensures deliver { step_of (steps.Deliver 7) ≡ delivering 7 }
    ensures before { steps_before (steps.Tick 7 ∷ steps.Deliver 0 ∷ []) 1 ≡ ticking 7 ∷ [] }
    ensures before_the_first { steps_before (steps.Tick 7 ∷ []) 0 ≡ [] }
{}

/// The clock of both ends goes on at once; the gateway is first.
pub fn at_a_tick_the_gateway_is_first()
    ensures order { texts_in (announced ++ audits ∷ dialling 1 acts.OffHook ∷ ticking 501 ∷ []) ≡ texts_in announced
        ++ codes "AUEP 1 aaln/1@rgw.example.net MGCP 1.0\r\n"
        ∷ codes "NTFY 10000000 aaln/1@rgw.example.net MGCP 1.0\r\nX: 0\r\nO: L/hd\r\n"
        ∷ codes "NTFY 10000000 aaln/1@rgw.example.net MGCP 1.0\r\nX: 0\r\nO: L/hd\r\n"
        ∷ codes "AUEP 1 aaln/1@rgw.example.net MGCP 1.0\r\n" ∷ [] }
    ensures gateway { (gateway_in two_lines (world (announced ++ ticking 700 ∷ []))).now ≡ 700 }
    ensures agent { (agent_after_steps (announced ++ ticking 700 ∷ [])).now ≡ 700 }
{}

/// What an end sends to one address at one moment shares a packet.
pub fn messages_of_one_moment_share_a_packet()
    ensures packets { texts_in (announced ++ audits ∷ audits ∷ ticking 501 ∷ delivering 4 ∷ []) ≡ texts_in announced
        ++ codes "AUEP 1 aaln/1@rgw.example.net MGCP 1.0\r\n" ∷ codes "AUEP 2 aaln/1@rgw.example.net MGCP 1.0\r\n"
        ∷ codes "AUEP 1 aaln/1@rgw.example.net MGCP 1.0\r\n.\r\nAUEP 2 aaln/1@rgw.example.net MGCP 1.0\r\n"
        ∷ codes "200 1 OK\r\n.\r\n200 2 OK\r\n" ∷ [] }
    ensures first { code_in 1 (announced ++ audits ∷ audits ∷ ticking 501 ∷ delivering 4 ∷ delivering 5 ∷ []) ≡ Some 200 }
    ensures second { code_in 2 (announced ++ audits ∷ audits ∷ ticking 501 ∷ delivering 4 ∷ delivering 5 ∷ []) ≡ Some 200 }
{}

/// Of an agent with several addresses a packet to any of them arrives, and one to another is lost. It sends from the first. What
/// comes at two of them is taken once.
pub fn packets_arrive_at_each_address_of_an_agent()
    ensures last { is_among (Four agent second_agent third_agent fourth_agent) fourth_agent ≡ true }
    ensures second { is_among (Two agent second_agent) second_agent ≡ true }
    ensures no_other { is_among (Two agent second_agent) third_agent ≡ false }
    ensures no_other_port { is_among (Two agent second_agent) other_agent ≡ false }
    ensures arrives { delivered_from GatewayEnd four_addresses world_opening
        (record { moment = 1; sender = gateway_address two_lines; to = third_agent; bytes = codes "RSIP 1 *@rgw.example.net MGCP 1.0\r\n" })
        ≡ to_agent four_addresses world_opening
        (hears (datagram (gateway_address two_lines) (codes "RSIP 1 *@rgw.example.net MGCP 1.0\r\n"))) }
    ensures places { map (λ post. post.packet.to) (plain_world two_addresses notified_twice).posted
        ≡ agent ∷ gateway_address two_lines ∷ agent ∷ agent ∷ second_agent ∷ [] }
    ensures once { observed_on 1 (agent_in two_addresses (plain_world two_addresses (notified_twice ++ delivering 2 ∷ delivering 4 ∷ [])))
        ≡ Happened events.OffHook ∷ [] }
    ensures from { map (λ post. post.packet.sender) (plain_world two_addresses (notified_twice ++ delivering 4 ∷ [])).posted
        ≡ gateway_address two_lines ∷ agent ∷ gateway_address two_lines ∷ gateway_address two_lines ∷ gateway_address two_lines
        ∷ agent ∷ [] }
{}
