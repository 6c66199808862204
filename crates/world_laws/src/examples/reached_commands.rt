//! What the laws of a world speak of, as theorems: which commands were issued, executed, sent and taken.
#![tactic(auto, unfolding(crate::proofs::Computing::on_examples))]

ghost use Rattle.std.specs.Prelude.{◌≡◌, ◌++◌, codes, [], ◌∷◌, map, flat_map};
ghost use Rattle.packages.specs.declared.event.LineEvent.TheVariants as events;
ghost use Rattle.mg_line.specs.declared.phone.Act.TheVariants as acts;
ghost use Rattle.mgcp_text.specs.declared.message.Verb.TheVariants.{Auep};
ghost use Rattle.mgcp_text.specs.declared.message.Message.TheVariants as messages;
ghost use Rattle.mgcp_text.specs.Reading.{message, bad_version, bad_body};
ghost use Rattle.packages.specs.declared.observed.Observed.TheVariants.{Happened};
ghost use Rattle.plain_machine.specs.Event.{datagram, tick};
ghost use Rattle.plain_machine.specs.Arriving.{arrivals_of};
ghost use Rattle.transmission.specs.Firsts.{lost};
ghost use Rattle.plain_machine.specs.Example.{two_lines, agent, audit, from_agent, other_agent};
ghost use Rattle.machine_laws.specs.Saying.{count_of};
ghost use Rattle.agent_core.specs.World.{agent_of, gateway_address, issuing, dialling, ticking, delivering};
ghost use Rattle.world_laws.specs.Reached.{added_by, executed_of, key_kept, key_reached, taken_with, told_of, issued_in, executed_in, heard_in, taken_in, own_in};
ghost use Rattle.world_laws.specs.Example.{world, announced, audits, audited, lifted};

/// Each sentence at an example.
pub fn each_sentence_has_an_example()
    // Of the commands that arrive those are executed that are firsts, each as it was read, under its id and at its moment.
    ensures copies { map key_reached (executed_of (arrivals_of (from_agent (audit 7) ∷ tick 29999 ∷ from_agent (audit 7)
        ∷ tick 30000 ∷ from_agent (audit 7) ∷ [])))
        ≡ (7, 0) ∷ (7, 30000) ∷ [] }
    ensures any_source { map key_reached (executed_of (arrivals_of (from_agent (audit 7)
        ∷ datagram other_agent (codes "AUEP 7\r\n") ∷ []))) ≡ (7, 0) ∷ [] }
    ensures in_turn { map key_reached (executed_of (arrivals_of (from_agent (audit 8) ∷ tick 5 ∷ from_agent (audit 7)
        ∷ from_agent (audit 8) ∷ [])))
        ≡ (8, 0) ∷ (7, 5) ∷ [] }
    ensures outcome { map (λ one. one.outcome) (executed_of (arrivals_of (from_agent (audit 7) ∷ [])))
        ≡ message (messages.Command Auep 7 (codes "aaln/1@rgw.example.net") [] []) ∷ [] }
    ensures faults { map (λ one. one.outcome) (executed_of (arrivals_of (from_agent (codes "AUEP 7\r\n.\r\nAUEP 8 x MGCP 2.0\r\n") ∷ [])))
        ≡ bad_body 7 ∷ bad_version 8 ∷ [] }
    ensures responses { executed_of (arrivals_of (from_agent (codes "200 7 OK\r\n.\r\nX\r\n") ∷ [])) ≡ [] }
    ensures lost { added_by lost []
        (record { asked = record { source = agent; moment = 0; id = 7; confirms = [] }; outcome = bad_body 7 }) ≡ [] }
    ensures kept { key_kept (record { id = 7; moment = 5; answer = codes "200 7 OK\r\n" }) ≡ (7, 5) }
    // The commands that the agent issued, each once, with the moment at which it was issued, and no repeats.
    ensures issued_commands_are_these { issued_in two_lines (world (announced ++ audits ∷ ticking 501
        ∷ issuing (codes "RQNT") (codes "aaln/1@rgw.example.net") (codes "X: 1\r\n") ∷ []))
        ≡ (record { id = 1; moment = 1; text = codes "AUEP 1 aaln/1@rgw.example.net MGCP 1.0\r\n" })
        ∷ (record { id = 2; moment = 501; text = codes "RQNT 2 aaln/1@rgw.example.net MGCP 1.0\r\nX: 1\r\n" }) ∷ [] }
    // What the agent heard: ticks and datagrams, and not what it issued.
    ensures an_agent_heard_this { heard_in (world (ticking 1 ∷ delivering 0 ∷ audits ∷ [])) ≡ tick 1
        ∷ datagram (gateway_address two_lines) (codes "RSIP 1 *@rgw.example.net MGCP 1.0\r\nRM: restart\r\n") ∷ [] }
{}

/// What the gateway executed, what the agent took, and what that tells, where all came twice.
pub fn both_ends_take_each_command_once()
    ensures executed { map key_reached (executed_in (world lifted)) ≡ (1, 1) ∷ [] }
    ensures taken { map key_reached (taken_in (world lifted)) ≡ (1, 1) ∷ (10000000, 1) ∷ [] }
    ensures told { flat_map (taken_with (agent_of two_lines)) (taken_in (world lifted))
        ≡ (record { line = 1; observed = Happened events.OffHook ∷ [] }) ∷ [] }
    ensures told_of_line_1 { flat_map (told_of 1) (flat_map (taken_with (agent_of two_lines)) (taken_in (world lifted)))
        ≡ Happened events.OffHook ∷ [] }
    ensures told_of_line_2 { flat_map (told_of 2) (flat_map (taken_with (agent_of two_lines)) (taken_in (world lifted))) ≡ [] }
    ensures not_yet { executed_in (world (announced ++ audits ∷ [])) ≡ [] }
{}

/// The commands of its own that the gateway sent, each at its first send, and how many are of a line.
pub fn own_commands_are_these()
    ensures own { own_in two_lines (world (announced ++ dialling 1 acts.OffHook ∷ ticking 501 ∷ []))
        ≡ (record { id = 1; moment = 1; text = codes "RSIP 1 *@rgw.example.net MGCP 1.0\r\nRM: restart\r\n" })
        ∷ (record { id = 10000000; moment = 1; text = codes "NTFY 10000000 aaln/1@rgw.example.net MGCP 1.0\r\nX: 0\r\nO: L/hd\r\n" }) ∷ [] }
    ensures of_itself { count_of 0 (own_in two_lines (world lifted)) ≡ 1 }
    ensures of_line_1 { count_of 1 (own_in two_lines (world lifted)) ≡ 1 }
    ensures of_line_2 { count_of 2 (own_in two_lines (world lifted)) ≡ 0 }
{}
