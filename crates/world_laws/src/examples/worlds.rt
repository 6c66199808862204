//! Worlds at work, as theorems.
#![tactic(auto, unfolding(crate::proofs::Computing::on_examples))]

ghost use Rattle.std.specs.Prelude.{◌≡◌, ◌++◌, codes, [], ◌∷◌, true, None, Some};
ghost use Rattle.packages.specs.declared.event.LineEvent.TheVariants as events;
ghost use Rattle.mg_line.specs.declared.phone.Act.TheVariants as acts;
ghost use Rattle.packages.specs.declared.observed.Observed.TheVariants.{Happened};
ghost use Rattle.machine_rules.specs.declared.refusal.Refusal.TheVariants as refusals;
ghost use Rattle.plain_machine.specs.Example.{two_lines};
ghost use Rattle.call_agent.specs.Agent.{answer_for, observed_on};
ghost use Rattle.agent_core.specs.World.{world_opening, steps_are_taken, issuing, dialling, ticking, delivering, by_gateway, no_such_packet, packet_too_old};
ghost use Rattle.world_laws.specs.Example.{agent_after_steps, texts_in, moments_in, code_in, refused_after, announced, audited, lifted, repeated_audit, seconds};

/// Both copies of a command are answered, it is executed once, and the agent has the answer.
pub fn an_audit_that_arrives_twice_is_answered_twice()
    ensures taken { steps_are_taken two_lines world_opening audited ≡ true }
    ensures packets { texts_in audited
        ≡ codes "RSIP 1 *@rgw.example.net MGCP 1.0\r\nRM: restart\r\n" ∷ codes "200 1 OK\r\n"
        ∷ codes "AUEP 1 aaln/1@rgw.example.net MGCP 1.0\r\n" ∷ codes "200 1 OK\r\n" ∷ codes "200 1 OK\r\n" ∷ [] }
    ensures answer { answer_for 1 (agent_after_steps audited) ≡ Some (record { id = 1; code = 200; text = codes "200 1 OK\r\n" }) }
    ensures other { code_in 2 audited ≡ None }
    ensures flights { (agent_after_steps audited).flights ≡ [] }
{}

/// A notification that arrives twice is taken once, and answered twice.
pub fn a_notification_that_arrives_twice_is_taken_once()
    ensures taken { steps_are_taken two_lines world_opening lifted ≡ true }
    ensures packets { texts_in lifted ≡ texts_in audited
        ++ codes "NTFY 10000000 aaln/1@rgw.example.net MGCP 1.0\r\nX: 0\r\nO: L/hd\r\n"
        ∷ codes "200 10000000 OK\r\n" ∷ codes "200 10000000 OK\r\n" ∷ [] }
    ensures line { observed_on 1 (agent_after_steps lifted) ≡ Happened events.OffHook ∷ [] }
    ensures other_line { observed_on 2 (agent_after_steps lifted) ≡ [] }
    ensures behind { refused_after lifted (delivering 8) ≡ Some no_such_packet }
    ensures last { refused_after lifted (delivering 7) ≡ None }
{}

/// A repeat that arrives before the first send gets the answer, and so does the first send; then nothing is in flight.
pub fn a_repeat_may_come_first()
    ensures taken { steps_are_taken two_lines world_opening repeated_audit ≡ true }
    ensures moments { moments_in repeated_audit ≡ 1 ∷ 1 ∷ 1 ∷ 501 ∷ 501 ∷ 501 ∷ [] }
    ensures code { code_in 1 repeated_audit ≡ Some 200 }
    ensures behind { refused_after repeated_audit (delivering 6) ≡ Some no_such_packet }
{}

/// Each sentence at an example.
pub fn each_sentence_has_an_example()
    // A packet is handed over 10,000 ms after it was sent, and not later.
    ensures young { refused_after (seconds 11) (delivering 0) ≡ None }
    ensures old { refused_after (seconds 11 ++ ticking 10002 ∷ []) (delivering 0) ≡ Some packet_too_old }
    // A tick and an act are refused as the gateway refuses them.
    ensures far { refused_after [] (ticking 1001) ≡ Some (by_gateway refusals.TickTooFar) }
    ensures back { refused_after announced (ticking 0) ≡ Some (by_gateway refusals.ClockBack) }
    ensures line { refused_after announced (dialling 3 acts.OffHook) ≡ Some (by_gateway refusals.NoSuchLine) }
    ensures state { refused_after announced (dialling 2 acts.OnHook) ≡ Some (by_gateway refusals.PhoneState) }
    ensures opening { refused_after [] (delivering 0) ≡ Some no_such_packet }
    // What the gateway sends to an address that only it has is lost: it is repeated.
    ensures what_goes_to_its_sender_is_lost { texts_in (announced ++ ticking 1000
        ∷ issuing (codes "RQNT") (codes "aaln/1@rgw.example.net") (codes "X: A0\r\nN: ca@[127.0.0.1]:2427\r\n")
        ∷ delivering 2 ∷ delivering 3 ∷ dialling 1 acts.OffHook ∷ delivering 4 ∷ ticking 1500 ∷ [])
        ≡ texts_in announced ++ codes "RQNT 1 aaln/1@rgw.example.net MGCP 1.0\r\nX: A0\r\nN: ca@[127.0.0.1]:2427\r\n" ∷ codes "200 1 OK\r\n"
        ∷ codes "NTFY 10000000 aaln/1@rgw.example.net MGCP 1.0\r\nX: A0\r\nO: L/hd\r\n"
        ∷ codes "NTFY 10000000 aaln/1@rgw.example.net MGCP 1.0\r\nX: A0\r\nO: L/hd\r\n" ∷ [] }
{}
