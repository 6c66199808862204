//! What is told of messages that are sent, and of what is given up (RFC 3435, 3.3, 3.5 and 4.3), as theorems.
#![tactic(auto, unfolding(crate::proofs::Computing::on_examples))]

ghost use Rattle.std.specs.Prelude.{◌≡◌, codes, map, [], ◌∷◌, None, Some};
ghost use Rattle.mgcp_text.specs.declared.message.Message.TheVariants as messages;
ghost use Rattle.mgcp_text.specs.declared.message.Verb.TheVariants.{Ntfy, Rsip, Auep, Other};
ghost use Rattle.mg_line.specs.declared.phone.Act.TheVariants.{OffHook};
ghost use Rattle.plain_machine.specs.declared.label.Whose.TheVariants.{AnswerOf, OwnOf, Nobody};
ghost use Rattle.plain_machine.specs.declared.label.What.TheVariants as whats;
ghost use Rattle.plain_machine.specs.Event.{phone, tick};
ghost use Rattle.plain_machine.specs.GivingUp.{given_up_with};
ghost use Rattle.plain_machine.specs.Labelling.{what_of, label_of, send_of, message_of, own_verb, front_code};
ghost use Rattle.plain_machine.specs.Lists.{machine_after};
ghost use Rattle.plain_machine.specs.Message.{answer, again, command, resent};
ghost use Rattle.plain_machine.specs.Example.{example, agent, audit, from_agent, lifted, lifted_again, announced_again, lifted_message, to_agent_at, messages_at, machine_then, own_at, answer_at, acknowledged_to, announcing_machine};

/// Each sentence at an example.
pub fn each_sentence_has_an_example()
    // A message is told of with whose it is, what, and its id: an answer with its return code, a command with its verb.
    ensures answer { label_of (answer_at (Some 3) 1000 (answer (messages.Response 200 1206 [] [])))
        ≡ record { whose = AnswerOf (Some 3); what = whats.Answer 200; id = 1206 } }
    ensures no_line { label_of (answer_at None 1000 (answer (messages.Response 500 7 [] [])))
        ≡ record { whose = AnswerOf None; what = whats.Answer 500; id = 7 } }
    ensures again { label_of (answer_at (Some 3) 1000 (again 1206 (codes "401 1206\r\n")))
        ≡ record { whose = AnswerOf (Some 3); what = whats.Again 401; id = 1206 } }
    ensures command { label_of lifted_message ≡ record { whose = OwnOf 1; what = whats.Command Ntfy; id = 10000000 } }
    ensures messages_have_labels_gateway { label_of (own_at 0 1 (command (messages.Command Rsip 1 [] [] [])))
        ≡ record { whose = OwnOf 0; what = whats.Command Rsip; id = 1 } }
    ensures resent { label_of (own_at 1 1500 (resent (lifted_again 0 1500)))
        ≡ record { whose = OwnOf 1; what = whats.Resent Ntfy 2; id = 10000000 } }
    ensures messages_have_labels_announcement { label_of (own_at 0 20500 (resent (announced_again 6 20500)))
        ≡ record { whose = OwnOf 0; what = whats.Resent Rsip 8; id = 1 } }
    ensures acknowledgement { label_of (acknowledged_to agent 9)
        ≡ record { whose = Nobody; what = whats.Acknowledgement; id = 9 } }
    ensures no_command { what_of (command (messages.Response 200 7 [] [])) ≡ whats.Command Other }
    ensures no_answer { what_of (answer (messages.Command Auep 7 [] [] [])) ≡ whats.Answer 0 }
    // It goes out in a datagram of its own.
    ensures out { message_of lifted_message ≡ record { datagram = to_agent_at 1000 lifted; label = label_of lifted_message } }
    // A command that nobody answers is sent eight times, and each send has its number; any other message is sent once.
    ensures all { map (λ one. (label_of one).what) (messages_at (phone 1 OffHook ∷ tick 24499 ∷ []))
        ≡ whats.Command Ntfy ∷ whats.Resent Ntfy 2 ∷ whats.Resent Ntfy 3 ∷ whats.Resent Ntfy 4 ∷ whats.Resent Ntfy 5
        ∷ whats.Resent Ntfy 6 ∷ whats.Resent Ntfy 7 ∷ whats.Resent Ntfy 8 ∷ [] }
    ensures numbers { map send_of (whats.Answer 200 ∷ whats.Again 200 ∷ whats.Command Ntfy ∷ whats.Resent Ntfy 5
        ∷ whats.Acknowledgement ∷ []) ≡ 1 ∷ 1 ∷ 1 ∷ 5 ∷ 1 ∷ [] }
    // A command of the gateway's own begins as its verb, and a stored answer with its return code.
    ensures notification { own_verb lifted ≡ Ntfy }
    ensures texts_begin_with_what_they_are_announcement { own_verb (codes "RSIP 1 *@rgw.example.net MGCP 1.0\r\n") ≡ Rsip }
    ensures nothing { own_verb [] ≡ Ntfy }
    ensures code { front_code (codes "250 1206 OK\r\n") ≡ 250 }
    ensures short { front_code (codes "20") ≡ 0 }
    // A command in flight is given up where nobody answered it: it is told of with whose it is, its id, its verb and the moment at
    // which that was, in the order of these. What is sent again isn't given up, and nothing but a tick gives up anything.
    ensures line { given_up_with example (machine_then (phone 1 OffHook ∷ tick 24499 ∷ [])) (tick 24600)
        ≡ (record { line = 1; id = 10000000; verb = Ntfy; moment = 24500 }) ∷ [] }
    ensures before { given_up_with example (machine_then (phone 1 OffHook ∷ [])) (tick 24499) ≡ [] }
    ensures after { given_up_with example (machine_then (phone 1 OffHook ∷ tick 24500 ∷ [])) (tick 24600) ≡ [] }
    ensures what_is_given_up_is_told_of_gateway { given_up_with example (machine_after example announcing_machine (tick 24499 ∷ []))
        (tick 24500)
        ≡ (record { line = 0; id = 1; verb = Rsip; moment = 24500 }) ∷ [] }
    ensures what_is_given_up_is_told_of_in_order { given_up_with example
        (machine_then (phone 2 OffHook ∷ tick 1100 ∷ phone 1 OffHook ∷ tick 24499 ∷ []))
        (tick 24700)
        ≡ (record { line = 2; id = 20000000; verb = Ntfy; moment = 24500 })
        ∷ (record { line = 1; id = 10000000; verb = Ntfy; moment = 24600 }) ∷ [] }
    ensures act { given_up_with example (machine_then (phone 1 OffHook ∷ tick 24499 ∷ [])) (phone 2 OffHook) ≡ [] }
    ensures datagram { given_up_with example (machine_then (phone 1 OffHook ∷ tick 24499 ∷ [])) (from_agent (audit 7)) ≡ [] }
{}
