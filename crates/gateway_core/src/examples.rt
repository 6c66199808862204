//! What is told of the texts of an event (RFC 3435, 3.2, 3.3 and 3.5), as theorems.
#![tactic(auto, unfolding(crate::proofs::Computing::on_examples))]

ghost use Rattle.std.specs.Prelude.{◌≡◌, ◌++◌, codes, [], ◌∷◌, length, replicate, true, false, None, Some};
ghost use Rattle.mgcp_text.specs.declared.message.Verb.TheVariants.{Crcx, Mdcx, Rqnt, Ntfy, Other};
ghost use Rattle.mg_line.specs.declared.phone.Act.TheVariants.{OffHook};
ghost use Rattle.transmission.specs.Looking.{full};
ghost use Rattle.command_forms.specs.declared.refused.FaultyPart.TheVariants as parts;
ghost use Rattle.command_forms.specs.Refusing.{letter_k, letter_x};
ghost use Rattle.transmission.specs.Example.{dot_lines};
ghost use Rattle.transmission.specs.Texts.{most_texts};
ghost use Rattle.plain_machine.specs.Event.{datagram, phone, tick};
ghost use Rattle.plain_machine.specs.Example.{example, agent, other_agent, audit, rqnt, crcx, mdcx, response, from_agent, lifted, lifted_message};
ghost use Rattle.gateway_core.specs.declared.outcome.Reply.TheVariants.{First, Again, Silence, NoRoom};
ghost use Rattle.gateway_core.specs.declared.outcome.TextOutcome.TheVariants.{NoMessage, Command, Response};
ghost use Rattle.plain_machine.specs.Labelling.{front_code, label_of};
ghost use Rattle.gateway_core.specs.Outcomes.{reply_by, last_outcomes};
ghost use Rattle.plain_machine.specs.declared.label.Whose.TheVariants.{AnswerOf, OwnOf, Nobody};
ghost use Rattle.plain_machine.specs.declared.label.What.TheVariants as whats;
ghost use Rattle.plain_machine.specs.Lists.{plain};
ghost use Rattle.gateway_core.specs.Remembering.{remembered};
ghost use Rattle.gateway_core.specs.Labelling.{sent_message};
ghost use Rattle.gateway_core.specs.Outgoing.{own_messages, other_messages, texts_within};
ghost use Rattle.gateway_core.specs.Example.{told, audited, accounted, labels, labelled, sizes, sized, datagram_of};

/// Each sentence at an example.
pub fn each_sentence_has_an_example()
    // A new command is told of with the code that answers it, a repeat with that of the stored answer, wherever it comes from.
    // 30,000 ms after its first it is new. What a K confirmed gets silence, and what finds no room nothing.
    ensures done { told (from_agent (audit 1206) ∷ []) ≡ audited 1206 (First 200 None) ∷ [] }
    ensures commands_are_told_of_refused { told (from_agent (codes "AUEP 1201 aaln/17@rgw.example.net MGCP 1.0\r\n") ∷ [])
        ≡ audited 1201 (First 500 (Some parts.Name)) ∷ [] }
    ensures unready { last_outcomes example (rqnt 1203 (codes "aaln/1") (codes "X: A0\r\n") ∷ [])
        ≡ Command (Some Rqnt) 1203 (First 405 (Some parts.Verb)) ∷ [] }
    ensures commands_are_told_of_again { told (from_agent (audit 1206) ∷ datagram other_agent (audit 1206) ∷ [])
        ≡ audited 1206 (Again 200) ∷ [] }
    ensures refused_again { told (from_agent (codes "AUEP 1201 aaln/17@rgw.example.net MGCP 1.0\r\n")
        ∷ from_agent (audit 1201) ∷ []) ≡ audited 1201 (Again 500) ∷ [] }
    ensures commands_are_told_of_young { told (from_agent (audit 1206) ∷ tick 30999 ∷ from_agent (audit 1206) ∷ [])
        ≡ audited 1206 (Again 200) ∷ [] }
    ensures commands_are_told_of_old { told (from_agent (audit 1206) ∷ tick 31000 ∷ from_agent (audit 1206) ∷ [])
        ≡ audited 1206 (First 200 None) ∷ [] }
    ensures commands_are_told_of_silence { told (from_agent (audit 1301) ∷ from_agent (audit 1304 ++ codes "K: 1301\r\n") ∷ from_agent
        (audit 1301) ∷ [])
        ≡ audited 1301 Silence ∷ [] }
    ensures no_room { reply_by full 200 None ≡ NoRoom }
    // A command is remembered from its execution on, while it is less than 30,000 ms old. A repeat of it is none more.
    ensures none { remembered (plain example []) ≡ 0 }
    ensures executed_commands_are_remembered_first { remembered (plain example (from_agent (audit 1206) ∷ [])) ≡ 1 }
    ensures other { remembered (plain example (from_agent (audit 1206) ∷ from_agent (audit 1207) ∷ [])) ≡ 2 }
    ensures repeat { remembered (plain example (from_agent (audit 1206) ∷ datagram other_agent (audit 1206) ∷ [])) ≡ 1 }
    ensures executed_commands_are_remembered_young { remembered (plain example (from_agent (audit 1206) ∷ tick 29999 ∷ [])) ≡ 1 }
    ensures executed_commands_are_remembered_old { remembered (plain example (from_agent (audit 1206) ∷ tick 30000 ∷ [])) ≡ 0 }
    // A command that can't be read past its id is told of without a verb, a response with its id and whether it was acknowledged; what
    // has no header is no message.
    ensures other_texts_are_told_of_version { told (from_agent (codes "AUEP 8 x MGCP 2.0\r\n") ∷ [])
        ≡ Command None 8 (First 528 None) ∷ [] }
    ensures other_texts_are_told_of_body { told (from_agent (codes "AUEP 7\r\n") ∷ []) ≡ Command None 7 (First 510 None) ∷ [] }
    ensures faulty_again { told (from_agent (audit 7) ∷ from_agent (codes "AUEP 7\r\n") ∷ []) ≡ Command None 7 (Again 200) ∷ [] }
    ensures response { told (response 200 9 ∷ []) ≡ Response 9 false ∷ [] }
    ensures other_texts_are_told_of_acknowledged { told (from_agent (codes "200 9 OK\r\nK:\r\n") ∷ []) ≡ Response 9 true ∷ [] }
    ensures no_header { told (from_agent (codes "hello\r\n") ∷ []) ≡ NoMessage ∷ [] }
    // The texts of a datagram are told of in order, each to the gateway after those before it.
    ensures copies { told (from_agent (audit 1206 ++ codes ".\r\n" ++ audit 1206) ∷ [])
        ≡ audited 1206 (First 200 None) ∷ audited 1206 (Again 200) ∷ [] }
    ensures faults { told (from_agent (codes "AUEP 1202 aaln/1@rgw.example.net MGCP 2.0\r\n.\r\n" ++ audit 1202) ∷ [])
        ≡ Command None 1202 (First 528 None) ∷ audited 1202 (Again 528) ∷ [] }
    ensures answered { last_outcomes example (tick 1 ∷ from_agent
        (codes "RQNT 7 aaln/1@rgw.example.net MGCP 1.0\r\nX: A5\r\n.\r\n200 1 OK\r\n.\r\n"
        ++ codes "RQNT 8 aaln/1@rgw.example.net MGCP 1.0\r\nX: A5\r\n") ∷ [])
        ≡ Command (Some Rqnt) 7 (First 405 (Some parts.Verb)) ∷ Response 1 false ∷ Command (Some Rqnt) 8 (First 200 None) ∷ [] }
    // Only the last event is told of; an act, a tick and a datagram that is too long have no text.
    ensures act { told (from_agent (audit 1206) ∷ phone 1 OffHook ∷ []) ≡ [] }
    ensures tick { told (from_agent (audit 1206) ∷ tick 1001 ∷ []) ≡ [] }
    ensures long { told (from_agent (audit 1206) ∷ from_agent (replicate 4001 65) ∷ []) ≡ [] }
    ensures the_last_event_alone_is_told_of_last { told (from_agent (audit 1206) ∷ response 200 9 ∷ []) ≡ Response 9 false ∷ [] }
{}

/// Each sentence at an example.
pub fn further_sentences_have_examples()
    // The code at the front of an answer is its first three digits.
    ensures code { front_code (codes "200 1206 OK\r\n") ≡ 200 }
    ensures short { front_code (codes "20") ≡ 0 }
    ensures word { front_code (codes "2OO 1206") ≡ 0 }
    // A new command's answer is told of with the line that its name reads as, a repeat's with that of the name in it, wherever it
    // comes from, and with the code of the stored answer; a command for all lines, or that can't be read, is of none.
    ensures answers_are_told_of_first { labels (from_agent (audit 1206) ∷ []) ≡ labelled (AnswerOf (Some 1)) (whats.Answer 200) 1206 ∷ [] }
    ensures answers_are_told_of_refused { labels (from_agent (codes "AUEP 1201 aaln/17@rgw.example.net MGCP 1.0\r\n") ∷ [])
        ≡ labelled (AnswerOf None) (whats.Answer 500) 1201 ∷ [] }
    ensures all_lines { labels (from_agent (codes "AUEP 1202 *@rgw.example.net MGCP 1.0\r\n") ∷ [])
        ≡ labelled (AnswerOf None) (whats.Answer 200) 1202 ∷ [] }
    ensures answers_are_told_of_again { labels (from_agent (audit 1206) ∷ datagram other_agent (audit 1206) ∷ [])
        ≡ (record { to = other_agent; moment = 1000; label = record { whose = AnswerOf (Some 1); what = whats.Again 200; id = 1206 }; size = 0 })
        ∷ [] }
    ensures again_as_another { labels (from_agent (audit 1206)
        ∷ from_agent (codes "AUEP 1206 aaln/2@rgw.example.net MGCP 1.0\r\n") ∷ [])
        ≡ labelled (AnswerOf (Some 2)) (whats.Again 200) 1206 ∷ [] }
    ensures answers_are_told_of_version { labels (from_agent (codes "AUEP 8 aaln/1@rgw.example.net MGCP 2.0\r\n") ∷ [])
        ≡ labelled (AnswerOf None) (whats.Answer 528) 8 ∷ [] }
    ensures version_again { labels (from_agent (codes "AUEP 8 x MGCP 2.0\r\n") ∷ from_agent (codes "AUEP 8 x MGCP 2.0\r\n") ∷ [])
        ≡ labelled (AnswerOf None) (whats.Again 528) 8 ∷ [] }
    ensures answers_are_told_of_body { labels (from_agent (codes "AUEP 7\r\n") ∷ []) ≡ labelled (AnswerOf None) (whats.Answer 510) 7 ∷ [] }
    ensures answers_are_told_of_silence { labels (from_agent (audit 1301) ∷ from_agent (audit 1304 ++ codes "K: 1301\r\n") ∷ from_agent
        (audit 1301) ∷ []) ≡ [] }
    // An acknowledgement is of no line, and a command of a line's own is of that; the messages of an event are told of in their
    // order, and those of the last event alone. What is given up is told of at the tick at which it is.
    ensures other_messages_are_told_of_acknowledged { labels (from_agent (codes "200 9 OK\r\nK:\r\n") ∷ [])
        ≡ labelled Nobody whats.Acknowledgement 9 ∷ [] }
    ensures own { labels (phone 1 OffHook ∷ []) ≡ labelled (OwnOf 1) (whats.Command Ntfy) 10000000 ∷ [] }
    ensures resent { labels (phone 1 OffHook ∷ tick 1500 ∷ [])
        ≡ (record { to = agent; moment = 1500; label = record { whose = OwnOf 1; what = whats.Resent Ntfy 2; id = 10000000 }; size = 0 }) ∷ [] }
    ensures in_order { labels (from_agent (audit 1206 ++ codes ".\r\n" ++ audit 1207) ∷ [])
        ≡ labelled (AnswerOf (Some 1)) (whats.Answer 200) 1206 ∷ labelled (AnswerOf (Some 1)) (whats.Answer 200) 1207 ∷ [] }
    ensures other_messages_are_told_of_last { labels (from_agent (audit 1206) ∷ phone 1 OffHook ∷ [])
        ≡ labelled (OwnOf 1) (whats.Command Ntfy) 10000000 ∷ [] }
    ensures nothing { labels (from_agent (audit 1206) ∷ tick 1001 ∷ []) ≡ [] }
    ensures given_up { (accounted (phone 1 OffHook ∷ tick 24499 ∷ tick 24500 ∷ [])).given_up
        ≡ (record { line = 1; id = 10000000; verb = Ntfy; moment = 24500 }) ∷ [] }
    ensures given_up_before { (accounted (phone 1 OffHook ∷ tick 24500 ∷ tick 24501 ∷ [])).given_up ≡ [] }
    // A command that is refused for its form is told of with what of it is at fault first; where what stands at a line refuses it, the
    // code alone is told.
    ensures name { told (from_agent (codes "AUEP 1 aaln/17@rgw.example.net MGCP 1.0\r\n") ∷ [])
        ≡ audited 1 (First 500 (Some parts.Name)) ∷ [] }
    ensures verb { told (from_agent (codes "ZZZZ 1 aaln/1@rgw.example.net MGCP 1.0\r\n") ∷ [])
        ≡ Command (Some Other) 1 (First 504 (Some parts.Verb)) ∷ [] }
    ensures line { told (rqnt 1 (codes "aaln/1") (codes "X: A0\r\nX: A1\r\n") ∷ [])
        ≡ Command (Some Rqnt) 1 (First 510 (Some (parts.Line 2))) ∷ [] }
    ensures missing { told (rqnt 1 (codes "aaln/1") [] ∷ []) ≡ Command (Some Rqnt) 1 (First 510 (Some (parts.Missing letter_x))) ∷ [] }
    ensures value { told (rqnt 1 (codes "aaln/1") (codes "X: G\r\n") ∷ [])
        ≡ Command (Some Rqnt) 1 (First 510 (Some (parts.Value letter_x))) ∷ [] }
    ensures confirming { told (rqnt 1 (codes "aaln/1") (codes "X: G\r\nK: x\r\n") ∷ [])
        ≡ Command (Some Rqnt) 1 (First 510 (Some (parts.Value letter_k))) ∷ [] }
    ensures description { told (crcx 1 (codes "aaln/1") (codes "\r\nv=0\r\n") ∷ [])
        ≡ Command (Some Crcx) 1 (First 509 (Some parts.Description)) ∷ [] }
    ensures at_the_line { told (mdcx 1 (codes "C: 2\r\nI: 1\r\n") ∷ []) ≡ Command (Some Mdcx) 1 (First 516 None) ∷ [] }
{}

/// It is told how many bytes each message has, and by that messages stand in the datagrams that they go out in, one behind the other, with
/// a dot line between two.
pub fn messages_stand_in_datagrams_by_their_bytes()
    ensures message { sent_message lifted_message
        ≡ record { to = agent; moment = 1000; label = label_of lifted_message; size = length lifted } }
    ensures answers { sizes (from_agent (audit 1206 ++ codes ".\r\n" ++ audit 12070) ∷ []) ≡ 13 ∷ 14 ∷ [] }
    ensures command { sizes (phone 1 OffHook ∷ []) ≡ length lifted ∷ [] }
    ensures both { own_messages (datagram_of (codes "ab\n.\r\ncde\n")) (sized 3 ∷ sized 4 ∷ sized 5 ∷ []) ≡ sized 3 ∷ sized 4 ∷ [] }
    ensures behind { other_messages (datagram_of (codes "ab\n.\r\ncde\n")) (sized 3 ∷ sized 4 ∷ sized 5 ∷ []) ≡ sized 5 ∷ [] }
    ensures one { own_messages (datagram_of (codes "ab\n")) (sized 3 ∷ sized 0 ∷ []) ≡ sized 3 ∷ [] }
    ensures a_byte_short { own_messages (datagram_of (codes "ab\n.\r\ncde")) (sized 3 ∷ sized 4 ∷ []) ≡ sized 3 ∷ [] }
    ensures no_message { own_messages (datagram_of (codes "ab\n")) [] ≡ [] }
    ensures texts { texts_within (codes "ab\n.\r\ncde\n") (sized 3 ∷ sized 4 ∷ []) ≡ codes "ab\n" ∷ codes "cde\n" ∷ [] }
    ensures no_text { texts_within (codes "ab\n") [] ≡ [] }
{}

/// As many texts are told of as a datagram can have: each of its lines is a single dot.
pub fn as_many_texts_are_told_of_as_there_can_be()
    ensures { length (told (from_agent (dot_lines 2000) ∷ [])) ≡ most_texts }
{}
