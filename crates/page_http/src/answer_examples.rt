//! Worked examples of the definitions, as theorems: each sentence of a definition has one that a slip in it breaks.
#![tactic(auto, unfolding(crate::proofs::AnswerComputing::on_examples))]

ghost use Rattle.std.specs.Prelude.{◌≡◌, codes, true, false, map, [], ◌∷◌, ◌++◌, Some, None};
ghost use Rattle.page_http.specs.Acting.{queued_in, asked_by};
ghost use Rattle.page_http.specs.AnswerExample.{asks};
ghost use Rattle.page_http.specs.Labelling.{message_word, label_data};
ghost use Rattle.page_http.specs.Telling.{kind_word, event_data, told_after, next_after, has_more, first_number, events_text};
ghost use Rattle.page_http.specs.Texts.{put_shown, state_data};
ghost use Rattle.page_state.specs.declared.act.PhoneAct.TheVariants.{Off, Key};
ghost use Rattle.page_state.specs.declared.label.MessageKind.TheVariants as messages;
ghost use Rattle.page_state.specs.declared.ring.Kind.TheVariants.{Received, Sent, Act, Told, GivenUp};
ghost use Rattle.page_state.specs.Example.{queued, ring_at, lifted, answered, sent_answer, noise};
ghost use Rattle.page_state.specs.Keeping.{nothing_yet};
ghost use Rattle.serde_json.specs.Data.{number, unsigned, boolean, object, member, no_members, null};
ghost use Rattle.serde_json.specs.Written.{compact_text};

/// Each sentence at an example.
pub fn each_sentence_has_an_example()
    // What happened behind a number is told from the oldest, at most so much at once, and then the number behind which to go on.
    ensures all { told_after 128 0 (lifted ∷ answered ∷ []) ≡ lifted ∷ answered ∷ [] }
    ensures what_happened_is_told_behind_a_number_behind { told_after 128 7 (lifted ∷ answered ∷ []) ≡ answered ∷ [] }
    ensures oldest { told_after 1 0 (lifted ∷ answered ∷ []) ≡ lifted ∷ [] }
    ensures next { next_after 0 (ring_at 9 (lifted ∷ answered ∷ [])) ≡ 8 }
    ensures more { has_more 0 (ring_at 9 (lifted ∷ answered ∷ [])) ≡ true }
    ensures no_more { has_more 0 (ring_at 8 (lifted ∷ answered ∷ [])) ≡ false }
    ensures nothing { next_after 8 (ring_at 9 (lifted ∷ answered ∷ [])) ≡ 8 }
    ensures nothing_more { has_more 8 (ring_at 9 (lifted ∷ answered ∷ [])) ≡ false }
    ensures ahead { next_after 12 (ring_at 9 (lifted ∷ answered ∷ [])) ≡ 9 }
    ensures what_happened_is_told_behind_a_number_first { first_number 8 (lifted ∷ answered ∷ []) ≡ 7 }
    ensures first_to_come { first_number 8 [] ≡ 9 }
    // What is told is JSON: what happened, under which number the lines are shown, and the clock.
    ensures shown { put_shown 3 2000 no_members
        ≡ member (codes "clock") (number (unsigned 2000)) (member (codes "version") (number (unsigned 3)) no_members) }
    ensures state { state_data 3 2000 4711 false None 1 (boolean true) null ≡ object (member (codes "agent_answers") (boolean false)
        (member (codes "clock") (number (unsigned 2000)) (member (codes "counts") null (member (codes "first") (number (unsigned 4711))
        (member (codes "lines") (boolean true) (member (codes "lost") (number (unsigned 1)) (member (codes "serving") (boolean false)
        (member (codes "unanswered_since") null (member (codes "version") (number (unsigned 3)) no_members))))))))) }
    ensures act { compact_text (event_data lifted)
        ≡ codes "{\"at\":5000,\"hex\":\"70686f6e652031206f6666\",\"kind\":\"act\",\"n\":7,\"peer\":\"192.168.1.5:2727\"}" }
    ensures kinds { map kind_word (Received ∷ Sent ∷ Act ∷ Told ∷ GivenUp ∷ [])
        ≡ codes "in" ∷ codes "out" ∷ codes "act" ∷ codes "told" ∷ codes "given up" ∷ [] }
    ensures what_is_told_is_json_some { events_text (ring_at 8 (lifted ∷ [])) 0 3 2000
        ≡ codes "{\"clock\":2000,\"events\":[{\"at\":5000,\"hex\":\"70686f6e652031206f6666\",\"kind\":\"act\",\"n\":7,\"peer\":"
        ++ codes "\"192.168.1.5:2727\"}],\"first\":7,\"more\":true,\"next\":7,\"version\":3}" }
    ensures what_is_told_is_json_none { events_text nothing_yet 0 3 2000
        ≡ codes "{\"clock\":2000,\"events\":[],\"first\":1,\"more\":false,\"next\":0,\"version\":3}" }
{}

/// A body asks for an act by a line from 1 to 65,535, and a word.
pub fn a_body_asks_by_line_and_word()
    ensures a_body_asks_by_line_and_word_some { queued_in (asks (codes "off") 1) ≡ Some (queued 1 Off) }
    ensures a_body_asks_by_line_and_word_last { queued_in (asks (codes "5") 65535) ≡ Some (queued 65535 (Key 53)) }
    ensures a_body_asks_by_line_and_word_zero { queued_in (asks (codes "off") 0) ≡ None }
    ensures too_many { queued_in (asks (codes "off") 65536) ≡ None }
    ensures no_word { queued_in (asks (codes "ring") 1) ≡ None }
    ensures empty { queued_in (object no_members) ≡ None }
    ensures no_object { queued_in null ≡ None }
    ensures json { asked_by (codes "{\"line\":10,\"act\":\"#\"}") ≡ Some (queued 10 (Key 35)) }
    ensures no_json { asked_by (codes "off") ≡ None }
{}

/// What the messages of what happened last are is told beside it.
pub fn what_messages_are_stands_beside_them()
    ensures came { map message_word (messages.Unreadable ∷ messages.New ∷ messages.Repeat ∷ messages.Confirmed ∷ messages.Lost
        ∷ messages.Response ∷ []) ≡ codes "unreadable" ∷ codes "new" ∷ codes "repeat" ∷ codes "confirmed" ∷ codes "lost"
        ∷ codes "response" ∷ [] }
    ensures sent { map message_word (messages.Answer ∷ messages.Again ∷ messages.Command ∷ messages.Resent ∷ messages.Acknowledgement
        ∷ messages.GivenUp ∷ []) ≡ codes "answer" ∷ codes "again" ∷ codes "command" ∷ codes "resent" ∷ codes "acknowledgement"
        ∷ codes "given up" ∷ [] }
    ensures known { compact_text (label_data sent_answer)
        ≡ codes "{\"code\":200,\"id\":1207,\"line\":1,\"send\":1,\"what\":\"answer\"}" }
    ensures unknown { compact_text (label_data noise)
        ≡ codes "{\"code\":null,\"id\":null,\"line\":null,\"send\":null,\"what\":\"unreadable\"}" }
    ensures beside { compact_text (event_data (record answered { kind = Sent; said = sent_answer ∷ [] }))
        ≡ codes "{\"at\":5020,\"hex\":\"6f6b\",\"kind\":\"out\",\"n\":8,\"peer\":\"192.168.1.5:2727\","
        ++ codes "\"said\":[{\"code\":200,\"id\":1207,\"line\":1,\"send\":1,\"what\":\"answer\"}]}" }
{}
