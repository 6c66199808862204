//! What is heard in texts, as theorems: each sentence of a definition has one that a slip in it breaks.
#![tactic(auto, unfolding(crate::proofs::Computing::on_examples))]

ghost use Rattle.std.specs.Prelude.{◌≡◌, codes, true, false, [], ◌∷◌, length, Some, None};
ghost use Rattle.std.specs.declared.net.socket_addr.SocketAddrV4.{SocketAddrV4};
ghost use Rattle.transmission.specs.Kept.{settled_at, first_entry, kept_with};
ghost use Rattle.transmission.specs.declared.entry.Entry.TheVariants.{Confirmation};
ghost use Rattle.transmission.specs.Looking.{full};
ghost use Rattle.mgcp_text.specs.Reading.{message, no_header, bad_version, bad_body};
ghost use Rattle.mgcp_text.specs.declared.message.Verb.TheVariants as verbs;
ghost use Rattle.mgcp_text.specs.declared.message.Message.TheVariants as messages;
ghost use Rattle.transmission.specs.Texts.{largest_datagram, most_texts, texts_of};
ghost use Rattle.transmission.specs.Example.{dot_lines};
ghost use Rattle.transmission.specs.Transacting.{message_to, transacted_as, with_first};
ghost use Rattle.transmission.specs.Hearing.{hearing, heard_at};

/// Each sentence at an example.
pub fn each_sentence_has_an_example()
    // What has no header comes to nothing; another version is answered by 528, a body that can't be read by 510, and each is kept
    // with its answer, and confirms nothing.
    ensures no_header { (source : SocketAddrV4) → heard_at (settled_at 0 []) source 5 no_header ≡ hearing (settled_at 0 []) [] None }
    ensures version { (source : SocketAddrV4) → heard_at (settled_at 0 []) source 5 (bad_version 7)
        ≡ hearing (with_first (settled_at 0 []) 7 5 [] (codes "528 7\r\n")) (message_to source 5 (codes "528 7\r\n") ∷ []) None }
    ensures body { (source : SocketAddrV4) → heard_at (settled_at 0 []) source 5 (bad_body 7)
        ≡ hearing (with_first (settled_at 0 []) 7 5 [] (codes "510 7\r\n")) (message_to source 5 (codes "510 7\r\n") ∷ []) None }
    // A command that is new is left to the end, which keeps its answer, and so is a response, once it is acknowledged.
    ensures commands_and_responses_are_left_command { (source : SocketAddrV4) →
        let said = messages.Command verbs.Auep 7 (codes "x") [] (codes "v=0\r\n") in
        heard_at (settled_at 0 []) source 5 (message said) ≡ hearing (settled_at 0 []) [] (Some said) }
    ensures response { (source : SocketAddrV4) → let said = messages.Response 200 7 [] (codes "v=0\r\n") in
        heard_at (settled_at 0 []) source 5 (message said) ≡ hearing (settled_at 0 []) [] (Some said) }
    ensures acknowledged { (source : SocketAddrV4) →
        let said = messages.Response 200 7 (record { code = codes "K"; value = [] } ∷ []) [] in
        heard_at (settled_at 0 []) source 5 (message said)
        ≡ hearing (settled_at 0 []) (message_to source 5 (codes "000 7\r\n") ∷ []) (Some said) }
    // Of a repeat nothing is left: its stored answer goes to where the repeat came from, whether or not that can be read. Once
    // confirmed it gets silence, and nothing more is kept of it.
    ensures repeats_get_the_stored_answer_command { (source : SocketAddrV4) →
        let kept = settled_at 0 (first_entry 7 5 (codes "200 7 OK\r\n") ∷ []) in
        heard_at kept source 9 (message (messages.Command verbs.Auep 7 (codes "x") [] []))
        ≡ hearing kept (message_to source 9 (codes "200 7 OK\r\n") ∷ []) None }
    ensures faulty { (source : SocketAddrV4) → let kept = settled_at 0 (first_entry 7 5 (codes "200 7 OK\r\n") ∷ []) in
        heard_at kept source 9 (bad_body 7) ≡ hearing kept (message_to source 9 (codes "200 7 OK\r\n") ∷ []) None }
    ensures confirmed { (source : SocketAddrV4) →
        let kept = settled_at 0 (first_entry 7 5 (codes "200 7 OK\r\n") ∷ Confirmation (record { first = 7; last = 7 } ∷ []) ∷ []) in
        heard_at kept source 9 (bad_version 7) ≡ hearing kept [] None }
    ensures other_id { (source : SocketAddrV4) → let kept = settled_at 0 (first_entry 8 5 (codes "200 8 OK\r\n") ∷ []) in
        let said = messages.Command verbs.Auep 7 (codes "x") [] [] in
        heard_at kept source 9 (message said) ≡ hearing kept [] (Some said) }
    // What finds no room is lost.
    ensures what_finds_no_room_gets_nothing { transacted_as full true (λ text. true) false ≡ false }
{}

/// A datagram that is as long as may be has as many texts as may be where each of its lines is a single dot; with one more it has
/// none, since it is too long.
pub fn dot_lines_are_the_most_texts()
    ensures whole { length (dot_lines 2000) ≡ largest_datagram }
    ensures most { length (texts_of (dot_lines 2000)) ≡ most_texts }
    ensures longer { texts_of (dot_lines 2001) ≡ [] }
{}
