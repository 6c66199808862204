//! Worked examples of the definitions, as theorems: each sentence of a definition has one that a slip in it breaks.
#![tactic(auto, unfolding(crate::proofs::Computing::on_examples))]

ghost use Rattle.std.specs.Prelude.{◌≡◌, ◌++◌, [], ◌∷◌, true, false, codes, map, replicate, Some, None, Ok, Err};
ghost use Rattle.connections.specs.declared.codec.Codec.TheVariants as codec;
ghost use Rattle.connections.specs.declared.codec.Codecs.TheVariants as list;
ghost use Rattle.connections.specs.declared.codec.Encoding.TheVariants as encoding;
ghost use Rattle.connections.specs.declared.deletion.Deletion.TheVariants as deletion;
ghost use Rattle.connections.specs.declared.mode.Mode.TheVariants as mode;
ghost use Rattle.connections.specs.Codecs.{payload_type, listed, codecs_by, offered_of, encoding_named, encoding_text};
ghost use Rattle.connections.specs.Modes.{mode_named, mode_text, sends};
ghost use Rattle.connections.specs.Options.{names_of, options_of, options_text, no_options};
ghost use Rattle.connections.specs.Numbers.{number_text, names_number};
ghost use Rattle.connections.specs.Standing.{created, modified, deleted, audited, answered_by, left_by, left_of, whether};
ghost use Rattle.connections.specs.Standing.{is_meant};
ghost use Rattle.connections.specs.Life.{creates, modifies, deletes, after, numbers_of};
ghost use Rattle.connections.specs.Example.{this_host, offering, local_with, local_of, line, calls_in, receives, towards};
ghost use Rattle.connections.specs.Example.{asking, creating, with_calls, no_change, changes_mode, changes_options};
ghost use Rattle.connections.specs.Example.{changes_remote, changing, asked, asked_time, none_known, first_connection};
ghost use Rattle.connections.specs.Example.{pcma_connection, cut_connection, with_one};

/// Each sentence at an example.
pub fn each_sentence_has_an_example()
    // L is items of a name and a value, which commas part; a name stands once, in any case.
    ensures options_are_items_of_a_name_and_a_value_both { options_of (codes "a:PCMA;PCMU, p:10") ≡ Ok (asked (list.Both codec.Pcma) 10) }
    ensures other_order { options_of (codes "p:30 ,a:PCMA") ≡ Ok (asked (list.Only codec.Pcma) 30) }
    ensures codecs_alone { options_of (codes "A:pcmu") ≡ Ok (asked (list.Only codec.Pcmu) 20) }
    ensures time_alone { options_of (codes "P:10") ≡ Ok (asked_time 10) }
    ensures ignored { options_of (codes "b:64,e:on,gc:0,r:g,s:off,t:0,nt:IN,x-y:1,X-:") ≡ Ok no_options }
    ensures options_are_items_of_a_name_and_a_value_empty { options_of [] ≡ Err 541 }
    ensures empty_item { options_of (codes "p:20,") ≡ Err 541 }
    ensures no_colon { options_of (codes "a") ≡ Err 541 }
    ensures options_are_items_of_a_name_and_a_value_unknown { options_of (codes "k:x") ≡ Err 541 }
    ensures options_are_items_of_a_name_and_a_value_blank { options_of (codes "p: 20") ≡ Err 541 }
    ensures blank_before { options_of (codes "p :20") ≡ Err 541 }
    ensures twice { options_of (codes "a:PCMU,p:20,A:PCMA") ≡ Err 541 }
    ensures ignored_twice { options_of (codes "x-a:1,X-A:2") ≡ Err 541 }
    ensures others_of_x { options_of (codes "x-a:1,x-b:1") ≡ Ok no_options }
    ensures no_hyphen { options_of (codes "xy:1") ≡ Err 541 }
    ensures upper_case { options_of (codes "B:64,E:on,GC:0,R:g,S:off,T:0,NT:IN") ≡ Ok no_options }
    ensures colon_in_a_value { options_of (codes "x-y:1:2") ≡ Ok no_options }
    // Of the codecs PCMU and PCMA count, each at its first place only.
    ensures names { names_of (codes "PCMU;G729;;x") ≡ codes "PCMU" ∷ codes "G729" ∷ [] ∷ codes "x" ∷ [] }
    ensures skipped { options_of (codes "a:G729;pcma;G723;PCMU") ≡ Ok (asked (list.Both codec.Pcma) 20) }
    ensures known_codecs_count_once_again { options_of (codes "a:PCMU;PCMU;PCMA;PCMU") ≡ Ok (asked (list.Both codec.Pcmu) 20) }
    ensures again_alone { options_of (codes "a:PCMA;PCMA") ≡ Ok (asked (list.Only codec.Pcma) 20) }
    ensures known_codecs_count_once_unknown { options_of (codes "a:G729") ≡ Ok none_known }
    ensures known_codecs_count_once_empty { options_of (codes "a:") ≡ Ok none_known }
    ensures known_codecs_count_once_blank { options_of (codes "a:PCMU; PCMA") ≡ Ok (asked (list.Only codec.Pcmu) 20) }
{}

/// Each sentence at an example.
pub fn further_sentences_have_examples()
    // The packet time is the least of 10, 20 and 30 ms that is asked for.
    ensures range { options_of (codes "p:10-30") ≡ Ok (asked_time 10) }
    ensures within { options_of (codes "p:11-29") ≡ Ok (asked_time 20) }
    ensures high { options_of (codes "p:21-1000") ≡ Ok (asked_time 30) }
    ensures edges { options_of (codes "p:20-20") ≡ Ok (asked_time 20) }
    ensures the_least_packet_time_is_taken_zeros { options_of (codes "p:0030") ≡ Ok (asked_time 30) }
    ensures low { options_of (codes "p:5") ≡ Err 535 }
    ensures between { options_of (codes "p:11-19") ≡ Err 535 }
    ensures above { options_of (codes "p:31-99") ≡ Err 535 }
    ensures downwards { options_of (codes "p:30-10") ≡ Err 535 }
    ensures no_number { options_of (codes "p:x") ≡ Err 541 }
    ensures no_value { options_of (codes "p:") ≡ Err 541 }
    ensures half { options_of (codes "p:20-") ≡ Err 541 }
    ensures other_half { options_of (codes "p:-20") ≡ Err 541 }
    ensures long { options_of (codes "p:0000000000000000020") ≡ Err 541 }
    // A fault of spelling comes before a packet time that can't be had, wherever it stands.
    ensures behind { options_of (codes "p:5,k:x") ≡ Err 541 }
    ensures before { options_of (codes "k:x,p:5") ≡ Err 541 }
    ensures alone { options_of (codes "p:5,s:on") ≡ Err 535 }
    // L is written with its codecs and its packet time.
    ensures options_are_written_both { options_text (list.Both codec.Pcmu) 20 ≡ codes "a:PCMU;PCMA, p:20" }
    ensures options_are_written_other { options_text (list.Both codec.Pcma) 10 ≡ codes "a:PCMA;PCMU, p:10" }
    ensures options_are_written_one { options_text (list.Only codec.Pcma) 30 ≡ codes "a:PCMA, p:30" }
    ensures options_are_written_first { options_text (list.Only codec.Pcmu) 30 ≡ codes "a:PCMU, p:30" }
    ensures options_are_written_again { options_of (options_text (list.Both codec.Pcma) 10) ≡ Ok (asked (list.Both codec.Pcma) 10) }
    // The codecs of an encoding are both, its own first; PCMU is payload type 0 and PCMA 8.
    ensures mu { map payload_type (listed (codecs_by encoding.Mu)) ≡ 0 ∷ 8 ∷ [] }
    ensures a { map payload_type (listed (codecs_by encoding.A)) ≡ 8 ∷ 0 ∷ [] }
    ensures an_encoding_says_which_codec_is_first_one { map payload_type (listed (list.Only codec.Pcma)) ≡ 8 ∷ [] }
    ensures read_mu { encoding_named (codes "E:MU") ≡ Some encoding.Mu }
    ensures read_a { encoding_named (codes "e:a") ≡ Some encoding.A }
    ensures read_other { encoding_named (codes "e:b") ≡ None }
    ensures written_mu { encoding_text encoding.Mu ≡ codes "e:mu" }
    ensures written_a { encoding_text encoding.A ≡ codes "e:A" }
{}

/// Each sentence at an example.
pub fn more_sentences_have_examples()
    // Of a list those codecs are left that the remote description offers, in the list's order.
    ensures what_is_offered_is_left_both { offered_of (8 ∷ 18 ∷ 0 ∷ []) (list.Both codec.Pcmu) ≡ Some (list.Both codec.Pcmu) }
    ensures what_is_offered_is_left_first { offered_of (0 ∷ []) (list.Both codec.Pcmu) ≡ Some (list.Only codec.Pcmu) }
    ensures second { offered_of (8 ∷ []) (list.Both codec.Pcmu) ≡ Some (list.Only codec.Pcma) }
    ensures what_is_offered_is_left_one { offered_of (0 ∷ 8 ∷ []) (list.Only codec.Pcma) ≡ Some (list.Only codec.Pcma) }
    ensures none { offered_of (18 ∷ []) (list.Both codec.Pcma) ≡ None }
    ensures not_that { offered_of (0 ∷ []) (list.Only codec.Pcma) ≡ None }
    // Modes are read in any case and written in lower case; three of them send.
    ensures send { mode_named (codes "SendOnly") ≡ Some mode.SendOnly }
    ensures receive { mode_named (mode_text mode.ReceiveOnly) ≡ Some mode.ReceiveOnly }
    ensures modes_have_names_both { mode_named (mode_text mode.SendReceive) ≡ Some mode.SendReceive }
    ensures conference { mode_named (mode_text mode.Conference) ≡ Some mode.Conference }
    ensures inactive { mode_named (mode_text mode.Inactive) ≡ Some mode.Inactive }
    ensures other_cases { map mode_named
        (codes "SENDONLY" ∷ codes "RecvOnly" ∷ codes "SENDrecv" ∷ codes "CONFRNCE" ∷ codes "Inactive" ∷ [])
        ≡ map Some (mode.SendOnly ∷ mode.ReceiveOnly ∷ mode.SendReceive ∷ mode.Conference ∷ mode.Inactive ∷ []) }
    ensures modes_have_names_other { mode_named (codes "loopback") ≡ None }
    ensures texts { map mode_text (mode.SendOnly ∷ mode.ReceiveOnly ∷ mode.SendReceive ∷ mode.Conference ∷ mode.Inactive ∷ [])
        ≡ codes "sendonly" ∷ codes "recvonly" ∷ codes "sendrecv" ∷ codes "confrnce" ∷ codes "inactive" ∷ [] }
    ensures who { map sends (mode.SendOnly ∷ mode.ReceiveOnly ∷ mode.SendReceive ∷ mode.Conference ∷ mode.Inactive ∷ [])
        ≡ true ∷ false ∷ true ∷ true ∷ false ∷ [] }
    // A connection's identifier is its number in hexadecimal digits; it is compared as a text without case.
    ensures identifiers_are_compared_as_texts_one { number_text 1 ≡ codes "1" }
    ensures ten { number_text 10 ≡ codes "A" }
    ensures greatest { number_text 4294967295 ≡ codes "FFFFFFFF" }
    ensures two_digits { number_text 4096 ≡ codes "1000" }
    ensures same { names_number (codes "1a") 26 ≡ true }
    ensures identifiers_are_compared_as_texts_zeros { names_number (codes "01") 1 ≡ false }
    ensures identifiers_are_compared_as_texts_other { names_number (codes "2") 1 ≡ false }
{}

/// Each sentence at an example.
pub fn other_sentences_have_examples()
    // A connection takes the next number and the least free place; its description has version 1. The fifth finds no place.
    ensures first { creating (receives (codes "1A")) line
        ≡ Ok (record { number = 1; description = local_of 1 1 3000 (0 ∷ 8 ∷ []) }) }
    ensures connections_are_created_left { left_by line (created encoding.Mu (receives (codes "1A")) line) ≡ with_one first_connection }
    ensures connections_are_created_encoded { answered_by (created encoding.A (receives (codes "1A")) line)
        ≡ Ok (record { number = 1; description = local_of 1 1 3000 (8 ∷ 0 ∷ []) }) }
    ensures connections_are_created_second { creating (receives (codes "2")) (with_one first_connection)
        ≡ Ok (record { number = 2; description = local_of 2 1 3002 (0 ∷ 8 ∷ []) }) }
    ensures fourth { creating (receives (codes "1")) (with_calls (codes "1" ∷ codes "2" ∷ codes "1" ∷ []))
        ≡ Ok (record { number = 4; description = local_of 4 1 3006 (0 ∷ 8 ∷ []) }) }
    ensures connections_are_created_numbers { numbers_of (with_calls (replicate 4 (codes "1A"))) ≡ 1 ∷ 2 ∷ 3 ∷ 4 ∷ [] }
    ensures fifth { creating (receives (codes "1")) (with_calls (replicate 4 (codes "1A"))) ≡ Err 540 }
    ensures nothing_changes { numbers_of (with_calls (replicate 5 (codes "1A"))) ≡ 1 ∷ 2 ∷ 3 ∷ 4 ∷ [] }
    ensures sending { creating (towards (calls_in mode.SendOnly (codes "1")) (18 ∷ 8 ∷ [])) line
        ≡ Ok (record { number = 1; description = local_of 1 1 3000 (8 ∷ []) }) }
    ensures asking { creating (asking (receives (codes "1")) (asked (list.Only codec.Pcma) 30)) line
        ≡ Ok (record { number = 1; description = local_with 1 1 3000 (8 ∷ []) 30 }) }
    ensures connections_are_created_kept { left_by line (created encoding.Mu
        (asking (towards (calls_in mode.Conference (codes "1A")) (0 ∷ []))
        (asked (list.Both codec.Pcma) 10)) line)
        ≡ with_one (record first_connection {
          mode = mode.Conference;
          options = asked (list.Both codec.Pcma) 10;
          codecs = record { local = list.Both codec.Pcma; in_force = list.Only codec.Pcmu };
          remote = Some (offering (0 ∷ []));
        }) }
    // A creation is refused with the first code that applies: 540, 502, 534, 527.
    ensures creations_are_refused_in_an_order_mode { creating (calls_in mode.SendReceive (codes "1")) line ≡ Err 527 }
    ensures creations_are_refused_in_an_order_codec { creating (towards (receives (codes "1A")) (18 ∷ [])) line ≡ Err 534 }
    ensures own_codec { creating (asking (receives (codes "1A")) none_known) line ≡ Err 534 }
    ensures creations_are_refused_in_an_order_codec_before_mode { creating (asking (calls_in mode.SendOnly (codes "1A")) none_known)
        line ≡ Err 534 }
    ensures creations_are_refused_in_an_order_greatest { creating (receives (codes "1")) (record line { last = 4294967294 })
        ≡ Ok (record { number = 4294967295; description = local_of 4294967295 1 3000 (0 ∷ 8 ∷ []) }) }
    ensures creations_are_refused_in_an_order_used_up { creating (receives (codes "1")) (record line { last = 4294967295 }) ≡ Err 502 }
    ensures number_before_codec { creating (asking (receives (codes "1A")) none_known) (record line { last = 4294967295 })
        ≡ Err 502 }
    ensures place_before_number { creating (receives (codes "1"))
        (record (with_calls (replicate 4 (codes "1"))) { last = 4294967295 }) ≡ Err 540 }
    // A place that is deleted is free again, and the next connection takes the least of those; its number is a new one.
    ensures the_least_free_place_is_taken_again_numbers { numbers_of (after (with_calls (replicate 4 (codes "1A")))
        (deletes (deletion.One (codes "1A") (codes "3")) ∷ deletes (deletion.One (codes "1A") (codes "2"))
        ∷ creates encoding.Mu (receives (codes "B")) ∷ [])) ≡ 1 ∷ 5 ∷ 4 ∷ [] }
    ensures port { creating (receives (codes "1")) (after (with_calls (replicate 4 (codes "1A")))
        (deletes (deletion.One (codes "1A") (codes "2")) ∷ []))
        ≡ Ok (record { number = 5; description = local_of 5 1 3002 (0 ∷ 8 ∷ []) }) }
    // A change replaces what it gives; the description is answered, with the next version, where the list in force or the packet
    // time has changed.
    ensures offered { changing (codes "1") (record (changes_mode mode.SendReceive) { remote = Some (offering (8 ∷ [])) })
        (with_one first_connection) ≡ Ok (Some (local_of 1 2 3000 (8 ∷ []))) }
    ensures connections_are_modified_left { left_by (with_one first_connection) (modified encoding.Mu (codes "1A") (codes "1")
        (record (changes_mode mode.SendReceive) { remote = Some (offering (8 ∷ [])) }) (with_one first_connection))
        ≡ with_one (record first_connection {
          mode = mode.SendReceive;
          codecs = record { local = list.Both codec.Pcmu; in_force = list.Only codec.Pcma };
          remote = Some (offering (8 ∷ []));
          version = 2;
        }) }
    ensures description_alone { changing (codes "1") (changes_remote (8 ∷ [])) (with_one first_connection)
        ≡ Ok (Some (local_of 1 2 3000 (8 ∷ []))) }
    ensures mode_alone { changing (codes "1") (changes_mode mode.Inactive) (with_one first_connection) ≡ Ok None }
    ensures call_as_it_was { left_by (with_one first_connection) (modified encoding.Mu (codes "1a") (codes "1")
        (changes_mode mode.Inactive) (with_one first_connection))
        ≡ with_one (record first_connection { mode = mode.Inactive }) }
    ensures nothing { left_by (with_one first_connection) (modified encoding.Mu (codes "1A") (codes "1") no_change
        (with_one first_connection)) ≡ with_one first_connection }
{}

/// Each sentence at an example.
pub fn still_more_sentences_have_examples()
    // A remote description that leaves the list as it was is kept, and nothing is answered.
    ensures same_list { changing (codes "1") (changes_remote (0 ∷ 8 ∷ [])) (with_one first_connection) ≡ Ok None }
    ensures connections_are_modified_kept { left_by (with_one first_connection) (modified encoding.Mu (codes "1A") (codes "1")
        (changes_remote (8 ∷ 0 ∷ [])) (with_one first_connection))
        ≡ with_one (record first_connection { remote = Some (offering (8 ∷ 0 ∷ [])) }) }
    ensures time { changing (codes "1") (changes_options (asked_time 30)) (with_one first_connection)
        ≡ Ok (Some (local_with 1 2 3000 (0 ∷ 8 ∷ []) 30)) }
    ensures other_place { changing (codes "2") (changes_options (asked_time 10)) (with_calls (codes "1A" ∷ codes "1A" ∷ []))
        ≡ Ok (Some (local_with 2 2 3002 (0 ∷ 8 ∷ []) 10)) }
    // Without options those that stand are asked for again: a changed encoding counts now.
    ensures connections_are_modified_encoded { answered_by (modified encoding.A (codes "1A") (codes "1") no_change
        (with_one first_connection))
        ≡ Ok (Some (local_of 1 2 3000 (8 ∷ 0 ∷ []))) }
    // Options are replaced as a whole.
    ensures whole { changing (codes "1") (changes_options no_options)
        (with_one (record pcma_connection { remote = None }))
        ≡ Ok (Some (local_of 1 2 3000 (0 ∷ 8 ∷ []))) }
    // What isn't given stays: the options, and the remote description, so that a mode that sends can be.
    ensures stays { left_by (with_one pcma_connection) (modified encoding.Mu (codes "1A") (codes "1")
        (changes_mode mode.SendReceive) (with_one pcma_connection))
        ≡ with_one (record pcma_connection { mode = mode.SendReceive }) }
    // One codec in place of another, and both in place of one, change the description.
    ensures other_codec { changing (codes "1")
        (record (changes_remote (0 ∷ [])) { options = Some (asked (list.Only codec.Pcmu) 30) }) (with_one pcma_connection)
        ≡ Ok (Some (local_with 1 2 3000 (0 ∷ []) 30)) }
    ensures both_codecs { changing (codes "1")
        (record (changes_remote (0 ∷ 8 ∷ [])) { options = Some (asked (list.Both codec.Pcma) 30) }) (with_one pcma_connection)
        ≡ Ok (Some (local_with 1 2 3000 (8 ∷ 0 ∷ []) 30)) }
    // Each change that shows has a version of its own.
    ensures next_change { changing (codes "1") (changes_options (asked_time 30)) (after (with_one first_connection)
        (modifies encoding.Mu (codes "1A") (codes "1") (changes_remote (8 ∷ [])) ∷ []))
        ≡ Ok (Some (local_with 1 3 3000 (8 ∷ []) 30)) }
    // The list in force is worked out anew with the remote description that stands.
    ensures offered_before { changing (codes "1") (changes_options no_options) (with_one pcma_connection)
        ≡ Ok (Some (local_of 1 2 3000 (8 ∷ []))) }
    ensures not_offered_before { changing (codes "1") (changes_options (asked (list.Only codec.Pcmu) 30))
        (with_one pcma_connection) ≡ Err 534 }
    // What becomes of the local list alone shows nowhere: the version stays, and nothing is answered. Here the list in force
    // is PCMA before and after.
    ensures local_list { left_by (with_one cut_connection) (modified encoding.Mu (codes "1a") (codes "1")
        (changes_options (asked (list.Only codec.Pcma) 20)) (with_one cut_connection))
        ≡ with_one (record cut_connection {
          options = asked (list.Only codec.Pcma) 20;
          codecs = record { local = list.Only codec.Pcma; in_force = list.Only codec.Pcma };
        }) }
    ensures local_list_unsaid { changing (codes "1") (changes_options (asked (list.Only codec.Pcma) 20))
        (with_one cut_connection) ≡ Ok None }
    ensures encoding_unseen { answered_by (modified encoding.A (codes "1A") (codes "1") no_change
        (with_one cut_connection)) ≡ Ok None }
    // A modification is refused with the first code that applies: 516, 515, 534, 527, 502.
    ensures modifications_are_refused_in_an_order_no_call { answered_by (modified encoding.Mu (codes "2") (codes "1") no_change
        (with_one first_connection)) ≡ Err 516 }
    ensures modifications_are_refused_in_an_order_no_call_before { answered_by (modified encoding.Mu (codes "2") (codes "9") no_change
        (with_one first_connection))
        ≡ Err 516 }
    ensures modifications_are_refused_in_an_order_no_id { changing (codes "9") (changes_options none_known) (with_one first_connection)
        ≡ Err 515 }
    ensures modifications_are_refused_in_an_order_zeros { changing (codes "01") no_change (with_one first_connection) ≡ Err 515 }
    ensures modifications_are_refused_in_an_order_lower_case { changing (codes "a") no_change
        (with_one (record first_connection { number = 10 })) ≡ Ok None }
    ensures modifications_are_refused_in_an_order_of_another_call { changing (codes "1") no_change
        (with_calls (codes "B" ∷ codes "1A" ∷ [])) ≡ Err 515 }
    ensures own { changing (codes "2") no_change (with_calls (codes "B" ∷ codes "1A" ∷ [])) ≡ Ok None }
    ensures modifications_are_refused_in_an_order_codec { changing (codes "1") (changes_remote (18 ∷ [])) (with_one first_connection)
        ≡ Err 534 }
    ensures modifications_are_refused_in_an_order_mode { changing (codes "1") (changes_mode mode.SendReceive)
        (with_one first_connection) ≡ Err 527 }
    ensures modifications_are_refused_in_an_order_codec_before_mode { changing (codes "1")
        (record (changes_mode mode.Conference) { options = Some none_known }) (with_one first_connection) ≡ Err 534 }
    ensures modifications_are_refused_in_an_order_greatest { changing (codes "1") (changes_options (asked_time 30))
        (with_one (record first_connection { version = 4294967294 }))
        ≡ Ok (Some (local_with 1 4294967295 3000 (0 ∷ 8 ∷ []) 30)) }
    ensures modifications_are_refused_in_an_order_used_up { changing (codes "1") (changes_options (asked_time 30))
        (with_one (record first_connection { version = 4294967295 })) ≡ Err 502 }
    ensures not_needed { changing (codes "1") (changes_mode mode.Inactive)
        (with_one (record first_connection { version = 4294967295 })) ≡ Ok None }
    ensures mode_before_version { changing (codes "1") (record (changes_mode mode.SendOnly) { options = Some (asked_time 30) })
        (with_one (record first_connection { version = 4294967295 })) ≡ Err 527 }
{}

/// Each sentence at an example.
pub fn yet_more_sentences_have_examples()
    // One connection is deleted, or those of a call, or all.
    ensures connections_are_deleted_one { numbers_of (after (with_calls (codes "1A" ∷ codes "B" ∷ codes "1a" ∷ []))
        (deletes (deletion.One (codes "1a") (codes "3")) ∷ [])) ≡ 1 ∷ 2 ∷ [] }
    ensures of_call { numbers_of (after (with_calls (codes "1A" ∷ codes "B" ∷ codes "1a" ∷ []))
        (deletes (deletion.OfCall (codes "1a")) ∷ [])) ≡ 2 ∷ [] }
    ensures all { numbers_of (after (with_calls (codes "1A" ∷ codes "B" ∷ [])) (deletes deletion.All ∷ [])) ≡ [] }
    ensures all_of_none { deleted deletion.All line ≡ Ok line }
    ensures done { whether (deleted (deletion.OfCall (codes "1a")) (with_one first_connection)) ≡ Ok tt }
    ensures connections_are_deleted_no_call { deleted (deletion.OfCall (codes "2")) (with_one first_connection) ≡ Err 516 }
    ensures connections_are_deleted_no_call_before { deleted (deletion.One (codes "2") (codes "9")) (with_one first_connection) ≡ Err 516 }
    ensures connections_are_deleted_no_id { deleted (deletion.One (codes "1A") (codes "2")) (with_one first_connection) ≡ Err 515 }
    ensures connections_are_deleted_zeros { deleted (deletion.One (codes "1A") (codes "01")) (with_one first_connection) ≡ Err 515 }
    ensures connections_are_deleted_lower_case { whether (deleted (deletion.One (codes "1A") (codes "a"))
        (with_one (record first_connection { number = 10 }))) ≡ Ok tt }
    ensures answered { whether (deleted (deletion.One (codes "1A") (codes "2")) (with_one first_connection)) ≡ Err 515 }
    ensures connections_are_deleted_of_another_call { deleted (deletion.One (codes "1A") (codes "1"))
        (with_calls (codes "B" ∷ codes "1A" ∷ [])) ≡ Err 515 }
    // Call and identifier count, both.
    ensures one_of_another_call { is_meant (deletion.One (codes "B") (codes "1")) first_connection ≡ false }
    // The number isn't given again.
    ensures number { numbers_of (after (with_one first_connection)
        (deletes deletion.All ∷ creates encoding.Mu (receives (codes "1A")) ∷ [])) ≡ 2 ∷ [] }
    ensures connections_are_deleted_left { left_of (with_one first_connection)
        (deleted (deletion.OfCall (codes "2")) (with_one first_connection))
        ≡ with_one first_connection }
    // An audit gives the connection and its local description, whatever its call.
    ensures connections_are_audited_one { audited (codes "1") (with_one first_connection)
        ≡ Ok (record { connection = first_connection; description = local_of 1 1 3000 (0 ∷ 8 ∷ []) }) }
    ensures connections_are_audited_second { audited (codes "2") (with_calls (codes "1A" ∷ codes "B" ∷ []))
        ≡ Ok (record {
          connection = record first_connection { call = codes "B"; number = 2 };
          description = local_of 2 1 3002 (0 ∷ 8 ∷ []);
        }) }
    ensures none { audited (codes "2") (with_one first_connection) ≡ Err 515 }
    // A refused command changes nothing.
    ensures creation { left_by line (created encoding.Mu (calls_in mode.SendOnly (codes "1")) line) ≡ line }
    ensures change { after (with_one first_connection) (modifies encoding.Mu (codes "1A") (codes "1")
        (changes_mode mode.SendOnly) ∷ []) ≡ with_one first_connection }
    // Each command finds the line with the encoding that it has then.
    ensures created { after line (creates encoding.A (receives (codes "1A")) ∷ [])
        ≡ with_one (record first_connection {
          codecs = record { local = list.Both codec.Pcma; in_force = list.Both codec.Pcma };
        }) }
    ensures modified { after (with_one first_connection) (modifies encoding.A (codes "1A") (codes "1") no_change ∷ [])
        ≡ with_one (record first_connection {
          codecs = record { local = list.Both codec.Pcma; in_force = list.Both codec.Pcma };
          version = 2;
        }) }
{}
