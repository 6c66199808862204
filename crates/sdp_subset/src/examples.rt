//! Worked examples of the definitions, as theorems: each sentence of a definition has one that a slip in it breaks.
#![tactic(auto, unfolding(crate::proofs::Computing::on_examples))]

ghost use Rattle.std.specs.Prelude.{◌≡◌, ◌++◌, codes, map, replicate, [], ◌∷◌, Some, None, Ok, Err, true, false, length};
ghost use Rattle.std.specs.List.{concat};
ghost use Rattle.sdp_subset.specs.declared.fault.SdpFault.TheVariants as faults;
ghost use Rattle.sdp_subset.specs.Payloads.{is_payload, are_payloads, payloads_from, has_room, with_payload};
ghost use Rattle.sdp_subset.specs.Fields.{equals_sign, is_field, are_fields, has_version};
ghost use Rattle.sdp_subset.specs.Fields.{is_media, is_audio, is_connection};
ghost use Rattle.sdp_subset.specs.Fields.{from_audio, first_connection, connection_of};
ghost use Rattle.sdp_subset.specs.Reading.{port_of, payload_of, payloads_of, audio_of, address_of};
ghost use Rattle.sdp_subset.specs.Reading.{session_of, answer_of, session_read, sdp_fault_number};
ghost use Rattle.sdp_subset.specs.Writing.{address_text, session_text, as_read};
ghost use Rattle.sdp_subset.specs.Example.{host, offered, from_host, read_with_audio, read_with_connection};
ghost use Rattle.sdp_subset.specs.Example.{originated, timed, greatest};

/// Each sentence at an example.
pub fn each_sentence_has_an_example()
    // A payload type is a number up to 127, and there are 1 to 32 of them.
    ensures least { is_payload 0 ≡ true }
    ensures greatest { is_payload 127 ≡ true }
    ensures past { is_payload 128 ≡ false }
    ensures payload_types_have_seven_bits_none { payloads_from [] ≡ None }
    ensures one { payloads_from (127 ∷ []) ≡ Some (127 ∷ []) }
    ensures high { payloads_from (0 ∷ 128 ∷ []) ≡ None }
    ensures most { payloads_from (replicate 32 8) ≡ Some (replicate 32 8) }
    ensures too_many { payloads_from (replicate 33 8) ≡ None }
    ensures added { with_payload (8 ∷ []) 0 ≡ 8 ∷ 0 ∷ [] }
    ensures last { has_room (replicate 31 8) 127 ≡ true }
    ensures full { has_room (replicate 32 8) 8 ≡ false }
    ensures stays { with_payload (replicate 32 8) 8 ≡ replicate 32 8 }
    ensures high_stays { with_payload (8 ∷ []) 128 ≡ 8 ∷ [] }
    // A line is a letter, `=` and text, which may be empty.
    ensures sign { codes "=" ≡ equals_sign ∷ [] }
    ensures text { is_field (codes "s=a call") ≡ true }
    ensures no_text { is_field (codes "s=") ≡ true }
    ensures letters { map is_field (codes "a=" ∷ codes "z=" ∷ codes "A=" ∷ codes "Z=" ∷ [])
        ≡ true ∷ true ∷ true ∷ true ∷ [] }
    ensures lines_are_fields_others { map is_field (codes "@=" ∷ codes "[=" ∷ codes "`=" ∷ codes "{=" ∷ codes "0=" ∷ [])
        ≡ false ∷ false ∷ false ∷ false ∷ false ∷ [] }
    ensures two_letters { is_field (codes "ab=x") ≡ false }
    ensures no_sign { is_field (codes "s:-") ≡ false }
    ensures letter { is_field (codes "s") ≡ false }
    ensures lines_are_fields_blank { is_field (codes "s =-") ≡ false }
    ensures no_letter { is_field (codes "=x") ≡ false }
    ensures nothing { is_field [] ≡ false }
{}

/// Each sentence at an example.
pub fn further_sentences_have_examples()
    // The first line is `v=0`.
    ensures version { has_version (codes "v=0" ∷ codes "s=-" ∷ []) ≡ true }
    ensures alone { has_version (codes "v=0" ∷ []) ≡ true }
    ensures a_description_begins_with_its_version_other { has_version (codes "v=1" ∷ []) ≡ false }
    ensures longer { has_version (codes "v=00" ∷ []) ≡ false }
    ensures a_description_begins_with_its_version_upper { has_version (codes "V=0" ∷ []) ≡ false }
    ensures later { has_version (codes "s=-" ∷ codes "v=0" ∷ []) ≡ false }
    ensures empty { has_version ([] ∷ codes "v=0" ∷ []) ≡ false }
    ensures a_description_begins_with_its_version_none { has_version [] ≡ false }
    ensures read_alone { session_of (codes "v=0\r\n") ≡ None }
    ensures read_none { session_of [] ≡ None }
    ensures read_other { session_of (codes "v=1\nc=IN IP4 10.0.0.1\nm=audio 4000 RTP/AVP 0") ≡ None }
    ensures read_later { session_of (codes "o=x\nv=0\nc=IN IP4 10.0.0.1\nm=audio 4000 RTP/AVP 0") ≡ None }
    ensures read_blanks { session_of (codes " v=0\t\n c=IN IP4 10.0.0.1\nm=audio 4000 RTP/AVP 0 ") ≡ from_host 1 }
    // Empty lines are dropped at the end, and stand nowhere else.
    ensures ends { are_fields (codes "s=-" ∷ [] ∷ [] ∷ []) ≡ true }
    ensures middle { are_fields (codes "s=-" ∷ [] ∷ codes "t=0 0" ∷ []) ≡ false }
    ensures stray { are_fields (codes "s=-" ∷ codes "x" ∷ []) ≡ false }
    ensures empty_lines_end_a_description_behind { are_fields ([] ∷ codes "x" ∷ []) ≡ false }
    ensures read_end { session_of (codes "v=0\r\nc=IN IP4 10.0.0.1\r\nm=audio 4000 RTP/AVP 0\r\n\r\n \t\r\n")
        ≡ from_host 1 }
    ensures read_middle { session_of (codes "v=0\r\n\r\nc=IN IP4 10.0.0.1\r\nm=audio 4000 RTP/AVP 0\r\n") ≡ None }
    ensures read_front { session_of (codes "\r\nv=0\r\nc=IN IP4 10.0.0.1\r\nm=audio 4000 RTP/AVP 0\r\n") ≡ None }
    ensures read_return { session_of (codes "\r") ≡ None }
    ensures read_return_behind { session_of (codes "v=0\nc=IN IP4 10.0.0.1\nm=audio 4000 RTP/AVP 0\n\r") ≡ None }
    ensures read_return_end { session_of (codes "v=0\nc=IN IP4 10.0.0.1\nm=audio 4000 RTP/AVP 0\n\r\n") ≡ from_host 1 }
    ensures read_empty_name { session_of (codes "v=0\ns= \nc=IN IP4 10.0.0.1\nm=audio 4000 RTP/AVP 0") ≡ from_host 1 }
    ensures read_no_sign { session_of (codes "v=0\ns\nc=IN IP4 10.0.0.1\nm=audio 4000 RTP/AVP 0") ≡ None }
    ensures read_two_letters { session_of (codes "v=0\nab=x\nc=IN IP4 10.0.0.1\nm=audio 4000 RTP/AVP 0") ≡ None }
    ensures read_stray_end { session_of (codes "v=0\nc=IN IP4 10.0.0.1\nm=audio 4000 RTP/AVP 0\nx") ≡ None }
{}

/// Each sentence at an example.
pub fn more_sentences_have_examples()
    // A line is told by the bytes that it begins with.
    ensures media { is_media (codes "m=") ≡ true }
    ensures lines_are_told_by_what_they_begin_with_no_media { is_media (codes "m") ≡ false }
    ensures audio { is_audio (codes "m=audio") ≡ true }
    ensures more { is_audio (codes "m=audiox") ≡ true }
    ensures lines_are_told_by_what_they_begin_with_blank { is_audio (codes "m= audio") ≡ false }
    ensures lines_are_told_by_what_they_begin_with_upper { is_audio (codes "m=Audio") ≡ false }
    ensures lines_are_told_by_what_they_begin_with_other { is_audio (codes "m=video") ≡ false }
    ensures connection { is_connection (codes "c=") ≡ true }
    ensures no_connection { is_connection (codes "b=c=") ≡ false }
    // The first audio line is used.
    ensures the_first_audio_line_is_used_lines { from_audio (codes "v=0" ∷ codes "m=video" ∷ codes "m=audio" ∷ codes "m=audio 2" ∷ codes
        "a=x" ∷ [])
        ≡ codes "m=audio" ∷ codes "m=audio 2" ∷ codes "a=x" ∷ [] }
    ensures the_first_audio_line_is_used_none { from_audio (codes "v=0" ∷ codes "m=video" ∷ []) ≡ [] }
    ensures second { read_with_audio (codes "m=audio 4000 RTP/AVP 0\nm=audio 5000 RTP/AVP 8") ≡ from_host 1 }
    ensures the_first_audio_line_is_used_bad_second { read_with_audio (codes "m=audio 4000 RTP/AVP 0\nm=audio x") ≡ from_host 1 }
    ensures the_first_audio_line_is_used_bad_first { read_with_audio (codes "m=audio x\nm=audio 4000 RTP/AVP 0") ≡ None }
    ensures longer_first { read_with_audio (codes "m=audiox 5000 RTP/AVP 0\nm=audio 4000 RTP/AVP 0") ≡ None }
    ensures video_first { read_with_audio (codes "m=video 5000 RTP/AVP 31\nm=audio 4000 RTP/AVP 0") ≡ from_host 1 }
    ensures video_alone { read_with_audio (codes "m=video 5000 RTP/AVP 31") ≡ None }
    ensures the_first_audio_line_is_used_no_media { read_with_audio [] ≡ None }
    ensures the_first_audio_line_is_used_others { read_with_audio (codes "t=0 0\nm=audio 4000 RTP/AVP 0\na=ptime:20\na=sendonly\n")
        ≡ from_host 1 }
    // Of the audio line's own connection lines the first is used, up to the next media line.
    ensures the_first_connection_line_of_the_audio_line_is_used_lines { connection_of
        (codes "c=1" ∷ codes "m=audio" ∷ codes "c=2" ∷ codes "c=3" ∷ [])
        (codes "a=x" ∷ codes "c=2" ∷ codes "c=3" ∷ []) ≡ Some (codes "c=2") }
    ensures the_first_connection_line_of_the_audio_line_is_used_behind { read_with_connection (codes "c=IN IP4 10.0.0.1") ≡ from_host 1 }
    ensures further { read_with_connection (codes "b=AS:64\nc=IN IP4 10.0.0.1") ≡ from_host 1 }
    ensures twice { read_with_connection (codes "c=IN IP4 10.0.0.1\nc=IN IP4 10.0.0.2") ≡ from_host 1 }
    ensures the_first_connection_line_of_the_audio_line_is_used_bad_second { read_with_connection (codes "c=IN IP4 10.0.0.1\nc=x")
        ≡ from_host 1 }
    ensures the_first_connection_line_of_the_audio_line_is_used_bad_first { read_with_connection (codes "c=x\nc=IN IP4 10.0.0.1") ≡ None }
    ensures both { session_of (codes "v=0\nc=IN IP4 10.0.0.1\nm=audio 4000 RTP/AVP 0\nc=IN IP4 10.0.0.2")
        ≡ from_host 2 }
    // One that is spelled wrongly isn't replaced by the session's.
    ensures bad_own { session_of (codes "v=0\nc=IN IP4 10.0.0.1\nm=audio 4000 RTP/AVP 0\nc=IN IP6 ::1") ≡ None }
    ensures bad_common { session_of (codes "v=0\nc=IN IP6 ::1\nm=audio 4000 RTP/AVP 0\nc=IN IP4 10.0.0.2")
        ≡ from_host 2 }
{}

/// Each sentence at an example.
pub fn other_sentences_have_examples()
    // Where the audio line has none, the first connection line before all media lines is used.
    ensures the_first_connection_line_of_the_session_is_used_lines { connection_of
        (codes "c=1" ∷ codes "c=2" ∷ codes "m=audio" ∷ codes "m=" ∷ codes "c=3" ∷ [])
        (codes "m=" ∷ codes "c=3" ∷ []) ≡ Some (codes "c=1") }
    ensures the_first_connection_line_of_the_session_is_used_none { first_connection (codes "v=0" ∷ codes "m=video" ∷ codes "c=1" ∷ [])
        ≡ None }
    ensures no_lines { first_connection [] ≡ None }
    ensures before { session_of (codes "v=0\nc=IN IP4 10.0.0.1\nm=audio 4000 RTP/AVP 0") ≡ from_host 1 }
    ensures the_first_connection_line_of_the_session_is_used_twice { session_of (codes
        "v=0\nc=IN IP4 10.0.0.1\nc=IN IP4 10.0.0.2\nm=audio 4000 RTP/AVP 0")
        ≡ from_host 1 }
    ensures bad_first { session_of (codes "v=0\nc=x\nc=IN IP4 10.0.0.2\nm=audio 4000 RTP/AVP 0") ≡ None }
    ensures neither { session_of (codes "v=0\nm=audio 4000 RTP/AVP 0") ≡ None }
    // A connection line behind another media line is that line's.
    ensures later { session_of (codes "v=0\nm=audio 4000 RTP/AVP 0\nm=video 5000 RTP/AVP 31\nc=IN IP4 10.0.0.1")
        ≡ None }
    ensures second_audio { session_of (codes "v=0\nm=audio 4000 RTP/AVP 0\nm=audio 5000 RTP/AVP 0\nc=IN IP4 10.0.0.1")
        ≡ None }
    ensures earlier { session_of (codes "v=0\nm=video 5000 RTP/AVP 31\nc=IN IP4 10.0.0.1\nm=audio 4000 RTP/AVP 0")
        ≡ None }
    ensures not_later { session_of
        (codes "v=0\nc=IN IP4 10.0.0.1\nm=audio 4000 RTP/AVP 0\nm=video 5000 RTP/AVP 31\nc=IN IP4 10.0.0.2") ≡ from_host 1 }
    ensures not_earlier { session_of
        (codes "v=0\nc=IN IP4 10.0.0.1\nm=video 5000 RTP/AVP 31\nc=IN IP4 10.0.0.2\nm=audio 4000 RTP/AVP 0") ≡ from_host 1 }
    // An audio line is `m=audio port RTP/AVP` and payload types, in this case, with blanks between the words.
    ensures audio_lines_have_one_spelling_two { audio_of (codes "m=audio 4000 RTP/AVP 0 8")
        ≡ Some (record { port = 4000; payloads = 0 ∷ 8 ∷ [] }) }
    ensures audio_lines_have_one_spelling_blanks { audio_of (codes "m=audio  4000\tRTP/AVP \t 0   8")
        ≡ Some (record { port = 4000; payloads = 0 ∷ 8 ∷ [] }) }
    ensures audio_lines_have_one_spelling_zeros { audio_of (codes "m=audio 004000 RTP/AVP 000")
        ≡ Some (record { port = 4000; payloads = 0 ∷ [] }) }
    ensures audio_lines_have_one_spelling_twice { audio_of (codes "m=audio 4000 RTP/AVP 8 8")
        ≡ Some (record { port = 4000; payloads = 8 ∷ 8 ∷ [] }) }
    ensures longer { audio_of (codes "m=audiox 4000 RTP/AVP 0") ≡ None }
    ensures audio_lines_have_one_spelling_apart { audio_of (codes "m= audio 4000 RTP/AVP 0") ≡ None }
    ensures protocol { audio_of (codes "m=audio 4000 RTP/SAVP 0") ≡ None }
    ensures audio_lines_have_one_spelling_lower { audio_of (codes "m=audio 4000 rtp/avp 0") ≡ None }
    ensures audio_lines_have_one_spelling_none { audio_of (codes "m=audio 4000 RTP/AVP") ≡ None }
    ensures no_protocol { audio_of (codes "m=audio 4000") ≡ None }
    ensures no_port { audio_of (codes "m=audio") ≡ None }
    ensures audio_lines_have_one_spelling_nothing { audio_of [] ≡ None }
    ensures many_ports { audio_of (codes "m=audio 4000/2 RTP/AVP 0") ≡ None }
    ensures no_number { audio_of (codes "m=audio 4000 RTP/AVP PCMU") ≡ None }
    ensures bad_last { audio_of (codes "m=audio 4000 RTP/AVP 0 8 x") ≡ None }
{}

/// Each sentence at an example.
pub fn still_more_sentences_have_examples()
    // A port is a number from 0 to 65535.
    ensures least { port_of (codes "0") ≡ Some 0 }
    ensures ports_are_numbers_up_to_65535_greatest { port_of (codes "65535") ≡ Some 65535 }
    ensures ports_are_numbers_up_to_65535_past { port_of (codes "65536") ≡ None }
    ensures sign { port_of (codes "-1") ≡ None }
    ensures eighteen { port_of (codes "000000000000004000") ≡ Some 4000 }
    ensures nineteen { port_of (codes "0000000000000004000") ≡ None }
    ensures ports_are_numbers_up_to_65535_read { read_with_audio (codes "m=audio 0 RTP/AVP 0") ≡ Some (offered 1 0 (0 ∷ [])) }
    ensures ports_are_numbers_up_to_65535_read_greatest { read_with_audio (codes "m=audio 65535 RTP/AVP 0")
        ≡ Some (offered 1 65535 (0 ∷ [])) }
    ensures ports_are_numbers_up_to_65535_read_past { read_with_audio (codes "m=audio 65536 RTP/AVP 0") ≡ None }
    // Payload types are read in their order: 1 to 32 numbers up to 127.
    ensures payload_types_are_read_in_their_order_greatest { payload_of (codes "127") ≡ Some 127 }
    ensures payload_types_are_read_in_their_order_past { payload_of (codes "128") ≡ None }
    ensures payload_types_are_read_in_their_order_nothing { payload_of [] ≡ None }
    ensures order { payloads_of (codes "18" ∷ codes "0" ∷ codes "8" ∷ []) ≡ Some (18 ∷ 0 ∷ 8 ∷ []) }
    ensures one_past { payloads_of (codes "0" ∷ codes "128" ∷ []) ≡ None }
    ensures payload_types_are_read_in_their_order_none { payloads_of [] ≡ None }
    ensures most { payloads_of (replicate 32 (codes "8")) ≡ Some (replicate 32 8) }
    ensures too_many { payloads_of (replicate 33 (codes "8")) ≡ None }
    ensures payload_types_are_read_in_their_order_read_greatest { read_with_audio (codes "m=audio 4000 RTP/AVP 0 127")
        ≡ Some (offered 1 4000 (0 ∷ 127 ∷ [])) }
    ensures payload_types_are_read_in_their_order_read_past { read_with_audio (codes "m=audio 4000 RTP/AVP 0 128") ≡ None }
    ensures read_most { read_with_audio (codes "m=audio 4000 RTP/AVP" ++ concat (replicate 32 (codes " 8")))
        ≡ Some (offered 1 4000 (replicate 32 8)) }
    ensures read_too_many { read_with_audio (codes "m=audio 4000 RTP/AVP" ++ concat (replicate 33 (codes " 8")))
        ≡ None }
{}

/// Each sentence at an example.
pub fn yet_more_sentences_have_examples()
    // A connection line is `c=IN IP4` and an address, in this case, with blanks between the words.
    ensures one { address_of (codes "c=IN IP4 10.0.0.1") ≡ Some (host 1) }
    ensures connection_lines_have_one_spelling_blanks { address_of (codes "c=IN\tIP4   10.0.0.1") ≡ Some (host 1) }
    ensures connection_lines_have_one_spelling_zeros { address_of (codes "c=IN IP4 010.00.0.001") ≡ Some (host 1) }
    ensures connection_lines_have_one_spelling_greatest { address_of (codes "c=IN IP4 10.0.0.255") ≡ Some (host 255) }
    ensures connection_lines_have_one_spelling_past { address_of (codes "c=IN IP4 10.0.0.256") ≡ None }
    ensures past_front { address_of (codes "c=IN IP4 256.0.0.1") ≡ None }
    ensures three { address_of (codes "c=IN IP4 10.0.1") ≡ None }
    ensures five { address_of (codes "c=IN IP4 10.0.0.0.1") ≡ None }
    ensures group { address_of (codes "c=IN IP4 10.0.0.1/127") ≡ None }
    ensures name { address_of (codes "c=IN IP4 host.example.net") ≡ None }
    ensures other_kind { address_of (codes "c=IN IP6 10.0.0.1") ≡ None }
    ensures connection_lines_have_one_spelling_lower { address_of (codes "c=IN ip4 10.0.0.1") ≡ None }
    ensures lower_network { address_of (codes "c=in IP4 10.0.0.1") ≡ None }
    ensures connection_lines_have_one_spelling_apart { address_of (codes "c= IN IP4 10.0.0.1") ≡ None }
    ensures more { address_of (codes "c=IN IP4 10.0.0.1 x") ≡ None }
    ensures no_address { address_of (codes "c=IN IP4") ≡ None }
    ensures no_kind { address_of (codes "c=IN") ≡ None }
    ensures connection_lines_have_one_spelling_nothing { address_of [] ≡ None }
    // A description as a gateway sends it, whose origin and packet time aren't read.
    ensures a_whole_description_is_read { session_of (codes "v=0\r\no=- 1 2 IN IP4 10.0.0.1\r\ns=-\r\nc=IN IP4 10.0.0.1\r\nt=0 0\r\n"
        ++ codes "m=audio 3000 RTP/AVP 8 0\r\na=ptime:20\r\n")
        ≡ Some (offered 1 3000 (8 ∷ 0 ∷ [])) }
    // What is read is answered, or that there is nothing in the subset.
    ensures session { answer_of (from_host 1) ≡ Ok (offered 1 4000 (0 ∷ [])) }
    ensures a_reader_answers_a_session_or_a_fault_none { answer_of None ≡ Err faults.NotInSubset }
    ensures a_reader_answers_a_session_or_a_fault_again { session_read (Ok (offered 1 4000 (0 ∷ []))) ≡ from_host 1 }
    ensures fault { session_read (Err faults.NotInSubset) ≡ None }
    ensures refused { session_read (Err faults.OutOfMemory) ≡ None }
    // A session of our own is written with its origin and its packet time, one that was read without.
    ensures own { session_text (timed 20 (originated 1 2 (offered 1 3000 (0 ∷ 8 ∷ []))))
        ≡ codes "v=0\r\no=- 1 2 IN IP4 10.0.0.1\r\ns=-\r\nc=IN IP4 10.0.0.1\r\nt=0 0\r\n"
        ++ codes "m=audio 3000 RTP/AVP 0 8\r\na=ptime:20\r\n" }
    ensures sessions_are_written_line_by_line_read { session_text (offered 255 65535 (127 ∷ []))
        ≡ codes "v=0\r\nc=IN IP4 10.0.0.255\r\nm=audio 65535 RTP/AVP 127\r\n" }
    ensures timed { session_text (timed 30 (offered 1 0 (0 ∷ [])))
        ≡ codes "v=0\r\nc=IN IP4 10.0.0.1\r\nm=audio 0 RTP/AVP 0\r\na=ptime:30\r\n" }
    ensures originated { session_text (originated 4294967295 4294967295 (offered 1 0 (0 ∷ [])))
        ≡ codes "v=0\r\no=- 4294967295 4294967295 IN IP4 10.0.0.1\r\ns=-\r\nc=IN IP4 10.0.0.1\r\nt=0 0\r\n"
        ++ codes "m=audio 0 RTP/AVP 0\r\n" }
    ensures address { address_text (host 12) ≡ codes "10.0.0.12" }
    ensures sessions_are_written_line_by_line_again { as_read (timed 20 (originated 1 1 (offered 1 0 (0 ∷ [])))) ≡ offered 1 0 (0 ∷ []) }
    // The greatest numbers are written in 259 bytes, and in 139 with two payload types.
    ensures all { length (session_text (greatest 32)) ≡ 259 }
    ensures the_greatest_numbers_are_written_in_259_bytes_two { length (session_text (greatest 2)) ≡ 139 }
    // The longest datagram's worth of text is read as any other.
    ensures one_line { session_of (concat (replicate 571 (codes "m=audio"))) ≡ None }
    ensures long_line { read_with_audio (concat (replicate 568 (codes "m=audio"))) ≡ None }
    ensures long_texts_are_read_lines { read_with_audio (codes "m=audio 4000 RTP/AVP 0\n" ++ concat (replicate 494 (codes "m=audio\n")))
        ≡ from_host 1 }
    // Faults are numbered from 1, in the order in which they are declared.
    ensures memory { sdp_fault_number faults.OutOfMemory ≡ 1 }
    ensures subset { sdp_fault_number faults.NotInSubset ≡ 2 }
{}
