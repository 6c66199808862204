//! Worked examples of the definitions, as theorems.
#![tactic(auto, unfolding(crate::proofs::Computing::on_examples))]

ghost use Rattle.std.specs.Prelude.{◌≡◌, codes, [], ◌∷◌, Some, None, true, false};
ghost use Rattle.mgcp_text.specs.declared.message.Verb.TheVariants as verbs;
ghost use Rattle.mgcp_text.specs.declared.message.Message.TheVariants as messages;
ghost use Rattle.mgcp_text.specs.declared.message.TextFault.TheVariants as faults;
ghost use Rattle.mgcp_text.specs.declared.confirmation.KValue.TheVariants as values;
ghost use Rattle.mgcp_text.specs.Header.{verb_of};
ghost use Rattle.mgcp_text.specs.Parameter.{param_of};
ghost use Rattle.mgcp_text.specs.Message.{number_of, param_at};
ghost use Rattle.mgcp_text.specs.Reading.{message, no_header, bad_version, bad_body, read_text, takes_memory};
ghost use Rattle.mgcp_text.specs.Confirmation.{k_of};
ghost use Rattle.mgcp_text.specs.Writing.{written, is_writable};
ghost use Rattle.mgcp_text.specs.Examples.{param, audit, creation, response, confirmed, range, command_text};
ghost use Rattle.mgcp_text.specs.Examples.{is_writable_code, is_writable_with, is_writable_text, is_writable_command};

/// Each sentence at an example.
pub fn each_sentence_has_an_example()
    // An audit is a command without parameters.
    ensures an_audit_is_read { read_text (codes "AUEP 1200 aaln/1@rgw.example.net MGCP 1.0\r\n")
        ≡ audit 1200 (codes "aaln/1@rgw.example.net") }
    // Nine words are verbs, in any case (RFC 3435, 3.2.1.1); another word of four letters or digits is another verb.
    ensures epcf { verb_of (codes "EPCF") ≡ verbs.Epcf }
    ensures rqnt { verb_of (codes "rqnt") ≡ verbs.Rqnt }
    ensures ntfy { verb_of (codes "NTFY") ≡ verbs.Ntfy }
    ensures crcx { verb_of (codes "CrCx") ≡ verbs.Crcx }
    ensures mdcx { verb_of (codes "MDCX") ≡ verbs.Mdcx }
    ensures dlcx { verb_of (codes "DLCX") ≡ verbs.Dlcx }
    ensures auep { verb_of (codes "AUEP") ≡ verbs.Auep }
    ensures aucx { verb_of (codes "AUCX") ≡ verbs.Aucx }
    ensures rsip { verb_of (codes "RSIP") ≡ verbs.Rsip }
    ensures words_are_verbs_other { verb_of (codes "MESG") ≡ verbs.Other }
    // What lacks a verb of four letters or digits or a code of three digits, or an id of 1 to 9 digits that are not all 0, has
    // no header.
    ensures empty { read_text [] ≡ no_header }
    ensures blanks { read_text (codes " \t\r\n\n") ≡ no_header }
    ensures some_texts_have_no_header_dot { read_text (codes ".\r\n") ≡ no_header }
    ensures three_letters { read_text (codes "AUE 1 x MGCP 1.0\r\n") ≡ no_header }
    ensures five_letters { read_text (codes "AUEPX 1 x MGCP 1.0\r\n") ≡ no_header }
    ensures no_letter { read_text (codes "AU-P 1 x MGCP 1.0\r\n") ≡ no_header }
    ensures no_id { read_text (codes "AUEP\r\n") ≡ no_header }
    ensures some_texts_have_no_header_zero { read_text (codes "AUEP 0 x MGCP 1.0\r\n") ≡ no_header }
    ensures nine_zeros { read_text (codes "AUEP 000000000 x MGCP 1.0\r\n") ≡ no_header }
    ensures some_texts_have_no_header_ten_digits { read_text (codes "AUEP 1234567890 x MGCP 1.0\r\n") ≡ no_header }
    ensures ten_with_zeros { read_text (codes "AUEP 0000000001 x MGCP 1.0\r\n") ≡ no_header }
    // A response begins with its return code in three digits and its id (RFC 3435, 3.3). Nothing more of its header counts.
    ensures ok { read_text (codes "200 1200 OK\r\n") ≡ response 200 1200 [] [] }
    ensures bare { read_text (codes "250 7") ≡ response 250 7 [] [] }
    ensures provisional { read_text (codes "100 10000000\r\n") ≡ response 100 10000000 [] [] }
    ensures mark { read_text (codes "512 9 /L no such event MGCP 9.9\r\n") ≡ response 512 9 [] [] }
    ensures least { read_text (codes "000 5\r\n") ≡ response 0 5 [] [] }
    ensures low { read_text (codes "099 5\r\n") ≡ response 99 5 [] [] }
    ensures greatest { read_text (codes "999 999999999\r\n") ≡ response 999 999999999 [] [] }
    ensures responses_are_read_zeros { read_text (codes "\r\n \n\t200\t000000005\tOK") ≡ response 200 5 [] [] }
{}

/// Each sentence at an example.
pub fn further_sentences_have_examples()
    // Another number of digits, or another byte among them, is no return code, and a response without an id has no header.
    ensures alone { read_text (codes "200\r\n") ≡ no_header }
    ensures some_texts_are_no_responses_zero { read_text (codes "200 0 OK\r\n") ≡ no_header }
    ensures some_texts_are_no_responses_ten_digits { read_text (codes "200 0000000005 OK\r\n") ≡ no_header }
    ensures comment_first { read_text (codes "200 OK 5\r\n") ≡ no_header }
    ensures letter { read_text (codes "2O0 5 OK\r\n") ≡ no_header }
    ensures two_digits { read_text (codes "99 5 OK\r\n") ≡ no_header }
    // Four digits are a verb, that of another command.
    ensures four_digits { read_text (codes "1000 5 OK\r\n") ≡ bad_body 5 }
    ensures sign { read_text (codes "+20 5 OK\r\n") ≡ no_header }
    // A response keeps all its parameters up to the first empty line, in their order, and lines that are none are skipped.
    ensures all { read_text (codes "521 1\r\nN: ca2@[127.0.0.2]:2727\r\nK:\r\n")
        ≡ response 521 1 (param (codes "N") (codes "ca2@[127.0.0.2]:2727") ∷ param (codes "K") [] ∷ []) [] }
    ensures twice { read_text (codes "200 1 OK\r\nN: a\r\nn : b\r\n")
        ≡ response 200 1 (param (codes "N") (codes "a") ∷ param (codes "n") (codes "b") ∷ []) [] }
    ensures strays { read_text (codes "200 1 OK\r\nno parameter\r\n: 1\r\nX_A: 1\r\nI: 1\r\nstray")
        ≡ response 200 1 (param (codes "I") (codes "1") ∷ []) [] }
    ensures a_response_keeps_its_parameters_description { read_text (codes "200 1 OK\r\nI: 1\r\nstray\r\n \r\nK: 2\r\n\r\nv=0\r\n")
        ≡ response 200 1 (param (codes "I") (codes "1") ∷ []) (codes "K: 2\r\n\r\nv=0\r\n") }
    ensures only_empty { read_text (codes "200 1 OK\r\n\r\n \r\n") ≡ response 200 1 [] [] }
    // An id may have leading zeros, and a verb that nobody knows is still a verb.
    ensures headers_are_read_leniently_zeros { read_text (codes "\r\nauep\t000000001  aaln/1@rgw.example.net mgcp 1.0 and more")
        ≡ audit 1 (codes "aaln/1@rgw.example.net") }
    ensures largest_id { read_text (codes "AUEP 999999999 x MGCP 1.0") ≡ audit 999999999 (codes "x") }
    ensures headers_are_read_leniently_other { read_text (codes "2000 7 x MGCP 1.0")
        ≡ message (messages.Command verbs.Other 7 (codes "x") [] []) }
    // A name that no line has is read all the same; another protocol or version is a fault with the id.
    ensures line_17 { read_text (codes "AUEP 1201 aaln/17@rgw.example.net MGCP 1.0\r\n")
        ≡ audit 1201 (codes "aaln/17@rgw.example.net") }
    ensures another_version_is_a_fault_version { read_text (codes "AUEP 1202 x MGCP 2.0\r\n") ≡ bad_version 1202 }
    ensures version_1_1 { read_text (codes "AUEP 1202 x MGCP 1.1\r\n") ≡ bad_version 1202 }
    ensures longer { read_text (codes "AUEP 1202 x MGCP 1.00\r\n") ≡ bad_version 1202 }
    ensures another_version_is_a_fault_protocol { read_text (codes "AUEP 1202 x HTTP 1.0\r\n") ≡ bad_version 1202 }
    // The version is judged before the lines after it.
    ensures first { read_text (codes "AUEP 1202 x MGCP 2.0\r\nno parameter\r\n") ≡ bad_version 1202 }
    ensures lone_return { read_text (codes "AUEP 1202 x MGCP 1.0\r") ≡ bad_version 1202 }
{}

/// Each sentence at an example.
pub fn more_sentences_have_examples()
    // A header with too few words is a fault with the id, and so is a line that is no parameter.
    ensures words { read_text (codes "AUEP 12\r\n") ≡ bad_body 12 }
    // Words are counted before they are judged.
    ensures a_bad_body_is_a_fault_protocol { read_text (codes "AUEP 12 x HTTP\r\n") ≡ bad_body 12 }
    ensures stray { read_text (codes "AUEP 12 x MGCP 1.0\r\nK: 1\r\nno parameter\r\n\r\nv=0\r\n")
        ≡ bad_body 12 }
    ensures a_bad_body_is_a_fault_no_code { read_text (codes "AUEP 12 x MGCP 1.0\r\n: 1\r\n") ≡ bad_body 12 }
    ensures a_bad_body_is_a_fault_underscore { read_text (codes "AUEP 12 x MGCP 1.0\r\nX_A: 1\r\n") ≡ bad_body 12 }
    ensures two_words { read_text (codes "AUEP 12 x MGCP 1.0\r\nX A: 1\r\n") ≡ bad_body 12 }
    // To read a text takes memory for its parameters alone: none without a header, and none for another version, whatever
    // stands behind it.
    ensures parameter { takes_memory (read_text (codes "CRCX 9 x MGCP 1.0\r\nC: 1\r\n")) ≡ true }
    ensures of_response { takes_memory (read_text (codes "200 1 OK\r\nstray\r\nI: 1\r\n")) ≡ true }
    ensures fault_behind { takes_memory (read_text (codes "AUEP 12 x MGCP 1.0\r\nK: 1\r\nno parameter\r\n")) ≡ true }
    ensures none { takes_memory (read_text (codes "AUEP 12 x MGCP 1.0\r\n")) ≡ false }
    ensures parameters_alone_take_memory_description { takes_memory (read_text (codes "CRCX 9 x MGCP 1.0\r\n\r\nv=0\r\nX: 1\r\n")) ≡ false }
    ensures response { takes_memory (read_text (codes "200 1 OK\r\nstray\r\n\r\nI: 1\r\n")) ≡ false }
    ensures parameters_alone_take_memory_version { takes_memory (read_text (codes "AUEP 1202 x MGCP 2.0\r\nK: 1\r\n")) ≡ false }
    ensures no_header { takes_memory (read_text (codes "AUEP\r\nK: 1\r\n")) ≡ false }
    ensures nothing { takes_memory (read_text []) ≡ false }
    // A code is of letters in either case, digits, `+`, `-` and `/` (RFC 3435, 3.2.2). A value may hold colons.
    ensures lower { param_of (codes "k: 1") ≡ Some (param (codes "k") (codes "1")) }
    ensures digit { param_of (codes "X9: 1") ≡ Some (param (codes "X9") (codes "1")) }
    ensures first_digit { param_of (codes "9: 1") ≡ Some (param (codes "9") (codes "1")) }
    ensures plus { param_of (codes "X+F: 1") ≡ Some (param (codes "X+F") (codes "1")) }
    ensures hyphen { param_of (codes "X-F: 1") ≡ Some (param (codes "X-F") (codes "1")) }
    ensures slash { param_of (codes "L/F: 1") ≡ Some (param (codes "L/F") (codes "1")) }
    ensures colon { param_of (codes "N:a:b") ≡ Some (param (codes "N") (codes "a:b")) }
    ensures codes_are_letters_digits_and_three_signs_underscore { param_of (codes "X_F: 1") ≡ None }
    ensures codes_are_letters_digits_and_three_signs_dot { param_of (codes "X.F: 1") ≡ None }
    ensures codes_are_letters_digits_and_three_signs_no_code { param_of (codes " : 1") ≡ None }
    ensures no_colon { param_of (codes "K 1") ≡ None }
{}

/// Each sentence at an example.
pub fn other_sentences_have_examples()
    // The first parameter with a code counts, and codes are compared without case.
    ensures first { param_at (codes "X")
        (param (codes "I") [] ∷ param (codes "x") (codes "2") ∷ param (codes "X") [] ∷ [])
        ≡ Some (param (codes "x") (codes "2")) }
    ensures none { param_at (codes "X") (param (codes "X-") [] ∷ []) ≡ None }
    // Parameters go up to the first empty line, and all after it is the description.
    ensures both { read_text (codes "CRCX 9 x MGCP 1.0\r\nC : 1A \r\nM:\r\n \r\nv=0\r\n\r\ns=-\r\n")
        ≡ creation (param (codes "C") (codes "1A") ∷ param (codes "M") [] ∷ [])
        (codes "v=0\r\n\r\ns=-\r\n") }
    ensures only_empty { read_text (codes "CRCX 9 x MGCP 1.0\r\n\r\n \r\n") ≡ creation [] [] }
    ensures no_end { read_text (codes "CRCX 9 x MGCP 1.0\n\nv=0") ≡ creation [] (codes "v=0") }
    // Further empty lines are the description's, and what follows them is no parameter.
    ensures further { read_text (codes "CRCX 9 x MGCP 1.0\r\nC: 1\r\n\r\n \n\r\nv=0\r\nX: 1\r\n")
        ≡ creation (param (codes "C") (codes "1") ∷ []) (codes " \n\r\nv=0\r\nX: 1\r\n") }
    // The first K parameter counts; its items are ids and spans of ids (RFC 3435, 3.2.2.1).
    ensures text { read_text (codes "CRCX 9 x MGCP 1.0\r\nK: 1301-1303\r\n")
        ≡ creation (param (codes "K") (codes "1301-1303") ∷ []) [] }
    ensures span { confirmed (codes "1301-1303") ≡ values.Items (range 1301 1303 ∷ []) }
    ensures list { k_of
        (param (codes "X") [] ∷ param (codes "k") (codes "7 ,\t9-9") ∷ param (codes "K") [] ∷ [])
        ≡ values.Items (range 7 7 ∷ range 9 9 ∷ []) }
    ensures absent { k_of (param (codes "KK") [] ∷ []) ≡ values.Absent }
    ensures empty { confirmed [] ≡ values.Items [] }
    ensures three { confirmed (codes "1-3-5") ≡ values.Unreadable }
    ensures downwards { confirmed (codes "3-1") ≡ values.Unreadable }
    ensures the_first_k_parameter_counts_blanks { confirmed (codes "1 - 3") ≡ values.Unreadable }
    ensures semicolon { confirmed (codes "1;3") ≡ values.Unreadable }
    ensures zero { confirmed (codes "0") ≡ values.Unreadable }
    ensures the_first_k_parameter_counts_largest { confirmed (codes "999999999") ≡ values.Items (range 999999999 999999999 ∷ []) }
    ensures ten_digits { confirmed (codes "1000000000") ≡ values.Unreadable }
    ensures trailing { confirmed (codes "1,") ≡ values.Unreadable }
    // A response is its code in three digits and its id, with ` OK` after 200 and 250.
    ensures ok { written (messages.Response 200 1200 [] []) ≡ codes "200 1200 OK\r\n" }
    ensures deleted { written (messages.Response 250 1200 [] []) ≡ codes "250 1200 OK\r\n" }
    ensures other_success { written (messages.Response 201 1 [] []) ≡ codes "201 1\r\n" }
    ensures fault { written (messages.Response 510 12 [] []) ≡ codes "510 12\r\n" }
    ensures zeros { written (messages.Response 0 5 [] []) ≡ codes "000 5\r\n" }
    ensures responses_are_written_largest { written (messages.Response 999 999999999 [] []) ≡ codes "999 999999999\r\n" }
    ensures whole { let params = param (codes "I") (codes "1") ∷ param (codes "T") [] ∷ []
        in written (messages.Response 250 7 params (codes "v=0\r\n"))
        ≡ codes "250 7 OK\r\nI: 1\r\nT:\r\n\r\nv=0\r\n" }
    // A command is its verb in upper case, its id, its name, and `MGCP 1.0` (RFC 3435, 3.2.1).
    ensures epcf { command_text verbs.Epcf ≡ codes "EPCF 7 x MGCP 1.0\r\n" }
    ensures rqnt { command_text verbs.Rqnt ≡ codes "RQNT 7 x MGCP 1.0\r\n" }
    ensures ntfy { command_text verbs.Ntfy ≡ codes "NTFY 7 x MGCP 1.0\r\n" }
    ensures crcx { command_text verbs.Crcx ≡ codes "CRCX 7 x MGCP 1.0\r\n" }
    ensures mdcx { command_text verbs.Mdcx ≡ codes "MDCX 7 x MGCP 1.0\r\n" }
    ensures dlcx { command_text verbs.Dlcx ≡ codes "DLCX 7 x MGCP 1.0\r\n" }
    ensures auep { command_text verbs.Auep ≡ codes "AUEP 7 x MGCP 1.0\r\n" }
    ensures aucx { command_text verbs.Aucx ≡ codes "AUCX 7 x MGCP 1.0\r\n" }
    ensures rsip { command_text verbs.Rsip ≡ codes "RSIP 7 x MGCP 1.0\r\n" }
{}

/// Each sentence at an example.
pub fn still_more_sentences_have_examples()
    // Its parameters and its description come after its header.
    ensures restart { let params = param (codes "RM") (codes "restart") ∷ []
        in written (messages.Command verbs.Rsip 1 (codes "*@rgw.example.net") params [])
        ≡ codes "RSIP 1 *@rgw.example.net MGCP 1.0\r\nRM: restart\r\n" }
    ensures notification { let params = param (codes "X") (codes "A1") ∷ param (codes "O") (codes "L/hd,D/8") ∷ []
        in written (messages.Command verbs.Ntfy 10000000 (codes "aaln/1@rgw.example.net") params [])
        ≡ codes "NTFY 10000000 aaln/1@rgw.example.net MGCP 1.0\r\nX: A1\r\nO: L/hd,D/8\r\n" }
    ensures commands_are_written_whole_description { let params = param (codes "C") (codes "1A") ∷ param (codes "L") [] ∷ []
        in written (messages.Command verbs.Crcx 999999999 (codes "x") params (codes "v=0\r\n"))
        ≡ codes "CRCX 999999999 x MGCP 1.0\r\nC: 1A\r\nL:\r\n\r\nv=0\r\n" }
    // Codes up to 999, the ids, values of one line, and descriptions of whole lines can be written.
    ensures smallest { is_writable_code 0 1 ≡ true }
    ensures some_messages_can_be_written_largest { is_writable_code 999 999999999 ≡ true }
    ensures empty_value { is_writable_with (codes "I") [] ≡ true }
    ensures inner_blanks { is_writable_with (codes "X-a+/9") (codes "a \tb\r") ≡ true }
    ensures some_messages_can_be_written_description { is_writable_text (codes "v=0\r\n\r\nv=0\r\n") ≡ true }
    ensures command { is_writable_command verbs.Ntfy 1 (codes "x") ≡ true }
    ensures largest_command { is_writable_command verbs.Epcf 999999999 (codes "*@rgw.example.net") ≡ true }
    ensures whole_command { is_writable (messages.Command verbs.Crcx 1 (codes "x")
        (param (codes "C") (codes "1A") ∷ []) (codes "v=0\r\n")) ≡ true }
    // What would be read as something else can't be written.
    ensures code { is_writable_code 1000 1 ≡ false }
    ensures id { is_writable_code 200 0 ≡ false }
    ensures large_id { is_writable_code 200 1000000000 ≡ false }
    ensures feed { is_writable_with (codes "X") (codes "a\nb") ≡ false }
    ensures blank_before { is_writable_with (codes "X") (codes " a") ≡ false }
    ensures blank_after { is_writable_with (codes "X") (codes "a\t") ≡ false }
    ensures no_code { is_writable_with [] (codes "a") ≡ false }
    ensures other_code { is_writable_with (codes "X_") (codes "a") ≡ false }
    ensures dot { is_writable_text (codes "v=0\r\n.\r\n") ≡ false }
    ensures blank_dot { is_writable_text (codes "v=0\r\n . \r\n") ≡ false }
    ensures some_messages_cannot_be_written_blanks { is_writable_text (codes "v=0 \r\n") ≡ false }
    ensures no_return { is_writable_text (codes "v=0\n") ≡ false }
    ensures empty_lines { is_writable_text (codes "\r\n\r\n") ≡ false }
    ensures verb { is_writable_command verbs.Other 1 (codes "x") ≡ false }
    ensures command_id { is_writable_command verbs.Ntfy 0 (codes "x") ≡ false }
    ensures large_command_id { is_writable_command verbs.Ntfy 1000000000 (codes "x") ≡ false }
    ensures no_name { is_writable_command verbs.Ntfy 1 [] ≡ false }
    ensures two_words { is_writable_command verbs.Ntfy 1 (codes "x y") ≡ false }
    ensures tab { is_writable_command verbs.Ntfy 1 (codes "x\t") ≡ false }
    ensures two_lines { is_writable_command verbs.Ntfy 1 (codes "x\ny") ≡ false }
    ensures command_param { is_writable (messages.Command verbs.Ntfy 1 (codes "x") (param [] [] ∷ []) []) ≡ false }
    ensures command_description { is_writable (messages.Command verbs.Crcx 1 (codes "x") [] (codes ".\r\n")) ≡ false }
    // Faults are numbered from 1, in the order in which they are declared.
    ensures memory { number_of faults.OutOfMemory ≡ 1 }
    ensures header { number_of faults.NoHeader ≡ 2 }
    ensures version { number_of (faults.BadVersion 9) ≡ 3 }
    ensures body { number_of (faults.BadBody 9) ≡ 4 }
{}
