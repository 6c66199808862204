//! Worked examples of the definitions, as theorems.
#![tactic(auto, unfolding(crate::proofs::Computing::on_examples))]

ghost use Rattle.std.specs.Prelude.{◌≡◌, ◌++◌, codes, map, ℕ, List, [], ◌∷◌, Some, None, Ok, Err, true, false};
ghost use Rattle.mg_bytes.specs.Bytes.{tab, line_feed, vertical_tab, form_feed, carriage_return, space, dollar, star};
ghost use Rattle.mg_bytes.specs.Bytes.{plus, comma, hyphen, full_stop, slash, digit_zero, colon, at_sign};
ghost use Rattle.mg_bytes.specs.Bytes.{left_parenthesis, right_parenthesis, left_bracket, right_bracket, is_slash};
ghost use Rattle.mg_bytes.specs.Lists.{is_empty};
ghost use Rattle.mg_bytes.specs.Checks.{unless, first_fault, checked, given};
ghost use Rattle.mg_bytes.specs.Lines.{lines_of, ended, is_dot_line};
ghost use Rattle.mg_bytes.specs.Blanks.{trimmed};
ghost use Rattle.mg_bytes.specs.Words.{words, split_once, in_brackets};
ghost use Rattle.mg_bytes.specs.Items.{items_of};
ghost use Rattle.mg_bytes.specs.Numbers.{decimal_of, is_hex_text, identifier_of};
ghost use Rattle.mg_bytes.specs.Case.{same_but_case};
ghost use Rattle.mg_bytes.specs.Address.{ipv4_of, port_of};
ghost use Rattle.mg_bytes.specs.Letter.{all_letters, byte_of, letter_of};
ghost use Rattle.mg_bytes.specs.CodeFault.{answer_of, code_fault_number, FailsForMemory};
ghost use Rattle.mg_bytes.specs.ReturnCode.{number_of, words_of, code_with};

use crate::code_fault::CodeFault;
use crate::letter::{LETTERS, Letter};
use crate::return_code::ReturnCode;

/// Each sentence at an example.
pub fn each_sentence_has_an_example()
    // A list has nothing in it, or something.
    ensures lists_are_empty_or_not_none { is_empty (codes "") ≡ true }
    ensures lists_are_empty_or_not_some { is_empty (codes "x") ≡ false }
    // A line that is written ends in CRLF.
    ensures lines_are_ended_some { ended (codes "v=0") ≡ codes "v=0\r\n" }
    ensures lines_are_ended_empty { ended [] ≡ codes "\r\n" }
    // The names of bytes stand for what is written.
    ensures bytes_have_names_ends { codes "\r\n" ≡ carriage_return ∷ line_feed ∷ [] }
    ensures bytes_have_names_blanks { codes " \t" ≡ space ∷ tab ∷ [] }
    ensures signs { codes "$*+,-./" ≡ dollar ∷ star ∷ plus ∷ comma ∷ hyphen ∷ full_stop ∷ slash ∷ [] }
    ensures parentheses { codes "()" ≡ left_parenthesis ∷ right_parenthesis ∷ [] }
    ensures slash { is_slash slash ≡ true }
    ensures no_slash { is_slash full_stop ≡ false }
    ensures bytes_have_names_others { codes "0:@[]" ≡ digit_zero ∷ colon ∷ at_sign ∷ left_bracket ∷ right_bracket ∷ [] }
    // Of several checks, the first that finds a fault gives it.
    ensures second { first_fault (unless true (codes "a") ∷ unless false (codes "b") ∷ unless false (codes "c") ∷ [])
        ≡ Some (codes "b") }
    ensures the_first_fault_counts_none { first_fault (unless true (codes "a") ∷ unless true (codes "b") ∷ []) ≡ None }
    ensures found { given (Some (codes "x")) (codes "a") (λ found. checked (unless true (codes "b")) (Ok found))
        ≡ Ok (codes "x") }
    ensures the_first_fault_counts_fault { given (Some (codes "x")) (codes "a") (λ found. checked (unless false (codes "b")) (Ok found))
        ≡ Err (codes "b") }
    ensures missing { given None (codes "a") (λ found. checked (unless false (codes "b")) (Ok (codes "y" ++ found)))
        ≡ Err (codes "a") }
    // CRLF and LF end a line, blanks round it are dropped, and bytes after the last end are a line.
    ensures lines_end_in_crlf_or_lf_both { lines_of (codes " a b\t\r\nc\n \n\r\nd")
        ≡ codes "a b" ∷ codes "c" ∷ [] ∷ [] ∷ codes "d" ∷ [] }
    ensures lines_end_in_crlf_or_lf_none { lines_of [] ≡ [] }
    ensures ended { lines_of (codes "a\r\n") ≡ codes "a" ∷ [] }
    // Only one carriage return before a line feed belongs to the end.
    ensures lone_return { lines_of (codes "a\r\r\nb\r") ≡ codes "a\r" ∷ codes "b\r" ∷ [] }
    ensures lines_end_in_crlf_or_lf_vertical_tab { let line = 97 ∷ vertical_tab ∷ 98 ∷ [] in lines_of line ≡ line ∷ [] }
    ensures lines_end_in_crlf_or_lf_form_feed { let line = 97 ∷ form_feed ∷ 98 ∷ [] in lines_of line ≡ line ∷ [] }
    // A line is a single dot whatever its end and the blanks round it.
    ensures crlf { is_dot_line (codes ".\r\n") ≡ true }
    ensures feed { is_dot_line (codes ".\n") ≡ true }
    ensures no_end { is_dot_line (codes ".") ≡ true }
    ensures a_dot_alone_is_a_dot_line_blanks { is_dot_line (codes " .\t \r\n") ≡ true }
    ensures two { is_dot_line (codes "..\r\n") ≡ false }
    ensures apart { is_dot_line (codes ". .\r\n") ≡ false }
    ensures a_dot_alone_is_a_dot_line_empty { is_dot_line (codes "\r\n") ≡ false }
    // Blanks are spaces and tabs, and no other byte is.
    ensures blanks_are_spaces_and_tabs_both { trimmed (codes "\t a \tb\t ") ≡ codes "a \tb" }
    ensures blanks_are_spaces_and_tabs_form_feed { let text = form_feed ∷ 97 ∷ form_feed ∷ [] in trimmed text ≡ text }
    ensures blanks_are_spaces_and_tabs_vertical_tab { let text = vertical_tab ∷ 97 ∷ vertical_tab ∷ [] in trimmed text ≡ text }
    ensures blanks_are_spaces_and_tabs_ends { let text = codes "\r\na\r\n" in trimmed text ≡ text }
    ensures only { trimmed (codes " \t ") ≡ [] }
{}

/// Each sentence at an example.
pub fn further_sentences_have_examples()
    // Spaces and tabs part words, however many there are.
    ensures blanks_part_words_three { words (codes "AUEP  12\taaln/1 ")
        ≡ codes "AUEP" ∷ codes "12" ∷ codes "aaln/1" ∷ [] }
    ensures blanks_part_words_form_feed { let word = 97 ∷ form_feed ∷ 98 ∷ [] in words word ≡ word ∷ [] }
    ensures blanks_part_words_none { words (codes " \t") ≡ [] }
    // A text is split at the first such byte.
    ensures first { split_once colon (codes "K:1:2") ≡ Some (codes "K", codes "1:2") }
    ensures the_first_colon_splits_none { split_once colon (codes "K") ≡ None }
    ensures the_first_colon_splits_ends { split_once colon (codes ":") ≡ Some ([], []) }
    ensures brackets { in_brackets (codes "[1.2]") ≡ Some (codes "1.2") }
    ensures empty_brackets { in_brackets (codes "[]") ≡ Some [] }
    ensures left_alone { in_brackets (codes "[1") ≡ None }
    ensures right_alone { in_brackets (codes "1]") ≡ None }
    ensures one_bracket { in_brackets (codes "[") ≡ None }
    ensures no_bracket { in_brackets [] ≡ None }
    // Commas part the items of a list, and blanks round an item are dropped.
    ensures commas_part_items_three { items_of (codes "1-3 , 7,\t9") ≡ codes "1-3" ∷ codes "7" ∷ codes "9" ∷ [] }
    ensures commas_part_items_empty { items_of [] ≡ [] ∷ [] }
    ensures trailing { items_of (codes "7,") ≡ codes "7" ∷ [] ∷ [] }
    ensures commas_part_items_others { items_of (codes "1;2 3") ≡ codes "1;2 3" ∷ [] }
    // A number has 1 to 18 digits, and leading zeros count.
    ensures numbers_have_1_to_18_digits_zeros { decimal_of (codes "000000000000000042") ≡ Some 42 }
    ensures numbers_have_1_to_18_digits_largest { decimal_of (codes "999999999999999999") ≡ Some 999999999999999999 }
    ensures numbers_have_1_to_18_digits_too_long { decimal_of (codes "0000000000000000042") ≡ None }
    ensures numbers_have_1_to_18_digits_empty { decimal_of [] ≡ None }
    ensures sign { decimal_of (codes "+1") ≡ None }
    // A hexadecimal text has 1 to 32 digits in either case.
    ensures mixed { is_hex_text (codes "0123456789abcdefABCDEF0123456789") ≡ true }
    ensures hexadecimal_has_1_to_32_digits_too_long { is_hex_text (codes "0123456789abcdefABCDEF01234567890") ≡ false }
    ensures hexadecimal_has_1_to_32_digits_empty { is_hex_text [] ≡ false }
    ensures hexadecimal_has_1_to_32_digits_other { is_hex_text (codes "1g") ≡ false }
    // An identifier is what was spelled, in its own case and with its leading zeros.
    ensures spelled { identifier_of (codes "0a1F") ≡ Some (codes "0a1F") }
    ensures identifiers_are_hexadecimal_texts_other { identifier_of (codes "x1") ≡ None }
    ensures identifiers_are_hexadecimal_texts_empty { identifier_of [] ≡ None }
    // Letters are compared without case, and nothing else is.
    ensures same { same_but_case (codes "aaln/1") (codes "AALN/1") ≡ true }
    ensures letters_are_compared_without_case_other { same_but_case (codes "@[") (codes "`{") ≡ false }
{}

/// Each sentence at an example.
pub fn more_sentences_have_examples()
    // An address is four numbers up to 255; leading zeros are taken.
    ensures addresses_are_four_numbers_zeros { ipv4_of (codes "127.000.0.01") ≡ Some (record { octets = 127 ∷ 0 ∷ 0 ∷ 1 ∷ [] }) }
    ensures addresses_are_four_numbers_largest { ipv4_of (codes "255.255.255.255")
        ≡ Some (record { octets = 255 ∷ 255 ∷ 255 ∷ 255 ∷ [] }) }
    ensures addresses_are_four_numbers_too_large { ipv4_of (codes "127.0.0.256") ≡ None }
    ensures addresses_are_four_numbers_three { ipv4_of (codes "127.0.1") ≡ None }
    ensures five { ipv4_of (codes "127.0.0.0.1") ≡ None }
    // A port is a number from 1 to 65535; leading zeros are taken.
    ensures least { port_of (codes "1") ≡ Some 1 }
    ensures ports_are_numbers_from_1_to_65535_largest { port_of (codes "065535") ≡ Some 65535 }
    ensures zero { port_of (codes "0") ≡ None }
    ensures ports_are_numbers_from_1_to_65535_too_large { port_of (codes "65536") ≡ None }
    // The letters of a digit map are the ten digits, `*`, `#`, A to D and T, in this order and in any case.
    ensures bytes { map byte_of all_letters ≡ codes "0123456789*#ABCDT" }
    ensures listed { LETTERS ≡ all_letters }
    ensures digit { letter_of 55 ≡ Some Letter.Seven }
    ensures star { letter_of 42 ≡ Some Letter.Star }
    ensures hash { letter_of 35 ≡ Some Letter.Hash }
    ensures all { map letter_of (codes "0123456789*#ABCDT") ≡ map Some all_letters }
    ensures lower { map letter_of (codes "abcdt") ≡ Some Letter.A ∷ Some Letter.B ∷ Some Letter.C ∷ Some Letter.D
        ∷ Some Letter.Timer ∷ [] }
    ensures keys_and_t_are_letters_others { map letter_of (codes "/:+)\"$EeSsUuXx@`") ≡ map (λ b. None) (codes "/:+)\"$EeSsUuXx@`") }
    // A call that takes no memory answers the value, or the code alone.
    ensures value { answer_of (Ok (codes "x")) ≡ Ok (codes "x") }
    ensures answers_are_values_or_codes_code { answer_of {A = List ℕ} (Err 510) ≡ Err (CodeFault.Code 510) }
    ensures none_wanted { ¬ FailsForMemory {A = List ℕ} false (Err CodeFault.OutOfMemory) }
    ensures wanted { FailsForMemory {A = List ℕ} true (Err CodeFault.OutOfMemory) }
    ensures answers_are_values_or_codes_fault { FailsForMemory {A = List ℕ} false (Err (CodeFault.Code 510)) }
    ensures given { FailsForMemory false (Ok (codes "x")) }
    // The numbers of return codes are those of RFC 3435, 2.4.
    ensures successes { map number_of (ReturnCode.ResponseAcknowledgement ∷ ReturnCode.Executed
        ∷ ReturnCode.ConnectionDeleted ∷ [])
        ≡ 0 ∷ 200 ∷ 250 ∷ [] }
    ensures transient { map number_of (ReturnCode.AlreadyOffHook ∷ ReturnCode.AlreadyOnHook
        ∷ ReturnCode.Restarting ∷ ReturnCode.NoEndpointAvailable ∷ [])
        ≡ 401 ∷ 402 ∷ 405 ∷ 410 ∷ [] }
    ensures endpoints { map number_of (ReturnCode.UnknownEndpoint ∷ ReturnCode.InsufficientResources
        ∷ ReturnCode.WildcardTooComplicated ∷ ReturnCode.UnsupportedCommand ∷ [])
        ≡ 500 ∷ 502 ∷ 503 ∷ 504 ∷ [] }
    ensures values { map number_of (ReturnCode.UnsupportedHandling ∷ ReturnCode.RemoteDescriptionError
        ∷ ReturnCode.ProtocolError ∷ ReturnCode.UnrecognizedExtension ∷ [])
        ≡ 508 ∷ 509 ∷ 510 ∷ 511 ∷ [] }
    ensures gateways { map number_of (ReturnCode.UnsupportedEvent ∷ ReturnCode.UnsupportedSignal
        ∷ ReturnCode.IncorrectConnection ∷ ReturnCode.UnknownCall ∷ ReturnCode.UnsupportedMode
        ∷ ReturnCode.UnknownPackage ∷ ReturnCode.NoDigitMap ∷ [])
        ≡ 512 ∷ 513 ∷ 515 ∷ 516 ∷ 517 ∷ 518 ∷ 519 ∷ [] }
    ensures later { map number_of (ReturnCode.Redirected ∷ ReturnCode.NoSuchEventOrSignal
        ∷ ReturnCode.IllegalActions ∷ ReturnCode.MissingRemoteDescription ∷ ReturnCode.IncompatibleVersion ∷ [])
        ≡ 521 ∷ 522 ∷ 523 ∷ 527 ∷ 528 ∷ [] }
    ensures last { map number_of (ReturnCode.ResponseTooLarge ∷ ReturnCode.CodecNegotiationFailure
        ∷ ReturnCode.UnsupportedPacketTime ∷ ReturnCode.EventParameterError ∷ ReturnCode.UnsupportedParameter
        ∷ ReturnCode.TooManyConnections ∷ ReturnCode.UnsupportedConnectionOptions ∷ [])
        ≡ 533 ∷ 534 ∷ 535 ∷ 538 ∷ 539 ∷ 540 ∷ 541 ∷ [] }
    ensures by_number { code_with 510 ≡ Some ReturnCode.ProtocolError }
    ensures by_no_number { code_with 514 ≡ None }
{}

/// Each sentence at an example.
pub fn other_sentences_have_examples()
    // What is said of return codes is what RFC 3435, 2.4, says.
    ensures response_acknowledgement { words_of ReturnCode.ResponseAcknowledgement
        ≡ codes "response acknowledgement" }
    ensures executed { words_of ReturnCode.Executed ≡ codes "executed normally" }
    ensures connection_deleted { words_of ReturnCode.ConnectionDeleted ≡ codes "connection deleted" }
    ensures already_off_hook { words_of ReturnCode.AlreadyOffHook ≡ codes "the phone is already off hook" }
    ensures already_on_hook { words_of ReturnCode.AlreadyOnHook ≡ codes "the phone is already on hook" }
    ensures restarting { words_of ReturnCode.Restarting ≡ codes "the endpoint is restarting" }
    ensures no_endpoint_available { words_of ReturnCode.NoEndpointAvailable ≡ codes "no endpoint available" }
    ensures unknown_endpoint { words_of ReturnCode.UnknownEndpoint ≡ codes "the endpoint is unknown" }
    ensures insufficient_resources { words_of ReturnCode.InsufficientResources ≡ codes "insufficient resources" }
    ensures wildcard_too_complicated { words_of ReturnCode.WildcardTooComplicated ≡ codes "wildcard too complicated" }
    ensures unsupported_command { words_of ReturnCode.UnsupportedCommand ≡ codes "unknown or unsupported command" }
    ensures unsupported_handling { words_of ReturnCode.UnsupportedHandling
        ≡ codes "unknown or unsupported quarantine handling" }
    ensures remote_description_error { words_of ReturnCode.RemoteDescriptionError
        ≡ codes "error in remote connection descriptor" }
    ensures protocol_error { words_of ReturnCode.ProtocolError ≡ codes "protocol error" }
    ensures unrecognized_extension { words_of ReturnCode.UnrecognizedExtension ≡ codes "unrecognized extension" }
    ensures unsupported_event { words_of ReturnCode.UnsupportedEvent
        ≡ codes "not equipped to detect a requested event" }
    ensures unsupported_signal { words_of ReturnCode.UnsupportedSignal
        ≡ codes "not equipped to generate a requested signal" }
    ensures incorrect_connection { words_of ReturnCode.IncorrectConnection ≡ codes "incorrect connection-id" }
    ensures unknown_call { words_of ReturnCode.UnknownCall ≡ codes "unknown or incorrect call-id" }
    ensures unsupported_mode { words_of ReturnCode.UnsupportedMode ≡ codes "unsupported or invalid mode" }
    ensures unknown_package { words_of ReturnCode.UnknownPackage ≡ codes "unsupported or unknown package" }
    ensures no_digit_map { words_of ReturnCode.NoDigitMap ≡ codes "no digit map" }
    ensures redirected { words_of ReturnCode.Redirected ≡ codes "redirected to another call agent" }
    ensures no_such_event_or_signal { words_of ReturnCode.NoSuchEventOrSignal ≡ codes "no such event or signal" }
    ensures illegal_actions { words_of ReturnCode.IllegalActions
        ≡ codes "unknown action or illegal combination of actions" }
    ensures missing_remote_description { words_of ReturnCode.MissingRemoteDescription
        ≡ codes "missing remote connection descriptor" }
    ensures incompatible_version { words_of ReturnCode.IncompatibleVersion ≡ codes "incompatible protocol version" }
    ensures response_too_large { words_of ReturnCode.ResponseTooLarge ≡ codes "response too large" }
    ensures codec_negotiation_failure { words_of ReturnCode.CodecNegotiationFailure
        ≡ codes "codec negotiation failure" }
    ensures unsupported_packet_time { words_of ReturnCode.UnsupportedPacketTime
        ≡ codes "packetization period not supported" }
    ensures event_parameter_error { words_of ReturnCode.EventParameterError
        ≡ codes "event or signal parameter error" }
    ensures unsupported_parameter { words_of ReturnCode.UnsupportedParameter
        ≡ codes "invalid or unsupported command parameter" }
    ensures too_many_connections { words_of ReturnCode.TooManyConnections
        ≡ codes "per endpoint connection limit exceeded" }
    ensures unsupported_connection_options { words_of ReturnCode.UnsupportedConnectionOptions
        ≡ codes "invalid or unsupported local connection options" }
    // Of the faults, want of memory is the first.
    ensures memory { code_fault_number CodeFault.OutOfMemory ≡ 1 }
    ensures code_faults_have_numbers_code { code_fault_number (CodeFault.Code 510) ≡ 2 }
{}
