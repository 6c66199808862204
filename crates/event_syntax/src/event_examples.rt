//! Worked examples of T and of the ranges in it, as theorems.
#![tactic(auto, unfolding(crate::proofs::Computing::on_examples))]

ghost use Rattle.std.specs.Prelude.{◌≡◌, ◌++◌, codes, replicate, [], ◌∷◌, Ok, Err, true, false};
ghost use Rattle.event_syntax.specs.Ranges.{is_bracketed, letters_in, letters_of, letters_text};
ghost use Rattle.event_syntax.specs.Detect.{detected_of, detected_text, are_writable_events};
ghost use Rattle.event_syntax.specs.EventExample.{names, names_one, hooks, range_of};

use crate::events::Events;
use mg_bytes::Letter;
use packages::LineEvent;

/// Each sentence at an example.
pub fn each_sentence_has_an_example()
    // In brackets stand letters, `X` and digit spans, and nothing else; the brackets aren't empty.
    ensures ranges_are_letters_and_spans_span { is_bracketed (codes "[0-9]") ≡ true }
    ensures ranges_are_letters_and_spans_span_of_one { is_bracketed (codes "[5-5]") ≡ true }
    ensures ranges_are_letters_and_spans_marks { is_bracketed (codes "[*#AbCdTx]") ≡ true }
    ensures span_behind_marks { is_bracketed (codes "[T1-3X4-4]") ≡ true }
    ensures ranges_are_letters_and_spans_downwards { is_bracketed (codes "[9-1]") ≡ false }
    ensures downwards_behind { is_bracketed (codes "[11-0]") ≡ false }
    ensures ranges_are_letters_and_spans_empty { is_bracketed (codes "[]") ≡ false }
    ensures span_of_letters { is_bracketed (codes "[A-C]") ≡ false }
    ensures span_to_letter { is_bracketed (codes "[0-A]") ≡ false }
    ensures span_from_letter { is_bracketed (codes "[*-9]") ≡ false }
    ensures hyphen { is_bracketed (codes "[-]") ≡ false }
    ensures no_end { is_bracketed (codes "[0-]") ≡ false }
    ensures no_start { is_bracketed (codes "[-9]") ≡ false }
    ensures two_hyphens { is_bracketed (codes "[0--9]") ≡ false }
    ensures other_letter { is_bracketed (codes "[E]") ≡ false }
    ensures ranges_are_letters_and_spans_blank { is_bracketed (codes "[1 ]") ≡ false }
    ensures comma { is_bracketed (codes "[1,2]") ≡ false }
    ensures nested { is_bracketed (codes "[[1]]") ≡ false }
    ensures bare { is_bracketed (codes "1") ≡ false }
    ensures open { is_bracketed (codes "[1") ≡ false }
    ensures closed { is_bracketed (codes "1]") ≡ false }
    ensures one_bracket { is_bracketed (codes "[") ≡ false }
    // A range has the letters that stand in it, in any case, all digits for `X`, and the digits of a span with both ends.
    ensures ranges_have_letters_span { letters_of (letters_in (codes "3-5")) ≡ Letter.Three ∷ Letter.Four ∷ Letter.Five ∷ [] }
    ensures ranges_have_letters_span_of_one { letters_of (letters_in (codes "7-7")) ≡ Letter.Seven ∷ [] }
    ensures ranges_have_letters_marks { letters_of (letters_in (codes "t#d*")) ≡ Letter.Star ∷ Letter.Hash ∷ Letter.D ∷ Letter.Timer ∷ [] }
    ensures upper { letters_of (letters_in (codes "CBA")) ≡ Letter.A ∷ Letter.B ∷ Letter.C ∷ [] }
    ensures ranges_have_letters_digits { letters_of (letters_in (codes "X")) ≡ Letter.Zero ∷ Letter.One ∷ Letter.Two ∷ Letter.Three
        ∷ Letter.Four ∷ Letter.Five ∷ Letter.Six ∷ Letter.Seven ∷ Letter.Eight ∷ Letter.Nine ∷ [] }
    ensures lower_x { letters_in (codes "x") ≡ letters_in (codes "0-9") }
    ensures twice { letters_in (codes "11-22") ≡ letters_in (codes "12") }
    ensures span_behind { letters_of (letters_in (codes "T8-9")) ≡ Letter.Eight ∷ Letter.Nine ∷ Letter.Timer ∷ [] }
    ensures mark_behind { letters_of (letters_in (codes "8-90")) ≡ Letter.Zero ∷ Letter.Eight ∷ Letter.Nine ∷ [] }
    ensures two_marks { letters_of (letters_in (codes "0T")) ≡ Letter.Zero ∷ Letter.Timer ∷ [] }
    // One letter is written by itself, others in brackets, in their order and without spans.
    ensures sets_are_written_all { letters_text (letters_in (codes "T0-9*#ABCD")) ≡ codes "[0123456789*#ABCDT]" }
    ensures one { letters_text (letters_in (codes "#")) ≡ codes "#" }
    ensures two { letters_text (letters_in (codes "ta")) ≡ codes "[AT]" }
{}

/// Each sentence at an example.
pub fn further_sentences_have_examples()
    // An entry of T names one event, all events of a package, or some letters of D. Without a package L is meant.
    ensures line { detected_of (codes "hu") ≡ names_one LineEvent.OnHook }
    ensures flash { detected_of (codes "l/HF") ≡ names_one LineEvent.Flash }
    ensures complete { detected_of (codes "L/oc") ≡ names_one LineEvent.LineComplete }
    ensures generic { detected_of (codes "g/oc") ≡ names_one LineEvent.GenericComplete }
    ensures all_of_line { detected_of (codes "L/all") ≡ names Events.AllOfLine }
    ensures events_are_named_all { detected_of (codes "ALL") ≡ names Events.AllOfLine }
    ensures all_of_generic { detected_of (codes "G/all") ≡ names_one LineEvent.GenericComplete }
    // The keys, without T.
    ensures all_keys { detected_of (codes "D/All") ≡ names (range_of (codes "0123456789*#ABCD")) }
    ensures events_are_named_digits { detected_of (codes "D/x") ≡ names (range_of (codes "0-9")) }
    ensures key { detected_of (codes "D/5") ≡ names (range_of (codes "5")) }
    ensures star { detected_of (codes "D/*") ≡ names (range_of (codes "*")) }
    ensures events_are_named_letter { detected_of (codes "D/d") ≡ names (range_of (codes "D")) }
    ensures timer { detected_of (codes "d/t") ≡ names (range_of (codes "T")) }
    ensures range { detected_of (codes "d/[0-9T]") ≡ names (range_of (codes "T0123456789")) }
    // What names no event has a code.
    ensures package { detected_of (codes "Q/a") ≡ Err 518 }
    ensures any_package { detected_of (codes "*/all") ≡ Err 518 }
    ensures signal { detected_of (codes "L/dl") ≡ Err 522 }
    ensures generic_signal { detected_of (codes "G/cf") ≡ Err 522 }
    ensures unknown { detected_of (codes "L/wt") ≡ Err 512 }
    ensures event_of_another { detected_of (codes "G/hd") ≡ Err 512 }
    ensures two_keys { detected_of (codes "D/12") ≡ Err 512 }
    ensures no_key { detected_of (codes "D/E") ≡ Err 512 }
    ensures digit_of_line { detected_of (codes "L/X") ≡ Err 512 }
    ensures bare_digit { detected_of (codes "X") ≡ Err 512 }
    ensures connection { detected_of (codes "L/hd@1") ≡ Err 512 }
    ensures connection_of_all { detected_of (codes "D/all@1") ≡ Err 512 }
    ensures connection_of_digits { detected_of (codes "D/X@1") ≡ Err 512 }
    ensures parameter { detected_of (codes "L/hd(N)") ≡ Err 538 }
    ensures parameters { detected_of (codes "D/[0-9](a b,c)") ≡ Err 538 }
{}

/// Each sentence at an example.
pub fn more_sentences_have_examples()
    // A value of T that isn't spelled is 510. A range stands behind `D/` alone.
    ensures misspelled_events_are_510_downwards { detected_of (codes "D/[9-1]") ≡ Err 510 }
    ensures empty_range { detected_of (codes "D/[]") ≡ Err 510 }
    ensures range_of_line { detected_of (codes "L/[1]") ≡ Err 510 }
    ensures range_of_none { detected_of (codes "[1]") ≡ Err 510 }
    ensures range_of_another { detected_of (codes "Q/[1]") ≡ Err 510 }
    ensures range_on_connection { detected_of (codes "D/[1]@2") ≡ Err 510 }
    ensures behind_range { detected_of (codes "D/[1]2") ≡ Err 510 }
    ensures blank_in_range { detected_of (codes "D/[1 2]") ≡ Err 510 }
    ensures no_connection { detected_of (codes "L/hd@") ≡ Err 510 }
    ensures no_name { detected_of (codes "L/") ≡ Err 510 }
    ensures no_package { detected_of (codes "/[1]") ≡ Err 510 }
    ensures no_entry { detected_of (codes "L/hd,") ≡ Err 510 }
    ensures empty_parentheses { detected_of (codes "L/hd()") ≡ Err 510 }
    ensures nested_parentheses { detected_of (codes "L/hd((N))") ≡ Err 510 }
    ensures second_parentheses { detected_of (codes "L/hd(N)(p)") ≡ Err 510 }
    // The faults of T have the order of those of S; there are at most 32 entries.
    ensures spelling_first { detected_of (codes "Q/a,D/[9-1]") ≡ Err 510 }
    ensures spelling_before_number { detected_of (hooks 33 ++ codes ",") ≡ Err 510 }
    ensures faults_of_events_have_an_order_most { detected_of (hooks 32) ≡ Ok (replicate 32 (Events.One LineEvent.OffHook)) }
    ensures number { detected_of (hooks 33) ≡ Err 502 }
    ensures number_before_entries { detected_of (codes "Q/a," ++ hooks 32) ≡ Err 502 }
    ensures entries_of_32 { detected_of (codes "Q/a," ++ hooks 31) ≡ Err 518 }
    ensures left_first { detected_of (codes "L/wt,Q/a") ≡ Err 512 }
    ensures package_first { detected_of (codes "Q/a@1(x)") ≡ Err 518 }
    ensures connection_before_name { detected_of (codes "L/dl@1(x)") ≡ Err 512 }
    ensures name_before_parameters { detected_of (codes "L/dl(x)") ≡ Err 522 }
    ensures parameters_of_the_first { detected_of (codes "L/hd(x),Q/a") ≡ Err 538 }
    // T is read, blanks round commas and parentheses or not, and written with packages and without blanks.
    ensures read { detected_of (codes " hf ,\tD/5,D/[0-9T] ,all") ≡ Ok (Events.One LineEvent.Flash ∷ range_of (codes "5")
        ∷ range_of (codes "0123456789T") ∷ Events.AllOfLine ∷ []) }
    ensures events_are_written_empty { detected_of [] ≡ Ok [] }
    ensures events_are_written_blank { detected_of (codes " \t") ≡ Ok [] }
    ensures written { detected_text (Events.One LineEvent.Flash ∷ range_of (codes "5") ∷ range_of (codes "0-9T")
        ∷ Events.AllOfLine ∷ Events.One LineEvent.GenericComplete ∷ range_of (codes "A*") ∷ [])
        ≡ codes "L/hf,D/5,D/[0123456789T],L/all,G/oc,D/[*A]" }
    ensures none { detected_text [] ≡ [] }
    // A list of events can be written so that it is read again where it has at most 32 entries, in which letters are sets
    // that aren't empty.
    ensures some { are_writable_events (Events.AllOfLine ∷ Events.One LineEvent.OffHook ∷ range_of (codes "T") ∷ []) ≡ true }
    ensures some_events_can_be_written_letter { are_writable_events (Events.One (LineEvent.Letter Letter.Five) ∷ []) ≡ false }
    ensures no_letters { are_writable_events (Events.AllOfLine ∷ range_of [] ∷ []) ≡ false }
    ensures shorter { are_writable_events (Events.Letters (true ∷ []) ∷ []) ≡ false }
    ensures some_events_can_be_written_most { are_writable_events (replicate 32 Events.AllOfLine) ≡ true }
    ensures too_many { are_writable_events (replicate 33 Events.AllOfLine) ≡ false }
{}
