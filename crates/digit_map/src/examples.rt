//! Worked examples of the definitions, as theorems: each sentence of a definition has one that a slip in it breaks.
#![tactic(auto, unfolding(crate::proofs::Computing::on_examples))]

ghost use Rattle.std.specs.Prelude.{◌≡◌, ℕ, List, codes, true, false, [], ◌∷◌, ◌++◌, Some, None, Ok, Err};
ghost use Rattle.std.specs.List.{list_all};
ghost use Rattle.mg_bytes.specs.Bytes.{left_parenthesis, right_parenthesis};
ghost use Rattle.digit_map.specs.Cuts.{bar, strings_of, positions_of, set_of, parts_of};
ghost use Rattle.digit_map.specs.Spelling.{is_position, is_map};
ghost use Rattle.digit_map.specs.Reading.{map_of, or_code, map_code, code_fault_of, map_fault_number, ReadsAs};
ghost use Rattle.digit_map.specs.Change.{change_of, takes_memory};
ghost use Rattle.digit_map.specs.Words.{is_word};
ghost use Rattle.digit_map.specs.Example.{dialled, verdict, critical, copies, letters_of};

use crate::change::MapChange;
use crate::fault::MapFault;
use crate::part::Part;
use crate::verdict::Verdict;
use mg_bytes::CodeFault;

/// Each sentence at an example.
pub fn each_sentence_has_an_example()
    // The names of bytes stand for what is written.
    ensures marks_have_names { codes "(|)" ≡ left_parenthesis ∷ bar ∷ right_parenthesis ∷ [] }
    // In parentheses bars part the strings; else the text itself is the string.
    ensures bars_part_strings_three { strings_of (codes "(0T|00T|[1-7]xxx)") ≡ codes "0T" ∷ codes "00T" ∷ codes "[1-7]xxx" ∷ [] }
    ensures bars_part_strings_one { strings_of (codes "(xx)") ≡ codes "xx" ∷ [] }
    ensures bare { strings_of (codes "xx") ≡ codes "xx" ∷ [] }
    ensures bare_bar { strings_of (codes "1|2") ≡ codes "1|2" ∷ [] }
    ensures bars_part_strings_empty { strings_of (codes "()") ≡ [] ∷ [] }
    ensures bars_part_strings_empty_last { strings_of (codes "(1|)") ≡ codes "1" ∷ [] ∷ [] }
    ensures bars_part_strings_twice { strings_of (codes "((1))") ≡ codes "(1)" ∷ [] }
    ensures bars_part_strings_open { strings_of (codes "(1") ≡ codes "(1" ∷ [] }
    ensures bars_part_strings_closed { strings_of (codes "1)") ≡ codes "1)" ∷ [] }
    ensures bars_part_strings_behind { strings_of (codes "(1)2") ≡ codes "(1)2" ∷ [] }
    ensures alone { strings_of (codes "(") ≡ codes "(" ∷ [] }
    ensures bars_part_strings_none { strings_of [] ≡ [] ∷ [] }
    // A position begins at each byte outside of brackets that is no dot.
    ensures brackets_and_dots_belong_to_positions_four { positions_of (codes "0[1-7].x.T")
        ≡ codes "0" ∷ codes "[1-7]." ∷ codes "x." ∷ codes "T" ∷ [] }
    ensures brackets_and_dots_belong_to_positions_none { positions_of [] ≡ [] }
    ensures brackets_and_dots_belong_to_positions_first_dot { positions_of (codes ".1") ≡ codes "." ∷ codes "1" ∷ [] }
    ensures brackets_and_dots_belong_to_positions_two_dots { positions_of (codes "1..2") ≡ codes "1.." ∷ codes "2" ∷ [] }
    ensures brackets_and_dots_belong_to_positions_dot_inside { positions_of (codes "[.]1") ≡ codes "[.]" ∷ codes "1" ∷ [] }
    ensures brackets_and_dots_belong_to_positions_bracket_inside { positions_of (codes "[[1]]") ≡ codes "[[1]" ∷ codes "]" ∷ [] }
    ensures brackets_and_dots_belong_to_positions_open { positions_of (codes "1[23") ≡ codes "1" ∷ codes "[23" ∷ [] }
    ensures brackets_and_dots_belong_to_positions_closed { positions_of (codes "1]2") ≡ codes "1" ∷ codes "]" ∷ codes "2" ∷ [] }
    // At a position may stand what its brackets have in them, or its byte.
    ensures brackets_hold_sets_range { set_of (codes "[1-7*].") ≡ codes "1-7*" }
    ensures byte { set_of (codes "x.") ≡ codes "x" }
    ensures brackets_hold_sets_empty { set_of (codes "[]") ≡ [] }
    ensures brackets_hold_sets_open { set_of (codes "[1") ≡ [] }
    ensures brackets_hold_sets_none { set_of [] ≡ [] }
    // A byte, a hyphen and a byte are a span; any other byte stands for itself.
    ensures hyphens_make_spans_three { parts_of (codes "1-35#") ≡ Part.Span 49 51 ∷ Part.Single 53 ∷ Part.Single 35 ∷ [] }
    ensures hyphens_make_spans_two { parts_of (codes "1-23-4") ≡ Part.Span 49 50 ∷ Part.Span 51 52 ∷ [] }
    ensures hyphens_make_spans_one { parts_of (codes "T") ≡ Part.Single 84 ∷ [] }
    ensures first { parts_of (codes "-1") ≡ Part.Single 45 ∷ Part.Single 49 ∷ [] }
    ensures last { parts_of (codes "1-") ≡ Part.Single 49 ∷ Part.Single 45 ∷ [] }
    ensures chain { parts_of (codes "1-2-3") ≡ Part.Span 49 50 ∷ Part.Single 45 ∷ Part.Single 51 ∷ [] }
    ensures hyphens_make_spans_none { parts_of [] ≡ [] }
{}

/// Each sentence at an example.
pub fn further_sentences_have_examples()
    // These texts are maps.
    ensures some_texts_are_maps_four { list_all is_map (codes "(0T|00T|[1-7]xxx)" ∷ codes "(x.T|8xxx)" ∷ codes "(1xT)" ∷ codes "(xx)"
        ∷ []) ≡ true }
    ensures letters { is_map (codes "0123456789*#ABCDTX") ≡ true }
    ensures lower { is_map (codes "abcdtx") ≡ true }
    ensures some_texts_are_maps_range { is_map (codes "[0-9*#abcdTx]") ≡ true }
    ensures same { is_map (codes "[5-5]") ≡ true }
    ensures some_texts_are_maps_twice { is_map (codes "[55]") ≡ true }
    ensures dots { is_map (codes "1.x.[12].") ≡ true }
    ensures alike { is_map (codes "(1|1)") ≡ true }
    // These texts are no maps.
    ensures other_texts_are_no_maps_empty { is_map [] ≡ false }
    ensures no_string { is_map (codes "()") ≡ false }
    ensures other_texts_are_no_maps_empty_last { is_map (codes "(1|)") ≡ false }
    ensures empty_first { is_map (codes "(|1)") ≡ false }
    ensures bar { is_map (codes "1|2") ≡ false }
    ensures other_texts_are_no_maps_twice { is_map (codes "((1))") ≡ false }
    ensures other_texts_are_no_maps_open { is_map (codes "(1") ≡ false }
    ensures other_texts_are_no_maps_closed { is_map (codes "1)") ≡ false }
    ensures other_texts_are_no_maps_behind { is_map (codes "(1)2") ≡ false }
    ensures no_letter { is_map (codes "[]") ≡ false }
    ensures down { is_map (codes "[9-1]") ≡ false }
    ensures span_of_letters { is_map (codes "[A-D]") ≡ false }
    ensures half_span { is_map (codes "[1-]") ≡ false }
    ensures wild_span { is_map (codes "[0-x]") ≡ false }
    ensures span_from_a_letter { is_map (codes "[*-5]") ≡ false }
    ensures span_from_below_0 { is_map (codes "[/-5]") ≡ false }
    ensures span_past_9 { is_map (codes "[0-:]") ≡ false }
    ensures bare_span { is_map (codes "1-3") ≡ false }
    ensures other_texts_are_no_maps_first_dot { is_map (codes ".1") ≡ false }
    ensures other_texts_are_no_maps_two_dots { is_map (codes "1..") ≡ false }
    ensures two_dots_behind_brackets { is_map (codes "[12]..") ≡ false }
    ensures other_texts_are_no_maps_dot_inside { is_map (codes "[1.]") ≡ false }
    ensures other_texts_are_no_maps_bracket_inside { is_map (codes "[[1]]") ≡ false }
    ensures open_bracket { is_map (codes "[1") ≡ false }
    ensures closed_bracket { is_map (codes "1]") ≡ false }
    ensures bar_inside { is_map (codes "([1|2])") ≡ false }
    ensures other_texts_are_no_maps_letter { is_map (codes "E") ≡ false }
    ensures letter_inside { is_map (codes "[1E]") ≡ false }
    ensures second { is_map (codes "(1|2E)") ≡ false }
{}

/// Each sentence at an example.
pub fn more_sentences_have_examples()
    // A position is one letter or one range, and a dot behind it or nothing.
    ensures positions_are_letters_and_ranges_letter { is_position (codes "1") ≡ true }
    ensures positions_are_letters_and_ranges_range { is_position (codes "[12]") ≡ true }
    ensures repeated { is_position (codes "1.") ≡ true }
    ensures range_repeated { is_position (codes "[12].") ≡ true }
    ensures positions_are_letters_and_ranges_two { is_position (codes "12") ≡ false }
    ensures behind_range { is_position (codes "[12]3") ≡ false }
    ensures positions_are_letters_and_ranges_none { is_position [] ≡ false }
    // Blanks are dropped wherever they stand, and nothing else is changed.
    ensures anywhere { map_of (codes " ( 0 T\t|[1 - 7]\tx . ) ") ≡ Ok (codes "(0T|[1-7]x.)") }
    ensures case { map_of (codes "(Xx.t|aB)") ≡ Ok (codes "(Xx.t|aB)") }
    ensures blank { map_of (codes " \t") ≡ Err MapFault.Syntax }
    ensures feed { map_of (codes "1\n2") ≡ Err MapFault.Syntax }
    // A map has at most 2,048 bytes without its blanks; a text that is no map is that, however long.
    ensures most { map_of (copies 2048 (codes "1")) ≡ Ok (copies 2048 (codes "1")) }
    ensures one_more { map_of (copies 2049 (codes "1")) ≡ Err MapFault.TooLarge }
    ensures blanks { map_of (copies 2048 (codes " 1")) ≡ Ok (copies 2048 (codes "1")) }
    ensures ranges { let map = copies 409 (codes "[0-9]") ++ codes "123" in map_of map ≡ Ok map }
    ensures ranges_and_one { map_of (copies 409 (codes "[0-9]") ++ codes "1234") ≡ Err MapFault.TooLarge }
    ensures misspelled { map_of (copies 2049 (codes "(")) ≡ Err MapFault.Syntax }
    // What is answered is what the text is read as, or that memory was refused; nothing else is.
    ensures map { ReadsAs (Ok (codes "1")) (Ok (codes "1")) }
    ensures no_map { ReadsAs {A = List ℕ} (Err MapFault.Syntax) (Err MapFault.Syntax) }
    ensures large { ReadsAs {A = List ℕ} (Err MapFault.TooLarge) (Err MapFault.TooLarge) }
    ensures memory { ReadsAs (Ok (codes "1")) (Err MapFault.OutOfMemory) }
    ensures memory_first { ReadsAs {A = List ℕ} (Err MapFault.Syntax) (Err MapFault.OutOfMemory) }
    ensures other_map { ¬ ReadsAs (Ok (codes "1")) (Ok (codes "2")) }
    ensures map_of_none { ¬ ReadsAs (Err MapFault.Syntax) (Ok (codes "1")) }
    ensures false_syntax { ¬ ReadsAs (Ok (codes "1")) (Err MapFault.Syntax) }
    ensures syntax_for_large { ¬ ReadsAs {A = List ℕ} (Err MapFault.TooLarge) (Err MapFault.Syntax) }
    ensures false_large { ¬ ReadsAs (Ok (codes "1")) (Err MapFault.TooLarge) }
    ensures large_for_syntax { ¬ ReadsAs {A = List ℕ} (Err MapFault.Syntax) (Err MapFault.TooLarge) }
{}

/// Each sentence at an example.
pub fn other_sentences_have_examples()
    // Without D the map stays; a D of blanks alone removes it; another replaces it, or has the fault of its text.
    ensures requests_change_maps_absent { change_of None ≡ Ok MapChange.Keep }
    ensures requests_change_maps_empty { change_of (Some []) ≡ Ok MapChange.Remove }
    ensures requests_change_maps_blank { change_of (Some (codes " \t ")) ≡ Ok MapChange.Remove }
    ensures requests_change_maps_map { change_of (Some (codes "(0T|8xxx)")) ≡ Ok (MapChange.Replace (codes "(0T|8xxx)")) }
    ensures without_blanks { change_of (Some (codes " 8 x\t")) ≡ Ok (MapChange.Replace (codes "8x")) }
    ensures no_strings { change_of (Some (codes "()")) ≡ Err MapFault.Syntax }
    ensures downwards { change_of (Some (codes "[9-1]")) ≡ Err MapFault.Syntax }
    ensures most { change_of (Some (copies 2048 (codes "1"))) ≡ Ok (MapChange.Replace (copies 2048 (codes "1"))) }
    ensures large { change_of (Some (copies 2049 (codes "1"))) ≡ Err MapFault.TooLarge }
    // To read D takes memory for a map alone, whatever its text is.
    ensures changes_take_memory_for_a_map_absent { takes_memory None ≡ false }
    ensures changes_take_memory_for_a_map_empty { takes_memory (Some []) ≡ false }
    ensures changes_take_memory_for_a_map_blank { takes_memory (Some (codes " \t ")) ≡ false }
    ensures changes_take_memory_for_a_map_map { takes_memory (Some (codes " 8x")) ≡ true }
    ensures no_map { takes_memory (Some (codes "()")) ≡ true }
    // A position has the letters that its text names: a letter in any case, any digit for `X`, the digits of a span.
    ensures digit { letters_of (codes "5") ≡ dialled (codes "5") }
    ensures star { letters_of (codes "*") ≡ dialled (codes "*") }
    ensures lower { letters_of (codes "d") ≡ dialled (codes "D") }
    ensures positions_have_letters_timer { letters_of (codes "t") ≡ dialled (codes "T") }
    ensures positions_have_letters_wild { letters_of (codes "X") ≡ dialled (codes "0123456789") }
    ensures wild_lower { letters_of (codes "x.") ≡ dialled (codes "0123456789") }
    ensures span { letters_of (codes "[1-7]") ≡ dialled (codes "1234567") }
    ensures single_span { letters_of (codes "[5-5]") ≡ dialled (codes "5") }
    ensures mixed { letters_of (codes "[t8-9#1].") ≡ dialled (codes "189#T") }
    ensures wild_inside { letters_of (codes "[x*]") ≡ dialled (codes "0123456789*") }
    ensures first_byte { letters_of (codes "12") ≡ dialled (codes "1") }
    // A position stands for one letter, and with a dot for zero or more.
    ensures dots_repeat_positions_one { is_word (codes "12") (dialled (codes "12")) ≡ true }
    ensures short { is_word (codes "12") (dialled (codes "1")) ≡ false }
    ensures long { is_word (codes "12") (dialled (codes "122")) ≡ false }
    ensures other { is_word (codes "12") (dialled (codes "13")) ≡ false }
    ensures order { is_word (codes "12") (dialled (codes "21")) ≡ false }
    ensures dots_repeat_positions_zero { is_word (codes "12.3") (dialled (codes "13")) ≡ true }
    ensures once { is_word (codes "12.3") (dialled (codes "123")) ≡ true }
    ensures thrice { is_word (codes "12.3") (dialled (codes "12223")) ≡ true }
    ensures others { is_word (codes "1[24].3") (dialled (codes "12423")) ≡ true }
    ensures all { is_word (codes "1.") [] ≡ true }
    ensures overlap { is_word (codes "1.1") (dialled (codes "111")) ≡ true }
    ensures overlap_short { is_word (codes "1.1") [] ≡ false }
    ensures dots { is_word (codes "1.2.3.") (dialled (codes "1133")) ≡ true }
    ensures dots_order { is_word (codes "1.2.3.") (dialled (codes "131")) ≡ false }
    ensures dots_repeat_positions_second { is_word (codes "(1|23)") (dialled (codes "23")) ≡ true }
    ensures joined { is_word (codes "(1|23)") (dialled (codes "123")) ≡ false }
{}

/// Each sentence at an example.
pub fn still_more_sentences_have_examples()
    // A word is perfect, even where longer words begin with it; the beginning of a word is partial; others are impossible.
    ensures eight { verdict (codes "(x.T|8xxx)") (codes "8") ≡ Verdict.Partial }
    ensures eight_two { verdict (codes "(x.T|8xxx)") (codes "81") ≡ Verdict.Partial }
    ensures eight_three { verdict (codes "(x.T|8xxx)") (codes "812") ≡ Verdict.Partial }
    ensures eight_four { verdict (codes "(x.T|8xxx)") (codes "8123") ≡ Verdict.Perfect }
    ensures eight_five { verdict (codes "(x.T|8xxx)") (codes "81234") ≡ Verdict.Partial }
    ensures letters_have_verdicts_timer { verdict (codes "(x.T|8xxx)") (codes "T") ≡ Verdict.Perfect }
    ensures behind_timer { verdict (codes "(x.T|8xxx)") (codes "T1") ≡ Verdict.Impossible }
    ensures letters_have_verdicts_zero { verdict (codes "(0T|00T|[1-7]xxx)") (codes "0") ≡ Verdict.Partial }
    ensures zero_timer { verdict (codes "(0T|00T|[1-7]xxx)") (codes "0T") ≡ Verdict.Perfect }
    ensures letters_have_verdicts_two_zeros { verdict (codes "(0T|00T|[1-7]xxx)") (codes "00") ≡ Verdict.Partial }
    ensures two_zeros_timer { verdict (codes "(0T|00T|[1-7]xxx)") (codes "00T") ≡ Verdict.Perfect }
    ensures three_zeros { verdict (codes "(0T|00T|[1-7]xxx)") (codes "000") ≡ Verdict.Impossible }
    ensures four { verdict (codes "(0T|00T|[1-7]xxx)") (codes "1234") ≡ Verdict.Perfect }
    ensures letters_have_verdicts_one { verdict (codes "(0T|00T|[1-7]xxx)") (codes "1") ≡ Verdict.Partial }
    ensures one_timer { verdict (codes "(0T|00T|[1-7]xxx)") (codes "1T") ≡ Verdict.Impossible }
    ensures letters_have_verdicts_nine { verdict (codes "(0T|00T|[1-7]xxx)") (codes "9") ≡ Verdict.Impossible }
    ensures before_timer { verdict (codes "(1xT)") (codes "1") ≡ Verdict.Partial }
    ensures next_before_timer { verdict (codes "(1xT)") (codes "12") ≡ Verdict.Partial }
    ensures with_timer { verdict (codes "(1xT)") (codes "12T") ≡ Verdict.Perfect }
    ensures early_timer { verdict (codes "(1xT)") (codes "1T") ≡ Verdict.Impossible }
    ensures two_first { verdict (codes "(xx)") (codes "5") ≡ Verdict.Partial }
    ensures two { verdict (codes "(xx)") (codes "56") ≡ Verdict.Perfect }
    ensures three { verdict (codes "(xx)") (codes "567") ≡ Verdict.Impossible }
    ensures letters_have_verdicts_longer { verdict (codes "(1|12)") (codes "1") ≡ Verdict.Perfect }
    ensures letters_have_verdicts_second { verdict (codes "(12|13)") (codes "13") ≡ Verdict.Perfect }
    ensures first_is_begun { verdict (codes "(12|3)") (codes "1") ≡ Verdict.Partial }
    ensures letters_have_verdicts_repeated { verdict (codes "1.2") (codes "11") ≡ Verdict.Partial }
    ensures past_repeated { verdict (codes "1.23") (codes "112") ≡ Verdict.Partial }
    ensures letters_have_verdicts_none { verdict (codes "1") [] ≡ Verdict.Partial }
{}

/// Each sentence at an example.
pub fn yet_more_sentences_have_examples()
    // Letters are critical where a T behind them makes a word: a longer word with a T doesn't make them so.
    ensures letters_are_critical_before_a_timer_zero { critical (codes "(0T|00T|[1-7]xxx)") (codes "0") ≡ true }
    ensures letters_are_critical_before_a_timer_two_zeros { critical (codes "(0T|00T|[1-7]xxx)") (codes "00") ≡ true }
    ensures letters_are_critical_before_a_timer_one { critical (codes "(0T|00T|[1-7]xxx)") (codes "1") ≡ false }
    ensures letters_are_critical_before_a_timer_nine { critical (codes "(0T|00T|[1-7]xxx)") (codes "9") ≡ false }
    ensures letters_are_critical_before_a_timer_longer { critical (codes "(1xT)") (codes "1") ≡ false }
    ensures next { critical (codes "(1xT)") (codes "12") ≡ true }
    ensures past { critical (codes "(1xT)") (codes "12T") ≡ false }
    ensures letters_are_critical_before_a_timer_begun { critical (codes "(1T2)") (codes "1") ≡ false }
    ensures two_timers { critical (codes "(1TT)") (codes "1") ≡ false }
    ensures letters_are_critical_before_a_timer_word { critical (codes "(1|1T)") (codes "1") ≡ true }
    ensures letters_are_critical_before_a_timer_repeated { critical (codes "(x.T|8xxx)") (codes "8") ≡ true }
    ensures repeated_three { critical (codes "(x.T|8xxx)") (codes "812") ≡ true }
    ensures letters_are_critical_before_a_timer_none { critical (codes "(x.T|8xxx)") [] ≡ true }
    ensures no_timer { critical (codes "(xx)") (codes "5") ≡ false }
    ensures range { critical (codes "1[2T]") (codes "1") ≡ true }
    ensures letters_are_critical_before_a_timer_wild { critical (codes "1x") (codes "1") ≡ false }
    // A dial string of 64 letters is judged as shorter ones are.
    ensures sixty_four_letters_have_verdicts_word { verdict (codes "x.") (copies 64 (codes "5")) ≡ Verdict.Perfect }
    ensures sixty_four_letters_have_verdicts_begun { verdict (codes "x.T") (copies 64 (codes "5")) ≡ Verdict.Partial }
    ensures critical { critical (codes "x.T") (copies 64 (codes "5")) ≡ true }
    ensures sixty_four_letters_have_verdicts_none { verdict (codes "(x.T|8xxx)") (copies 63 (codes "5") ++ codes "*") ≡ Verdict.Impossible }
    ensures last { verdict (copies 64 (codes "x")) (copies 64 (codes "5")) ≡ Verdict.Perfect }
    ensures before_last { verdict (copies 64 (codes "x")) (copies 63 (codes "5")) ≡ Verdict.Partial }
    ensures one_more { verdict (copies 63 (codes "x")) (copies 64 (codes "5")) ≡ Verdict.Impossible }
    ensures longest { let map = copies 409 (codes "[0-9]") ++ codes "123" in
        verdict map (copies 64 (codes "5")) ≡ Verdict.Partial }
    // A text that isn't spelled is answered with 510, a map that is too large with 502; want of memory, in which no reading
    // ends, would be 510.
    ensures faults_have_codes_none { or_code (map_of (codes "x.T")) ≡ Ok (codes "x.T") }
    ensures faults_have_codes_syntax { or_code (map_of []) ≡ Err 510 }
    ensures faults_have_codes_size { map_code MapFault.TooLarge ≡ 502 }
    ensures faults_have_codes_memory { map_code MapFault.OutOfMemory ≡ 510 }
    ensures answered_syntax { code_fault_of MapFault.Syntax ≡ CodeFault.Code 510 }
    ensures answered_size { code_fault_of MapFault.TooLarge ≡ CodeFault.Code 502 }
    ensures answered_memory { code_fault_of MapFault.OutOfMemory ≡ CodeFault.OutOfMemory }
    // Faults are numbered from 1, in the order in which they are declared.
    ensures faults_have_numbers_memory { map_fault_number MapFault.OutOfMemory ≡ 1 }
    ensures faults_have_numbers_syntax { map_fault_number MapFault.Syntax ≡ 2 }
    ensures faults_have_numbers_size { map_fault_number MapFault.TooLarge ≡ 3 }
{}
