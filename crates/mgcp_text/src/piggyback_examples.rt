//! Worked examples of the definitions, as theorems: each sentence of a definition has one that a slip in it breaks.
#![tactic(auto, unfolding(crate::proofs::PiggybackComputing::on_examples))]

ghost use Rattle.std.specs.Prelude.{◌≡◌, codes, true, false, [], ◌∷◌};
ghost use Rattle.mgcp_text.specs.Parts.{parts_of, IsPartedInto};
ghost use Rattle.mgcp_text.specs.Packing.{dot_line, packed, joined, with_next, is_joinable, IsPackedInto};

/// Each sentence at an example.
pub fn each_sentence_has_an_example()
    // A datagram without a dot line has one part, itself.
    ensures a_datagram_without_a_dot_line_is_one_part_empty { parts_of [] ≡ [] ∷ [] }
    ensures lines { let text = codes "AUEP 1 aaln/1@x MGCP 1.0\r\nF: ES\n\r\n" in parts_of text ≡ text ∷ [] }
    ensures a_datagram_without_a_dot_line_is_one_part_unended { parts_of (codes "a\r\nb") ≡ codes "a\r\nb" ∷ [] }
    ensures a_datagram_without_a_dot_line_is_one_part_blanks { parts_of (codes " \t") ≡ codes " \t" ∷ [] }
    // Dot lines part the texts between them, and a dot line at an end leaves an empty text there.
    ensures alone { parts_of (codes ".") ≡ [] ∷ [] ∷ [] }
    ensures both_ends { parts_of (codes ".\r\na\r\n.\r\n") ≡ [] ∷ codes "a\r\n" ∷ [] ∷ [] }
    ensures in_a_row { parts_of (codes "a\n.\r\n.\nb\n") ≡ codes "a\n" ∷ [] ∷ codes "b\n" ∷ [] }
    ensures dot_lines_part_texts_three { parts_of (codes "a\n.\nb\n.\nc\n") ≡ codes "a\n" ∷ codes "b\n" ∷ codes "c\n" ∷ [] }
    ensures unended_dot { parts_of (codes "a\r\n.") ≡ codes "a\r\n" ∷ [] ∷ [] }
    // A dot line may end in CRLF or LF, and blanks may stand round its dot.
    ensures dot_lines_are_read_leniently_crlf { parts_of (codes "a\r\n.\r\nb\r\n") ≡ codes "a\r\n" ∷ codes "b\r\n" ∷ [] }
    ensures dot_lines_are_read_leniently_feed { parts_of (codes "a\r\n.\nb\r\n") ≡ codes "a\r\n" ∷ codes "b\r\n" ∷ [] }
    ensures dot_lines_are_read_leniently_blanks { parts_of (codes "a\r\n \t. \t\r\nb\r\n") ≡ codes "a\r\n" ∷ codes "b\r\n" ∷ [] }
    // A line with more than a dot is no dot line.
    ensures more_than_a_dot_parts_nothing_two { parts_of (codes "a\n..\nb\n") ≡ codes "a\n..\nb\n" ∷ [] }
    ensures behind { parts_of (codes "a\n.x\nb\n") ≡ codes "a\n.x\nb\n" ∷ [] }
    ensures before { parts_of (codes "a\nx.\nb.\n") ≡ codes "a\nx.\nb.\n" ∷ [] }
    ensures apart { parts_of (codes "a\n. .\n") ≡ codes "a\n. .\n" ∷ [] }
    ensures more_than_a_dot_parts_nothing_lone_return { parts_of (codes ".\r\r\n") ≡ codes ".\r\r\n" ∷ [] }
    // A part has its bytes as they stood: its blanks and its line ends.
    ensures ends { parts_of (codes " a \n\r\n.\r\n\t b\r\nc") ≡ codes " a \n\r\n" ∷ codes "\t b\r\nc" ∷ [] }
    ensures audits { let audit = codes "AUEP 1206 aaln/1@rgw.example.net MGCP 1.0\r\n"
        in parts_of (codes
        "AUEP 1206 aaln/1@rgw.example.net MGCP 1.0\r\n.\r\nAUEP 1206 aaln/1@rgw.example.net MGCP 1.0\r\n")
        ≡ audit ∷ audit ∷ [] }
    // Texts are joined by lines of a dot and CRLF.
    ensures line { dot_line ≡ codes ".\r\n" }
    ensures all { joined (codes "a\n" ∷ codes "b" ∷ [] ∷ []) ≡ codes "a\n.\r\nb.\r\n" }
    ensures texts_are_joined_by_dot_lines_two { let answer = codes "200 1206 OK\r\n"
        in packed 4000 (answer ∷ answer ∷ []) ≡ codes "200 1206 OK\r\n.\r\n200 1206 OK\r\n" ∷ [] }
    ensures texts_are_joined_by_dot_lines_three { packed 4000 (codes "a\n" ∷ codes "b\n" ∷ codes "c\n" ∷ [])
        ≡ codes "a\n.\r\nb\n.\r\nc\n" ∷ [] }
    ensures one { packed 4000 (codes "a\r\n" ∷ []) ≡ codes "a\r\n" ∷ [] }
    ensures none { packed 4000 [] ≡ [] }
    ensures nothing { joined [] ≡ [] }
    // A datagram may be exactly as long as the limit, and not a byte longer.
    ensures exact { packed 9 (codes "ab\n" ∷ codes "cd\n" ∷ []) ≡ codes "ab\n.\r\ncd\n" ∷ [] }
    ensures one_more { packed 8 (codes "ab\n" ∷ codes "cd\n" ∷ []) ≡ codes "ab\n" ∷ codes "cd\n" ∷ [] }
    ensures single { packed 3 (codes "ab\n" ∷ []) ≡ codes "ab\n" ∷ [] }
    // Where the next text has no room a new datagram begins, and no later text goes into an earlier one.
    ensures second_is_long { packed 8 (codes "a\n" ∷ codes "bcde\n" ∷ codes "f\n" ∷ [])
        ≡ codes "a\n" ∷ codes "bcde\n" ∷ codes "f\n" ∷ [] }
    ensures third_is_long { packed 8 (codes "a\n" ∷ codes "b\n" ∷ codes "cd\n" ∷ codes "e\n" ∷ [])
        ≡ codes "a\n.\r\nb\n" ∷ codes "cd\n.\r\ne\n" ∷ [] }
    // One text more changes the last datagram alone.
    ensures first { with_next 7 [] (codes "a\n") ≡ codes "a\n" ∷ [] }
    ensures room { with_next 7 (codes "a\n" ∷ codes "b\n" ∷ []) (codes "c\n")
        ≡ codes "a\n" ∷ codes "b\n.\r\nc\n" ∷ [] }
    ensures full { with_next 6 (codes "a\n" ∷ codes "b\n" ∷ []) (codes "c\n")
        ≡ codes "a\n" ∷ codes "b\n" ∷ codes "c\n" ∷ [] }
    // A text that can be joined ends in a line end, has no dot line, and is at most as long as the limit.
    ensures some_texts_can_be_joined_crlf { is_joinable 13 (codes "200 1206 OK\r\n") ≡ true }
    ensures some_texts_can_be_joined_feed { is_joinable 2 (codes "a\n") ≡ true }
    ensures empty_lines { is_joinable 4 (codes "\r\n\r\n") ≡ true }
    ensures two_dots { is_joinable 9 (codes "..\n.x\n") ≡ true }
    ensures some_texts_can_be_joined_empty { is_joinable 4000 [] ≡ false }
    ensures some_texts_can_be_joined_unended { is_joinable 4000 (codes "a\nb") ≡ false }
    ensures some_texts_can_be_joined_lone_return { is_joinable 4000 (codes "a\r") ≡ false }
    ensures dot { is_joinable 4000 (codes "a\r\n.\r\n") ≡ false }
    ensures blank_dot { is_joinable 4000 (codes " .\t\na\n") ≡ false }
    ensures long { is_joinable 12 (codes "200 1206 OK\r\n") ≡ false }
{}

/// A datagram is parted into its parts alone: each of its lines is a dot line between two of them or stays in one, with
/// its end.
pub fn a_datagram_is_parted_into_its_parts_alone()
    ensures two { IsPartedInto (codes "a\n.\nb\n") (codes "a\n" ∷ codes "b\n" ∷ []) }
    ensures dot_left { ¬ IsPartedInto (codes "a\n.\nb\n") (codes "a\n.\nb\n" ∷ []) }
    ensures no_dot { ¬ IsPartedInto (codes "a\nb\nc\n") (codes "a\n" ∷ codes "c\n" ∷ []) }
    ensures last_lost { ¬ IsPartedInto (codes "a\n.\nb\n") (codes "a\n" ∷ [] ∷ []) }
    ensures first_lost { ¬ IsPartedInto (codes "a\n.\nb\n") (codes "b\n" ∷ []) }
    ensures ends_lost { ¬ IsPartedInto (codes "a\n.\nb\n") (codes "a" ∷ codes "b" ∷ []) }
    ensures none { ¬ IsPartedInto [] [] }
{}

/// Texts are packed into their datagrams alone: in order, all of them, within the limit, and as many in each as have
/// room.
pub fn texts_are_packed_into_their_datagrams_alone()
    ensures three { IsPackedInto 7 (codes "a\n" ∷ codes "b\n" ∷ codes "c\n" ∷ [])
        (codes "a\n.\r\nb\n" ∷ codes "c\n" ∷ []) }
    ensures too_long { ¬ IsPackedInto 6 (codes "a\n" ∷ codes "b\n" ∷ []) (codes "a\n.\r\nb\n" ∷ []) }
    ensures too_early { ¬ IsPackedInto 7 (codes "a\n" ∷ codes "b\n" ∷ []) (codes "a\n" ∷ codes "b\n" ∷ []) }
    ensures by_the_next_alone { ¬ IsPackedInto 7 (codes "a\n" ∷ codes "b\n" ∷ codes "c\n" ∷ [])
        (codes "a\n" ∷ codes "b\n.\r\nc\n" ∷ []) }
    ensures other_order { ¬ IsPackedInto 7 (codes "a\n" ∷ codes "b\n" ∷ []) (codes "b\n.\r\na\n" ∷ []) }
    ensures lost { ¬ IsPackedInto 7 (codes "a\n" ∷ codes "b\n" ∷ []) (codes "a\n" ∷ []) }
    ensures empty { ¬ IsPackedInto 7 [] ([] ∷ []) }
{}
