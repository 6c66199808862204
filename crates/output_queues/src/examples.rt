//! Worked examples of the definitions, as theorems: each sentence of a definition has one that a slip in it breaks.
#![tactic(auto, unfolding(crate::proofs::Computing::on_examples))]

ghost use Rattle.std.specs.Prelude.{◌≡◌, codes, true, false, [], ◌∷◌};
ghost use Rattle.std.specs.declared.io.ErrorKind.{ErrorKind};
ghost use Rattle.output_queues.specs.Backlog.{nothing_waits, lines_ended, is_kept, room_left, offered, offered_all, may_note, noted, ended, ended_within, taken, closed, kept_of, lines_of_all};
ghost use Rattle.output_queues.specs.Recording.{state_when, is_told, is_refused, is_open, faults_of, said, given_up, state_given_up, offer_left};
ghost use Rattle.output_queues.specs.Written.{written_line};
ghost use Rattle.output_queues.specs.declared.record.RecordState.TheVariants.{Off, On, OutOfMemory};
ghost use Rattle.output_queues.specs.declared.outlet.OutletState.TheVariants.{Open, BrokenOff, Failed};
ghost use Rattle.output_queues.specs.Example.{waits, full, over, lost};

/// Each sentence at an example.
pub fn each_sentence_has_an_example()
    // A text is kept behind what waits, where there is room for both; else nothing of it is, nor of those behind it.
    ensures first { offered 6 nothing_waits (codes "ab\n") ≡ waits (codes "ab\n") }
    ensures second { offered 6 (waits (codes "ab\n")) (codes "cd\n") ≡ waits (codes "ab\ncd\n") }
    ensures texts_are_kept_in_their_order_no_room { offered 5 (waits (codes "ab\n")) (codes "cd\n") ≡ full (codes "ab\n") 1 1 }
    ensures behind { offered 6 (full (codes "ab\n") 1 1) (codes "c\n") ≡ full (codes "ab\n") 2 2 }
    ensures many { offered_all 6 nothing_waits (codes "ab\n" ∷ codes "cdef\ng\n" ∷ codes "c\n" ∷ []) ≡ full (codes "ab\n") 3 3 }
    ensures end { is_kept 6 (over []) (codes "c\n") ≡ false }
    ensures behind_end { offered 6 (over []) (codes "c\n") ≡ record (over []) { is_full = true; unnoted = 1; dropped = 1 } }
    // There is room for what waits to be as much as may, and for nothing where a text found none, or all is over.
    ensures room_is_what_isnt_taken_all { room_left 6 nothing_waits ≡ 6 }
    ensures room_is_what_isnt_taken_half { room_left 6 (waits (codes "ab\n")) ≡ 3 }
    ensures none { room_left 2 (waits (codes "ab\n")) ≡ 0 }
    ensures full { room_left 6 (full (codes "ab\n") 1 1) ≡ 0 }
    ensures over { room_left 6 (over []) ≡ 0 }
{}

/// Lines are counted, noted and given up, at examples.
pub fn each_way_to_lose_a_line_has_an_example()
    // A line ends by LF.
    ensures two { lines_ended (codes "ab\n\n") ≡ 2 }
    ensures lines_are_counted_by_their_ends_open { lines_ended (codes "ab") ≡ 0 }
    ensures lines_are_counted_by_their_ends_nothing { lines_ended [] ≡ 0 }
    // That lines weren't kept is noted once half of the room is free; then texts are kept again.
    ensures what_is_dropped_is_noted_half { may_note 6 (full (codes "ab\n") 3 7) ≡ true }
    ensures what_is_dropped_is_noted_more { may_note 6 (full (codes "abc\n") 3 7) ≡ false }
    ensures no_need { may_note 6 (waits []) ≡ false }
    ensures note { noted (full (codes "ab\n") 3 7) (codes "3!\n")
        ≡ record { waiting = codes "ab\n3!\n"; is_full = false; is_over = false; unnoted = 0; dropped = 7 } }
    // What was taken waits no longer. Behind a last line nothing is kept; what is given up is gone.
    ensures what_was_taken_is_gone_some { taken (full (codes "ab\ncd\n") 1 1) 4 ≡ full (codes "d\n") 1 1 }
    ensures what_was_taken_is_gone_all { taken (waits (codes "ab\n")) 3 ≡ waits [] }
    ensures last { ended (waits (codes "ab\n")) (codes "end\n") ≡ over (codes "ab\nend\n") }
    ensures room_for_last { ended_within 4 3 (waits (codes "ab\n")) (codes "end\n") ≡ over (codes "ab\nend\n") }
    ensures last_too_long { ended_within 3 3 (waits (codes "ab\n")) (codes "end\n") ≡ over (codes "ab\n") }
    ensures too_many_wait { ended_within 4 2 (waits (codes "ab\n")) (codes "end\n") ≡ over (codes "ab\n") }
    ensures closed { closed (waits (codes "ab\n")) ≡ over [] }
{}

/// How it stands with a record, and with several texts, at examples.
pub fn each_way_a_record_stands_has_an_example()
    // So many of several texts are kept.
    ensures one { kept_of 6 nothing_waits (codes "ab\n" ∷ codes "cdef\ng\n" ∷ codes "c\n" ∷ []) ≡ 1 }
    ensures the_first_that_finds_no_room_ends_it_all { kept_of 6 nothing_waits (codes "ab\n" ∷ codes "c\n" ∷ []) ≡ 2 }
    ensures lines { lines_of_all (codes "ab\n" ∷ codes "c\nd\n" ∷ []) ≡ 3 }
    // A record is told all where it is on, until memory is refused.
    ensures on { state_when true ≡ On }
    ensures off { state_when false ≡ Off }
    ensures told { is_told On ≡ true }
    ensures not_told { is_told Off ≡ false }
    ensures refused { is_told OutOfMemory ≡ false }
    ensures on_isnt_refused { is_refused On ≡ false }
    ensures off_isnt_refused { is_refused Off ≡ false }
    ensures is_refused { is_refused OutOfMemory ≡ true }
{}

/// Each sentence at an example.
pub fn further_sentences_have_examples()
    // An outlet that is broken off has one fault. Lines that are said are kept whole, or it is as if they hadn't been.
    ensures an_outlet_is_open_or_has_a_fault_open { is_open Open ≡ true }
    ensures an_outlet_is_open_or_has_a_fault_broken_off { is_open BrokenOff ≡ false }
    ensures no_fault { faults_of Open ≡ 0 }
    ensures fault { faults_of BrokenOff ≡ 1 }
    ensures an_outlet_is_open_or_has_a_fault_failed { (kind : ErrorKind) → is_open (Failed kind) ≡ false }
    ensures said { said 6 (waits (codes "ab\n")) (codes "cd\n") ≡ waits (codes "ab\ncd\n") }
    ensures an_outlet_is_open_or_has_a_fault_no_room { said 5 (waits (codes "ab\n")) (codes "cd\n") ≡ waits (codes "ab\n") }
    // What waits is given up once it was offered for a second; where nothing waits all stays as it is.
    ensures what_waits_is_offered_for_a_second_all { offer_left 0 ≡ 1000 }
    ensures what_waits_is_offered_for_a_second_some { offer_left 999 ≡ 1 }
    ensures late { offer_left 1500 ≡ 0 }
    ensures given_up { given_up (waits (codes "ab\n")) ≡ over [] }
    ensures what_waits_is_offered_for_a_second_nothing { given_up (waits []) ≡ waits [] }
    ensures what_waits_is_offered_for_a_second_broken_off { state_given_up Open (waits (codes "ab\n")) ≡ BrokenOff }
    ensures what_waits_is_offered_for_a_second_open { state_given_up Open (waits []) ≡ Open }
    ensures what_waits_is_offered_for_a_second_failed { (kind : ErrorKind) → state_given_up (Failed kind) (waits []) ≡ Failed kind }
    ensures failed_and_waits { (kind : ErrorKind) → state_given_up (Failed kind) (waits (codes "ab\n")) ≡ BrokenOff }
{}

/// What became of what was recorded, at examples.
pub fn each_loss_that_is_told_has_an_example()
    // What wasn't recorded is told in a line, with the names of where it failed.
    ensures what_was_not_recorded_is_told_nothing { written_line (lost 0 0 0 0) (codes "calls.pcap")
        ≡ codes "records dropped 0 write faults 0\n" }
    ensures capture { written_line (lost 12 0 0 1) (codes "calls.pcap") ≡ codes "records dropped 12 write faults 1 calls.pcap\n" }
    ensures output { written_line (lost 0 1 0 0) (codes "calls.pcap") ≡ codes "records dropped 0 write faults 1 standard output\n" }
    ensures error { written_line (lost 0 0 1 0) (codes "calls.pcap") ≡ codes "records dropped 0 write faults 1 standard error\n" }
    ensures what_was_not_recorded_is_told_all { written_line (lost 0 1 1 1) (codes "a.pcap")
        ≡ codes "records dropped 0 write faults 3 standard output standard error a.pcap\n" }
{}
