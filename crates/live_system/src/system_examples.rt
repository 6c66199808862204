//! Worked examples of the definitions, as theorems: each sentence of a definition has one that a slip in it breaks.
#![tactic(auto, unfolding(crate::proofs::Computing::on_examples))]

ghost use Rattle.std.specs.Prelude.{◌≡◌, codes, true, false, [], ◌∷◌, ◌++◌, map, Some, None};
ghost use Rattle.std.specs.declared.io.ErrorKind.TheVariants.{WouldBlock, Interrupted, Uncategorized};
ghost use Rattle.log_format.specs.declared.note.Notice.TheVariants.{SetOn, SetBack};
ghost use Rattle.live_system.specs.Days.{jump_from};
ghost use Rattle.live_system.specs.Parting.{number_behind, numbered, is_old, is_full};
ghost use Rattle.live_system.specs.Looking.{no_visit, has_visits, may_have_more};
ghost use Rattle.live_system.specs.Printing.{printed};
ghost use Rattle.live_system.specs.Waiting.{longest_wait};

/// Each sentence at an example.
pub fn each_sentence_has_an_example()
    // Something was told of a site where somebody may have come, or a visitor's socket may be read or written.
    ensures a_site_is_told_of_its_sockets_nothing { has_visits false (no_visit ∷ no_visit ∷ []) ≡ false }
    ensures somebody { has_visits true (no_visit ∷ []) ≡ true }
    ensures readable { has_visits false (no_visit ∷ record { is_readable = true; is_writable = false } ∷ []) ≡ true }
    ensures writable { has_visits false (record { is_readable = false; is_writable = true } ∷ no_visit ∷ []) ≡ true }
    // Only a look that would have waited says that a socket is empty: behind any other fault it is looked at again.
    ensures faults { map may_have_more (WouldBlock ∷ Interrupted ∷ Uncategorized ∷ []) ≡ false ∷ true ∷ true ∷ [] }
    // The files of a capture have numbers behind its name, and nothing behind those.
    ensures seventh { number_behind (codes "calls.pcap") (codes "calls.pcap.7") ≡ Some 7 }
    ensures twelfth { numbered (codes "calls.pcap") 12 ≡ codes "calls.pcap.12" }
    ensures itself { number_behind (codes "calls.pcap") (codes "calls.pcap") ≡ None }
    ensures no_number { number_behind (codes "calls.pcap") (codes "calls.pcap.") ≡ None }
    ensures no_dot { number_behind (codes "calls.pcap") (codes "calls.pcap7") ≡ None }
    ensures files_of_a_capture_have_numbers_more { number_behind (codes "calls.pcap") (codes "calls.pcap.7.gz") ≡ None }
    ensures another { number_behind (codes "calls.pcap") (codes "my-calls.pcap.7") ≡ None }
    // Of so many files the oldest goes when the next begins; one is full where what comes would make it too long.
    ensures oldest { is_old 3 7 10 ≡ true }
    ensures kept { is_old 3 8 10 ≡ false }
    ensures room { is_full 100 60 40 ≡ false }
    ensures the_oldest_file_goes_no_room { is_full 100 60 41 ≡ true }
    ensures alone { is_full 100 0 500 ≡ false }
    // The time of day was set where it parts from the clock by more than a second.
    ensures set_on { jump_from 5000000 6001999 ≡ Some (SetOn 1001) }
    ensures set_back { jump_from 6001999 5000000 ≡ Some (SetBack 1001) }
    ensures not_on { jump_from 5000000 6000000 ≡ None }
    ensures not_back { jump_from 6000000 5000000 ≡ None }
    // A loop waits as long as it has nothing to do, but for 20 ms at most where something waits to be taken.
    ensures nothing_waits { longest_wait false 700 ≡ 700 }
    ensures something_waits { longest_wait true 700 ≡ 20 }
    ensures shorter { longest_wait true 5 ≡ 5 }
    // Text of a network is printed line by line, and all else in it that isn't printable as the log shows it.
    ensures lines { printed (codes "line 1 on\nline 2 off\n") ≡ codes "line 1 on\nline 2 off\n" }
    ensures sequence { printed (27 ∷ codes "]0;x") ≡ 92 ∷ codes "x1b]0;x" }
    ensures line_end { printed (13 ∷ 10 ∷ []) ≡ 92 ∷ codes "x0d\n" }
    ensures backslash { printed (92 ∷ []) ≡ 92 ∷ codes "x5c" }
    ensures high { printed (195 ∷ 169 ∷ []) ≡ (92 ∷ codes "xc3") ++ (92 ∷ codes "xa9") }
{}
