//! Worked examples of traces, as theorems: each sentence of a definition has one that a slip in it breaks.
#![tactic(auto, unfolding(crate::proofs::Computing::on_examples))]

ghost use Rattle.std.specs.Prelude.{◌≡◌, codes, true, false, [], ◌∷◌, None, Some, option_map};
ghost use Rattle.mg_line.specs.declared.phone.Act.TheVariants.{OnHook};
ghost use Rattle.machine_rules.specs.declared.refusal.Refusal.TheVariants.{PhoneState};
ghost use Rattle.plain_machine.specs.Event.{datagram, phone, tick};
ghost use Rattle.plain_machine.specs.Example.{agent, example, to_agent_at, to_other_at};
ghost use Rattle.rgw_scripts.specs.Moves.{give, ask, sends, refuses};
ghost use Rattle.traces.specs.declared.telling.Mark.TheVariants.{Unsent, Lost};
ghost use Rattle.traces.specs.Telling.{told, told_first, told_mark, is_mark};
ghost use Rattle.traces.specs.Replaying.{goes_on, tells, differs, is_broken, may_end, next};
ghost use Rattle.traces.specs.Head.{first_told_in};
ghost use Rattle.traces.specs.Running.{opening_run, run_from};
ghost use Rattle.traces.specs.Writing.{written, whole_text, opening_script, became};
ghost use Rattle.traces.specs.Example.{owing, comes_first, comes_where, quiet_tick, loud_tick, asks_in_vain, comes};

/// Each sentence at an example.
pub fn each_sentence_has_an_example()
    // A datagram that goes out is told by its address, without its moment, and by its lines; so is a refusal by its line.
    ensures datagrams { told (sends (to_agent_at 7 (codes "200 1 OK\r\n") ∷ to_other_at 7 [] ∷ []))
        ≡ codes "| > 127.0.0.1:2727\n| 200 1 OK\n| --\n| > 127.0.0.2:2728\n| --\n" }
    ensures what_is_shown_is_told_none { told (sends []) ≡ [] }
    ensures what_is_shown_is_told_refusal { told (refuses PhoneState) ≡ codes "| ! 5 PhoneState\n" }
    // A trace tells the first number of its ids, and what became of a datagram.
    ensures what_is_noted_is_told_first { told_first 4711 ≡ codes "| first 4711\n" }
    ensures what_is_noted_is_told_unsent { told_mark Unsent 1 ≡ codes "| ! not sent 1\n" }
    ensures what_is_noted_is_told_lost { told_mark Lost 12 ≡ codes "| ! lost on its way 12\n" }
    // A line tells what became of a datagram where it says just that, and by a number; or that the trace is broken off.
    ensures marks_are_known_unsent { is_mark (codes "| ! not sent 1") ≡ true }
    ensures marks_are_known_lost { is_mark (codes "| ! lost on its way 12") ≡ true }
    ensures no_number { is_mark (codes "| ! not sent ") ≡ false }
    ensures marks_are_known_more { is_mark (codes "| ! not sent 1 ") ≡ false }
    ensures marks_are_known_refusal { is_mark (codes "| ! 5 PhoneState") ≡ false }
    ensures marks_are_known_bare { is_mark (codes "! not sent 1") ≡ false }
    ensures marks_are_known_broken_off { is_mark (codes "| ! broken off") ≡ true }
    ensures other_words { is_mark (codes "| ! broken off 1") ≡ false }
    // What came in is given to the gateway, and what that sends is owed.
    ensures what_came_in_is_played_tick { comes_first (codes "at 1\n") ≡ goes_on (give (tick 1) ∷ []) (owing (tick 1 ∷ [])
        (codes "| > 127.0.0.1:2727\n| RSIP 1 *@rgw.example.net MGCP 1.0\n| RM: restart\n| --\n")) }
    ensures refused { comes_first (codes "phone 1 on\n") ≡ goes_on (give (phone 1 OnHook) ∷ []) (owing [] (codes "| ! 5 PhoneState\n")) }
    ensures too_far { comes_first (codes "at 1001\n") ≡ goes_on (give (tick 1001) ∷ []) (owing [] (codes "| ! 2 TickTooFar\n")) }
    ensures what_came_in_is_played_line { comes_first (codes "show 1\n")
        ≡ goes_on (ask 1 ∷ []) (owing [] (codes "| line 1 on signals - connections - lost 0\n")) }
    ensures what_came_in_is_played_bytes { comes_first (codes "raw 127.0.0.1:2727 0d0a\n")
        ≡ goes_on (give (datagram agent (13 ∷ 10 ∷ [])) ∷ []) (owing (datagram agent (13 ∷ 10 ∷ []) ∷ []) []) }
    // A datagram without a byte is two lines.
    ensures from { comes_first (codes "from 127.0.0.1:2727\n")
        ≡ goes_on [] (record { taken = []; opened = Some agent; owed = [] }) }
    ensures a_datagram_may_have_no_byte_end { next example (record { taken = []; opened = Some agent; owed = [] }) (codes "--\n")
        ≡ goes_on (give (datagram agent []) ∷ []) (owing (datagram agent [] ∷ []) []) }
    ensures a_datagram_may_have_no_byte_other { next example (record { taken = []; opened = Some agent; owed = [] }) (codes "AUEP\n")
        ≡ is_broken }
    ensures open { may_end (record { taken = []; opened = Some agent; owed = [] }) ≡ false }
    // A line that went out is the next that is owed. A mark stands where none is.
    ensures what_went_out_is_compared_first { comes_where (codes "| a\n| b\n") (codes "| a\n") ≡ tells (owing [] (codes "| b\n")) }
    ensures what_went_out_is_compared_other { comes_where (codes "| a\n| b\n") (codes "| b\n") ≡ differs }
    ensures front { comes_where (codes "| ab\n") (codes "| a\n") ≡ differs }
    ensures what_went_out_is_compared_more { comes_where [] (codes "| a\n") ≡ differs }
    ensures less { comes_where (codes "| a\n") (codes "show 1\n") ≡ differs }
    ensures what_went_out_is_compared_mark { comes_where [] (codes "| ! not sent 1\n") ≡ goes_on [] (owing [] []) }
    ensures what_went_out_is_compared_broken_off { comes_where [] (codes "| ! broken off\n") ≡ goes_on [] (owing [] []) }
    ensures early { comes_where (codes "| a\n") (codes "| ! not sent 1\n") ≡ differs }
    ensures done { may_end (owing [] []) ≡ true }
    ensures owed { may_end (owing [] (codes "| a\n")) ≡ false }
{}

/// Each sentence at an example.
pub fn further_sentences_have_examples()
    // A line without an end, an empty one, and what no trace has are where it breaks off.
    ensures other_lines_are_broken_half { comes_first (codes "show 1") ≡ is_broken }
    ensures half_told { comes_where (codes "| ab\n") (codes "| a") ≡ is_broken }
    ensures empty { comes_first (codes "\n") ≡ is_broken }
    ensures nothing { comes_first [] ≡ is_broken }
    ensures word { comes_first (codes "hello\n") ≡ is_broken }
    ensures other_lines_are_broken_tick { comes_first (codes "tick 1\n") ≡ is_broken }
    ensures wait { comes_first (codes "wait 1\n") ≡ is_broken }
    // The head tells the first number of ids in a line that has its end, and nothing else.
    ensures the_head_tells_the_first_number_told { first_told_in (codes "| first 4711\n") ≡ Some 4711 }
    ensures past { first_told_in (codes "| first 9999999\n") ≡ None }
    ensures the_head_tells_the_first_number_half { first_told_in (codes "| first 4711") ≡ None }
    ensures the_head_tells_the_first_number_more { first_told_in (codes "| first 4711 \n") ≡ None }
    ensures the_head_tells_the_first_number_other { first_told_in (codes "| last 4711\n") ≡ None }
    ensures the_head_tells_the_first_number_bare { first_told_in (codes "first 4711\n") ≡ None }
    // Lines are replayed in turn. What went out is put together, and so are the moves that the others say; a line that differs, or can't
    // stand there, ends that.
    ensures lines_are_replayed_in_turn_none { run_from example opening_run [] ≡ Some opening_run }
    ensures lines_are_replayed_in_turn_told { option_map (λ run. run.told)
        (run_from example opening_run (codes "phone 1 on\n" ∷ codes "| ! 5 PhoneState\n"
        ∷ codes "show 17\n" ∷ codes "| ! 4 NoSuchLine\n" ∷ [])) ≡ Some (codes "| ! 5 PhoneState\n| ! 4 NoSuchLine\n") }
    ensures moves { option_map (λ run. run.moves) (run_from example opening_run (codes "phone 1 on\n" ∷ codes "| ! 5 PhoneState\n"
        ∷ codes "show 17\n" ∷ codes "| ! 4 NoSuchLine\n" ∷ [])) ≡ Some (give (phone 1 OnHook) ∷ ask 17 ∷ []) }
    ensures differs { run_from example opening_run (codes "| ! 5 PhoneState\n" ∷ []) ≡ None }
    ensures broken { run_from example opening_run (codes "hello\n" ∷ []) ≡ None }
    // What came in is written as a script has it, and behind it what it showed.
    ensures what_came_in_is_written_bytes { written opening_script (comes (13 ∷ 10 ∷ 171 ∷ []) ∷ []) ≡ codes "raw 127.0.0.1:2727 0d0aab\n" }
    ensures what_came_in_is_written_none { written opening_script (comes [] ∷ []) ≡ codes "from 127.0.0.1:2727\n--\n" }
    ensures what_came_in_is_written_line { written opening_script (asks_in_vain ∷ []) ≡ codes "show 9\n| ! 4 NoSuchLine\n" }
    ensures what_came_in_is_written_mark { written opening_script (became Unsent 1 ∷ []) ≡ codes "| ! not sent 1\n" }
    // A tick is told where something is sent at it, before what comes next, before one that would go on by more than a second, and at
    // the end.
    ensures quiet { written opening_script (quiet_tick 500 ∷ quiet_tick 1000 ∷ []) ≡ [] }
    ensures loud { written opening_script (quiet_tick 5 ∷ loud_tick 7 ∷ []) ≡ codes "at 7\n| > 127.0.0.1:2727\n| 200 1 OK\n| --\n" }
    ensures next { written opening_script (quiet_tick 500 ∷ quiet_tick 900 ∷ asks_in_vain ∷ asks_in_vain ∷ [])
        ≡ codes "at 900\nshow 9\n| ! 4 NoSuchLine\nshow 9\n| ! 4 NoSuchLine\n" }
    ensures far { written opening_script (quiet_tick 500 ∷ quiet_tick 1001 ∷ []) ≡ codes "at 500\n" }
    ensures again { written opening_script (quiet_tick 500 ∷ quiet_tick 1001 ∷ quiet_tick 1500 ∷ []) ≡ codes "at 500\n" }
    ensures ticks_are_told_together_end { whole_text (quiet_tick 500 ∷ quiet_tick 700 ∷ []) ≡ codes "at 700\n" }
    ensures at_end_already { whole_text (loud_tick 7 ∷ []) ≡ written opening_script (loud_tick 7 ∷ []) }
{}
