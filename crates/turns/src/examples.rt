//! Worked examples of what comes next, as theorems: each sentence of a definition has one that a slip in it breaks.
#![tactic(auto, unfolding(crate::proofs::Computing::on_examples))]

ghost use Rattle.std.specs.Prelude.{◌≡◌, true, false, [], ◌∷◌, ◌++◌, Some, None};
ghost use Rattle.turns.specs.declared.circle.Source.TheVariants as sources;
ghost use Rattle.turns.specs.declared.schedule.Mode.TheVariants.{Reading};
ghost use Rattle.turns.specs.declared.turn.Turn.TheVariants.{End, Look, Wait, Tick, Command, Datagram, Visit, Note};
ghost use Rattle.turns.specs.Circle.{first_ready};
ghost use Rattle.turns.specs.Clock.{earlier, ticks_behind, wait_until};
ghost use Rattle.turns.specs.Schedule.{opening};
ghost use Rattle.turns.specs.Runs.{turns_from, schedule_after, reading};
ghost use Rattle.turns.specs.Example.{ready, nobody, standing, having_read, due_at, ending_at, asleep, wakes_at};

/// Each sentence at an example.
pub fn each_sentence_has_an_example()
    // Behind the one that had the last turn come the others in their circle, and that one at last.
    ensures clock { first_ready true (ready true true true) sources.Visitors ≡ Some sources.Clock }
    ensures commands { first_ready true (ready true true true) sources.Clock ≡ Some sources.Commands }
    ensures datagrams { first_ready true (ready true true true) sources.Commands ≡ Some sources.Datagrams }
    ensures visitors { first_ready true (ready true true true) sources.Datagrams ≡ Some sources.Visitors }
    ensures passed_over { first_ready false (ready false true true) sources.Visitors ≡ Some sources.Datagrams }
    ensures itself { first_ready false (ready false true false) sources.Datagrams ≡ Some sources.Datagrams }
    ensures nobody { first_ready false nobody sources.Clock ≡ None }
    // Where nothing is ready it sleeps until something falls due or the end comes, a second at most and a ms at least.
    ensures a_second { turns_from (opening 0) (standing 0 0 nobody ∷ []) ≡ Wait 1000 ∷ [] }
    ensures due { wait_until (due_at 250 (standing 100 100 nobody)) ≡ 250 }
    ensures far { wait_until (due_at 5000 (standing 100 100 nobody)) ≡ 1100 }
    ensures end { wait_until (ending_at 300 (due_at 400 (standing 100 100 nobody))) ≡ 300 }
    ensures both { wait_until (ending_at 300 (due_at 250 (standing 100 100 nobody))) ≡ 250 }
    ensures past { wait_until (due_at 90 (standing 100 100 nobody)) ≡ 101 }
    ensures round { turns_from asleep (standing 7 0 (ready true true true) ∷ []) ≡ Tick 7 ∷ [] }
    ensures round_again { turns_from asleep
        (standing 7 7 (ready false true false) ∷ standing 7 7 nobody ∷ standing 8 7 (ready true true true) ∷ [])
        ≡ Datagram ∷ Wait 1007 ∷ Tick 8 ∷ [] }
    // Of two moments the earlier one comes first, whichever it is; where there is one alone that does.
    ensures one { earlier (Some 3) (Some 5) ≡ Some 3 }
    ensures other { earlier (Some 5) (Some 3) ≡ Some 3 }
    ensures one_alone { earlier (Some 5) None ≡ Some 5 }
    ensures other_alone { earlier None (Some 3) ≡ Some 3 }
    ensures none { earlier None None ≡ None }
    // Who is ready has a turn after one of each other.
    ensures all { turns_from asleep (standing 7 0 (ready true true true) ∷ standing 8 7 (ready true true true)
        ∷ standing 8 7 (ready true true true) ∷ standing 8 7 (ready true true true) ∷ standing 8 7 (ready true true true) ∷ [])
        ≡ Tick 7 ∷ Command ∷ Datagram ∷ Visit ∷ Tick 8 ∷ [] }
    ensures flood { turns_from asleep (standing 7 7 (ready false true false) ∷ standing 7 7 (ready false true false)
        ∷ standing 7 7 (ready true true false) ∷ standing 7 7 (ready true true false) ∷ [])
        ≡ Datagram ∷ Datagram ∷ Command ∷ Datagram ∷ [] }
    // After 2 ms without a look it is looked before anybody has a turn, and once.
    ensures it_is_looked_for_what_has_come_late { turns_from asleep
        (standing 7 7 (ready false true false) ∷ standing 8 8 (ready false true false)
        ∷ standing 9 9 (ready false true false) ∷ standing 9 9 (ready true true false) ∷ [])
        ≡ Datagram ∷ Datagram ∷ Look ∷ Command ∷ [] }
    ensures it_is_looked_for_what_has_come_slow { turns_from asleep
        (standing 7 7 (ready false true false) ∷ standing 9 9 (ready false true false)
        ∷ standing 12 12 (ready false true false) ∷ standing 15 15 (ready false true false) ∷ [])
        ≡ Datagram ∷ Look ∷ Datagram ∷ Look ∷ [] }
    ensures first { turns_from (opening 0) (standing 1 0 (ready false true false) ∷ standing 2 1 (ready false true false) ∷ [])
        ≡ Tick 1 ∷ Look ∷ [] }
    ensures idle { turns_from (opening 0) (standing 5 5 nobody ∷ []) ≡ Wait 1005 ∷ [] }
    ensures begun { turns_from (opening 5000) (standing 5000 0 (ready true true true) ∷ standing 5001 1000 (ready true true true) ∷ [])
        ≡ Tick 1000 ∷ Command ∷ [] }
{}

/// Each sentence at an example.
pub fn further_sentences_have_examples()
    // Who wakes more than 500 ms too late was stopped: what came meanwhile is read before the clock goes on, and then the clock catches
    // up, by a second at a time, before anything else comes.
    ensures not_late { turns_from asleep (wakes_at 1500) ≡ Tick 1000 ∷ [] }
    ensures a_pause_is_read_first_late { turns_from asleep (wakes_at 1501) ≡ Look ∷ [] }
    ensures a_pause_is_read_first_whole { turns_from asleep (standing 4200 0 nobody
        ∷ standing 4200 0 (ready true true true) ∷ having_read 1 (standing 4200 0 (ready true true true))
        ∷ having_read 2 (standing 4201 0 (ready false true true)) ∷ having_read 3 (standing 4201 0 (ready false true true))
        ∷ having_read 3 (standing 4202 0 (ready false false true)) ∷ having_read 3 (standing 4203 0 (ready false true true))
        ∷ having_read 3 (standing 4203 1000 (ready false true true)) ∷ having_read 3 (standing 4203 2000 (ready false true true))
        ∷ having_read 3 (standing 4203 3000 (ready false true true)) ∷ having_read 3 (standing 4203 4000 (ready false true true))
        ∷ having_read 3 (standing 4203 4203 (ready false true true)) ∷ [])
        ≡ Look ∷ Command ∷ Datagram ∷ Datagram ∷ Datagram ∷ Note (record { lateness = 3200; read = Some 3 })
        ∷ Tick 1000 ∷ Tick 2000 ∷ Tick 3000 ∷ Tick 4000 ∷ Tick 4203 ∷ Look ∷ [] }
    ensures once { turns_from asleep (standing 4200 0 nobody ∷ standing 9200 0 (ready false true false)
        ∷ standing 9200 0 nobody ∷ standing 9200 0 nobody ∷ [])
        ≡ Look ∷ Datagram ∷ Note (record { lateness = 3200; read = Some 0 }) ∷ Tick 1000 ∷ [] }
    ensures again { turns_from asleep (standing 4200 0 nobody ∷ standing 4200 0 nobody ∷ standing 9200 0 (ready false true false)
        ∷ standing 9200 0 (ready false true false) ∷ having_read 1 (standing 9200 0 nobody) ∷ [])
        ≡ Look ∷ Note (record { lateness = 3200; read = Some 0 }) ∷ Look ∷ Datagram ∷ Note (record { lateness = 5000; read = Some 1 }) ∷
        [] }
    ensures a_pause_is_read_first_others { turns_from asleep (standing 4200 0 nobody ∷ standing 4200 0 (ready false true false)
        ∷ standing 4202 0 (ready false true false) ∷ standing 4202 0 (ready true true false) ∷ standing 4202 0 (ready true true false) ∷ [])
        ≡ Look ∷ Datagram ∷ Look ∷ Command ∷ Datagram ∷ [] }
    ensures rounds_behind { turns_from asleep (standing 2000 0 nobody ∷ standing 2000 0 nobody ∷ standing 2000 0 nobody
        ∷ standing 2000 1000 nobody ∷ standing 2000 2000 (ready false true false) ∷ standing 2001 2000 (ready false true true) ∷ [])
        ≡ Look ∷ Note (record { lateness = 1000; read = Some 0 }) ∷ Tick 1000 ∷ Tick 2000 ∷ Datagram ∷ Visit ∷ [] }
    ensures commands_behind { turns_from asleep (standing 2000 0 nobody ∷ standing 2000 0 nobody ∷ standing 2000 0 nobody
        ∷ standing 2000 1000 nobody ∷ standing 2000 2000 (ready true true false) ∷ [])
        ≡ Look ∷ Note (record { lateness = 1000; read = Some 0 }) ∷ Tick 1000 ∷ Tick 2000 ∷ Command ∷ [] }
    // Who is stopped while somebody has a turn was stopped too, by the moment of the turn before, and of a look.
    ensures a_stop_within_a_turn_is_a_pause_slow { turns_from asleep
        (standing 7 7 (ready false true false) ∷ standing 507 7 (ready false true false)
        ∷ standing 507 7 (ready false true false) ∷ []) ≡ Datagram ∷ Look ∷ Tick 507 ∷ [] }
    ensures stopped { turns_from asleep (standing 7 7 (ready false true false) ∷ standing 508 7 (ready false true false)
        ∷ standing 508 7 (ready false true false) ∷ []) ≡ Datagram ∷ Look ∷ Datagram ∷ [] }
    ensures slow_look { turns_from asleep (standing 7 7 (ready false true false) ∷ standing 9 7 (ready false true false)
        ∷ standing 509 7 (ready false true false) ∷ []) ≡ Datagram ∷ Look ∷ Tick 509 ∷ [] }
    ensures stopped_in_a_look { turns_from asleep (standing 7 7 (ready false true false) ∷ standing 9 7 (ready false true false)
        ∷ standing 510 7 (ready false true false) ∷ standing 510 7 (ready false true false) ∷ []) ≡ Datagram ∷ Look ∷ Look ∷ Datagram ∷ [] }
    // Of what came in a pause 4,096 datagrams are read, and no more; the lines of one don't count.
    ensures begins { (schedule_after asleep (wakes_at 1501)).mode ≡ Reading 501 0 }
    ensures before { (schedule_after asleep (having_read 7 (standing 1501 0 nobody) ∷ [])).mode ≡ Reading 501 7 }
    ensures goes_on { (schedule_after (reading asleep 501 0) (wakes_at 1502)).mode ≡ Reading 501 0 }
    ensures look { (schedule_after asleep (wakes_at 1501 ++ wakes_at 1501 ++ wakes_at 1503)).mode ≡ Reading 501 0 }
    ensures last { turns_from (reading asleep 3200 7) (having_read 4102 (standing 4200 0 (ready false true false))
        ∷ having_read 4103 (standing 4200 0 (ready false true false)) ∷ []) ≡ Datagram ∷ Note
        (record { lateness = 3200; read = Some 4096 }) ∷ [] }
    ensures lines { turns_from (reading asleep 3200 7) (having_read 4102 (standing 4200 0 (ready true false false))
        ∷ having_read 4102 (standing 4200 0 (ready true false false)) ∷ []) ≡ Command ∷ Command ∷ [] }
    // Where the clock is behind by more than 150 s, after one pause or several, what came isn't read first.
    ensures not_too_long { turns_from asleep (wakes_at 150000) ≡ Look ∷ [] }
    ensures too_long { turns_from asleep (wakes_at 150001 ++ wakes_at 150001)
        ≡ Note (record { lateness = 149001; read = None }) ∷ Tick 1000 ∷ [] }
    ensures ticked { turns_from asleep (standing 150001 1 nobody ∷ []) ≡ Look ∷ [] }
    ensures two { turns_from asleep (standing 101000 0 nobody ∷ standing 101000 0 nobody ∷ wakes_at 150000)
        ≡ Look ∷ Note (record { lateness = 100000; read = Some 0 }) ∷ Look ∷ [] }
    ensures two_too_long { turns_from asleep (standing 101000 0 nobody ∷ standing 101000 0 nobody ∷ wakes_at 150001 ++ wakes_at 150001)
        ≡ Look ∷ Note (record { lateness = 100000; read = Some 0 }) ∷ Note (record { lateness = 49001; read = None }) ∷ Tick 1000 ∷ [] }
    ensures while_it_reads { turns_from asleep
        (wakes_at 101000 ++ wakes_at 150000 ++ having_read 1 (standing 150001 0 (ready false true false))
        ∷ having_read 1 (standing 150001 0 (ready false true false)) ∷ [])
        ≡ Look ∷ Datagram ∷ Note (record { lateness = 100000; read = Some 1 }) ∷ Tick 1000 ∷ [] }
    // A tick that was refused is due again a ms later; behind a pause so many are tried as the clock is behind.
    ensures now { turns_from asleep (standing 7 0 nobody ∷ standing 7 0 nobody ∷ standing 8 0 nobody ∷ [])
        ≡ Tick 7 ∷ Wait 1007 ∷ Tick 8 ∷ [] }
    ensures pause { turns_from asleep (standing 2600 0 nobody ∷ standing 2600 0 nobody ∷ standing 2600 0 nobody
        ∷ standing 2600 0 nobody ∷ standing 2600 0 nobody ∷ standing 2600 0 (ready false true false) ∷ [])
        ≡ Look ∷ Note (record { lateness = 1600; read = Some 0 }) ∷ Tick 1000 ∷ Tick 1000 ∷ Tick 1000 ∷ Datagram ∷ [] }
    ensures a_refused_tick_waits_for_a_ms_others { turns_from asleep
        (standing 7 0 (ready false true false) ∷ standing 7 0 (ready false true false) ∷ standing 7 0 nobody ∷ [])
        ≡ Tick 7 ∷ Datagram ∷ Wait 1007 ∷ [] }
    ensures not_refused { turns_from asleep (standing 1500 0 nobody ∷ standing 1500 1000 nobody ∷ []) ≡ Tick 1000 ∷ Tick 1500 ∷ [] }
    ensures behind { turns_from asleep (standing 1500 0 nobody ∷ standing 1500 0 nobody ∷ []) ≡ Tick 1000 ∷ Wait 2500 ∷ [] }
    ensures a_refused_tick_waits_for_a_ms_whole { ticks_behind (standing 3000 0 nobody) ≡ 4 }
    ensures part { ticks_behind (standing 2997 0 nobody) ≡ 3 }
    // The end comes before all else, once ticks have come to it.
    ensures reached { turns_from asleep (ending_at 500 (standing 900 500 (ready true true true)) ∷ []) ≡ End ∷ [] }
    ensures not_yet { turns_from asleep (ending_at 500 (standing 900 499 nobody) ∷ []) ≡ Tick 900 ∷ [] }
    ensures paused { turns_from asleep (ending_at 0 (standing 9000 0 (ready true true true)) ∷ []) ≡ End ∷ [] }
{}
