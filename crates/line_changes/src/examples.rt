//! Worked examples of the definitions, as theorems: each sentence of a definition has one that a slip in it breaks.
#![tactic(auto, unfolding(crate::proofs::Computing::on_examples))]

ghost use Rattle.std.specs.Prelude.{◌≡◌, codes, [], ◌∷◌, replicate, true, false, Some, None};
ghost use Rattle.packages.specs.declared.hook.Hook.TheVariants.{OnHook, OffHook};
ghost use Rattle.packages.specs.declared.signal.Signal.TheVariants.{DialTone, Busy, Ringing};
ghost use Rattle.connections.specs.declared.codec.Codec.TheVariants.{Pcmu, Pcma};
ghost use Rattle.connections.specs.declared.codec.Codecs.TheVariants.{Only, Both};
ghost use Rattle.connections.specs.declared.mode.Mode.TheVariants.{ReceiveOnly};
ghost use Rattle.line_changes.specs.declared.change.Change.TheVariants.{Hook, Ends, Begins, Over, Stands};
ghost use Rattle.line_changes.specs.Seen.{leading, remote_of, seen_from};
ghost use Rattle.line_changes.specs.Changes.{changes_of};
ghost use Rattle.line_changes.specs.Telling.{change_line, with_changes, watching_line};
ghost use Rattle.line_changes.specs.Watching.{most_watchers, longest_watch, longest_silence, nobody, place_for, with_watcher, is_watched, told_at};
ghost use Rattle.line_changes.specs.Example.{at_port, host, until, endless, talking, held, resting, lifted, hearing, connected, watcher, asking, full};
ghost use Rattle.line_changes.specs.Example.{silent, joined};

/// Each sentence at an example.
pub fn each_sentence_has_an_example()
    // The hook has two changes, and where nothing changed nothing is told.
    ensures a_hook_changes_both_ways_off { changes_of resting lifted ≡ Hook OffHook ∷ [] }
    ensures a_hook_changes_both_ways_on { changes_of lifted resting ≡ Hook OnHook ∷ [] }
    ensures on_hook { changes_of resting resting ≡ [] }
    ensures off_hook { changes_of lifted lifted ≡ [] }
    ensures all { changes_of (hearing (until 5000 Busy ∷ [])) (hearing (until 5000 Busy ∷ [])) ≡ [] }
    // A signal begins, ends, or begins anew with another end; one that goes on isn't told of, wherever it stands.
    ensures signals_begin_and_end_begins { changes_of lifted (hearing (until 17000 DialTone ∷ [])) ≡ Begins (until 17000 DialTone) ∷ [] }
    ensures signals_begin_and_end_ends { changes_of (hearing (until 17000 DialTone ∷ [])) lifted ≡ Ends DialTone ∷ [] }
    ensures anew { changes_of (hearing (until 17000 DialTone ∷ [])) (hearing (until 18000 DialTone ∷ []))
        ≡ Begins (until 18000 DialTone) ∷ [] }
    ensures signals_begin_and_end_endless { changes_of (hearing (until 17000 DialTone ∷ [])) (hearing (endless DialTone ∷ []))
        ≡ Begins (endless DialTone) ∷ [] }
    ensures with_end { changes_of (hearing (endless DialTone ∷ [])) (hearing (until 17000 DialTone ∷ []))
        ≡ Begins (until 17000 DialTone) ∷ [] }
    ensures goes_on { changes_of (hearing (until 9 DialTone ∷ endless Busy ∷ [])) (hearing (endless Busy ∷ until 9 DialTone ∷ [])) ≡ [] }
    ensures signals_begin_and_end_other { changes_of (hearing (until 9 DialTone ∷ [])) (hearing (until 9 Busy ∷ []))
        ≡ Ends DialTone ∷ Begins (until 9 Busy) ∷ [] }
    // A connection is told where it is new or another in any part, and where it is over; one at another place isn't told of.
    ensures comes { changes_of lifted (connected (talking ∷ [])) ≡ Stands talking ∷ [] }
    ensures goes { changes_of (connected (talking ∷ [])) lifted ≡ Over 10 ∷ [] }
    ensures stays { changes_of (connected (talking ∷ [])) (connected (talking ∷ [])) ≡ [] }
    ensures moves { changes_of (connected (talking ∷ record talking { number = 11 } ∷ []))
        (connected (record talking { number = 11 } ∷ talking ∷ [])) ≡ [] }
    ensures connections_come_and_go_other { changes_of (connected (talking ∷ [])) (connected (record talking { number = 11 } ∷ []))
        ≡ Over 10 ∷ Stands (record talking { number = 11 }) ∷ [] }
    ensures mode { changes_of (connected (talking ∷ [])) (connected (record talking { mode = ReceiveOnly } ∷ []))
        ≡ Stands (record talking { mode = ReceiveOnly }) ∷ [] }
    ensures local { changes_of (connected (talking ∷ [])) (connected (record talking { local = at_port 1 3006 } ∷ []))
        ≡ Stands (record talking { local = at_port 1 3006 }) ∷ [] }
    ensures remote_port { changes_of (connected (talking ∷ [])) (connected (record talking { remote = Some (at_port 2 3004) } ∷ []))
        ≡ Stands (record talking { remote = Some (at_port 2 3004) }) ∷ [] }
    ensures remote_host { changes_of (connected (talking ∷ [])) (connected (record talking { remote = Some (at_port 3 3002) } ∷ []))
        ≡ Stands (record talking { remote = Some (at_port 3 3002) }) ∷ [] }
    ensures remote_known { changes_of (connected (record talking { remote = None } ∷ [])) (connected (talking ∷ [])) ≡ Stands talking ∷ [] }
    ensures remote_lost { changes_of (connected (talking ∷ [])) (connected (record talking { remote = None } ∷ []))
        ≡ Stands (record talking { remote = None }) ∷ [] }
    ensures connections_come_and_go_unknown { changes_of (connected (record talking { remote = None } ∷ []))
        (connected (record talking { remote = None } ∷ [])) ≡ [] }
    ensures codec { changes_of (connected (talking ∷ [])) (connected (record talking { codec = Pcma } ∷ []))
        ≡ Stands (record talking { codec = Pcma }) ∷ [] }
    ensures packet_time { changes_of (connected (talking ∷ [])) (connected (record talking { packet_time = 30 } ∷ []))
        ≡ Stands (record talking { packet_time = 30 }) ∷ [] }
    // The hook is told first, then what ends and begins, then of connections what is over and what stands.
    ensures changes_have_an_order { changes_of (record (hearing (endless Busy ∷ [])) { connections = talking ∷ [] })
        (record resting { signals = until 9 Ringing ∷ []; connections = record talking { number = 11 } ∷ [] })
        ≡ Hook OnHook ∷ Ends Busy ∷ Begins (until 9 Ringing) ∷ Over 10 ∷ Stands (record talking { number = 11 }) ∷ [] }
    // A place has its own port, whether the places before it hold something or not.
    ensures places_have_their_ports_none { seen_from (host 1) 3000 (None ∷ None ∷ []) ≡ [] }
    ensures one { seen_from (host 1) 3000 (Some held ∷ None ∷ []) ≡ talking ∷ [] }
    ensures second { seen_from (host 1) 2998 (None ∷ Some held ∷ []) ≡ talking ∷ [] }
    ensures third { seen_from (host 1) 2996 (Some held ∷ None ∷ Some held ∷ []) ≡ record talking { local = at_port 1 2996 } ∷ talking ∷ [] }
    ensures places_have_their_ports_first { leading (Both Pcma) ≡ Pcma }
    ensures only { leading (Only Pcmu) ≡ Pcmu }
    ensures places_have_their_ports_unknown { remote_of None ≡ None }
{}

/// Each sentence at an example.
pub fn further_sentences_have_examples()
    // Each change has a printed form.
    ensures changes_are_told_as_lines_off { change_line 17 5020 1 (Hook OffHook) ≡ codes "change 17 at 5020 line 1 off\n" }
    ensures changes_are_told_as_lines_on { change_line 18 5020 96 (Hook OnHook) ≡ codes "change 18 at 5020 line 96 on\n" }
    ensures changes_are_told_as_lines_begins { change_line 1 0 1 (Begins (until 21020 DialTone))
        ≡ codes "change 1 at 0 line 1 begins L/dl until 21020\n" }
    ensures changes_are_told_as_lines_endless { change_line 1 0 1 (Begins (endless Ringing))
        ≡ codes "change 1 at 0 line 1 begins L/rg until -\n" }
    ensures changes_are_told_as_lines_ends { change_line 1 0 1 (Ends Busy) ≡ codes "change 1 at 0 line 1 ends L/bz\n" }
    ensures stands { change_line 1 0 1 (Stands talking)
        ≡ codes "change 1 at 0 line 1 connection A sendrecv 127.0.0.1:3000 to 127.0.0.2:3002 PCMU 20\n" }
    ensures changes_are_told_as_lines_unknown { change_line 1 0 1
        (Stands (record talking { mode = ReceiveOnly; remote = None; codec = Pcma; packet_time = 10 }))
        ≡ codes "change 1 at 0 line 1 connection A recvonly 127.0.0.1:3000 to - PCMA 10\n" }
    ensures changes_are_told_as_lines_over { change_line 1 0 1 (Over 10) ≡ codes "change 1 at 0 line 1 connection A over\n" }
    ensures watching { watching_line 17 5000 ≡ codes "watching from 17 at 5000\n" }
    // Each change has the number behind that of the one before it.
    ensures two { with_changes 5 1 (record { number = 9; text = [] }) (Hook OnHook ∷ Ends Busy ∷ [])
        ≡ record { number = 11; text = codes "change 9 at 5 line 1 on\nchange 10 at 5 line 1 ends L/bz\n" } }
    ensures changes_are_numbered_none { with_changes 5 1 (record { number = 9; text = codes "a" }) []
        ≡ record { number = 9; text = codes "a" } }
    ensures behind { (with_changes 5 1 (record { number = 9; text = codes "a\n" }) (Hook OnHook ∷ [])).text
        ≡ codes "a\nchange 9 at 5 line 1 on\n" }
    // Eight watch at a time, for as long as they asked for last; a ninth isn't told, until a place is free.
    ensures most { most_watchers ≡ 8 }
    ensures longest { longest_watch ≡ 60 }
    ensures a_few_watch_at_a_time_first { with_watcher nobody (at_port 1 9) 1000 60 ≡ Some (Some (asking 9 1000 61000) ∷ replicate 7 None) }
    ensures ninth { with_watcher full (at_port 1 9) 4999 60 ≡ None }
    ensures a_few_watch_at_a_time_over { place_for 5000 60 full (at_port 1 9) ≡ Some 0 }
    ensures again { place_for 1000 60 full (at_port 1 3) ≡ Some 2 }
    ensures last { place_for 1000 60 full (at_port 1 8) ≡ Some 7 }
    ensures prolonged { with_watcher (Some (watcher 9 5000) ∷ None ∷ []) (at_port 1 9) 1000 10
        ≡ Some (Some (asking 9 1000 11000) ∷ None ∷ []) }
    ensures ended { with_watcher (Some (watcher 9 5000) ∷ None ∷ []) (at_port 1 9) 1000 0 ≡ Some (Some (asking 9 1000 1000) ∷ None ∷ []) }
    ensures other_host { place_for 1000 60 (Some (watcher 9 5000) ∷ None ∷ []) (at_port 2 9) ≡ Some 1 }
    // Who hasn't asked again for 30 s gives way to a ninth, but to nobody while a place is free, nor to who only ends a watch; who is
    // silent longest, and of several the first.
    ensures silence { longest_silence ≡ 30000 }
    ensures the_silent_give_way_not_yet { place_for 32999 60 silent (at_port 1 9) ≡ None }
    ensures the_silent_give_way_now { place_for 33000 60 silent (at_port 1 9) ≡ Some 2 }
    ensures longest_silent { place_for 34000 60 silent (at_port 1 9) ≡ Some 2 }
    ensures silent_alone { place_for 34000 60 (Some (asking 1 4000 64000) ∷ Some (asking 2 3000 63000) ∷ []) (at_port 1 9) ≡ Some 1 }
    ensures gives_way { with_watcher silent (at_port 1 9) 35000 10 ≡ Some joined }
    ensures own_stays { place_for 35000 60 silent (at_port 1 5) ≡ Some 4 }
    ensures free_first { place_for 35000 60 (Some (asking 1 3000 63000) ∷ None ∷ []) (at_port 1 9) ≡ Some 1 }
    ensures ends_nothing { with_watcher silent (at_port 1 9) 35000 0 ≡ None }
    // Who watches is told up to the moment before its end.
    ensures told { told_at 4999 (Some (watcher 9 5000)) ≡ Some (at_port 1 9) }
    ensures who_watches_is_told_over { told_at 5000 (Some (watcher 9 5000)) ≡ None }
    ensures nobody { told_at 0 None ≡ None }
    ensures watched { is_watched 4999 (None ∷ Some (watcher 9 5000) ∷ []) ≡ true }
    ensures watched_no_more { is_watched 5000 (None ∷ Some (watcher 9 5000) ∷ []) ≡ false }
    ensures unwatched { is_watched 0 nobody ≡ false }
{}
