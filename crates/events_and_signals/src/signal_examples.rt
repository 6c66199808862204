//! Worked examples of the definitions, as theorems: each sentence of a definition has one that a slip in it breaks.
#![tactic(auto, unfolding(crate::proofs::SignalComputing::on_examples))]

ghost use Rattle.std.specs.Prelude.{◌≡◌, [], ◌∷◌, map, replicate, Some, None};
ghost use Rattle.packages.specs.declared.hook.Hook.TheVariants.{OnHook, OffHook};
ghost use Rattle.packages.specs.declared.signal.Signal.TheVariants.{DialTone, Busy, Reorder, Ringing, RingSplash};
ghost use Rattle.packages.specs.declared.signal.Signal.TheVariants.{MessageWaiting, Ringback, Congestion, Confirm};
ghost use Rattle.events_and_signals.specs.Active.{table};
ghost use Rattle.events_and_signals.specs.Stopping.{without_time_outs, allowed_in, without};
ghost use Rattle.events_and_signals.specs.Applying.{signals_refusal};
ghost use Rattle.events_and_signals.specs.Due.{due_first};
ghost use Rattle.events_and_signals.specs.SignalExample.{until, endless, starts, stops, lasts, on_hook, off_hook, all_active};

/// Each sentence at an example.
pub fn each_sentence_has_an_example()
    // The signals of L stand before those of G.
    ensures signals_have_an_order { table ≡ DialTone ∷ Busy ∷ Reorder ∷ Ringing ∷ RingSplash ∷ MessageWaiting
        ∷ Ringback ∷ Congestion ∷ Confirm ∷ [] }
    // A signal ends its own time after the moment at which it starts; one whose time is 0 has no end.
    ensures dial_tone { off_hook (starts DialTone ∷ []) 1000 [] ≡ until 17000 DialTone ∷ [] }
    ensures busy { off_hook (starts Busy ∷ []) 1000 [] ≡ until 31000 Busy ∷ [] }
    ensures reorder { off_hook (starts Reorder ∷ []) 1000 [] ≡ until 31000 Reorder ∷ [] }
    ensures ringing { on_hook (starts Ringing ∷ []) 1000 [] ≡ until 181000 Ringing ∷ [] }
    ensures ring_splash { on_hook (starts RingSplash ∷ []) 1000 [] ≡ until 1500 RingSplash ∷ [] }
    ensures message_waiting { on_hook (starts MessageWaiting ∷ []) 1000 [] ≡ endless MessageWaiting ∷ [] }
    ensures ringback { off_hook (starts Ringback ∷ []) 1000 [] ≡ until 181000 Ringback ∷ [] }
    ensures congestion { off_hook (starts Congestion ∷ []) 1000 [] ≡ endless Congestion ∷ [] }
    ensures confirm { off_hook (starts Confirm ∷ []) 1000 [] ≡ until 1500 Confirm ∷ [] }
    // Another time counts in its place, where 0 is without end too.
    ensures shortest { off_hook (lasts 1 DialTone ∷ []) 1000 [] ≡ until 1001 DialTone ∷ [] }
    ensures longest { off_hook (lasts 3600000 DialTone ∷ []) 1000 [] ≡ until 3601000 DialTone ∷ [] }
    ensures zero { off_hook (lasts 0 DialTone ∷ []) 1000 [] ≡ endless DialTone ∷ [] }
    ensures of_one_without { off_hook (lasts 5 Congestion ∷ []) 1000 [] ≡ until 1005 Congestion ∷ [] }
    // A time-out signal that is active and named goes on with its end, whatever time is asked for.
    ensures another_time { on_hook (lasts 5 Ringing ∷ []) 31000 (until 211000 Ringing ∷ []) ≡ until 211000 Ringing ∷ [] }
    ensures its_own_time { on_hook (starts Ringing ∷ []) 31000 (until 181000 Ringing ∷ []) ≡ until 181000 Ringing ∷ [] }
    ensures a_time_out_signal_goes_on_without_end { off_hook (lasts 5 Congestion ∷ []) 2000 (endless Congestion ∷ [])
        ≡ endless Congestion ∷ [] }
    ensures with_an_end { off_hook (lasts 0 DialTone ∷ []) 2000 (until 17000 DialTone ∷ []) ≡ until 17000 DialTone ∷ [] }
    // A time-out signal that is not named stops; a brief or on-off signal goes on.
    ensures time_out { on_hook [] 1000 (until 181000 Ringing ∷ []) ≡ [] }
    ensures what_is_not_named_stops_or_goes_on_without_end { off_hook [] 2000 (endless Congestion ∷ []) ≡ [] }
    ensures another_named { off_hook (starts Busy ∷ []) 2000 (until 17000 DialTone ∷ []) ≡ until 32000 Busy ∷ [] }
    ensures brief { on_hook [] 1300 (until 1500 RingSplash ∷ []) ≡ until 1500 RingSplash ∷ [] }
    ensures brief_of_generic { off_hook (starts DialTone ∷ []) 1300 (until 1500 Confirm ∷ [])
        ≡ until 17300 DialTone ∷ until 1500 Confirm ∷ [] }
    ensures on_off { off_hook (starts DialTone ∷ []) 1000 (endless MessageWaiting ∷ [])
        ≡ until 17000 DialTone ∷ endless MessageWaiting ∷ [] }
    // A brief signal that is named again has a fresh end.
    ensures a_brief_signal_starts_anew_again { on_hook (starts RingSplash ∷ []) 1300 (until 1500 RingSplash ∷ [])
        ≡ until 1800 RingSplash ∷ [] }
    ensures of_generic { off_hook (starts Confirm ∷ []) 1300 (until 1500 Confirm ∷ []) ≡ until 1800 Confirm ∷ [] }
    ensures twice { on_hook (starts RingSplash ∷ starts RingSplash ∷ []) 1000 [] ≡ until 1500 RingSplash ∷ [] }
    // An on-off signal goes on until it is stopped, off hook too.
    ensures an_on_off_signal_is_stopped_by_name_again { off_hook (starts MessageWaiting ∷ []) 2000 (endless MessageWaiting ∷ [])
        ≡ endless MessageWaiting ∷ [] }
    ensures an_on_off_signal_is_stopped_by_name_stopped { off_hook (stops MessageWaiting ∷ []) 2000 (endless MessageWaiting ∷ []) ≡ [] }
    // The entries count from left to right.
    ensures first_time { off_hook (lasts 5 DialTone ∷ lasts 9 DialTone ∷ []) 1000 [] ≡ until 1005 DialTone ∷ [] }
    ensures anew { off_hook (stops DialTone ∷ starts DialTone ∷ []) 2000 (until 17000 DialTone ∷ []) ≡ until 18000 DialTone ∷ [] }
    ensures entries_count_in_their_order_stopped { off_hook (starts DialTone ∷ stops DialTone ∷ []) 2000 (until 17000 DialTone ∷ []) ≡ [] }
    ensures named_and_stopped { off_hook (stops DialTone ∷ []) 2000 (until 17000 DialTone ∷ []) ≡ [] }
    ensures stopped_again { off_hook (stops DialTone ∷ []) 2000 [] ≡ [] }
{}

/// Each sentence at an example.
pub fn further_sentences_have_examples()
    // Of different signals the order doesn't matter: each is by itself.
    ensures of_others { off_hook (starts Confirm ∷ stops Busy ∷ starts DialTone ∷ []) 1000 (until 30000 Busy ∷ [])
        ≡ until 17000 DialTone ∷ until 1500 Confirm ∷ [] }
    // What the hook state forbids starts nothing, but is named.
    ensures a_forbidden_start_changes_nothing_idle { on_hook (starts DialTone ∷ []) 1000 [] ≡ [] }
    ensures a_forbidden_start_changes_nothing_for_a_time { off_hook (lasts 5 Ringing ∷ []) 1000 [] ≡ [] }
    ensures named { on_hook (starts Busy ∷ []) 2000 (until 31000 Busy ∷ []) ≡ until 31000 Busy ∷ [] }
    ensures not_anew { off_hook (starts RingSplash ∷ []) 1300 (until 1500 RingSplash ∷ []) ≡ until 1500 RingSplash ∷ [] }
    ensures a_forbidden_start_changes_nothing_stopped { on_hook (stops Busy ∷ []) 2000 (until 31000 Busy ∷ []) ≡ [] }
    ensures others_start { on_hook (starts DialTone ∷ starts Ringing ∷ []) 1000 [] ≡ until 181000 Ringing ∷ [] }
    // Off hook L/rg and L/rs are refused with 401; on hook all others but L/vmwi are, with 402. To stop is never refused.
    ensures starts_are_refused_by_the_hook_off_hook { map (λ signal. signals_refusal (starts signal ∷ []) OffHook) table
        ≡ None ∷ None ∷ None ∷ Some 401 ∷ Some 401 ∷ None ∷ None ∷ None ∷ None ∷ [] }
    ensures starts_are_refused_by_the_hook_on_hook { map (λ signal. signals_refusal (starts signal ∷ []) OnHook) table
        ≡ Some 402 ∷ Some 402 ∷ Some 402 ∷ None ∷ None ∷ None ∷ Some 402 ∷ Some 402 ∷ Some 402 ∷ [] }
    ensures stops_off_hook { map (λ signal. signals_refusal (stops signal ∷ []) OffHook) table ≡ replicate 9 None }
    ensures stops_on_hook { map (λ signal. signals_refusal (stops signal ∷ []) OnHook) table ≡ replicate 9 None }
    ensures starts_are_refused_by_the_hook_for_a_time { signals_refusal (lasts 5 Ringing ∷ []) OffHook ≡ Some 401 }
    ensures no_time { signals_refusal (lasts 0 DialTone ∷ []) OnHook ≡ Some 402 }
    ensures starts_are_refused_by_the_hook_last { signals_refusal
        (starts MessageWaiting ∷ stops Busy ∷ starts Ringing ∷ starts Busy ∷ []) OnHook ≡ Some 402 }
    ensures first { signals_refusal (starts Ringing ∷ starts DialTone ∷ []) OffHook ≡ Some 401 }
    ensures empty { signals_refusal [] OnHook ≡ None }
    // Time-out signals stop together.
    ensures time_outs_stop_all { without_time_outs all_active ≡ until 1500 RingSplash ∷ endless MessageWaiting ∷ until 1500 Confirm ∷ [] }
    ensures time_outs_stop_none { without_time_outs [] ≡ [] }
    // A change of the hook stops what it forbids.
    ensures the_hook_stops_signals_off_hook { allowed_in OffHook all_active
        ≡ until 17000 DialTone ∷ until 31000 Busy ∷ until 31000 Reorder ∷ endless MessageWaiting
        ∷ until 181000 Ringback ∷ endless Congestion ∷ until 1500 Confirm ∷ [] }
    ensures the_hook_stops_signals_on_hook { allowed_in OnHook all_active
        ≡ until 181000 Ringing ∷ until 1500 RingSplash ∷ endless MessageWaiting ∷ [] }
    // One signal stops, and no other.
    ensures itself { without Ringing (until 181000 Ringing ∷ until 1500 RingSplash ∷ []) ≡ until 1500 RingSplash ∷ [] }
    ensures one_stops_last { without Confirm (endless Congestion ∷ until 1500 Confirm ∷ []) ≡ endless Congestion ∷ [] }
    ensures one_stops_without_end { without MessageWaiting (endless MessageWaiting ∷ []) ≡ [] }
    ensures one_stops_idle { without Busy (until 17000 DialTone ∷ []) ≡ until 17000 DialTone ∷ [] }
    // The earliest end comes first, and of equal ends the first in the order of the table: L before G.
    ensures earliest { due_first (until 17000 DialTone ∷ until 1500 Confirm ∷ []) ≡ Some (1500, Confirm) }
    ensures in_front { due_first (until 17000 DialTone ∷ until 31000 Busy ∷ []) ≡ Some (17000, DialTone) }
    ensures equal { due_first (until 181000 Ringing ∷ until 181000 Ringback ∷ []) ≡ Some (181000, Ringing) }
    ensures the_earliest_end_comes_first_all { due_first all_active ≡ Some (1500, RingSplash) }
    ensures the_earliest_end_comes_first_without_end { due_first (endless MessageWaiting ∷ until 181000 Ringback ∷ endless Congestion ∷ [])
        ≡ Some (181000, Ringback) }
    ensures no_end { due_first (endless MessageWaiting ∷ endless Congestion ∷ []) ≡ None }
    ensures the_earliest_end_comes_first_none { due_first [] ≡ None }
{}
