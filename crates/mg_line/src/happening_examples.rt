//! Worked examples of acts, requests, answers and what falls due, as theorems.
#![tactic(auto, unfolding(crate::proofs::Computing::on_examples))]

ghost use Rattle.std.specs.Prelude.{◌≡◌, ◌∷◌, [], codes, Some, None, true, false};
ghost use Rattle.mg_bytes.specs.declared.letter.Letter.TheVariants as letter;
ghost use Rattle.packages.specs.declared.event.LineEvent.TheVariants as event;
ghost use Rattle.packages.specs.declared.handling.Notifying.TheVariants as notifying;
ghost use Rattle.packages.specs.declared.handling.Quarantined.TheVariants as quarantined;
ghost use Rattle.packages.specs.declared.observed.Observed.TheVariants.{Happened, Ended};
ghost use Rattle.events_and_signals.specs.RequestExample.{asked as in_force};
ghost use Rattle.events_and_signals.specs.SignalExample.{until, endless};
ghost use Rattle.mg_line.specs.Line.{opening_line, still};
ghost use Rattle.mg_line.specs.Detecting.{detected, drained};
ghost use Rattle.mg_line.specs.Acting.{is_possible, observed_at, phoned, is_heeded};
ghost use Rattle.mg_line.specs.Requesting.{map_after, refusal_of, replaced, asked};
ghost use Rattle.mg_line.specs.Answering.{answered};
ghost use Rattle.mg_line.specs.Opening.{ready_line};
ghost use Rattle.mg_line.specs.Falling.{due_of, fired};
ghost use Rattle.mg_line.specs.Scenario.{requests, with_map, without_map, with_signals, with_detected, with_handling};
ghost use Rattle.mg_line.specs.Example.{flashed, put_back, lifted, one_pressed, timer_ended, two_signals, one_signal, in_quarantine, busy, busy_with};

use crate::phone::{Act, Key};
use digit_map::MapChange;
use machine_rules::State;
use packages::{Hook, Signal};
use timers::LineDue;

/// Each sentence at an example.
pub fn each_sentence_has_an_example()
    // On hook the handset can only be lifted; off hook it can do all else.
    ensures lift { is_possible Hook.OnHook Act.OffHook ≡ true }
    ensures put_back_twice { is_possible Hook.OnHook Act.OnHook ≡ false }
    ensures flash_on_hook { is_possible Hook.OnHook Act.Flash ≡ false }
    ensures key_on_hook { is_possible Hook.OnHook (Act.Key Key.Zero) ≡ false }
    ensures lift_twice { is_possible Hook.OffHook Act.OffHook ≡ false }
    ensures put_back { is_possible Hook.OffHook Act.OnHook ≡ true }
    ensures the_hook_state_allows_acts_flash { is_possible Hook.OffHook Act.Flash ≡ true }
    ensures the_hook_state_allows_acts_key { is_possible Hook.OffHook (Act.Key Key.D) ≡ true }
    // Each act is an event; that of a key is its letter.
    ensures acts_are_events_off { observed_at Act.OffHook ≡ Happened event.OffHook }
    ensures acts_are_events_on { observed_at Act.OnHook ≡ Happened event.OnHook }
    ensures acts_are_events_flash { observed_at Act.Flash ≡ Happened event.Flash }
    ensures zero { observed_at (Act.Key Key.Zero) ≡ Happened (event.Letter letter.Zero) }
    ensures one { observed_at (Act.Key Key.One) ≡ Happened (event.Letter letter.One) }
    ensures two { observed_at (Act.Key Key.Two) ≡ Happened (event.Letter letter.Two) }
    ensures three { observed_at (Act.Key Key.Three) ≡ Happened (event.Letter letter.Three) }
    ensures four { observed_at (Act.Key Key.Four) ≡ Happened (event.Letter letter.Four) }
    ensures five { observed_at (Act.Key Key.Five) ≡ Happened (event.Letter letter.Five) }
    ensures six { observed_at (Act.Key Key.Six) ≡ Happened (event.Letter letter.Six) }
    ensures seven { observed_at (Act.Key Key.Seven) ≡ Happened (event.Letter letter.Seven) }
    ensures eight { observed_at (Act.Key Key.Eight) ≡ Happened (event.Letter letter.Eight) }
    ensures nine { observed_at (Act.Key Key.Nine) ≡ Happened (event.Letter letter.Nine) }
    ensures star { observed_at (Act.Key Key.Star) ≡ Happened (event.Letter letter.Star) }
    ensures hash { observed_at (Act.Key Key.Hash) ≡ Happened (event.Letter letter.Hash) }
    ensures a { observed_at (Act.Key Key.A) ≡ Happened (event.Letter letter.A) }
    ensures b { observed_at (Act.Key Key.B) ≡ Happened (event.Letter letter.B) }
    ensures c { observed_at (Act.Key Key.C) ≡ Happened (event.Letter letter.C) }
    ensures d { observed_at (Act.Key Key.D) ≡ Happened (event.Letter letter.D) }
{}

/// Each sentence at an example.
pub fn further_sentences_have_examples()
    // First the hook state changes, and the signals stop that can't be asked for in it; then the event is detected. A flash
    // and a key leave both.
    ensures an_act_changes_the_hook_first_off { phoned (record ready_line
        { signals = until 181000 Signal.Ringing ∷ endless Signal.MessageWaiting ∷ [] }) Act.OffHook 1000
        ≡ detected (record ready_line { hook = Hook.OffHook; signals = one_signal }) lifted 1000 }
    ensures an_act_changes_the_hook_first_on { phoned busy Act.OnHook 1000
        ≡ detected (record busy { hook = Hook.OnHook; signals = one_signal }) put_back 1000 }
    ensures an_act_changes_the_hook_first_flash { phoned busy Act.Flash 1000 ≡ detected busy flashed 1000 }
    ensures an_act_changes_the_hook_first_key { phoned busy (Act.Key Key.One) 1000 ≡ detected busy one_pressed 1000 }
    ensures quarantined { (phoned (record busy { state = State.Lockstep }) Act.OnHook 1000).line.signals ≡ one_signal }
    // An act is heeded whose event does something, where events occur.
    ensures acts_that_matter_are_heeded_off { is_heeded ready_line Act.OffHook ≡ true }
    ensures acts_that_matter_are_heeded_on { is_heeded busy Act.OnHook ≡ true }
    ensures ignored_on { is_heeded (busy_with (codes "L/hu(I)")) Act.OnHook ≡ false }
    ensures acts_that_matter_are_heeded_flash { is_heeded busy Act.Flash ≡ true }
    ensures ignored_flash { is_heeded (busy_with (codes "L/hf(I)")) Act.Flash ≡ false }
    ensures acts_that_matter_are_heeded_key { is_heeded busy (Act.Key Key.One) ≡ true }
    ensures unnamed_key { is_heeded (busy_with (codes "D/2(N)")) (Act.Key Key.One) ≡ false }
    ensures key_by_t { is_heeded (record busy { requests = in_force [] (codes "D/1") }) (Act.Key Key.One) ≡ false }
    ensures quarantined_key { is_heeded (record busy { state = State.Notification }) (Act.Key Key.One) ≡ false }
    ensures quarantined_hook { is_heeded (record busy { state = State.Lockstep }) Act.OnHook ≡ false }
    ensures acts_that_matter_are_heeded_opening { is_heeded opening_line Act.OffHook ≡ false }
    // Without D the digit map stays, an empty D removes it, and another D replaces it.
    ensures keep { map_after MapChange.Keep (Some (codes "1x")) ≡ Some (codes "1x") }
    ensures keep_none { map_after MapChange.Keep None ≡ None }
    ensures remove { map_after MapChange.Remove (Some (codes "1x")) ≡ None }
    ensures replace { map_after (MapChange.Replace (codes "2x")) (Some (codes "1x")) ≡ Some (codes "2x") }
    ensures a_request_changes_the_digit_map_first { map_after (MapChange.Replace (codes "2x")) None ≡ Some (codes "2x") }
    // The action D without a digit map is 519, in an embedded request too; only then comes the first signal that the hook
    // state forbids: 401 off hook, and 402 on hook.
    ensures no_map { refusal_of ready_line (requests (codes "A1") (codes "D/X(D)")) ≡ Some 519 }
    ensures a_line_refuses_requests_map { refusal_of ready_line (with_map (codes "1x") (requests (codes "A1") (codes "D/X(D)"))) ≡ None }
    ensures map_before { refusal_of busy (requests (codes "A1") (codes "D/X(D)")) ≡ None }
    ensures map_removed { refusal_of busy (without_map (requests (codes "A1") (codes "D/X(D)"))) ≡ Some 519 }
    ensures no_dial { refusal_of ready_line (requests (codes "A1") (codes "D/X(N)")) ≡ None }
    ensures embedded { refusal_of ready_line (requests (codes "A1") (codes "L/hd(E(R(D/X(D))))")) ≡ Some 519 }
    ensures embedded_map { refusal_of ready_line (requests (codes "A1") (codes "L/hd(E(R(D/X(D)),D(1x)))")) ≡ None }
    ensures embedded_before { refusal_of busy (requests (codes "A1") (codes "L/hd(E(R(D/X(D))))")) ≡ None }
    ensures ringing { refusal_of busy (with_signals (codes "L/rg") (requests (codes "A1") [])) ≡ Some 401 }
    ensures dial_tone { refusal_of ready_line (with_signals (codes "L/dl") (requests (codes "A1") [])) ≡ Some 402 }
    ensures second { refusal_of busy (with_signals (codes "L/dl,L/rg") (requests (codes "A1") [])) ≡ Some 401 }
    ensures map_first { refusal_of ready_line (with_signals (codes "L/dl") (requests (codes "A1") (codes "D/X(D)")))
        ≡ Some 519 }
    ensures a_line_refuses_requests_nothing { refusal_of ready_line (requests (codes "A1") []) ≡ None }
{}

/// Each sentence at an example.
pub fn more_sentences_have_examples()
    // A request replaces what was asked for, and what was accumulated and dialled is dropped. Quarantined events are kept, or
    // with discard dropped; the count of the lost stays.
    ensures all { replaced busy (with_signals (codes "L/bz") (with_detected (codes "L/hf") (requests (codes "B2") (codes "L/hu(A)")))) 1000
        ≡ record busy {
          identifier = codes "B2";
          requests = in_force (codes "L/hu(A)") (codes "L/hf");
          handling = record { notifying = notifying.Step; quarantined = quarantined.Process };
          dialled = [];
          accumulated = [];
          timer = None;
          signals = until 31000 Signal.Busy ∷ endless Signal.MessageWaiting ∷ [];
        } }
    ensures a_request_replaces_what_was_asked_for_map { replaced busy (with_map (codes "5x") (requests (codes "B2") [])) 1000
        ≡ record (replaced busy (requests (codes "B2") []) 1000) { digit_map = Some (codes "5x") } }
    ensures discard { replaced busy (with_handling (codes "discard") (requests (codes "B2") [])) 1000
        ≡ record (replaced busy (requests (codes "B2") []) 1000) {
          handling = record { notifying = notifying.Step; quarantined = quarantined.Discard };
          quarantined = in_quarantine [];
        } }
    ensures named { (replaced busy (with_signals (codes "L/dl(to=5)") (requests (codes "B2") [])) 2000).signals
        ≡ two_signals }
    // During a notification it is remembered that a request came; else events occur from now on, the quarantined ones first.
    ensures notification { asked (record busy { state = State.Notification; renewed = false })
        (requests (codes "B2") (codes "L/all(A)")) 1000
        ≡ still (record (replaced busy (requests (codes "B2") (codes "L/all(A)")) 1000) { state = State.Notification; renewed = true }) }
    ensures lockstep { asked (record busy { state = State.Lockstep }) (requests (codes "B2") (codes "L/all(A)")) 1000
        ≡ drained (replaced busy (requests (codes "B2") (codes "L/all(A)")) 1000) 1000 }
    ensures normal { asked busy (requests (codes "B2") (codes "L/all(A)")) 1000
        ≡ drained (replaced busy (requests (codes "B2") (codes "L/all(A)")) 1000) 1000 }
    // After the answer events occur in loop, and in step where a request came since the notification began; else the line
    // waits for a request.
    ensures loop_alone { answered (record busy { state = State.Notification; renewed = false }) 1000
        ≡ drained (record busy { renewed = false }) 1000 }
    ensures renewed { answered (record busy {
      handling = record { notifying = notifying.Step; quarantined = quarantined.Process };
      state = State.Notification;
    }) 1000
        ≡ drained (record busy { handling = record { notifying = notifying.Step; quarantined = quarantined.Process } }) 1000 }
    ensures step { answered (record busy {
      handling = record { notifying = notifying.Step; quarantined = quarantined.Process };
      state = State.Notification;
      renewed = false;
    }) 1000
        ≡ still (record busy {
          handling = record { notifying = notifying.Step; quarantined = quarantined.Process };
          state = State.Lockstep;
          renewed = false;
        }) }
    // The earliest end falls due first, and timer T at one moment with a signal; of signals the first of the table.
    ensures the_earliest_end_falls_due_opening { due_of opening_line ≡ None }
    ensures the_earliest_end_falls_due_nothing { due_of ready_line ≡ None }
    ensures endless_one { due_of (record busy { timer = None; signals = one_signal }) ≡ None }
    ensures the_earliest_end_falls_due_timer { due_of busy ≡ Some (12000, LineDue.DigitTimer) }
    ensures timer_alone { due_of (record busy { signals = [] }) ≡ Some (12000, LineDue.DigitTimer) }
    ensures both { due_of (record busy { timer = Some 17000 }) ≡ Some (17000, LineDue.DigitTimer) }
    ensures signal { due_of (record busy { timer = Some 17001 }) ≡ Some (17000, LineDue.SignalEnd Signal.DialTone) }
    ensures signal_alone { due_of (record busy { timer = None }) ≡ Some (17000, LineDue.SignalEnd Signal.DialTone) }
    ensures the_earliest_end_falls_due_first { due_of (record busy
        { timer = None; signals = until 17000 Signal.DialTone ∷ until 17000 Signal.Ringback ∷ [] })
        ≡ Some (17000, LineDue.SignalEnd Signal.DialTone) }
    // Timer T ends, and that is the event D/T. A signal stops, and that is an event of a time-out signal alone.
    ensures what_falls_due_happens_timer { fired busy LineDue.DigitTimer 12000 ≡ detected (record busy { timer = None }) timer_ended 12000 }
    ensures timer_stops { fired (record busy { digit_map = Some (codes "1T2") }) LineDue.DigitTimer 12000 ≡ still (record busy {
      digit_map = Some (codes "1T2");
      dialled = letter.One ∷ letter.Timer ∷ [];
      accumulated = lifted ∷ one_pressed ∷ timer_ended ∷ [];
      timer = None;
      signals = one_signal;
    }) }
    ensures time_out { fired (busy_with (codes "L/oc(A,K)")) (LineDue.SignalEnd Signal.DialTone) 17000
        ≡ still (record (busy_with (codes "L/oc(A,K)")) {
          accumulated = lifted ∷ one_pressed ∷ Ended Signal.DialTone ∷ [];
          signals = one_signal;
        }) }
    ensures brief { fired (record (busy_with (codes "G/oc(N)")) { signals = until 1500 Signal.Confirm ∷ [] })
        (LineDue.SignalEnd Signal.Confirm) 1500
        ≡ still (record (busy_with (codes "G/oc(N)")) { signals = [] }) }
    ensures on_off { fired (record (busy_with (codes "L/oc(N)")) { signals = until 1500 Signal.MessageWaiting ∷ [] })
        (LineDue.SignalEnd Signal.MessageWaiting) 1500 ≡ still (record (busy_with (codes "L/oc(N)")) { signals = [] }) }
{}
