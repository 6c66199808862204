//! Worked examples of the definitions, as theorems.
#![tactic(auto, unfolding(crate::proofs::RequestComputing::on_examples))]

ghost use Rattle.std.specs.Prelude.{◌≡◌, codes, [], ◌∷◌, true, false};
ghost use Rattle.events_and_signals.specs.Naming.{event_of};
ghost use Rattle.events_and_signals.specs.Requests.{with_embedded};
ghost use Rattle.events_and_signals.specs.Choice.{is_kept, is_requested};
ghost use Rattle.events_and_signals.specs.RequestExample.{requested, asked, at, does, does_keeping, is_named_by, wants_map, embedded_in_first};

use event_syntax::{Action, Observed};
use mg_bytes::Letter;
use packages::{LineEvent, Signal};

/// Each sentence at an example.
pub fn each_sentence_has_an_example()
    // `L/all` names the events of L, one name one event, and a range of D the letters in it.
    ensures entries_name_events_off_hook { is_named_by (codes "L/all") LineEvent.OffHook ≡ true }
    ensures entries_name_events_on_hook { is_named_by (codes "L/all") LineEvent.OnHook ≡ true }
    ensures entries_name_events_flash { is_named_by (codes "L/all") LineEvent.Flash ≡ true }
    ensures line_complete { is_named_by (codes "L/all") LineEvent.LineComplete ≡ true }
    ensures generic_complete { is_named_by (codes "L/all") LineEvent.GenericComplete ≡ false }
    ensures no_letter { is_named_by (codes "L/all") (LineEvent.Letter Letter.Zero) ≡ false }
    ensures entries_name_events_generic { is_named_by (codes "G/all") LineEvent.GenericComplete ≡ true }
    ensures generic_alone { is_named_by (codes "G/all") LineEvent.LineComplete ≡ false }
    ensures one { is_named_by (codes "hd") LineEvent.OffHook ≡ true }
    ensures entries_name_events_other { is_named_by (codes "hd") LineEvent.OnHook ≡ false }
    ensures letter { is_named_by (codes "D/5") (LineEvent.Letter Letter.Five) ≡ true }
    ensures other_letter { is_named_by (codes "D/5") (LineEvent.Letter Letter.Six) ≡ false }
    ensures first_of_range { is_named_by (codes "D/[0-9*#A-DT]") (LineEvent.Letter Letter.Zero) ≡ false }
    ensures entries_name_events_range { is_named_by (codes "D/[0-9*#ABCDT]") (LineEvent.Letter Letter.Zero) ≡ true }
    ensures last_of_range { is_named_by (codes "D/[0-9*#ABCDT]") (LineEvent.Letter Letter.Timer) ≡ true }
    ensures keys { is_named_by (codes "D/all") (LineEvent.Letter Letter.D) ≡ true }
    ensures no_timer { is_named_by (codes "D/all") (LineEvent.Letter Letter.Timer) ≡ false }
    ensures no_hook { is_named_by (codes "D/all") LineEvent.OffHook ≡ false }
    // The end of a signal is `oc` of its package.
    ensures line { event_of (Observed.Ended Signal.DialTone) ≡ LineEvent.LineComplete }
    ensures ends_are_events_generic { event_of (Observed.Ended Signal.Ringback) ≡ LineEvent.GenericComplete }
    ensures happened { event_of (Observed.Happened LineEvent.Flash) ≡ LineEvent.Flash }
    // The first entry that names an event says what is done.
    ensures first { at (codes "L/hd(A),L/hd(N)") LineEvent.OffHook ≡ does Action.Accumulate }
    ensures all { at (codes "L/all(I),L/hd(N)") LineEvent.OffHook ≡ does Action.Ignore }
    ensures later { at (codes "L/hd(A),L/hu(I),D/5") LineEvent.OnHook ≡ does Action.Ignore }
    ensures the_first_entry_counts_range { at (codes "D/[0-9T](D),D/5(N)") (LineEvent.Letter Letter.Five) ≡ does Action.Dial }
    ensures timer { at (codes "D/[0-9T](D)") (LineEvent.Letter Letter.Timer) ≡ does Action.Dial }
    ensures keep { at (codes "D/5(A,K)") (LineEvent.Letter Letter.Five) ≡ does_keeping Action.Accumulate }
    ensures keep_first { at (codes "D/5(A),D/5(A,K)") (LineEvent.Letter Letter.Five) ≡ does Action.Accumulate }
{}

/// Each sentence at an example.
pub fn further_sentences_have_examples()
    // An event that no entry names is notified where it is persistent, and the time-out signals stop; at another nothing is
    // done.
    ensures events_without_an_entry_off_hook { at [] LineEvent.OffHook ≡ does Action.Notify }
    ensures events_without_an_entry_on_hook { at (codes "L/hd(K),L/hf(A)") LineEvent.OnHook ≡ does Action.Notify }
    ensures events_without_an_entry_flash { at (codes "D/all(A)") LineEvent.Flash ≡ does Action.Notify }
    ensures complete { at (codes "L/hd,G/oc") LineEvent.LineComplete ≡ does Action.Ignore }
    ensures events_without_an_entry_generic { at (codes "L/oc") LineEvent.GenericComplete ≡ does Action.Ignore }
    ensures key { at (codes "D/[0-8]") (LineEvent.Letter Letter.Nine) ≡ does Action.Ignore }
    // What can't occur is kept where R or T names it, or where it is persistent.
    ensures by_r { is_kept (asked (codes "D/5(I)") []) (Observed.Happened (LineEvent.Letter Letter.Five)) ≡ true }
    ensures by_t { is_kept (asked [] (codes "D/5")) (Observed.Happened (LineEvent.Letter Letter.Five)) ≡ true }
    ensures persistent { is_kept (asked [] []) (Observed.Happened LineEvent.Flash) ≡ true }
    ensures neither { is_kept (asked (codes "D/4") (codes "D/6")) (Observed.Happened (LineEvent.Letter Letter.Five)) ≡ false }
    ensures end_of_a_signal { is_kept (asked [] (codes "G/oc")) (Observed.Ended Signal.Congestion) ≡ true }
    ensures end_of_another { is_kept (asked [] (codes "G/oc")) (Observed.Ended Signal.DialTone) ≡ false }
    // An embedded request replaces R and leaves T. Its R may be empty.
    ensures replaced { with_embedded (asked (codes "L/hd(E(R(L/hu(N),D/5(A,K))))") (codes "D/7"))
        (embedded_in_first (codes "L/hd(E(R(L/hu(N),D/5(A,K))))")) ≡ asked (codes "L/hu(N),D/5(A,K)") (codes "D/7") }
    ensures empty { with_embedded (asked (codes "L/hd(E(S(L/dl)))") (codes "D/7"))
        (embedded_in_first (codes "L/hd(E(S(L/dl)))")) ≡ asked [] (codes "D/7") }
    // The action D wants a digit map: one that is known, or in an embedded request that which is given there.
    ensures known { wants_map true (codes "D/5(D)") ≡ false }
    ensures none { wants_map false (codes "L/hd,D/5(D)") ≡ true }
    ensures the_action_d_wants_a_digit_map_other { wants_map false (codes "L/hd(A),D/5(N)") ≡ false }
    ensures ignored { wants_map false (codes "D/5(I)") ≡ false }
    ensures embedded { wants_map false (codes "L/hd(E(R(D/5(D))))") ≡ true }
    ensures accumulated { wants_map false (codes "L/hd(A,E(R(D/5(D))))") ≡ true }
    ensures embedded_known { wants_map true (codes "L/hd(E(R(D/5(D))))") ≡ false }
    ensures given { wants_map false (codes "L/hd(E(R(D/5(D)),D(xx)))") ≡ false }
    ensures given_elsewhere { wants_map false (codes "D/5(D),L/hd(E(R(D/5(D)),D(xx)))") ≡ true }
    ensures no_dial { wants_map false (codes "L/hd(E(R(D/5(N))))") ≡ false }
{}
