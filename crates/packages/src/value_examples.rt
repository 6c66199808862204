//! Worked examples of the definitions, as theorems.
#![tactic(auto, unfolding(crate::proofs::ValueComputing::on_examples))]

ghost use Rattle.std.specs.Prelude.{◌≡◌, codes, map, [], ◌∷◌, Ok, Err, true, false};
ghost use Rattle.packages.specs.Signals.{signals_of, signals_text, are_writable_signals};
ghost use Rattle.packages.specs.Handling.{handling_of, handling_text};
ghost use Rattle.packages.specs.Observed.{observed_of, takes_memory, observed_text, are_writable_observed};
ghost use Rattle.packages.specs.Cuts.{entries};
ghost use Rattle.packages.specs.Example.{asks, starts, stops, lasts, with, handles, tells_of, tells_end};

use crate::event::LineEvent;
use crate::handling::{Notifying, Quarantined};
use crate::observed::Observed;
use crate::signal::{SIGNALS, Signal};
use crate::signals::Setting;
use mg_bytes::Letter;

/// Each sentence at an example.
pub fn each_sentence_has_an_example()
    // `+` or no parameter starts any signal; `-` stops one that isn't brief; `to=` gives a time to one that ends by it.
    ensures bare { map (with []) SIGNALS ≡ map starts SIGNALS }
    ensures plus { map (with (codes "(+)")) SIGNALS ≡ map starts SIGNALS }
    ensures minus { map (with (codes "(-)")) SIGNALS ≡ stops Signal.DialTone ∷ stops Signal.Busy
        ∷ stops Signal.Reorder ∷ stops Signal.Ringing ∷ Err 538 ∷ stops Signal.MessageWaiting ∷ stops Signal.Ringback
        ∷ stops Signal.Congestion ∷ Err 538 ∷ [] }
    ensures time { map (with (codes "(to=5)")) SIGNALS ≡ lasts 5 Signal.DialTone ∷ lasts 5 Signal.Busy
        ∷ lasts 5 Signal.Reorder ∷ lasts 5 Signal.Ringing ∷ Err 538 ∷ Err 538 ∷ lasts 5 Signal.Ringback
        ∷ lasts 5 Signal.Congestion ∷ Err 538 ∷ [] }
    ensures signals_take_parameters_by_kind_another { map (with (codes "(x)")) SIGNALS ≡ map (λ signal. Err 538) SIGNALS }
    ensures signals_take_parameters_by_kind_second { map (with (codes "(+,+)")) SIGNALS ≡ map (λ signal. Err 538) SIGNALS }
    // A time is 1 to 18 digits with a value from 0 to 3,600,000, behind `to=` in any case and without blanks.
    ensures times_are_up_to_an_hour_none { signals_of (codes "L/dl(to=0)") ≡ lasts 0 Signal.DialTone }
    ensures times_are_up_to_an_hour_longest { signals_of (codes "L/dl(to=3600000)") ≡ lasts 3600000 Signal.DialTone }
    ensures times_are_up_to_an_hour_too_long { signals_of (codes "L/dl(to=3600001)") ≡ Err 538 }
    ensures upper { signals_of (codes "L/dl(TO=5)") ≡ lasts 5 Signal.DialTone }
    ensures digits_18 { signals_of (codes "L/dl(to=000000000000000005)") ≡ lasts 5 Signal.DialTone }
    ensures digits_19 { signals_of (codes "L/dl(to=0000000000000000005)") ≡ Err 538 }
    ensures no_digit { signals_of (codes "L/dl(to=)") ≡ Err 538 }
    ensures no_number { signals_of (codes "L/dl(to=x)") ≡ Err 538 }
    ensures times_are_up_to_an_hour_blanks { signals_of (codes "L/dl(to = 5)") ≡ Err 538 }
    ensures no_sign { signals_of (codes "L/dl(to=+5)") ≡ Err 538 }
    ensures no_equals { signals_of (codes "L/dl(to5)") ≡ Err 538 }
    ensures two_signs { signals_of (codes "L/dl(++)") ≡ Err 538 }
    // Blanks may stand round commas and parentheses; an empty value is an empty list; there are at most 8 entries.
    ensures entries_are_separated_by_commas_blanks { signals_of (codes " l/DL ( - ) ,\tvmwi,G/cg( to=5 )")
        ≡ Ok (asks Signal.DialTone Setting.Stop
        ∷ asks Signal.MessageWaiting Setting.Start ∷ asks Signal.Congestion (Setting.Lasting 5) ∷ []) }
    ensures entries_are_separated_by_commas_twice { signals_of (codes "L/rs,L/rs") ≡ Ok (asks Signal.RingSplash Setting.Start
        ∷ asks Signal.RingSplash Setting.Start ∷ []) }
    ensures entries_are_separated_by_commas_empty { signals_of [] ≡ Ok [] }
    ensures entries_are_separated_by_commas_blank { signals_of (codes " \t ") ≡ Ok [] }
    ensures entries_are_separated_by_commas_eight { signals_of (codes "dl,bz,ro,rg,rs,vmwi,G/rt,G/cg")
        ≡ Ok (map (λ signal. asks signal Setting.Start)
        (Signal.DialTone ∷ Signal.Busy ∷ Signal.Reorder ∷ Signal.Ringing ∷ Signal.RingSplash ∷ Signal.MessageWaiting
        ∷ Signal.Ringback ∷ Signal.Congestion ∷ [])) }
    ensures entries_are_separated_by_commas_nine { signals_of (codes "dl,bz,ro,rg,rs,vmwi,G/rt,G/cg,G/cf") ≡ Err 502 }
{}

/// Each sentence at an example.
pub fn further_sentences_have_examples()
    // The names are those of the tables.
    ensures names_have_codes_package { signals_of (codes "Q/a") ≡ Err 518 }
    ensures event { signals_of (codes "L/hd") ≡ Err 522 }
    ensures complete { signals_of (codes "G/oc") ≡ Err 522 }
    ensures names_have_codes_unknown { signals_of (codes "L/wt") ≡ Err 513 }
    ensures names_have_codes_all { signals_of (codes "L/all") ≡ Err 513 }
    ensures event_of_another { signals_of (codes "G/hd") ≡ Err 513 }
    ensures key { signals_of (codes "D/5") ≡ Err 513 }
    ensures names_have_codes_connection { signals_of (codes "L/dl@1") ≡ Err 513 }
    ensures line { signals_of (codes "dl") ≡ starts Signal.DialTone }
    ensures case { signals_of (codes "l/Dl") ≡ starts Signal.DialTone }
    ensures other_bytes { signals_of (codes "*/x!") ≡ Err 518 }
    // What isn't spelled as a list of names, each with parameters in one pair of parentheses or without, is 510.
    ensures no_parameter { signals_of (codes "L/dl()") ≡ Err 510 }
    ensures blank_parameter { signals_of (codes "L/dl( )") ≡ Err 510 }
    ensures empty_second { signals_of (codes "L/dl(+,)") ≡ Err 510 }
    ensures second_pair { signals_of (codes "L/dl(to=5)(x)") ≡ Err 510 }
    ensures nested { signals_of (codes "L/dl((x))") ≡ Err 510 }
    ensures open { signals_of (codes "L/dl(to=5") ≡ Err 510 }
    ensures closed { signals_of (codes "L/dl)") ≡ Err 510 }
    ensures behind { signals_of (codes "L/dl(+)x") ≡ Err 510 }
    ensures no_name { signals_of (codes "(+)") ≡ Err 510 }
    ensures no_entry { signals_of (codes "L/dl,") ≡ Err 510 }
    ensures first_entry { signals_of (codes ",L/dl") ≡ Err 510 }
    ensures blank_inside { signals_of (codes "L/d l") ≡ Err 510 }
    ensures tab_inside { signals_of (codes "L/\tdl") ≡ Err 510 }
    ensures no_package { signals_of (codes "/dl") ≡ Err 510 }
    ensures no_name_in_package { signals_of (codes "L/") ≡ Err 510 }
    ensures two_slashes { signals_of (codes "L/dl/x") ≡ Err 510 }
    ensures brackets { signals_of (codes "L/[dl]") ≡ Err 510 }
    ensures closing_bracket { signals_of (codes "L/dl]") ≡ Err 510 }
    ensures no_connection { signals_of (codes "L/dl@") ≡ Err 510 }
    ensures two_connections { signals_of (codes "L/dl@1@2") ≡ Err 510 }
    ensures package_with_connection { signals_of (codes "L@1/dl") ≡ Err 510 }
    ensures nothing_before_connection { signals_of (codes "L/@1") ≡ Err 510 }
    ensures bare_connection { signals_of (codes "@1") ≡ Err 510 }
{}

/// Each sentence at an example.
pub fn more_sentences_have_examples()
    // The spelling of the whole value comes first, then the number of entries, then the entries from left to right, each by
    // package, `@`, name and parameters.
    ensures spelling_first { signals_of (codes "Q/a,L/dl()") ≡ Err 510 }
    ensures spelling_before_number { signals_of (codes "dl,dl,dl,dl,dl,dl,dl,dl,dl,") ≡ Err 510 }
    ensures number_before_entries { signals_of (codes "Q/a,dl,dl,dl,dl,dl,dl,dl,dl") ≡ Err 502 }
    ensures left_first { signals_of (codes "L/wt,Q/a") ≡ Err 513 }
    ensures package_before_left { signals_of (codes "L/dl,Q/a,L/wt") ≡ Err 518 }
    ensures package_before_connection { signals_of (codes "Q/a@1(x)") ≡ Err 518 }
    ensures connection_before_name { signals_of (codes "L/hd@1(x)") ≡ Err 513 }
    ensures name_before_parameters { signals_of (codes "L/hd(x)") ≡ Err 522 }
    ensures parameters_of_the_first { signals_of (codes "L/dl(x),Q/a") ≡ Err 538 }
    // Each entry is written with its package, the setting only where it isn't to start, and no blanks.
    ensures signals_are_written_four { signals_text (asks Signal.DialTone Setting.Start ∷ asks Signal.MessageWaiting Setting.Stop
        ∷ asks Signal.Congestion (Setting.Lasting 600000) ∷ asks Signal.Confirm Setting.Start ∷ [])
        ≡ codes "L/dl,L/vmwi(-),G/cg(to=600000),G/cf" }
    ensures zero { signals_text (asks Signal.Busy (Setting.Lasting 0) ∷ []) ≡ codes "L/bz(to=0)" }
    ensures signals_are_written_none { signals_text [] ≡ [] }
    // A list can be written so that it is read again where it has at most 8 entries, each with a setting that its signal
    // takes.
    ensures some_lists_can_be_written_eight { are_writable_signals (map (λ signal. asks signal Setting.Start) (Signal.DialTone ∷ Signal.Busy
        ∷ Signal.Reorder ∷ Signal.Ringing ∷ Signal.RingSplash ∷ Signal.MessageWaiting ∷ Signal.Ringback
        ∷ Signal.Congestion ∷ [])) ≡ true }
    ensures some_lists_can_be_written_nine { are_writable_signals (map (λ signal. asks signal Setting.Start) SIGNALS) ≡ false }
    ensures stopped { are_writable_signals (asks Signal.MessageWaiting Setting.Stop ∷ []) ≡ true }
    ensures some_lists_can_be_written_brief { are_writable_signals (asks Signal.DialTone Setting.Start
        ∷ asks Signal.RingSplash Setting.Stop ∷ []) ≡ false }
    ensures some_lists_can_be_written_longest { are_writable_signals (asks Signal.Busy (Setting.Lasting 3600000) ∷ []) ≡ true }
    ensures some_lists_can_be_written_too_long { are_writable_signals (asks Signal.Busy (Setting.Lasting 3600001) ∷ []) ≡ false }
{}

/// Each sentence at an example.
pub fn other_sentences_have_examples()
    // Q is one word, or one of each kind; what isn't said is `step` and `process`.
    ensures step { handling_of (codes "step") ≡ handles Notifying.Step Quarantined.Process }
    ensures looped { handling_of (codes "Loop") ≡ handles Notifying.Loop Quarantined.Process }
    ensures process { handling_of (codes "PROCESS") ≡ handles Notifying.Step Quarantined.Process }
    ensures discard { handling_of (codes " discard ") ≡ handles Notifying.Step Quarantined.Discard }
    ensures both { handling_of (codes "loop,discard") ≡ handles Notifying.Loop Quarantined.Discard }
    ensures other_order { handling_of (codes "process , loop") ≡ handles Notifying.Loop Quarantined.Process }
    ensures step_and_discard { handling_of (codes "discard,\tSTEP") ≡ handles Notifying.Step Quarantined.Discard }
    ensures handling_is_one_or_two_words_another { handling_of (codes "fast") ≡ Err 508 }
    ensures handling_is_one_or_two_words_empty { handling_of [] ≡ Err 508 }
    ensures two_of_a_kind { handling_of (codes "step,loop") ≡ Err 508 }
    ensures two_of_the_other { handling_of (codes "process,discard") ≡ Err 508 }
    ensures handling_is_one_or_two_words_twice { handling_of (codes "step,step") ≡ Err 508 }
    ensures second_unknown { handling_of (codes "loop,fast") ≡ Err 508 }
    ensures first_unknown { handling_of (codes "fast,process") ≡ Err 508 }
    ensures second_empty { handling_of (codes "loop,") ≡ Err 508 }
    ensures three { handling_of (codes "loop,process,step") ≡ Err 508 }
    ensures no_comma { handling_of (codes "loop process") ≡ Err 508 }
    // Q is written as both words.
    ensures opening { handling_text (record { notifying = Notifying.Step; quarantined = Quarantined.Process })
        ≡ codes "step,process" }
    ensures other { handling_text (record { notifying = Notifying.Loop; quarantined = Quarantined.Discard })
        ≡ codes "loop,discard" }
    // O is a list of events; the end of a signal by its time is told with the signal, and no other event is.
    ensures dialled { observed_of (codes "L/hd,D/8,D/1,D/2,D/3") ≡ Ok (Observed.Happened LineEvent.OffHook
        ∷ Observed.Happened (LineEvent.Letter Letter.Eight) ∷ Observed.Happened (LineEvent.Letter Letter.One)
        ∷ Observed.Happened (LineEvent.Letter Letter.Two) ∷ Observed.Happened (LineEvent.Letter Letter.Three) ∷ []) }
    ensures timer { observed_of (codes "D/T") ≡ tells_of (LineEvent.Letter Letter.Timer) }
    ensures ended { observed_of (codes "L/oc(L/dl)") ≡ tells_end Signal.DialTone }
    ensures ended_of_line { observed_of (codes "OC ( ro )") ≡ tells_end Signal.Reorder }
    ensures ended_of_generic { observed_of (codes "G/oc(G/rt)") ≡ tells_end Signal.Ringback }
    ensures congestion { observed_of (codes "G/oc(G/cg)") ≡ tells_end Signal.Congestion }
    ensures observed_events_are_told_blanks { observed_of (codes " hu ,D/#") ≡ Ok (Observed.Happened LineEvent.OnHook
        ∷ Observed.Happened (LineEvent.Letter Letter.Hash) ∷ []) }
    ensures observed_events_are_told_empty { observed_of [] ≡ Ok [] }
    ensures observed_events_are_told_blank { observed_of (codes " ") ≡ Ok [] }
{}

/// Each sentence at an example.
pub fn still_more_sentences_have_examples()
    // Every fault of O is 510.
    ensures faults_of_observed_events_are_510_package { observed_of (codes "Q/a") ≡ Err 510 }
    ensures faults_of_observed_events_are_510_unknown { observed_of (codes "L/wt") ≡ Err 510 }
    ensures signal { observed_of (codes "L/dl") ≡ Err 510 }
    ensures faults_of_observed_events_are_510_all { observed_of (codes "L/all") ≡ Err 510 }
    ensures digits { observed_of (codes "D/X") ≡ Err 510 }
    ensures range { observed_of (codes "D/[1]") ≡ Err 510 }
    ensures faults_of_observed_events_are_510_connection { observed_of (codes "L/hd@1") ≡ Err 510 }
    ensures no_signal { observed_of (codes "L/oc") ≡ Err 510 }
    ensures no_generic_signal { observed_of (codes "G/oc") ≡ Err 510 }
    ensures empty_signal { observed_of (codes "L/oc()") ≡ Err 510 }
    ensures other_package { observed_of (codes "G/oc(L/dl)") ≡ Err 510 }
    ensures other_package_of_line { observed_of (codes "L/oc(G/rt)") ≡ Err 510 }
    ensures faults_of_observed_events_are_510_brief { observed_of (codes "L/oc(L/rs)") ≡ Err 510 }
    ensures on_off { observed_of (codes "L/oc(L/vmwi)") ≡ Err 510 }
    ensures signal_on_connection { observed_of (codes "L/oc(L/dl@1)") ≡ Err 510 }
    ensures no_such_signal { observed_of (codes "L/oc(L/hd)") ≡ Err 510 }
    ensures parameter { observed_of (codes "L/hd(L/dl)") ≡ Err 510 }
    ensures second_parentheses { observed_of (codes "L/oc(L/dl)(x)") ≡ Err 510 }
    ensures misspelled { observed_of (codes "L/oc(L/dl") ≡ Err 510 }
    ensures faults_of_observed_events_are_510_no_event { observed_of (codes "L/hd,") ≡ Err 510 }
    ensures faults_of_observed_events_are_510_second { observed_of (codes "L/hd,L/wt") ≡ Err 510 }
    // To read O takes memory where its first event can be read, whatever stands behind it, and else none.
    ensures one { takes_memory (entries (codes "L/hd")) ≡ true }
    ensures fault_behind { takes_memory (entries (codes "L/hd,L/wt")) ≡ true }
    ensures observed_events_take_memory_from_the_first_on_empty { takes_memory (entries []) ≡ false }
    ensures observed_events_take_memory_from_the_first_on_blank { takes_memory (entries (codes " ")) ≡ false }
    ensures fault { takes_memory (entries (codes "L/wt")) ≡ false }
    ensures fault_first { takes_memory (entries (codes "L/wt,L/hd")) ≡ false }
    ensures observed_events_take_memory_from_the_first_on_no_event { takes_memory (entries (codes ",L/hd")) ≡ false }
    // O is written with commas alone between the events.
    ensures observed_events_are_written_four { observed_text
        (Observed.Happened LineEvent.OffHook ∷ Observed.Happened (LineEvent.Letter Letter.Five)
        ∷ Observed.Happened (LineEvent.Letter Letter.Timer) ∷ Observed.Ended Signal.DialTone ∷ [])
        ≡ codes "L/hd,D/5,D/T,L/oc(L/dl)" }
    ensures generic { observed_text (Observed.Ended Signal.Ringback ∷ []) ≡ codes "G/oc(G/rt)" }
    ensures observed_events_are_written_none { observed_text [] ≡ [] }
    ensures writable { are_writable_observed (Observed.Happened LineEvent.Flash ∷ Observed.Ended Signal.Busy ∷ []) ≡ true }
    ensures bare_completion { are_writable_observed (Observed.Happened LineEvent.LineComplete ∷ []) ≡ false }
    ensures bare_generic { are_writable_observed (Observed.Happened LineEvent.GenericComplete ∷ []) ≡ false }
    ensures observed_events_are_written_brief { are_writable_observed (Observed.Ended Signal.Busy ∷ Observed.Ended Signal.Confirm ∷ [])
        ≡ false }
{}
