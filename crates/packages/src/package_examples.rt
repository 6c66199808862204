//! Worked examples of the definitions, as theorems.
#![tactic(auto, unfolding(crate::proofs::PackageComputing::on_examples))]

ghost use Rattle.std.specs.Prelude.{◌≡◌, codes, map, [], ◌∷◌, Some, None, Ok, Err, true, false};
ghost use Rattle.mg_bytes.specs.Letter.{all_letters};
ghost use Rattle.packages.specs.Looking.{in_package, event_of, signal_of, event_in, signal_in};
ghost use Rattle.packages.specs.Looking.{kind_of, time_of, package_of, signal_name, refused_in};
ghost use Rattle.packages.specs.Looking.{event_name, is_persistent, completion_of};

use crate::event::LineEvent;
use crate::hook::Hook;
use crate::package::Package;
use crate::signal::{Kind, SIGNALS, Signal};
use mg_bytes::Letter;

/// Each sentence at an example.
pub fn each_sentence_has_an_example()
    // The signals of L are dl, bz, ro, rg, rs and vmwi, those of G are rt, cg and cf.
    ensures written { map signal_name SIGNALS ≡ codes "L/dl" ∷ codes "L/bz" ∷ codes "L/ro" ∷ codes "L/rg"
        ∷ codes "L/rs" ∷ codes "L/vmwi" ∷ codes "G/rt" ∷ codes "G/cg" ∷ codes "G/cf" ∷ [] }
    ensures dial_tone { signal_of (codes "L/dl") ≡ Ok Signal.DialTone }
    ensures busy { signal_of (codes "L/bz") ≡ Ok Signal.Busy }
    ensures reorder { signal_of (codes "L/ro") ≡ Ok Signal.Reorder }
    ensures ringing { signal_of (codes "L/rg") ≡ Ok Signal.Ringing }
    ensures ring_splash { signal_of (codes "L/rs") ≡ Ok Signal.RingSplash }
    ensures message_waiting { signal_of (codes "L/vmwi") ≡ Ok Signal.MessageWaiting }
    ensures ringback { signal_of (codes "G/rt") ≡ Ok Signal.Ringback }
    ensures congestion { signal_of (codes "G/cg") ≡ Ok Signal.Congestion }
    ensures confirm { signal_of (codes "G/cf") ≡ Ok Signal.Confirm }
    // rs and cf are brief, vmwi is on-off, and the others end by their time. cg and vmwi have no end.
    ensures kinds { map kind_of SIGNALS ≡ Kind.TimeOut ∷ Kind.TimeOut ∷ Kind.TimeOut ∷ Kind.TimeOut ∷ Kind.Brief
        ∷ Kind.OnOff ∷ Kind.TimeOut ∷ Kind.TimeOut ∷ Kind.Brief ∷ [] }
    ensures times { map time_of SIGNALS ≡ 16000 ∷ 30000 ∷ 30000 ∷ 180000 ∷ 500 ∷ 0 ∷ 180000 ∷ 0 ∷ 500 ∷ [] }
    ensures packages { map package_of SIGNALS ≡ Package.Line ∷ Package.Line ∷ Package.Line ∷ Package.Line
        ∷ Package.Line ∷ Package.Line ∷ Package.Generic ∷ Package.Generic ∷ Package.Generic ∷ [] }
    // rg and rs are refused off hook, vmwi never, and the others on hook.
    ensures off { map (refused_in Hook.OffHook) SIGNALS ≡ None ∷ None ∷ None ∷ Some 401 ∷ Some 401 ∷ None
        ∷ None ∷ None ∷ None ∷ [] }
    ensures on { map (refused_in Hook.OnHook) SIGNALS ≡ Some 402 ∷ Some 402 ∷ Some 402 ∷ None ∷ None ∷ None
        ∷ Some 402 ∷ Some 402 ∷ Some 402 ∷ [] }
    // The events of L are hd, hu, hf and oc, of which the first three are persistent; G has oc.
    ensures off_hook { event_of (codes "L/hd") ≡ Ok LineEvent.OffHook }
    ensures on_hook { event_of (codes "L/hu") ≡ Ok LineEvent.OnHook }
    ensures flash { event_of (codes "L/hf") ≡ Ok LineEvent.Flash }
    ensures line_complete { event_of (codes "L/oc") ≡ Ok LineEvent.LineComplete }
    ensures generic_complete { event_of (codes "G/oc") ≡ Ok LineEvent.GenericComplete }
    ensures events_have_names_names { map event_name (LineEvent.OffHook ∷ LineEvent.OnHook ∷ LineEvent.Flash ∷ LineEvent.LineComplete
        ∷ LineEvent.GenericComplete ∷ []) ≡ codes "L/hd" ∷ codes "L/hu" ∷ codes "L/hf" ∷ codes "L/oc" ∷ codes "G/oc" ∷ [] }
    ensures persistent { map is_persistent (LineEvent.OffHook ∷ LineEvent.OnHook ∷ LineEvent.Flash ∷ LineEvent.LineComplete
        ∷ LineEvent.GenericComplete ∷ LineEvent.Letter Letter.Five ∷ []) ≡ true ∷ true ∷ true ∷ false ∷ false ∷ false ∷ [] }
    ensures completions { map completion_of (Package.Line ∷ Package.Generic ∷ Package.Dtmf ∷ [])
        ≡ Some LineEvent.LineComplete ∷ Some LineEvent.GenericComplete ∷ None ∷ [] }
    // The events of D are the sixteen keys and T.
    ensures letters_are_events_names { map (λ letter. event_name (LineEvent.Letter letter)) all_letters ≡ codes "D/0" ∷ codes "D/1"
        ∷ codes "D/2" ∷ codes "D/3" ∷ codes "D/4" ∷ codes "D/5" ∷ codes "D/6" ∷ codes "D/7" ∷ codes "D/8" ∷ codes "D/9"
        ∷ codes "D/*" ∷ codes "D/#" ∷ codes "D/A" ∷ codes "D/B" ∷ codes "D/C" ∷ codes "D/D" ∷ codes "D/T" ∷ [] }
    ensures nine { event_of (codes "D/9") ≡ Ok (LineEvent.Letter Letter.Nine) }
    ensures letters_are_events_star { event_of (codes "D/*") ≡ Ok (LineEvent.Letter Letter.Star) }
    ensures hash { event_of (codes "D/#") ≡ Ok (LineEvent.Letter Letter.Hash) }
    ensures lower { event_of (codes "d/t") ≡ Ok (LineEvent.Letter Letter.Timer) }
    ensures d { event_of (codes "D/d") ≡ Ok (LineEvent.Letter Letter.D) }
    ensures e { event_of (codes "D/E") ≡ Err 512 }
    ensures two { event_of (codes "D/12") ≡ Err 512 }
    ensures none { event_of (codes "D/") ≡ Err 512 }
    ensures hook { event_of (codes "D/hd") ≡ Err 512 }
    ensures complete { event_of (codes "D/oc") ≡ Err 512 }
{}

/// Each sentence at an example.
pub fn further_sentences_have_examples()
    // Names are read in any case; without a package L is meant; a name is split at its first `/`.
    ensures upper { signal_of (codes "l/DL") ≡ Ok Signal.DialTone }
    ensures generic { signal_of (codes "g/Rt") ≡ Ok Signal.Ringback }
    ensures line { signal_of (codes "dl") ≡ Ok Signal.DialTone }
    ensures line_event { event_of (codes "OC") ≡ Ok LineEvent.LineComplete }
    // Only L is meant, though G or D has such a name.
    ensures not_generic { signal_of (codes "rt") ≡ Err 513 }
    ensures not_dtmf { event_of (codes "5") ≡ Err 512 }
    ensures first_slash { in_package (codes "D/x/y") ≡ Ok (Package.Dtmf, codes "x/y") }
    ensures no_slash { in_package (codes "x") ≡ Ok (Package.Line, codes "x") }
    ensures other { in_package (codes "Q/a") ≡ Err 518 }
    ensures names_have_a_package_star { in_package (codes "*/all") ≡ Err 518 }
    ensures empty { in_package (codes "/dl") ≡ Err 518 }
    ensures longer { in_package (codes "LL/dl") ≡ Err 518 }
    // An event of L or G is no signal, and a signal no event: 522. Other names are 512 as an event and 513 as a signal.
    ensures signal_as_event { event_of (codes "L/dl") ≡ Err 522 }
    ensures generic_as_event { event_of (codes "G/CF") ≡ Err 522 }
    ensures unknown_event { event_of (codes "L/zz") ≡ Err 512 }
    ensures event_of_another { event_of (codes "G/hd") ≡ Err 512 }
    ensures signal_of_another { event_of (codes "G/dl") ≡ Err 512 }
    ensures event_as_signal { signal_of (codes "L/hd") ≡ Err 522 }
    ensures complete_as_signal { signal_of (codes "G/oc") ≡ Err 522 }
    ensures unknown_signal { signal_of (codes "L/wt") ≡ Err 513 }
    ensures event_of_another_as_signal { signal_of (codes "G/hd") ≡ Err 513 }
    ensures signal_of_another_as_signal { signal_of (codes "L/rt") ≡ Err 513 }
    ensures key_as_signal { signal_of (codes "D/5") ≡ Err 513 }
    ensures signal_of_keys { signal_of (codes "D/dl") ≡ Err 513 }
    ensures unknown_package { signal_of (codes "Q/a") ≡ Err 518 }
    ensures unknown_package_of_event { event_of (codes "Q/hd") ≡ Err 518 }
    // `all` and `X` stand for more than one event, so they are no names; nor is what has `@` or a range in it.
    ensures all { event_in Package.Line (codes "all") ≡ Err 512 }
    ensures all_signals { signal_in Package.Line (codes "all") ≡ Err 513 }
    ensures any_digit { event_in Package.Dtmf (codes "X") ≡ Err 512 }
    ensures range { event_in Package.Dtmf (codes "[1]") ≡ Err 512 }
    ensures connection { event_in Package.Line (codes "hd@1") ≡ Err 512 }
    ensures connection_of_signal { signal_in Package.Line (codes "dl@1") ≡ Err 513 }
{}
