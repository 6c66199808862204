//! Worked examples of the definitions, as theorems: each sentence of a definition has one that a slip in it breaks.
#![tactic(auto, unfolding(crate::proofs::Computing::on_examples))]

ghost use Rattle.std.specs.Prelude.{◌≡◌, ◌+◌, ◌++◌, codes, true, false, [], Some, None};
ghost use Rattle.log_format.specs.declared.note.Note.TheVariants as notes;
ghost use Rattle.log_format.specs.Lines.{note_line};
ghost use Rattle.impairment.specs.declared.fate.Fate.TheVariants.{Lost, Once, Twice};
ghost use Rattle.output_queues.specs.declared.record.Record.{Record};
ghost use Rattle.output_queues.specs.declared.record.RecordState.TheVariants.{Off, On, OutOfMemory};
ghost use Rattle.message_counts.specs.Example.{host};
ghost use Rattle.told_messages.specs.Recording.{Records};
ghost use Rattle.live_journal.specs.declared.trace.Trace.{Trace};
ghost use Rattle.live_journal.specs.Recording.{trace_head, is_telling, has_ended, HasPlace};
ghost use Rattle.live_journal.specs.Spoiling.{fate_note, Notes};

/// A trace begins with the configuration, whose last line has its end, and with the number with which ids begin.
pub fn a_trace_has_a_head_first()
    ensures whole { trace_head (codes "lines = 2\n") 0 ≡ codes "lines = 2\n%%\n" }
    ensures ended { trace_head (codes "lines = 2") 0 ≡ codes "lines = 2\n%%\n" }
    ensures empty { trace_head [] 0 ≡ codes "%%\n" }
    ensures numbered { trace_head [] 4711 ≡ codes "%%\n| first 4711\n" }
{}

/// What a bad network makes of a datagram is noted, unless that comes at once.
pub fn a_fate_is_noted()
    ensures lost { fate_note Lost ≡ Some notes.Lost }
    ensures at_once { fate_note (Once 0) ≡ None }
    ensures late { fate_note (Once 1) ≡ Some (notes.Late 1) }
    ensures copied { fate_note (Twice 0 200) ≡ Some (notes.Copied 0 200) }
    ensures noted { (was is : Record) → Notes was 5 (host 9) (Some notes.Lost) is
        → Records was (note_line (record { moment = 5; peer = host 9 }) notes.Lost) is }
    ensures nothing { (was is : Record) → Notes was 5 (host 9) None is → is ≡ was }
{}

/// What a trace is told, sentence by sentence.
pub fn what_a_trace_is_told_has_examples()
    // A trace is told more until it is broken off, or ends; its record ends with that, and once.
    ensures telling { (trace : Trace) → trace.record.state ≡ On → trace.is_broken_off ≡ false → is_telling trace ≡ true }
    ensures broken_off { (trace : Trace) → trace.record.state ≡ On → trace.is_broken_off ≡ true → is_telling trace ≡ false }
    ensures over { (trace : Trace) → trace.record.state ≡ Off → is_telling trace ≡ false }
    ensures ends { (trace : Trace) → trace.record.state ≡ On → trace.is_broken_off ≡ true → has_ended trace ≡ true }
    ensures a_trace_that_is_broken_off_ends_once_goes_on { (trace : Trace) → trace.is_broken_off ≡ false → has_ended trace ≡ false }
    ensures once { (trace : Trace) → trace.record.state ≡ Off → trace.is_broken_off ≡ true → has_ended trace ≡ false }
    // What a trace is told takes its bytes of the room, unless memory is refused.
    ensures text { (was is : Trace) → HasPlace was (codes "at 1\n") is → is.record.state ≡ On
        → is.record.out.items ≡ was.record.out.items ++ codes "at 1\n" }
    ensures room { (was is : Trace) → HasPlace was (codes "at 1\n") is → is.record.state ≡ On → is.room + 5 ≡ was.room }
    ensures what_a_trace_is_told_takes_room_goes_on { (was is : Trace) → HasPlace was (codes "at 1\n") is → is.record.state ≡ On →
        is.is_broken_off ≡ was.is_broken_off }
    ensures refused { (was is : Trace) → HasPlace was (codes "at 1\n") is → was.record.state ≡ On → is.record.state ≡ OutOfMemory
        → is.record.out.items ≡ [] }
{}
