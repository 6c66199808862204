//! How a gateway that runs ends.
ghost use Rattle.std.specs.Prelude.{◌≡◌, codes, IfOk, OnErr};
ghost use Rattle.live_io.specs.Hearing.{AnswersTo};
ghost use Rattle.live_system.specs.Ending.{served_ending};
ghost use Rattle.output_queues.specs.Written.{faults_in};
ghost use Rattle.live_gateway.specs.Ending.{AsksForEnd, is_record_refused, WritesLast, EndsWith, OnlyEnds};

use crate::desk::Desk;
use live_io::Surroundings;
use live_journal::{Journal, Recorder, Trace};
use live_system::CommonEnding;
use output_queues::{Finisher, Written};
use std::alloc::AllocError;
use std::rt::Clock;

// Whether memory was refused for something that is recorded.
fn is_record_refused(trace: &Trace, journal: &Journal) -> bool
    ensures { result ≡ is_record_refused trace.now journal.now }
{
    trace.record.is_refused()
        || journal.log.record.is_refused()
        || journal.capture.record.is_refused()
}

// What was recorded is written to its end, and behind it what was counted: how the program ends that served. Where memory was refused
// for what was counted, nobody is told anything.
fn finish<W: Finisher, R: Clock>(
    rt: &R,
    recorder: &mut W,
    counts: Result<Vec<u8>, AllocError>,
    is_refused: bool,
    time: u64,
) -> CommonEnding
    ensures refused { OnErr counts ((recorder.new ≡ recorder.old) × (result ≡ CommonEnding.OutOfMemory)) }
    ensures counted { IfOk counts (λ counts. (written : Written) × W.ends counts.items recorder.old written recorder.new
        × (result ≡ served_ending is_refused (faults_in written))) }
{
    let Ok(counts) = counts else {
        return CommonEnding::OutOfMemory;
    };
    let written = recorder.end_with(rt, counts.as_slice(), time);
    CommonEnding::of_records(is_refused, written)
}

/// A gateway has ended: its trace is told to which moment it has come; what was recorded is written to its end, and behind it what was
/// counted; then who asked for the end is answered. How the program ends: of a record that couldn't be written it was said at once.
pub fn end_desk<S: Surroundings + Drop, W: Recorder<Trace> + Finisher, R: Clock>(
    rt: &R,
    desk: &mut Desk<S, Trace>,
    recorder: &mut W,
) -> CommonEnding
    ensures ended { (between : W) × WritesLast W.writer.writes desk.old recorder.old desk.new between
        × EndsWith W.ends desk.new between recorder.new result }
    ensures stopped { AsksForEnd desk.old.lines
        → AnswersTo S.around.answers desk.old.lines.sender desk.old.exchange.around (codes "done\n") desk.new.exchange.around }
    ensures other { (AsksForEnd desk.old.lines → ⊥) → desk.new.exchange.around ≡ desk.old.exchange.around }
    ensures rest { OnlyEnds desk.old desk.new }
{
    desk.play.end();
    desk.write(recorder);
    let counts = desk.counts();
    let exchange = &desk.exchange;
    let is_refused = is_record_refused(&desk.play.teller, &exchange.journal);
    let ending = finish(rt, recorder, counts, is_refused, exchange.now.time);
    desk.answer_stop();
    ending
}
