//! A trace that was written while its gateway ran replays to its end.
ghost use Rattle.std.specs.Prelude.{[], List};
ghost use Rattle.plain_machine.specs.declared.setup.Setup.{Setup};
ghost use Rattle.traces.specs.Writing.{Entry, IsPlay};
ghost use Rattle.live_play.specs.Readable.{AreByTicks, AreLater};
ghost use Rattle.live_laws.specs.Replay.{AreWritable, ReadsBack};

/// The printed form of a play reads back as that play: its replay comes to its end, tells just what went out, and stands where the
/// gateway stood; ticks that were told together send the same.
pub fn a_written_trace_replays()
    ensures { (setup : Setup) (entries : List Entry) → IsPlay setup [] entries → AreByTicks entries → AreLater setup [] entries →
        AreWritable entries → ReadsBack setup entries }
{}
