//! The trace of a run that is live replays.
ghost use Rattle.std.specs.Prelude.{◌≡◌, ◌++◌, [], List, ℕ, Some};
ghost use Rattle.gateway_core.specs.Stands.{Stands};
ghost use Rattle.traces.specs.Writing.{Entry, clock_text, opening_script, whole_text};
ghost use Rattle.live_play.specs.Running.{Live, Ran};
ghost use Rattle.live_play.specs.Readable.{AreLater};
ghost use Rattle.live_laws.specs.Replay.{AreWritable, ReadsBack};

/// A gateway to which nothing had come went on live: behind the head that its trace had, and with the moment that is told at the end, the
/// trace is the printed form of what it went on by; and that reads back.
pub fn the_trace_of_a_live_run_replays()
    ensures text { (was is : Live) (entries : List Entry) (head text : List ℕ) → Ran was entries is → was.script ≡ opening_script →
        was.told ≡ Some head → is.told ≡ Some text → text ++ clock_text is.script ≡ head ++ whole_text entries }
    ensures replays { (was is : Live) (entries : List Entry) → Ran was entries is → Stands was.gateway [] →
        AreLater was.gateway.setup [] entries → AreWritable entries → ReadsBack was.gateway.setup entries }
{}
