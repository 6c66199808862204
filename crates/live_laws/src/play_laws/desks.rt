//! The trace of a desk replays.
ghost use Rattle.std.specs.Prelude.{[], ℕ, List};
ghost use Rattle.live_io.specs.Sending.{Received};
ghost use Rattle.gateway_core.specs.Stands.{Stands};
ghost use Rattle.traces.specs.Writing.{Entry};
ghost use Rattle.live_gateway.specs.declared.admission.Admission.{Admission};
ghost use Rattle.live_gateway.specs.Desk.{Standing, GoesOnBy};
ghost use Rattle.live_laws.specs.Replay.{ReadsBack};

/// However a desk went on whose gateway nothing had come to, what its trace was told reads back: nothing is asked of what came.
pub fn the_trace_of_a_desk_replays()
    ensures { (admission : Admission) (was is : Standing) (entries : List Entry) (came : List Received) (missing : ℕ)
        → GoesOnBy admission was is entries came missing → Stands was.live.gateway [] → ReadsBack was.live.gateway.setup entries }
{}
