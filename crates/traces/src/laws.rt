//! What a replay finds: laws of the definitions, whose functions do nothing.
ghost use Rattle.std.specs.Prelude.{◌≡◌, ℕ, List, [], Some, true};
ghost use Rattle.std.specs.List.{flat_map};
ghost use Rattle.plain_machine.specs.declared.setup.Setup.{Setup};
ghost use Rattle.rgw_scripts.specs.Moves.{went};
ghost use Rattle.traces.specs.Telling.{told};
ghost use Rattle.traces.specs.Replaying.{may_end};
ghost use Rattle.traces.specs.Running.{Run, opening_run, run_from};

/// Where all lines of a trace are as told, and it may end there, what went out is just what the plain machine shows at the moves that
/// its other lines say, in their order: nothing else, and nothing less.
pub fn what_replays_is_what_the_plain_machine_shows()
    ensures { (setup : Setup) (lines : List (List ℕ)) (end : Run) → run_from setup opening_run lines ≡ Some end →
        may_end end.at ≡ true → end.told ≡ flat_map told (went setup [] end.moves).shown }
{}
