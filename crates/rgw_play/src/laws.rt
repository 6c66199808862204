//! What an ending says of the input.
ghost use Rattle.std.specs.Prelude.{◌≡◌, ◌++◌, ℕ, List, Option, Some, Ok, Err, IsOk};
ghost use Rattle.std.specs.List.{flat_map};
ghost use Rattle.rgw_scripts.specs.declared.played.PlayFault.{PlayFault};
ghost use Rattle.rgw_scripts.specs.declared.played.PlayFault.TheVariants as faults;
ghost use Rattle.rgw_scripts.specs.Moves.{printed};
ghost use Rattle.rgw_scripts.specs.Play.{Scene, judged, shown};
ghost use Rattle.rgw_play.specs.declared.words.Task.TheVariants as tasks;
ghost use Rattle.rgw_play.specs.declared.words.WordFault.TheVariants as word_faults;
ghost use Rattle.rgw_play.specs.declared.ending.Ending.{Ending};
ghost use Rattle.rgw_play.specs.declared.ending.Ending.TheVariants as endings;
ghost use Rattle.rgw_play.specs.Ending.{Ends};

/// Where `simulate` ends well, the input is fine and its whole output was written; a fault that is told is the input's.
pub fn simulate_plays_the_input()
    ensures output { (input before after : List ℕ) (scene : Scene) → judged input ≡ Ok scene →
        Ends (Ok tasks.Simulate) endings.Played (Some input) (Some before) (Some after) →
        after ≡ before ++ flat_map printed (shown scene) }
    ensures refused { (input : List ℕ) (before after : Option (List ℕ)) (fault : PlayFault) →
        judged input ≡ Err fault →
        Ends (Ok tasks.Simulate) endings.Played (Some input) before after → ⊥ }
    ensures config { (input : List ℕ) (before after : Option (List ℕ)) (number : ℕ) →
        Ends (Ok tasks.Simulate) (endings.Fault (faults.Config number)) (Some input) before after →
        judged input ≡ Err (faults.Config number) }
    ensures script { (input : List ℕ) (before after : Option (List ℕ)) (line : ℕ) →
        Ends (Ok tasks.Simulate) (endings.Fault (faults.Script line)) (Some input) before after →
        judged input ≡ Err (faults.Script line) }
    ensures write { (input : List ℕ) (before after : Option (List ℕ)) →
        Ends (Ok tasks.Simulate) (endings.Fault faults.Write) (Some input) before after →
        IsOk (judged input) }
    ensures words { (input before after : Option (List ℕ)) →
        Ends (Ok tasks.Simulate) endings.Usage input before after → ⊥ }
{}

/// Where `loopback` ends well, its output is that of `simulate`; so are its faults, but for those of the sockets, which fail
/// only where there is something to play.
pub fn loopback_plays_the_input()
    ensures output { (port : ℕ) (input before after : List ℕ) (scene : Scene) → judged input ≡ Ok scene →
        Ends (Ok (tasks.Loopback port)) endings.Played (Some input) (Some before) (Some after) →
        after ≡ before ++ flat_map printed (shown scene) }
    ensures faults { (port : ℕ) (input before after : Option (List ℕ)) (fault : PlayFault) →
        Ends (Ok (tasks.Loopback port)) (endings.Fault fault) input before after →
        Ends (Ok tasks.Simulate) (endings.Fault fault) input before after }
    ensures wire { (port : ℕ) (input : List ℕ) (before after : Option (List ℕ)) →
        Ends (Ok (tasks.Loopback port)) endings.WireFault (Some input) before after →
        IsOk (judged input) }
    ensures words { (port : ℕ) (input before after : Option (List ℕ)) →
        Ends (Ok (tasks.Loopback port)) endings.Usage input before after → ⊥ }
{}

/// Other words end as such. No socket fails where none is asked for.
pub fn other_words_end_as_such()
    ensures words { (ending : Ending) (input before after : Option (List ℕ)) →
        Ends (Err word_faults.Usage) ending input before after → ending ≡ endings.Usage }
    ensures wire { (input before after : Option (List ℕ)) →
        Ends (Ok tasks.Simulate) endings.WireFault input before after → ⊥ }
    ensures memory { (ending : Ending) (input before after : Option (List ℕ)) →
        Ends (Err word_faults.OutOfMemory) ending input before after →
        ending ≡ endings.Fault faults.OutOfMemory }
{}
