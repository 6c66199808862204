//! Laws of the input, its script and a play.
ghost use Rattle.std.specs.Prelude.{◌≡◌, ◌<◌, ◌≤◌, ◌+◌, ◌++◌, ◌∷◌, [], ℕ, List, length, codes, count_by, false, Option, Some, None, Result, Ok, Err, IsOk};
ghost use Rattle.std.specs.List.{list_any, flat_map};
ghost use Rattle.std.specs.declared.net.socket_addr.SocketAddrV4.{SocketAddrV4};
ghost use Rattle.mg_bytes.specs.Words.{words as words_of};
ghost use Rattle.mg_bytes.specs.Lines.{ended};
ghost use Rattle.plain_machine.specs.declared.config.Config.{Config};
ghost use Rattle.plain_machine.specs.declared.config.ConfigFault.{ConfigFault};
ghost use Rattle.plain_machine.specs.ConfigFault.{config_fault_number};
ghost use Rattle.plain_machine.specs.declared.setup.Setup.{Setup};
ghost use Rattle.plain_machine.specs.Setup.{setup_from, setup_of};
ghost use Rattle.plain_machine.specs.Event.{GatewayEvent};
ghost use Rattle.rgw_scripts.specs.declared.step.ScriptStep.{ScriptStep};
ghost use Rattle.rgw_scripts.specs.declared.step.ScriptStep.TheVariants as steps;
ghost use Rattle.rgw_scripts.specs.declared.step.ScriptLine.TheVariants as lines;
ghost use Rattle.rgw_scripts.specs.declared.played.PlayFault.{PlayFault};
ghost use Rattle.rgw_scripts.specs.declared.played.PlayFault.TheVariants as faults;
ghost use Rattle.rgw_scripts.specs.Input.{config_text, script_lines};
ghost use Rattle.rgw_scripts.specs.Configuration.{config_in};
ghost use Rattle.rgw_scripts.specs.Script.{line_in, is_end, steps_of, steps_after};
ghost use Rattle.rgw_scripts.specs.Moves.{Move, went, printed, is_refused};
ghost use Rattle.rgw_scripts.specs.Play.{Scene, configured, configured_from, judged, shown, Plays, PlaysInto, Explains};

/// A line outside a `from` is nothing, a whole step, or a fault of its number.
#[tactic(auto, unfolding(crate::specs::Script::read_from))]
pub fn lines_are_steps()
    ensures end { (number : ℕ) (before : List ScriptStep) → steps_after number before [] ≡ Ok before }
    ensures empty { (number : ℕ) (before : List ScriptStep) (line : List ℕ) (more : List (List ℕ)) →
        line_in (words_of line) ≡ Some lines.Empty →
        steps_after number before (line ∷ more) ≡ steps_after (number + 1) before more }
    ensures whole { (number : ℕ) (before : List ScriptStep) (line : List ℕ) (more : List (List ℕ))
        (step : ScriptStep) →
        line_in (words_of line) ≡ Some (lines.Whole step) →
        steps_after number before (line ∷ more) ≡ steps_after (number + 1) (before ++ step ∷ []) more }
    ensures bad { (number : ℕ) (before : List ScriptStep) (line : List ℕ) (more : List (List ℕ)) →
        line_in (words_of line) ≡ None →
        steps_after number before (line ∷ more) ≡ Err number }
{}

/// A `from` and its lines up to `--` are one step; without `--` it is a fault of the line that it began with.
pub fn a_from_is_one_step()
    ensures whole { (number : ℕ) (before : List ScriptStep) (line : List ℕ) (source : SocketAddrV4)
        (text more : List (List ℕ)) →
        line_in (words_of line) ≡ Some (lines.From source) → list_any is_end text ≡ false →
        steps_after number before (line ∷ (text ++ codes "--" ∷ more))
        ≡ steps_after (number + length text + 2)
        (before ++ steps.Datagram source (flat_map ended text) ∷ []) more }
    ensures open { (number : ℕ) (before : List ScriptStep) (line : List ℕ) (source : SocketAddrV4)
        (text : List (List ℕ)) →
        line_in (words_of line) ≡ Some (lines.From source) → list_any is_end text ≡ false →
        steps_after number before (line ∷ text) ≡ Err number }
{}

/// Moves one after the other are those of the first part, and then those of the rest.
pub fn moves_go_on()
    ensures { (setup : Setup) (before : List GatewayEvent) (first rest : List Move) →
        let middle = went setup before first in
        let last = went setup middle.taken rest in
        went setup before (first ++ rest)
        ≡ record { shown = middle.shown ++ last.shown; taken = last.taken } }
{}

/// An input of more than 1,048,576 bytes is refused whatever it says; then the configuration counts, then the script.
pub fn faults_come_in_their_order()
    ensures long { (input : List ℕ) → 1048576 < length input → judged input ≡ Err (faults.Script 0) }
    ensures short { (input : List ℕ) → length input ≤ 1048576 →
        judged input ≡ configured (config_in (config_text input)) (steps_of (script_lines input)) }
    ensures no_config { (script : Result (List ScriptStep) ℕ) →
        configured None script ≡ Err (faults.Config 7) }
    ensures bad_config { (config : Config) (fault : ConfigFault) (script : Result (List ScriptStep) ℕ) →
        setup_of config ≡ Err fault →
        configured (Some config) script ≡ Err (faults.Config (config_fault_number fault)) }
    ensures bad_script { (config : Config) (setup : Setup) (line : ℕ) → setup_of config ≡ Ok setup →
        configured (Some config) (Err line) ≡ Err (faults.Script line) }
    ensures fine { (config : Config) (setup : Setup) (script : List ScriptStep) → setup_of config ≡ Ok setup →
        configured (Some config) (Ok script) ≡ Ok (record { setup = setup; steps = script }) }
{}

/// So they do with whatever number ids begin.
pub fn faults_come_so_with_any_first_number()
    ensures no_config { (first : ℕ) (script : Result (List ScriptStep) ℕ) →
        configured_from first None script ≡ Err (faults.Config 7) }
    ensures bad_config { (first : ℕ) (config : Config) (fault : ConfigFault) (script : Result (List ScriptStep) ℕ) →
        setup_from config first ≡ Err fault →
        configured_from first (Some config) script ≡ Err (faults.Config (config_fault_number fault)) }
    ensures bad_script { (first : ℕ) (config : Config) (setup : Setup) (line : ℕ) → setup_from config first ≡ Ok setup →
        configured_from first (Some config) (Err line) ≡ Err (faults.Script line) }
    ensures fine { (first : ℕ) (config : Config) (setup : Setup) (script : List ScriptStep) → setup_from config first ≡ Ok setup →
        configured_from first (Some config) (Ok script) ≡ Ok (record { setup = setup; steps = script }) }
{}

/// A play writes all that the steps show and nothing else, and counts all of them; a refused input isn't played.
pub fn a_play_is_whole()
    ensures output { (scene : Scene) (commands refused : ℕ) (before after : List ℕ) →
        Plays scene commands refused (Some before) (Some after) →
        after ≡ before ++ flat_map printed (shown scene) }
    ensures commands { (scene : Scene) (commands refused : ℕ) (before after : Option (List ℕ)) →
        Plays scene commands refused before after → commands ≡ length scene.steps }
    ensures refused { (scene : Scene) (commands refused : ℕ) (before after : Option (List ℕ)) →
        Plays scene commands refused before after → refused ≡ count_by is_refused (shown scene) }
    ensures played { (scene : Scene) (commands refused : ℕ) (before after : Option (List ℕ)) →
        PlaysInto (Ok scene) commands refused before after → Plays scene commands refused before after }
    ensures refused_input { (fault : PlayFault) (commands refused : ℕ)
        (before after : Option (List ℕ)) →
        PlaysInto (Err fault) commands refused before after → ⊥ }
{}

/// A fault of the configuration or of the script that is told is the input's; where a write fails, the input had none.
pub fn a_told_fault_is_the_inputs()
    ensures config { (number : ℕ) (input : Result Scene PlayFault) →
        Explains (faults.Config number) input → input ≡ Err (faults.Config number) }
    ensures script { (line : ℕ) (input : Result Scene PlayFault) →
        Explains (faults.Script line) input → input ≡ Err (faults.Script line) }
    ensures write { (input : Result Scene PlayFault) → Explains faults.Write input → IsOk input }
{}
