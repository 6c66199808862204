//! Worked examples of the definitions, as theorems.
#![tactic(auto, unfolding(crate::specs::Texts::ending_text))]

ghost use Rattle.std.specs.Prelude.{◌≡◌, ℕ, codes, true, false, List, [], ◌∷◌, ◌++◌, map, Some, None};
ghost use Rattle.std.specs.declared.io.ErrorKind.{ErrorKind};
ghost use Rattle.agent_config.specs.declared.config_fault.ConfigRefusal.TheVariants as refusals;
ghost use Rattle.live_system.specs.declared.ending.About.{About};
ghost use Rattle.live_system.specs.declared.ending.FileNames.{FileNames};
ghost use Rattle.live_system.specs.declared.ending.CommonEnding.{CommonEnding};
ghost use Rattle.live_system.specs.declared.ending.CommonEnding.TheVariants.{Served, Help, Version, Usage, Unreadable, Unwritable};
ghost use Rattle.live_system.specs.Ending.{status_of as common_status, is_asked as is_commonly_asked, ending_text as common_text};
ghost use Rattle.live_system.specs.Wording.{joined};
ghost use Rattle.output_queues.specs.Reasons.{reason_of};
ghost use Rattle.rgca_words.specs.declared.help.TheConstants.{USAGE};
ghost use Rattle.rgca_words.specs.declared.ending.Moved.{Moved as Part};
ghost use Rattle.rgca_words.specs.declared.ending.Moved.TheVariants.{Check, Phones, Load};
ghost use Rattle.rgca_words.specs.declared.ending.Ending.TheVariants.{Common, Moved, Config};
ghost use Rattle.rgca_words.specs.Statuses.{status_of, is_asked, fails};
ghost use Rattle.rgca_words.specs.Endings.{config_by};
ghost use Rattle.rgca_words.specs.Texts.{ending_text};
ghost use Rattle.rgca_words.specs.Names.{help_pieces, version_pieces, Says};
ghost use Rattle.rgca_words.specs.Words.{moved_by};

/// Each sentence at an example.
pub fn each_sentence_has_an_example()
    // What was asked was done, or words or a configuration are refused, or the system failed.
    ensures common { (ending : CommonEnding) → status_of (Common ending) ≡ common_status ending }
    ensures moved { map (λ what. status_of (Moved what)) (Check ∷ Phones ∷ Load ∷ []) ≡ 2 ∷ 2 ∷ 2 ∷ [] }
    ensures config { (line : _) → status_of (Config line) ≡ 2 }
    ensures failed { map fails (Moved Check ∷ Common Usage ∷ []) ≡ true ∷ true ∷ [] }
    ensures not_failed { map fails (Common Served ∷ Common Help ∷ []) ≡ false ∷ false ∷ [] }
    ensures asked { (ending : CommonEnding) → is_asked (Common ending) ≡ is_commonly_asked ending }
    ensures own { (what : Part) (line : _) → map is_asked (Moved what ∷ Config line ∷ []) ≡ false ∷ false ∷ [] }
    // A configuration that is refused is told by its line, unless memory was refused.
    ensures told { (line : _) → config_by (refusals.Told line) ≡ Config line }
    ensures memory { config_by refusals.OutOfMemory ≡ Common CommonEnding.OutOfMemory }
    // An ending says why, in a line; and of what another program does now, where that is.
    ensures usual { (about : About) (files : FileNames) (ending : CommonEnding) → ending_text about files (Common ending)
        ≡ common_text about files ending }
    ensures check { (about : About) (files : FileNames) → ending_text about files (Moved Check)
        ≡ codes "rgca check is now the program rgw-check\n" }
    ensures phones { (about : About) (files : FileNames) → ending_text about files (Moved Phones)
        ≡ codes "rgca phones is now the Python module rgw_bench.phones, for tests with pytest\n" }
    ensures load { (about : About) (files : FileNames) → ending_text about files (Moved Load)
        ≡ codes "rgca load is now the program rgw-load\n" }
    // Three words ask for that, in these letters.
    ensures words { map moved_by (codes "check" ∷ codes "phones" ∷ codes "load" ∷ []) ≡ Some Check ∷ Some Phones ∷ Some Load ∷ [] }
    ensures other_words { map moved_by (codes "Check" ∷ codes "checks" ∷ codes "agent.toml" ∷ []) ≡ None ∷ None ∷ None ∷ [] }
{}

/// Each sentence at an example.
pub fn an_ending_names_what_fails()
    // Of the file that is read it says that it can't be read, or which fault it has; of the one that is written that it can't be written.
    ensures read { (read written text : List ℕ) (kind : ErrorKind) → Says read written (Common (Unreadable kind)) text
        → text ≡ read ++ (codes ": read fault" ++ (reason_of kind ++ codes "\n")) }
    ensures written { (read written text : List ℕ) (kind : ErrorKind) → Says read written (Common (Unwritable kind)) text
        → text ≡ written ++ (codes ": write fault" ++ (reason_of kind ++ codes "\n")) }
    ensures config { (read written text : List ℕ) (line : _) → Says read written (Config line) text
        → text ≡ read ++ (codes ": " ++ (line.items ++ codes "\n")) }
    // Who asks how the program is used, or for its version, is told what it says of itself.
    ensures usage { (read written text : List ℕ) → Says read written (Common Usage) text
        → text ≡ codes "usage: " ++ (USAGE.now ++ codes "\n") }
    ensures help { (read written text : List ℕ) → Says read written (Common Help) text → text ≡ joined help_pieces }
    ensures version { (read written text : List ℕ) → Says read written (Common Version) text → text ≡ joined version_pieces }
{}
