//! Lines of a trace are read again.
ghost use Rattle.std.specs.Prelude.{◌≡◌, ◌<◌, ◌^◌, ◌++◌, ℕ, codes, decimal, Some};
ghost use Rattle.mg_bytes.specs.Words.{words as words_of};
ghost use Rattle.rgw_scripts.specs.declared.step.ScriptLine.TheVariants.{Whole};
ghost use Rattle.rgw_scripts.specs.declared.step.ScriptStep.TheVariants.{At};
ghost use Rattle.rgw_scripts.specs.Script.{line_in};

/// The line of a moment is read as that moment.
pub fn moments_are_read_again()
    ensures { (moment : ℕ) → moment < 10 ^ 18 → line_in (words_of (codes "at " ++ decimal moment)) ≡ Some (Whole (At moment)) }
{}
