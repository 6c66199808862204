//! Laws of the cuts. Each function has an empty body: its clauses are the theorems.
ghost use Rattle.std.specs.Prelude.{ℕ, List};
ghost use Rattle.packages.specs.declared.cut.Cut.TheVariants.{Commas};
ghost use Rattle.packages.specs.Cuts.{pieces, IsPartedByCommas};

/// A text is cut at the commas that stand outside of all parentheses, and nowhere else.
pub fn outer_commas_part_a_text()
    ensures { (text : List ℕ) → IsPartedByCommas text (pieces Commas 0 text) }
{}
