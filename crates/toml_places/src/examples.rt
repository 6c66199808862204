//! Worked examples of the definitions, as theorems.
#![tactic(auto, unfolding(crate::proofs::Computing::on_examples))]

ghost use Rattle.std.specs.Prelude.{◌≡◌, codes, Some, None};
ghost use Rattle.toml_places.specs.Lines.{line_at, fault_line};

/// Each sentence at an example.
pub fn each_sentence_has_an_example()
    // Lines are counted from 1 on, and end with their line feed.
    ensures first { line_at (codes "a\nb") 0 ≡ 1 }
    ensures end { line_at (codes "a\nb") 1 ≡ 1 }
    ensures second { line_at (codes "a\nb") 2 ≡ 2 }
    // What is told of a fault begins with its line, where it has one.
    ensures told { fault_line (Some 1234) (codes "lines: 0") ≡ codes "line 1,234: lines: 0" }
    ensures alone { fault_line None (codes "missing: lines") ≡ codes "missing: lines" }
{}
