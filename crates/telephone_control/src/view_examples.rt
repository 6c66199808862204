//! What the page is shown of a line, at worked examples, as theorems.
#![tactic(auto, unfolding(crate::proofs::Computing::on_examples))]

ghost use Rattle.std.specs.Prelude.{◌≡◌, None, Some, codes, false, [], ◌∷◌};
ghost use Rattle.packages.specs.declared.hook.Hook.TheVariants.{OnHook};
ghost use Rattle.plain_machine.specs.Example.{two_lines};
ghost use Rattle.plain_machine.specs.Lists.{plain};
ghost use Rattle.line_changes.specs.Example.{resting};
ghost use Rattle.telephone_control.specs.Viewing.{is_off, call_of, remote_text, viewed, line_viewed, lines_viewed};
ghost use Rattle.telephone_control.specs.ViewExample.{dialling, places, dialling_shown};

/// A line is shown by its hook, what is heard, its connections with their calls, and what was lost.
pub fn a_line_is_shown_as_it_is()
    ensures whole { viewed dialling places 2 ≡ dialling_shown }
    ensures resting { viewed resting [] 0 ≡ record { is_off_hook = false; signals = []; connections = []; lost = 0 } }
    ensures other { call_of 11 places ≡ codes "2" }
    ensures none { call_of 12 places ≡ [] }
    ensures unknown { remote_text None ≡ [] }
    ensures on { is_off OnHook ≡ false }
{}

/// Each line of a gateway is shown, from the first; another there isn't.
pub fn each_line_is_shown()
    ensures two { lines_viewed two_lines (plain two_lines []) 2 ≡ Some (viewed resting (None ∷ None ∷ None ∷ None ∷ []) 0)
        ∷ Some (viewed resting (None ∷ None ∷ None ∷ None ∷ []) 0) ∷ [] }
    ensures third { line_viewed two_lines (plain two_lines []) 3 ≡ None }
{}
