//! Worked examples of the table of return codes, and of codes next to those that say something.
#![tactic(auto, unfolding(crate::proofs::Computing::on_examples))]

ghost use Rattle.std.specs.Prelude.{◌≡◌, [], ◌∷◌, ◌++◌, false, true, filter, map, nat_le, option_map, Some, None};
ghost use Rattle.mg_bytes.specs.ReturnCode.{number_of, words_of};
ghost use Rattle.call_processing.specs.ReturnCodes.{code_rows, row_in};
ghost use Rattle.call_processing.specs.Fates.{hook_told, is_deleted, may_pass};
ghost use Rattle.live_laws.specs.CallExample.{numbers_from};

use mg_bytes::ReturnCode;

/// The codes of RFC 3435, 2.4, by which a command is refused are 400 to 407, 409, 410, and 500 to 541. Each has one row, and these may
/// pass. Of the others those up to 499 may, and none above. A row's words are those by which this gateway tells the code, if it sends it.
pub fn each_return_code_has_a_row()
    ensures rows { map (λ row. row.code) code_rows ≡ numbers_from 400 8 ++ 409 ∷ 410 ∷ numbers_from 500 42 }
    ensures passing { map (λ row. row.code) (filter (λ row. row.may_pass) code_rows)
        ≡ 400 ∷ 403 ∷ 404 ∷ 405 ∷ 406 ∷ 407 ∷ 409 ∷ 410 ∷ 501 ∷ 520 ∷ [] }
    ensures by_its_row { option_map (λ row. row.may_pass) (row_in code_rows 541) ≡ Some false }
    ensures without_a_row { option_map (λ row. row.may_pass) (row_in code_rows 408) ≡ None }
    ensures unknown { may_pass 408 ≡ true }
    ensures unknown_behind { may_pass 411 ≡ true }
    ensures unknown_permanent { may_pass 542 ≡ false }
    ensures above { may_pass 600 ≡ false }
    ensures words { (code : ReturnCode) → nat_le 400 (number_of code) ≡ true
        → option_map (λ row. row.words) (row_in code_rows (number_of code)) ≡ Some (words_of code) }
{}

/// The code before those of a connection that isn't there says nothing of it, nor do those around the two that tell the hook; and of the
/// permanent ones none next to the two that may pass does.
pub fn codes_next_to_others_say_nothing()
    ensures before_no_connection { is_deleted 514 ≡ false }
    ensures not_executed { is_deleted 300 ≡ false }
    ensures before_off_hook { hook_told 400 ≡ None }
    ensures behind_on_hook { hook_told 403 ≡ None }
    ensures behind_on_hook_passes { may_pass 403 ≡ true }
    ensures before_restarting { may_pass 519 ≡ false }
    ensures behind_resources { may_pass 503 ≡ false }
    ensures executed { may_pass 200 ≡ false }
    ensures last { may_pass 599 ≡ false }
{}
