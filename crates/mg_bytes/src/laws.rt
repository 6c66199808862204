//! Laws of the definitions. Each function has an empty body: its clauses are the theorems.
ghost use Rattle.std.specs.Prelude.{◌≡◌, Some};
ghost use Rattle.mg_bytes.specs.declared.return_code.ReturnCode.{ReturnCode};
ghost use Rattle.mg_bytes.specs.ReturnCode.{number_of, code_with};

/// No two return codes have the same number, and each is found by its number.
#[tactic(auto, using(crate::proofs::CodeLaws::numbers_differ, crate::proofs::CodeLaws::found_again))]
pub fn return_codes_differ()
    ensures numbers { (code other : ReturnCode) → number_of code ≡ number_of other → code ≡ other }
    ensures found { (code : ReturnCode) → code_with (number_of code) ≡ Some code }
{}
