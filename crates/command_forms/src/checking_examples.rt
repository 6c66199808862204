//! Worked examples of single checks, as theorems: a parameter by itself, an F in a request, what takes memory.
#![tactic(auto, unfolding(crate::proofs::Computing::on_examples))]

ghost use Rattle.std.specs.Prelude.{◌≡◌, codes, map, [], ◌∷◌, Some, Err, true, false};
ghost use Rattle.mgcp_text.specs.declared.message.Param.{Param};
ghost use Rattle.command_forms.specs.declared.verbs.Wildcard.TheVariants as wildcards;
ghost use Rattle.command_forms.specs.Meaning.{takes_all, takes_any};
ghost use Rattle.command_forms.specs.Params.{is_critical, is_ignored, param_fault};
ghost use Rattle.mgcp_text.specs.Reading.{read_text};
ghost use Rattle.command_forms.specs.Example.{request_on, refused, items_alone, of_identifier, takes, takes_from, command_text};

/// Each sentence at an example.
pub fn each_sentence_has_an_example()
    // Only where its row asks that no items stand there may F keep a command from all lines: a request with F is for all
    // lines, and F isn't its own.
    ensures request { request_on (codes "*") (codes "X: A2\r\nF: ES\r\n") ≡ refused 539 }
    ensures never { takes_all wildcards.Never [] ≡ false }
    ensures all { takes_all wildcards.All items_alone ≡ true }
    ensures without_items { takes_all wildcards.AllWithoutItems items_alone ≡ false }
    ensures any { takes_all wildcards.Any [] ≡ false }
    // Any one line is taken where the row says so, and nowhere else.
    ensures any_one_line_is_taken_by_its_row_alone { map takes_any
        (wildcards.Never ∷ wildcards.All ∷ wildcards.AllWithoutItems ∷ wildcards.AllWithoutCall
        ∷ wildcards.Any ∷ []) ≡ false ∷ false ∷ false ∷ false ∷ true ∷ [] }
    // Of one parameter the first of 511, 539 and 510 counts.
    ensures critical_again { let again : Param = record { code = codes "X+Y"; value = [] } in
        param_fault of_identifier (again ∷ []) again ≡ Some 511 }
    ensures foreign_again { let again : Param = record { code = codes "M"; value = [] } in
        param_fault of_identifier (again ∷ []) again ≡ Some 539 }
    ensures own_again { let again : Param = record { code = codes "X"; value = [] } in
        param_fault of_identifier (again ∷ []) again ≡ Some 510 }
    // A code without a byte, or of one, begins no extension.
    ensures empty_critical { is_critical [] ≡ false }
    ensures empty_ignored { is_ignored [] ≡ false }
    ensures one_critical { is_critical (codes "X") ≡ false }
    ensures one_ignored { is_ignored (codes "x") ≡ false }
{}

/// To judge a command takes memory where a gateway that serves is asked for a deed, whose parameter lines are in order and
/// all there, and whose K can be read: else none, and for an audit never.
pub fn only_a_deed_takes_memory()
    ensures request { takes true (codes "RQNT") (codes "X: 1\r\nK: 1-2\r\n") ≡ true }
    ensures configuration { takes true (codes "EPCF") [] ≡ true }
    ensures deletion { takes true (codes "DLCX") (codes "C: 1\r\nI: 1\r\n") ≡ true }
    ensures faulty_value { takes true (codes "RQNT") (codes "X: g\r\n") ≡ true }
    ensures foreign { takes true (codes "RQNT") (codes "X: 1\r\nM: x\r\n") ≡ false }
    ensures missing { takes true (codes "RQNT") [] ≡ false }
    ensures missing_call { takes true (codes "DLCX") (codes "I: 1\r\n") ≡ false }
    ensures confirming { takes true (codes "RQNT") (codes "X: 1\r\nK: x\r\n") ≡ false }
    ensures audit { takes true (codes "AUEP") (codes "F: ES\r\n") ≡ false }
    ensures audit_connection { takes true (codes "AUCX") (codes "I: 1\r\n") ≡ false }
    ensures verb { takes true (codes "NTFY") (codes "X: 1\r\n") ≡ false }
    ensures name { takes_from true (read_text (command_text (codes "RQNT") (codes "aaln/17") (codes "X: 1\r\n"))) ≡ false }
    ensures response { takes_from true (read_text (codes "200 1 OK\r\n")) ≡ false }
    ensures early { takes false (codes "RQNT") (codes "X: 1\r\n") ≡ false }
    ensures early_audit { takes false (codes "AUEP") [] ≡ false }
{}
