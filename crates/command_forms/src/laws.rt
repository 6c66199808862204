//! Laws of what commands ask for. Each function has an empty body: its clauses are the theorems.
ghost use Rattle.std.specs.Prelude.{◌≡◌, ◌∷◌, ◌++◌, ℕ, Bool, List, codes, true, false, is_some, IfSome, Some, None, Ok, Err};
ghost use Rattle.std.specs.Result.{result_err};
ghost use Rattle.mg_bytes.specs.ReturnCode.{code_with};
ghost use Rattle.mgcp_text.specs.declared.confirmation.KValue.{KValue};
ghost use Rattle.mg_bytes.specs.Numbers.{is_hex_text};
ghost use Rattle.mgcp_text.specs.declared.message.Message.{Message};
ghost use Rattle.mgcp_text.specs.declared.message.Param.{Param};
ghost use Rattle.mgcp_text.specs.declared.message.Verb.TheVariants.{Auep, Aucx, Rqnt};
ghost use Rattle.endpoint_names.specs.declared.names.Names.{Names};
ghost use Rattle.endpoint_names.specs.declared.table.Host.{Host};
ghost use Rattle.command_forms.specs.declared.forms.Asks.{Asks};
ghost use Rattle.command_forms.specs.declared.forms.Asks.TheVariants.{Reports, Does};
ghost use Rattle.command_forms.specs.declared.forms.Audit.{Audit};
ghost use Rattle.command_forms.specs.declared.forms.AuditTarget.{AuditTarget};
ghost use Rattle.command_forms.specs.declared.forms.Deed.{Deed};
ghost use Rattle.command_forms.specs.declared.forms.Target.{Target};
ghost use Rattle.command_forms.specs.declared.refused.Refused.{Refused};
ghost use Rattle.command_forms.specs.declared.verbs.Meant.{Meant};
ghost use Rattle.command_forms.specs.declared.verbs.Task.TheVariants.{DeedOn};
ghost use Rattle.command_forms.specs.Command.{Command};
ghost use Rattle.command_forms.specs.Refusing.{coded};
ghost use Rattle.command_forms.specs.Verbs.{row_of};
ghost use Rattle.command_forms.specs.Params.{value_at};
ghost use Rattle.command_forms.specs.Meaning.{meant};
ghost use Rattle.command_forms.specs.Order.{asked, form_while, form_of, form_in};
ghost use Rattle.command_forms.specs.Explaining.{explained_in, refused_code};
ghost use Rattle.command_forms.specs.Codes.{name_codes, param_codes, has_code, target_in, target_meant, purpose_meant, AreOf, MayBeOf};
ghost use Rattle.command_forms.specs.Codes.{Audits, HasDeed, connecting_in};

/// The verb and the name are judged before all else: their faults are 500, 503 and 504, and no fault behind them is
/// one of these. A form is for the lines that the name means.
pub fn the_name_is_judged_first()
    ensures first { (command : Command) (confirms : KValue) (names : Names) (refused : Refused)
        → meant command names ≡ Err refused → form_of command confirms names ≡ Err refused.code }
    ensures behind { (command : Command) (confirms : KValue) (names : Names) (found : Meant)
        → meant command names ≡ Ok found
        → form_of command confirms names ≡ coded (asked found command.params command.body confirms names.table) }
    ensures name_code { (command : Command) (names : Names) (refused : Refused) → meant command names ≡ Err refused
        → has_code name_codes refused.code ≡ true }
    ensures param_code { (found : Meant) (params : List Param) (body : List ℕ) (confirms : KValue) (hosts : List Host)
        (refused : Refused) → asked found params body confirms hosts ≡ Err refused
        → has_code param_codes refused.code ≡ true }
    ensures apart { (code : ℕ) → has_code param_codes code ≡ true → has_code name_codes code ≡ false }
    ensures same { (found : Meant) (params : List Param) (body : List ℕ) (confirms : KValue) (hosts : List Host)
        (asks : Asks) → asked found params body confirms hosts ≡ Ok asks → target_in asks ≡ target_meant found.task }
{}

/// What a form is for: a line from 1 to the number of lines, or all of them, or any one. Of all lines a report without
/// items, and of no connection by itself, may be asked, or a deed that deletes all connections or leaves them as they
/// are; of any one line that a connection is created.
pub fn a_form_is_for_lines()
    ensures lines { (command : Command) (confirms : KValue) (names : Names) (asks : Asks)
        → form_of command confirms names ≡ Ok asks → AreOf names.lines (target_in asks) }
    ensures wildcards { (command : Command) (confirms : KValue) (names : Names) (asks : Asks)
        → form_of command confirms names ≡ Ok asks → MayBeOf asks }
{}

/// An audit has the items of the first F. A report is asked for by AuditEndpoint and AuditConnection alone: that of the
/// former is of no connection, and that of the latter of the connection that I names, by 1 to 32 hexadecimal digits.
pub fn an_audit_has_its_items()
    ensures items { (command : Command) (confirms : KValue) (names : Names) (target : AuditTarget) (audit : Audit)
        → form_of command confirms names ≡ Ok (Reports target audit) → audit.items ≡ value_at (codes "F") command.params }
    ensures verb { (command : Command) (confirms : KValue) (names : Names) (target : AuditTarget) (audit : Audit)
        → form_of command confirms names ≡ Ok (Reports target audit) → Audits command.verb }
    ensures endpoint { (command : Command) (confirms : KValue) (names : Names) (target : AuditTarget) (audit : Audit)
        → command.verb ≡ Auep → form_of command confirms names ≡ Ok (Reports target audit)
        → audit.connection ≡ None }
    ensures connection { (command : Command) (confirms : KValue) (names : Names) (target : AuditTarget) (audit : Audit)
        → command.verb ≡ Aucx → form_of command confirms names ≡ Ok (Reports target audit)
        → audit.connection ≡ Some (value_at (codes "I") command.params) }
    ensures digits { (command : Command) (confirms : KValue) (names : Names) (target : AuditTarget) (audit : Audit)
        → form_of command confirms names ≡ Ok (Reports target audit)
        → IfSome audit.connection (λ identifier. is_hex_text identifier ≡ true) }
{}

/// A deed has the entity that N names and the encoding that B says, where they stand there, and a request exactly where
/// X does, with the values of its parameters: an identifier of 1 to 32 hexadecimal digits, how Q handles events, what D
/// does with the digit map, and what is read of R, T and S, which can be written again and so is at most 32 entries of
/// R and of T, and 8 of S. That of a NotificationRequest has a request.
///
/// Its connections stay, or one is created or modified, with the call C, the identifier I, the mode M, the options L
/// and the description of the remote end, or those are deleted that C and I name; which of these its verb's row says.
pub fn a_deed_has_its_values()
    ensures values { (command : Command) (confirms : KValue) (names : Names) (target : Target) (deed : Deed)
        → form_of command confirms names ≡ Ok (Does target deed)
        → HasDeed command.params command.body names.table deed }
    ensures requests { (command : Command) (confirms : KValue) (names : Names) (target : Target) (deed : Deed)
        → command.verb ≡ Rqnt → form_of command confirms names ≡ Ok (Does target deed) → is_some deed.request ≡ true }
    ensures row { (command : Command) (names : Names) (found : Meant) → meant command names ≡ Ok found
        → row_of command.verb ≡ Some found.row }
    ensures purpose { (command : Command) (names : Names) (found : Meant) → meant command names ≡ Ok found
        → purpose_meant found.task ≡ found.row.purpose }
    ensures connections { (found : Meant) (params : List Param) (body : List ℕ) (confirms : KValue) (hosts : List Host)
        (target : Target) (deed : Deed) → asked found params body confirms hosts ≡ Ok (Does target deed)
        → found.task ≡ DeedOn (connecting_in deed.connections) target }
{}

/// A gateway that doesn't serve yet judges the verb and the name as ever, and then each audit as ever; any other command
/// is 405, whatever else stands in it. So it takes no deed, and what it takes is what is taken later. While it serves no
/// command is 405.
pub fn a_gateway_that_restarts_only_reports()
    ensures name { (serves : Bool) (command : Command) (confirms : KValue) (names : Names) (refused : Refused)
        → meant command names ≡ Err refused → form_while serves command confirms names ≡ Err refused.code }
    ensures audit { (serves : Bool) (command : Command) (confirms : KValue) (names : Names)
        → Audits command.verb → form_while serves command confirms names ≡ form_of command confirms names }
    ensures deed { (command : Command) (confirms : KValue) (names : Names) (found : Meant)
        → meant command names ≡ Ok found → (Audits command.verb → ⊥)
        → form_while false command confirms names ≡ Err 405 }
    ensures serving { (command : Command) (confirms : KValue) (names : Names)
        → form_while true command confirms names ≡ form_of command confirms names }
    ensures none { (command : Command) (confirms : KValue) (names : Names) (target : Target) (deed : Deed)
        → form_while false command confirms names ≡ Ok (Does target deed) → ⊥ }
    ensures taken { (serves : Bool) (command : Command) (confirms : KValue) (names : Names) (asks : Asks)
        → form_while serves command confirms names ≡ Ok asks → form_of command confirms names ≡ Ok asks }
    ensures code { (command : Command) (confirms : KValue) (names : Names)
        → form_of command confirms names ≡ Err 405 → ⊥ }
    ensures codes { (serves : Bool) (command : Command) (confirms : KValue) (names : Names) (code : ℕ)
        → form_while serves command confirms names ≡ Err code → has_code (405 ∷ name_codes ++ param_codes) code ≡ true }
{}

/// What is explained is the refusal: a message is refused for something exactly where it has no form, and with the same
/// return code. That code is one of this gateway's profile, so it has words.
#[tactic(auto, using(crate::proofs::ExplainingLaws::same_code, crate::proofs::ExplainingLaws::has_words))]
pub fn what_is_explained_is_the_refusal()
    ensures code { (message : Message) (confirms : KValue) (names : Names) →
        refused_code (explained_in message confirms names) ≡ result_err (form_in message confirms names) }
    ensures words { (message : Message) (confirms : KValue) (names : Names) →
        IfSome (explained_in message confirms names) (λ refused. is_some (code_with refused.code) ≡ true) }
{}
