//! Worked examples of commands that come before the gateway serves, as theorems.
#![tactic(auto, unfolding(crate::proofs::Computing::on_examples))]

ghost use Rattle.std.specs.Prelude.{◌≡◌, ◌++◌, false, codes, [], ◌∷◌, None, Err};
ghost use Rattle.mgcp_text.specs.declared.message.Message.TheVariants as messages;
ghost use Rattle.mgcp_text.specs.declared.message.Verb.TheVariants.{Auep, Rqnt};
ghost use Rattle.mgcp_text.specs.declared.confirmation.KValue.TheVariants.{Absent, Unreadable};
ghost use Rattle.command_forms.specs.declared.forms.AuditTarget.TheVariants as audits;
ghost use Rattle.command_forms.specs.declared.refused.FaultyPart.TheVariants as places;
ghost use Rattle.command_forms.specs.Refusing.{letter_k, refusal};
ghost use Rattle.command_forms.specs.Order.{judged_while_in, form_while_in};
ghost use Rattle.command_forms.specs.Explaining.{explained_in, explanation_of};
ghost use Rattle.command_forms.specs.Example.{gateway, first_on, first, refused, audit_of, audit_of_connection, described};
ghost use Rattle.command_forms.specs.Example.{param};

/// Each deed is 405, on one line, on all and on any one.
pub fn deeds_are_refused_at_first()
    ensures configuration { first (codes "EPCF") (codes "B: e:A\r\n") ≡ refused 405 }
    ensures configuration_all { first_on (codes "EPCF") (codes "*") (codes "B: e:A\r\n") ≡ refused 405 }
    ensures request { first (codes "RQNT") (codes "X: A0\r\n") ≡ refused 405 }
    ensures request_all { first_on (codes "RQNT") (codes "aaln/*") (codes "X: A0\r\n") ≡ refused 405 }
    ensures creation { first (codes "CRCX") (codes "C: 1A\r\nM: recvonly\r\n") ≡ refused 405 }
    ensures creation_any { first_on (codes "CRCX") (codes "$") (codes "C: 1A\r\nM: recvonly\r\n") ≡ refused 405 }
    ensures modification { first (codes "MDCX") (codes "C: 1a\r\nI: 1\r\n" ++ described) ≡ refused 405 }
    ensures deletion { first (codes "DLCX") (codes "C: 1a\r\nI: 1\r\n") ≡ refused 405 }
    ensures deletion_all { first_on (codes "DLCX") (codes "*") [] ≡ refused 405 }
    ensures lower_case { first_on (codes "rqnt") (codes "AALN/1") (codes "x: 1\r\n") ≡ refused 405 }
{}

/// The verb and the name are judged as ever, before it.
pub fn the_name_is_judged_at_first()
    ensures ntfy { first (codes "NTFY") (codes "X: 1\r\n") ≡ refused 504 }
    ensures rsip { first_on (codes "RSIP") (codes "*") (codes "RM: restart\r\n") ≡ refused 504 }
    ensures unknown { first (codes "PING") [] ≡ refused 504 }
    ensures response { form_while_in false (messages.Response 200 2001 [] []) Absent gateway ≡ Err 504 }
    ensures beyond { first_on (codes "RQNT") (codes "aaln/17") (codes "X: 1\r\n") ≡ refused 500 }
    ensures no_wildcard { first_on (codes "DLCX") (codes "aaln/*x") [] ≡ refused 500 }
    ensures complicated { first_on (codes "EPCF") (codes "aaln/*/1") [] ≡ refused 503 }
    ensures request_any { first_on (codes "RQNT") (codes "$") (codes "X: 1\r\n") ≡ refused 503 }
    ensures creation_all { first_on (codes "CRCX") (codes "*") (codes "C: 1A\r\nM: recvonly\r\n") ≡ refused 503 }
    ensures modification_all { first_on (codes "MDCX") (codes "*") (codes "C: 1a\r\nI: 1\r\n") ≡ refused 503 }
    ensures deletion_call { first_on (codes "DLCX") (codes "*") (codes "C: 1a\r\n") ≡ refused 503 }
{}

/// Nothing else is: neither the parameter lines, nor what is missing, nor a value, nor the description.
pub fn nothing_else_is_judged_at_first()
    ensures critical { first (codes "RQNT") (codes "X+Y: 1\r\nX: 1\r\n") ≡ refused 405 }
    ensures foreign { first (codes "RQNT") (codes "M: x\r\nX: 1\r\n") ≡ refused 405 }
    ensures twice { first (codes "RQNT") (codes "X: 1\r\nX: 1\r\n") ≡ refused 405 }
    ensures missing { first (codes "RQNT") [] ≡ refused 405 }
    ensures missing_call { first (codes "DLCX") (codes "I: 1\r\n") ≡ refused 405 }
    ensures missing_identifier { first (codes "DLCX") (codes "S:\r\n") ≡ refused 405 }
    ensures k { first (codes "RQNT") (codes "X: 1\r\nK: x\r\n") ≡ refused 405 }
    ensures n { first (codes "RQNT") (codes "X: 1\r\nN: x\r\n") ≡ refused 405 }
    ensures b { first (codes "EPCF") (codes "B: x\r\n") ≡ refused 405 }
    ensures c { first (codes "CRCX") (codes "C: x\r\nM: recvonly\r\n") ≡ refused 405 }
    ensures i { first (codes "MDCX") (codes "C: 1a\r\nI: x\r\n") ≡ refused 405 }
    ensures m { first (codes "CRCX") (codes "C: 1A\r\nM: x\r\n") ≡ refused 405 }
    ensures l { first (codes "CRCX") (codes "C: 1A\r\nM: recvonly\r\nL: z:1\r\n") ≡ refused 405 }
    ensures time { first (codes "MDCX") (codes "C: 1a\r\nI: 1\r\nL: p:5\r\n") ≡ refused 405 }
    ensures x { first (codes "RQNT") (codes "X: g\r\n") ≡ refused 405 }
    ensures q { first (codes "RQNT") (codes "X: 1\r\nQ: fast\r\n") ≡ refused 405 }
    ensures d { first (codes "RQNT") (codes "X: 1\r\nD: [9-1]\r\n") ≡ refused 405 }
    ensures r { first (codes "RQNT") (codes "X: 1\r\nR: Q/a(N)\r\n") ≡ refused 405 }
    ensures t { first (codes "RQNT") (codes "X: 1\r\nT: L/dl\r\n") ≡ refused 405 }
    ensures s { first (codes "RQNT") (codes "X: 1\r\nS: L/wt\r\n") ≡ refused 405 }
    ensures description { first (codes "CRCX") (codes "C: 1A\r\nM: recvonly\r\n\r\nv=0\r\n") ≡ refused 405 }
{}

/// Audits are judged as ever, with each of their faults.
pub fn audits_are_served_at_first()
    ensures bare { first (codes "AUEP") [] ≡ audit_of (audits.One 1) [] }
    ensures items { first (codes "AUEP") (codes "K: 1\r\nF: ES\r\n") ≡ audit_of (audits.One 1) (codes "ES") }
    ensures all { first_on (codes "AUEP") (codes "*") [] ≡ audit_of audits.All [] }
    ensures connection { first (codes "AUCX") (codes "I: 1\r\nF: M\r\n") ≡ audit_of_connection (codes "1") (codes "M") }
    ensures beyond { first_on (codes "AUEP") (codes "aaln/17") [] ≡ refused 500 }
    ensures all_items { first_on (codes "AUEP") (codes "*") (codes "F: ES\r\n") ≡ refused 503 }
    ensures any { first_on (codes "AUEP") (codes "$") [] ≡ refused 503 }
    ensures connection_all { first_on (codes "AUCX") (codes "*") (codes "I: 1\r\n") ≡ refused 503 }
    ensures critical { first (codes "AUEP") (codes "X+Y: 1\r\n") ≡ refused 511 }
    ensures foreign { first (codes "AUEP") (codes "X: 1\r\n") ≡ refused 539 }
    ensures connection_foreign { first (codes "AUCX") (codes "I: 1\r\nC: 1\r\n") ≡ refused 539 }
    ensures twice { first (codes "AUEP") (codes "F: ES\r\nF: ES\r\n") ≡ refused 510 }
    ensures missing { first (codes "AUCX") (codes "F: M\r\n") ≡ refused 510 }
    ensures confirming { first (codes "AUEP") (codes "K: x\r\n") ≡ refused 510 }
    ensures identifier { first (codes "AUCX") (codes "I: x\r\n") ≡ refused 510 }
{}

/// A command that comes too early is at fault by its verb; later nothing of it is.
pub fn the_verb_is_at_fault_before_it_serves()
    ensures verb { judged_while_in false (messages.Command Rqnt 2001 (codes "aaln/1@rgw.example.net")
        (param (codes "X") (codes "1") ∷ []) []) Absent gateway ≡ Err (refusal places.Verb 405) }
    ensures later { explained_in (messages.Command Rqnt 2001 (codes "aaln/1@rgw.example.net")
        (param (codes "X") (codes "1") ∷ []) []) Absent gateway ≡ None }
    ensures name { judged_while_in false (messages.Command Rqnt 2001 (codes "aaln/17@rgw.example.net") [] []) Absent gateway
        ≡ Err (refusal places.Name 500) }
    ensures response { judged_while_in false (messages.Response 200 2001 [] []) Absent gateway
        ≡ Err (refusal places.Verb 504) }
    ensures audit { judged_while_in false (messages.Command Auep 2001 (codes "aaln/1@rgw.example.net") [] []) Unreadable gateway
        ≡ Err (refusal (places.Value letter_k) 510) }
    ensures words { explanation_of (refusal places.Verb 405) ≡ codes "405 the endpoint is restarting: verb" }
{}
