//! Worked examples of audits of connections, as theorems.
#![tactic(auto, unfolding(crate::proofs::Computing::on_examples))]

ghost use Rattle.std.specs.Prelude.{◌≡◌, ◌++◌, codes, replicate, [], ◌∷◌, Some, Ok, Err};
ghost use Rattle.mgcp_text.specs.declared.message.Message.TheVariants as messages;
ghost use Rattle.mgcp_text.specs.declared.message.Verb.TheVariants.{Aucx};
ghost use Rattle.mgcp_text.specs.declared.confirmation.KValue.TheVariants.{Unreadable};
ghost use Rattle.command_forms.specs.declared.forms.Asks.TheVariants.{Reports};
ghost use Rattle.command_forms.specs.declared.forms.AuditTarget.TheVariants as audits;
ghost use Rattle.command_forms.specs.Order.{form_in};
ghost use Rattle.command_forms.specs.Example.{gateway, command_on, audit, audit_of, audit_connection_on, audit_connection};
ghost use Rattle.command_forms.specs.Example.{audit_of_connection, described, refused};

/// An audit of a connection has its identifier and the items that F asks for, both as they were given; an empty F is no
/// F, and what follows the parameters is ignored. That of an endpoint has no connection.
pub fn connections_are_audited()
    ensures bare { audit_connection (codes "I: 1\r\n") ≡ audit_of_connection (codes "1") [] }
    ensures as_given { audit_connection (codes "I: 0a0F\r\n") ≡ audit_of_connection (codes "0a0F") [] }
    ensures items { audit_connection (codes "I: 1\r\nF: c , X\r\n") ≡ audit_of_connection (codes "1") (codes "c , X") }
    ensures items_above { audit_connection (codes "F: M,LC\r\nI: 2\r\n") ≡ audit_of_connection (codes "2") (codes "M,LC") }
    ensures no_items { audit_connection (codes "F:\r\nI: 1\r\n") ≡ audit_of_connection (codes "1") [] }
    ensures confirming { audit_connection (codes "K: 7-9\r\nI: 1\r\n") ≡ audit_of_connection (codes "1") [] }
    ensures confirming_none { audit_connection (codes "I: 1\r\nK:\r\n") ≡ audit_of_connection (codes "1") [] }
    ensures description { audit_connection (codes "I: 1\r\n" ++ described) ≡ audit_of_connection (codes "1") [] }
    ensures faulty_description { audit_connection (codes "I: 1\r\n\r\nv=1\r\n") ≡ audit_of_connection (codes "1") [] }
    ensures lower_case { command_on (codes "aucx") (codes "AALN/1") (codes "f: M\r\ni: 1\r\n")
        ≡ audit_of_connection (codes "1") (codes "M") }
    ensures last_line { audit_connection_on (codes "aaln/16") (codes "I: A\r\n")
        ≡ Some (Ok (Reports (audits.One 16) (record { items = []; connection = Some (codes "A") }))) }
    ensures endpoint { audit (codes "F: M\r\n") ≡ audit_of (audits.One 1) (codes "M") }
{}

/// It must have I and may have F and K, each once; an extension isn't understood or is ignored, as ever.
pub fn audits_of_connections_have_their_codes()
    ensures missing { audit_connection [] ≡ refused 510 }
    ensures missing_with_items { audit_connection (codes "F: M\r\n") ≡ refused 510 }
    ensures missing_but_ignored { audit_connection (codes "X-I: 1\r\n") ≡ refused 510 }
    ensures call { audit_connection (codes "I: 1\r\nC: 1\r\n") ≡ refused 539 }
    ensures entity { audit_connection (codes "I: 1\r\nN: ca@ca.example.net\r\n") ≡ refused 539 }
    ensures encoding { audit_connection (codes "I: 1\r\nB: e:mu\r\n") ≡ refused 539 }
    ensures mode { audit_connection (codes "I: 1\r\nM: recvonly\r\n") ≡ refused 539 }
    ensures options { audit_connection (codes "I: 1\r\nL: p:20\r\n") ≡ refused 539 }
    ensures identifier { audit_connection (codes "I: 1\r\nX: 1\r\n") ≡ refused 539 }
    ensures requested { audit_connection (codes "I: 1\r\nR:\r\n") ≡ refused 539 }
    ensures signals { audit_connection (codes "I: 1\r\nS:\r\n") ≡ refused 539 }
    ensures map { audit_connection (codes "I: 1\r\nD:\r\n") ≡ refused 539 }
    ensures detected { audit_connection (codes "I: 1\r\nT:\r\n") ≡ refused 539 }
    ensures handling { audit_connection (codes "I: 1\r\nQ: step\r\n") ≡ refused 539 }
    ensures longer { audit_connection (codes "I: 1\r\nII: 1\r\n") ≡ refused 539 }
    ensures critical { audit_connection (codes "I: 1\r\nX+Y: 1\r\n") ≡ refused 511 }
    ensures package { audit_connection (codes "I: 1\r\nL/S: 1\r\n") ≡ refused 511 }
    ensures ignored { audit_connection (codes "X-Y: 1\r\nI: 1\r\nX-Y: 2\r\n") ≡ audit_of_connection (codes "1") [] }
    ensures connection_twice { audit_connection (codes "I: 1\r\ni: 1\r\n") ≡ refused 510 }
    ensures items_twice { audit_connection (codes "F:\r\nI: 1\r\nF: M\r\n") ≡ refused 510 }
    ensures confirming_twice { audit_connection (codes "K: 1\r\nI: 1\r\nK: 1\r\n") ≡ refused 510 }
{}

/// It is on one line alone: a wildcard is 503, whatever stands in it, and a name that no endpoint has is 500.
pub fn connections_are_audited_on_one_line()
    ensures all { audit_connection_on (codes "*") (codes "I: 1\r\n") ≡ refused 503 }
    ensures all_bare { audit_connection_on (codes "*") [] ≡ refused 503 }
    ensures all_items { audit_connection_on (codes "*") (codes "I: 1\r\nF: M\r\n") ≡ refused 503 }
    ensures all_no_items { audit_connection_on (codes "*") (codes "I: 1\r\nF:\r\n") ≡ refused 503 }
    ensures after { audit_connection_on (codes "aaln/*") (codes "I: 1\r\n") ≡ refused 503 }
    ensures both { audit_connection_on (codes "*/*") (codes "I: 1\r\n") ≡ refused 503 }
    ensures any { audit_connection_on (codes "$") (codes "I: 1\r\n") ≡ refused 503 }
    ensures any_bare { audit_connection_on (codes "$") [] ≡ refused 503 }
    ensures any_after { audit_connection_on (codes "aaln/$") (codes "I: 1\r\nF: M\r\n") ≡ refused 503 }
    ensures beyond { audit_connection_on (codes "aaln/17") (codes "I: 1\r\n") ≡ refused 500 }
{}

/// I is 1 to 32 hexadecimal digits, or else 510, and so is a K that can't be read.
pub fn values_of_audited_connections_have_codes()
    ensures connection { audit_connection (codes "I: 1g\r\n") ≡ refused 510 }
    ensures no_connection { audit_connection (codes "I:\r\n") ≡ refused 510 }
    ensures digits_32 { let digits = replicate 32 70 in
        audit_connection (codes "I: " ++ digits ++ codes "\r\n") ≡ audit_of_connection digits [] }
    ensures digits_33 { audit_connection (codes "I: " ++ replicate 33 70 ++ codes "\r\n") ≡ refused 510 }
    ensures confirming { audit_connection (codes "I: 1\r\nK: x\r\n") ≡ refused 510 }
    // What K confirms was read before, and isn't read again.
    ensures told { form_in (messages.Command Aucx 2001 (codes "aaln/1@rgw.example.net")
        ((record { code = codes "I"; value = codes "1" }) ∷ []) []) Unreadable gateway ≡ Err 510 }
{}

/// The name comes first, then the parameters from top to bottom, and then what is missing or can't be read.
pub fn audits_of_connections_are_checked_in_order()
    ensures name_before_parameters { audit_connection_on (codes "aaln/17") (codes "X+Y: 1\r\n") ≡ refused 500 }
    ensures wildcard_before_parameters { audit_connection_on (codes "*") (codes "X+Y: 1\r\n") ≡ refused 503 }
    ensures critical_first { audit_connection (codes "X+Y: 1\r\nC: 1\r\n") ≡ refused 511 }
    ensures foreign_first { audit_connection (codes "C: 1\r\nX+Y: 1\r\n") ≡ refused 539 }
    ensures second_first { audit_connection (codes "I: 1\r\nI: 1\r\nC: 1\r\n") ≡ refused 510 }
    ensures parameters_before_missing { audit_connection (codes "C: 1\r\n") ≡ refused 539 }
    ensures parameters_before_connection { audit_connection (codes "I: x\r\nC: 1\r\n") ≡ refused 539 }
    ensures parameters_before_confirming { audit_connection (codes "K: x\r\nI: 1\r\nX+Y: 1\r\n") ≡ refused 511 }
{}
