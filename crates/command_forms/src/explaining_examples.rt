//! Worked examples of what is said of refused commands, as theorems.
#![tactic(auto, unfolding(crate::proofs::Computing::on_examples))]

ghost use Rattle.std.specs.Prelude.{◌≡◌, codes, [], ◌∷◌, Some, None};
ghost use Rattle.mgcp_text.specs.declared.message.Message.TheVariants as messages;
ghost use Rattle.mgcp_text.specs.declared.message.Verb.TheVariants.{Auep};
ghost use Rattle.mgcp_text.specs.declared.confirmation.KValue.TheVariants.{Absent, Unreadable};
ghost use Rattle.command_forms.specs.Example.{gateway, why_on, why_request, why_audit, why_create, why_modify, why_delete};
ghost use Rattle.command_forms.specs.Example.{why_audit_connection};
ghost use Rattle.command_forms.specs.Refusing.{refusal, letter_b, letter_c, letter_d, letter_i, letter_k, letter_l, letter_m};
ghost use Rattle.command_forms.specs.Refusing.{letter_n, letter_q, letter_r, letter_s, letter_t, letter_x};
ghost use Rattle.command_forms.specs.Explaining.{explanation_of, explained_in};

use crate::refused::FaultyPart;

/// Each sentence at an example.
pub fn each_sentence_has_an_example()
    // The letters of parameters stand for what is written.
    ensures letters_have_names_first { codes "BCDIKL" ≡ letter_b ∷ letter_c ∷ letter_d ∷ letter_i ∷ letter_k ∷ letter_l ∷ [] }
    ensures others { codes "MNQRSTX"
        ≡ letter_m ∷ letter_n ∷ letter_q ∷ letter_r ∷ letter_s ∷ letter_t ∷ letter_x ∷ [] }
    // A verb that isn't served is at fault itself, and so is a message that is no command; else the name is.
    ensures verb { why_on (codes "RSIP") (codes "aaln/17") []
        ≡ Some (codes "504 unknown or unsupported command: verb") }
    ensures response { explained_in (messages.Response 200 2001 [] []) Absent gateway ≡ Some (refusal FaultyPart.Verb 504) }
    ensures unknown { why_on (codes "AUEP") (codes "aaln/17") []
        ≡ Some (codes "500 the endpoint is unknown: endpoint name") }
    ensures wildcard { why_on (codes "RQNT") (codes "$") (codes "X: 1\r\n")
        ≡ Some (codes "503 wildcard too complicated: endpoint name") }
    ensures items { why_on (codes "AUEP") (codes "*") (codes "F: ES\r\n")
        ≡ Some (codes "503 wildcard too complicated: endpoint name") }
    // Parameter lines are numbered from 1, and the first at fault counts.
    ensures the_first_faulty_line_is_named_first { why_request (codes "X+Y: 1\r\nX: 1\r\nM: x\r\n")
        ≡ Some (codes "511 unrecognized extension: parameter line 1") }
    ensures second { why_request (codes "X: 1\r\nM: x\r\nX+Y: 1\r\n")
        ≡ Some (codes "539 invalid or unsupported command parameter: parameter line 2") }
    ensures twice { why_request (codes "X: 1\r\nS:\r\nX-Y: 1\r\ns:\r\n")
        ≡ Some (codes "510 protocol error: parameter line 4") }
    ensures before_missing { why_request (codes "M: x\r\n")
        ≡ Some (codes "539 invalid or unsupported command parameter: parameter line 1") }
    // A code that this gateway doesn't have is shown without words.
    ensures other_codes_have_no_words { explanation_of (refusal FaultyPart.Verb 999) ≡ codes "999 : verb" }
{}

/// What is missing is named by its letter, before the values are read: the first that the verb must have, as I of an
/// audited connection, then C beside
/// an I that is deleted, then X beside what is of a request.
pub fn a_missing_parameter_is_named()
    ensures missing { why_request (codes "S: Q/a\r\nK: x\r\n")
        ≡ Some (codes "510 protocol error: missing parameter X") }
    ensures nothing_missing { why_audit [] ≡ None }
    ensures both_missing { why_create [] ≡ Some (codes "510 protocol error: missing parameter C") }
    ensures mode { why_create (codes "C: x\r\n") ≡ Some (codes "510 protocol error: missing parameter M") }
    ensures connection { why_modify (codes "C: x\r\nS:\r\n") ≡ Some (codes "510 protocol error: missing parameter I") }
    ensures audited_connection { why_audit_connection (codes "K: x\r\n")
        ≡ Some (codes "510 protocol error: missing parameter I") }
    ensures call_beside_connection { why_delete (codes "I: 1\r\nS:\r\nN: x\r\n")
        ≡ Some (codes "510 protocol error: missing parameter C") }
    ensures identifier_beside_signals { why_delete (codes "S:\r\nK: x\r\n")
        ≡ Some (codes "510 protocol error: missing parameter X") }
{}

/// A value is named by its letter; the values are judged in the order K, N, X, Q, D, R, T, S, and of an audited
/// connection K, I.
pub fn a_faulty_value_is_named()
    ensures k { why_request (codes "N: x\r\nX: 1\r\nK: x\r\n")
        ≡ Some (codes "510 protocol error: value of parameter K") }
    ensures audit_k { explained_in (messages.Command Auep 2001 (codes "aaln/1@rgw.example.net") [] []) Unreadable gateway
        ≡ Some (refusal (FaultyPart.Value letter_k) 510) }
    ensures k_of_connection { why_audit_connection (codes "I: x\r\nK: x\r\n")
        ≡ Some (codes "510 protocol error: value of parameter K") }
    ensures i_of_connection { why_audit_connection (codes "F: ES\r\nI: x\r\n")
        ≡ Some (codes "510 protocol error: value of parameter I") }
    ensures n { why_request (codes "X: g\r\nN: x\r\n")
        ≡ Some (codes "539 invalid or unsupported command parameter: value of parameter N") }
    ensures x { why_request (codes "Q: fast\r\nX: g\r\n")
        ≡ Some (codes "510 protocol error: value of parameter X") }
    ensures q { why_request (codes "X: 1\r\nD: [9-1]\r\nQ: fast\r\n")
        ≡ Some (codes "508 unknown or unsupported quarantine handling: value of parameter Q") }
    ensures d { why_request (codes "X: 1\r\nR: Q/a\r\nD: [9-1]\r\n")
        ≡ Some (codes "510 protocol error: value of parameter D") }
    ensures r { why_request (codes "X: 1\r\nT: L/dl\r\nR: Q/a(N)\r\n")
        ≡ Some (codes "518 unsupported or unknown package: value of parameter R") }
    ensures t { why_request (codes "X: 1\r\nS: L/wt\r\nT: L/dl\r\n")
        ≡ Some (codes "522 no such event or signal: value of parameter T") }
    ensures s { why_request (codes "X: 1\r\nS: L/dl(to=x)\r\n")
        ≡ Some (codes "538 event or signal parameter error: value of parameter S") }
    ensures taken { why_request (codes "X: 1\r\nN: ca@ca.example.net\r\nR: L/hd(N)\r\nS: L/dl\r\n") ≡ None }
    ensures audit_taken { why_audit (codes "F: ES\r\n") ≡ None }
{}

/// Of connections the values are judged in the order N, B, C, I, M, L, X, each of which is named where the next one is
/// at fault too; the description comes last.
pub fn a_faulty_value_of_a_connection_is_named()
    ensures n { why_modify (codes "C: 1a\r\nI: 1\r\nB: x\r\nN: x\r\n")
        ≡ Some (codes "539 invalid or unsupported command parameter: value of parameter N") }
    ensures b { why_create (codes "C: x\r\nM: recvonly\r\nB: x\r\n")
        ≡ Some (codes "539 invalid or unsupported command parameter: value of parameter B") }
    ensures c_of_creation { why_create (codes "M: x\r\nC: x\r\n")
        ≡ Some (codes "510 protocol error: value of parameter C") }
    ensures c_of_modification { why_modify (codes "I: x\r\nC: x\r\n")
        ≡ Some (codes "510 protocol error: value of parameter C") }
    ensures c_of_deletion { why_delete (codes "I: x\r\nC: x\r\n")
        ≡ Some (codes "510 protocol error: value of parameter C") }
    ensures i_of_modification { why_modify (codes "M: x\r\nC: 1a\r\nI: x\r\n")
        ≡ Some (codes "510 protocol error: value of parameter I") }
    ensures i_of_deletion { why_delete (codes "X: g\r\nC: 1a\r\nI: x\r\n")
        ≡ Some (codes "510 protocol error: value of parameter I") }
    ensures m_of_creation { why_create (codes "L: z:1\r\nC: 1A\r\nM: x\r\n")
        ≡ Some (codes "517 unsupported or invalid mode: value of parameter M") }
    ensures m_of_modification { why_modify (codes "L: z:1\r\nC: 1a\r\nI: 1\r\nM: x\r\n")
        ≡ Some (codes "517 unsupported or invalid mode: value of parameter M") }
    ensures l_of_creation { why_create (codes "X: g\r\nC: 1A\r\nM: recvonly\r\nL: z:1\r\n")
        ≡ Some (codes "541 invalid or unsupported local connection options: value of parameter L") }
    ensures l_of_modification { why_modify (codes "X: g\r\nC: 1a\r\nI: 1\r\nL: p:5\r\n")
        ≡ Some (codes "535 packetization period not supported: value of parameter L") }
    ensures s { why_modify (codes "C: 1a\r\nI: 1\r\nX: A\r\nS: L/wt\r\n\r\nv=0\r\n")
        ≡ Some (codes "513 not equipped to generate a requested signal: value of parameter S") }
    ensures description_of_creation { why_create (codes "C: 1A\r\nM: recvonly\r\n\r\nv=0\r\n")
        ≡ Some (codes "509 error in remote connection descriptor: remote description") }
    ensures description_of_modification { why_modify (codes "C: 1a\r\nI: 1\r\n\r\nv=0\r\n")
        ≡ Some (codes "509 error in remote connection descriptor: remote description") }
    ensures ignored { why_delete (codes "\r\nv=0\r\n") ≡ None }
    ensures taken { why_modify (codes "C: 1a\r\nI: 1\r\nM: sendrecv\r\n") ≡ None }
{}
