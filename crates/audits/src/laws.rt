//! Laws of audits, in the words of their subject. Each function has an empty body: its clauses are the theorems.
ghost use Rattle.std.specs.Prelude.{◌≡◌, ◌≤◌, ◌<◌, ◌++◌, ℕ, List, length, codes, true, if◌then◌else◌, None, Ok, Err};
ghost use Rattle.mgcp_text.specs.declared.message.Param.{Param};
ghost use Rattle.mgcp_text.specs.Answer.{AnswerContent, response_of};
ghost use Rattle.mgcp_text.specs.Message.{param_at};
ghost use Rattle.mgcp_text.specs.Writing.{body_text, written};
ghost use Rattle.sdp_subset.specs.Writing.{session_text};
ghost use Rattle.connections.specs.declared.answer.Audited.{Audited};
ghost use Rattle.audits.specs.ConnectionReport.{remote_text, descriptions_text};
ghost use Rattle.audits.specs.Fitting.{fitting};
ghost use Rattle.audits.specs.Laws.{are_distinct, behind_a_line};
ghost use Rattle.audits.specs.Picking.{asks_for, picked};
ghost use Rattle.transmission.specs.Texts.{largest_datagram};

/// Under each code a report has what is known, where F asks for the code, and else nothing; and it has no code twice.
pub fn a_report_has_what_is_asked_for()
    ensures asked { (known : List Param) (items : List (List ℕ)) (code : List ℕ) → param_at code (picked known items)
        ≡ (if asks_for code items then param_at code known else None) }
    ensures once { (known : List Param) (items : List (List ℕ)) → are_distinct (picked known items) ≡ true }
{}

/// What the first items of F ask for stands first.
pub fn a_report_has_the_order_of_f()
    ensures { (known : List Param) (items more : List (List ℕ)) → (rest : List Param)
        × (picked known (items ++ more) ≡ picked known items ++ rest) }
{}

/// A response of up to 4,000 bytes is as it was wanted, and a longer one gives way to 533 (RFC 3435, 2.4 and 3.5.4).
pub fn a_response_is_too_long_past_4000_bytes()
    ensures short { (id : ℕ) (wanted : AnswerContent) → length (written (response_of id wanted)) ≤ largest_datagram →
        fitting id wanted ≡ Ok wanted }
    ensures long { (id : ℕ) (wanted : AnswerContent) → largest_datagram < length (written (response_of id wanted)) →
        fitting id wanted ≡ Err 533 }
{}

/// In a response the local description that is asked for stands behind an empty line, and then the remote one behind an empty
/// line (RFC 3435, 3.4).
pub fn each_description_stands_behind_an_empty_line()
    ensures { (audited : Audited) (items : List (List ℕ)) → body_text (descriptions_text audited items)
        ≡ behind_a_line (asks_for (codes "LC") items) (session_text audited.description)
        ++ behind_a_line (asks_for (codes "RC") items) (remote_text audited.connection.remote) }
{}
