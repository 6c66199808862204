//! Laws of what is reported: it can be written. Each function has an empty body: its clauses are the theorems.
ghost use Rattle.std.specs.Prelude.{◌≡◌, ◌≤◌, ℕ, List, length, Some, Ok, Err};
ghost use Rattle.mgcp_text.specs.Answer.{AnswerContent, response_of};
ghost use Rattle.mgcp_text.specs.Writing.{written};
ghost use Rattle.sdp_subset.specs.declared.session.Session.{Session};
ghost use Rattle.sdp_subset.specs.Reading.{session_of};
ghost use Rattle.sdp_subset.specs.Writing.{IsSession};
ghost use Rattle.audits.specs.Endpoint.{AuditedEndpoint};
ghost use Rattle.audits.specs.Fitting.{fitting};
ghost use Rattle.audits.specs.EndpointReport.{endpoint_report};
ghost use Rattle.audits.specs.ConnectionReport.{connection_report};
ghost use Rattle.audits.specs.Showing.{IsShowable, CanBeWritten};
ghost use Rattle.transmission.specs.Texts.{largest_datagram};

/// What is reported of an endpoint whose texts can be written can be written, and has 4,000 bytes at most; what is answered
/// in its place is a return code (RFC 3435, 3.3 and 3.5.4).
pub fn what_is_reported_can_be_written()
    ensures line { (id : ℕ) (endpoint : AuditedEndpoint) (items : List (List ℕ)) (answer : AnswerContent) → IsShowable endpoint →
        endpoint_report id endpoint items ≡ Ok answer → CanBeWritten id answer }
    ensures connection { (id : ℕ) (endpoint : AuditedEndpoint) (connection : List ℕ) (items : List (List ℕ)) (answer : AnswerContent) →
        IsShowable endpoint → connection_report id endpoint connection items ≡ Ok answer → CanBeWritten id answer }
    ensures as_wanted { (id : ℕ) (wanted answer : AnswerContent) → fitting id wanted ≡ Ok answer → answer ≡ wanted }
    ensures fits { (id : ℕ) (wanted answer : AnswerContent) → fitting id wanted ≡ Ok answer →
        length (written (response_of id answer)) ≤ largest_datagram }
    ensures line_code { (id : ℕ) (endpoint : AuditedEndpoint) (items : List (List ℕ)) (code : ℕ) →
        endpoint_report id endpoint items ≡ Err code → code ≤ 999 }
    ensures connection_code { (id : ℕ) (endpoint : AuditedEndpoint) (connection : List ℕ) (items : List (List ℕ)) (code : ℕ) →
        connection_report id endpoint connection items ≡ Err code → code ≤ 999 }
    ensures fitting_code { (id : ℕ) (wanted : AnswerContent) (code : ℕ) → fitting id wanted ≡ Err code → code ≤ 999 }
{}

/// What is read of a description can be written.
pub fn what_is_read_is_a_session()
    ensures { (text : List ℕ) (session : Session) → session_of text ≡ Some session → IsSession session }
{}
