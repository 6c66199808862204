//! What audits report.
ghost use Rattle.std.specs.Prelude.{is_ok};
ghost use Rattle.mg_bytes.specs.CodeFault.{AnswersAs, FailsForMemory};
ghost use Rattle.mg_bytes.specs.Items.{items_of};
ghost use Rattle.audits.specs.Endpoint.{shown};
ghost use Rattle.audits.specs.EndpointReport.{endpoint_report};
ghost use Rattle.connections.specs.Standing.{audited};
ghost use Rattle.audits.specs.ConnectionReport.{connection_report};

use crate::descriptions::descriptions_text;
use crate::endpoint::AuditedEndpoint;
use crate::limit::fitting;
use crate::picking::{Subject, picked};
use mg_bytes::{CodeFault, Identifier, ReturnCode};
use mgcp_text::{AnswerContent, Bytes, TransactionId};
use std::alloc::Global;

/// The answer to an audit of a line under this id (RFC 3435, 2.3.10): of what is known the items of F, in their order and each
/// once. `items` is the value of F, and an absent F is the empty text.
///
/// Codes are compared without case, and what isn't known is left out. Where the response would have more than 4,000 bytes,
/// the return code is 533.
#[tactic(auto, unfolding(crate::specs::EndpointReport::endpoint_report, crate::specs::Subject::known_of, mgcp_text::specs::Writing::is_writable_body))]
pub fn endpoint_report(
    alloc: Global,
    id: TransactionId,
    endpoint: AuditedEndpoint<'_>,
    items: &[u8],
) -> Result<AnswerContent, CodeFault>
    ensures { AnswersAs (endpoint_report id (shown endpoint.entry) (items_of items.now)) result }
{
    let params = picked(alloc, Subject::Line(endpoint), items)?;
    let wanted = AnswerContent::with(ReturnCode::Executed.number(), params, Bytes::of(b""));
    fitting(alloc, id, wanted)
}

/// The answer to an audit of the connection of a line with this identifier, under this id (RFC 3435, 2.3.11): of what is known
/// the items of F, in their order and each once, and behind an empty line each the local description for LC and the remote
/// one for RC. `items` is the value of F, and an absent F is the empty text.
///
/// Where there is no such connection, the return code is 515, which takes no memory. Else codes are compared without case,
/// and what isn't known is left out; where the response would have more than 4,000 bytes, the return code is 533.
#[tactic(auto, unfolding(crate::specs::ConnectionReport::connection_report, crate::specs::Subject::known_of))]
pub fn connection_report(
    alloc: Global,
    id: TransactionId,
    endpoint: AuditedEndpoint<'_>,
    connection: &Identifier,
    items: &[u8],
) -> Result<AnswerContent, CodeFault>
    ensures answers { AnswersAs (connection_report id (shown endpoint.entry) connection.now (items_of items.now)) result }
    // Memory is wanted only where there is such a connection.
    ensures memory { FailsForMemory (is_ok (audited connection.now (shown endpoint.entry).connections)) result }
{
    let audited = endpoint.connections.audit(connection)?;
    let subject = Subject::Connection(endpoint.entity, &audited.connection);
    let params = picked(alloc, subject, items)?;
    let body = descriptions_text(alloc, &audited, items)?;
    fitting(
        alloc,
        id,
        AnswerContent::with(ReturnCode::Executed.number(), params, body),
    )
}
