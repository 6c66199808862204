//! What an audit reports of the lines: what is asked for of one of them, or the names of all (RFC 3435, 2.3.10).
ghost use Rattle.std.specs.Prelude.{◌≡◌, ◌∷◌, [], true, IfOk};
ghost use Rattle.std.specs.List.{list_all};
ghost use Rattle.mgcp_text.specs.Writing.{is_writable_param};
ghost use Rattle.endpoint_names.specs.Table.{is_domain};
ghost use Rattle.mg_bytes.specs.CodeFault.{AnswersAs};
ghost use Rattle.audits.specs.Fitting.{fitting};
ghost use Rattle.plain_machine.specs.Machine.{endpoint_at};
ghost use Rattle.plain_machine.specs.Reporting.{line_report, name_of_line, names_of};
ghost use Rattle.plain_machine.specs.Commanding.{reported, audited, answer_by};

use crate::rules::Context;
use crate::store::Store;
use audits::{AuditedEndpoint, connection_report, endpoint_report, fitting};
use command_forms::{Audit, AuditTarget};
use endpoint_names::{Pattern, write_name};
use mg_bytes::{CodeFault, OutOfMemory, ReturnCode};
use mgcp_text::{AnswerContent, Bytes, Param, Params, TransactionId};
use std::alloc::AllocError;

// The name of a line (RFC 3435, 3.2.2: SpecificEndpointId).
#[tactic(auto, unfolding(endpoint_names::specs::Name::name_text))]
fn name_of_line(context: Context<'_>, line: u16) -> Result<Param<'static>, OutOfMemory>
    ensures { IfOk result (λ param. param ≡ name_of_line context.entry.setup.now line) }
{
    let domain = context.setup.names.domain.as_bytes();
    let name = write_name(context.alloc, Pattern::One(line), domain)?;
    Ok(Param {
        code: Bytes::of(b"Z"),
        value: Bytes::owned(name),
    })
}

/// The name of a line by itself.
pub fn name_alone(context: Context<'_>, line: u16) -> Result<Params<'static>, OutOfMemory>
    requires { is_domain context.setup.now.names.domain ≡ true }
    ensures value { IfOk result (λ params. params ≡ name_of_line context.entry.setup.now line ∷ []) }
    ensures writable { IfOk result (λ params. list_all is_writable_param params ≡ true) }
{
    let mut params: Params<'static> = Params::new(context.alloc);
    params.push(name_of_line(context, line)?)?;
    Ok(params)
}

// The names of all lines (RFC 3435, 2.3.10).
#[tactic(auto, unfolding(plain_machine::specs::Reporting::names_of))]
fn names_of(context: Context<'_>, store: &Store) -> Result<Params<'static>, OutOfMemory>
    requires { is_domain context.setup.now.names.domain ≡ true }
    ensures value { IfOk result (λ report. report ≡ names_of context.entry.setup.now store.now.endpoints) }
    ensures writable { IfOk result (λ report. list_all is_writable_param report ≡ true) }
{
    let mut report: Params<'static> = Params::new(context.alloc);
    let list = store.list();
    for (place, _) in list.iter().enumerate() {
        report.push(name_of_line(context, place as u16 + 1)?)?;
    }
    Ok(report)
}

// What is asked for of one line, or of one of its connections.
fn line_report(
    context: Context<'_>,
    store: &Store,
    line: u16,
    id: TransactionId,
    audit: &Audit<'_>,
) -> Result<AnswerContent, CodeFault>
    ensures { AnswersAs (line_report (endpoint_at store.now.endpoints line) id audit.now) result }
{
    let Some(endpoint) = store.endpoint(line) else {
        return Err(CodeFault::Code(ReturnCode::UnknownEndpoint.number()));
    };
    let borrowed = AuditedEndpoint {
        line: &endpoint.line,
        entity: &endpoint.post.entity,
        encoding: endpoint.encoding,
        connections: &endpoint.connections,
    };
    let items = audit.items.as_slice();
    match &audit.connection {
        None => endpoint_report(context.alloc, id, borrowed, items),
        Some(connection) => connection_report(context.alloc, id, borrowed, connection, items),
    }
}

// The names of all lines.
#[tactic(auto, unfolding(mgcp_text::specs::Writing::is_writable_body))]
fn all_reported(
    context: Context<'_>,
    store: &Store,
    id: TransactionId,
) -> Result<AnswerContent, CodeFault>
    requires { is_domain context.setup.now.names.domain ≡ true }
    ensures { AnswersAs (fitting id (reported (names_of context.entry.setup.now store.now.endpoints))) result }
{
    let names = names_of(context, store)?;
    let report = AnswerContent::with(ReturnCode::Executed.number(), names, Bytes::of(b""));
    fitting(context.alloc, id, report)
}

// What an audit reports: the items that are asked for of one line, or the names of all lines.
#[tactic(auto, unfolding(plain_machine::specs::Commanding::audited))]
fn audited(
    context: Context<'_>,
    store: &Store,
    id: TransactionId,
    target: AuditTarget,
    audit: &Audit<'_>,
) -> Result<AnswerContent, CodeFault>
    requires { is_domain context.setup.now.names.domain ≡ true }
    ensures { AnswersAs (audited context.entry.setup.now store.now.endpoints id target audit.now) result }
{
    match target {
        AuditTarget::One(line) => line_report(context, store, line, id, audit),
        AuditTarget::All => all_reported(context, store, id),
    }
}

/// The answer to an audit: a report, or the code for which there is none.
pub fn answer_to_audit(
    context: Context<'_>,
    store: &Store,
    id: TransactionId,
    target: AuditTarget,
    audit: &Audit<'_>,
) -> Result<AnswerContent, OutOfMemory>
    requires { is_domain context.setup.now.names.domain ≡ true }
    ensures { IfOk result (λ answer. answer
        ≡ answer_by (audited context.entry.setup.now store.now.endpoints id target audit.now)) }
{
    match audited(context, store, id, target, audit) {
        Err(CodeFault::OutOfMemory) => Err(AllocError),
        Err(CodeFault::Code(code)) => Ok(AnswerContent::plain(context.alloc, code)),
        Ok(report) => Ok(report),
    }
}
