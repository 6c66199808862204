//! What F asks for.
ghost use Rattle.std.specs.Prelude.{◌≡◌, true, IfOk, IfSome, OnOk};
ghost use Rattle.std.specs.List.{list_all};
ghost use Rattle.mg_bytes.specs.Items.{items_of};
ghost use Rattle.mgcp_text.specs.Message.{param_at};
ghost use Rattle.mgcp_text.specs.Writing.{is_writable_param};
ghost use Rattle.audits.specs.Picking.{asks_for, with_item, with_items, picked};
ghost use Rattle.audits.specs.Subject.{known_of};

use crate::connection_items::connection_param;
use crate::endpoint::AuditedEndpoint;
use crate::line_items::line_param;
use connections::Connection;
use endpoint_names::Entity;
use mg_bytes::{OutOfMemory, list_items, same_no_case};
use mgcp_text::{Param, Params, param_at};
use std::alloc::Global;

/// What is reported.
#[derive(Clone, Copy)]
pub(crate) enum Subject<'s> {
    /// A line.
    Line(AuditedEndpoint<'s>),
    /// A connection, on a line with this notified entity.
    Connection(&'s Entity, &'s Connection),
}

// What is known under a code.
#[tactic(auto, unfolding(crate::specs::Subject::known_of))]
fn known_param(
    alloc: Global,
    subject: Subject<'_>,
    code: &[u8],
) -> Result<Option<Param<'static>>, OutOfMemory>
    ensures value { IfOk result (λ found. found ≡ param_at code.now (known_of subject.entry)) }
    ensures writable { IfOk result (λ found. IfSome found (λ param. is_writable_param param ≡ true)) }
{
    match subject {
        Subject::Line(endpoint) => line_param(alloc, endpoint, code),
        Subject::Connection(entity, connection) => {
            connection_param(alloc, entity, connection, code)
        }
    }
}

// Adds an item to a report, where it is known and isn't in it yet.
fn put_item(
    alloc: Global,
    subject: Subject<'_>,
    item: &[u8],
    report: &mut Params<'static>,
) -> Result<(), OutOfMemory>
    requires { list_all is_writable_param report.old ≡ true }
    ensures ok { OnOk result (report.new ≡ with_item (known_of subject.entry) report.old item.now) }
    ensures writable { OnOk result (list_all is_writable_param report.new ≡ true) }
{
    if param_at(item, report.as_slice()).is_some() {
        return Ok(());
    }
    match known_param(alloc, subject, item)? {
        None => Ok(()),
        Some(param) => report.push(param),
    }
}

// Adds the items of a list to a report, in their order.
#[tactic(auto, unfolding(crate::specs::Picking::with_items))]
fn put_items(
    alloc: Global,
    subject: Subject<'_>,
    list: &[u8],
    report: &mut Params<'static>,
) -> Result<(), OutOfMemory>
    requires { list_all is_writable_param report.old ≡ true }
    ensures ok { OnOk result (report.new ≡ with_items (known_of subject.entry) report.old (items_of list.now)) }
    ensures writable { OnOk result (list_all is_writable_param report.new ≡ true) }
{
    let mut items = list_items(list);
    while let Some(item) = items.next() {
        put_item(alloc, subject, item, report)?;
    }
    Ok(())
}

/// Of what is known that which the items of F ask for. An error is for want of memory only.
pub(crate) fn picked(
    alloc: Global,
    subject: Subject<'_>,
    items: &[u8],
) -> Result<Params<'static>, OutOfMemory>
    ensures value { IfOk result (λ report. report ≡ picked (known_of subject.entry) (items_of items.now)) }
    ensures writable { IfOk result (λ report. list_all is_writable_param report ≡ true) }
{
    let mut report: Params<'static> = Params::new(alloc);
    put_items(alloc, subject, items, &mut report)?;
    Ok(report)
}

/// Whether the items of F ask for this code.
pub(crate) fn asks_for(code: &[u8], list: &[u8]) -> bool
    ensures { result ≡ asks_for code.now (items_of list.now) }
{
    let mut items = list_items(list);
    while let Some(item) = items.next() {
        if same_no_case(code, item) {
            return true;
        }
    }
    false
}
