//! What a message confirms: its K parameter (RFC 3435, 3.2.2.1).
ghost use Rattle.std.specs.Prelude.{◌≡◌, IfOk, MatchOption, None, Some};
ghost use Rattle.mgcp_text.specs.Message.{params_in};
ghost use Rattle.mgcp_text.specs.Confirmation.{range_of, span_of, spans_of, value_of, k_of};
ghost use Rattle.mg_bytes.specs.Items.{items_of};

use crate::id::{TransactionId, id_of};
use crate::message::Message;
use crate::parameter::param_at;
use mg_bytes::{OutOfMemory, Sequence, list_items, split_once};
use std::alloc::Global;

/// Transaction ids from a first to a last.
#[derive(Clone, Copy)]
pub struct IdRange {
    pub first: TransactionId,
    pub last: TransactionId,
}

/// Ranges of ids in their order. A contract sees their list.
pub type IdRanges = Sequence<IdRange>;

/// The responses that a message confirms by its first K parameter (RFC 3435, 3.2.2.1).
#[derive(Drop)]
pub enum KValue {
    /// There is no K parameter.
    Absent,
    /// Its value isn't a list of ids.
    Unreadable,
    /// The ids, none for an empty value.
    Items(IdRanges),
}

fn range_of(first: TransactionId, last: TransactionId) -> Option<IdRange>
    ensures { result ≡ range_of first last }
{
    if first.number() > last.number() {
        return None;
    }
    Some(IdRange { first, last })
}

// An id, or two with `-` between them.
#[tactic(auto, unfolding(crate::specs::Confirmation::span_of))]
fn span_of(item: &[u8]) -> Option<IdRange>
    ensures { result ≡ span_of item.now }
{
    match split_once(item, b'-') {
        Some((first, last)) => range_of(id_of(first)?, id_of(last)?),
        None => {
            let id = id_of(item)?;
            range_of(id, id)
        }
    }
}

// All items of a list, or none where one can't be read.
#[tactic(auto, unfolding(crate::specs::Confirmation::spans_of))]
fn spans_of(alloc: Global, value: &[u8]) -> Result<Option<IdRanges>, OutOfMemory>
    ensures { IfOk result (λ found.
        MatchOption found (spans_of (items_of value.now) ≡ None)
        (λ ranges. spans_of (items_of value.now) ≡ Some ranges)) }
{
    let mut ranges = IdRanges::new(alloc);
    let mut items = list_items(value);
    while let Some(item) = items.next() {
        match span_of(item) {
            Some(range) => ranges.push(range)?,
            None => return Ok(None),
        }
    }
    Ok(Some(ranges))
}

fn value_of(alloc: Global, value: &[u8]) -> Result<KValue, OutOfMemory>
    ensures { IfOk result (λ k. k ≡ value_of value.now) }
{
    if value.is_empty() {
        return Ok(KValue::Items(IdRanges::new(alloc)));
    }
    match spans_of(alloc, value)? {
        Some(ranges) => Ok(KValue::Items(ranges)),
        None => Ok(KValue::Unreadable),
    }
}

/// What the first K parameter of a message says (RFC 3435, 3.2.2.1).
#[tactic(auto, unfolding(crate::specs::Confirmation::k_of))]
pub fn read_k(alloc: Global, said: &Message<'_>) -> Result<KValue, OutOfMemory>
    ensures { IfOk result (λ k. k ≡ k_of (params_in said.now)) }
{
    match param_at(b"K", said.params()) {
        Some(param) => value_of(alloc, param.value.as_slice()),
        None => Ok(KValue::Absent),
    }
}
