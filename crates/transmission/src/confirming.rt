//! What a K confirms.
ghost use Rattle.std.specs.Prelude.{◌≡◌, IfOk};
ghost use Rattle.transmission.specs.Confirming.{span_of, spans_of};

use crate::span::IdSpan;
use mg_bytes::{OutOfMemory, Sequence};
use mgcp_text::{IdRange, KValue};
use std::alloc::Global;

fn span_of(range: &IdRange) -> IdSpan
    ensures { result ≡ span_of range.now }
{
    IdSpan {
        first: range.first.number(),
        last: range.last.number(),
    }
}

/// The spans of ids that a readable K names; none where it can't be read, or isn't there (RFC 3435, 3.2.2.1).
pub fn spans_of(alloc: Global, confirms: &KValue) -> Result<Sequence<IdSpan>, OutOfMemory>
    ensures { IfOk result (λ spans. spans ≡ spans_of confirms.now) }
{
    let KValue::Items(ranges) = confirms else {
        return Ok(Sequence::new(alloc));
    };
    let mut spans = Vec::new(alloc);
    for range in ranges.as_slice() {
        spans.push(span_of(range))?;
    }
    Ok(Sequence::of(spans))
}
