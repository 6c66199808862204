//! The ids that a confirmation names.
ghost use Rattle.std.specs.Prelude.{◌≡◌};
ghost use Rattle.transmission.specs.Span.{has_id, is_named};

/// The ids from the first to the last (RFC 3435, 3.2.2.1).
#[derive(Clone, Copy)]
pub struct IdSpan {
    pub first: u32,
    pub last: u32,
}

fn has_id(span: &IdSpan, id: u32) -> bool
    ensures { result ≡ has_id id span.now }
{
    span.first <= id && id <= span.last
}

/// Whether one of the spans names the id.
pub(crate) fn is_named(spans: &[IdSpan], id: u32) -> bool
    ensures { result ≡ is_named id spans.now }
{
    spans.iter().any(|span| has_id(span, id))
}
