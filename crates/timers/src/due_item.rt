//! What falls due, of whom, and when.
ghost use Rattle.std.specs.Prelude.{◌≡◌, ◌↔◌, IsTrue};
ghost use Rattle.timers.specs.Order.{comes_before, earlier};

use crate::kind::{DueKind, number_of};

/// Something that falls due: when, of whom, and what.
#[derive(Clone, Copy, PartialEq, Eq)]
pub struct DueItem {
    /// In ms.
    pub moment: u64,
    /// Of which line; 0 is the gateway itself.
    pub line: u16,
    pub kind: DueKind,
}

/// Whether one falls due before another: by moment, then by line, then by kind (this gateway's profile).
pub fn comes_before(item: DueItem, other: DueItem) -> bool
    ensures { result ≡ comes_before item other }
{
    let moments = item.moment.cmp(&other.moment);
    let lines = item.line.cmp(&other.line);
    let kinds = number_of(item.kind).cmp(&number_of(other.kind));
    moments.then(lines.then(kinds)).is_lt()
}

/// Of two, where there are both, the one that falls due first.
pub fn earlier(one: Option<DueItem>, other: Option<DueItem>) -> Option<DueItem>
    ensures { result ≡ earlier one other }
{
    match (one, other) {
        (None, _) => other,
        (Some(first), Some(second)) if comes_before(second, first) => other,
        (Some(_), _) => one,
    }
}

// Whether both are one, or there is none of either.
pub(crate) fn is_same(one: Option<DueItem>, other: Option<DueItem>) -> bool
    ensures { IsTrue result ↔ (one ≡ other) }
{
    one == other
}
