//! Which of two ends comes first.
ghost use Rattle.std.specs.Prelude.{◌≡◌};
ghost use Rattle.events_and_signals.specs.Due.{end_of, earlier};

use crate::active::ActiveSignal;
use packages::Signal;

// The end of an active signal, where it has one, and the signal.
pub(crate) fn end_of(active: ActiveSignal) -> Option<(u64, Signal)>
    ensures { result ≡ end_of active }
{
    match active.end {
        Some(end) => Some((end, active.signal)),
        None => None,
    }
}

// The earlier end, the first of the two where both are as early.
pub(crate) fn earlier(
    first: Option<(u64, Signal)>,
    other: Option<(u64, Signal)>,
) -> Option<(u64, Signal)>
    ensures { result ≡ earlier first other }
{
    match (first, other) {
        (None, _) => other,
        (Some(_), None) => first,
        (Some(one), Some(two)) => { if one.0 <= two.0 { first } else { other } }
    }
}
