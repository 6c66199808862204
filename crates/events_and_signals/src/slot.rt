//! The slots in which active signals are kept.
ghost use Rattle.std.specs.Prelude.{◌≡◌, ◌<◌};
ghost use Rattle.events_and_signals.specs.Slots.{place_of, held_in, slot_of};

use crate::active::ActiveSignal;
use packages::Signal;

/// Whether a signal is active, and when it ends.
#[derive(Clone, Copy)]
pub(crate) enum Slot {
    Idle,
    /// Active, and no time ends it.
    Endless,
    /// Active up to this moment.
    Until(u64),
}

// The place of a signal in the table.
pub(crate) fn place_of(signal: Signal) -> usize
    ensures value { result ≡ place_of signal }
    ensures within { result < 9 }
{
    signal as usize
}

// The active signal that a slot holds for a signal.
pub(crate) fn held_in(signal: Signal, slot: Slot) -> Option<ActiveSignal>
    ensures { result ≡ held_in signal slot }
{
    match slot {
        Slot::Idle => None,
        Slot::Endless => Some(ActiveSignal { signal, end: None }),
        Slot::Until(end) => Some(ActiveSignal {
            signal,
            end: Some(end),
        }),
    }
}

// The slot of a signal that is active or not.
pub(crate) fn slot_of(active: Option<ActiveSignal>) -> Slot
    ensures { result ≡ slot_of active }
{
    match active {
        None => Slot::Idle,
        Some(ActiveSignal { end: None, .. }) => Slot::Endless,
        Some(ActiveSignal { end: Some(end), .. }) => Slot::Until(end),
    }
}
