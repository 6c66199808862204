//! Which events the entries of R and T name.
ghost use Rattle.std.specs.Prelude.{◌≡◌};
ghost use Rattle.events_and_signals.specs.Naming.{has_letter, is_of_line, is_letter_of, names, event_of};

use event_syntax::{Events, Observed};
use mg_bytes::{LETTERS, Letter};
use packages::{LineEvent, Package, completion_of};

// Whether a letter is one of a set.
fn has_letter(set: &[bool], letter: Letter) -> bool
    ensures { result ≡ has_letter set.now letter }
{
    let mut rest = set;
    let mut left: &[Letter] = &LETTERS;
    while let [is_in, others @ ..] = rest {
        let [other, letters @ ..] = left else {
            return false;
        };
        if *is_in && *other == letter {
            return true;
        }
        rest = others;
        left = letters;
    }
    false
}

fn is_of_line(event: LineEvent) -> bool
    ensures { result ≡ is_of_line event }
{
    match event {
        LineEvent::OffHook | LineEvent::OnHook | LineEvent::Flash | LineEvent::LineComplete => true,
        LineEvent::GenericComplete | LineEvent::Letter(_) => false,
    }
}

fn is_letter_of(set: &[bool], event: LineEvent) -> bool
    ensures { result ≡ is_letter_of set.now event }
{
    match event {
        LineEvent::Letter(letter) => has_letter(set, letter),
        LineEvent::OffHook
        | LineEvent::OnHook
        | LineEvent::Flash
        | LineEvent::LineComplete
        | LineEvent::GenericComplete => false,
    }
}

/// Whether an entry names an event.
#[tactic(auto, unfolding(crate::specs::Naming::names))]
pub(crate) fn names(events: Events, event: LineEvent) -> bool
    ensures { result ≡ names events event }
{
    match events {
        Events::AllOfLine => is_of_line(event),
        Events::One(one) => one == event,
        Events::Letters(set) => is_letter_of(&set, event),
    }
}

/// The event that an observed event is: the end of a signal is `oc` of its package.
pub(crate) fn event_of(observed: Observed) -> LineEvent
    ensures { result ≡ event_of observed }
{
    match observed {
        Observed::Happened(event) => event,
        Observed::Ended(signal) => completion_of(signal.package()).unwrap_or(
            LineEvent::LineComplete,
        ),
    }
}
