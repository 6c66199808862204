//! The same of the R of an embedded request.
ghost use Rattle.std.specs.Prelude.{◌≡◌, map};
ghost use Rattle.events_and_signals.specs.Requests.{entry_in};
ghost use Rattle.events_and_signals.specs.Choice.{chosen, is_requested};
ghost use Rattle.events_and_signals.specs.Deciding.{seen};

use crate::choice::unasked;
use crate::decision::{Decision, Doing};
use crate::naming::names;
use event_syntax::EmbeddedEvent;
use packages::LineEvent;

/// Whether some entry names an event.
pub(crate) fn is_requested(entries: &[EmbeddedEvent], event: LineEvent) -> bool
    ensures { result ≡ is_requested (map entry_in entries.now) event }
{
    let mut rest = entries;
    while let [entry, after @ ..] = rest {
        if names(entry.events, event) {
            return true;
        }
        rest = after;
    }
    false
}

/// What the first entry says that names an event.
#[tactic(auto, unfolding(crate::specs::Choice::chosen))]
pub(crate) fn decided(entries: &[EmbeddedEvent], event: LineEvent) -> Decision<'_>
    ensures { seen result ≡ chosen (map entry_in entries.now) event }
{
    let mut rest = entries;
    while let [entry, after @ ..] = rest {
        if names(entry.events, event) {
            return Decision {
                doing: Doing::Plain(entry.action),
                keep: entry.keep,
            };
        }
        rest = after;
    }
    unasked(event)
}
