//! Which entry an event meets.
ghost use Rattle.std.specs.Prelude.{◌≡◌};
ghost use Rattle.events_and_signals.specs.Choice.{chosen, unasked, is_requested, is_detected};
ghost use Rattle.events_and_signals.specs.Deciding.{reaction_of, seen};

use crate::decision::{Decision, Doing};
use crate::naming::names;
use event_syntax::{Action, Events, Reaction, RequestedEvent};
use packages::{LineEvent, is_persistent};

/// Whether some entry of R names an event.
pub(crate) fn is_requested(entries: &[RequestedEvent], event: LineEvent) -> bool
    ensures { result ≡ is_requested entries.now event }
{
    entries.iter().any(|entry| names(entry.events, event))
}

/// Whether some entry of T names an event.
pub(crate) fn is_detected(entries: &[Events], event: LineEvent) -> bool
    ensures { result ≡ is_detected entries.now event }
{
    entries.iter().any(|events| names(*events, event))
}

/// Without an entry a persistent event is notified, and nothing is done at another.
pub(crate) fn unasked<'a>(event: LineEvent) -> Decision<'a>
    ensures { seen result ≡ unasked event }
{
    let action = if is_persistent(event) {
        Action::Notify
    } else {
        Action::Ignore
    };
    Decision {
        doing: Doing::Plain(action),
        keep: false,
    }
}

fn doing(reaction: &Reaction) -> Doing<'_>
    ensures { reaction_of result ≡ reaction.now }
{
    match reaction {
        Reaction::Plain(action) => Doing::Plain(*action),
        Reaction::Embed(embedding) => Doing::Embed(embedding),
        Reaction::AccumulateAndEmbed(embedding) => Doing::AccumulateAndEmbed(embedding),
    }
}

/// What the first entry of R says that names an event.
#[tactic(auto, unfolding(crate::specs::Choice::chosen))]
pub(crate) fn decided(entries: &[RequestedEvent], event: LineEvent) -> Decision<'_>
    ensures { seen result ≡ chosen entries.now event }
{
    let mut rest = entries;
    while let [entry, after @ ..] = rest {
        if names(entry.events, event) {
            return Decision {
                doing: doing(&entry.reaction),
                keep: entry.keep,
            };
        }
        rest = after;
    }
    unasked(event)
}
