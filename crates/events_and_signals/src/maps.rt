//! Whether a request needs a digit map that isn't there.
ghost use Rattle.std.specs.Prelude.{◌≡◌, map};
ghost use Rattle.events_and_signals.specs.Requests.{entry_in};
ghost use Rattle.std.specs.List.{list_any};
ghost use Rattle.events_and_signals.specs.Maps.{is_dial, embedded_lacks_map, reaction_lacks_map, lacks_map};

use event_syntax::{Action, EmbeddedEvent, EmbeddedRequest, Reaction, RequestedEvent};

fn is_dial(action: Action) -> bool
    ensures { result ≡ is_dial action }
{
    matches!(action, Action::Dial)
}

fn any_dials(entries: &[EmbeddedEvent]) -> bool
    ensures { result ≡ list_any (λ entry. is_dial entry.action) entries.now }
{
    entries.iter().any(|entry| is_dial(entry.action))
}

fn embedded_lacks_map(known: bool, request: &EmbeddedRequest) -> bool
    ensures { result ≡ embedded_lacks_map known request.now }
{
    !(request.map.is_some() || known) && any_dials(request.events.as_slice())
}

fn reaction_lacks_map(known: bool, reaction: &Reaction) -> bool
    ensures { result ≡ reaction_lacks_map known reaction.now }
{
    match reaction {
        Reaction::Plain(action) => !known && is_dial(*action),
        Reaction::Embed(embedding) => embedded_lacks_map(known, embedding.request()),
        Reaction::AccumulateAndEmbed(embedding) => embedded_lacks_map(known, embedding.request()),
    }
}

/// Whether some entry of R, or of a request that is embedded there, has the action D where there is no digit map for it.
#[tactic(auto, unfolding(crate::specs::Maps::lacks_map))]
pub(crate) fn lacks_map(known: bool, requested: &[RequestedEvent]) -> bool
    ensures { result ≡ lacks_map known requested.now }
{
    requested
        .iter()
        .any(|entry| reaction_lacks_map(known, &entry.reaction))
}

/// The same of the R of an embedded request.
#[tactic(auto, unfolding(crate::specs::Maps::lacks_map))]
pub(crate) fn embedded_lacks(known: bool, requested: &[EmbeddedEvent]) -> bool
    ensures { result ≡ lacks_map known (map entry_in requested.now) }
{
    let mut rest = requested;
    while let [entry, after @ ..] = rest {
        if !known && is_dial(entry.action) {
            return true;
        }
        rest = after;
    }
    false
}
