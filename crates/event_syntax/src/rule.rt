//! What an entry of R says by itself, up to the inside of E.
ghost use Rattle.std.specs.Prelude.{◌≡◌, option_map};
ghost use Rattle.packages.specs.Cuts.{items, inside_seen};
ghost use Rattle.event_syntax.specs.Actions.{word_named, word_of, said_of, takes, ruled_by, said_in};
ghost use Rattle.event_syntax.specs.Actions.{rule_of, and_embed, and_action, and_word, joined_or_notify};
ghost use Rattle.event_syntax.specs.Actions.{word_seen, joined_seen, so_far_seen, said_seen, rule_seen, seen_as};

use crate::events::{Events, events_called};
use crate::request::Action;
use mg_bytes::{ReturnCode, same_no_case};
use packages::{Inside, form_of, items};

/// What one action says.
#[derive(Clone, Copy)]
pub(crate) enum Word<'a> {
    /// The signals go on: K.
    Keeps,
    /// N, A, D or I.
    Acts(Action),
    /// E, with what stands in its parentheses.
    Embeds(&'a [u8]),
}

/// What is done, where an embedded request is what stands in the parentheses of E.
#[derive(Clone, Copy)]
pub(crate) enum Joined<'a> {
    Plain(Action),
    Embed(&'a [u8]),
    AccumulateAndEmbed(&'a [u8]),
}

/// What the actions up to one say.
#[derive(Clone, Copy)]
pub(crate) struct SoFar<'a> {
    joined: Option<Joined<'a>>,
    keep: bool,
}

/// What all actions of an entry say.
#[derive(Clone, Copy)]
pub(crate) struct Said<'a> {
    joined: Joined<'a>,
    keep: bool,
}

/// What an entry says.
#[derive(Clone, Copy)]
pub(crate) struct Rule<'a> {
    pub events: Events,
    pub joined: Joined<'a>,
    pub keep: bool,
}

fn word_named(name: &[u8]) -> Result<Word<'static>, u16>
    ensures { seen_as word_seen result ≡ word_named name.now }
{
    if same_no_case(name, b"N") {
        Ok(Word::Acts(Action::Notify))
    } else if same_no_case(name, b"A") {
        Ok(Word::Acts(Action::Accumulate))
    } else if same_no_case(name, b"D") {
        Ok(Word::Acts(Action::Dial))
    } else if same_no_case(name, b"I") {
        Ok(Word::Acts(Action::Ignore))
    } else if same_no_case(name, b"K") {
        Ok(Word::Keeps)
    } else {
        Err(ReturnCode::IllegalActions.number())
    }
}

#[tactic(auto, unfolding(crate::specs::Actions::word_of))]
fn word_of(action: &[u8]) -> Result<Word<'_>, u16>
    ensures { seen_as word_seen result ≡ word_of action.now }
{
    let Some(form) = form_of(action) else {
        return Err(ReturnCode::IllegalActions.number());
    };
    match form.inside {
        Inside::Nothing => word_named(form.head),
        Inside::Single(inside) | Inside::Double(inside, _) => Ok(Word::Embeds(inside)),
    }
}

fn and_action<'a>(so_far: Option<Joined<'a>>, action: Action) -> Result<Joined<'a>, u16>
    ensures { seen_as joined_seen result ≡ and_action (option_map joined_seen so_far.entry) action }
{
    match (so_far, action) {
        (None, action) => Ok(Joined::Plain(action)),
        (Some(Joined::Embed(inside)), Action::Accumulate) => Ok(Joined::AccumulateAndEmbed(inside)),
        _ => Err(ReturnCode::IllegalActions.number()),
    }
}

fn and_embed<'a>(so_far: Option<Joined<'a>>, inside: &'a [u8]) -> Result<Joined<'a>, u16>
    ensures { seen_as joined_seen result ≡ and_embed (option_map joined_seen so_far.entry) inside.now }
{
    match so_far {
        None => Ok(Joined::Embed(inside)),
        Some(Joined::Plain(Action::Accumulate)) => Ok(Joined::AccumulateAndEmbed(inside)),
        _ => Err(ReturnCode::IllegalActions.number()),
    }
}

// The actions so far with one more, where that may be.
fn and_word<'a>(so_far: SoFar<'a>, word: Word<'a>) -> Result<SoFar<'a>, u16>
    ensures { seen_as so_far_seen result ≡ and_word (so_far_seen so_far.entry) (word_seen word.entry) }
{
    match word {
        Word::Keeps => {
            if so_far.keep {
                return Err(ReturnCode::IllegalActions.number());
            }
            Ok(SoFar {
                keep: true,
                ..so_far
            })
        }
        Word::Acts(action) => {
            let joined = Some(and_action(so_far.joined, action)?);
            Ok(SoFar { joined, ..so_far })
        }
        Word::Embeds(inside) => {
            let joined = Some(and_embed(so_far.joined, inside)?);
            Ok(SoFar { joined, ..so_far })
        }
    }
}

fn joined_or_notify(joined: Option<Joined<'_>>) -> Joined<'_>
    ensures { joined_seen result ≡ joined_or_notify (option_map joined_seen joined.entry) }
{
    match joined {
        Some(joined) => joined,
        None => Joined::Plain(Action::Notify),
    }
}

fn said_of(actions: &[u8]) -> Result<Said<'_>, u16>
    ensures { seen_as said_seen result ≡ said_of (items actions.now) }
{
    let mut so_far = SoFar {
        joined: None,
        keep: false,
    };
    for action in items(actions) {
        so_far = and_word(so_far, word_of(action)?)?;
    }
    Ok(Said {
        joined: joined_or_notify(so_far.joined),
        keep: so_far.keep,
    })
}

#[tactic(auto, unfolding(crate::specs::Actions::said_of, packages::specs::Faults::each))]
fn said_in(inside: Inside<'_>) -> Result<Said<'_>, u16>
    ensures { seen_as said_seen result ≡ said_in (inside_seen inside.entry) }
{
    match inside {
        Inside::Nothing => Ok(Said {
            joined: Joined::Plain(Action::Notify),
            keep: false,
        }),
        Inside::Single(actions) => said_of(actions),
        Inside::Double(_, _) => Err(ReturnCode::EventParameterError.number()),
    }
}

fn takes(events: Events, joined: Joined<'_>) -> bool
    ensures { result ≡ takes events (joined_seen joined.entry) }
{
    match (events, joined) {
        (Events::Letters(_), Joined::Plain(Action::Dial)) => true,
        (Events::Letters(set), _) => !set[16],
        (_, Joined::Plain(Action::Dial)) => false,
        _ => true,
    }
}

fn ruled_by(events: Events, said: Said<'_>) -> Result<Rule<'_>, u16>
    ensures { seen_as rule_seen result ≡ ruled_by events (said_seen said.entry) }
{
    if !takes(events, said.joined) {
        return Err(ReturnCode::IllegalActions.number());
    }
    Ok(Rule {
        events,
        joined: said.joined,
        keep: said.keep,
    })
}

/// What an entry of R that is spelled says by itself: 518, 512 or 522 for its events, 538 for parameters, and then 523
/// for its actions.
#[tactic(auto, unfolding(crate::specs::Actions::rule_of))]
pub(crate) fn rule_of(entry: &[u8]) -> Result<Rule<'_>, u16>
    ensures { seen_as rule_seen result ≡ rule_of entry.now }
{
    let Some(form) = form_of(entry) else {
        return Err(ReturnCode::ProtocolError.number());
    };
    let events = events_called(form.head)?;
    let said = said_in(form.inside)?;
    ruled_by(events, said)
}
