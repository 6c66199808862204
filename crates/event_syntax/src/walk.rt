//! How the value of R is spelled, by one walk from front to back. Requests may be embedded in one another here at any
//! depth: the reader refuses more than one, and only once the spelling is right.
ghost use Rattle.std.specs.Prelude.{◌≡◌, ◌+◌, ◌≤◌, ◌==◌, ◌++◌, ◌&&◌, [], true, nat_le, length, IfOk, IfErr};
ghost use Rattle.std.specs.List.{list_all};
ghost use Rattle.event_syntax.specs.declared.walk.Stand.TheVariants.{Entry as AnEntry};
ghost use Rattle.mg_bytes.specs.Bytes.{right_parenthesis};
ghost use Rattle.packages.specs.Cuts.{deeper};
ghost use Rattle.event_syntax.specs.RequestSpelling.{are_requested, is_embed};
ghost use Rattle.event_syntax.specs.Walking.{closing, split_seen, mark_of, marked, is_mark, is_free_byte, nested_at};
ghost use Rattle.event_syntax.specs.Walking.{step_seen, entry_stepped, behind_parameters, behind_actions_stepped};
ghost use Rattle.event_syntax.specs.Walking.{behind_parameters_stepped, is_plain_action, action_stepped, behind_embedded_stepped};
ghost use Rattle.event_syntax.specs.Walking.{behind_signals, behind_map, part_opened, part_stepped, behind_part_stepped};
ghost use Rattle.event_syntax.specs.Walking.{nothing_seen, stepped, is_left, holds_events};

use crate::event_spelling::is_event;
use mg_bytes::{OutOfMemory, all_blank, same_no_case, trimmed};
use packages::{are_parameters, are_signals, deeper, is_word};
use std::alloc::Global;

/// Which parts an embedded request has had so far.
#[derive(Clone, Copy)]
pub(crate) struct Seen {
    pub events: bool,
    pub signals: bool,
    pub map: bool,
}

impl Seen {
    fn nothing() -> Seen
        ensures { result ≡ nothing_seen }
    {
        Seen {
            events: false,
            signals: false,
            map: false,
        }
    }
}

/// A request in which a value is embedded: what it has had, and in how many values its own may still embed others.
#[derive(Clone, Copy)]
pub(crate) struct Outer {
    pub seen: Seen,
    pub depth: usize,
}

/// Where a walk stands: what begins there, or what stands before.
#[derive(Clone, Copy)]
pub(crate) enum Stand {
    Entry,
    BehindActions,
    BehindParameters,
    Action,
    BehindEmbedded,
    Part(Seen),
    BehindPart(Seen),
}

/// What stands behind a name.
#[derive(Clone, Copy)]
pub(crate) enum Mark {
    End,
    Comma,
    Opening,
    Closing,
}

/// What a name and the mark behind it lead to.
#[derive(Clone, Copy)]
pub(crate) enum WalkStep<'a> {
    /// The value isn't spelled.
    Wrong,
    /// It ends here.
    Ends,
    /// The same value goes on.
    On(Stand, &'a [u8]),
    /// A value begins that is embedded in a request which has had these parts.
    Into(Seen, &'a [u8]),
    /// Such a value ends.
    Out(&'a [u8]),
}

fn mark_of(nested: bool, byte: u8) -> Option<Mark>
    ensures { result ≡ mark_of nested byte }
{
    match byte {
        b',' => Some(Mark::Comma),
        b'(' => Some(Mark::Opening),
        b')' if nested => Some(Mark::Closing),
        _ => None,
    }
}

// A name, the mark behind it, and what is behind that.
fn next_name(text: &[u8], nested: bool) -> (&[u8], Mark, &[u8])
    ensures whole { text.now ≡ result.0.now ++ marked result.1 result.2.now }
    ensures free { list_all (is_free_byte nested) result.0.now ≡ true }
    ensures fits { is_mark nested result.1 ≡ true }
{
    for place in 0..text.len() {
        if let Some(mark) = mark_of(nested, text[place]) {
            return (&text[..place], mark, &text[place + 1..]);
        }
    }
    (text, Mark::End, &[])
}

fn closes(depth: usize, byte: u8) -> bool
    ensures { result ≡ (byte == right_parenthesis && depth == 0) }
{
    byte == b')' && depth == 0
}

// What stands before the parenthesis that closes a text, and what stands behind it.
fn split_closing(text: &[u8]) -> Option<(&[u8], &[u8])>
    ensures { split_seen result ≡ closing 0 text.now }
{
    let mut depth: usize = 0;
    for place in 0..text.len() {
        let byte = text[place];
        if closes(depth, byte) {
            return Some((&text[..place], &text[place + 1..]));
        }
        depth = deeper(depth, byte);
    }
    None
}

fn entry_stepped(mark: Mark, rest: &[u8]) -> WalkStep<'_>
    ensures { step_seen result ≡ entry_stepped mark rest.now }
{
    match mark {
        Mark::End => WalkStep::Ends,
        Mark::Comma => WalkStep::On(Stand::Entry, rest),
        Mark::Opening => WalkStep::On(Stand::Action, rest),
        Mark::Closing => WalkStep::Out(rest),
    }
}

fn behind_parameters(rest: &[u8]) -> WalkStep<'_>
    ensures { step_seen result ≡ behind_parameters (closing 0 rest.now) }
{
    match split_closing(rest) {
        Some((inside, behind)) if are_parameters(trimmed(inside)) => {
            WalkStep::On(Stand::BehindParameters, behind)
        }
        _ => WalkStep::Wrong,
    }
}

fn behind_actions_stepped(mark: Mark, rest: &[u8]) -> WalkStep<'_>
    ensures { step_seen result ≡ behind_actions_stepped mark rest.now }
{
    match mark {
        Mark::End => WalkStep::Ends,
        Mark::Comma => WalkStep::On(Stand::Entry, rest),
        Mark::Opening => behind_parameters(rest),
        Mark::Closing => WalkStep::Out(rest),
    }
}

fn behind_parameters_stepped(mark: Mark, rest: &[u8]) -> WalkStep<'_>
    ensures { step_seen result ≡ behind_parameters_stepped mark rest.now }
{
    match mark {
        Mark::End => WalkStep::Ends,
        Mark::Comma => WalkStep::On(Stand::Entry, rest),
        Mark::Opening => WalkStep::Wrong,
        Mark::Closing => WalkStep::Out(rest),
    }
}

fn is_embed(name: &[u8]) -> bool
    ensures { result ≡ is_embed name.now }
{
    same_no_case(name, b"E")
}

fn is_plain_action(name: &[u8]) -> bool
    ensures { result ≡ is_plain_action name.now }
{
    is_word(name) && !is_embed(name)
}

fn action_stepped<'a>(name: &[u8], mark: Mark, rest: &'a [u8]) -> WalkStep<'a>
    ensures { step_seen result ≡ action_stepped name.now mark rest.now }
{
    match mark {
        Mark::Comma if is_plain_action(name) => WalkStep::On(Stand::Action, rest),
        Mark::Opening if is_embed(name) => WalkStep::On(Stand::Part(Seen::nothing()), rest),
        Mark::Closing if is_plain_action(name) => WalkStep::On(Stand::BehindActions, rest),
        _ => WalkStep::Wrong,
    }
}

fn behind_embedded_stepped(mark: Mark, rest: &[u8]) -> WalkStep<'_>
    ensures { step_seen result ≡ behind_embedded_stepped mark rest.now }
{
    match mark {
        Mark::Comma => WalkStep::On(Stand::Action, rest),
        Mark::Closing => WalkStep::On(Stand::BehindActions, rest),
        Mark::End | Mark::Opening => WalkStep::Wrong,
    }
}

fn behind_signals(seen: Seen, rest: &[u8]) -> WalkStep<'_>
    ensures { step_seen result ≡ behind_signals seen (closing 0 rest.now) }
{
    let Some((inside, behind)) = split_closing(rest) else {
        return WalkStep::Wrong;
    };
    let signals = trimmed(inside);
    if signals.len() >= 1 && are_signals(signals) {
        WalkStep::On(
            Stand::BehindPart(Seen {
                signals: true,
                ..seen
            }),
            behind,
        )
    } else {
        WalkStep::Wrong
    }
}

fn behind_map(seen: Seen, rest: &[u8]) -> WalkStep<'_>
    ensures { step_seen result ≡ behind_map seen (closing 0 rest.now) }
{
    let Some((inside, behind)) = split_closing(rest) else {
        return WalkStep::Wrong;
    };
    if trimmed(inside).len() >= 1 {
        WalkStep::On(Stand::BehindPart(Seen { map: true, ..seen }), behind)
    } else {
        WalkStep::Wrong
    }
}

fn part_opened<'a>(seen: Seen, name: &[u8], rest: &'a [u8]) -> WalkStep<'a>
    ensures { step_seen result ≡ part_opened seen name.now rest.now }
{
    if same_no_case(name, b"R") {
        if seen.events {
            WalkStep::Wrong
        } else {
            WalkStep::Into(
                Seen {
                    events: true,
                    ..seen
                },
                rest,
            )
        }
    } else if same_no_case(name, b"S") {
        if seen.signals {
            WalkStep::Wrong
        } else {
            behind_signals(seen, rest)
        }
    } else if same_no_case(name, b"D") && !seen.map {
        behind_map(seen, rest)
    } else {
        WalkStep::Wrong
    }
}

fn part_stepped<'a>(seen: Seen, name: &[u8], mark: Mark, rest: &'a [u8]) -> WalkStep<'a>
    ensures { step_seen result ≡ part_stepped seen name.now mark rest.now }
{
    match mark {
        Mark::Opening => part_opened(seen, name, rest),
        Mark::End | Mark::Comma | Mark::Closing => WalkStep::Wrong,
    }
}

fn behind_part_stepped(seen: Seen, mark: Mark, rest: &[u8]) -> WalkStep<'_>
    ensures { step_seen result ≡ behind_part_stepped seen mark rest.now }
{
    match mark {
        Mark::Comma => WalkStep::On(Stand::Part(seen), rest),
        Mark::Closing => WalkStep::On(Stand::BehindEmbedded, rest),
        Mark::End | Mark::Opening => WalkStep::Wrong,
    }
}

#[tactic(auto, unfolding(crate::specs::Walking::stepped))]
fn stepped<'a>(stand: Stand, name: &[u8], mark: Mark, rest: &'a [u8]) -> WalkStep<'a>
    ensures { step_seen result ≡ stepped stand name.now mark rest.now }
{
    match stand {
        Stand::Entry if is_event(name) => entry_stepped(mark, rest),
        Stand::BehindActions if name.is_empty() => behind_actions_stepped(mark, rest),
        Stand::BehindParameters if name.is_empty() => behind_parameters_stepped(mark, rest),
        Stand::Action => action_stepped(name, mark, rest),
        Stand::BehindEmbedded if name.is_empty() => behind_embedded_stepped(mark, rest),
        Stand::Part(seen) => part_stepped(seen, name, mark, rest),
        Stand::BehindPart(seen) if name.is_empty() => behind_part_stepped(seen, mark, rest),
        _ => WalkStep::Wrong,
    }
}

// Whether the walk stands in parentheses.
fn nested_at(stand: Stand, outermost: bool) -> bool
    ensures { result ≡ nested_at stand outermost }
{
    match stand {
        Stand::Entry | Stand::BehindActions | Stand::BehindParameters => !outermost,
        _ => true,
    }
}

// The walk through a value that isn't blank.
fn walked(alloc: Global, value: &[u8]) -> Result<bool, OutOfMemory>
    ensures value { IfOk result (λ spelled. spelled ≡ is_left AnEntry (length value.now) [] value.now) }
    ensures memory { IfErr result (λ refused. holds_events [] value.now ≡ true) }
{
    let mut outers: Vec<Outer> = Vec::new(alloc);
    let mut stand = Stand::Entry;
    let mut depth = value.len();
    let mut rest = value;
    loop {
        let nested = nested_at(stand, outers.is_empty());
        let (name, mark, behind) = next_name(rest, nested);
        match stepped(stand, trimmed(name), mark, behind) {
            WalkStep::Wrong => return Ok(false),
            WalkStep::Ends => return Ok(outers.is_empty()),
            WalkStep::On(next, more) => {
                stand = next;
                rest = more;
            }
            WalkStep::Into(seen, more) => {
                if depth == 0 {
                    return Ok(false);
                }
                outers.push(Outer { seen, depth })?;
                stand = Stand::Entry;
                depth -= 1;
                rest = more;
            }
            WalkStep::Out(more) => {
                let Some(outer) = outers.pop() else {
                    return Ok(false);
                };
                stand = Stand::BehindPart(outer.seen);
                depth = outer.depth;
                rest = more;
            }
        }
    }
}

/// Whether a value of R is spelled: entries of an event, optionally actions, and optionally parameters, each in
/// parentheses; an action is a word, or E with R, S and D in its parentheses, each at most once and with something in
/// its own.
///
/// It takes time about the length of the value, and memory for each value that is embedded in another, at most. An
/// error is for want of memory only.
pub(crate) fn are_requested(alloc: Global, value: &[u8]) -> Result<bool, OutOfMemory>
    ensures value { IfOk result (λ spelled. spelled ≡ are_requested value.now) }
    ensures memory { IfErr result (λ refused. holds_events [] value.now ≡ true) }
{
    if all_blank(value) {
        return Ok(true);
    }
    walked(alloc, value)
}
