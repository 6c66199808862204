//! Embedded requests: what stands in the parentheses of E.
ghost use Rattle.std.specs.Prelude.{◌≡◌};
ghost use Rattle.packages.specs.Cuts.{entries};
ghost use Rattle.packages.specs.Faults.{each, each_up_to};
ghost use Rattle.event_syntax.specs.Detect.{most_events};
ghost use Rattle.event_syntax.specs.Embedding.{embedded_event, with_part_named};
ghost use Rattle.event_syntax.specs.Embedding.{with_part, embedded_in, Gives};

use crate::detect::MOST_EVENTS;
use crate::request::{EmbeddedEvent, EmbeddedEvents, EmbeddedRequest};
use crate::rule::{Joined, rule_of};
use digit_map::read_map;
use mg_bytes::{CodeFault, ReturnCode, same_no_case};
use packages::{Inside, SignalRequests, entries, form_of, has_at_most, items, signals_in};
use std::alloc::Global;

// An entry of R, where no request can be embedded once more.
#[tactic(auto, unfolding(crate::specs::Embedding::embedded_event))]
fn embedded_event(entry: &[u8]) -> Result<EmbeddedEvent, u16>
    ensures { result ≡ embedded_event entry.now }
{
    let rule = rule_of(entry)?;
    match rule.joined {
        Joined::Plain(action) => Ok(EmbeddedEvent {
            events: rule.events,
            action,
            keep: rule.keep,
        }),
        Joined::Embed(_) | Joined::AccumulateAndEmbed(_) => Err(
            ReturnCode::IllegalActions.number(),
        ),
    }
}

fn each_event(alloc: Global, value: &[u8]) -> Result<EmbeddedEvents, CodeFault>
    ensures { Gives (each embedded_event (entries value.now)) result }
{
    let mut events = EmbeddedEvents::new(alloc);
    for entry in entries(value) {
        match embedded_event(entry) {
            Ok(event) => events.push(event)?,
            Err(code) => return Err(CodeFault::Code(code)),
        }
    }
    Ok(events)
}

fn events_in(alloc: Global, value: &[u8]) -> Result<EmbeddedEvents, CodeFault>
    ensures { Gives (each_up_to most_events embedded_event (entries value.now)) result }
{
    if !has_at_most(value, MOST_EVENTS) {
        return Err(CodeFault::of(ReturnCode::InsufficientResources));
    }
    each_event(alloc, value)
}

// A request with the part of this name.
fn with_part_named(
    alloc: Global,
    request: EmbeddedRequest,
    name: &[u8],
    value: &[u8],
) -> Result<EmbeddedRequest, CodeFault>
    ensures { Gives (with_part_named request name.now value.now) result }
{
    if same_no_case(name, b"R") {
        let events = events_in(alloc, value)?;
        Ok(EmbeddedRequest { events, ..request })
    } else if same_no_case(name, b"S") {
        let signals = signals_in(value).map_err(CodeFault::Code)?;
        Ok(EmbeddedRequest { signals, ..request })
    } else {
        let map = Some(read_map(alloc, value)?);
        Ok(EmbeddedRequest { map, ..request })
    }
}

#[tactic(auto, unfolding(crate::specs::Embedding::with_part))]
fn with_part(
    alloc: Global,
    request: EmbeddedRequest,
    part: &[u8],
) -> Result<EmbeddedRequest, CodeFault>
    ensures { Gives (with_part request part.now) result }
{
    let Some(form) = form_of(part) else {
        return Err(CodeFault::of(ReturnCode::ProtocolError));
    };
    match form.inside {
        Inside::Nothing => Err(CodeFault::of(ReturnCode::ProtocolError)),
        Inside::Single(value) | Inside::Double(value, _) => with_part_named(
            alloc, request, form.head, value,
        ),
    }
}

/// The request that stands in the parentheses of E, part by part: the code of the first fault is 502 for more than 32
/// entries of its R or 8 of its S, one of an entry, or that of its digit map, 510 where it isn't spelled and 502 where
/// it is too large.
#[tactic(auto, unfolding(crate::specs::Embedding::embedded_in, crate::specs::Embedding::with_parts))]
pub(crate) fn embedded_in(alloc: Global, inside: &[u8]) -> Result<EmbeddedRequest, CodeFault>
    ensures { Gives (embedded_in inside.now) result }
{
    let mut request = EmbeddedRequest {
        events: EmbeddedEvents::new(alloc),
        signals: SignalRequests::new(),
        map: None,
    };
    for part in items(inside) {
        request = with_part(alloc, request, part)?;
    }
    Ok(request)
}
