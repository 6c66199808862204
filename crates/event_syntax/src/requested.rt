//! The events that are requested: the value of R (RFC 3435, 2.3.3).
ghost use Rattle.std.specs.Prelude.{◌≡◌, ◌&&◌, true, IfOk, is_ok, length, nat_le};
ghost use Rattle.mg_bytes.specs.CodeFault.{AnswersAs, FailsForMemory};
ghost use Rattle.packages.specs.Cuts.{entries};
ghost use Rattle.packages.specs.Faults.{each};
ghost use Rattle.event_syntax.specs.Actions.{joined_seen};
ghost use Rattle.event_syntax.specs.Embedding.{embedded_in, Gives};
ghost use Rattle.event_syntax.specs.Actions.{rule_of};
ghost use Rattle.event_syntax.specs.Detect.{most_events};
ghost use Rattle.event_syntax.specs.Requested.{reaction_of, requested, requested_in, requested_of, are_writable_requested};
ghost use Rattle.event_syntax.specs.Requested.{first_takes_memory, takes_memory};

use crate::detect::MOST_EVENTS;
use crate::embedded::embedded_in;
use crate::request::{Embedding, Reaction, RequestedEvent, RequestedEvents};
use crate::rule::{Joined, rule_of};
use crate::walk::are_requested;
use mg_bytes::{CodeFault, ReturnCode};
use packages::{entries, has_at_most};
use std::alloc::Global;

fn embedding_in(alloc: Global, inside: &[u8]) -> Result<Embedding, CodeFault>
    ensures { Gives (embedded_in inside.now) result }
{
    let request = embedded_in(alloc, inside)?;
    Ok(Embedding::new(alloc, request)?)
}

fn reaction_of(alloc: Global, joined: Joined<'_>) -> Result<Reaction, CodeFault>
    ensures { Gives (reaction_of (joined_seen joined.entry)) result }
{
    match joined {
        Joined::Plain(action) => Ok(Reaction::Plain(action)),
        Joined::Embed(inside) => Ok(Reaction::Embed(embedding_in(alloc, inside)?)),
        Joined::AccumulateAndEmbed(inside) => {
            Ok(Reaction::AccumulateAndEmbed(embedding_in(alloc, inside)?))
        }
    }
}

#[tactic(auto, unfolding(crate::specs::Requested::requested))]
fn requested(alloc: Global, entry: &[u8]) -> Result<RequestedEvent, CodeFault>
    ensures value { Gives (requested entry.now) result }
    ensures memory { FailsForMemory (is_ok (rule_of entry.now)) result }
{
    let rule = rule_of(entry).map_err(CodeFault::Code)?;
    let reaction = reaction_of(alloc, rule.joined)?;
    Ok(RequestedEvent {
        events: rule.events,
        reaction,
        keep: rule.keep,
    })
}

fn each_requested(alloc: Global, value: &[u8]) -> Result<RequestedEvents, CodeFault>
    ensures value { Gives (each requested (entries value.now)) result }
    ensures memory { FailsForMemory (first_takes_memory (entries value.now)) result }
{
    let mut list = RequestedEvents::new(alloc);
    for entry in entries(value) {
        list.push(requested(alloc, entry)?)?;
    }
    Ok(list)
}

// The entries of a value that is spelled.
#[tactic(auto, unfolding(crate::specs::Requested::requested_in))]
fn requested_in(alloc: Global, value: &[u8]) -> Result<RequestedEvents, CodeFault>
    ensures value { Gives (requested_in value.now) result }
    ensures memory { FailsForMemory (nat_le (length (entries value.now)) most_events && first_takes_memory (entries value.now)) result }
{
    if !has_at_most(value, MOST_EVENTS) {
        return Err(CodeFault::of(ReturnCode::InsufficientResources));
    }
    each_requested(alloc, value)
}

/// The value of R (RFC 3435, 2.3.3): entries with commas between them, each the name of events, as `[package/]name`,
/// `package/all`, or in D a range or `X`, and in parentheses the actions at these; an empty value is an empty list.
///
/// N is that the line notifies, also where nothing is said; A that it accumulates; D, of events of D alone, that it
/// treats them by the digit map; I that it does nothing; and E that the request in its parentheses takes effect, which
/// may stand with A. K, with any of them or alone, keeps the signals. Where T is among the events, only D is taken.
/// E has an R without E, an S and a D in its parentheses, each at most once.
///
/// A fault is a return code: 510 where the value isn't spelled so, at any depth; else 502 for more than 32 entries; else
/// that of the first entry with a fault: 518 for its package, 512 for `@`, 522 or 512 for its name, 538 for parameters,
/// which no event takes, 523 for actions that don't go together or not with its events, and then that of the first fault
/// in the parentheses of E, part by part: 502 for more than 32 entries of its R or 8 of its S, the code of an entry, of
/// R as above and 523 for another E, of S as `read_signals` says, and of its digit map 510 where it isn't spelled and
/// 502 where it is too large. Memory is taken for requests that are embedded and for entries that are read: a fault of
/// the first entry, or of a value in which no R is embedded, takes none.
#[tactic(auto, unfolding(crate::specs::Requested::requested_of, crate::specs::Requested::takes_memory))]
pub fn read_events(alloc: Global, value: &[u8]) -> Result<RequestedEvents, CodeFault>
    ensures answers { AnswersAs (requested_of value.now) result }
    // Memory is wanted only where a request is embedded, or the first entry says what is done at its events.
    ensures memory { FailsForMemory (takes_memory value.now) result }
    // What is read can be written.
    ensures writable { IfOk result (λ list. are_writable_requested list ≡ true) }
{
    let spelled = are_requested(alloc, value)?;
    if !spelled {
        return Err(CodeFault::of(ReturnCode::ProtocolError));
    }
    requested_in(alloc, value)
}
