//! How R is written.
ghost use Rattle.std.specs.Prelude.{◌≡◌, ◌&&◌, ◌++◌, ◌∷◌, [], true, false, map, if◌then◌else◌, IfOk, OnOk};
ghost use Rattle.std.specs.List.{list_any};
ghost use Rattle.mg_bytes.specs.Blanks.{is_blank};
ghost use Rattle.mg_bytes.specs.Lines.{is_line_feed};
ghost use Rattle.mg_bytes.specs.Bytes.{comma};
ghost use Rattle.event_syntax.specs.Requested.{action_text, keep_text, listed, embedded_event_text, events_part, signals_part};
ghost use Rattle.event_syntax.specs.Requested.{map_part, parts_text, embedded_text, actions_text, requested_entry_text};
ghost use Rattle.event_syntax.specs.Requested.{requested_text, is_spelled_map, has_spelled_map, all_maps_are_spelled};

use crate::events::put_events;
use crate::request::{Action, EmbeddedEvent, EmbeddedRequest, Reaction, RequestedEvent};
use digit_map::MapText;
use mg_bytes::{OutOfMemory, Text};
use packages::{SignalRequest, write_signals};
use std::alloc::Global;

fn action_name(action: Action) -> &'static [u8]
    ensures { result.now ≡ action_text action }
{
    match action {
        Action::Notify => b"N",
        Action::Accumulate => b"A",
        Action::Dial => b"D",
        Action::Ignore => b"I",
    }
}

// A comma, where something stands before it and behind it.
fn put_comma(out: &mut Vec<u8>, before: bool, behind: bool) -> Result<(), OutOfMemory>
    ensures { OnOk result (out.new.items ≡ out.old.items ++ (if before && behind then comma ∷ [] else [])) }
{
    if before && behind {
        out.extend_from_slice(b",")
    } else {
        Ok(())
    }
}

fn put_keep(out: &mut Vec<u8>, keep: bool) -> Result<(), OutOfMemory>
    ensures { OnOk result (out.new.items ≡ out.old.items ++ listed (keep_text keep)) }
{
    if keep {
        out.extend_from_slice(b"K")
    } else {
        Ok(())
    }
}

#[tactic(auto, unfolding(crate::specs::Requested::embedded_event_text))]
fn put_embedded_event(out: &mut Vec<u8>, event: EmbeddedEvent) -> Result<(), OutOfMemory>
    ensures { OnOk result (out.new.items ≡ out.old.items ++ embedded_event_text event) }
{
    put_events(out, event.events)?;
    out.push(b'(')?;
    out.extend_from_slice(action_name(event.action))?;
    put_comma(out, true, event.keep)?;
    put_keep(out, event.keep)?;
    out.extend_from_slice(b")")
}

fn put_embedded_events(out: &mut Vec<u8>, events: &[EmbeddedEvent]) -> Result<(), OutOfMemory>
    ensures { OnOk result (out.new.items ≡ out.old.items ++ listed (map embedded_event_text events.now)) }
{
    for (place, event) in events.iter().enumerate() {
        put_comma(out, place > 0, true)?;
        put_embedded_event(out, *event)?;
    }
    Ok(())
}

fn put_events_part(out: &mut Vec<u8>, events: &[EmbeddedEvent]) -> Result<(), OutOfMemory>
    ensures { OnOk result (out.new.items ≡ out.old.items ++ listed (events_part events.now)) }
{
    if events.is_empty() {
        return Ok(());
    }
    out.extend_from_slice(b"R(")?;
    put_embedded_events(out, events)?;
    out.extend_from_slice(b")")
}

fn put_signals_part(
    alloc: Global,
    out: &mut Vec<u8>,
    signals: &[SignalRequest],
) -> Result<(), OutOfMemory>
    ensures { OnOk result (out.new.items ≡ out.old.items ++ listed (signals_part signals.now)) }
{
    if signals.is_empty() {
        return Ok(());
    }
    let text = write_signals(alloc, signals)?;
    out.extend_from_slice(b"S(")?;
    out.extend_from_slice(text.as_bytes())?;
    out.extend_from_slice(b")")
}

fn put_map_part(out: &mut Vec<u8>, map: &Option<MapText>) -> Result<(), OutOfMemory>
    ensures { OnOk result (out.new.items ≡ out.old.items ++ listed (map_part map.now)) }
{
    match map {
        Some(text) => {
            out.extend_from_slice(b"D(")?;
            out.extend_from_slice(text.as_bytes())?;
            out.extend_from_slice(b")")
        }
        None => Ok(()),
    }
}

fn put_parts(alloc: Global, out: &mut Vec<u8>, request: &EmbeddedRequest) -> Result<(), OutOfMemory>
    ensures { OnOk result (out.new.items ≡ out.old.items ++ listed (parts_text request.now)) }
{
    let events = request.events.as_slice();
    let signals = request.signals.as_slice();
    let has_events = !events.is_empty();
    let has_signals = !signals.is_empty();
    let has_map = request.map.is_some();
    put_events_part(out, events)?;
    put_comma(out, has_events, has_signals || has_map)?;
    put_signals_part(alloc, out, signals)?;
    put_comma(out, has_signals, has_map)?;
    put_map_part(out, &request.map)
}

#[tactic(auto, unfolding(crate::specs::Requested::embedded_text))]
fn put_embedded(
    alloc: Global,
    out: &mut Vec<u8>,
    request: &EmbeddedRequest,
) -> Result<(), OutOfMemory>
    ensures { OnOk result (out.new.items ≡ out.old.items ++ embedded_text request.now) }
{
    out.extend_from_slice(b"E(")?;
    put_parts(alloc, out, request)?;
    out.extend_from_slice(b")")
}

fn put_reaction(alloc: Global, out: &mut Vec<u8>, reaction: &Reaction) -> Result<(), OutOfMemory>
    ensures { OnOk result (out.new.items ≡ out.old.items ++ listed (actions_text reaction.now)) }
{
    match reaction {
        Reaction::Plain(action) => out.extend_from_slice(action_name(*action)),
        Reaction::Embed(embedding) => put_embedded(alloc, out, embedding.request()),
        Reaction::AccumulateAndEmbed(embedding) => {
            out.extend_from_slice(b"A,")?;
            put_embedded(alloc, out, embedding.request())
        }
    }
}

#[tactic(auto, unfolding(crate::specs::Requested::requested_entry_text))]
fn put_requested(
    alloc: Global,
    out: &mut Vec<u8>,
    entry: &RequestedEvent,
) -> Result<(), OutOfMemory>
    ensures { OnOk result (out.new.items ≡ out.old.items ++ requested_entry_text entry.now) }
{
    put_events(out, entry.events)?;
    out.push(b'(')?;
    put_reaction(alloc, out, &entry.reaction)?;
    put_comma(out, true, entry.keep)?;
    put_keep(out, entry.keep)?;
    out.extend_from_slice(b")")
}

/// The written form of the R of an embedded request (RFC 3435, 2.3.3): the entries with commas between them, each with its
/// package and with what is done in parentheses, and without blanks. It is one word, or nothing where there are no entries.
/// An error is for want of memory only.
#[tactic(auto, using(crate::proofs::WordLemmas::embedded_no_blanks, crate::proofs::WordLemmas::embedded_one_line))]
pub fn write_embedded_events(alloc: Global, events: &[EmbeddedEvent]) -> Result<Text, OutOfMemory>
    ensures value { IfOk result (λ text. text ≡ listed (map embedded_event_text events.now)) }
    ensures no_blanks { IfOk result (λ text. list_any is_blank text ≡ false) }
    ensures one_line { IfOk result (λ text. list_any is_line_feed text ≡ false) }
{
    let mut out = Vec::new(alloc);
    put_embedded_events(&mut out, events)?;
    Ok(Text::of(out))
}

// A map has its spelling by its type.
fn is_spelled(map: &Option<MapText>)
    ensures { is_spelled_map map.now ≡ true }
{
    if let Some(text) = map {
        let _text = text.as_bytes();
    }
}

fn has_spelled_map(reaction: &Reaction)
    ensures { has_spelled_map reaction.now ≡ true }
{
    match reaction {
        Reaction::Plain(_) => {}
        Reaction::Embed(embedding) => is_spelled(&embedding.request().map),
        Reaction::AccumulateAndEmbed(embedding) => is_spelled(&embedding.request().map),
    }
}

// What the types of its parts say of a list.
fn all_maps_are_spelled(list: &[RequestedEvent])
    ensures { all_maps_are_spelled list.now ≡ true }
{
    for entry in list {
        has_spelled_map(&entry.reaction);
    }
}

#[tactic(auto, unfolding(crate::specs::Requested::requested_text))]
fn events_text(alloc: Global, list: &[RequestedEvent]) -> Result<Text, OutOfMemory>
    ensures { IfOk result (λ text. text ≡ requested_text list.now) }
{
    let mut out = Vec::new(alloc);
    for (place, entry) in list.iter().enumerate() {
        put_comma(&mut out, place > 0, true)?;
        put_requested(alloc, &mut out, entry)?;
    }
    Ok(Text::of(out))
}

/// The written form of R (RFC 3435, 2.3.3): the entries with commas between them, each with its package and with what
/// is done in parentheses, and without blanks. A stands before E, and K comes last; E has its parts in the order R, S
/// and D, without those that are empty. It is one word, or nothing where there are no entries. An error is for want of
/// memory only.
#[tactic(auto, using(crate::proofs::WordLemmas::requested_no_blanks, crate::proofs::WordLemmas::requested_one_line))]
pub fn write_events(alloc: Global, list: &[RequestedEvent]) -> Result<Text, OutOfMemory>
    ensures value { IfOk result (λ text. text ≡ requested_text list.now) }
    ensures no_blanks { IfOk result (λ text. list_any is_blank text ≡ false) }
    ensures one_line { IfOk result (λ text. list_any is_line_feed text ≡ false) }
{
    // That it is one word stands on what these types say.
    all_maps_are_spelled(list);
    events_text(alloc, list)
}
