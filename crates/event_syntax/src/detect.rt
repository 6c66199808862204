//! The events to look for while a notification isn't answered: the value of T (RFC 3435, 2.3.3).
ghost use Rattle.std.specs.Prelude.{◌≡◌, ◌≤◌, length, true, false, IfOk};
ghost use Rattle.std.specs.List.{list_any};
ghost use Rattle.mg_bytes.specs.Blanks.{is_blank};
ghost use Rattle.mg_bytes.specs.Lines.{is_line_feed};
ghost use Rattle.mg_bytes.specs.CodeFault.{AnswersAs, answer_of};
ghost use Rattle.packages.specs.Cuts.{entries};
ghost use Rattle.packages.specs.Faults.{each};
ghost use Rattle.event_syntax.specs.Detect.{detected, detected_in, detected_of, detected_text, are_writable_events, most_events};

use crate::event_spelling::are_detected;
use crate::events::{Events, events_called, put_events};
use mg_bytes::{CodeFault, Few, OutOfMemory, ReturnCode, Text};
use packages::{Inside, entries, form_of, has_at_most};
use std::alloc::Global;

/// The most entries that T and R may have (this gateway's profile).
pub const MOST_EVENTS: usize = 32;

/// The entries of T, at most `MOST_EVENTS`.
pub type DetectedEvents = Few<Events, MOST_EVENTS>;

#[tactic(auto, unfolding(crate::specs::Detect::detected))]
fn detected(entry: &[u8]) -> Result<Events, u16>
    ensures { result ≡ detected entry.now }
{
    let Some(form) = form_of(entry) else {
        return Err(ReturnCode::ProtocolError.number());
    };
    let events = events_called(form.head)?;
    match form.inside {
        Inside::Nothing => Ok(events),
        Inside::Single(_) | Inside::Double(_, _) => Err(ReturnCode::EventParameterError.number()),
    }
}

fn each_detected(value: &[u8]) -> Result<DetectedEvents, u16>
    requires { length (entries value.now) ≤ most_events }
    ensures { result ≡ each detected (entries value.now) }
{
    let mut list = DetectedEvents::new();
    for entry in entries(value) {
        list.push(detected(entry)?);
    }
    Ok(list)
}

// The entries of a value that is spelled.
#[tactic(auto, unfolding(crate::specs::Detect::detected_in))]
fn detected_in(value: &[u8]) -> Result<DetectedEvents, u16>
    ensures { result ≡ detected_in value.now }
{
    if !has_at_most(value, MOST_EVENTS) {
        return Err(ReturnCode::InsufficientResources.number());
    }
    each_detected(value)
}

/// The value of T (RFC 3435, 2.3.3): entries with commas between them, each `[package/]name`, `package/all`, or in D a
/// range or `X`; an empty value is an empty list.
///
/// A fault is a return code: 510 where the value isn't spelled so; else 502 for more than 32 entries; else that of the
/// first entry with a fault: 518 for its package, 512 for `@`, 522 or 512 for its name, 538 for parameters, which no
/// event takes. It takes no memory, so it is never refused any.
#[tactic(auto, unfolding(crate::specs::Detect::detected_of))]
pub fn read_detect(value: &[u8]) -> Result<DetectedEvents, CodeFault>
    ensures value { result ≡ answer_of (detected_of value.now) }
    ensures answers { AnswersAs (detected_of value.now) result }
    // What is read can be written.
    ensures writable { IfOk result (λ list. are_writable_events list ≡ true) }
{
    if !are_detected(value) {
        return Err(CodeFault::of(ReturnCode::ProtocolError));
    }
    match detected_in(value) {
        Ok(list) => Ok(list),
        Err(code) => Err(CodeFault::Code(code)),
    }
}

/// The written form of T (RFC 3435, 2.3.3): the entries with commas between them, each with its package, letters of D as
/// one or in brackets without spans, and nothing blank. It is one word, or nothing where there are no entries. An error is
/// for want of memory only.
#[tactic(auto, using(crate::proofs::WordLemmas::detected_no_blanks, crate::proofs::WordLemmas::detected_one_line))]
pub fn write_detect(alloc: Global, list: &[Events]) -> Result<Text, OutOfMemory>
    ensures value { IfOk result (λ text. text ≡ detected_text list.now) }
    ensures no_blanks { IfOk result (λ text. list_any is_blank text ≡ false) }
    ensures one_line { IfOk result (λ text. list_any is_line_feed text ≡ false) }
{
    let mut out = Vec::new(alloc);
    for (place, events) in list.iter().enumerate() {
        if place > 0 {
            out.push(b',')?;
        }
        put_events(&mut out, *events)?;
    }
    Ok(Text::of(out))
}
