//! The events that a notification tells: the value of O (RFC 3435, 2.3.4).
ghost use Rattle.std.specs.Prelude.{◌≡◌, ◌++◌, true, false, IfOk, OnOk};
ghost use Rattle.std.specs.List.{list_any};
ghost use Rattle.mg_bytes.specs.Blanks.{is_blank};
ghost use Rattle.mg_bytes.specs.Lines.{is_line_feed};
ghost use Rattle.mg_bytes.specs.CodeFault.{AnswersAs, FailsForMemory};
ghost use Rattle.packages.specs.Looking.{package_of, completion_of};
ghost use Rattle.packages.specs.Cuts.{inside_seen, form_of, entries};
ghost use Rattle.packages.specs.Observed.{completes, is_completion, is_timed, tells, happened, ended};
ghost use Rattle.packages.specs.Observed.{observed_with, observed_from, observed_entry, observed_of, completion_name};
ghost use Rattle.packages.specs.Observed.{takes_memory};
ghost use Rattle.packages.specs.Observed.{observed_entry_text, observed_text, are_writable_observed};

use crate::cut::entries;
use crate::event::{LineEvent, completion_of, event_name};
use crate::form::{Inside, form_of};
use crate::naming::event_of;
use crate::package::Package;
use crate::signal::{Kind, Signal, kind_of, signal_name};
use crate::signals::signal_called;
use mg_bytes::{CodeFault, OutOfMemory, ReturnCode, Sequence, Text};
use std::alloc::Global;

/// An event that a line observed.
#[derive(Clone, Copy, PartialEq, Eq)]
pub enum Observed {
    /// This event happened.
    Happened(LineEvent),
    /// This signal ended by its time: `L/oc` or `G/oc`.
    Ended(Signal),
}

// What stands in a place that has no event yet.
impl Default for Observed {
    ghost use Rattle.std.specs.Prelude.{◌≡◌};
    ghost use Rattle.packages.specs.declared.event.LineEvent.TheVariants.{OffHook};
    ghost use Rattle.packages.specs.declared.observed.Observed.TheVariants.{Happened};

    ghost is_default = { λ observed. observed ≡ Happened OffHook };

    fn default() -> Self {
        Observed::Happened(LineEvent::OffHook)
    }
}

fn completes(event: LineEvent, within: Package) -> bool
    ensures { result ≡ completes event within }
{
    match completion_of(within) {
        Some(completion) => event == completion,
        None => false,
    }
}

fn is_completion(event: LineEvent) -> bool
    ensures { result ≡ is_completion event }
{
    completes(event, Package::Line) || completes(event, Package::Generic)
}

fn is_timed(kind: Kind) -> bool
    ensures { result ≡ is_timed kind }
{
    match kind {
        Kind::TimeOut => true,
        Kind::Brief | Kind::OnOff => false,
    }
}

fn tells(event: LineEvent, signal: Signal) -> bool
    ensures { result ≡ tells event signal }
{
    is_timed(kind_of(signal)) && completes(event, signal.package())
}

fn happened(event: LineEvent) -> Result<Observed, u16>
    ensures { result ≡ happened event }
{
    if is_completion(event) {
        Err(ReturnCode::ProtocolError.number())
    } else {
        Ok(Observed::Happened(event))
    }
}

fn ended(event: LineEvent, signal: Signal) -> Result<Observed, u16>
    ensures { result ≡ ended event signal }
{
    if tells(event, signal) {
        Ok(Observed::Ended(signal))
    } else {
        Err(ReturnCode::ProtocolError.number())
    }
}

fn observed_with(event: LineEvent, inside: Inside<'_>) -> Result<Observed, u16>
    ensures { result ≡ observed_with event (inside_seen inside.entry) }
{
    match inside {
        Inside::Nothing => happened(event),
        Inside::Single(name) => ended(event, signal_called(name)?),
        Inside::Double(_, _) => Err(ReturnCode::ProtocolError.number()),
    }
}

fn observed_in_form(entry: &[u8]) -> Result<Observed, u16>
    ensures { result ≡ observed_from (form_of entry.now) }
{
    let Some(form) = form_of(entry) else {
        return Err(ReturnCode::ProtocolError.number());
    };
    let event = event_of(form.head)?;
    observed_with(event, form.inside)
}

#[tactic(auto, unfolding(crate::specs::Observed::observed_entry))]
fn observed_entry(entry: &[u8]) -> Result<Observed, u16>
    ensures { result ≡ observed_entry entry.now }
{
    match observed_in_form(entry) {
        Ok(told) => Ok(told),
        Err(_) => Err(ReturnCode::ProtocolError.number()),
    }
}

/// The value of O (RFC 3435, 2.3.4): events with commas between them, each `[package/]name`; `oc` of a package stands
/// with one of its time-out signals in parentheses, and no other event does. An empty value is an empty list.
///
/// Every fault is the return code 510. An empty value, and a fault at the first event, take no memory.
#[tactic(auto, unfolding(crate::specs::Observed::observed_of))]
pub fn read_observed(alloc: Global, value: &[u8]) -> Result<Sequence<Observed>, CodeFault>
    ensures answers { AnswersAs (observed_of value.now) result }
    // Memory is wanted only where the first event can be read.
    ensures memory { FailsForMemory (takes_memory (entries value.now)) result }
    // What is read can be written.
    ensures writable { IfOk result (λ list. are_writable_observed list ≡ true) }
{
    let mut list = Sequence::new(alloc);
    for entry in entries(value) {
        match observed_entry(entry) {
            Ok(told) => list.push(told)?,
            Err(code) => return Err(CodeFault::Code(code)),
        }
    }
    Ok(list)
}

fn put_completion(out: &mut Vec<u8>, signal: Signal) -> Result<(), OutOfMemory>
    ensures { OnOk result (out.new.items ≡ out.old.items ++ completion_name (completion_of (package_of signal))) }
{
    match completion_of(signal.package()) {
        Some(completion) => out.extend_from_slice(event_name(completion)),
        None => Ok(()),
    }
}

#[tactic(auto, unfolding(crate::specs::Observed::observed_entry_text))]
fn put_observed(out: &mut Vec<u8>, observed: Observed) -> Result<(), OutOfMemory>
    ensures { OnOk result (out.new.items ≡ out.old.items ++ observed_entry_text observed) }
{
    match observed {
        Observed::Happened(event) => out.extend_from_slice(event_name(event)),
        Observed::Ended(signal) => {
            put_completion(out, signal)?;
            out.push(b'(')?;
            out.extend_from_slice(signal_name(signal))?;
            out.extend_from_slice(b")")
        }
    }
}

/// The written form of O (RFC 3435, 2.3.4): the events with commas between them and nothing blank, each with its package;
/// the end of a signal as `L/oc(L/dl)`. It is one word. An error is for want of memory only.
pub fn write_observed(alloc: Global, list: &[Observed]) -> Result<Text, OutOfMemory>
    ensures value { IfOk result (λ text. text ≡ observed_text list.now) }
    ensures no_blanks { IfOk result (λ text. list_any is_blank text ≡ false) }
    ensures one_line { IfOk result (λ text. list_any is_line_feed text ≡ false) }
{
    let mut out = Vec::new(alloc);
    for (place, told) in list.iter().enumerate() {
        if place > 0 {
            out.push(b',')?;
        }
        put_observed(&mut out, *told)?;
    }
    Ok(Text::of(out))
}
