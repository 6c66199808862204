//! What a line was asked for about its events and signals, and what came of that.
ghost use Rattle.std.specs.Prelude.{◌≡◌, codes, true, false, IfOk, IfSome, OnOk};
ghost use Rattle.std.specs.List.{list_any};
ghost use Rattle.mg_bytes.specs.Blanks.{is_blank};
ghost use Rattle.mg_bytes.specs.Lines.{is_line_feed};
ghost use Rattle.mgcp_text.specs.Message.{param_at};
ghost use Rattle.mgcp_text.specs.Writing.{is_writable_param};
ghost use Rattle.packages.specs.Handling.{handling_text};
ghost use Rattle.packages.specs.Observed.{observed_text};
ghost use Rattle.event_syntax.specs.Detect.{detected_text};
ghost use Rattle.event_syntax.specs.Requested.{requested_text};
ghost use Rattle.audits.specs.EndpointReport.{active_text, map_text, event_params};

use crate::word::{of_copy, of_name, of_text};
use event_syntax::{Handling, Notifying, Quarantined, write_observed};
use events_and_signals::ActiveSignal;
use mg_bytes::{OutOfMemory, Text, same_no_case};
use mg_line::Line;
use mgcp_text::Param;
use packages::signal_name;
use std::alloc::Global;

// D: the digit map.
#[tactic(auto, using(crate::proofs::ValueLemmas::map_no_blanks, crate::proofs::ValueLemmas::map_one_line))]
fn map_param(alloc: Global, line: &Line) -> Result<Param<'static>, OutOfMemory>
    ensures value { IfOk result (λ param. param ≡ record { code = codes "D"; value = map_text line.now.digit_map }) }
    ensures writable { IfOk result (λ param. is_writable_param param ≡ true) }
{
    match line.digit_map() {
        None => Ok(of_name(b"D", b"")),
        Some(map) => of_copy(alloc, b"D", map.as_bytes()),
    }
}

// O: the events that it would tell next.
fn observed_param(alloc: Global, line: &Line) -> Result<Param<'static>, OutOfMemory>
    ensures value { IfOk result (λ param. param ≡ record { code = codes "O"; value = observed_text line.now.accumulated }) }
    ensures writable { IfOk result (λ param. is_writable_param param ≡ true) }
{
    let text = write_observed(alloc, line.accumulated())?;
    Ok(of_text(b"O", text))
}

// Q: how quarantined events are handled.
#[tactic(auto, unfolding(packages::specs::Handling::handling_text))]
fn handling_param(handling: Handling) -> Param<'static>
    ensures value { result ≡ record { code = codes "Q"; value = handling_text handling } }
    ensures writable { is_writable_param result ≡ true }
{
    let value: &'static [u8] = match (handling.notifying, handling.quarantined) {
        (Notifying::Step, Quarantined::Process) => b"step,process",
        (Notifying::Step, Quarantined::Discard) => b"step,discard",
        (Notifying::Loop, Quarantined::Process) => b"loop,process",
        (Notifying::Loop, Quarantined::Discard) => b"loop,discard",
    };
    of_name(b"Q", value)
}

// R: the events that are asked for.
fn requested_param(alloc: Global, line: &Line) -> Result<Param<'static>, OutOfMemory>
    ensures value { IfOk result (λ param. param ≡ record { code = codes "R"; value = requested_text line.now.requests.requested }) }
    ensures writable { IfOk result (λ param. is_writable_param param ≡ true) }
{
    let text = line.requests().write_requested(alloc)?;
    Ok(of_text(b"R", text))
}

// The names of the signals that are active.
fn active_text(alloc: Global, signals: &[ActiveSignal]) -> Result<Text, OutOfMemory>
    ensures value { IfOk result (λ text. text ≡ active_text signals.now) }
    ensures no_blanks { IfOk result (λ text. list_any is_blank text ≡ false) }
    ensures one_line { IfOk result (λ text. list_any is_line_feed text ≡ false) }
{
    let mut out = Vec::new(alloc);
    for (place, active) in signals.iter().enumerate() {
        if place > 0 {
            out.push(b',')?;
        }
        out.extend_from_slice(signal_name(active.signal))?;
    }
    Ok(Text::of(out))
}

// S: the signals that are active.
fn active_param(alloc: Global, line: &Line) -> Result<Param<'static>, OutOfMemory>
    ensures value { IfOk result (λ param. param ≡ record { code = codes "S"; value = active_text line.now.signals }) }
    ensures writable { IfOk result (λ param. is_writable_param param ≡ true) }
{
    let signals = line.signals();
    let text = active_text(alloc, signals.as_slice())?;
    Ok(of_text(b"S", text))
}

// T: the events that are looked for.
fn detected_param(alloc: Global, line: &Line) -> Result<Param<'static>, OutOfMemory>
    ensures value { IfOk result (λ param. param ≡ record { code = codes "T"; value = detected_text line.now.requests.detected }) }
    ensures writable { IfOk result (λ param. is_writable_param param ≡ true) }
{
    let text = line.requests().write_detected(alloc)?;
    Ok(of_text(b"T", text))
}

/// What is known under this code of what a line was asked for, and of what came of that. An error is for want of memory only.
pub(crate) fn event_param(
    alloc: Global,
    line: &Line,
    code: &[u8],
) -> Result<Option<Param<'static>>, OutOfMemory>
    ensures value { IfOk result (λ found. found ≡ param_at code.now (event_params line.now)) }
    ensures writable { IfOk result (λ found. IfSome found (λ param. is_writable_param param ≡ true)) }
{
    if same_no_case(b"D", code) {
        return Ok(Some(map_param(alloc, line)?));
    }
    if same_no_case(b"O", code) {
        return Ok(Some(observed_param(alloc, line)?));
    }
    if same_no_case(b"Q", code) {
        return Ok(Some(handling_param(line.handling())));
    }
    if same_no_case(b"R", code) {
        return Ok(Some(requested_param(alloc, line)?));
    }
    if same_no_case(b"S", code) {
        return Ok(Some(active_param(alloc, line)?));
    }
    if same_no_case(b"T", code) {
        return Ok(Some(detected_param(alloc, line)?));
    }
    if same_no_case(b"X", code) {
        return Ok(Some(of_copy(alloc, b"X", line.identifier().as_slice())?));
    }
    Ok(None)
}
