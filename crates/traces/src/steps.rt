//! What a gateway shows at the steps of a trace, as a trace has it.
ghost use Rattle.std.specs.Prelude.{◌≡◌, ◌≢◌, ◌≤◌, None, IfOk, MatchOption, MatchResult};
ghost use Rattle.std.specs.List.{flat_map};
ghost use Rattle.plain_machine.specs.Event.{event_of};
ghost use Rattle.rgw_scripts.specs.Moves.{give, ask};
ghost use Rattle.rgw_scripts.specs.Printing.{printed_line, refusal_line, shown_line};
ghost use Rattle.traces.specs.Telling.{told_output, told_text};
ghost use Rattle.traces.specs.Replaying.{move_in, Showed, Plays};

use crate::telling::{put_outputs, put_shown};
use gateway_core::{Event, Gateway, OutDatagram, Outputs, Refusal};
use mg_bytes::{Draft, OutOfMemory};
use rgw_scripts::{LineStatus, ScriptStep, put_line, put_refusal, status_of};
use std::alloc::{AllocError, Global};

// What a trace has of datagrams that go out.
fn sent_text(alloc: Global, datagrams: &[OutDatagram]) -> Result<Vec<u8>, OutOfMemory>
    ensures { IfOk result (λ text. text.items ≡ flat_map told_output datagrams.now) }
{
    let mut text = Draft::new(alloc);
    put_outputs(&mut text, datagrams);
    text.end()
}

// What it has of lines that are printed.
fn shown_text(alloc: Global, printed: &[u8]) -> Result<Vec<u8>, OutOfMemory>
    ensures { IfOk result (λ text. text.items ≡ told_text printed.now) }
{
    let mut text = Draft::new(alloc);
    put_shown(&mut text, printed);
    text.end()
}

// What it has of a refusal.
fn refusal_text(alloc: Global, refusal: Refusal) -> Result<Vec<u8>, OutOfMemory>
    ensures { IfOk result (λ text. text.items ≡ told_text (printed_line (refusal_line refusal))) }
{
    let mut printed = Vec::new(alloc);
    put_refusal(alloc, &mut printed, refusal)?;
    shown_text(alloc, printed.as_slice())
}

// What it has of what a line is.
fn line_text(alloc: Global, status: &LineStatus<'_>) -> Result<Vec<u8>, OutOfMemory>
    ensures { IfOk result (λ text. text.items ≡ told_text (printed_line (shown_line status.now))) }
{
    let mut printed = Vec::new(alloc);
    put_line(alloc, &mut printed, status)?;
    shown_text(alloc, printed.as_slice())
}

// What it has of what the gateway gave at an event.
fn given_text(alloc: Global, given: Result<Outputs, Refusal>) -> Result<Vec<u8>, OutOfMemory>
    ensures { IfOk result (λ text. MatchResult given (λ outputs. text.items ≡ flat_map told_output outputs)
        (λ refusal. (refusal ≢ Refusal.OutOfMemory) × (text.items ≡ told_text (printed_line (refusal_line refusal))))) }
{
    match given {
        Ok(outputs) => sent_text(alloc, outputs.as_slice()),
        Err(Refusal::OutOfMemory) => Err(AllocError),
        Err(refusal) => refusal_text(alloc, refusal),
    }
}

/// Gives a gateway an event: what a trace has of that.
pub(crate) fn event_text(
    alloc: Global,
    gateway: &mut Gateway,
    event: Event<'_>,
) -> Result<Vec<u8>, OutOfMemory>
    ensures { IfOk result (λ text. Showed gateway.old (give (event_of event.entry)) gateway.new text.items) }
{
    let given = gateway.step(event);
    given_text(alloc, given)
}

// What a trace has of the answer to the question what this line is.
fn status_text(alloc: Global, gateway: &Gateway, line: u16) -> Result<Vec<u8>, OutOfMemory>
    requires low { 1 ≤ line }
    requires high { line ≤ gateway.now.setup.names.lines }
    ensures { IfOk result (λ text. Showed gateway.now (ask line) gateway.now text.items) }
{
    let status = status_of(gateway, line);
    line_text(alloc, &status)
}

// What a trace has of the answer to the question what a line is, or that there is none.
fn answer_text(alloc: Global, gateway: &Gateway, line: u16) -> Result<Vec<u8>, OutOfMemory>
    ensures { IfOk result (λ text. Showed gateway.now (ask line) gateway.now text.items) }
{
    if line >= 1 && line <= gateway.lines() {
        return status_text(alloc, gateway, line);
    }
    refusal_text(alloc, Refusal::NoSuchLine)
}

/// Plays a step at a gateway: what a trace has of that; `None` where a trace has no such step, and nothing is done then.
#[tactic(auto, unfolding(crate::specs::Replaying::move_in))]
pub fn shown_by(
    alloc: Global,
    gateway: &mut Gateway,
    step: &ScriptStep,
) -> Result<Option<Vec<u8>>, OutOfMemory>
    ensures { IfOk result (λ shown. MatchOption shown ((move_in step.now ≡ None) × (gateway.new ≡ gateway.old))
        (λ text. Plays (move_in step.now) gateway.old gateway.new text.items)) }
{
    match step {
        ScriptStep::Datagram { source, bytes } => {
            let (source, bytes) = (*source, bytes.as_bytes());
            let event = Event::Datagram { source, bytes };
            Ok(Some(event_text(alloc, gateway, event)?))
        }
        ScriptStep::Phone { line, act } => {
            let (line, act) = (*line, *act);
            Ok(Some(event_text(alloc, gateway, Event::Phone { line, act })?))
        }
        ScriptStep::At { moment } => {
            let moment = *moment;
            Ok(Some(event_text(alloc, gateway, Event::Tick { moment })?))
        }
        ScriptStep::Show { line } => Ok(Some(answer_text(alloc, gateway, *line)?)),
        ScriptStep::Tick { .. } | ScriptStep::Wait { .. } => Ok(None),
    }
}
