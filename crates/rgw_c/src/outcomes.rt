//! What is told of what came at the last event, and of what was given up at it.
ghost use Rattle.std.specs.Prelude.{◌≡◌, ◌≢◌, slice_get, IfSome};
ghost use Rattle.rgw_c.specs.Outcomes.{verb_read, fault_number, fault_place, command_with, command_told, no_command, outcome_of};
ghost use Rattle.rgw_c.specs.Outcomes.{outcome_at, outcome_number};
ghost use Rattle.rgw_c.specs.Outcomes.{given_up_of, given_up_at, given_up_number};
ghost use Rattle.rgw_c.specs.Telling.{found_number};

use crate::account::verb_number;
use crate::handle::{Handle, put, take};
use crate::numbers::{NO_SUCH_PLACE, NOT_OPEN, OK};
use crate::structs::{GivenUpTold, OutcomeTold};
use command_forms::FaultyPart;
use gateway_core::{GivenUpCommand, Reply, TextOutcome};
use mgcp_text::{TransactionId, Verb};
use std::alloc::Global;

fn verb_read(verb: Option<Verb>) -> u16
    ensures { result ≡ verb_read verb }
{
    match verb {
        Some(verb) => verb_number(verb),
        None => 0,
    }
}

// What of a command is at fault, and which line or parameter that is.
fn fault_numbers(at: Option<FaultyPart>) -> (u16, u64)
    ensures fault { result.0 ≡ fault_number at }
    ensures place { result.1 ≡ fault_place at }
{
    match at {
        None => (0, 0),
        Some(FaultyPart::Verb) => (1, 0),
        Some(FaultyPart::Name) => (2, 0),
        Some(FaultyPart::Line(number)) => (3, number as u64),
        Some(FaultyPart::Missing(letter)) => (4, u64::from(letter)),
        Some(FaultyPart::Value(letter)) => (5, u64::from(letter)),
        Some(FaultyPart::Description) => (6, 0),
    }
}

// A command, what it got, the return code of its answer, and what of it is at fault.
fn command_with(
    verb: Option<Verb>,
    id: TransactionId,
    got: u16,
    code: u16,
    at: Option<FaultyPart>,
) -> OutcomeTold
    ensures { result ≡ command_with verb id got code at }
{
    let verb = verb_read(verb);
    let (fault, place) = fault_numbers(at);
    OutcomeTold {
        place,
        id: id.number(),
        came: 2,
        verb,
        got,
        code,
        fault,
    }
}

// A command, by what it got.
fn command_told(verb: Option<Verb>, id: TransactionId, reply: Reply) -> OutcomeTold
    ensures { result ≡ command_told verb id reply }
{
    match reply {
        Reply::First { code, fault } => command_with(verb, id, 1, code, fault),
        Reply::Again { code } => command_with(verb, id, 2, code, None),
        Reply::Silence => command_with(verb, id, 3, 0, None),
        Reply::NoRoom => command_with(verb, id, 4, 0, None),
    }
}

// A text that is no command, and what it got.
fn no_command(came: u16, got: u16) -> OutcomeTold
    ensures { result ≡ no_command came got }
{
    OutcomeTold {
        place: 0,
        id: 0,
        came,
        verb: 0,
        got,
        code: 0,
        fault: 0,
    }
}

fn outcome_of(outcome: TextOutcome) -> OutcomeTold
    ensures { result ≡ outcome_of outcome }
{
    match outcome {
        TextOutcome::NoMessage => no_command(1, 0),
        TextOutcome::Command { verb, id, reply } => command_told(verb, id, reply),
        TextOutcome::Response {
            is_acknowledged: false,
            ..
        } => no_command(3, 0),
        TextOutcome::Response {
            is_acknowledged: true,
            ..
        } => no_command(3, 5),
    }
}

// Tells what a text of these was, if there is one at the index.
fn tell_outcome(outcomes: &[TextOutcome], index: usize, outcome: &mut OutcomeTold) -> u32
    ensures number { result ≡ found_number (slice_get outcomes.now index) }
    ensures outcome { IfSome (slice_get outcomes.now index) (λ found. outcome.new ≡ outcome_of found) }
    ensures left { result ≢ OK → outcome.new ≡ outcome.old }
{
    match outcomes.get(index) {
        Some(found) => {
            *outcome = outcome_of(*found);
            OK
        }
        None => NO_SUCH_PLACE,
    }
}

/// What a text was of the datagram that the last event was that was taken, by its index from 0, in their order, and what it got. Where
/// that was an act or a tick, or its datagram was too long, there is none.
#[unsafe(no_mangle)]
pub extern "C" fn rgw_outcome_nonnull(
    alloc: Global,
    handle: &mut Handle,
    index: usize,
    outcome: &mut OutcomeTold,
) -> u32
    ensures number { result ≡ outcome_number handle.old.held index }
    ensures outcome { IfSome (outcome_at handle.old.held index) (λ found. outcome.new ≡ outcome_of found) }
    ensures left { result ≢ OK → outcome.new ≡ outcome.old }
    ensures kept { handle.new.held ≡ handle.old.held }
{
    let Some(instance) = take(handle, alloc) else {
        return NOT_OPEN;
    };
    let number = tell_outcome(instance.gateway.outcomes(), index, outcome);
    put(handle, alloc, instance);
    number
}

// Tells a command of these, if there is one at the index.
fn tell_given_up(commands: &[GivenUpCommand], index: usize, command: &mut GivenUpTold) -> u32
    ensures number { result ≡ found_number (slice_get commands.now index) }
    ensures command { IfSome (slice_get commands.now index) (λ found. command.new ≡ given_up_of found) }
    ensures left { result ≢ OK → command.new ≡ command.old }
{
    match commands.get(index) {
        Some(found) => {
            *command = GivenUpTold {
                moment: found.moment,
                id: found.id.number(),
                line: found.line,
                verb: verb_number(found.verb),
            };
            OK
        }
        None => NO_SUCH_PLACE,
    }
}

/// A command of the gateway's own that was given up at the last event that was taken, since nobody answered it, by its index from 0, in
/// their order.
#[unsafe(no_mangle)]
pub extern "C" fn rgw_given_up_nonnull(
    alloc: Global,
    handle: &mut Handle,
    index: usize,
    command: &mut GivenUpTold,
) -> u32
    ensures number { result ≡ given_up_number handle.old.held index }
    ensures command { IfSome (given_up_at handle.old.held index) (λ found. command.new ≡ given_up_of found) }
    ensures left { result ≢ OK → command.new ≡ command.old }
    ensures kept { handle.new.held ≡ handle.old.held }
{
    let Some(instance) = take(handle, alloc) else {
        return NOT_OPEN;
    };
    let number = tell_given_up(instance.gateway.given_up(), index, command);
    put(handle, alloc, instance);
    number
}
