//! Which command a line is to be sent next.
ghost use Rattle.std.specs.Prelude.{◌≡◌};
ghost use Rattle.call_processing.specs.Next.{stands_for, is_ready, created_for, joined_for, standing_for, absent_for, connection_next, request_next, request_or, is_request_first, first_of, next_of};

use crate::asked::{Asked, is_asked, wanted_in};
use crate::command::Command;
use crate::fate::{PutOff, is_of_connection};
use crate::line::{Leg, Line};
use crate::phase::{Part, Phase, Side, talks_in};

// Whether a connection stands for this call.
fn stands_for(call: u64, leg: &Leg) -> bool
    ensures { result ≡ stands_for call leg.now }
{
    match leg {
        Leg::Standing { call: other, .. } => *other == call,
        Leg::Absent | Leg::Unknown { .. } => false,
    }
}

/// Whether the other end of the call can be heard: its connection stands.
pub(crate) fn is_ready(lines: &[Line], part: Option<Part>) -> bool
    ensures { result ≡ is_ready lines.now part }
{
    let Some(part) = part else {
        return false;
    };
    match lines.get(part.other) {
        Some(line) => stands_for(part.call, &line.leg),
        None => false,
    }
}

// CRCX: the caller's connection comes first.
fn created_for(ready: bool, call: u64, side: Side) -> Option<Command>
    ensures { result ≡ created_for ready call side }
{
    match side {
        Side::Caller => Some(Command::Create {
            call,
            joined: false,
        }),
        Side::Called => {
            if ready {
                Some(Command::Create { call, joined: true })
            } else {
                None
            }
        }
    }
}

// MDCX, once the other end's connection stands.
fn joined_for(ready: bool, joined: bool, call: u64) -> Option<Command>
    ensures { result ≡ joined_for ready joined call }
{
    if joined {
        None
    } else if ready {
        Some(Command::Modify { call })
    } else {
        None
    }
}

// What becomes of a connection that stands for this call.
fn standing_for(part: Option<Part>, ready: bool, joined: bool, call: u64) -> Option<Command>
    ensures { result ≡ standing_for part ready joined call }
{
    match part {
        None => Some(Command::Delete { call }),
        Some(part) => {
            if call == part.call {
                joined_for(ready, joined, call)
            } else {
                Some(Command::Delete { call })
            }
        }
    }
}

// What becomes of no connection.
fn absent_for(part: Option<Part>, ready: bool) -> Option<Command>
    ensures { result ≡ absent_for part ready }
{
    match part {
        None => None,
        Some(part) => created_for(ready, part.call, part.side),
    }
}

// The difference in the connection.
fn connection_next(part: Option<Part>, ready: bool, joined: bool, leg: &Leg) -> Option<Command>
    ensures { result ≡ connection_next part ready joined leg.now }
{
    match leg {
        Leg::Absent => absent_for(part, ready),
        Leg::Unknown { call } => Some(Command::Delete { call: *call }),
        Leg::Standing { call, .. } => standing_for(part, ready, joined, *call),
    }
}

// The difference in the request.
fn request_next(wanted: Asked, asked: Option<Asked>) -> Option<Command>
    ensures { result ≡ request_next wanted asked }
{
    if is_asked(wanted, asked) {
        None
    } else {
        Some(Command::Ask(wanted))
    }
}

// Whether the request comes before the connection's command: where that was put off.
fn is_request_first(put_off: Option<PutOff>) -> bool
    ensures { result ≡ is_request_first put_off }
{
    match put_off {
        Some(off) => is_of_connection(off.cause),
        None => false,
    }
}

// The connection's command, or else the request.
fn request_or(connection: Option<Command>, wanted: Asked, asked: Option<Asked>) -> Option<Command>
    ensures { result ≡ request_or connection wanted asked }
{
    match connection {
        Some(command) => Some(command),
        None => request_next(wanted, asked),
    }
}

// Which of both comes first.
fn first_of(
    request_first: bool,
    connection: Option<Command>,
    wanted: Asked,
    asked: Option<Asked>,
) -> Option<Command>
    ensures { result ≡ first_of request_first connection wanted asked }
{
    if !request_first {
        return request_or(connection, wanted, asked);
    }
    match request_next(wanted, asked) {
        Some(command) => Some(command),
        None => connection,
    }
}

/// The first difference between what a line in this phase should be and what its gateway was told: the connection before the
/// request, but behind it once its command was put off. Nothing while a command is in flight.
#[tactic(auto, unfolding(crate::specs::Next::next_of))]
pub(crate) fn next_of(phase: Phase, ready: bool, line: &Line) -> Option<Command>
    ensures { result ≡ next_of phase ready line.now }
{
    if line.flight.is_some() {
        return None;
    }
    first_of(
        is_request_first(line.put_off),
        connection_next(talks_in(phase), ready, line.joined, &line.leg),
        wanted_in(phase),
        line.asked,
    )
}
