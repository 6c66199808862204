//! What a final response to a command of the exchange says became of it.
ghost use Rattle.std.specs.Prelude.{◌≡◌, true, IfOk, OnErr};
ghost use Rattle.mgcp_text.specs.Reading.{read_text};
ghost use Rattle.line_control.specs.Responses.{connection_in, created, created_by, is_creation, outcome_by};

use agent_config::copied;
use call_processing::{Command, Outcome};
use mg_bytes::{Identifier, OutOfMemory};
use mgcp_text::{Message, Param, TextFault, param_at, read_message};
use std::alloc::{AllocError, Global};

// The connection that an answer names.
fn connection_in(params: &[Param<'_>]) -> Option<Identifier>
    ensures { result ≡ connection_in params.now }
{
    match param_at(b"I", params) {
        Some(param) => Identifier::of(param.value.as_slice()),
        None => None,
    }
}

// What a CRCX created, where its answer has this body; the code alone where it names no connection, or describes none.
fn created(
    alloc: Global,
    code: u16,
    connection: Option<Identifier>,
    body: &[u8],
) -> Result<Outcome, OutOfMemory>
    ensures { IfOk result (λ outcome. outcome ≡ created code connection body.now) }
{
    let Some(connection) = connection else {
        return Ok(Outcome::Answered(code));
    };
    if body.is_empty() {
        return Ok(Outcome::Answered(code));
    }
    Ok(Outcome::Created {
        connection,
        description: copied(alloc, body)?,
    })
}

// What the answer to a CRCX says. One that can't be read counts as given up: then the connection is deleted again.
fn creation(alloc: Global, code: u16, text: &[u8]) -> Result<Outcome, OutOfMemory>
    ensures { IfOk result (λ outcome. outcome ≡ created_by code (read_text text.now)) }
{
    match read_message(alloc, text) {
        Err(TextFault::OutOfMemory) => Err(AllocError),
        Err(TextFault::NoHeader | TextFault::BadVersion { .. } | TextFault::BadBody { .. }) => Ok(
            Outcome::GivenUp,
        ),
        Ok(Message::Response { params, body, .. }) => created(
            alloc,
            code,
            connection_in(params.as_slice()),
            body.as_slice(),
        ),
        Ok(Message::Command { .. }) => Ok(Outcome::Answered(code)),
    }
}

// Whether an answer with this code says what the command in flight created.
fn is_creation(code: u16, flight: Option<Command>) -> bool
    ensures { result ≡ is_creation code flight }
{
    if code < 300 {
        match flight {
            Some(Command::Create { .. }) => true,
            Some(Command::Ask(_) | Command::Modify { .. } | Command::Delete { .. }) | None => false,
        }
    } else {
        false
    }
}

/// What this final response with this code says became of the command in flight. Memory is wanted for what was created alone.
pub(crate) fn outcome_of(
    alloc: Global,
    code: u16,
    flight: Option<Command>,
    text: &[u8],
) -> Result<Outcome, OutOfMemory>
    ensures outcome { IfOk result (λ outcome. outcome ≡ outcome_by code flight text.now) }
    ensures memory { OnErr result (is_creation code flight ≡ true) }
{
    if is_creation(code, flight) {
        creation(alloc, code, text)
    } else {
        Ok(Outcome::Answered(code))
    }
}
