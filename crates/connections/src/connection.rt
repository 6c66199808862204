//! A connection: what it is made of, and what becomes of it.
ghost use Rattle.std.specs.Prelude.{◌≡◌, IfOk};
ghost use Rattle.connections.specs.Connection.{local_list, list_in_force, agreed, can_be, begun, is_changed};
ghost use Rattle.connections.specs.Connection.{given_or, remote_or, renewed, renewed_to};

use crate::codec::{Codecs, Encoding, are_same_codecs, codecs_by, offered_of};
use crate::mode::{Mode, sends};
use crate::options::{CodecChoice, Options};
use mg_bytes::{Identifier, ReturnCode};
use sdp_subset::Session;

/// The codecs of a connection.
#[derive(Clone, Copy)]
pub struct Agreement {
    /// The local list, by the options and the encoding when the connection was created or last modified.
    pub local: Codecs,
    /// The list in force: those of the local list that the remote description offers.
    pub in_force: Codecs,
}

/// A connection of a line (RFC 3435, 2.1.3).
#[derive(Drop)]
pub struct Connection {
    /// Its call, as spelled when it was created.
    pub call: Identifier,
    /// Its number, from 1.
    pub number: u32,
    /// Its mode.
    pub mode: Mode,
    /// What was asked for.
    pub options: Options,
    /// Its codecs.
    pub codecs: Agreement,
    /// The remote description, once it is known.
    pub remote: Option<Session>,
    /// The version of the local description, from 1.
    pub version: u32,
}

/// What CreateConnection says of the connection (RFC 3435, 2.3.5).
#[derive(Drop)]
pub struct Creation {
    pub call: Identifier,
    pub mode: Mode,
    pub options: Options,
    pub remote: Option<Session>,
}

/// What ModifyConnection gives (RFC 3435, 2.3.6); what it doesn't give stays.
#[derive(Drop)]
pub struct Change {
    pub mode: Option<Mode>,
    pub options: Option<Options>,
    pub remote: Option<Session>,
}

// An equal description, if there is one. It takes no memory.
pub(crate) fn copy_of(remote: &Option<Session>) -> Option<Session>
    ensures { result ≡ remote.now }
{
    match remote {
        None => None,
        Some(session) => Some(session.copy()),
    }
}

impl Creation {
    /// An equal creation. It takes no memory.
    pub fn copy(&self) -> Creation
        ensures { result ≡ self.now }
    {
        Creation {
            call: self.call.copy(),
            mode: self.mode,
            options: self.options,
            remote: copy_of(&self.remote),
        }
    }
}

impl Change {
    /// An equal change. It takes no memory.
    pub fn copy(&self) -> Change
        ensures { result ≡ self.now }
    {
        Change {
            mode: self.mode,
            options: self.options,
            remote: copy_of(&self.remote),
        }
    }
}

impl Connection {
    /// An equal connection. It takes no memory.
    pub(crate) fn copy(&self) -> Connection
        ensures { result ≡ self.now }
    {
        Connection {
            call: self.call.copy(),
            number: self.number,
            mode: self.mode,
            options: self.options,
            codecs: self.codecs,
            remote: copy_of(&self.remote),
            version: self.version,
        }
    }
}

fn local_list(choice: CodecChoice, encoding: Encoding) -> Option<Codecs>
    ensures { result ≡ local_list choice encoding }
{
    match choice {
        CodecChoice::ByEncoding => Some(codecs_by(encoding)),
        CodecChoice::NoneKnown => None,
        CodecChoice::These(codecs) => Some(codecs),
    }
}

fn list_in_force(codecs: Codecs, remote: &Option<Session>) -> Option<Codecs>
    ensures { result ≡ list_in_force codecs remote.now }
{
    match remote {
        None => Some(codecs),
        Some(session) => offered_of(session.payloads.as_slice(), codecs),
    }
}

fn agreed(choice: CodecChoice, encoding: Encoding, remote: &Option<Session>) -> Option<Agreement>
    ensures { result ≡ agreed choice encoding remote.now }
{
    let local = local_list(choice, encoding)?;
    let in_force = list_in_force(local, remote)?;
    Some(Agreement { local, in_force })
}

fn can_be(mode: Mode, remote: &Option<Session>) -> bool
    ensures { result ≡ can_be mode remote.now }
{
    !sends(mode) || remote.is_some()
}

// The connection with this number, or the return code by which it is refused.
#[tactic(auto, unfolding(crate::specs::Connection::begun))]
pub(crate) fn begun(encoding: Encoding, creation: &Creation, number: u32) -> Result<Connection, u16>
    ensures begun { result ≡ begun encoding creation.now number }
    ensures numbered { IfOk result (λ connection. connection.number ≡ number) }
{
    let Some(codecs) = agreed(creation.options.codecs, encoding, &creation.remote) else {
        return Err(ReturnCode::CodecNegotiationFailure.number());
    };
    if !can_be(creation.mode, &creation.remote) {
        return Err(ReturnCode::MissingRemoteDescription.number());
    }
    Ok(Connection {
        call: creation.call.copy(),
        number,
        mode: creation.mode,
        options: creation.options,
        codecs,
        remote: copy_of(&creation.remote),
        version: 1,
    })
}

// Whether the local description isn't what it was.
pub(crate) fn is_changed(was: &Connection, options: Options, codecs: Agreement) -> bool
    ensures { result ≡ is_changed was.now options codecs }
{
    !(are_same_codecs(was.codecs.in_force, codecs.in_force)
        && was.options.packet_time == options.packet_time)
}

fn remote_or(given: &Option<Session>, was: &Option<Session>) -> Option<Session>
    ensures { result ≡ remote_or given.now was.now }
{
    match given {
        Some(remote) => Some(remote.copy()),
        None => copy_of(was),
    }
}

#[tactic(auto)]
fn renewed_to(
    encoding: Encoding,
    was: &Connection,
    mode: Mode,
    options: Options,
    remote: Option<Session>,
) -> Result<Connection, u16>
    ensures { result ≡ renewed_to encoding was.now mode options remote }
{
    let Some(codecs) = agreed(options.codecs, encoding, &remote) else {
        return Err(ReturnCode::CodecNegotiationFailure.number());
    };
    if !can_be(mode, &remote) {
        return Err(ReturnCode::MissingRemoteDescription.number());
    }
    let mut version = was.version;
    if is_changed(was, options, codecs) {
        if version == u32::MAX {
            return Err(ReturnCode::InsufficientResources.number());
        }
        version += 1;
    }
    Ok(Connection {
        call: was.call.copy(),
        number: was.number,
        mode,
        options,
        codecs,
        remote,
        version,
    })
}

// What the connection becomes, or the return code by which that is refused.
#[tactic(auto, unfolding(crate::specs::Connection::renewed))]
pub(crate) fn renewed(
    encoding: Encoding,
    change: &Change,
    was: &Connection,
) -> Result<Connection, u16>
    ensures { result ≡ renewed encoding change.now was.now }
{
    renewed_to(
        encoding,
        was,
        change.mode.unwrap_or(was.mode),
        change.options.unwrap_or(was.options),
        remote_or(&change.remote, &was.remote),
    )
}
