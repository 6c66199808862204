//! Commands to a line, and what becomes of them.
ghost use Rattle.std.specs.Prelude.{◌≡◌};
ghost use Rattle.call_processing.specs.Parameters.{verb_of};

use crate::asked::Asked;
use mg_bytes::{Identifier, Text};

/// A command to a line.
#[derive(Clone, Copy)]
pub enum Command {
    /// RQNT: the line is asked for this (RFC 3435, 2.3.3).
    Ask(Asked),
    /// CRCX: a connection for this call (RFC 3435, 2.3.5). It is joined where it is given the description of the other end.
    Create { call: u64, joined: bool },
    /// MDCX: the connection for this call is given the description of the other end (RFC 3435, 2.3.6).
    Modify { call: u64 },
    /// DLCX: no connection for this call any more (RFC 3435, 2.3.7).
    Delete { call: u64 },
}

impl Command {
    /// Its verb (RFC 3435, 3.2.1.1).
    pub fn verb(self) -> &'static [u8]
        ensures { result.now ≡ verb_of self }
    {
        match self {
            Command::Ask(_) => b"RQNT",
            Command::Create { .. } => b"CRCX",
            Command::Modify { .. } => b"MDCX",
            Command::Delete { .. } => b"DLCX",
        }
    }
}

/// What became of a command.
#[derive(Drop)]
pub enum Outcome {
    /// CRCX was accepted: the connection that stands now, and its description.
    Created {
        connection: Identifier,
        description: Text,
    },
    /// The command was answered by this return code. Of CRCX that is a refusal; or else the answer doesn't say which connection
    /// it made.
    Answered(u16),
    /// It was given up, or never went out.
    GivenUp,
}
