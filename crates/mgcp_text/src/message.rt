//! What a message is made of (RFC 3435, 3.2 and 3.3), and why a text is none.
ghost use Rattle.std.specs.Prelude.{◌≡◌};

use crate::bytes::Bytes;
use crate::id::TransactionId;
use mg_bytes::{OutOfMemory, Sequence};

/// A parameter: a code and a value (RFC 3435, 3.2.2).
pub struct Param<'a> {
    pub code: Bytes<'a>,
    pub value: Bytes<'a>,
}

// Written out: a derived drop, and those of all its parts, are proved anew by each crate that lets one go.
impl Drop for Param<'_> {
    fn drop(self) {
        let Param { code, value } = self;
        drop(code);
        drop(value);
    }
}

/// Parameters in their order. A contract sees their list.
pub type Params<'a> = Sequence<Param<'a>>;

/// What a command asks for (RFC 3435, 3.2.1.1).
#[derive(Clone, Copy)]
pub enum Verb {
    /// EndpointConfiguration.
    Epcf,
    /// NotificationRequest.
    Rqnt,
    /// Notify.
    Ntfy,
    /// CreateConnection.
    Crcx,
    /// ModifyConnection.
    Mdcx,
    /// DeleteConnection.
    Dlcx,
    /// AuditEndpoint.
    Auep,
    /// AuditConnection.
    Aucx,
    /// RestartInProgress.
    Rsip,
    /// Any other word of four letters or digits.
    Other,
}

/// A message (RFC 3435, 3.2 and 3.3).
#[derive(Drop)]
pub enum Message<'a> {
    /// A command: its verb, transaction id, endpoint name, parameters and description.
    Command {
        verb: Verb,
        id: TransactionId,
        name: Bytes<'a>,
        params: Params<'a>,
        body: Bytes<'a>,
    },
    /// A response: its return code, transaction id, parameters and description.
    Response {
        code: u16,
        id: TransactionId,
        params: Params<'a>,
        body: Bytes<'a>,
    },
}

impl<'a> Message<'a> {
    ghost use Rattle.mgcp_text.specs.Message.{params_in};

    /// Its parameters (RFC 3435, 3.2.2).
    pub fn params(&self) -> &[Param<'a>]
        ensures { result.now ≡ params_in self.now }
    {
        match self {
            Message::Command { params, .. } => params.as_slice(),
            Message::Response { params, .. } => params.as_slice(),
        }
    }
}

/// Why a text is no message.
#[derive(Clone, Copy)]
pub enum TextFault {
    /// Memory was refused.
    OutOfMemory,
    /// It has no header, so there is no transaction to answer.
    NoHeader,
    /// It is a command whose header has this id, and another protocol or version than this gateway's.
    BadVersion { id: TransactionId },
    /// It is a command whose header has this id and lacks words, or a line before the first empty one isn't a parameter.
    BadBody { id: TransactionId },
}

impl TextFault {
    ghost use Rattle.mgcp_text.specs.Message.{number_of};

    /// The fault's number, from 1 in the order in which they are declared.
    pub fn number(&self) -> u8
        ensures { result ≡ number_of self.now }
    {
        match self {
            TextFault::OutOfMemory => 1,
            TextFault::NoHeader => 2,
            TextFault::BadVersion { .. } => 3,
            TextFault::BadBody { .. } => 4,
        }
    }
}

impl From<OutOfMemory> for TextFault {
    ghost use Rattle.std.specs.Prelude.{◌≡◌};
    ghost use Rattle.mgcp_text.specs.declared.message.TextFault.TheVariants as faults;

    ghost from_gives = { λ _ fault. fault ≡ faults.OutOfMemory };

    fn from(_refused: OutOfMemory) -> TextFault {
        TextFault::OutOfMemory
    }
}
