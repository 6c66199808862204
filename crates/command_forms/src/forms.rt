//! What commands ask for.
ghost use Rattle.std.specs.Prelude.{◌≡◌};
ghost use Rattle.command_forms.specs.Meaning.{is_for};

use crate::boxed_deed::BoxedDeed;
use connections::{Change, Creation, Deletion, Encoding};
use endpoint_names::Entity;
use events_and_signals::Request;
use mg_bytes::Identifier;
use mgcp_text::Bytes;

/// The lines that a command is for.
#[derive(Clone, Copy, PartialEq, Eq)]
pub enum Target {
    /// The line with this number, from 1.
    One(u16),
    /// All lines.
    All,
    /// Any one line, which the gateway chooses.
    Any,
}

impl Target {
    /// Whether the line with this number is among them. What is for any one line names none: it is for the line that is
    /// chosen.
    pub fn is_for(self, line: u16) -> bool
        ensures { result ≡ is_for self line }
    {
        match self {
            Target::One(number) => number == line,
            Target::All => true,
            Target::Any => false,
        }
    }
}

/// The lines that an audit is for. No audit is for any one line.
#[derive(Clone, Copy, PartialEq, Eq)]
pub enum AuditTarget {
    /// The line with this number, from 1.
    One(u16),
    /// All lines.
    All,
}

/// What is to be reported (RFC 3435, 2.3.10 and 2.3.11).
#[derive(Drop)]
pub struct Audit<'m> {
    /// The value of F, items with commas between them. It is empty where F is absent, since an empty F is no F.
    pub items: Bytes<'m>,
    /// The connection whose report it is, as it was given (I); `None` for a report of the endpoint itself.
    pub connection: Option<Identifier>,
}

/// What becomes of the connections of a line.
#[derive(Drop)]
pub enum ConnectionDeed {
    /// They stay as they are: EndpointConfiguration and NotificationRequest (RFC 3435, 2.3.2 and 2.3.3).
    Keep,
    /// One more is created (RFC 3435, 2.3.5).
    Create(Creation),
    /// That of this call with this identifier is modified (RFC 3435, 2.3.6).
    Modify {
        call: Identifier,
        id: Identifier,
        change: Change,
    },
    /// All, those of a call, or one of them is deleted (RFC 3435, 2.3.7 and 2.3.9).
    Delete(Deletion),
}

/// What is to be done on lines.
#[derive(Drop)]
pub struct Deed {
    /// The entity that is to be notified from now on (N), where one is said.
    pub entity: Option<Entity>,
    /// The encoding of the line from now on (B), where one is said.
    pub encoding: Option<Encoding>,
    /// What becomes of its connections.
    pub connections: ConnectionDeed,
    /// What is requested (RFC 3435, 2.3.3), where X stands in the command.
    pub request: Option<Request>,
}

/// What a command asks for. A new verb changes what a report or a deed holds, and adds no third. An audit keeps no room for
/// a deed.
#[derive(Drop)]
pub enum Asks<'m> {
    /// A report of these lines, or of a connection of one, which changes nothing: AuditEndpoint and AuditConnection
    /// (RFC 3435, 2.3.10 and 2.3.11).
    Reports(AuditTarget, Audit<'m>),
    /// A deed on these lines: EndpointConfiguration, NotificationRequest, CreateConnection, ModifyConnection and
    /// DeleteConnection (RFC 3435, 2.3.2, 2.3.3, 2.3.5 to 2.3.7 and 2.3.9).
    Does(Target, BoxedDeed),
}
