//! Which connections are deleted.
ghost use Rattle.std.specs.Prelude.{◌≡◌};
ghost use Rattle.connections.specs.Places.{is_of_call, has_id};
ghost use Rattle.connections.specs.Standing.{is_meant, without};

use crate::connection::Connection;
use crate::identifier::{is_same, names_number};
use mg_bytes::Identifier;

/// Which connections of a line DeleteConnection names (RFC 3435, 2.3.7 and 2.3.9).
#[derive(Drop)]
pub enum Deletion {
    /// All.
    All,
    /// Those of this call.
    OfCall(Identifier),
    /// The one of this call with this identifier.
    One(Identifier, Identifier),
}

pub(crate) fn is_of_call(call: &Identifier, connection: &Connection) -> bool
    ensures { result ≡ is_of_call call.now connection.now }
{
    is_same(&connection.call, call)
}

pub(crate) fn has_id(id: &Identifier, connection: &Connection) -> bool
    ensures { result ≡ has_id id.now connection.now }
{
    names_number(id, connection.number)
}

pub(crate) fn is_meant(deletion: &Deletion, connection: &Connection) -> bool
    ensures { result ≡ is_meant deletion.now connection.now }
{
    match deletion {
        Deletion::All => true,
        Deletion::OfCall(call) => is_of_call(call, connection),
        Deletion::One(call, id) => is_of_call(call, connection) && has_id(id, connection),
    }
}
