//! What commands answer.
use crate::connection::Connection;
use sdp_subset::Session;

/// What CreateConnection answers (RFC 3435, 2.3.5).
#[derive(Drop)]
pub struct Created {
    /// The number of the connection.
    pub number: u32,
    /// Its local description.
    pub description: Session,
}

/// What AuditConnection can tell (RFC 3435, 2.3.11).
#[derive(Drop)]
pub struct Audited {
    /// The connection as it stands.
    pub connection: Connection,
    /// Its local description.
    pub description: Session,
}
