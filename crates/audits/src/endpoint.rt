//! What is audited.
use connections::{Connections, Encoding};
use endpoint_names::Entity;
use mg_line::Line;

/// What is audited of a line (RFC 3435, 2.3.10 and 2.3.11).
#[derive(Clone, Copy)]
pub struct AuditedEndpoint<'s> {
    pub line: &'s Line,
    /// Where its notifications go.
    pub entity: &'s Entity,
    pub encoding: Encoding,
    pub connections: &'s Connections,
}
