//! The endpoints of a gateway, one for each line.

use crate::post::Post;
use connections::{Connections, Encoding};
use mg_line::Line;

/// A line, and what the gateway keeps for it.
#[derive(Drop)]
pub struct Endpoint {
    pub line: Line,
    pub post: Post,
    /// The encoding of its voice (RFC 3435, 2.3.2), by which codecs are chosen where a command names none.
    pub encoding: Encoding,
    /// Its connections (RFC 3435, 2.1.3).
    pub connections: Connections,
}
