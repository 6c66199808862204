//! What names and forms are read with.

use crate::table::Table;
use mg_bytes::Text;

/// What a gateway knows of names: its own domain, its lines, and the configured hosts (RFC 3435, 2.1.2 and 2.1.4).
#[derive(Drop)]
pub struct Names {
    /// The domain of its endpoints.
    pub domain: Text,
    /// How many lines it has.
    pub lines: u16,
    /// The hosts that call agents are named by.
    pub table: Table,
}
