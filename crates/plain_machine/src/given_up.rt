//! What a gateway gives up.

use mgcp_text::{TransactionId, Verb};

/// A command of the gateway's own that nobody answered, and that was given up (RFC 3435, 4.3): whose it was, where the gateway
/// itself is line 0, its transaction id, its verb, and when that was (in ms).
#[derive(Clone, Copy)]
pub struct GivenUpCommand {
    pub line: u16,
    pub id: TransactionId,
    pub verb: Verb,
    pub moment: u64,
}
