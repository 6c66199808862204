//! What a history tells of a command.

use mg_bytes::Text;

/// What a command is that arrives (RFC 3435, 3.5.1).
#[derive(Clone, Copy)]
pub enum Look<'a> {
    /// It is to be executed.
    New,
    /// It was executed, and gets this answer again.
    Repeat(&'a Text),
    /// It was executed and its answer confirmed: it gets none.
    Confirmed,
    /// It is lost: there is no room for another transaction (this gateway's profile).
    Full,
}
