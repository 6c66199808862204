//! What a text was that came in a datagram.

use command_forms::FaultyPart;
use mgcp_text::{TransactionId, Verb};

/// What a command gets that came in a datagram (RFC 3435, 3.5.1).
#[derive(Clone, Copy)]
pub enum Reply {
    /// It was new: an answer with this return code (RFC 3435, 2.4), and what of it is at fault first, where it is refused for its form.
    /// Where what stands at a line refuses it, the code alone says why; so it does of one that can't be read past its id.
    First {
        code: u16,
        fault: Option<FaultyPart>,
    },
    /// It was a repeat: its stored answer once more, which has this return code.
    Again {
        code: u16,
    },
    /// It was a repeat whose answer was confirmed: silence.
    Silence,
    /// It was new, and is lost: there was no room for another transaction, so it gets nothing (this gateway's profile).
    NoRoom,
}

/// What a text was that came in a datagram (RFC 3435, 3.2, 3.3 and 3.5).
#[derive(Clone, Copy)]
pub enum TextOutcome {
    /// No message: it has no header, and nothing was done.
    NoMessage,
    /// A command with this transaction id; its verb, where it could be read past its id.
    Command {
        verb: Option<Verb>,
        id: TransactionId,
        reply: Reply,
    },
    /// A response to the command with this transaction id, and whether it was acknowledged by 000 (RFC 3435, 3.5.6).
    Response {
        id: TransactionId,
        is_acknowledged: bool,
    },
}
