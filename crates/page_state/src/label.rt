//! What a gateway tells of a message.

/// What a message is to the gateway: a text of a datagram that came, a message that it sends, or a command that it gives up.
#[derive(Clone, Copy)]
pub enum MessageKind {
    /// What came is no message.
    Unreadable,
    /// A command that came for the first time, and was answered.
    New,
    /// A command that came again, and got its stored answer (RFC 3435, 3.5.1).
    Repeat,
    /// A command that came again, and got nothing, since its answer was confirmed.
    Confirmed,
    /// A command that found no room, and got nothing.
    Lost,
    /// A response that came.
    Response,
    /// An answer that is sent for the first time.
    Answer,
    /// A stored answer that is sent once more.
    Again,
    /// A command of its own that is sent for the first time.
    Command,
    /// A command of its own that is sent once more (RFC 3435, 3.5.3).
    Resent,
    /// The acknowledgement of a response (RFC 3435, 3.5.6).
    Acknowledgement,
    /// A command of its own that is given up, since nobody answered it.
    GivenUp,
}

/// What is told of a message. What it doesn't have isn't there.
#[derive(Clone, Copy)]
pub struct MessageLabel {
    pub kind: MessageKind,
    /// Whose it is among the lines, from 1; 0 is the gateway itself.
    pub line: Option<u64>,
    /// Its transaction id.
    pub id: Option<u64>,
    /// The return code of an answer, or of the one that a command gets.
    pub code: Option<u64>,
    /// Which send of it this is, from 1.
    pub send: Option<u64>,
}
