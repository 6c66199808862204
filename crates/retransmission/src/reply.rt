//! What a response is to a message.

/// What a response is to a message that is in flight (RFC 3435, 2.4 and 3.5.6).
#[derive(Clone, Copy)]
pub enum Reply {
    /// It is its answer: its return code is from 200 to 999.
    Answered,
    /// It says that an answer will come: its return code is from 100 to 199.
    Provisional,
    /// It has another id, or another return code, and says nothing.
    Stranger,
}
