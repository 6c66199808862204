//! What is done with a message at its due moment.

/// What is done with a message that is in flight, where something is due (RFC 3435, 3.5.3 and 4.3).
#[derive(Clone, Copy)]
pub enum Repeat {
    /// It is sent again, to the address of its route that is next.
    Sent,
    /// It was sent often or long enough: it isn't sent any more.
    GivenUp,
}
