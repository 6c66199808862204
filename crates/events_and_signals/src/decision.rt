//! What is done at an event.

use event_syntax::{Action, Embedding};

/// What is done with an event (RFC 3435, 2.3.3).
#[derive(Clone, Copy)]
pub enum Doing<'a> {
    /// This action; `Ignore` is nothing.
    Plain(Action),
    /// This embedded request takes effect.
    Embed(&'a Embedding),
    /// The event is accumulated, and then this embedded request takes effect.
    AccumulateAndEmbed(&'a Embedding),
}

/// What is done at an event (RFC 3435, 4.4.1).
#[derive(Clone, Copy)]
pub struct Decision<'a> {
    pub doing: Doing<'a>,
    /// Whether the active time-out signals go on: `K`.
    pub keep: bool,
}
