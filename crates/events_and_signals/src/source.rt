//! Where the entries of R and T come from. Copies share them.

use event_syntax::{DetectedEvents, Embedding, RequestedEvents};
use std::rc::Rc;

/// R: that of a command, or that of the embedded request that stands.
#[derive(Drop)]
pub(crate) enum Requested {
    Nothing,
    Command(Rc<RequestedEvents>),
    Embedded(Embedding),
}

/// T: that of a command.
#[derive(Drop)]
pub(crate) enum Detected {
    Nothing,
    Command(Rc<DetectedEvents>),
}
