//! What a notification request asks of a line.
use crate::event_request::EventRequest;
use digit_map::MapChange;
use event_syntax::{Handling, SignalRequests};
use mg_bytes::Identifier;

/// A notification request (RFC 3435, 2.3.3).
#[derive(Drop)]
pub struct Request {
    /// Its identifier as it was given (X), which the notifications carry.
    pub identifier: Identifier,
    /// The events that are asked for (R), and those to look for while a notification isn't answered (T): none where these
    /// are empty or absent.
    pub events: EventRequest,
    /// The signals that are asked for (S), none where S is empty or absent.
    pub signals: SignalRequests,
    /// How quarantined events are handled (Q): step and process where Q is absent.
    pub handling: Handling,
    /// What it does with the digit map (D).
    pub map: MapChange,
}
