//! What a gateway tells of an event that it took.
use endpoint_names::Route;
use gateway_core::{GivenUpCommand, SentMessage, TextOutcome};
use std::net::SocketAddrV4;

/// What a gateway tells of the event that it took last, and where its call agent is.
#[derive(Clone, Copy)]
pub struct Taken<'a> {
    /// What its texts were.
    pub outcomes: &'a [TextOutcome],
    /// What is sent at it, in its order.
    pub sent: &'a [SentMessage],
    /// Its own commands that are given up.
    pub given_up: &'a [GivenUpCommand],
    pub route: &'a Route<SocketAddrV4>,
}
