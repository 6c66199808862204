//! What commands are sent under.

use crate::command_number::CommandNumber;
use endpoint_names::Entity;
use retransmission::{Pending, Restart};

/// What a line, or the gateway itself, sends its commands under.
#[derive(Drop)]
pub struct Post {
    /// The entity that it reports to, its notified entity (RFC 3435, 2.1.4).
    pub entity: Entity,
    /// The number of the next command that it sends.
    pub number: CommandNumber,
    /// Its command that is in flight: sent, and neither answered nor given up (RFC 3435, 3.5).
    pub pending: Option<Pending>,
    /// Where its announcement is: whether it waits, is in flight, or was answered (RFC 3435, 4.4.6 and 4.4.7).
    pub restart: Restart,
}
