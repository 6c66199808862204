//! What a response says to who sent the command.

use endpoint_names::Entity;
use mgcp_text::TransactionId;

/// What a response says to who sent the command (RFC 3435, 3.3): its id, its return code, and whom it names as the entity
/// to notify (RFC 3435, 4.4.6: NotifiedEntity), where it names one that can be read.
#[derive(Clone, Copy)]
pub struct Response {
    pub id: TransactionId,
    pub code: u16,
    pub entity: Option<Entity>,
}
