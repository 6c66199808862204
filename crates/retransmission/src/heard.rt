//! What a response is to what is in flight.
use endpoint_names::Entity;

/// What a response is to what the gateway or a line has in flight (RFC 3435, 2.3.12 and 2.4).
#[derive(Clone, Copy)]
pub enum Heard {
    /// It says nothing.
    Nothing,
    /// It says that an answer will come: what is due is put off.
    PutOff,
    /// It isn't the answer: the announcement is sent anew at once, to this entity.
    Redirected(Entity),
    /// It is the answer. That to an announcement may name an entity, to which notifications go from now on.
    Answered(Option<Entity>),
}
