//! The places of a line's connections, and how connections are found at them.
ghost use Rattle.std.specs.Prelude.{◌≡◌, ◌<◌, IfSome, IfOk, length};
ghost use Rattle.std.specs.List.{list_any};
ghost use Rattle.connections.specs.Places.{is_free, holds_call, holds_id, holds_both, place_where};
ghost use Rattle.connections.specs.Standing.{place_of, is_emptied, refused};

use crate::connection::Connection;
use crate::deletion::{Deletion, has_id, is_meant, is_of_call};
use mg_bytes::{Identifier, ReturnCode};

fn is_free(held: &Option<Connection>) -> bool
    ensures { result ≡ is_free held.now }
{
    held.is_none()
}

fn holds_call(call: &Identifier, held: &Option<Connection>) -> bool
    ensures { result ≡ holds_call call.now held.now }
{
    match held {
        None => false,
        Some(connection) => is_of_call(call, connection),
    }
}

fn holds_id(id: &Identifier, held: &Option<Connection>) -> bool
    ensures { result ≡ holds_id id.now held.now }
{
    match held {
        None => false,
        Some(connection) => has_id(id, connection),
    }
}

fn holds_both(call: &Identifier, id: &Identifier, held: &Option<Connection>) -> bool
    ensures { result ≡ holds_both call.now id.now held.now }
{
    match held {
        None => false,
        Some(connection) => is_of_call(call, connection) && has_id(id, connection),
    }
}

// The least free place.
#[tactic(auto, unfolding(crate::specs::Places::place_from))]
pub(crate) fn free_place(places: &[Option<Connection>]) -> Option<usize>
    ensures place { result ≡ place_where is_free places.now }
    ensures within { IfSome result (λ place. place < length places.now) }
{
    for (place, held) in places.iter().enumerate() {
        if is_free(held) {
            return Some(place);
        }
    }
    None
}

// The place of the connection with this identifier.
#[tactic(auto, unfolding(crate::specs::Places::place_from))]
pub(crate) fn place_with(id: &Identifier, places: &[Option<Connection>]) -> Option<usize>
    ensures place { result ≡ place_where (holds_id id.now) places.now }
    ensures within { IfSome result (λ place. place < length places.now) }
{
    for (place, held) in places.iter().enumerate() {
        if holds_id(id, held) {
            return Some(place);
        }
    }
    None
}

// The place of the connection of this call with this identifier.
#[tactic(auto, unfolding(crate::specs::Places::place_from))]
fn place_in(call: &Identifier, id: &Identifier, places: &[Option<Connection>]) -> Option<usize>
    ensures place { result ≡ place_where (holds_both call.now id.now) places.now }
    ensures within { IfSome result (λ place. place < length places.now) }
{
    for (place, held) in places.iter().enumerate() {
        if holds_both(call, id, held) {
            return Some(place);
        }
    }
    None
}

// Whether a connection of the call stands.
fn has_call(call: &Identifier, places: &[Option<Connection>]) -> bool
    ensures { result ≡ list_any (holds_call call.now) places.now }
{
    for held in places {
        if holds_call(call, held) {
            return true;
        }
    }
    false
}

// The place of the connection of this call with this identifier, or the return code where there is none.
#[tactic(auto, unfolding(crate::specs::Standing::place_of))]
pub(crate) fn place_of(
    call: &Identifier,
    id: &Identifier,
    places: &[Option<Connection>],
) -> Result<usize, u16>
    ensures place { result ≡ place_of call.now id.now places.now }
    ensures within { IfOk result (λ place. place < length places.now) }
{
    if !has_call(call, places) {
        return Err(ReturnCode::UnknownCall.number());
    }
    match place_in(call, id, places) {
        Some(place) => Ok(place),
        None => Err(ReturnCode::IncorrectConnection.number()),
    }
}

// Whether the place holds a connection that is deleted.
pub(crate) fn is_emptied(deletion: &Deletion, held: &Option<Connection>) -> bool
    ensures { result ≡ is_emptied deletion.now held.now }
{
    match held {
        None => false,
        Some(connection) => is_meant(deletion, connection),
    }
}

// The return code by which a deletion is refused.
pub(crate) fn refused(deletion: &Deletion, places: &[Option<Connection>]) -> Option<u16>
    ensures { result ≡ refused deletion.now places.now }
{
    match deletion {
        Deletion::All => None,
        Deletion::OfCall(call) => {
            if has_call(call, places) {
                None
            } else {
                Some(ReturnCode::UnknownCall.number())
            }
        }
        Deletion::One(call, id) => {
            if !has_call(call, places) {
                Some(ReturnCode::UnknownCall.number())
            } else if place_in(call, id, places).is_none() {
                Some(ReturnCode::IncorrectConnection.number())
            } else {
                None
            }
        }
    }
}
