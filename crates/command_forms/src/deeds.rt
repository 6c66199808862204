//! What is to be done on a line: each value, with its place.
ghost use Rattle.std.specs.Prelude.{◌≡◌, codes};
ghost use Rattle.mgcp_text.specs.Message.{param_at};
ghost use Rattle.command_forms.specs.Refusing.{StopsAs};
ghost use Rattle.command_forms.specs.Deeds.{events_of, request_of, request_at, creation_of, modification_of, deletion_by};
ghost use Rattle.command_forms.specs.Deeds.{deletion_of, connected_by, with_remote, deed_of};

use crate::boxed_deed::BoxedDeed;
use crate::forms::{ConnectionDeed, Deed};
use crate::params::value_at;
use crate::refused::FaultyPart::{Description, Value};
use crate::refused::{Stop, placed};
use crate::values::{
    change_at, encoding_at, entity_at, handling_at, identifier_at, identifier_from, mode_at,
    mode_from, options_at, remote_of,
};
use crate::verbs::Connecting;
use connections::{Change, Creation, Deletion, Options};
use endpoint_names::Table;
use event_syntax::{read_detect, read_events, read_signals};
use events_and_signals::{EventRequest, Request};
use mg_bytes::Identifier;
use mgcp_text::{Param, param_at};
use sdp_subset::Session;
use std::alloc::Global;

// What is asked for about events, by R and T. An absent or empty T isn't read, and takes no room.
#[tactic(auto, unfolding(crate::specs::Deeds::events_of))]
fn events_of(alloc: Global, params: &[Param<'_>]) -> Result<EventRequest, Stop>
    ensures { StopsAs (events_of params.now) result }
{
    let requested = placed(Value(b'R'), read_events(alloc, value_at(b"R", params)))?;
    let value = value_at(b"T", params);
    if value.is_empty() {
        return Ok(EventRequest::requesting(alloc, requested)?);
    }
    let detected = placed(Value(b'T'), read_detect(value))?;
    Ok(EventRequest::of(alloc, requested, detected)?)
}

// What is requested with this identifier, by Q, D, R, T and S.
#[tactic(auto, unfolding(crate::specs::Deeds::request_of))]
fn request_of(alloc: Global, value: &[u8], params: &[Param<'_>]) -> Result<Request, Stop>
    ensures { StopsAs (request_of value.now params.now) result }
{
    let identifier = placed(Value(b'X'), identifier_from(value))?;
    let handling = placed(Value(b'Q'), handling_at(params))?;
    let map = placed(Value(b'D'), change_at(alloc, params))?;
    let events = events_of(alloc, params)?;
    let signals = placed(Value(b'S'), read_signals(value_at(b"S", params)))?;
    Ok(Request {
        identifier,
        events,
        signals,
        handling,
        map,
    })
}

// The request, where X stands there.
fn request_at(alloc: Global, params: &[Param<'_>]) -> Result<Option<Request>, Stop>
    ensures { StopsAs (request_at (param_at (codes "X") params.now) params.now) result }
{
    let Some(param) = param_at(b"X", params) else {
        return Ok(None);
    };
    Ok(Some(request_of(alloc, param.value.as_slice(), params)?))
}

// The connection that is created by C, M and L.
#[tactic(auto, unfolding(crate::specs::Deeds::creation_of))]
fn creation_of(params: &[Param<'_>]) -> Result<Creation, Stop>
    ensures { StopsAs (creation_of params.now) result }
{
    let call = placed(Value(b'C'), identifier_from(value_at(b"C", params)))?;
    let mode = placed(Value(b'M'), mode_from(value_at(b"M", params)))?;
    let options = match placed(Value(b'L'), options_at(params))? {
        Some(options) => options,
        None => Options::none(),
    };
    Ok(Creation {
        call,
        mode,
        options,
        remote: None,
    })
}

// What is modified by C, I, M and L.
#[tactic(auto, unfolding(crate::specs::Deeds::modification_of))]
fn modification_of(params: &[Param<'_>]) -> Result<ConnectionDeed, Stop>
    ensures { StopsAs (modification_of params.now) result }
{
    let call = placed(Value(b'C'), identifier_from(value_at(b"C", params)))?;
    let id = placed(Value(b'I'), identifier_from(value_at(b"I", params)))?;
    let mode = placed(Value(b'M'), mode_at(params))?;
    let options = placed(Value(b'L'), options_at(params))?;
    let change = Change {
        mode,
        options,
        remote: None,
    };
    Ok(ConnectionDeed::Modify { call, id, change })
}

fn deletion_by(call: Option<Identifier>, id: Option<Identifier>) -> Deletion
    ensures { result ≡ deletion_by call id }
{
    match (call, id) {
        (None, _) => Deletion::All,
        (Some(call), None) => Deletion::OfCall(call),
        (Some(call), Some(id)) => Deletion::One(call, id),
    }
}

// Which connections are deleted by C and I.
#[tactic(auto, unfolding(crate::specs::Deeds::deletion_of))]
fn deletion_of(params: &[Param<'_>]) -> Result<Deletion, Stop>
    ensures { StopsAs (deletion_of params.now) result }
{
    let call = placed(Value(b'C'), identifier_at(b"C", params))?;
    let id = placed(Value(b'I'), identifier_at(b"I", params))?;
    Ok(deletion_by(call, id))
}

// What becomes of connections, their remote description apart.
fn connected_by(connecting: Connecting, params: &[Param<'_>]) -> Result<ConnectionDeed, Stop>
    ensures { StopsAs (connected_by connecting params.now) result }
{
    match connecting {
        Connecting::Keeps => Ok(ConnectionDeed::Keep),
        Connecting::Creates => Ok(ConnectionDeed::Create(creation_of(params)?)),
        Connecting::Modifies => modification_of(params),
        Connecting::Deletes => Ok(ConnectionDeed::Delete(deletion_of(params)?)),
    }
}

fn with_remote(remote: Option<Session>, connections: ConnectionDeed) -> ConnectionDeed
    ensures { result ≡ with_remote remote connections }
{
    match connections {
        ConnectionDeed::Create(creation) => ConnectionDeed::Create(Creation { remote, ..creation }),
        ConnectionDeed::Modify { call, id, change } => ConnectionDeed::Modify {
            call,
            id,
            change: Change { remote, ..change },
        },
        ConnectionDeed::Keep => ConnectionDeed::Keep,
        ConnectionDeed::Delete(deletion) => ConnectionDeed::Delete(deletion),
    }
}

/// What is to be done on a line, by N and B, by C, I, M and L, by X with what is requested, and by the text of a
/// description.
#[tactic(auto, unfolding(crate::specs::Deeds::deed_of))]
pub(crate) fn deed_of(
    alloc: Global,
    connecting: Connecting,
    params: &[Param<'_>],
    text: &[u8],
    table: &Table,
) -> Result<BoxedDeed, Stop>
    ensures { StopsAs (deed_of connecting params.now text.now table.now) result }
{
    let entity = placed(Value(b'N'), entity_at(table, params))?;
    let encoding = placed(Value(b'B'), encoding_at(params))?;
    let connections = connected_by(connecting, params)?;
    let request = request_at(alloc, params)?;
    let remote = placed(Description, remote_of(text))?;
    let deed = Deed {
        entity,
        encoding,
        connections: with_remote(remote, connections),
        request,
    };
    Ok(BoxedDeed::new(alloc, deed)?)
}
