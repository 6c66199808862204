//! What is seen of a line.
ghost use Rattle.std.specs.Prelude.{◌≡◌, ◌++◌, IfOk, OnOk};
ghost use Rattle.line_changes.specs.Seen.{leading, remote_of, seen_connection, next_port, seen_in_place, seen_from};

use arrayvec::ArrayVec;
use connections::{Codec, Codecs, Connection, Mode};
use events_and_signals::ActiveSignal;
use mg_bytes::OutOfMemory;
use packages::Hook;
use sdp_subset::Session;
use std::alloc::Global;
use std::marker::Model;
use std::net::{Ipv4Addr, SocketAddrV4};

/// A connection of a line, as it is seen.
#[derive(Clone, Copy)]
pub struct SeenConnection {
    /// Its number, which is its identifier in hexadecimal digits.
    pub number: u32,
    pub mode: Mode,
    /// Where its stream is received.
    pub local: SocketAddrV4,
    /// Where the other end's is, once that is known.
    pub remote: Option<SocketAddrV4>,
    /// The first codec of those in force.
    pub codec: Codec,
    /// The time of a packet in ms.
    pub packet_time: u16,
}

/// A line, as it is seen: its hook, the active signals with their ends, and its connections, in the order of their places. A contract sees
/// the lists.
#[derive(Drop)]
pub struct SeenLine {
    pub hook: Hook,
    pub signals: ArrayVec<ActiveSignal, 9>,
    pub connections: Vec<SeenConnection>,
}

impl Model for SeenLine {
    ghost use Rattle.line_changes.specs.Seen.{SeenLine};

    ghost Value = { SeenLine };

    ghost view = { λ s. record { hook = s.hook; signals = s.signals.items; connections = s.connections.items } };
}

// The first of the codecs.
fn leading(codecs: Codecs) -> Codec
    ensures { result ≡ leading codecs }
{
    match codecs {
        Codecs::Only(codec) => codec,
        Codecs::Both(first) => first,
    }
}

// Where the stream of a description is received.
fn remote_of(remote: &Option<Session>) -> Option<SocketAddrV4>
    ensures { result ≡ remote_of remote.now }
{
    match remote {
        None => None,
        Some(session) => Some(SocketAddrV4::new(session.address, session.port)),
    }
}

// A connection whose stream is received at this address and port.
fn seen_connection(address: Ipv4Addr, port: u16, connection: &Connection) -> SeenConnection
    ensures { result ≡ seen_connection address port connection.now }
{
    SeenConnection {
        number: connection.number,
        mode: connection.mode,
        local: SocketAddrV4::new(address, port),
        remote: remote_of(&connection.remote),
        codec: leading(connection.codecs.in_force),
        packet_time: connection.options.packet_time,
    }
}

// The port of the next place.
fn next_port(port: u16) -> u16
    ensures { result ≡ next_port port }
{
    port.saturating_add(2)
}

// Puts what a place holds, whose port this is.
fn put_seen(
    out: &mut Vec<SeenConnection>,
    address: Ipv4Addr,
    port: u16,
    held: &Option<Connection>,
) -> Result<(), OutOfMemory>
    ensures { OnOk result (out.new.items ≡ out.old.items ++ seen_in_place address port held.now) }
{
    if let Some(connection) = held {
        out.push(seen_connection(address, port, connection))?;
    }
    Ok(())
}

/// The connections that the places of a line hold. Streams are received at this address; the first port is that of the first place, and
/// each further place has the port that is greater by two.
#[tactic(auto, unfolding(crate::specs::Seen::seen_from))]
pub fn seen_connections(
    alloc: Global,
    address: Ipv4Addr,
    first_port: u16,
    places: &[Option<Connection>],
) -> Result<Vec<SeenConnection>, OutOfMemory>
    ensures { IfOk result (λ list. list.items ≡ seen_from address first_port places.now) }
{
    let mut list = Vec::new(alloc);
    let mut port = first_port;
    for held in places {
        put_seen(&mut list, address, port, held)?;
        port = next_port(port);
    }
    Ok(list)
}
