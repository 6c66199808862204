//! What a configuration and words ask for that is right, but may be meant otherwise.
ghost use Rattle.std.specs.Prelude.{◌≡◌};
ghost use Rattle.rgwd_words.specs.Warning.{covers, is_here};

use crate::words::Settings;
use endpoint_names::Route;
use log_format::{put_host, put_peer};
use mg_bytes::{Draft, OutOfMemory};
use plain_machine::Setup;
use std::alloc::Global;
use std::net::{Ipv4Addr, SocketAddrV4};

// What an address is that no other machine reaches.
fn is_here(host: Ipv4Addr) -> bool
    ensures { result ≡ is_here host }
{
    let octets = host.octets();
    octets[0] == 127
}

fn is_any(host: Ipv4Addr) -> bool {
    let octets = host.octets();
    octets.as_slice() == [0u8, 0, 0, 0].as_slice()
}

fn first_elsewhere(addresses: &[SocketAddrV4]) -> Option<SocketAddrV4> {
    for address in addresses {
        if !is_here(*address.ip()) {
            return Some(*address);
        }
    }
    None
}

// The first address of an agent that isn't on this machine.
fn elsewhere(route: &Route<SocketAddrV4>) -> Option<SocketAddrV4> {
    match *route {
        Route::One(a) => first_elsewhere(&[a]),
        Route::Two(a, b) => first_elsewhere(&[a, b]),
        Route::Three(a, b, c) => first_elsewhere(&[a, b, c]),
        Route::Four(a, b, c, d) => first_elsewhere(&[a, b, c, d]),
    }
}

// Whether a port is among those of a gateway's media: each line has four places, and each of these an even port and the odd one behind it.
fn covers(setup: &Setup, port: u16) -> bool
    ensures { result ≡ covers setup.now port }
{
    let first = u64::from(setup.media_base);
    let behind = first + 8 * u64::from(setup.names.lines);
    let port = u64::from(port);
    first <= port && port < behind
}

// Puts that an agent elsewhere doesn't reach something on this machine.
fn put_apart(out: &mut Draft, what: &str, host: Ipv4Addr, agent: SocketAddrV4) {
    out.put(b"warning: ");
    out.put(what.as_bytes());
    out.put(b": ");
    put_host(out, host);
    out.put(b", and the agent is at ");
    put_peer(out, agent);
    out.put(b": nothing comes from there to this address\n");
}

// Puts that a gateway's media have the port of a socket of its own.
fn put_covered(out: &mut Draft, word: &str, address: SocketAddrV4) {
    out.put(b"warning: media_base: the ports of the lines cover that of ");
    out.put(word.as_bytes());
    out.put(b" ");
    put_peer(out, address);
    out.put(b"\n");
}

/// What may be meant otherwise, in lines: an agent elsewhere that reaches no socket, or no media; media at the gateway's own ports; and
/// sockets at any address. Its only error is want of memory.
pub fn warnings_text(
    alloc: Global,
    settings: &Settings<'_>,
    setup: &Setup,
) -> Result<Vec<u8>, OutOfMemory> {
    let mut out = Draft::new(alloc);
    let listen = settings.sockets.listen;
    if let Some(agent) = elsewhere(&setup.agent.route) {
        if is_here(setup.media_address) {
            put_apart(&mut out, "media_address", setup.media_address, agent);
        }
        if is_here(*listen.ip()) {
            put_apart(&mut out, "--listen", *listen.ip(), agent);
        }
    }
    if covers(setup, listen.port()) {
        put_covered(&mut out, "--listen", listen);
    }
    if covers(setup, settings.sockets.phones.port()) {
        put_covered(&mut out, "--phones", settings.sockets.phones);
    }
    if is_any(*listen.ip()) {
        out.put(
            b"warning: --listen: 0.0.0.0: on several addresses an answer may leave by another one than was asked\n",
        );
    }
    out.end()
}
