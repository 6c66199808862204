//! What a gateway of a right configuration will be.
ghost use Rattle.std.specs.Prelude.{◌≡◌, ◌≤◌};
ghost use Rattle.gateway_config.specs.Ports.{ports_of};

use crate::pieces::put;
use endpoint_names::{Pattern, Route, write_name};
use log_format::{put_host, put_peer, write_number, write_shown};
use mg_bytes::{Draft, OutOfMemory};
use plain_machine::{ConfigKey, Setup};
use std::alloc::Global;
use std::net::SocketAddrV4;

// The ports at which a line receives: that of each of its four places for connections.
fn ports_of(setup: &Setup, line: u16) -> [u64; 4]
    requires { 1 ≤ line }
    ensures { result ≡ ports_of setup.now line }
{
    let first = u64::from(setup.media_base) + 8 * (u64::from(line) - 1);
    [first, first + 2, first + 4, first + 6]
}

fn put_addresses(out: &mut Draft, addresses: &[SocketAddrV4]) {
    let mut before = ", at ";
    for address in addresses {
        put(out, before);
        put_peer(out, *address);
        before = ", ";
    }
}

// Puts the addresses of a call agent, in the order in which they are tried.
fn put_route(out: &mut Draft, route: &Route<SocketAddrV4>) {
    match *route {
        Route::One(a) => put_addresses(out, &[a]),
        Route::Two(a, b) => put_addresses(out, &[a, b]),
        Route::Three(a, b, c) => put_addresses(out, &[a, b, c]),
        Route::Four(a, b, c, d) => put_addresses(out, &[a, b, c, d]),
    }
}

fn put_wait(out: &mut Draft, key: ConfigKey, wait: u32) {
    put(out, key.name());
    put(out, ": ");
    write_number(out, u64::from(wait));
    put(out, " ms\n");
}

// Puts the name and the ports of a line, from 1 on.
fn put_line(alloc: Global, out: &mut Draft, setup: &Setup, line: u16) -> Result<(), OutOfMemory>
    requires { 1 ≤ line }
{
    let name = write_name(alloc, Pattern::One(line), setup.names.domain.as_bytes())?;
    put(out, "line ");
    out.put_decimal(u64::from(line));
    put(out, ": ");
    out.put(name.as_bytes());
    let mut before = ", ports ";
    let ports = ports_of(setup, line);
    for port in ports.iter() {
        put(out, before);
        out.put_decimal(*port);
        before = ", ";
    }
    put(out, "\n");
    Ok(())
}

// Puts what holds of all lines.
fn put_whole(out: &mut Draft, setup: &Setup) {
    put(out, "domain: ");
    out.put(setup.names.domain.as_bytes());
    put(out, "\nagent: ");
    write_shown(out, setup.agent.text.as_bytes());
    put_route(out, &setup.agent.route);
    put(out, "\n");
    put_wait(out, ConfigKey::RestartWait, setup.restart_wait);
    put_wait(out, ConfigKey::DisconnectedWait, setup.disconnected_wait);
    put(out, ConfigKey::MediaAddress.name());
    put(out, ": ");
    put_host(out, setup.media_address);
    put(out, "\n");
}

/// Says what a gateway of this setup will be, in lines: its domain, its call agent with the addresses, its waits, the address at
/// which its connections receive, and of each line the name and the ports of its four connections. Its only error is want of
/// memory.
pub fn told_setup(alloc: Global, setup: &Setup) -> Result<Vec<u8>, OutOfMemory> {
    let mut out = Draft::new(alloc);
    put_whole(&mut out, setup);
    for place in 0..setup.names.lines {
        put_line(alloc, &mut out, setup, place + 1)?;
    }
    out.end()
}
