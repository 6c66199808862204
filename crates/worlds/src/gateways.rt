//! The gateway that scenarios are about, its configuration, the addresses of both ends, and what rows ask of a gateway.
use crate::boxing::in_box;
use endpoint_names::Route;
use gateway_core::{Config, ConfigFault, Gateway, NamedRoute};
use mg_bytes::{OutOfMemory, Sequence, Text};
use rgw_scripts::hook_word;
use scenario_files::Row;
use std::alloc::Global;
use std::net::{Ipv4Addr, SocketAddrV4};

/// The entity that a gateway reports to where a scenario says no other.
pub const ENTITY: &str = "ca@ca.example.net";

/// How many lines it has there.
pub const LINES: u32 = 16;

/// The address that the call agent has, and to which the gateway's own messages go.
pub fn agent_address() -> SocketAddrV4 {
    SocketAddrV4::new(Ipv4Addr::LOCALHOST, 2727)
}

/// The address that the gateway has, for an agent.
pub fn gateway_address() -> SocketAddrV4 {
    SocketAddrV4::new(Ipv4Addr::LOCALHOST, 2427)
}

fn owned(alloc: Global, bytes: &[u8]) -> Result<Text, OutOfMemory> {
    Ok(Text::of(Vec::from_slice(alloc, bytes)?))
}

// The address 127.0.0.n.
fn local(host: u8) -> Ipv4Addr {
    Ipv4Addr::new(127, 0, 0, host)
}

// A host with its addresses.
fn named(alloc: Global, name: &[u8], route: Route<Ipv4Addr>) -> Result<NamedRoute, OutOfMemory> {
    let name = owned(alloc, name)?;
    Ok(NamedRoute { name, route })
}

// The usual host, and two with as many addresses as their names say, from 127.0.0.1 on.
fn hosts(alloc: Global) -> Result<Sequence<NamedRoute>, OutOfMemory> {
    let routes = [
        ("ca.example.net", Route::One(local(1))),
        ("two.example.net", Route::Two(local(1), local(2))),
        (
            "four.example.net",
            Route::Four(local(1), local(2), local(3), local(4)),
        ),
    ];
    let mut names = Sequence::new(alloc);
    for (name, route) in &routes {
        names.push(named(alloc, name.as_bytes(), *route)?)?;
    }
    Ok(names)
}

/// The usual settings, but for the number of lines, the entity that the gateway reports to, and two hosts more.
pub fn config_with(alloc: Global, lines: u32, entity: &[u8]) -> Result<Config, OutOfMemory> {
    let names = hosts(alloc)?;
    Ok(Config {
        domain: owned(alloc, b"rgw.example.net")?,
        lines,
        agent: owned(alloc, entity)?,
        restart_wait: 1,
        disconnected_wait: 5000,
        media_address: Ipv4Addr::LOCALHOST,
        media_base: 3000,
        names,
    })
}

/// The gateway of the usual settings, to which nothing came yet.
pub fn usual_gateway(alloc: Global) -> Result<Box<Gateway>, ConfigFault> {
    let config = config_with(alloc, LINES, ENTITY.as_bytes())?;
    in_box(alloc, Gateway::new(alloc, config))
}

/// `1 off`: puts the telephone of a line.
pub fn put_hook(row: &mut Row<'_>, gateway: &Gateway) {
    let line = row.before(" ").parse::<u16>().unwrap_or(0);
    if line == 0 || line > gateway.lines() {
        return row.given.unread();
    }
    row.given.put(hook_word(gateway.hook(line)));
}
