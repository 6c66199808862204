//! What a configuration sets up, and what there is at the opening: the endpoints, and the post of the gateway itself.
ghost use Rattle.std.specs.Prelude.{◌≡◌, ◌≤◌, ◌<◌, ◌+◌, ◌^◌, [], map, IfOk};
ghost use Rattle.std.specs.List.{range_with_len};
ghost use Rattle.plain_machine.specs.Setup.{table_from, is_wait, is_media_base, is_address, parts_of, setup_from, key_at_fault, IsSetUp, highest_media_base};
ghost use Rattle.machine_rules.specs.Lines.{most_lines};
ghost use Rattle.plain_machine.specs.Machine.{port_of, opening_post, opening_endpoint, opening_own};
ghost use Rattle.endpoints.specs.Ids.{HasId};

use connections::{Connections, Encoding};
use endpoint_names::{Entity, Names, Table, is_domain, read_entity};
use machine_rules::are_lines;
use mg_bytes::{OutOfMemory, octets_of};
use mg_line::Line;
use plain_machine::{
    CommandNumber, Config, ConfigFault, ConfigKey, Endpoint, HIGHEST_MEDIA_BASE, LONGEST_WAIT,
    LOWEST_MEDIA_BASE, NamedRoute, Post, SHORTEST_WAIT, Setup,
};
use retransmission::Restart;
use std::alloc::Global;
use std::net::Ipv4Addr;

// The table of these names, if each can be added.
#[tactic(auto, unfolding(plain_machine::specs::Setup::table_from))]
fn table_of(names: &[NamedRoute]) -> Option<Table>
    ensures { result ≡ table_from [] names.now }
{
    let mut table = Table::new();
    for name in names {
        match table.add(name.name.as_bytes(), name.route) {
            Ok(()) => {}
            Err(_) => return None,
        }
    }
    Some(table)
}

fn is_wait(wait: u32) -> bool
    ensures { result ≡ is_wait wait }
{
    wait >= SHORTEST_WAIT && wait <= LONGEST_WAIT
}

fn is_media_base(port: u32) -> bool
    ensures { result ≡ is_media_base port }
{
    port >= LOWEST_MEDIA_BASE && port <= HIGHEST_MEDIA_BASE && port % 2 == 0
}

// Every address is one.
fn is_address(address: Ipv4Addr) -> bool
    ensures { result ≡ is_address address }
{
    let _octets = octets_of(address);
    true
}

// The table and the agent of a configuration, or the key that its first fault is about.
#[tactic(auto, unfolding(plain_machine::specs::Setup::parts_of))]
fn parts_of(config: &Config) -> Result<(Table, Entity), ConfigKey>
    ensures value { result ≡ parts_of config.now }
    ensures lines { IfOk result (λ parts. config.now.lines ≤ most_lines) }
{
    if !is_domain(config.domain.as_bytes()) {
        return Err(ConfigKey::Domain);
    }
    if !are_lines(config.lines) {
        return Err(ConfigKey::Lines);
    }
    let Some(table) = table_of(config.names.as_slice()) else {
        return Err(ConfigKey::Names);
    };
    let Some(agent) = read_entity(config.agent.as_bytes(), &table) else {
        return Err(ConfigKey::Agent);
    };
    if !is_wait(config.restart_wait) {
        return Err(ConfigKey::RestartWait);
    }
    if !is_wait(config.disconnected_wait) {
        return Err(ConfigKey::DisconnectedWait);
    }
    if !is_address(config.media_address) {
        return Err(ConfigKey::MediaAddress);
    }
    if !is_media_base(config.media_base) {
        return Err(ConfigKey::MediaBase);
    }
    Ok((table, agent))
}

/// The key that the first fault of a configuration is about, for people; `None` where it has no fault.
#[tactic(auto, unfolding(plain_machine::specs::Setup::key_at_fault))]
pub fn key_at_fault(config: &Config) -> Option<ConfigKey>
    ensures { result ≡ key_at_fault config.now }
{
    match parts_of(config) {
        Ok(_) => None,
        Err(key) => Some(key),
    }
}

/// What a configuration sets up where ids begin with this number, or its first fault, in the order of their numbers.
#[tactic(auto, unfolding(plain_machine::specs::Setup::setup_from))]
pub fn judged(config: Config, first: u32) -> Result<Setup, ConfigFault>
    ensures { result ≡ setup_from config first }
{
    match parts_of(&config) {
        Ok((table, agent)) => Ok(Setup {
            names: Names {
                domain: config.domain,
                lines: config.lines as u16,
                table,
            },
            agent,
            restart_wait: config.restart_wait,
            disconnected_wait: config.disconnected_wait,
            media_address: config.media_address,
            media_base: config.media_base,
            first,
        }),
        Err(key) => Err(key.fault()),
    }
}

// A post under which nothing was sent; its first command has this number.
fn opening_post(setup: &Setup, number: CommandNumber, restart: Restart) -> Post
    ensures { result ≡ opening_post setup.now number restart }
{
    Post {
        entity: setup.agent,
        number,
        pending: None,
        restart,
    }
}

// The first port of a line.
fn port_of(setup: &Setup, line: u16) -> u16
    requires ports { setup.now.media_base ≤ highest_media_base }
    requires some { 1 ≤ line }
    requires few { line ≤ most_lines }
    ensures value { result ≡ port_of setup.now line }
    ensures within { result + 6 < 2 ^ 16 }
{
    setup.media_base as u16 + 8 * (line - 1)
}

// The endpoint of this line, with the line as a line opens and the configured agent.
fn opening_endpoint(alloc: Global, setup: &Setup, line: u16) -> Result<Endpoint, OutOfMemory>
    requires ports { setup.now.media_base ≤ highest_media_base }
    requires some { 1 ≤ line }
    requires few { line ≤ most_lines }
    ensures { IfOk result (λ endpoint. endpoint ≡ opening_endpoint setup.now line) }
{
    Ok(Endpoint {
        line: Line::new(alloc)?,
        post: opening_post(setup, CommandNumber::first(setup.first), Restart::Serving),
        encoding: Encoding::Mu,
        connections: Connections::new(setup.media_address, port_of(setup, line)),
    })
}

/// The endpoints of this setup at the opening. An error is for want of memory only.
pub fn opening_list(alloc: Global, setup: &Setup) -> Result<Vec<Endpoint>, OutOfMemory>
    requires { IsSetUp setup.now }
    ensures { IfOk result (λ list. list.items
        ≡ map (opening_endpoint setup.now) (range_with_len 1 setup.now.names.lines)) }
{
    let mut list = Vec::new(alloc);
    for place in 0..setup.names.lines {
        list.push(opening_endpoint(alloc, setup, place + 1)?)?;
    }
    Ok(list)
}

/// The post of the gateway itself at the opening: it reports to the configured agent, has nothing in flight, and waits to
/// announce itself.
pub fn opening_own(setup: &Setup) -> Post
    ensures value { result ≡ opening_own setup.now }
    ensures id { HasId 0 result.number }
{
    let restart = Restart::begin(0, setup.restart_wait);
    opening_post(setup, CommandNumber::first_own(setup.first), restart)
}
