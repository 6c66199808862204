//! The names of call agents (RFC 3435, 2.1.4 and 3.2.1.3).
ghost use Rattle.std.specs.Prelude.{◌≡◌, false, IfSome};
ghost use Rattle.std.specs.List.{list_any};
ghost use Rattle.mg_bytes.specs.Blanks.{is_blank};
ghost use Rattle.mg_bytes.specs.Lines.{is_line_feed};
ghost use Rattle.mg_bytes.specs.Words.{in_brackets};
ghost use Rattle.endpoint_names.specs.Entity.{is_entity_text, is_local, host_of, place_of, agent_of, entity_of};

use crate::fixed::FixedText;
use crate::route::Route;
use crate::table::Table;
use mg_bytes::{in_brackets, ipv4_address, port_number, split_once};
use std::net::{Ipv4Addr, SocketAddrV4};

// The port of a call agent where its name gives none (RFC 3435, 3.5).
const AGENT_PORT: u16 = 2727;

/// The most bytes of an entity (this gateway's profile).
pub const LONGEST_ENTITY: usize = 128;

/// The most bytes of its local name (this gateway's profile).
pub const LONGEST_LOCAL: usize = 64;

/// An entity that notifications go to (RFC 3435, 2.1.4): its name as it was given, and its addresses.
#[derive(Clone, Copy)]
pub struct Entity {
    pub text: FixedText<LONGEST_ENTITY>,
    pub route: Route<SocketAddrV4>,
}

fn any_blank(text: &[u8]) -> bool
    ensures { result ≡ list_any is_blank text.now }
{
    text.iter().any(|byte| *byte == b' ' || *byte == b'\t')
}

fn any_line_feed(text: &[u8]) -> bool
    ensures { result ≡ list_any is_line_feed text.now }
{
    text.iter().any(|byte| *byte == b'\n')
}

fn is_entity_text(text: &[u8]) -> bool
    ensures { result ≡ is_entity_text text.now }
{
    text.len() <= LONGEST_ENTITY && !any_blank(text) && !any_line_feed(text)
}

fn is_local(local: &[u8]) -> bool
    ensures { result ≡ is_local local.now }
{
    local.len() >= 1 && local.len() <= LONGEST_LOCAL
}

fn host_of(table: &Table, host: &[u8]) -> Option<Route<Ipv4Addr>>
    ensures { result ≡ host_of table.now host.now }
{
    match in_brackets(host) {
        Some(literal) => Some(Route::One(ipv4_address(literal)?)),
        None => table.route_to(host),
    }
}

#[tactic(auto, unfolding(crate::specs::Entity::place_of))]
fn place_of(table: &Table, text: &[u8]) -> Option<Route<SocketAddrV4>>
    ensures { result ≡ place_of table.now text.now }
{
    match split_once(text, b':') {
        Some((host, port)) => Some(host_of(table, host)?.with_port(port_number(port)?)),
        None => Some(host_of(table, text)?.with_port(AGENT_PORT)),
    }
}

#[tactic(auto, unfolding(crate::specs::Entity::agent_of))]
fn agent_of(table: &Table, text: &[u8]) -> Option<Route<SocketAddrV4>>
    ensures { result ≡ agent_of table.now text.now }
{
    match split_once(text, b'@') {
        Some((local, place)) => {
            if !is_local(local) {
                return None;
            }
            place_of(table, place)
        }
        None => place_of(table, text),
    }
}

/// The entity that a text names: `[local@]host[:port]` (RFC 3435, 2.1.4 and 3.2.1.3), at most 128 bytes without
/// blanks and line feeds.
///
/// The local name is 1 to 64 bytes. The host is `[a.b.c.d]`, or a name of the table with all its addresses.
/// The port is 1 to 65535, or 2727 where none is given (RFC 3435, 3.5). Any other text is `None`.
#[tactic(auto, unfolding(crate::specs::Entity::entity_of))]
pub fn read_entity(text: &[u8], table: &Table) -> Option<Entity>
    ensures value { result ≡ entity_of table.now text.now }
    // It is a word of one line, so a parameter may have it as its value.
    ensures blankless { IfSome result (λ entity. list_any is_blank entity.text ≡ false) }
    ensures one_line { IfSome result (λ entity. list_any is_line_feed entity.text ≡ false) }
{
    if !is_entity_text(text) {
        return None;
    }
    let route = agent_of(table, text)?;
    Some(Entity {
        text: FixedText::of(text),
        route,
    })
}
