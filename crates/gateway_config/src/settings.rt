//! Reads a configuration from TOML.
ghost use Rattle.std.specs.Prelude.{◌≡◌, IfOk, MatchOption, Some, None, is_some, option_and_then, option_map, string_bytes};
ghost use Rattle.toml.specs.View.{items_view, table_view, view};
ghost use Rattle.toml.specs.Data.{get_member, as_str, item, no_items};
ghost use Rattle.endpoint_names.specs.Route.{route_of};
ghost use Rattle.rgw_scripts.specs.Configuration.{count_of, text_at, number_in, number_at, address_in, address_at, addresses_in, route_in, names_from, names_at, settings_of, config_of, config_in, unread_key};
ghost use Rattle.gateway_config.specs.SettingsSeen.{settings_seen};

use endpoint_names::Route;
use mg_bytes::{OutOfMemory, Sequence, Text, ipv4_address};
use plain_machine::{Config, ConfigKey, NamedRoute};
use std::alloc::{AllocError, Global};
use std::net::Ipv4Addr;
use toml::{Table, Value};

/// The number of the fault that a configuration can't be read.
pub const BAD_TOML: u8 = 7;

/// How many keys a table has.
pub fn key_count(table: &Table) -> usize
    ensures { result ≡ count_of (table_view table.now) }
{
    table.len()
}

/// What stands at a key of a document.
pub fn value_at<'a>(table: &'a Table, key: &str) -> Option<&'a Value>
    ensures { option_map (λ v. view v.now) result ≡ get_member key.now (table_view table.now) }
{
    table.get(key)
}

fn text_at<'a>(table: &'a Table, key: &str) -> Option<&'a str>
    ensures { option_map (λ s. s.now) result ≡ text_at key.now (table_view table.now) }
{
    match value_at(table, key) {
        Some(value) => value.as_str(),
        None => None,
    }
}

// The number that a value is, from 0 to 4,294,967,295.
fn number_in(value: &Value) -> Option<u32>
    ensures { result ≡ number_in (view value.now) }
{
    match value.as_integer() {
        Some(integer) => u32::try_from(integer).ok(),
        None => None,
    }
}

fn number_at(table: &Table, key: &str) -> Option<u32>
    ensures { result ≡ number_at key.now (table_view table.now) }
{
    match value_at(table, key) {
        Some(value) => number_in(value),
        None => None,
    }
}

// The address that a value is the text of.
fn address_in(value: &Value) -> Option<Ipv4Addr>
    ensures { result ≡ address_in (view value.now) }
{
    match value.as_str() {
        Some(text) => ipv4_address(text.as_bytes()),
        None => None,
    }
}

fn address_at(table: &Table, key: &str) -> Option<Ipv4Addr>
    ensures { result ≡ address_at key.now (table_view table.now) }
{
    match value_at(table, key) {
        Some(value) => address_in(value),
        None => None,
    }
}

// The addresses of a host that has one, two, three or four.
#[tactic(auto, unfolding(rgw_scripts::specs::Configuration::addresses_in))]
fn route_of_one(a: &Value) -> Option<Route<Ipv4Addr>>
    ensures { result ≡ option_and_then route_of (addresses_in (item (view a.now) no_items)) }
{
    Some(Route::One(address_in(a)?))
}

#[tactic(auto, unfolding(rgw_scripts::specs::Configuration::addresses_in))]
fn route_of_two(a: &Value, b: &Value) -> Option<Route<Ipv4Addr>>
    ensures { result ≡ option_and_then route_of (addresses_in (item (view a.now) (item (view b.now) no_items))) }
{
    Some(Route::Two(address_in(a)?, address_in(b)?))
}

#[tactic(auto, unfolding(rgw_scripts::specs::Configuration::addresses_in))]
fn route_of_three(a: &Value, b: &Value, c: &Value) -> Option<Route<Ipv4Addr>>
    ensures { result ≡ option_and_then route_of
        (addresses_in (item (view a.now) (item (view b.now) (item (view c.now) no_items)))) }
{
    Some(Route::Three(address_in(a)?, address_in(b)?, address_in(c)?))
}

#[tactic(auto, unfolding(rgw_scripts::specs::Configuration::addresses_in))]
fn route_of_four(a: &Value, b: &Value, c: &Value, d: &Value) -> Option<Route<Ipv4Addr>>
    ensures { result ≡ option_and_then route_of
        (addresses_in (item (view a.now) (item (view b.now) (item (view c.now) (item (view d.now) no_items))))) }
{
    Some(Route::Four(
        address_in(a)?,
        address_in(b)?,
        address_in(c)?,
        address_in(d)?,
    ))
}

// The addresses of a host that a list gives: 1 to 4 texts. Each number has a function of its own, so that no proof carries
// the steps of the others.
#[tactic(auto, using(crate::proofs::HostLemmas::other_numbers))]
fn route_of(values: &[Value]) -> Option<Route<Ipv4Addr>>
    ensures { result ≡ option_and_then route_of (addresses_in (items_view values.now)) }
{
    match values {
        [a] => route_of_one(a),
        [a, b] => route_of_two(a, b),
        [a, b, c] => route_of_three(a, b, c),
        [a, b, c, d] => route_of_four(a, b, c, d),
        _ => None,
    }
}

/// The addresses of a host that a value gives: a text is one, a list has 1 to 4 of them.
pub fn route_in(value: &Value) -> Option<Route<Ipv4Addr>>
    ensures { result ≡ route_in (view value.now) }
{
    match value.as_array() {
        Some(values) => route_of(values.as_slice()),
        None => Some(Route::One(address_in(value)?)),
    }
}

fn names_at(table: &Table) -> Option<&Table>
    ensures { option_map (λ t. table_view t.now) result ≡ names_at (table_view table.now) }
{
    match value_at(table, "names") {
        Some(value) => value.as_table(),
        None => None,
    }
}

fn owned(alloc: Global, text: &str) -> Result<Text, OutOfMemory>
    ensures { IfOk result (λ t. t ≡ text.now) }
{
    Ok(Text::of(Vec::from_slice(alloc, text.as_bytes())?))
}

// The names of a table with their addresses, if each has such.
#[tactic(auto, unfolding(rgw_scripts::specs::Configuration::names_from))]
fn names_of(alloc: Global, table: &Table) -> Result<Option<Sequence<NamedRoute>>, OutOfMemory>
    ensures { IfOk result (λ found.
        MatchOption found (names_from (table_view table.now) ≡ None)
        (λ names. names_from (table_view table.now) ≡ Some names)) }
{
    let mut names = Sequence::new(alloc);
    for (name, value) in table.iter() {
        let Some(route) = route_in(value) else {
            return Ok(None);
        };
        let name = owned(alloc, name.as_str())?;
        names.push(NamedRoute { name, route })?;
    }
    Ok(Some(names))
}

// The settings of a document, and the names still as a table.
#[derive(Clone, Copy)]
struct Settings<'a> {
    domain: &'a str,
    lines: u32,
    agent: &'a str,
    restart_wait: u32,
    disconnected_wait: u32,
    media_address: Ipv4Addr,
    media_base: u32,
    hosts: &'a Table,
}

// The settings of a document that has each of the eight keys.
#[tactic(auto, unfolding(rgw_scripts::specs::Configuration::settings_of))]
fn settings_of(table: &Table) -> Option<Settings<'_>>
    ensures { option_map settings_seen result ≡ settings_of (table_view table.now) }
{
    Some(Settings {
        domain: text_at(table, "domain")?,
        lines: number_at(table, "lines")?,
        agent: text_at(table, "agent")?,
        restart_wait: number_at(table, "restart_wait")?,
        disconnected_wait: number_at(table, "disconnected_wait")?,
        media_address: address_at(table, "media_address")?,
        media_base: number_at(table, "media_base")?,
        hosts: names_at(table)?,
    })
}

/// The configuration of a document, if it has the eight keys and no ninth. Its only error is want of memory.
#[tactic(auto, unfolding(rgw_scripts::specs::Configuration::config_of))]
pub fn config_of(alloc: Global, table: &Table) -> Result<Option<Config>, OutOfMemory>
    ensures { IfOk result (λ found.
        MatchOption found (config_of (table_view table.now) ≡ None)
        (λ config. config_of (table_view table.now) ≡ Some config)) }
{
    if key_count(table) != 8 {
        return Ok(None);
    }
    let Some(settings) = settings_of(table) else {
        return Ok(None);
    };
    let Some(names) = names_of(alloc, settings.hosts)? else {
        return Ok(None);
    };
    Ok(Some(Config {
        domain: owned(alloc, settings.domain)?,
        lines: settings.lines,
        agent: owned(alloc, settings.agent)?,
        restart_wait: settings.restart_wait,
        disconnected_wait: settings.disconnected_wait,
        media_address: settings.media_address,
        media_base: settings.media_base,
        names,
    }))
}

/// The configuration that a text writes; `None` where it isn't one (7, BadToml).
#[tactic(auto, unfolding(rgw_scripts::specs::Configuration::config_in))]
pub fn read_config(alloc: Global, text: &[u8]) -> Result<Option<Config>, OutOfMemory>
    ensures { IfOk result (λ found.
        MatchOption found (config_in text.now ≡ None) (λ config. config_in text.now ≡ Some config)) }
{
    let Ok(text) = std::str::from_utf8(text) else {
        return Ok(None);
    };
    match toml::table_from_str(alloc, text) {
        Ok(table) => config_of(alloc, &table),
        Err(e) if e.is_memory() => Err(AllocError),
        Err(_) => Ok(None),
    }
}

fn has_text(table: &Table, key: &str) -> bool
    ensures { result ≡ is_some (text_at key.now (table_view table.now)) }
{
    match text_at(table, key) {
        Some(_) => true,
        None => false,
    }
}

fn has_number(table: &Table, key: &str) -> bool
    ensures { result ≡ is_some (number_at key.now (table_view table.now)) }
{
    number_at(table, key).is_some()
}

fn has_address(table: &Table, key: &str) -> bool
    ensures { result ≡ is_some (address_at key.now (table_view table.now)) }
{
    address_at(table, key).is_some()
}

// Whether each host of a table has its addresses.
#[tactic(auto, unfolding(rgw_scripts::specs::Configuration::names_from))]
fn are_hosts(table: &Table) -> bool
    ensures { result ≡ is_some (names_from (table_view table.now)) }
{
    for (_name, value) in table.iter() {
        match route_in(value) {
            Some(_) => {}
            None => return false,
        }
    }
    true
}

// Whether a document has names, each with its addresses.
fn has_names(table: &Table) -> bool
    ensures { result ≡ is_some (option_and_then names_from (names_at (table_view table.now))) }
{
    match names_at(table) {
        Some(hosts) => are_hosts(hosts),
        None => false,
    }
}

/// The first key of a document that is missing, or whose value is of another kind, for people; `None` where nothing is wrong but
/// that it has other keys too.
#[tactic(auto, unfolding(rgw_scripts::specs::Configuration::unread_key))]
pub fn unread_key(table: &Table) -> Option<ConfigKey>
    ensures { result ≡ unread_key (table_view table.now) }
{
    if !has_text(table, "domain") {
        return Some(ConfigKey::Domain);
    }
    if !has_number(table, "lines") {
        return Some(ConfigKey::Lines);
    }
    if !has_names(table) {
        return Some(ConfigKey::Names);
    }
    if !has_text(table, "agent") {
        return Some(ConfigKey::Agent);
    }
    if !has_number(table, "restart_wait") {
        return Some(ConfigKey::RestartWait);
    }
    if !has_number(table, "disconnected_wait") {
        return Some(ConfigKey::DisconnectedWait);
    }
    if !has_address(table, "media_address") {
        return Some(ConfigKey::MediaAddress);
    }
    if !has_number(table, "media_base") {
        return Some(ConfigKey::MediaBase);
    }
    None
}
