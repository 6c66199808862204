//! What is wrong with a configuration: the first flaw, in the order in which they are told.
ghost use Rattle.std.specs.Prelude.{◌≡◌, IfOk, option_map, is_some, bytes_eq};
ghost use Rattle.toml.specs.Data.{get_member};
ghost use Rattle.toml.specs.View.{table_view};
ghost use Rattle.plain_machine.specs.ConfigFault.{config_key_name};
ghost use Rattle.gateway_config.specs.Flaws.{is_key, other_key, missing_key, known_flaw, unread_flaw, address_flaw, value_flaw, flaw_in, text_flaw, flaw_of};

use crate::settings::{config_of, unread_key, value_at};
use endpoints::key_at_fault;
use mg_bytes::OutOfMemory;
use plain_machine::{Config, ConfigKey};
use rgw_scripts::is_too_long;
use std::alloc::{AllocError, Global};
use std::net::Ipv4Addr;
use toml::Table;

/// What is wrong with a configuration.
#[derive(Clone, Copy)]
pub enum Flaw {
    /// It has more bytes than `rgw_scripts::LIMIT`.
    TooLong,
    /// It isn't UTF-8.
    NoUtf8,
    /// It isn't TOML.
    NoToml,
    /// It has a key that no configuration has.
    UnknownKey,
    /// It lacks this key.
    Missing(ConfigKey),
    /// What stands at this key may not stand there.
    BadValue(ConfigKey),
    /// Its connections would receive at 0.0.0.0, where no other machine sends anything.
    AnyAddress,
}

fn is_called(name: &[u8], key: ConfigKey) -> bool
    ensures { result ≡ bytes_eq name.now (config_key_name key) }
{
    name == key.name().as_bytes()
}

// Whether a configuration has a key with this name.
fn is_key(name: &[u8]) -> bool
    ensures { result ≡ is_key name.now }
{
    is_called(name, ConfigKey::Domain)
        || is_called(name, ConfigKey::Lines)
        || is_called(name, ConfigKey::Names)
        || is_called(name, ConfigKey::Agent)
        || is_called(name, ConfigKey::RestartWait)
        || is_called(name, ConfigKey::DisconnectedWait)
        || is_called(name, ConfigKey::MediaAddress)
        || is_called(name, ConfigKey::MediaBase)
}

/// The first key of a document that no configuration has.
#[tactic(auto, unfolding(crate::specs::Flaws::other_key))]
pub(crate) fn other_key(table: &Table) -> Option<&str>
    ensures { option_map (λ name. name.now) result ≡ other_key (table_view table.now) }
{
    for (name, _value) in table.iter() {
        let name = name.as_str();
        if !is_key(name.as_bytes()) {
            return Some(name);
        }
    }
    None
}

fn has_key(table: &Table, key: ConfigKey) -> bool
    ensures { result ≡ is_some (get_member (config_key_name key) (table_view table.now)) }
{
    match value_at(table, key.name()) {
        Some(_) => true,
        None => false,
    }
}

// The first key that a document lacks.
#[tactic(auto, unfolding(crate::specs::Flaws::missing_key))]
fn missing_key(table: &Table) -> Option<ConfigKey>
    ensures { result ≡ missing_key (table_view table.now) }
{
    if !has_key(table, ConfigKey::Domain) {
        return Some(ConfigKey::Domain);
    }
    if !has_key(table, ConfigKey::Lines) {
        return Some(ConfigKey::Lines);
    }
    if !has_key(table, ConfigKey::Names) {
        return Some(ConfigKey::Names);
    }
    if !has_key(table, ConfigKey::Agent) {
        return Some(ConfigKey::Agent);
    }
    if !has_key(table, ConfigKey::RestartWait) {
        return Some(ConfigKey::RestartWait);
    }
    if !has_key(table, ConfigKey::DisconnectedWait) {
        return Some(ConfigKey::DisconnectedWait);
    }
    if !has_key(table, ConfigKey::MediaAddress) {
        return Some(ConfigKey::MediaAddress);
    }
    if !has_key(table, ConfigKey::MediaBase) {
        return Some(ConfigKey::MediaBase);
    }
    None
}

// What is wrong with a document without other keys that is no configuration: one that has all keys has a key that can't be read.
fn known_flaw(missing: Option<ConfigKey>, unread: Option<ConfigKey>) -> Flaw
    ensures { result ≡ known_flaw missing unread }
{
    match (missing, unread) {
        (Some(key), _) => Flaw::Missing(key),
        (None, Some(key)) => Flaw::BadValue(key),
        (None, None) => Flaw::UnknownKey,
    }
}

// What is wrong with a document that is no configuration.
fn unread_flaw(table: &Table) -> Flaw
    ensures { result ≡ unread_flaw (table_view table.now) }
{
    match other_key(table) {
        Some(_) => Flaw::UnknownKey,
        None => known_flaw(missing_key(table), unread_key(table)),
    }
}

// What is wrong with the address at which connections receive.
fn address_flaw(address: Ipv4Addr) -> Option<Flaw>
    ensures { result ≡ address_flaw address }
{
    let octets = address.octets();
    if octets.as_slice() == [0u8, 0, 0, 0].as_slice() {
        Some(Flaw::AnyAddress)
    } else {
        None
    }
}

// What is wrong with a configuration that can be read.
fn value_flaw(config: &Config) -> Option<Flaw>
    ensures { result ≡ value_flaw config.now }
{
    match key_at_fault(config) {
        Some(key) => Some(Flaw::BadValue(key)),
        None => address_flaw(config.media_address),
    }
}

// What is wrong with the configuration that a document is.
#[tactic(auto, unfolding(crate::specs::Flaws::flaw_in))]
fn flaw_in(alloc: Global, table: &Table) -> Result<Option<Flaw>, OutOfMemory>
    ensures { IfOk result (λ flaw. flaw ≡ flaw_in (table_view table.now)) }
{
    match config_of(alloc, table)? {
        Some(config) => Ok(value_flaw(&config)),
        None => Ok(Some(unread_flaw(table))),
    }
}

// What is wrong with the configuration in a text that isn't too long.
#[tactic(auto, using(crate::proofs::FlawLemmas::not_toml))]
fn text_flaw(alloc: Global, text: &[u8]) -> Result<Option<Flaw>, OutOfMemory>
    ensures { IfOk result (λ flaw. flaw ≡ text_flaw text.now) }
{
    let Ok(words) = std::str::from_utf8(text) else {
        return Ok(Some(Flaw::NoUtf8));
    };
    match toml::table_from_str(alloc, words) {
        Ok(table) => flaw_in(alloc, &table),
        Err(e) if e.is_memory() => Err(AllocError),
        Err(_) => Ok(Some(Flaw::NoToml)),
    }
}

/// The first flaw of the configuration in a text; `None` where a gateway can be had of it that other machines reach. Its only
/// error is want of memory.
pub fn flaw_of(alloc: Global, text: &[u8]) -> Result<Option<Flaw>, OutOfMemory>
    ensures { IfOk result (λ flaw. flaw ≡ flaw_of text.now) }
{
    if is_too_long(text) {
        return Ok(Some(Flaw::TooLong));
    }
    text_flaw(alloc, text)
}
