//! The words of a flaw: the key, what stands there, and what may.
ghost use Rattle.std.specs.Prelude.{◌≡◌, ◌++◌, IfOk, IsUtf8};
ghost use Rattle.toml.specs.Data.{get_member};
ghost use Rattle.toml.specs.Parse.{parse_document};
ghost use Rattle.toml.specs.View.{table_view, view};
ghost use Rattle.plain_machine.specs.ConfigFault.{config_key_name};
ghost use Rattle.gateway_config.specs.Bounds.{bounds_of};
ghost use Rattle.gateway_config.specs.Flaws.{other_key};
ghost use Rattle.gateway_config.specs.Pieces.{domain_wanted, up_to};
ghost use Rattle.gateway_config.specs.Wording.{before_bounds, behind_bounds, bounds_wanted, text_wanted, wanted_by, plain_told, value_told};
ghost use Rattle.gateway_config.specs.Wording.{key_told, name_found, unknown_told, document_told, line_told, limit_told, TellsRead, Tells};

use crate::agents::put_agent_flaw;
use crate::bounds::{Bounds, bounds_of};
use crate::flaw::{Flaw, other_key};
use crate::hosts::put_names_flaw;
use crate::pieces::{put, put_text, put_value};
use crate::settings::value_at;
use endpoint_names::LONGEST_DOMAIN;
use log_format::write_number;
use mg_bytes::{Draft, OutOfMemory};
use plain_machine::ConfigKey;
use rgw_scripts::LIMIT;
use std::alloc::{AllocError, Global};
use toml::{Table, Value};

// Puts that so many are wanted, from one on.
fn put_up_to(out: &mut Draft, longest: usize, words: &str)
    ensures { out.new ≡ out.old ++ up_to longest words.now }
{
    put(out, "1 to ");
    write_number(out, longest as u64);
    put(out, words);
}

/// Puts what a domain may be.
pub fn put_domain_wanted(out: &mut Draft)
    ensures { out.new ≡ out.old ++ domain_wanted }
{
    put_up_to(out, LONGEST_DOMAIN, " letters, digits, \"-\" and \".\"");
}

// What stands before the bounds of a key's number.
fn before_bounds(key: ConfigKey) -> &'static str
    ensures { result.now ≡ before_bounds key }
{
    match key {
        ConfigKey::MediaBase => "an even number from ",
        ConfigKey::Domain
        | ConfigKey::Lines
        | ConfigKey::Names
        | ConfigKey::Agent
        | ConfigKey::RestartWait
        | ConfigKey::DisconnectedWait
        | ConfigKey::MediaAddress => "",
    }
}

// What stands behind them.
fn behind_bounds(key: ConfigKey) -> &'static str
    ensures { result.now ≡ behind_bounds key }
{
    match key {
        ConfigKey::RestartWait | ConfigKey::DisconnectedWait => " ms",
        ConfigKey::Domain
        | ConfigKey::Lines
        | ConfigKey::Names
        | ConfigKey::Agent
        | ConfigKey::MediaAddress
        | ConfigKey::MediaBase => "",
    }
}

// Puts the bounds of a key's number.
fn put_bounds(out: &mut Draft, key: ConfigKey, bounds: Bounds)
    ensures { out.new ≡ out.old ++ bounds_wanted key bounds }
{
    put(out, before_bounds(key));
    write_number(out, u64::from(bounds.least));
    put(out, " to ");
    write_number(out, u64::from(bounds.most));
    put(out, behind_bounds(key));
}

// Puts what may stand at a key that is about no host and no number.
fn put_text_wanted(out: &mut Draft, key: ConfigKey)
    ensures { out.new ≡ out.old ++ text_wanted key }
{
    match key {
        ConfigKey::Domain => {
            put(out, "a text of ");
            put_domain_wanted(out);
        }
        ConfigKey::Lines
        | ConfigKey::Names
        | ConfigKey::Agent
        | ConfigKey::RestartWait
        | ConfigKey::DisconnectedWait
        | ConfigKey::MediaAddress
        | ConfigKey::MediaBase => put(out, "an IPv4 address, as \"10.0.0.5\""),
    }
}

// Puts what may stand at a key that is about no host.
fn put_wanted(out: &mut Draft, key: ConfigKey)
    ensures { out.new ≡ out.old ++ wanted_by (bounds_of key) key }
{
    match bounds_of(key) {
        Some(bounds) => put_bounds(out, key, bounds),
        None => put_text_wanted(out, key),
    }
}

// Puts what stands at a key that is about no host, and what may.
fn put_plain_flaw(out: &mut Draft, key: ConfigKey, value: &Value)
    ensures { out.new ≡ out.old ++ plain_told key (view value.now) }
{
    put_value(out, value, bounds_of(key).is_some());
    put(out, ", wanted ");
    put_wanted(out, key);
}

// Puts what stands at a key, and what may.
fn put_value_flaw(out: &mut Draft, key: ConfigKey, value: &Value)
    ensures { out.new ≡ out.old ++ value_told key (view value.now) }
{
    match key {
        ConfigKey::Names => put_names_flaw(out, value),
        ConfigKey::Agent => put_agent_flaw(out, value),
        ConfigKey::Domain
        | ConfigKey::Lines
        | ConfigKey::RestartWait
        | ConfigKey::DisconnectedWait
        | ConfigKey::MediaAddress
        | ConfigKey::MediaBase => put_plain_flaw(out, key, value),
    }
}

// Puts what is wrong at a key of a document.
fn put_key_flaw(out: &mut Draft, table: &Table, key: ConfigKey)
    ensures { out.new ≡ out.old
        ++ key_told key (get_member (config_key_name key) (table_view table.now)) }
{
    let Some(value) = value_at(table, key.name()) else {
        return;
    };
    put(out, key.name());
    put(out, ": ");
    put_value_flaw(out, key, value);
}

// The first key of a document that no configuration has, if it has one.
fn name_found(table: &Table) -> &str
    ensures { result.now ≡ name_found (other_key (table_view table.now)) }
{
    match other_key(table) {
        Some(name) => name,
        None => "",
    }
}

// Puts a key that no configuration has.
fn put_unknown(out: &mut Draft, name: &str, is_quoted: bool)
    ensures { out.new ≡ out.old ++ unknown_told is_quoted name.now }
{
    put(out, "unknown key ");
    put_text(out, name, is_quoted);
}

// Puts a flaw of a document.
fn put_document_flaw(out: &mut Draft, table: &Table, flaw: Flaw)
    ensures { out.new ≡ out.old ++ document_told (table_view table.now) flaw }
{
    match flaw {
        Flaw::Missing(key) => {
            put(out, "missing: ");
            put(out, key.name());
        }
        Flaw::BadValue(key) => put_key_flaw(out, table, key),
        Flaw::AnyAddress => {
            put(out, ConfigKey::MediaAddress.name());
            put(
                out,
                ": 0.0.0.0, wanted an address of this machine that others reach",
            );
        }
        Flaw::UnknownKey | Flaw::NoToml | Flaw::NoUtf8 | Flaw::TooLong => {
            put_unknown(out, name_found(table), true);
        }
    }
}

// Says a flaw of a document.
fn document_told(alloc: Global, table: &Table, flaw: Flaw) -> Result<Vec<u8>, OutOfMemory>
    ensures { IfOk result (λ line. line.items ≡ document_told (table_view table.now) flaw) }
{
    let mut line = Draft::new(alloc);
    put_document_flaw(&mut line, table, flaw);
    line.end()
}

// The number of the line that a place in a text is in, from 1.
fn line_at(text: &str, place: usize) -> u64 {
    let mut line: u64 = 1;
    for byte in text.as_bytes().iter().take(place) {
        if *byte == b'\n' {
            line = line.saturating_add(1);
        }
    }
    line
}

// Where a text isn't TOML any more.
fn start_of(fault: &toml::de::Error) -> usize {
    match fault.span() {
        Some(span) => span.start,
        None => 0,
    }
}

// Says why a text isn't TOML, behind the line where that shows.
fn line_told(alloc: Global, number: u64, why: &str) -> Result<Vec<u8>, OutOfMemory>
    ensures { IfOk result (λ line. line.items ≡ line_told number why.now) }
{
    let mut line = Draft::new(alloc);
    put(&mut line, "line ");
    write_number(&mut line, number);
    put(&mut line, ": ");
    put(&mut line, why);
    line.end()
}

// Says a flaw of a text in UTF-8.
#[tactic(auto, using(crate::proofs::WordingLemmas::tells_document, crate::proofs::WordingLemmas::tells_line))]
fn words_told(alloc: Global, text: &str, flaw: Flaw) -> Result<Vec<u8>, OutOfMemory>
    ensures { IfOk result (λ line. TellsRead (parse_document text.now) flaw line.items) }
{
    match toml::table_from_str(alloc, text) {
        Ok(table) => document_told(alloc, &table, flaw),
        Err(e) if e.is_memory() => Err(AllocError),
        Err(e) => line_told(alloc, line_at(text, start_of(&e)), e.message()),
    }
}

// The words of a text, where it is UTF-8.
fn words_of(text: &[u8]) -> &str
    ensures { IsUtf8 text.now → result.now ≡ text.now }
{
    match std::str::from_utf8(text) {
        Ok(words) => words,
        Err(_) => "",
    }
}

// Says a flaw that only a text in UTF-8 has.
#[tactic(auto, using(crate::proofs::WordingLemmas::tells_text))]
fn read_told(alloc: Global, text: &[u8], flaw: Flaw) -> Result<Vec<u8>, OutOfMemory>
    ensures { IfOk result (λ line. IsUtf8 text.now → TellsRead (parse_document text.now) flaw line.items) }
{
    words_told(alloc, words_of(text), flaw)
}

// Says that a text is too long.
fn limit_told(alloc: Global) -> Result<Vec<u8>, OutOfMemory>
    ensures { IfOk result (λ line. line.items ≡ limit_told) }
{
    let mut line = Draft::new(alloc);
    put(&mut line, "over ");
    write_number(&mut line, LIMIT as u64);
    put(&mut line, " bytes");
    line.end()
}

// Says words.
fn said(alloc: Global, words: &str) -> Result<Vec<u8>, OutOfMemory>
    ensures { IfOk result (λ line. line.items ≡ words.now) }
{
    let mut line = Draft::new(alloc);
    put(&mut line, words);
    line.end()
}

/// Says what is wrong with the configuration in a text, which has this flaw, in a line without its end: printable ASCII. Its only
/// error is want of memory.
pub fn told(alloc: Global, text: &[u8], flaw: Flaw) -> Result<Vec<u8>, OutOfMemory>
    ensures { IfOk result (λ line. Tells text.now flaw line.items) }
{
    match flaw {
        Flaw::TooLong => limit_told(alloc),
        Flaw::NoUtf8 => said(alloc, "no UTF-8"),
        Flaw::NoToml | Flaw::UnknownKey | Flaw::Missing(_) | Flaw::BadValue(_) | Flaw::AnyAddress =>
            read_told(alloc, text, flaw),
    }
}
