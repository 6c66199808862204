//! Why a configuration is refused, in words: the key, what stands there, and what may.
ghost use Rattle.std.specs.Prelude.{◌≡◌, ◌++◌};
ghost use Rattle.toml.specs.View.{view};
ghost use Rattle.log_format.specs.Grouping.{number_shown};
ghost use Rattle.agent_config.specs.ConfigFaults.{key_behind, place_text, value_text, up_to, fault_text, missing_line, unknown_line, value_line, refused_line, count_line, name_line, limit_line, IsTold};

use endpoint_names::LONGEST_DOMAIN;
use log_format::{write_number, write_shown};
use mg_bytes::Draft;
use std::alloc::{AllocError, Global};
use toml::Value;

/// So many gateways are served at most.
pub const MOST_GATEWAYS: usize = 1024;

/// So many lines a gateway has at most.
pub const MOST_NUMBERS: usize = 96;

/// So many keys are a number at most.
pub const LONGEST_NUMBER: usize = 32;

/// Why a configuration is refused.
#[derive(Drop)]
pub enum ConfigRefusal {
    /// Memory was refused.
    OutOfMemory,
    /// It has faults, each of which a line tells: printable ASCII. The last has no end.
    Told { line: Vec<u8> },
}

impl From<AllocError> for ConfigRefusal {
    ghost use Rattle.agent_config.specs.declared.config_fault.ConfigRefusal.TheVariants as refusals;

    ghost from_gives = { λ _ refusal. refusal ≡ refusals.OutOfMemory };

    fn from(_refused: AllocError) -> ConfigRefusal {
        ConfigRefusal::OutOfMemory
    }
}

/// A key of a configuration; where a gateway's domain is there, of that gateway, whose own key it is where no other follows.
#[derive(Clone, Copy)]
pub struct Place<'a> {
    pub gateway: Option<&'a str>,
    pub key: &'a str,
}

/// What is wrong with what stands at a key.
#[derive(Clone, Copy)]
pub enum ValueFault {
    NoAddress,
    NoDigitMap,
    NoDomain,
    NoGateway,
    NoGateways,
    NoNumber,
    NoNumbers,
    Twice,
}

fn put(out: &mut Draft, words: &str)
    ensures { out.new ≡ out.old ++ words.now }
{
    out.put(words.as_bytes());
}

fn put_key(out: &mut Draft, key: &str)
    ensures { out.new ≡ out.old ++ key_behind key.now }
{
    if key.is_empty() {
        return;
    }
    put(out, ".");
    write_shown(out, key.as_bytes());
}

fn put_place(out: &mut Draft, place: Place<'_>)
    ensures { out.new ≡ out.old ++ place_text place.entry }
{
    let Some(domain) = place.gateway else {
        write_shown(out, place.key.as_bytes());
        return;
    };
    put(out, "gateways.\"");
    write_shown(out, domain.as_bytes());
    put(out, "\"");
    put_key(out, place.key);
}

// Puts a text that stands there, or of what kind it is.
fn put_value(out: &mut Draft, value: &Value)
    ensures { out.new ≡ out.old ++ value_text (view value.now) }
{
    let Some(text) = value.as_str() else {
        put(out, value.type_str());
        return;
    };
    put(out, "\"");
    write_shown(out, text.as_bytes());
    put(out, "\"");
}

// Puts that at least one is wanted, and so many at most.
fn put_up_to(out: &mut Draft, most: usize, of: &str)
    ensures { out.new ≡ out.old ++ up_to most of.now }
{
    put(out, ", wanted 1 to ");
    write_number(out, most as u64);
    put(out, of);
}

// Puts what may stand there.
fn put_fault(out: &mut Draft, fault: ValueFault)
    ensures { out.new ≡ out.old ++ fault_text fault }
{
    match fault {
        ValueFault::NoAddress => put(
            out,
            ", wanted an address a.b.c.d:port, with a port from 1 on",
        ),
        ValueFault::NoDigitMap => put(out, ", wanted a digit map, as \"(2xx|0)\""),
        ValueFault::NoDomain => {
            put_up_to(out, LONGEST_DOMAIN, " letters, digits, \"-\" and \".\"");
        }
        ValueFault::NoGateway => put(out, ", wanted a table with address and numbers"),
        ValueFault::NoGateways => put_up_to(out, MOST_GATEWAYS, " tables"),
        ValueFault::NoNumber => {
            put_up_to(
                out,
                LONGEST_NUMBER,
                " of 0 to 9, A to D, * and #, in quotes",
            );
        }
        ValueFault::NoNumbers => put_up_to(out, MOST_NUMBERS, " numbers in a list"),
        ValueFault::Twice => put(out, " stands twice"),
    }
}

// A line about a key.
fn place_line(alloc: Global, before: &str, place: Place<'_>) -> Draft
    ensures { result ≡ before.now ++ place_text place.entry }
{
    let mut line = Draft::new(alloc);
    put(&mut line, before);
    put_place(&mut line, place);
    line
}

// A line about what stands at a key.
fn value_line(alloc: Global, place: Place<'_>, value: &Value, fault: ValueFault) -> Draft
    ensures { result ≡ value_line (place_text place.entry) (view value.now) fault }
{
    let mut line = place_line(alloc, "", place);
    put(&mut line, ": ");
    put_value(&mut line, value);
    put_fault(&mut line, fault);
    line
}

// A line about how many stand at a key.
fn count_line(alloc: Global, place: Place<'_>, count: usize, fault: ValueFault) -> Draft
    ensures { result ≡ count_line (place_text place.entry) count fault }
{
    let mut line = place_line(alloc, "", place);
    put(&mut line, ": ");
    write_number(&mut line, count as u64);
    put_fault(&mut line, fault);
    line
}

/// It has a fault that this line tells.
pub(crate) fn told(line: Draft) -> ConfigRefusal
    ensures { IsTold line result }
{
    match line.end() {
        Ok(line) => ConfigRefusal::Told { line },
        Err(_) => ConfigRefusal::OutOfMemory,
    }
}

/// What stands at a key may not; or the key is missing.
pub(crate) fn refused(
    alloc: Global,
    place: Place<'_>,
    value: Option<&Value>,
    fault: ValueFault,
) -> ConfigRefusal
    ensures { IsTold (refused_line (place_text place.entry) value.entry fault) result }
{
    let Some(value) = value else {
        return missing(alloc, place);
    };
    told(value_line(alloc, place, value, fault))
}

/// A key is missing.
pub fn missing(alloc: Global, place: Place<'_>) -> ConfigRefusal
    ensures { IsTold (missing_line (place_text place.entry)) result }
{
    told(place_line(alloc, "missing: ", place))
}

/// There is no such key.
pub(crate) fn unknown(alloc: Global, place: Place<'_>) -> ConfigRefusal
    ensures { IsTold (unknown_line (place_text place.entry)) result }
{
    told(place_line(alloc, "unknown key ", place))
}

/// So many may not stand at a key.
pub(crate) fn miscounted(
    alloc: Global,
    place: Place<'_>,
    count: usize,
    fault: ValueFault,
) -> ConfigRefusal
    ensures { IsTold (count_line (place_text place.entry) count fault) result }
{
    told(count_line(alloc, place, count, fault))
}

/// A key may not be so.
pub(crate) fn misnamed(alloc: Global, place: Place<'_>, fault: ValueFault) -> ConfigRefusal
    ensures { IsTold (name_line (place_text place.entry) fault) result }
{
    let mut line = place_line(alloc, "", place);
    put_fault(&mut line, fault);
    told(line)
}

/// The text has more bytes than this.
pub fn too_long(alloc: Global, limit: usize) -> ConfigRefusal
    ensures { IsTold (limit_line limit) result }
{
    let mut line = Draft::new(alloc);
    put(&mut line, "over ");
    write_number(&mut line, limit as u64);
    put(&mut line, " bytes");
    told(line)
}
