//! What is wrong with the call agent of a configuration (RFC 3435, 2.1.4 and 3.2.1.3).
ghost use Rattle.std.specs.Prelude.{◌≡◌, ◌++◌, option_map};
ghost use Rattle.std.specs.List.{list_any};
ghost use Rattle.toml.specs.View.{view};
ghost use Rattle.mg_bytes.specs.Blanks.{is_blank};
ghost use Rattle.mg_bytes.specs.Bytes.{at_sign};
ghost use Rattle.mg_bytes.specs.Lines.{is_line_feed};
ghost use Rattle.mg_bytes.specs.Words.{split_once};
ghost use Rattle.gateway_config.specs.AgentWording.{form_wanted, longest_wanted, is_literal, host_wanted, port_up_to, port_wanted, sides_of, place_wanted};
ghost use Rattle.gateway_config.specs.AgentWording.{local_wanted, word_by, text_wanted, agent_told};

use crate::pieces::{put, put_value};
use endpoint_names::{LONGEST_ENTITY, LONGEST_LOCAL};
use log_format::write_number;
use mg_bytes::{Draft, in_brackets, ipv4_address, port_number, split_once};
use toml::Value;

// What a call agent is written as.
fn form() -> &'static str
    ensures { result.now ≡ form_wanted }
{
    ", wanted a text [local@]host[:port]"
}

fn any_blank(text: &[u8]) -> bool
    ensures { result ≡ list_any is_blank text.now }
{
    for byte in text {
        if *byte == b' ' || *byte == b'\t' {
            return true;
        }
    }
    false
}

fn any_line_feed(text: &[u8]) -> bool
    ensures { result ≡ list_any is_line_feed text.now }
{
    for byte in text {
        if *byte == b'\n' {
            return true;
        }
    }
    false
}

fn is_literal(host: &[u8]) -> bool
    ensures { result ≡ is_literal host.now }
{
    match in_brackets(host) {
        Some(address) => ipv4_address(address).is_some(),
        None => false,
    }
}

// What a host lacks, whatever names there are.
fn host_wanted(host: &[u8]) -> Option<&'static str>
    ensures { option_map (λ words. words.now) result ≡ host_wanted host.now }
{
    if host.is_empty() {
        return Some(form());
    }
    if host.starts_with(b"[") && !is_literal(host) {
        return Some(", wanted an IPv4 address in the brackets");
    }
    match ipv4_address(host) {
        Some(_) => Some(", an address wants brackets"),
        None => None,
    }
}

// Puts that a port is wanted, from 1 on.
fn put_port_up_to(out: &mut Draft, greatest: u64)
    ensures { out.new ≡ out.old ++ port_up_to greatest }
{
    put(out, ", wanted a port from 1 to ");
    write_number(out, greatest);
}

// Puts what is wrong with a port, or with a host that has a right one.
fn put_port_flaw(out: &mut Draft, port: &[u8])
    ensures { out.new ≡ out.old ++ port_wanted port.now }
{
    match port_number(port) {
        Some(_) => put(out, ", no such host in [names]"),
        None => put_port_up_to(out, u64::from(u16::MAX)),
    }
}

// A host, and its port; one that isn't written is right.
fn sides_of(place: &[u8]) -> (&[u8], &[u8])
    ensures host { result.0.now ≡ (sides_of place.now).0 }
    ensures port { result.1.now ≡ (sides_of place.now).1 }
{
    match split_once(place, b':') {
        Some((host, port)) => (host, port),
        None => (place, b"1".as_slice()),
    }
}

// Puts what is wrong with what stands behind the local name.
fn put_place_flaw(out: &mut Draft, place: &[u8])
    ensures { out.new ≡ out.old ++ place_wanted place.now }
{
    let (host, port) = sides_of(place);
    match host_wanted(host) {
        Some(wanted) => put(out, wanted),
        None => put_port_flaw(out, port),
    }
}

// Puts how long something may be.
fn put_longest(out: &mut Draft, longest: usize, words: &str)
    ensures { out.new ≡ out.old ++ longest_wanted longest words.now }
{
    put(out, ", wanted at most ");
    write_number(out, longest as u64);
    put(out, words);
}

// Puts what is wrong with a local name, or with what stands behind one that is right.
fn put_local_flaw(out: &mut Draft, local: &[u8], place: &[u8])
    ensures { out.new ≡ out.old ++ local_wanted local.now place.now }
{
    if local.is_empty() {
        put(out, form());
        return;
    }
    if local.len() > LONGEST_LOCAL {
        put_longest(out, LONGEST_LOCAL, " bytes before the @");
        return;
    }
    put_place_flaw(out, place);
}

// Puts what is wrong with a text of one word.
fn put_word_flaw(out: &mut Draft, agent: &[u8])
    ensures { out.new ≡ out.old ++ word_by agent.now (split_once at_sign agent.now) }
{
    match split_once(agent, b'@') {
        Some((local, place)) => put_local_flaw(out, local, place),
        None => put_place_flaw(out, agent),
    }
}

// Puts what is wrong with a text.
fn put_text_flaw(out: &mut Draft, agent: &[u8])
    ensures { out.new ≡ out.old ++ text_wanted agent.now }
{
    if agent.len() > LONGEST_ENTITY {
        put_longest(out, LONGEST_ENTITY, " bytes");
        return;
    }
    if any_blank(agent) || any_line_feed(agent) {
        put(out, ", wanted no blank in it");
        return;
    }
    put_word_flaw(out, agent);
}

/// Puts what stands in the place of a call agent, which is none that the names know, and what may.
pub fn put_agent_flaw(out: &mut Draft, value: &Value)
    ensures { out.new ≡ out.old ++ agent_told (view value.now) }
{
    put_value(out, value, false);
    match value.as_str() {
        Some(agent) => put_text_flaw(out, agent.as_bytes()),
        None => put(out, form()),
    }
}
