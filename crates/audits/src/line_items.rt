//! What is known of a line: what it can do, its encoding, its hook state, its connections and its notified entity.
ghost use Rattle.std.specs.Prelude.{◌≡◌, ◌++◌, ◌<◌, length, codes, true, false, IfOk, IfSome, OnOk};
ghost use Rattle.std.specs.List.{list_any};
ghost use Rattle.mg_bytes.specs.Blanks.{is_blank};
ghost use Rattle.mg_bytes.specs.Lines.{is_line_feed};
ghost use Rattle.mgcp_text.specs.Message.{param_at};
ghost use Rattle.mgcp_text.specs.Writing.{is_writable_param};
ghost use Rattle.connections.specs.Codecs.{encoding_text};
ghost use Rattle.audits.specs.Endpoint.{shown};
ghost use Rattle.audits.specs.EndpointReport.{capabilities, hook_text, ids_text, endpoint_params};
ghost use Rattle.audits.specs.Writing.{comma_behind, with_id};

use crate::endpoint::AuditedEndpoint;
use crate::event_items::event_param;
use crate::word::{of_copy, of_name, of_text};
use connections::{Connection, Encoding, encoding_text, write_number};
use mg_bytes::{OutOfMemory, Text, same_no_case};
use mg_line::Hook;
use mgcp_text::{Bytes, Param};
use std::alloc::Global;

// A: what this gateway can do.
#[tactic(auto, unfolding(mg_bytes::specs::Blanks::trimmed, mg_bytes::specs::Blanks::trimmed_end))]
fn capabilities_param() -> Param<'static>
    ensures value { result ≡ record { code = codes "A"; value = capabilities } }
    ensures writable { is_writable_param result ≡ true }
{
    Param {
        code: Bytes::of(b"A"),
        value: Bytes::of(
            b"a:PCMU;PCMA, p:10-30, v:L;G;D, m:sendonly;recvonly;sendrecv;confrnce;inactive",
        ),
    }
}

// B: its encoding.
fn encoding_param(encoding: Encoding) -> Param<'static>
    ensures value { result ≡ record { code = codes "B"; value = encoding_text encoding } }
    ensures writable { is_writable_param result ≡ true }
{
    match encoding {
        Encoding::Mu => of_name(b"B", encoding_text(encoding)),
        Encoding::A => of_name(b"B", encoding_text(encoding)),
    }
}

// ES: the event that says its hook state.
fn hook_param(hook: Hook) -> Param<'static>
    ensures value { result ≡ record { code = codes "ES"; value = hook_text hook } }
    ensures writable { is_writable_param result ≡ true }
{
    match hook {
        Hook::OnHook => of_name(b"ES", b"L/hu"),
        Hook::OffHook => of_name(b"ES", b"L/hd"),
    }
}

// A comma, where something stands before it.
fn put_comma(out: &mut Vec<u8>) -> Result<(), OutOfMemory>
    ensures { OnOk result (out.new.items ≡ comma_behind out.old.items) }
{
    if !out.is_empty() {
        out.push(b',')?;
    }
    Ok(())
}

// The identifier of what a place holds, behind those of the places before it.
fn put_id(alloc: Global, out: &mut Vec<u8>, held: &Option<Connection>) -> Result<(), OutOfMemory>
    ensures { OnOk result (out.new.items ≡ with_id out.old.items held.now) }
{
    if let Some(connection) = held {
        put_comma(out)?;
        write_number(alloc, out, connection.number)?;
    }
    Ok(())
}

// The identifiers of the connections, by their places.
fn ids_text(alloc: Global, places: &[Option<Connection>]) -> Result<Text, OutOfMemory>
    ensures { IfOk result (λ text. text ≡ ids_text places.now) }
{
    let mut out = Vec::new(alloc);
    for held in places {
        put_id(alloc, &mut out, held)?;
    }
    Ok(Text::of(out))
}

// I: its connections.
#[tactic(auto, using(crate::proofs::IdLemmas::ids_no_blanks, crate::proofs::IdLemmas::ids_one_line))]
fn ids_param(alloc: Global, places: &[Option<Connection>]) -> Result<Param<'static>, OutOfMemory>
    ensures value { IfOk result (λ param. param ≡ record { code = codes "I"; value = ids_text places.now }) }
    ensures writable { IfOk result (λ param. is_writable_param param ≡ true) }
{
    let text = ids_text(alloc, places)?;
    Ok(of_text(b"I", text))
}

/// What is known of a line under this code. An error is for want of memory only.
pub(crate) fn line_param(
    alloc: Global,
    endpoint: AuditedEndpoint<'_>,
    code: &[u8],
) -> Result<Option<Param<'static>>, OutOfMemory>
    ensures value { IfOk result (λ found. found ≡ param_at code.now (endpoint_params (shown endpoint.entry))) }
    ensures writable { IfOk result (λ found. IfSome found (λ param. is_writable_param param ≡ true)) }
{
    if same_no_case(b"A", code) {
        return Ok(Some(capabilities_param()));
    }
    if same_no_case(b"B", code) {
        return Ok(Some(encoding_param(endpoint.encoding)));
    }
    if same_no_case(b"ES", code) {
        return Ok(Some(hook_param(endpoint.line.hook())));
    }
    if same_no_case(b"I", code) {
        return Ok(Some(ids_param(alloc, endpoint.connections.list())?));
    }
    if same_no_case(b"N", code) {
        return Ok(Some(of_copy(alloc, b"N", endpoint.entity.text.as_bytes())?));
    }
    event_param(alloc, endpoint.line, code)
}
