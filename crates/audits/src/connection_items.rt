//! What is known of a connection.
ghost use Rattle.std.specs.Prelude.{◌≡◌, codes, true, IfOk, IfSome};
ghost use Rattle.mgcp_text.specs.Message.{param_at};
ghost use Rattle.mgcp_text.specs.Writing.{is_writable_param};
ghost use Rattle.connections.specs.Modes.{mode_text};
ghost use Rattle.connections.specs.Options.{options_text};
ghost use Rattle.audits.specs.ConnectionReport.{counts_text, connection_params};

use crate::word::{of_copy, of_name};
use connections::{Connection, Mode, mode_text, write_options};
use endpoint_names::Entity;
use mg_bytes::{OutOfMemory, same_no_case};
use mgcp_text::{Bytes, Param};
use std::alloc::Global;

// L: its local list and packet time.
#[tactic(auto, using(crate::proofs::ValueLemmas::options_writable))]
fn options_param(alloc: Global, connection: &Connection) -> Result<Param<'static>, OutOfMemory>
    ensures value { IfOk result (λ param. param ≡ record {
      code = codes "L";
      value = options_text connection.now.codecs.local connection.now.options.packet_time;
    }) }
    ensures writable { IfOk result (λ param. is_writable_param param ≡ true) }
{
    let text = write_options(
        alloc,
        connection.codecs.local,
        connection.options.packet_time,
    )?;
    Ok(Param {
        code: Bytes::of(b"L"),
        value: Bytes::owned(text),
    })
}

// M: its mode.
fn mode_param(mode: Mode) -> Param<'static>
    ensures value { result ≡ record { code = codes "M"; value = mode_text mode } }
    ensures writable { is_writable_param result ≡ true }
{
    match mode {
        Mode::SendOnly => of_name(b"M", mode_text(mode)),
        Mode::ReceiveOnly => of_name(b"M", mode_text(mode)),
        Mode::SendReceive => of_name(b"M", mode_text(mode)),
        Mode::Conference => of_name(b"M", mode_text(mode)),
        Mode::Inactive => of_name(b"M", mode_text(mode)),
    }
}

// P: the counts of its packets; this gateway has no media.
#[tactic(auto, unfolding(mg_bytes::specs::Blanks::trimmed, mg_bytes::specs::Blanks::trimmed_end))]
fn counts_param() -> Param<'static>
    ensures value { result ≡ record { code = codes "P"; value = counts_text } }
    ensures writable { is_writable_param result ≡ true }
{
    Param {
        code: Bytes::of(b"P"),
        value: Bytes::of(b"PS=0, OS=0, PR=0, OR=0, PL=0, JI=0, LA=0"),
    }
}

/// What is known of a connection under this code, on a line with this notified entity. An error is for want of memory only.
pub(crate) fn connection_param(
    alloc: Global,
    entity: &Entity,
    connection: &Connection,
    code: &[u8],
) -> Result<Option<Param<'static>>, OutOfMemory>
    ensures value { IfOk result (λ found. found ≡ param_at code.now (connection_params entity.now.text connection.now)) }
    ensures writable { IfOk result (λ found. IfSome found (λ param. is_writable_param param ≡ true)) }
{
    if same_no_case(b"C", code) {
        return Ok(Some(of_copy(alloc, b"C", connection.call.as_slice())?));
    }
    if same_no_case(b"L", code) {
        return Ok(Some(options_param(alloc, connection)?));
    }
    if same_no_case(b"M", code) {
        return Ok(Some(mode_param(connection.mode)));
    }
    if same_no_case(b"N", code) {
        return Ok(Some(of_copy(alloc, b"N", entity.text.as_bytes())?));
    }
    if same_no_case(b"P", code) {
        return Ok(Some(counts_param()));
    }
    Ok(None)
}
