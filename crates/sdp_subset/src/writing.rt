//! How a session is written (RFC 2327, 6; RFC 3435, 3.4).
ghost use Rattle.std.specs.Prelude.{◌≡◌, ◌≤◌, ◌++◌, IfOk, IfSome, Some, false, codes, decimal, length, slice_get};
ghost use Rattle.std.specs.List.{flat_map, list_any};
ghost use Rattle.mg_bytes.specs.Lines.{cut, lines_of, is_dot_line, ended};
ghost use Rattle.sdp_subset.specs.declared.session.Session.{Session};
ghost use Rattle.sdp_subset.specs.Writing.{address_text, origin_line, origin_lines, connection_line, time_lines};
ghost use Rattle.sdp_subset.specs.Writing.{payloads_text, audio_line, ptime_lines};
ghost use Rattle.sdp_subset.specs.Writing.{session_text, as_read, IsSession};
ghost use Rattle.sdp_subset.specs.Spelling.{Reads};

use crate::session::{Origin, Session};
use mg_bytes::{Draft, OutOfMemory, Text, octets_of};
use std::alloc::Global;
use std::net::Ipv4Addr;

fn put_address(out: &mut Draft, address: Ipv4Addr)
    ensures { out.new ≡ out.old ++ address_text address }
{
    let [a, b, c, d] = octets_of(address);
    out.put_decimal(u64::from(a));
    out.put_byte(b'.');
    out.put_decimal(u64::from(b));
    out.put_byte(b'.');
    out.put_decimal(u64::from(c));
    out.put_byte(b'.');
    out.put_decimal(u64::from(d));
}

#[tactic(auto, unfolding(crate::specs::Writing::origin_line))]
fn put_origin(out: &mut Draft, origin: Origin, address: Ipv4Addr)
    ensures { out.new ≡ out.old ++ ended (origin_line origin address) }
{
    out.put(b"o=- ");
    out.put_decimal(u64::from(origin.number));
    out.put_byte(b' ');
    out.put_decimal(u64::from(origin.version));
    out.put(b" IN IP4 ");
    put_address(out, address);
    out.put(b"\r\n");
}

fn put_origin_lines(out: &mut Draft, origin: Option<Origin>, address: Ipv4Addr)
    ensures { out.new ≡ out.old ++ flat_map ended (origin_lines origin address) }
{
    if let Some(origin) = origin {
        put_origin(out, origin, address);
        out.put(b"s=-\r\n");
    }
}

#[tactic(auto, unfolding(crate::specs::Writing::connection_line))]
fn put_connection(out: &mut Draft, address: Ipv4Addr)
    ensures { out.new ≡ out.old ++ ended (connection_line address) }
{
    out.put(b"c=IN IP4 ");
    put_address(out, address);
    out.put(b"\r\n");
}

fn put_time_lines(out: &mut Draft, origin: Option<Origin>)
    ensures { out.new ≡ out.old ++ flat_map ended (time_lines origin) }
{
    if origin.is_some() {
        out.put(b"t=0 0\r\n");
    }
}

fn put_payloads(out: &mut Draft, payloads: &[u8])
    ensures { out.new ≡ out.old ++ payloads_text payloads.now }
{
    for payload in payloads {
        out.put_byte(b' ');
        out.put_decimal(u64::from(*payload));
    }
}

#[tactic(auto, unfolding(crate::specs::Writing::audio_line))]
fn put_audio(out: &mut Draft, port: u16, payloads: &[u8])
    ensures { out.new ≡ out.old ++ ended (audio_line port payloads.now) }
{
    out.put(b"m=audio ");
    out.put_decimal(u64::from(port));
    out.put(b" RTP/AVP");
    put_payloads(out, payloads);
    out.put(b"\r\n");
}

#[tactic(auto, unfolding(crate::specs::Writing::ptime_line))]
fn put_ptime_lines(out: &mut Draft, ptime: Option<u16>)
    ensures { out.new ≡ out.old ++ flat_map ended (ptime_lines ptime) }
{
    if let Some(ms) = ptime {
        out.put(b"a=ptime:");
        out.put_decimal(u64::from(ms));
        out.put(b"\r\n");
    }
}

#[tactic(auto, unfolding(crate::specs::Writing::session_text, crate::specs::Writing::session_lines))]
fn session_text(alloc: Global, session: &Session) -> Result<Text, OutOfMemory>
    ensures { IfOk result (λ text. text ≡ session_text session.now) }
{
    let mut out = Draft::new(alloc);
    out.put(b"v=0\r\n");
    put_origin_lines(&mut out, session.origin, session.address);
    put_connection(&mut out, session.address);
    put_time_lines(&mut out, session.origin);
    put_audio(&mut out, session.port, session.payloads.as_slice());
    put_ptime_lines(&mut out, session.ptime);
    out.into_text()
}

// The port, which has 16 bits.
fn port_in(session: &Session) -> u16
    ensures value { result ≡ session.now.port }
    ensures low { result ≤ 65535 }
{
    session.port
}

// The numbers of an origin, which have 32 bits.
fn numbers_of(origin: Option<Origin>)
    ensures { IfSome origin (λ origin. (origin.number ≤ 4294967295) × (origin.version ≤ 4294967295)) }
{
    if let Some(origin) = origin {
        let _numbers = (origin.number, origin.version);
    }
}

// The packet time, which has 16 bits.
fn time_of(ptime: Option<u16>)
    ensures { IfSome ptime (λ ms. ms ≤ 65535) }
{
    if let Some(ms) = ptime {
        let _time = ms;
    }
}

// What the types of its parts say of a session.
fn bounds_of(session: &Session)
    ensures is { IsSession session.now }
    ensures numbers { IfSome session.now.origin (λ origin. (origin.number ≤ 4294967295) × (origin.version ≤ 4294967295)) }
    ensures time { IfSome session.now.ptime (λ ms. ms ≤ 65535) }
{
    let _octets = octets_of(session.address);
    let _port = port_in(session);
    let _payloads = session.payloads.as_slice();
    numbers_of(session.origin);
    time_of(session.ptime);
}

/// The text of a session (RFC 2327, 6; RFC 3435, 3.4): `v=0`; with an origin `o=- number version IN IP4 a.b.c.d` and
/// `s=-`; `c=IN IP4 a.b.c.d`; with an origin `t=0 0`; `m=audio port RTP/AVP` and the payload types; with a packet time
/// `a=ptime:ms`. Each line has CRLF. An error is for want of memory only.
pub fn write_sdp(alloc: Global, session: &Session) -> Result<Text, OutOfMemory>
    ensures form { IfOk result (λ text. text ≡ session_text session.now) }
    // It is read with the same address, port and payload types.
    ensures reads { IfOk result (λ text. Reads text (Some (as_read session.now))) }
    // Its lines each have CRLF and no blanks round them; the first is `v=0`, and none is a single dot (RFC 3435, 3.5.5).
    ensures whole { IfOk result (λ text. flat_map (λ line. line ++ codes "\r\n") (lines_of text) ≡ text) }
    ensures first { IfOk result (λ text. slice_get (lines_of text) 0 ≡ Some (codes "v=0")) }
    ensures no_dots { IfOk result (λ text. list_any is_dot_line (cut text) ≡ false) }
    ensures short { IfOk result (λ text. length text ≤ 300) }
{
    // All clauses but the first stand on what these types say.
    bounds_of(session);
    session_text(alloc, session)
}
