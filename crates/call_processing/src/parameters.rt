//! Commands as they are written (RFC 3435, 3.2.1 and 3.2.2).
ghost use Rattle.std.specs.Prelude.{◌≡◌, ◌++◌, IfOk};
ghost use Rattle.call_processing.specs.Parameters.{named_line, asked_text, map_line, request_lines, call_line, connection_line, towards, mode_lines, creation_lines, deletion_lines, change_lines, command_lines, flight_lines, description_in};

use crate::asked::Asked;
use crate::command::Command;
use crate::line::{Leg, Line};
use mg_bytes::{Draft, OutOfMemory, Text};
use std::alloc::Global;

/// The description of a connection; nothing where none is known to stand.
pub(crate) fn description_in(leg: &Leg) -> &[u8]
    ensures { result.now ≡ description_in leg.now }
{
    match leg {
        Leg::Standing { description, .. } => description.as_bytes(),
        Leg::Absent | Leg::Unknown { .. } => &[],
    }
}

// Which events are to be told, and which signal is to be heard (RFC 3435, 2.3.3).
fn asked_text(asked: Asked) -> &'static [u8]
    ensures { result.now ≡ asked_text asked }
{
    match asked {
        Asked::Rest => b"X: 1\r\nR: L/hd(N)\r\n",
        Asked::Digits => b"X: 2\r\nR: L/hu(N),L/oc(N),D/[0-9ABCD*#T](D)\r\nS: L/dl\r\n",
        Asked::Ring => b"X: 3\r\nR: L/hd(N),L/oc(N)\r\nS: L/rg\r\n",
        Asked::Ringback => b"X: 4\r\nR: L/hu(N),G/oc(N)\r\nS: G/rt\r\n",
        Asked::BusyTone => b"X: 5\r\nR: L/hu(N)\r\nS: L/bz\r\n",
        Asked::ReorderTone => b"X: 6\r\nR: L/hu(N)\r\nS: L/ro\r\n",
        Asked::Talk => b"X: 7\r\nR: L/hu(N)\r\n",
    }
}

fn put_line(out: &mut Draft, name: &[u8], value: &[u8])
    ensures { out.new ≡ out.old ++ named_line name.now value.now }
{
    out.put(name);
    out.put(value);
    out.put(b"\r\n");
}

// The digit map, where digits are asked for.
fn put_map(out: &mut Draft, asked: Asked, map: &[u8])
    ensures { out.new ≡ out.old ++ map_line asked map.now }
{
    match asked {
        Asked::Digits => put_line(out, b"D: ", map),
        Asked::Rest
        | Asked::Ring
        | Asked::Ringback
        | Asked::BusyTone
        | Asked::ReorderTone
        | Asked::Talk => {}
    }
}

fn put_request(out: &mut Draft, asked: Asked, map: &[u8])
    ensures { out.new ≡ out.old ++ request_lines asked map.now }
{
    out.put(asked_text(asked));
    put_map(out, asked, map);
}

fn put_call(out: &mut Draft, call: u64)
    ensures { out.new ≡ out.old ++ call_line call }
{
    out.put(b"C: ");
    out.put_decimal(call);
    out.put(b"\r\n");
}

// The connection, where one is known to stand.
fn put_connection(out: &mut Draft, leg: &Leg)
    ensures { out.new ≡ out.old ++ connection_line leg.now }
{
    match leg {
        Leg::Standing { connection, .. } => put_line(out, b"I: ", connection.as_slice()),
        Leg::Absent | Leg::Unknown { .. } => {}
    }
}

fn put_pair(out: &mut Draft, first: &[u8], second: &[u8])
    ensures { out.new ≡ out.old ++ (first.now ++ second.now) }
{
    out.put(first);
    out.put(second);
}

// In both directions, towards the other end.
fn put_towards(out: &mut Draft, description: &[u8])
    ensures { out.new ≡ out.old ++ towards description.now }
{
    put_pair(out, b"M: sendrecv\r\n\r\n", description);
}

fn put_mode(out: &mut Draft, joined: bool, description: &[u8])
    ensures { out.new ≡ out.old ++ mode_lines joined description.now }
{
    if joined {
        put_towards(out, description);
    } else {
        out.put(b"M: recvonly\r\n");
    }
}

fn put_creation(out: &mut Draft, call: u64, joined: bool, description: &[u8])
    ensures { out.new ≡ out.old ++ creation_lines call joined description.now }
{
    put_call(out, call);
    put_mode(out, joined, description);
}

fn put_deletion(out: &mut Draft, call: u64, leg: &Leg)
    ensures { out.new ≡ out.old ++ deletion_lines call leg.now }
{
    put_call(out, call);
    put_connection(out, leg);
}

fn put_change(out: &mut Draft, call: u64, leg: &Leg, description: &[u8])
    ensures { out.new ≡ out.old ++ change_lines call leg.now description.now }
{
    put_deletion(out, call, leg);
    put_towards(out, description);
}

fn put_command(out: &mut Draft, command: Command, leg: &Leg, description: &[u8], map: &[u8])
    ensures { out.new ≡ out.old ++ command_lines command leg.now description.now map.now }
{
    match command {
        Command::Ask(asked) => put_request(out, asked, map),
        Command::Create { call, joined } => put_creation(out, call, joined, description),
        Command::Modify { call } => put_change(out, call, leg, description),
        Command::Delete { call } => put_deletion(out, call, leg),
    }
}

/// What stands behind the command line of the command in flight to a line; nothing where none is.
pub(crate) fn flight_lines(
    alloc: Global,
    line: &Line,
    description: &[u8],
    map: &[u8],
) -> Result<Text, OutOfMemory>
    ensures { IfOk result (λ text. text ≡ flight_lines line.now.flight line.now.leg description.now map.now) }
{
    let mut out = Draft::new(alloc);
    match line.flight {
        Some(command) => put_command(&mut out, command, &line.leg, description, map),
        None => {}
    }
    out.into_text()
}
