//! The printed form of datagrams, refusals and lines.
ghost use Rattle.std.specs.Prelude.{◌≡◌, ◌≤◌, ◌++◌, length, codes, OnOk, OnErr};
ghost use Rattle.std.specs.List.{flat_map};
ghost use Rattle.mg_bytes.specs.Lines.{lines_of};
ghost use Rattle.rgw_scripts.specs.Printing.{printed_line, datagram_line, printed_datagram, refusal_line};
ghost use Rattle.rgw_scripts.specs.Printing.{hook_word, end_shown, signal_shown, connection_shown, listed, held_in};
ghost use Rattle.rgw_scripts.specs.Printing.{line_head, signals_shown, connections_shown, lost_shown, shown_line};

use crate::link::Link;
use crate::played::StepFault;
use crate::status::LineStatus;
use connections::{Connection, mode_text, write_number};
use events_and_signals::ActiveSignal;
use log_format::put_peer;
use mg_bytes::{Draft, OutOfMemory, lines};
use mg_line::Hook;
use packages::signal_name;
use plain_machine::{OutDatagram, Refusal};
use std::alloc::Global;

// The room, in bytes, that the text of datagrams begins with: most are shorter.
const TEXT_ROOM: usize = 256;

// The room that the text of these datagrams begins with.
fn room_for(datagrams: &[OutDatagram]) -> usize {
    if datagrams.is_empty() { 0 } else { TEXT_ROOM }
}

// The line of a datagram's moment and address.
fn put_datagram_line(out: &mut Draft, datagram: &OutDatagram)
    ensures { out.new ≡ out.old ++ printed_line (datagram_line datagram.now) }
{
    out.put(b"> ");
    out.put_decimal(datagram.moment);
    out.put(b" ");
    put_peer(out, datagram.to);
    out.put(b"\n");
}

fn put_lines(out: &mut Draft, bytes: &[u8])
    ensures { out.new ≡ out.old ++ flat_map printed_line (lines_of bytes.now) }
{
    for line in lines(bytes) {
        out.put(line);
        out.put_byte(b'\n');
    }
}

// Prints a datagram that goes out, of which these bytes arrived.
#[tactic(auto, unfolding(crate::specs::Printing::printed_datagram))]
fn put_datagram(out: &mut Draft, datagram: &OutDatagram, arrived: &[u8])
    requires { arrived.now ≡ datagram.now.bytes }
    ensures { out.new ≡ out.old ++ printed_datagram datagram.now }
{
    put_datagram_line(out, datagram);
    put_lines(out, arrived);
    out.put(b"--\n");
}

// Carries datagrams to the call agent in their order, and prints each as it arrives there.
fn carry_datagrams<L: Link>(
    link: &mut L,
    out: &mut Draft,
    datagrams: &[OutDatagram],
) -> Result<(), L::Fault>
    ensures { OnOk result (out.new ≡ out.old ++ flat_map printed_datagram datagrams.now) }
{
    for datagram in datagrams {
        match link.to_agent(datagram.bytes.as_bytes()) {
            Ok(arrived) => put_datagram(out, datagram, arrived),
            Err(fault) => return Err(fault),
        }
    }
    Ok(())
}

/// Carries datagrams to the call agent in their order, and prints each as it arrives there. After an error what was printed is
/// as it was.
pub fn put_datagrams<L: Link>(
    alloc: Global,
    link: &mut L,
    out: &mut Vec<u8>,
    datagrams: &[OutDatagram],
) -> Result<(), StepFault<L::Fault>>
    ensures ok { OnOk result (out.new.items ≡ out.old.items
        ++ flat_map printed_datagram datagrams.now) }
    ensures grows { length out.old.items ≤ length out.new.items }
    ensures err { OnErr result (out.new.items ≡ out.old.items) }
{
    let mut text = Draft::with_room(alloc, room_for(datagrams));
    match carry_datagrams(link, &mut text, datagrams) {
        Ok(()) => {}
        Err(fault) => return Err(StepFault::Link(fault)),
    }
    text.append_to(out)?;
    Ok(())
}

/// Prints why a step is refused. After an error what was printed is as it was.
pub fn put_refusal(alloc: Global, out: &mut Vec<u8>, refusal: Refusal) -> Result<(), OutOfMemory>
    ensures ok { OnOk result (out.new.items ≡ out.old.items ++ printed_line (refusal_line refusal)) }
    ensures grows { length out.old.items ≤ length out.new.items }
    ensures err { OnErr result (out.new.items ≡ out.old.items) }
{
    let mut line = Draft::new(alloc);
    line.put(b"! ");
    line.put_decimal(u64::from(refusal.number()));
    line.put(b" ");
    line.put(refusal.name().as_bytes());
    line.put(b"\n");
    line.append_to(out)
}

/// The word by which it is shown how a hook is.
pub fn hook_word(hook: Hook) -> &'static [u8]
    ensures { result.now ≡ hook_word hook }
{
    match hook {
        Hook::OffHook => b"off",
        Hook::OnHook => b"on",
    }
}

/// Puts when a signal ends, in ms, or `-` where no time ends it.
pub fn put_end(out: &mut Draft, end: Option<u64>)
    ensures { out.new ≡ out.old ++ end_shown end }
{
    match end {
        Some(end) => out.put_decimal(end),
        None => out.put(b"-"),
    }
}

fn put_signal(out: &mut Draft, active: ActiveSignal)
    ensures { out.new ≡ out.old ++ signal_shown active }
{
    out.put(signal_name(active.signal));
    out.put(b":");
    put_end(out, active.end);
}

fn put_more_signals(out: &mut Draft, more: &[ActiveSignal])
    ensures { out.new ≡ out.old ++ flat_map (λ next. codes "," ++ signal_shown next) more.now }
{
    for active in more {
        out.put(b",");
        put_signal(out, *active);
    }
}

#[tactic(auto, unfolding(crate::specs::Printing::listed, crate::specs::Printing::signals_shown))]
fn put_signals(out: &mut Draft, signals: &[ActiveSignal])
    ensures { out.new ≡ out.old ++ signals_shown signals.now }
{
    out.put(b" signals ");
    match signals {
        [] => out.put(b"-"),
        [first, more @ ..] => {
            put_signal(out, *first);
            put_more_signals(out, more);
        }
    }
}

// The identifier is what can't be put without memory of its own.
fn put_connection(
    alloc: Global,
    out: &mut Draft,
    connection: &Connection,
) -> Result<(), OutOfMemory>
    ensures { OnOk result (out.new ≡ out.old ++ connection_shown connection.now) }
{
    let mut identifier = Vec::new(alloc);
    write_number(alloc, &mut identifier, connection.number)?;
    out.put(&identifier);
    out.put(b":");
    out.put(mode_text(connection.mode));
    Ok(())
}

fn put_more_connections(
    alloc: Global,
    out: &mut Draft,
    more: &[Option<Connection>],
) -> Result<(), OutOfMemory>
    ensures { OnOk result (out.new ≡ out.old
        ++ flat_map (λ next. codes "," ++ connection_shown next) (held_in more.now)) }
{
    for held in more {
        let Some(connection) = held else {
            continue;
        };
        out.put(b",");
        put_connection(alloc, out, connection)?;
    }
    Ok(())
}

#[tactic(auto, unfolding(crate::specs::Printing::listed))]
fn put_held(
    alloc: Global,
    out: &mut Draft,
    places: &[Option<Connection>],
) -> Result<(), OutOfMemory>
    ensures { OnOk result (out.new ≡ out.old ++ listed connection_shown (held_in places.now)) }
{
    match places {
        [] => {
            out.put(b"-");
            Ok(())
        }
        [None, more @ ..] => put_held(alloc, out, more),
        [Some(first), more @ ..] => {
            put_connection(alloc, out, first)?;
            put_more_connections(alloc, out, more)
        }
    }
}

#[tactic(auto, unfolding(crate::specs::Printing::connections_shown))]
fn put_connections(
    alloc: Global,
    out: &mut Draft,
    places: &[Option<Connection>],
) -> Result<(), OutOfMemory>
    ensures { OnOk result (out.new ≡ out.old ++ connections_shown places.now) }
{
    out.put(b" connections ");
    put_held(alloc, out, places)
}

#[tactic(auto, unfolding(crate::specs::Printing::line_head))]
fn put_head(out: &mut Draft, line: u16, hook: Hook)
    ensures { out.new ≡ out.old ++ line_head line hook }
{
    out.put(b"line ");
    out.put_decimal(u64::from(line));
    out.put(b" ");
    out.put(hook_word(hook));
}

#[tactic(auto, unfolding(crate::specs::Printing::lost_shown))]
fn put_lost(out: &mut Draft, lost: u64)
    ensures { out.new ≡ out.old ++ lost_shown lost }
{
    out.put(b" lost ");
    out.put_decimal(lost);
}

/// Prints what a line is. After an error what was printed is as it was.
pub fn put_line(
    alloc: Global,
    out: &mut Vec<u8>,
    status: &LineStatus<'_>,
) -> Result<(), OutOfMemory>
    ensures ok { OnOk result (out.new.items ≡ out.old.items ++ printed_line (shown_line status.now)) }
    ensures grows { length out.old.items ≤ length out.new.items }
    ensures err { OnErr result (out.new.items ≡ out.old.items) }
{
    let mut line = Draft::new(alloc);
    put_head(&mut line, status.line, status.hook);
    put_signals(&mut line, status.signals.as_slice());
    put_connections(alloc, &mut line, status.connections)?;
    put_lost(&mut line, status.lost);
    line.put(b"\n");
    line.append_to(out)
}
