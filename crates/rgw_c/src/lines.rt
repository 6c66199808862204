//! What a line is.
ghost use Rattle.std.specs.Prelude.{◌≡◌, ◌≢◌, ◌≤◌, ◌<◌, ◌+◌, ◌*◌, List, length, IfSome, Some, None, option_map};
ghost use Rattle.plain_machine.specs.Lists.{hook_of, signals_of, connections_of, lost_of};
ghost use Rattle.plain_machine.specs.Event.{GatewayEvent};
ghost use Rattle.plain_machine.specs.Lists.{plain};
ghost use Rattle.plain_machine.specs.Machine.{port_of};
ghost use Rattle.gateway_core.specs.Stands.{Stands};
ghost use Rattle.connections.specs.Codecs.{listed};
ghost use Rattle.rgw_c.specs.LineTelling.{TellsOf, Tells, at_index, hook_number, signal_number, signal_of, mode_number};
ghost use Rattle.rgw_c.specs.LineTelling.{first_payload, last_payload, local_port, remote_known, remote_host, remote_port, connection_of, place_number};
ghost use Rattle.rgw_c.specs.Telling.{open_number, line_number_in, line_number, found_number};

use crate::handle::{Handle, put, take};
use crate::numbers::{NO_CONNECTION, NO_SUCH_LINE, NO_SUCH_PLACE, NOT_OPEN, OK};
use crate::structs::{ConnectionTold, SignalTold};
use connections::{Codec, Codecs, Connection, Mode};
use events_and_signals::ActiveSignal;
use gateway_core::Gateway;
use mg_line::Hook;
use packages::Signal;
use plain_machine::Setup;
use sdp_subset::Session;
use std::alloc::Global;

/// How many lines a gateway has.
#[unsafe(no_mangle)]
pub extern "C" fn rgw_lines_nonnull(alloc: Global, handle: &mut Handle, lines: &mut u16) -> u32
    ensures number { result ≡ open_number handle.old.held }
    ensures lines { IfSome handle.old.held (λ is. lines.new ≡ is.gateway.setup.names.lines) }
    ensures left { result ≢ OK → lines.new ≡ lines.old }
    ensures kept { handle.new.held ≡ handle.old.held }
{
    let Some(instance) = take(handle, alloc) else {
        return NOT_OPEN;
    };
    *lines = instance.gateway.lines();
    put(handle, alloc, instance);
    OK
}

fn hook_number(hook: Hook) -> u32
    ensures { result ≡ hook_number hook }
{
    match hook {
        Hook::OnHook => 0,
        Hook::OffHook => 1,
    }
}

// Tells the hook state of a line, if there is such a line.
fn tell_hook(gateway: &Gateway, line: u16, hook: &mut u32) -> u32
    ensures number { result ≡ line_number_in gateway.now.setup line }
    ensures hook { result ≡ OK → TellsOf gateway.now (λ _ m. option_map hook_number (hook_of m line) ≡ Some hook.new) }
    ensures left { result ≢ OK → hook.new ≡ hook.old }
{
    if line >= 1 && line <= gateway.lines() {
        *hook = hook_number(gateway.hook(line));
        return OK;
    }
    NO_SUCH_LINE
}

/// The hook state of a line, from 1: 0 on hook, 1 off hook.
#[unsafe(no_mangle)]
pub extern "C" fn rgw_hook_nonnull(
    alloc: Global,
    handle: &mut Handle,
    line: u16,
    hook: &mut u32,
) -> u32
    ensures number { result ≡ line_number handle.old.held line }
    ensures hook { result ≡ OK → Tells handle.old.held (λ _ m. option_map hook_number (hook_of m line) ≡ Some hook.new) }
    ensures left { result ≢ OK → hook.new ≡ hook.old }
    ensures kept { handle.new.held ≡ handle.old.held }
{
    let Some(instance) = take(handle, alloc) else {
        return NOT_OPEN;
    };
    let number = tell_hook(&instance.gateway, line, hook);
    put(handle, alloc, instance);
    number
}

// Tells how many events of a line found no room, if there is such a line.
fn tell_lost(gateway: &Gateway, line: u16, lost: &mut u64) -> u32
    ensures number { result ≡ line_number_in gateway.now.setup line }
    ensures lost { result ≡ OK → TellsOf gateway.now (λ _ m. lost_of m line ≡ Some lost.new) }
    ensures left { result ≢ OK → lost.new ≡ lost.old }
{
    if line >= 1 && line <= gateway.lines() {
        *lost = gateway.lost(line);
        return OK;
    }
    NO_SUCH_LINE
}

/// How many events of a line, from 1, found no room in its quarantine (RFC 3435, 4.4.1).
#[unsafe(no_mangle)]
pub extern "C" fn rgw_lost_nonnull(
    alloc: Global,
    handle: &mut Handle,
    line: u16,
    lost: &mut u64,
) -> u32
    ensures number { result ≡ line_number handle.old.held line }
    ensures lost { result ≡ OK → Tells handle.old.held (λ _ m. lost_of m line ≡ Some lost.new) }
    ensures left { result ≢ OK → lost.new ≡ lost.old }
    ensures kept { handle.new.held ≡ handle.old.held }
{
    let Some(instance) = take(handle, alloc) else {
        return NOT_OPEN;
    };
    let number = tell_lost(&instance.gateway, line, lost);
    put(handle, alloc, instance);
    number
}

fn signal_number(signal: Signal) -> u16
    ensures { result ≡ signal_number signal }
{
    match signal {
        Signal::DialTone => 1,
        Signal::Busy => 2,
        Signal::Reorder => 3,
        Signal::Ringing => 4,
        Signal::RingSplash => 5,
        Signal::MessageWaiting => 6,
        Signal::Ringback => 7,
        Signal::Congestion => 8,
        Signal::Confirm => 9,
    }
}

fn signal_of(active: ActiveSignal) -> SignalTold
    ensures { result ≡ signal_of active }
{
    let signal = signal_number(active.signal);
    match active.end {
        Some(end) => SignalTold {
            end,
            signal,
            ends: 1,
        },
        None => SignalTold {
            end: 0,
            signal,
            ends: 0,
        },
    }
}

// The active signal of a line at an index, if there is one.
fn signal_at(gateway: &Gateway, line: u16, index: usize) -> Option<ActiveSignal>
    requires low { 1 ≤ line }
    requires high { line ≤ gateway.now.setup.names.lines }
    ensures { (events : List GatewayEvent) → Stands gateway.now events →
        result ≡ at_index (signals_of (plain gateway.now.setup events) line) index }
{
    let signals = gateway.signals(line);
    signals.as_slice().get(index).copied()
}

// Tells an active signal of a line, if there are such a line and such a signal.
fn tell_signal(gateway: &Gateway, line: u16, index: usize, signal: &mut SignalTold) -> u32
    ensures line { line_number_in gateway.now.setup line ≢ OK → result ≡ line_number_in gateway.now.setup line }
    ensures number { line_number_in gateway.now.setup line ≡ OK → TellsOf gateway.now (λ _ m.
        result ≡ found_number (at_index (signals_of m line) index)) }
    ensures signal { result ≡ OK → TellsOf gateway.now (λ _ m.
        option_map signal_of (at_index (signals_of m line) index) ≡ Some signal.new) }
    ensures none { result ≡ NO_SUCH_PLACE → TellsOf gateway.now (λ _ m. at_index (signals_of m line) index ≡ None) }
    ensures left { result ≢ OK → signal.new ≡ signal.old }
{
    if line >= 1 && line <= gateway.lines() {
        let Some(active) = signal_at(gateway, line, index) else {
            return NO_SUCH_PLACE;
        };
        *signal = signal_of(active);
        return OK;
    }
    NO_SUCH_LINE
}

/// An active signal of a line, from 1, by its index from 0, in the order of the table.
#[unsafe(no_mangle)]
pub extern "C" fn rgw_signal_nonnull(
    alloc: Global,
    handle: &mut Handle,
    line: u16,
    index: usize,
    signal: &mut SignalTold,
) -> u32
    ensures line { line_number handle.old.held line ≢ OK → result ≡ line_number handle.old.held line }
    ensures number { line_number handle.old.held line ≡ OK → Tells handle.old.held (λ _ m.
        result ≡ found_number (at_index (signals_of m line) index)) }
    ensures signal { result ≡ OK → Tells handle.old.held (λ _ m.
        option_map signal_of (at_index (signals_of m line) index) ≡ Some signal.new) }
    ensures none { result ≡ NO_SUCH_PLACE → Tells handle.old.held (λ _ m. at_index (signals_of m line) index ≡ None) }
    ensures left { result ≢ OK → signal.new ≡ signal.old }
    ensures kept { handle.new.held ≡ handle.old.held }
{
    let Some(instance) = take(handle, alloc) else {
        return NOT_OPEN;
    };
    let number = tell_signal(&instance.gateway, line, index, signal);
    put(handle, alloc, instance);
    number
}

fn mode_number(mode: Mode) -> u16
    ensures { result ≡ mode_number mode }
{
    match mode {
        Mode::SendOnly => 1,
        Mode::ReceiveOnly => 2,
        Mode::SendReceive => 3,
        Mode::Conference => 4,
        Mode::Inactive => 5,
    }
}

// How many payload types codecs have, the first and the last.
fn payloads_of(codecs: Codecs) -> (u16, u16, u16)
    ensures count { result.0 ≡ length (listed codecs) }
    ensures first { result.1 ≡ first_payload codecs }
    ensures last { result.2 ≡ last_payload codecs }
{
    match codecs {
        Codecs::Only(Codec::Pcmu) => (1, 0, 0),
        Codecs::Only(Codec::Pcma) => (1, 8, 8),
        Codecs::Both(Codec::Pcmu) => (2, 0, 8),
        Codecs::Both(Codec::Pcma) => (2, 8, 0),
    }
}

// The port at which a place of a line receives. Of the four places that a line has it is a port without the remainder.
fn port_of(setup: &Setup, line: u16, place: u16) -> u16
    requires { 1 ≤ line }
    ensures { result ≡ local_port setup.now line place }
{
    let port = u64::from(setup.media_base) + 8 * (u64::from(line) - 1) + 2 * u64::from(place);
    (port % 65_536) as u16
}

// Whether it is known where a connection sends, the host and the port.
fn remote_of(remote: &Option<Session>) -> (u16, u32, u16)
    ensures known { result.0 ≡ remote_known remote.now }
    ensures host { result.1 ≡ remote_host remote.now }
    ensures port { result.2 ≡ remote_port remote.now }
{
    match remote {
        Some(session) => (1, session.address.to_bits(), session.port),
        None => (0, 0, 0),
    }
}

// The connection at a place of a line.
fn connection_of(setup: &Setup, line: u16, place: u16, connection: &Connection) -> ConnectionTold
    requires { 1 ≤ line }
    ensures { result ≡ connection_of setup.now line place connection.now }
{
    let (payloads, first_payload, last_payload) = payloads_of(connection.codecs.in_force);
    let (is_remote_known, remote_host, remote_port) = remote_of(&connection.remote);
    ConnectionTold {
        number: connection.number,
        local_host: setup.media_address.to_bits(),
        remote_host,
        local_port: port_of(setup, line, place),
        remote_port,
        is_remote_known,
        mode: mode_number(connection.mode),
        packet_time: connection.options.packet_time,
        payloads,
        first_payload,
        last_payload,
    }
}

// Tells the connection at a place of a line, if there are such a line, such a place, and a connection.
#[tactic(auto, using(crate::proofs::PortLemmas::told_whole))]
fn tell_connection(gateway: &Gateway, line: u16, place: u16, connection: &mut ConnectionTold) -> u32
    ensures line { line_number_in gateway.now.setup line ≢ OK → result ≡ line_number_in gateway.now.setup line }
    ensures number { line_number_in gateway.now.setup line ≡ OK → TellsOf gateway.now (λ _ m.
        result ≡ place_number (at_index (connections_of m line) place)) }
    ensures port { result ≡ OK → place < 4 → TellsOf gateway.now (λ setup _.
        connection.new.local_port ≡ port_of setup line + 2 * place) }
    ensures connection { result ≡ OK → TellsOf gateway.now (λ setup m.
        option_map (option_map (connection_of setup line place)) (at_index (connections_of m line) place) ≡ Some (Some connection.new)) }
    ensures empty { result ≡ NO_CONNECTION → TellsOf gateway.now (λ _ m. at_index (connections_of m line) place ≡ Some None) }
    ensures none { result ≡ NO_SUCH_PLACE → TellsOf gateway.now (λ _ m. at_index (connections_of m line) place ≡ None) }
    ensures left { result ≢ OK → connection.new ≡ connection.old }
{
    if line >= 1 && line <= gateway.lines() {
        let Some(held) = gateway.connections(line).get(usize::from(place)) else {
            return NO_SUCH_PLACE;
        };
        let Some(held) = held else {
            return NO_CONNECTION;
        };
        *connection = connection_of(gateway.setup(), line, place, held);
        return OK;
    }
    NO_SUCH_LINE
}

/// The connection at a place, from 0, of a line, from 1: each line has four places. Where it receives is told exactly, since all
/// ports of a gateway's lines are below 65,536.
#[unsafe(no_mangle)]
pub extern "C" fn rgw_connection_nonnull(
    alloc: Global,
    handle: &mut Handle,
    line: u16,
    place: u16,
    connection: &mut ConnectionTold,
) -> u32
    ensures line { line_number handle.old.held line ≢ OK → result ≡ line_number handle.old.held line }
    ensures number { line_number handle.old.held line ≡ OK → Tells handle.old.held (λ _ m.
        result ≡ place_number (at_index (connections_of m line) place)) }
    ensures port { result ≡ OK → place < 4 → Tells handle.old.held (λ setup _.
        connection.new.local_port ≡ port_of setup line + 2 * place) }
    ensures connection { result ≡ OK → Tells handle.old.held (λ setup m.
        option_map (option_map (connection_of setup line place)) (at_index (connections_of m line) place) ≡ Some (Some connection.new)) }
    ensures empty { result ≡ NO_CONNECTION → Tells handle.old.held (λ _ m. at_index (connections_of m line) place ≡ Some None) }
    ensures none { result ≡ NO_SUCH_PLACE → Tells handle.old.held (λ _ m. at_index (connections_of m line) place ≡ None) }
    ensures left { result ≢ OK → connection.new ≡ connection.old }
    ensures kept { handle.new.held ≡ handle.old.held }
{
    let Some(instance) = take(handle, alloc) else {
        return NOT_OPEN;
    };
    let number = tell_connection(&instance.gateway, line, place, connection);
    put(handle, alloc, instance);
    number
}
