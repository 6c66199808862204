//! Serves a call agent from its opening to its end.
ghost use Rattle.std.specs.Prelude.{◌≡◌, ◌⊎◌, [], None, true, is_some, IfErr, IfOk};
ghost use Rattle.agent_log.specs.Counts.{nothing_counted};
ghost use Rattle.live_system.specs.declared.ending.CommonEnding.TheVariants.{OutOfMemory};
ghost use Rattle.live_agent.specs.Clock.{milliseconds};
ghost use Rattle.live_agent.specs.Ending.{is_record_refused};
ghost use Rattle.live_agent.specs.Serving.{Serves, ServesOver, ServesToEnd, TurnsOnce};
ghost use Rattle.live_agent.specs.Wiring.{SpoilsSo};
ghost use Rattle.output_queues.specs.Recording.{state_when};
ghost use Rattle.output_queues.specs.declared.record.RecordState.TheVariants as states;
ghost use Rattle.live_io.specs.Typing.{left_of};
ghost use Rattle.agent_gateways.specs.Opening.{BoardOf};

use crate::recorder::{Recorder, Recording};
use crate::session::serve;
use crate::wire::Wire;
use agent_config::AgentConfig;
use agent_gateways::Switchboard;
use agent_log::Journal;
use impairment::{BadNetwork, Spoiling};
use live_io::Surroundings;
use live_system::{CommonEnding, DayWatch, Live, SocketWanted, open_capture};
use log_format::put_peer;
use mg_bytes::{Draft, OutOfMemory};
use output_queues::{Finisher, Outlets, Written, boxed};
use std::alloc::{AllocError, Global};
use std::io::Write;
use std::net::{Net, SocketAddrV4};
use std::rt::{Clock, Files};
use std::time::Instant;

// Microseconds in a millisecond.
const MICROSECONDS: u64 = 1000;

/// How a wire is opened.
#[derive(Clone, Copy)]
pub struct WireSettings {
    /// The socket for gateways; port 0 is any free one.
    pub listen: SocketWanted,
    /// The socket for commands; port 0 is any free one.
    pub control: SocketWanted,
    /// How the network is spoilt, where it is.
    pub network: Option<Spoiling>,
    pub has_log: bool,
    pub has_capture: bool,
    /// The moment at which it ends, in ms.
    pub end: Option<u64>,
}

// The network that is spoilt so, where one is.
fn network_of(alloc: Global, spoiling: Option<Spoiling>) -> Option<BadNetwork>
    ensures made { is_some result ≡ is_some spoiling }
    ensures spoils { SpoilsSo spoiling result }
{
    match spoiling {
        Some(spoiling) => Some(BadNetwork::new(alloc, spoiling)),
        None => None,
    }
}

/// The wire over these surroundings, whose socket for gateways is here, as the settings ask for it. An error is for want of memory.
pub fn wire_over<S: Surroundings + Drop>(
    alloc: Global,
    around: Box<S>,
    here: SocketAddrV4,
    settings: WireSettings,
) -> Result<Box<Wire<S>>, OutOfMemory>
    ensures around { IfOk result (λ wire. wire.value.around ≡ around.value) }
    ensures end { IfOk result (λ wire. wire.value.end ≡ settings.end) }
    ensures dated { IfOk result (λ wire. S.around.dates around.value wire.value.now.time) }
    ensures begins { IfOk result (λ wire. (left_of wire.value.lines ≡ []) × (wire.value.now.clock ≡ 0) × (wire.value.read ≡ 0)) }
    ensures counts { IfOk result (λ wire. wire.value.journal.value.tally ≡ nothing_counted) }
    ensures spoilt { IfOk result (λ wire. is_some wire.value.network ≡ is_some settings.network) }
    ensures spoils { IfOk result (λ wire. SpoilsSo settings.network wire.value.network) }
    ensures tells { IfOk result (λ wire. wire.value.journal.value.told.state ≡ state_when true) }
    ensures logs { IfOk result (λ wire. wire.value.journal.value.log.state ≡ state_when settings.has_log) }
    ensures captures { IfOk result (λ wire. (wire.value.journal.value.capture.state ≡ state_when settings.has_capture)
        ⊎ (wire.value.journal.value.capture.state ≡ states.OutOfMemory)) }
    ensures is_here { IfOk result (λ wire. wire.value.journal.value.here ≡ here) }
{
    let journal = Journal::new(alloc, settings.has_log, settings.has_capture, here);
    // By hand: a question mark is some twenty steps more, at each of which a check pays for all that stands there.
    let Ok(journal) = boxed(alloc, journal) else {
        return Err(AllocError);
    };
    let network = network_of(alloc, settings.network);
    let around = Box::into_inner(around);
    let Ok(wire) = Wire::new(alloc, around, network, journal, settings.end) else {
        return Err(AllocError);
    };
    boxed(alloc, wire)
}

// The wire over the machine's sockets and clock. An error says how the program ends then.
fn open_wire<'a, R: Net + Clock>(
    rt: &'a R,
    alloc: Global,
    settings: WireSettings,
) -> Result<Box<Wire<Live<'a, R>>>, CommonEnding> {
    if Instant::now(rt).is_err() {
        return Err(CommonEnding::Clock);
    }
    let live = match Live::open(rt, alloc, settings.listen, settings.control) {
        Ok(live) => live,
        Err(ending) => return Err(ending),
    };
    let own = live.own();
    let told = own[0];
    let here = if told.port() > 0 {
        told
    } else {
        settings.listen.address
    };
    match wire_over(alloc, live, here, settings) {
        Ok(wire) => Ok(wire),
        Err(_) => Err(CommonEnding::OutOfMemory),
    }
}

// The desk of a configuration's gateways, as they begin at the time of day that was told, which routes calls between their lines where
// that is asked for; or how the program ends where there is none.
fn board_of<S: Surroundings + Drop>(
    alloc: Global,
    config: &AgentConfig,
    is_routed: bool,
    wire: &Wire<S>,
) -> Result<Switchboard, CommonEnding>
    ensures board { IfOk result (λ board. BoardOf config.now is_routed (milliseconds wire.entry.now.now.time) board) }
    ensures ending { IfErr result (λ ending. ending ≡ OutOfMemory) }
{
    let time = wire.now.time / MICROSECONDS;
    match Switchboard::of(alloc, config, is_routed, time) {
        Ok(board) => Ok(board),
        Err(_) => Err(CommonEnding::OutOfMemory),
    }
}

// Whether memory was refused for something that is recorded.
fn is_record_refused(journal: &Journal) -> bool
    ensures { result ≡ is_record_refused journal.now }
{
    journal.told.is_refused() || journal.log.is_refused() || journal.capture.is_refused()
}

// Serves with this desk until the end, and writes what was recorded to its end, and behind it what was counted: how the program ends. The
// desk is let go.
fn serve_to_end<R: Clock, S: Surroundings + Drop, W: Recorder + Finisher>(
    rt: &R,
    alloc: Global,
    mut board: Switchboard,
    wire: &mut Wire<S>,
    recorder: &mut W,
) -> CommonEnding
    ensures { ServesToEnd
        (Serves S.around (TurnsOnce S.around W.writes)) W.writes W.ends board wire.old wire.new recorder.new result }
{
    let served = serve(alloc, &mut board, wire, recorder);
    board.close();
    let time = wire.around.time();
    recorder.write(&mut wire.journal, time);
    let Ok(counts) = wire.journal.counts() else {
        return CommonEnding::OutOfMemory;
    };
    let written = recorder.end_with(rt, counts.as_slice(), time);
    if served.is_err() {
        return CommonEnding::Clock;
    }
    // Of a record that couldn't be written it was said at once.
    CommonEnding::of_records(is_record_refused(&wire.journal), written)
}

/// Serves the gateways of a configuration over a wire until the end, and routes calls between their lines where that is asked for. What
/// is recorded is written after each turn, and at the end to its end, and behind it what was counted, for as long as this clock lets wait
/// for that. How the program ends then.
pub fn serve_over<R: Clock, S: Surroundings + Drop, W: Recorder + Finisher>(
    rt: &R,
    alloc: Global,
    config: &AgentConfig,
    is_routed: bool,
    wire: &mut Wire<S>,
    recorder: &mut W,
) -> CommonEnding
    ensures { ServesOver config.now is_routed
        (Serves S.around (TurnsOnce S.around W.writes)) W.writes W.ends wire.old wire.new recorder.new result }
{
    match board_of(alloc, config, is_routed, wire) {
        Ok(board) => serve_to_end(rt, alloc, board, wire, recorder),
        Err(ending) => ending,
    }
}

// Says on standard error where the sockets are; nothing where a socket doesn't tell that.
fn tell_addresses<R: Net + Clock, F: Write + Drop>(
    alloc: Global,
    live: &Live<'_, R>,
    outlets: &mut Outlets<F>,
) {
    let own = live.own();
    let listen = own[0];
    let control = own[1];
    if listen.port() > 0 && control.port() > 0 {
        let mut line = Draft::new(alloc);
        line.put(b"listen ");
        put_peer(&mut line, listen);
        line.put(b" control ");
        put_peer(&mut line, control);
        line.put(b"\n");
        // For want of memory that line alone isn't said.
        if let Ok(line) = line.end() {
            outlets.error.say(line.as_slice());
        }
    }
    outlets.offer();
}

// Makes the file of a capture, if one is asked for: how the program ends where there is none.
fn begin_capture<R: Files>(
    rt: &R,
    alloc: Global,
    journal: &mut Journal,
    capture: Option<&str>,
    outlets: &mut Outlets<R::File>,
) -> Option<CommonEnding> {
    let Some(file) = capture else {
        return None;
    };
    outlets.capture = match open_capture(rt, alloc, capture) {
        Ok(opened) => opened,
        Err(kind) => return Some(CommonEnding::unwritable(kind)),
    };
    if journal.name_capture(file).is_err() {
        return Some(CommonEnding::OutOfMemory);
    }
    None
}

/// Serves the gateways of a configuration until the end, and routes calls between their lines where that is asked for. What happens
/// is told on standard output; the log, where the sockets are, and at the end what was counted, on standard error; the capture, where
/// one is asked for, goes into a new file of this name. How the program ends then, also where it doesn't serve to its end.
pub fn serve_agent<R: Files + Net + Clock>(
    rt: &R,
    alloc: Global,
    config: &AgentConfig,
    is_routed: bool,
    settings: WireSettings,
    capture: Option<&str>,
    outlets: &mut Outlets<R::File>,
) -> CommonEnding {
    let mut opened = match open_wire(rt, alloc, settings) {
        Ok(opened) => opened,
        Err(ending) => return ending,
    };
    let wire = &mut *opened;
    let board = match board_of(alloc, config, is_routed, wire) {
        Ok(board) => board,
        Err(ending) => return ending,
    };
    // Once the sockets are had.
    if let Some(ending) = begin_capture(rt, alloc, &mut wire.journal, capture, outlets) {
        board.close();
        return ending;
    }
    tell_addresses(alloc, &wire.around, outlets);
    let mut recording = Recording {
        rt,
        alloc,
        outlets,
        days: DayWatch::new(),
    };
    serve_to_end(rt, alloc, board, wire, &mut recording)
}
