//! Serves gateways and whoever types commands, a turn at a time, as a schedule says what comes next.
ghost use Rattle.std.specs.Prelude.{◌≡◌, ◌||◌, [], Err, IfOk, IfErr};
ghost use Rattle.live_agent.specs.Clock.{is_behind};
ghost use Rattle.live_agent.specs.Datagrams.{HearsDatagram, HearsTexts, TakesDatagram, TakesEach, TakesOver};
ghost use Rattle.live_agent.specs.Sending.{SendsCommand, SendsOutputs};
ghost use Rattle.live_agent.specs.Settling.{SendsEach, SendsIssued, SettlesAll, ShowsEach};
ghost use Rattle.live_agent.specs.Ticking.{GivesUpAll, GivesUpEach, TicksEach, WakesAll, WakesEach};
ghost use Rattle.live_agent.specs.Serving.{Serves, TurnsOnce};
ghost use Rattle.transmission.specs.Texts.{texts_of};
ghost use Rattle.turns.specs.Runs.{is_end};
ghost use Rattle.live_agent.specs.Turning.{stop_request, line_request, AsksFirst, TakesTyped, DoesTurn};
ghost use Rattle.live_agent.specs.TypedCommands.{fault_text, issued_text, DoesCommand, IsTypedNext};
ghost use Rattle.live_io.specs.Typing.{left_of};
ghost use Rattle.live_agent.specs.Wiring.{due_of, ms_until, longest_until, IsSituation, IsWaitedFor};

use crate::recorder::Recorder;
use crate::wire::{MOST_AT_ONCE, Wire, log_pause};
use agent_gateways::{Switchboard, TypedFault, typed_text};
use agent_log::count;
use call_agent::{IssueFault, Issued};
use impairment::Way;
use live_io::{Fault, Lines, Surroundings};
use mg_bytes::{OutOfMemory, put_decimal};
use output_queues::{DONE, NO_MEMORY, STOP_FROM_AFAR};
use plain_machine::{Outputs, Refusal};
use std::alloc::Global;
use std::net::SocketAddrV4;
use transmission::texts;
use turns::{Ready, Schedule, Situation, Turn, earlier};

// The room for a datagram: one byte more than any that is taken (RFC 3435, 3.5.4).
const ROOM: usize = 4001;

// By a clock that is further behind, in ms, no command is issued: it would be sent again too early, and given up.
const LONGEST_LAG: u64 = 100;

// The answer to a command that is issued is no longer: `issued `, an id (RFC 3435, 3.2.1.2), and a line end.
const ISSUED_ROOM: usize = 17;

// A command was issued.
fn send_issued<S: Surroundings + Drop>(wire: &mut Wire<S>, issued: &Issued)
    ensures { SendsCommand S.around issued.now.datagram wire.old wire.new }
{
    count(&mut wire.journal.tally.commands);
    wire.send(issued.datagram.to, issued.datagram.bytes.as_bytes(), false);
}

// Whether a clock that has come to here is behind a moment, in ms.
fn is_behind(moment: u64, ticked: u64) -> bool
    ensures { result ≡ is_behind moment ticked }
{
    LONGEST_LAG < moment.saturating_sub(ticked)
}

// Tells how so many lines that are settled stand, one behind another, where that has changed.
fn show_each<S: Surroundings + Drop>(board: &mut Switchboard, wire: &mut Wire<S>, lines: usize)
    ensures { ShowsEach lines board.old wire.old board.new wire.new }
{
    for index in 0..lines {
        board.show(&mut wire.journal, index);
    }
}

// Sends what was issued to a line, if anything was. What couldn't be issued counts.
fn send_if_issued<S: Surroundings + Drop>(
    wire: &mut Wire<S>,
    issued: Result<Option<Issued>, IssueFault>,
)
    ensures { SendsIssued S.around issued wire.old wire.new }
{
    match issued {
        Ok(Some(issued)) => send_issued(wire, &issued),
        Ok(None) => {}
        Err(_) => count(&mut wire.journal.tally.refused),
    }
}

// Sends so many lines that are settled what they are to be sent, one behind another.
fn send_each<S: Surroundings + Drop>(board: &mut Switchboard, wire: &mut Wire<S>, lines: usize)
    ensures { SendsEach S.around lines board.old wire.old board.new wire.new }
{
    for index in 0..lines {
        let issued = board.issue_next(index);
        send_if_issued(wire, issued);
    }
}

// Tells how the lines to which something has happened stand, and sends them what they are to be sent. Where the clock is behind they go
// on waiting.
fn settle<S: Surroundings + Drop>(board: &mut Switchboard, wire: &mut Wire<S>)
    ensures { SettlesAll S.around board.old wire.old board.new wire.new }
{
    if wire.is_behind {
        return;
    }
    board.begin_settling();
    let lines = board.settling();
    show_each(board, wire, lines);
    send_each(board, wire, lines);
}

// Sends what an agent says, for the first time or again: whether it went on.
fn send_outputs<S: Surroundings + Drop>(
    wire: &mut Wire<S>,
    outputs: Result<Outputs, Refusal>,
    is_repeat: bool,
) -> bool
    ensures { SendsOutputs S.around is_repeat outputs result wire.old wire.new }
{
    match outputs {
        Ok(outputs) => {
            wire.send_all(outputs.as_slice(), is_repeat);
            true
        }
        Err(_) => {
            count(&mut wire.journal.tally.refused);
            false
        }
    }
}

// What the agent of a gateway heard is dealt with, a text and a line at a time.
fn deal_with<S: Surroundings + Drop>(
    board: &mut Switchboard,
    wire: &mut Wire<S>,
    place: usize,
    bytes: &[u8],
)
    ensures { HearsTexts S.around place (texts_of bytes.now) board.old wire.old board.new wire.new }
{
    let Some(mut rest) = texts(bytes) else {
        return;
    };
    while let Some(text) = rest.next() {
        board.hear(&mut wire.journal, place, text);
        settle(board, wire);
    }
}

// What so many lines of a gateway told is taken, a line at a time; where one told anything, lines are settled.
fn take_each<S: Surroundings + Drop>(
    board: &mut Switchboard,
    wire: &mut Wire<S>,
    place: usize,
    lines: usize,
)
    ensures { TakesEach S.around place lines board.old wire.old board.new wire.new }
{
    for index in 0..lines {
        if !board.take(&mut wire.journal, place, index) {
            continue;
        }
        settle(board, wire);
    }
}

// A datagram is heard. The agent of its gateway hears it first, then the board its texts; then what the gateway's lines told is taken.
fn hear<S: Surroundings + Drop>(
    board: &mut Switchboard,
    wire: &mut Wire<S>,
    source: SocketAddrV4,
    bytes: &[u8],
)
    ensures { HearsDatagram S.around source bytes.now board.old wire.old board.new wire.new }
{
    wire.journal.came(wire.now.time, source, bytes);
    let Some(place) = board.place_of(source) else {
        count(&mut wire.journal.tally.strange);
        return;
    };
    let outputs = board.step(place, source, bytes);
    if !send_outputs(wire, outputs, false) {
        return;
    }
    deal_with(board, wire, place, bytes);
    let lines = board.begin_taking(place);
    take_each(board, wire, place, lines);
}

// Takes the next packet that the bad network hands over, where it does: whether it did.
fn take_over<S: Surroundings + Drop>(board: &mut Switchboard, wire: &mut Wire<S>) -> bool
    ensures { TakesOver S.around result board.old wire.old board.new wire.new }
{
    match wire.handed_over() {
        Some(packet) => {
            hear(board, wire, packet.peer, packet.bytes.as_bytes());
            true
        }
        None => false,
    }
}

// Takes a datagram, if one is there: of those that the bad network held, or that has come. That is offered to the bad network, where
// there is one, which may hand one over by then.
fn take_datagram<S: Surroundings + Drop>(board: &mut Switchboard, wire: &mut Wire<S>)
    ensures { TakesDatagram S.around board.old wire.old board.new wire.new }
{
    if take_over(board, wire) {
        return;
    }
    let mut room = [0u8; ROOM];
    let Some(found) = wire.receive(&mut room) else {
        return;
    };
    let bytes = room.get(..found.1).unwrap_or(&[]);
    if wire.offer(Way::In, found.0, bytes) {
        let _ = take_over(board, wire);
        return;
    }
    hear(board, wire, found.0, bytes);
}

// What is answered where a command isn't issued.
fn fault_text(fault: TypedFault) -> &'static [u8]
    ensures { result.now ≡ fault_text fault }
{
    match fault {
        TypedFault::OutOfMemory => NO_MEMORY,
        TypedFault::NoMoreIds => b"! 2 NoMoreIds\n",
        TypedFault::BadCommand => b"! 3 BadCommand\n",
        TypedFault::NoSuchGateway => b"! 4 NoSuchGateway\n",
        TypedFault::Unknown => b"? VERB NAME, counts, or stop\n",
    }
}

// What is answered where a command is issued, in the room that there is for it.
fn issued_text(alloc: Global, mut room: Vec<u8>, id: u32) -> Result<Vec<u8>, OutOfMemory>
    requires { room.items ≡ [] }
    ensures { IfOk result (λ text. text.items ≡ issued_text id) }
{
    room.extend_from_slice(b"issued ")?;
    put_decimal(alloc, &mut room, u64::from(id))?;
    room.extend_from_slice(b"\n")?;
    Ok(room)
}

// What is typed next.
#[derive(Clone, Copy)]
enum Request {
    Nothing,
    Counts,
    Stop,
    // As somebody asks who may be at another machine: that isn't taken.
    StopFromAfar,
    Command,
}

fn stop_request(is_near: bool) -> Request
    ensures { result ≡ stop_request is_near }
{
    if is_near {
        Request::Stop
    } else {
        Request::StopFromAfar
    }
}

// What a line asks for.
fn line_request(is_near: bool, line: &[u8]) -> Request
    ensures { result ≡ line_request is_near line.now }
{
    if line == b"counts".as_slice() {
        return Request::Counts;
    }
    if line == b"stop".as_slice() {
        return stop_request(is_near);
    }
    if line == b"quit".as_slice() {
        return stop_request(is_near);
    }
    Request::Command
}

fn request_in(lines: &Lines) -> Request
    ensures { AsksFirst lines.now result }
{
    let is_near = lines.is_from_loopback();
    match lines.line() {
        Some(line) => line_request(is_near, line),
        None => Request::Nothing,
    }
}

// The command that is typed next, as it is issued; empty where nothing is.
fn command_in(alloc: Global, lines: &Lines) -> Result<Vec<u8>, OutOfMemory>
    ensures { IfOk result (λ text. IsTypedNext (left_of lines.now) text.items) }
{
    let Some(line) = lines.line() else {
        return Ok(Vec::new(alloc));
    };
    typed_text(alloc, line, lines.rest())
}

// Issues the command that is typed next, and answers that. Room for the answer is made before, so that none is refused for a command that
// goes out.
fn answer_command<S: Surroundings + Drop>(
    alloc: Global,
    board: &mut Switchboard,
    wire: &mut Wire<S>,
)
    ensures { DoesCommand S.around board.old board.new wire.old wire.new }
{
    let Ok(typed) = command_in(alloc, &wire.lines) else {
        return wire.answer_all(NO_MEMORY);
    };
    let Ok(room) = Vec::with_capacity(alloc, ISSUED_ROOM) else {
        return wire.answer_all(NO_MEMORY);
    };
    let issued = match board.issue_typed(typed.as_slice()) {
        Ok(issued) => issued,
        Err(fault) => return wire.answer_all(fault_text(fault)),
    };
    send_issued(wire, &issued);
    match issued_text(alloc, room, issued.id) {
        Ok(text) => wire.answer_all(text.as_slice()),
        Err(_) => wire.answer_all(NO_MEMORY),
    }
}

// Does what is typed next, if anything is, and answers that.
fn take_line<S: Surroundings + Drop>(alloc: Global, board: &mut Switchboard, wire: &mut Wire<S>)
    ensures { TakesTyped S.around board.old board.new wire.old wire.new }
{
    wire.hear_lines();
    let request = request_in(&wire.lines);
    match request {
        Request::Nothing => {}
        // What was counted so far.
        Request::Counts => match wire.journal.counts() {
            Ok(text) => wire.answer(text.as_slice()),
            Err(_) => wire.answer(NO_MEMORY),
        },
        Request::Stop => {
            wire.answer(DONE);
            wire.end = Some(0);
        }
        Request::StopFromAfar => wire.answer(STOP_FROM_AFAR),
        Request::Command => answer_command(alloc, board, wire),
    }
}

// What is given up by now of the commands to a gateway, one behind another.
fn give_up<S: Surroundings + Drop>(board: &mut Switchboard, wire: &mut Wire<S>, place: usize)
    ensures { GivesUpAll S.around place board.old wire.old board.new wire.new }
{
    for _ in 0..MOST_AT_ONCE {
        if !board.give_up(&mut wire.journal, place, wire.now.time) {
            return;
        }
        settle(board, wire);
    }
}

// The same of so many gateways, one behind another.
fn give_up_each<S: Surroundings + Drop>(
    board: &mut Switchboard,
    wire: &mut Wire<S>,
    gateways: usize,
)
    ensures { GivesUpEach S.around gateways board.old wire.old board.new wire.new }
{
    for place in 0..gateways {
        give_up(board, wire, place);
    }
}

// The lines of a gateway to which what was put off is sent again by now wait to be settled, one behind another.
fn wake(board: &mut Switchboard, place: usize)
    ensures { WakesAll place board.old board.new }
{
    for _ in 0..MOST_AT_ONCE {
        if !board.wake(place) {
            return;
        }
    }
}

// The same of so many gateways, one behind another.
fn wake_each(board: &mut Switchboard, gateways: usize)
    ensures { WakesEach gateways board.old board.new }
{
    for place in 0..gateways {
        wake(board, place);
    }
}

// The clocks of the agents of so many gateways go on, one behind another, and what each says is sent, again.
fn tick_each<S: Surroundings + Drop>(
    board: &mut Switchboard,
    wire: &mut Wire<S>,
    to: u64,
    gateways: usize,
)
    ensures { TicksEach S.around to gateways board.old wire.old board.new wire.new }
{
    for place in 0..gateways {
        let outputs = board.tick(place, to);
        let _ = send_outputs(wire, outputs, true);
    }
}

// Whether something may be there of who types, or of the network.
fn is_there(ready: Ready) -> bool
    ensures { result ≡ ready.commands || ready.datagrams }
{
    ready.commands || ready.datagrams
}

// The moment that is waited for, in ms: that at which something falls due next, at a gateway or over a wire; nothing where anything is
// there, and so the agents of all gateways aren't asked.
fn waited_for<S: Surroundings + Drop>(
    board: &Switchboard,
    wire: &Wire<S>,
    ready: Ready,
) -> Option<u64>
    ensures { IsWaitedFor (ready.commands || ready.datagrams) board.now.gateways.items (due_of wire.entry.now.network) result }
{
    if is_there(ready) {
        return None;
    }
    earlier(board.next_due(), wire.network_due())
}

// How things stand. An error is of the clock.
fn situation<S: Surroundings + Drop>(
    board: &Switchboard,
    wire: &Wire<S>,
) -> Result<Situation, Fault>
    ensures stands { IfOk result (λ at. IsSituation S.around board.now wire.entry.now at) }
    ensures failed { IfErr result (λ fault. S.around.passes wire.entry.now.around (Err fault)) }
{
    let moment = match wire.around.moment() {
        Ok(moment) => moment,
        Err(fault) => return Err(fault),
    };
    let ready = wire.ready();
    let due = waited_for(board, wire, ready);
    Ok(Situation {
        moment,
        ticked: wire.now.clock,
        due,
        end: wire.end,
        read: wire.read,
        ready,
    })
}

// How long it is until this moment, in ms, where it is now that one.
fn ms_until(until: u64, moment: u64) -> u64
    ensures { result ≡ ms_until until moment }
{
    until.saturating_sub(moment).max(1)
}

// How long it is so, but no longer than to what falls due.
fn longest_until(until: u64, due: Option<u64>, moment: u64) -> u64
    ensures { result ≡ longest_until until due moment }
{
    match due {
        Some(due) => ms_until(until.min(due), moment),
        None => ms_until(until, moment),
    }
}

// A turn of somebody's, or a wait, where it is now this moment.
fn do_turn<S: Surroundings + Drop>(
    alloc: Global,
    board: &mut Switchboard,
    wire: &mut Wire<S>,
    turn: Turn,
    moment: u64,
)
    ensures { DoesTurn S.around moment turn
        board.old board.new wire.old wire.new }
{
    match turn {
        Turn::Tick { moment: to } => {
            // The clock of each agent first: by one that was behind what is issued now would be sent again at once.
            wire.now.clock = to;
            let ticking = board.gateways();
            tick_each(board, wire, to, ticking);
            wire.is_behind = is_behind(moment, to);
            let giving_up = board.gateways();
            give_up_each(board, wire, giving_up);
            let waking = board.gateways();
            wake_each(board, waking);
            settle(board, wire);
        }
        Turn::Command => take_line(alloc, board, wire),
        Turn::Datagram => take_datagram(board, wire),
        Turn::Look => wire.wait(0),
        Turn::Wait { until } => {
            // No longer than to what falls due of what was issued since it was asked what comes next.
            let due = earlier(board.next_due(), wire.network_due());
            wire.wait(longest_until(until, due, moment));
        }
        Turn::Note { pause } => log_pause(alloc, &mut wire.journal.log, wire.now.time, pause),
        Turn::Visit => {}
        Turn::End => {}
    }
}

// Whether this is the end.
fn is_end(turn: Turn) -> bool
    ensures { result ≡ is_end turn }
{
    matches!(turn, Turn::End)
}

/// Serves until the end comes, and writes after each turn what was recorded. An error is of the clock.
pub(crate) fn serve<S: Surroundings + Drop, W: Recorder>(
    alloc: Global,
    board: &mut Switchboard,
    wire: &mut Wire<S>,
    recorder: &mut W,
) -> Result<(), Fault>
    ensures { Serves S.around (TurnsOnce S.around W.writes) result board.old wire.old board.new wire.new }
{
    // What the start took isn't a pause.
    let start = match wire.around.moment() {
        Ok(start) => start,
        Err(fault) => return Err(fault),
    };
    let mut schedule = Schedule::starting_at(start);
    for _ in 0..u64::MAX {
        let at = match situation(board, wire) {
            Ok(at) => at,
            Err(fault) => return Err(fault),
        };
        let turn = schedule.next(at);
        if is_end(turn) {
            return Ok(());
        }
        wire.now.time = wire.around.time();
        wire.is_behind = is_behind(at.moment, at.ticked);
        // At the start all lines wait to be settled, and later those whose command couldn't be issued, or that something happened to
        // while the clock was behind.
        settle(board, wire);
        do_turn(alloc, board, wire, turn, at.moment);
        // As much as is taken at once; whether some of it waits to be taken is kept.
        recorder.write(&mut wire.journal, wire.now.time);
        wire.is_offering = recorder.is_offering();
    }
    Ok(())
}
