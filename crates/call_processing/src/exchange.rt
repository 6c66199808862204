//! An exchange.
ghost use Rattle.std.specs.Prelude.{◌≡◌, IfOk, option_copied, slice_get};
ghost use Rattle.call_processing.specs.Line.{sent, landed, heard_on, cleared};
ghost use Rattle.call_processing.specs.Exchange.{new_lines, opening, phase_of, line_of, changed, told, flight_in, fate_in, answered, put_off_at, cleared_at, due, sent_to};
ghost use Rattle.call_processing.specs.Parameters.{description_of_other, parameters_of};

use crate::calls::Calls;
use crate::command::{Command, Outcome};
use crate::fate::{Fate, PutOff, fate_of, put_off_by};
use crate::line::{Line, failing, finding};
use crate::next::{is_ready, next_of};
use crate::parameters::{description_in, flight_lines};
use crate::phase::{Phase, talks_in};
use crate::told::Told;
use mg_bytes::{OutOfMemory, Text};
use std::alloc::Global;
use std::marker::Model;

/// A small exchange: calls between lines, each of which has a place from 0 on. Its owner knows the names and the gateways of
/// the lines. For each event it calls `tell` or `answer`, then `send` for each line, and issues what that gives with
/// `parameters` behind it; what can't be issued it answers as given up. A line whose command was put off it leaves alone for a while:
/// there is no clock here.
///
/// A contract sees the calls, and what is known of each line (`ExchangeState`). Only `new` and `parameters` take memory.
#[derive(Drop)]
pub struct Exchange {
    calls: Calls,
    lines: Vec<Line>,
}

impl Model for Exchange {
    ghost use Rattle.call_processing.specs.Exchange.{ExchangeState};

    ghost Value = { ExchangeState };

    ghost view = { λ x. record { calls = x.calls; lines = x.lines.items } };
}

// Lines of which nothing is known.
fn new_lines(alloc: Global, count: usize) -> Result<Vec<Line>, OutOfMemory>
    ensures { IfOk result (λ lines. lines.items ≡ new_lines count) }
{
    let mut lines = Vec::new(alloc);
    for _ in 0..count {
        lines.push(Line::new())?;
    }
    Ok(lines)
}

// What became of the command in flight to a line.
fn land_on(lines: &mut Vec<Line>, line: usize, fate: Fate, outcome: Outcome)
    ensures { lines.new.items ≡ changed (landed fate outcome) lines.old.items line }
{
    if line >= lines.len() {
        return;
    }
    lines[line].land(fate, outcome);
}

// A line has told this.
fn hear_on(lines: &mut Vec<Line>, line: usize, event: Told)
    ensures { lines.new.items ≡ changed (heard_on event) lines.old.items line }
{
    if line >= lines.len() {
        return;
    }
    lines[line].hear(event);
}

// A deletion of all that a line has was answered by this code.
fn clear_on(lines: &mut Vec<Line>, line: usize, code: u16)
    ensures { lines.new.items ≡ changed (cleared code) lines.old.items line }
{
    if line >= lines.len() {
        return;
    }
    lines[line].clear(code);
}

// A command is sent to a line.
fn send_on(lines: &mut Vec<Line>, line: usize, command: Command)
    ensures { lines.new.items ≡ changed (sent command) lines.old.items line }
{
    if line >= lines.len() {
        return;
    }
    lines[line].send(command);
}

// The command in flight to a line.
fn flight_at(lines: &[Line], line: usize) -> Option<Command>
    ensures { result ≡ flight_in (slice_get lines.now line) }
{
    match lines.get(line) {
        Some(one) => one.flight,
        None => None,
    }
}

// What became of the command in flight to a line that is in this phase then.
fn fate_in(lines: &[Line], line: usize, phase: Option<Phase>, outcome: &Outcome) -> Fate
    ensures { result ≡ fate_in (slice_get lines.now line) phase outcome.now }
{
    let Some(one) = lines.get(line) else {
        return Fate::Open;
    };
    match one.flight {
        Some(command) => fate_of(command, phase, one.put_off, outcome),
        None => Fate::Open,
    }
}

impl Exchange {
    /// An exchange of so many lines, none of which is in a call. Calls are numbered behind this number. An error is for want of
    /// memory only.
    pub fn new(alloc: Global, count: usize, last: u64) -> Result<Exchange, OutOfMemory>
        ensures { IfOk result (λ exchange. exchange ≡ opening count last) }
    {
        let calls = Calls::new(alloc, count, last)?;
        let lines = new_lines(alloc, count)?;
        Ok(Exchange { calls, lines })
    }

    /// The phase of a line; `None` of one that there isn't.
    pub fn phase(&self, line: usize) -> Option<Phase>
        ensures { result ≡ phase_of self.now line }
    {
        self.calls.phase(line)
    }

    /// What is known of a line at its gateway; `None` of one that there isn't.
    pub fn line(&self, line: usize) -> Option<&Line>
        ensures { option_copied result ≡ line_of self.now line }
    {
        self.lines.get(line)
    }

    /// A line tells this. At one that there isn't nothing happens.
    #[tactic(auto, unfolding(crate::specs::Exchange::told))]
    pub fn tell(&mut self, line: usize, event: Told)
        ensures { self.new ≡ told self.old line event }
    {
        self.calls.hear(line, event);
        hear_on(&mut self.lines, line, event);
    }

    /// What became of the command in flight to a line: how it was put off, where it was refused for a cause that may pass; then it is
    /// to be sent again, a while later. Where none is in flight nothing happens. A request that was refused because the telephone is on
    /// hook already, or off hook, tells that (402, 401; RFC 3435, 2.4).
    #[tactic(auto, unfolding(crate::specs::Exchange::answered))]
    pub fn answer(&mut self, line: usize, outcome: Outcome) -> Option<PutOff>
        ensures state { self.new ≡ answered self.old line outcome }
        ensures put_off { result ≡ put_off_at self.old line outcome }
    {
        let flight = flight_at(&self.lines, line);
        self.calls.find(line, finding(flight, &outcome));
        let fate = fate_in(&self.lines, line, self.calls.phase(line), &outcome);
        self.calls.fail(line, failing(flight, fate));
        land_on(&mut self.lines, line, fate, outcome);
        put_off_by(fate)
    }

    /// A command of the owner's that deletes all connections of a line (DLCX without a call; RFC 3435, 2.3.7) was answered by this
    /// return code: where it was executed, or there were none, none is left.
    #[tactic(auto, unfolding(crate::specs::Exchange::cleared_at))]
    pub fn clear(&mut self, line: usize, code: u16)
        ensures { self.new ≡ cleared_at self.old line code }
    {
        clear_on(&mut self.lines, line, code);
    }

    /// The command that is to be sent to a line now, or where one was put off a while later; `None` where the line is as it should be,
    /// or a command to it is in flight.
    #[tactic(auto, unfolding(crate::specs::Exchange::due))]
    pub fn due(&self, line: usize) -> Option<Command>
        ensures { result ≡ due self.now line }
    {
        let phase = self.calls.phase(line)?;
        let one = self.lines.get(line)?;
        next_of(phase, is_ready(&self.lines, talks_in(phase)), one)
    }

    /// The same, and it is in flight from now on.
    #[tactic(auto, unfolding(crate::specs::Exchange::sent_to))]
    pub fn send(&mut self, line: usize) -> Option<Command>
        ensures command { result ≡ due self.old line }
        ensures state { self.new ≡ sent_to self.old line }
    {
        match self.due(line) {
            Some(command) => {
                send_on(&mut self.lines, line, command);
                Some(command)
            }
            None => None,
        }
    }

    // The description of the connection at the other end of a line's call; nothing where there is none.
    fn description_of_other(&self, line: usize) -> &[u8]
        ensures { result.now ≡ description_of_other self.now line }
    {
        let Some(Phase::InCall(part)) = self.calls.phase(line) else {
            return &[];
        };
        match self.lines.get(part.other) {
            Some(other) => description_in(&other.leg),
            None => &[],
        }
    }

    /// The parameter lines of the command in flight to a line, and the description behind them, as they follow the command line
    /// (RFC 3435, 3.2.1 and 3.2.2); nothing where no command is in flight. To be asked for as soon as the command was sent. The
    /// digit map stands as it is, without a check (RFC 3435, 2.1.5). An error is for want of memory only.
    pub fn parameters(&self, alloc: Global, line: usize, map: &[u8]) -> Result<Text, OutOfMemory>
        ensures { IfOk result (λ text. text ≡ parameters_of self.now line map.now) }
    {
        match self.lines.get(line) {
            Some(one) => flight_lines(alloc, one, self.description_of_other(line), map),
            None => Ok(Text::of(Vec::new(alloc))),
        }
    }
}
