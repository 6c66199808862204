//! Reads the lines of a script as steps.
ghost use Rattle.std.specs.Prelude.{◌≡◌, ◌≤◌, [], length, map, IfOk, IfErr, OnOk, MatchResult, Some, None, Ok, Err, ℕ};
ghost use Rattle.std.specs.Bool.{MatchBool};
ghost use Rattle.mg_bytes.specs.Lines.{cut, line_of, lines_of};
ghost use Rattle.mg_bytes.specs.Words.{words as words_of};
ghost use Rattle.rgw_scripts.specs.Script.{line_in, begun, continued, next_reading, closed, steps_of};

use crate::LIMIT;
use crate::step::{ScriptLine, ScriptStep};
use crate::words::line_in;
use mg_bytes::{OutOfMemory, Text, lines};
use std::alloc::Global;
use std::marker::Model;
use std::net::SocketAddrV4;

// The room, in bytes, that a datagram of a script begins with: most are shorter.
const TEXT_ROOM: usize = 128;

// A `from` whose `--` hasn't come: its line's number, and its lines so far.
#[derive(Drop)]
struct OpenFrom {
    line: u64,
    source: SocketAddrV4,
    text: Vec<u8>,
}

impl Model for OpenFrom {
    ghost use Rattle.rgw_scripts.specs.Script.{Waiting};

    ghost Value = { Waiting };

    ghost view = { λ f. record { line = f.line; source = f.source; text = f.text.items } };
}

// What the lines so far were read as.
#[derive(Drop)]
struct ScriptReader {
    steps: Vec<ScriptStep>,
    waiting: Option<OpenFrom>,
}

impl Model for ScriptReader {
    ghost use Rattle.rgw_scripts.specs.Script.{Reading};

    ghost Value = { Reading };

    ghost view = { λ r. record { steps = r.steps.items; waiting = r.waiting } };
}

/// Why a script has no steps.
#[derive(Clone, Copy)]
pub enum ScriptFault {
    OutOfMemory,
    /// This line, counted from 1, may not stand where it does.
    BadLine { line: u64 },
}

impl ScriptReader {
    fn new(alloc: Global) -> Self
        ensures { result ≡ record { steps = []; waiting = None } }
    {
        ScriptReader {
            steps: Vec::new(alloc),
            waiting: None,
        }
    }

    // A line where no `from` is open, if it may stand there.
    fn begin(&mut self, alloc: Global, number: u64, line: &[u8]) -> Result<bool, OutOfMemory>
        requires { self.old.waiting ≡ None }
        ensures { IfOk result (λ fine. MatchBool fine
            (begun number self.old.steps (line_in (words_of line.now)) ≡ Some self.new)
            (begun number self.old.steps (line_in (words_of line.now)) ≡ None)) }
    {
        match line_in(alloc, line)? {
            None => return Ok(false),
            Some(ScriptLine::Empty) => {}
            Some(ScriptLine::From { source }) => {
                let text = Vec::with_capacity(alloc, TEXT_ROOM)?;
                self.waiting = Some(OpenFrom {
                    line: number,
                    source,
                    text,
                });
            }
            Some(ScriptLine::Whole { step }) => self.steps.push(step)?,
        }
        Ok(true)
    }

    // A line of a `from`, which `--` ends.
    fn proceed(&mut self, from: OpenFrom, line: &[u8]) -> Result<(), OutOfMemory>
        requires { self.old.waiting ≡ None }
        ensures { OnOk result (self.new ≡ continued self.old.steps from line.now) }
    {
        let OpenFrom {
            line: number,
            source,
            mut text,
        } = from;
        if line == b"--".as_slice() {
            let bytes = Text::of(text);
            self.steps.push(ScriptStep::Datagram { source, bytes })?;
            return Ok(());
        }
        text.extend_from_slice(line)?;
        text.extend_from_slice(b"\r\n")?;
        self.waiting = Some(OpenFrom {
            line: number,
            source,
            text,
        });
        Ok(())
    }

    // One more line, if it may stand there.
    fn take_line(&mut self, alloc: Global, number: u64, line: &[u8]) -> Result<bool, OutOfMemory>
        ensures { IfOk result (λ fine. MatchBool fine
            (next_reading number line.now self.old ≡ Some self.new)
            (next_reading number line.now self.old ≡ None)) }
    {
        match self.waiting.take() {
            None => self.begin(alloc, number, line),
            Some(from) => {
                self.proceed(from, line)?;
                Ok(true)
            }
        }
    }

    // The steps, unless a `from` has no `--`.
    fn close(self) -> Result<Vec<ScriptStep>, u64>
        ensures { MatchResult result (λ steps. closed self.steps self.waiting ≡ Ok steps.items)
            (λ line. closed self.steps self.waiting ≡ Err line) }
    {
        let ScriptReader { steps, waiting } = self;
        match waiting {
            None => Ok(steps),
            Some(from) => Err(from.line),
        }
    }
}

/// The steps of a script.
#[tactic(auto, unfolding(crate::specs::Script::read_from))]
pub fn read_script(alloc: Global, script: &[u8]) -> Result<Vec<ScriptStep>, ScriptFault>
    requires { length script.now ≤ LIMIT }
    ensures ok { IfOk result (λ steps. steps_of (lines_of script.now) ≡ Ok steps.items) }
    ensures bad { IfErr result
        (λ fault. (line : ℕ) → fault ≡ ScriptFault.BadLine line →
        steps_of (lines_of script.now) ≡ Err line) }
{
    let mut reader = ScriptReader::new(alloc);
    let mut number: u64 = 0;
    for line in lines(script) {
        number += 1;
        match reader.take_line(alloc, number, line) {
            Ok(true) => {}
            Ok(false) => return Err(ScriptFault::BadLine { line: number }),
            Err(_) => return Err(ScriptFault::OutOfMemory),
        }
    }
    match reader.close() {
        Ok(steps) => Ok(steps),
        Err(line) => Err(ScriptFault::BadLine { line }),
    }
}
