//! Replays a trace from a reader.
use crate::first_number::FirstNumber;
use crate::head::{first_in, is_head_end};
use crate::replaying::{Progress, Replay};
use crate::verdict::{ReplayFault, Verdict};
use gateway_config::read_config;
use gateway_core::{ConfigFault, Gateway};
use mg_bytes::split_once;
use rgw_scripts::LIMIT;
use std::alloc::Global;
use std::io::{BufRead, ErrorKind, Read, Take};

// A trace that is read, and the line that was read last, with its end.
#[derive(Drop)]
struct TraceReader<R> {
    reader: Take<R>,
    line: Vec<u8>,
    number: u64,
    // Why no more of it can be read, once that is so.
    fault: Option<ReplayFault>,
}

// Why nothing could be read.
fn fault_of(kind: ErrorKind) -> ReplayFault {
    if kind == ErrorKind::OutOfMemory {
        return ReplayFault::OutOfMemory;
    }
    ReplayFault::Read { kind }
}

impl<R: BufRead + Drop> TraceReader<R> {
    fn new(alloc: Global, reader: R) -> TraceReader<R> {
        TraceReader {
            reader: reader.take(0),
            line: Vec::new(alloc),
            number: 0,
            fault: None,
        }
    }

    // Whether no more of it can be read.
    fn has_failed(&self) -> bool {
        self.fault.is_some()
    }

    // Reads the next line, and no more of it than a configuration may have: whether there is one. There is none where it can't be read.
    fn read_line(&mut self) -> bool {
        self.line.clear();
        self.number = self.number.saturating_add(1);
        self.reader.set_limit(LIMIT as u64);
        match self.reader.read_until(b'\n', &mut self.line) {
            Ok(length) => length > 0,
            Err(fault) => {
                self.fault = Some(fault_of(fault.kind()));
                false
            }
        }
    }

    // Reads the configuration, and the line behind it; `None` where that doesn't come, or too late.
    fn read_config(&mut self, alloc: Global) -> Result<Option<Vec<u8>>, ReplayFault> {
        let mut config = Vec::new(alloc);
        for _ in 0..u64::MAX {
            // A line that has no end is the last, or longer than any.
            if !self.read_line() || !self.line.ends_with(b"\n") || config.len() > LIMIT {
                return Ok(None);
            }
            if is_head_end(self.line.as_slice()) {
                return Ok(Some(config));
            }
            config.extend_from_slice(self.line.as_slice())?;
        }
        Ok(None)
    }

    // The line that was read last can't stand where it does; or it couldn't be read.
    fn broken(&self) -> Result<Verdict, ReplayFault> {
        match self.fault {
            Some(fault) => Err(fault),
            None => Ok(Verdict::Broken { line: self.number }),
        }
    }
}

// The gateway of a trace; `None` where its configuration has a fault.
fn opened(
    alloc: Global,
    config: &[u8],
    first: FirstNumber,
) -> Result<Option<Box<Gateway>>, ReplayFault> {
    let Some(config) = read_config(alloc, config)? else {
        return Ok(None);
    };
    match Gateway::starting_at(alloc, config, first.number()) {
        Ok(gateway) => match Box::new(alloc, gateway) {
            Ok(gateway) => Ok(Some(gateway)),
            Err(_) => Err(ReplayFault::OutOfMemory),
        },
        Err(ConfigFault::OutOfMemory) => Err(ReplayFault::OutOfMemory),
        Err(_) => Ok(None),
    }
}

// A line is as it is told in the trace, or as it is owed, without its end.
fn line_of(alloc: Global, text: &[u8]) -> Result<Vec<u8>, ReplayFault> {
    let (line, _) = split_once(text, b'\n').unwrap_or((text, b""));
    Ok(Vec::from_slice(alloc, line)?)
}

// The line that was read last is the first that the gateway doesn't send just so.
fn differing<R: BufRead + Drop>(
    alloc: Global,
    trace: &TraceReader<R>,
    replay: &Replay,
) -> Result<Verdict, ReplayFault> {
    Ok(Verdict::Differs {
        line: trace.number,
        told: line_of(alloc, trace.line.as_slice())?,
        sent: line_of(alloc, replay.owed())?,
    })
}

// Replays the lines from this one on, if there is one.
fn replay_lines<R: BufRead + Drop>(
    alloc: Global,
    trace: &mut TraceReader<R>,
    replay: &mut Replay,
    is_line: bool,
) -> Result<Verdict, ReplayFault> {
    let mut is_line = is_line;
    let mut lines: u64 = 0;
    for _ in 0..u64::MAX {
        if !is_line {
            break;
        }
        match replay.take_line(trace.line.as_slice())? {
            Progress::GoesOn => {}
            Progress::Told => lines = lines.saturating_add(1),
            Progress::Differs => return differing(alloc, trace, replay),
            Progress::Broken => return trace.broken(),
        }
        is_line = trace.read_line();
    }
    if !trace.has_failed() && replay.may_end() {
        return Ok(Verdict::AsTold { lines });
    }
    trace.broken()
}

/// Replays a trace of any length, and keeps no more of it than a line: whether each line that went out is what the gateway sends
/// for the lines before it. Its ids begin with the number that the trace tells.
pub fn replay<R: BufRead + Drop>(alloc: Global, reader: R) -> Result<Verdict, ReplayFault> {
    let mut trace = TraceReader::new(alloc, reader);
    let Some(config) = trace.read_config(alloc)? else {
        return trace.broken();
    };
    let head = trace.number;
    let mut is_line = trace.read_line();
    if trace.has_failed() {
        return trace.broken();
    }
    let first = first_in(trace.line.as_slice());
    let Some(gateway) = opened(
        alloc,
        config.as_slice(),
        first.unwrap_or(FirstNumber::zero()),
    )?
    else {
        return Ok(Verdict::Broken { line: head });
    };
    if first.is_some() {
        is_line = trace.read_line();
    }
    let mut replay = Replay::new(alloc, gateway);
    replay_lines(alloc, &mut trace, &mut replay, is_line)
}
