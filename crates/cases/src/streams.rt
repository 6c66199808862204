//! What comes of an input whose streams give and take seven bytes at a call, and may fail, a row each. Calls of a stream are
//! counted from 1.
//!
//! - `script show 1\nphone 1 on\n` the input is the usual settings with this script; `input domain = "\xff"\n` it is just this;
//! - `whole  2 commands, 1 refused  line 1 on signals - ..\n` nothing fails: how the play ends, and what is written;
//! - `interrupted  2 commands, 1 refused  ..` each call of the reader but every second is interrupted, from the first on;
//! - `read 1-32  read fault  ''` each of these calls of the reader fails in its turn, alone;
//! - `replayed  1 line, all as told\n` the input is replayed as a trace; `replay 3  read fault` where this call of the reader fails;
//! - `write 2  write fault  line 1\s` this call of the writer fails, and all behind it.
use mg_bytes::{Draft, OutOfMemory};
use rgw_play::{Ending, PlayFault, Played, play};
use scenario_files::{Outcome, Row, SETTINGS, Scenario, bytes_of, parted, range_in};
use std::alloc::{AllocError, Global};
use std::io::{self, BufReader, Read, Write};
use traces::{ReplayFault, Verdict, put_verdict, replay};

// What is wrong with the streams.
#[derive(Clone, Copy)]
enum Fault {
    Nothing,
    // Each call of the reader but every second is interrupted.
    Interrupts,
    // The call of the reader with this number fails.
    Read(u64),
    // The call of the writer with this number fails, and all behind it.
    Write(u64),
}

// Gives seven bytes at a call.
#[derive(Drop)]
struct SlowReader<'a> {
    text: &'a [u8],
    calls: u64,
    fault: Fault,
}

impl SlowReader<'_> {
    // Why this call fails, if it does.
    fn failing(&self) -> Option<io::ErrorKind> {
        match self.fault {
            Fault::Interrupts if self.calls % 2 == 1 => Some(io::ErrorKind::Interrupted),
            Fault::Read(call) if self.calls == call => Some(io::ErrorKind::Other),
            _ => None,
        }
    }
}

impl Read for SlowReader<'_> {
    fn read(&mut self, buf: &mut [u8]) -> io::Result<usize> {
        self.calls = self.calls.saturating_add(1);
        if let Some(kind) = self.failing() {
            return Err(io::Error::from(kind));
        }
        let n = self.text.len().min(buf.len()).min(7);
        buf[..n].copy_from_slice(&self.text[..n]);
        self.text = &self.text[n..];
        Ok(n)
    }
}

// Takes seven bytes at a call.
#[derive(Drop)]
struct SlowWriter {
    text: Vec<u8>,
    calls: u64,
    fault: Fault,
}

impl Write for SlowWriter {
    fn write(&mut self, buf: &[u8]) -> io::Result<usize> {
        self.calls = self.calls.saturating_add(1);
        if let Fault::Write(call) = self.fault {
            if call <= self.calls {
                return Err(io::Error::from(io::ErrorKind::Other));
            }
        }
        let n = buf.len().min(7);
        self.text.extend_from_slice(&buf[..n])?;
        Ok(n)
    }

    fn flush(&mut self) -> io::Result<()> {
        Ok(())
    }
}

// Puts what is said of an input that can't be played, a field each line.
fn put_fault(given: &mut Outcome, fault: PlayFault) -> Result<(), OutOfMemory> {
    let line = format!(in given.alloc; "{}", Ending::Fault(fault))?;
    given.put_made(line.replace(given.alloc, "\n", "  "));
    Ok(())
}

// Puts how a play ends.
fn put_ending(given: &mut Outcome, outcome: Result<Played, PlayFault>) -> Result<(), OutOfMemory> {
    match outcome {
        Ok(Played { commands, refused }) => {
            given.put_shown(commands);
            given.put_behind(b" commands, ", refused);
            given.put(b" refused  ");
        }
        Err(PlayFault::OutOfMemory) => given.refuse(),
        Err(fault) => return put_fault(given, fault),
    }
    Ok(())
}

// Puts what a replay finds.
fn put_found(given: &mut Outcome, found: Result<Verdict, ReplayFault>) -> Result<(), OutOfMemory> {
    match found {
        Ok(verdict) => put_verdict(given.alloc, &mut given.bytes, &verdict)?,
        Err(ReplayFault::OutOfMemory) => given.refuse(),
        Err(ReplayFault::Read { .. }) => given.put(b"read fault"),
    }
    Ok(())
}

/// What there is to read.
#[derive(Drop)]
pub struct StreamScenario {
    input: Vec<u8>,
}

impl StreamScenario {
    // What a field says is the script of the usual settings, or the input whole.
    fn read(&mut self, alloc: Global, is_script: bool, field: &str) -> Result<(), OutOfMemory> {
        let said = bytes_of(alloc, field)?;
        let mut input = Draft::new(alloc);
        if is_script {
            input.put(SETTINGS.as_bytes());
            input.put(b"%%\n");
        }
        input.put(&said);
        self.input = input.end()?;
        Ok(())
    }

    // What comes of the input with this fault.
    fn put_played(&self, given: &mut Outcome, fault: Fault) -> Result<(), OutOfMemory> {
        let mut reader = SlowReader {
            text: &self.input,
            calls: 0,
            fault,
        };
        let mut writer = SlowWriter {
            text: Vec::new(given.alloc),
            calls: 0,
            fault,
        };
        put_ending(given, play(given.alloc, &mut reader, &mut writer))?;
        given.put(&writer.text);
        Ok(())
    }

    // What a replay of it as a trace finds, with this fault.
    fn put_replayed(&self, given: &mut Outcome, fault: Fault) -> Result<(), OutOfMemory> {
        let reader = SlowReader {
            text: &self.input,
            calls: 0,
            fault,
        };
        let Ok(buffered) = BufReader::new(given.alloc, reader) else {
            return Err(AllocError);
        };
        put_found(given, replay(given.alloc, buffered))
    }

    // What comes of it where this call of a stream fails.
    fn put_failed(&self, given: &mut Outcome, stream: &str, call: u32) -> Result<(), OutOfMemory> {
        let call = u64::from(call);
        let fault = match stream {
            "read" => Fault::Read(call),
            "replay" => return self.put_replayed(given, Fault::Read(call)),
            _ => Fault::Write(call),
        };
        self.put_played(given, fault)
    }

    // The same where each of these calls fails in its turn: what comes of the first of which the row doesn't say it, else of
    // the last.
    fn put_all_failed(
        &self,
        row: &mut Row<'_>,
        stream: &str,
        calls: &str,
    ) -> Result<(), OutOfMemory> {
        let Some((first, last)) = range_in(calls) else {
            row.given.unread();
            return Ok(());
        };
        for call in first..=last {
            row.given.bytes.clear();
            self.put_failed(&mut row.given, stream, call)?;
            if row.unlike()?.is_some() {
                return Ok(());
            }
        }
        Ok(())
    }

    fn play(&mut self, row: &mut Row<'_>) -> Result<(), OutOfMemory> {
        let first = row.before("  ");
        let (word, rest) = parted(first, " ");
        match word {
            "script" => self.read(row.given.alloc, true, rest),
            "input" => self.read(row.given.alloc, false, rest),
            "whole" => self.put_played(&mut row.given, Fault::Nothing),
            "interrupted" => self.put_played(&mut row.given, Fault::Interrupts),
            "replayed" => self.put_replayed(&mut row.given, Fault::Nothing),
            "read" | "replay" | "write" => self.put_all_failed(row, word, rest),
            _ => {
                row.given.unread();
                Ok(())
            }
        }
    }
}

impl Scenario for StreamScenario {
    fn begin(alloc: Global) -> Result<StreamScenario, OutOfMemory> {
        Ok(StreamScenario {
            input: Vec::new(alloc),
        })
    }

    fn turn(&mut self, row: &mut Row<'_>) {
        row.is_exact = true;
        if self.play(row).is_err() {
            row.given.refuse();
        }
    }
}
