//! A trace that is replayed, a line at a time.
ghost use Rattle.std.specs.Prelude.{◌≡◌, [], None, IfOk};
ghost use Rattle.std.specs.Bool.{MatchBool};
ghost use Rattle.gateway_core.specs.Stands.{Stands};
ghost use Rattle.rgw_scripts.specs.Script.{line_in};
ghost use Rattle.mg_bytes.specs.Words.{words as words_of};
ghost use Rattle.traces.specs.Replaying.{Replayed, Has, Follows, may_end, next, closed, compared, came, played, proceeded, move_in};

use crate::steps::{event_text, shown_by};
use crate::telling::{is_mark, is_told};
use gateway_core::{Event, Gateway};
use mg_bytes::OutOfMemory;
use rgw_scripts::{ScriptLine, ScriptStep, line_in};
use std::alloc::Global;
use std::marker::Model;
use std::net::SocketAddrV4;

/// What a line of a trace comes to.
#[derive(Clone, Copy)]
pub enum Progress {
    /// It is what came in, or tells what became of a datagram.
    GoesOn,
    /// It went out, just so.
    Told,
    /// It is the first that isn't what the gateway sends for the lines before it.
    Differs,
    /// It can't stand where it does, or the trace broke off in it.
    Broken,
}

/// A trace that is replayed: a gateway, and what the trace still has to tell of it.
#[derive(Drop)]
pub struct Replay {
    alloc: Global,
    gateway: Box<Gateway>,
    // Where a datagram without a byte comes from, whose `--` is still to come.
    opened: Option<SocketAddrV4>,
    owed: Vec<u8>,
}

impl Model for Replay {
    ghost use Rattle.traces.specs.Replaying.{ReplayState};

    ghost Value = { ReplayState };

    ghost view = { λ r. record { gateway = r.gateway.value; opened = r.opened; owed = r.owed.items } };
}

impl Replay {
    /// The replay of a gateway to which nothing has come yet.
    pub fn new(alloc: Global, gateway: Box<Gateway>) -> Replay
        ensures gateway { result.gateway ≡ gateway.value }
        ensures opened { result.opened ≡ None }
        ensures owed { result.owed ≡ [] }
    {
        Replay {
            alloc,
            gateway,
            opened: None,
            owed: Vec::new(alloc),
        }
    }

    // The line behind that of a datagram without a byte.
    fn close(&mut self, source: SocketAddrV4, line: &[u8]) -> Result<Progress, OutOfMemory>
        requires { self.old.opened ≡ None }
        ensures { IfOk result (λ progress. (r : Replayed) → Stands self.old.gateway r.taken →
            Follows progress self.new (closed self.old.gateway.setup r source line.now)) }
    {
        if line != b"--".as_slice() {
            return Ok(Progress::Broken);
        }
        let event = Event::Datagram { source, bytes: &[] };
        self.owed = event_text(self.alloc, &mut self.gateway, event)?;
        Ok(Progress::GoesOn)
    }

    // A line that went out.
    fn compare(&mut self, piece: &[u8], line: &[u8]) -> Result<Progress, OutOfMemory>
        ensures { IfOk result (λ progress. (r : Replayed) → Has self.old r →
            Follows progress self.new (compared r piece.now line.now)) }
    {
        let owed = self.owed.as_slice();
        if let Some(rest) = owed.strip_prefix(piece) {
            let rest = Vec::from_slice(self.alloc, rest)?;
            self.owed = rest;
            return Ok(Progress::Told);
        }
        if owed.is_empty() && is_mark(line) {
            return Ok(Progress::GoesOn);
        }
        Ok(Progress::Differs)
    }

    // Something came in: this step is played.
    fn play(&mut self, step: &ScriptStep) -> Result<Progress, OutOfMemory>
        requires { self.old.opened ≡ None }
        ensures { IfOk result (λ progress. (r : Replayed) → Stands self.old.gateway r.taken →
            Follows progress self.new (played self.old.gateway.setup r.taken (move_in step.now))) }
    {
        match shown_by(self.alloc, &mut self.gateway, step)? {
            Some(text) => {
                self.owed = text;
                Ok(Progress::GoesOn)
            }
            None => Ok(Progress::Broken),
        }
    }

    // A line that says what came in, where nothing is owed.
    fn come(&mut self, line: &[u8]) -> Result<Progress, OutOfMemory>
        requires opened { self.old.opened ≡ None }
        requires owed { self.old.owed ≡ [] }
        ensures { IfOk result (λ progress. (r : Replayed) → Stands self.old.gateway r.taken →
            Follows progress self.new (came self.old.gateway.setup r.taken (line_in (words_of line.now)))) }
    {
        match line_in(self.alloc, line)? {
            Some(ScriptLine::From { source }) => {
                self.opened = Some(source);
                Ok(Progress::GoesOn)
            }
            Some(ScriptLine::Whole { step }) => self.play(&step),
            Some(ScriptLine::Empty) | None => Ok(Progress::Broken),
        }
    }

    // A line where no datagram is open.
    fn proceed(&mut self, piece: &[u8], line: &[u8]) -> Result<Progress, OutOfMemory>
        requires { self.old.opened ≡ None }
        ensures { IfOk result (λ progress. (r : Replayed) → Has self.old r →
            Follows progress self.new (proceeded self.old.gateway.setup r piece.now line.now)) }
    {
        if is_told(line) {
            return self.compare(piece, line);
        }
        if !self.owed.as_slice().is_empty() {
            return Ok(Progress::Differs);
        }
        self.come(line)
    }

    /// Takes the next line, with its end, of a trace behind its head. An error is for want of memory only, and ends the replay.
    #[tactic(auto, unfolding(crate::specs::Replaying::next))]
    pub fn take_line(&mut self, piece: &[u8]) -> Result<Progress, OutOfMemory>
        ensures { IfOk result (λ progress. (r : Replayed) → Has self.old r →
            Follows progress self.new (next self.old.gateway.setup r piece.now)) }
    {
        let Some(line) = piece.strip_suffix(b"\n".as_slice()) else {
            return Ok(Progress::Broken);
        };
        match self.opened.take() {
            Some(source) => self.close(source, line),
            None => self.proceed(piece, line),
        }
    }

    /// Whether a trace may end here.
    pub fn may_end(&self) -> bool
        ensures { (r : Replayed) → Has self.now r → result ≡ may_end r }
    {
        self.owed.as_slice().is_empty() && self.opened.is_none()
    }

    /// What the gateway sent that the trace still has to tell, as a trace has it.
    pub fn owed(&self) -> &[u8]
        ensures { result.now ≡ self.now.owed }
    {
        self.owed.as_slice()
    }
}
