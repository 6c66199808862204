//! A program's surroundings in memory, by a script.
ghost use Rattle.std.specs.Prelude.{◌≡◌, ◌≤◌, ◌<◌, ◌++◌, ◌∷◌, [], false, Some, length, IfSome, OnOk, OnErr};
ghost use Rattle.live_io.specs.Keeping.{told_by, KeepsAnswer, Sends};
ghost use Rattle.live_io.specs.Waiting.{next_by, HappensFirst, GoesOn};

use crate::arrivals::Arrivals;
use crate::keeping::{SentDatagram, keep};
use crate::surroundings::{Fault, Surroundings, Told};
use std::alloc::{AllocError, Global};
use std::collections::VecDeque;
use std::net::{SocketAddr, SocketAddrV4};

// The time of day at the start, in microseconds since 1970: 2026-01-01 00:00:00.
const OPENED: u64 = 1_767_225_600_000_000;

const MICROSECONDS: u64 = 1000;

/// What happens to a program.
#[derive(Drop)]
pub enum Happening {
    /// A datagram comes.
    Datagram {
        source: SocketAddrV4,
        bytes: Vec<u8>,
    },
    /// A datagram of lines comes from who types.
    Lines {
        from: SocketAddr,
        text: Vec<u8>,
    },
    /// The program is stopped for so long, in ms.
    Pause {
        ms: u64,
    },
    /// The next datagram that is sent can't be.
    SendFault,
    /// The socket for datagrams fails, once, where it is read.
    ReceiveFault,
}

/// When something happens, in ms.
#[derive(Drop)]
pub struct Coming {
    pub moment: u64,
    pub what: Happening,
}

/// What was answered at this moment, in ms, to who typed, when so many datagrams had been handed over to be sent.
#[derive(Drop)]
pub struct Answer {
    pub moment: u64,
    pub sent: usize,
    pub to: SocketAddr,
    pub text: Vec<u8>,
}

/// Surroundings in which things happen at their moments, and that keep what is received, sent and answered. Its clock goes on by waits
/// alone.
pub struct Scripted {
    alloc: Global,
    /// The addresses of its two sockets.
    pub own: [SocketAddrV4; 2],
    moment: u64,
    coming: VecDeque<Coming>,
    /// What was handed over to be sent, and the places of what couldn't be; and what was answered: each in its order.
    pub sent: Vec<SentDatagram>,
    pub unsent: Vec<usize>,
    pub answers: Vec<Answer>,
    // No copy of what was sent is missing.
    pub(crate) is_whole: bool,
    // What was received.
    pub(crate) received: Arrivals,
    is_failing: bool,
}

// Written out: a derived drop, and those of all its parts, are proved anew by each crate that lets one go.
impl Drop for Scripted {
    fn drop(self) {
        let Scripted {
            alloc: _,
            own: _,
            moment: _,
            coming,
            sent,
            unsent,
            answers,
            is_whole: _,
            received,
            is_failing: _,
        } = self;
        drop(coming);
        drop(sent);
        drop(unsent);
        drop(answers);
        drop(received);
    }
}

// Puts as much as there is room for at the front of the room: how much that is.
fn fill(room: &mut [u8], bytes: &[u8]) -> usize
    ensures length { length room.new ≡ length room.old }
    ensures within { result ≤ length room.new }
{
    let len = bytes.len().min(room.len());
    room[..len].copy_from_slice(&bytes[..len]);
    len
}

// What was answered at this moment, in ms, when so much had been handed over, is kept. Where memory is refused it is lost, as on a network.
fn keep_answer(
    alloc: Global,
    answers: &mut Vec<Answer>,
    moment: u64,
    sent: usize,
    to: SocketAddr,
    text: &[u8],
)
    ensures { KeepsAnswer answers.old.items (record { moment = moment; sent = sent; to = to; text = text.now }) answers.new.items }
{
    if let Ok(text) = Vec::from_slice(alloc, text) {
        let _ = answers.push(Answer {
            moment,
            sent,
            to,
            text,
        });
    }
}

impl Scripted {
    /// At moment 0, with sockets at these addresses; nothing is to happen.
    pub fn new(alloc: Global, own: [SocketAddrV4; 2]) -> Scripted
        ensures traffic { told_by result ≡ record { sent = Some []; received = Some [] } }
        ensures own { result.own ≡ own }
        ensures moment { result.moment ≡ 0 }
        ensures coming { result.coming.items ≡ [] }
        ensures unsent { result.unsent.items ≡ [] }
        ensures answers { result.answers.items ≡ [] }
        ensures failing { result.is_failing ≡ false }
    {
        Scripted {
            alloc,
            own,
            moment: 0,
            coming: VecDeque::new(alloc),
            sent: Vec::new(alloc),
            unsent: Vec::new(alloc),
            answers: Vec::new(alloc),
            is_whole: true,
            received: Arrivals::none(alloc),
            is_failing: false,
        }
    }

    /// This happens behind all that was to happen so far, and at no earlier moment.
    pub fn add(&mut self, coming: Coming) -> Result<(), AllocError>
        ensures ok { OnOk result (self.new.coming.items ≡ self.old.coming.items ++ coming ∷ []) }
        ensures err { OnErr result (self.new.coming.items ≡ self.old.coming.items) }
        ensures traffic { told_by self.new ≡ told_by self.old }
        ensures own { self.new.own ≡ self.old.own }
        ensures moment { self.new.moment ≡ self.old.moment }
        ensures unsent { self.new.unsent ≡ self.old.unsent }
        ensures answers { self.new.answers ≡ self.old.answers }
        ensures failing { self.new.is_failing ≡ self.old.is_failing }
    {
        self.coming.push_back(coming)?;
        Ok(())
    }

    // The place of the first datagram or fault, or of the first lines, that have come.
    fn place_of(&self, is_lines: bool) -> Option<usize>
        ensures { IfSome result (λ place. place < length self.now.coming.items) }
    {
        for place in 0..self.coming.len() {
            let coming = &self.coming[place];
            if coming.moment > self.moment {
                return None;
            }
            if is_asked(&coming.what, is_lines) {
                return Some(place);
            }
        }
        None
    }

    // What stands at this place has happened.
    fn take(&mut self, place: usize) -> Option<Happening>
        ensures sent { self.new.sent ≡ self.old.sent }
        ensures whole { self.new.is_whole ≡ self.old.is_whole }
        ensures received { self.new.received ≡ self.old.received }
    {
        match self.coming.remove(place) {
            Some(Coming { what, .. }) => Some(what),
            None => None,
        }
    }

    // When what comes first happens, if it does by then.
    fn next_by(&self, until: u64) -> Option<u64>
        ensures { result ≡ next_by until self.now.moment self.now.coming.items }
    {
        let coming = self.coming.front()?;
        let next = coming.moment.max(self.moment);
        if next > until { None } else { Some(next) }
    }

    // What comes first stops the program, or lets a send fail, if it is of that kind: whether it is.
    fn is_disturbed(&mut self) -> bool
        ensures happens { HappensFirst self.old.coming.items self.old result self.new }
        ensures sent { self.new.sent ≡ self.old.sent }
        ensures whole { self.new.is_whole ≡ self.old.is_whole }
        ensures received { self.new.received ≡ self.old.received }
    {
        let Some(coming) = self.coming.front() else {
            return false;
        };
        match &coming.what {
            Happening::Pause { ms } => self.moment = self.moment.saturating_add(*ms),
            Happening::SendFault => self.is_failing = true,
            Happening::Datagram { .. } | Happening::Lines { .. } | Happening::ReceiveFault => {
                return false;
            }
        }
        true
    }

    // The program goes on: what stops it, or lets a send fail, happens if it is next, and by then.
    fn go_on(&mut self, until: u64)
        ensures goes { GoesOn (next_by until self.old.moment self.old.coming.items) until self.old self.new }
        ensures sent { self.new.sent ≡ self.old.sent }
        ensures whole { self.new.is_whole ≡ self.old.is_whole }
        ensures received { self.new.received ≡ self.old.received }
    {
        let Some(next) = self.next_by(until) else {
            self.moment = until;
            return;
        };
        self.moment = next;
        if self.is_disturbed() {
            let _ = self.coming.pop_front();
        }
    }

    // A copy of what is handed over is kept; where memory is refused for one, what is sent isn't told any more.
    fn keep_sent(&mut self, to: SocketAddrV4, bytes: &[u8])
        ensures kept { Sends self.old to bytes.now self.new }
        ensures received { self.new.received ≡ self.old.received }
    {
        if keep(self.alloc, &mut self.sent, self.moment, to, bytes).is_err() {
            self.is_whole = false;
        }
    }

    // What was handed over last can't be sent.
    fn fail_to_send(&mut self)
        ensures sent { self.new.sent ≡ self.old.sent }
        ensures whole { self.new.is_whole ≡ self.old.is_whole }
        ensures received { self.new.received ≡ self.old.received }
    {
        self.is_failing = false;
        let place = self.sent.len().saturating_sub(1);
        let _ = self.unsent.push(place);
    }
}

// Whether it is found where datagrams are read, or where lines are.
fn is_asked(what: &Happening, is_lines: bool) -> bool {
    match what {
        Happening::Datagram { .. } | Happening::ReceiveFault => !is_lines,
        Happening::Lines { .. } => is_lines,
        Happening::Pause { .. } | Happening::SendFault => false,
    }
}

impl Surroundings for Scripted {
    ghost use Rattle.std.specs.Prelude.{◌≡◌, Ok};
    ghost use Rattle.live_io.specs.Around.{unasked};
    ghost use Rattle.live_io.specs.Keeping.{told_by, Answers, Receives, Sends};
    ghost use Rattle.live_io.specs.Waiting.{time_at, Waits};

    ghost around = { record unasked {
      traffic = told_by;
      sockets = λ around. around.own;
      passes = λ around given. given ≡ Ok around.moment;
      dates = λ around time. time ≡ time_at around.moment;
      sleeps = Waits;
      receives = Receives;
      sends = λ was to bytes outcome is. Sends was to bytes is;
      answers = Answers;
    } };

    fn moment(&self) -> Result<u64, Fault> {
        Ok(self.moment)
    }

    fn time(&self) -> u64 {
        OPENED.saturating_add(self.moment.saturating_mul(MICROSECONDS))
    }

    fn own(&self) -> [SocketAddrV4; 2] {
        self.own
    }

    fn told(&self) -> Told {
        Told {
            lines: self.place_of(true).is_some(),
            datagrams: self.place_of(false).is_some(),
        }
    }

    fn wait(&mut self, longest: u64) -> Result<(), Fault> {
        self.go_on(self.moment.saturating_add(longest));
        Ok(())
    }

    #[tactic(auto, using(crate::proofs::TrafficLemmas::nothing_more))]
    fn receive(&mut self, room: &mut [u8]) -> Result<Option<(SocketAddrV4, usize)>, Fault> {
        let Some(place) = self.place_of(false) else {
            return Ok(None);
        };
        match self.take(place) {
            Some(Happening::Datagram { source, bytes }) => {
                let len = fill(room, bytes.as_slice());
                self.received.add(source, &room[..len]);
                Ok(Some((source, len)))
            }
            Some(Happening::ReceiveFault) => Err(Fault),
            _ => Ok(None),
        }
    }

    #[tactic(auto, using(crate::proofs::TrafficLemmas::kept_grows))]
    fn send(&mut self, to: SocketAddrV4, bytes: &[u8]) -> Result<(), Fault> {
        self.keep_sent(to, bytes);
        if self.is_failing {
            self.fail_to_send();
            return Err(Fault);
        }
        Ok(())
    }

    fn hear(&mut self, room: &mut [u8]) -> Option<(SocketAddr, usize)> {
        let place = self.place_of(true)?;
        match self.take(place) {
            Some(Happening::Lines { from, text }) => Some((from, fill(room, text.as_slice()))),
            _ => None,
        }
    }

    fn answer(&mut self, to: SocketAddr, text: &[u8]) {
        let sent = self.sent.len();
        keep_answer(self.alloc, &mut self.answers, self.moment, sent, to, text);
    }
}
