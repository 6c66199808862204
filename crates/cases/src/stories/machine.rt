//! The machine that a program of a story runs on: its sockets in memory, its clocks, and how long its work takes.
//!
//! What comes and goes is that of `Scripted`. Beside it a socket is told of as a machine does that, where the program waits for it or
//! looks; and time goes by while something is read or sent, where a story says so.
ghost use Rattle.std.specs.Prelude.{◌≡◌};
ghost use Rattle.live_io.specs.Keeping.{told_by};

use crate::stories::clocks::Clocks;
use crate::stories::given::{put_answer, put_sent};
use crate::stories::transcript::Transcript;
use live_io::{Coming, Fault, Happening, Scripted, Surroundings, Told};
use live_system::LiveClock;
use mg_bytes::OutOfMemory;
use std::alloc::{AllocError, Global};
use std::collections::VecDeque;
use std::net::{SocketAddr, SocketAddrV4};
use std::rc::Rc;

/// What changes on a machine.
#[derive(Clone, Copy)]
pub enum Change {
    /// From now on each datagram that is read, and each that is sent to an agent, takes so many ms.
    Work { ms: u64 },
    /// The clock is set on, by so many ms.
    ClockOn { ms: u64 },
    /// The clock is set back, by so many ms.
    ClockBack { ms: u64 },
    /// The clock can't be read any more.
    ClockFails,
    /// The next wait fails.
    WaitFails,
    /// The time of day is set on, by so many ms.
    DayOn { ms: u64 },
    /// The time of day is set back, by so many ms.
    DayBack { ms: u64 },
}

/// When something changes, in ms.
#[derive(Clone, Copy)]
pub struct Changing {
    pub moment: u64,
    pub what: Change,
}

/// What is to come, and what is to change, each from the first moment to the last.
#[derive(Drop)]
pub struct Plan {
    pub coming: VecDeque<Coming>,
    pub changing: VecDeque<Changing>,
}

impl Plan {
    /// Nothing.
    pub fn none(alloc: Global) -> Plan {
        Plan {
            coming: VecDeque::new(alloc),
            changing: VecDeque::new(alloc),
        }
    }
}

/// The machine of a program.
#[derive(Drop)]
pub struct Machine<'c> {
    alloc: Global,
    sockets: Scripted,
    plan: Plan,
    // Of which sockets it told.
    told: Told,
    // So long a datagram takes, in ms.
    work: u64,
    // Whether the next wait fails.
    fails_to_wait: bool,
    clocks: Rc<Clocks>,
    clock: LiveClock<'c, Clocks>,
    /// What was sent and answered.
    pub given: Transcript,
}

// What comes first does to the program, if it isn't there to be read.
#[derive(Clone, Copy)]
enum Disturbance {
    Pause { ms: u64 },
    SendFault,
}

// What this does.
fn disturbance_of(what: &Happening) -> Option<Disturbance> {
    match what {
        Happening::Pause { ms } => Some(Disturbance::Pause { ms: *ms }),
        Happening::SendFault => Some(Disturbance::SendFault),
        Happening::Datagram { .. } | Happening::Lines { .. } | Happening::ReceiveFault => None,
    }
}

// Whether it is found where datagrams are read, or where lines are.
fn is_found(what: &Happening, is_lines: bool) -> bool {
    match what {
        Happening::Datagram { .. } | Happening::ReceiveFault => !is_lines,
        Happening::Lines { .. } => is_lines,
        Happening::Pause { .. } | Happening::SendFault => false,
    }
}

// What is to change by now has changed: the clocks, how long a datagram takes, in ms, or whether the next wait fails.
fn change_all(
    changing: &mut VecDeque<Changing>,
    clocks: &Clocks,
    work: &mut u64,
    fails_to_wait: &mut bool,
) {
    for _ in 0..changing.len() {
        let Some(next) = changing.front() else {
            return;
        };
        let Changing { moment, what } = *next;
        if moment > clocks.moment() {
            return;
        }
        match what {
            Change::Work { ms } => *work = ms,
            Change::ClockOn { ms } => clocks.set_on(ms),
            Change::ClockBack { ms } => clocks.set_back(ms),
            Change::ClockFails => clocks.fail(),
            Change::WaitFails => *fails_to_wait = true,
            Change::DayOn { ms } => clocks.set_day_on(ms),
            Change::DayBack { ms } => clocks.set_day_back(ms),
        }
        let _ = changing.pop_front();
    }
}

impl<'c> Machine<'c> {
    /// One with sockets at these addresses, by these clocks, to which this is to come. To each socket something may have come already.
    pub fn new(
        alloc: Global,
        own: [SocketAddrV4; 2],
        plan: Plan,
        clocks: &'c Rc<Clocks>,
    ) -> Result<Machine<'c>, OutOfMemory> {
        let all_clocks = clocks.clone()?;
        let Ok(clock) = LiveClock::start(clocks.as_ref()) else {
            return Err(AllocError);
        };
        let mut machine = Machine {
            alloc,
            sockets: Scripted::new(alloc, own),
            plan,
            told: Told {
                lines: true,
                datagrams: true,
            },
            work: 0,
            fails_to_wait: false,
            clocks: all_clocks,
            clock,
            given: Transcript::new(alloc),
        };
        machine.change();
        Ok(machine)
    }

    // What is to change by now has changed.
    fn change(&mut self)
        ensures { told_by self.new.sockets ≡ told_by self.old.sockets }
    {
        change_all(
            &mut self.plan.changing,
            self.clocks.as_ref(),
            &mut self.work,
            &mut self.fails_to_wait,
        );
    }

    // So many ms go by.
    fn pass(&mut self, ms: u64)
        ensures { told_by self.new.sockets ≡ told_by self.old.sockets }
    {
        // Nothing waits there, so nothing ends that wait.
        let _ = self.sockets.wait(ms);
        let moment = self.clocks.moment();
        self.clocks.reach(moment.saturating_add(ms));
        self.change();
    }

    // The place of the first datagram or fault, or of the first lines, that have come.
    fn place_of(&self, is_lines: bool) -> Option<usize> {
        for place in 0..self.plan.coming.len() {
            let coming = &self.plan.coming[place];
            if coming.moment > self.clocks.moment() {
                return None;
            }
            if is_found(&coming.what, is_lines) {
                return Some(place);
            }
        }
        None
    }

    // What comes is found at a socket now.
    fn put(&mut self, what: Happening)
        ensures { told_by self.new.sockets ≡ told_by self.old.sockets }
    {
        if self.sockets.add(Coming { moment: 0, what }).is_err() {
            self.given.refuse();
        }
    }

    // The first datagram or fault, or the first lines, that have come are at their socket: whether there are any.
    fn bring(&mut self, is_lines: bool) -> bool
        ensures { told_by self.new.sockets ≡ told_by self.old.sockets }
    {
        let Some(place) = self.place_of(is_lines) else {
            return false;
        };
        let Some(coming) = self.plan.coming.remove(place) else {
            return false;
        };
        self.put(coming.what);
        true
    }

    // What comes first, where that is by then: how long it is until then, in ms, and what it does.
    fn next_by(&self, longest: u64) -> Option<(u64, Option<Disturbance>)> {
        let coming = self.plan.coming.front()?;
        let left = coming.moment.saturating_sub(self.clocks.moment());
        if left > longest {
            return None;
        }
        Some((left, disturbance_of(&coming.what)))
    }

    // The program is stopped, or the next datagram can't be sent.
    fn disturb(&mut self, what: Disturbance)
        ensures { told_by self.new.sockets ≡ told_by self.old.sockets }
    {
        let _ = self.plan.coming.pop_front();
        match what {
            Disturbance::Pause { ms } => self.pass(ms),
            Disturbance::SendFault => {
                self.put(Happening::SendFault);
                let _ = self.sockets.wait(0);
            }
        }
    }

    // Time goes by until something comes, but no longer than this, in ms.
    fn go_on(&mut self, longest: u64)
        ensures { told_by self.new.sockets ≡ told_by self.old.sockets }
    {
        let Some((left, disturbance)) = self.next_by(longest) else {
            self.pass(longest);
            return;
        };
        self.pass(left);
        if let Some(disturbance) = disturbance {
            self.disturb(disturbance);
        }
    }

    // A socket was looked at: where nothing was found it isn't told of before something comes; else that is worked at.
    fn found(&mut self, is_lines: bool, is_any: bool)
        ensures { told_by self.new.sockets ≡ told_by self.old.sockets }
    {
        if is_any {
            self.pass(self.work);
        } else if is_lines {
            self.told.lines = false;
        } else {
            self.told.datagrams = false;
        }
    }

    // A datagram was sent.
    fn tell_sent(&mut self, to: SocketAddrV4, bytes: &[u8])
        ensures { self.new.sockets ≡ self.old.sockets }
    {
        let at = self.clocks.stamp();
        put_sent(self.alloc, &mut self.given, at, to, bytes);
    }
}

impl Surroundings for Machine<'_> {
    ghost use Rattle.live_io.specs.Around.{unasked};
    ghost use Rattle.live_io.specs.Keeping.{told_by, Answers};

    ghost around = { record unasked {
      traffic = λ machine. told_by machine.sockets;
      sockets = λ machine. machine.sockets.own;
      answers = λ was to text is. Answers was.sockets to text is.sockets;
    } };

    fn moment(&self) -> Result<u64, Fault> {
        match self.clock.passed() {
            Ok(passed) => Ok(passed),
            Err(_) => Err(Fault),
        }
    }

    fn time(&self) -> u64 {
        self.clock.time()
    }

    fn own(&self) -> [SocketAddrV4; 2] {
        self.sockets.own
    }

    fn told(&self) -> Told {
        self.told
    }

    fn wait(&mut self, longest: u64) -> Result<(), Fault> {
        if self.fails_to_wait {
            self.fails_to_wait = false;
            return Err(Fault);
        }
        self.go_on(longest);
        self.told = Told {
            lines: self.told.lines || self.place_of(true).is_some(),
            datagrams: self.told.datagrams || self.place_of(false).is_some(),
        };
        Ok(())
    }

    fn receive(&mut self, room: &mut [u8]) -> Result<Option<(SocketAddrV4, usize)>, Fault> {
        let is_any = self.bring(false);
        let found = self.sockets.receive(room);
        self.found(false, is_any);
        found
    }

    fn send(&mut self, to: SocketAddrV4, bytes: &[u8]) -> Result<(), Fault> {
        self.pass(self.work);
        let sent = self.sockets.send(to, bytes);
        if sent.is_ok() {
            self.tell_sent(to, bytes);
        }
        sent
    }

    fn hear(&mut self, room: &mut [u8]) -> Option<(SocketAddr, usize)> {
        let is_any = self.bring(true);
        let found = self.sockets.hear(room);
        self.found(true, is_any);
        found
    }

    fn answer(&mut self, to: SocketAddr, text: &[u8]) {
        self.sockets.answer(to, text);
        let at = self.clocks.stamp();
        put_answer(self.alloc, &mut self.given, at, to, text);
    }
}
