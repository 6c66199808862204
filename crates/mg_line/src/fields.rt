//! The fields of a line.
ghost use Rattle.std.specs.Prelude.{◌≡◌, IfOk, OnOk, OnErr};
ghost use Rattle.events_and_signals.specs.Held.{nothing_held, without_front};
ghost use Rattle.mg_line.specs.Line.{opening_line};
ghost use Rattle.mg_line.specs.LineFields.{line_in};
ghost use Rattle.mg_line.specs.Detecting.{with_held};

use crate::notice::MOST_ACCUMULATED;
use arrayvec::ArrayVec;
use digit_map_bits::Dialling;
use event_syntax::{Handling, Notifying, Observed, Quarantined};
use events_and_signals::{Buffer, EventRequest, SignalSet};
use machine_rules::{State, quarantine_room};
use mg_bytes::{Identifier, OutOfMemory};
use packages::Hook;
use std::alloc::Global;
use std::mem;

/// The fields of a line. Contracts read them by `line_in`.
#[derive(Drop)]
pub(crate) struct LineFields {
    pub alloc: Global,
    pub hook: Hook,
    pub signals: SignalSet,
    pub identifier: Identifier,
    // R and T.
    pub requests: EventRequest,
    pub handling: Handling,
    // The digit map with the dial string; without a map nothing stays dialled.
    pub dialling: Option<Dialling>,
    pub accumulated: ArrayVec<Observed, MOST_ACCUMULATED>,
    // The end of timer T, in ms.
    pub timer: Option<u64>,
    pub state: State,
    // A request came since the notification began.
    pub renewed: bool,
    pub quarantined: Buffer,
}

// The same events in a list of their own.
fn same_events(
    events: &ArrayVec<Observed, MOST_ACCUMULATED>,
) -> ArrayVec<Observed, MOST_ACCUMULATED>
    ensures { result ≡ events.now }
{
    let mut copy = ArrayVec::new();
    match copy.try_extend_from_slice(events.as_slice()) {
        Ok(()) => copy,
        Err(_) => copy,
    }
}

// The same digit map and dial string, where there are.
fn same_dialling(dialling: &Option<Dialling>) -> Result<Option<Dialling>, OutOfMemory>
    ensures { IfOk result (λ copy. copy ≡ dialling.now) }
{
    match dialling {
        None => Ok(None),
        Some(dialling) => Ok(Some(dialling.try_copy()?)),
    }
}

impl LineFields {
    /// On hook, without a signal, and with nothing asked for; events are quarantined. An error is for want of memory only.
    pub fn new(alloc: Global) -> Result<LineFields, OutOfMemory>
        ensures { IfOk result (λ fields. line_in fields ≡ opening_line) }
    {
        Ok(LineFields {
            alloc,
            hook: Hook::OnHook,
            signals: SignalSet::new(),
            identifier: Identifier::zero(),
            requests: EventRequest::nothing(),
            handling: Handling {
                notifying: Notifying::Step,
                quarantined: Quarantined::Process,
            },
            dialling: None,
            accumulated: ArrayVec::new(),
            timer: None,
            state: State::Notification,
            renewed: false,
            quarantined: Buffer::new(alloc, quarantine_room())?,
        })
    }

    /// Equal fields, which share R and T. An error is for want of memory only.
    pub fn try_copy(&self) -> Result<LineFields, OutOfMemory>
        ensures { IfOk result (λ copy. line_in copy ≡ line_in self.now) }
    {
        self.copy_with(self.quarantined.try_copy()?)
    }

    /// The same without the quarantined events, and without room for any.
    pub fn copy_beside(&self) -> Result<LineFields, OutOfMemory>
        ensures { IfOk result (λ copy. line_in copy ≡ with_held (nothing_held 0) (line_in self.now)) }
    {
        self.copy_with(Buffer::new(self.alloc, 0)?)
    }

    // The same with this quarantine.
    fn copy_with(&self, quarantined: Buffer) -> Result<LineFields, OutOfMemory>
        ensures { IfOk result (λ copy. line_in copy ≡ with_held quarantined (line_in self.now)) }
    {
        Ok(LineFields {
            alloc: self.alloc,
            hook: self.hook,
            signals: self.signals,
            identifier: self.identifier.copy(),
            requests: self.requests.try_copy()?,
            handling: self.handling,
            dialling: same_dialling(&self.dialling)?,
            accumulated: same_events(&self.accumulated),
            timer: self.timer,
            state: self.state,
            renewed: self.renewed,
            quarantined,
        })
    }

    /// They become those of a copy without quarantined events, where so many of these occurred in it.
    pub fn take_over(&mut self, copy: LineFields, count: usize)
        ensures { line_in self.new ≡ with_held (without_front count self.old.quarantined) (line_in copy) }
    {
        let mut copy = copy;
        self.quarantined.drop_front(count);
        mem::swap(&mut copy.quarantined, &mut self.quarantined);
        *self = copy;
    }

    /// They become equal to others, with which they share R and T. The room of the quarantine stays. An error is for want of
    /// memory only, and then they are as they were.
    pub fn try_copy_from(&mut self, other: &LineFields) -> Result<(), OutOfMemory>
        ensures ok { OnOk result (line_in self.new ≡ line_in other.now) }
        ensures err { OnErr result (line_in self.new ≡ line_in self.old) }
    {
        let requests = other.requests.try_copy()?;
        let dialling = same_dialling(&other.dialling)?;
        self.quarantined.try_copy_from(&other.quarantined)?;
        self.hook = other.hook;
        self.signals = other.signals;
        self.identifier = other.identifier.copy();
        self.requests = requests;
        self.handling = other.handling;
        self.dialling = dialling;
        self.accumulated = same_events(&other.accumulated);
        self.timer = other.timer;
        self.state = other.state;
        self.renewed = other.renewed;
        Ok(())
    }
}
