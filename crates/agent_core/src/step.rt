//! What happens in a world, and why it is refused.

ghost use Rattle.std.specs.Prelude.{◌≡◌};
ghost use Rattle.agent_core.specs.StepRefusal.{of_event, of_issue};

use call_agent::IssueFault;
use gateway_core::Refusal;
use mg_bytes::OutOfMemory;
use mg_line::Act;

/// What happens in a world.
#[derive(Clone, Copy)]
pub enum Step<'a> {
    /// The agent issues this command, with these bytes behind its line.
    Issue {
        verb: &'a [u8],
        name: &'a [u8],
        rest: &'a [u8],
    },
    /// Something is done at the telephone of a line.
    Dial {
        line: u16,
        act: Act,
    },
    /// The clock of both ends goes on to this moment, in ms.
    Tick {
        moment: u64,
    },
    /// The packet with this number, counted from 0, is handed over.
    Deliver {
        packet: usize,
    },
}

/// Why a step is refused.
#[derive(Clone, Copy, PartialEq, Eq)]
pub enum StepRefusal {
    /// Memory was refused, now or in an earlier call: the world is spent.
    OutOfMemory = 1,
    /// A tick more than 1,000 ms past now, or at or past 2^62.
    TickTooFar = 2,
    /// A tick before now.
    ClockBack = 3,
    /// There is no such line.
    NoSuchLine = 4,
    /// An act that the hook state rules out.
    PhoneState = 5,
    /// The agent has issued all its ids.
    NoMoreIds = 6,
    /// What would go out isn't one command under its id on its endpoint.
    BadCommand = 7,
    /// There is no packet with this number.
    NoSuchPacket = 8,
    /// The packet is more than 10,000 ms old.
    PacketTooOld = 9,
}

impl StepRefusal {
    ghost use Rattle.agent_core.specs.StepRefusal.{step_refusal_number, step_refusal_name};

    /// Its number, from 1.
    pub fn number(self) -> u8
        ensures { result ≡ step_refusal_number self }
    {
        self as u8
    }

    /// Its name, as it is printed.
    pub fn name(self) -> &'static str
        ensures { result.now ≡ step_refusal_name self }
    {
        match self {
            StepRefusal::OutOfMemory => "OutOfMemory",
            StepRefusal::TickTooFar => "TickTooFar",
            StepRefusal::ClockBack => "ClockBack",
            StepRefusal::NoSuchLine => "NoSuchLine",
            StepRefusal::PhoneState => "PhoneState",
            StepRefusal::NoMoreIds => "NoMoreIds",
            StepRefusal::BadCommand => "BadCommand",
            StepRefusal::NoSuchPacket => "NoSuchPacket",
            StepRefusal::PacketTooOld => "PacketTooOld",
        }
    }
}

impl From<OutOfMemory> for StepRefusal {
    ghost use Rattle.agent_core.specs.declared.step.StepRefusal.TheVariants as refusals;

    ghost from_gives = { λ _ refusal. refusal ≡ refusals.OutOfMemory };

    fn from(_refused: OutOfMemory) -> StepRefusal {
        StepRefusal::OutOfMemory
    }
}

/// The same, of an event that the gateway refuses.
pub(crate) fn of_event(refusal: Refusal) -> StepRefusal
    ensures { result ≡ of_event refusal }
{
    match refusal {
        Refusal::OutOfMemory => StepRefusal::OutOfMemory,
        Refusal::TickTooFar => StepRefusal::TickTooFar,
        Refusal::ClockBack => StepRefusal::ClockBack,
        Refusal::NoSuchLine => StepRefusal::NoSuchLine,
        Refusal::PhoneState => StepRefusal::PhoneState,
    }
}

/// The same, of a command that isn't issued.
pub(crate) fn of_issue(fault: IssueFault) -> StepRefusal
    ensures { result ≡ of_issue fault }
{
    match fault {
        IssueFault::OutOfMemory => StepRefusal::OutOfMemory,
        IssueFault::NoMoreIds => StepRefusal::NoMoreIds,
        IssueFault::BadCommand => StepRefusal::BadCommand,
    }
}

/// Where a run of a world stopped: the steps before `place` stand, unless the world is spent.
#[derive(Clone, Copy)]
pub struct WorldStopped {
    pub place: usize,
    pub refusal: StepRefusal,
}
