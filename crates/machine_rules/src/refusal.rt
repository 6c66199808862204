//! Why an event is refused.
ghost use Rattle.std.specs.Prelude.{◌≡◌};

use mg_bytes::OutOfMemory;

/// Why an event is refused. A refused event changes nothing that the gateway stands for.
#[derive(Clone, Copy, PartialEq, Eq)]
pub enum Refusal {
    /// Memory was refused.
    OutOfMemory = 1,
    /// A tick more than 1,000 ms past now, or at or past 2^62.
    TickTooFar = 2,
    /// A tick before now.
    ClockBack = 3,
    /// There is no such line.
    NoSuchLine = 4,
    /// An act that the hook state rules out.
    PhoneState = 5,
}

impl Refusal {
    ghost use Rattle.machine_rules.specs.Refusal.{refusal_number, refusal_name};

    /// Its number, from 1.
    pub fn number(self) -> u8
        ensures { result ≡ refusal_number self }
    {
        self as u8
    }

    /// Its name, as it is printed.
    pub fn name(self) -> &'static str
        ensures { result.now ≡ refusal_name self }
    {
        match self {
            Refusal::OutOfMemory => "OutOfMemory",
            Refusal::TickTooFar => "TickTooFar",
            Refusal::ClockBack => "ClockBack",
            Refusal::NoSuchLine => "NoSuchLine",
            Refusal::PhoneState => "PhoneState",
        }
    }
}

impl From<OutOfMemory> for Refusal {
    ghost use Rattle.machine_rules.specs.declared.refusal.Refusal.TheVariants as refusals;

    ghost from_gives = { λ _ refusal. refusal ≡ refusals.OutOfMemory };

    fn from(_refused: OutOfMemory) -> Refusal {
        Refusal::OutOfMemory
    }
}
