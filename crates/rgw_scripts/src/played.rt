//! What a play answers.
ghost use Rattle.std.specs.Prelude.{◌≡◌};
ghost use Rattle.rgw_scripts.specs.Fault.{name_of_config_fault};

use mg_bytes::OutOfMemory;
use plain_machine::ConfigFault;
use std::alloc::AllocError;

/// Why an input was not played, or not to its end.
#[derive(Clone, Copy)]
pub enum PlayFault {
    /// Memory was refused.
    OutOfMemory,
    /// The reader failed.
    Read,
    /// The writer failed.
    Write,
    /// The configuration is refused: 2 to 6 as the gateway counts its faults, and 7 where it can't be read.
    Config { number: u8 },
    /// This line of the script is no step, counted from 1; 0 where the input is too long.
    Script { line: u64 },
}

impl PlayFault {
    ghost use Rattle.rgw_scripts.specs.Fault.{play_fault_number};

    /// Its number among the faults, from 1 in the order in which they are declared. It isn't that of a configuration's fault.
    pub fn number(self) -> u8
        ensures { result ≡ play_fault_number self }
    {
        match self {
            Self::OutOfMemory => 1,
            Self::Read => 2,
            Self::Write => 3,
            Self::Config { .. } => 4,
            Self::Script { .. } => 5,
        }
    }
}

/// Why a step was not played to its end: the network may fail too.
pub enum StepFault<F> {
    /// Memory was refused.
    OutOfMemory,
    /// The network failed so.
    Link(F),
}

// Written by hand, as for `Route`: what a derive writes goes through the variants, and costs a check seconds.
impl<F: Copy> Clone for StepFault<F> {
    ghost use Rattle.std.specs.Prelude.{⊤};

    ghost is_clone = { λ fault copy. copy ≡ fault };

    ghost is_infallible = { λ _. ⊤ };

    fn clone(&self) -> Result<StepFault<F>, AllocError> {
        Ok(*self)
    }
}

impl<F: Copy> Copy for StepFault<F> {}

impl<F> From<OutOfMemory> for StepFault<F> {
    fn from(_e: OutOfMemory) -> StepFault<F> {
        StepFault::OutOfMemory
    }
}

/// Why an input was not played over a network, or not to its end.
pub enum LinkFault<F> {
    /// As without a network.
    Play(PlayFault),
    /// The network failed so.
    Link(F),
}

// As for `StepFault`.
impl<F: Copy> Clone for LinkFault<F> {
    ghost use Rattle.std.specs.Prelude.{⊤};

    ghost is_clone = { λ fault copy. copy ≡ fault };

    ghost is_infallible = { λ _. ⊤ };

    fn clone(&self) -> Result<LinkFault<F>, AllocError> {
        Ok(*self)
    }
}

impl<F: Copy> Copy for LinkFault<F> {}

impl<F> LinkFault<F> {
    ghost use Rattle.rgw_scripts.specs.Fault.{link_fault_number};

    /// Its number among the faults: 1 to 5 as without a network, and 6 where that failed.
    pub fn number(&self) -> u8
        ensures { result ≡ link_fault_number self.now }
    {
        match self {
            LinkFault::Play(fault) => fault.number(),
            LinkFault::Link(_) => 6,
        }
    }
}

/// What was played.
#[derive(Clone, Copy)]
pub struct Played {
    /// The steps of the script.
    pub commands: u64,
    /// The steps that the gateway refused.
    pub refused: u64,
}

impl From<OutOfMemory> for PlayFault {
    ghost use Rattle.rgw_scripts.specs.declared.played.PlayFault.TheVariants as play_faults;

    ghost from_gives = { λ _ fault. fault ≡ play_faults.OutOfMemory };

    fn from(_e: OutOfMemory) -> PlayFault {
        PlayFault::OutOfMemory
    }
}

const CONFIG_FAULTS: [ConfigFault; 5] = [
    ConfigFault::BadDomain,
    ConfigFault::BadLines,
    ConfigFault::BadAgent,
    ConfigFault::BadWait,
    ConfigFault::BadMedia,
];

/// The name of a configuration's fault, which the gateway gives, or `BadToml`.
pub fn name_of_config_fault(number: u8) -> &'static str
    ensures { result.now ≡ name_of_config_fault number }
{
    for fault in CONFIG_FAULTS {
        if fault.number() == number {
            return fault.name();
        }
    }
    "BadToml"
}
