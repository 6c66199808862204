//! What is asked of a line.
ghost use Rattle.std.specs.Prelude.{◌≡◌};
ghost use Rattle.call_processing.specs.Asking.{number_of, wanted_in_call, wanted_in, is_asked};

use crate::phase::{Part, Phase, Tone, rings};

/// What a NotificationRequest asks of a line (RFC 3435, 2.3.3): which events it is to tell, and what is to be heard at it.
#[derive(Clone, Copy)]
pub enum Asked {
    /// Off hook; nothing is heard.
    Rest,
    /// On hook, digits by the digit map, the end of the dial tone; dial tone.
    Digits,
    /// Off hook, the end of the ringing; ringing.
    Ring,
    /// On hook, the end of the ringback; ringback.
    Ringback,
    /// On hook; busy tone.
    BusyTone,
    /// On hook; reorder tone.
    ReorderTone,
    /// On hook; nothing but the other end is heard.
    Talk,
}

impl Asked {
    /// Its number, from 1, which is the request identifier too.
    pub fn number(self) -> u8
        ensures { result ≡ number_of self }
    {
        match self {
            Asked::Rest => 1,
            Asked::Digits => 2,
            Asked::Ring => 3,
            Asked::Ringback => 4,
            Asked::BusyTone => 5,
            Asked::ReorderTone => 6,
            Asked::Talk => 7,
        }
    }
}

fn wanted_in_call(part: Part) -> Asked
    ensures { result ≡ wanted_in_call part }
{
    if rings(part) {
        Asked::Ring
    } else if part.answered {
        Asked::Talk
    } else {
        Asked::Ringback
    }
}

// What is to be asked of a line in this phase.
pub(crate) fn wanted_in(phase: Phase) -> Asked
    ensures { result ≡ wanted_in phase }
{
    match phase {
        Phase::Resting => Asked::Rest,
        Phase::Dialling => Asked::Digits,
        Phase::Hearing(Tone::Busy) => Asked::BusyTone,
        Phase::Hearing(Tone::Reorder) => Asked::ReorderTone,
        Phase::InCall(part) => wanted_in_call(part),
    }
}

// Whether a line was asked for what is wanted.
pub(crate) fn is_asked(wanted: Asked, asked: Option<Asked>) -> bool
    ensures { result ≡ is_asked wanted asked }
{
    match asked {
        None => false,
        Some(asked) => asked.number() == wanted.number(),
    }
}
