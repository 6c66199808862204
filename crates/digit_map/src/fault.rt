//! Why a text gives no digit map.
ghost use Rattle.std.specs.Prelude.{◌≡◌};

use mg_bytes::{CodeFault, OutOfMemory, ReturnCode};

/// Why a text gives no digit map.
#[derive(Clone, Copy)]
pub enum MapFault {
    /// Memory was refused.
    OutOfMemory = 1,
    /// The text isn't spelled as a map (RFC 3435, 2.1.5).
    Syntax = 2,
    /// The map has more than 2,048 bytes without its blanks.
    TooLarge = 3,
}

impl MapFault {
    ghost use Rattle.digit_map.specs.Reading.{map_fault_number};

    /// Its number, from 1.
    pub fn number(self) -> u8
        ensures { result ≡ map_fault_number self }
    {
        self as u8
    }
}

impl From<OutOfMemory> for MapFault {
    ghost use Rattle.digit_map.specs.declared.fault.MapFault.TheVariants as faults;

    ghost from_gives = { λ _ fault. fault ≡ faults.OutOfMemory };

    fn from(_refused: OutOfMemory) -> MapFault {
        MapFault::OutOfMemory
    }
}

impl From<MapFault> for CodeFault {
    ghost use Rattle.digit_map.specs.Reading.{code_fault_of};

    ghost from_gives = { λ fault answered. answered ≡ code_fault_of fault };

    fn from(fault: MapFault) -> CodeFault {
        match fault {
            MapFault::OutOfMemory => CodeFault::OutOfMemory,
            MapFault::Syntax => CodeFault::of(ReturnCode::ProtocolError),
            MapFault::TooLarge => CodeFault::of(ReturnCode::InsufficientResources),
        }
    }
}
