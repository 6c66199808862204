//! Why there is no session.
ghost use Rattle.std.specs.Prelude.{◌≡◌};

use mg_bytes::OutOfMemory;

/// Why there is no session.
#[derive(Clone, Copy)]
pub enum SdpFault {
    /// Memory was refused.
    OutOfMemory = 1,
    /// The text is no description of the kind that is understood (RFC 3435, 3.4).
    NotInSubset = 2,
}

impl SdpFault {
    ghost use Rattle.sdp_subset.specs.Reading.{sdp_fault_number};

    /// Its number, from 1.
    pub fn number(self) -> u8
        ensures { result ≡ sdp_fault_number self }
    {
        self as u8
    }
}

impl From<OutOfMemory> for SdpFault {
    ghost use Rattle.sdp_subset.specs.declared.fault.SdpFault.TheVariants as faults;

    ghost from_gives = { λ _ fault. fault ≡ faults.OutOfMemory };

    fn from(_refused: OutOfMemory) -> SdpFault {
        SdpFault::OutOfMemory
    }
}
