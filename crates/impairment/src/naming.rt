//! A seed that is mixed with a name.
ghost use Rattle.std.specs.Prelude.{◌≡◌};
ghost use Rattle.impairment.specs.Naming.{mixed_with, mixed, named_way, named};

use crate::spoiling::{Impairment, Spoiling};

// The prime of FNV-1a in 64 bits.
const FNV_PRIME: u64 = 1_099_511_628_211;

/// A seed, mixed with one byte: what goes beyond 64 bits is dropped.
pub(crate) fn mixed_with(seed: u64, byte: u8) -> u64
    ensures { result ≡ mixed_with seed byte }
{
    (seed ^ u64::from(byte)).wrapping_mul(FNV_PRIME)
}

/// A seed, mixed with all bytes of a name by FNV-1a.
pub fn mixed(seed: u64, name: &[u8]) -> u64
    ensures { result ≡ mixed seed name.now }
{
    name.iter()
        .fold(seed, |mixed, byte| mixed_with(mixed, *byte))
}

impl Impairment {
    fn with_name(self, name: &[u8]) -> Impairment
        ensures { result ≡ named_way self name.now }
    {
        Impairment {
            seed: mixed(self.seed, name),
            ..self
        }
    }
}

impl Spoiling {
    /// The same, with seeds that are mixed with a name by FNV-1a: two that have one seed draw otherwise where their names differ,
    /// and each draws the same every time.
    pub fn with_name(self, name: &[u8]) -> Spoiling
        ensures { result ≡ named self name.now }
    {
        Spoiling {
            incoming: self.incoming.with_name(name),
            outgoing: self.outgoing.with_name(name),
        }
    }
}
