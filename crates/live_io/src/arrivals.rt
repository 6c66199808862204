//! Copies of what comes.
ghost use Rattle.std.specs.Prelude.{◌≡◌, ◌++◌, ◌∷◌, [], Some, OnOk, OnErr};
ghost use Rattle.live_io.specs.Sending.{Grows};
ghost use Rattle.live_io.specs.Keeping.{received_in, arrivals_of, KeepsArrival};

use std::alloc::{AllocError, Global};
use std::net::SocketAddrV4;

/// A copy of a datagram, and where it came from.
#[derive(Drop)]
pub struct ReceivedDatagram {
    pub source: SocketAddrV4,
    pub bytes: Vec<u8>,
}

// Keeps a copy of a datagram; after an error all is as it was.
fn keep_copy(
    alloc: Global,
    kept: &mut Vec<ReceivedDatagram>,
    source: SocketAddrV4,
    bytes: &[u8],
) -> Result<(), AllocError>
    ensures ok { OnOk result (received_in kept.new.items
        ≡ received_in kept.old.items ++ record { source = source; bytes = bytes.now } ∷ []) }
    ensures err { OnErr result (kept.new.items ≡ kept.old.items) }
{
    let bytes = Vec::from_slice(alloc, bytes)?;
    kept.push(ReceivedDatagram { source, bytes })?;
    Ok(())
}

/// What came, in its order, until memory is refused for a copy.
#[derive(Drop)]
pub struct Arrivals {
    alloc: Global,
    pub(crate) kept: Vec<ReceivedDatagram>,
    // No copy is missing.
    pub(crate) is_whole: bool,
}

impl Arrivals {
    /// Nothing came so far.
    pub fn none(alloc: Global) -> Arrivals
        ensures { arrivals_of result ≡ Some [] }
    {
        Arrivals {
            alloc,
            kept: Vec::new(alloc),
            is_whole: true,
        }
    }

    /// A datagram came.
    #[tactic(auto, using(crate::proofs::TrafficLemmas::kept_grows))]
    pub fn add(&mut self, source: SocketAddrV4, bytes: &[u8])
        ensures kept { KeepsArrival self.old (record { source = source; bytes = bytes.now }) self.new }
        ensures told { Grows (arrivals_of self.old) (record { source = source; bytes = bytes.now } ∷ []) (arrivals_of self.new) }
    {
        if keep_copy(self.alloc, &mut self.kept, source, bytes).is_err() {
            self.is_whole = false;
        }
    }
}
