//! Copies of what is sent.
ghost use Rattle.std.specs.Prelude.{◌≡◌, ◌++◌, ◌∷◌, [], OnOk, OnErr};
ghost use Rattle.live_io.specs.Keeping.{copies_of, moments_of};

use std::alloc::{AllocError, Global};
use std::net::SocketAddrV4;

/// A copy of a datagram that was handed over, at this moment in ms.
#[derive(Drop)]
pub struct SentDatagram {
    pub moment: u64,
    pub to: SocketAddrV4,
    pub bytes: Vec<u8>,
}

/// Keeps a copy of a datagram; after an error all is as it was.
pub fn keep(
    alloc: Global,
    kept: &mut Vec<SentDatagram>,
    moment: u64,
    to: SocketAddrV4,
    bytes: &[u8],
) -> Result<(), AllocError>
    ensures ok { OnOk result (copies_of kept.new.items ≡ copies_of kept.old.items ++ record { to = to; bytes = bytes.now } ∷ []) }
    ensures moments { OnOk result (moments_of kept.new.items ≡ moments_of kept.old.items ++ moment ∷ []) }
    ensures err { OnErr result (kept.new.items ≡ kept.old.items) }
{
    let bytes = Vec::from_slice(alloc, bytes)?;
    kept.push(SentDatagram { moment, to, bytes })?;
    Ok(())
}
