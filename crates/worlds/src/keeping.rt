//! Keeps copies of what is handed over.
ghost use Rattle.std.specs.Prelude.{◌≡◌, ◌++◌, ◌∷◌, [], OnOk, OnErr};
ghost use Rattle.worlds.specs.Log.{kept_in};

use mg_bytes::{OutOfMemory, Text};
use std::alloc::Global;
use std::net::SocketAddrV4;

/// A copy of a datagram that was handed over.
#[derive(Drop)]
pub struct Kept {
    pub to: SocketAddrV4,
    pub bytes: Text,
}

/// Keeps a copy of a datagram; after an error all is as it was.
pub fn keep(
    alloc: Global,
    kept: &mut Vec<Kept>,
    to: SocketAddrV4,
    bytes: &[u8],
) -> Result<(), OutOfMemory>
    ensures ok { OnOk result (kept_in kept.new.items ≡ kept_in kept.old.items ++ record { to = to; bytes = bytes.now } ∷ []) }
    ensures err { OnErr result (kept.new.items ≡ kept.old.items) }
{
    let bytes = Text::of(bytes.to_vec(alloc)?);
    kept.push(Kept { to, bytes })?;
    Ok(())
}
