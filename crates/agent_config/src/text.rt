//! Texts that are copied.
ghost use Rattle.std.specs.Prelude.{◌≡◌, IfOk};

use mg_bytes::{OutOfMemory, Text};
use std::alloc::Global;

/// A text of these bytes. An error is for want of memory only.
pub fn copied(alloc: Global, bytes: &[u8]) -> Result<Text, OutOfMemory>
    ensures { IfOk result (λ text. text ≡ bytes.now) }
{
    Ok(Text::of(Vec::from_slice(alloc, bytes)?))
}
