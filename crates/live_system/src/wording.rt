//! Texts of pieces.
ghost use Rattle.std.specs.Prelude.{◌≡◌, ◌++◌, decimal, OnOk};
ghost use Rattle.std.specs.List.{flat_map};
ghost use Rattle.live_system.specs.Wording.{piece_text};

use mg_bytes::{Draft, OutOfMemory};
use std::alloc::Global;

/// Puts texts, one behind another. Its only error is want of memory.
pub fn put_pieces(out: &mut Vec<u8>, pieces: &[&str]) -> Result<(), OutOfMemory>
    ensures { OnOk result (out.new.items ≡ out.old.items ++ flat_map piece_text pieces.now) }
{
    for piece in pieces {
        out.extend_from_slice(piece.as_bytes())?;
    }
    Ok(())
}

/// Puts texts around a number. Its only error is want of memory.
pub fn put_around(
    alloc: Global,
    out: &mut Vec<u8>,
    before: &str,
    number: u64,
    after: &str,
) -> Result<(), OutOfMemory>
    ensures { OnOk result (out.new.items ≡ out.old.items ++ (before.now ++ decimal number ++ after.now)) }
{
    let mut text = Draft::new(alloc);
    text.put(before.as_bytes());
    text.put_decimal(number);
    text.put(after.as_bytes());
    text.append_to(out)
}
