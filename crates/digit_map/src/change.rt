//! What a request does with the digit map of a line.
ghost use Rattle.std.specs.Prelude.{◌≡◌, option_map};
ghost use Rattle.digit_map.specs.Reading.{ReadsAs};
ghost use Rattle.digit_map.specs.Change.{change_of, takes_memory, GivesUpForMemory};

use crate::fault::MapFault;
use crate::map_text::{MapText, read_map};
use mg_bytes::all_blank;
use std::alloc::Global;

/// What a request does with the digit map of a line (RFC 3435, 2.3.3).
#[derive(Drop)]
pub enum MapChange {
    /// It has no D: the map stays.
    Keep,
    /// Its D is empty: there is no map any more.
    Remove,
    /// This map replaces the one before.
    Replace(MapText),
}

/// What a request with this value of D, if it has one, does with the digit map of a line (RFC 3435, 2.3.3): without D
/// the map stays, a D of blanks alone removes it, and another replaces it.
///
/// A text that `read_map` doesn't read has that fault: `Syntax`, or `TooLarge` for more than 2,048 bytes without blanks.
/// Want of memory is `OutOfMemory`: of a map alone, as without one no memory is taken.
#[tactic(auto, unfolding(crate::specs::Change::change_of))]
pub fn read_change(alloc: Global, value: Option<&[u8]>) -> Result<MapChange, MapFault>
    ensures reads { ReadsAs (change_of (option_map (λ text. text.now) value.entry)) result }
    // Memory is wanted only for a map.
    ensures memory { GivesUpForMemory (takes_memory (option_map (λ text. text.now) value.entry)) result }
{
    let Some(text) = value else {
        return Ok(MapChange::Keep);
    };
    if all_blank(text) {
        return Ok(MapChange::Remove);
    }
    Ok(MapChange::Replace(read_map(alloc, text)?))
}
