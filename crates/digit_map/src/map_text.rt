//! A digit map, and how it is read.
ghost use Rattle.std.specs.Prelude.{◌≡◌, IfOk};
ghost use Rattle.mg_bytes.specs.Blanks.{is_blank};
ghost use Rattle.digit_map.specs.Reading.{without_blanks, map_of, ReadsAs};

use crate::fault::MapFault;
use crate::spelling::is_map;
use mg_bytes::OutOfMemory;
use std::alloc::Global;
use std::marker::Model;

/// The most bytes of a map without its blanks (this gateway's profile).
const MOST_BYTES: usize = 2048;

/// A digit map, as its text without blanks. A contract sees that text.
pub struct MapText {
    alloc: Global,
    bytes: Vec<u8>,
}

// Written out: a derived drop, and those of all its parts, are proved anew by each crate that lets one go.
impl Drop for MapText {
    fn drop(self) {
        let MapText { alloc: _, bytes } = self;
        drop(bytes);
    }
}

impl Model for MapText {
    ghost use Rattle.std.specs.Prelude.{◌≡◌, ◌≤◌, List, ℕ, length, true};
    ghost use Rattle.digit_map.specs.Spelling.{is_map};

    ghost Value = { List ℕ };

    ghost view = { λ m. m.bytes.items };

    ghost invariant = { λ m. (is_map m.bytes.items ≡ true) × (length m.bytes.items ≤ 2048) };
}

impl MapText {
    ghost use Rattle.std.specs.Prelude.{◌≡◌, ◌≤◌, length, true, IfOk};
    ghost use Rattle.digit_map.specs.Spelling.{is_map};

    /// Its text, without blanks and with the case of its letters as given.
    pub fn as_bytes(&self) -> &[u8]
        ensures value { result.now ≡ self.now }
        ensures spelled { is_map result.now ≡ true }
        ensures short { length result.now ≤ 2048 }
    {
        &self.bytes
    }

    /// An equal map. An error is for want of memory only.
    pub fn try_copy(&self) -> Result<MapText, OutOfMemory>
        ensures { IfOk result (λ copy. copy ≡ self.now) }
    {
        self.copy_in(self.alloc)
    }

    /// An equal map, in memory of this allocator. An error is for want of memory only.
    pub fn copy_in(&self, alloc: Global) -> Result<MapText, OutOfMemory>
        ensures { IfOk result (λ copy. copy ≡ self.now) }
    {
        Ok(MapText {
            alloc,
            bytes: Vec::from_slice(alloc, &self.bytes)?,
        })
    }
}

fn is_blank(byte: u8) -> bool
    ensures { result ≡ is_blank byte }
{
    byte == b' ' || byte == b'\t'
}

fn without_blanks(alloc: Global, text: &[u8]) -> Result<Vec<u8>, OutOfMemory>
    ensures { IfOk result (λ bare. bare.items ≡ without_blanks text.now) }
{
    let mut bare = Vec::with_capacity(alloc, text.len())?;
    for byte in text {
        if !is_blank(*byte) {
            bare.push(*byte)?;
        }
    }
    Ok(bare)
}

/// The digit map that a text spells (RFC 3435, 2.1.5): a string, or in parentheses strings with bars between them.
///
/// A string has one or more positions, each a letter in any case (`0` to `9`, `*`, `#`, `A` to `D`, `T`, or `X` for any
/// digit) or in brackets one or more letters and spans of digits, as `[1-7*]`; a dot behind a position is that its
/// letters may come zero or more times. Blanks mean nothing wherever they stand, and are not kept.
/// Another text, an empty one too, is `Syntax`; a map of more than 2,048 bytes without its blanks is `TooLarge`.
#[tactic(auto, unfolding(crate::specs::Reading::map_of))]
pub fn read_map(alloc: Global, text: &[u8]) -> Result<MapText, MapFault>
    ensures { ReadsAs (map_of text.now) result }
{
    let bytes = without_blanks(alloc, text)?;
    if !is_map(&bytes) {
        return Err(MapFault::Syntax);
    }
    if bytes.len() > MOST_BYTES {
        return Err(MapFault::TooLarge);
    }
    Ok(MapText { alloc, bytes })
}
