//! A text that is put together of pieces.
ghost use Rattle.std.specs.Prelude.{◌≡◌, ◌++◌, ◌∷◌, [], decimal, IfOk, OnOk, OnErr};

use crate::owned::{OutOfMemory, Text};
use crate::told::Told;
use itoa::Buffer;
use std::alloc::{AllocError, Global};
use std::marker::Model;

/// A text that is put together of pieces. That memory was refused for one is kept, and told at the end, so that no piece is an
/// error. A contract sees all that was put.
pub struct Draft {
    bytes: Vec<u8>,
    is_refused: bool,
    told: Told,
}

// Written out: a derived drop, and those of all its parts, are proved anew by each crate that lets one go.
impl Drop for Draft {
    fn drop(self) {
        let Self {
            bytes,
            is_refused: _,
            told,
        } = self;
        drop(bytes);
        drop(told);
    }
}

impl Model for Draft {
    ghost use Rattle.std.specs.Prelude.{◌≡◌, List, ℕ, false};

    ghost Value = { List ℕ };

    ghost view = { λ d. d.told.items };

    // Where no memory was refused all that was put stands there.
    ghost invariant = { λ d. d.is_refused ≡ false → d.bytes.items ≡ d.told.items };
}

impl Draft {
    /// Nothing yet. This takes no memory.
    pub fn new(alloc: Global) -> Self
        ensures { result ≡ [] }
    {
        Draft {
            bytes: Vec::new(alloc),
            is_refused: false,
            told: Told::new(),
        }
    }

    /// Nothing yet, with room for so many bytes. That memory was refused for them is kept, too.
    pub fn with_room(alloc: Global, room: usize) -> Self
        ensures { result ≡ [] }
    {
        let (bytes, is_refused) = match Vec::with_capacity(alloc, room) {
            Ok(bytes) => (bytes, false),
            Err(_) => (Vec::new(alloc), true),
        };
        Draft {
            bytes,
            is_refused,
            told: Told::new(),
        }
    }

    /// Puts a piece behind what there is already.
    pub fn put(&mut self, piece: &[u8])
        ensures { self.new ≡ self.old ++ piece.now }
    {
        self.told.note(piece);
        if self.bytes.extend_from_slice(piece).is_err() {
            self.is_refused = true;
        }
    }

    /// Puts a byte.
    pub fn put_byte(&mut self, byte: u8)
        ensures { self.new ≡ self.old ++ byte ∷ [] }
    {
        self.put(&[byte]);
    }

    /// Puts a number in decimal digits, without leading zeros.
    pub fn put_decimal(&mut self, number: u64)
        ensures { self.new ≡ self.old ++ decimal number }
    {
        let mut buffer = Buffer::new();
        self.put(buffer.format(number).as_bytes());
    }

    /// All that was put. Its only error is want of memory, also for what was put.
    pub fn end(self) -> Result<Vec<u8>, OutOfMemory>
        ensures { IfOk result (λ bytes. bytes.items ≡ self) }
    {
        let Draft {
            bytes,
            is_refused,
            told: _,
        } = self;
        if is_refused {
            return Err(AllocError);
        }
        Ok(bytes)
    }

    /// All that was put, as a text. Its only error is want of memory, also for what was put.
    pub fn into_text(self) -> Result<Text, OutOfMemory>
        ensures { IfOk result (λ text. text ≡ self) }
    {
        let bytes = self.end()?;
        Ok(Text::of(bytes))
    }

    /// Appends all that was put to a text. After an error, which is for want of memory only, also for what was put, `out` is as
    /// it was.
    pub fn append_to(self, out: &mut Vec<u8>) -> Result<(), OutOfMemory>
        ensures ok { OnOk result (out.new.items ≡ out.old.items ++ self) }
        ensures err { OnErr result (out.new.items ≡ out.old.items) }
    {
        let bytes = self.end()?;
        out.extend_from_slice(&bytes)
    }
}
