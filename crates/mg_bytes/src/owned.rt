//! Bytes that are owned.
ghost use Rattle.std.specs.Prelude.{◌≡◌};

use std::alloc::AllocError;
use std::marker::Model;

/// What a call answers where memory for it was refused.
pub type OutOfMemory = AllocError;

/// Bytes that are owned. A contract sees their list.
pub struct Text {
    bytes: Vec<u8>,
}

// Written out: a derived drop, and those of all its parts, are proved anew by each crate that lets one go.
impl Drop for Text {
    fn drop(self) {
        let Self { bytes } = self;
        drop(bytes);
    }
}

impl Model for Text {
    ghost use Rattle.std.specs.Prelude.{List, ℕ};

    ghost Value = { List ℕ };

    ghost view = { λ t. t.bytes.items };
}

impl Text {
    /// A text of these bytes.
    pub fn of(bytes: Vec<u8>) -> Self
        ensures { result ≡ bytes.items }
    {
        Text { bytes }
    }

    /// Its bytes.
    pub fn as_bytes(&self) -> &[u8]
        ensures { result.now ≡ self.now }
    {
        &self.bytes
    }

    /// Gives the bytes back.
    pub fn into_bytes(self) -> Vec<u8>
        ensures { result.items ≡ self }
    {
        let Text { bytes } = self;
        bytes
    }
}
