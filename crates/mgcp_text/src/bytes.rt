//! The bytes of a part of a message, borrowed from a text or owned.
ghost use Rattle.std.specs.Prelude.{◌≡◌};

use mg_bytes::Text;
use std::marker::Model;

enum Held<'a> {
    Borrowed(&'a [u8]),
    Owned(Text),
}

/// A part of a text, borrowed or owned. A contract sees the list of its bytes.
pub struct Bytes<'a> {
    held: Held<'a>,
}

// Written out: a derived drop, and those of all its parts, are proved anew by each crate that lets one go.
impl Drop for Bytes<'_> {
    fn drop(self) {
        let Bytes { held } = self;
        match held {
            Held::Borrowed(_) => {}
            Held::Owned(text) => drop(text),
        }
    }
}

impl<'a> Model for Bytes<'a> {
    ghost use Rattle.std.specs.Prelude.{List, ℕ};

    ghost Value = { List ℕ };

    ghost use Rattle.mgcp_text.specs.Held.{bytes_in};

    ghost view = { λ b. bytes_in b.held };
}

impl<'a> Bytes<'a> {
    /// These bytes, borrowed.
    pub fn of(slice: &'a [u8]) -> Self
        ensures { result ≡ slice.now }
    {
        Bytes {
            held: Held::Borrowed(slice),
        }
    }

    /// These bytes, owned.
    pub fn owned(text: Text) -> Self
        ensures { result ≡ text }
    {
        Bytes {
            held: Held::Owned(text),
        }
    }

    /// The bytes.
    pub fn as_slice(&self) -> &[u8]
        ensures { result.now ≡ self.now }
    {
        match &self.held {
            Held::Borrowed(slice) => slice,
            Held::Owned(text) => text.as_bytes(),
        }
    }
}
