//! Identifiers of calls, connections and requests.
ghost use Rattle.std.specs.Prelude.{◌≡◌, ◌≤◌, codes, true, false, length};
ghost use Rattle.std.specs.List.{list_any};
ghost use Rattle.mg_bytes.specs.Blanks.{is_blank};
ghost use Rattle.mg_bytes.specs.Lines.{is_line_feed};
ghost use Rattle.mg_bytes.specs.Numbers.{is_hex_text, identifier_of};

use crate::number::hex_text;
use std::marker::Model;

/// The identifier of a call, a connection or a request, as it was spelled: 1 to 32 hexadecimal digits (RFC 3435,
/// appendix A). It takes no memory. A contract sees the digits.
#[derive(Drop)]
pub struct Identifier {
    // So many digits stand at the front.
    places: [u8; 32],
    count: usize,
}

impl Model for Identifier {
    ghost use Rattle.std.specs.Prelude.{◌≡◌, ◌≤◌, true, List, ℕ, take};
    ghost use Rattle.mg_bytes.specs.Numbers.{is_hex_text};

    ghost Value = { List ℕ };

    ghost view = { λ i. take i.count i.places };

    ghost invariant = { λ i. (i.count ≤ 32) × (is_hex_text (take i.count i.places) ≡ true) };
}

// These bytes as digits.
fn identifier_from(text: &[u8]) -> Identifier
    requires short { length text.now ≤ 32 }
    requires hex { is_hex_text text.now ≡ true }
    ensures { result ≡ text.now }
{
    let mut places = [0; 32];
    places[..text.len()].copy_from_slice(text);
    Identifier {
        places,
        count: text.len(),
    }
}

impl Identifier {
    /// The identifier of this spelling; `None` where it isn't 1 to 32 hexadecimal digits.
    pub fn of(text: &[u8]) -> Option<Identifier>
        ensures { result ≡ identifier_of text.now }
    {
        if !hex_text(text) {
            return None;
        }
        Some(identifier_from(text))
    }

    /// The identifier `0`.
    pub fn zero() -> Identifier
        ensures { result ≡ codes "0" }
    {
        identifier_from(b"0")
    }

    /// Its digits: one word.
    #[tactic(auto, using(crate::proofs::HexLemmas::hex_no_blanks, crate::proofs::HexLemmas::hex_one_line))]
    pub fn as_slice(&self) -> &[u8]
        ensures value { result.now ≡ self.now }
        ensures spelled { is_hex_text result.now ≡ true }
        ensures no_blanks { list_any is_blank result.now ≡ false }
        ensures one_line { list_any is_line_feed result.now ≡ false }
    {
        &self.places[..self.count]
    }

    /// An equal identifier.
    pub fn copy(&self) -> Identifier
        ensures { result ≡ self.now }
    {
        Identifier {
            places: self.places,
            count: self.count,
        }
    }
}
