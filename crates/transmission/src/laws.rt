//! Laws of the definitions. Each function has an empty body: its clause is the theorem.
ghost use Rattle.std.specs.Prelude.{◌≤◌, ℕ, List, length};
ghost use Rattle.transmission.specs.Texts.{most_texts, texts_of};

/// A datagram has at most so many texts (RFC 3435, 3.5.4 and 3.5.5).
pub fn a_datagram_has_at_most_so_many_texts()
    ensures { (datagram : List ℕ) → length (texts_of datagram) ≤ most_texts }
{}
