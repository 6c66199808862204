//! Laws of parts and datagrams, for every datagram and every list of texts (RFC 3435, 3.5.5).
ghost use Rattle.std.specs.Prelude.{◌≡◌, ◌≤◌, ◌++◌, ◌∷◌, [], ℕ, List, length, All, IsTrue};
ghost use Rattle.std.specs.List.{list_all, flat_map};
ghost use Rattle.mgcp_text.specs.Parts.{parts_of, IsPartedInto};
ghost use Rattle.mgcp_text.specs.Packing.{packed, is_joinable, with_next, joined, IsPackedInto};

/// A datagram is parted in one way: into the texts that are computed.
pub fn a_datagram_is_parted_in_one_way()
    ensures some { (datagram : List ℕ) → IsPartedInto datagram (parts_of datagram) }
    ensures only { (datagram : List ℕ) (texts : List (List ℕ)) →
        IsPartedInto datagram texts → texts ≡ parts_of datagram }
{}

/// A part is whole: it has no further parts, and it is no longer than its datagram.
pub fn a_part_is_whole()
    ensures itself { (datagram : List ℕ) → All (λ part. parts_of part ≡ part ∷ []) (parts_of datagram) }
    ensures short { (datagram : List ℕ) → All (λ part. length part ≤ length datagram) (parts_of datagram) }
{}

/// Texts are packed in one way: into the datagrams that are computed.
pub fn texts_are_packed_in_one_way()
    ensures some { (max : ℕ) (texts : List (List ℕ)) → All (λ text. length text ≤ max) texts →
        IsPackedInto max texts (packed max texts) }
    ensures only { (max : ℕ) (texts datagrams : List (List ℕ)) →
        IsPackedInto max texts datagrams → datagrams ≡ packed max texts }
{}

/// What was joined is taken apart again into the same texts: the parts of the datagrams, one after another, are they.
pub fn what_was_joined_is_taken_apart_again()
    ensures { (max : ℕ) (texts : List (List ℕ)) → IsTrue (list_all (is_joinable max) texts) →
        flat_map parts_of (packed max texts) ≡ texts }
{}

/// Nothing is lost or added: the datagrams joined by dot lines are the texts joined by dot lines.
pub fn nothing_is_lost_or_added()
    ensures { (max : ℕ) (texts : List (List ℕ)) → joined (packed max texts) ≡ joined texts }
{}

/// Each datagram is within the limit, if each text is.
pub fn each_datagram_is_within_the_limit()
    ensures { (max : ℕ) (texts : List (List ℕ)) → All (λ text. length text ≤ max) texts →
        All (λ datagram. length datagram ≤ max) (packed max texts) }
{}

/// A datagram ends only where the next text had no room: one text more goes into the last datagram if that has room,
/// and changes no other.
pub fn a_datagram_ends_only_where_the_next_text_had_no_room()
    ensures { (max : ℕ) (texts : List (List ℕ)) (text : List ℕ) →
        packed max (texts ++ text ∷ []) ≡ with_next max (packed max texts) text }
{}

/// Texts that have room together share one datagram.
pub fn texts_that_have_room_together_share_a_datagram()
    ensures { (max : ℕ) (text : List ℕ) (texts : List (List ℕ)) → length (joined (text ∷ texts)) ≤ max →
        packed max (text ∷ texts) ≡ joined (text ∷ texts) ∷ [] }
{}
