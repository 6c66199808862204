//! Laws of session descriptions (RFC 3435, 3.4; RFC 2327, 6).
ghost use Rattle.std.specs.Prelude.{◌≡◌, ◌≤◌, ◌∷◌, ◌++◌, ℕ, codes, List, Option, Some, false, length, slice_get};
ghost use Rattle.std.specs.List.{AllByRecursion, flat_map, list_any};
ghost use Rattle.mg_bytes.specs.Lines.{cut, lines_of, is_dot_line};
ghost use Rattle.sdp_subset.specs.declared.session.Session.{Session};
ghost use Rattle.sdp_subset.specs.Reading.{session_of};
ghost use Rattle.sdp_subset.specs.Spelling.{IsField, IsAside, Reads};
ghost use Rattle.sdp_subset.specs.Writing.{session_text, as_read, IsSession};

/// Each text is read as one outcome, and as no other.
pub fn one_reading()
    ensures some { (text : List ℕ) → Reads text (session_of text) }
    ensures only { (text : List ℕ) (outcome : Option Session) → Reads text outcome → outcome ≡ session_of text }
{}

/// A further line that begins neither `m=` nor `c=` says nothing, wherever it stands before the empty ones at the end.
pub fn other_lines_are_ignored()
    ensures { (text other : List ℕ) (front back : List (List ℕ)) (line : List ℕ) →
        lines_of text ≡ codes "v=0" ∷ (front ++ (line ∷ back)) → lines_of other ≡ codes "v=0" ∷ (front ++ back) →
        AllByRecursion IsField front → IsField line → IsAside line → session_of text ≡ session_of other }
{}

/// What is written of a session is read with the same address, port and payload types, and without its origin and its
/// packet time.
pub fn what_is_written_is_read_again()
    ensures { (session : Session) → IsSession session → session_of (session_text session) ≡ Some (as_read session) }
{}

/// The lines of what is written each have CRLF and no blanks round them; the first is `v=0`, and none is a single dot. So
/// it can stand in a message, and a message in a datagram with others (RFC 3435, 3.4 and 3.5.5).
pub fn what_is_written_is_whole_lines()
    ensures whole { (session : Session) → IsSession session →
        flat_map (λ line. line ++ codes "\r\n") (lines_of (session_text session)) ≡ session_text session }
    ensures first { (session : Session) → IsSession session →
        slice_get (lines_of (session_text session)) 0 ≡ Some (codes "v=0") }
    ensures no_dots { (session : Session) → IsSession session →
        list_any is_dot_line (cut (session_text session)) ≡ false }
{}

/// What is written of a session has at most 500 bytes, and with two payload types at most 400, whatever the numbers of
/// its origin and its packet time are.
pub fn what_is_written_is_short()
    ensures two { (session : Session) → IsSession session → length session.payloads ≤ 2 →
        length (session_text session) ≤ 400 }
    ensures any { (session : Session) → IsSession session → length (session_text session) ≤ 500 }
{}
