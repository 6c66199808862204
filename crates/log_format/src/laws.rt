//! Laws of the definitions. Each function has an empty body: its clauses are the theorems.
ghost use Rattle.std.specs.Prelude.{◌≡◌, ◌≤◌, ℕ, List, Option, length, true};
ghost use Rattle.std.specs.List.{list_all};
ghost use Rattle.log_format.specs.declared.note.Note.{Note};
ghost use Rattle.log_format.specs.declared.note.Notice.{Notice};
ghost use Rattle.log_format.specs.declared.stamp.Stamp.{Stamp};
ghost use Rattle.log_format.specs.declared.stamp.Way.{Way};
ghost use Rattle.log_format.specs.Escaping.{is_plain, escaped, shown, is_text, IsLine};
ghost use Rattle.log_format.specs.Lines.{message_line, note_line, notice_line, given_up_line, refused_line};

/// Whatever bytes a datagram has, what is shown of them is printable ASCII; and what is that, without a backslash, and of at
/// most 64 bytes is shown as it is.
pub fn what_is_shown_is_printable()
    ensures value { (value : List ℕ) → is_text (shown value) ≡ true }
    ensures bytes { (bytes : List ℕ) → is_text (escaped bytes) ≡ true }
    ensures plain { (value : List ℕ) → length value ≤ 64 → list_all is_plain value ≡ true → shown value ≡ value }
{}

/// Whatever a datagram has, a line of the log is one line of printable ASCII: nothing forges a line or a terminal's sequence.
pub fn a_line_is_one_line()
    ensures message { (own : List ℕ) (stamp : Stamp) (way : Way) (text : List ℕ) (waited : Option ℕ)
        → IsLine (message_line own stamp way text waited) }
    ensures note { (stamp : Stamp) (note : Note) → IsLine (note_line stamp note) }
    ensures notice { (moment : ℕ) (notice : Notice) → IsLine (notice_line moment notice) }
    ensures given_up { (own : List ℕ) (stamp : Stamp) (text : List ℕ) → IsLine (given_up_line own stamp text) }
    ensures refused { (stamp : Stamp) (id : ℕ) (why : List ℕ) → IsLine (refused_line stamp id why) }
{}
