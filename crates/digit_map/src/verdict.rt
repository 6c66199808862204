//! How far dialled letters have come.

/// How far dialled letters have come by the words of a digit map (RFC 3435, 2.1.5).
#[derive(Clone, Copy, PartialEq, Eq)]
pub enum Verdict {
    /// They are a word, even if longer words begin with them.
    Perfect,
    /// They are no word, but some word begins with them.
    Partial,
    /// No word begins with them.
    Impossible,
}
