//! What feeds on letters and says how far they have come.
ghost use Rattle.std.specs.Prelude.{◌≡◌, ◌<◌, ◌++◌, ◌∷◌, [], List, ℕ, length, true, ◌↔◌, IfOk};
ghost use Rattle.mg_bytes.specs.declared.letter.Letter.{Letter};
ghost use Rattle.digit_map.specs.Words.{IsWord};
ghost use Rattle.digit_map.specs.Verdict.{VerdictIs, IsCritical, verdict_of, is_critical, most_letters};

use crate::map_text::MapText;
use crate::verdict::Verdict;
use mg_bytes::{Letter, OutOfMemory};
use std::alloc::Global;

/// The most letters that a matcher is fed with (this gateway's profile).
pub const MOST_LETTERS: usize = 64;

/// A digit map at work: it is fed with letters, at most `MOST_LETTERS`, and says how far they have come (RFC 3435, 2.1.5).
pub trait Matcher: Drop {
    /// It works on this map, and these letters were fed since it was started or cleared.
    ghost is_after: { Self → List ℕ → List Letter → Type 0 };

    /// Starts to work on a map, of which it keeps its own copy. An error is for want of memory only.
    fn start(alloc: Global, map: &MapText) -> Result<Self, OutOfMemory>
        ensures { IfOk result (λ matcher. is_after matcher map.now []) };

    /// Forgets the letters. This takes no memory.
    fn clear(&mut self)
        ensures { (map : List ℕ) (letters : List Letter) → is_after self.old map letters → is_after self.new map [] };

    /// Takes one more letter and says how far all of them have come, by the words of the map. Fewer than `MOST_LETTERS` were fed
    /// before. This takes no memory.
    fn feed(&mut self, letter: Letter) -> Verdict
        requires { (map : List ℕ) × (letters : List Letter) × is_after self.old map letters × (length letters < most_letters) }
        ensures after { (map : List ℕ) (letters : List Letter) → is_after self.old map letters
            → is_after self.new map (letters ++ letter ∷ []) }
        ensures value { (map : List ℕ) (letters : List Letter) → is_after self.old map letters
            → result ≡ verdict_of map (letters ++ letter ∷ []) }
        ensures verdict { (map : List ℕ) (letters : List Letter) → is_after self.old map letters
            → VerdictIs (IsWord map) (letters ++ letter ∷ []) result };

    /// Whether the letters and a T behind them are a word of the map. This takes no memory.
    fn critical(&self) -> bool
        ensures value { (map : List ℕ) (letters : List Letter) → is_after self.now map letters
            → result ≡ is_critical map letters }
        ensures critical { (map : List ℕ) (letters : List Letter) → is_after self.now map letters
            → (result ≡ true) ↔ IsCritical (IsWord map) letters };
}
