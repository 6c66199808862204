//! Laws of digit maps. Each function has an empty body: its clauses are the theorems.
ghost use Rattle.std.specs.Prelude.{◌≡◌, ◌↔◌, ℕ, List, true, Ok};
ghost use Rattle.mg_bytes.specs.declared.letter.Letter.{Letter};
ghost use Rattle.digit_map.specs.declared.verdict.Verdict.{Verdict};
ghost use Rattle.digit_map.specs.Spelling.{is_map};
ghost use Rattle.digit_map.specs.Reading.{without_blanks, map_of};
ghost use Rattle.digit_map.specs.Words.{IsWord, is_word};
ghost use Rattle.digit_map.specs.Verdict.{VerdictIs, IsCritical, verdict_of, is_critical};

/// The words that are computed are the words.
pub fn words_are_computed()
    ensures { (map : List ℕ) (word : List Letter) → IsWord map word ↔ (is_word map word ≡ true) }
{}

/// Letters have one verdict by the words of a map: the one that is computed.
pub fn letters_have_one_verdict()
    ensures some { (map : List ℕ) (letters : List Letter) → is_map map ≡ true
        → VerdictIs (IsWord map) letters (verdict_of map letters) }
    ensures only { (map : List ℕ) (letters : List Letter) (verdict : Verdict) → is_map map ≡ true
        → VerdictIs (IsWord map) letters verdict → verdict ≡ verdict_of map letters }
{}

/// Letters are critical where a T behind them makes a word.
pub fn a_timer_completes_critical_letters()
    ensures { (map : List ℕ) (letters : List Letter) → IsCritical (IsWord map) letters
        ↔ (is_critical map letters ≡ true) }
{}

/// Maps with the same words give the same verdicts and are critical after the same letters, however they are spelled.
pub fn the_words_alone_matter()
    ensures verdict { (map other : List ℕ) → is_map map ≡ true → is_map other ≡ true
        → ((word : List Letter) → IsWord map word ↔ IsWord other word)
        → (letters : List Letter) → verdict_of map letters ≡ verdict_of other letters }
    ensures critical { (map other : List ℕ) → ((word : List Letter) → IsWord map word ↔ IsWord other word)
        → (letters : List Letter) → is_critical map letters ≡ is_critical other letters }
{}

/// A text and the same without blanks are read as the same map, and so have the same words. What is read has no blanks
/// left: it is read as itself.
pub fn blanks_mean_nothing()
    ensures same { (text : List ℕ) → map_of (without_blanks text) ≡ map_of text }
    ensures again { (text map : List ℕ) → map_of text ≡ Ok map → map_of map ≡ Ok map }
    ensures spelled { (text map : List ℕ) → map_of text ≡ Ok map → is_map map ≡ true }
{}
