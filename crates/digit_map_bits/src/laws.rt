//! What the live places of a map say of its words. The function has an empty body: its clause is the theorem.
ghost use Rattle.std.specs.Prelude.{◌≡◌, ◌++◌, ℕ, List, false};
ghost use Rattle.mg_bytes.specs.declared.letter.Letter.{Letter};
ghost use Rattle.digit_map.specs.Words.{is_word};
ghost use Rattle.digit_map_bits.specs.Places.{places_after, spelled_by};

/// Letters and more behind them are a word where from some place that the letters lead to the rest of its string spells
/// what is behind.
pub fn places_say_which_words_go_on()
    ensures { (map : List ℕ) (letters more : List Letter) → is_word map (letters ++ more)
        ≡ spelled_by false (places_after map letters) more }
{}
