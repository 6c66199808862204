//! A matcher that keeps its letters and walks the map anew for each.
ghost use Rattle.std.specs.Prelude.{◌≡◌, ◌≤◌, length};

use digit_map::{MOST_LETTERS, MapText, Matcher, Verdict, is_word, verdict_of};
use mg_bytes::{Few, Letter, OutOfMemory};
use std::alloc::Global;
use std::marker::Model;

/// A matcher that keeps the letters and walks through its map once for each new one: the time is linear in the map's
/// length, for each of the letters that it has. A contract sees the map's text and the letters.
#[derive(Drop)]
pub struct SlowMap {
    map: MapText,
    letters: Few<Letter, MOST_LETTERS>,
}

impl Model for SlowMap {
    ghost use Rattle.std.specs.Prelude.{◌≡◌, ◌≤◌, length, true};
    ghost use Rattle.digit_map.specs.Spelling.{is_map};
    ghost use Rattle.digit_map.specs.Verdict.{Matching, most_letters};

    ghost Value = { Matching };

    ghost view = { λ m. record { map = m.map; letters = m.letters } };

    ghost invariant = { λ m. (is_map m.map ≡ true) × (length m.letters ≤ most_letters) };
}

// The same letters in a list of this capacity.
fn copied<const N: usize>(letters: &[Letter]) -> Few<Letter, N>
    requires { length letters.now ≤ N }
    ensures { result ≡ letters.now }
{
    let mut copy = Few::new();
    for letter in letters {
        copy.push(*letter);
    }
    copy
}

impl SlowMap {
    ghost use Rattle.std.specs.Prelude.{◌≡◌, IfOk};
    ghost use Rattle.digit_map.specs.Verdict.{verdict_of, is_critical};

    /// An equal matcher: of the same map and after the same letters. An error is for want of memory only.
    pub fn try_copy(&self) -> Result<SlowMap, OutOfMemory>
        ensures { IfOk result (λ copy. copy ≡ self.now) }
    {
        Ok(SlowMap {
            map: self.map.try_copy()?,
            letters: copied(self.letters.as_slice()),
        })
    }

    /// Its map.
    pub fn map(&self) -> &MapText
        ensures { result.now ≡ self.now.map }
    {
        &self.map
    }

    // How far its letters have come.
    fn verdict(&self) -> Verdict
        ensures { result ≡ verdict_of self.now.map self.now.letters }
    {
        verdict_of(self.map.as_bytes(), self.letters.as_slice())
    }

    // Whether its letters and a T behind them are a word.
    #[tactic(auto, unfolding(digit_map::specs::Verdict::is_critical))]
    fn is_critical(&self) -> bool
        ensures { result ≡ is_critical self.now.map self.now.letters }
    {
        let mut word: Few<Letter, 65> = copied(self.letters.as_slice());
        word.push(Letter::Timer);
        is_word(self.map.as_bytes(), word.as_slice())
    }
}

impl Matcher for SlowMap {
    ghost use Rattle.std.specs.Prelude.{◌≡◌};

    ghost is_after = { λ m map letters. (m.map ≡ map) × (m.letters ≡ letters) };

    fn start(alloc: Global, map: &MapText) -> Result<SlowMap, OutOfMemory> {
        Ok(SlowMap {
            map: map.copy_in(alloc)?,
            letters: copied(&[]),
        })
    }

    fn clear(&mut self) {
        self.letters = Few::new();
    }

    fn feed(&mut self, letter: Letter) -> Verdict {
        self.letters.push(letter);
        self.verdict()
    }

    fn critical(&self) -> bool {
        self.is_critical()
    }
}
