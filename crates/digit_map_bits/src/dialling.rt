//! A matcher of bits with the letters that it was fed with.
ghost use Rattle.std.specs.Prelude.{◌≡◌, ◌≤◌, length};

use crate::compiled::Compiled;
use digit_map::{MOST_LETTERS, MapText, Matcher, Verdict};
use mg_bytes::{Letter, OutOfMemory};
use std::alloc::Global;
use std::marker::Model;

/// A `Compiled` that keeps the letters too, at most `MOST_LETTERS`, for those who are told what was dialled (RFC 3435, 2.1.5). A
/// contract sees the map's text and the letters, as of a `SlowMap`.
#[derive(Drop)]
pub struct Dialling {
    matcher: Compiled,
    // The letters, and behind them what nobody reads.
    letters: [Letter; MOST_LETTERS],
    // How many letters there are.
    count: usize,
}

impl Model for Dialling {
    ghost use Rattle.std.specs.Prelude.{◌≡◌, ◌≤◌, take};
    ghost use Rattle.digit_map.specs.Verdict.{Matching, most_letters};
    ghost use Rattle.digit_map_bits.specs.Blocks.{words_after};

    ghost Value = { Matching };

    ghost view = { λ d. record { map = d.matcher.map; letters = take d.count d.letters } };

    ghost invariant = { λ d. (d.matcher.words ≡ words_after d.matcher.map (take d.count d.letters)) × (d.count ≤ most_letters) };
}

impl Dialling {
    ghost use Rattle.std.specs.Prelude.{◌≡◌, IfOk};

    /// An equal matcher: of the same map and after the same letters. An error is for want of memory only.
    pub fn try_copy(&self) -> Result<Dialling, OutOfMemory>
        ensures { IfOk result (λ copy. copy ≡ self.now) }
    {
        Ok(Dialling {
            matcher: self.matcher.try_copy()?,
            letters: self.letters,
            count: self.count,
        })
    }

    /// Its map.
    pub fn map(&self) -> &MapText
        ensures { result.now ≡ self.now.map }
    {
        self.matcher.map()
    }
}

impl Matcher for Dialling {
    ghost use Rattle.std.specs.Prelude.{◌≡◌};

    ghost is_after = { λ d map letters. (d.map ≡ map) × (d.letters ≡ letters) };

    fn start(alloc: Global, map: &MapText) -> Result<Dialling, OutOfMemory> {
        Ok(Dialling {
            matcher: Compiled::start(alloc, map)?,
            letters: [Letter::Zero; MOST_LETTERS],
            count: 0,
        })
    }

    fn clear(&mut self) {
        self.matcher.clear();
        self.count = 0;
    }

    fn feed(&mut self, letter: Letter) -> Verdict {
        let verdict = self.matcher.feed(letter);
        self.letters[self.count] = letter;
        self.count += 1;
        verdict
    }

    fn critical(&self) -> bool {
        self.matcher.critical()
    }
}
