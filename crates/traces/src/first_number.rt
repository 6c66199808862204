//! With which number ids begin.
ghost use Rattle.std.specs.Prelude.{◌≡◌, ◌<◌};
ghost use Rattle.small_rules.specs.Numbering.{first_at, firsts};
ghost use Rattle.traces.specs.Words.{first_from, first_in};

use mg_bytes::decimal;
use plain_machine::FIRSTS;
use std::marker::Model;

// So long, in ms of the time of day, starts have one number.
const NUMBER_TIME: u64 = 50;

/// The number with which the ids of each line begin; the gateway's own begin one higher (RFC 3435, 3.2.1.2). A contract sees the
/// number, which is below `FIRSTS`.
#[derive(Clone, Copy)]
pub struct FirstNumber {
    number: u32,
}

impl Model for FirstNumber {
    ghost use Rattle.std.specs.Prelude.{ℕ, ◌<◌};
    ghost use Rattle.small_rules.specs.Numbering.{firsts};

    ghost Value = { ℕ };

    ghost view = { λ n. n.number };

    ghost invariant = { λ n. n.number < firsts };

    ghost inverse = { λ n. record { number = n } };
}

impl FirstNumber {
    /// The one with which they begin if nothing else is said.
    pub fn zero() -> Self
        ensures { result ≡ 0 }
    {
        FirstNumber { number: 0 }
    }

    /// That of a start at this time of day, in ms: one more for each 50 ms, going round. So starts that are a second apart have
    /// numbers that lie apart, for nearly six days.
    pub fn at(time: u64) -> Self
        ensures { result ≡ first_at time }
    {
        FirstNumber {
            number: (time / NUMBER_TIME % u64::from(FIRSTS)) as u32,
        }
    }

    // The number itself, where ids may begin with it.
    fn of(number: u64) -> Option<Self>
        ensures { result ≡ first_from number }
    {
        if number >= u64::from(FIRSTS) {
            return None;
        }
        Some(FirstNumber {
            number: number as u32,
        })
    }

    /// The one that a word spells in digits.
    #[tactic(auto, unfolding(crate::specs::Words::first_in))]
    pub fn read(word: &[u8]) -> Option<Self>
        ensures { result ≡ first_in word.now }
    {
        FirstNumber::of(decimal(word)?)
    }

    /// The number itself.
    pub fn number(self) -> u32
        ensures value { result ≡ self }
        ensures within { result < firsts }
    {
        self.number
    }
}
