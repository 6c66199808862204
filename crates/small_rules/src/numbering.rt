//! The numbers that commands of one's own get in turn (RFC 3435, 3.2.1.2).
ghost use Rattle.std.specs.Prelude.{◌≡◌, ◌+◌, ◌%◌, ◌<◌, ◌≤◌};
ghost use Rattle.small_rules.specs.Numbering.{numbers, firsts, next_number};

/// How many numbers there are for the commands of a line, or of the gateway itself (this gateway's profile).
pub const NUMBERS: u32 = 10_000_000;

/// How many numbers there are with which ids may begin, from 0 on (this gateway's profile).
pub const FIRSTS: u32 = 9_999_999;

/// Which numbers the commands of a line get, or those of the gateway itself.
#[derive(Clone, Copy)]
pub struct Numbering {
    /// The least of them: 0, or 1 where 0 is none.
    pub least: u32,
    /// With which number ids begin, counted from the least.
    pub first: u32,
}

impl Numbering {
    /// The number of the first command; past the last with which ids may begin it goes round.
    pub fn opening(self) -> u32
        requires { self.least ≤ 1 }
        ensures value { result ≡ self.least + self.first % firsts }
        ensures few { result < numbers }
    {
        self.least + self.first % FIRSTS
    }

    /// The number of the command behind the one with this number; after the greatest comes the least.
    pub fn after(self, number: u32) -> u32
        requires small { self.least ≤ 1 }
        requires few { number < numbers }
        ensures value { result ≡ next_number self.least number }
        ensures few { result < numbers }
    {
        let next = number + 1;
        if next < NUMBERS { next } else { self.least }
    }
}
