//! The letters of digit maps: the keys of a telephone, and T for a timer.
ghost use Rattle.std.specs.Prelude.{◌≡◌, Some};
ghost use Rattle.mg_bytes.specs.Letter.{letter_of, byte_of};

/// A letter of a digit map (RFC 3435, 2.1.5), which is also the name of an event of the package D (RFC 3660, 2.2): one
/// of the sixteen keys of a telephone, or T, at which a timer runs out.
#[derive(Clone, Copy, PartialEq, Eq)]
pub enum Letter {
    Zero,
    One,
    Two,
    Three,
    Four,
    Five,
    Six,
    Seven,
    Eight,
    Nine,
    /// `*`
    Star,
    /// `#`
    Hash,
    A,
    B,
    C,
    D,
    /// `T`
    Timer,
}

/// The letters, in the order in which sets of them are written.
pub const LETTERS: [Letter; 17] = [
    Letter::Zero,
    Letter::One,
    Letter::Two,
    Letter::Three,
    Letter::Four,
    Letter::Five,
    Letter::Six,
    Letter::Seven,
    Letter::Eight,
    Letter::Nine,
    Letter::Star,
    Letter::Hash,
    Letter::A,
    Letter::B,
    Letter::C,
    Letter::D,
    Letter::Timer,
];

impl Letter {
    /// The byte that it is written as, in upper case.
    #[tactic(auto, unfolding(crate::specs::Letter::letter_of))]
    pub fn byte(self) -> u8
        ensures value { result ≡ byte_of self }
        ensures again { letter_of result ≡ Some self }
    {
        match self {
            Letter::Zero => b'0',
            Letter::One => b'1',
            Letter::Two => b'2',
            Letter::Three => b'3',
            Letter::Four => b'4',
            Letter::Five => b'5',
            Letter::Six => b'6',
            Letter::Seven => b'7',
            Letter::Eight => b'8',
            Letter::Nine => b'9',
            Letter::Star => b'*',
            Letter::Hash => b'#',
            Letter::A => b'A',
            Letter::B => b'B',
            Letter::C => b'C',
            Letter::D => b'D',
            Letter::Timer => b'T',
        }
    }
}

/// The letter that a byte is, in any case; `None` for any other byte.
#[tactic(auto, unfolding(crate::specs::Letter::letter_of))]
pub fn letter_of(byte: u8) -> Option<Letter>
    ensures { result ≡ letter_of byte }
{
    match byte.to_ascii_uppercase() {
        b'0' => Some(Letter::Zero),
        b'1' => Some(Letter::One),
        b'2' => Some(Letter::Two),
        b'3' => Some(Letter::Three),
        b'4' => Some(Letter::Four),
        b'5' => Some(Letter::Five),
        b'6' => Some(Letter::Six),
        b'7' => Some(Letter::Seven),
        b'8' => Some(Letter::Eight),
        b'9' => Some(Letter::Nine),
        b'*' => Some(Letter::Star),
        b'#' => Some(Letter::Hash),
        b'A' => Some(Letter::A),
        b'B' => Some(Letter::B),
        b'C' => Some(Letter::C),
        b'D' => Some(Letter::D),
        b'T' => Some(Letter::Timer),
        _ => None,
    }
}
// What stands in a place that has no letter yet.
impl Default for Letter {
    ghost use Rattle.std.specs.Prelude.{◌≡◌};
    ghost use Rattle.mg_bytes.specs.declared.letter.Letter.TheVariants.{Zero};

    ghost is_default = { λ letter. letter ≡ Zero };

    fn default() -> Self {
        Letter::Zero
    }
}
