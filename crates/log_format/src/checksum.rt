//! The checksum of an IPv4 header (RFC 791, 3.1).
ghost use Rattle.std.specs.Prelude.{◌≡◌};
ghost use Rattle.log_format.specs.Checksum.{ones_plus, checksum_of};

// What is carried out of 16 bits is added at the low end.
fn ones_plus(a: u16, b: u16) -> u16
    ensures { result ≡ ones_plus a b }
{
    let sum = u32::from(a) + u32::from(b);
    if sum <= 65_535 {
        sum as u16
    } else {
        (sum - 65_535) as u16
    }
}

/// The checksum of these words: the one's complement of their one's complement sum.
#[tactic(auto, unfolding(crate::specs::Checksum::checksum_of))]
pub(crate) fn checksum_of(words: &[u16]) -> u16
    ensures { result ≡ checksum_of words.now }
{
    u16::MAX - words.iter().fold(0, |sum, word| ones_plus(sum, *word))
}
