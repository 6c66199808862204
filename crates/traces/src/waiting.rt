//! How long a start waits, so that gateways that start together don't announce themselves together (RFC 3435, 4.4.6).
ghost use Rattle.std.specs.Prelude.{◌≡◌, ◌≤◌};
ghost use Rattle.traces.specs.Words.{spread_from, spread_in};
ghost use Rattle.traces.specs.Waiting.{waited};

use impairment::mixed;
use mg_bytes::decimal;

/// The longest spread, in ms: the maximum waiting delay that the standard suggests (RFC 3435, 4.4.6).
pub const LONGEST_SPREAD: u32 = 600_000;

// The spread itself, where it isn't too long.
fn spread_from(spread: u64) -> Option<u32>
    ensures { result ≡ spread_from spread }
{
    if spread > u64::from(LONGEST_SPREAD) {
        return None;
    }
    Some(spread as u32)
}

/// The spread, in ms, that a word spells in digits.
#[tactic(auto, unfolding(crate::specs::Words::spread_in))]
pub fn spread_in(word: &[u8]) -> Option<u32>
    ensures { result ≡ spread_in word.now }
{
    spread_from(decimal(word)?)
}

/// How long a start waits of this spread, both in ms, at this time of day, in ms, where the gateway has this domain. Gateways that
/// start at one moment wait for other times where their domains differ.
pub fn waited(spread: u32, time: u64, domain: &[u8]) -> u64
    ensures value { result ≡ waited spread time domain.now }
    ensures within { result ≤ spread }
{
    mixed(time, domain) % (u64::from(spread) + 1)
}
