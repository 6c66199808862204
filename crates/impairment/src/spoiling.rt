//! How a network spoils what goes over it, and how that is written.
ghost use Rattle.std.specs.Prelude.{◌≡◌};
ghost use Rattle.mg_bytes.specs.Items.{items_of};
ghost use Rattle.mg_bytes.specs.Numbers.{decimal_of};
ghost use Rattle.impairment.specs.Spelling.{percent_of, span_of};
ghost use Rattle.impairment.specs.Fates.{impairment_on};
ghost use Rattle.impairment.specs.Parts.{with_lose, with_copy, with_late, with_seed, with_part, with_both, with_item, with_items};
ghost use Rattle.impairment.specs.Parts.{made_of, spoiling_of, nothing_said};

use crate::packet::Way;
use mg_bytes::{decimal, list_items, split_once, trimmed};

/// A packet is never later than this, in ms: none is older than 10 seconds when it is handed over (RFC 3435, 3.5).
pub const LATEST: u64 = 10_000;

/// How a network spoils what goes one way.
#[derive(Clone, Copy)]
pub struct Impairment {
    /// So many packets of 100 are lost.
    pub lose: u8,
    /// So many of 100 others come twice.
    pub copy: u8,
    /// Each comes so much later, in ms: at least and at most.
    pub least: u16,
    pub most: u16,
    /// What its choices are drawn from.
    pub seed: u64,
}

/// How a network spoils what goes over it, each way.
#[derive(Clone, Copy)]
pub struct Spoiling {
    pub incoming: Impairment,
    pub outgoing: Impairment,
}

/// What part of a text says nothing of a network.
#[derive(Clone, Copy)]
pub enum SpoilingFault {
    /// `lose` stands there twice for one way, or without a percentage.
    Lose,
    /// `copy` does.
    Copy,
    /// `late` stands there twice for one way, or without a least and a most time of at most 10,000 ms.
    Late,
    /// `seed` stands there twice for one way, or without a number.
    Seed,
    /// Another word stands there.
    Other,
}

// The parts of one way that were read so far.
#[derive(Clone, Copy)]
pub struct Parts {
    lose: Option<u8>,
    copy: Option<u8>,
    late: Option<(u16, u16)>,
    seed: Option<u64>,
}

// The parts of both.
#[derive(Clone, Copy)]
pub struct WayParts {
    incoming: Parts,
    outgoing: Parts,
}

// The number in `N%`, at most 100.
#[tactic(auto, unfolding(crate::specs::Spelling::percent_of))]
fn percent(text: &[u8]) -> Option<u8>
    ensures { result ≡ percent_of text.now }
{
    let (digits, rest) = split_once(text, b'%')?;
    let number = decimal(digits)?;
    if rest.is_empty() && number <= 100 {
        Some(number as u8)
    } else {
        None
    }
}

// The numbers in `LEAST-MOST`.
#[tactic(auto, unfolding(crate::specs::Spelling::span_of))]
fn span(text: &[u8]) -> Option<(u16, u16)>
    ensures { result ≡ span_of text.now }
{
    let (front, back) = split_once(text, b'-')?;
    let least = decimal(front)?;
    let most = decimal(back)?;
    if least <= most && most <= LATEST {
        Some((least as u16, most as u16))
    } else {
        None
    }
}

fn with_lose(parts: Parts, value: Option<u8>) -> Result<Parts, SpoilingFault>
    ensures { result ≡ with_lose parts value }
{
    match (parts.lose, value) {
        (None, Some(lose)) => Ok(Parts {
            lose: Some(lose),
            ..parts
        }),
        (None, None) => Err(SpoilingFault::Lose),
        (Some(_), _) => Err(SpoilingFault::Lose),
    }
}

fn with_copy(parts: Parts, value: Option<u8>) -> Result<Parts, SpoilingFault>
    ensures { result ≡ with_copy parts value }
{
    match (parts.copy, value) {
        (None, Some(copy)) => Ok(Parts {
            copy: Some(copy),
            ..parts
        }),
        (None, None) => Err(SpoilingFault::Copy),
        (Some(_), _) => Err(SpoilingFault::Copy),
    }
}

fn with_late(parts: Parts, value: Option<(u16, u16)>) -> Result<Parts, SpoilingFault>
    ensures { result ≡ with_late parts value }
{
    match (parts.late, value) {
        (None, Some(late)) => Ok(Parts {
            late: Some(late),
            ..parts
        }),
        (None, None) => Err(SpoilingFault::Late),
        (Some(_), _) => Err(SpoilingFault::Late),
    }
}

fn with_seed(parts: Parts, value: Option<u64>) -> Result<Parts, SpoilingFault>
    ensures { result ≡ with_seed parts value }
{
    match (parts.seed, value) {
        (None, Some(seed)) => Ok(Parts {
            seed: Some(seed),
            ..parts
        }),
        (None, None) => Err(SpoilingFault::Seed),
        (Some(_), _) => Err(SpoilingFault::Seed),
    }
}

// The parts, with what one more item says.
fn with_part(parts: Parts, item: &[u8]) -> Result<Parts, SpoilingFault>
    ensures { result ≡ with_part parts item.now }
{
    let Some((name, value)) = split_once(item, b' ') else {
        return Err(SpoilingFault::Other);
    };
    let value = trimmed(value);
    if name == b"lose".as_slice() {
        with_lose(parts, percent(value))
    } else if name == b"copy".as_slice() {
        with_copy(parts, percent(value))
    } else if name == b"late".as_slice() {
        with_late(parts, span(value))
    } else if name == b"seed".as_slice() {
        with_seed(parts, decimal(value))
    } else {
        Err(SpoilingFault::Other)
    }
}

// A part that stands there without a way is of both.
fn with_both(parts: WayParts, item: &[u8]) -> Result<WayParts, SpoilingFault>
    ensures { result ≡ with_both parts item.now }
{
    let incoming = with_part(parts.incoming, item)?;
    let outgoing = with_part(parts.outgoing, item)?;
    Ok(WayParts { incoming, outgoing })
}

fn with_item(parts: WayParts, item: &[u8]) -> Result<WayParts, SpoilingFault>
    ensures { result ≡ with_item parts item.now }
{
    let Some((word, rest)) = split_once(item, b' ') else {
        return Err(SpoilingFault::Other);
    };
    if word == b"in".as_slice() {
        let incoming = with_part(parts.incoming, trimmed(rest))?;
        Ok(WayParts { incoming, ..parts })
    } else if word == b"out".as_slice() {
        let outgoing = with_part(parts.outgoing, trimmed(rest))?;
        Ok(WayParts { outgoing, ..parts })
    } else {
        with_both(parts, item)
    }
}

#[tactic(auto, unfolding(crate::specs::Parts::with_items))]
fn parts_in(text: &[u8]) -> Result<WayParts, SpoilingFault>
    ensures { result ≡ with_items nothing_said (items_of text.now) }
{
    let none = Parts {
        lose: None,
        copy: None,
        late: None,
        seed: None,
    };
    let mut parts = WayParts {
        incoming: none,
        outgoing: none,
    };
    for item in list_items(text) {
        parts = with_item(parts, item)?;
    }
    Ok(parts)
}

fn made_of(parts: Parts) -> Impairment
    ensures { result ≡ made_of parts }
{
    let (least, most) = parts.late.unwrap_or((0, 0));
    Impairment {
        lose: parts.lose.unwrap_or(0),
        copy: parts.copy.unwrap_or(0),
        least,
        most,
        seed: parts.seed.unwrap_or(1),
    }
}

impl Spoiling {
    /// Reads what a text says, as `lose 10%, in copy 5%, out late 0-3000, seed 7`: parts in any order, each for both ways, or for one by
    /// `in` or `out` in front of it; for a way each at most once. Where a part is missing nothing is lost, copied or late that way, and
    /// the seed is 1. A fault names the first part that is wrong.
    #[tactic(auto, unfolding(crate::specs::Parts::spoiling_of))]
    pub fn read(text: &[u8]) -> Result<Spoiling, SpoilingFault>
        ensures { result ≡ spoiling_of text.now }
    {
        let parts = parts_in(text)?;
        Ok(Spoiling {
            incoming: made_of(parts.incoming),
            outgoing: made_of(parts.outgoing),
        })
    }

    /// How it spoils what goes this way.
    pub(crate) fn on(self, way: Way) -> Impairment
        ensures { result ≡ impairment_on way self }
    {
        match way {
            Way::In => self.incoming,
            Way::Out => self.outgoing,
        }
    }
}
