//! What becomes of a packet.
ghost use Rattle.std.specs.Prelude.{◌≡◌};
ghost use Rattle.impairment.specs.Fates.{is_hit, lateness, fate_of};

use crate::draws::Draws;
use crate::spoiling::{Impairment, LATEST};

/// What becomes of a packet. Times are in ms, at most 10,000.
#[derive(Clone, Copy)]
pub enum Fate {
    /// It is lost.
    Lost,
    /// It comes, so late.
    Once { late: u64 },
    /// It comes twice, each time so late.
    Twice { first: u64, second: u64 },
}

fn is_hit(percent: u8, draw: u32) -> bool
    ensures { result ≡ is_hit percent draw }
{
    draw % 100 < u32::from(percent)
}

fn lateness(impairment: Impairment, draw: u32) -> u64
    ensures { result ≡ lateness impairment draw }
{
    let least = u64::from(impairment.least);
    let more = u64::from(impairment.most).saturating_sub(least);
    (least + u64::from(draw) % (more + 1)).min(LATEST)
}

/// What becomes of a packet that goes a way spoilt so, and for which these words were drawn.
pub(crate) fn fate_of(impairment: Impairment, draws: Draws) -> Fate
    ensures { result ≡ fate_of impairment draws }
{
    if is_hit(impairment.lose, draws.lost) {
        return Fate::Lost;
    }
    let first = lateness(impairment, draws.first);
    if is_hit(impairment.copy, draws.copied) {
        let second = lateness(impairment, draws.second);
        return Fate::Twice { first, second };
    }
    Fate::Once { late: first }
}
