//! What comes next.
ghost use Rattle.std.specs.Prelude.{◌≡◌};
ghost use Rattle.turns.specs.Schedule.{turn_of};

use crate::circle::Source;
use crate::situation::{Situation, tick_to};

/// A pause of the program, as of one that was stopped.
#[derive(Clone, Copy)]
pub struct Pause {
    /// So much later it went on than it was to, in ms.
    pub lateness: u64,
    /// So many datagrams had come meanwhile, and were read before the clock went on; `None` where the pause was too long for that.
    pub read: Option<u64>,
}

/// What comes next.
#[derive(Clone, Copy)]
pub enum Turn {
    /// All is over.
    End,
    /// It is asked what has come, and not waited for.
    Look,
    /// It is waited until something comes, but not past this moment, in ms.
    Wait { until: u64 },
    /// The clock goes to this moment, in ms.
    Tick { moment: u64 },
    /// One line is taken of who types, if one is there.
    Command,
    /// One datagram is taken, if one is there.
    Datagram,
    /// One visitor is served, if one is there.
    Visit,
    /// A pause is noted.
    Note { pause: Pause },
}

// The turn of a source.
pub(crate) fn turn_of(at: Situation, source: Source) -> Turn
    ensures { result ≡ turn_of at source }
{
    match source {
        Source::Clock => Turn::Tick {
            moment: tick_to(at),
        },
        Source::Commands => Turn::Command,
        Source::Datagrams => Turn::Datagram,
        Source::Visitors => Turn::Visit,
    }
}
