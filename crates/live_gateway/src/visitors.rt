//! What the loop asks of the visitors of a page.
ghost use Rattle.std.specs.Prelude.{◌≡◌};
ghost use Rattle.live_gateway.specs.Visiting.{AreReady, ClosesAt};

use live_io::Surroundings;
use page_state::Board;

/// Visitors of a page, who come over the same surroundings and are served between the gateway's turns. They can be held to what they said
/// when they were asked, and to each turn that they had.
pub trait Visitors<S: Surroundings> {
    ghost use Rattle.live_gateway.specs.Visiting.{VisitsBy};

    /// All that they can be held to.
    ghost visits: { VisitsBy Self S };

    /// Whether one has more to do at this moment, in ms, somebody may have come, or somebody's time is over.
    fn is_ready(&self, around: &S, moment: u64) -> bool
        ensures { visits.waits self.now around.now moment result };

    /// The moment at which somebody's time is over, in ms, if there is one.
    fn next_deadline(&self) -> Option<u64>
        ensures { visits.closes self.now result };

    /// A turn: those whose time is over go, somebody is let in, and one who has more to do is answered by the board.
    fn turn(&mut self, around: &mut S, board: &mut Board, moment: u64)
        ensures traffic { S.around.traffic around.new ≡ S.around.traffic around.old }
        ensures served { visits.serves self.old around.old board.old moment self.new around.new board.new };
}

/// Whether one of them has more to do at this moment, in ms, or comes, where there are visitors.
pub(crate) fn are_ready<S: Surroundings, V: Visitors<S>>(
    visitors: &Option<Box<V>>,
    around: &S,
    moment: u64,
) -> bool
    ensures { AreReady V.visits.waits visitors.now around.now moment result }
{
    match visitors {
        Some(visitors) => visitors.is_ready(around, moment),
        None => false,
    }
}

/// The moment at which somebody's time is over, in ms, if there is one.
pub(crate) fn next_deadline<S: Surroundings, V: Visitors<S>>(
    visitors: &Option<Box<V>>,
) -> Option<u64>
    ensures { ClosesAt V.visits.closes visitors.now result }
{
    match visitors {
        Some(visitors) => visitors.next_deadline(),
        None => None,
    }
}
