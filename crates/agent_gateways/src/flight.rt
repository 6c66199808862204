//! A command that is in flight.
ghost use Rattle.std.specs.Prelude.{◌≡◌, take};
ghost use Rattle.transmission.specs.Texts.{largest_datagram};
ghost use Rattle.agent_gateways.specs.Flights.{most_steps, fallen, behind, falls, over_by};

use crate::own_copy::{END_OF_TIME, OwnCopy, Room};
use call_agent::Issued;
use mgcp_text::TransactionId;
use retransmission::{Repeat, Reply};

// A command is repeated less often than this, and then given up.
const MOST_STEPS: u8 = 8;

/// A command that an agent issued and that isn't answered yet. It is kept by the rules by which the agent keeps it, so it is
/// known when the agent gives it up.
#[derive(Drop)]
pub(crate) struct Flight {
    pub(crate) pending: OwnCopy,
    /// The place of the line that an exchange sent it to; none where it was typed.
    pub(crate) line: Option<usize>,
}

// What falls due first of a command by a moment (in ms): what is done with it then, if anything does.
fn fall(pending: &mut OwnCopy, moment: u64) -> Option<Repeat>
    ensures done { result ≡ fallen pending.old moment }
    ensures pending { pending.new ≡ behind pending.old moment }
{
    let due = pending.due();
    if due <= moment && due < END_OF_TIME {
        Some(pending.repeat(due))
    } else {
        None
    }
}

// What falls due of a command by a moment (in ms): whether it is given up.
fn is_given_up(pending: &mut OwnCopy, moment: u64) -> bool
    ensures { (result, pending.new) ≡ falls most_steps pending.old moment }
{
    for _ in 0..MOST_STEPS {
        match fall(pending, moment) {
            None => return false,
            Some(Repeat::Sent) => {}
            Some(Repeat::GivenUp) => return true,
        }
    }
    false
}

impl Flight {
    /// A command that was issued just now, in the room that there is for it. This takes no memory.
    pub(crate) fn begin(room: Room, issued: &Issued, line: Option<usize>) -> Flight
        ensures pending { result.pending
            ≡ record room { id = issued.now.id; text = take largest_datagram issued.now.datagram.bytes } }
        ensures line { result.line ≡ line }
    {
        Flight {
            pending: room.filled(issued),
            line,
        }
    }

    /// Whether it is over at a moment (in ms): answered by a response with this id and return code; without a response, given up.
    pub(crate) fn is_over(&mut self, response: &Option<(TransactionId, u16)>, moment: u64) -> bool
        ensures over { (result, self.new.pending) ≡ over_by response.now self.old.pending moment }
        ensures rest { self.new ≡ record self.old { pending = self.new.pending } }
    {
        match response {
            None => is_given_up(&mut self.pending, moment),
            Some((id, code)) => {
                if moment >= END_OF_TIME {
                    return false;
                }
                match self.pending.answer(*id, *code, moment) {
                    Reply::Answered => true,
                    Reply::Provisional | Reply::Stranger => false,
                }
            }
        }
    }
}
