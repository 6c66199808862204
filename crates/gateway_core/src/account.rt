//! What is told of an event beside what its texts were.
ghost use Rattle.std.specs.Prelude.{◌≡◌};

use crate::sent::SentMessage;
use plain_machine::GivenUpCommand;
use std::alloc::Global;
use std::mem::swap;

/// What is told of an event beside what its texts were: the messages that were sent, and the commands of the gateway's own that
/// were given up, both in their order. Its room stays from one event to the next.
#[derive(Drop)]
pub(crate) struct Account {
    pub sent: Vec<SentMessage>,
    pub given_up: Vec<GivenUpCommand>,
}

impl Account {
    ghost use Rattle.std.specs.Prelude.{[]};

    /// Nothing is told yet. This takes no memory.
    pub fn new(alloc: Global) -> Self
        ensures sent { result.sent.items ≡ [] }
        ensures given_up { result.given_up.items ≡ [] }
    {
        Account {
            sent: Vec::new(alloc),
            given_up: Vec::new(alloc),
        }
    }
}

/// What was told of the last event gives way to what is told of the event under way.
pub(crate) fn give_way(last: &mut Account, under_way: &mut Account)
    ensures last { last.new ≡ under_way.old }
    ensures under_way { under_way.new ≡ last.old }
{
    swap(last, under_way);
}
