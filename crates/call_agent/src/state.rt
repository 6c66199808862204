//! What changes in an agent.

use crate::flights::Flights;
use crate::growing::Growing;
use crate::setup::AgentSetup;
use crate::told::TakenEvents;
use retransmission::Answered;
use std::alloc::Global;
use transmission::History;

/// What changes in an agent: the clock, the commands in flight with the id of the next, the answers, what was told of each
/// line, and the history of transactions.
#[derive(Drop)]
pub(crate) struct State {
    pub clock: u64,
    pub flights: Flights,
    pub answers: Growing<Answered>,
    pub told: TakenEvents,
    pub history: History,
}

/// What a piece of work is done with.
#[derive(Clone, Copy)]
pub(crate) struct Context<'a> {
    pub alloc: Global,
    pub setup: &'a AgentSetup,
}
