//! The residential gateway: fully deterministic, with no network and no clock inside.
//!
//! A gateway is given one event at a time and answers with the datagrams that it sends (RFC 3435). What it must do for every list of events
//! is said by the plain machine (`plain_machine`), and proved of `step` and `run`. After an error it is as it was before the event, and what the
//! event found can still be had.
//!
//! A command of a datagram is executed and answered, a response is heard, and a repeat gets its answer again, message by message
//! (`answering`, `commanding`); what an event changes stands in its `state`. The endpoints are behind the store of `endpoints`.
//!
//! Scripts, `rgwd` and the library for C stand on it.
#![tactic(auto)]

mod account;
mod acting;
mod answering;
mod changing;
mod commanding;
pub mod examples;
mod gateway;
mod labelling;
pub mod laws;
mod outcome;
mod outcomes;
mod outgoing;
mod parting;
mod sending;
mod sent;
mod served;
mod serving;
mod state;
mod stopped;
mod telling;
mod ticking;
mod wire;
mod working;

pub use crate::gateway::Gateway;
pub use crate::outcome::{Reply, TextOutcome};
pub use crate::outgoing::{split_sent, split_text};
pub use crate::sent::SentMessage;
pub use crate::served::Served;
pub use crate::stopped::Stopped;
pub use crate::wire::{DATAGRAM_ROOM, Input, Wire, WireFault};
pub use endpoints::key_at_fault;
pub use plain_machine::{
    Config, ConfigFault, ConfigKey, Event, FIRSTS, GivenUpCommand, Label, NamedRoute, OutDatagram,
    Outputs, Refusal, What, Whose,
};
