//! What a browser asks of the page, and what it is told: which path under which name of the host (`Route`), who gets a place and who may work
//! telephones; and the answers as JSON.
//!
//! It touches neither sockets nor files. `page_server` reads the requests and writes the answers; `rgwd_words` reads whom the page serves.
#![tactic(auto)]

mod access;
pub mod access_examples;
mod access_laws;
mod acting;
pub mod answer_examples;
mod answer_laws;
mod answers;
mod asked;
mod asking;
mod host_names;
mod label;
mod members;
mod object_examples;
mod places;
mod route;
mod state;
mod telling;
mod told;

pub use crate::answers::{ActOutcome, act_on, events_of, state_of};
pub use crate::asked::Asked;
pub use crate::asking::asked_of;
pub use crate::host_names::HostNames;
pub use crate::places::{Seat, place_for};
pub use crate::route::Route;
pub use crate::state::state_text;
