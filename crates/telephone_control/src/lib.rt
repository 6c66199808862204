//! What is asked beside the protocol of a gateway that runs, and what is answered and shown: lines for its telephones, what a watcher (`watch`)
//! is told of each change, and what the page is shown.
//!
//! It asks the gateway by its public calls, and touches sockets only by `live_io`; it decides nothing of the protocol. `rgwd`'s loop,
//! `live_gateway`, stands on it.
#![tactic(auto)]

mod answering;
mod losses;
mod picture;
mod seeing;
mod telephones;
pub mod view_examples;
mod watch;
pub mod watch_examples;
pub mod watch_laws;

pub use crate::answering::{
    PHONES_FROM_AFAR, act_answer, all_shown, answer_put, question_answer, short_answer, show,
    take_act,
};
pub use crate::losses::lost_of;
pub use crate::telephones::{TelephoneRequest, Typist, request_in, typist_of};
pub use crate::watch::Watch;
