//! The words of the program `rgwd`: what they ask for, how the program is used, how it ends, and what it says then; what it tells a
//! gateway that runs, how it replays a trace, the gateway that is to serve, and what is done and said before that. It serves nothing.
#![tactic(auto)]

mod asked;
mod beginning;
mod configuring;
mod ending;
pub mod examples;
mod help;
mod opening;
mod parted;
mod replaying;
mod starting;
mod telling;
mod warnings;
mod words;

pub use crate::asked::asked_by;
pub use crate::beginning::{begin_serving, say_setup};
pub use crate::configuring::{Configured, configure};
pub use crate::ending::{Ending, Said};
pub use crate::opening::{captured_at, open_sockets, page_names};
pub use crate::starting::{Begun, Start};
pub use crate::telling::answered_by;
pub use crate::words::{ListFault, Settings, Sockets, WORDS, hosts_in, settings_in, speakers_in};
