//! Plays a script through the gateway: what `rgw simulate` reads and writes.
//!
//! The input is a configuration, a line `%%` and a script. All of it is judged before anything is written. What it says and
//! how what it shows is printed is in `rgw_scripts`.
//!
//! The program's command line is here too: its words, its exit statuses and what it says on standard error.
//!
//! Nothing that a crate above can name has a gateway in it: a check loads all of what it has.
#![tactic(auto)]

mod app;
mod ending;
pub mod examples;
pub mod laws;
mod player;
mod scene;
mod session;
mod sockets;
mod udp_wire;
mod words;

pub use crate::app::{asked, loopback, perform, run, simulate};
pub use crate::ending::Ending;
pub use crate::session::play;
pub use crate::udp_wire::UdpWire;
pub use crate::words::{Task, WordFault};
pub use rgw_scripts::{PlayFault, Played};
