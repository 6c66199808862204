//! A gateway's configuration: what its text (TOML) says, what is wrong with one, in words, and what a gateway of it will be.
//!
//! `read_config` reads the configuration that a gateway is opened with. `flaw_of` judges the text of one: the first flaw in the order
//! in which they are told, or none. `told` says in a line which key it is about, what stands there, and what may. `told_setup` says
//! what a gateway will be.
//!
//! It opens no file and no socket. Nothing that a crate above can name has a gateway in it: a check loads all of what it has. Scripts, `rgwd`'s
//! words and the library for C stand on it.
#![tactic(auto)]

mod agents;
mod bounds;
pub mod examples;
mod flaw;
mod hosts;
pub mod laws;
mod pieces;
mod settings;
mod setup;
mod wording;

pub use crate::bounds::{Bounds, bounds_of};
pub use crate::flaw::{Flaw, flaw_of};
pub use crate::settings::{BAD_TOML, read_config};
pub use crate::setup::told_setup;
pub use crate::wording::told;
