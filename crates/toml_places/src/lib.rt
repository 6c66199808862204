//! Where the keys of a TOML text stand, and why a text isn't TOML, for people: its line, its key, what stands there, and the nearest of the
//! keys that there are. What is right is judged elsewhere.
#![tactic(auto)]

pub mod examples;
mod fault;
mod lines;
mod names;
mod nearest;
mod places;
mod statements;
mod told;
mod within;
mod words;

pub use crate::fault::{Reason, TomlFault, put_toml_fault, toml_fault};
pub use crate::lines::line_at;
pub use crate::nearest::put_nearest;
pub use crate::places::{Dotted, Places};
pub use crate::told::{Told, named};
pub use crate::words::{has, replaced, shown, written};
