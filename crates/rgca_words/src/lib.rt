//! The words of the program `rgca`: what they ask for, how the program is used, how it ends, and what it says then; and its configuration.
//! It serves nothing.
#![tactic(auto)]

mod asking;
mod configs;
mod ending;
pub mod examples;
mod help;
mod words;

pub use crate::asking::asked_by;
pub use crate::configs::config_at;
pub use crate::ending::{Ending, Moved, Said};
pub use crate::words::Settings;
