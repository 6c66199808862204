//! What an input says, and what is printed of a play: a configuration, the steps of a script, and what they show, as the status of a line.
//!
//! What the steps show is what the plain machine does (`plain_machine`); `rgw_play` plays them at a gateway. What a configuration says is
//! defined here (`Configuration`). It is read from TOML in `gateway_config`, so that nothing that a crate above can name has a table of TOML in
//! it: a check loads all of what it has.
//!
//! It touches texts, and a gateway by its public calls alone. Scripts, traces, `rgwd` and the library for C stand on it.
#![tactic(auto)]

mod acts;
pub mod examples;
mod input;
pub mod laws;
mod line_status;
mod link;
mod played;
mod printing;
mod script;
mod status;
mod step;
mod words;

pub use crate::acts::key_with;
pub use crate::input::{Parts, is_too_long, parts_of, read_limited};
pub use crate::line_status::status_of;
pub use crate::link::{Direct, Link};
pub use crate::played::{LinkFault, PlayFault, Played, StepFault, name_of_config_fault};
pub use crate::printing::{hook_word, put_datagrams, put_end, put_line, put_refusal};
pub use crate::script::{ScriptFault, read_script};
pub use crate::status::LineStatus;
pub use crate::step::{ScriptLine, ScriptStep};
pub use crate::words::line_in;

/// How many bytes of input are taken.
pub const LIMIT: usize = 1_048_576;
