//! All flaws of a gateway's configuration, in words for people: each with its file, its line, its key, what stands there, and what may.
//!
//! What is right is judged by `gateway_config` alone, and so are the words of most flaws: of each key on its own, in a configuration that is
//! else right.
#![tactic(auto)]

mod flaws;
mod judged;
mod names;

pub use crate::flaws::flaws_text;
pub use crate::names::with_names;
