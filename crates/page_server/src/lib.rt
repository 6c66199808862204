//! The page's sockets: who comes, is read, answered and let go, over HTTP/1.1; and the page's own files, which `tools/page_files` writes here as
//! constants, so that just these are served.
//!
//! It touches the machine's sockets (`live_system`), and of the gateway nothing but the state that it is shown (`page_state`). `rgwd` stands on
//! it.
#![tactic(auto)]

mod desk;
mod examples;
mod fields;
mod files;
mod laws;
mod page;
mod playing;
mod reception;
mod script;
mod site;
mod style;
mod visitor;

pub use crate::playing::answer_to;
pub use crate::reception::{PageProgram, Reception, run_with_site};
