//! Messages of a gateway that runs, as people are told them: in the log, a line each, with notes beside; and on its page, with labels.
//! It opens nothing: what it puts stands in a record, or on a board.
#![tactic(auto)]

mod coming;
pub mod examples;
mod explaining;
mod labelling;
mod log;
pub mod logging_examples;
pub mod noting_examples;
mod sending;
mod showing;
pub mod showing_examples;
mod spoiling;
mod strangers;

pub use crate::log::Log;
pub use crate::showing::{nobody, show, show_sent, show_turned};
pub use crate::strangers::Quiet;
