//! What is seen of a line, what changes there, how that is told, and who is told.
//!
//! Who watches, a page and a program that plays what is heard stand on it alike. Nothing here knows a gateway or a socket.
#![tactic(auto)]

mod address;
mod change;
mod changing;
pub mod examples;
mod seen;
mod telling;
mod watchers;

pub use crate::change::{Change, codec_text};
pub use crate::changing::put_changes;
pub use crate::seen::{SeenConnection, SeenLine, seen_connections};
pub use crate::telling::{ChangeText, put_watching};
pub use crate::watchers::{LONGEST_WATCH, MOST_WATCHERS, Watcher, Watchers, told_at};
