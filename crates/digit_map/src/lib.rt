//! Digit maps: the numbers that may be dialled, as words over the letters of a telephone (RFC 3435, 2.1.5).
//!
//! A map is read once and kept as its text without blanks. A `Matcher` is fed with letters and says how far they have come, by the words of
//! the map alone; it takes no memory and never goes back in the letters. `blocks_from` has the places of a map, 32 in a block of bits, of
//! which `digit_map_bits` makes the matcher that lines use.
//!
//! It touches texts alone. Requests (`event_syntax`, `events_and_signals`), lines (`mg_line`) and the call agent's configuration stand on it.
#![tactic(auto)]

mod block;
mod change;
mod cut;
mod draft;
pub mod examples;
mod fault;
pub mod laws;
mod map_text;
mod matcher;
mod part;
mod spelling;
mod verdict;
mod walk;

pub use crate::block::Block;
pub use crate::change::{MapChange, read_change};
pub use crate::cut::{PositionsLeft, StringsLeft, positions, set_of, strings};
pub use crate::draft::{blocks_from, drafts_of, words_from};
pub use crate::fault::MapFault;
pub use crate::map_text::{MapText, read_map};
pub use crate::matcher::{MOST_LETTERS, Matcher};
pub use crate::spelling::is_range;
pub use crate::verdict::Verdict;
pub use crate::walk::{is_in_range, is_repeated, is_word, stands_for, verdict_of};
