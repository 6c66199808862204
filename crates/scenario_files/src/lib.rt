//! What all scenarios have in common: the files that their program is called with, short forms, rows under titles, and scenarios as
//! they are written.
//!
//! What is refused memory is done again, and must then give what it gives with ample memory: the program is refused each
//! request for memory in turn (`./refusals`). So a kind of row changes its state last. `docs/SCENARIOS.md` says how
//! scenarios are written.
//!
//! Want of memory, which is told by no answer, is the one error that there is.
#![tactic(auto)]

mod again;
mod draft;
mod files;
mod input;
mod lists;
mod numbers;
mod outcome;
mod report;
mod row;
mod rows;
mod settings;
mod texts;
mod titles;
mod written;

pub use crate::draft::TextDraft;
pub use crate::files::{Kinds, play};
pub use crate::input::input_of;
pub use crate::lists::item_at;
pub use crate::numbers::{number_in, range_in};
pub use crate::outcome::Outcome;
pub use crate::report::Report;
pub use crate::row::Row;
pub use crate::rows::{Scenario, told};
pub use crate::settings::SETTINGS;
pub use crate::texts::{bytes_of, in_full, parted, put_line, said, value_of, yes_or_no};
pub use crate::titles::{Titled, told_titled};
pub use crate::written::{WrittenScenario, read_scenario};
