//! Small rules of a whole gateway and of a line, over which the plain machine is written: how many lines there may be, what of all that falls
//! due comes next, why an act or a tick is refused, which turn of serving is the last; of a line (RFC 3435, 2.3.3 and 4.4.1) how many events
//! can be quarantined and when they occur, and what a request makes of what came before.
//!
//! A crate of its own, and small, since for a wrong body of each the whole crate is checked once more. It touches nothing but these values.
//! `mg_line`, `plain_machine` and `gateway_core` stand on it.
#![tactic(auto)]

mod acting;
mod draining;
mod embedding;
mod falling;
mod handling;
mod lines;
mod refusal;
mod room;
mod state;
mod ticking;
mod turning;

pub use crate::acting::act_refusal;
pub use crate::draining::ends_drain;
pub use crate::embedding::drop_accumulated;
pub use crate::falling::due_by;
pub use crate::handling::{discards, resumes_when_answered};
pub use crate::lines::{MOST_LINES, are_lines};
pub use crate::refusal::Refusal;
pub use crate::room::{MOST_QUARANTINED, quarantine_room};
pub use crate::state::{State, awaits_answer};
pub use crate::ticking::tick_refusal;
pub use crate::turning::{TurnEnd, is_last};
