//! The calls of a small exchange of lines (RFC 3435): whose telephone rings whose, and by which commands a call agent has the
//! gateways ring, connect and clear their lines.
//!
//! It is a state machine without a socket and a clock. What a line told, and what became of the commands to it, goes in; which
//! command is to be sent to a line, and its parameters, comes out. The state says what each line should be, and the next
//! command of a line is the first difference to what its gateway was told, so nothing is queued. A command that is refused for a
//! cause that may pass is such a difference still; there may be so many in a row, then what couldn't be had is on record. `specs/`
//! says what is meant, and the crate `live_laws` what follows for every list of events.
#![tactic(auto)]

mod asked;
mod calls;
mod command;
mod exchange;
mod fate;
mod line;
mod next;
mod number_plan;
mod parameters;
mod phase;
mod told;

pub use crate::asked::Asked;
pub use crate::command::{Command, Outcome};
pub use crate::exchange::Exchange;
pub use crate::fate::{Cause, Fate, MOST_PUT_OFF, PutOff, is_deleted, may_pass};
pub use crate::line::{Leg, Line};
pub use crate::number_plan::NumberPlan;
pub use crate::phase::{Part, Phase, Side, Tone, named_by};
pub use crate::told::{Told, told_in};
