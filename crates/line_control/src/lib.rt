//! Which command each line of a call agent is sent, and what its answers mean for its calls.
//!
//! That is the exchange (`call_processing`) in the program's hands. Beside the exchange's own commands a line is cleared and audited
//! (`care`); an answer to an audit tells of its hook (`hooks`), one to the exchange's command what became of that (`responses`). The lines
//! to which something has happened wait until they are settled (`worklist`). Nothing here knows of a gateway: whose a line is, what it is
//! called, and who issues a command to it is said above, in `switchboard`.
#![tactic(auto)]

mod care;
pub mod examples;
mod hooks;
mod office;
mod responses;
pub mod step_examples;
mod worklist;

pub use crate::office::{Office, Order};
pub use crate::worklist::Worklist;
