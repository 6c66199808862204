//! Messages of one's own in flight (RFC 3435, 3.5): when each is sent again, when it is given up, and what a response is to it; and how the
//! gateway or a line announces itself by RestartInProgress (2.3.12, 4.4.6 and 4.4.7): when that is due, and what a response is to that.
//!
//! Nothing here sends, or knows a clock or an address of its own: the owner says what time it is, and sends what is due. What is in flight
//! owns its bytes; only `begin` and `try_copy` of `Pending` take memory.
//!
//! The gateway (`plain_machine`, `endpoints`) and the call agent (`call_agent`) stand on it.
#![tactic(auto)]

mod heard;
mod issued;
mod pending;
pub mod pending_examples;
pub mod pending_laws;
mod repeat;
mod reply;
mod restart;
pub mod restart_examples;
pub mod restart_laws;

pub use crate::heard::Heard;
pub use crate::issued::{Answer, Answered, answer_with, is_command_with};
pub use crate::pending::Pending;
pub use crate::repeat::Repeat;
pub use crate::reply::Reply;
pub use crate::restart::Restart;
