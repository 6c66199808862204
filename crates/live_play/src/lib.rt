//! A gateway that runs live is played: what it is given, asked and sends is told to a trace, and then handed out, in order.
//! What datagrams are handed to, and who keeps the trace, are traits.
#![tactic(auto)]

mod ends;
mod examples;
mod handing;
mod placed;
mod play;
mod shown_line;
mod telling;
mod trace_text;

pub use crate::ends::Outlet;
pub use crate::handing::FIRST_UNREAD;
pub use crate::play::LivePlay;
pub use crate::shown_line::put_shown;
pub use crate::trace_text::TraceText;
