//! The loop of the program `rgwd`: a turn at a time, as a schedule says what comes next.
//!
//! It stands on surroundings, which are the machine's sockets and clock, or a script in memory; on a bad network before these, where
//! one is asked for; and on visitors of a page, where there is one. What goes over it is told to a journal and to a trace. A gateway
//! that runs live is a play: what it is given, asked and sends is, in order, what its trace says, and that can be played again.
#![tactic(auto)]

mod admission;
mod arriving;
mod desk;
mod ending;
mod exchange;
mod naming;
mod opening;
mod spoilt_way;
mod turn_parts;
mod visitors;

pub use crate::admission::{Admission, speakers_of};
pub use crate::desk::{Desk, open_desk};
pub use crate::ending::end_desk;
pub use crate::exchange::Exchange;
pub use crate::naming::agents_line;
pub use crate::opening::DeskSettings;
pub use crate::spoilt_way::SpoiltWay;
pub use crate::visitors::Visitors;
pub use output_queues::boxed;
