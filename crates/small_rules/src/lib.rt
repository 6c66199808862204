//! Small rules that others ask. They stand in one crate, below all others, since for a wrong body of each its whole crate is checked once
//! more.
//!
//! Most are rules of transmission over UDP (RFC 3435, 3.2.1 and 3.5): which numbers commands get, which messages share a datagram, which
//! datagrams are taken, also after a pause, which commands are executed, which command was issued and what answers it, and whose turn a
//! send is. Beside them: how is counted, and how a text goes into a buffer of C.
#![tactic(auto)]

mod answering;
mod buffers;
mod counting;
mod numbering;
mod pausing;
mod sharing;
mod standing;
mod turn;

pub use crate::answering::{is_answered, is_command_issued, is_final};
pub use crate::buffers::lacks_room;
pub use crate::counting::count;
pub use crate::numbering::{FIRSTS, NUMBERS, Numbering};
pub use crate::pausing::is_too_far_behind;
pub use crate::sharing::{is_too_long, share_a_datagram};
pub use crate::standing::{Standing, is_executed};
pub use crate::turn::place_in_turn;
