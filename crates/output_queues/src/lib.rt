//! What a program writes where no write waits: outlets for what is recorded and said, what waits there, and what became of it.
//!
//! Nothing here knows what is recorded, nor how a program ends.
#![tactic(auto)]

mod answers;
mod backlog;
pub mod examples;
mod finisher;
pub mod laws;
mod now;
mod outlet;
mod outlets;
mod reasons;
mod record;
mod stream;
mod written;

pub use crate::answers::{DONE, NO_MEMORY, STOP_FROM_AFAR};
pub use crate::backlog::{Backlog, TEXT_ROOM};
pub use crate::finisher::Finisher;
pub use crate::now::Now;
pub use crate::outlet::{Outlet, OutletState};
pub use crate::outlets::{NEXT_OFFER, Outlets};
pub use crate::reasons::reason_of;
pub use crate::record::{Record, RecordState};
pub use crate::stream::{Stream, make_for_owner};
pub use crate::written::Written;
pub use mg_bytes::boxed;
