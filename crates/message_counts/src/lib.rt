//! What a gateway tells that it got, sent and gave up, in numbers: datagrams, texts by what they were, messages by their labels, sends by
//! place, since when an answer is owed; and how counts are told. Laws say that each is the sum of what it counts.
#![tactic(auto)]

pub mod examples;
pub mod laws;
mod message_tally;
mod place_counts;
pub mod place_laws;
mod reporting;
mod sent_counts;
pub mod sent_examples;
pub mod sent_laws;
mod taken;
pub mod telling_examples;
mod text_counts;
mod waiting;

pub use crate::message_tally::MessageTally;
pub use crate::place_counts::PlaceCounts;
pub use crate::reporting::{Faults, report_text};
pub use crate::sent_counts::{SentCounts, place_of};
pub use crate::taken::Taken;
pub use crate::text_counts::TextCounts;
pub use crate::waiting::is_own;
