//! Messages of the Media Gateway Control Protocol as text (RFC 3435, section 3): read from a datagram's bytes, and written; and several
//! messages in one datagram (3.5.5: piggybacking), which a line that is a single dot parts.
//!
//! A message borrows the text that it was read from, or owns its parts. Of the parameters only K, which confirms responses, is read here; what
//! a command asks for is read in `command_forms`. Reading takes memory for parameters alone, and cutting a datagram none; joining copies.
//!
//! It touches bytes alone, by `mg_bytes`. Both ends stand on it: `transmission`, `plain_machine`, `call_agent`, and whatever shows a message.
#![tactic(auto)]

mod answer;
mod bytes;
mod confirmation;
mod datagram;
pub mod examples;
mod header;
mod id;
pub mod laws;
mod message;
mod parameter;
mod part;
pub mod piggyback_examples;
mod reading;
mod writing;

pub use crate::answer::AnswerContent;
pub use crate::bytes::Bytes;
pub use crate::confirmation::{IdRange, IdRanges, KValue, read_k};
pub use crate::datagram::{is_joinable, join, parts};
pub use crate::id::TransactionId;
pub use crate::message::{Message, Param, Params, TextFault, Verb};
pub use crate::parameter::param_at;
pub use crate::part::Parts;
pub use crate::reading::{one_reading, read_message};
pub use crate::writing::{
    is_writable, what_is_written_is_read_again, words_can_be_written, write_message,
};
