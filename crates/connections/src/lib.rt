//! The connections of a line (RFC 3435, 2.1.3, 2.3.5 to 2.3.7, 2.3.9 and 2.3.11): which stand at its places, and what the
//! commands CreateConnection, ModifyConnection, DeleteConnection and AuditConnection do to them.
//!
//! Nothing here reads a message or knows other lines. Only writers take memory; what a command refuses changes nothing.
#![tactic(auto)]

mod answer;
mod codec;
mod connection;
mod connections;
mod deletion;
pub mod examples;
mod identifier;
pub mod laws;
mod mode;
mod option_items;
mod options;
mod places;
mod plan;

pub use crate::answer::{Audited, Created};
pub use crate::codec::{Codec, Codecs, Encoding, encoding_text, read_encoding};
pub use crate::connection::{Agreement, Change, Connection, Creation};
pub use crate::connections::Connections;
pub use crate::deletion::Deletion;
pub use crate::identifier::write_number;
pub use crate::mode::{Mode, mode_text, read_mode};
pub use crate::options::{CodecChoice, Options, read_options, write_options};
pub use crate::plan::{Plan, Planned};
