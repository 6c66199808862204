//! What audits report of a line and of a connection (RFC 3435, 2.3.10 and 2.3.11): the items that F asks for, in its order,
//! and the descriptions of a connection behind them.
//!
//! All is borrowed, so nothing changes. `specs/` says what is known under which code, and `laws` says once more what follows.
#![tactic(auto)]

mod connection_items;
mod descriptions;
mod endpoint;
mod event_items;
pub mod examples;
pub mod laws;
mod limit;
mod line_items;
mod picking;
mod report;
pub mod showing_examples;
pub mod showing_laws;
mod word;

pub use crate::endpoint::AuditedEndpoint;
pub use crate::limit::fitting;
pub use crate::report::{connection_report, endpoint_report};
