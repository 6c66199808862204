//! Endpoint names and the names of call agents (RFC 3435, 2.1.2, 2.1.4 and 3.2.1.3). Nothing here takes memory but
//! `write_name`.
//!
//! A host has a route: the addresses that the sends of a message go to, in turn (RFC 3435, 3.5 and 4.3).
#![tactic(auto)]

mod domain;
mod entity;
pub mod examples;
mod fixed;
pub mod laws;
mod name;
mod names;
mod route;
pub mod route_examples;
pub mod route_laws;
mod table;

pub use crate::domain::{LONGEST_DOMAIN, is_domain};
pub use crate::entity::{Entity, LONGEST_ENTITY, LONGEST_LOCAL, read_entity};
pub use crate::fixed::FixedText;
pub use crate::name::{NameFault, Pattern, matches, read_name, write_name};
pub use crate::names::Names;
pub use crate::route::{MOST_ADDRESSES, Route};
pub use crate::table::{Host, MOST_HOSTS, Table, TableFault};
