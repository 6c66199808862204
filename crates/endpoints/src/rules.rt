//! What is done on one endpoint of a gateway: a line with its post, its encoding and its connections.
//!
//! Each call changes an endpoint in place; what it sends goes behind the messages that there are (RFC 3435, 2.3, 3.5 and
//! 4.4). Where memory is refused half way nothing goes out, and what the endpoint is isn't said: its owner, the store, puts it
//! back (`IsUndoneByItsOwner`). What is done under a post is done so under that of the gateway itself too.

mod acting;
mod announcing;
mod connecting;
mod context;
mod endpoint;
mod falling;
mod notifying;
mod posting;
mod requesting;
mod responding;
mod sending;

pub use crate::rules::acting::acted_on;
pub use crate::rules::announcing::{heard_on, replied_on};
pub use crate::rules::connecting::{News, answer_with};
pub use crate::rules::context::Context;
pub use crate::rules::endpoint::{copy_endpoint, same_endpoint};
pub use crate::rules::falling::{due_on, happened_on, happened_under, post_due};
pub use crate::rules::posting::{Occasion, same_post};
pub use crate::rules::requesting::{deed_on, has_place, refusal_by};
pub use crate::rules::responding::{opened_on, redirected_on, responded_on};
pub use crate::rules::sending::send;
