//! What every piece of work is done with.

use plain_machine::Setup;
use std::alloc::Global;

/// Where memory comes from, and what the gateway is set up to be.
#[derive(Clone, Copy)]
pub struct Context<'s> {
    pub alloc: Global,
    pub setup: &'s Setup,
}
