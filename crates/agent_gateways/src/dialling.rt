//! How the lines of a board are dialled, which stays as it was at the start.
ghost use Rattle.std.specs.Prelude.{◌≡◌, IfOk};

use call_processing::NumberPlan;
use mg_bytes::{OutOfMemory, Text};
use std::alloc::{AllocError, Global};

/// The numbers of the lines, in their order, and the map by which digits are collected. Where no calls are routed there are none.
#[derive(Drop)]
pub(crate) struct Dialling {
    pub(crate) plan: NumberPlan,
    pub(crate) map: Text,
}

impl Dialling {
    /// Lines with these numbers, and this map. An error is for want of memory only.
    pub(crate) fn of(
        alloc: Global,
        plan: NumberPlan,
        map: Text,
    ) -> Result<Box<Dialling>, OutOfMemory>
        ensures { IfOk result (λ dialling. (dialling.value.plan ≡ plan) × (dialling.value.map ≡ map)) }
    {
        match Box::new(alloc, Dialling { plan, map }) {
            Ok(dialling) => Ok(dialling),
            Err(_) => Err(AllocError),
        }
    }
}
