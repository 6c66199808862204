//! When something happens.

/// What clocks say.
#[derive(Clone, Copy)]
pub struct Now {
    /// The moment to which ticks have come, in ms.
    pub clock: u64,
    /// Microseconds since 1970 began, in UTC. It may be set meanwhile, on or back.
    pub time: u64,
}
