//! What came of serving a wire.

/// What came of serving a wire. A count stays at its greatest value, 18,446,744,073,709,551,615.
#[derive(Clone, Copy, PartialEq, Eq)]
pub struct Served {
    /// The turns, the one at which the end came among them.
    pub turns: u64,
    /// The inputs that the gateway refused.
    pub refused: u64,
    /// How often the wire failed to give an input.
    pub receive_faults: u64,
    /// How often the wire failed to take a datagram.
    pub send_faults: u64,
    /// Whether the end came.
    pub ended: bool,
}
