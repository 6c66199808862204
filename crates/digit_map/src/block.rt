//! The places of a map, 32 in a block.

/// Some 32 places of a map: a bit for each place, the first the lowest.
#[derive(Clone, Copy)]
pub struct Block {
    /// For each letter the places that take it.
    pub letters: [u32; 17],
    /// The places before a position with a dot.
    pub dots: u32,
    /// The places behind the last position of a string.
    pub ends: u32,
}
