//! What a command will make of the connections of a line.
use crate::connection::Connection;

/// What becomes of the connections of a line: nothing has changed before it is committed.
#[derive(Drop)]
pub enum Plan {
    /// Nothing.
    Stay,
    /// A connection comes to stand at a place. It is the last one that was created.
    Begin {
        place: usize,
        connection: Connection,
    },
    /// The connection at a place is now this.
    Renew {
        place: usize,
        connection: Connection,
    },
    /// The places for which it is true hold nothing any more.
    Empty([bool; 4]),
}

/// What becomes of the connections of a line by a command that they don't refuse, and what is answered.
#[derive(Drop)]
pub struct Planned<A> {
    pub plan: Plan,
    pub answer: A,
}
