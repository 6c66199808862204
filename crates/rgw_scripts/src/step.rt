//! The steps of a script.
use mg_bytes::Text;
use mg_line::Act;
use std::net::SocketAddrV4;

/// A step of a script.
#[derive(Drop)]
pub enum ScriptStep {
    /// A datagram comes to the gateway.
    Datagram { source: SocketAddrV4, bytes: Text },
    /// Something is done at the telephone of a line.
    Phone { line: u16, act: Act },
    /// One tick, this many ms past now.
    Tick { by: u64 },
    /// One tick at this moment.
    At { moment: u64 },
    /// Ticks of 1,000 ms, and one of the rest.
    Wait { by: u64 },
    /// What a line is, is shown.
    Show { line: u16 },
}

/// What a line of a script says where no step is open.
#[derive(Drop)]
pub enum ScriptLine {
    /// Nothing.
    Empty,
    /// That a datagram from this address begins.
    From { source: SocketAddrV4 },
    /// A whole step.
    Whole { step: ScriptStep },
}
