//! How a turn of serving ends, and which turn is the last.
ghost use Rattle.std.specs.Prelude.{◌≡◌};
ghost use Rattle.machine_rules.specs.Turning.{is_last};

/// How a turn of a gateway that is served ends.
#[derive(Clone, Copy)]
pub enum TurnEnd {
    /// The gateway took the event; so many sends failed.
    Took { send_faults: u64 },
    /// It refused the event.
    Refused,
    /// The wire failed to give one.
    Failed,
    /// The end came.
    Ended,
}

/// Whether a turn is the last: serving goes on after every fault.
pub fn is_last(turn: TurnEnd) -> bool
    ensures { result ≡ is_last turn }
{
    match turn {
        TurnEnd::Took { .. } => false,
        TurnEnd::Refused | TurnEnd::Failed => false,
        TurnEnd::Ended => true,
    }
}
