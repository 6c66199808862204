//! Pauses: what comes to an end that was stopped.
ghost use Rattle.std.specs.Prelude.{◌≡◌, nat_lt};

/// Whether the clock of an end that was stopped is too far behind for what came meanwhile to be taken at the moment before, where it
/// may be no further behind than this, both in ms: later an id may be that of another transaction (RFC 3435, 3.2.1.2).
pub fn is_too_far_behind(behind: u64, furthest: u64) -> bool
    ensures { result ≡ nat_lt furthest behind }
{
    behind > furthest
}
