//! How many events a line can hold back.
ghost use Rattle.std.specs.Prelude.{◌≡◌};
ghost use Rattle.machine_rules.specs.Rules.{most_quarantined};

/// How many events can be quarantined (this gateway's profile).
pub const MOST_QUARANTINED: usize = 256;

/// For how many events the quarantine of a line has room.
pub fn quarantine_room() -> usize
    ensures { result ≡ most_quarantined }
{
    MOST_QUARANTINED
}
