//! How far quarantined events occur.
ghost use Rattle.std.specs.Prelude.{◌≡◌};
ghost use Rattle.machine_rules.specs.Rules.{ends_drain};

/// Whether no more of the quarantined events occur after one of them, by what it told: the first that notifies ends it.
pub fn ends_drain<T>(told: &Option<T>) -> bool
    ensures { result ≡ ends_drain told.now }
{
    match told {
        None => false,
        Some(_) => true,
    }
}
