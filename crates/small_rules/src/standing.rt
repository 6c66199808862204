//! What commands are that arrive.
ghost use Rattle.std.specs.Prelude.{◌≡◌};
ghost use Rattle.small_rules.specs.Rules.{is_executed};

/// What a command is that arrives, by its transaction id (RFC 3435, 3.5.1).
#[derive(Clone, Copy)]
pub enum Standing {
    /// None with its id came before.
    New,
    /// One with its id was executed, and its answer is still to be repeated.
    Repeat,
    /// The answer to one with its id was confirmed.
    Confirmed,
    /// It is new, and there is no room for it.
    Full,
}

/// Whether a command is executed: a new one alone (RFC 3435, 3.5.1, "at most once").
pub fn is_executed(standing: Standing) -> bool
    ensures { result ≡ is_executed standing }
{
    match standing {
        Standing::New => true,
        Standing::Repeat => false,
        Standing::Confirmed | Standing::Full => false,
    }
}
