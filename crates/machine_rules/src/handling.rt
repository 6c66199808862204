//! How a request handles quarantined events: what Q says.
ghost use Rattle.std.specs.Prelude.{◌≡◌};
ghost use Rattle.machine_rules.specs.Rules.{discards, resumes_when_answered};

use packages::{Notifying, Quarantined};

/// Whether a request drops the events that are quarantined when it comes.
pub fn discards(quarantined: Quarantined) -> bool
    ensures { result ≡ discards quarantined }
{
    match quarantined {
        Quarantined::Process => false,
        Quarantined::Discard => true,
    }
}

/// Whether events occur again once the notification is answered: in loop, or where a request came since it began. Else the line
/// waits for a request.
pub fn resumes_when_answered(notifying: Notifying, renewed: bool) -> bool
    ensures { result ≡ resumes_when_answered notifying renewed }
{
    match notifying {
        Notifying::Loop => true,
        Notifying::Step => renewed,
    }
}
