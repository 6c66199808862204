//! Why an act at a telephone is refused.
ghost use Rattle.std.specs.Prelude.{◌≡◌, if◌then◌else◌, Some, None};
ghost use Rattle.machine_rules.specs.declared.refusal.Refusal.TheVariants.{PhoneState};

use crate::refusal::Refusal;

/// Why an act is refused, but for want of memory: the hook state of its line rules it out.
pub fn act_refusal(is_possible: bool) -> Option<Refusal>
    ensures { result ≡ (if is_possible then None else Some PhoneState) }
{
    if is_possible {
        None
    } else {
        Some(Refusal::PhoneState)
    }
}
