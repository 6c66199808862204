//! What an answer to an audit tells of a line's hook, and what the exchange is told by that.
ghost use Rattle.std.specs.Prelude.{◌≡◌, ◌||◌, IfOk};
ghost use Rattle.mg_bytes.specs.Case.{same_but_case};
ghost use Rattle.mg_bytes.specs.Items.{items_of};
ghost use Rattle.mgcp_text.specs.Reading.{read_text};
ghost use Rattle.line_control.specs.Hooks.{hook_among, hook_by, was_off, told_by_hook, is_off_hook, notified};

use call_processing::{Phase, Side, Told};
use mg_bytes::{OutOfMemory, list_items, same_no_case};
use mgcp_text::{TextFault, param_at, read_message};
use std::alloc::{AllocError, Global};

// Whether a text is one of these two, but for the case of letters.
fn is_either(text: &[u8], one: &[u8], other: &[u8]) -> bool
    ensures { result ≡ (same_but_case text.now one.now || same_but_case text.now other.now) }
{
    same_no_case(text, one) || same_no_case(text, other)
}

// Whether a telephone is off the hook, as the first event state of a list says it that does (RFC 3435, 2.3.10).
#[tactic(auto, unfolding(crate::specs::Hooks::hook_among))]
fn hook_in(states: &[u8]) -> Option<bool>
    ensures { result ≡ hook_among (items_of states.now) }
{
    for state in list_items(states) {
        if is_either(state, b"L/hd", b"hd") {
            return Some(true);
        }
        if is_either(state, b"L/hu", b"hu") {
            return Some(false);
        }
    }
    None
}

/// What an answer to an audit tells of a hook.
pub(crate) fn audited_hook(alloc: Global, text: &[u8]) -> Result<Option<bool>, OutOfMemory>
    ensures { IfOk result (λ hook. hook ≡ hook_by (read_text text.now)) }
{
    match read_message(alloc, text) {
        Err(TextFault::OutOfMemory) => Err(AllocError),
        Err(TextFault::NoHeader | TextFault::BadVersion { .. } | TextFault::BadBody { .. }) => Ok(
            None,
        ),
        Ok(message) => match param_at(b"ES", message.params()) {
            Some(param) => Ok(hook_in(param.value.as_slice())),
            None => Ok(None),
        },
    }
}

// Whether the exchange has a line in this phase off hook.
fn was_off(phase: Option<Phase>) -> bool
    ensures { result ≡ was_off phase }
{
    match phase {
        None | Some(Phase::Resting) => false,
        Some(Phase::Dialling | Phase::Hearing(_)) => true,
        Some(Phase::InCall(part)) => match part.side {
            Side::Caller => true,
            Side::Called => part.answered,
        },
    }
}

/// What a line in this phase tells by its hook: what is new of that, by what the exchange has it.
pub(crate) fn told_by_hook(hook: Option<bool>, phase: Option<Phase>) -> Told
    ensures { result ≡ told_by_hook hook (was_off phase) }
{
    let was = was_off(phase);
    match hook {
        Some(is_off) => {
            if is_off {
                if was { Told::Flash } else { Told::OffHook }
            } else if was {
                Told::OnHook
            } else {
                Told::Flash
            }
        }
        None => Told::Flash,
    }
}

/// Whether this tells that the handset was lifted.
pub(crate) fn is_off_hook(told: Option<Told>) -> bool
    ensures { result ≡ is_off_hook told }
{
    match told {
        Some(Told::OffHook) => true,
        Some(
            Told::OnHook
            | Told::Flash
            | Told::Dialled(_)
            | Told::TimedOut
            | Told::Restarted
            | Told::Disconnected,
        )
        | None => false,
    }
}

/// What a notification that told this is to the exchange, where an audit had found the handset lifted before, or hadn't.
pub(crate) fn notified(was_found_off: bool, told: Option<Told>) -> Option<Told>
    ensures { result ≡ notified was_found_off told }
{
    if was_found_off && is_off_hook(told) {
        Some(Told::Flash)
    } else {
        told
    }
}
