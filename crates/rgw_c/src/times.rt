//! The clock of a gateway, and when something falls due.
ghost use Rattle.std.specs.Prelude.{◌≡◌, ◌≢◌, ◌<◌, ◌^◌, List, IfSome, option_map, Some, None};
ghost use Rattle.plain_machine.specs.Event.{GatewayEvent};
ghost use Rattle.plain_machine.specs.Falling.{first_due};
ghost use Rattle.plain_machine.specs.Lists.{plain};
ghost use Rattle.gateway_core.specs.Stands.{Stands};
ghost use Rattle.rgw_c.specs.Telling.{open_number, due_number};

use crate::handle::{Handle, put, take};
use crate::numbers::{NOT_OPEN, NOTHING_DUE, OK};
use gateway_core::Gateway;
use std::alloc::Global;

/// The moment of the last tick that was taken, in ms; 0 before any.
#[unsafe(no_mangle)]
pub extern "C" fn rgw_now_nonnull(alloc: Global, handle: &mut Handle, moment: &mut u64) -> u32
    ensures number { result ≡ open_number handle.old.held }
    ensures now { IfSome handle.old.held (λ is. (events : List GatewayEvent) → Stands is.gateway events →
        moment.new ≡ (plain is.gateway.setup events).now) }
    ensures below { result ≡ OK → moment.new < 2 ^ 62 }
    ensures left { result ≢ OK → moment.new ≡ moment.old }
    ensures kept { handle.new.held ≡ handle.old.held }
{
    let Some(instance) = take(handle, alloc) else {
        return NOT_OPEN;
    };
    *moment = instance.gateway.now();
    put(handle, alloc, instance);
    OK
}

// Tells when something falls due next at a gateway, if anything does.
fn tell_due(gateway: &Gateway, moment: &mut u64) -> u32
    ensures number { (events : List GatewayEvent) → Stands gateway.now events →
        result ≡ due_number (option_map (λ item. item.moment) (first_due (plain gateway.now.setup events).endpoints)) }
    ensures due { result ≡ OK → (events : List GatewayEvent) → Stands gateway.now events →
        option_map (λ item. item.moment) (first_due (plain gateway.now.setup events).endpoints) ≡ Some moment.new }
    ensures left { result ≢ OK → moment.new ≡ moment.old }
{
    match gateway.next_due() {
        Some(due) => {
            *moment = due;
            OK
        }
        None => NOTHING_DUE,
    }
}

/// The moment, in ms, at which something falls due next. Until then no tick does anything but move the clock.
#[unsafe(no_mangle)]
pub extern "C" fn rgw_next_due_nonnull(alloc: Global, handle: &mut Handle, moment: &mut u64) -> u32
    ensures closed { handle.old.held ≡ None → result ≡ NOT_OPEN }
    ensures number { IfSome handle.old.held (λ is. (events : List GatewayEvent) → Stands is.gateway events →
        result ≡ due_number (option_map (λ item. item.moment) (first_due (plain is.gateway.setup events).endpoints))) }
    ensures due { result ≡ OK → IfSome handle.old.held (λ is. (events : List GatewayEvent) → Stands is.gateway events →
        option_map (λ item. item.moment) (first_due (plain is.gateway.setup events).endpoints) ≡ Some moment.new) }
    ensures left { result ≢ OK → moment.new ≡ moment.old }
    ensures kept { handle.new.held ≡ handle.old.held }
{
    let Some(instance) = take(handle, alloc) else {
        return NOT_OPEN;
    };
    let number = tell_due(&instance.gateway, moment);
    put(handle, alloc, instance);
    number
}
