//! What the lines of a gateway lost.
ghost use Rattle.std.specs.Prelude.{◌≡◌, List};
ghost use Rattle.plain_machine.specs.Event.{GatewayEvent};
ghost use Rattle.plain_machine.specs.Lists.{plain};
ghost use Rattle.gateway_core.specs.Stands.{Stands};
ghost use Rattle.telephone_control.specs.Losses.{lost_of_lines};

use gateway_core::Gateway;

/// How many events of all lines were lost.
pub fn lost_of(gateway: &Gateway) -> u64
    ensures { (events : List GatewayEvent) → Stands gateway.now events →
        result ≡ lost_of_lines (plain gateway.now.setup events) gateway.now.setup.names.lines }
{
    let mut lost: u64 = 0;
    for before in 0..gateway.lines() {
        lost = lost.saturating_add(gateway.lost(before + 1));
    }
    lost
}
