//! What a line of a gateway is, as it is shown to who asks: for a script, for who types at telephones, and in a trace that is replayed.

ghost use Rattle.std.specs.Prelude.{◌≡◌, ◌≤◌, List, Some};
ghost use Rattle.plain_machine.specs.Event.{GatewayEvent};
ghost use Rattle.plain_machine.specs.Lists.{plain};
ghost use Rattle.gateway_core.specs.Stands.{Stands};
ghost use Rattle.rgw_scripts.specs.Status.{status_of};

use crate::status::LineStatus;
use gateway_core::Gateway;

/// What a line, from 1 to the number of lines, is.
pub fn status_of(gateway: &Gateway, line: u16) -> LineStatus<'_>
    requires low { 1 ≤ line }
    requires high { line ≤ gateway.now.setup.names.lines }
    ensures { (events : List GatewayEvent) → Stands gateway.now events →
        status_of (plain gateway.now.setup events) line ≡ Some result }
{
    LineStatus {
        line,
        hook: gateway.hook(line),
        signals: gateway.signals(line),
        connections: gateway.connections(line),
        lost: gateway.lost(line),
    }
}
