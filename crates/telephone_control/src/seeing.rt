//! What is seen of a line of a gateway.
ghost use Rattle.std.specs.Prelude.{◌≡◌, ◌≤◌, List, Some, IfOk};
ghost use Rattle.plain_machine.specs.Event.{GatewayEvent};
ghost use Rattle.plain_machine.specs.Lists.{plain};
ghost use Rattle.plain_machine.specs.Machine.{port_of};
ghost use Rattle.gateway_core.specs.Stands.{Stands};
ghost use Rattle.telephone_control.specs.Seeing.{highest_port, seen_of};

use gateway_core::Gateway;
use line_changes::{SeenLine, seen_connections};
use mg_bytes::OutOfMemory;
use plain_machine::Setup;
use std::alloc::Global;

// The port at which the first connection of a line is received. A gateway has one for each of its lines; for others, where it is no
// port, 0.
fn first_port(setup: &Setup, line: u16) -> u16
    requires low { 1 ≤ line }
    ensures { port_of setup.now line ≤ highest_port → result ≡ port_of setup.now line }
{
    u16::try_from(u64::from(setup.media_base) + 8 * (u64::from(line) - 1)).unwrap_or(0)
}

/// What is seen of a line, from 1 to the number of lines. Its only error is want of memory.
#[tactic(auto, using(crate::proofs::SeeingLemmas::port_fits))]
pub fn seen_line(alloc: Global, gateway: &Gateway, line: u16) -> Result<SeenLine, OutOfMemory>
    requires low { 1 ≤ line }
    requires high { line ≤ gateway.now.setup.names.lines }
    ensures { (events : List GatewayEvent) → Stands gateway.now events → IfOk result (λ seen.
        seen_of gateway.now.setup (plain gateway.now.setup events) line ≡ Some seen) }
{
    let setup = gateway.setup();
    let port = first_port(setup, line);
    let places = gateway.connections(line);
    let connections = seen_connections(alloc, setup.media_address, port, places)?;
    Ok(SeenLine {
        hook: gateway.hook(line),
        signals: gateway.signals(line),
        connections,
    })
}
