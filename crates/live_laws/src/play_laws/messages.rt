//! Which messages go out with which datagram.
ghost use Rattle.std.specs.Prelude.{◌∷◌, [], List};
ghost use Rattle.plain_machine.specs.Event.{GatewayEvent};
ghost use Rattle.plain_machine.specs.Happening.{effect};
ghost use Rattle.plain_machine.specs.Lists.{plain};
ghost use Rattle.transmission.specs.declared.output.OutDatagram.{OutDatagram};
ghost use Rattle.gateway_core.specs.GatewayState.{GatewayState};
ghost use Rattle.gateway_core.specs.Stands.{Stands, Took};
ghost use Rattle.live_laws.specs.Handed.{GoesOutIn};

/// Each message of an event stands in one of its datagrams, in their order, and this is handed over with what is told of it: none is
/// left out, and none is told twice, or of another datagram.
pub fn each_message_is_told_with_its_datagram()
    ensures { (was is : GatewayState) (before : List GatewayEvent) (event : GatewayEvent) (outputs : List OutDatagram) → Stands was before
        → Took was (event ∷ []) is [] outputs → GoesOutIn (effect was.setup (plain was.setup before) event).sent outputs is.account.sent }
{}
