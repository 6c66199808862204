//! A gateway with the outputs of its last event, which outlive the call that gave it the event.
ghost use Rattle.std.specs.Prelude.{◌≡◌, ◌≢◌, ◌≤◌, ◌∷◌, [], List};
ghost use Rattle.plain_machine.specs.Event.{GatewayEvent, event_of};
ghost use Rattle.plain_machine.specs.Lists.{plain};
ghost use Rattle.plain_machine.specs.Refusing.{Ends};
ghost use Rattle.gateway_core.specs.Stands.{Stands, Took};
ghost use Rattle.rgw_c.specs.Numbers.{refusal_in};

use crate::numbers::{OK, number_of};
use gateway_core::{Event, Gateway, Outputs};

/// A gateway, and what it sent at the last event that it took: nothing before any.
#[derive(Drop)]
pub struct Instance {
    pub gateway: Gateway,
    pub outputs: Outputs,
}

impl Instance {
    /// One event, and the number of how it went. A refused one leaves the outputs of the event before it.
    pub fn step(&mut self, event: Event<'_>) -> u32
        ensures ok { result ≡ OK → Took self.old.gateway (event_of event.entry ∷ []) self.new.gateway [] self.new.outputs }
        ensures stayed { result ≢ OK → Took self.old.gateway [] self.new.gateway [] [] }
        ensures kept { result ≢ OK → self.new.outputs ≡ self.old.outputs }
        ensures few { result ≤ 5 }
        ensures ends { (before : List GatewayEvent) → Stands self.old.gateway before →
            Ends (plain self.old.gateway.setup before) (event_of event.entry) (refusal_in result) }
    {
        match self.gateway.step(event) {
            Ok(outputs) => {
                self.outputs = outputs;
                OK
            }
            Err(refusal) => number_of(refusal),
        }
    }
}
