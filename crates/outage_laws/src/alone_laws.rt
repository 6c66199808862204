//! Laws of a gateway alone, whoever its agent is and whatever the network does.
ghost use Rattle.std.specs.Prelude.{◌≡◌, ◌⊎◌, ◌≤◌, ◌<◌, ◌+◌, ℕ, List, All, Some, true};
ghost use Rattle.retransmission.specs.Flight.{InFlight};
ghost use Rattle.plain_machine.specs.declared.endpoint.Endpoint.{Endpoint};
ghost use Rattle.plain_machine.specs.declared.setup.Setup.{Setup};
ghost use Rattle.plain_machine.specs.Event.{GatewayEvent};
ghost use Rattle.plain_machine.specs.Lists.{are_taken, plain};
ghost use Rattle.plain_machine.specs.Machine.{endpoint_at, opening};
ghost use Rattle.plain_machine.specs.Message.{Begun};
ghost use Rattle.world_laws.specs.Chances.{chances};
ghost use Rattle.world_laws.specs.Copies.{answer_wait};
ghost use Rattle.outage_laws.specs.Alone.{AnnouncesBy, HasBegun, HasResponse, IsSentAt};

/// Until a response to it comes, a command of a line's own, a notification or its announcement, and an announcement of the gateway itself,
/// which is line 0, is sent 0, 500, 1,500, 3,500, 7,500, 11,500, 15,500 and 19,500 ms after its first send, each once the clock is so late;
/// and 23,500 ms after it, it isn't in flight any more (RFC 3435, 3.5.3 and 4.3). It is so at whatever came, from whomever. And a line that
/// has no agent then announces itself: its announcement is in flight, or falls due by the end of its wait at the latest (4.4.7).
pub fn a_command_of_its_own_is_sent_eight_times()
    ensures line { (setup : Setup) (events : List GatewayEvent) (line : ℕ) (b : Begun) → HasBegun setup events line b →
        HasResponse events b.id ⊎ All (λ (wait : ℕ). b.moment + wait ≤ (plain setup events).now →
        IsSentAt setup events line b.text (b.moment + wait)) chances }
    ensures own { (setup : Setup) (events : List GatewayEvent) (b : Begun) → HasBegun setup events 0 b →
        HasResponse events b.id ⊎ All (λ (wait : ℕ). b.moment + wait ≤ (plain setup events).now →
        IsSentAt setup events 0 b.text (b.moment + wait)) chances }
    ensures line_given_up { (setup : Setup) (events : List GatewayEvent) (line : ℕ) (endpoint : Endpoint) (flight : InFlight) →
        endpoint_at (plain setup events).endpoints line ≡ Some endpoint → endpoint.post.pending ≡ Some flight →
        HasResponse events flight.id ⊎ ((plain setup events).now < flight.first + answer_wait) }
    ensures own_given_up { (setup : Setup) (events : List GatewayEvent) (flight : InFlight) →
        (plain setup events).endpoints.own.pending ≡ Some flight →
        HasResponse events flight.id ⊎ ((plain setup events).now < flight.first + answer_wait) }
    ensures line_announces { (setup : Setup) (events : List GatewayEvent) (line : ℕ) (endpoint : Endpoint) →
        are_taken setup (opening setup) events ≡ true → endpoint_at (plain setup events).endpoints line ≡ Some endpoint →
        AnnouncesBy endpoint.post.restart endpoint.post.pending ((plain setup events).now + setup.disconnected_wait) }
{}
