//! What the counts of sends by place are, and since when an answer is owed: laws, whose functions do nothing.
ghost use Rattle.std.specs.Prelude.{◌≡◌, ◌<◌, ◌∷◌, ◌++◌, ℕ, true, false, List, Option, length, slice_index_or, count_by};
ghost use Rattle.std.specs.List.{list_any};
ghost use Rattle.std.specs.declared.net.socket_addr.SocketAddrV4.{SocketAddrV4};
ghost use Rattle.endpoint_names.specs.declared.route.Route.{Route};
ghost use Rattle.gateway_core.specs.Outcomes.{outcomes_of};
ghost use Rattle.gateway_core.specs.declared.sent.SentMessage.{SentMessage};
ghost use Rattle.plain_machine.specs.declared.setup.Setup.{Setup};
ghost use Rattle.plain_machine.specs.Event.{GatewayEvent};
ghost use Rattle.gateway_core.specs.Labelling.{labels_of};
ghost use Rattle.plain_machine.specs.Lists.{machine_after, sent_from};
ghost use Rattle.plain_machine.specs.Machine.{Machine};
ghost use Rattle.plain_machine.specs.Happening.{effect};
ghost use Rattle.small_rules.specs.Counting.{counted};
ghost use Rattle.message_counts.specs.Counting.{is_response, outcomes_from};
ghost use Rattle.message_counts.specs.Places.{with_sends, sends_after, is_sent_to};
ghost use Rattle.message_counts.specs.Waiting.{first_asked, owed_behind, owed_after};

/// The count of each place is the sum of what it was and of the gateway's own commands that go there, up to 18,446,744,073,709,551,615.
pub fn sends_by_place_are_sums()
    ensures { (route : Route SocketAddrV4) (sends : List ℕ) (sent : List SentMessage) (place : ℕ) → place < length sends →
        slice_index_or (with_sends route sends sent) place 0
        ≡ counted (slice_index_or sends place 0) (count_by (is_sent_to route place) sent) }
{}

/// The counts after a list of events are those of all that its events sent.
pub fn a_list_is_counted_by_place_as_all_that_it_sends()
    ensures { (setup : Setup) (m : Machine) (sends : List ℕ) (events : List GatewayEvent) →
        sends_after setup m sends events ≡ with_sends setup.agent.route sends (labels_of (sent_from setup m events)) }
{}

/// After a list of events the agent owes an answer since the first command of the gateway's own at the last event that had a response
/// of the agent's, or behind it. Where none had one, it owes it since before, or else since the first such command of all.
pub fn an_agent_owes_an_answer_since_the_first_command_from_its_last_response_on()
    ensures answered { (setup : Setup) (m : Machine) (since : Option ℕ) (before : List GatewayEvent) (event : GatewayEvent)
        (behind : List GatewayEvent) → list_any is_response (outcomes_of setup (machine_after setup m before) event) ≡ true →
        list_any is_response (outcomes_from setup (effect setup (machine_after setup m before) event).value behind) ≡ false →
        owed_after setup m since (before ++ event ∷ behind)
        ≡ first_asked (labels_of (sent_from setup (machine_after setup m before) (event ∷ behind))) }
    ensures unanswered { (setup : Setup) (m : Machine) (since : Option ℕ) (events : List GatewayEvent) →
        list_any is_response (outcomes_from setup m events) ≡ false →
        owed_after setup m since events ≡ owed_behind since (labels_of (sent_from setup m events)) }
{}
