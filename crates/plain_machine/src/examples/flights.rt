//! What is said of commands in flight and of announcements (RFC 3435, 3.5, 4.4.1, 4.4.6 and 4.4.7), as theorems.
#![tactic(auto, unfolding(crate::proofs::Computing::on_examples))]

ghost use Rattle.std.specs.Prelude.{codes, [], ◌∷◌, None, Some, false, true};
ghost use Rattle.endpoint_names.specs.declared.route.Route.TheVariants.{Two};
ghost use Rattle.retransmission.specs.Flight.{sent_first};
ghost use Rattle.machine_rules.specs.declared.state.State.TheVariants.{Normal, Notification, Lockstep};
ghost use Rattle.retransmission.specs.declared.restart.Restart.TheVariants.{Waiting, Announced, Serving};
ghost use Rattle.plain_machine.specs.Effect.{silently};
ghost use Rattle.plain_machine.specs.Message.{resent};
ghost use Rattle.plain_machine.specs.Flights.{Waits, HasOwnId, InOrderBy, IsInOrder, OwnInOrderBy, OwnIsInOrder, IsClosed, InOrderWhile, AreInOrder, BeginsNothing, IsSame, Carries};
ghost use Rattle.plain_machine.specs.Machine.{opening_endpoint, opening_own, with_own};
ghost use Rattle.plain_machine.specs.Example.{example, agent, other_agent, agent_route, other_route, announced, announced_under, announcing, lifted, own_at, flying, ending, waiting, ready_own, ready_post, ready_endpoint, lost_endpoint, first_endpoints, endpoints_announcing, disconnected, lifted_again, announced_again};

/// Each sentence at an example.
pub fn each_sentence_has_an_example()
    // While a command of a line is in flight, under an id of that line, the line waits for the answer.
    ensures a_line_waits_while_its_command_flies_flies { Waits 1 (record (lost_endpoint 6000)
        { post = flying 1 10000000 lifted (Some 1500) }) }
    ensures a_line_waits_while_its_command_flies_greatest { Waits 1 (record (lost_endpoint 6000)
        { post = flying 0 19999999 lifted (Some 1500) }) }
    ensures normal { Waits 1 (ending None [] (Some 1500)) → ⊥ }
    ensures of_another { Waits 2 (record (lost_endpoint 6000) { post = flying 1 10000000 lifted (Some 1500) }) → ⊥ }
    ensures a_line_waits_while_its_command_flies_nothing { Waits 1 (ready_endpoint example 1) }
    // What the gateway itself has in flight is under an id of its own.
    ensures own { HasOwnId (announcing (Some 1500)) }
    ensures the_gateway_has_ids_of_its_own_greatest { HasOwnId (flying 1 9999999 (announced_under 9999999) (Some 1500)) }
    ensures of_a_line { HasOwnId (flying 2 10000000 lifted (Some 1500)) → ⊥ }
    ensures the_gateway_has_ids_of_its_own_nothing { HasOwnId (announcing None) }
    // While the announcement of a line waits nothing is in flight, and the line waits; while it is on its way it is in flight.
    // Otherwise the line waits where something is in flight.
    ensures what_is_in_flight_of_a_line_agrees_with_its_announcement_waits { InOrderBy (Waiting 6000) 1 None Notification }
    ensures waits_normal { InOrderBy (Waiting 6000) 1 None Normal → ⊥ }
    ensures what_is_in_flight_of_a_line_agrees_with_its_announcement_waits_with { InOrderBy (Waiting 6000) 1
        (Some (sent_first 10000000 agent_route lifted 1000)) Notification → ⊥ }
    ensures what_is_in_flight_of_a_line_agrees_with_its_announcement_announced { InOrderBy Announced 1
        (Some (sent_first 10000001 agent_route lifted 1000)) Notification }
    ensures announced_normal { InOrderBy Announced 1 (Some (sent_first 10000001 agent_route lifted 1000)) Normal → ⊥ }
    ensures what_is_in_flight_of_a_line_agrees_with_its_announcement_announced_without { InOrderBy Announced 1 None Notification → ⊥ }
    ensures announced_by_another { InOrderBy Announced 2 (Some (sent_first 10000001 agent_route lifted 1000)) Notification → ⊥ }
    ensures what_is_in_flight_of_a_line_agrees_with_its_announcement_serves { InOrderBy Serving 1
        (Some (sent_first 10000000 agent_route lifted 1000)) Notification }
    ensures serves_normal { InOrderBy Serving 1 None Normal }
    ensures serves_in_lockstep { InOrderBy Serving 1 (Some (sent_first 10000000 agent_route lifted 1000)) Lockstep → ⊥ }
    ensures serves_another { InOrderBy Serving 2 (Some (sent_first 10000000 agent_route lifted 1000)) Notification → ⊥ }
    ensures endpoint { IsInOrder 1 (lost_endpoint 6000) }
    ensures endpoint_with { IsInOrder 1 (waiting 6000 (record (lost_endpoint 6000) { post = flying 1 10000000 lifted (Some 1500) })) → ⊥ }
    ensures endpoint_normal { IsInOrder 1 (waiting 6000 (ready_endpoint example 1)) → ⊥ }
    // The gateway itself sends nothing but announcements.
    ensures what_is_in_flight_of_the_gateway_is_its_announcement_waits { OwnInOrderBy (Waiting 1) None }
    ensures what_is_in_flight_of_the_gateway_is_its_announcement_waits_with { OwnInOrderBy (Waiting 1)
        (Some (sent_first 1 agent_route announced 1000)) → ⊥ }
    ensures what_is_in_flight_of_the_gateway_is_its_announcement_announced { OwnInOrderBy Announced
        (Some (sent_first 1 agent_route announced 1000)) }
    ensures what_is_in_flight_of_the_gateway_is_its_announcement_announced_without { OwnInOrderBy Announced None → ⊥ }
    ensures announced_by_a_line { OwnInOrderBy Announced (Some (sent_first 10000001 agent_route (disconnected 10000001) 1000)) → ⊥ }
    ensures what_is_in_flight_of_the_gateway_is_its_announcement_serves { OwnInOrderBy Serving None }
    ensures serves_with { OwnInOrderBy Serving (Some (sent_first 1 agent_route announced 1000)) → ⊥ }
    ensures what_is_in_flight_of_the_gateway_is_its_announcement_opening { OwnIsInOrder (opening_own example) }
    ensures what_is_in_flight_of_the_gateway_is_its_announcement_flies { OwnIsInOrder (announcing (Some 1500)) }
    ensures still_flies { OwnIsInOrder (flying 2 1 announced (Some 1500)) → ⊥ }
{}

/// Each sentence at an example.
pub fn further_sentences_have_examples()
    // Until the gateway serves its lines are closed, and from then on in order.
    ensures lines_are_closed_until_the_gateway_serves_opening { IsClosed (opening_endpoint example 1) }
    ensures lines_are_closed_until_the_gateway_serves_waits { IsClosed (waiting 6000 (opening_endpoint example 1)) → ⊥ }
    ensures lines_are_closed_until_the_gateway_serves_flies { IsClosed (record (opening_endpoint example 1)
        { post = flying 1 10000000 lifted (Some 1500) }) → ⊥ }
    ensures open { IsClosed (ready_endpoint example 1) → ⊥ }
    ensures lost { InOrderWhile true 1 (lost_endpoint 6000) }
    ensures ready { InOrderWhile true 1 (ready_endpoint example 1) }
    ensures flies_normal { InOrderWhile true 1 (ending None [] (Some 1500)) → ⊥ }
    ensures closed { InOrderWhile false 1 (opening_endpoint example 1) }
    ensures not_closed { InOrderWhile false 1 (ready_endpoint example 1) → ⊥ }
    ensures not_lost { InOrderWhile false 1 (lost_endpoint 6000) → ⊥ }
    // A line begins nothing where its command in flight, if there is one, stays, and nothing is sent.
    ensures stays { BeginsNothing (ending None [] (Some 1500)) (silently (ending (Some 5000) [] (Some 1500))) }
    ensures answered { BeginsNothing (ending None [] (Some 1500)) (silently (ready_endpoint example 1)) → ⊥ }
    ensures begins { BeginsNothing (ready_endpoint example 1) (silently (ending None [] (Some 1500))) → ⊥ }
    ensures sends { BeginsNothing (ending None [] (Some 1500))
        (record { value = ending None [] (Some 1500); sent = own_at 1 1500 (resent (lifted_again 0 1500)) ∷ [] }) → ⊥ }
    // A message is the same where its id, its route and its bytes are, whenever it was sent and is due again.
    ensures same { IsSame (sent_first 10000000 agent_route lifted 1000)
        (record { id = 10000000; route = agent_route; text = lifted; first = 1000; repeats = 1; due = 2500 }) }
    ensures other_id { IsSame (sent_first 10000000 agent_route lifted 1000) (sent_first 10000001 agent_route lifted 1000) → ⊥ }
    ensures a_message_stays_the_same_other_address { IsSame (sent_first 10000000 agent_route lifted 1000)
        (sent_first 10000000 other_route lifted 1000) → ⊥ }
    ensures more_addresses { IsSame (sent_first 10000000 agent_route lifted 1000)
        (sent_first 10000000 (Two agent other_agent) lifted 1000) → ⊥ }
    ensures a_message_stays_the_same_other_text { IsSame (sent_first 10000000 agent_route lifted 1000)
        (sent_first 10000000 agent_route announced 1000) → ⊥ }
    // What is sent is a message in flight where it goes to the address for the send's number, has the message's bytes and is a
    // command of that line's own.
    ensures carries { Carries 1 1 (sent_first 10000000 agent_route lifted 1000) (own_at 1 1500 (resent (lifted_again 0 1500))) }
    ensures of_the_gateway { Carries 0 1 (sent_first 1 agent_route announced 1000) (own_at 0 1500 (resent (announced_again 0 1500))) }
    ensures what_is_sent_is_in_flight_other_address { Carries 1 1 (sent_first 10000000 other_route lifted 1000)
        (own_at 1 1500 (resent (lifted_again 0 1500))) → ⊥ }
    ensures in_turn { Carries 1 2 (sent_first 10000000 (Two other_agent agent) lifted 1000) (own_at 1 2500 (resent (lifted_again 0 1500))) }
    ensures out_of_turn { Carries 1 1 (sent_first 10000000 (Two other_agent agent) lifted 1000)
        (own_at 1 1500 (resent (lifted_again 0 1500))) → ⊥ }
    ensures what_is_sent_is_in_flight_other_text { Carries 1 1 (sent_first 10000000 agent_route lifted 1000)
        (own_at 1 1500 (resent (announced_again 0 1500))) → ⊥ }
    ensures other_line { Carries 1 1 (sent_first 10000000 agent_route lifted 1000) (own_at 2 1500 (resent (lifted_again 0 1500))) → ⊥ }
{}

/// Endpoints are in order where the gateway itself is, and each of its lines.
pub fn each_line_has_its_order()
    ensures own { AreInOrder (with_own (first_endpoints []) (flying 2 1 announced (Some 1500))) → ⊥ }
    ensures line { AreInOrder (first_endpoints (ready_endpoint example 1 ∷ ending None [] (Some 1500) ∷ [])) → ⊥ }
    ensures open { AreInOrder (endpoints_announcing (ready_endpoint example 1 ∷ [])) → ⊥ }
{}
