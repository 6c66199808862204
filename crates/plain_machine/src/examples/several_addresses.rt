//! An agent with several addresses (RFC 3435, 3.5 and 4.3), as theorems.
#![tactic(auto, unfolding(crate::proofs::Computing::on_examples))]

ghost use Rattle.std.specs.Prelude.{◌≡◌, ◌++◌, codes, [], ◌∷◌, Ok};
ghost use Rattle.mg_line.specs.declared.phone.Act.TheVariants.{OffHook, OnHook};
ghost use Rattle.endpoint_names.specs.declared.route.Route.TheVariants.{Three, Four};
ghost use Rattle.plain_machine.specs.Event.{datagram, phone, tick};
ghost use Rattle.plain_machine.specs.Setup.{setup_of};
ghost use Rattle.plain_machine.specs.Lists.{outputs_of};
ghost use Rattle.plain_machine.specs.Example.{configuration, local_host, other_host, third_host, fourth_host, second_agent, other_agent, from_agent, to_agent_at, to_other_at, to_second_at, to_third_at, to_fourth_at, two_hosts, with_hosts, sends_with, lost_with, audit, rqnt, ntfy, lifted, lifted_on_2, response, announced, announced_under, naming_other, disconnected};

/// Each sentence at an example.
pub fn each_sentence_has_an_example()
    // A host has the addresses that its configuration says.
    ensures two { setup_of (record configuration { names = (record { name = codes "ca.example.net"; route = two_hosts }) ∷ [] })
        ≡ Ok (with_hosts two_hosts) }
    // So do the announcements of the gateway itself; after 521 the next begins at the first address of whom it names.
    ensures redirected { outputs_of (with_hosts two_hosts) (tick 1 ∷ tick 501 ∷ tick 1501
        ∷ from_agent (codes "521 1\r\nN: ca@ca.example.net\r\n") ∷ tick 2001 ∷ tick 3001 ∷ [])
        ≡ to_agent_at 1 announced ∷ to_agent_at 501 announced ∷ to_second_at 1501 announced
        ∷ to_agent_at 1501 (announced_under 2) ∷ to_agent_at 2001 (announced_under 2) ∷ to_second_at 3001 (announced_under 2) ∷ [] }
    ensures of_a_line { lost_with two_hosts (tick 7500 ∷ naming_other 521 10000001 ∷ [])
        ≡ to_agent_at 6000 (disconnected 10000001) ∷ to_agent_at 6500 (disconnected 10000001)
        ∷ to_second_at 7500 (disconnected 10000001) ∷ to_other_at 7500 (disconnected 10000002) ∷ [] }
    // What is in flight keeps the addresses that its entity had: an entity that is named since changes where the next message
    // goes, and no repeat.
    ensures what_is_in_flight_keeps_its_addresses { sends_with two_hosts (phone 1 OffHook ∷ tick 1500
        ∷ rqnt 7 (codes "aaln/1") (codes "X: A5\r\nN: ca2@[127.0.0.2]:2728\r\n") ∷ tick 4500 ∷ response 200 10000000
        ∷ phone 1 OnHook ∷ [])
        ≡ to_agent_at 1000 lifted ∷ to_agent_at 1500 lifted ∷ to_agent_at 1500 (codes "200 7 OK\r\n")
        ∷ to_second_at 2500 lifted ∷ to_second_at 4500 lifted ∷ to_other_at 4500 (ntfy 10000001 1 (codes "A5") (codes "L/hu")) ∷ [] }
    // An answer, also a stored one, and an acknowledgement go to the source of what they answer, whatever the route.
    ensures answer { sends_with two_hosts (datagram second_agent (audit 7) ∷ datagram other_agent (audit 7) ∷ [])
        ≡ to_second_at 1000 (codes "200 7 OK\r\n") ∷ to_other_at 1000 (codes "200 7 OK\r\n") ∷ [] }
    ensures acknowledgement { sends_with two_hosts (phone 1 OffHook ∷ datagram second_agent (codes "200 10000000\r\nK:\r\n") ∷ [])
        ≡ to_agent_at 1000 lifted ∷ to_second_at 1000 (codes "000 10000000\r\n") ∷ [] }
    // Messages of one moment share a datagram where they go to one address, whoever is there; those that go to different
    // addresses of one agent don't.
    ensures apart { sends_with two_hosts (phone 1 OffHook ∷ tick 2000 ∷ phone 2 OffHook ∷ tick 2500 ∷ [])
        ≡ to_agent_at 1000 lifted ∷ to_agent_at 1500 lifted ∷ to_agent_at 2000 lifted_on_2
        ∷ to_second_at 2500 lifted ∷ to_agent_at 2500 lifted_on_2 ∷ [] }
    ensures together { sends_with two_hosts (rqnt 7 (codes "aaln/2") (codes "X: 0\r\nN: ca2@[127.0.0.2]\r\n")
        ∷ phone 1 OffHook ∷ phone 2 OffHook ∷ tick 2500 ∷ [])
        ≡ to_agent_at 1000 (codes "200 7 OK\r\n") ∷ to_agent_at 1000 lifted ∷ to_second_at 1000 lifted_on_2
        ∷ to_agent_at 1500 lifted ∷ to_second_at 1500 lifted_on_2
        ∷ to_second_at 2500 (lifted ++ codes ".\r\n" ++ lifted_on_2) ∷ [] }
{}

/// A message goes to each address twice; the next, as the announcement of a line that gave up, begins at the first again.
pub fn messages_go_to_the_addresses_in_turn()
    ensures two { sends_with two_hosts (phone 1 OffHook ∷ tick 31000 ∷ [])
        ≡ to_agent_at 1000 lifted ∷ to_agent_at 1500 lifted ∷ to_second_at 2500 lifted ∷ to_second_at 4500 lifted
        ∷ to_agent_at 8500 lifted ∷ to_agent_at 12500 lifted ∷ to_second_at 16500 lifted ∷ to_second_at 20500 lifted
        ∷ to_agent_at 29500 (disconnected 10000001) ∷ to_agent_at 30000 (disconnected 10000001)
        ∷ to_second_at 31000 (disconnected 10000001) ∷ [] }
    ensures three { sends_with (Three local_host other_host third_host) (phone 1 OffHook ∷ tick 24500 ∷ [])
        ≡ to_agent_at 1000 lifted ∷ to_agent_at 1500 lifted ∷ to_second_at 2500 lifted ∷ to_second_at 4500 lifted
        ∷ to_third_at 8500 lifted ∷ to_third_at 12500 lifted ∷ to_agent_at 16500 lifted ∷ to_agent_at 20500 lifted ∷ [] }
    ensures four { sends_with (Four local_host other_host third_host fourth_host) (phone 1 OffHook ∷ tick 24500 ∷ [])
        ≡ to_agent_at 1000 lifted ∷ to_agent_at 1500 lifted ∷ to_second_at 2500 lifted ∷ to_second_at 4500 lifted
        ∷ to_third_at 8500 lifted ∷ to_third_at 12500 lifted ∷ to_fourth_at 16500 lifted ∷ to_fourth_at 20500 lifted ∷ [] }
    ensures next { sends_with two_hosts (phone 1 OffHook ∷ tick 2500 ∷ response 200 10000000
        ∷ rqnt 7 (codes "aaln/1") (codes "X: A5\r\n") ∷ phone 1 OnHook ∷ [])
        ≡ to_agent_at 1000 lifted ∷ to_agent_at 1500 lifted ∷ to_second_at 2500 lifted ∷ to_agent_at 2500 (codes "200 7 OK\r\n")
        ∷ to_agent_at 2500 (ntfy 10000001 1 (codes "A5") (codes "L/hu")) ∷ [] }
{}
