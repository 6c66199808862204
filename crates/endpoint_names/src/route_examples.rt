//! Worked examples of the definitions, as theorems: each sentence of a definition has one that a slip in it breaks.
#![tactic(auto, unfolding(crate::proofs::RouteComputing::on_examples))]

ghost use Rattle.std.specs.Prelude.{◌≡◌, [], ◌∷◌, Some, None};
ghost use Rattle.endpoint_names.specs.declared.route.Route.TheVariants.{One, Two, Three, Four};
ghost use Rattle.endpoint_names.specs.Route.{place_of, with_port};
ghost use Rattle.endpoint_names.specs.RouteExample.{local_address, agent_at, numbers, route_of_numbers, first_number, number_at, eight_sends};

/// Each sentence at an example.
pub fn each_sentence_has_an_example()
    // Each address is tried twice, in their order, and after the last the first again: 1 to 4 addresses, and eight sends.
    ensures addresses_are_tried_in_turn_one { eight_sends (One 1) ≡ 1 ∷ 1 ∷ 1 ∷ 1 ∷ 1 ∷ 1 ∷ 1 ∷ 1 ∷ [] }
    ensures addresses_are_tried_in_turn_two { eight_sends (Two 1 2) ≡ 1 ∷ 1 ∷ 2 ∷ 2 ∷ 1 ∷ 1 ∷ 2 ∷ 2 ∷ [] }
    ensures addresses_are_tried_in_turn_three { eight_sends (Three 1 2 3) ≡ 1 ∷ 1 ∷ 2 ∷ 2 ∷ 3 ∷ 3 ∷ 1 ∷ 1 ∷ [] }
    ensures addresses_are_tried_in_turn_four { eight_sends (Four 1 2 3 4) ≡ 1 ∷ 1 ∷ 2 ∷ 2 ∷ 3 ∷ 3 ∷ 4 ∷ 4 ∷ [] }
    // Two of them may be equal: each has its turn.
    ensures equal { eight_sends (Three 1 1 2) ≡ 1 ∷ 1 ∷ 1 ∷ 1 ∷ 2 ∷ 2 ∷ 1 ∷ 1 ∷ [] }
    // It goes on so for ever.
    ensures later { number_at (Four 1 2 3 4) 8 ≡ 1 }
    ensures much_later { number_at (Three 1 2 3) 1000000 ≡ 3 }
    // The place of a send among so many addresses, both counted from 0.
    ensures sends_have_places_begins { place_of 4 0 ≡ 0 }
    ensures repeat { place_of 4 1 ≡ 0 }
    ensures next { place_of 4 2 ≡ 1 }
    ensures last { place_of 4 7 ≡ 3 }
    ensures again { place_of 3 6 ≡ 0 }
    ensures alone { place_of 1 7 ≡ 0 }
    // A route has 1 to 4 addresses, in the order in which they are given.
    ensures none { route_of_numbers [] ≡ None }
    ensures routes_have_one_to_four_addresses_one { route_of_numbers (1 ∷ []) ≡ Some (One 1) }
    ensures routes_have_one_to_four_addresses_two { route_of_numbers (2 ∷ 1 ∷ []) ≡ Some (Two 2 1) }
    ensures routes_have_one_to_four_addresses_three { route_of_numbers (3 ∷ 1 ∷ 2 ∷ []) ≡ Some (Three 3 1 2) }
    ensures routes_have_one_to_four_addresses_four { route_of_numbers (4 ∷ 3 ∷ 1 ∷ 2 ∷ []) ≡ Some (Four 4 3 1 2) }
    ensures five { route_of_numbers (1 ∷ 1 ∷ 1 ∷ 1 ∷ 1 ∷ []) ≡ None }
    ensures in_order { numbers (Four 4 3 1 2) ≡ 4 ∷ 3 ∷ 1 ∷ 2 ∷ [] }
    ensures routes_have_one_to_four_addresses_begins { first_number (Four 4 3 1 2) ≡ 4 }
    // All addresses have one port.
    ensures addresses_share_a_port_one { with_port 2727 (One (local_address 1)) ≡ One (agent_at 1) }
    ensures addresses_share_a_port_two { with_port 2727 (Two (local_address 2) (local_address 1)) ≡ Two (agent_at 2) (agent_at 1) }
    ensures addresses_share_a_port_three { with_port 2727 (Three (local_address 3) (local_address 1) (local_address 2))
        ≡ Three (agent_at 3) (agent_at 1) (agent_at 2) }
    ensures addresses_share_a_port_four { with_port 2727 (Four (local_address 4) (local_address 3) (local_address 1) (local_address 2))
        ≡ Four (agent_at 4) (agent_at 3) (agent_at 1) (agent_at 2) }
{}
