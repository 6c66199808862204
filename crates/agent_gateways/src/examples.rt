//! Worked examples of the definitions, as theorems: each sentence of a definition has one that a slip in it breaks.
#![tactic(auto, unfolding(crate::proofs::Computing::on_examples))]

ghost use Rattle.std.specs.Prelude.{◌≡◌, ◌++◌, [], ◌∷◌, ℕ, List, length, map, true, false, Option, Some, None, codes};
ghost use Rattle.std.specs.Global.{Box};
ghost use Rattle.agent_config.specs.declared.config.AgentConfig.{AgentConfig};
ghost use Rattle.agent_config.specs.declared.config.GatewayConfig.{GatewayConfig};
ghost use Rattle.line_control.specs.declared.office.Office.{Office};
ghost use Rattle.line_control.specs.declared.worklist.Worklist.{Worklist};
ghost use Rattle.agent_gateways.specs.declared.gateway.Gateway.{Gateway};
ghost use Rattle.agent_gateways.specs.AgentClock.{first_id, tick_to};
ghost use Rattle.agent_gateways.specs.Announcing.{is_new, last_new};
ghost use Rattle.agent_gateways.specs.Boards.{settling_in, taking_in, woken_at, WakesIn};
ghost use Rattle.agent_gateways.specs.Flights.{end_of_time, most_steps, falls, over_by};
ghost use Rattle.agent_gateways.specs.Meaning.{meant};
ghost use Rattle.agent_gateways.specs.Opening.{begins_as, gateways_from, known_as, lines_of, BoardOf};
ghost use Rattle.agent_gateways.specs.Opening.{new_station, stations_behind, stations_from};
ghost use Rattle.agent_gateways.specs.Typed.{typed_from, typed_text, typed_in};
ghost use Rattle.agent_gateways.specs.Wakes.{first_moment, first_woken, behind_woken};
ghost use Rattle.agent_gateways.specs.Example.{wake_at, issued};
ghost use Rattle.agent_gateways.specs.declared.switchboard.Switchboard.{Switchboard};
ghost use Rattle.endpoint_names.specs.declared.name.Pattern.TheVariants.{One};
ghost use Rattle.endpoint_names.specs.Name.{name_text};
ghost use Rattle.endpoint_names.specs.declared.route.Route.TheVariants as routes;
ghost use Rattle.endpoint_names.specs.RouteExample.{agent_at};
ghost use Rattle.call_agent.specs.AgentStands.{AgentStands};

/// Each sentence at an example.
pub fn what_is_typed_is_a_message()
    // What is typed has the line ends of a message.
    ensures escaped { typed_from false (codes "K: 1\\nX: 2") ≡ codes "K: 1\r\nX: 2" }
    ensures feed { typed_from false (codes "K: 1\nX: 2") ≡ codes "K: 1\r\nX: 2" }
    ensures what_is_typed_becomes_a_message_whole { typed_from false (codes "K: 1\r\nX: 2") ≡ codes "K: 1\r\nX: 2" }
    ensures other { typed_from false (codes "a\\b") ≡ codes "a\\b" }
    ensures bare { typed_from false (codes "n") ≡ codes "n" }
    ensures two { typed_from false (codes "a\\\\b") ≡ codes "a\\\\b" }
    ensures last_of_two { typed_from false (codes "a\\\\nb") ≡ codes "a\\\r\nb" }
    ensures what_is_typed_becomes_a_message_last { typed_from false (codes "a\\") ≡ codes "a\\" }
    ensures feed_behind { typed_from true (codes "\n") ≡ codes "\\\r\n" }
    ensures return_behind { typed_from true (codes "\r\n") ≡ codes "\\\r\n" }
    ensures what_is_typed_becomes_a_message_alone { typed_text (codes "AUEP aaln/1") [] ≡ codes "AUEP aaln/1\r\n" }
    ensures open_line { typed_text (codes "RQNT aaln/1") (codes "X: 1") ≡ codes "RQNT aaln/1\r\nX: 1\r\n" }
    ensures whole_lines { typed_text (codes "RQNT aaln/1") (codes "X: 1\n") ≡ codes "RQNT aaln/1\r\nX: 1\r\n" }
    // A command begins with a verb and a name alone.
    ensures a_command_is_a_verb_and_a_name_alone { typed_in (codes "AUEP aaln/1") ≡ Some (codes "AUEP", (codes "aaln/1", [])) }
    ensures with_lines { typed_in (codes "RQNT aaln/1\r\nX: 1\r\n") ≡ Some (codes "RQNT", (codes "aaln/1", codes "X: 1\r\n")) }
    ensures verb_alone { typed_in (codes "AUEP\r\n") ≡ None }
    ensures more { typed_in (codes "AUEP 1 aaln/1") ≡ None }
    ensures a_command_is_a_verb_and_a_name_nothing { typed_in [] ≡ None }
    ensures empty { typed_in (codes "\r\nAUEP aaln/1") ≡ None }
{}

/// Each sentence at an example.
pub fn what_flies_is_over_in_time()
    // A command is repeated by the rules of its agent, and given up behind its seventh repeat; a final response under its id ends it.
    ensures not_due { (falls most_steps issued 499) ≡ (false, issued) }
    ensures a_command_is_over_as_its_agent_has_it_first { (falls most_steps issued 500).1.repeats ≡ 1 }
    ensures several { (falls most_steps issued 7500).1.repeats ≡ 4 }
    ensures in_flight { (falls most_steps issued 23499).0 ≡ false }
    ensures given_up { (falls most_steps issued 23500).0 ≡ true }
    ensures waits { over_by None issued 499 ≡ (false, issued) }
    ensures answered { over_by (Some (7, 200)) issued 100 ≡ (true, issued) }
    ensures a_command_is_over_as_its_agent_has_it_another { over_by (Some (8, 200)) issued 100 ≡ (false, issued) }
    ensures provisional { (over_by (Some (7, 100)) issued 100).1.due ≡ 5100 }
    ensures not_over { (over_by (Some (7, 100)) issued 100).0 ≡ false }
    ensures too_late { over_by (Some (7, 200)) issued end_of_time ≡ (false, issued) }
    // A clock goes on by a second at most, and an agent's first id is one of the first 900 million.
    ensures here { tick_to 100 700 ≡ 700 }
    ensures far { tick_to 100 5000 ≡ 1100 }
    ensures clocks_go_on_by_a_second_first { first_id 0 ≡ 1 }
    ensures clocks_go_on_by_a_second_last { first_id 899999999 ≡ 900000000 }
    ensures again { first_id 900000000 ≡ 1 }
{}

/// Each sentence at an example.
pub fn lines_are_settled_or_taken()
    // An exchange settles its own lines; a gateway's lines are taken where there is one.
    ensures no_exchange { settling_in None ≡ 0 }
    ensures all { (office : Box Office) → office.value.worklist.settles_all ≡ true
        → settling_in (Some office) ≡ length office.value.cares.items }
    ensures some { (office : Box Office) → office.value.worklist.settles_all ≡ false
        → settling_in (Some office) ≡ length office.value.worklist.settled.items }
    ensures no_gateway { (notifying : Worklist) → taking_in None notifying ≡ 0 }
    ensures all_of_gateway { (gateway : Gateway) → (notifying : Worklist) → notifying.settles_all ≡ true
        → taking_in (Some gateway) notifying ≡ gateway.lines }
    ensures some_of_gateway { (gateway : Gateway) → (notifying : Worklist) → notifying.settles_all ≡ false
        → taking_in (Some gateway) notifying ≡ length notifying.settled.items }
{}

/// Lines are woken in the order of their moments, each at its own.
pub fn lines_are_woken_in_their_order()
    ensures first { first_moment (wake_at 7 0 ∷ wake_at 9 1 ∷ []) ≡ Some 7 }
    ensures none { first_moment [] ≡ None }
    ensures now { first_woken 7 (wake_at 7 0 ∷ wake_at 9 1 ∷ []) ≡ Some (wake_at 7 0) }
    ensures not_yet { first_woken 6 (wake_at 7 0 ∷ []) ≡ None }
    ensures nobody { first_woken 6 [] ≡ None }
    ensures behind { behind_woken 7 (wake_at 7 0 ∷ wake_at 9 1 ∷ []) ≡ wake_at 9 1 ∷ [] }
    ensures stays { behind_woken 6 (wake_at 7 0 ∷ []) ≡ wake_at 7 0 ∷ [] }
    ensures no_line { behind_woken 6 [] ≡ [] }
    ensures no_gateway { woken_at None ≡ None }
    ensures nothing_woken { (office : Option (Box Office)) → WakesIn None office office }
    ensures no_exchange { WakesIn (Some (wake_at 7 0)) None None }
{}

/// Each sentence at an example.
pub fn what_comes_again_or_is_typed_is_known()
    // An announcement is new but where one with the same id was so within half a minute.
    ensures first { is_new None 7 1000 ≡ true }
    ensures again { is_new (Some (7, 1000)) 7 30999 ≡ false }
    ensures later { is_new (Some (7, 1000)) 7 31000 ≡ true }
    ensures other { is_new (Some (7, 1000)) 8 1001 ≡ true }
    ensures counts_from_the_first { last_new (Some (7, 1000)) 7 30999 ≡ Some (7, 1000) }
    ensures begins_anew { last_new (Some (7, 1000)) 8 30999 ≡ Some (8, 30999) }
    // A name means the gateway of its domain, in letters of either case; without one the only gateway.
    ensures named { (one other : Gateway) → meant (record one { domain = codes "gw1" } ∷ record other { domain = codes "gw2" } ∷ [])
        (codes "aaln/1@GW2") ≡ Some (1, codes "aaln/1") }
    ensures unknown { (one : Gateway) → meant (record one { domain = codes "gw1" } ∷ []) (codes "aaln/1@gw2") ≡ None }
    ensures unnamed { (one : Gateway) → meant (one ∷ []) (codes "aaln/1") ≡ Some (0, codes "aaln/1") }
    ensures which { (one other : Gateway) → meant (one ∷ other ∷ []) (codes "aaln/1") ≡ None }
{}

/// A board has a line for each number of its configuration.
pub fn a_board_has_its_lines()
    // It is named by its own number and the domain of its gateway, and nothing was taken of it.
    ensures fresh { new_station 1 (codes "gw2") 12 (codes "21") ≡ record {
      gateway = 1;
      line = 12;
      name = name_text (One 12) (codes "gw2");
      number = codes "21";
      taken = 0;
    } }
    ensures lines { stations_behind 1 (codes "gw2") 0 (codes "21" ∷ codes "22" ∷ [])
        ≡ new_station 1 (codes "gw2") 1 (codes "21") ∷ new_station 1 (codes "gw2") 2 (codes "22") ∷ [] }
    ensures no_line { stations_behind 1 (codes "gw2") 7 [] ≡ [] }
    ensures last { stations_behind 1 (codes "gw2") 65535 (codes "21" ∷ []) ≡ new_station 1 (codes "gw2") 65535 (codes "21") ∷ [] }
    ensures gateways { (first next : GatewayConfig) → stations_from 0 (first ∷ next ∷ [])
        ≡ stations_behind 0 first.domain 0 first.numbers.items ++ stations_behind 1 next.domain 0 next.numbers.items ++ [] }
    ensures no_gateway { stations_from 3 [] ≡ [] }
    ensures these { (config : AgentConfig) (board : Switchboard) → BoardOf config false 7 board →
        board.stations.items ≡ stations_from 0 config.gateways.items }
{}

/// How the gateways of a board begin.
pub fn gateways_begin_with_their_lines()
    // Of a gateway all is known but what its agent keeps.
    ensures known { (gateway : Gateway) → known_as (record gateway {
      address = agent_at 2;
      domain = codes "gw2";
      first = 3;
      lines = 2;
      ticked = 9;
      announced = Some (7, 8);
    }) ≡ record {
      setup = gateway.agent.value.setup;
      address = agent_at 2;
      domain = codes "gw2";
      first = 3;
      lines = 2;
      flights = gateway.flights.items;
      wakes = gateway.wakes.items;
      ticked = 9;
      announced = Some (7, 8);
    } }
    // Its agent's ids begin by the time of day, and nothing has happened.
    ensures begins { begins_as 525600000 (agent_at 1) 3 (agent_at 2) (codes "gw2") 2 ≡ record {
      setup = record { own = routes.One (agent_at 1); gateway = agent_at 2; domain = codes "gw2"; lines = 2; first = 525600001 };
      address = agent_at 2;
      domain = codes "gw2";
      first = 3;
      lines = 2;
      flights = [];
      wakes = [];
      ticked = 0;
      announced = None;
    } }
    ensures ids_begin_again { (begins_as 900000000 (agent_at 1) 3 (agent_at 2) (codes "gw2") 2).setup.first ≡ 1 }
    // It has a line for each number, as many as it may have at most.
    ensures lines { lines_of (codes "21" ∷ codes "22" ∷ []) ≡ 2 }
    ensures most_lines { (numbers : List (List ℕ)) → length numbers ≡ 70000 → lines_of numbers ≡ 65535 }
    // The lines of the next one stand behind its own.
    ensures no_gateway { gateways_from 525600000 (agent_at 1) 3 [] ≡ [] }
    ensures next { (one other : GatewayConfig) → one.numbers.items ≡ codes "21" ∷ codes "22" ∷ [] → other.numbers.items ≡ [] →
        gateways_from 525600000 (agent_at 1) 3 (one ∷ other ∷ [])
        ≡ begins_as 525600000 (agent_at 1) 3 one.address one.domain 2
        ∷ begins_as 525600000 (agent_at 1) 5 other.address other.domain 0 ∷ [] }
    // A board has those of its configuration, whose agents have issued nothing.
    ensures of_a_board { (config : AgentConfig) (board : Switchboard) → BoardOf config true 525600000 board →
        map known_as board.gateways.items ≡ gateways_from 525600000 config.own 0 config.gateways.items }
    ensures stands { (config : AgentConfig) (board : Switchboard) (gateway : Gateway) → BoardOf config true 525600000 board →
        board.gateways.items ≡ gateway ∷ [] → AgentStands gateway.agent.value [] }
{}
