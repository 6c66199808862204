//! Worked examples, as theorems: for each law that asks for something, values that meet all of it at once. What the laws of isolation ask
//! for stands in `isolation_examples`.
#![tactic(auto, unfolding(crate::proofs::IsolationComputing::on_examples))]

ghost use Rattle.std.specs.Prelude.{◌≡◌, ◌≢◌, ◌≤◌, ◌<◌, ◌+◌, ◌++◌, ◌∷◌, [], ℕ, codes, replicate, get_or, length, true, false, Option, None, Some, Ok, Err};
ghost use Rattle.endpoint_names.specs.declared.entity.Entity.{Entity};
ghost use Rattle.mgcp_text.specs.Answer.{plain_code};
ghost use Rattle.mgcp_text.specs.Confirmation.{k_of};
ghost use Rattle.mgcp_text.specs.Reading.{read_text};
ghost use Rattle.mgcp_text.specs.declared.message.Verb.TheVariants.{Auep, Epcf, Rqnt};
ghost use Rattle.transmission.specs.HistoryExample.{comes};
ghost use Rattle.transmission.specs.Firsts.{a_first, a_repeat, lost, kind_of, firsts_of};
ghost use Rattle.transmission.specs.Kept.{entries_of};
ghost use Rattle.transmission.specs.Memory.{most_firsts};
ghost use Rattle.small_rules.specs.Numbering.{numbers};
ghost use Rattle.retransmission.specs.Flight.{repeat_of, reply_of};
ghost use Rattle.retransmission.specs.declared.repeat.Repeat.TheVariants.{GivenUp};
ghost use Rattle.retransmission.specs.declared.reply.Reply.TheVariants as replies;
ghost use Rattle.retransmission.specs.declared.heard.Heard.TheVariants.{Answered};
ghost use Rattle.retransmission.specs.declared.restart.Restart.TheVariants.{Waiting, Announced};
ghost use Rattle.retransmission.specs.Restarting.{is_serving};
ghost use Rattle.connections.specs.declared.codec.Encoding.TheVariants.{A};
ghost use Rattle.connections.specs.declared.deletion.Deletion.TheVariants as deletions;
ghost use Rattle.connections.specs.Numbers.{names_number};
ghost use Rattle.connections.specs.Standing.{is_meant};
ghost use Rattle.command_forms.specs.declared.forms.Asks.TheVariants.{Does};
ghost use Rattle.command_forms.specs.declared.forms.Target.TheVariants.{One};
ghost use Rattle.command_forms.specs.declared.refused.FaultyPart.TheVariants.{Name};
ghost use Rattle.command_forms.specs.declared.verbs.Meant.{Meant};
ghost use Rattle.command_forms.specs.Codes.{Audits};
ghost use Rattle.command_forms.specs.Meaning.{meant};
ghost use Rattle.command_forms.specs.Order.{form_of};
ghost use Rattle.mg_line.specs.declared.phone.Act.TheVariants.{OffHook};
ghost use Rattle.plain_machine.specs.declared.endpoint.Endpoint.{Endpoint};
ghost use Rattle.plain_machine.specs.Announcing.{heard_on};
ghost use Rattle.plain_machine.specs.Answering.{transaction, transaction_of};
ghost use Rattle.plain_machine.specs.Calls.{connection_at, port_at, IsOnLine};
ghost use Rattle.plain_machine.specs.Commanding.{commanded};
ghost use Rattle.plain_machine.specs.Done.{only_answer};
ghost use Rattle.plain_machine.specs.Event.{phone, tick};
ghost use Rattle.plain_machine.specs.Falling.{due_by, post_due};
ghost use Rattle.plain_machine.specs.Flights.{OwnIsInOrder, Waits};
ghost use Rattle.plain_machine.specs.Lists.{connections_of, plain};
ghost use Rattle.plain_machine.specs.Machine.{endpoint_at, opening_endpoints, serves};
ghost use Rattle.plain_machine.specs.Posting.{id_on, line_of_id};
ghost use Rattle.plain_machine.specs.Requesting.{has_place, line_with_place, refusal_by};
ghost use Rattle.plain_machine.specs.Setup.{IsSetUp};
ghost use Rattle.plain_machine.specs.Transactions.{command_arrival};
ghost use Rattle.plain_machine.specs.Example.{announced_again, announcing, command_due, endpoints_announcing, first_connection, first_endpoints, full_lines, holding, in_flight_then, lifted_again, lost_endpoint, other_entity, ready, ready_endpoint, ready_endpoints, ready_machine, requesting_nothing, two_lines};
ghost use Rattle.machine_laws.specs.Passing.{PassesAlone, line_due, line_happens, own_happens};
ghost use Rattle.machine_laws.specs.Starting.{BeganUnder, longest_life, shortest_life};
ghost use Rattle.machine_laws.specs.Example.{announced_response, arriving, commanding, deleting, first_called, first_full, having_two, keeping, notifying, second_connection, second_deleted, transacting, two_created};

/// What the laws of announcements ask for.
pub fn what_is_asked_of_announcements_has_examples()
    // until_it_serves_a_gateway_only_reports
    ensures opening { serves (opening_endpoints two_lines) ≡ false }
    ensures misnamed { meant (commanding Rqnt (codes "aaln/3@rgw.example.net") []) two_lines.names
        ≡ Err (record { code = 500; at = Name }) }
    ensures meant { (found : Meant) × (meant (commanding Rqnt (codes "aaln/1@rgw.example.net") []) two_lines.names ≡ Ok found) }
    ensures a_deed { Audits Rqnt → ⊥ }
    ensures an_audit { Audits Auep }
    ensures serving { serves (ready_endpoints two_lines) ≡ true }
    // a_gateway_serves_once_its_announcement_is_answered
    ensures lasts { serves (plain two_lines ready).endpoints ≡ true }
    ensures due { OwnIsInOrder (endpoints_announcing []).own }
    ensures own_id { line_of_id (announced_response 200 None).id ≡ 0 }
    ensures answered { heard_on (endpoints_announcing []).own (announced_response 200 None) ≡ Answered None }
    ensures not_yet { serves (endpoints_announcing []) ≡ false }
    ensures other { (agent : Option Entity) →
        heard_on (endpoints_announcing []).own (announced_response 521 (Some other_entity)) ≢ Answered agent }
    ensures announced { (announcing (Some 5000)).restart ≡ Announced }
    ensures flies { (announcing (Some 5000)).pending ≡ Some (announced_again 0 5000) }
    ensures redirected { reply_of (announced_again 0 5000) 1 521 ≡ replies.Answered }
    // an_announcement_goes_on_until_it_is_answered
    ensures not_serving { is_serving (endpoints_announcing []).own.restart ≡ false }
    ensures waits { (lost_endpoint 6000).post.restart ≡ Waiting 6000 }
    ensures nothing_flies { (lost_endpoint 6000).post.pending ≡ None }
    ensures last_send { in_flight_then (phone 1 OffHook ∷ tick 24499 ∷ []) 1 ≡ Some (lifted_again 7 24500) }
    ensures given_up { repeat_of (lifted_again 7 24500) 24500 ≡ GivenUp }
{}

/// What the laws of connections ask for.
pub fn what_is_asked_of_connections_has_examples()
    // a_line_has_at_most_four_connections
    ensures places { connections_of (plain two_lines two_created) 1
        ≡ Some (Some first_connection ∷ Some second_connection ∷ None ∷ None ∷ []) }
    ensures line { (endpoint : Endpoint) × (endpoint_at (plain two_lines two_created).endpoints 1 ≡ Some endpoint) }
    // two_connections_never_share_a_port
    ensures port { port_at (plain two_lines two_created) 1 0 ≡ Some 3000 }
    ensures other_port { port_at (plain two_lines two_created) 1 1 ≡ Some 3002 }
    // a_number_is_never_given_twice_on_a_line
    ensures connection { connection_at (plain two_lines two_created) 1 1 ≡ Some second_connection }
    ensures named { names_number (codes "2") second_connection.number ≡ true }
    ensures stood { IsOnLine (plain two_lines two_created) 1 2 }
    ensures stands_no_more { IsOnLine (plain two_lines (two_created ++ second_deleted)) 1 2 → ⊥ }
    // what_is_refused_changes_no_line
    ensures refused { transaction_of two_lines (ready_machine two_lines)
        (read_text (codes "RQNT 7 aaln/3@rgw.example.net MGCP 1.0\r\nX: 1\r\n"))
        ≡ Some (transaction 7 None [] (only_answer (ready_endpoints two_lines) (plain_code 500))) }
    ensures refused_command { (commanded two_lines (ready_endpoints two_lines) 1000 7 (commanding Rqnt (codes "aaln/1@rgw.example.net") []) (k_of [])).answer.code
        ≡ 510 }
    // a_deletion_empties_what_it_means
    ensures not_refused { refusal_by (deleting (deletions.One (codes "1A") (codes "1"))) having_two ≡ None }
    ensures meant { is_meant (deletions.One (codes "1A") (codes "1")) first_connection ≡ true }
    ensures not_meant { is_meant (deletions.One (codes "1A") (codes "1")) second_connection ≡ false }
    ensures there { get_or having_two.connections.places 0 None ≡ Some first_connection }
    ensures other { get_or having_two.connections.places 1 None ≡ Some second_connection }
    ensures free { get_or having_two.connections.places 2 None ≡ None }
    // an_endpoint_configuration_gives_an_encoding
    ensures encoding { form_of (commanding Epcf (codes "aaln/1@rgw.example.net") ((record { code = codes "B"; value = codes "e:A" }) ∷ []))
        (k_of []) two_lines.names ≡ Ok (Does (One 1) (record (requesting_nothing None) { encoding = Some A })) }
    // the_least_line_that_refuses_decides
    ensures least_line { endpoint_at first_called 2 ≡ Some (ready_endpoint two_lines 2) }
    ensures refuses { refusal_by (deleting (deletions.OfCall (codes "1A"))) (ready_endpoint two_lines 2) ≡ Some 516 }
    ensures none_lower { (other : ℕ) (another : Endpoint) → other < 2 → endpoint_at first_called other ≡ Some another →
        refusal_by (deleting (deletions.OfCall (codes "1A"))) another ≡ None }
    ensures fine { (line : ℕ) (endpoint : Endpoint) → endpoint_at first_called line ≡ Some endpoint →
        refusal_by (deleting deletions.All) endpoint ≡ None }
    // the_line_that_is_chosen_is_the_least_with_a_place
    ensures chosen { line_with_place first_full ≡ Some 2 }
    ensures lower { endpoint_at first_full 1 ≡ Some (holding (replicate 4 (Some first_connection))) }
    ensures no_place { line_with_place full_lines.endpoints ≡ None }
    ensures full_line { endpoint_at full_lines.endpoints 1 ≡ Some (holding (replicate 4 (Some first_connection))) }
{}

/// What the laws of commands in flight ask for, and of numbers: those of a start that goes round come again.
pub fn what_is_asked_of_flights_has_examples()
    // a_line_has_one_command_in_flight, a_repeat_is_the_same_message
    ensures waits { Waits 1 notifying }
    ensures flies { notifying.post.pending ≡ Some (lifted_again 0 1500) }
    ensures other_id { reply_of (lifted_again 0 1500) 10000001 200 ≢ replies.Answered }
    ensures own_flies { (announcing (Some 1500)).pending ≡ Some (announced_again 0 1500) }
    ensures provisional { reply_of (announced_again 0 1500) 1 100 ≢ replies.Answered }
    // ids_of_lines_never_meet
    ensures below { 5 < numbers }
    ensures own_id { 1 ≤ id_on 0 5 }
    // numbers_of_two_starts_lie_apart
    ensures later { 0 + shortest_life ≤ 499999950 }
    ensures within { 1000 ≤ 0 + longest_life }
    ensures began { BeganUnder 1 0 1000 5 }
    ensures again { BeganUnder 1 499999950 499999950 5 }
{}

/// What the laws of all events ask for, and of a line and the gateway itself by themselves.
pub fn what_is_asked_of_events_has_examples()
    // commands_are_done_by_what_they_are
    ensures keeps_none { (ready_machine two_lines).history ≡ entries_of (firsts_of most_firsts []) }
    ensures first { kind_of most_firsts (firsts_of most_firsts []) (command_arrival (ready_machine two_lines) (transacting 7)) ≡ a_first }
    ensures keeps_one { (keeping (comes 7 1000 65 ∷ [])).history ≡ entries_of (firsts_of most_firsts (comes 7 1000 65 ∷ [])) }
    ensures repeat { kind_of most_firsts (firsts_of most_firsts (comes 7 1000 65 ∷ []))
        (command_arrival (keeping (comes 7 1000 65 ∷ [])) (transacting 7))
        ≡ a_repeat (record { original = comes 7 1000 65; after = [] }) }
    // what_is_packed_is_what_is_sent
    ensures set_up { IsSetUp two_lines }
    // what_is_due_happens_in_its_order
    ensures due { due_by (endpoints_announcing []) 5000 ≡ Some (command_due 5000 0) }
    ensures nothing_due { due_by (ready_endpoints two_lines) 5000 ≡ None }
    // each_line_passes_alone
    ensures line { PassesAlone (line_due 1) (line_happens two_lines 1) 1500 (Some notifying)
        (line_happens two_lines 1 (command_due 1500 1) (Some notifying)) }
    ensures own { PassesAlone (post_due 0) (own_happens two_lines) 1500 (announcing (Some 1500))
        (own_happens two_lines (command_due 1500 0) (announcing (Some 1500))) }
{}

/// A command is lost where as many firsts are young as there may be.
pub fn what_is_asked_of_what_is_lost_has_an_example()
    // commands_are_done_by_what_they_are
    ensures keeps_most { (keeping (arriving most_firsts)).history ≡ entries_of (firsts_of most_firsts (arriving most_firsts)) }
    ensures lost { kind_of most_firsts (firsts_of most_firsts (arriving most_firsts))
        (command_arrival (keeping (arriving most_firsts)) (transacting most_firsts)) ≡ lost }
{}
