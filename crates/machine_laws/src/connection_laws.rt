//! Laws of connections (RFC 3435, 2.1.3, 2.3.2, 2.3.5 to 2.3.7 and 2.3.9), for every setup and every list of events.
ghost use Rattle.std.specs.Prelude.{ℕ, ◌≡◌, ◌≢◌, ◌+◌, ◌<◌, ◌≤◌, ◌++◌, List, length, get_or, true, false, Option, Some, None, Ok};
ghost use Rattle.std.specs.Option.{unwrap_or};
ghost use Rattle.std.specs.declared.net.socket_addr.SocketAddrV4.{SocketAddrV4};
ghost use Rattle.connections.specs.declared.connection.Connection.{Connection};
ghost use Rattle.connections.specs.declared.deletion.Deletion.{Deletion};
ghost use Rattle.connections.specs.Numbers.{names_number};
ghost use Rattle.connections.specs.Standing.{is_meant, no_connections};
ghost use Rattle.connections.specs.Life.{Happening, after, numbers_in};
ghost use Rattle.mgcp_text.specs.declared.confirmation.KValue.{KValue};
ghost use Rattle.mgcp_text.specs.declared.message.Param.{Param};
ghost use Rattle.mgcp_text.specs.declared.message.Verb.TheVariants.{Epcf};
ghost use Rattle.mgcp_text.specs.Answer.{plain_code};
ghost use Rattle.mgcp_text.specs.Reading.{Outcome};
ghost use Rattle.command_forms.specs.declared.forms.Asks.TheVariants.{Does};
ghost use Rattle.command_forms.specs.declared.forms.ConnectionDeed.TheVariants as deeds;
ghost use Rattle.command_forms.specs.declared.forms.Deed.{Deed};
ghost use Rattle.command_forms.specs.declared.forms.Target.{Target};
ghost use Rattle.command_forms.specs.declared.forms.Target.TheVariants.{All};
ghost use Rattle.command_forms.specs.Command.{Command};
ghost use Rattle.command_forms.specs.Order.{form_of};
ghost use Rattle.plain_machine.specs.declared.setup.Setup.{Setup};
ghost use Rattle.plain_machine.specs.declared.endpoint.Endpoint.{Endpoint};
ghost use Rattle.plain_machine.specs.Effect.{silently};
ghost use Rattle.plain_machine.specs.Answering.{Transaction, transaction_of, handled};
ghost use Rattle.plain_machine.specs.Event.{GatewayEvent};
ghost use Rattle.plain_machine.specs.Machine.{Endpoints, Machine, port_of, endpoint_at};
ghost use Rattle.plain_machine.specs.Done.{only_answer};
ghost use Rattle.plain_machine.specs.Requesting.{refusal_by, deed_on, deed_on_all, deed_done, has_place, line_with_place};
ghost use Rattle.plain_machine.specs.Commanding.{commanded};
ghost use Rattle.plain_machine.specs.Lists.{plain, connections_of};
ghost use Rattle.plain_machine.specs.Calls.{connection_at, port_at, IsOnLine};

/// A line has four places for connections, and so at most four connections. What stands there is what creations,
/// modifications and deletions left, one after the other, on a line that had none.
pub fn a_line_has_at_most_four_connections()
    ensures places { (setup : Setup) (events : List GatewayEvent) (line : ℕ) (places : List (Option Connection)) →
        connections_of (plain setup events) line ≡ Some places → length places ≡ 4 }
    ensures most { (setup : Setup) (events : List GatewayEvent) (line : ℕ) (places : List (Option Connection)) →
        connections_of (plain setup events) line ≡ Some places → length (numbers_in places) ≤ 4 }
    ensures life { (setup : Setup) (events : List GatewayEvent) (line : ℕ) (endpoint : Endpoint) →
        endpoint_at (plain setup events).endpoints line ≡ Some endpoint →
        (happenings : List Happening)
        × (endpoint.connections ≡ after (no_connections setup.media_address (port_of setup line)) happenings) }
{}

/// No two connections of a gateway receive at one port.
pub fn two_connections_never_share_a_port()
    ensures { (setup : Setup) (events : List GatewayEvent) (line other place next port : ℕ) →
        port_at (plain setup events) line place ≡ Some port → port_at (plain setup events) other next ≡ Some port →
        (line ≡ other) × (place ≡ next) }
{}

/// Two connections of a line have two numbers, and so no identifier is that of both; and a number that stood on a line
/// and stands no more is never given again there.
pub fn a_number_is_never_given_twice_on_a_line()
    ensures apart { (setup : Setup) (events : List GatewayEvent) (line place other : ℕ) (connection next : Connection) →
        connection_at (plain setup events) line place ≡ Some connection →
        connection_at (plain setup events) line other ≡ Some next → connection.number ≡ next.number → place ≡ other }
    ensures named { (setup : Setup) (events : List GatewayEvent) (line place other : ℕ) (id : List ℕ)
        (connection next : Connection) → connection_at (plain setup events) line place ≡ Some connection →
        connection_at (plain setup events) line other ≡ Some next → names_number id connection.number ≡ true →
        names_number id next.number ≡ true → place ≡ other }
    ensures again { (setup : Setup) (before between later : List GatewayEvent) (line number : ℕ) →
        IsOnLine (plain setup before) line number → (IsOnLine (plain setup (before ++ between)) line number → ⊥) →
        IsOnLine (plain setup ((before ++ between) ++ later)) line number → ⊥ }
{}

/// A command that is refused, and so answered neither with 200 nor with 250 (RFC 3435, 2.4), changes no line, and no line
/// sends anything because of it. That holds of every text that is a command, also where its version isn't known or its
/// parameters can't be read.
pub fn what_is_refused_changes_no_line()
    ensures text { (setup : Setup) (m : Machine) (outcome : Outcome) (t : Transaction) →
        transaction_of setup m outcome ≡ Some t → t.done.answer.code ≢ 200 → t.done.answer.code ≢ 250 →
        t.done.told ≡ silently m.endpoints }
    ensures after { (setup : Setup) (m : Machine) (source : SocketAddrV4) (outcome : Outcome) (t : Transaction) →
        transaction_of setup m outcome ≡ Some t → t.done.answer.code ≢ 200 → t.done.answer.code ≢ 250 →
        (handled setup m source outcome).value.endpoints ≡ m.endpoints }
    ensures command { (setup : Setup) (endpoints : Endpoints) (moment id : ℕ) (command : Command) (confirms : KValue) →
        (commanded setup endpoints moment id command confirms).answer.code ≢ 200 →
        (commanded setup endpoints moment id command confirms).answer.code ≢ 250 →
        (commanded setup endpoints moment id command confirms).told ≡ silently endpoints }
{}

/// A deletion that the line doesn't refuse empties the places of the connections that it means, and no others.
pub fn a_deletion_empties_what_it_means()
    ensures meant { (setup : Setup) (deed : Deed) (deletion : Deletion) (moment line place : ℕ) (endpoint : Endpoint)
        (connection : Connection) → deed.connections ≡ deeds.Delete deletion → refusal_by deed endpoint ≡ None →
        get_or endpoint.connections.places place None ≡ Some connection → is_meant deletion connection ≡ true →
        get_or (deed_on setup deed moment line endpoint).value.connections.places place None ≡ None }
    ensures others { (setup : Setup) (deed : Deed) (deletion : Deletion) (moment line place : ℕ) (endpoint : Endpoint)
        (connection : Connection) → deed.connections ≡ deeds.Delete deletion →
        get_or endpoint.connections.places place None ≡ Some connection → is_meant deletion connection ≡ false →
        get_or (deed_on setup deed moment line endpoint).value.connections.places place None ≡ Some connection }
    ensures free { (setup : Setup) (deed : Deed) (deletion : Deletion) (moment line place : ℕ) (endpoint : Endpoint) →
        deed.connections ≡ deeds.Delete deletion → get_or endpoint.connections.places place None ≡ None →
        get_or (deed_on setup deed moment line endpoint).value.connections.places place None ≡ None }
{}

/// What an EndpointConfiguration changes is the encoding alone (RFC 3435, 2.3.2): a line that it is for has that which is
/// given from then on, is else as it was, and sends nothing; and no line refuses it.
pub fn an_endpoint_configuration_gives_an_encoding()
    ensures alone { (setup : Setup) (command : Command) (confirms : KValue) (target : Target) (deed : Deed)
        (moment line : ℕ) (endpoint : Endpoint) → command.verb ≡ Epcf →
        form_of command confirms setup.names ≡ Ok (Does target deed) →
        deed_on setup deed moment line endpoint
        ≡ silently (record endpoint { encoding = unwrap_or deed.encoding endpoint.encoding }) }
    ensures taken { (setup : Setup) (command : Command) (confirms : KValue) (target : Target) (deed : Deed)
        (endpoint : Endpoint) → command.verb ≡ Epcf → form_of command confirms setup.names ≡ Ok (Does target deed) →
        refusal_by deed endpoint ≡ None }
{}

/// Of a deed on all lines the least line that refuses it gives the code, and then nothing is done. Where none refuses, it is
/// done.
pub fn the_least_line_that_refuses_decides()
    ensures refuses { (setup : Setup) (endpoints : Endpoints) (more : List Param) (deed : Deed) (moment line code : ℕ)
        (endpoint : Endpoint) → endpoint_at endpoints line ≡ Some endpoint → refusal_by deed endpoint ≡ Some code →
        ((other : ℕ) (another : Endpoint) → other < line → endpoint_at endpoints other ≡ Some another →
        refusal_by deed another ≡ None) →
        deed_done setup endpoints All more deed moment ≡ only_answer endpoints (plain_code code) }
    ensures fine { (setup : Setup) (endpoints : Endpoints) (more : List Param) (deed : Deed) (moment : ℕ) →
        ((line : ℕ) (endpoint : Endpoint) → endpoint_at endpoints line ≡ Some endpoint → refusal_by deed endpoint ≡ None) →
        (deed_done setup endpoints All more deed moment).told ≡ deed_on_all setup endpoints All deed moment }
{}

/// Any one line is the least that has a place for one more connection.
pub fn the_line_that_is_chosen_is_the_least_with_a_place()
    ensures place { (endpoints : Endpoints) (line : ℕ) → line_with_place endpoints ≡ Some line →
        (endpoint : Endpoint) × (endpoint_at endpoints line ≡ Some endpoint) × (has_place (line, endpoint) ≡ true) }
    ensures least { (endpoints : Endpoints) (line other : ℕ) (endpoint : Endpoint) → line_with_place endpoints ≡ Some line →
        other < line → endpoint_at endpoints other ≡ Some endpoint → has_place (other, endpoint) ≡ false }
    ensures none { (endpoints : Endpoints) (line : ℕ) (endpoint : Endpoint) → line_with_place endpoints ≡ None →
        endpoint_at endpoints line ≡ Some endpoint → has_place (line, endpoint) ≡ false }
{}
