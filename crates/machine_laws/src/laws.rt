//! Laws of the plain machine, for every setup and every list of events.
ghost use Rattle.std.specs.declared.net.socket_addr.SocketAddrV4.{SocketAddrV4};
ghost use Rattle.std.specs.Prelude.{ℕ, if◌then◌else◌, ◌≡◌, ◌∷◌, ◌-◌, [], ◌≤◌, List, length, flat_map, All, AllPairs, Some, None, false};
ghost use Rattle.transmission.specs.Memory.{memory_time, most_firsts};
ghost use Rattle.transmission.specs.Arrival.{Arrival};
ghost use Rattle.transmission.specs.Firsts.{Copied, a_first, a_repeat, lost, kind_of, firsts_of};
ghost use Rattle.transmission.specs.Answers.{is_confirmed};
ghost use Rattle.transmission.specs.Kept.{entries_of};
ghost use Rattle.plain_machine.specs.declared.setup.Setup.{Setup};
ghost use Rattle.transmission.specs.declared.output.OutDatagram.{OutDatagram};
ghost use Rattle.plain_machine.specs.Effect.{silently, afterwards};
ghost use Rattle.plain_machine.specs.Event.{GatewayEvent};
ghost use Rattle.plain_machine.specs.Message.{again, datagrams_of};
ghost use Rattle.plain_machine.specs.Machine.{Machine, Endpoints};
ghost use Rattle.plain_machine.specs.Falling.{due_by, happened, pass};
ghost use Rattle.timers.specs.declared.due_item.DueItem.{DueItem};
ghost use Rattle.plain_machine.specs.Setup.{IsSetUp};
ghost use Rattle.plain_machine.specs.Answering.{Transaction, reply, executed, transacted};
ghost use Rattle.transmission.specs.Packing.{messages_in};
ghost use Rattle.transmission.specs.Texts.{largest_datagram};
ghost use Rattle.plain_machine.specs.Lists.{plain, sent_of, outputs_of};
ghost use Rattle.plain_machine.specs.Transactions.{command_arrival, commands_of};

/// What the machine keeps of transactions is the firsts of all commands that arrived, each with what it confirmed; and no
/// two of these firsts have one id within 30,000 ms.
pub fn the_firsts_of_all_commands_are_kept()
    ensures kept { (setup : Setup) (events : List GatewayEvent) →
        (plain setup events).history ≡ entries_of (firsts_of most_firsts (commands_of setup events)) }
    ensures apart { (setup : Setup) (events : List GatewayEvent) →
        AllPairs (λ (first later : Arrival). first.id ≡ later.id → memory_time ≤ later.moment - first.moment)
        (firsts_of most_firsts (commands_of setup events)) }
{}

/// Where a machine keeps the firsts of all that arrived, a command that is one of them is executed; a repeat changes
/// nothing and gets its first's answer, to where the repeat came from, or silence where that is confirmed; and what is
/// lost does nothing.
pub fn commands_are_done_by_what_they_are()
    ensures first { (m : Machine) (source : SocketAddrV4) (t : Transaction) (earlier : List Arrival) →
        m.history ≡ entries_of (firsts_of most_firsts earlier) →
        kind_of most_firsts (firsts_of most_firsts earlier) (command_arrival m t) ≡ a_first →
        transacted m source t ≡ executed m source t }
    ensures repeat { (m : Machine) (source : SocketAddrV4) (t : Transaction) (earlier : List Arrival) (copied : Copied) →
        m.history ≡ entries_of (firsts_of most_firsts earlier) →
        kind_of most_firsts (firsts_of most_firsts earlier) (command_arrival m t) ≡ a_repeat copied →
        transacted m source t ≡ record {
          value = m;
          sent = if is_confirmed t.id copied.after then [] else reply m source t.line (again t.id copied.original.answer) ∷ [];
        } }
    ensures lost { (m : Machine) (source : SocketAddrV4) (t : Transaction) (earlier : List Arrival) →
        m.history ≡ entries_of (firsts_of most_firsts earlier) →
        kind_of most_firsts (firsts_of most_firsts earlier) (command_arrival m t) ≡ lost →
        transacted m source t ≡ silently m }
{}

/// With such a setup the datagrams that go out hold the messages that are sent, in their order, and none of them is longer
/// than the largest that is taken.
pub fn what_is_packed_is_what_is_sent()
    ensures messages { (setup : Setup) (events : List GatewayEvent) → IsSetUp setup →
        flat_map messages_in (outputs_of setup events) ≡ datagrams_of (sent_of setup events) }
    ensures within { (setup : Setup) (events : List GatewayEvent) → IsSetUp setup →
        All (λ (datagram : OutDatagram). length datagram.bytes ≤ largest_datagram) (outputs_of setup events) }
{}

/// While something is due up to a moment, what falls due first happens, at its own moment; and after that nothing is due
/// up to that moment.
pub fn what_is_due_happens_in_its_order()
    ensures first { (setup : Setup) (endpoints : Endpoints) (moment : ℕ) (item : DueItem) →
        due_by endpoints moment ≡ Some item →
        pass setup endpoints moment ≡ afterwards (happened setup endpoints item) (λ next. pass setup next moment) }
    ensures nothing { (setup : Setup) (endpoints : Endpoints) (moment : ℕ) → due_by endpoints moment ≡ None →
        pass setup endpoints moment ≡ silently endpoints }
    ensures after { (setup : Setup) (endpoints : Endpoints) (moment : ℕ) →
        due_by (pass setup endpoints moment).value moment ≡ None }
{}
