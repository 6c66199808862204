//! Worked examples of what goes over an exchange, of what an outlet is told and handed, and of what a page is shown, as theorems.
#![tactic(auto)]

ghost use Rattle.std.specs.Prelude.{◌≡◌, ◌⊎◌, ⊤, [], ◌∷◌, true, false, not, ℕ, Bool, List, length, Option, Some, None, Result, Ok, Err};
ghost use Rattle.std.specs.Global.{Box};
ghost use Rattle.std.specs.declared.net.socket_addr.SocketAddrV4.{SocketAddrV4};
ghost use Rattle.impairment.specs.declared.fate.Fate.{Fate};
ghost use Rattle.impairment.specs.declared.fate.Fate.TheVariants.{Lost as NeverComes, Once, Twice};
ghost use Rattle.impairment.specs.declared.network.BadNetwork.{BadNetwork};
ghost use Rattle.impairment.specs.declared.packet.Packet.{Packet};
ghost use Rattle.impairment.specs.declared.packet.Way.TheVariants.{In};
ghost use Rattle.impairment.specs.Drawing.{after_draws};
ghost use Rattle.impairment.specs.Waiting.{put_in};
ghost use Rattle.gateway_core.specs.GatewayState.{GatewayState};
ghost use Rattle.gateway_core.specs.Stands.{Stands};
ghost use Rattle.gateway_core.specs.Wire.{counted};
ghost use Rattle.page_state.specs.BoardShowing.{BoardState};
ghost use Rattle.gateway_core.specs.declared.sent.SentMessage.{SentMessage};
ghost use Rattle.plain_machine.specs.Event.{GatewayEvent};
ghost use Rattle.plain_machine.specs.Lists.{plain};
ghost use Rattle.live_io.specs.Sending.{Sent, found_by};
ghost use Rattle.mg_bytes.specs.Lists.{is_empty};
ghost use Rattle.live_io.specs.Typing.{left_of};
ghost use Rattle.live_io.specs.declared.lines.Lines.{Lines};
ghost use Rattle.live_io.specs.declared.surroundings.Fault.{Fault};
ghost use Rattle.traces.specs.declared.telling.Mark.TheVariants.{Lost};
ghost use Rattle.traces.specs.Writing.{Input, became};
ghost use Rattle.turns.specs.Schedule.{opening};
ghost use Rattle.transmission.specs.declared.output.OutDatagram.{OutDatagram};
ghost use Rattle.live_play.specs.Example.{says, loses_the_second, keeps};
ghost use Rattle.live_play.specs.Running.{Live, sent_of, HandsBy, HandsFrom, TakesBy};
ghost use Rattle.live_journal.specs.declared.journal.Journal.{Journal};
ghost use Rattle.telephone_control.specs.Paging.{IsOf, TakesAct};
ghost use Rattle.live_gateway.specs.declared.admission.Admission.{Admission};
ghost use Rattle.live_gateway.specs.declared.desk.Desk.{Desk};
ghost use Rattle.live_gateway.specs.declared.exchange.Exchange.{Exchange};
ghost use Rattle.live_gateway.specs.declared.spoilt_way.SpoiltWay.{SpoiltWay};
ghost use Rattle.live_gateway.specs.Admitting.{is_heard};
ghost use Rattle.live_gateway.specs.Desk.{Standing, with_input};
ghost use Rattle.live_gateway.specs.Ending.{OnlyEnds};
ghost use Rattle.live_gateway.specs.Exchanging.{with_unreceived, OnlyWrites, LooksBetween, FoundSince};
ghost use Rattle.live_gateway.specs.Leaving.{IsAsked, TakesIf, TakesFromPage, Starts, DoesVisit};
ghost use Rattle.live_gateway.specs.Offering.{next_copies, next_fate, TakesFirst, TakesDue};
ghost use Rattle.live_gateway.specs.Visiting.{HaveTurn};
ghost use Rattle.live_laws.specs.Example.{at_port};
ghost use Rattle.live_laws.specs.TurnExample.{anywhere, anybody_visits, HasNoTurn, WritesAtSeven, WritesNothing};
ghost use Rattle.live_laws.specs.WayExample.{due_at, OffersOne, copy_behind, LooksSeeing, arrival, arrivals, counts_turns, is_told_by, stays_where_told};

/// What becomes of a datagram that is offered is what the network draws next for its way, and its copies wait; where memory is refused those
/// that stand in front may, and as much is drawn. For the other way nothing is.
pub fn what_is_offered_waits_as_is_drawn()
    ensures drawn { (fate : Fate) (was is : BadNetwork) → OffersOne (Ok fate) was is → fate ≡ next_fate In was }
    ensures lost { (was is : BadNetwork) → next_fate In was ≡ NeverComes → OffersOne (Ok NeverComes) was is
        → is.waiting.items ≡ was.waiting.items }
    ensures once { (was is : BadNetwork) → next_fate In was ≡ Once 10 → OffersOne (Ok (Once 10)) was is
        → is.waiting.items ≡ put_in (copy_behind 10) was.waiting.items }
    ensures twice { (was is : BadNetwork) → next_fate In was ≡ Twice 10 3 → OffersOne (Ok (Twice 10 3)) was is
        → is.waiting.items ≡ put_in (copy_behind 3) (put_in (copy_behind 10) was.waiting.items) }
    ensures lost_for_memory { (was is : BadNetwork) → next_fate In was ≡ NeverComes → OffersOne (Err tt) was is
        → is.waiting.items ≡ was.waiting.items }
    ensures once_for_memory { (was is : BadNetwork) → next_fate In was ≡ Once 10 → OffersOne (Err tt) was is
        → (is.waiting.items ≡ was.waiting.items) ⊎ (is.waiting.items ≡ put_in (copy_behind 10) was.waiting.items) }
    ensures draws { (became : Result Fate ⊤) (was is : BadNetwork) → OffersOne became was is
        → (is.generators.incoming ≡ after_draws was.generators.incoming) × (is.generators.outgoing ≡ was.generators.outgoing)
        × (is.spoiling ≡ was.spoiling) }
{}

/// The first packet that waits is handed out, where it is due by now; nothing else is, and nothing is drawn.
pub fn what_is_due_is_handed_out()
    ensures due { (packet : Option Packet) (was is : BadNetwork) → was.waiting.items ≡ due_at 5 ∷ due_at 9 ∷ [] → TakesFirst 5 was packet is
        → (packet ≡ Some (due_at 5)) × (is.waiting.items ≡ due_at 9 ∷ []) }
    ensures later { (packet : Option Packet) (was is : BadNetwork) → was.waiting.items ≡ due_at 6 ∷ [] → TakesFirst 5 was packet is
        → (packet ≡ None) × (is.waiting.items ≡ due_at 6 ∷ []) }
    ensures none { (packet : Option Packet) (was is : BadNetwork) → was.waiting.items ≡ [] → TakesFirst 5 was packet is → packet ≡ None }
    ensures undrawn { (packet : Option Packet) (was is : BadNetwork) → TakesFirst 5 was packet is
        → (is.generators ≡ was.generators) × (is.spoiling ≡ was.spoiling) }
    ensures nowhere { (packet : Option Packet) (is : Option (Box SpoiltWay)) → TakesDue 5 None packet is → (packet ≡ None) × (is ≡ None) }
    ensures kept { (packet : Option Packet) (was : Box SpoiltWay) → TakesDue 5 (Some was) packet None → ⊥ }
    ensures before { (packet : Option Packet) (was is : Box SpoiltWay) → was.value.network.waiting.items ≡ due_at 5 ∷ []
        → TakesDue 5 (Some was) packet (Some is) → packet ≡ Some (due_at 5) }
{}

/// A look behind a network counts what it gave, once, and nothing else; what is found since is what came and is heard.
pub fn what_is_looked_for_is_counted_and_found()
    ensures nothing { (was is : Exchange ℕ) → LooksSeeing (Ok None) was is → (is.read ≡ was.read) × (is.faults ≡ was.faults) }
    ensures one { (was is : Exchange ℕ) → LooksSeeing (Ok (Some (at_port 9 2727, 5))) was is
        → (is.read ≡ counted was.read 1) × (is.faults ≡ was.faults) }
    ensures failed { (fault : Fault) (was is : Exchange ℕ) → LooksSeeing (Err fault) was is
        → (is.read ≡ was.read) × (is.faults ≡ with_unreceived was.faults) }
    ensures unasked { (was is : Exchange ℕ) → LooksBetween (λ before outcome room after. ⊥) was is → ⊥ }
    ensures came { (admission : Admission) (was is : Exchange ℕ) (found : Option (SocketAddrV4 × ℕ)) (room : List ℕ) → was.network ≡ None
        → is.network ≡ None → was.around ≡ 0 → is.around ≡ 1 → is_heard admission (at_port 9 2727) ≡ true
        → FoundSince arrivals admission was found room is → found_by found room ≡ arrival ∷ [] }
    ensures strange { (admission : Admission) (was is : Exchange ℕ) (found : Option (SocketAddrV4 × ℕ)) (room : List ℕ) → was.network ≡ None
        → is.network ≡ None → was.around ≡ 0 → is.around ≡ 1 → is_heard admission (at_port 9 2727) ≡ false
        → FoundSince arrivals admission was found room is → found_by found room ≡ [] }
    ensures silent { (admission : Admission) (was is : Exchange ℕ) (found : Option (SocketAddrV4 × ℕ)) (room : List ℕ) → was.network ≡ None
        → is.network ≡ None → was.around ≡ 0 → is.around ≡ 0 → FoundSince arrivals admission was found room is → found_by found room ≡ [] }
{}

/// Of an exchange nothing changes where what was recorded is written, or a desk ends, but what may; and what was counted and shown stays.
pub fn what_stays_of_an_exchange_has_examples()
    ensures written { (was is : Exchange ℕ) → OnlyWrites was is → is.journal ≡ was.journal → is.is_offering ≡ was.is_offering → is ≡ was }
    ensures counted { (was is : Exchange ℕ) → OnlyWrites was is → (is.journal.tally ≡ was.journal.tally)
        × (is.journal.board ≡ was.journal.board) }
    ensures ended { (was is : Desk ℕ ℕ) → OnlyEnds was is → is.play ≡ was.play → is.exchange ≡ was.exchange → is.lines ≡ was.lines
        → is ≡ was }
    ensures kept { (was is : Desk ℕ ℕ) → OnlyEnds was is → (is.play.gateway ≡ was.play.gateway)
        × (is.exchange.journal.tally ≡ was.exchange.journal.tally) × (is.exchange.journal.board ≡ was.exchange.journal.board) }
    ensures exchange { (was is : Desk ℕ ℕ) → OnlyEnds was is → is.exchange.around ≡ was.exchange.around
        → is.exchange.journal ≡ was.exchange.journal → is.exchange.is_offering ≡ was.exchange.is_offering → is.exchange ≡ was.exchange }
{}

/// What is noted of datagrams is what the outlet said of each; it is told of an event before anything is handed to it, by the gateway that
/// took it, and has the messages that this tells.
pub fn what_an_outlet_is_told_and_handed()
    ensures noted { (was is : Live) (a : OutDatagram) (messages : List SentMessage)
        (by : HandsBy (says None) was 0 0 (a ∷ []) messages is 0) → by.marks ≡ [] }
    ensures same { (was is : Live) (a : OutDatagram) (messages : List SentMessage) → HandsBy (says None) was 0 0 (a ∷ []) messages is 0
        → is.gateway ≡ was.gateway }
    ensures handed { (was is : Live) (a : OutDatagram) (messages : List SentMessage) (are : List Sent) → was.handed ≡ Some []
        → is.handed ≡ Some are → HandsBy (says None) was 0 0 (a ∷ []) messages is 0 → are ≡ sent_of a ∷ [] }
    ensures before { (was is : Live) (a : OutDatagram) (from : HandsFrom counts_turns loses_the_second was 0 (a ∷ []) is 2)
        → from.by.marks ≡ became Lost 1 ∷ [] }
    ensures teller { (teller : GatewayState) (was is : Live) → HandsFrom (is_told_by teller) (says None) was 0 [] is 0
        → is.gateway ≡ teller }
    ensures messages { (was is : Live) (a : OutDatagram) (one : SentMessage) (kept : List (List SentMessage))
        → length a.bytes ≡ one.size → is.gateway.account.sent ≡ one ∷ [] → HandsFrom stays_where_told keeps was [] (a ∷ []) is kept
        → kept ≡ (one ∷ []) ∷ [] }
    ensures taken_before { (was is : Live) (a : OutDatagram) (input : Input) (event : GatewayEvent)
        (by : TakesBy counts_turns loses_the_second was 0 input event is 2) → by.takes.outputs ≡ a ∷ []
        → by.takes.marks ≡ became Lost 1 ∷ [] }
    ensures taken_teller { (teller : GatewayState) (was is : Live) (input : Input) (event : GatewayEvent)
        → TakesBy (is_told_by teller) (says None) was 0 input event is 0 → is.gateway ≡ teller }
    ensures taken_messages { (was is : Live) (a : OutDatagram) (one : SentMessage) (kept : List (List SentMessage))
        (input : Input) (event : GatewayEvent) (by : TakesBy stays_where_told keeps was [] input event is kept)
        → by.takes.outputs ≡ a ∷ [] → length a.bytes ≡ one.size → is.gateway.account.sent ≡ one ∷ [] → kept ≡ (one ∷ []) ∷ [] }
{}

/// The page is asked for its next act where it is its turn, or nobody may have typed; behind a line that was typed it is its turn. Where it
/// is asked, and no line is left, its next act is the next line.
pub fn the_page_is_asked_by_turns()
    ensures turn { (asked : Bool) → IsAsked {S = ℕ} (λ around told. ⊥) 5 true asked → asked ≡ true }
    ensures typed { (asked : Bool) → IsAsked {S = ℕ} (λ around told. told.lines ≡ true) 5 false asked → asked ≡ false }
    ensures untyped { (asked : Bool) → IsAsked {S = ℕ} (λ around told. told.lines ≡ false) 5 false asked → asked ≡ true }
    ensures takes { (was is : Journal) (lines left : Lines) (is_then : Bool) → TakesIf true was lines false is left is_then
        → TakesAct was lines is_then is left }
    ensures behind { (was is : Desk ℕ ℕ) (page : TakesFromPage (λ around told. ⊥) (not false) false was is) → page.asked ≡ true }
    ensures left { (was is : Desk ℕ ℕ) (page : TakesFromPage (λ around told. ⊥) true false was is) → is_empty (left_of was.lines) ≡ false
        → is.lines ≡ was.lines }
{}

/// A visitor is answered by a board that shows the gateway as it was when their turn came, and how far its clock is behind; or, for want of
/// memory, by what the page was shown before. Where the clock fails at the start, turns begin at the moment to which ticks have come.
pub fn what_a_visitor_sees_is_the_gateway()
    ensures lag { (visitors left : Option (Box ℕ)) (was is : Desk ℕ ℕ) (events : List GatewayEvent)
        (visit : DoesVisit anywhere anybody_visits.serves 5 visitors left was is)
        → Stands was.play.gateway.value events → (plain was.play.gateway.value.setup events).now ≡ 3 → visit.lag ≡ 2 }
    ensures nobody { (visitors left : Option (Box ℕ)) (was is : Desk ℕ ℕ)
        (visit : DoesVisit anywhere anybody_visits.serves 5 visitors left was is)
        → was.exchange.journal.board ≡ None → visit.shown.board ≡ None }
    ensures shown { (visitors left : Option (Box ℕ)) (was is : Desk ℕ ℕ) (board shown : Box BoardState)
        (visit : DoesVisit anywhere anybody_visits.serves 5 visitors left was is)
        → was.exchange.journal.board ≡ Some board → visit.shown.board ≡ Some shown → (visit.shown ≡ was.exchange.journal)
        ⊎ IsOf was.play.gateway.value was.exchange.journal was.exchange.faults visit.lag shown.value.picture }
    ensures begun { (fault : Fault) (was is : Desk ℕ ℕ) (events : List GatewayEvent) → Starts (λ around clock. clock ≡ Err fault) was is
        → Stands was.play.gateway.value events → (plain was.play.gateway.value.setup events).now ≡ 7 → is.schedule ≡ opening 7 }
    ensures nothing { (was is : Desk ℕ ℕ) → DoesVisit {V = ℕ} anywhere (λ v s b at w t c. ⊥) 5 None None was is
        → is.exchange.around ≡ was.exchange.around }
{}

/// An input that is refused counts, and nothing else comes of it. Who has a turn stays, and the board that answers them. What the network
/// draws next says how many copies there are. What a turn leaves is written once, at its time, and nothing else of the desk changes.
pub fn what_a_turn_leaves_has_examples()
    ensures refused { (standing : Standing) → (with_input true standing).came.refused ≡ counted standing.came.refused 1 }
    ensures taken { (standing : Standing) → (with_input false standing).came.refused ≡ standing.came.refused }
    ensures input { (standing : Standing) → ((with_input true standing).live ≡ standing.live)
        × ((with_input true standing).came.received ≡ standing.came.received) }
    ensures served { (one two : Box ℕ) (board shown : Box BoardState)
        → HaveTurn {V = ℕ} {S = ℕ} (λ v s b at w t c. w ≡ at) 5 one 0 board (Some two) 0 (Some shown) → two.value ≡ 5 }
    ensures gone { (one : Box ℕ) (board shown : Box BoardState)
        → HaveTurn {V = ℕ} {S = ℕ} (λ v s b at w t c. ⊤) 5 one 0 board None 0 (Some shown) → ⊥ }
    ensures boardless { (one two : Box ℕ) (board : Box BoardState)
        → HaveTurn {V = ℕ} {S = ℕ} (λ v s b at w t c. ⊤) 5 one 0 board (Some two) 0 None → ⊥ }
    ensures copied { (network : BadNetwork) → next_fate In network ≡ Once 10
        → next_copies network In (at_port 9 2727) (1 ∷ []) 5 ≡ copy_behind 10 ∷ [] }
    ensures uncopied { (network : BadNetwork) → next_fate In network ≡ NeverComes
        → next_copies network In (at_port 9 2727) (1 ∷ []) 5 ≡ [] }
    ensures unturned { (was is : Desk ℕ ℕ × ℕ × ℕ) → HasNoTurn was is → ⊥ }
    ensures unwritten { (was is : Desk ℕ ℕ × ℕ × ℕ) → WritesNothing was is → ⊥ }
    ensures dated { (was is : Desk ℕ ℕ × ℕ × ℕ) (turns : WritesAtSeven was is) → turns.done.exchange.now.time ≡ 7 }
    ensures offers { (was is : Desk ℕ ℕ × ℕ × ℕ) → WritesAtSeven was is → is.0.exchange.is_offering ≡ true }
    ensures gateway { (was is : Desk ℕ ℕ × ℕ × ℕ) (turns : WritesAtSeven was is) → is.0.play.gateway ≡ turns.done.play.gateway }
    ensures around { (was is : Desk ℕ ℕ × ℕ × ℕ) (turns : WritesAtSeven was is) → is.0.exchange.around ≡ turns.done.exchange.around }
    ensures lines { (was is : Desk ℕ ℕ × ℕ × ℕ) (turns : WritesAtSeven was is) → is.0.lines ≡ turns.done.lines }
{}
