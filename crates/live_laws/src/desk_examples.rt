//! Worked examples, as theorems, of what a line asks for and is answered at a desk, of how things stand there, of what a look finds, and of
//! whom a gateway knows.
#![tactic(auto, unfolding(crate::proofs::Computing::on_examples))]

ghost use Rattle.std.specs.Prelude.{◌≡◌, ◌⊎◌, ⊤, ℕ, Bool, true, false, not, codes, List, [], ◌∷◌, Option, Some, None, Ok, Err, IsTrue};
ghost use Rattle.std.specs.Global.{Box};
ghost use Rattle.std.specs.declared.net.socket_addr.SocketAddrV4.{SocketAddrV4};
ghost use Rattle.impairment.specs.declared.fate.Fate.TheVariants.{Once};
ghost use Rattle.impairment.specs.Waiting.{first_due};
ghost use Rattle.endpoint_names.specs.declared.route.Route.TheVariants.{One};
ghost use Rattle.endpoint_names.specs.declared.table.Host.{Host};
ghost use Rattle.endpoint_names.specs.Route.{addresses};
ghost use Rattle.gateway_core.specs.GatewayState.{GatewayState};
ghost use Rattle.gateway_core.specs.Stands.{Stands};
ghost use Rattle.message_counts.specs.Tallying.{with_stranger};
ghost use Rattle.message_counts.specs.declared.reporting.Faults.{Faults};
ghost use Rattle.mg_bytes.specs.Lines.{line_of};
ghost use Rattle.mg_bytes.specs.Lists.{is_empty};
ghost use Rattle.plain_machine.specs.Event.{GatewayEvent};
ghost use Rattle.plain_machine.specs.Lists.{plain};
ghost use Rattle.plain_machine.specs.declared.setup.Setup.{Setup};
ghost use Rattle.live_io.specs.Requests.{requests_from};
ghost use Rattle.live_io.specs.Speaking.{nobody, with_host};
ghost use Rattle.live_io.specs.Typing.{left_of, behind};
ghost use Rattle.live_io.specs.declared.lines.Lines.{Lines};
ghost use Rattle.live_io.specs.declared.surroundings.Fault.{Fault};
ghost use Rattle.turns.specs.Clock.{earlier, has_come};
ghost use Rattle.turns.specs.declared.situation.Situation.{Situation};
ghost use Rattle.live_journal.specs.declared.journal.Journal.{Journal};
ghost use Rattle.live_play.specs.Readable.{first_unread};
ghost use Rattle.telephone_control.specs.Admitting.{typist_of};
ghost use Rattle.telephone_control.specs.Asking.{request_in, usage, wants_memory};
ghost use Rattle.telephone_control.specs.declared.telephones.Typist.{Typist};
ghost use Rattle.telephone_control.specs.declared.telephones.TelephoneRequest.TheVariants.{Counts, OutOfMemory, Refused, Stop, Unknown};
ghost use Rattle.telephone_control.specs.declared.watch.Watch.{Watch};
ghost use Rattle.live_gateway.specs.declared.admission.Admission.{Admission};
ghost use Rattle.live_gateway.specs.declared.desk.Desk.{Desk};
ghost use Rattle.live_gateway.specs.declared.exchange.Exchange.{Exchange};
ghost use Rattle.live_gateway.specs.declared.spoilt_way.SpoiltWay.{SpoiltWay};
ghost use Rattle.live_gateway.specs.Admitting.{hosts_of, known_to, with_hosts, with_named};
ghost use Rattle.live_gateway.specs.Answering.{AnswersLine, AnswersRequest, AsksToWatch, DoesLine, IsFirst, IsPut, IsRequest, IsTypist, WatchesFor};
ghost use Rattle.live_gateway.specs.Ending.{is_stop, AsksForEnd, EndsAt, WroteTimes};
ghost use Rattle.live_gateway.specs.Exchanging.{faults_at, moment_at, next_due, with_read, with_unreceived, CountsReceived, IsSentSo, LooksHere, LooksOnce, NotesFate};
ghost use Rattle.live_gateway.specs.Naming.{agents_line, agents_word, known_word, no_word, with_all};
ghost use Rattle.live_gateway.specs.Noting.{NotesStranger, NotesUnsent};
ghost use Rattle.live_gateway.specs.Turning.{ready_at, IsSituation};
ghost use Rattle.told_messages.specs.Recording.{Records, unsent_text};
ghost use Rattle.told_messages.specs.declared.log.Log.{Log};
ghost use Rattle.live_laws.specs.Example.{host, at_port};
ghost use Rattle.live_laws.specs.TurnExample.{anywhere, anybody_visits};

/// The first line that is left is read, as who typed it may ask; a page's line is nobody's from this machine. What isn't want of memory is
/// what the line asks for, and memory is wanted where there may be too little.
pub fn what_a_line_asks_for_has_examples()
    ensures first { (lines : Lines) (text : List ℕ) (first : IsFirst lines text) → text ≡ line_of first.0 }
    ensures typist { (lines : Lines) (who : Typist) (typist : IsTypist lines true who)
        → who ≡ typist_of typist.is_here typist.is_afar true }
    ensures nobody_here { (lines : Lines) (who : Typist) (typist : IsTypist lines true who) → lines.sender ≡ None
        → IsTrue typist.is_here → ⊥ }
    ensures nobody_afar { (lines : Lines) (who : Typist) (typist : IsTypist lines true who) → lines.sender ≡ None
        → IsTrue typist.is_afar → ⊥ }
    ensures asked { (lines : Lines) (text : List ℕ) (request : IsRequest lines true text Counts) → request_in request.who text ≡ Counts }
    ensures unread { (lines : Lines) (text : List ℕ) (request : IsRequest lines true text OutOfMemory)
        → wants_memory (request_in request.who text) ≡ true }
{}

/// A line is answered to who sent it, and is left no more. What was counted is told, or that memory is refused. The page can't watch. Who
/// asks for the end has it at once, and is answered then; from afar nothing of a datagram is done. Where no line is left nothing is done.
pub fn what_a_line_is_answered_has_examples()
    ensures sender { (answer : List ℕ) (was is : Desk ℕ ℕ) → AnswersLine (λ before to text after. ⊤) 3 answer was is
        → is.lines.sender ≡ was.lines.sender }
    ensures left { (answer : List ℕ) (was is : Desk ℕ ℕ) → AnswersLine (λ before to text after. ⊤) 3 answer was is
        → left_of is.lines ≡ requests_from (behind (left_of was.lines)) }
    ensures unanswered { (answer : List ℕ) (was is : Desk ℕ ℕ) → was.lines.sender ≡ None
        → AnswersLine (λ before to text after. ⊥) 3 answer was is → is.exchange.around ≡ 3 }
    ensures put { (gateway : GatewayState) (events : List GatewayEvent) (answer : List ℕ) → Stands gateway events
        → IsPut gateway (λ all. codes "a") answer → (answer ≡ codes "! 1 OutOfMemory\n") ⊎ (answer ≡ codes "a") }
    ensures page_watches { (gateway : GatewayState) (answer : List ℕ) (was is : Watch) → WatchesFor None gateway 60 answer was is
        → (is ≡ was) × (answer ≡ usage) }
    ensures page_asks { (gateway : GatewayState) (answer : List ℕ) (was is : Watch) → AsksToWatch None gateway 60 answer was is
        → (answer ≡ codes "! 1 OutOfMemory\n") ⊎ (answer ≡ usage) }
    ensures stop { (was is : Desk ℕ ℕ) → AnswersRequest (λ before to text after. ⊤) Stop was is
        → (is.end ≡ Some 0) × (is.lines ≡ was.lines) }
    ensures refused { (was is : Desk ℕ ℕ) → AnswersRequest (λ before to text after. ⊤) Refused was is → left_of is.lines ≡ [] }
    ensures unknown { (was is : Desk ℕ ℕ) → AnswersRequest (λ before to text after. ⊤) Unknown was is
        → left_of is.lines ≡ requests_from (behind (left_of was.lines)) }
    ensures none_left { (was is : Desk ℕ ℕ) → left_of was.lines ≡ []
        → DoesLine (λ told. None) anywhere was is → is ≡ was }
{}

/// How things stand is as the clock, the sockets and visitors told, as the gateway's clock has come, and as what falls due first. A clock
/// that fails, or tells a moment of no trace, leaves the moment that ticks have come to.
pub fn how_things_stand_has_examples()
    ensures asked { (was : Desk ℕ ℕ) (at : Situation)
        (stand : IsSituation (record anywhere { passes = λ around clock. clock ≡ Ok 700 }) anybody_visits None was at)
        → stand.clock ≡ Ok 700 }
    ensures moment { (was : Desk ℕ ℕ) (at : Situation)
        (stand : IsSituation anywhere anybody_visits None was at)
        → at.moment ≡ moment_at stand.clock at.ticked }
    ensures ticked { (was : Desk ℕ ℕ) (at : Situation) (events : List GatewayEvent)
        (stand : IsSituation anywhere anybody_visits None was at)
        → Stands was.play.gateway.value events → at.ticked ≡ (plain was.play.gateway.value.setup events).now }
    ensures due { (was : Desk ℕ ℕ) (at : Situation)
        (stand : IsSituation anywhere anybody_visits None was at)
        → at.due ≡ earlier (earlier stand.own (next_due was.exchange.network)) None }
    ensures ends { (was : Desk ℕ ℕ) (at : Situation)
        (stand : IsSituation anywhere anybody_visits None was at)
        → (at.end ≡ was.end) × (at.read ≡ was.exchange.read) }
    ensures ready { (was : Desk ℕ ℕ) (at : Situation)
        (stand : IsSituation anywhere anybody_visits None was at)
        → at.ready ≡ ready_at stand.told (not (is_empty (left_of was.lines))) (next_due was.exchange.network) at.ticked false }
    ensures unspoilt { next_due None ≡ None }
    ensures spoilt { (way : Box SpoiltWay) → next_due (Some way) ≡ first_due way.value.network.waiting.items }
    ensures told { moment_at (Ok 5) 3 ≡ 5 }
    ensures untellable { moment_at (Ok first_unread) 3 ≡ 3 }
    ensures failed { (fault : Fault) → moment_at (Err fault) 3 ≡ 3 }
{}

/// Without an end it doesn't come; `stop` asks for it where it is the next line, and somebody typed it. What is written so often is written
/// as often.
pub fn when_a_desk_ends_has_examples()
    ensures endless { (gateway : GatewayState) (events : List GatewayEvent) → Stands gateway events → EndsAt None gateway true → ⊥ }
    ensures end { (gateway : GatewayState) (events : List GatewayEvent) (is_over : Bool) → Stands gateway events
        → EndsAt (Some 5) gateway is_over → is_over ≡ has_come (Some 5) (plain gateway.setup events).now }
    ensures stop { is_stop (codes "stop\n" ∷ []) ≡ true }
    ensures later { is_stop (codes "show 1\n" ∷ codes "stop\n" ∷ []) ≡ false }
    ensures none { is_stop [] ≡ false }
    ensures pages { (lines : Lines) → lines.sender ≡ None → AsksForEnd lines → ⊥ }
    ensures unasked { (lines : Lines) → left_of lines ≡ [] → AsksForEnd lines → ⊥ }
    ensures unwritten { (is : ℕ) → WroteTimes (λ before after. ⊥) 0 3 is → is ≡ 3 }
    ensures never { (is : ℕ) → WroteTimes (λ before after. ⊥) 1 3 is → ⊥ }
{}

/// A look gives what the socket gave, where that is heard; that is read, and counted, and a look that fails is a fault. Of what couldn't be
/// sent nothing comes; a stranger's is counted, and neither captured nor shown; what couldn't be sent is noted, and counts nothing there.
pub fn what_a_look_finds_has_examples()
    ensures read { with_read true 5 ∷ with_read false 5 ∷ [] ≡ 6 ∷ 5 ∷ [] }
    ensures faults { (fault : Fault) (faults : Faults) → faults_at (Err fault) faults ≡ with_unreceived faults }
    ensures no_fault { (faults : Faults) → faults_at (Ok None) faults ≡ faults }
    ensures nothing { (was is : Exchange ℕ) (found : Option (SocketAddrV4 × ℕ))
        → LooksOnce (λ before outcome room after. outcome ≡ Ok None) was found [] is → (found ≡ None) × (is.read ≡ was.read) }
    ensures fails { (fault : Fault) (was is : Exchange ℕ) (found : Option (SocketAddrV4 × ℕ))
        → LooksOnce (λ before outcome room after. outcome ≡ Err fault) was found [] is → is.faults ≡ with_unreceived was.faults }
    ensures unheard { (admission : Admission) (was is : Exchange ℕ) (given : Option (SocketAddrV4 × ℕ))
        → LooksHere (λ before outcome room after. outcome ≡ Ok None) admission was given [] is
        → (given ≡ None) × (is.journal.tally.value ≡ was.journal.tally.value) }
    ensures directly { (admission : Admission) (was is : Exchange ℕ) (given : Option (SocketAddrV4 × ℕ)) → was.network ≡ None
        → CountsReceived (λ before outcome room after. outcome ≡ Ok None) admission was given [] is → given ≡ None }
    ensures goes { IsSentSo (Ok tt) (Ok (Once 0)) }
    ensures unsent { (fault : Fault) → IsSentSo (Err fault) (Ok (Once 0)) → ⊥ }
    ensures stranger { (was is : Journal) → NotesStranger was 5 (at_port 9 2727) is
        → (is.tally.value ≡ with_stranger was.tally.value) × (is.capture ≡ was.capture) × (is.board ≡ was.board) }
    ensures noted { (was is : Journal) → NotesUnsent was 5 (at_port 9 2727) is → (is.tally ≡ was.tally) × (is.capture ≡ was.capture) }
    ensures fate { (fault : Fault) (was is : Log) → NotesFate 5 (at_port 9 2727) (Err fault) was is
        → Records was.record (unsent_text 5 (at_port 9 2727)) is.record }
{}

/// A gateway knows its agent and all hosts that its configuration names, and the word that is told of it has the same, but where one is
/// said.
pub fn whom_a_gateway_knows_has_examples()
    ensures agent { (setup : Setup) → setup.agent.route ≡ One (at_port 9 2727) → setup.names.table ≡ []
        → known_to setup ≡ with_host nobody (host 9) }
    ensures named { (setup : Setup) (named : Host) → setup.names.table ≡ named ∷ []
        → known_to setup ≡ with_named (with_hosts nobody (addresses (hosts_of setup.agent.route))) named }
    ensures word { (setup : Setup) → setup.names.table ≡ []
        → known_word setup ≡ (with_all no_word (addresses (hosts_of setup.agent.route))).text }
    ensures known { (setup : Setup) → agents_word None setup ≡ known_word setup }
    ensures said { (setup : Setup) → agents_line (Some (codes "any")) setup ≡ codes "agents: --agents any\n" }
{}
