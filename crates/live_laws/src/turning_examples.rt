//! Worked examples of what a turn does, as theorems.
#![tactic(auto)]

ghost use Rattle.std.specs.Prelude.{◌≡◌, ◌⊎◌, ◌∷◌, ◌++◌, ⊤, codes, true, false, ℕ, List, [], Bool, Option, Some, None, is_some, length, Ok, Err};
ghost use Rattle.std.specs.List.{flat_map};
ghost use Rattle.gateway_core.specs.GatewayState.{GatewayState};
ghost use Rattle.machine_rules.specs.declared.refusal.Refusal.{Refusal as Why};
ghost use Rattle.live_system.specs.declared.ending.CommonEnding.{CommonEnding};
ghost use Rattle.live_system.specs.declared.ending.CommonEnding.TheVariants.{OutOfMemory};
ghost use Rattle.live_journal.specs.declared.trace.Trace.{Trace};
ghost use Rattle.live_journal.specs.Writing.{any_writer};
ghost use Rattle.live_gateway.specs.declared.admission.Admission.{Admission};
ghost use Rattle.live_gateway.specs.declared.desk.Desk.{Desk};
ghost use Rattle.live_gateway.specs.declared.exchange.Exchange.{Exchange};
ghost use Rattle.live_gateway.specs.Admitting.{is_heard};
ghost use Rattle.live_gateway.specs.Answering.{IsActAnswer};
ghost use Rattle.live_gateway.specs.Ending.{is_record_refused, IsCounted, WritesLast, OnlyEnds};
ghost use Rattle.live_laws.specs.TurnExample.{anywhere, anybody_visits, one, lost_one, once, failed, CanFreely, TriesNowhere, TriesOffHook, DoesNextAnywhere, LeavesLong, tells_long, comes_to, LooksNowhere, FindsNothing, SendsNowhere, HandsAnywhere, HandsNowhere, HandsWith, EndsSaying, CountsStranger, ActsAnywhere, writes_never};
ghost use Rattle.live_gateway.specs.Exchanging.{heard_in, mark_of, is_lost, faults_by, faultless, with_unreceived, unsent_in, IsTold, OnlySends, OnlyWrites, NotesTaken, NotesRefused, LosesOver, TakesOver};
ghost use Rattle.live_gateway.specs.Noting.{SaysWhy, SaysUntaken};
ghost use Rattle.live_gateway.specs.Desk.{Standing, MayRefuse};
ghost use Rattle.live_play.specs.Running.{Live};
ghost use Rattle.gateway_core.specs.Stands.{Stands};
ghost use Rattle.mg_line.specs.declared.phone.Act.TheVariants.{OffHook};
ghost use Rattle.plain_machine.specs.Event.{GatewayEvent, datagram, phone, tick};
ghost use Rattle.plain_machine.specs.Lists.{plain};
ghost use Rattle.traces.specs.Writing.{Input, arrived, passed};
ghost use Rattle.gateway_core.specs.Wire.{counted};
ghost use Rattle.message_counts.specs.Counting.{counts_in};
ghost use Rattle.message_counts.specs.Tallying.{with_handed_out};
ghost use Rattle.page_state.specs.declared.ring.Kind.TheVariants.{Sent as OfSent};
ghost use Rattle.gateway_core.specs.declared.sent.SentMessage.{SentMessage};
ghost use Rattle.told_messages.specs.Labelling.{sent_label};
ghost use Rattle.told_messages.specs.Showing.{HappenedWith};
ghost use Rattle.told_messages.specs.Coming.{untaken_text};
ghost use Rattle.told_messages.specs.Explaining.{reason_text};
ghost use Rattle.told_messages.specs.Logging.{explained_at};
ghost use Rattle.told_messages.specs.Strangers.{unheard_text};
ghost use Rattle.told_messages.specs.declared.log.Log.{Log};
ghost use Rattle.traces.specs.declared.telling.Mark.{Mark};
ghost use Rattle.traces.specs.declared.telling.Mark.TheVariants.{Unsent, Lost};
ghost use Rattle.live_gateway.specs.Leaving.{OnlyShows, OnlyTells, OnlyPlays, OnlyTicks, OnlyLogs, NotesPause, OnlyHears, OnlyReplies, OnlyWaits, TakesIf, DoesVisit};
ghost use Rattle.log_format.specs.Pausing.{pause_line};
ghost use Rattle.log_format.specs.declared.note.Note.TheVariants as notes;
ghost use Rattle.output_queues.specs.declared.record.RecordState.TheVariants.{Off, On};
ghost use Rattle.live_gateway.specs.Turning.{ready_at, RunsTurns};
ghost use Rattle.live_io.specs.declared.surroundings.Fault.{Fault};
ghost use Rattle.turns.specs.Schedule.{next_of};
ghost use Rattle.turns.specs.declared.turn.Turn.TheVariants.{Look, Wait};
ghost use Rattle.live_io.specs.Speaking.{anybody, nobody};
ghost use Rattle.std.specs.Global.{Box};
ghost use Rattle.page_state.specs.BoardShowing.{BoardState};
ghost use Rattle.live_gateway.specs.Visiting.{AreReady, ClosesAt, ServesOnce};

/// Where nothing changes of what may, nothing does. Neither a wait nor a visitor changes how much was read; without a turn the end stays.
pub fn what_stays_has_examples()
    ensures shown { (was is : Exchange ℕ) → OnlyShows was is → is.journal.board ≡ was.journal.board → is ≡ was }
    ensures played { (was is : Desk ℕ ℕ) → OnlyPlays was is → is.play ≡ was.play → is.exchange ≡ was.exchange → is ≡ was }
    ensures noted { (was is : Desk ℕ ℕ) → OnlyLogs was is → is.exchange.journal.log ≡ was.exchange.journal.log → is ≡ was }
    ensures paused { (was is : Desk ℕ ℕ) → NotesPause (record { lateness = 31000; read = Some 12 }) was is
        → was.exchange.journal.log.value.record.state ≡ On → is.exchange.journal.log.value.record.state ≡ On
        → is.exchange.journal.log.value.record.out.items ≡ was.exchange.journal.log.value.record.out.items
        ++ pause_line was.exchange.now.time 31000 (Some 12) }
    ensures heard { (was is : Desk ℕ ℕ) → OnlyHears false was is → is.exchange.around ≡ was.exchange.around → is.lines ≡ was.lines
        → is ≡ was }
    ensures said { (was is : Desk ℕ ℕ) → OnlyReplies was is → is.exchange.around ≡ was.exchange.around → is.lines ≡ was.lines → is ≡ was }
    ensures waited { (was is : Desk ℕ ℕ) → OnlyWaits (λ before longest outcome after. ⊤) 700 was is
        → (is.exchange.read ≡ was.exchange.read) × (is.end ≡ was.end) }
    ensures visited { (visitors left : Option (Box ℕ)) (was is : Desk ℕ ℕ)
        → DoesVisit anywhere anybody_visits.serves 5 visitors left was is
        → is.exchange.read ≡ was.exchange.read }
    ensures unasked { (desk : Desk ℕ ℕ) → TakesIf false desk.exchange.journal desk.lines true desk.exchange.journal desk.lines true }
    ensures unrun { (was is : Desk ℕ ℕ) → RunsTurns {V = ℕ} {W = ℕ} (λ s told. ⊤) (λ a v b w. ⊤) any_writer 0 was 3 7 is 3 7
        → is.end ≡ was.end }
{}

/// Who types may have something where a line is left, or as was told of their socket; the network where one that spoils it hands something
/// out by now, or as was told of its own; visitors as they say.
pub fn what_may_have_something_has_examples()
    ensures nothing { ready_at (record { lines = false; datagrams = false }) false None 5 false
        ≡ record { commands = false; datagrams = false; visitors = false } }
    ensures left { ready_at (record { lines = false; datagrams = false }) true None 5 false
        ≡ record { commands = true; datagrams = false; visitors = false } }
    ensures typed { ready_at (record { lines = true; datagrams = false }) false None 5 false
        ≡ record { commands = true; datagrams = false; visitors = false } }
    ensures come { ready_at (record { lines = false; datagrams = true }) false None 5 false
        ≡ record { commands = false; datagrams = true; visitors = false } }
    ensures held { ready_at (record { lines = false; datagrams = false }) false (Some 5) 5 false
        ≡ record { commands = false; datagrams = true; visitors = false } }
    ensures later { ready_at (record { lines = false; datagrams = false }) false (Some 6) 5 false
        ≡ record { commands = false; datagrams = false; visitors = false } }
    ensures visited { ready_at (record { lines = false; datagrams = false }) false None 5 true
        ≡ record { commands = false; datagrams = false; visitors = true } }
{}

/// An act is answered by what came of it: that it was done, want of memory, or why it was refused, as that is printed.
pub fn an_act_is_answered_by_what_came_of_it()
    ensures done { (printed answer : List ℕ) → IsActAnswer {A = ℕ} (Ok 0) printed answer → answer ≡ codes "done\n" }
    ensures memory { (printed answer : List ℕ) → IsActAnswer {A = ℕ} (Err Why.OutOfMemory) printed answer
        → answer ≡ codes "! 1 OutOfMemory\n" }
    ensures refused { (printed answer : List ℕ) → IsActAnswer {A = ℕ} (Err Why.PhoneState) printed answer → answer ≡ printed }
{}

/// A desk ends for want of memory where that was refused for a record; what was counted is said last, unless memory was refused for that.
pub fn a_desk_ends_as_its_records_and_counts_say()
    ensures refused { (desk : Desk ℕ Trace) (ending : CommonEnding) → is_record_refused desk.play.teller desk.exchange.journal ≡ true
        → EndsSaying [] desk ending → ending ≡ OutOfMemory }
    ensures counted { (last : List ℕ) (desk : Desk ℕ Trace) (ending : CommonEnding) → EndsSaying last desk ending
        → (ending ≡ OutOfMemory) ⊎ IsCounted desk last }
{}

/// What an exchange gives: nothing that wasn't looked for where no network is before the socket, and nothing of who isn't heard. There is
/// room for a datagram of 4,000 bytes, and to see that one is longer.
pub fn what_an_exchange_gives_has_examples()
    ensures unlooked { (was is : Desk ℕ ℕ) → is_some was.exchange.network ≡ false → LooksNowhere was is → ⊥ }
    ensures room { (was is : Desk ℕ ℕ) (looks : LooksNowhere was is) → length looks.room ≡ 4001 }
    ensures nothing { (looked : Exchange ℕ) (was is : Desk ℕ ℕ) → FindsNothing looked was is → is.exchange ≡ looked }
    ensures heard { (admission : Admission) → is_heard admission one.0 ≡ true → heard_in admission (Some one) ≡ Some one }
    ensures strange { (admission : Admission) → is_heard admission one.0 ≡ false → heard_in admission (Some one) ≡ None }
    ensures counts { (admission : Admission) → CountsStranger admission }
    ensures unsent { (was is : Exchange ℕ) → was.network ≡ None → SendsNowhere was is → ⊥ }
    ensures unlost { LosesOver one.0 [] 5 true None None → ⊥ }
    ensures marks { mark_of lost_one ∷ mark_of once ∷ mark_of failed ∷ [] ≡ Some Lost ∷ None ∷ Some Unsent ∷ [] }
    ensures losses { is_lost lost_one ∷ is_lost once ∷ is_lost failed ∷ [] ≡ true ∷ false ∷ true ∷ [] }
    ensures clock { faults_by {E = ℕ} (Ok 5) faultless ∷ faults_by failed faultless ∷ [] ≡ faultless ∷ with_unreceived faultless ∷ [] }
{}

/// What a gateway sends leaves what was read, and what couldn't be received; where a datagram goes out, or is lost, nothing fails.
pub fn what_goes_over_an_exchange_has_examples()
    ensures count { unsent_in (Some Unsent ∷ None ∷ Some Lost ∷ Some Unsent ∷ []) ≡ 2 }
    ensures sent { (was is : Exchange ℕ) → OnlySends (Some Unsent ∷ []) was is
        → (is.faults.send ≡ counted was.faults.send 1) × (is.read ≡ was.read) × (is.faults.receive ≡ was.faults.receive) }
    ensures told { (gateway : GatewayState) (was is : Exchange ℕ) → IsTold was gateway is → is.faults ≡ was.faults }
    ensures recorded { (gateway : GatewayState) (was is : Exchange ℕ) → IsTold was gateway is
        → (is.journal.written ≡ was.journal.written) × (is.journal.capture ≡ was.journal.capture) }
    ensures unwritten { (mark : Option Mark) (was is : Exchange ℕ) → HandsAnywhere mark was is → is.journal.written ≡ was.journal.written }
    ensures captured { (mark : Option Mark) (was is : Exchange ℕ) → HandsAnywhere mark was is
        → is.journal.capture.value.here ≡ was.journal.capture.value.here }
    ensures unlogged { (mark : Option Mark) (was is : Exchange ℕ) → HandsAnywhere mark was is → was.journal.log.value.record.state ≡ Off
        → is.journal.log.value.record.out.items ≡ was.journal.log.value.record.out.items }
    ensures unfailed { (said : List (Option Mark)) (was is : Exchange ℕ) → OnlySends said was is
        → is.journal.written ≡ was.journal.written }
    ensures quiet { (gateway : GatewayState) (was is : Exchange ℕ) → gateway.outcomes ≡ [] → IsTold was gateway is
        → counts_in is.journal.tally.value.texts ≡ counts_in was.journal.tally.value.texts }
    ensures gone { (was is : Exchange ℕ) → HandsAnywhere None was is → is.faults ≡ was.faults }
    ensures lost { (was is : Exchange ℕ) → HandsAnywhere (Some Lost) was is → is.faults ≡ was.faults }
    ensures unsent { (was is : Exchange ℕ) → HandsAnywhere (Some Unsent) was is → is.faults.send ≡ counted was.faults.send 1 }
    ensures handed { (mark : Option Mark) (was is : Exchange ℕ) → HandsAnywhere mark was is
        → (is.journal.tally.value ≡ with_handed_out was.journal.tally.value) × (is.read ≡ was.read) × (is.now ≡ was.now) }
    ensures marked { (mark : Option Mark) (was is : Exchange ℕ) → was.network ≡ None → is.network ≡ None → HandsNowhere mark was is
        → mark ≡ Some Unsent }
    ensures labelled { (message : SentMessage) (was is : Exchange ℕ) (board shown : Box BoardState) → was.journal.board ≡ Some board
        → is.journal.board ≡ Some shown → HandsWith message was is
        → HappenedWith was.now.clock OfSent one.0 [] (sent_label message ∷ []) board.value shown.value }
    ensures ticked { (was is : Desk ℕ ℕ) → OnlyTicks (λ around time. ⊤) 5 was is → is.exchange.now.clock ≡ 5 }
    ensures dated { (was is : Desk ℕ ℕ) → OnlyTicks (λ around time. time ≡ 7) 5 was is → is.exchange.now.time ≡ 7 }
{}

/// A wait lasts until its moment, but for 20 ms at most where something waits to be taken, and a look doesn't last at all. One that fails
/// is counted, once, and no other one.
pub fn what_a_wait_comes_to_has_examples()
    ensures lasts { (was is : Desk ℕ ℕ) → was.exchange.is_offering ≡ false → OnlyWaits tells_long 700 was is → is.exchange.around ≡ 700 }
    ensures offers { (was is : Desk ℕ ℕ) → was.exchange.is_offering ≡ true → OnlyWaits tells_long 700 was is → is.exchange.around ≡ 20 }
    ensures failed { (fault : Fault) (was is : Desk ℕ ℕ) → OnlyWaits (comes_to (Err fault)) 700 was is
        → is.exchange.faults ≡ with_unreceived was.exchange.faults }
    ensures went_well { (was is : Desk ℕ ℕ) → OnlyWaits (comes_to (Ok tt)) 700 was is → is.exchange.faults ≡ was.exchange.faults }
    ensures until { (visitors left : Option (Box ℕ)) (was is : Desk ℕ ℕ) → was.exchange.is_offering ≡ false
        → LeavesLong 500 (Wait 1200) visitors left was is → is.exchange.around ≡ 700 }
    ensures looks { (visitors left : Option (Box ℕ)) (was is : Desk ℕ ℕ) → was.exchange.is_offering ≡ false
        → LeavesLong 500 Look visitors left was is → is.exchange.around ≡ 0 }
{}

/// A turn is what comes next by the schedule, as things stand, at the moment to which ticks have come, with the time of day that was told.
/// Before it only its clocks, faults and schedule change, and behind it what is around the desk, and who watches.
pub fn what_comes_next_has_examples()
    ensures next { (was is : Desk ℕ ℕ) (visitors left : Option (Box ℕ)) (does : DoesNextAnywhere was visitors is left)
        → (does.turn, is.schedule) ≡ next_of was.schedule does.at }
    ensures clock { (was is : Desk ℕ ℕ) (visitors left : Option (Box ℕ)) (does : DoesNextAnywhere was visitors is left)
        → does.begun.exchange.now.clock ≡ does.at.ticked }
    ensures dated { (was is : Desk ℕ ℕ) (visitors left : Option (Box ℕ)) (does : DoesNextAnywhere was visitors is left)
        → does.begun.exchange.now.time ≡ 7 }
    ensures faults { (was is : Desk ℕ ℕ) (visitors left : Option (Box ℕ)) (does : DoesNextAnywhere was visitors is left)
        → does.begun.exchange.faults ≡ faults_by does.situation.clock was.exchange.faults }
    ensures before { (was is : Desk ℕ ℕ) (visitors left : Option (Box ℕ)) (does : DoesNextAnywhere was visitors is left)
        → does.begun.lines ≡ was.lines }
    ensures behind { (was is : Desk ℕ ℕ) (visitors left : Option (Box ℕ)) (does : DoesNextAnywhere was visitors is left)
        → (is.play ≡ does.done.play) × (is.lines ≡ does.done.lines) × (is.exchange.faults ≡ does.done.exchange.faults) }
{}

/// Where a gateway takes an event nothing is read, nor counted as refused; and of a desk at which an act was asked for the end stays. A
/// tick and an act that can be done, and take no memory, are done; a datagram is refused for want of memory alone.
pub fn what_is_tried_has_examples()
    ensures taken { (was is : Live) (input : Input) (event : GatewayEvent) (from to : Exchange ℕ)
        → TakesOver (λ before to bytes sent after. ⊤) anybody was from input event is to
        → (to.faults.refused ≡ from.faults.refused) × (to.read ≡ from.read) × (to.now ≡ from.now) }
    ensures tried { (was is : Standing) (input : Input) (event : GatewayEvent) (from to : Exchange ℕ)
        → TriesNowhere input event was from is to
        → (is.came.refused ≡ was.came.refused) ⊎ (to.faults.refused ≡ counted from.faults.refused 1) }
    ensures ticked { (was is : Standing) (events : List GatewayEvent) (from to : Exchange ℕ) → Stands was.live.gateway events
        → CanFreely (plain was.live.gateway.setup events) (tick 5) → TriesNowhere (passed 5) (tick 5) was from is to
        → is.came.refused ≡ was.came.refused }
    ensures heard { (was is : Standing) (from to : Exchange ℕ) → Stands was.live.gateway []
        → TriesNowhere (arrived one.0 []) (datagram one.0 []) was from is to
        → (is.came.refused ≡ was.came.refused) ⊎ MayRefuse was.live.gateway (datagram one.0 []) Why.OutOfMemory }
    ensures done { (was is : Standing) (events : List GatewayEvent) (from to : Exchange ℕ) (answer : List ℕ)
        → Stands was.live.gateway events → CanFreely (plain was.live.gateway.setup events) (phone 1 OffHook)
        → TriesOffHook answer was from is to → answer ≡ codes "done\n" }
    ensures acted { (was is : Desk ℕ ℕ) → ActsAnywhere was is → (is.end ≡ was.end) × (is.admission ≡ was.admission) }
{}

/// Where an input was refused that is counted, and else the log alone changes: of a datagram it says why commands of it were refused, or
/// that it wasn't taken, and then to which commands that were sent no answer is heard; of an act or a tick no more than that.
pub fn what_is_noted_has_examples()
    ensures refused { (was is : Exchange ℕ) → NotesRefused (tick 5) was is
        → (is.faults.refused ≡ counted was.faults.refused 1) × (is.journal.tally ≡ was.journal.tally) × (is.around ≡ was.around) }
    ensures unsaid { (was is : Exchange ℕ) → NotesRefused (tick 5) was is → is.journal.log.value ≡ was.journal.log.value }
    ensures untaken { (was is : Exchange ℕ) → NotesRefused (datagram one.0 (codes "x")) was is → is.journal.log.value.arrival ≡ None }
    ensures taken { (gateway : GatewayState) (was is : Exchange ℕ) → NotesTaken anybody (tick 5) gateway was is
        → is.journal.log ≡ was.journal.log → is ≡ was }
    ensures why { (gateway : GatewayState) (was is : Exchange ℕ) → NotesTaken nobody (datagram one.0 []) gateway was is
        → was.journal.log.value.record.state ≡ On → is.journal.log.value.record.state ≡ On → is.journal.log.value.record.out.items
        ≡ (was.journal.log.value.record.out.items ++ flat_map (reason_text (explained_at was.journal.log.value)) gateway.outcomes)
        ++ flat_map (unheard_text nobody was.now.time) gateway.account.sent }
    ensures acted { (gateway : GatewayState) (was is : Log) → SaysWhy (phone 1 OffHook) gateway.outcomes was is → is ≡ was }
    ensures ticked { (gateway : GatewayState) (was is : Log) → SaysWhy (tick 5) gateway.outcomes was is → is ≡ was }
    ensures unacted { (was is : Log) → SaysUntaken (phone 1 OffHook) 5 was is → is ≡ was }
    ensures left_out { (was is : Log) → SaysUntaken (datagram one.0 (codes "x")) 5 was is → was.record.state ≡ On → is.record.state ≡ On
        → is.record.out.items
        ≡ was.record.out.items ++ untaken_text was.domain (record { moment = 5; peer = one.0 }) (codes "x") notes.OutOfMemory }
    ensures answered { (was is : Exchange ℕ) → OnlyTells was is → is.around ≡ was.around → is.journal.board ≡ was.journal.board → is ≡ was }
{}

/// Visitors are held to what they said, and to their turns: where nobody can be served, nobody was; where nobody visits, none is ready.
pub fn what_visitors_have_has_examples()
    ensures nobody { (ready : Bool) → AreReady {V = ℕ} {S = ℕ} (λ v s at r. ⊤) None 0 5 ready → ready ≡ false }
    ensures unsaid { (one : Box ℕ) (ready : Bool) → AreReady {S = ℕ} (λ v s at r. ⊥) (Some one) 0 5 ready → ⊥ }
    ensures never { (deadline : Option ℕ) → ClosesAt {V = ℕ} (λ v at. ⊤) None deadline → deadline ≡ None }
    ensures unserved { (one : Box ℕ) (board : Box BoardState) (left : Option (Box ℕ)) (shown : Option (Box BoardState))
        → ServesOnce {S = ℕ} (λ v s b at w t c. ⊥) 5 (Some one) 0 (Some board) left 0 shown → ⊥ }
{}

/// Where what was recorded is written, once a turn, and where a desk ends, what was counted stays, and what the page is shown; of a desk
/// that ends its gateway does too, and when it ends.
pub fn what_writing_leaves_has_examples()
    ensures wrote { (was is : Exchange ℕ) → OnlyWrites was is
        → (is.journal.tally ≡ was.journal.tally) × (is.journal.board ≡ was.journal.board) × (is.faults ≡ was.faults) }
    ensures unwritten { (was is : Desk ℕ ℕ)
        → RunsTurns {V = ℕ} {W = ℕ} (λ s told. ⊤) (λ a v b w. ⊤) writes_never 1 was 3 7 is 3 7 → ⊥ }
    ensures offering { (was is : Desk ℕ ℕ)
        → RunsTurns {V = ℕ} {W = ℕ} (λ s told. ⊤) (λ a v b w. ⊤) (record any_writer { offers = λ w o. o ≡ true }) 1 was 3 7 is 3 7
        → is.exchange.is_offering ≡ true }
    ensures last { (was is : Desk ℕ Trace) → WritesLast {W = ℕ} (λ b j t n a k u. n ≡ 7) was 0 is 0 → was.exchange.now.time ≡ 7 }
    ensures ended { (was is : Desk ℕ ℕ) → OnlyEnds was is
        → (is.exchange.journal.tally ≡ was.exchange.journal.tally) × (is.exchange.journal.board ≡ was.exchange.journal.board) }
    ensures rested { (was is : Desk ℕ ℕ) → OnlyEnds was is
        → (is.play.gateway ≡ was.play.gateway) × (is.exchange.faults ≡ was.exchange.faults) × (is.end ≡ was.end) }
{}
