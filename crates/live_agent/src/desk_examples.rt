//! Worked examples of what a desk waits for, of what its turns leave, and of how it ends, as theorems.
#![tactic(auto)]

ghost use Rattle.std.specs.Prelude.{◌≡◌, ◌⊎◌, [], ◌∷◌, ℕ, true, false, List, Option, Some, None, Ok, Err, codes, is_some, length, map, slice_get};
ghost use Rattle.std.specs.declared.net.socket_addr.SocketAddrV4.{SocketAddrV4};
ghost use Rattle.std.specs.Result.{result_err};
ghost use Rattle.agent_config.specs.declared.config.AgentConfig.{AgentConfig};
ghost use Rattle.agent_log.specs.declared.journal.Journal.{Journal};
ghost use Rattle.agent_log.specs.declared.tally.Tally.{Tally};
ghost use Rattle.agent_log.specs.Counts.{with_given_up, with_notification};
ghost use Rattle.agent_log.specs.Telling.{Tells};
ghost use Rattle.log_format.specs.Pausing.{pause_line};
ghost use Rattle.impairment.specs.declared.network.BadNetwork.{BadNetwork};
ghost use Rattle.impairment.specs.declared.packet.Packet.{Packet};
ghost use Rattle.impairment.specs.declared.packet.Way.TheVariants.{In, Out};
ghost use Rattle.impairment.specs.Drawing.{after_draws_on};
ghost use Rattle.impairment.specs.declared.spoiling.Spoiling.{Spoiling};
ghost use Rattle.call_agent.specs.AgentStands.{AgentStands};
ghost use Rattle.call_agent.specs.Hearing.{AgentEvent};
ghost use Rattle.call_agent.specs.declared.issuing.Issued.{Issued};
ghost use Rattle.call_agent.specs.declared.issuing.IssueFault.{IssueFault};
ghost use Rattle.machine_rules.specs.declared.refusal.Refusal.{Refusal};
ghost use Rattle.live_io.specs.Sending.{Traffic};
ghost use Rattle.live_io.specs.declared.surroundings.Fault.{Fault};
ghost use Rattle.transmission.specs.declared.output.OutDatagram.{OutDatagram};
ghost use Rattle.turns.specs.Runs.{is_end};
ghost use Rattle.turns.specs.Schedule.{next_of};
ghost use Rattle.turns.specs.declared.schedule.Schedule.{Schedule};
ghost use Rattle.turns.specs.declared.turn.Pause.{Pause};
ghost use Rattle.mg_bytes.specs.Lines.{cut, line_of};
ghost use Rattle.output_queues.specs.declared.written.Written.{Written};
ghost use Rattle.agent_gateways.specs.declared.gateway.Gateway.{Gateway};
ghost use Rattle.live_agent.specs.declared.session.Request.TheVariants as requests;
ghost use Rattle.agent_gateways.specs.declared.switchboard.Switchboard.{Switchboard};
ghost use Rattle.live_agent.specs.declared.wire.Wire.{Wire};
ghost use Rattle.live_agent.specs.Clock.{is_behind};
ghost use Rattle.live_agent.specs.Clock.{milliseconds};
ghost use Rattle.live_agent.specs.Datagrams.{with_stranger, DealsIf, HearsBy, HearsDatagram, HearsOne, HearsPacket, HearsTexts, SettlesIf, StepsAt, TakesEach, TakesElse, TakesFound, TakesLooked, TakesNext, TakesReceived};
ghost use Rattle.agent_gateways.specs.Hearing.{HearsText};
ghost use Rattle.agent_gateways.specs.Dues.{FallsDueAt};
ghost use Rattle.agent_gateways.specs.Example.{HasAgent};
ghost use Rattle.agent_gateways.specs.Opening.{gateways_from, known_as, BoardOf};
ghost use Rattle.agent_gateways.specs.Steps.{settled_in, WaitsIn};
ghost use Rattle.agent_gateways.specs.Taking.{taken_place};
ghost use Rattle.live_agent.specs.declared.wire.TheConstants.{MOST_AT_ONCE};
ghost use Rattle.live_agent.specs.AnyAround.{anywhere, ends_any, serves_any, serves_never, writes_any, writes_nothing};
ghost use Rattle.live_agent.specs.Ending.{counted_in, EndsWith, WritesAndEnds};
ghost use Rattle.live_agent.specs.Handing.{comes_in, HandsFirst, HandsLast, Leaves, Offers, OffersTo, SendsEachOn, SendsOn, TakesOffer};
ghost use Rattle.live_agent.specs.Sending.{GoesOut, SendsAll, SendsCommand, SendsOne, SendsOutputs, SendsOver, SettlesLines};
ghost use Rattle.live_agent.specs.Serving.{RunsTurns, ServesOver, ServesToEnd, StopsAt, Writes};
ghost use Rattle.live_agent.specs.Settling.{SendsEach, SendsIssued, SendsNext, SettlesBy, ShowsEach, ShowsOne};
ghost use Rattle.live_agent.specs.Tallying.{leaving_counted, with_receive_fault, with_refusal, with_send_fault, OnlyCounts, OnlyNotes, OnlyRecords, OnlyTells, OnlyTellsAndNotes};
ghost use Rattle.live_agent.specs.Ticking.{GivesUpEach, GivesUpMany, GivesUpNext, TicksEach, TicksOne, WakesEach, WakesMany};
ghost use Rattle.live_agent.specs.Turning.{DoesNext, line_request, first_request, DoesRequest, DoesTurn, Notes, TellsCounts, TickedOver, Waits, WaitsUntil};
ghost use Rattle.agent_gateways.specs.Typed.{typed_text};
ghost use Rattle.agent_gateways.specs.TypedCommands.{IssuesCommand, IssuesMeant, IssuesThere};
ghost use Rattle.live_agent.specs.TypedCommands.{fault_text, issued_text, TellsIssued, AnswersAll, AnswersIssued, IsTypedNext};
ghost use Rattle.live_agent.specs.Wiring.{longest_until, FallsDueFirst, IsWaitedFor, SpoilsSo};

use agent_gateways::TypedFault;
use live_system::CommonEnding;
use turns::Turn;

/// What is waited for, and how long.
pub fn what_is_waited_for_has_examples()
    // A network spoils as is asked for, and nothing waits in it; where none is asked for there is none.
    ensures none_spoils { (network : Option BadNetwork) → SpoilsSo None network → network ≡ None }
    ensures spoils { (spoiling : Spoiling) (network : BadNetwork) → SpoilsSo (Some spoiling) (Some network) →
        (network.spoiling ≡ spoiling) × (network.waiting.items ≡ []) }
    ensures spoils_none { (spoiling : Spoiling) → SpoilsSo (Some spoiling) None → ⊥ }
    // What the network hands out, and what falls due at a gateway: the earlier.
    ensures network { FallsDueFirst [] (Some 300) (Some 300) }
    ensures gateway { (gateway : Gateway) → FallsDueAt gateway (Some 100) →
        FallsDueFirst (gateway ∷ []) (Some 300) (Some 100) }
    ensures nothing { FallsDueFirst [] None None }
    // Nothing where anything is there.
    ensures there { (gateways : List Gateway) → IsWaitedFor true gateways (Some 300) None }
    ensures not_there { IsWaitedFor false [] (Some 300) (Some 300) }
    // A wait is no longer than to what falls due, and a ms at least.
    ensures until { longest_until 1000 None 400 ≡ 600 }
    ensures sooner { longest_until 1000 (Some 500) 400 ≡ 100 }
    ensures later { longest_until 1000 (Some 2000) 400 ≡ 600 }
    ensures least { longest_until 1000 (Some 300) 400 ≡ 1 }
    // A desk begins at a time of day in ms, of which each is a thousand microseconds.
    ensures ms { milliseconds 2999 ≡ 2 }
{}

/// How a desk ends.
pub fn how_a_desk_ends_has_examples()
    // Memory was refused for its last words; or they are what was counted.
    ensures refused { (journal : Journal) (recorder : ℕ) →
        EndsWith (λ last was written is. ⊥) true journal recorder recorder CommonEnding.OutOfMemory }
    ensures counted { (journal : Journal) (written : Written) (recorder : ℕ) →
        EndsWith (λ last was became is. (last ≡ counted_in journal) × (became ≡ written)) true journal recorder recorder
        CommonEnding.Clock }
    // Before that what was recorded is written once more.
    ensures written { (before journal : Journal) (recorder : ℕ) (ending : CommonEnding) →
        WritesAndEnds (λ was left time is right. ⊥) ends_any true 700 before recorder journal recorder ending → ⊥ }
{}

/// What is typed, and what is done then.
pub fn what_is_typed_has_examples()
    ensures counts { line_request false (codes "counts") ≡ requests.Counts }
    ensures stop { line_request true (codes "stop") ≡ requests.Stop }
    ensures quit { line_request true (codes "quit") ≡ requests.Stop }
    ensures afar { line_request false (codes "quit") ≡ requests.StopFromAfar }
    ensures command { line_request true (codes "AUEP aaln/1") ≡ requests.Command }
    ensures first { (piece : List ℕ) → first_request true (piece ∷ codes "stop\n" ∷ []) ≡ line_request true (line_of piece) }
    ensures nothing { first_request true [] ≡ requests.Nothing }
    ensures told { (journal : Journal) (text : List ℕ) → text ≡ counted_in journal → TellsCounts journal text }
    ensures nothing_done { (board now : Switchboard) (was is : Wire ℕ) →
        DoesRequest anywhere requests.Nothing board now was is → is ≡ was }
    ensures ends { (board now : Switchboard) (was is : Wire ℕ) →
        DoesRequest anywhere requests.Stop board now was is → is.end ≡ Some 0 }
    ensures goes_on { (board now : Switchboard) (was is : Wire ℕ) →
        DoesRequest anywhere requests.StopFromAfar board now was is → is.end ≡ was.end }
{}

/// What turns leave of the board.
pub fn what_turns_leave_has_examples()
    ensures looks { (board now : Switchboard) (was is : Wire ℕ) →
        DoesTurn anywhere 700 Turn.Look board now was is
        → (now ≡ board) × (is.lines ≡ was.lines) }
    ensures waits { (board now : Switchboard) (was is : Wire ℕ) →
        DoesTurn anywhere 700 (Turn.Wait 700) board now was is
        → (now ≡ board) × (is.end ≡ was.end) }
    ensures notes { (pause : _) (board now : Switchboard) (was is : Wire ℕ) →
        DoesTurn anywhere 700 (Turn.Note pause) board now was is
        → (now ≡ board) × (is.around ≡ was.around) }
    ensures ticks { (board now : Switchboard) (was is : Wire ℕ) →
        DoesTurn anywhere 700 (Turn.Tick 700) board now was is
        → now.notifying ≡ board.notifying }
    ensures visits { (board now : Switchboard) (was is : Wire ℕ) →
        DoesTurn anywhere 700 Turn.Visit board now was is
        → (now ≡ board) × (is ≡ was) }
    ensures ends { (board now : Switchboard) (was is : Wire ℕ) →
        DoesTurn anywhere 700 Turn.End board now was is
        → (now ≡ board) × (is ≡ was) }
    // A wait sends nothing, and one that fails counts once, where others count nothing; a pause is noted in the log alone.
    ensures quiet { (traffic : ℕ → Traffic) (was is : Wire ℕ) → Waits (record anywhere { traffic = traffic }) 700 was is
        → traffic is.around ≡ traffic was.around }
    ensures fails { (was is : Wire ℕ) → Waits anywhere 700 was is → is.journal.value.told ≡ was.journal.value.told }
    ensures failed { (fault : Fault) (was is : Wire ℕ)
        → Waits (record anywhere { sleeps = λ around longest outcome after. outcome ≡ Err fault }) 700 was is → is.journal.value.tally ≡ with_receive_fault was.journal.value.tally }
    ensures went_well { (was is : Wire ℕ) → Waits (record anywhere { sleeps = λ around longest outcome after. outcome ≡ Ok tt }) 700 was is
        → is.journal.value.tally ≡ was.journal.value.tally }
    // It lasts as long as is said, but for 20 ms at most where something waits to be taken; until a moment, but no longer than to what
    // falls due.
    ensures lasts { (was is : Wire ℕ) → was.is_offering ≡ false → Waits anywhere 700 was is → is.around ≡ 700 }
    ensures offers { (was is : Wire ℕ) → was.is_offering ≡ true → Waits anywhere 700 was is → is.around ≡ 20 }
    ensures until { (was is : Wire ℕ) (until : WaitsUntil anywhere 1200 500 [] was is) → was.is_offering ≡ false
        → is.around ≡ longest_until 1200 until.0 500 }
    ensures pauses { (pause : Pause) (was is : Wire ℕ) → Notes pause was is → is.journal.value.tally ≡ was.journal.value.tally }
    ensures paused { (was is : Wire ℕ) → Notes (record { lateness = 31000; read = Some 12 }) was is →
        Tells (pause_line was.now.time 31000 (Some 12)) was.journal.value.log is.journal.value.log }
    ensures settles { (board now : Switchboard) → SettlesLines board now →
        (now.stations ≡ board.stations) × (now.notifying ≡ board.notifying) }
{}

/// What a datagram does.
pub fn what_a_datagram_does_has_examples()
    // A stranger's counts, and does nothing.
    ensures stranger { (source : SocketAddrV4) (board now : Switchboard) (was is : Wire ℕ) →
        HearsBy anywhere None source [] board was now is →
        (now ≡ board) × (is.journal.value.tally ≡ with_stranger was.journal.value.tally) × (is.journal.value.log ≡ was.journal.value.log)
        × (is.journal.value.told ≡ was.journal.value.told) }
    // What has no text is heard so; of two the first is heard before the other.
    ensures no_text { (board now : Switchboard) (was is : Wire ℕ) → HearsTexts anywhere 0 [] board was now is →
        (now ≡ board) × (is ≡ was) }
    ensures two { (board now : Switchboard) (was is : Wire ℕ) → HearsTexts anywhere 0 (codes "a" ∷ codes "b" ∷ []) board was now is →
        (heard : Switchboard) × (sent : Wire ℕ) × HearsOne anywhere 0 (codes "a") board was heard sent }
    ensures text { (board now : Switchboard) (was is : Wire ℕ) → HearsOne anywhere 0 [] board was now is →
        (heard : Switchboard) × (told : _) × HearsText 0 [] board was.journal.value heard told }
    // Its agent takes it, or refuses it: nothing else of the board changes, nor of the wire.
    ensures nobody_steps { (source : SocketAddrV4) (outputs : _) (board now : Switchboard) → board.gateways.items ≡ [] →
        StepsAt 0 source [] outputs board now → outputs ≡ Ok [] }
    ensures steps { (source : SocketAddrV4) (outputs : _) (board now : Switchboard) → StepsAt 0 source [] outputs board now →
        now.office ≡ board.office }
    // Where its agent refused it, no text is heard, and nothing is taken.
    ensures refused { (board now : Switchboard) (was is : Wire ℕ) → DealsIf anywhere false 0 [] board was now is →
        (now ≡ board) × (is ≡ was) }
    // Where a line told nothing none is settled.
    ensures nothing { (board now : Switchboard) (was is : Wire ℕ) → SettlesIf anywhere false board was now is →
        (now ≡ board) × (is ≡ was) }
    ensures something { (board now : Switchboard) (was is : Wire ℕ) → SettlesIf anywhere true board was now is → SettlesLines board now }
    ensures counts_none { (board now : Switchboard) (was is : Wire ℕ) (takes : TakesNext anywhere 0 0 board was now is) →
        takes.found ≡ false →
        takes.told.journal.value.tally ≡ was.journal.value.tally }
    ensures counts { (board now : Switchboard) (was is : Wire ℕ) (takes : TakesNext anywhere 0 0 board was now is) → takes.found ≡ true →
        takes.told.journal.value.tally ≡ with_notification was.journal.value.tally }
    ensures waits_then { (line : ℕ) (board now : Switchboard) (was is : Wire ℕ) (takes : TakesNext anywhere 0 0 board was now is) →
        takes.found ≡ true →
        taken_place 0 (slice_get board.gateways.items 0) board.notifying ≡ Some line → WaitsIn line takes.taken.office }
    ensures room { (board now : Switchboard) (was is : Wire ℕ) (looks : TakesLooked anywhere board was now is) →
        length looks.room ≡ 4001 }
    ensures logs_nothing { (board now : Switchboard) (was is : Wire ℕ) (takes : TakesNext anywhere 0 0 board was now is) →
        (takes.told.journal.value.log ≡ was.journal.value.log) × (takes.told.journal.value.capture ≡ was.journal.value.capture) }
    ensures no_line { (board now : Switchboard) (was is : Wire ℕ) → TakesEach anywhere 0 0 board was now is → now ≡ board }
    // Where the network handed one over the sockets aren't looked for one; where it handed over none, nothing is heard.
    ensures handed { (board now : Switchboard) (was is : Wire ℕ) → TakesElse anywhere true board was now is → is ≡ was }
    ensures not_handed { (board now : Switchboard) (was is : Wire ℕ) → HearsPacket anywhere None board was now is →
        (now ≡ board) × (is ≡ was) }
    ensures looks { (board now : Switchboard) (was is : Wire ℕ) → TakesFound anywhere None [] board was now is →
        (now ≡ board) × (is ≡ was) }
    ensures looks_for_one { (board now : Switchboard) (was is : Wire ℕ) (looks : TakesLooked anywhere board was now is) →
        looks.outcome ≡ Ok None → looks.looked.read ≡ was.read }
    // Without such a network it is heard at once.
    ensures at_once { (source : SocketAddrV4) (board now : Switchboard) (was is : Wire ℕ) →
        TakesReceived anywhere None source [] board was now is → HearsDatagram anywhere source [] board was now is }
    // Nothing of what was typed is lost by what is sent, nor of what was read, and the end hasn't come by it.
    ensures sends { (was is : Wire ℕ) → SendsOver was is → (is.lines ≡ was.lines) × (is.read ≡ was.read) × (is.end ≡ was.end) }
    ensures sends_none { (was is : Wire ℕ) → SendsAll anywhere false [] was is → is ≡ was }
    ensures ticks { (was is : Wire ℕ) → TickedOver 900 700 was is → (is.lines ≡ was.lines) × (is.read ≡ was.read) }
    ensures clock { (was is : Wire ℕ) → TickedOver 900 700 was is → is.now.clock ≡ 700 }
    ensures behind { (was is : Wire ℕ) → TickedOver 900 700 was is → is.is_behind ≡ true }
    ensures not_behind { (was is : Wire ℕ) → TickedOver 800 700 was is → is.is_behind ≡ false }
{}

/// What a network hands over, and what is offered to it.
pub fn what_a_network_hands_over_has_examples()
    // Without one nothing is handed out, and nothing waits.
    ensures no_network { (packet : Option Packet) (is : Option BadNetwork) → HandsFirst 700 None packet is → (packet ≡ None) × (is ≡ None) }
    ensures gone { (was : BadNetwork) (packet : Option Packet) → HandsFirst 700 (Some was) packet None → ⊥ }
    // The first that waits, where it is due by now; else none, and all wait on.
    ensures first { (was is : BadNetwork) (one two : Packet) → was.waiting.items ≡ one ∷ two ∷ [] → one.due ≡ 700 →
        is.waiting.items ≡ two ∷ [] →
        is.spoiling ≡ was.spoiling → is.generators ≡ was.generators → HandsFirst 700 (Some was) (Some one) (Some is) }
    ensures not_due { (was : BadNetwork) (one : Packet) → was.waiting.items ≡ one ∷ [] → one.due ≡ 701 →
        HandsFirst 700 (Some was) None (Some was) }
    // It comes in where it goes that way; one that goes out is sent, and isn't handed over.
    ensures comes { comes_in In ≡ true }
    ensures goes { comes_in Out ≡ false }
    ensures comes_in_last { (packet : Packet) (was is : Wire ℕ) → HandsLast 3 (Some packet) was is → packet.way ≡ In }
    ensures goes_out_before { (packet : Packet) (was is : Wire ℕ) → SendsOn anywhere packet was is → packet.way ≡ Out }
    ensures none_out { (was is : Wire ℕ) → SendsEachOn anywhere [] was is → is ≡ was }
    ensures one_out { (packet : Packet) (was is : Wire ℕ) → SendsEachOn anywhere (packet ∷ []) was is →
        (sent : Wire ℕ) × SendsOn anywhere packet was sent }
    // What is offered to it has its copies wait, and counts as what it becomes; without one nothing counts.
    ensures offered { (was : BadNetwork) (counted : Tally) → TakesOffer Out [] was was.waiting.items counted (with_refusal counted) }
    ensures offered_nobody { (peer : SocketAddrV4) (is : Option BadNetwork) (counted counts : Tally) →
        OffersTo In peer [] 700 None is counted counts →
        (is ≡ None) × (counts ≡ counted) }
    ensures draws { (peer : SocketAddrV4) (was is : BadNetwork) (counted counts : Tally) → Offers Out peer [] 700 was is counted counts →
        is.generators ≡ after_draws_on Out was.generators }
    // What leaves doesn't count; what doesn't counts as a fault.
    ensures leaves { (tally : Tally) → leaving_counted (Ok tt) tally ≡ tally }
    ensures stays { (fault : Fault) (tally : Tally) → leaving_counted (Err fault) tally ≡ with_send_fault tally }
    ensures handed { (to : SocketAddrV4) (was is : Wire ℕ) →
        Leaves (record anywhere { sends = λ before peer bytes outcome after. peer ≡ to }) to [] was is → is.network ≡ was.network }
{}

/// What changes of a journal beside what counts.
pub fn what_is_recorded_has_examples()
    ensures counts { (was is : Journal) → OnlyCounts was is →
        (is.told ≡ was.told) × (is.log ≡ was.log) × (is.capture ≡ was.capture) × (is.written ≡ was.written) }
    ensures notes { (was is : Journal) → OnlyNotes was is → (is.told ≡ was.told) × (is.capture ≡ was.capture) × (is.written ≡ was.written) }
    ensures records { (was is : Journal) → OnlyRecords was is → (is.told ≡ was.told) × (is.here ≡ was.here) × (is.written ≡ was.written) }
    ensures tells { (was is : Journal) → OnlyTells was is → (is.log ≡ was.log) × (is.capture ≡ was.capture) × (is.written ≡ was.written) }
    ensures tells_and_notes { (was is : Journal) → OnlyTellsAndNotes was is → (is.capture ≡ was.capture) × (is.written ≡ was.written) }
    // So it is of what comes, of what is sent, and of what is given up.
    ensures came { (source : SocketAddrV4) (board now : Switchboard) (was is : Wire ℕ)
        (hears : HearsDatagram anywhere source [] board was now is) →
        hears.came.journal.value.told ≡ was.journal.value.told }
    ensures sent { (to : SocketAddrV4) (was is : Wire ℕ) (sends : SendsOne anywhere true to [] was is) →
        sends.noted.journal.value.told ≡ was.journal.value.told }
    ensures command { (datagram : OutDatagram) (was is : Wire ℕ) (sends : SendsCommand anywhere datagram was is) →
        sends.counted.journal.value.log ≡ was.journal.value.log }
    ensures given_up { (board now : Switchboard) (was is : Wire ℕ) → GivesUpNext true 0 board was now is →
        is.journal.value.capture ≡ was.journal.value.capture }
{}

/// What is sent, and how lines are settled.
pub fn what_is_sent_has_examples()
    // A datagram goes to whom it is for, as it is; again or for the first time.
    ensures nobody_else { (to other : SocketAddrV4) (was is : Wire ℕ) → was.network ≡ None →
        SendsOne (record anywhere { sends = λ before peer bytes outcome after. peer ≡ other }) true to [] was is → to ≡ other }
    ensures as_it_is { (to : SocketAddrV4) (was is : Wire ℕ) → was.network ≡ None →
        SendsOne (record anywhere { sends = λ before peer bytes outcome after. bytes ≡ codes "a" }) true to (codes "b") was is →
        codes "b" ≡ codes "a" }
    ensures to_the_network { (to : SocketAddrV4) (network : BadNetwork) (was is : Wire ℕ) →
        GoesOut (record anywhere { sends = λ before peer bytes outcome after. ⊥ }) to [] (Some network) was is →
        is.around ≡ was.around }
    ensures all { (datagram : OutDatagram) (was is : Wire ℕ) → SendsAll anywhere true (datagram ∷ []) was is →
        (sent : Wire ℕ) × SendsOne anywhere true datagram.to datagram.bytes was sent }
    ensures went_on { (was is : Wire ℕ) (went_on : _) → SendsOutputs anywhere true (Ok []) went_on was is → (went_on ≡ true) × (is ≡ was) }
    ensures refused { (refusal : Refusal) (was is : Wire ℕ) (went_on : _) → SendsOutputs anywhere true (Err refusal) went_on was is →
        (went_on ≡ false) × (is.journal.value.tally ≡ with_refusal was.journal.value.tally) × (is.journal.value.log ≡ was.journal.value.log)
        × (is.journal.value.told ≡ was.journal.value.told) }
    ensures command { (datagram : OutDatagram) (was is : Wire ℕ) → SendsCommand anywhere datagram was is →
        (counted : Wire ℕ) × SendsOne anywhere false datagram.to datagram.bytes counted is }
    // Lines are settled one behind another, each is shown before any is sent something; while the clock is behind none is.
    ensures behind { (board now : Switchboard) (was is : Wire ℕ) → SettlesBy anywhere true board was now is → (now ≡ board) × (is ≡ was) }
    ensures none_shown { (board now : Switchboard) (was is : Wire ℕ) → ShowsEach 0 board was now is → (now ≡ board) × (is ≡ was) }
    ensures one_shown { (board now : Switchboard) (was is : Wire ℕ) → ShowsEach 1 board was now is → (shown : Switchboard) × (told : Wire ℕ)
        × (shown ≡ board) × (told ≡ was) × ShowsOne 0 shown told now is }
    ensures none_sent { (board now : Switchboard) (was is : Wire ℕ) → SendsEach anywhere 0 board was now is → (now ≡ board) × (is ≡ was) }
    ensures not_issued { (was is : Wire ℕ) → SendsIssued anywhere (Ok None) was is → is ≡ was }
    ensures none_settled { (board now : Switchboard) (was is : Wire ℕ) (sends : SendsNext anywhere 0 board was now is) →
        settled_in 0 board.office ≡ None → sends.issued ≡ Ok None }
    ensures refused_too { (fault : IssueFault) (was is : Wire ℕ) → SendsIssued anywhere (Err fault) was is →
        is.journal.value.tally ≡ with_refusal was.journal.value.tally }
    ensures issued { (issued : Issued) (was is : Wire ℕ) → SendsIssued anywhere (Ok (Some issued)) was is →
        SendsCommand anywhere issued.datagram was is }
{}

/// What a tick does.
pub fn what_a_tick_does_has_examples()
    ensures no_agent { (board now : Switchboard) (was is : Wire ℕ) → TicksEach anywhere 700 0 board was now is →
        (now ≡ board) × (is ≡ was) }
    ensures again { (board now : Switchboard) (was is : Wire ℕ) (ticks : TicksOne anywhere 700 0 board was now is) →
        SendsOutputs anywhere true ticks.outputs ticks.went_on was is }
    // Where there is no gateway none says anything; a clock that may go on does, where nothing falls due by then.
    ensures nobody_ticks { (board now : Switchboard) (was is : Wire ℕ) (ticks : TicksOne anywhere 700 0 board was now is) →
        board.gateways.items ≡ [] → ticks.outputs ≡ Ok [] }
    ensures goes_on { (gateway after : Gateway) (events : List AgentEvent) (board now : Switchboard) (was is : Wire ℕ)
        (ticks : TicksOne anywhere 700 0 board was now is) → board.gateways.items ≡ gateway ∷ [] → now.gateways.items ≡ after ∷ [] →
        gateway.ticked ≡ 500 → AgentStands gateway.agent.value events → HasAgent 500 [] gateway → result_err ticks.outputs ≡ None }
    // So many are given up, woken, or handed over at most at a turn.
    ensures most { MOST_AT_ONCE ≡ 65535 }
    // What is given up counts.
    ensures none_given_up { (board now : Switchboard) (was is : Wire ℕ) → GivesUpMany anywhere 0 0 board was now is →
        (now ≡ board) × (is ≡ was) }
    ensures counts { (board now : Switchboard) (was is : Wire ℕ) → GivesUpNext true 0 board was now is →
        is.journal.value.tally ≡ with_given_up was.journal.value.tally }
    ensures counts_none { (board now : Switchboard) (was is : Wire ℕ) → GivesUpNext false 0 board was now is →
        is.journal.value.tally ≡ was.journal.value.tally }
    ensures no_gateway { (board now : Switchboard) (was is : Wire ℕ) → GivesUpEach anywhere 0 board was now is →
        (now ≡ board) × (is ≡ was) }
    ensures none_woken { (board now : Switchboard) → WakesMany 0 0 board now → now ≡ board }
    ensures no_gateway_woken { (board now : Switchboard) → WakesEach 0 board now → now ≡ board }
{}

/// How a desk serves, a turn behind another.
pub fn how_a_desk_serves_has_examples()
    ensures no_turn { (board now : Switchboard) (was is : Wire ℕ) (schedule next : Schedule) →
        RunsTurns (λ b w s n i t. ⊥) 0 board was schedule now is next → (now ≡ board) × (is ≡ was) × (next ≡ schedule) }
    ensures one_turn { (board now : Switchboard) (was is : Wire ℕ) (schedule next : Schedule) →
        RunsTurns (λ b w s n i t. t ≡ schedule) 1 board was schedule now is next → next ≡ schedule }
    // What was recorded is written behind each: that counts nothing, and leaves what was typed.
    ensures writes { (was is : Wire ℕ) → Writes writes_any was is →
        (is.journal.value.tally ≡ was.journal.value.tally) × (is.lines ≡ was.lines) }
    ensures writes_it { (was is : Wire ℕ) → Writes writes_nothing was is → is.journal.value ≡ was.journal.value }
    // Without a desk nothing is done.
    ensures ends { (board : Switchboard) (was is : Wire ℕ) (ending : CommonEnding)
        (serves : ServesToEnd serves_any writes_any ends_any board was is 0 ending) →
        is.lines ≡ serves.done.lines }
    ensures no_desk { (config : AgentConfig) (was is : Wire ℕ) (ending : CommonEnding) →
        ServesOver config true serves_never writes_any ends_any was is 0 ending → is ≡ was }
    // It is that of its configuration: it has the gateways of that, and routes calls where that is asked for.
    ensures its_gateways { (config : AgentConfig) (board : Switchboard) → BoardOf config true 7 board →
        map known_as board.gateways.items ≡ gateways_from 7 config.own 0 config.gateways.items }
    ensures unasked { (config : AgentConfig) (board : Switchboard) → BoardOf config false 7 board → is_some board.office ≡ false }
    ensures unmapped { (config : AgentConfig) (board : Switchboard) → config.map ≡ None → BoardOf config true 7 board →
        is_some board.office ≡ false }
    ensures routed { (config : AgentConfig) (digits : List ℕ) (board : Switchboard) → config.map ≡ Some digits →
        BoardOf config true 7 board → is_some board.office ≡ true }
    // It begins at the time of day that was told, in microseconds.
    ensures begins { (config : AgentConfig) (was is : Wire ℕ) (ending : CommonEnding) → was.now.time ≡ 525600000999 →
        ServesOver config true serves_any writes_any ends_any was is 0 ending →
        (ending ≡ CommonEnding.OutOfMemory) ⊎ ((board : Switchboard) × BoardOf config true 525600000 board) }
    // It stops where the clock fails, and not where it tells a moment.
    ensures fails { (fault : Fault) (board : Switchboard) (wire : Wire ℕ) (schedule : Schedule) →
        StopsAt (record anywhere { passes = λ around outcome. outcome ≡ Ok 5 }) (Err fault) 3 board wire schedule → ⊥ }
{}

/// A turn is what comes next by the schedule, as things stand, with the time of day that was told; behind it what was recorded is written.
pub fn what_comes_next_has_examples()
    ensures next { (board now : Switchboard) (was is : Wire ℕ) (schedule after : Schedule)
        (does : DoesNext anywhere board now was is schedule after) → after ≡ (next_of schedule does.at).1 }
    ensures goes_on { (board now : Switchboard) (was is : Wire ℕ) (schedule after : Schedule)
        (does : DoesNext anywhere board now was is schedule after) → is_end (next_of schedule does.at).0 ≡ false }
    ensures dated { (board now : Switchboard) (was is : Wire ℕ) (schedule after : Schedule)
        (does : DoesNext anywhere board now was is schedule after) → does.begun.now.time ≡ 7 }
    ensures begins { (board now : Switchboard) (was is : Wire ℕ) (schedule after : Schedule)
        (does : DoesNext anywhere board now was is schedule after) → (does.begun.journal ≡ was.journal) × (does.begun.lines ≡ was.lines) }
    ensures behind_time { (board now : Switchboard) (was is : Wire ℕ) (schedule after : Schedule)
        (does : DoesNext anywhere board now was is schedule after) → does.begun.is_behind ≡ is_behind does.at.moment does.at.ticked }
{}

/// What a command does that was typed.
pub fn what_a_typed_command_does_has_examples()
    ensures unknown { (result : _) (board now : Switchboard) → IssuesCommand None result board now →
        (result ≡ Err TypedFault.Unknown) × (now ≡ board) }
    ensures no_gateway { (result : _) (board now : Switchboard) → IssuesMeant [] [] None result board now →
        (result ≡ Err TypedFault.NoSuchGateway) × (now ≡ board) }
    ensures not_there { (result : _) (board now : Switchboard) → IssuesThere 3 [] [] [] None result board now →
        (result ≡ Err TypedFault.NoSuchGateway) × (now ≡ board) }
    ensures ids { fault_text TypedFault.NoMoreIds ≡ codes "! 2 NoMoreIds\n" }
    ensures bad { fault_text TypedFault.BadCommand ≡ codes "! 3 BadCommand\n" }
    ensures nobody { fault_text TypedFault.NoSuchGateway ≡ codes "! 4 NoSuchGateway\n" }
    ensures not_known { fault_text TypedFault.Unknown ≡ codes "? VERB NAME, counts, or stop\n" }
    ensures memory { fault_text TypedFault.OutOfMemory ≡ codes "! 1 OutOfMemory\n" }
    ensures answered { (was is : Wire ℕ) → AnswersAll anywhere.answers [] was is → is.journal ≡ was.journal }
    ensures id { issued_text 7 ≡ codes "issued 7\n" }
    ensures told { TellsIssued 12 (codes "issued 12\n") }
    ensures not_told { TellsIssued 12 (codes "! 1 OutOfMemory\n") }
    ensures sent { (issued : Issued) (was is : Wire ℕ) → AnswersIssued anywhere (Ok issued) was is →
        (sent : Wire ℕ) × SendsCommand anywhere issued.datagram was sent }
    ensures refused { (fault : TypedFault) (was is : Wire ℕ) → AnswersIssued anywhere (Err fault) was is →
        AnswersAll anywhere.answers (fault_text fault) was is }
    ensures nothing { (text : List ℕ) → IsTypedNext [] text → text ≡ [] }
    ensures next { (piece rest : List ℕ) → cut rest ≡ [] → IsTypedNext (piece ∷ []) (typed_text (line_of piece) rest) }
{}
