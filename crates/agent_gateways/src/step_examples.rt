//! Worked examples of what a step of a board does, as theorems.
#![tactic(auto, unfolding(crate::proofs::Computing::on_examples))]

ghost use Rattle.std.specs.Prelude.{◌≡◌, ⊤, [], ◌∷◌, ℕ, Bool, true, false, List, Option, Some, None, Ok, Err, codes, take};
ghost use Rattle.std.specs.Global.{Box};
ghost use Rattle.call_processing.specs.Exchange.{told};
ghost use Rattle.agent_gateways.specs.declared.gateway.Gateway.{Gateway};
ghost use Rattle.line_control.specs.declared.office.Office.{Office};
ghost use Rattle.agent_gateways.specs.declared.switchboard.Switchboard.{Switchboard};
ghost use Rattle.line_control.specs.declared.care.Duty.TheVariants.{Audit};
ghost use Rattle.line_control.specs.declared.care.Duty.TheVariants as duties;
ghost use Rattle.agent_gateways.specs.declared.flight.Flight.{Flight};
ghost use Rattle.endpoint_names.specs.declared.route.Route.TheVariants as routes;
ghost use Rattle.retransmission.specs.Flight.{InFlight, sent_first};
ghost use Rattle.transmission.specs.Texts.{largest_datagram};
ghost use Rattle.call_agent.specs.declared.issuing.Issued.{Issued};
ghost use Rattle.call_agent.specs.declared.issuing.IssueFault.{IssueFault};
ghost use Rattle.call_agent.specs.declared.issuing.IssueFault.TheVariants as faults;
ghost use Rattle.call_agent.specs.Issuing.{no_more_ids, bad_command, issue_refusal};
ghost use Rattle.call_agent.specs.AgentStands.{AgentStands, AgentStays, AgentTook};
ghost use Rattle.machine_rules.specs.declared.refusal.Refusal.TheVariants as refusals;
ghost use Rattle.plain_machine.specs.Event.{tick};
ghost use Rattle.call_agent.specs.Hearing.{AgentEvent, issues, plain_agent};
ghost use Rattle.agent_log.specs.declared.station.Station.{Station};
ghost use Rattle.agent_gateways.specs.Boards.{Answers};
ghost use Rattle.agent_gateways.specs.Dues.{FallsDue, FallsDueAt};
ghost use Rattle.line_control.specs.Duties.{announced, begun, fixed_order, lost, new_care, outlived, owed};
ghost use Rattle.agent_gateways.specs.Issuing.{ordered_in, Fails, FailsBy, Flies, IssuesIn, IssuesOrder, IssuesSettled, IssuesTo};
ghost use Rattle.agent_gateways.specs.Issuing.{IssuesUnder, RefusedBefore, SendsAlone, SendsAtMost};
ghost use Rattle.line_control.specs.Orders.{Shown, routed};
ghost use Rattle.line_control.specs.Steps.{Begins, Forgets};
ghost use Rattle.line_control.specs.Waiting.{IsWaiting, Touches, WaitOn};
ghost use Rattle.agent_gateways.specs.Hearing.{AnswersIn};
ghost use Rattle.agent_gateways.specs.Taking.{HearsTold};
ghost use Rattle.agent_gateways.specs.Steps.{has_line, Announces, AnnouncesBy, AnnouncesTo, AtPlace, InOffice, IssuesAt};
ghost use Rattle.agent_gateways.specs.Steps.{LinesWaitOn, OfOffice, OthersStay};
ghost use Rattle.agent_gateways.specs.Steps.{Refuses, SameLines, Ticks, ToldAt, TouchesIf, TouchesMeant, WaitsIn, Wakens, settled_in};
ghost use Rattle.agent_gateways.specs.TypedCommands.{typed_fault, IsOfAgent, IssuesCommand, IssuesMeant, IssuesNamed, IssuesThere};
ghost use Rattle.line_control.specs.Example.{audited, creating, deleted_later, deleted_now};
ghost use Rattle.agent_gateways.specs.Example.{wake_at, HasAgent};

use crate::typed::TypedFault;
use call_processing::Told;
use endpoint_names::Pattern;

/// What becomes of the lines of a gateway, of it, and of what is settled.
pub fn steps_at_a_gateway_have_examples()
    // The lines that a name means are announced, one after another, and no others.
    ensures one_line { Announces false (Pattern.One 2) 0 2 creating (audited ∷ audited ∷ []) creating
        (audited ∷ owed audited Audit ∷ []) }
    ensures all_lines { Announces true Pattern.All 0 2 creating (new_care ∷ audited ∷ [])
        (told (told creating 0 Told.Restarted) 1 Told.Restarted) (announced true new_care ∷ announced true audited ∷ []) }
    ensures any_line { Announces false Pattern.Any 1 1 creating (audited ∷ audited ∷ []) creating (audited ∷ owed audited Audit ∷ []) }
    ensures of_another { Announces true (Pattern.One 1) 1 1 creating (audited ∷ audited ∷ []) (told creating 1 Told.Restarted)
        (audited ∷ announced true audited ∷ []) }
    ensures no_gateway { (office : Option (Box Office)) → AnnouncesTo true [] None office office }
    ensures beyond { Announces true (Pattern.One 3) 0 2 creating (audited ∷ audited ∷ []) creating (audited ∷ audited ∷ []) }
    ensures first_line { has_line 1 2 ≡ true }
    ensures last_line { has_line 2 2 ≡ true }
    ensures before_lines { has_line 0 2 ≡ false }
    ensures behind_lines { has_line 3 2 ≡ false }
    ensures no_lines { Announces true Pattern.All 1 0 creating (audited ∷ audited ∷ []) creating (audited ∷ audited ∷ []) }
    // Its clock goes on by a second at most, or stands still.
    ensures goes_on { (gateway : Gateway) → Ticks true 5000 (record gateway { ticked = 500 }) (record gateway { ticked = 1500 }) }
    ensures stands_still { (gateway : Gateway) → Ticks false 5000 (record gateway { ticked = 500 }) (record gateway { ticked = 500 }) }
    // The first of those whose moment has come isn't put off any more.
    ensures woken { (was is : Gateway) → was.ticked ≡ 700 → was.wakes.items ≡ wake_at 700 0 ∷ wake_at 900 1 ∷ [] →
        is.ticked ≡ 700 → is.wakes.items ≡ wake_at 900 1 ∷ [] → Wakens was is }
    ensures none_woken { (was : Gateway) → was.wakes.items ≡ [] → Wakens was was }
    // Where there is no exchange nothing becomes of it, and nothing is settled.
    ensures no_exchange { OfOffice (Forgets 0) None None }
    ensures nothing_settled { settled_in 0 None ≡ None }
    ensures settled { (office : Box Office) → office.value.worklist.settles_all ≡ true → settled_in 4 (Some office) ≡ Some 4 }
    ensures nothing_issued { (fails : Bool) (office : Option (Box Office)) → IssuesAt None fails office office }
{}

/// An answer puts a deletion off, which is kept, or sent again at once where memory is refused for that; or it deletes. To a command that
/// the gateway has outlived it counts as given up.
pub fn what_an_answer_does_has_examples()
    ensures put_off { (gateway after : Gateway) (was is : Office) → gateway.ticked ≡ 500 → was.cares.items ≡ begun new_care ∷ [] →
        gateway.wakes.items ≡ wake_at 700 1 ∷ [] → is.exchange ≡ was.exchange → is.cares.items ≡ deleted_later ∷ [] →
        after.wakes.items ≡ wake_at 700 1 ∷ wake_at 1500 0 ∷ [] → Answers 0 400 [] gateway was after is }
    ensures refused { (gateway after : Gateway) (was is : Office) → gateway.ticked ≡ 500 → was.cares.items ≡ begun new_care ∷ [] →
        gateway.wakes.items ≡ wake_at 700 1 ∷ [] → is.exchange ≡ was.exchange → is.cares.items ≡ deleted_now ∷ [] →
        after.wakes.items ≡ wake_at 700 1 ∷ [] → Answers 0 400 [] gateway was after is }
    ensures outlived { (gateway after : Gateway) (was is : Office) → gateway.ticked ≡ 500 →
        was.cares.items ≡ outlived (begun new_care) ∷ [] → gateway.wakes.items ≡ [] → is.exchange ≡ was.exchange →
        is.cares.items ≡ lost (outlived (begun new_care)) ∷ [] → after.wakes.items ≡ [] → Answers 0 400 [] gateway was after is }
{}

/// When something falls due next.
pub fn what_falls_due_next_has_examples()
    ensures no_gateway { FallsDue [] None }
    // At the gateway at which that is earliest; and of a gateway when the first command is sent again that was put off, or what its agent
    // does next, whichever is earlier.
    ensures earliest { (one two three : Gateway) → FallsDueAt one (Some 700) → FallsDueAt two (Some 300) → FallsDueAt three None →
        FallsDue (one ∷ two ∷ three ∷ []) (Some 300) }
    ensures put_off { (gateway : Gateway) → gateway.wakes.items ≡ wake_at 700 0 ∷ wake_at 900 1 ∷ [] →
        ((events : List AgentEvent) → AgentStands gateway.agent.value events →
        (plain_agent gateway.agent.value.setup events).flights ≡ []) → FallsDueAt gateway (Some 700) }
    ensures in_flight { (gateway : Gateway) (flight : InFlight) → gateway.wakes.items ≡ [] →
        ((events : List AgentEvent) → AgentStands gateway.agent.value events →
        (plain_agent gateway.agent.value.setup events).flights ≡ flight ∷ []) → FallsDueAt gateway (Some flight.due) }
    ensures sooner { (gateway : Gateway) (flight : InFlight) → flight.due ≡ 600 → gateway.wakes.items ≡ wake_at 700 0 ∷ [] →
        ((events : List AgentEvent) → AgentStands gateway.agent.value events →
        (plain_agent gateway.agent.value.setup events).flights ≡ flight ∷ []) → FallsDueAt gateway (Some 600) }
{}

/// What a line of a board is sent, and who issues it.
pub fn what_a_line_is_sent_has_examples()
    // What its duty says, or else the exchange; nothing where there is no exchange, or no such line.
    ensures no_exchange { ordered_in 0 [] None ≡ None }
    ensures no_line { (office : Box Office) → office.value.cares.items ≡ [] → ordered_in 0 [] (Some office) ≡ None }
    ensures duty { (office : Box Office) → office.value.cares.items ≡ audited ∷ new_care ∷ [] →
        ordered_in 1 [] (Some office) ≡ fixed_order duties.Clear }
    ensures exchange { (office : Box Office) (map : List ℕ) → office.value.cares.items ≡ audited ∷ [] →
        ordered_in 0 map (Some office) ≡ routed office.value.exchange 0 map }
    // It is issued where it is sent, and nothing else is.
    ensures nothing { (station : Option Station) (gateways : List Gateway) → IssuesOrder 0 None (Ok None) station gateways gateways }
    ensures unsent { (station : Option Station) (order : Shown) (gateways : List Gateway) →
        IssuesOrder 0 (Some order) (Ok None) station gateways gateways → ⊥ }
    ensures unasked { (station : Option Station) (issued : Issued) (gateways : List Gateway) →
        IssuesOrder 0 None (Ok (Some issued)) station gateways gateways → ⊥ }
    // It is in flight to its line, behind the others.
    ensures in_flight { (issued : Issued) (flight other : Flight) (was is : Gateway) → flight.line ≡ Some 3 →
        flight.pending ≡ sent_first issued.id (routes.One was.address) (take largest_datagram issued.datagram.bytes) was.ticked →
        was.flights.items ≡ other ∷ [] → is.flights.items ≡ other ∷ flight ∷ [] → Flies (Some 3) issued was is }
    ensures none_settled { (board : Switchboard) → IssuesSettled None (Ok None) board board }
    ensures none_settled_none_refused { (fault : IssueFault) (board now : Switchboard) → IssuesSettled None (Err fault) board now → ⊥ }
    // All other gateways are as they were.
    ensures none_sent { (board : Switchboard) → SendsAtMost None board board }
    ensures no_station_sends { (gateways : List Gateway) → SendsAlone None gateways gateways }
    ensures none_issued { (station : Station) (gateways : List Gateway) → SendsAlone (Some station) gateways gateways }
    ensures others { (one two three other : Gateway) → OthersStay 1 (one ∷ two ∷ three ∷ []) (one ∷ other ∷ three ∷ []) }
    ensures none_there { (one : Gateway) → OthersStay 1 (one ∷ []) (one ∷ []) }
    ensures none_comes { (one other : Gateway) → OthersStay 1 (one ∷ []) (one ∷ other ∷ []) → ⊥ }
{}

/// Why a line isn't sent what it is to be sent.
pub fn why_nothing_is_issued_has_examples()
    // Its agent refuses no command without a reason of its own, but for want of memory.
    ensures without_reason { (order : Shown) (was is : Gateway) (events : List AgentEvent) → AgentStands was.agent.value events →
        issue_refusal (plain_agent was.agent.value.setup events) order.0 [] order.1 ≡ None →
        IssuesUnder [] order 0 (Err faults.BadCommand) was is → ⊥ }
    ensures ids_are_left { (order : Shown) (was is : Gateway) (events : List AgentEvent) → AgentStands was.agent.value events →
        issue_refusal (plain_agent was.agent.value.setup events) order.0 [] order.1 ≡ Some bad_command →
        IssuesUnder [] order 0 (Err faults.NoMoreIds) was is → ⊥ }
    // Then it stands for what it did before, and nothing of the command is in flight.
    ensures stays { (order : Shown) (fault : IssueFault) (was is : Gateway) → IssuesUnder [] order 0 (Err fault) was is →
        AgentStays was.agent.value is.agent.value }
    ensures none_flies { (order : Shown) (fault : IssueFault) (was is : Gateway) → IssuesUnder [] order 0 (Err fault) was is →
        is.flights.items ≡ was.flights.items }
    // To a line that there isn't, or whose gateway there isn't, any command is a bad one.
    ensures no_station { (order : Shown) (gateways : List Gateway) → IssuesTo 0 order (Err faults.BadCommand) None gateways gateways }
    ensures no_gateway { (order : Shown) (station : Station) → IssuesTo 0 order (Err faults.BadCommand) (Some station) [] [] }
    ensures no_line_for_want_of_ids { (order : Shown) (gateways : List Gateway) →
        IssuesTo 0 order (Err faults.NoMoreIds) None gateways gateways → ⊥ }
    // Memory may be refused before it is known what a line is sent: then no gateway has changed. There is no other reason where it is sent
    // nothing.
    ensures before { (station : Option Station) (order : Shown) (gateways : List Gateway) →
        IssuesOrder 0 (Some order) (Err faults.OutOfMemory) station gateways gateways }
    ensures before_nothing { (station : Option Station) (gateways : List Gateway) →
        IssuesOrder 0 None (Err faults.OutOfMemory) station gateways gateways }
    ensures before_anything { (station : Option Station) (were are : List Gateway) →
        IssuesOrder 0 None (Err faults.OutOfMemory) station were are → are ≡ were }
    ensures no_other { (station : Option Station) (were are : List Gateway) →
        IssuesOrder 0 None (Err faults.BadCommand) station were are → ⊥ }
    ensures not_given_up { (order : Shown) (were are : List Gateway) → IssuesOrder 0 (Some order) (Err faults.NoMoreIds) None were are → ⊥ }
{}

/// Why an agent refuses what comes to its gateway.
pub fn why_an_agent_refuses_has_examples()
    // A tick, where its clock would go back, or on too far, for that; else it goes on, or memory is refused for what falls due by then.
    ensures goes_back { (gateway : Gateway) → HasAgent 700 [] gateway → Refuses (tick 600) (Some refusals.ClockBack) gateway }
    ensures too_far { (gateway : Gateway) → HasAgent 700 [] gateway → Refuses (tick 1701) (Some refusals.TickTooFar) gateway }
    ensures goes_on { (gateway : Gateway) → HasAgent 700 [] gateway → Refuses (tick 1700) None gateway }
    ensures without_memory { (gateway : Gateway) (flight : InFlight) → flight.due ≡ 900 → HasAgent 700 (flight ∷ []) gateway →
        Refuses (tick 1700) (Some refusals.OutOfMemory) gateway }
    ensures without_reason { (gateway : Gateway) (events : List AgentEvent) → AgentStands gateway.agent.value events →
        HasAgent 700 [] gateway → Refuses (tick 1700) (Some refusals.TickTooFar) gateway → ⊥ }
    ensures nothing_falls_due { (gateway : Gateway) (events : List AgentEvent) → AgentStands gateway.agent.value events →
        HasAgent 700 [] gateway → Refuses (tick 1700) (Some refusals.OutOfMemory) gateway → ⊥ }
{}

/// Who issues a command that was typed, and why it isn't.
pub fn what_a_typed_command_means_has_examples()
    // What isn't a verb and a name is refused for that, and so is what means no gateway; then nothing of the board has changed.
    ensures unknown { (board : Switchboard) → IssuesCommand None (Err TypedFault.Unknown) board board }
    ensures no_gateway { (board : Switchboard) → IssuesMeant [] [] None (Err TypedFault.NoSuchGateway) board board }
    ensures not_there { (board : Switchboard) → IssuesThere 3 [] [] [] None (Err TypedFault.NoSuchGateway) board board }
    // Who typed is told the agent's own reason.
    ensures memory { typed_fault faults.OutOfMemory ≡ TypedFault.OutOfMemory }
    ensures ids { typed_fault faults.NoMoreIds ≡ TypedFault.NoMoreIds }
    ensures bad { typed_fault faults.BadCommand ≡ TypedFault.BadCommand }
    // Where that has none memory was refused; else it is that one, or memory was refused before.
    ensures no_reason { FailsBy None faults.OutOfMemory }
    ensures only_memory { FailsBy None faults.NoMoreIds → ⊥ }
    ensures used_up { FailsBy (Some no_more_ids) faults.NoMoreIds }
    ensures used_up_without_memory { FailsBy (Some no_more_ids) faults.OutOfMemory }
    ensures not_bad { FailsBy (Some no_more_ids) faults.BadCommand → ⊥ }
    ensures no_command { FailsBy (Some bad_command) faults.BadCommand }
    ensures no_command_without_memory { FailsBy (Some bad_command) faults.OutOfMemory }
    ensures ids_left { FailsBy (Some bad_command) faults.NoMoreIds → ⊥ }
{}

/// A line waits to be settled that is among those that wait, or where all do.
pub fn who_waits_has_examples()
    ensures among { (office : Box Office) → office.value.worklist.waiting.items ≡ 3 ∷ [] → WaitsIn 3 (Some office) }
    ensures nobody { (office : Box Office) → office.value.worklist.waiting.items ≡ [] → office.value.worklist.is_all ≡ false
        → WaitsIn 3 (Some office) → ⊥ }
{}

/// Who waits behind what a step does to an exchange.
pub fn who_waits_behind_a_step_has_examples()
    // It is one of a board's exchange; there is still one behind it.
    ensures none { (is : Option (Box Office)) → InOffice SameLines None is → is ≡ None }
    ensures lost { (was : Box Office) → InOffice SameLines (Some was) None → ⊥ }
    // Where a line is shown, or begins what it is sent, the same lines wait; where one is woken whoever waited waits still.
    ensures shown { (was is : Box Office) → ToldAt (Some 3) (Some was) (Some is) → is.value.worklist ≡ was.value.worklist }
    ensures sent { (was is : Box Office) → IssuesAt (Some 3) false (Some was) (Some is) → is.value.worklist ≡ was.value.worklist }
    ensures not_sent { (was is : Box Office) → IssuesAt (Some 3) true (Some was) (Some is) →
        (begun : Option (Box Office)) × OfOffice (Begins 3) (Some was) begun × InOffice SameLines (Some was) begun
        × InOffice (Touches 3) begun (Some is) }
    ensures waits_on { (was is : Box Office) → InOffice LinesWaitOn (Some was) (Some is) → WaitOn was.value.worklist is.value.worklist }
    // Something has happened to a line of which something is told, or whose command was answered, and to each that is announced.
    ensures told_of { (was is : Box Office) → HearsTold [] 3 [] (Some was) (Some is) → Touches 3 was.value is.value }
    ensures answered { (gateway after : Gateway) (was is : Box Office) →
        AnswersIn 3 200 [] (Some gateway) (Some was) (Some after) (Some is) → Touches 3 was.value is.value }
    ensures meant { (was is : Office) → TouchesIf true 3 was is → Touches 3 was is }
    ensures not_meant { (was is : Office) → TouchesIf false 3 was is → is ≡ was }
    ensures announced { (was is : Box Office) → AnnouncesBy true (Ok Pattern.All) 4 2 (Some was) (Some is) → IsWaiting is.value.worklist 5 }
    ensures left { (was is : Office) → was.exchange ≡ creating → TouchesMeant true (Pattern.One 2) 0 2 was is → IsWaiting is.worklist 3 }
    ensures others { (was is : Office) → TouchesMeant true Pattern.All 4 2 was is → WaitOn was.worklist is.worklist }
{}

/// Which gateway does something, and what one issues.
pub fn who_issues_has_examples()
    // It is the one at that place, which is there still; where there is none, nobody does anything.
    ensures at_place { (one two three : Gateway) →
        AtPlace 1 (λ was is. (was ≡ two) × (is ≡ three)) (one ∷ two ∷ []) (one ∷ three ∷ []) }
    ensures nobody { (one : Gateway) → AtPlace 1 (λ was is. ⊥) (one ∷ []) (one ∷ []) }
    ensures gone { (one two : Gateway) → AtPlace 1 (λ was is. ⊤) (one ∷ two ∷ []) (one ∷ []) → ⊥ }
    // So it is with the gateway of a line; where there is none, any command is a bad one.
    ensures by_its_gateway { (order : Shown) (fault : IssueFault) (was is : Gateway) →
        IssuesIn (codes "aaln/1@gw2") order 3 (Err fault) (Some was) (Some is) →
        IssuesUnder (codes "aaln/1@gw2") order 3 (Err fault) was is }
    ensures not_there { (order : Shown) (fault : IssueFault) (was : Gateway) → IssuesIn [] order 3 (Err fault) (Some was) None → ⊥ }
    ensures bad { (order : Shown) (is : Option Gateway) → IssuesIn [] order 3 (Err faults.BadCommand) None is }
    ensures not_for_ids { (order : Shown) (is : Option Gateway) → IssuesIn [] order 3 (Err faults.NoMoreIds) None is → ⊥ }
    // Memory is refused whatever an agent's reason is; where it has none, it has no other.
    ensures for_memory { (gateway : Gateway) → Fails [] [] [] faults.OutOfMemory gateway }
    ensures without_reason { (gateway : Gateway) (events : List AgentEvent) → AgentStands gateway.agent.value events →
        issue_refusal (plain_agent gateway.agent.value.setup events) [] [] [] ≡ None → Fails [] [] [] faults.NoMoreIds gateway → ⊥ }
    ensures before { (gateways : List Gateway) → RefusedBefore faults.OutOfMemory gateways gateways }
    ensures before_all { (were are : List Gateway) → RefusedBefore faults.OutOfMemory were are → are ≡ were }
    ensures not_before { (were are : List Gateway) → RefusedBefore faults.NoMoreIds were are → ⊥ }
    // What is typed is issued under the name with its gateway's domain, and is in flight to no line.
    ensures of_agent { (gateway : Gateway) → IsOfAgent [] [] [] gateway TypedFault.OutOfMemory }
    ensures not_of_agent { (gateway : Gateway) → IsOfAgent [] [] [] gateway TypedFault.Unknown → ⊥ }
    ensures named { (issued : Issued) (was is : Gateway) →
        IssuesNamed (codes "AUEP") (codes "aaln/1") [] (Ok issued) (record was { domain = codes "gw2" }) is →
        AgentTook was.agent.value (issues (codes "AUEP") (codes "aaln/1@gw2") []) is.agent.value (issued.datagram ∷ []) }
    ensures to_no_line { (issued : Issued) (was is : Gateway) → IssuesNamed [] [] [] (Ok issued) was is → Flies None issued was is }
    ensures not_named { (fault : TypedFault) (was is : Gateway) → IssuesNamed [] [] [] (Err fault) was is →
        is.flights.items ≡ was.flights.items }
{}
