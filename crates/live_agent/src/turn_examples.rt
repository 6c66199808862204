//! Worked examples of what the parts of a turn do, as theorems: of each relation what it says of its parts.
#![tactic(auto)]

ghost use Rattle.std.specs.Prelude.{◌≡◌, [], ℕ, true, false, length, not, slice_get};
ghost use Rattle.std.specs.declared.net.socket_addr.SocketAddrV4.{SocketAddrV4};
ghost use Rattle.line_control.specs.Waiting.{Settles};
ghost use Rattle.agent_gateways.specs.Boards.{settling_in, taking_in, woken_at, SettlesIn, WakesIn};
ghost use Rattle.agent_gateways.specs.Steps.{InOffice, LinesWaitOn, OthersStay};
ghost use Rattle.agent_gateways.specs.declared.switchboard.Switchboard.{Switchboard};
ghost use Rattle.turns.specs.Runs.{is_end};
ghost use Rattle.turns.specs.Schedule.{next_of};
ghost use Rattle.turns.specs.declared.schedule.Schedule.{Schedule};
ghost use Rattle.turns.specs.declared.situation.Situation.{Situation};
ghost use Rattle.live_agent.specs.declared.wire.Wire.{Wire};
ghost use Rattle.live_agent.specs.AnyAround.{anywhere};
ghost use Rattle.live_agent.specs.Datagrams.{DealsIf, HearsAt, StepsAt, TakesAll, TakesDatagram, TakesEach, TakesElse, TakesOver};
ghost use Rattle.live_agent.specs.Sending.{SendsOutputs};
ghost use Rattle.live_agent.specs.Settling.{SendsEach, SettlesAll, SettlesNow, ShowsEach};
ghost use Rattle.live_agent.specs.Ticking.{GivesUpAll, GivesUpMany, TicksAll, TicksEach, WakesAll, WakesEach, WakesMany, WakesNext};
ghost use Rattle.live_agent.specs.Wiring.{AsksNext, IsSituation};

/// How lines are settled, and what a tick does.
pub fn what_settles_has_examples()
    // Those that waited are settled from then on: all are shown, then all are sent what they are to be sent.
    ensures begins { (board now : Switchboard) (was is : Wire ℕ) (settles : SettlesNow anywhere board was now is) →
        SettlesIn board.office settles.begun.office × ShowsEach (settling_in settles.begun.office) settles.begun was settles.shown
        settles.told }
    ensures sends { (board now : Switchboard) (was is : Wire ℕ) (settles : SettlesNow anywhere board was now is) →
        SendsEach anywhere (settling_in settles.begun.office) settles.shown settles.told now is }
    // Of a gateway all that is given up by now is, and all that is sent again by now is.
    ensures gives_up { (board now : Switchboard) (was is : Wire ℕ) (gives : GivesUpAll anywhere 0 board was now is) →
        GivesUpMany anywhere 0 gives.count board was gives.given gives.told }
    ensures wakes { (board now : Switchboard) (wakes : WakesAll 0 board now) → WakesMany 0 wakes.count board wakes.woken }
    ensures wakes_one { (board now : Switchboard) → WakesNext true 0 board now →
        WakesIn (woken_at (slice_get board.gateways.items 0)) board.office now.office × InOffice LinesWaitOn board.office now.office
        × OthersStay 0 board.gateways.items now.gateways.items }
    // At a tick the clocks come first, then what is given up, then what is woken; then lines are settled.
    ensures ticks { (board now : Switchboard) (was is : Wire ℕ) (ticks : TicksAll anywhere 900 700 board was now is) →
        TicksEach anywhere 700 (length board.gateways.items) board (record was { now = record was.now { clock = 700 } }) ticks.ticked
        ticks.said }
    ensures ticks_then { (board now : Switchboard) (was is : Wire ℕ) (ticks : TicksAll anywhere 900 700 board was now is) →
        WakesEach (length ticks.given.gateways.items) ticks.given ticks.woken × SettlesAll anywhere ticks.woken ticks.told now is }
{}

/// What a datagram does.
pub fn what_a_datagram_is_has_examples()
    // The agent of its gateway takes it, or doesn't; what that says is sent, and then the board hears it.
    ensures steps { (source : SocketAddrV4) (board now : Switchboard) (was is : Wire ℕ)
        (hears : HearsAt anywhere 0 source [] board was now is) → StepsAt 0 source [] hears.outputs board hears.stepped }
    ensures sends { (source : SocketAddrV4) (board now : Switchboard) (was is : Wire ℕ)
        (hears : HearsAt anywhere 0 source [] board was now is) → SendsOutputs anywhere false hears.outputs hears.went_on was hears.sent
        × DealsIf anywhere hears.went_on 0 [] hears.stepped hears.sent now is }
    // What lines told is taken, of those whose notifications came.
    ensures takes { (board now : Switchboard) (was is : Wire ℕ) (takes : TakesAll anywhere 0 board was now is) →
        Settles board.notifying takes.begun.notifying
        × TakesEach anywhere 0 (taking_in (slice_get board.gateways.items 0) takes.begun.notifying) takes.begun was now is }
    // The network is asked first for one, and then the sockets.
    ensures asks { (board now : Switchboard) (was is : Wire ℕ) (takes : TakesDatagram anywhere board was now is) →
        TakesOver anywhere takes.found board was takes.between takes.left
        × TakesElse anywhere takes.found takes.between takes.left now is }
    // What comes next is by how things stand.
    ensures next { (board : Switchboard) (wire : Wire ℕ) (schedule next : Schedule)
        (asks : AsksNext anywhere board wire schedule true next) →
        ((asks.turn, next) ≡ next_of schedule asks.at) × (true ≡ not (is_end asks.turn)) }
    ensures stands { (board : Switchboard) (wire : Wire ℕ) (at : Situation) →
        IsSituation anywhere board wire at →
        (at.ticked ≡ wire.now.clock) × (at.end ≡ wire.end) × (at.read ≡ wire.read) }
{}
