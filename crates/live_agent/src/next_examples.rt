//! Worked examples of what a tick leaves, and of what becomes of a turn, as theorems.
#![tactic(auto)]

ghost use Rattle.std.specs.Prelude.{◌≡◌, ℕ, true, false, Ok};
ghost use Rattle.agent_gateways.specs.declared.switchboard.Switchboard.{Switchboard};
ghost use Rattle.turns.specs.Schedule.{next_of};
ghost use Rattle.turns.specs.declared.schedule.Schedule.{Schedule};
ghost use Rattle.live_agent.specs.declared.wire.Wire.{Wire};
ghost use Rattle.live_agent.specs.AnyAround.{anywhere};
ghost use Rattle.live_agent.specs.Settling.{SettlesAll};
ghost use Rattle.live_agent.specs.Turning.{DoesNext, DoesTurn, TickedOver};
ghost use Rattle.live_agent.specs.Wiring.{IsSituation};

/// What a tick leaves.
pub fn what_a_tick_leaves_has_examples()
    // The clock goes on to its moment, and is behind where it is further than 100 ms from now.
    ensures clock { (was is : Wire ℕ) → TickedOver 900 700 was is → is.now.clock ≡ 700 }
    ensures behind { (was is : Wire ℕ) → TickedOver 801 700 was is → is.is_behind ≡ true }
    ensures not_behind { (was is : Wire ℕ) → TickedOver 800 700 was is → is.is_behind ≡ false }
    // What was typed stays, and what was read, the time of day, and when it ends.
    ensures stays { (was is : Wire ℕ) → TickedOver 900 700 was is →
        (is.lines ≡ was.lines) × (is.read ≡ was.read) × (is.now.time ≡ was.now.time) × (is.end ≡ was.end)
        × (is.is_offering ≡ was.is_offering) }
{}

/// What comes next is done.
pub fn what_is_done_next_has_examples()
    // It is as things stand before it: the clock and the time of day are asked before anything is done.
    ensures stands { (board now : Switchboard) (was is : Wire ℕ) (schedule next : Schedule)
        (does : DoesNext anywhere board now was is schedule next) →
        IsSituation anywhere board was does.at }
    ensures asked { (board now : Switchboard) (was is : Wire ℕ) (schedule next : Schedule)
        (does : DoesNext (record anywhere { passes = λ around clock. clock ≡ Ok around; dates = λ around time. time ≡ around })
        board now was is schedule next) →
        (does.at.moment ≡ was.around) × (does.begun.now.time ≡ was.around) }
    // Nothing else of the wire changes by that.
    ensures begins { (board now : Switchboard) (was is : Wire ℕ) (schedule next : Schedule)
        (does : DoesNext anywhere board now was is schedule next) →
        (does.begun.around ≡ was.around) × (does.begun.network ≡ was.network) × (does.begun.now.clock ≡ was.now.clock)
        × (does.begun.read ≡ was.read) × (does.begun.end ≡ was.end) × (does.begun.is_offering ≡ was.is_offering) }
    // Then lines are settled, and behind them the turn is had at that moment.
    ensures settles { (board now : Switchboard) (was is : Wire ℕ) (schedule next : Schedule)
        (does : DoesNext anywhere board now was is schedule next) → SettlesAll anywhere board does.begun does.settled does.sent }
    ensures turn { (board now : Switchboard) (was is : Wire ℕ) (schedule next : Schedule)
        (does : DoesNext anywhere board now was is schedule next) →
        DoesTurn anywhere does.at.moment (next_of schedule does.at).0
        does.settled now does.sent is }
{}
