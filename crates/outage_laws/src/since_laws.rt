//! Laws of a network that was down and came back.
ghost use Rattle.std.specs.Prelude.{◌≡◌, ◌≤◌, ◌<◌, ◌+◌, ◌*◌, ℕ, List, All, Any, [], length, true};
ghost use Rattle.transmission.specs.Arrival.{Arrival};
ghost use Rattle.transmission.specs.Firsts.{young_of};
ghost use Rattle.transmission.specs.Memory.{memory_time};
ghost use Rattle.plain_machine.specs.declared.setup.Setup.{Setup};
ghost use Rattle.plain_machine.specs.Machine.{serves};
ghost use Rattle.plain_machine.specs.Message.{Begun};
ghost use Rattle.agent_core.specs.World.{WorldStep, gateway_in, now_in, plain_world};
ghost use Rattle.world_laws.specs.Reached.{Reached, taken_in};
ghost use Rattle.world_laws.specs.Chances.{chances, last_chance};
ghost use Rattle.world_laws.specs.Copies.{HasRoom, IsRun, answer_wait, IsCopy};
ghost use Rattle.world_laws.specs.Fairness.{GoesToAgent};
ghost use Rattle.world_laws.specs.OwnChances.{HasCome, IsOfLine};
ghost use Rattle.outage_laws.specs.AfterOutage.{AgentHasRoomFrom, IsFairFrom, gap_of, grown_old, longest_pause};
ghost use Rattle.retransmission.specs.Sends.{most_repeats};
ghost use Rattle.agent_core.specs.declared.packet.End.TheVariants.{GatewayEnd};
ghost use Rattle.outage_laws.specs.Carrying.{IsCarriedBack};

/// A notification or an announcement that was in flight when the network came back, or began since, is taken 3,999 ms and the time of the
/// network behind that moment at the latest, or that time behind its first send; and a response to it comes by twice that time: unless the
/// last of its eight sends was before (RFC 3435, 3.5.3).
pub fn what_is_in_flight_is_taken_after_an_outage()
    ensures line_taken { (setup : Setup) (steps : List WorldStep) (since within line : ℕ) (b : Begun) →
        IsRun setup steps → IsFairFrom setup steps since within → AgentHasRoomFrom setup steps since →
        let w = plain_world setup steps in
        IsOfLine setup w line b → GoesToAgent setup w b.text → since ≤ b.moment + last_chance → b.moment + within ≤ now_in setup w →
        since + longest_pause + within ≤ now_in setup w + 1 → Any (λ (one : Reached). one.asked.id ≡ b.id) (taken_in w) }
    ensures own_taken { (setup : Setup) (steps : List WorldStep) (since within : ℕ) (b : Begun) →
        IsRun setup steps → IsFairFrom setup steps since within → AgentHasRoomFrom setup steps since →
        let w = plain_world setup steps in
        IsOfLine setup w 0 b → since ≤ b.moment + last_chance → b.moment + within ≤ now_in setup w →
        since + longest_pause + within ≤ now_in setup w + 1 → Any (λ (one : Reached). one.asked.id ≡ b.id) (taken_in w) }
    ensures line_answered { (setup : Setup) (steps : List WorldStep) (since within line : ℕ) (b : Begun) →
        IsRun setup steps → IsFairFrom setup steps since within → AgentHasRoomFrom setup steps since →
        let w = plain_world setup steps in
        IsOfLine setup w line b → GoesToAgent setup w b.text → since ≤ b.moment + last_chance → b.moment + 2 * within ≤ now_in setup w →
        since + longest_pause + 2 * within ≤ now_in setup w + 1 → HasCome w b.id }
    ensures own_answered { (setup : Setup) (steps : List WorldStep) (since within : ℕ) (b : Begun) →
        IsRun setup steps → IsFairFrom setup steps since within → AgentHasRoomFrom setup steps since →
        let w = plain_world setup steps in
        IsOfLine setup w 0 b → since ≤ b.moment + last_chance → b.moment + 2 * within ≤ now_in setup w →
        since + longest_pause + 2 * within ≤ now_in setup w + 1 → HasCome w b.id }
{}

/// A gateway that isn't answered yet when the network comes back serves by then: that long behind it as a command is given up behind the
/// last of its sends whose answer may still come in time, then the wait before it announces itself anew, and then twice the time of the
/// network: 4,000 ms, the wait and twice that time, where twice that time is less than 4,000 ms. Its agent has room until then: it is told
/// of announcements alone (RFC 3435, 3.5.3, 4.3 and 4.4.6).
pub fn a_gateway_serves_after_an_outage()
    ensures behind_the_last { (setup : Setup) (steps : List WorldStep) (since within : ℕ) → IsRun setup steps →
        IsFairFrom setup steps since within →
        let w = plain_world setup steps in since + gap_of within + setup.restart_wait + 2 * within ≤ now_in setup w + 1 →
        serves (gateway_in setup w).endpoints ≡ true }
    ensures behind_any { (setup : Setup) (steps : List WorldStep) (since within wait : ℕ) → IsRun setup steps →
        IsFairFrom setup steps since within → let w = plain_world setup steps in
        Any (λ (one : ℕ). one ≡ wait) chances → wait + 2 * within < answer_wait →
        since + answer_wait + setup.restart_wait + 2 * within ≤ now_in setup w + 1 + wait →
        serves (gateway_in setup w).endpoints ≡ true }
{}

/// Where as many firsts are young as there may be, there is room again as one of them is 30,000 ms old, for one for each that is
/// so: as many fewer of them are young as grew old; and once all of them are, none is young (RFC 3435, 3.5.1).
pub fn a_full_history_takes_a_command_again()
    ensures each { (firsts : List Arrival) (now later : ℕ) (first : Arrival) → now ≤ later →
        Any (λ (one : Arrival). one ≡ first) (young_of now firsts) → first.moment + memory_time ≤ later →
        length (young_of later firsts) < length (young_of now firsts) }
    ensures by_as_many { (firsts : List Arrival) (now later : ℕ) → now ≤ later → length (young_of now firsts)
        ≡ length (young_of later firsts) + length (grown_old later (young_of now firsts)) }
    ensures all { (firsts : List Arrival) (now later : ℕ) → All (λ (first : Arrival). first.moment ≤ now) firsts →
        now + memory_time ≤ later → young_of later firsts ≡ [] }
    ensures room { (firsts : List Arrival) (now later : ℕ) → All (λ (first : Arrival). first.moment ≤ now) firsts →
        now + memory_time ≤ later → HasRoom later firsts }
{}

/// A notification or an announcement of which at most seven copies are lost, each with its answer, is taken, and a response to it comes,
/// where it goes to the agent, which has room when a copy comes (RFC 3435, 2.3.4, 2.3.12 and 3.5.3).
pub fn one_copy_of_eight_of_its_own_is_enough()
    ensures line { (setup : Setup) (steps : List WorldStep) (line : ℕ) (b : Begun) (lost : List ℕ) → IsRun setup steps →
        let w = plain_world setup steps in IsOfLine setup w line b → GoesToAgent setup w b.text →
        b.moment + last_chance ≤ now_in setup w → length lost ≤ most_repeats →
        ((number : ℕ) → IsCopy setup w GatewayEnd b.text number → ¬ Any (λ (n : ℕ). n ≡ number) lost →
        IsCarriedBack setup steps b number) → Any (λ (one : Reached). one.asked.id ≡ b.id) (taken_in w) × HasCome w b.id }
    ensures own { (setup : Setup) (steps : List WorldStep) (b : Begun) (lost : List ℕ) → IsRun setup steps →
        let w = plain_world setup steps in IsOfLine setup w 0 b → b.moment + last_chance ≤ now_in setup w →
        length lost ≤ most_repeats → ((number : ℕ) → IsCopy setup w GatewayEnd b.text number → ¬ Any (λ (n : ℕ). n ≡ number) lost →
        IsCarriedBack setup steps b number) → Any (λ (one : Reached). one.asked.id ≡ b.id) (taken_in w) × HasCome w b.id }
{}
