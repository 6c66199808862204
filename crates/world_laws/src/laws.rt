//! Laws of an agent, and of a world: two ends over a bad network.
ghost use Rattle.std.specs.Prelude.{◌≡◌, ◌≢◌, ◌≤◌, ◌==◌, ℕ, List, length, ◌<◌, map, flat_map, fold, find, None, Some, ◌++◌, ◌∷◌, [], All, Any, AllPairs, true, false, IfSome, slice_get};
ghost use Rattle.std.specs.declared.net.socket_addr.SocketAddrV4.{SocketAddrV4};
ghost use Rattle.mgcp_text.specs.declared.message.Message.TheVariants as messages;
ghost use Rattle.mgcp_text.specs.declared.message.Param.{Param};
ghost use Rattle.mgcp_text.specs.Reading.{message, read_text};
ghost use Rattle.transmission.specs.declared.entry.KeptFirst.{KeptFirst};
ghost use Rattle.transmission.specs.Kept.{firsts_in};
ghost use Rattle.retransmission.specs.declared.reply.Reply.TheVariants.{Answered};
ghost use Rattle.retransmission.specs.Flight.{InFlight, repeat_of, reply_of};
ghost use Rattle.plain_machine.specs.declared.setup.Setup.{Setup};
ghost use Rattle.plain_machine.specs.Setup.{IsSetUp};
ghost use Rattle.plain_machine.specs.Event.{GatewayEvent};
ghost use Rattle.plain_machine.specs.Message.{Begun, Sent, text_of};
ghost use Rattle.plain_machine.specs.Arriving.{TextArrival, arrivals_of};
ghost use Rattle.plain_machine.specs.Machine.{opening};
ghost use Rattle.plain_machine.specs.Lists.{are_taken, plain, sent_of};
ghost use Rattle.machine_laws.specs.Saying.{HasNumbersLeft, IsAnswerTo, Tells, begun_in};
ghost use Rattle.call_agent.specs.declared.setup.AgentSetup.{AgentSetup};
ghost use Rattle.call_agent.specs.Agent.{AgentMachine, FinalAnswer, agent_opening, answer_for, nothing_taken, observed_on};
ghost use Rattle.call_agent.specs.Taking.{with_taken};
ghost use Rattle.call_agent.specs.Choosing.{has_id, first_flight, if_due};
ghost use Rattle.call_agent.specs.Flying.{afterwards, flown_on, pass};
ghost use Rattle.world_laws.specs.Landing.{landing_from};
ghost use Rattle.call_agent.specs.Hearing.{AgentEvent, agent_effect, agent_refusal, handled, agent_after, plain_agent};
ghost use Rattle.call_agent.specs.AgentAlike.{AgentAlike, AgentGoesAlike};
ghost use Rattle.agent_core.specs.World.{WorldStep, agent_of, world_opening, steps_are_taken, step_refusal, plain_world, gateway_in, agent_in};
ghost use Rattle.agent_core.specs.declared.step.Step.{Step};
ghost use Rattle.agent_core.specs.declared.step.StepRefusal.TheVariants.{OutOfMemory};
ghost use Rattle.agent_core.specs.declared.step.WorldStopped.{WorldStopped};
ghost use Rattle.call_agent.specs.AgentStands.{AgentStands};
ghost use Rattle.agent_core.specs.WorldStands.{WorldState, WorldStands, WorldTook, WorldStoppedAt, StepEnds, step_of, steps_before};
ghost use Rattle.gateway_core.specs.Stands.{Stands};
ghost use Rattle.world_laws.specs.Reached.{Reached, taken_with, told_of, key_kept, key_reached, issued_in, executed_in, own_in, taken_in};

/// Whatever the network does, the gateway executes each command that the agent issued once at most, as it was issued, and
/// no other; and no id is issued twice.
pub fn each_command_is_executed_once()
    ensures once { (setup : Setup) (steps : List WorldStep) → steps_are_taken setup world_opening steps ≡ true →
        AllPairs (λ (first later : Reached). first.asked.id ≢ later.asked.id) (executed_in (plain_world setup steps)) }
    ensures as_issued { (setup : Setup) (steps : List WorldStep) → steps_are_taken setup world_opening steps ≡ true →
        All (λ (one : Reached). Any (λ (b : Begun). (b.id ≡ one.asked.id) × (one.outcome ≡ read_text b.text))
        (issued_in setup (plain_world setup steps))) (executed_in (plain_world setup steps)) }
    ensures ids { (setup : Setup) (steps : List WorldStep) → steps_are_taken setup world_opening steps ≡ true →
        AllPairs (λ (a b : Begun). a.id ≢ b.id) (issued_in setup (plain_world setup steps)) }
{}

/// What the agent has for the answer to a command is the stored answer to the gateway's first with its id, text for text;
/// and it is a final response to it.
pub fn answers_are_those_that_were_given()
    ensures given { (setup : Setup) (steps : List WorldStep) → IsSetUp setup → steps_are_taken setup world_opening steps ≡ true →
        All (λ (one : FinalAnswer). Any (λ (first : KeptFirst). (first.id ≡ one.id) × (first.answer ≡ one.text))
        (firsts_in (gateway_in setup (plain_world setup steps)).history)) (agent_in setup (plain_world setup steps)).answers }
    ensures executed { (setup : Setup) (steps : List WorldStep) → IsSetUp setup → steps_are_taken setup world_opening steps ≡ true →
        All (λ (answer : FinalAnswer). Any (λ (one : Reached). one.asked.id ≡ answer.id) (executed_in (plain_world setup steps)))
        (agent_in setup (plain_world setup steps)).answers }
    ensures last { (setup : Setup) (steps : List WorldStep) → IsSetUp setup → steps_are_taken setup world_opening steps ≡ true →
        All (λ (one : FinalAnswer). (params : List Param) × (body : List ℕ) × (200 ≤ one.code)
        × (read_text one.text ≡ message (messages.Response one.code one.id params body)))
        (agent_in setup (plain_world setup steps)).answers }
{}

/// Where no line used up its numbers, the agent takes each command of the gateway's own once at most, as it was sent, and no
/// other; and a final response that the gateway hears is the agent's answer to a first of it.
pub fn each_notification_is_taken_once()
    ensures once { (setup : Setup) (steps : List WorldStep) → IsSetUp setup → steps_are_taken setup world_opening steps ≡ true →
        HasNumbersLeft (own_in setup (plain_world setup steps)) →
        AllPairs (λ (first later : Reached). first.asked.id ≢ later.asked.id) (taken_in (plain_world setup steps)) }
    ensures as_sent { (setup : Setup) (steps : List WorldStep) → IsSetUp setup → steps_are_taken setup world_opening steps ≡ true →
        All (λ (one : Reached). Any (λ (b : Begun). (b.id ≡ one.asked.id) × (one.outcome ≡ read_text b.text))
        (own_in setup (plain_world setup steps))) (taken_in (plain_world setup steps)) }
    ensures answered { (setup : Setup) (steps : List WorldStep) → IsSetUp setup → steps_are_taken setup world_opening steps ≡ true →
        All (λ (a : TextArrival). (code id : ℕ) (params : List Param) (body : List ℕ) →
        a.outcome ≡ message (messages.Response code id params body) → 200 ≤ code →
        Any (λ (one : Reached). one.asked.id ≡ id) (taken_in (plain_world setup steps)))
        (arrivals_of (plain_world setup steps).gateway_took) }
{}

/// What the agent has taken is what its firsts told, in their order, and what it was told of a line is what they told of that
/// line; and at each end the firsts that are kept are those of all that arrived.
pub fn what_is_taken_is_what_firsts_told()
    ensures taken { (setup : Setup) (steps : List WorldStep) → IsSetUp setup → steps_are_taken setup world_opening steps ≡ true →
        (agent_in setup (plain_world setup steps)).taken
        ≡ fold with_taken (nothing_taken (agent_of setup)) (flat_map (taken_with (agent_of setup)) (taken_in (plain_world setup steps))) }
    ensures of_a_line { (setup : Setup) (steps : List WorldStep) (line : ℕ) → IsSetUp setup →
        steps_are_taken setup world_opening steps ≡ true →
        observed_on line (agent_in setup (plain_world setup steps))
        ≡ flat_map (told_of line) (flat_map (taken_with (agent_of setup)) (taken_in (plain_world setup steps))) }
    ensures agent { (setup : Setup) (steps : List WorldStep) → IsSetUp setup → steps_are_taken setup world_opening steps ≡ true →
        map key_kept (firsts_in (agent_in setup (plain_world setup steps)).history)
        ≡ map key_reached (taken_in (plain_world setup steps)) }
    ensures gateway { (setup : Setup) (steps : List WorldStep) →
        map key_kept (firsts_in (gateway_in setup (plain_world setup steps)).history)
        ≡ map key_reached (executed_in (plain_world setup steps)) }
{}

/// An agent has one answer to a command at most; it stays; and it is the final response that comes while the command is in
/// flight.
pub fn an_agent_has_one_answer_to_a_command()
    ensures once { (setup : AgentSetup) (events : List AgentEvent) →
        AllPairs (λ (a b : FinalAnswer). a.id ≢ b.id) (plain_agent setup events).answers }
    ensures landed { (setup : AgentSetup) (m : AgentMachine) (source : SocketAddrV4) (text : List ℕ) (code id : ℕ) (params : List Param)
        (body : List ℕ) (flight : InFlight) → read_text text ≡ message (messages.Response code id params body) →
        find (has_id id) m.flights ≡ Some flight → reply_of flight id code ≡ Answered →
        (handled setup m source text).machine.answers
        ≡ m.answers ++ (record { id = flight.id; code = code; text = text }) ∷ [] }
    ensures nothing_else { (setup : AgentSetup) (m : AgentMachine) (source : SocketAddrV4) (text : List ℕ) →
        ((code id : ℕ) (params : List Param) (body : List ℕ) (flight : InFlight) →
        read_text text ≡ message (messages.Response code id params body) → find (has_id id) m.flights ≡ Some flight →
        reply_of flight id code ≢ Answered) → (handled setup m source text).machine.answers ≡ m.answers }
    ensures stays { (setup : AgentSetup) (before events : List AgentEvent) → (more : List FinalAnswer)
        × ((agent_after setup (plain_agent setup before) events).answers ≡ (plain_agent setup before).answers ++ more) }
{}

/// The answers that an agent has are the final responses that came while their commands were in flight, in the order in which
/// they came; so the answer to a command is the first of those with its id.
pub fn an_answer_is_the_first_final_response_in_flight()
    ensures all { (setup : AgentSetup) (events : List AgentEvent) →
        (plain_agent setup events).answers ≡ landing_from setup (agent_opening setup) events }
    ensures first { (setup : AgentSetup) (events : List AgentEvent) (id : ℕ) → answer_for id (plain_agent setup events)
        ≡ find (λ (one : FinalAnswer). one.id == id) (landing_from setup (agent_opening setup) events) }
{}

/// Up to a moment what falls due first of an agent's commands happens first, at its own moment, until nothing is due any more.
pub fn what_is_due_of_commands_happens_in_its_order()
    ensures first { (setup : AgentSetup) (events : List AgentEvent) (moment : ℕ) (flight : InFlight) →
        if_due moment (first_flight (plain_agent setup events).flights) ≡ Some flight →
        pass (plain_agent setup events).flights moment
        ≡ afterwards (flown_on (repeat_of flight flight.due) (plain_agent setup events).flights flight) (λ next. pass next moment) }
    ensures end { (setup : AgentSetup) (events : List AgentEvent) (moment : ℕ) →
        if_due moment (first_flight (pass (plain_agent setup events).flights moment).flights) ≡ None }
{}

/// Both ends of a world have one clock.
pub fn both_ends_have_one_clock()
    ensures { (setup : Setup) (steps : List WorldStep) → steps_are_taken setup world_opening steps ≡ true →
        (agent_in setup (plain_world setup steps)).now ≡ (gateway_in setup (plain_world setup steps)).now }
{}

/// What an agent keeps goes on as the plain agent, and sends the same, at each event that isn't refused.
pub fn an_agent_goes_on_as_the_plain_one()
    ensures { (setup : AgentSetup) (kept m : AgentMachine) (event : AgentEvent) → AgentAlike kept m → agent_refusal kept event ≡ None →
        AgentGoesAlike (agent_effect setup kept event) (agent_effect setup m event) }
{}

/// A world that stands for steps took each of them, and its setup is one as configurations give it: so what is said above of
/// lists of steps holds of it. Its ends stand for what the ends of the plain world took, and its packets are that world's.
pub fn what_a_world_stands_for()
    ensures taken { (w : WorldState) (steps : List WorldStep) → WorldStands w steps →
        steps_are_taken w.gateway.setup world_opening steps ≡ true }
    ensures setup { (w : WorldState) (steps : List WorldStep) → WorldStands w steps → IsSetUp w.gateway.setup }
    ensures gateway { (w : WorldState) (steps : List WorldStep) → WorldStands w steps →
        Stands w.gateway (plain_world w.gateway.setup steps).gateway_took }
    ensures agent { (w : WorldState) (steps : List WorldStep) → WorldStands w steps →
        AgentStands w.agent (plain_world w.gateway.setup steps).agent_took }
    ensures who { (w : WorldState) (steps : List WorldStep) → WorldStands w steps →
        w.agent.setup ≡ agent_of w.gateway.setup }
    ensures packets { (w : WorldState) (steps : List WorldStep) → WorldStands w steps →
        w.posted ≡ (plain_world w.gateway.setup steps).posted }
    ensures spent { (w : WorldState) (steps : List WorldStep) → WorldStands w steps → w.spent ≡ false }
{}

/// A world that took steps stands for the longer list. One that stopped took the steps before that place, unless it is spent,
/// and why it stopped is why the plain world refuses the step there.
pub fn what_running_a_world_means()
    ensures took { (w w' : WorldState) (before steps : List WorldStep) → WorldTook w steps w' → WorldStands w before →
        WorldStands w' (before ++ steps) }
    ensures place { (w w' : WorldState) (steps : List Step) (stopped : WorldStopped) → WorldStoppedAt w steps w' stopped →
        w.spent ≡ false → stopped.place < length steps }
    ensures before { (w w' : WorldState) (before : List WorldStep) (steps : List Step) (stopped : WorldStopped) →
        WorldStoppedAt w steps w' stopped → WorldStands w before → steps_are_taken w.gateway.setup
        (plain_world w.gateway.setup before) (steps_before steps stopped.place) ≡ true }
    ensures stands { (w w' : WorldState) (before : List WorldStep) (steps : List Step) (stopped : WorldStopped) →
        WorldStoppedAt w steps w' stopped → stopped.refusal ≢ OutOfMemory → WorldStands w before →
        WorldStands w' (before ++ steps_before steps stopped.place) }
    ensures spent { (w w' : WorldState) (steps : List Step) (stopped : WorldStopped) → WorldStoppedAt w steps w' stopped →
        stopped.refusal ≡ OutOfMemory → w'.spent ≡ true }
    ensures cause { (w w' : WorldState) (before : List WorldStep) (steps : List Step) (stopped : WorldStopped) →
        WorldStoppedAt w steps w' stopped → WorldStands w before → IfSome (slice_get steps stopped.place) (λ step.
        StepEnds (step_refusal w.gateway.setup (plain_world w.gateway.setup (before ++ steps_before steps stopped.place)) (step_of step))
        (Some stopped.refusal)) }
{}
