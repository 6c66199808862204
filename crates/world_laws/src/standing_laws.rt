//! What it is that an agent and a world stand for a list, part by part; and that after a call that is refused they stand for
//! the lists that they stood for, and for no other.
ghost use Rattle.std.specs.Prelude.{◌≡◌, ◌≢◌, ◌↔◌, ◌<◌, ◌≤◌, ◌^◌, ◌++◌, ◌∷◌, [], ℕ, List, true};
ghost use Rattle.transmission.specs.Memory.{most_firsts};
ghost use Rattle.transmission.specs.Looking.{look_of};
ghost use Rattle.transmission.specs.declared.output.OutDatagram.{OutDatagram};
ghost use Rattle.transmission.specs.Packing.{packed};
ghost use Rattle.call_agent.specs.declared.setup.AgentSetup.{AgentSetup};
ghost use Rattle.call_agent.specs.Agent.{agent_opening};
ghost use Rattle.call_agent.specs.Hearing.{AgentEvent, agent_effect, plain_agent};
ghost use Rattle.call_agent.specs.AgentStands.{AgentState, AgentStands, AgentTook, AgentStays, agent_takes};
ghost use Rattle.agent_core.specs.declared.step.Step.{Step};
ghost use Rattle.agent_core.specs.declared.step.StepRefusal.TheVariants.{OutOfMemory};
ghost use Rattle.agent_core.specs.declared.step.WorldStopped.{WorldStopped};
ghost use Rattle.agent_core.specs.World.{WorldStep, plain_world, gateway_in, agent_in};
ghost use Rattle.agent_core.specs.WorldStands.{WorldState, WorldStands, WorldTook, WorldStoppedAt};

/// An agent stands for a list of events none of which is refused, and is as the plain agent is after them: it has its clock, its
/// next id, its commands in flight, the answers and what was taken, and from then on what it keeps of transactions tells of
/// each id what the plain agent's would.
pub fn what_an_agent_stands_for()
    ensures takes { (a : AgentState) (events : List AgentEvent) → AgentStands a events →
        agent_takes a.setup (agent_opening a.setup) events ≡ true }
    ensures now { (a : AgentState) (events : List AgentEvent) → AgentStands a events →
        a.machine.now ≡ (plain_agent a.setup events).now }
    ensures next { (a : AgentState) (events : List AgentEvent) → AgentStands a events →
        a.machine.next ≡ (plain_agent a.setup events).next }
    ensures flights { (a : AgentState) (events : List AgentEvent) → AgentStands a events →
        a.machine.flights ≡ (plain_agent a.setup events).flights }
    ensures answers { (a : AgentState) (events : List AgentEvent) → AgentStands a events →
        a.machine.answers ≡ (plain_agent a.setup events).answers }
    ensures taken { (a : AgentState) (events : List AgentEvent) → AgentStands a events →
        a.machine.taken ≡ (plain_agent a.setup events).taken }
    ensures transactions { (a : AgentState) (events : List AgentEvent) (id later : ℕ) → AgentStands a events →
        a.machine.now ≤ later →
        look_of most_firsts a.machine.history id later ≡ look_of most_firsts (plain_agent a.setup events).history id later }
{}

/// An agent that took an event keeps its setup, stands for the longer list, and sent what the plain agent sends; one that took
/// none stands for what it stood for.
pub fn what_an_agent_takes()
    ensures setup { (a a' : AgentState) (event : AgentEvent) (out : List OutDatagram) → AgentTook a event a' out →
        a'.setup ≡ a.setup }
    ensures stands { (a a' : AgentState) (before : List AgentEvent) (event : AgentEvent) (out : List OutDatagram) →
        AgentTook a event a' out → AgentStands a before → AgentStands a' (before ++ event ∷ []) }
    ensures sent { (a a' : AgentState) (before : List AgentEvent) (event : AgentEvent) (out : List OutDatagram) →
        AgentTook a event a' out → AgentStands a before →
        out ≡ packed (agent_effect a.setup (plain_agent a.setup before) event).sent }
    ensures setup_stays { (a a' : AgentState) → AgentStays a a' → a'.setup ≡ a.setup }
    ensures stays { (a a' : AgentState) (before : List AgentEvent) → AgentStays a a' → AgentStands a before →
        AgentStands a' before }
{}

/// An agent that took nothing stands for the lists that it stood for, and for no other, and so does a world; also where a run
/// of it stopped at its first step.
pub fn what_took_nothing_stands_for_nothing_else()
    ensures agent { (a a' : AgentState) (before events : List AgentEvent) → AgentStays a a' → AgentStands a before →
        (AgentStands a' events ↔ AgentStands a events) }
    ensures world { (w w' : WorldState) (before steps : List WorldStep) → WorldTook w [] w' → WorldStands w before →
        (WorldStands w' steps ↔ WorldStands w steps) }
    ensures stopped { (w w' : WorldState) (before steps : List WorldStep) (given : List Step) (stopped : WorldStopped) →
        WorldStoppedAt w given w' stopped → stopped.refusal ≢ OutOfMemory → stopped.place ≡ 0 → WorldStands w before →
        (WorldStands w' steps ↔ WorldStands w steps) }
{}

/// The clocks of both ends stay below 2^62 ms, whatever comes: so what their parts ask of moments is met.
pub fn clocks_stay_below_the_end_of_time()
    ensures agent { (setup : AgentSetup) (events : List AgentEvent) → agent_takes setup (agent_opening setup) events ≡ true →
        (plain_agent setup events).now < 2 ^ 62 }
    ensures world_gateway { (w : WorldState) (steps : List WorldStep) → WorldStands w steps →
        (gateway_in w.gateway.setup (plain_world w.gateway.setup steps)).now < 2 ^ 62 }
    ensures world_agent { (w : WorldState) (steps : List WorldStep) → WorldStands w steps →
        (agent_in w.gateway.setup (plain_world w.gateway.setup steps)).now < 2 ^ 62 }
{}
