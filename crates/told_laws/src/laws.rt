//! Laws of what a line tells, whatever is asked of it, over every list of events.
ghost use Rattle.std.specs.Prelude.{◌≡◌, ◌++◌, ◌∷◌, ℕ, ◌+◌, true, false, List, Some};
ghost use Rattle.packages.specs.declared.observed.Observed.{Observed};
ghost use Rattle.events_and_signals.specs.declared.request.Request.{Request};
ghost use Rattle.plain_machine.specs.declared.setup.Setup.{Setup};
ghost use Rattle.plain_machine.specs.declared.endpoint.Endpoint.{Endpoint};
ghost use Rattle.plain_machine.specs.Event.{GatewayEvent};
ghost use Rattle.plain_machine.specs.Lists.{plain, sent_of};
ghost use Rattle.plain_machine.specs.Machine.{endpoint_at};
ghost use Rattle.plain_machine.specs.Setup.{IsSetUp};
ghost use Rattle.machine_laws.specs.Belonging.{of_line};
ghost use Rattle.call_agent.specs.Agent.{observed_on};
ghost use Rattle.agent_core.specs.World.{WorldStep, agent_in, gateway_in, plain_world, steps_are_taken, world_opening, World};
ghost use Rattle.world_laws.specs.Course.{CourseStep, accepts, notifies, course_of};
ghost use Rattle.world_laws.specs.GivenUp.{has_given_up};
ghost use Rattle.world_laws.specs.Rounds.{of_telephone};
ghost use Rattle.told_laws.specs.Among.{AreAmong, IsToldInOrder};
ghost use Rattle.world_laws.specs.Dialled.{done_in, told_along};
ghost use Rattle.told_laws.specs.Walking.{EmbedsNone, AreActs, TellsAFront};
ghost use Rattle.plain_machine.specs.Message.{Begun};
ghost use Rattle.world_laws.specs.Copies.{IsAnswered, IsIssued, IsServed};

/// Whatever is asked of a line, and by whatever requests: what its notifications told, each at its first send, joined, and then what it
/// keeps to tell it, was done at its telephone, in that order, and nothing of it twice, but for the ends of signals and of timer T.
pub fn what_is_told_was_done_in_that_order()
    ensures told { (setup : Setup) (line : ℕ) (events : List GatewayEvent) →
        AreAmong (of_telephone (told_along (course_of setup line events))) (done_in (course_of setup line events)) }
    ensures kept { (setup : Setup) (line : ℕ) (events : List GatewayEvent) (endpoint : Endpoint) →
        endpoint_at (plain setup events).endpoints line ≡ Some endpoint →
        IsToldInOrder (course_of setup line events) endpoint.line }
{}

/// So the first notification behind a request that embeds none, with a digit map too, tells in their order each event that R names, up to
/// it, of what the request left of what waited, and of what was done since: of these none is skipped, and none comes of anywhere else.
pub fn the_first_notification_tells_what_was_asked_for()
    ensures { (setup : Setup) (line : ℕ) (events : List GatewayEvent) (endpoint : Endpoint) (before between after : List CourseStep)
        (request : Request) (identifier : List ℕ) (observed : List Observed) →
        endpoint_at (plain setup events).endpoints line ≡ Some endpoint →
        EmbedsNone request.events → endpoint.line.quarantined.lost ≡ 0 →
        course_of setup line events ≡ before ++ accepts request ∷ (between ++ notifies identifier observed ∷ after) →
        AreActs between →
        TellsAFront request (of_telephone (told_along before)) (done_in before) (done_in between) observed }
{}

/// In a world, whatever the network does, and whatever is asked of a line that gave no command up: what the agent took of it, joined, was
/// done at its telephone, in that order, and nothing of it twice, but for the ends of signals and of timer T. No numbers need be left.
pub fn what_the_agent_took_was_done_in_that_order()
    ensures { (setup : Setup) (steps : List WorldStep) (line : ℕ) (endpoint : Endpoint) →
        IsSetUp setup → steps_are_taken setup world_opening steps ≡ true →
        endpoint_at (gateway_in setup (plain_world setup steps)).endpoints line ≡ Some endpoint →
        has_given_up (of_line line (sent_of setup (plain_world setup steps).gateway_took)) endpoint.post ≡ false →
        AreAmong (of_telephone (observed_on line (agent_in setup (plain_world setup steps))))
        (done_in (course_of setup line (plain_world setup steps).gateway_took)) }
{}

/// Once the gateway sent the stored answer to a command of the agent's, however it came to that, the command has an answer where that
/// packet is handed over less than 23,500 ms after the command was issued: no copy of the command need be what was answered just then,
/// the gateway needs no room, and no step before is asked for but as one of all, which are taken (RFC 3435, 3.5).
pub fn what_was_answered_is_served()
    ensures { (setup : Setup) (before : World) (first : List WorldStep) (b : Begun) → IsSetUp setup →
        let after = plain_world setup first in IsIssued setup after b → (answer : IsAnswered setup before after b.id) →
        IsServed setup first b answer.number }
{}
