//! Laws of what a telephone does and of what its line notifies.
ghost use Rattle.std.specs.Prelude.{◌≡◌, ◌≢◌, ◌++◌, ◌∷◌, [], ℕ, List, Some, true, false};
ghost use Rattle.packages.specs.declared.observed.Observed.{Observed};
ghost use Rattle.plain_machine.specs.declared.setup.Setup.{Setup};
ghost use Rattle.plain_machine.specs.declared.endpoint.Endpoint.{Endpoint};
ghost use Rattle.plain_machine.specs.Event.{GatewayEvent};
ghost use Rattle.plain_machine.specs.Lists.{plain, sent_of};
ghost use Rattle.plain_machine.specs.Machine.{endpoint_at};
ghost use Rattle.world_laws.specs.Course.{CourseStep, notifies, course_from, course_of, requests_in};
ghost use Rattle.world_laws.specs.GivenUp.{has_given_up};
ghost use Rattle.world_laws.specs.Dialled.{IsAskedForAll, IsToldOnce, done_in};
ghost use Rattle.world_laws.specs.Following.{Follow, AreInStep, OnceForEach, FollowsTheLatest, RestsUntilAsked, RestsOnceNotified};
ghost use Rattle.world_laws.specs.Keeping.{NothingIsSkipped, NothingIsMadeUp, happened_in};
ghost use Rattle.plain_machine.specs.Setup.{IsSetUp};
ghost use Rattle.machine_laws.specs.Saying.{HasNumbersLeft};
ghost use Rattle.machine_laws.specs.Belonging.{of_line};
ghost use Rattle.call_agent.specs.Agent.{observed_on};
ghost use Rattle.agent_core.specs.World.{WorldStep, agent_in, gateway_in, plain_world, steps_are_taken, world_opening};
ghost use Rattle.world_laws.specs.Reached.{own_in, taken_in};
ghost use Rattle.world_laws.specs.Untaken.{untaken};

// Of whole lists of events

/// Where a line is asked for all that its telephone does before that does anything, and so at each request since, and
/// nothing is lost for want of room: all that the telephone did is what the line's notifications told, each at its first
/// send, joined, and then what is quarantined. So nothing is doubled, nothing is skipped, and the order stays.
pub fn nothing_dialled_is_doubled_or_skipped()
    ensures { (setup : Setup) (line : ℕ) (before after : List GatewayEvent) (endpoint : Endpoint) →
        endpoint_at (plain setup (before ++ after)).endpoints line ≡ Some endpoint →
        IsAskedForAll (course_of setup line before) (course_from setup (plain setup before) line after) endpoint.line →
        IsToldOnce (course_of setup line (before ++ after)) endpoint.line }
{}

/// Each notification has the identifier of the latest request that its line accepted before, or `0` where there is none.
pub fn a_notification_names_the_latest_request()
    ensures { (setup : Setup) (line : ℕ) (events : List GatewayEvent) (endpoint : Endpoint) →
        endpoint_at (plain setup events).endpoints line ≡ Some endpoint → Follow (course_of setup line events) }
{}

/// Where all requests that a line accepts ask for one notification, it notifies once for each: between any two of its
/// notifications it accepts a request.
pub fn a_line_in_step_notifies_once_for_each_request()
    ensures once { (setup : Setup) (line : ℕ) (events : List GatewayEvent) (endpoint : Endpoint) →
        endpoint_at (plain setup events).endpoints line ≡ Some endpoint → AreInStep (course_of setup line events) →
        OnceForEach (course_of setup line events) }
    ensures between { (course before between after : List CourseStep) (x y : List ℕ) (o p : List Observed) →
        OnceForEach course → course ≡ before ++ notifies x o ∷ (between ++ notifies y p ∷ after) →
        requests_in between ≢ [] }
{}

// Of each call of a line

/// Where all is notified, each call conserves what the telephone did: what was quarantined and what is new is told, or
/// quarantined.
pub fn each_call_skips_nothing()
    ensures { NothingIsSkipped }
{}

/// Until the telephone does something, no call tells anything of it; and from the first request that asks for all on, the
/// line keeps all.
pub fn no_call_makes_anything_up()
    ensures { NothingIsMadeUp }
{}

/// A line follows the latest request, tells its identifier, and in step rests once it notified, until a request comes.
pub fn each_call_follows_the_latest_request()
    ensures follows { FollowsTheLatest }
    ensures rests { RestsUntilAsked }
    ensures notified { RestsOnceNotified }
{}

/// Whatever the network does, what a telephone did is what the agent was told of its line, joined, and then what the command
/// in flight tells if the agent hasn't taken it yet, and then what is quarantined, but for the ends of signals: nothing is
/// doubled, nothing is skipped, and the order stays. So what the agent was told is at each moment the beginning of what was
/// dialled. It is so where the line was asked for all that its telephone does before that did anything, and so at each
/// request since, no event was lost for want of room, and the line gave no command up; and for the whole no line used up its
/// numbers, since an id that comes again would tell that its command was taken.
pub fn what_is_dialled_reaches_the_agent_once()
    ensures whole { (setup : Setup) (steps : List WorldStep) (line : ℕ) (before after : List GatewayEvent) (endpoint : Endpoint) →
        IsSetUp setup → steps_are_taken setup world_opening steps ≡ true → HasNumbersLeft (own_in setup (plain_world setup steps)) →
        (plain_world setup steps).gateway_took ≡ before ++ after →
        endpoint_at (gateway_in setup (plain_world setup steps)).endpoints line ≡ Some endpoint →
        IsAskedForAll (course_of setup line before) (course_from setup (plain setup before) line after) endpoint.line →
        has_given_up (of_line line (sent_of setup (plain_world setup steps).gateway_took)) endpoint.post ≡ false →
        done_in (course_of setup line (plain_world setup steps).gateway_took)
        ≡ happened_in (observed_on line (agent_in setup (plain_world setup steps)))
        ++ (happened_in (untaken (taken_in (plain_world setup steps)) endpoint.post.pending)
        ++ happened_in endpoint.line.quarantined.events) }
    ensures beginning { (setup : Setup) (steps : List WorldStep) (line : ℕ) (before after : List GatewayEvent) (endpoint : Endpoint) →
        IsSetUp setup → steps_are_taken setup world_opening steps ≡ true →
        (plain_world setup steps).gateway_took ≡ before ++ after →
        endpoint_at (gateway_in setup (plain_world setup steps)).endpoints line ≡ Some endpoint →
        IsAskedForAll (course_of setup line before) (course_from setup (plain setup before) line after) endpoint.line →
        has_given_up (of_line line (sent_of setup (plain_world setup steps).gateway_took)) endpoint.post ≡ false →
        (rest : List Observed) × (done_in (course_of setup line (plain_world setup steps).gateway_took)
        ≡ happened_in (observed_on line (agent_in setup (plain_world setup steps))) ++ rest) }
{}
