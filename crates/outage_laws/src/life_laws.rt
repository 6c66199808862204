//! Laws of a world in which the gateway starts again.
ghost use Rattle.std.specs.Prelude.{◌≡◌, ◌≢◌, ◌+◌, ◌++◌, ◌∷◌, [], ℕ, List, map, flat_map, fold, slice_get, Some, true, All, Any, AllPairs, IfSome};
ghost use Rattle.mgcp_text.specs.declared.message.Message.TheVariants as messages;
ghost use Rattle.mgcp_text.specs.declared.message.Param.{Param};
ghost use Rattle.mgcp_text.specs.Reading.{message, read_text};
ghost use Rattle.transmission.specs.Kept.{firsts_in};
ghost use Rattle.retransmission.specs.Flight.{InFlight};
ghost use Rattle.plain_machine.specs.declared.endpoint.Endpoint.{Endpoint};
ghost use Rattle.plain_machine.specs.declared.setup.Setup.{Setup};
ghost use Rattle.plain_machine.specs.Setup.{IsSetUp};
ghost use Rattle.plain_machine.specs.Machine.{endpoint_at};
ghost use Rattle.transmission.specs.Texts.{texts_of};
ghost use Rattle.plain_machine.specs.Message.{Begun};
ghost use Rattle.machine_laws.specs.Saying.{HasNumbersLeft};
ghost use Rattle.call_agent.specs.Agent.{nothing_taken};
ghost use Rattle.call_agent.specs.Taking.{with_taken};
ghost use Rattle.agent_core.specs.declared.packet.End.TheVariants.{AgentEnd};
ghost use Rattle.agent_core.specs.World.{WorldStep, delivering, agent_of, world_opening, plain_world, steps_are_taken};
ghost use Rattle.world_laws.specs.Reached.{Reached, issued_in, key_kept, key_reached, taken_with};
ghost use Rattle.outage_laws.specs.Lives.{Life, Letter, Brought, LivesStep, stepping, lives_opening, lives_of, lives_are_taken, plain_lives, agent_side, agent_then, gateway_of, number_of};
ghost use Rattle.outage_laws.specs.Apart.{executed_by, BringsCopy, begun_of, own_of, OfLife, AllHaveNumbersLeft, LieApart, IsTakenFor, what_came, firsts_of_lives, ArePaced, IsByTime, KeepsPace, StartsByTime, StartsLater};

/// In each life the gateway executes each command that the agent issued once at most, as it was issued, and only where a copy of
/// it was handed to that life; and no id is issued twice, however often the gateway starts.
pub fn each_life_executes_a_command_once()
    ensures once { (setup : Setup) (steps : List LivesStep) → lives_are_taken setup (lives_opening setup) steps ≡ true →
        All (λ (life : Life). AllPairs (λ (first later : Reached). first.asked.id ≢ later.asked.id) (executed_by life))
        (lives_of (plain_lives setup steps)) }
    ensures handed { (setup : Setup) (steps : List LivesStep) → lives_are_taken setup (lives_opening setup) steps ≡ true →
        All (λ (life : Life). All (λ (one : Reached). Any (λ (b : Begun).
        (b.id ≡ one.asked.id) × (one.outcome ≡ read_text b.text) × Any (BringsCopy b.text) life.took)
        (issued_in setup (agent_side (plain_lives setup steps)))) (executed_by life)) (lives_of (plain_lives setup steps)) }
    ensures ids { (setup : Setup) (steps : List LivesStep) →
        AllPairs (λ (a b : Begun). a.id ≢ b.id) (issued_in setup (agent_side (plain_lives setup steps))) }
{}

/// The agent's firsts are commands of the lives that brought them, as these sent them, where their setups are as configurations give
/// them; and where a life has numbers left, each of its notifications and announcements is a first once at most.
pub fn each_life_is_heard_once()
    ensures once { (setup : Setup) (steps : List LivesStep) → IsSetUp setup → lives_are_taken setup (lives_opening setup) steps ≡ true →
        AllHaveNumbersLeft (lives_of (plain_lives setup steps)) →
        AllPairs (λ (first later : Brought). first.life ≡ later.life → first.reached.asked.id ≢ later.reached.asked.id)
        (firsts_of_lives (plain_lives setup steps)) }
    ensures as_sent { (setup : Setup) (steps : List LivesStep) →
        All (λ (one : Brought). OfLife (λ (life : Life). IsSetUp life.setup → Any (λ (b : Begun). (b.id ≡ one.reached.asked.id)
        × (one.reached.outcome ≡ read_text b.text)) (begun_of life)) (lives_of (plain_lives setup steps)) one.life)
        (firsts_of_lives (plain_lives setup steps)) }
    ensures kept { (setup : Setup) (steps : List LivesStep) →
        map key_kept (firsts_in (agent_then setup (plain_lives setup steps)).history)
        ≡ map key_reached (map what_came (firsts_of_lives (plain_lives setup steps))) }
    ensures taken { (setup : Setup) (steps : List LivesStep) →
        (agent_then setup (plain_lives setup steps)).taken ≡ fold with_taken (nothing_taken (agent_of setup))
        (flat_map (taken_with (agent_of setup)) (map what_came (firsts_of_lives (plain_lives setup steps)))) }
{}

/// Where the ids of lives lie apart, the agent takes no command of a life for a repeat of another's; and what is handed to a life,
/// though the agent answered another by it, is no answer to a command of that life: it has begun none with that id, not even with
/// what it does at that packet; and what a life has in flight it has begun, whatever is refused.
pub fn no_life_is_taken_for_another()
    ensures repeats { (setup : Setup) (steps : List LivesStep) → IsSetUp setup →
        lives_are_taken setup (lives_opening setup) steps ≡ true → LieApart (lives_of (plain_lives setup steps)) →
        All (λ (before : Brought). All (λ (one : Brought). IsTakenFor before one → before.life ≡ one.life)
        (plain_lives setup steps).brought) (plain_lives setup steps).brought }
    ensures answers { (setup : Setup) (steps : List LivesStep) (number : ℕ) (letter : Letter) → IsSetUp setup →
        lives_are_taken setup (lives_opening setup) (steps ++ stepping (delivering number) ∷ []) ≡ true →
        LieApart (lives_of (plain_lives setup (steps ++ stepping (delivering number) ∷ []))) →
        slice_get (plain_lives setup steps).letters number ≡ Some letter → letter.post.end ≡ AgentEnd →
        letter.life ≢ number_of (plain_lives setup steps) →
        All (λ (text : List ℕ). (code id : ℕ) (params : List Param) (body : List ℕ) →
        read_text text ≡ message (messages.Response code id params body) →
        All (λ (b : Begun). b.id ≢ id) (begun_of (plain_lives setup (steps ++ stepping (delivering number) ∷ [])).life))
        (texts_of letter.post.packet.bytes) }
    ensures in_flight { (setup : Setup) (steps : List LivesStep) →
        All (λ (life : Life). (line : ℕ) (endpoint : Endpoint) → endpoint_at (gateway_of life).endpoints line ≡ Some endpoint →
        IfSome endpoint.post.pending (λ (message : InFlight). Any (λ (b : Begun). b.id ≡ message.id) (begun_of life)))
        (lives_of (plain_lives setup steps)) }
    ensures own_in_flight { (setup : Setup) (steps : List LivesStep) →
        All (λ (life : Life). IfSome (gateway_of life).endpoints.own.pending (λ (message : InFlight).
        Any (λ (b : Begun). b.id ≡ message.id) (begun_of life))) (lives_of (plain_lives setup steps)) }
{}

/// Lives whose numbers follow the time of day lie apart: where this was the time of day at the world's beginning, and these the ones at
/// which their numbers were drawn, both in ms, these are a second apart at least; where one was drawn before its life started, the lives
/// before had begun their last commands; and in no life a line, or the gateway itself, began more than 10 commands and one for each 100 ms,
/// or any five days after its number was drawn.
pub fn lives_by_the_time_of_day_lie_apart()
    ensures { (day : ℕ) (drawn : Life → ℕ) (setup : Setup) (steps : List LivesStep) →
        lives_are_taken setup (lives_opening setup) steps ≡ true → All (IsByTime day drawn) (lives_of (plain_lives setup steps)) →
        AllPairs (StartsLater day drawn) (lives_of (plain_lives setup steps)) → LieApart (lives_of (plain_lives setup steps)) }
{}

/// Counted so: where a life's first number is that of the time of day at which it was drawn, at its start or however long before, and by
/// each of its ms a line, or the gateway itself, began 10 commands and one for each 100 ms at most, none of them five days after that
/// number was drawn, its numbers follow the time of day, whatever it took. So such lives lie apart, where their numbers are drawn a second
/// apart, and none before the lives before have begun their last commands.
pub fn lives_that_keep_pace_follow_the_time_of_day()
    ensures follow { (day : ℕ) (drawn : Life → ℕ) (life : Life) → StartsByTime day drawn life → KeepsPace day drawn life →
        IsByTime day drawn life }
    ensures apart { (day : ℕ) (drawn : Life → ℕ) (setup : Setup) (steps : List LivesStep) →
        lives_are_taken setup (lives_opening setup) steps ≡ true → All (StartsByTime day drawn) (lives_of (plain_lives setup steps)) →
        All (KeepsPace day drawn) (lives_of (plain_lives setup steps)) →
        AllPairs (StartsLater day drawn) (lives_of (plain_lives setup steps)) → LieApart (lives_of (plain_lives setup steps)) }
    ensures numbers_left { (waited : ℕ) (life : Life) → ArePaced waited (own_of life) → HasNumbersLeft (own_of life) }
{}

/// Where the gateway never starts again, all is as in a world of one gateway: what both ends took, and all packets.
pub fn one_life_is_a_world()
    ensures over { (setup : Setup) (steps : List WorldStep) → (plain_lives setup (map stepping steps)).over ≡ [] }
    ensures gateway { (setup : Setup) (steps : List WorldStep) →
        (plain_lives setup (map stepping steps)).life.took ≡ (plain_world setup steps).gateway_took }
    ensures agent { (setup : Setup) (steps : List WorldStep) →
        (plain_lives setup (map stepping steps)).agent_took ≡ (plain_world setup steps).agent_took }
    ensures packets { (setup : Setup) (steps : List WorldStep) →
        (agent_side (plain_lives setup (map stepping steps))).posted ≡ (plain_world setup steps).posted }
    ensures taken { (setup : Setup) (steps : List WorldStep) → steps_are_taken setup world_opening steps ≡ true →
        lives_are_taken setup (lives_opening setup) (map stepping steps) ≡ true }
{}
