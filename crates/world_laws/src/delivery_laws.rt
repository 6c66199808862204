//! Laws of delivery, in a world of two ends over a bad network.
ghost use Rattle.std.specs.Prelude.{◌≡◌, ◌⊎◌, ◌≤◌, ◌<◌, ◌+◌, ◌*◌, ℕ, List, ◌++◌, ◌∷◌, [], All, Any, Some, length, slice_get, true, false};
ghost use Rattle.mg_line.specs.Answering.{answered};
ghost use Rattle.mgcp_text.specs.declared.message.Message.TheVariants as messages;
ghost use Rattle.mgcp_text.specs.declared.message.Param.{Param};
ghost use Rattle.mgcp_text.specs.Reading.{message, read_text};
ghost use Rattle.transmission.specs.declared.entry.KeptFirst.{KeptFirst};
ghost use Rattle.transmission.specs.Arrival.{Arrival};
ghost use Rattle.transmission.specs.Kept.{firsts_in};
ghost use Rattle.transmission.specs.Memory.{most_firsts};
ghost use Rattle.transmission.specs.Firsts.{firsts_of};
ghost use Rattle.retransmission.specs.Sends.{most_repeats};
ghost use Rattle.transmission.specs.Texts.{texts_of};
ghost use Rattle.plain_machine.specs.declared.setup.Setup.{Setup};
ghost use Rattle.plain_machine.specs.declared.endpoint.Endpoint.{Endpoint};
ghost use Rattle.plain_machine.specs.Machine.{serves, endpoint_at};
ghost use Rattle.plain_machine.specs.Event.{GatewayEvent};
ghost use Rattle.plain_machine.specs.Transactions.{commands_of};
ghost use Rattle.plain_machine.specs.Lists.{plain, sent_from, sent_of};
ghost use Rattle.plain_machine.specs.Message.{Begun};
ghost use Rattle.machine_laws.specs.Belonging.{of_line};
ghost use Rattle.world_laws.specs.Course.{course_from};
ghost use Rattle.world_laws.specs.GivenUp.{has_given_up};
ghost use Rattle.world_laws.specs.Dialled.{done_in};
ghost use Rattle.call_agent.specs.declared.setup.AgentSetup.{AgentSetup};
ghost use Rattle.call_agent.specs.Hearing.{AgentEvent, plain_agent};
ghost use Rattle.agent_core.specs.declared.packet.End.TheVariants.{GatewayEnd, AgentEnd};
ghost use Rattle.agent_core.specs.declared.packet.Posted.{Posted};
ghost use Rattle.agent_core.specs.World.{WorldStep, agent_in, delivering, gateway_in, now_in, plain_world};
ghost use Rattle.world_laws.specs.Reached.{Reached, taken_in};
ghost use Rattle.world_laws.specs.Copies.{IsRun, IsCopy, IsIssued, answer_wait, gateway_firsts, IsConfirmedAmong, HasRoom, IsAnswered, IsFinal, HasAnswer, IsServed, IsPlainAnswer};
ghost use Rattle.world_laws.specs.Taking.{AgentHasRoom, IsOwn, IsTaken};
ghost use Rattle.world_laws.specs.Fairness.{IsFair, AlwaysHasRoom, AgentAlwaysHasRoom, GoesToAgent, ReachTheAgent};
ghost use Rattle.world_laws.specs.Rounds.{IsAnsweredWithin, IsAskedWithin, of_telephone, rounds_take};
ghost use Rattle.world_laws.specs.Chances.{chances, last_chance, IsSentAfter, IsCarried};
ghost use Rattle.world_laws.specs.OwnChances.{HasCome, IsOfLine, IsToldAfter};

/// A copy of a command that is handed to the gateway is answered at once: a packet with the stored answer goes to the agent,
/// unless a K of a later command confirmed it, or as many firsts are young as there may be (RFC 3435, 3.5.1).
pub fn a_delivered_command_is_answered_at_once()
    ensures { (setup : Setup) (steps : List WorldStep) (number : ℕ) (b : Begun) →
        IsRun setup (steps ++ delivering number ∷ []) → let w = plain_world setup steps in
        let after = plain_world setup (steps ++ delivering number ∷ []) in IsIssued setup w b →
        IsCopy setup w AgentEnd b.text number →
        HasRoom (now_in setup after) (gateway_firsts setup after) →
        IsConfirmedAmong b.id (gateway_firsts setup after) ⊎ IsAnswered setup w after b.id }
{}

/// Each answer that the gateway stores is a final response, and so is each that an agent stores, which is never 521 (RFC 3435, 2.4). So is
/// each response that either sends: none asks for an acknowledgement, which would be none (RFC 3435, 3.2.2.1 and 3.5.6).
pub fn stored_answers_are_final()
    ensures gateway { (setup : Setup) (events : List GatewayEvent) →
        All (λ (first : Arrival). IsFinal first.answer) (firsts_of most_firsts (commands_of setup events)) }
    ensures agent { (setup : AgentSetup) (events : List AgentEvent) →
        All (λ (first : KeptFirst). (id : ℕ) → IsPlainAnswer id first.answer) (firsts_in (plain_agent setup events).history) }
    ensures posted { (setup : Setup) (steps : List WorldStep) (number : ℕ) (post : Posted) (text : List ℕ) → IsRun setup steps →
        slice_get (plain_world setup steps).posted number ≡ Some post →
        Any (λ (one : List ℕ). one ≡ text) (texts_of post.packet.bytes) →
        IsFinal text }
{}

/// A response that is handed to the agent less than 23,500 ms after its command was issued makes that the command has an
/// answer, whatever else was lost, copied or late (RFC 3435, 3.5).
pub fn an_answer_that_comes_in_time_is_had()
    ensures { (setup : Setup) (steps : List WorldStep) (number : ℕ) (b : Begun) (text : List ℕ) (code : ℕ) (params : List Param)
        (body : List ℕ) → IsRun setup (steps ++ delivering number ∷ []) →
        let w = plain_world setup steps in IsIssued setup w b → now_in setup w < b.moment + answer_wait →
        IsCopy setup w GatewayEnd text number → read_text text ≡ message (messages.Response code b.id params body) →
        HasAnswer b.id (agent_in setup (plain_world setup (steps ++ delivering number ∷ []))) }
{}

/// Both: a copy of a command that is handed to the gateway makes a packet with the stored answer, and where that is handed to
/// the agent less than 23,500 ms after the command was issued, the command has an answer from then on.
pub fn a_command_is_answered()
    ensures { (setup : Setup) (steps : List WorldStep) (number : ℕ) (b : Begun) →
        let first = steps ++ delivering number ∷ [] in IsRun setup first →
        let w = plain_world setup steps in let after = plain_world setup first in IsIssued setup w b →
        IsCopy setup w AgentEnd b.text number → HasRoom (now_in setup after) (gateway_firsts setup after) →
        IsConfirmedAmong b.id (gateway_firsts setup after)
        ⊎ ((answer : IsAnswered setup w after b.id) × IsServed setup first b answer.number) }
{}

/// Until a command has its answer, a copy of it goes to the gateway 0, 500, 1,500, 3,500, 7,500, 11,500, 15,500 and 19,500 ms
/// after it was issued, each once the clock is so late (RFC 3435, 3.5.3).
pub fn a_command_is_sent_eight_times()
    ensures { (setup : Setup) (steps : List WorldStep) (b : Begun) → IsRun setup steps → let w = plain_world setup steps in
        IsIssued setup w b →
        HasAnswer b.id (agent_in setup w)
        ⊎ All (λ (wait : ℕ). b.moment + wait ≤ now_in setup w → IsSentAfter setup w b wait) chances }
{}

/// So where at most seven of these copies are lost, each with its answer, the command has an answer.
pub fn one_copy_of_eight_is_enough()
    ensures { (setup : Setup) (steps : List WorldStep) (b : Begun) (lost : List ℕ) → IsRun setup steps →
        let w = plain_world setup steps in IsIssued setup w b →
        b.moment + last_chance ≤ now_in setup w → length lost ≤ most_repeats → ((number : ℕ) →
        IsCopy setup w AgentEnd b.text number →
        ¬ Any (λ (n : ℕ). n ≡ number) lost → IsCarried setup steps b number) → HasAnswer b.id (agent_in setup w) }
{}

/// So a network that hands each packet over at most so many ms after it was sent answers each command in twice the time, where room
/// is never wanting.
pub fn a_fair_network_answers_each_command()
    ensures { (setup : Setup) (steps : List WorldStep) (within : ℕ) (b : Begun) → IsRun setup steps →
        IsFair setup steps within → AlwaysHasRoom setup steps →
        let w = plain_world setup steps in IsIssued setup w b → b.moment + 2 * within ≤ now_in setup w →
        HasAnswer b.id (agent_in setup w) }
{}

/// A copy of a notification or an announcement that is handed to the agent is taken at once, if it wasn't before, and a packet with
/// the stored answer goes back to the gateway, unless as many firsts of the agent are young as there may be (RFC 3435, 2.3.4, 2.3.12
/// and 3.5.1).
pub fn a_delivered_notification_is_taken_at_once()
    ensures { (setup : Setup) (steps : List WorldStep) (number : ℕ) (b : Begun) →
        IsRun setup (steps ++ delivering number ∷ []) → let w = plain_world setup steps in
        let after = plain_world setup (steps ++ delivering number ∷ []) in IsOwn setup w b →
        IsCopy setup w GatewayEnd b.text number →
        AgentHasRoom setup after → IsTaken setup w after b.id }
{}

/// A network that hands each packet over at most so many ms after it was sent brings each notification and announcement that
/// goes to the agent there in that time, and the agent takes it; and a response to it comes back in twice the time, where room is
/// never wanting (RFC 3435, 2.3.4 and 2.3.12).
pub fn a_fair_network_brings_each_notification()
    ensures taken { (setup : Setup) (steps : List WorldStep) (within : ℕ) (b : Begun) → IsRun setup steps →
        IsFair setup steps within → AgentAlwaysHasRoom setup steps →
        let w = plain_world setup steps in IsOwn setup w b → GoesToAgent setup w b.text →
        b.moment + within ≤ now_in setup w → Any (λ (one : Reached). one.asked.id ≡ b.id) (taken_in w) }
    ensures answered { (setup : Setup) (steps : List WorldStep) (within : ℕ) (b : Begun) → IsRun setup steps →
        IsFair setup steps within → AgentAlwaysHasRoom setup steps →
        let w = plain_world setup steps in IsOwn setup w b → GoesToAgent setup w b.text →
        b.moment + 2 * within ≤ now_in setup w → HasCome w b.id }
{}

/// So where from a moment on a line waits for no answer and for no request longer than so many ms each, and gives nothing up, after
/// as many rounds of both as there were events in its quarantine nothing that its telephone did before is quarantined: no more of it
/// than the telephone did since, and none where that rests (RFC 3435, 4.4.1).
pub fn what_is_quarantined_goes_out_in_time()
    ensures out { (setup : Setup) (before after : List GatewayEvent) (line answering asking : ℕ) (was is : Endpoint) →
        endpoint_at (plain setup before).endpoints line ≡ Some was →
        endpoint_at (plain setup (before ++ after)).endpoints line ≡ Some is →
        has_given_up (of_line line (sent_from setup (plain setup before) after)) is.post ≡ false →
        IsAnsweredWithin setup line before after answering → IsAskedWithin setup line before after asking →
        (plain setup before).now + rounds_take (length was.line.quarantined.events) answering asking < (plain setup (before ++ after)).now →
        length (of_telephone is.line.quarantined.events) ≤ length (done_in (course_from setup (plain setup before) line after)) }
    ensures rests { (setup : Setup) (before after : List GatewayEvent) (line answering asking : ℕ) (was is : Endpoint) →
        endpoint_at (plain setup before).endpoints line ≡ Some was →
        endpoint_at (plain setup (before ++ after)).endpoints line ≡ Some is →
        has_given_up (of_line line (sent_from setup (plain setup before) after)) is.post ≡ false →
        IsAnsweredWithin setup line before after answering → IsAskedWithin setup line before after asking →
        (plain setup before).now + rounds_take (length was.line.quarantined.events) answering asking < (plain setup (before ++ after)).now →
        done_in (course_from setup (plain setup before) line after) ≡ [] → of_telephone is.line.quarantined.events ≡ [] }
{}

/// Over a network that hands each packet over at most so many ms after it was sent a line of a gateway that serves waits for the answer
/// to its command for twice that time at most, where it gives nothing up, all that it sends goes to the agent, and room is never wanting
/// (RFC 3435, 3.5 and 4.4.1).
pub fn a_fair_network_answers_each_notification_in_time()
    ensures { (setup : Setup) (steps : List WorldStep) (within line : ℕ) (some later : List GatewayEvent) (endpoint : Endpoint) →
        IsRun setup steps → let w = plain_world setup steps in
        IsFair setup steps within → AgentAlwaysHasRoom setup steps → ReachTheAgent setup steps line →
        w.gateway_took ≡ some ++ later → serves (plain setup some).endpoints ≡ true →
        endpoint_at (gateway_in setup w).endpoints line ≡ Some endpoint →
        has_given_up (of_line line (sent_of setup w.gateway_took)) endpoint.post ≡ false →
        IsAnsweredWithin setup line some later (2 * within) }
{}

/// Until a response to it comes, a command of a line's own, a notification or its announcement, and an announcement of the gateway
/// itself go out 0, 500, 1,500, 3,500, 7,500, 11,500, 15,500 and 19,500 ms after their first send, each once the clock is so late
/// (RFC 3435, 3.5.3).
pub fn a_notification_is_sent_eight_times()
    ensures line { (setup : Setup) (steps : List WorldStep) (line : ℕ) (endpoint : Endpoint) (b : Begun) → IsRun setup steps →
        let w = plain_world setup steps in
        endpoint_at (gateway_in setup w).endpoints line ≡ Some endpoint → IsOfLine setup w line b →
        HasCome w b.id ⊎ All (λ (wait : ℕ). b.moment + wait ≤ now_in setup w → IsToldAfter setup w b wait) chances }
    ensures own { (setup : Setup) (steps : List WorldStep) (b : Begun) → IsRun setup steps → let w = plain_world setup steps in
        IsOfLine setup w 0 b →
        HasCome w b.id ⊎ All (λ (wait : ℕ). b.moment + wait ≤ now_in setup w → IsToldAfter setup w b wait) chances }
{}
