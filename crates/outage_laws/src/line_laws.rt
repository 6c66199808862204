//! Laws of a line whose network was down and came back.
ghost use Rattle.std.specs.Prelude.{◌≡◌, ◌≤◌, ◌<◌, ◌+◌, ◌*◌, ◌++◌, ℕ, List, Any, [], Some, length, true};
ghost use Rattle.retransmission.specs.declared.restart.Restart.TheVariants.{Serving};
ghost use Rattle.plain_machine.specs.declared.endpoint.Endpoint.{Endpoint};
ghost use Rattle.plain_machine.specs.declared.setup.Setup.{Setup};
ghost use Rattle.plain_machine.specs.Event.{GatewayEvent};
ghost use Rattle.plain_machine.specs.Lists.{plain};
ghost use Rattle.plain_machine.specs.Machine.{endpoint_at, serves};
ghost use Rattle.agent_core.specs.World.{WorldStep, gateway_in, now_in, oldest_packet, plain_world};
ghost use Rattle.world_laws.specs.Chances.{chances};
ghost use Rattle.world_laws.specs.Copies.{IsRun, answer_wait};
ghost use Rattle.world_laws.specs.Course.{course_from};
ghost use Rattle.world_laws.specs.Dialled.{done_in};
ghost use Rattle.world_laws.specs.Rounds.{IsAnsweredWithin, IsAskedWithin, of_telephone, rounds_take};
ghost use Rattle.outage_laws.specs.AfterOutage.{AgentHasRoomFrom, IsFairFrom, ReachTheAgentSince, gap_of, IsWell, well_by};

/// A line that was disconnected when the network came back, or whose command is given up yet, has announced itself and was answered by
/// then: that long behind it as a command is given up behind the last of its sends whose answer may still come in time, then the wait
/// before it announces itself, and then twice the time of the network: 4,000 ms, the wait and twice that time, where twice that time is
/// less than 4,000 ms (RFC 3435, 3.5.3, 4.3 and 4.4.7).
pub fn a_line_has_its_agent_again_after_an_outage()
    ensures behind_the_last { (setup : Setup) (steps : List WorldStep) (since within line : ℕ) (endpoint : Endpoint) → IsRun setup steps →
        within ≤ oldest_packet → IsFairFrom setup steps since within → AgentHasRoomFrom setup steps since →
        let w = plain_world setup steps in ReachTheAgentSince setup w line since →
        endpoint_at (gateway_in setup w).endpoints line ≡ Some endpoint →
        since + gap_of within + setup.disconnected_wait + 2 * within ≤ now_in setup w + 1 → endpoint.post.restart ≡ Serving }
    ensures behind_any { (setup : Setup) (steps : List WorldStep) (since within wait line : ℕ) (endpoint : Endpoint) → IsRun setup steps →
        IsFairFrom setup steps since within → AgentHasRoomFrom setup steps since →
        let w = plain_world setup steps in ReachTheAgentSince setup w line since →
        endpoint_at (gateway_in setup w).endpoints line ≡ Some endpoint →
        Any (λ (one : ℕ). one ≡ wait) chances → wait + 2 * within < answer_wait →
        since + answer_wait + setup.disconnected_wait + 2 * within ≤ now_in setup w + 1 + wait → endpoint.post.restart ≡ Serving }
{}

/// From then on a line of a gateway that serves waits for the answer to its command for twice the time of the network at most, where that
/// time isn't longer than a packet lasts. And however long the network takes: where the line isn't left without a request for longer than
/// so many ms, after as many rounds of both as there were events in its quarantine no more of them is quarantined than its telephone did
/// since, and nothing that it did where it rests (RFC 3435, 3.5 and 4.4.1).
pub fn a_quarantine_is_out_after_an_outage()
    ensures answered { (setup : Setup) (steps : List WorldStep) (since within line : ℕ) (before after : List GatewayEvent)
        (endpoint : Endpoint) → IsRun setup steps → within ≤ oldest_packet → IsFairFrom setup steps since within →
        AgentHasRoomFrom setup steps since → let w = plain_world setup steps in
        ReachTheAgentSince setup w line since → w.gateway_took ≡ before ++ after →
        serves (plain setup before).endpoints ≡ true → endpoint_at (gateway_in setup w).endpoints line ≡ Some endpoint →
        since + gap_of within + setup.disconnected_wait + 2 * within ≤ (plain setup before).now →
        IsAnsweredWithin setup line before after (2 * within) }
    ensures out { (setup : Setup) (steps : List WorldStep) (since within line asking : ℕ) (before after : List GatewayEvent)
        (was endpoint : Endpoint) → IsRun setup steps → IsFairFrom setup steps since within →
        AgentHasRoomFrom setup steps since → let w = plain_world setup steps in
        ReachTheAgentSince setup w line since → w.gateway_took ≡ before ++ after →
        serves (plain setup before).endpoints ≡ true → endpoint_at (plain setup before).endpoints line ≡ Some was →
        endpoint_at (gateway_in setup w).endpoints line ≡ Some endpoint →
        since + gap_of within + setup.disconnected_wait + 2 * within ≤ (plain setup before).now →
        IsAskedWithin setup line before after asking →
        (plain setup before).now + rounds_take (length was.line.quarantined.events) (2 * within) asking < now_in setup w →
        length (of_telephone endpoint.line.quarantined.events) ≤ length (done_in (course_from setup (plain setup before) line after)) }
    ensures rests { (setup : Setup) (steps : List WorldStep) (since within line asking : ℕ) (before after : List GatewayEvent)
        (was endpoint : Endpoint) → IsRun setup steps → IsFairFrom setup steps since within →
        AgentHasRoomFrom setup steps since → let w = plain_world setup steps in
        ReachTheAgentSince setup w line since → w.gateway_took ≡ before ++ after →
        serves (plain setup before).endpoints ≡ true → endpoint_at (plain setup before).endpoints line ≡ Some was →
        endpoint_at (gateway_in setup w).endpoints line ≡ Some endpoint →
        since + gap_of within + setup.disconnected_wait + 2 * within ≤ (plain setup before).now →
        IsAskedWithin setup line before after asking →
        (plain setup before).now + rounds_take (length was.line.quarantined.events) (2 * within) asking < now_in setup w →
        done_in (course_from setup (plain setup before) line after) ≡ [] → of_telephone endpoint.line.quarantined.events ≡ [] }
{}

/// Behind an outage of any length all is well by then: the gateway serves, each line has its agent, and each command of them is done. From
/// 1 ms later on a line waits for the answer to its command for twice the time of the network at most. And however long the network takes:
/// where a line isn't left without a request for longer than so many ms, after as many rounds of both as there were events in its
/// quarantine no more of them is quarantined than its telephone did since, and nothing that it did where it rests (RFC 3435, 3.5, 4.3 and
/// 4.4).
pub fn all_is_well_after_an_outage()
    ensures well { (setup : Setup) (steps : List WorldStep) (since within : ℕ) → IsRun setup steps → within ≤ oldest_packet →
        IsFairFrom setup steps since within → AgentHasRoomFrom setup steps since →
        let w = plain_world setup steps in ((line : ℕ) → ReachTheAgentSince setup w line since) →
        well_by setup since within ≤ now_in setup w + 1 → IsWell setup w since within }
    ensures answered { (setup : Setup) (steps : List WorldStep) (since within line : ℕ) (before after : List GatewayEvent)
        (endpoint : Endpoint) → IsRun setup steps → within ≤ oldest_packet → IsFairFrom setup steps since within →
        AgentHasRoomFrom setup steps since → let w = plain_world setup steps in
        ((line : ℕ) → ReachTheAgentSince setup w line since) → w.gateway_took ≡ before ++ after →
        endpoint_at (gateway_in setup w).endpoints line ≡ Some endpoint → well_by setup since within ≤ (plain setup before).now →
        IsAnsweredWithin setup line before after (2 * within) }
    ensures out { (setup : Setup) (steps : List WorldStep) (since within line asking : ℕ) (before after : List GatewayEvent)
        (was endpoint : Endpoint) → IsRun setup steps → IsFairFrom setup steps since within →
        AgentHasRoomFrom setup steps since → let w = plain_world setup steps in
        ((line : ℕ) → ReachTheAgentSince setup w line since) → w.gateway_took ≡ before ++ after →
        endpoint_at (plain setup before).endpoints line ≡ Some was → endpoint_at (gateway_in setup w).endpoints line ≡ Some endpoint →
        well_by setup since within ≤ (plain setup before).now → IsAskedWithin setup line before after asking →
        (plain setup before).now + rounds_take (length was.line.quarantined.events) (2 * within) asking < now_in setup w →
        length (of_telephone endpoint.line.quarantined.events) ≤ length (done_in (course_from setup (plain setup before) line after)) }
    ensures rests { (setup : Setup) (steps : List WorldStep) (since within line asking : ℕ) (before after : List GatewayEvent)
        (was endpoint : Endpoint) → IsRun setup steps → IsFairFrom setup steps since within →
        AgentHasRoomFrom setup steps since → let w = plain_world setup steps in
        ((line : ℕ) → ReachTheAgentSince setup w line since) → w.gateway_took ≡ before ++ after →
        endpoint_at (plain setup before).endpoints line ≡ Some was → endpoint_at (gateway_in setup w).endpoints line ≡ Some endpoint →
        well_by setup since within ≤ (plain setup before).now → IsAskedWithin setup line before after asking →
        (plain setup before).now + rounds_take (length was.line.quarantined.events) (2 * within) asking < now_in setup w →
        done_in (course_from setup (plain setup before) line after) ≡ [] → of_telephone endpoint.line.quarantined.events ≡ [] }
{}
