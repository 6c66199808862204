//! How calls of an agent and of a world may end, as theorems: numbers and names of refusals, and what each leaves.
#![tactic(auto, unfolding(crate::proofs::Computing::on_examples))]

ghost use Rattle.std.specs.Prelude.{◌≡◌, codes, [], ◌∷◌, true, false, None, Some, ⊤, Err, Ok};
ghost use Rattle.plain_machine.specs.declared.config.ConfigFault.TheVariants as config_faults;
ghost use Rattle.machine_rules.specs.declared.refusal.Refusal.TheVariants as refusals;
ghost use Rattle.plain_machine.specs.Event.{tick};
ghost use Rattle.plain_machine.specs.Example.{two_lines};
ghost use Rattle.call_agent.specs.declared.issuing.IssueFault.TheVariants as faults;
ghost use Rattle.agent_core.specs.declared.step.StepRefusal.TheVariants.{OutOfMemory, TickTooFar, ClockBack, NoSuchLine, PhoneState, NoMoreIds, BadCommand, NoSuchPacket, PacketTooOld};
ghost use Rattle.call_agent.specs.Agent.{agent_opening};
ghost use Rattle.call_agent.specs.Issuing.{no_more_ids, bad_command};
ghost use Rattle.call_agent.specs.Hearing.{hears, as_event, as_issue};
ghost use Rattle.agent_core.specs.World.{by_gateway, by_agent, no_such_packet, packet_too_old};
ghost use Rattle.agent_core.specs.StepRefusal.{step_refusal_number, step_refusal_name, of_event, of_issue};
ghost use Rattle.call_agent.specs.AgentStands.{agent_takes, IssueEnds};
ghost use Rattle.agent_core.specs.WorldStands.{StepEnds, Leaves, WorldOpens};
ghost use Rattle.world_laws.specs.Example.{agent_from, audit_by_agent};

/// Each sentence at an example.
pub fn each_sentence_has_an_example()
    // Refusals of steps have the numbers 1 to 9.
    ensures refused_steps_have_numbers_memory { step_refusal_number OutOfMemory ≡ 1 }
    ensures refused_steps_have_numbers_too_far { step_refusal_number TickTooFar ≡ 2 }
    ensures refused_steps_have_numbers_back { step_refusal_number ClockBack ≡ 3 }
    ensures refused_steps_have_numbers_line { step_refusal_number NoSuchLine ≡ 4 }
    ensures refused_steps_have_numbers_phone { step_refusal_number PhoneState ≡ 5 }
    ensures refused_steps_have_numbers_ids { step_refusal_number NoMoreIds ≡ 6 }
    ensures refused_steps_have_numbers_command { step_refusal_number BadCommand ≡ 7 }
    ensures refused_steps_have_numbers_packet { step_refusal_number NoSuchPacket ≡ 8 }
    ensures refused_steps_have_numbers_old { step_refusal_number PacketTooOld ≡ 9 }
    // Refusals of steps have the names of their kinds.
    ensures refused_steps_have_names_memory { step_refusal_name OutOfMemory ≡ codes "OutOfMemory" }
    ensures refused_steps_have_names_too_far { step_refusal_name TickTooFar ≡ codes "TickTooFar" }
    ensures refused_steps_have_names_back { step_refusal_name ClockBack ≡ codes "ClockBack" }
    ensures refused_steps_have_names_line { step_refusal_name NoSuchLine ≡ codes "NoSuchLine" }
    ensures refused_steps_have_names_phone { step_refusal_name PhoneState ≡ codes "PhoneState" }
    ensures refused_steps_have_names_ids { step_refusal_name NoMoreIds ≡ codes "NoMoreIds" }
    ensures refused_steps_have_names_command { step_refusal_name BadCommand ≡ codes "BadCommand" }
    ensures refused_steps_have_names_packet { step_refusal_name NoSuchPacket ≡ codes "NoSuchPacket" }
    ensures refused_steps_have_names_old { step_refusal_name PacketTooOld ≡ codes "PacketTooOld" }
    // A refusal of an end is that of the step.
    ensures event_memory { of_event refusals.OutOfMemory ≡ OutOfMemory }
    ensures a_step_is_refused_as_its_end_refuses_too_far { of_event refusals.TickTooFar ≡ TickTooFar }
    ensures a_step_is_refused_as_its_end_refuses_back { of_event refusals.ClockBack ≡ ClockBack }
    ensures a_step_is_refused_as_its_end_refuses_line { of_event refusals.NoSuchLine ≡ NoSuchLine }
    ensures a_step_is_refused_as_its_end_refuses_phone { of_event refusals.PhoneState ≡ PhoneState }
    ensures issue_memory { of_issue faults.OutOfMemory ≡ OutOfMemory }
    ensures a_step_is_refused_as_its_end_refuses_ids { of_issue faults.NoMoreIds ≡ NoMoreIds }
    ensures a_step_is_refused_as_its_end_refuses_command { of_issue faults.BadCommand ≡ BadCommand }
    // An agent's list is taken where none of its events is refused, each after those before it.
    ensures none { agent_takes (agent_from 1) (agent_opening (agent_from 1)) [] ≡ true }
    ensures taken { agent_takes (agent_from 1) (agent_opening (agent_from 1)) (audit_by_agent ∷ hears (tick 1000)
        ∷ hears (tick 2000) ∷ []) ≡ true }
    ensures first { agent_takes (agent_from 1) (agent_opening (agent_from 1)) (hears (tick 1001) ∷ hears (tick 1000) ∷ []) ≡ false }
    ensures last { agent_takes (agent_from 1) (agent_opening (agent_from 1)) (hears (tick 1000) ∷ hears (tick 2001) ∷ []) ≡ false }
    ensures a_list_of_an_agent_is_taken_event_by_event_ids { agent_takes (agent_from 999999999) (agent_opening (agent_from 999999999))
        (audit_by_agent ∷ audit_by_agent ∷ []) ≡ false }
{}

/// Each sentence at an example.
pub fn further_sentences_have_examples()
    // Where there are no more ids that is the fault; a bad command may want memory first; a good one is issued or wants memory.
    ensures no_more_ids { IssueEnds (Some no_more_ids) (Some faults.NoMoreIds) }
    ensures no_more_ids_first { IssueEnds (Some no_more_ids) (Some faults.OutOfMemory) → ⊥ }
    ensures none_issued { IssueEnds (Some no_more_ids) None → ⊥ }
    ensures issuing_ends_so_bad { IssueEnds (Some bad_command) (Some faults.BadCommand) }
    ensures issuing_ends_so_bad_or_memory { IssueEnds (Some bad_command) (Some faults.OutOfMemory) }
    ensures bad_issued { IssueEnds (Some bad_command) None → ⊥ }
    ensures bad_has_an_id { IssueEnds (Some bad_command) (Some faults.NoMoreIds) → ⊥ }
    ensures good { IssueEnds None None }
    ensures good_or_memory { IssueEnds None (Some faults.OutOfMemory) }
    ensures never_bad { IssueEnds None (Some faults.BadCommand) → ⊥ }
    // A step ends with the refusal that it has; a bad command may want memory first; what isn't refused is done or wants memory.
    ensures gateway { StepEnds (Some (by_gateway refusals.ClockBack)) (Some ClockBack) }
    ensures gateway_first { StepEnds (Some (by_gateway refusals.ClockBack)) (Some OutOfMemory) → ⊥ }
    ensures gateway_done { StepEnds (Some (by_gateway refusals.ClockBack)) None → ⊥ }
    ensures agent { StepEnds (Some (by_agent (as_event refusals.ClockBack))) (Some ClockBack) }
    ensures agent_first { StepEnds (Some (by_agent (as_event refusals.ClockBack))) (Some OutOfMemory) → ⊥ }
    ensures steps_end_so_ids { StepEnds (Some (by_agent (as_issue no_more_ids))) (Some NoMoreIds) }
    ensures ids_first { StepEnds (Some (by_agent (as_issue no_more_ids))) (Some OutOfMemory) → ⊥ }
    ensures steps_end_so_bad { StepEnds (Some (by_agent (as_issue bad_command))) (Some BadCommand) }
    ensures steps_end_so_bad_or_memory { StepEnds (Some (by_agent (as_issue bad_command))) (Some OutOfMemory) }
    ensures bad_done { StepEnds (Some (by_agent (as_issue bad_command))) None → ⊥ }
    ensures no_packet { StepEnds (Some no_such_packet) (Some NoSuchPacket) }
    ensures no_packet_first { StepEnds (Some no_such_packet) (Some OutOfMemory) → ⊥ }
    ensures steps_end_so_old { StepEnds (Some packet_too_old) (Some PacketTooOld) }
    ensures old_first { StepEnds (Some packet_too_old) (Some OutOfMemory) → ⊥ }
    ensures done { StepEnds None None }
    ensures steps_end_so_memory { StepEnds None (Some OutOfMemory) }
    ensures never_refused { StepEnds None (Some NoSuchPacket) → ⊥ }
    // A refusal leaves all as it was, but for want of memory, which spends the world.
    ensures refusals_leave_all_as_it_was_memory { Leaves OutOfMemory ⊤ ⊥ }
    ensures memory_spends { Leaves OutOfMemory ⊥ ⊤ → ⊥ }
    ensures refusals_leave_all_as_it_was_too_far { Leaves TickTooFar ⊤ ⊥ → ⊥ }
    ensures refusals_leave_all_as_it_was_back { Leaves ClockBack ⊤ ⊥ → ⊥ }
    ensures refusals_leave_all_as_it_was_line { Leaves NoSuchLine ⊤ ⊥ → ⊥ }
    ensures refusals_leave_all_as_it_was_phone { Leaves PhoneState ⊤ ⊥ → ⊥ }
    ensures refusals_leave_all_as_it_was_ids { Leaves NoMoreIds ⊤ ⊥ → ⊥ }
    ensures refusals_leave_all_as_it_was_command { Leaves BadCommand ⊤ ⊥ → ⊥ }
    ensures refusals_leave_all_as_it_was_packet { Leaves NoSuchPacket ⊤ ⊥ → ⊥ }
    ensures refusals_leave_all_as_it_was_old { Leaves PacketTooOld ⊤ ⊥ → ⊥ }
    // A configuration that is at fault opens no world, and has its fault for the answer; another opens one or wants memory.
    ensures fault { WorldOpens (Err config_faults.BadLines) (Err config_faults.BadLines) }
    ensures other_fault { WorldOpens (Err config_faults.BadLines) (Err config_faults.OutOfMemory) → ⊥ }
    ensures worlds_open_so_memory { WorldOpens (Ok two_lines) (Err config_faults.OutOfMemory) }
    ensures never_at_fault { WorldOpens (Ok two_lines) (Err config_faults.BadLines) → ⊥ }
{}
