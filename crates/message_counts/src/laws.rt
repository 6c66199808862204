//! What the counts of texts are: laws, whose functions do nothing.
ghost use Rattle.std.specs.Prelude.{◌≡◌, ◌<◌, ℕ, List, length, slice_index_or, count_by};
ghost use Rattle.plain_machine.specs.declared.setup.Setup.{Setup};
ghost use Rattle.plain_machine.specs.Event.{GatewayEvent};
ghost use Rattle.plain_machine.specs.Machine.{Machine};
ghost use Rattle.gateway_core.specs.declared.outcome.TextOutcome.{TextOutcome};
ghost use Rattle.small_rules.specs.Counting.{counted};
ghost use Rattle.message_counts.specs.Counting.{Counts, with_texts, counts_after, outcomes_from, is_command_at, is_response, is_other, is_lost};

/// Each count is the sum of what it was and of the texts that it is the count of, up to 18,446,744,073,709,551,615.
pub fn counts_are_sums()
    ensures commands { (counts : Counts) (outcomes : List TextOutcome) (place : ℕ) → place < length counts.commands →
        slice_index_or (with_texts counts outcomes).commands place 0
        ≡ counted (slice_index_or counts.commands place 0) (count_by (is_command_at place) outcomes) }
    ensures responses { (counts : Counts) (outcomes : List TextOutcome) →
        (with_texts counts outcomes).responses ≡ counted counts.responses (count_by is_response outcomes) }
    ensures others { (counts : Counts) (outcomes : List TextOutcome) →
        (with_texts counts outcomes).others ≡ counted counts.others (count_by is_other outcomes) }
    ensures lost { (counts : Counts) (outcomes : List TextOutcome) →
        (with_texts counts outcomes).lost ≡ counted counts.lost (count_by is_lost outcomes) }
{}

/// The counts after a list of events are those of all that the texts of its events were, each to the gateway before it.
pub fn a_list_is_counted_as_all_its_texts()
    ensures { (setup : Setup) (m : Machine) (counts : Counts) (events : List GatewayEvent) →
        counts_after setup m counts events ≡ with_texts counts (outcomes_from setup m events) }
{}
