//! What the counts are: laws, whose functions do nothing.
ghost use Rattle.std.specs.Prelude.{◌≡◌, ◌<◌, List, length, slice_index_or, count_by};
ghost use Rattle.plain_machine.specs.declared.given_up.GivenUpCommand.{GivenUpCommand};
ghost use Rattle.gateway_core.specs.declared.sent.SentMessage.{SentMessage};
ghost use Rattle.plain_machine.specs.declared.setup.Setup.{Setup};
ghost use Rattle.plain_machine.specs.Event.{GatewayEvent};
ghost use Rattle.gateway_core.specs.Labelling.{labels_of};
ghost use Rattle.plain_machine.specs.Lists.{sent_from};
ghost use Rattle.plain_machine.specs.Machine.{Machine};
ghost use Rattle.small_rules.specs.Counting.{counted};
ghost use Rattle.message_counts.specs.SentCounting.{Tally, with_sent, with_given_up, tally_after, given_up_from, is_command_at, is_sent_again_at, is_answer_with, is_given_again, is_of_gateway, is_of_line};

/// Each count is the sum of what it was and of the messages that it is the count of, up to 18,446,744,073,709,551,615.
pub fn counts_are_sums()
    ensures commands { (tally : Tally) (sent : List SentMessage) (place : _) → place < length tally.commands →
        slice_index_or (with_sent tally sent).commands place 0
        ≡ counted (slice_index_or tally.commands place 0) (count_by (is_command_at place) sent) }
    ensures commands_again { (tally : Tally) (sent : List SentMessage) (place : _) → place < length tally.commands_again →
        slice_index_or (with_sent tally sent).commands_again place 0
        ≡ counted (slice_index_or tally.commands_again place 0) (count_by (is_sent_again_at place) sent) }
    ensures answers { (tally : Tally) (sent : List SentMessage) (code : _) → code < length tally.answers →
        slice_index_or (with_sent tally sent).answers code 0
        ≡ counted (slice_index_or tally.answers code 0) (count_by (is_answer_with code) sent) }
    ensures again { (tally : Tally) (sent : List SentMessage) →
        (with_sent tally sent).again ≡ counted tally.again (count_by is_given_again sent) }
    ensures given_up_by_gateway { (tally : Tally) (given_up : List GivenUpCommand) →
        (with_given_up tally given_up).given_up_by_gateway
        ≡ counted tally.given_up_by_gateway (count_by is_of_gateway given_up) }
    ensures given_up_by_lines { (tally : Tally) (given_up : List GivenUpCommand) →
        (with_given_up tally given_up).given_up_by_lines ≡ counted tally.given_up_by_lines (count_by is_of_line given_up) }
{}

/// The counts after a list of events are those of all that its events sent, and of all that was given up at them.
pub fn a_list_is_counted_as_all_that_it_sends()
    ensures { (setup : Setup) (m : Machine) (tally : Tally) (events : List GatewayEvent) →
        tally_after setup m tally events
        ≡ with_given_up (with_sent tally (labels_of (sent_from setup m events))) (given_up_from setup m events) }
{}
