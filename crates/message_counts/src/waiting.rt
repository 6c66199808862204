//! Since when the agent owes an answer.
ghost use Rattle.std.specs.Prelude.{◌≡◌};
ghost use Rattle.std.specs.List.{list_any};
ghost use Rattle.message_counts.specs.Counting.{is_response};
ghost use Rattle.message_counts.specs.Waiting.{is_own, is_command, first_asked, unanswered_after};

use crate::taken::Taken;
use gateway_core::{SentMessage, TextOutcome, What};

/// Whether what is sent is a command of the gateway's own.
pub fn is_own(what: What) -> bool
    ensures { result ≡ is_own what }
{
    match what {
        What::Command { .. } | What::Resent { .. } => true,
        What::Answer { .. } | What::Again { .. } | What::Acknowledgement => false,
    }
}

fn is_response(outcome: TextOutcome) -> bool
    ensures { result ≡ is_response outcome }
{
    match outcome {
        TextOutcome::Response { .. } => true,
        TextOutcome::NoMessage | TextOutcome::Command { .. } => false,
    }
}

// Whether one of these texts was a response.
fn has_response(outcomes: &[TextOutcome]) -> bool
    ensures { result ≡ list_any is_response outcomes.now }
{
    for outcome in outcomes {
        if is_response(*outcome) {
            return true;
        }
    }
    false
}

// The moment of the first command of the gateway's own among these messages, if there is one.
fn first_asked(sent: &[SentMessage]) -> Option<u64>
    ensures { result ≡ first_asked sent.now }
{
    for message in sent {
        if is_own(message.label.what) {
            return Some(message.moment);
        }
    }
    None
}

/// Since when the agent owes an answer behind this event, where before it that was owed since then.
pub(crate) fn unanswered_after(since: Option<u64>, taken: &Taken<'_>) -> Option<u64>
    ensures { result ≡ unanswered_after since taken.now.outcomes.now taken.now.sent.now }
{
    if has_response(taken.outcomes) {
        return first_asked(taken.sent);
    }
    match since {
        Some(_) => since,
        None => first_asked(taken.sent),
    }
}
