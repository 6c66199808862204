//! Counts the texts that come, by what they were. A count stays at its greatest value.
ghost use Rattle.std.specs.Prelude.{◌≡◌};
ghost use Rattle.message_counts.specs.Counting.{counts_in, no_counts, with_command, with_reply, with_text, with_texts};

use crate::sent_counts::place_of;
use gateway_core::{Reply, TextOutcome};
use mgcp_text::Verb;
use small_rules::count;

/// What was counted of the texts that came.
#[derive(Clone, Copy)]
pub struct TextCounts {
    /// Commands that came, by verb.
    pub commands: [u64; 10],
    /// Responses that came.
    pub responses: u64,
    /// Texts that came and are no message that can be read.
    pub others: u64,
    /// Commands that found no room among those that are remembered.
    pub lost: u64,
}

impl TextCounts {
    /// Nothing was counted.
    pub fn new() -> TextCounts
        ensures { counts_in result ≡ no_counts }
    {
        TextCounts {
            commands: [0; 10],
            responses: 0,
            others: 0,
            lost: 0,
        }
    }

    fn add_command(&mut self, verb: Option<Verb>)
        ensures { counts_in self.new ≡ with_command (counts_in self.old) verb }
    {
        match verb {
            Some(verb) => count(&mut self.commands[place_of(verb)]),
            None => count(&mut self.others),
        }
    }

    fn add_reply(&mut self, reply: Reply)
        ensures { counts_in self.new ≡ with_reply (counts_in self.old) reply }
    {
        match reply {
            Reply::NoRoom => count(&mut self.lost),
            Reply::First { .. } | Reply::Again { .. } | Reply::Silence => {}
        }
    }

    fn add_text(&mut self, outcome: TextOutcome)
        ensures { counts_in self.new ≡ with_text (counts_in self.old) outcome }
    {
        match outcome {
            TextOutcome::NoMessage => count(&mut self.others),
            TextOutcome::Command { verb, reply, .. } => {
                self.add_command(verb);
                self.add_reply(reply);
            }
            TextOutcome::Response { .. } => count(&mut self.responses),
        }
    }

    /// Texts came that were these (RFC 3435, 3.5).
    pub fn add(&mut self, outcomes: &[TextOutcome])
        ensures { counts_in self.new ≡ with_texts (counts_in self.old) outcomes.now }
    {
        for outcome in outcomes {
            self.add_text(*outcome);
        }
    }
}
