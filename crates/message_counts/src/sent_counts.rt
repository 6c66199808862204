//! Counts what is sent and given up. A count stays at its greatest value, 18,446,744,073,709,551,615.
ghost use Rattle.std.specs.Prelude.{◌≡◌, ◌<◌, IfOk};
ghost use Rattle.message_counts.specs.SentCounting.{tally_in, no_tally, place_of, with_answer, with_what, with_sent, with_one_given_up, with_given_up, all_given_up};

use gateway_core::{GivenUpCommand, SentMessage, What};
use mgcp_text::Verb;
use small_rules::count;
use std::alloc::{AllocError, Global};

// So many return codes there are: each has three digits (RFC 3435, 2.4).
const RETURN_CODES: usize = 1000;

/// What was counted of what a gateway sent and gave up.
#[derive(Drop)]
pub struct SentCounts {
    /// Sends of commands of its own, by verb.
    pub commands: [u64; 10],
    /// Of these, those of commands that were sent before.
    pub commands_again: [u64; 10],
    /// Responses that were sent, by return code; an acknowledgement has 000.
    pub answers: Vec<u64>,
    /// Of these, the answers that were sent before.
    pub again: u64,
    /// Commands of its own that were given up: those of the gateway itself, and those of its lines.
    pub given_up_by_gateway: u64,
    pub given_up_by_lines: u64,
}

/// The place of a verb's count (RFC 3435, 3.2.1.1).
pub fn place_of(verb: Verb) -> usize
    ensures place { result ≡ place_of verb }
    ensures few { result < 10 }
{
    match verb {
        Verb::Epcf => 0,
        Verb::Rqnt => 1,
        Verb::Ntfy => 2,
        Verb::Crcx => 3,
        Verb::Mdcx => 4,
        Verb::Dlcx => 5,
        Verb::Auep => 6,
        Verb::Aucx => 7,
        Verb::Rsip => 8,
        Verb::Other => 9,
    }
}

impl SentCounts {
    /// Nothing was counted. From now on no memory is asked for.
    pub fn new(alloc: Global) -> Result<SentCounts, AllocError>
        ensures { IfOk result (λ counts. tally_in counts ≡ no_tally) }
    {
        Ok(SentCounts {
            commands: [0; 10],
            commands_again: [0; 10],
            answers: vec![in alloc; 0; RETURN_CODES]?,
            again: 0,
            given_up_by_gateway: 0,
            given_up_by_lines: 0,
        })
    }

    #[tactic(auto, using(std::proofs::lemmas::List::set_past))]
    fn add_answer(&mut self, code: u16)
        ensures { tally_in self.new ≡ with_answer (tally_in self.old) code }
    {
        let place = usize::from(code);
        if place < self.answers.len() {
            count(&mut self.answers[place]);
        }
    }

    fn add_message(&mut self, what: What)
        ensures { tally_in self.new ≡ with_what (tally_in self.old) what }
    {
        match what {
            What::Answer { code } => self.add_answer(code),
            What::Again { code } => {
                self.add_answer(code);
                count(&mut self.again);
            }
            What::Command { verb } => count(&mut self.commands[place_of(verb)]),
            What::Resent { verb, .. } => {
                count(&mut self.commands[place_of(verb)]);
                count(&mut self.commands_again[place_of(verb)]);
            }
            What::Acknowledgement => self.add_answer(0),
        }
    }

    /// These messages were sent.
    pub fn add(&mut self, sent: &[SentMessage])
        ensures { tally_in self.new ≡ with_sent (tally_in self.old) sent.now }
    {
        for message in sent {
            self.add_message(message.label.what);
        }
    }

    // A command was given up.
    fn give_up_one(&mut self, given_up: GivenUpCommand)
        ensures { tally_in self.new ≡ with_one_given_up (tally_in self.old) given_up }
    {
        if given_up.line == 0 {
            count(&mut self.given_up_by_gateway);
        } else {
            count(&mut self.given_up_by_lines);
        }
    }

    /// These commands were given up.
    pub fn give_up(&mut self, given_up: &[GivenUpCommand])
        ensures { tally_in self.new ≡ with_given_up (tally_in self.old) given_up.now }
    {
        for command in given_up {
            self.give_up_one(*command);
        }
    }

    /// How many commands of its own were given up, whosever they were.
    pub fn given_up(&self) -> u64
        ensures { result ≡ all_given_up (tally_in self.now) }
    {
        self.given_up_by_gateway
            .saturating_add(self.given_up_by_lines)
    }
}
