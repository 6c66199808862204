//! Counts what goes over the wire, as the gateway tells it. A count stays at its greatest value.
ghost use Rattle.std.specs.Prelude.{◌≡◌, IfOk, None};
ghost use Rattle.message_counts.specs.Counting.{counts_in, no_counts, with_texts};
ghost use Rattle.message_counts.specs.Places.{no_sends, with_sends};
ghost use Rattle.message_counts.specs.SentCounting.{tally_in, no_tally, with_sent, with_given_up};
ghost use Rattle.message_counts.specs.Tallying.{with_received, with_handed_out, with_stranger, CountsNoDatagram};
ghost use Rattle.message_counts.specs.Waiting.{unanswered_after};

use crate::place_counts::PlaceCounts;
use crate::sent_counts::SentCounts;
use crate::taken::Taken;
use crate::text_counts::TextCounts;
use crate::waiting::unanswered_after;
use small_rules::count;
use std::alloc::{AllocError, Global};

/// What was counted.
pub struct MessageTally {
    /// Datagrams that came.
    pub datagrams_in: u64,
    /// Datagrams that were sent.
    pub datagrams_out: u64,
    /// Datagrams that came from who may not speak, and weren't heard.
    pub strangers: u64,
    /// The texts that came, by what they were.
    pub texts: TextCounts,
    /// The messages that were sent, by their labels, and what was given up.
    pub sent: SentCounts,
    /// Sends of commands of its own, by which of its agent's addresses they went to.
    pub places: PlaceCounts,
    /// The moment, in ms, of the first command of its own since the agent last answered one, if there is one.
    pub unanswered_since: Option<u64>,
}

// Written out: a derived drop, and those of all its parts, are proved anew by each crate that lets one go.
impl Drop for MessageTally {
    fn drop(self) {
        let MessageTally {
            datagrams_in: _,
            datagrams_out: _,
            strangers: _,
            texts: _,
            sent,
            places: _,
            unanswered_since: _,
        } = self;
        drop(sent);
    }
}

impl MessageTally {
    /// Nothing was counted. Its only error is want of memory.
    pub fn new(alloc: Global) -> Result<MessageTally, AllocError>
        ensures received { IfOk result (λ tally. tally.datagrams_in ≡ 0) }
        ensures handed_out { IfOk result (λ tally. tally.datagrams_out ≡ 0) }
        ensures strangers { IfOk result (λ tally. tally.strangers ≡ 0) }
        ensures texts { IfOk result (λ tally. counts_in tally.texts ≡ no_counts) }
        ensures sent { IfOk result (λ tally. tally_in tally.sent ≡ no_tally) }
        ensures places { IfOk result (λ tally. tally.places.sends ≡ no_sends) }
        ensures unanswered { IfOk result (λ tally. tally.unanswered_since ≡ None) }
    {
        Ok(MessageTally {
            datagrams_in: 0,
            datagrams_out: 0,
            strangers: 0,
            texts: TextCounts::new(),
            sent: SentCounts::new(alloc)?,
            places: PlaceCounts::new(),
            unanswered_since: None,
        })
    }

    /// A datagram came.
    pub fn received(&mut self)
        ensures { self.new ≡ with_received self.old }
    {
        count(&mut self.datagrams_in);
    }

    /// A datagram came from who may not speak.
    pub fn stranger(&mut self)
        ensures { self.new ≡ with_stranger self.old }
    {
        count(&mut self.strangers);
    }

    /// The gateway took an event: what its texts were, and what it sent and gave up at it.
    pub fn turned(&mut self, taken: &Taken<'_>)
        ensures texts { counts_in self.new.texts ≡ with_texts (counts_in self.old.texts) taken.now.outcomes.now }
        ensures sent { tally_in self.new.sent
            ≡ with_given_up (with_sent (tally_in self.old.sent) taken.now.sent.now) taken.now.given_up.now }
        ensures places { self.new.places.sends ≡ with_sends taken.now.route.now self.old.places.sends taken.now.sent.now }
        ensures datagrams { CountsNoDatagram self.old self.new }
        ensures unanswered { self.new.unanswered_since
            ≡ unanswered_after self.old.unanswered_since taken.now.outcomes.now taken.now.sent.now }
    {
        self.texts.add(taken.outcomes);
        self.sent.add(taken.sent);
        self.sent.give_up(taken.given_up);
        self.places.add(taken.route, taken.sent);
        self.unanswered_since = unanswered_after(self.unanswered_since, taken);
    }

    /// A datagram is sent. The messages in it were counted with the event.
    pub fn handed_out(&mut self)
        ensures { self.new ≡ with_handed_out self.old }
    {
        count(&mut self.datagrams_out);
    }
}
