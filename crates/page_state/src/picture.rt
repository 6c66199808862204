//! What the gateway is now, as it is shown.
ghost use Rattle.std.specs.Prelude.{◌≡◌, ◌≢◌, [], false, None};
ghost use Rattle.page_state.specs.Answering.{agent_answers};
ghost use Rattle.page_state.specs.MetricsShowing.{IsNothingCounted, lines_of};
ghost use Rattle.page_state.specs.Sums.{next_number};
ghost use Rattle.page_state.specs.Totals.{with_line, totals_of};

use crate::counts::{Counts, PLACES};
use std::alloc::Global;

// An agent that owes an answer for longer, in ms, is told not to answer.
const LONGEST_WAIT: u64 = 2000;

/// A signal that is heard at a telephone.
#[derive(Clone, Copy, PartialEq)]
pub struct SignalView {
    /// As it is written, with its package: `L/dl`.
    pub name: &'static [u8],
    /// The moment of its end, in ms; `None` where no time ends it.
    pub end: Option<u64>,
}

/// A connection of a line.
#[derive(PartialEq, Drop)]
pub struct ConnectionView {
    /// Its number, which is its identifier in hexadecimal digits.
    pub number: u32,
    /// As it is written: `sendrecv`.
    pub mode: &'static [u8],
    /// Its codec by name: `PCMU`.
    pub codec: &'static [u8],
    /// The time of a packet in ms.
    pub packet_time: u16,
    /// Where its media are received: `127.0.0.1:3000`.
    pub local: Vec<u8>,
    /// Where they go; empty where that isn't known yet.
    pub remote: Vec<u8>,
    /// Its call, as that was spelled when the connection was created.
    pub call: Vec<u8>,
}

/// A line: its hook, what is heard, its connections, and how many of its events were lost.
#[derive(PartialEq, Drop)]
pub struct LineView {
    pub is_off_hook: bool,
    pub signals: Vec<SignalView>,
    pub connections: Vec<ConnectionView>,
    pub lost: u64,
}

/// What is shown of a gateway: its clock in ms, and by how much that is behind the machine's; whether it serves (RFC 3435, 4.4.6), and
/// since when, in ms, its agent owes an answer, if it does; the number with which its ids began (RFC 3435, 3.2.1.2), its lines from the
/// first, and what was counted.
pub struct Picture {
    pub clock: u64,
    pub behind: u64,
    pub is_serving: bool,
    pub unanswered_since: Option<u64>,
    pub first: u32,
    pub lines: Vec<LineView>,
    pub counts: Counts,
}

// Written out: a derived drop, and those of all its parts, are proved anew by each crate that lets one go.
impl Drop for Picture {
    fn drop(self) {
        let Picture {
            clock: _,
            behind: _,
            is_serving: _,
            unanswered_since: _,
            first: _,
            lines,
            counts,
        } = self;
        drop(lines);
        drop(counts);
    }
}

/// What all lines have together.
#[derive(Clone, Copy)]
pub struct Totals {
    /// Lines that are off hook.
    pub off_hook: u64,
    pub connections: u64,
    /// Events that were lost.
    pub lost: u64,
}

impl Totals {
    // Counts a line too.
    fn add(&mut self, line: &LineView)
        ensures { self.new ≡ with_line self.old line.now }
    {
        if line.is_off_hook {
            self.off_hook = self.off_hook.saturating_add(1);
        }
        self.connections = self
            .connections
            .saturating_add(line.connections.len() as u64);
        self.lost = self.lost.saturating_add(line.lost);
    }
}

impl Picture {
    /// A gateway without lines, of which nothing was counted.
    pub fn new(alloc: Global) -> Picture
        ensures lines { result.lines.items ≡ [] }
        ensures clock { result.clock ≡ 0 }
        ensures behind { result.behind ≡ 0 }
        ensures serving { result.is_serving ≡ false }
        ensures unanswered { result.unanswered_since ≡ None }
        ensures first { result.first ≡ 0 }
        ensures counts { IsNothingCounted result.counts }
    {
        Picture {
            clock: 0,
            behind: 0,
            is_serving: false,
            unanswered_since: None,
            first: 0,
            lines: Vec::new(alloc),
            counts: Counts {
                datagrams_in: 0,
                datagrams_out: 0,
                commands: Vec::new(alloc),
                responses: 0,
                unreadable: 0,
                answers: Vec::new(alloc),
                answers_again: 0,
                notifications: 0,
                notifications_again: 0,
                announcements: 0,
                announcements_again: 0,
                given_up_by_gateway: 0,
                given_up_by_lines: 0,
                sends: [0; PLACES],
                refused: 0,
                strangers: 0,
                lost_commands: 0,
                receive_faults: 0,
                send_faults: 0,
                dropped_lines: 0,
                write_faults: Vec::new(alloc),
                transactions: 0,
            },
        }
    }

    /// Whether the agent answers: it has answered the announcement (RFC 3435, 4.4.6), and owes no answer for long.
    pub fn agent_answers(&self) -> bool
        ensures { result ≡ agent_answers self.now.clock self.now.is_serving self.now.unanswered_since }
    {
        match self.unanswered_since {
            Some(since) => self.is_serving && self.clock.saturating_sub(since) <= LONGEST_WAIT,
            None => self.is_serving,
        }
    }

    /// What its lines have together.
    pub fn totals(&self) -> Totals
        ensures { result ≡ totals_of self.now.lines.items }
    {
        let mut totals = Totals {
            off_hook: 0,
            connections: 0,
            lost: 0,
        };
        for line in self.lines.iter() {
            totals.add(line);
        }
        totals
    }
}

/// The number of the lines that are shown next, where these are shown under this number.
#[tactic(auto, using(crate::proofs::ShowingLemmas::lines_Decide))]
pub fn version_behind(version: u64, shown: &Picture, next: &Picture) -> u64
    ensures same { lines_of shown.now ≡ lines_of next.now → result ≡ version }
    ensures changed { lines_of shown.now ≢ lines_of next.now → result ≡ next_number version }
{
    if shown.lines == next.lines {
        version
    } else {
        version.saturating_add(1)
    }
}
