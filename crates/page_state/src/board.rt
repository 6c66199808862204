//! The board: what the page is shown, and what it asks to be done.
ghost use Rattle.std.specs.Prelude.{◌≡◌, ◌≢◌, ◌≤◌, ◌<◌, [], true, false, None, length, drop, IfOk, OnOk, OnErr, slice_get};
ghost use Rattle.page_state.specs.Metrics.{metrics_of};
ghost use Rattle.page_state.specs.MetricsShowing.{IsNothingCounted, lines_of};
ghost use Rattle.page_state.specs.Sums.{next_number};
ghost use Rattle.page_state.specs.Health.{is_alive};
ghost use Rattle.page_state.specs.Keeping.{nothing_yet, noted, counted, labelled};
ghost use Rattle.page_state.specs.BoardShowing.{queued_behind};

use crate::act::QueuedAct;
use crate::label::MessageLabel;
use crate::metrics::metrics_text;
use crate::picture::{Picture, version_behind};
use crate::ring::{Kind, Ring};
use std::alloc::{AllocError, Global};
use std::collections::VecDeque;
use std::marker::Model;
use std::net::SocketAddrV4;

/// So many acts wait at most.
pub const MOST_ACTS: usize = 32;

// The clock may be behind the machine's by so much, in ms, where the loop has turned within the last second.
const LONGEST_BEHIND: u64 = 1000;

/// What the page is shown, and the acts that it asks for. A contract sees what is shown, and the acts that wait.
pub struct Board {
    alloc: Global,
    picture: Picture,
    // Which lines are shown: another number, where they changed.
    version: u64,
    ring: Ring,
    acts: VecDeque<QueuedAct>,
}

// Written out: a derived drop, and those of all its parts, are proved anew by each crate that lets one go.
impl Drop for Board {
    fn drop(self) {
        let Board {
            alloc: _,
            picture,
            version: _,
            ring,
            acts,
        } = self;
        drop(picture);
        drop(ring);
        drop(acts);
    }
}

impl Model for Board {
    ghost use Rattle.std.specs.Prelude.{◌≤◌, length};
    ghost use Rattle.page_state.specs.BoardShowing.{BoardState};
    ghost use Rattle.page_state.specs.declared.board.TheConstants.{MOST_ACTS};

    ghost Value = { BoardState };

    ghost view = { λ b. record { picture = b.picture; version = b.version; ring = b.ring; acts = b.acts.items } };

    ghost invariant = { λ b. length b.acts.items ≤ MOST_ACTS };
}

impl Board {
    /// A board that shows no lines yet.
    pub fn new(alloc: Global) -> Board
        ensures lines { lines_of result.picture ≡ [] }
        ensures clock { result.picture.clock ≡ 0 }
        ensures behind { result.picture.behind ≡ 0 }
        ensures serving { result.picture.is_serving ≡ false }
        ensures unanswered { result.picture.unanswered_since ≡ None }
        ensures first { result.picture.first ≡ 0 }
        ensures counts { IsNothingCounted result.picture.counts }
        ensures version { result.version ≡ 0 }
        ensures ring { result.ring ≡ nothing_yet }
        ensures acts { result.acts ≡ [] }
    {
        Board {
            alloc,
            picture: Picture::new(alloc),
            version: 0,
            ring: Ring::new(alloc),
            acts: VecDeque::new(alloc),
        }
    }

    /// Shows the gateway as it is now: under another number, where its lines changed. To be called before what came is answered.
    pub fn show(&mut self, picture: Picture)
        ensures picture { self.new.picture ≡ picture }
        ensures same { lines_of self.old.picture ≡ lines_of picture
            → self.new.version ≡ self.old.version }
        ensures changed { lines_of self.old.picture ≢ lines_of picture
            → self.new.version ≡ next_number self.old.version }
        ensures ring { self.new.ring ≡ self.old.ring }
        ensures acts { self.new.acts ≡ self.old.acts }
    {
        self.version = version_behind(self.version, &self.picture, &picture);
        self.picture = picture;
    }

    /// Something happened at this moment, in ms; `peer` is where a datagram came from or went. After an error, which is for
    /// want of memory, its number alone is taken.
    pub fn note(
        &mut self,
        moment: u64,
        kind: Kind,
        peer: SocketAddrV4,
        text: &[u8],
    ) -> Result<(), AllocError>
        ensures ok { OnOk result (self.new ≡ record self.old { ring = noted self.old.ring moment kind peer text.now }) }
        ensures err { OnErr result (self.new ≡ record self.old { ring = counted self.old.ring }) }
    {
        self.ring.note(moment, kind, peer, text)
    }

    /// It is told what the messages of what happened last are, where that is kept. After an error, which is for want of memory, the board
    /// is as it was.
    pub fn label(&mut self, said: &[MessageLabel]) -> Result<(), AllocError>
        ensures ok { OnOk result (self.new ≡ record self.old { ring = labelled self.old.ring said.now }) }
        ensures err { OnErr result (self.new ≡ self.old) }
    {
        self.ring.label(said)
    }

    /// Takes the act that has waited longest.
    pub fn next_act(&mut self) -> Option<QueuedAct>
        ensures first { result ≡ slice_get self.old.acts 0 }
        ensures left { self.new ≡ record self.old { acts = drop 1 self.old.acts } }
    {
        self.acts.pop_front()
    }

    /// Whether the loop has turned within the last second, as far as the clock that is shown tells.
    pub fn is_alive(&self) -> bool
        ensures { result ≡ is_alive self.now.picture.behind }
    {
        self.picture.behind <= LONGEST_BEHIND
    }

    /// Whether the gateway serves (RFC 3435, 4.4.6).
    pub fn is_serving(&self) -> bool
        ensures { result ≡ self.now.picture.is_serving }
    {
        self.picture.is_serving
    }

    /// The picture that is shown.
    pub fn picture(&self) -> &Picture
        ensures { result.now ≡ self.now.picture }
    {
        &self.picture
    }

    /// The number that its lines have.
    pub fn version(&self) -> u64
        ensures { result ≡ self.now.version }
    {
        self.version
    }

    /// What happened lately.
    pub fn ring(&self) -> &Ring
        ensures { result.now ≡ self.now.ring }
    {
        &self.ring
    }

    /// What was counted, as Prometheus reads it.
    pub fn metrics(&self) -> Result<Vec<u8>, AllocError>
        ensures { IfOk result (λ text. text.items ≡ metrics_of self.now.picture) }
    {
        metrics_text(self.alloc, &self.picture)
    }

    /// No more acts wait than may, whatever was asked of the board. A law: calling it does nothing.
    pub fn few_wait(&self)
        ensures { length self.now.acts ≤ MOST_ACTS }
    {
        // Of a board whose fields are looked at it is known how many wait.
        let _ = &self.acts;
    }

    /// Takes an act: it waits behind the others, where fewer wait than may, and else nothing changes. Says whether it waits. After an
    /// error, which is for want of memory, the board is as it was.
    pub fn queue(&mut self, queued: QueuedAct) -> Result<bool, AllocError>
        ensures waits { IfOk result (λ waits. waits ≡ true → self.new ≡ queued_behind self.old queued) }
        ensures free { IfOk result (λ waits. waits ≡ true → length self.old.acts < MOST_ACTS) }
        ensures refused { IfOk result (λ waits. waits ≡ false → self.new ≡ self.old) }
        ensures full { IfOk result (λ waits. waits ≡ false → MOST_ACTS ≤ length self.old.acts) }
        ensures few { length self.new.acts ≤ MOST_ACTS }
        ensures err { OnErr result (self.new ≡ self.old) }
    {
        if self.acts.len() >= MOST_ACTS {
            return Ok(false);
        }
        match self.acts.push_back(queued) {
            Ok(()) => Ok(true),
            Err(_) => Err(AllocError),
        }
    }
}
