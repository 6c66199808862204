//! What waits for somebody who takes it later, up to a bound.
ghost use Rattle.std.specs.Prelude.{◌≡◌, ◌<◌, ◌≤◌, ◌+◌, IfOk, length, drop, true, false};
ghost use Rattle.std.specs.Vec.{vec_capacity};
ghost use Rattle.output_queues.specs.Backlog.{nothing_waits, lines_ended, is_kept, room_left, with_text, offered, may_note, noted, ended_within, taken, closed};

use std::alloc::{AllocError, Global};
use std::marker::Model;

/// No more bytes wait: a mebibyte.
pub const MOST_KEPT: usize = 1_048_576;

/// So many of these are for a note, or a last line, alone.
pub const NOTE_ROOM: usize = 128;

/// The others are for texts.
pub const TEXT_ROOM: usize = 1_048_448;

// The room that is had at the start: what was taken makes room for what waits only once it has as many bytes.
const CAPACITY: usize = 2_097_152;

/// What waits to be taken. Its room is had at the start, so that no text is refused for want of memory. A contract sees the bytes that
/// wait, and what became of texts that found no room.
#[derive(Drop)]
pub struct Backlog {
    bytes: Vec<u8>,
    // So many of these bytes were taken.
    begin: usize,
    is_full: bool,
    is_over: bool,
    unnoted: u64,
    dropped: u64,
}

impl Model for Backlog {
    ghost use Rattle.std.specs.Prelude.{◌≤◌, length, drop};
    ghost use Rattle.std.specs.Vec.{vec_capacity};
    ghost use Rattle.output_queues.specs.Backlog.{BacklogState};
    ghost use Rattle.output_queues.specs.declared.backlog.TheConstants.{MOST_KEPT, CAPACITY};

    ghost Value = { BacklogState };

    ghost view = { λ b. record {
      waiting = drop b.begin b.bytes.items;
      is_full = b.is_full;
      is_over = b.is_over;
      unnoted = b.unnoted;
      dropped = b.dropped;
    } };

    ghost invariant = { λ b. record {
      begun : b.begin ≤ length b.bytes.items;
      few : length (drop b.begin b.bytes.items) ≤ MOST_KEPT;
      room : CAPACITY ≤ vec_capacity b.bytes;
    } };
}

/// How many lines end in a text, each by LF.
pub fn lines_ended(text: &[u8]) -> u64
    ensures { result ≡ lines_ended text.now }
{
    let mut count: u64 = 0;
    for byte in text {
        if *byte == b'\n' {
            count = count.saturating_add(1);
        }
    }
    count
}

// Of these bytes those from here on wait: what was taken makes room, once it is as much as may wait. Gives where they begin then.
fn compacted(bytes: &mut Vec<u8>, begin: usize) -> usize
    requires { begin ≤ length bytes.old.items }
    ensures same { drop result bytes.new.items ≡ drop begin bytes.old.items }
    ensures begun { result ≤ length bytes.new.items }
    ensures low { result < MOST_KEPT }
    ensures room { vec_capacity bytes.new ≡ vec_capacity bytes.old }
{
    if begin < MOST_KEPT {
        return begin;
    }
    bytes.drain(..begin);
    0
}

impl Backlog {
    /// Nothing waits yet.
    pub fn new(alloc: Global) -> Result<Backlog, AllocError>
        ensures { IfOk result (λ backlog. backlog ≡ nothing_waits) }
    {
        Ok(Backlog {
            bytes: Vec::with_capacity(alloc, CAPACITY)?,
            begin: 0,
            is_full: false,
            is_over: false,
            unnoted: 0,
            dropped: 0,
        })
    }

    /// The bytes that wait.
    pub fn waiting(&self) -> &[u8]
        ensures { result.now ≡ self.now.waiting }
    {
        &self.bytes.as_slice()[self.begin..]
    }

    /// How many lines weren't kept since that was noted.
    pub fn unnoted(&self) -> u64
        ensures { result ≡ self.now.unnoted }
    {
        self.unnoted
    }

    /// How many weren't in all.
    pub fn dropped(&self) -> u64
        ensures { result ≡ self.now.dropped }
    {
        self.dropped
    }

    // Puts a text behind what waits.
    fn put(&mut self, text: &[u8])
        requires { length self.old.waiting + length text.now ≤ MOST_KEPT }
        ensures { self.new ≡ with_text self.old text.now }
    {
        let begin = self.begin;
        self.begin = compacted(&mut self.bytes, begin);
        // There is room for it.
        let _ = self.bytes.extend_from_slice(text);
    }

    /// Whether a text is kept.
    pub fn has_room(&self, text: &[u8]) -> bool
        ensures { result ≡ is_kept TEXT_ROOM self.now text.now }
    {
        let length = self.waiting().len();
        !self.is_full && !self.is_over && length <= TEXT_ROOM && text.len() <= TEXT_ROOM - length
    }

    /// So many bytes a text has at most that is kept.
    pub fn room_left(&self) -> usize
        ensures { result ≡ room_left TEXT_ROOM self.now }
    {
        if self.is_full || self.is_over {
            return 0;
        }
        TEXT_ROOM.saturating_sub(self.waiting().len())
    }

    /// Keeps a text, which is whole lines, behind what waits: whether there is room for it. Where there isn't, none is kept from then on
    /// until that is noted, and the lines are counted.
    #[tactic(auto, unfolding(crate::specs::Backlog::offered))]
    pub fn keep(&mut self, text: &[u8]) -> bool
        ensures kept { result ≡ is_kept TEXT_ROOM self.old text.now }
        ensures new { self.new ≡ offered TEXT_ROOM self.old text.now }
    {
        if self.has_room(text) {
            self.put(text);
            return true;
        }
        let lines = lines_ended(text);
        self.is_full = true;
        self.unnoted = self.unnoted.saturating_add(lines);
        self.dropped = self.dropped.saturating_add(lines);
        false
    }

    /// Whether it may be noted that lines weren't kept: no more than half of the room is taken.
    pub fn may_note(&self) -> bool
        ensures { result ≡ may_note TEXT_ROOM self.now }
    {
        let length = self.waiting().len();
        self.is_full && !self.is_over && length + length <= TEXT_ROOM
    }

    /// Puts a note of the lines that weren't kept behind what waits, where that may be and it has no more bytes than `NOTE_ROOM`; texts
    /// are kept again then.
    pub fn note(&mut self, note: &[u8])
        ensures noted { may_note TEXT_ROOM self.old ≡ true → length note.now ≤ NOTE_ROOM → self.new ≡ noted self.old note.now }
        ensures too_long { NOTE_ROOM < length note.now → self.new ≡ self.old }
        ensures not_now { may_note TEXT_ROOM self.old ≡ false → self.new ≡ self.old }
    {
        if self.may_note() && note.len() <= NOTE_ROOM {
            self.put(note);
            self.is_full = false;
            self.unnoted = 0;
        }
    }

    /// Puts a last line behind what waits, where it has no more bytes than `NOTE_ROOM`; nothing is kept from then on.
    pub fn end(&mut self, last: &[u8])
        ensures { self.new ≡ ended_within NOTE_ROOM TEXT_ROOM self.old last.now }
    {
        if last.len() <= NOTE_ROOM && self.waiting().len() <= TEXT_ROOM {
            self.put(last);
        }
        self.is_over = true;
    }

    /// So many bytes were taken.
    pub fn pass(&mut self, count: usize)
        ensures { self.new ≡ taken self.old count }
    {
        let left = self.bytes.len() - self.begin;
        if count < left {
            self.begin += count;
        } else {
            self.bytes.clear();
            self.begin = 0;
        }
    }

    /// Gives up what waits; nothing is kept from then on.
    pub fn close(&mut self)
        ensures { self.new ≡ closed self.old }
    {
        self.bytes.clear();
        self.begin = 0;
        self.is_over = true;
    }
}
