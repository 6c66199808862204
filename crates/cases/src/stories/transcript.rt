//! What a program gives, by moments.
use crate::stories::clocks::Stamp;
use mg_bytes::{Draft, OutOfMemory};
use std::alloc::{AllocError, Global};

// What stands before the lines of each kind, in the order in which those of one moment are told, behind what is sent and answered.
const KINDS: [&str; 8] = [
    "page ", "trace ", "print ", "log ", "capture ", "replay ", "count ", "status ",
];

// What is given at a moment, in ms, behind so much that was given before: whole lines of one kind, which has this place among the kinds.
#[derive(Drop)]
struct Entry {
    moment: u64,
    rank: usize,
    place: u64,
    text: Vec<u8>,
}

/// What is given. That memory was refused for something is kept, and told at the end.
#[derive(Drop)]
pub struct Transcript {
    alloc: Global,
    entries: Vec<Entry>,
    is_refused: bool,
}

// The place of a text's kind in that order; 0 where it was sent or answered.
fn rank_of(text: &[u8]) -> usize {
    for (place, kind) in KINDS.iter().enumerate() {
        if text.starts_with(kind.as_bytes()) {
            return place.wrapping_add(1);
        }
    }
    0
}

// Puts a line behind this.
fn put_line(out: &mut Draft, before: &[u8], line: &[u8]) {
    out.put(before);
    out.put(line);
    out.put(b"\n");
}

// Puts the lines of a text but empty ones, the first behind this, and each other one behind that.
fn put_lines(out: &mut Draft, first: &[u8], others: &[u8], text: &[u8]) {
    let mut before = first;
    for line in text.split(|byte| *byte == b'\n') {
        let line = line.strip_suffix(b"\r".as_slice()).unwrap_or(line);
        if !line.is_empty() {
            put_line(out, before, line);
            before = others;
        }
    }
}

// Puts the line that a moment is.
fn put_moment(out: &mut Draft, moment: u64) {
    out.put(b"at ");
    out.put_decimal(moment);
    out.put(b"\n");
}

impl Transcript {
    /// Nothing yet.
    pub fn new(alloc: Global) -> Transcript {
        Transcript {
            alloc,
            entries: Vec::new(alloc),
            is_refused: false,
        }
    }

    /// Memory was refused for what was given.
    pub fn refuse(&mut self) {
        self.is_refused = true;
    }

    /// This text was given then, where memory was there to put it.
    pub fn put(&mut self, at: Stamp, text: Draft) {
        match text.end() {
            Ok(text) => self.add(at, text),
            Err(_) => self.refuse(),
        }
    }

    // This text was given then.
    fn add(&mut self, at: Stamp, text: Vec<u8>) {
        if text.is_empty() {
            return;
        }
        let rank = rank_of(text.as_slice());
        let Stamp { moment, place } = at;
        let entry = Entry {
            moment,
            rank,
            place,
            text,
        };
        if self.entries.push(entry).is_err() {
            self.refuse();
        }
    }

    /// The lines of this text were given then, each behind this.
    pub fn tell(&mut self, at: Stamp, before: &[u8], text: &[u8]) {
        self.tell_datagram(at, before, before, text);
    }

    /// The same where they were given in one datagram: the first stands behind this, and each other one behind that.
    pub fn tell_datagram(&mut self, at: Stamp, first: &[u8], others: &[u8], text: &[u8]) {
        if !text.is_empty() {
            let mut lines = Draft::new(self.alloc);
            put_lines(&mut lines, first, others, text);
            self.put(at, lines);
        }
    }

    /// It ended then, with this status.
    pub fn tell_status(&mut self, at: Stamp, status: u8) {
        let mut text = Draft::new(self.alloc);
        text.put(b"status ");
        text.put_decimal(u64::from(status));
        text.put(b"\n");
        self.put(at, text);
    }

    /// All of another one, beside all of this.
    pub fn append(&mut self, other: &mut Transcript) {
        self.is_refused = self.is_refused || other.is_refused;
        if self.entries.append(&mut other.entries).is_err() {
            self.refuse();
        }
    }

    /// What was given at one moment isn't told by kinds, but as it came, one after the other.
    pub fn keep_order(&mut self) {
        for entry in self.entries.iter_mut() {
            entry.rank = 0;
        }
    }

    // From the first moment to the last; what was given at one stands by kinds, and of one kind as it came.
    fn sort(&mut self) {
        let sorted = self
            .entries
            .sort_by_key(|entry| (entry.moment, entry.rank, entry.place));
        if sorted.is_err() {
            self.refuse();
        }
    }

    // All of it, as it stands.
    fn put_entries(&self, out: &mut Draft) {
        let mut last = None;
        for entry in self.entries.iter() {
            if last != Some(entry.moment) {
                last = Some(entry.moment);
                put_moment(out, entry.moment);
            }
            out.put(entry.text.as_slice());
        }
    }

    /// All of it, behind a line with its moment, in order. Its only error is want of memory, also for what was given.
    pub fn text(&mut self) -> Result<Vec<u8>, OutOfMemory> {
        self.sort();
        if self.is_refused {
            return Err(AllocError);
        }
        let mut out = Draft::new(self.alloc);
        self.put_entries(&mut out);
        out.end()
    }
}
