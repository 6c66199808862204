//! The trace, as a record keeps it until it is written.
ghost use Rattle.std.specs.Prelude.{◌≡◌, ◌≤◌, ◌<◌, ◌-◌, ◌++◌, length, true, false, [], OnOk, None};
ghost use Rattle.output_queues.specs.declared.record.RecordState.TheVariants.{Off, OutOfMemory};
ghost use Rattle.live_journal.specs.Recording.{whole_lines, trace_head, Begins, is_telling, has_ended, HasPlace};

use live_io::Teller;
use mg_bytes::{Draft, OutOfMemory};
use output_queues::{Outlet, Record, TEXT_ROOM};
use std::alloc::Global;
use std::io::Write;
use traces::{broken_off_line, put_first};

/// The trace of a gateway. What it is told has its place in what is kept for its outlet at once, and so before anything goes out that
/// it tells: where there is no room for it, the trace is broken off there.
pub struct Trace {
    pub record: Record,
    // So much room is left in what is kept, in bytes, behind what waits and what it was told since.
    room: usize,
    // It was told more than there was room for.
    is_broken_off: bool,
}

// Written out: a derived drop, and those of all its parts, are proved anew by each crate that lets one go.
impl Drop for Trace {
    fn drop(self) {
        let Trace {
            record,
            room: _,
            is_broken_off: _,
        } = self;
        drop(record);
    }
}

// Puts the configuration, whose last line has its end.
fn put_config(out: &mut Draft, config: &[u8])
    ensures { out.new ≡ out.old ++ whole_lines config.now }
{
    out.put(config);
    if config.is_empty() || config.ends_with(b"\n") {
        return;
    }
    out.put_byte(b'\n');
}

// Puts its head: the configuration, `%%`, and with which number ids begin, where that isn't 0.
fn put_head(alloc: Global, out: &mut Vec<u8>, config: &[u8], first: u32) -> Result<(), OutOfMemory>
    ensures { OnOk result (out.new.items ≡ out.old.items ++ trace_head config.now first) }
{
    let mut head = Draft::new(alloc);
    put_config(&mut head, config);
    head.put(b"%%\n");
    if first != 0 {
        put_first(&mut head, first);
    }
    head.append_to(out)
}

impl Trace {
    /// A trace that has its head, where one is asked for: the text of the configuration, and the number with which ids begin. Nothing of it
    /// is kept yet: so all the room is left that it doesn't take itself.
    #[tactic(auto, using(told_messages::proofs::RecordLemmas::putting))]
    pub fn new(alloc: Global, is_on: bool, config: &[u8], first: u32) -> Trace
        ensures head { Begins is_on (trace_head config.now first) result.record }
        ensures room { result.room ≡ TEXT_ROOM - length result.record.out.items }
        ensures broken_off { result.is_broken_off ≡ false }
    {
        let mut record = Record::new(alloc, is_on);
        if !is_on {
            let room = TEXT_ROOM.saturating_sub(record.out.len());
            return Trace {
                record,
                room,
                is_broken_off: false,
            };
        }
        match put_head(alloc, &mut record.out, config, first) {
            Ok(()) => {}
            Err(_) => record.refuse(),
        }
        let room = TEXT_ROOM.saturating_sub(record.out.len());
        Trace {
            record,
            room,
            is_broken_off: false,
        }
    }

    /// So much room is left in what is kept, in bytes.
    pub fn give_room(&mut self, room: usize)
        ensures { self.new ≡ record self.old { room = room } }
    {
        self.room = room;
    }

    /// Whether it was broken off since this was asked last: its record ends with that.
    pub fn has_ended(&mut self) -> bool
        ensures ended { result ≡ has_ended self.old }
        ensures off { has_ended self.old ≡ true → self.new.record.state ≡ Off }
        ensures on { has_ended self.old ≡ false → self.new ≡ self.old }
        ensures out { self.old.record.out.items ≡ [] → self.new.record.out.items ≡ [] }
        ensures room { (self.new.room ≡ self.old.room) × (self.new.is_broken_off ≡ self.old.is_broken_off) }
    {
        let has_ended = self.is_broken_off && self.record.is_on();
        if has_ended {
            self.record.end();
        }
        has_ended
    }

    /// What it was told is kept by its outlet, which ends with a last line where the trace was broken off.
    pub(crate) fn keep<F: Write + Drop>(&mut self, output: &mut Outlet<F>)
        ensures { self.new.record.out.items ≡ [] }
    {
        output.keep_whole(&mut self.record, broken_off_line());
        if self.has_ended() {
            output.break_off(broken_off_line());
        }
        output.end_refused(&self.record, broken_off_line());
    }
}

// What it was told isn't kept once it is written, so it doesn't tell that.
impl Teller for Trace {
    ghost use Rattle.std.specs.Prelude.{None};

    ghost told = { λ trace. None };

    fn is_telling(&self) -> bool
        ensures { result ≡ is_telling self.now }
    {
        self.record.is_on() && !self.is_broken_off
    }

    // It has its place; or the trace is broken off before it.
    fn tell(&mut self, text: &[u8])
        ensures quiet { is_telling self.old ≡ false → self.new ≡ self.old }
        ensures placed { is_telling self.old ≡ true → length text.now ≤ self.old.room → HasPlace self.old text.now self.new }
        ensures no_room { is_telling self.old ≡ true → self.old.room < length text.now
            → self.new ≡ record self.old { is_broken_off = true } }
    {
        if !self.is_telling() {
            return;
        }
        if text.len() > self.room {
            self.is_broken_off = true;
            return;
        }
        match self.record.out.extend_from_slice(text) {
            Ok(()) => self.room -= text.len(),
            Err(_) => self.record.refuse(),
        }
    }

    fn break_off(&mut self)
        ensures state { self.new.record.state ≡ OutOfMemory }
        ensures out { self.new.record.out.items ≡ [] }
    {
        self.record.refuse();
    }
}
