//! Datagrams of who may not speak, and what is sent to them: what the log says of it.
ghost use Rattle.std.specs.Prelude.{◌≡◌, ◌++◌, OnOk};
ghost use Rattle.std.specs.List.{flat_map};
ghost use Rattle.live_io.specs.Speaking.{admitted_by};
ghost use Rattle.told_messages.specs.Recording.{Records};
ghost use Rattle.told_messages.specs.Strangers.{lasts, told_at, quiet_after, unheard_text, text_of_stranger, stranger_text};

use crate::log::Log;
use gateway_core::SentMessage;
use live_io::Speakers;
use log_format::{Note, Stamp, put_note};
use message_counts::is_own;
use mg_bytes::OutOfMemory;
use output_queues::Now;
use small_rules::count;
use std::alloc::Global;
use std::net::SocketAddrV4;

// So long no other stranger is told of, in microseconds.
const BETWEEN: u64 = 1_000_000;

/// From when on a stranger is told of again, in microseconds since 1970, and of how many that came since the last one it isn't told.
#[derive(Clone, Copy)]
pub struct Quiet {
    next: u64,
    untold: u64,
}

impl Quiet {
    /// The first stranger is told of at once.
    pub const NONE: Quiet = Quiet { next: 0, untold: 0 };

    // Whether nobody is told of yet at this time, in microseconds since 1970. Where the time of day was set back it lasts no longer than it
    // would have.
    fn lasts(&self, time: u64) -> bool
        ensures { result ≡ lasts self.now time }
    {
        time < self.next && self.next <= time.saturating_add(BETWEEN)
    }

    /// A stranger's datagram comes at this time, in microseconds since 1970: of how many before it wasn't told, where it is told of.
    pub fn comes(&mut self, time: u64) -> Option<u64>
        ensures told { result ≡ told_at self.old time }
        ensures after { self.new ≡ quiet_after self.old time }
    {
        if self.lasts(time) {
            count(&mut self.untold);
            return None;
        }
        let untold = self.untold;
        self.next = time.saturating_add(BETWEEN);
        self.untold = 0;
        Some(untold)
    }
}

// Notes of a message that was sent at this time that no answer is heard, where it is a command to who may not speak.
fn put_unheard(
    alloc: Global,
    out: &mut Vec<u8>,
    time: u64,
    speakers: &Speakers,
    message: SentMessage,
) -> Result<(), OutOfMemory>
    ensures { OnOk result (out.new.items ≡ out.old.items ++ unheard_text (admitted_by speakers.now) time message) }
{
    let host = *message.to.ip();
    if !is_own(message.label.what) || speakers.hears(host) {
        return Ok(());
    }
    let stamp = Stamp {
        moment: time,
        peer: message.to,
    };
    put_note(alloc, out, stamp, Note::Unheard { host })
}

// The same of each message.
fn put_all_unheard(
    alloc: Global,
    out: &mut Vec<u8>,
    time: u64,
    speakers: &Speakers,
    sent: &[SentMessage],
) -> Result<(), OutOfMemory>
    ensures { OnOk result (out.new.items
        ≡ out.old.items ++ flat_map (unheard_text (admitted_by speakers.now) time) sent.now) }
{
    for message in sent {
        put_unheard(alloc, out, time, speakers, *message)?;
    }
    Ok(())
}

impl Log {
    // Notes a stranger's datagram, where it is told of, and then of how many before it wasn't.
    #[tactic(auto, using(crate::proofs::RecordLemmas::putting, crate::proofs::RecordLemmas::puts_none))]
    fn put_stranger(&mut self, now: Now, source: SocketAddrV4, untold: Option<u64>)
        ensures record { Records self.old.record (text_of_stranger now.time source untold) self.new.record }
        ensures rest { self.new ≡ record self.old { «record» = self.new.record } }
    {
        let Some(untold) = untold else {
            return;
        };
        if !self.record.is_on() {
            return;
        }
        let stamp = Stamp {
            moment: now.time,
            peer: source,
        };
        match put_note(
            self.alloc,
            &mut self.record.out,
            stamp,
            Note::Stranger { untold },
        ) {
            Ok(()) => {}
            Err(_) => self.record.refuse(),
        }
    }

    /// A datagram of a stranger's came: that is noted, at most once a second.
    pub fn stranger(&mut self, now: Now, source: SocketAddrV4)
        ensures record { Records self.old.record (stranger_text self.old.quiet now.time source) self.new.record }
        ensures quiet { self.new.quiet ≡ quiet_after self.old.quiet now.time }
        ensures rest { self.new ≡ record self.old { «record» = self.new.record; quiet = self.new.quiet } }
    {
        let untold = self.quiet.comes(now.time);
        self.put_stranger(now, source, untold);
    }

    /// The gateway took an event, and what it sent at it, which this was, was handed out: of each command of its own that went to who may
    /// not speak it is noted that no answer to it is heard, and by which word one would be.
    #[tactic(auto, using(crate::proofs::RecordLemmas::putting))]
    pub fn unheard(&mut self, now: Now, sent: &[SentMessage], speakers: &Speakers)
        ensures record { Records self.old.record
            (flat_map (unheard_text (admitted_by speakers.now) now.time) sent.now) self.new.record }
        ensures rest { self.new ≡ record self.old { «record» = self.new.record } }
    {
        if !self.record.is_on() {
            return;
        }
        match put_all_unheard(self.alloc, &mut self.record.out, now.time, speakers, sent) {
            Ok(()) => {}
            Err(_) => self.record.refuse(),
        }
    }
}
