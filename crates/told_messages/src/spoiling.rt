//! What the log says of a network that spoils what goes over it, or takes nothing.
ghost use Rattle.std.specs.Prelude.{◌≡◌, ◌++◌, None, OnOk};
ghost use Rattle.std.specs.List.{flat_map};
ghost use Rattle.log_format.specs.declared.stamp.Way.TheVariants.{Came};
ghost use Rattle.log_format.specs.Lines.{message_line, note_line};
ghost use Rattle.log_format.specs.Pausing.{pause_line};
ghost use Rattle.mgcp_text.specs.Parts.{parts_of};
ghost use Rattle.told_messages.specs.Coming.{untaken_text};
ghost use Rattle.told_messages.specs.Logging.{LeavesOut};
ghost use Rattle.told_messages.specs.Recording.{Records};

use crate::log::Log;
use log_format::{Note, Stamp, Way, put_message, put_note, put_pause};
use mg_bytes::OutOfMemory;
use mgcp_text::parts;
use output_queues::Now;
use std::alloc::Global;
use std::net::SocketAddrV4;

// Puts each text of a datagram that isn't taken.
fn put_texts(
    alloc: Global,
    out: &mut Vec<u8>,
    domain: &[u8],
    from: Stamp,
    bytes: &[u8],
) -> Result<(), OutOfMemory>
    ensures { OnOk result (out.new.items
        ≡ out.old.items ++ flat_map (λ text. message_line domain.now from Came text None) (parts_of bytes.now)) }
{
    for text in parts(bytes) {
        put_message(alloc, out, domain, from, Way::Came, text, None)?;
    }
    Ok(())
}

// Puts its texts, and why it isn't taken.
fn put_untaken(
    alloc: Global,
    out: &mut Vec<u8>,
    domain: &[u8],
    from: Stamp,
    bytes: &[u8],
    why: Note,
) -> Result<(), OutOfMemory>
    ensures { OnOk result (out.new.items ≡ out.old.items ++ untaken_text domain.now from bytes.now why) }
{
    put_texts(alloc, out, domain, from, bytes)?;
    put_note(alloc, out, from, why)
}

impl Log {
    /// A datagram that was sent to the gateway isn't taken, for this reason.
    #[tactic(auto, using(crate::proofs::RecordLemmas::putting))]
    pub fn leave(&mut self, now: Now, source: SocketAddrV4, bytes: &[u8], why: Note)
        ensures { LeavesOut self.old (record { moment = now.time; peer = source }) bytes.now why self.new }
    {
        let from = Stamp {
            moment: now.time,
            peer: source,
        };
        self.arrival = None;
        if !self.record.is_on() {
            return;
        }
        let out = &mut self.record.out;
        match put_untaken(self.alloc, out, self.domain.as_bytes(), from, bytes, why) {
            Ok(_) => {}
            Err(_) => self.record.refuse(),
        }
    }

    /// This is noted of the datagram that came or was sent last.
    pub fn note(&mut self, now: Now, peer: SocketAddrV4, note: Note)
        ensures told { Records self.old.record (note_line (record { moment = now.time; peer = peer }) note) self.new.record }
        ensures rest { self.new ≡ record self.old { «record» = self.new.record } }
    {
        let stamp = Stamp {
            moment: now.time,
            peer,
        };
        self.put_note(stamp, note);
    }

    /// The program was stopped and went on so much later than it was to, in ms, and so many datagrams had come, where that is known.
    #[tactic(auto, using(crate::proofs::RecordLemmas::putting))]
    pub fn pause(&mut self, now: Now, lateness: u64, read: Option<u64>)
        ensures puts { Records self.old.record (pause_line now.time lateness read) self.new.record }
        ensures rest { self.new ≡ record self.old { «record» = self.new.record } }
    {
        if !self.record.is_on() {
            return;
        }
        match put_pause(self.alloc, &mut self.record.out, now.time, lateness, read) {
            Ok(()) => {}
            Err(_) => self.record.refuse(),
        }
    }
}
