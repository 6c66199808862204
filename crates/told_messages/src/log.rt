//! The log, for people, on standard error: a line a message, and a line for what is to be noted beside it.
ghost use Rattle.std.specs.Prelude.{◌≡◌, [], None, IfOk};
ghost use Rattle.log_format.specs.Lines.{note_line};
ghost use Rattle.output_queues.specs.Recording.{state_when};
ghost use Rattle.told_messages.specs.Recording.{Records};
ghost use Rattle.told_messages.specs.Sending.{ms_between};

use crate::strangers::Quiet;
use log_format::{Note, Stamp, put_note};
use mg_bytes::{OutOfMemory, Text};
use mgcp_text::TransactionId;
use output_queues::Record;
use std::alloc::Global;
use std::collections::BTreeMap;
use std::net::{Ipv4Addr, SocketAddrV4};

const MICROSECONDS: u64 = 1000;

/// A command of the gateway's own that was sent.
#[derive(Drop)]
pub(crate) struct OwnCommand {
    pub(crate) id: TransactionId,
    /// Where it was sent first, and when, in microseconds since 1970.
    pub(crate) first: Stamp,
    pub(crate) text: Text,
}

/// What each line sent last; line 0 is the gateway itself.
pub(crate) type LastCommands = BTreeMap<u16, OwnCommand>;

/// A datagram that came, so late, in ms.
#[derive(Drop)]
pub(crate) struct Arrival {
    pub(crate) bytes: Text,
    pub(crate) late: u64,
}

/// The log of a gateway.
pub struct Log {
    pub alloc: Global,
    pub record: Record,
    /// The gateway's domain, which its names are shown without.
    pub(crate) domain: Text,
    /// Its own commands that it sent last: how long a response took, and what is given up, is told by them. No label has when and where a
    /// command was sent first, nor how its name is written.
    pub(crate) own: LastCommands,
    /// When a datagram came last, in microseconds since 1970, and from where.
    pub(crate) came: Stamp,
    /// That datagram, until the gateway took it: so nothing is read again to tell what its texts are.
    pub(crate) arrival: Option<Arrival>,
    /// When a datagram was sent last, in microseconds since 1970.
    pub(crate) sent: u64,
    /// When a stranger is told of next.
    pub quiet: Quiet,
}

// Written out: a derived drop, and those of all its parts, are proved anew by each crate that lets one go.
impl Drop for Log {
    fn drop(self) {
        let Log {
            alloc: _,
            record,
            domain,
            own,
            came: _,
            arrival,
            sent: _,
            quiet: _,
        } = self;
        drop(record);
        drop(domain);
        drop(own);
        drop(arrival);
    }
}

/// How long it was from one moment to another, in ms, where both are in microseconds.
pub(crate) fn ms_between(since: u64, until: u64) -> u64
    ensures { result ≡ ms_between since until }
{
    until.saturating_sub(since) / MICROSECONDS
}

impl Log {
    /// The log of a gateway with this domain, of which nothing is told yet.
    pub fn new(alloc: Global, is_on: bool, domain: &[u8]) -> Result<Log, OutOfMemory>
        ensures state { IfOk result (λ log. log.record.state ≡ state_when is_on) }
        ensures out { IfOk result (λ log. log.record.out.items ≡ []) }
        ensures domain { IfOk result (λ log. log.domain ≡ domain.now) }
        ensures own { IfOk result (λ log. log.own.entries ≡ []) }
        ensures arrival { IfOk result (λ log. log.arrival ≡ None) }
        ensures moments { IfOk result (λ log. (log.came.moment ≡ 0) × (log.sent ≡ 0)) }
        ensures quiet { IfOk result (λ log. log.quiet ≡ record { next = 0; untold = 0 }) }
    {
        Ok(Log {
            alloc,
            record: Record::new(alloc, is_on),
            domain: Text::of(Vec::from_slice(alloc, domain)?),
            own: BTreeMap::new(alloc),
            came: Stamp {
                moment: 0,
                peer: SocketAddrV4::new(Ipv4Addr::UNSPECIFIED, 0),
            },
            arrival: None,
            sent: 0,
            quiet: Quiet::NONE,
        })
    }

    /// Puts a note. Where memory is refused for it, nothing is told from then on.
    #[tactic(auto, using(crate::proofs::RecordLemmas::putting))]
    pub(crate) fn put_note(&mut self, stamp: Stamp, note: Note)
        ensures told { Records self.old.record (note_line stamp note) self.new.record }
        ensures rest { self.new ≡ record self.old { «record» = self.new.record } }
    {
        if !self.record.is_on() {
            return;
        }
        match put_note(self.alloc, &mut self.record.out, stamp, note) {
            Ok(()) => {}
            Err(_) => self.record.refuse(),
        }
    }
}
