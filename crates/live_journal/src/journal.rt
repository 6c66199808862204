//! What is kept of what goes between a gateway and others: its counts and its records.
ghost use Rattle.std.specs.Prelude.{◌≡◌, map};
ghost use Rattle.message_counts.specs.Counting.{counts_in, with_texts};
ghost use Rattle.message_counts.specs.Places.{with_sends};
ghost use Rattle.message_counts.specs.SentCounting.{tally_in, with_sent, with_given_up};
ghost use Rattle.message_counts.specs.Tallying.{with_received, with_handed_out, with_stranger, CountsNoDatagram};
ghost use Rattle.message_counts.specs.Waiting.{unanswered_after};
ghost use Rattle.page_state.specs.declared.ring.Kind.TheVariants.{Received, Sent, Act, Told};
ghost use Rattle.told_messages.specs.Labelling.{sent_label};
ghost use Rattle.told_messages.specs.Logging.{Receives, Turns, LeavesOut, Sends};
ghost use Rattle.told_messages.specs.Recording.{Records, unsent_text};
ghost use Rattle.told_messages.specs.Showing.{nobody as of_nobody, GoesOn, Happened, HappenedWith, Turned};
ghost use Rattle.told_messages.specs.Strangers.{quiet_after, stranger_text};
ghost use Rattle.live_journal.specs.Capturing.{Captures};
ghost use Rattle.live_journal.specs.Spoiling.{fate_note, Notes};

use crate::capture::Capture;
use gateway_core::SentMessage;
use impairment::Fate;
use log_format::Note;
use message_counts::{MessageTally, Taken};
use output_queues::{Now, Written};
use page_state::{Board, Kind};
use std::net::SocketAddrV4;
use told_messages::{Log, nobody, show, show_sent, show_turned};

/// The journal of a gateway. What is large stands in boxes.
pub struct Journal {
    pub tally: Box<MessageTally>,
    pub log: Box<Log>,
    pub capture: Box<Capture>,
    /// What the page is shown, where there is one.
    pub board: Option<Box<Board>>,
    /// What became of what was recorded.
    pub written: Written,
}

// Written out: a derived drop, and those of all its parts, are proved anew by each crate that lets one go.
impl Drop for Journal {
    fn drop(self) {
        let Journal {
            tally,
            log,
            capture,
            board,
            written: _,
        } = self;
        drop(tally);
        drop(log);
        drop(capture);
        drop(board);
    }
}

// What is noted of this fate; nothing where a datagram comes at once.
fn note_of(fate: Fate) -> Option<Note>
    ensures { result ≡ fate_note fate }
{
    match fate {
        Fate::Lost => Some(Note::Lost),
        Fate::Once { late: 0 } => None,
        Fate::Once { late } => Some(Note::Late { ms: late }),
        Fate::Twice { first, second } => Some(Note::Copied { first, second }),
    }
}

impl Journal {
    // Shows the page what happened, with whom on the network, or with nobody there.
    fn show(&mut self, moment: u64, kind: Kind, peer: SocketAddrV4, text: &[u8])
        ensures shown { GoesOn (Happened moment kind peer text.now) self.old.board self.new.board }
        ensures rest { self.new ≡ record self.old { board = self.new.board } }
    {
        if let Some(board) = &mut self.board {
            show(board, moment, kind, peer, text);
        }
    }

    /// A line of the telephones is given to the gateway.
    pub fn act(&mut self, now: Now, line: &[u8])
        ensures shown { GoesOn (Happened now.clock Act of_nobody line.now) self.old.board self.new.board }
        ensures rest { self.new ≡ record self.old { board = self.new.board } }
    {
        self.show(now.clock, Kind::Act, nobody(), line);
    }

    /// The line of the telephones that was given is answered.
    pub fn answered(&mut self, moment: u64, text: &[u8])
        ensures shown { GoesOn (Happened moment Told of_nobody text.now) self.old.board self.new.board }
        ensures rest { self.new ≡ record self.old { board = self.new.board } }
    {
        self.show(moment, Kind::Told, nobody(), text);
    }

    /// A datagram comes for the gateway, so late, in ms.
    pub fn came(&mut self, now: Now, source: SocketAddrV4, bytes: &[u8], late: u64)
        ensures shown { GoesOn (Happened now.clock Received source bytes.now) self.old.board self.new.board }
        ensures counted { self.new.tally.value ≡ with_received self.old.tally.value }
        ensures logged { Receives self.old.log.value (record { moment = now.time; peer = source }) bytes.now late self.new.log.value }
        ensures captured { Captures self.old.capture.value
            (record { moment = now.time; from = source; to = self.old.capture.value.here; bytes = bytes.now }) self.new.capture.value }
        ensures written { self.new.written ≡ self.old.written }
    {
        self.tally.received();
        self.log.receive(now, source, bytes, late);
        let here = self.capture.here;
        self.capture.pass(now.time, source, here, bytes);
        self.show(now.clock, Kind::Received, source, bytes);
    }

    /// A datagram came from who may not speak: it is counted, and noted at most once a second.
    pub fn stranger(&mut self, now: Now, source: SocketAddrV4)
        ensures counted { self.new.tally.value ≡ with_stranger self.old.tally.value }
        ensures told { Records self.old.log.value.record
            (stranger_text self.old.log.value.quiet now.time source) self.new.log.value.record }
        ensures quiet { self.new.log.value.quiet ≡ quiet_after self.old.log.value.quiet now.time }
        ensures log { self.new.log.value
            ≡ record self.old.log.value { «record» = self.new.log.value.record; quiet = self.new.log.value.quiet } }
        ensures rest { (self.new.capture ≡ self.old.capture) × (self.new.board ≡ self.old.board) × (self.new.written ≡ self.old.written) }
    {
        self.tally.stranger();
        self.log.stranger(now, source);
    }

    /// The gateway took an event, of which it tells this: all that is counted. What it sends is handed out next.
    pub fn turned(&mut self, now: Now, taken: &Taken<'_>)
        ensures shown { GoesOn (Turned now.clock taken.now.outcomes.now taken.now.given_up.now) self.old.board self.new.board }
        ensures texts { counts_in self.new.tally.value.texts ≡ with_texts (counts_in self.old.tally.value.texts) taken.now.outcomes.now }
        ensures sent { tally_in self.new.tally.value.sent
            ≡ with_given_up (with_sent (tally_in self.old.tally.value.sent) taken.now.sent.now) taken.now.given_up.now }
        ensures places { self.new.tally.value.places.sends
            ≡ with_sends taken.now.route.now self.old.tally.value.places.sends taken.now.sent.now }
        ensures unanswered { self.new.tally.value.unanswered_since
            ≡ unanswered_after self.old.tally.value.unanswered_since taken.now.outcomes.now taken.now.sent.now }
        ensures datagrams { CountsNoDatagram self.old.tally.value self.new.tally.value }
        ensures logged { Turns self.old.log.value now.time taken.now.outcomes.now taken.now.given_up.now self.new.log.value }
        ensures rest { (self.new.capture ≡ self.old.capture) × (self.new.written ≡ self.old.written) }
    {
        self.tally.turned(taken);
        self.log.turned(now, taken);
        let alloc = self.log.alloc;
        if let Some(board) = &mut self.board {
            show_turned(alloc, board, now.clock, taken);
        }
    }

    /// A datagram that was sent to the gateway isn't taken, for this reason: a bad network lost it, or memory was refused.
    pub fn untaken(&mut self, now: Now, source: SocketAddrV4, bytes: &[u8], why: Note)
        ensures logged { LeavesOut self.old.log.value (record { moment = now.time; peer = source }) bytes.now why self.new.log.value }
        ensures rest { self.new ≡ record self.old { log = self.new.log } }
    {
        self.log.leave(now, source, bytes, why);
    }

    /// A datagram is sent that has these messages.
    pub fn sent(&mut self, now: Now, to: SocketAddrV4, bytes: &[u8], messages: &[SentMessage])
        ensures shown { GoesOn (HappenedWith now.clock Sent to bytes.now (map sent_label messages.now)) self.old.board self.new.board }
        ensures counted { self.new.tally.value ≡ with_handed_out self.old.tally.value }
        ensures logged { Sends self.old.log.value (record { moment = now.time; peer = to }) bytes.now messages.now self.new.log.value }
        ensures captured { Captures self.old.capture.value
            (record { moment = now.time; from = self.old.capture.value.here; to = to; bytes = bytes.now }) self.new.capture.value }
        ensures written { self.new.written ≡ self.old.written }
    {
        self.tally.handed_out();
        self.log.send(now, to, bytes, messages);
        let here = self.capture.here;
        self.capture.pass(now.time, here, to, bytes);
        let alloc = self.log.alloc;
        if let Some(board) = &mut self.board {
            show_sent(alloc, board, now.clock, to, bytes, messages);
        }
    }

    /// The datagram that was sent last has this fate.
    pub fn spoilt(&mut self, now: Now, to: SocketAddrV4, fate: Fate)
        ensures told { Notes self.old.log.value.record now.time to (fate_note fate) self.new.log.value.record }
        ensures quiet { self.new.log.value.quiet ≡ self.old.log.value.quiet }
        ensures log { self.new.log.value ≡ record self.old.log.value { «record» = self.new.log.value.record } }
        ensures tally { self.new.tally ≡ self.old.tally }
        ensures rest { (self.new.capture ≡ self.old.capture) × (self.new.board ≡ self.old.board) × (self.new.written ≡ self.old.written) }
    {
        match note_of(fate) {
            Some(note) => self.log.note(now, to, note),
            None => {}
        }
    }

    /// The datagram that was sent last didn't leave.
    pub fn unsent(&mut self, now: Now, to: SocketAddrV4)
        ensures told { Records self.old.log.value.record (unsent_text now.time to) self.new.log.value.record }
        ensures quiet { self.new.log.value.quiet ≡ self.old.log.value.quiet }
        ensures log { self.new.log.value ≡ record self.old.log.value { «record» = self.new.log.value.record } }
        ensures tally { self.new.tally ≡ self.old.tally }
        ensures rest { (self.new.capture ≡ self.old.capture) × (self.new.board ≡ self.old.board) × (self.new.written ≡ self.old.written) }
    {
        self.log.note(now, to, Note::Unsent);
    }
}
