//! What is sent, as the log says it: a line a message, by its label.
ghost use Rattle.std.specs.Prelude.{◌≡◌, ◌++◌, OnOk};
ghost use Rattle.gateway_core.specs.Outgoing.{texts_within};
ghost use Rattle.told_messages.specs.Logging.{Sends};
ghost use Rattle.told_messages.specs.Sending.{own_line, begun_by, sent_text, datagram_text, last_with, last_behind};

use crate::log::{LastCommands, Log, OwnCommand, ms_between};
use gateway_core::{Label, SentMessage, What, Whose, split_text};
use log_format::{Note, Stamp, Way, put_message, put_note};
use mg_bytes::{OutOfMemory, Text};
use output_queues::Now;
use std::alloc::Global;
use std::net::SocketAddrV4;

// The line whose own command a message is; the gateway itself is line 0.
fn own_line(whose: Whose) -> Option<u16>
    ensures { result ≡ own_line whose }
{
    match whose {
        Whose::OwnOf(line) => Some(line),
        Whose::AnswerOf(_) | Whose::Nobody => None,
    }
}

// The line whose own command is sent for the first time, where a message with this label is one.
fn begun_by(label: &Label) -> Option<u16>
    ensures { result ≡ begun_by label.now.whose label.now.what }
{
    match label.what {
        What::Command { .. } => own_line(label.whose),
        What::Answer { .. } | What::Again { .. } | What::Resent { .. } | What::Acknowledgement =>
            None,
    }
}

// Puts what is said of a message that is sent, by its label: its text, and how long an answer took since a datagram came last; or that
// it was sent before.
#[tactic(auto, unfolding(crate::specs::Sending::sent_text))]
fn put_sent(
    alloc: Global,
    out: &mut Vec<u8>,
    domain: &[u8],
    came: u64,
    to: Stamp,
    label: &Label,
    text: &[u8],
) -> Result<(), OutOfMemory>
    ensures { OnOk result (out.new.items ≡ out.old.items ++ sent_text domain.now came to text.now label.now) }
{
    let id = label.id;
    match label.what {
        What::Answer { .. } => {
            let waited = ms_between(came, to.moment);
            put_message(alloc, out, domain, to, Way::Sent, text, Some(waited))
        }
        What::Again { .. } => put_note(alloc, out, to, Note::AnsweredAgain(id)),
        What::Command { .. } | What::Acknowledgement => {
            put_message(alloc, out, domain, to, Way::Sent, text, None)
        }
        What::Resent { .. } => put_note(alloc, out, to, Note::SentAgain(id)),
    }
}

// A command of the gateway's own that is sent for the first time is what its line sent last from then on.
#[tactic(auto, unfolding(crate::specs::Sending::last_with))]
fn keep_command(
    alloc: Global,
    own: &mut LastCommands,
    to: Stamp,
    label: &Label,
    text: &[u8],
) -> Result<(), OutOfMemory>
    ensures { OnOk result (own.new.entries ≡ last_with to text.now label.now own.old.entries) }
{
    let Some(line) = begun_by(label) else {
        return Ok(());
    };
    let command = OwnCommand {
        id: label.id,
        first: to,
        text: Text::of(Vec::from_slice(alloc, text)?),
    };
    let _ = own.insert(line, command)?;
    Ok(())
}

impl Log {
    // Puts what is said of a message that is sent, and keeps it where it is a command of the gateway's own for the first time.
    fn put_message_sent(&mut self, to: Stamp, label: &Label, text: &[u8]) -> Result<(), OutOfMemory>
        ensures out { OnOk result (self.new.record.out.items
            ≡ self.old.record.out.items ++ sent_text self.old.domain self.old.came.moment to text.now label.now) }
        ensures own { OnOk result (self.new.own.entries ≡ last_with to text.now label.now self.old.own.entries) }
        ensures rest { self.new ≡ record self.old {
          «record» = record self.old.record { out = self.new.record.out };
          own = self.new.own;
        } }
    {
        put_sent(
            self.alloc,
            &mut self.record.out,
            self.domain.as_bytes(),
            self.came.moment,
            to,
            label,
            text,
        )?;
        keep_command(self.alloc, &mut self.own, to, label, text)
    }

    // The same of each message of a datagram.
    #[tactic(auto, unfolding(crate::specs::Sending::datagram_text, crate::specs::Sending::last_behind, gateway_core::specs::Outgoing::texts_within))]
    fn put_datagram_sent(
        &mut self,
        to: Stamp,
        bytes: &[u8],
        messages: &[SentMessage],
    ) -> Result<(), OutOfMemory>
        ensures out { OnOk result (self.new.record.out.items ≡ self.old.record.out.items
            ++ datagram_text self.old.domain self.old.came.moment to (texts_within bytes.now messages.now) messages.now) }
        ensures own { OnOk result (self.new.own.entries
            ≡ last_behind to (texts_within bytes.now messages.now) messages.now self.old.own.entries) }
        ensures rest { self.new ≡ record self.old {
          «record» = record self.old.record { out = self.new.record.out };
          own = self.new.own;
        } }
    {
        let mut rest = bytes;
        let mut left = messages;
        while let [message, others @ ..] = left {
            let (text, behind) = split_text(rest, message);
            self.put_message_sent(to, &message.label, text)?;
            rest = behind;
            left = others;
        }
        Ok(())
    }

    /// A datagram is sent that has these messages.
    #[tactic(auto, using(crate::proofs::RecordLemmas::putting))]
    pub fn send(&mut self, now: Now, to: SocketAddrV4, bytes: &[u8], messages: &[SentMessage])
        ensures { Sends self.old (record { moment = now.time; peer = to }) bytes.now messages.now self.new }
    {
        if !self.record.is_on() {
            return;
        }
        let to = Stamp {
            moment: now.time,
            peer: to,
        };
        self.sent = now.time;
        match self.put_datagram_sent(to, bytes, messages) {
            Ok(()) => {}
            Err(_) => self.record.refuse(),
        }
    }
}
