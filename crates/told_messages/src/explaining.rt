//! What commands got that weren't done, as the log says it: why one was refused, and that a repeat isn't answered.
ghost use Rattle.std.specs.Prelude.{◌≡◌, ◌++◌, OnOk};
ghost use Rattle.std.specs.List.{flat_map};
ghost use Rattle.told_messages.specs.Explaining.{refused_text, reason_text};
ghost use Rattle.told_messages.specs.Logging.{explained_at};
ghost use Rattle.told_messages.specs.Recording.{Records};

use crate::log::Log;
use command_forms::{FaultyPart, Refused, explain};
use gateway_core::{Reply, TextOutcome};
use log_format::{Note, Stamp, put_note, put_refused};
use mg_bytes::OutOfMemory;
use mgcp_text::TransactionId;
use std::alloc::Global;
use transmission::MOST_FIRSTS;

// The least return code that refuses a command (RFC 3435, 2.4).
const LEAST_REFUSAL: u16 = 400;

// A command that comes before the gateway serves is refused for that, whatever it asks for (RFC 3435, 2.4).
const NOT_READY: u16 = 405;

// A new command is lost where so many are remembered (this gateway's profile).
const NO_ROOM: Note = Note::NoRoom {
    young: MOST_FIRSTS as u64,
};

// Notes why a command was refused with this code: by what of it is at fault, or by the code alone.
fn put_refusal(
    alloc: Global,
    out: &mut Vec<u8>,
    stamp: Stamp,
    id: TransactionId,
    code: u16,
    fault: Option<FaultyPart>,
) -> Result<(), OutOfMemory>
    ensures { OnOk result (out.new.items ≡ out.old.items ++ refused_text stamp id code fault) }
{
    match fault {
        Some(at) if code != NOT_READY => {
            let why = explain(alloc, &Refused { code, at })?;
            put_refused(alloc, out, stamp, id, why.as_bytes())
        }
        Some(_) | None => put_note(alloc, out, stamp, Note::Refused { id, code }),
    }
}

// Notes what a text got, where that was no answer, or a refusal for the first time.
#[tactic(auto, unfolding(crate::specs::Explaining::reason_text))]
fn put_reason(
    alloc: Global,
    out: &mut Vec<u8>,
    stamp: Stamp,
    outcome: &TextOutcome,
) -> Result<(), OutOfMemory>
    ensures { OnOk result (out.new.items ≡ out.old.items ++ reason_text stamp outcome.now) }
{
    let TextOutcome::Command { id, reply, .. } = outcome else {
        return Ok(());
    };
    match reply {
        Reply::First { code, fault } if *code >= LEAST_REFUSAL => {
            put_refusal(alloc, out, stamp, *id, *code, *fault)
        }
        Reply::Silence => put_note(alloc, out, stamp, Note::Unanswered(*id)),
        Reply::NoRoom => put_note(alloc, out, stamp, NO_ROOM),
        Reply::First { .. } | Reply::Again { .. } => Ok(()),
    }
}

// Notes what each text got.
fn put_reasons(
    alloc: Global,
    out: &mut Vec<u8>,
    stamp: Stamp,
    outcomes: &[TextOutcome],
) -> Result<(), OutOfMemory>
    ensures { OnOk result (out.new.items ≡ out.old.items ++ flat_map (reason_text stamp) outcomes.now) }
{
    for outcome in outcomes {
        put_reason(alloc, out, stamp, outcome)?;
    }
    Ok(())
}

impl Log {
    /// The gateway took the datagram that came last, of whose texts these came, and what it sent at it was handed out: why commands of it
    /// were refused or lost is told, if any was, and which repeats aren't answered.
    #[tactic(auto, using(crate::proofs::RecordLemmas::putting))]
    pub fn explain(&mut self, outcomes: &[TextOutcome])
        ensures told { Records self.old.record (flat_map (reason_text (explained_at self.old)) outcomes.now) self.new.record }
        ensures rest { self.new ≡ record self.old { «record» = self.new.record } }
    {
        if !self.record.is_on() {
            return;
        }
        // It stands behind what was sent, and so at no moment before that.
        let stamp = Stamp {
            moment: self.sent.max(self.came.moment),
            peer: self.came.peer,
        };
        match put_reasons(self.alloc, &mut self.record.out, stamp, outcomes) {
            Ok(()) => {}
            Err(_) => self.record.refuse(),
        }
    }
}
