//! What a text was that came in a datagram, before anything is left to the gateway.
ghost use Rattle.std.specs.Prelude.{◌≡◌, None};
ghost use Rattle.transmission.specs.Memory.{most_firsts};
ghost use Rattle.transmission.specs.Looking.{look_of};
ghost use Rattle.transmission.specs.Hearing.{outcome_in};
ghost use Rattle.gateway_core.specs.Outcomes.{reply_by};
ghost use Rattle.gateway_core.specs.Hearing.{passed_over};

use crate::outcome::{Reply, TextOutcome};
use mg_bytes::ReturnCode;
use mgcp_text::{Message, TextFault, TransactionId};
use plain_machine::front_code;
use transmission::{History, Look};

// What a command with this id gets that comes now: an answer with this code, if it is new; nothing of it is told to be at fault.
fn reply_by(history: &History, now: u64, id: TransactionId, code: u16) -> Reply
    ensures { result ≡ reply_by (look_of most_firsts history.now.kept id now) code None }
{
    match history.look(id.number(), now) {
        Look::New => Reply::First { code, fault: None },
        Look::Repeat(answer) => Reply::Again {
            code: front_code(answer.as_bytes()),
        },
        Look::Confirmed => Reply::Silence,
        Look::Full => Reply::NoRoom,
    }
}

/// What a text is that comes now, where nothing of it will be left to the gateway. Of a new command that can be read the code
/// isn't known yet.
pub(crate) fn passed_over(
    history: &History,
    now: u64,
    read: &Result<Message<'_>, TextFault>,
) -> TextOutcome
    ensures { result ≡ passed_over history.now.kept now (outcome_in read.now) }
{
    match read {
        Err(TextFault::OutOfMemory) => TextOutcome::NoMessage,
        Err(TextFault::NoHeader) => TextOutcome::NoMessage,
        Err(TextFault::BadVersion { id }) => TextOutcome::Command {
            verb: None,
            id: *id,
            reply: reply_by(history, now, *id, ReturnCode::IncompatibleVersion.number()),
        },
        Err(TextFault::BadBody { id }) => TextOutcome::Command {
            verb: None,
            id: *id,
            reply: reply_by(history, now, *id, ReturnCode::ProtocolError.number()),
        },
        Ok(Message::Command { verb, id, .. }) => TextOutcome::Command {
            verb: Some(*verb),
            id: *id,
            reply: reply_by(history, now, *id, 0),
        },
        Ok(Message::Response { .. }) => TextOutcome::NoMessage,
    }
}
