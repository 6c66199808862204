//! How a command that arrives is answered (RFC 3435, 3.5.1): each is executed once, and its repeats get the stored answer.
ghost use Rattle.std.specs.Prelude.{◌≡◌, ◌++◌, ◌∷◌, [], IfOk, OnOk, OnErr};
ghost use Rattle.transmission.specs.Memory.{most_firsts};
ghost use Rattle.transmission.specs.Looking.{looked_in, look_of};
ghost use Rattle.mgcp_text.specs.Answer.{response_of};
ghost use Rattle.mgcp_text.specs.Writing.{written};
ghost use Rattle.small_rules.specs.Rules.{is_executed};
ghost use Rattle.transmission.specs.Transacting.{message_to, is_new, answered_again, with_first};

use crate::history::History;
use crate::look::Look;
use crate::output::OutDatagram;
use crate::sending::send;
use crate::span::IdSpan;
use mg_bytes::{OutOfMemory, Sequence, Text};
use mgcp_text::{AnswerContent, TransactionId};
use small_rules::{Standing, is_executed};
use std::alloc::Global;
use std::net::SocketAddrV4;

/// Where a message came from, and its transaction id.
#[derive(Clone, Copy)]
pub struct Origin {
    pub source: SocketAddrV4,
    pub id: TransactionId,
}

fn copy_of(alloc: Global, text: &[u8]) -> Result<Text, OutOfMemory>
    ensures { IfOk result (λ copy. copy ≡ text.now) }
{
    Ok(Text::of(Vec::from_slice(alloc, text)?))
}

// What a command is, by what the history tells of it.
fn standing_of(look: &Look<'_>) -> Standing
    ensures { is_executed result ≡ is_new (looked_in look.now) }
{
    match look {
        Look::New => Standing::New,
        Look::Repeat(_) => Standing::Repeat,
        Look::Confirmed => Standing::Confirmed,
        Look::Full => Standing::Full,
    }
}

/// Admits a command that arrives now (in ms): whether it is new, and is to be executed. The stored answer of a repeat goes out
/// again; what is confirmed or finds no room gets none (RFC 3435, 3.5.1). After an error the messages are as they were.
pub fn admit(
    alloc: Global,
    history: &History,
    origin: Origin,
    now: u64,
    out: &mut Vec<OutDatagram>,
) -> Result<bool, OutOfMemory>
    ensures told { IfOk result (λ told. told ≡ is_new (look_of most_firsts history.now.kept origin.id now)) }
    ensures sent { OnOk result (out.new.items ≡ out.old.items
        ++ answered_again (look_of most_firsts history.now.kept origin.id now) origin.source now) }
    ensures err { OnErr result (out.new.items ≡ out.old.items) }
{
    let look = history.look(origin.id.number(), now);
    let executed = is_executed(standing_of(&look));
    let Look::Repeat(answer) = look else {
        return Ok(executed);
    };
    let stored = copy_of(alloc, answer.as_bytes())?;
    send(out, origin.source, now, stored)?;
    Ok(executed)
}

/// A new command has its answer now (in ms): what its K names is confirmed, and the answer is kept. Its text is to go to where
/// the command came from (RFC 3435, 3.2.2.1 and 3.5.1). After an error the history is as it was.
pub fn keep_answer(
    alloc: Global,
    history: &mut History,
    origin: Origin,
    now: u64,
    confirms: Sequence<IdSpan>,
    answer: &AnswerContent,
) -> Result<Text, OutOfMemory>
    ensures kept { OnOk result (history.new
        ≡ with_first history.old origin.id now confirms (written (response_of origin.id answer.now))) }
    ensures text { IfOk result (λ text. text ≡ written (response_of origin.id answer.now)) }
    ensures err { OnErr result (history.new ≡ history.old) }
{
    let text = answer.text(alloc, origin.id)?;
    let kept = copy_of(alloc, text.as_bytes())?;
    history.keep(origin.id.number(), now, confirms, kept)?;
    Ok(text)
}

/// A new command is answered now (in ms): its answer is kept, and goes to where it came from. After an error the history and
/// the messages are as they were.
pub fn answer(
    alloc: Global,
    history: &mut History,
    origin: Origin,
    now: u64,
    confirms: Sequence<IdSpan>,
    answer: &AnswerContent,
    out: &mut Vec<OutDatagram>,
) -> Result<(), OutOfMemory>
    ensures kept { OnOk result (history.new
        ≡ with_first history.old origin.id now confirms (written (response_of origin.id answer.now))) }
    ensures sent { OnOk result (out.new.items ≡ out.old.items
        ++ message_to origin.source now (written (response_of origin.id answer.now)) ∷ []) }
    ensures err { OnErr result (history.new ≡ history.old) }
    ensures unsent { OnErr result (out.new.items ≡ out.old.items) }
{
    // What can fail comes first: there is room for the answer before it is kept.
    out.reserve(1)?;
    let to = origin.source;
    let text = keep_answer(alloc, history, origin, now, confirms, answer)?;
    out.push_reserved(OutDatagram {
        to,
        moment: now,
        bytes: text,
    });
    Ok(())
}
