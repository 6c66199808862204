//! The labels of answers, and of what is sent as a text is heard.
ghost use Rattle.std.specs.Prelude.{◌≡◌, ◌++◌, OnOk};
ghost use Rattle.transmission.specs.Hearing.{outcome_in};
ghost use Rattle.plain_machine.specs.Answering.{line_of_name};
ghost use Rattle.gateway_core.specs.Hearing.{again_label, first_label, reply_label, faulty_label, heard_label, labelled};

use crate::outcome::{Reply, TextOutcome};
use endpoint_names::{Pattern, read_name};
use mg_bytes::OutOfMemory;
use mgcp_text::{Message, TextFault, TransactionId};
use plain_machine::{Label, OutDatagram, OutMessage, Setup, What, Whose, front_code};

/// The line that the name of a command reads as, if it does.
pub(crate) fn line_of_name(setup: &Setup, name: &[u8]) -> Option<u16>
    ensures { result ≡ line_of_name setup.now name.now }
{
    match read_name(name, setup.names.domain.as_bytes(), setup.names.lines) {
        Ok(Pattern::One(line)) => Some(line),
        Ok(Pattern::All) => None,
        Ok(Pattern::Any) => None,
        Err(_) => None,
    }
}

/// The label of the answer with this return code to a new command whose name reads as this line, or as none.
pub(crate) fn first_label(line: Option<u16>, id: TransactionId, code: u16) -> Label
    ensures { result ≡ first_label line id code }
{
    Label {
        whose: Whose::AnswerOf(line),
        what: What::Answer { code },
        id,
    }
}

// The label of a stored answer that goes out once more.
fn again_label(line: Option<u16>, id: TransactionId, answer: &[u8]) -> Label
    ensures { result ≡ again_label line id answer.now }
{
    Label {
        whose: Whose::AnswerOf(line),
        what: What::Again {
            code: front_code(answer),
        },
        id,
    }
}

// The label of the answer to a command that can't be read past its id, by what that gets.
fn reply_label(reply: Reply, id: TransactionId, answer: &[u8]) -> Label
    ensures { result ≡ reply_label reply id answer.now }
{
    match reply {
        Reply::First { code, .. } => first_label(None, id, code),
        Reply::Again { .. } | Reply::Silence | Reply::NoRoom => again_label(None, id, answer),
    }
}

fn faulty_label(passed: &TextOutcome, id: TransactionId, answer: &[u8]) -> Label
    ensures { result ≡ faulty_label passed.now id answer.now }
{
    match passed {
        TextOutcome::Command { reply, .. } => reply_label(*reply, id, answer),
        TextOutcome::NoMessage | TextOutcome::Response { .. } => again_label(None, id, answer),
    }
}

// The label of this text, which is sent as a text is heard that was read so, and that was passed over as this.
fn heard_label(
    setup: &Setup,
    read: &Result<Message<'_>, TextFault>,
    passed: &TextOutcome,
    sent: &[u8],
) -> Option<Label>
    ensures { result ≡ heard_label setup.now (outcome_in read.now) passed.now sent.now }
{
    match read {
        Err(TextFault::OutOfMemory) => None,
        Err(TextFault::NoHeader) => None,
        Err(TextFault::BadVersion { id }) => Some(faulty_label(passed, *id, sent)),
        Err(TextFault::BadBody { id }) => Some(faulty_label(passed, *id, sent)),
        Ok(Message::Command { id, name, .. }) => Some(again_label(
            line_of_name(setup, name.as_slice()),
            *id,
            sent,
        )),
        Ok(Message::Response { id, .. }) => Some(Label {
            whose: Whose::Nobody,
            what: What::Acknowledgement,
            id: *id,
        }),
    }
}

/// What was sent as a text was heard goes out with its label, behind the messages that there are: no more than one message is.
pub(crate) fn send_heard(
    setup: &Setup,
    read: &Result<Message<'_>, TextFault>,
    passed: &TextOutcome,
    heard: Vec<OutDatagram>,
    out: &mut Vec<OutMessage>,
) -> Result<(), OutOfMemory>
    ensures { OnOk result (out.new.items
        ≡ out.old.items ++ labelled (heard_label setup.now (outcome_in read.now) passed.now) heard.items) }
{
    let mut heard = heard.into_iter();
    let Some(datagram) = heard.next() else {
        return Ok(());
    };
    let Some(label) = heard_label(setup, read, passed, datagram.bytes.as_bytes()) else {
        return Ok(());
    };
    out.push(OutMessage { datagram, label })?;
    Ok(())
}
