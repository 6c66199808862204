//! What the page is told of messages: of the texts that came, of what is sent, and of what is given up.
ghost use Rattle.std.specs.Prelude.{◌≡◌, map, IfOk};
ghost use Rattle.told_messages.specs.Labelling.{label_of_text, command_label as label_of_command, text_label as label_of};
ghost use Rattle.told_messages.specs.Labelling.{line_of as whose_line, kind_of as sent_kind, code_of as sent_code};
ghost use Rattle.told_messages.specs.Labelling.{sent_label as label_of_sent, given_up_label as label_of_given_up};

use gateway_core::{GivenUpCommand, Reply, SentMessage, TextOutcome, What, Whose};
use mg_bytes::OutOfMemory;
use mgcp_text::TransactionId;
use page_state::{MessageKind, MessageLabel};
use std::alloc::Global;

// A text that came, with the return code of the answer that it gets, if it gets one.
fn came(kind: MessageKind, id: Option<u64>, code: Option<u64>) -> MessageLabel
    ensures { result ≡ label_of_text kind id code }
{
    MessageLabel {
        kind,
        line: None,
        id,
        code,
        send: None,
    }
}

fn command_label(id: TransactionId, reply: Reply) -> MessageLabel
    ensures { result ≡ label_of_command id reply }
{
    let id = Some(u64::from(id.number()));
    match reply {
        Reply::First { code, .. } => came(MessageKind::New, id, Some(u64::from(code))),
        Reply::Again { code } => came(MessageKind::Repeat, id, Some(u64::from(code))),
        Reply::Silence => came(MessageKind::Confirmed, id, None),
        Reply::NoRoom => came(MessageKind::Lost, id, None),
    }
}

fn text_label(outcome: TextOutcome) -> MessageLabel
    ensures { result ≡ label_of outcome }
{
    match outcome {
        TextOutcome::NoMessage => came(MessageKind::Unreadable, None, None),
        TextOutcome::Command { id, reply, .. } => command_label(id, reply),
        TextOutcome::Response { id, .. } => {
            let id = u64::from(id.number());
            came(MessageKind::Response, Some(id), None)
        }
    }
}

fn line_of(whose: Whose) -> Option<u64>
    ensures { result ≡ whose_line whose }
{
    match whose {
        Whose::AnswerOf(Some(line)) => Some(u64::from(line)),
        Whose::OwnOf(line) => Some(u64::from(line)),
        Whose::AnswerOf(None) | Whose::Nobody => None,
    }
}

fn kind_of(what: What) -> MessageKind
    ensures { result ≡ sent_kind what }
{
    match what {
        What::Answer { .. } => MessageKind::Answer,
        What::Again { .. } => MessageKind::Again,
        What::Command { .. } => MessageKind::Command,
        What::Resent { .. } => MessageKind::Resent,
        What::Acknowledgement => MessageKind::Acknowledgement,
    }
}

fn code_of(what: What) -> Option<u64>
    ensures { result ≡ sent_code what }
{
    match what {
        What::Answer { code } | What::Again { code } => Some(u64::from(code)),
        What::Command { .. } | What::Resent { .. } | What::Acknowledgement => None,
    }
}

fn sent_label(message: SentMessage) -> MessageLabel
    ensures { result ≡ label_of_sent message }
{
    let label = message.label;
    MessageLabel {
        kind: kind_of(label.what),
        line: line_of(label.whose),
        id: Some(u64::from(label.id.number())),
        code: code_of(label.what),
        send: Some(u64::from(label.what.send())),
    }
}

fn given_up_label(given_up: GivenUpCommand) -> MessageLabel
    ensures { result ≡ label_of_given_up given_up }
{
    MessageLabel {
        kind: MessageKind::GivenUp,
        line: Some(u64::from(given_up.line)),
        id: Some(u64::from(given_up.id.number())),
        code: None,
        send: None,
    }
}

/// What each text was that came.
pub(crate) fn text_labels(
    alloc: Global,
    outcomes: &[TextOutcome],
) -> Result<Vec<MessageLabel>, OutOfMemory>
    ensures { IfOk result (λ labels. labels.items ≡ map label_of outcomes.now) }
{
    let mut labels = Vec::new(alloc);
    for outcome in outcomes {
        labels.push(text_label(*outcome))?;
    }
    Ok(labels)
}

/// What each message is that is sent.
pub(crate) fn sent_labels(
    alloc: Global,
    messages: &[SentMessage],
) -> Result<Vec<MessageLabel>, OutOfMemory>
    ensures { IfOk result (λ labels. labels.items ≡ map label_of_sent messages.now) }
{
    let mut labels = Vec::new(alloc);
    for message in messages {
        labels.push(sent_label(*message))?;
    }
    Ok(labels)
}

/// What each command is that is given up.
pub(crate) fn given_up_labels(
    alloc: Global,
    given_up: &[GivenUpCommand],
) -> Result<Vec<MessageLabel>, OutOfMemory>
    ensures { IfOk result (λ labels. labels.items ≡ map label_of_given_up given_up.now) }
{
    let mut labels = Vec::new(alloc);
    for command in given_up {
        labels.push(given_up_label(*command))?;
    }
    Ok(labels)
}
