//! Commands that were issued: which message is one, and the answers to them (RFC 3435, 3.2.1 and 3.5).
ghost use Rattle.std.specs.Prelude.{◌≡◌, option_copied};
ghost use Rattle.mgcp_text.specs.Reading.{message};
ghost use Rattle.retransmission.specs.Issued.{is_command_as, answered_with};

use mg_bytes::Text;
use mgcp_text::{Message, TransactionId};
use small_rules::{is_answered, is_command_issued};

/// The answer to a command that was issued.
#[derive(Drop)]
pub struct Answer {
    /// Its return code.
    pub code: u16,
    /// Its whole text.
    pub text: Text,
}

/// The answer to the command with this id.
#[derive(Drop)]
pub struct Answered {
    pub id: u32,
    pub answer: Answer,
}

/// Whether a message is a command with this id and this name.
pub fn is_command_with(id: TransactionId, name: &[u8], said: &Message<'_>) -> bool
    ensures { result ≡ is_command_as id name.now (message said.now) }
{
    match said {
        Message::Command {
            id: other,
            name: of,
            ..
        } => is_command_issued(other.number(), id.number(), of.as_slice() == name),
        Message::Response { .. } => false,
    }
}

/// The answer to the command with this id, once there is one. It takes no memory.
pub fn answer_with(answers: &[Answered], id: u32) -> Option<&Answer>
    ensures { option_copied result ≡ answered_with id answers.now }
{
    let one = answers.iter().find(|one| is_answered(one.id, id))?;
    Some(&one.answer)
}
