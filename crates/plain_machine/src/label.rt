//! What a gateway sends, with whose it is and what.
ghost use Rattle.std.specs.Prelude.{◌≡◌};
ghost use Rattle.plain_machine.specs.Labelling.{send_of, own_verb, front_code};

use mg_bytes::decimal;
use mgcp_text::{TransactionId, Verb};
use transmission::OutDatagram;

/// Whose a message is that is sent.
#[derive(Clone, Copy)]
pub enum Whose {
    /// An answer to a command whose name reads as this line, from 1, or as none.
    AnswerOf(Option<u16>),
    /// A command of this line's own; of the gateway itself, which is line 0.
    OwnOf(u16),
    /// It belongs to no line.
    Nobody,
}

/// What a message is that is sent.
#[derive(Clone, Copy)]
pub enum What {
    /// The answer to a command, for the first time, with this return code (RFC 3435, 2.4).
    Answer { code: u16 },
    /// The stored answer once more, which has this return code (RFC 3435, 3.5.1).
    Again { code: u16 },
    /// A command of the gateway's own, for the first time.
    Command { verb: Verb },
    /// A command of its own, once more: it is this send of it, from the second on (RFC 3435, 3.5.3).
    Resent { verb: Verb, send: u16 },
    /// The acknowledgement of a response (RFC 3435, 3.5.6).
    Acknowledgement,
}

/// What is told of a message that is sent: whose it is, what, and its transaction id.
#[derive(Clone, Copy)]
pub struct Label {
    pub whose: Whose,
    pub what: What,
    pub id: TransactionId,
}

/// A message that is to be sent, in a datagram of its own, with its label.
#[derive(Drop)]
pub struct OutMessage {
    pub datagram: OutDatagram,
    pub label: Label,
}

impl What {
    /// Which send of the message it is: 1, but for a command that is sent once more.
    pub fn send(self) -> u16
        ensures { result ≡ send_of self }
    {
        match self {
            What::Resent { send, .. } => send,
            What::Answer { .. }
            | What::Again { .. }
            | What::Command { .. }
            | What::Acknowledgement => 1,
        }
    }
}

/// The verb of a command of the gateway's own with this text: an announcement and a notification, which are all that it
/// sends, differ in their first letters (RFC 3435, 2.3.4 and 2.3.12).
pub fn own_verb(text: &[u8]) -> Verb
    ensures { result ≡ own_verb text.now }
{
    match text {
        [b'R', ..] => Verb::Rsip,
        _ => Verb::Ntfy,
    }
}

/// The return code at the front of an answer; 0 where none stands there (RFC 3435, 3.3).
pub fn front_code(answer: &[u8]) -> u16
    ensures { result ≡ front_code answer.now }
{
    if answer.len() < 3 {
        return 0;
    }
    match decimal(&answer[..3]) {
        Some(code) => code as u16,
        None => 0,
    }
}
