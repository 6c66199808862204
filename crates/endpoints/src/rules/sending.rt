//! Messages go out with their labels.
ghost use Rattle.std.specs.Prelude.{◌≡◌, ◌+◌, ◌++◌, ◌∷◌, [], OnOk, OnErr};
ghost use Rattle.plain_machine.specs.declared.label.Whose.TheVariants.{OwnOf};
ghost use Rattle.plain_machine.specs.declared.label.What.TheVariants.{Command, Resent};
ghost use Rattle.plain_machine.specs.Labelling.{verb_of, id_of, own_verb};

use mg_bytes::{OutOfMemory, Text};
use mgcp_text::{Message, Verb};
use plain_machine::{Label, OutDatagram, OutMessage, What, Whose, own_verb};
use retransmission::Pending;
use std::net::SocketAddrV4;

/// A text goes to this address at this moment (in ms) with its label, behind the messages that there are. After an error these
/// are as they were.
pub fn send(
    out: &mut Vec<OutMessage>,
    to: SocketAddrV4,
    moment: u64,
    text: Text,
    label: Label,
) -> Result<(), OutOfMemory>
    ensures ok { OnOk result (out.new.items ≡ out.old.items
        ++ (record { datagram = record { to = to; moment = moment; bytes = text }; label = label }) ∷ []) }
    ensures err { OnErr result (out.new.items ≡ out.old.items) }
{
    let datagram = OutDatagram {
        to,
        moment,
        bytes: text,
    };
    out.push(OutMessage { datagram, label })?;
    Ok(())
}

/// The label of a command of this line's own at its first send; the gateway itself is line 0.
pub(crate) fn begun_label(line: u16, said: &Message<'_>) -> Label
    ensures { result ≡ record { whose = OwnOf line; what = Command (verb_of said.now); id = id_of said.now } }
{
    let whose = Whose::OwnOf(line);
    match said {
        Message::Command { verb, id, .. } => Label {
            whose,
            what: What::Command { verb: *verb },
            id: *id,
        },
        Message::Response { id, .. } => Label {
            whose,
            what: What::Command { verb: Verb::Other },
            id: *id,
        },
    }
}

/// The label of this line's command in flight where it is sent once more.
pub(crate) fn again_label(line: u16, message: &Pending) -> Label
    ensures { result ≡ record {
      whose = OwnOf line;
      what = Resent (own_verb message.now.text) (message.now.repeats + 2);
      id = message.now.id;
    } }
{
    Label {
        whose: Whose::OwnOf(line),
        what: What::Resent {
            verb: own_verb(message.text()),
            send: u16::from(message.repeats()) + 2,
        },
        id: message.id(),
    }
}
