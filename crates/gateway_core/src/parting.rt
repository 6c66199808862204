//! Messages are parted into what is told of them, and the datagrams that each would have alone.
ghost use Rattle.std.specs.Prelude.{◌≡◌, map, IfOk, OnOk};
ghost use Rattle.gateway_core.specs.Labelling.{told_of};

use crate::sent::SentMessage;
use mg_bytes::OutOfMemory;
use plain_machine::{OutDatagram, OutMessage};
use std::alloc::Global;

/// The datagrams of messages, each of which would have one of its own; what is told of the messages takes the place of what was
/// told before. After an error what is told isn't said.
pub(crate) fn part(
    alloc: Global,
    sent: Vec<OutMessage>,
    told: &mut Vec<SentMessage>,
) -> Result<Vec<OutDatagram>, OutOfMemory>
    ensures datagrams { IfOk result (λ datagrams. datagrams.items ≡ map (λ message. message.datagram) sent.items) }
    ensures told { OnOk result (told.new.items ≡ map told_of sent.items) }
{
    let mut datagrams = Vec::with_capacity(alloc, sent.len())?;
    told.clear();
    for message in sent {
        let OutMessage { datagram, label } = message;
        told.push(SentMessage {
            to: datagram.to,
            moment: datagram.moment,
            label,
            size: datagram.bytes.as_bytes().len(),
        })?;
        datagrams.push(datagram)?;
    }
    Ok(datagrams)
}
