//! The datagrams that messages go out in.
ghost use Rattle.std.specs.Prelude.{◌≡◌, IfOk};
ghost use Rattle.mgcp_text.specs.Packing.{has_room, with_text};
ghost use Rattle.transmission.specs.Texts.{largest_datagram};
ghost use Rattle.transmission.specs.Packing.{same_address, joins, joined, packed};

use crate::LARGEST_DATAGRAM;
use crate::output::{OutDatagram, Outputs};
use mg_bytes::{OutOfMemory, Sequence, Text};
use small_rules::share_a_datagram;
use std::alloc::Global;
use std::mem;
use std::net::SocketAddrV4;

// The line that parts the messages of a datagram (RFC 3435, 3.5.5).
const DOT_LINE: &[u8] = b".\r\n";

/// Whether two addresses are the same.
pub fn same_address(a: SocketAddrV4, b: SocketAddrV4) -> bool
    ensures { result ≡ same_address a b }
{
    a.ip().octets() == b.ip().octets() && a.port() == b.port()
}

fn has_room(begun: &[u8], text: &[u8]) -> bool
    ensures { result ≡ has_room largest_datagram begun.now text.now }
{
    let room = LARGEST_DATAGRAM.saturating_sub(begun.len());
    room >= 3 && text.len() <= room - 3
}

fn joins(begun: &OutDatagram, next: &OutDatagram) -> bool
    ensures { result ≡ joins begun.now next.now }
{
    share_a_datagram(
        same_address(begun.to, next.to),
        begun.moment,
        next.moment,
        has_room(begun.bytes.as_bytes(), next.bytes.as_bytes()),
    )
}

fn joined(begun: OutDatagram, next: &OutDatagram) -> Result<OutDatagram, OutOfMemory>
    ensures { IfOk result (λ datagram. datagram ≡ joined begun next.now) }
{
    let OutDatagram { to, moment, bytes } = begun;
    let mut bytes = bytes.into_bytes();
    bytes.extend_from_slice(DOT_LINE)?;
    bytes.extend_from_slice(next.bytes.as_bytes())?;
    Ok(OutDatagram {
        to,
        moment,
        bytes: Text::of(bytes),
    })
}

/// The datagrams of these messages, each of which would have one of its own: successive ones to one address at one moment
/// are joined while they fit.
#[tactic(auto, unfolding(crate::specs::Packing::packed_after))]
pub fn packed(alloc: Global, sent: Vec<OutDatagram>) -> Result<Outputs, OutOfMemory>
    ensures { IfOk result (λ outputs. outputs ≡ packed sent.items) }
{
    let mut outputs = Vec::new(alloc);
    let mut rest = sent.into_iter();
    let Some(mut begun) = rest.next() else {
        return Ok(Sequence::of(outputs));
    };
    for next in rest {
        if joins(&begun, &next) {
            begun = joined(begun, &next)?;
        } else {
            outputs.push(mem::replace(&mut begun, next))?;
        }
    }
    outputs.push(begun)?;
    Ok(Sequence::of(outputs))
}
