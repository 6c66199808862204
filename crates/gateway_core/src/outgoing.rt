//! Where the messages of an event stand in its datagrams: how many bytes each has tells it, and no datagram is read again.
ghost use Rattle.std.specs.Prelude.{◌≡◌, ◌+◌, ◌<◌, ◌≤◌, ◌^◌, length, take, drop};
ghost use Rattle.gateway_core.specs.Outgoing.{dot_line, room_behind, count_within, own_messages, other_messages};

use crate::sent::SentMessage;
use plain_machine::OutDatagram;

// How many bytes the line has that parts two messages of a datagram (RFC 3435, 3.5.5).
const DOT_LINE: usize = 3;

// What is left of so much room behind a message and a dot line, if it has room for both.
fn room_behind(room: usize, message: &SentMessage) -> Option<usize>
    ensures { result ≡ room_behind room message.now }
{
    room.checked_sub(message.size)?.checked_sub(DOT_LINE)
}

// How many of these messages stand in a datagram of so many bytes.
#[tactic(auto, unfolding(crate::specs::Outgoing::count_within))]
fn count_own(bytes: usize, sent: &[SentMessage]) -> usize
    requires { bytes < 2 ^ 63 }
    ensures count { result ≡ count_within (bytes + dot_line) sent.now }
    ensures most { result ≤ length sent.now }
{
    let mut room = bytes + DOT_LINE;
    let mut count: usize = 0;
    let mut left = sent;
    while let [message, behind @ ..] = left {
        let Some(rest) = room_behind(room, message) else {
            return count;
        };
        room = rest;
        count += 1;
        left = behind;
    }
    count
}

/// Of messages that go out in this order, those that stand in the datagram that goes out next, and those behind it (RFC 3435, 3.5.5). This
/// takes no memory.
pub fn split_sent<'a>(
    datagram: &OutDatagram,
    sent: &'a [SentMessage],
) -> (&'a [SentMessage], &'a [SentMessage])
    ensures own { result.0.now ≡ own_messages datagram.now sent.now }
    ensures others { result.1.now ≡ other_messages datagram.now sent.now }
{
    sent.split_at(count_own(datagram.bytes.as_bytes().len(), sent))
}

/// Of what is left of a datagram, the text of the message that stands next there, and what stands behind it and the dot line. This takes
/// no memory.
pub fn split_text<'a>(bytes: &'a [u8], message: &SentMessage) -> (&'a [u8], &'a [u8])
    ensures text { result.0.now ≡ take message.now.size bytes.now }
    ensures others { result.1.now ≡ drop (message.now.size + dot_line) bytes.now }
{
    let (text, behind) = bytes.split_at(message.size.min(bytes.len()));
    (text, behind.split_at(DOT_LINE.min(behind.len())).1)
}
