//! A datagram taken apart into texts, and texts joined into datagrams.
ghost use Rattle.std.specs.Prelude.{◌≡◌, ◌≤◌, ◌+◌, [], length, All, IsTrue, IsOk, IfOk, OnOk};
ghost use Rattle.std.specs.List.{list_all, flat_map};
ghost use Rattle.mgcp_text.specs.Parts.{parts_of, IsPartedInto};
ghost use Rattle.mgcp_text.specs.Packing.{with_text, has_room, packed, ends_in_line_feed, is_joinable};

use crate::part::Parts;
use mg_bytes::{OutOfMemory, Text, has_dot_line};
use std::alloc::Global;

// The line of a single dot, as it is written.
const DOT_LINE: &[u8] = b".\r\n";

/// The parts of a datagram: the texts between its lines that are a single dot, each with its bytes as they stood
/// (RFC 3435, 3.5.5). This takes no memory.
pub fn parts(datagram: &[u8]) -> Parts<'_>
    ensures value { result ≡ parts_of datagram.now }
    ensures parted { IsPartedInto datagram.now result }
    ensures few { length result ≤ length datagram.now + 1 }
{
    Parts {
        rest: Some(datagram),
    }
}

fn ends_in_line_feed(text: &[u8]) -> bool
    ensures { result ≡ ends_in_line_feed text.now }
{
    matches!(text, [.., b'\n'])
}

/// Whether a text can be joined with others into datagrams of at most `max` bytes: it ends in a line end, no line of
/// it is a single dot, and it is at most `max` bytes long (RFC 3435, 3.5.5).
pub fn is_joinable(text: &[u8], max: usize) -> bool
    ensures { result ≡ is_joinable max text.now }
{
    ends_in_line_feed(text) && !has_dot_line(text) && text.len() <= max
}

fn has_room(begun: &[u8], text: &[u8], max: usize) -> bool
    ensures { result ≡ has_room max begun.now text.now }
{
    let room = max.saturating_sub(begun.len());
    room >= DOT_LINE.len() && text.len() <= room - DOT_LINE.len()
}

fn put_behind(begun: &mut Vec<u8>, text: &[u8]) -> Result<(), OutOfMemory>
    ensures { OnOk result (begun.new.items ≡ with_text begun.old.items text.now) }
{
    begun.extend_from_slice(DOT_LINE)?;
    begun.extend_from_slice(text)
}

/// The datagrams that these texts go out in, each at most `max` bytes long: in order, successive ones joined by a line
/// of a single dot while the datagram stays within `max` (RFC 3435, 3.5.5). A new datagram begins only where the next
/// text would make it longer. After an error nothing is left of what was joined so far; the texts are as they were.
#[tactic(auto, unfolding(crate::specs::Packing::packed_behind))]
pub fn join(alloc: Global, texts: &[Text], max: usize) -> Result<Vec<Text>, OutOfMemory>
    requires { IsTrue (list_all (is_joinable max) texts.now) }
    ensures value { IfOk result (λ datagrams. datagrams.items ≡ packed max texts.now) }
    // The parts of the datagrams are the texts.
    ensures parts { IfOk result (λ datagrams. flat_map parts_of datagrams.items ≡ texts.now) }
    ensures within { IfOk result (λ datagrams. All (λ datagram. length datagram ≤ max) datagrams.items) }
    // Where there are no texts, no memory is taken.
    ensures free { texts.now ≡ [] → IsOk result }
{
    let mut datagrams = Vec::new(alloc);
    let [first, rest @ ..] = texts else {
        return Ok(datagrams);
    };
    let mut begun = Vec::from_slice(alloc, first.as_bytes())?;
    for text in rest {
        let text = text.as_bytes();
        if has_room(&begun, text, max) {
            put_behind(&mut begun, text)?;
        } else {
            datagrams.push(Text::of(begun))?;
            begun = Vec::from_slice(alloc, text)?;
        }
    }
    datagrams.push(Text::of(begun))?;
    Ok(datagrams)
}
