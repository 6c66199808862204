//! The lines of a text.
ghost use Rattle.std.specs.Prelude.{◌≡◌, ◌≤◌, ◌++◌, filter, length, take};
ghost use Rattle.toml_places.specs.Lines.{is_feed, line_at, line_before};

use log_format::write_number;
use mg_bytes::Draft;

// What stands before a place in a text.
fn front(text: &[u8], place: usize) -> &[u8]
    ensures { result.now ≡ take place text.now }
{
    if place < text.len() {
        &text[..place]
    } else {
        text
    }
}

fn is_feed(byte: u8) -> bool
    ensures { result ≡ is_feed byte }
{
    byte == b'\n'
}

// How many lines end in a text.
#[tactic(auto, using(crate::proofs::Counting::filter_le))]
fn feeds_in(text: &[u8]) -> usize
    ensures count { result ≡ length (filter is_feed text.now) }
    ensures within { result ≤ length text.now }
{
    text.iter().filter(|byte| is_feed(**byte)).count()
}

/// The number of the line that a place in a text is in, from 1.
pub fn line_at(text: &[u8], place: usize) -> u64
    ensures { result ≡ line_at text.now place }
{
    feeds_in(front(text, place)) as u64 + 1
}

/// Puts the number of a line before what is told of it.
pub(crate) fn put_line_at(out: &mut Draft, line: u64)
    ensures { out.new ≡ out.old ++ line_before line }
{
    out.put(b"line ");
    write_number(out, line);
    out.put(b": ");
}
