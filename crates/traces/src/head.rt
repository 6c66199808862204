//! The head of a trace: its configuration, the line `%%`, and with which number ids begin.
ghost use Rattle.std.specs.Prelude.{◌≡◌};
ghost use Rattle.traces.specs.Head.{first_told_in};

use crate::first_number::FirstNumber;
use crate::telling::FIRST;
use mg_bytes::lines;

/// Whether a line, with its end, is that behind the configuration.
pub fn is_head_end(piece: &[u8]) -> bool {
    match lines(piece).next() {
        Some(line) => line == b"%%".as_slice(),
        None => false,
    }
}

/// The number with which ids begin, where a line, with its end, tells that.
pub fn first_in(piece: &[u8]) -> Option<FirstNumber>
    ensures { result ≡ first_told_in piece.now }
{
    let line = piece.strip_suffix(b"\n".as_slice())?;
    let word = line.strip_prefix(FIRST)?;
    FirstNumber::read(word)
}
