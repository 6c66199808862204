//! What a trace has of what a gateway sends and answers.
ghost use Rattle.std.specs.Prelude.{◌≡◌, [], ◌∷◌, ◌++◌, decimal, codes};
ghost use Rattle.std.specs.List.{flat_map};
ghost use Rattle.std.specs.Net.Text.{socket_v4_text};
ghost use Rattle.mg_bytes.specs.Lines.{lines_of};
ghost use Rattle.rgw_scripts.specs.Printing.{printed_line};
ghost use Rattle.traces.specs.Telling.{told_line, told_text, told_datagram, told_output, told_first, told_mark, broken_off, begins, mark, number_behind, is_mark};

use log_format::put_peer;
use mg_bytes::{Draft, decimal, lines};
use plain_machine::OutDatagram;
use std::net::SocketAddrV4;

// What stands before each line that is told.
const MARK: &[u8] = b"| ";

// What stands before the number with which ids begin.
pub(crate) const FIRST: &[u8] = b"| first ";

const UNSENT: &[u8] = b"| ! not sent ";

const LOST: &[u8] = b"| ! lost on its way ";

const BROKEN_OFF: &[u8] = b"| ! broken off";

/// What became of a datagram of the turn before.
#[derive(Clone, Copy)]
pub enum Mark {
    /// It wasn't sent.
    Unsent,
    /// A network that spoils what goes over it lost it.
    Lost,
}

fn put_line(out: &mut Draft, line: &[u8])
    ensures { out.new ≡ out.old ++ told_line line.now }
{
    out.put(MARK);
    out.put(line);
    out.put_byte(b'\n');
}

/// Puts the lines that are printed.
pub fn put_shown(out: &mut Draft, text: &[u8])
    ensures { out.new ≡ out.old ++ told_text text.now }
{
    for line in lines(text) {
        put_line(out, line);
    }
}

// The line of a datagram's address.
fn put_address(out: &mut Draft, to: SocketAddrV4)
    ensures { out.new ≡ out.old ++ told_line (codes "> " ++ socket_v4_text to) }
{
    out.put(MARK);
    out.put(b"> ");
    put_peer(out, to);
    out.put_byte(b'\n');
}

/// Puts a datagram that goes out.
#[tactic(auto, unfolding(crate::specs::Telling::told_datagram))]
pub fn put_sent(out: &mut Draft, to: SocketAddrV4, bytes: &[u8])
    ensures { out.new ≡ out.old ++ told_datagram to bytes.now }
{
    put_address(out, to);
    put_shown(out, bytes);
    put_line(out, b"--");
}

/// Puts datagrams that go out.
pub fn put_outputs(out: &mut Draft, datagrams: &[OutDatagram])
    ensures { out.new ≡ out.old ++ flat_map told_output datagrams.now }
{
    for datagram in datagrams {
        put_sent(out, datagram.to, datagram.bytes.as_bytes());
    }
}

// Puts words, a number behind them, and the end of a line.
fn put_numbered(out: &mut Draft, words: &[u8], number: u64)
    ensures { out.new ≡ out.old ++ (words.now ++ printed_line (decimal number)) }
{
    out.put(words);
    out.put_decimal(number);
    out.put_byte(b'\n');
}

/// Puts the number with which ids begin, behind the configuration's end.
pub fn put_first(out: &mut Draft, first: u32)
    ensures { out.new ≡ out.old ++ told_first first }
{
    put_numbered(out, FIRST, u64::from(first));
}

/// Puts what became of the datagram at this place among those of the turn before, counted from 1.
pub fn put_mark(out: &mut Draft, mark: Mark, place: u64)
    ensures { out.new ≡ out.old ++ told_mark mark place }
{
    match mark {
        Mark::Unsent => put_numbered(out, UNSENT, place),
        Mark::Lost => put_numbered(out, LOST, place),
    }
}

/// The last line of a trace that is broken off, since what stands before it wasn't taken.
pub fn broken_off_line() -> &'static [u8]
    ensures { result.now ≡ broken_off ++ 10 ∷ [] }
{
    b"| ! broken off\n"
}

/// Whether a line is told: it went out, or became something.
pub(crate) fn is_told(line: &[u8]) -> bool
    ensures { result ≡ begins mark line.now }
{
    match line.strip_prefix(MARK) {
        Some(_) => true,
        None => false,
    }
}

/// The number that stands in a line behind these words, with nothing behind it.
pub(crate) fn number_behind(words: &[u8], line: &[u8]) -> Option<u64>
    ensures { result ≡ number_behind words.now line.now }
{
    match line.strip_prefix(words) {
        Some(rest) => decimal(rest),
        None => None,
    }
}

/// Whether a line, without its end, tells what became of a datagram, or that the trace is broken off.
#[tactic(auto, unfolding(crate::specs::Telling::is_mark))]
pub fn is_mark(line: &[u8]) -> bool
    ensures { result ≡ is_mark line.now }
{
    number_behind(UNSENT, line).is_some()
        || number_behind(LOST, line).is_some()
        || line == BROKEN_OFF
}
