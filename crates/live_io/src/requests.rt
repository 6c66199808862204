//! What a socket for commands takes for a request: no line of an answer, and nothing from the program's own sockets. So no two
//! programs answer each other for ever, and none itself, whoever forges a datagram between them.
ghost use Rattle.std.specs.Prelude.{◌≡◌};
ghost use Rattle.std.specs.declared.net.socket_addr.SocketAddr.{SocketAddr};
ghost use Rattle.mg_bytes.specs.Lines.{cut};
ghost use Rattle.mg_bytes.specs.Words.{words as words_of};
ghost use Rattle.live_io.specs.Requests.{is_marked, is_among, is_answer_word, begins_answer, is_answer, is_request, requests_from};
ghost use Rattle.live_io.specs.Requests.{is_host, is_from, is_from_any, is_own};
ghost use Rattle.live_io.specs.Typing.{EndsWith};

use mg_bytes::{lines, words};
use std::net::{SocketAddr, SocketAddrV4};

// What was asked for was done or issued, a line is shown, somebody watches, or is told what changed.
const OUTCOMES: &[u8] = b"done issued line watching change";

// The counts of messages, of what was lost, failed or wasn't recorded, and of calls.
const COUNTS: &[u8] =
    b"datagrams commands responses answers notifications announcements lost faults network strangers records calls";

fn is_marked(line: &[u8]) -> bool
    ensures { result ≡ is_marked line.now }
{
    line.starts_with(b"?") || line.starts_with(b"!")
}

// Whether a word is one of these.
fn is_among(known: &[u8], word: &[u8]) -> bool
    ensures { result ≡ is_among known.now word.now }
{
    for one in words(known) {
        if word == one {
            return true;
        }
    }
    false
}

// Whether a line of an answer begins with this word.
#[tactic(auto, unfolding(crate::specs::Requests::outcomes, crate::specs::Requests::counts))]
fn is_answer_word(word: &[u8]) -> bool
    ensures { result ≡ is_answer_word word.now }
{
    is_among(OUTCOMES, word) || is_among(COUNTS, word)
}

fn begins_answer(line: &[u8]) -> bool
    ensures { result ≡ begins_answer (words_of line.now) }
{
    let mut left = words(line);
    match left.next() {
        Some(word) => is_answer_word(word),
        None => false,
    }
}

// Whether a line is one of an answer that a program here gives: `?`, `!`, or a word with which answers begin.
fn is_answer(line: &[u8]) -> bool
    ensures { result ≡ is_answer line.now }
{
    is_marked(line) || begins_answer(line)
}

// Whether a line asks for something.
fn is_request(line: &[u8]) -> bool
    ensures { result ≡ is_request line.now }
{
    !line.is_empty() && !is_answer(line)
}

// What is left of a text from the first line on that asks for something.
#[tactic(auto, unfolding(crate::specs::Requests::requests_from), using(crate::proofs::TypingLemmas::endings))]
pub(crate) fn from_request(text: &[u8]) -> &[u8]
    ensures pieces { cut result.now ≡ requests_from (cut text.now) }
    ensures end { EndsWith text.now result.now }
{
    let mut rest = text;
    let mut left = lines(text);
    while let Some(line) = left.next() {
        if is_request(line) {
            return rest;
        }
        rest = left.rest();
    }
    &[]
}

// Whether the host of a socket here may have sent from this one.
fn is_host(own: &[u8], sender: &[u8]) -> bool
    ensures { result ≡ is_host own.now sender.now }
{
    own == [0u8, 0, 0, 0].as_slice() || own == sender
}

// Whether what has this sender came from the socket here.
fn is_from(sender: SocketAddrV4, own: SocketAddrV4) -> bool
    ensures { result ≡ is_from sender own }
{
    let here = own.ip().octets();
    let there = sender.ip().octets();
    own.port() == sender.port() && is_host(here.as_slice(), there.as_slice())
}

// Whether what has this sender came from one of these sockets.
fn is_from_any(own: &[SocketAddrV4], sender: SocketAddrV4) -> bool
    ensures { result ≡ is_from_any own.now sender }
{
    for socket in own {
        if is_from(sender, *socket) {
            return true;
        }
    }
    false
}

/// Whether what has this sender, of any kind, came from one of these sockets: they have addresses of one kind alone.
pub fn is_own(own: &[SocketAddrV4], sender: SocketAddr) -> bool
    ensures { result ≡ is_own own.now sender }
{
    match sender {
        SocketAddr::V4(sender) => is_from_any(own, sender),
        SocketAddr::V6(_) => false,
    }
}
