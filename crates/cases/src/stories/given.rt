//! What a program sends and answers, as a story tells it.
use crate::stories::clocks::Stamp;
use crate::stories::transcript::Transcript;
use log_format::put_peer;
use mg_bytes::{Draft, lines};
use std::alloc::Global;
use std::net::{Ipv4Addr, SocketAddr, SocketAddrV4};

// What stands before each further line of a datagram of answers.
const FURTHER: &[u8] = b"and ";

/// Who types where nobody else is said.
pub fn typist() -> SocketAddrV4 {
    SocketAddrV4::new(Ipv4Addr::LOCALHOST, 40000)
}

// Puts the lines of a datagram.
fn put_lines(text: &mut Draft, bytes: &[u8]) {
    for line in lines(bytes) {
        text.put(line);
        text.put(b"\n");
    }
}

/// Puts a datagram that is sent now.
pub fn put_sent(alloc: Global, given: &mut Transcript, at: Stamp, to: SocketAddrV4, bytes: &[u8]) {
    let mut text = Draft::new(alloc);
    text.put(b"> ");
    put_peer(&mut text, to);
    text.put(b"\n");
    put_lines(&mut text, bytes);
    text.put(b"--\n");
    given.put(at, text);
}

/// Puts a datagram of answers: to whom is told where it isn't who usually types.
pub fn put_answer(alloc: Global, given: &mut Transcript, at: Stamp, to: SocketAddr, text: &[u8]) {
    if to == SocketAddr::V4(typist()) {
        given.tell_datagram(at, b"answer ", FURTHER, text);
        return;
    }
    match format!(in alloc; "answer {to} ") {
        Ok(before) => given.tell_datagram(at, before.as_bytes(), FURTHER, text),
        Err(_) => given.refuse(),
    }
}
