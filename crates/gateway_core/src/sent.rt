//! What is told of a message that was sent.
use plain_machine::Label;
use std::net::SocketAddrV4;

/// A message that was sent: where to, when (in ms), its label, and how many bytes its text has.
#[derive(Clone, Copy)]
pub struct SentMessage {
    pub to: SocketAddrV4,
    pub moment: u64,
    pub label: Label,
    pub size: usize,
}
