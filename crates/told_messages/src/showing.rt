//! What the page is shown of what goes over the wire.
ghost use Rattle.std.specs.Prelude.{◌≡◌, map};
ghost use Rattle.page_state.specs.declared.ring.Kind.TheVariants.{Sent};
ghost use Rattle.told_messages.specs.Labelling.{text_label, sent_label, given_up_label};
ghost use Rattle.told_messages.specs.Showing.{nobody as of_nobody, Happened, Labelled, HappenedWith, HadTexts, GaveUp, Turned};

use crate::labelling::{given_up_labels, sent_labels, text_labels};
use gateway_core::{GivenUpCommand, SentMessage, TextOutcome};
use message_counts::Taken;
use page_state::{Board, Kind, MessageLabel};
use std::alloc::Global;
use std::net::{Ipv4Addr, SocketAddrV4};

/// The address of nobody on the network.
pub fn nobody() -> SocketAddrV4
    ensures { result ≡ of_nobody }
{
    SocketAddrV4::new(Ipv4Addr::UNSPECIFIED, 0)
}

/// This happened, with this peer.
pub fn show(board: &mut Board, moment: u64, kind: Kind, peer: SocketAddrV4, text: &[u8])
    ensures { Happened moment kind peer text.now board.old board.new }
{
    match board.note(moment, kind, peer, text) {
        Ok(()) => {}
        Err(_) => {}
    }
}

fn label(board: &mut Board, said: &[MessageLabel])
    ensures { Labelled said.now board.old board.new }
{
    match board.label(said) {
        Ok(()) => {}
        Err(_) => {}
    }
}

// The datagram that was shown last has these texts.
fn label_texts(alloc: Global, board: &mut Board, outcomes: &[TextOutcome])
    ensures { Labelled (map text_label outcomes.now) board.old board.new }
{
    match text_labels(alloc, outcomes) {
        Ok(said) => label(board, said.as_slice()),
        Err(_) => {}
    }
}

// The datagram that was shown last has these messages.
fn label_sent(alloc: Global, board: &mut Board, messages: &[SentMessage])
    ensures { Labelled (map sent_label messages.now) board.old board.new }
{
    match sent_labels(alloc, messages) {
        Ok(said) => label(board, said.as_slice()),
        Err(_) => {}
    }
}

// What was shown last is that these are given up.
fn label_given_up(alloc: Global, board: &mut Board, given_up: &[GivenUpCommand])
    ensures { Labelled (map given_up_label given_up.now) board.old board.new }
{
    match given_up_labels(alloc, given_up) {
        Ok(said) => label(board, said.as_slice()),
        Err(_) => {}
    }
}

/// What is sent is shown, with its messages.
pub fn show_sent(
    alloc: Global,
    board: &mut Board,
    moment: u64,
    to: SocketAddrV4,
    bytes: &[u8],
    messages: &[SentMessage],
)
    ensures { HappenedWith moment Sent to bytes.now (map sent_label messages.now) board.old board.new }
{
    show(board, moment, Kind::Sent, to, bytes);
    label_sent(alloc, board, messages);
}

fn show_texts(alloc: Global, board: &mut Board, outcomes: &[TextOutcome])
    ensures { HadTexts outcomes.now board.old board.new }
{
    match outcomes {
        [] => {}
        [_, ..] => label_texts(alloc, board, outcomes),
    }
}

fn show_given_up(alloc: Global, board: &mut Board, moment: u64, given_up: &[GivenUpCommand])
    ensures { GaveUp moment given_up.now board.old board.new }
{
    match given_up {
        [] => {}
        [_, ..] => {
            show(board, moment, Kind::GivenUp, nobody(), b"");
            label_given_up(alloc, board, given_up);
        }
    }
}

/// The gateway took an event: what the texts of the datagram are that was shown last, and what was given up.
pub fn show_turned(alloc: Global, board: &mut Board, moment: u64, taken: &Taken<'_>)
    ensures { Turned moment taken.now.outcomes.now taken.now.given_up.now board.old board.new }
{
    show_texts(alloc, board, taken.outcomes);
    show_given_up(alloc, board, moment, taken.given_up);
}
