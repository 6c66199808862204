//! The desk's own copy of a command that its agent has in flight, and room for one.
ghost use Rattle.std.specs.Prelude.{◌≡◌, ◌<◌, ◌≤◌, ◌^◌, [], IfOk, length, take};
ghost use Rattle.std.specs.Vec.{vec_capacity};
ghost use Rattle.endpoint_names.specs.declared.route.Route.TheVariants.{One};
ghost use Rattle.retransmission.specs.Flight.{sent_to, sent_first, repeat_of, repeated, reply_of, heard};
ghost use Rattle.transmission.specs.Texts.{largest_datagram};

use call_agent::Issued;
use endpoint_names::Route;
use mg_bytes::{OutOfMemory, Text};
use mgcp_text::TransactionId;
use retransmission::{Pending, Repeat, Reply};
use std::alloc::{AllocError, Global};
use std::marker::Model;
use std::net::SocketAddrV4;
use transmission::LARGEST_DATAGRAM;

/// Moments are below this (in ms), as those of an agent are.
pub(crate) const END_OF_TIME: u64 = 1 << 62;

/// A command that an agent has in flight, as the desk keeps it beside the agent: by the same rules. A contract sees what `retransmission` has of
/// one.
#[derive(Drop)]
pub(crate) struct OwnCopy {
    // Its moments, by the rules of `retransmission`. The id and the text that this has are of no command.
    timing: Pending,
    id: u32,
    text: Text,
}

impl Model for OwnCopy {
    ghost use Rattle.retransmission.specs.Flight.{InFlight};

    ghost Value = { InFlight };

    ghost view = { λ copy. record copy.timing { id = copy.id; text = copy.text } };
}

/// Room for the copy of a command that isn't issued yet. A contract sees the copy as far as it is known: without its id and its text.
#[derive(Drop)]
pub(crate) struct Room {
    timing: Pending,
    // Has room for what a datagram may have.
    text: Vec<u8>,
}

impl Model for Room {
    ghost use Rattle.std.specs.Prelude.{◌≡◌, ◌≤◌, []};
    ghost use Rattle.std.specs.Vec.{vec_capacity};
    ghost use Rattle.retransmission.specs.Flight.{InFlight};
    ghost use Rattle.transmission.specs.Texts.{largest_datagram};

    ghost Value = { InFlight };

    ghost view = { λ room. room.timing };

    ghost invariant = { λ room. record {
      none : room.text.items ≡ [];
      free : largest_datagram ≤ vec_capacity room.text;
    } };
}

// As much of a text as a datagram may have.
fn beginning(text: &[u8]) -> &[u8]
    ensures beginning { result.now ≡ take largest_datagram text.now }
    ensures short { length result.now ≤ largest_datagram }
{
    match text.get(..LARGEST_DATAGRAM) {
        Some(beginning) => beginning,
        None => text,
    }
}

impl Room {
    /// Room for a command that is first sent to this address at this moment, in ms. An error is for want of memory only.
    pub(crate) fn new(alloc: Global, to: SocketAddrV4, moment: u64) -> Result<Room, OutOfMemory>
        ensures { IfOk result (λ room. room ≡ sent_first 1 (One to) [] moment) }
    {
        if moment >= END_OF_TIME {
            return Err(AllocError);
        }
        // The command brings an id and a text of its own.
        let timing = Pending::begin(alloc, TransactionId::of(1), Route::One(to), b"", moment)?;
        let text = Vec::with_capacity(alloc, LARGEST_DATAGRAM)?;
        Ok(Room { timing, text })
    }

    /// The copy of a command that was issued: of its text as much as a datagram may have. This takes no memory.
    pub(crate) fn filled(self, issued: &Issued) -> OwnCopy
        ensures { result ≡ record self { id = issued.now.id; text = take largest_datagram issued.now.datagram.bytes } }
    {
        let Room { timing, mut text } = self;
        // There is room for it.
        let _ = text.extend_from_slice(beginning(issued.datagram.bytes.as_bytes()));
        text.shrink_to_fit();
        OwnCopy {
            timing,
            id: issued.id,
            text: Text::of(text),
        }
    }
}

impl OwnCopy {
    /// Where it was sent last.
    pub(crate) fn to(&self) -> SocketAddrV4
        ensures { result ≡ sent_to self.now }
    {
        self.timing.to()
    }

    /// Its text.
    pub(crate) fn text(&self) -> &[u8]
        ensures { result.now ≡ self.now.text }
    {
        self.text.as_bytes()
    }

    /// The moment, in ms, at which it is repeated or given up.
    pub(crate) fn due(&self) -> u64
        ensures { result ≡ self.now.due }
    {
        self.timing.due()
    }

    /// What is done with it now, where something is due.
    pub(crate) fn repeat(&mut self, moment: u64) -> Repeat
        requires { moment < 2 ^ 62 }
        ensures done { result ≡ repeat_of self.old moment }
        ensures kept { self.new ≡ repeated self.old moment }
    {
        self.timing.repeat(moment)
    }

    /// What a response with this id and return code is to it now.
    pub(crate) fn answer(&mut self, id: TransactionId, code: u16, moment: u64) -> Reply
        requires { moment < 2 ^ 62 }
        ensures reply { result ≡ reply_of self.old id code }
        ensures kept { self.new ≡ heard self.old id code moment }
    {
        if self.id != id.number() {
            return Reply::Stranger;
        }
        let own = self.timing.id();
        self.timing.answer(own, code, moment)
    }
}
