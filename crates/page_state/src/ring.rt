//! What happened lately, numbered from 1.
ghost use Rattle.std.specs.Prelude.{◌≡◌, length, map, take, OnOk, OnErr};
ghost use Rattle.page_state.specs.Keeping.{kept_with, event_of, nothing_yet, counted, noted, told_of, latest_said, labelled};

use crate::label::MessageLabel;
use std::alloc::{AllocError, Global};
use std::collections::VecDeque;
use std::marker::Model;
use std::net::SocketAddrV4;

/// So many are kept.
pub const MOST_KEPT: usize = 1024;

/// So many bytes are kept of each.
pub const MOST_TEXT: usize = 4096;

/// Of so many of its messages it is kept what they are.
pub const MOST_SAID: usize = 64;

/// What happened.
#[derive(Clone, Copy)]
pub enum Kind {
    /// A datagram came.
    Received,
    /// A datagram was sent.
    Sent,
    /// A line of the telephones did something, as `phone 1 off`.
    Act,
    /// What was answered to it, as `! 5 PhoneState`.
    Told,
    /// Commands of the gateway's own were given up.
    GivenUp,
}

/// What happened at a moment.
#[derive(Drop)]
pub struct Happening {
    pub number: u64,
    /// In ms.
    pub moment: u64,
    pub kind: Kind,
    /// Where a datagram came from, or where it went.
    pub peer: SocketAddrV4,
    /// Its bytes, as many as are kept.
    pub text: Vec<u8>,
    /// What its messages are, in their order, where that is told: of as many as that is kept of.
    pub said: Vec<MessageLabel>,
}

/// What happened lately. The oldest gives way. A contract sees the number of the latest, and what is kept.
#[derive(Drop)]
pub struct Ring {
    alloc: Global,
    kept: VecDeque<Happening>,
    // The number of the latest.
    last: u64,
}

impl Model for Ring {
    ghost use Rattle.std.specs.Prelude.{◌≤◌, length, map};
    ghost use Rattle.page_state.specs.Keeping.{RingState, event_of};
    ghost use Rattle.page_state.specs.declared.ring.TheConstants.{MOST_KEPT};

    ghost Value = { RingState };

    ghost view = { λ r. record { last = r.last; events = map event_of r.kept.items } };

    ghost invariant = { λ r. length r.kept.items ≤ MOST_KEPT };
}

// The beginning of a text, as much as is kept of it.
fn beginning(text: &[u8]) -> &[u8]
    ensures { result.now ≡ take MOST_TEXT text.now }
{
    match text.get(..MOST_TEXT) {
        Some(beginning) => beginning,
        None => text,
    }
}

// The first of these, of as many as it is kept what they are.
fn first_said(said: &[MessageLabel]) -> &[MessageLabel]
    ensures { result.now ≡ take MOST_SAID said.now }
{
    match said.get(..MOST_SAID) {
        Some(first) => first,
        None => said,
    }
}

// Puts one behind the others. After an error they are as they were.
fn keep(kept: &mut VecDeque<Happening>, happening: Happening) -> Result<(), AllocError>
    ensures kept { OnOk result (kept.new.items ≡ kept_with MOST_KEPT kept.old.items happening) }
    ensures err { OnErr result (kept.new.items ≡ kept.old.items) }
{
    if kept.len() < MOST_KEPT {
        kept.push_back(happening)?;
        return Ok(());
    }
    let _ = kept.pop_front();
    kept.push_back_reserved(happening);
    Ok(())
}

// Of what happened it is told what its messages are, where it has this number.
fn label_one(mut happening: Happening, latest: u64, said: Vec<MessageLabel>) -> Happening
    ensures { event_of result ≡ told_of latest said.items (event_of happening) }
{
    if happening.number == latest {
        happening.said = said;
    }
    happening
}

// The same of the last that is kept.
fn label_latest(kept: &mut VecDeque<Happening>, latest: u64, said: Vec<MessageLabel>)
    ensures told { map event_of kept.new.items ≡ latest_said latest said.items (map event_of kept.old.items) }
    ensures few { length kept.new.items ≡ length kept.old.items }
{
    match kept.pop_back() {
        None => {}
        Some(happening) => kept.push_back_reserved(label_one(happening, latest, said)),
    }
}

impl Ring {
    /// Nothing has happened yet.
    pub fn new(alloc: Global) -> Ring
        ensures { result ≡ nothing_yet }
    {
        Ring {
            alloc,
            kept: VecDeque::new(alloc),
            last: 0,
        }
    }

    /// The number of the latest; 0 where nothing has happened yet.
    pub fn last(&self) -> u64
        ensures { result ≡ self.now.last }
    {
        self.last
    }

    /// What is kept, from the oldest.
    pub fn kept(&self) -> &VecDeque<Happening>
        ensures { map event_of result.now.items ≡ self.now.events }
    {
        &self.kept
    }

    /// Something happened at this moment, in ms. After an error, which is for want of memory, its number alone is taken.
    pub fn note(
        &mut self,
        moment: u64,
        kind: Kind,
        peer: SocketAddrV4,
        text: &[u8],
    ) -> Result<(), AllocError>
        ensures ok { OnOk result (self.new ≡ noted self.old moment kind peer text.now) }
        ensures err { OnErr result (self.new ≡ counted self.old) }
    {
        let number = self.last.saturating_add(1);
        self.last = number;
        let text = Vec::from_slice(self.alloc, beginning(text))?;
        keep(
            &mut self.kept,
            Happening {
                number,
                moment,
                kind,
                peer,
                text,
                said: Vec::new(self.alloc),
            },
        )
    }

    /// It is told what the messages of what happened last are, where that is kept. After an error, which is for want of memory, nothing
    /// is told of them.
    pub fn label(&mut self, said: &[MessageLabel]) -> Result<(), AllocError>
        ensures ok { OnOk result (self.new ≡ labelled self.old said.now) }
        ensures err { OnErr result (self.new ≡ self.old) }
    {
        let said = Vec::from_slice(self.alloc, first_said(said))?;
        label_latest(&mut self.kept, self.last, said);
        Ok(())
    }
}
