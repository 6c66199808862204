//! A message of our own that is in flight.
ghost use Rattle.std.specs.Prelude.{◌≡◌, ◌<◌, ◌^◌, ◌==◌, if◌then◌else◌, [], IfOk};
ghost use Rattle.endpoint_names.specs.Route.{at};
ghost use Rattle.retransmission.specs.declared.reply.Reply.TheVariants.{Stranger};
ghost use Rattle.retransmission.specs.Sends.{wait_after, may_repeat, Sends, repeats_in, due_of, repeat_at, after_repeat, after_reply};
ghost use Rattle.retransmission.specs.Flight.{Follows, sent_to, sent_first, repeat_of, repeated, reply_by, reply_of, heard};

use crate::repeat::Repeat;
use crate::reply::Reply;
use endpoint_names::Route;
use mg_bytes::{OutOfMemory, Text};
use mgcp_text::TransactionId;
use small_rules::is_final;
use std::alloc::Global;
use std::marker::Model;
use std::net::SocketAddrV4;

// How long an answer is waited for after a provisional response, in ms (this gateway's profile).
const PROVISIONAL_WAIT: u64 = 5_000;

// A message is repeated so often, and no more (this gateway's profile).
const MOST_REPEATS: u8 = 7;

// It is repeated less than this many ms after it was first sent (RFC 3435, 4.3; the number is this gateway's profile).
const SENDING_TIME: u64 = 20_000;

/// A command of our own that is in flight: it was sent, and isn't answered yet (RFC 3435, 3.5).
///
/// At the moment that `due` says its owner calls `repeat`, and sends the message again where that is `Sent`. For each
/// response that comes it calls `answer`. After `GivenUp` and `Answered` nothing is in flight any more, and the owner
/// drops the message.
#[derive(Drop)]
pub struct Pending {
    alloc: Global,
    id: TransactionId,
    route: Route<SocketAddrV4>,
    text: Text,
    first: u64,
    repeats: u8,
    due: u64,
}

impl Model for Pending {
    ghost use Rattle.retransmission.specs.Flight.{InFlight};

    ghost Value = { InFlight };

    ghost view = { λ p. record { id = p.id; route = p.route; text = p.text; first = p.first; repeats = p.repeats; due = p.due } };
}

impl Pending {
    /// A message that is first sent at this moment, in ms, to the first address of this route (RFC 3435, 3.5.3). The text is
    /// copied.
    pub fn begin(
        alloc: Global,
        id: TransactionId,
        route: Route<SocketAddrV4>,
        text: &[u8],
        moment: u64,
    ) -> Result<Pending, OutOfMemory>
        requires { moment < 2 ^ 62 }
        ensures kept { IfOk result (λ pending. pending ≡ sent_first id route text.now moment) }
        // It follows its sends: so far there is the first one.
        ensures sends { IfOk result (λ pending. Follows pending (record { first = moment; since = [] })) }
    {
        started(alloc, id, route, text, moment)
    }

    /// An equal message. After an error nothing was done.
    pub fn try_copy(&self) -> Result<Pending, OutOfMemory>
        ensures { IfOk result (λ copy. copy ≡ self.now) }
    {
        Ok(Pending {
            alloc: self.alloc,
            id: self.id,
            route: self.route,
            text: copied(self.alloc, self.text.as_bytes())?,
            first: self.first,
            repeats: self.repeats,
            due: self.due,
        })
    }

    /// Its transaction id (RFC 3435, 3.2.1.2).
    pub fn id(&self) -> TransactionId
        ensures { result ≡ self.now.id }
    {
        self.id
    }

    /// Where it was sent last (RFC 3435, 4.3): where it is sent now, after `begin` or a `repeat` that is `Sent`.
    pub fn to(&self) -> SocketAddrV4
        ensures kept { result ≡ sent_to self.now }
        // It is what the sends of the message say.
        ensures sends { (sends : Sends) → Follows self.now sends → result ≡ at self.now.route (repeats_in sends.since) }
    {
        self.route.at(u64::from(self.repeats))
    }

    /// How often it was sent again: 0 after `begin`, and at most 7.
    pub fn repeats(&self) -> u8
        ensures { result ≡ self.now.repeats }
    {
        self.repeats
    }

    /// Its text.
    pub fn text(&self) -> &[u8]
        ensures { result.now ≡ self.now.text }
    {
        self.text.as_bytes()
    }

    /// The moment, in ms, at which it is repeated or given up (RFC 3435, 3.5.3).
    pub fn due(&self) -> u64
        ensures kept { result ≡ self.now.due }
        // It is what the sends of the message say.
        ensures sends { (sends : Sends) → Follows self.now sends → result ≡ due_of sends }
    {
        self.due
    }

    /// What `repeat` would be at this moment, in ms: it is sent again, or given up.
    pub fn next(&self, moment: u64) -> Repeat
        ensures { result ≡ repeat_of self.now moment }
    {
        if may_repeat(self.first, self.repeats, moment) {
            Repeat::Sent
        } else {
            Repeat::GivenUp
        }
    }

    /// What is done with it now, where something is due (RFC 3435, 3.5.3 and 4.3). Where that is `Sent`, the owner sends
    /// it again; else it is as it was. This takes no memory.
    pub fn repeat(&mut self, moment: u64) -> Repeat
        requires { moment < 2 ^ 62 }
        ensures done { result ≡ repeat_of self.old moment }
        ensures kept { self.new ≡ repeated self.old moment }
        // It is what the sends of the message say, and it goes on to follow them.
        ensures sends { (sends : Sends) → Follows self.old sends →
            (result ≡ repeat_at moment sends) × Follows self.new (after_repeat result moment sends) }
    {
        self.send_again(moment)
    }

    /// What a response with this id and return code is to it now (RFC 3435, 2.4 and 3.5.6): the id alone joins them. A
    /// provisional one puts off what is due; else it is as it was. This takes no memory.
    pub fn answer(&mut self, id: TransactionId, code: u16, moment: u64) -> Reply
        requires { moment < 2 ^ 62 }
        ensures reply { result ≡ reply_of self.old id code }
        ensures kept { self.new ≡ heard self.old id code moment }
        // It goes on to follow its sends and provisional responses.
        ensures sends { (sends : Sends) → Follows self.old sends → Follows self.new (after_reply result moment sends) }
    {
        self.hear(id, code, moment)
    }

    /// What a response with this id and return code is to it (RFC 3435, 2.4 and 3.5.6): the id alone joins them.
    pub fn reply(&self, id: TransactionId, code: u16) -> Reply
        ensures { result ≡ reply_of self.now id code }
    {
        reply_of(self.id, id, code)
    }

    #[tactic(auto, unfolding(crate::specs::Flight::repeated))]
    fn send_again(&mut self, moment: u64) -> Repeat
        requires { moment < 2 ^ 62 }
        ensures done { result ≡ repeat_of self.old moment }
        ensures kept { self.new ≡ repeated self.old moment }
    {
        if !may_repeat(self.first, self.repeats, moment) {
            return Repeat::GivenUp;
        }
        self.repeats += 1;
        self.due = moment + wait_after(self.repeats);
        Repeat::Sent
    }

    #[tactic(auto, unfolding(crate::specs::Flight::heard))]
    fn hear(&mut self, id: TransactionId, code: u16, moment: u64) -> Reply
        requires { moment < 2 ^ 62 }
        ensures reply { result ≡ reply_of self.old id code }
        ensures kept { self.new ≡ heard self.old id code moment }
    {
        let reply = reply_of(self.id, id, code);
        match reply {
            Reply::Provisional => self.due = moment + PROVISIONAL_WAIT,
            Reply::Answered | Reply::Stranger => {}
        }
        reply
    }
}

fn started(
    alloc: Global,
    id: TransactionId,
    route: Route<SocketAddrV4>,
    text: &[u8],
    moment: u64,
) -> Result<Pending, OutOfMemory>
    requires { moment < 2 ^ 62 }
    ensures { IfOk result (λ pending. pending ≡ sent_first id route text.now moment) }
{
    Ok(Pending {
        alloc,
        id,
        route,
        text: copied(alloc, text)?,
        first: moment,
        repeats: 0,
        due: moment + wait_after(0),
    })
}

fn copied(alloc: Global, text: &[u8]) -> Result<Text, OutOfMemory>
    ensures { IfOk result (λ copy. copy ≡ text.now) }
{
    let mut bytes = Vec::new(alloc);
    bytes.extend_from_slice(text)?;
    Ok(Text::of(bytes))
}

// How long an answer is waited for after so many repeats, in ms: the wait is doubled up to 4,000 ms (RFC 3435, 3.5.3).
fn wait_after(repeats: u8) -> u64
    ensures { result ≡ wait_after repeats }
{
    match repeats {
        0 => 500,
        1 => 1_000,
        2 => 2_000,
        _ => 4_000,
    }
}

fn may_repeat(first: u64, repeats: u8, moment: u64) -> bool
    ensures { result ≡ may_repeat first repeats moment }
{
    repeats < MOST_REPEATS && moment.saturating_sub(first) < SENDING_TIME
}

fn reply_by(code: u16) -> Reply
    ensures { result ≡ reply_by code }
{
    match code {
        _ if is_final(code) => Reply::Answered,
        100..=199 => Reply::Provisional,
        _ => Reply::Stranger,
    }
}

fn reply_of(own: TransactionId, id: TransactionId, code: u16) -> Reply
    ensures { result ≡ (if own == id then reply_by code else Stranger) }
{
    if own.number() == id.number() {
        reply_by(code)
    } else {
        Reply::Stranger
    }
}
