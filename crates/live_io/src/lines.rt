//! Lines of who types, which came in one datagram: each is a turn of its own.
ghost use Rattle.std.specs.Prelude.{◌≡◌, ◌↔◌, ◌⊎◌, ◌≤◌, ℕ, List, [], Option, None, IfOk, IfSome, IsSomeAnd, IsTrue};
ghost use Rattle.std.specs.Prelude.{drop, length, false};
ghost use Rattle.std.specs.Net.Addr.{IsLoopbackV4, IsLoopbackV6, MatchIp};
ghost use Rattle.std.specs.Net.Socket.{socket_ip};
ghost use Rattle.std.specs.Vec.{vec_capacity};
ghost use Rattle.std.specs.declared.net.socket_addr.SocketAddr.{SocketAddr as Sender};
ghost use Rattle.mg_bytes.specs.Lines.{cut, TakesLine};
ghost use Rattle.mg_bytes.specs.Lists.{is_empty};
ghost use Rattle.live_io.specs.Requests.{requests_from};
ghost use Rattle.live_io.specs.Typing.{left_of, behind, EndsWith, v4_of};
ghost use Rattle.live_io.specs.Hearing.{most_typed, Begins, Takes, Looked, Hears, AnswersTo};

use crate::requests::{from_request, is_own};
use crate::surroundings::Surroundings;
use mg_bytes::lines;
use std::alloc::{AllocError, Global};
use std::net::{SocketAddr, SocketAddrV4};

// The room for a datagram of lines. What is longer is cut off.
const ROOM: usize = 4096;

/// What is left of the lines that came last, and who sent them.
#[derive(Drop)]
pub struct Lines {
    sender: Option<SocketAddr>,
    text: Vec<u8>,
    // The line that is answered next begins here; where none is left the text ends here.
    begin: usize,
}

// Whether somebody is at an address of the loopback, 127.0.0.0/8 (RFC 1122, 3.2.1.3), which no other machine can send from.
fn is_loopback(sender: Option<SocketAddr>) -> bool
    ensures { IsTrue result ↔ IsSomeAnd sender (λ s. MatchIp (socket_ip s) IsLoopbackV4 IsLoopbackV6) }
{
    match sender {
        Some(sender) => sender.ip().is_loopback(),
        None => false,
    }
}

// Whether somebody is at another address.
fn is_afar(sender: Option<SocketAddr>) -> bool
    ensures { IsTrue result ↔ IsSomeAnd sender (λ s. MatchIp (socket_ip s) IsLoopbackV4 IsLoopbackV6 → ⊥) }
{
    match sender {
        Some(sender) => !sender.ip().is_loopback(),
        None => false,
    }
}

// An address of the kind that sockets here have.
fn v4_of(sender: Option<SocketAddr>) -> Option<SocketAddrV4>
    ensures { result ≡ v4_of sender }
{
    match sender {
        Some(SocketAddr::V4(sender)) => Some(sender),
        Some(SocketAddr::V6(_)) | None => None,
    }
}

// The first line of a text.
#[tactic(auto, using(crate::proofs::TypingLemmas::takes_first))]
fn first_line(text: &[u8]) -> Option<&[u8]>
    ensures { TakesLine (cut text.now) result (behind (cut text.now)) }
{
    let mut left = lines(text);
    left.next()
}

// What stands behind it.
#[tactic(auto, using(crate::proofs::TypingLemmas::behind_is, crate::proofs::TypingLemmas::ends_behind))]
fn behind_first(text: &[u8]) -> &[u8]
    ensures pieces { cut result.now ≡ behind (cut text.now) }
    ensures end { EndsWith text.now result.now }
{
    let mut left = lines(text);
    let _ = left.next();
    left.rest()
}

// What is left of a text from here on.
#[tactic(auto, using(crate::proofs::TypingLemmas::left_ends))]
fn left_from(text: &[u8], begin: usize) -> &[u8]
    ensures { result.now ≡ drop begin text.now }
{
    match text.get(begin..) {
        Some(left) => left,
        None => &[],
    }
}

// Where the end of a text begins.
#[tactic(auto, using(crate::proofs::TypingLemmas::place_is))]
fn place_of(text: &[u8], end: &[u8]) -> usize
    requires { EndsWith text.now end.now }
    ensures { drop result text.now ≡ end.now }
{
    text.len().saturating_sub(end.len())
}

// Where the first line begins that asks for something.
fn first_place(text: &[u8]) -> usize
    ensures { cut (drop result text.now) ≡ requests_from (cut text.now) }
{
    place_of(text, from_request(text))
}

// Where the next one does behind the line that begins here.
fn next_place(text: &[u8], begin: usize) -> usize
    ensures { cut (drop result text.now) ≡ requests_from (behind (cut (drop begin text.now))) }
{
    let rest = behind_first(left_from(text, begin));
    place_of(text, from_request(rest))
}

// This is answered to who sent the lines, where somebody did.
fn reply<S: Surroundings>(around: &mut S, sender: Option<SocketAddr>, text: &[u8])
    ensures answered { AnswersTo S.around.answers sender around.old text.now around.new }
    ensures traffic { S.around.traffic around.new ≡ S.around.traffic around.old }
{
    if let Some(sender) = sender {
        around.answer(sender, text);
    }
}

impl Lines {
    /// None so far; there is room for a datagram of them.
    #[tactic(auto, unfolding(mg_bytes::specs::Lines::cut))]
    pub fn new(alloc: Global) -> Result<Lines, AllocError>
        ensures left { IfOk result (λ lines. left_of lines ≡ []) }
        ensures sender { IfOk result (λ lines. lines.sender ≡ None) }
        ensures room { IfOk result (λ lines. vec_capacity lines.text ≡ most_typed) }
    {
        Ok(Lines {
            sender: None,
            text: Vec::with_capacity(alloc, ROOM)?,
            begin: 0,
        })
    }

    // What is left, from the line on that is answered next.
    fn left(&self) -> &[u8]
        ensures { result.now ≡ drop self.now.begin self.now.text.items }
    {
        left_from(self.text.as_slice(), self.begin)
    }

    /// The line that is to be answered next, without its end and the blanks round it; an empty one is passed over, and so is one
    /// that is an answer itself.
    pub fn line(&self) -> Option<&[u8]>
        ensures { TakesLine (left_of self.now) result (behind (left_of self.now)) }
    {
        first_line(self.left())
    }

    /// What stands behind that line in its datagram.
    pub fn rest(&self) -> &[u8]
        ensures { cut result.now ≡ behind (left_of self.now) }
    {
        behind_first(self.left())
    }

    /// Whether the line came from an address of the loopback (127.0.0.0/8), and so from this machine.
    pub fn is_from_loopback(&self) -> bool
        ensures { IsTrue result ↔ IsSomeAnd self.now.sender (λ s. MatchIp (socket_ip s) IsLoopbackV4 IsLoopbackV6) }
    {
        is_loopback(self.sender)
    }

    /// Whether the line came from an address outside of the loopback, and so maybe from another machine; one of nobody's didn't.
    pub fn is_from_afar(&self) -> bool
        ensures { IsTrue result ↔ IsSomeAnd self.now.sender (λ s. MatchIp (socket_ip s) IsLoopbackV4 IsLoopbackV6 → ⊥) }
    {
        is_afar(self.sender)
    }

    /// Who typed the line, if anybody did whose address is of the kind that sockets here have.
    pub fn sender(&self) -> Option<SocketAddrV4>
        ensures { result ≡ v4_of self.now.sender }
    {
        v4_of(self.sender)
    }

    /// Whether no line is left.
    #[tactic(auto, using(crate::proofs::TypingLemmas::is_left))]
    pub fn is_empty(&self) -> bool
        ensures { result ≡ is_empty (left_of self.now) }
    {
        match self.line() {
            Some(_) => false,
            None => true,
        }
    }

    // The next line that asks for something is answered next.
    fn advance(&mut self)
        ensures left { left_of self.new ≡ requests_from (behind (left_of self.old)) }
        ensures sender { self.new.sender ≡ self.old.sender }
        ensures room { vec_capacity self.new.text ≡ vec_capacity self.old.text }
    {
        let begin = next_place(self.text.as_slice(), self.begin);
        self.begin = begin;
    }

    // Nothing is left.
    #[tactic(auto, unfolding(mg_bytes::specs::Lines::cut))]
    fn clear(&mut self)
        ensures left { left_of self.new ≡ [] }
        ensures text { self.new.text.items ≡ [] }
        ensures sender { self.new.sender ≡ self.old.sender }
        ensures room { vec_capacity self.new.text ≡ vec_capacity self.old.text }
    {
        self.text.clear();
        self.begin = 0;
    }

    // These lines are all that is left, of a sender who is answered or of nobody. Where memory is refused for more than there is room
    // for, nothing is.
    fn begin(&mut self, sender: Option<SocketAddr>, text: &[u8])
        ensures left { (left_of self.new ≡ requests_from (cut text.now)) ⊎ (left_of self.new ≡ []) }
        ensures sender { self.new.sender ≡ sender }
        ensures begins { Begins sender text.now self.old self.new }
        ensures room { vec_capacity self.old.text ≤ vec_capacity self.new.text }
    {
        self.clear();
        self.sender = sender;
        match self.text.extend_from_slice(text) {
            Ok(()) => self.begin = first_place(self.text.as_slice()),
            Err(_) => self.clear(),
        }
    }

    // A datagram of lines has come from there, and these are the program's own sockets.
    fn take_typed(&mut self, own: &[SocketAddrV4], source: SocketAddr, text: &[u8])
        ensures takes { Takes own.now source text.now self.old self.new }
        ensures room { vec_capacity self.old.text ≤ vec_capacity self.new.text }
    {
        if !is_own(own, source) {
            self.begin(Some(source), text);
        }
    }

    // What a look gave is taken, where it gave something: whether it did.
    fn take_found(
        &mut self,
        own: &[SocketAddrV4],
        found: Option<(SocketAddr, usize)>,
        room: &[u8],
    ) -> bool
        requires { IfSome found (λ p. p.1 ≤ length room.now) }
        ensures looked { Looked own.now found room.now self.old result self.new }
        ensures same { result ≡ false → self.new ≡ self.old }
        ensures room { vec_capacity self.old.text ≤ vec_capacity self.new.text }
    {
        match found {
            Some((source, length)) => {
                self.take_typed(own, source, &room[..length]);
                true
            }
            None => false,
        }
    }

    // It is looked once for lines.
    fn look<S: Surroundings>(&mut self, around: &mut S) -> bool
        ensures looks { (found : Option (Sender × ℕ)) × (room : List ℕ) × (length room ≡ most_typed)
            × S.around.hears around.old found room around.new × Looked (S.around.sockets around.new) found room self.old result self.new }
        ensures same { result ≡ false → self.new ≡ self.old }
        ensures traffic { S.around.traffic around.new ≡ S.around.traffic around.old }
        ensures room { vec_capacity self.old.text ≤ vec_capacity self.new.text }
    {
        let mut room = [0u8; ROOM];
        let found = around.hear(&mut room);
        let own = around.own();
        self.take_found(&own, found, &room)
    }

    /// Takes a datagram of lines, where one has come and no line is left of the one before: whether one was taken. Nothing is made of one
    /// that came from the program's own sockets.
    pub fn hear<S: Surroundings>(&mut self, around: &mut S) -> bool
        ensures heard { Hears S.around around.old self.old result around.new self.new }
        ensures waits { is_empty (left_of self.old) ≡ false → result ≡ false }
        ensures same { result ≡ false → self.new ≡ self.old }
        ensures traffic { S.around.traffic around.new ≡ S.around.traffic around.old }
        ensures room { vec_capacity self.old.text ≤ vec_capacity self.new.text }
    {
        if !self.is_empty() {
            return false;
        }
        self.look(around)
    }

    /// Takes lines that came another way, where none is left; nobody is answered.
    pub fn take(&mut self, text: &[u8])
        ensures left { (left_of self.new ≡ requests_from (cut text.now)) ⊎ (left_of self.new ≡ []) }
        ensures sender { self.new.sender ≡ None }
        ensures begins { Begins None text.now self.old self.new }
        ensures room { vec_capacity self.old.text ≤ vec_capacity self.new.text }
    {
        self.begin(None, text);
    }

    /// Answers the line, and goes on to the next.
    pub fn answer<S: Surroundings>(&mut self, around: &mut S, text: &[u8])
        ensures answered { AnswersTo S.around.answers self.old.sender around.old text.now around.new }
        ensures left { left_of self.new ≡ requests_from (behind (left_of self.old)) }
        ensures sender { self.new.sender ≡ self.old.sender }
        ensures traffic { S.around.traffic around.new ≡ S.around.traffic around.old }
        ensures room { vec_capacity self.new.text ≡ vec_capacity self.old.text }
    {
        reply(around, self.sender, text);
        self.advance();
    }

    /// Answers the line together with all that stands behind it in its datagram.
    pub fn answer_all<S: Surroundings>(&mut self, around: &mut S, text: &[u8])
        ensures answered { AnswersTo S.around.answers self.old.sender around.old text.now around.new }
        ensures left { left_of self.new ≡ [] }
        ensures sender { self.new.sender ≡ self.old.sender }
        ensures traffic { S.around.traffic around.new ≡ S.around.traffic around.old }
        ensures room { vec_capacity self.new.text ≡ vec_capacity self.old.text }
    {
        reply(around, self.sender, text);
        self.clear();
    }

    /// Goes on to the next line; nothing is answered.
    pub fn pass_over(&mut self)
        ensures left { left_of self.new ≡ requests_from (behind (left_of self.old)) }
        ensures sender { self.new.sender ≡ self.old.sender }
        ensures room { vec_capacity self.new.text ≡ vec_capacity self.old.text }
    {
        self.advance();
    }
}
