//! A visitor: a browser's connection, with the moment until which it is waited for.
ghost use Rattle.std.specs.Prelude.{◌≡◌, ◌⊎◌, ◌↔◌, IsTrue, IfOk};
ghost use Rattle.page_http.specs.Naming.{names_of};
ghost use Rattle.page_server.specs.Visiting.{calls_of, noted, AnswersAll, AnswersVisitor, CanRead, CanWrite, IsAnswered};
ghost use Rattle.page_server.specs.Visiting.{IsNew, IsWaiting, ReadsOnce, TakesTurn, WritesOnce};

use crate::desk::Desk;
use http_server::{Config, Connection};
use http1::Limits;
use live_system::Visit;
use mio::net::TcpStream;
use output_queues::boxed;
use page_http::Seat;
use std::alloc::{AllocError, Global};
use std::hash::RandomState;
use std::io;
use std::io::ErrorKind;
use std::net::Ipv4Addr;

/// How long a visitor may take for a request and its answer, in ms, and be silent between them. One that is slower is dropped.
pub const PATIENCE: u64 = 15_000;

/// What is held of a visitor at most: a head of 8 KiB, a body of 1 KiB, and no request is read while 64 KiB wait to be sent.
const LIMITS: Config = Config {
    limits: Limits {
        max_head_len: 8 * 1024,
        max_extensions_len: 1024,
        max_trailers_len: 1024,
    },
    max_body_len: 1024,
    max_pending: 64 * 1024,
    read_size: 2 * 1024,
};

/// A visitor.
pub(crate) struct Visitor {
    stream: TcpStream,
    connection: Connection,
    // Whether its socket may have something to read, and room to write.
    may_read: bool,
    may_write: bool,
    /// From where it comes, and when something came from there or went there last, in ms.
    pub(crate) seat: Seat,
    /// The moment until which it is waited for, in ms.
    pub(crate) deadline: u64,
    /// Whether it has more to do at once.
    pub(crate) has_turn: bool,
}

// Written out: of a derived drop all that a connection is made of is proved anew by each crate that lets one go. Its own crate takes it
// apart, and gives its two buffers.
impl Drop for Visitor {
    fn drop(self) {
        let Visitor {
            stream,
            connection,
            may_read: _,
            may_write: _,
            seat: _,
            deadline: _,
            has_turn: _,
        } = self;
        drop(stream);
        let (unread, pending) = connection.into_buffers();
        drop(unread);
        drop(pending);
    }
}

// Whether a fault of a socket says only that it isn't ready.
fn is_waiting(fault: &io::Error) -> bool
    ensures { IsTrue result ↔ IsWaiting fault.now }
{
    fault.kind() == ErrorKind::WouldBlock
}

impl Visitor {
    /// Serves who came from this address over this socket from now on. `keys` are secret (`RandomState::new`).
    pub(crate) fn new(
        alloc: Global,
        stream: TcpStream,
        host: Ipv4Addr,
        keys: RandomState,
        now: u64,
    ) -> Result<Box<Visitor>, AllocError>
        ensures { IfOk result (λ visitor. IsNew host now visitor.value) }
    {
        boxed(
            alloc,
            Visitor {
                stream,
                connection: Connection::new(alloc, keys, LIMITS),
                may_read: true,
                may_write: true,
                seat: Seat { host, active: now },
                deadline: now.saturating_add(PATIENCE),
                has_turn: true,
            },
        )
    }

    /// Its socket can be read or written, as far as was told.
    pub(crate) fn note(&mut self, visit: Visit)
        ensures { self.new ≡ noted visit self.old }
    {
        if visit.is_readable || visit.is_writable {
            self.may_read = self.may_read || visit.is_readable;
            self.may_write = self.may_write || visit.is_writable;
            self.has_turn = true;
        }
    }

    // Whether its socket may have something, and more may come.
    fn can_read(&self) -> bool
        ensures { IsTrue result ↔ CanRead self.now }
    {
        self.may_read && self.connection.wants_read()
    }

    // Whether its socket may have room, and something waits for it.
    fn can_write(&self) -> bool
        ensures { IsTrue result ↔ CanWrite self.now }
    {
        self.may_write && self.connection.wants_write()
    }

    // Reads once, where there is something. Gives whether the visitor stays.
    fn read(&mut self, now: u64) -> bool
        ensures calls { calls_of self.new ≡ calls_of self.old }
        ensures reads { ReadsOnce now self.old result self.new }
    {
        if !self.can_read() {
            return true;
        }
        match self.connection.read_from(&mut self.stream) {
            Ok(_) => {
                self.seat.active = now;
                true
            }
            Err(fault) => {
                self.may_read = false;
                is_waiting(&fault)
            }
        }
    }

    // Writes once, where something waits. Gives whether the visitor stays.
    fn write(&mut self, now: u64) -> bool
        ensures calls { calls_of self.new ≡ calls_of self.old }
        ensures writes { WritesOnce now self.old result self.new }
    {
        if !self.can_write() {
            return true;
        }
        match self.connection.write_to(&mut self.stream) {
            // It takes nothing any more.
            Ok(0) => {
                self.may_write = false;
                false
            }
            Ok(_) => {
                self.seat.active = now;
                if !self.connection.wants_write() {
                    self.deadline = now.saturating_add(PATIENCE);
                }
                true
            }
            Err(fault) => {
                self.may_write = false;
                is_waiting(&fault)
            }
        }
    }

    // Answers what came.
    fn answer(&mut self, desk: &mut Desk<'_>)
        ensures site { desk.new.site ≡ desk.old.site }
        ensures names { names_of desk.new.names.now ≡ names_of desk.old.names.now }
        ensures same_reference { desk.new.board.ghost_name ≡ desk.old.board.ghost_name }
        ensures answered { AnswersAll desk.old.site (names_of desk.old.names.now) self.old desk.old.board.now
            self.new desk.new.board.now }
    {
        self.connection.advance(desk);
    }

    /// Reads once, answers what came, and writes once: whether the visitor stays.
    pub(crate) fn turn(&mut self, desk: &mut Desk<'_>, now: u64) -> bool
        ensures site { desk.new.site ≡ desk.old.site }
        ensures names { names_of desk.new.names.now ≡ names_of desk.old.names.now }
        ensures same_reference { desk.new.board.ghost_name ≡ desk.old.board.ghost_name }
        ensures answered { AnswersVisitor desk.old.site (names_of desk.old.names.now) self.old desk.old.board.now
            self.new desk.new.board.now }
        ensures all { IsTrue result → IsAnswered self.new }
        ensures turns { TakesTurn desk.old.site (names_of desk.old.names.now) now self.old desk.old.board.now
            result self.new desk.new.board.now }
    {
        if !self.read(now) {
            return false;
        }
        self.answer(desk);
        if !self.write(now) {
            return false;
        }
        self.answer(desk);
        self.has_turn = self.can_read() || self.can_write();
        !self.connection.is_done()
    }
}
