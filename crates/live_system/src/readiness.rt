//! Which sockets may have something, as the system tells it.
ghost use Rattle.std.specs.Prelude.{◌≡◌, replicate};
ghost use Rattle.live_system.specs.Looking.{no_visit, has_visits, may_have_more};

use crate::system_signals::SystemSignals;
use mio::net::{TcpListener, TcpStream, UdpSocket};
use mio::{Events, Interest, Poll, Token};
use output_queues::boxed;
use std::alloc::Global;
use std::io;
use std::io::ErrorKind;
use std::net::Net;
use std::time::Duration;

/// So many visitors of a site are served at a time; one more is turned away.
pub const MOST_VISITORS: usize = 16;

// By these the system names the sockets.
const SOCKET: usize = 0;

const COMMANDS: usize = 1;

const LISTENER: usize = 2;

const SIGNALS: usize = 3;

const FIRST_VISITOR: usize = 4;

const SOCKETS: usize = FIRST_VISITOR + MOST_VISITORS;

/// What was told of a visitor's socket.
#[derive(Clone, Copy)]
pub struct Visit {
    pub is_readable: bool,
    pub is_writable: bool,
}

const NO_VISIT: Visit = Visit {
    is_readable: false,
    is_writable: false,
};

/// What is known of the sockets: of the one for datagrams and of the one for commands whether something may have come since it was
/// last found empty, and so of the system's signals; of a site's what was told since it was forgotten.
#[derive(Drop)]
pub struct Readiness {
    poll: Poll,
    events: Events,
    pub socket: bool,
    pub commands: bool,
    pub(crate) signals: SystemSignals,
    pub listener: bool,
    pub visits: [Visit; MOST_VISITORS],
}

// Watches the sockets for datagrams and for commands.
fn watch_both(poll: &Poll, socket: &mut UdpSocket, commands: &mut UdpSocket) -> io::Result<()> {
    let registry = poll.registry();
    match registry.register(socket, Token(SOCKET), Interest::READABLE) {
        Ok(()) => registry.register(commands, Token(COMMANDS), Interest::READABLE),
        Err(fault) => Err(fault),
    }
}

/// Whether a socket may have something that failed so: only where a look would have waited it is empty.
#[tactic(auto, unfolding(crate::specs::Looking::may_have_more))]
pub fn may_have_more(kind: ErrorKind) -> bool
    ensures { result ≡ may_have_more kind }
{
    if kind == ErrorKind::WouldBlock {
        return false;
    }
    true
}

impl Readiness {
    /// Watches these sockets, of which the second one is for commands, and the system's signals: to each something may have come already.
    /// An error is of the system's kind.
    pub fn watch<R: Net>(
        rt: &R,
        alloc: Global,
        socket: &mut UdpSocket,
        commands: &mut UdpSocket,
    ) -> Result<Box<Readiness>, ErrorKind> {
        let Ok(events) = Events::with_capacity(alloc, SOCKETS) else {
            return Err(ErrorKind::OutOfMemory);
        };
        let poll = match Poll::new(rt) {
            Ok(poll) => poll,
            Err(fault) => return Err(fault.kind()),
        };
        match watch_both(&poll, socket, commands) {
            Ok(()) => {}
            Err(fault) => return Err(fault.kind()),
        }
        let signals = match SystemSignals::watch(poll.registry(), Token(SIGNALS)) {
            Ok(signals) => signals,
            Err(fault) => return Err(fault.kind()),
        };
        let ready = Readiness {
            poll,
            events,
            socket: true,
            commands: true,
            signals,
            listener: false,
            visits: [NO_VISIT; MOST_VISITORS],
        };
        match boxed(alloc, ready) {
            Ok(ready) => Ok(ready),
            Err(_) => Err(ErrorKind::OutOfMemory),
        }
    }

    /// Watches the site's socket too.
    pub fn watch_listener(&self, listener: &mut TcpListener) -> io::Result<()> {
        self.poll
            .registry()
            .register(listener, Token(LISTENER), Interest::READABLE)
    }

    /// Watches the socket of the visitor at this place too.
    pub fn watch_visitor(&self, stream: &mut TcpStream, place: usize) -> io::Result<()> {
        let both = Interest::READABLE | Interest::WRITABLE;
        let token = Token(FIRST_VISITOR.saturating_add(place));
        self.poll.registry().register(stream, token, both)
    }

    /// A look for lines failed so: where it only found none their socket isn't looked at again before it is told.
    pub(crate) fn fail_to_hear(&mut self, kind: ErrorKind)
        ensures { self.new ≡ record self.old { commands = may_have_more kind } }
    {
        self.commands = may_have_more(kind);
    }

    /// Nothing was told of the site's visitors.
    pub fn forget_visits(&mut self)
        ensures visits { self.new.visits ≡ replicate MOST_VISITORS no_visit }
        ensures rest { self.new ≡ record self.old { visits = self.new.visits } }
    {
        self.visits = [NO_VISIT; MOST_VISITORS];
    }

    /// Whether anything was told of a site's sockets.
    pub fn has_visits(&self) -> bool
        ensures { result ≡ has_visits self.now.listener self.now.visits }
    {
        if self.listener {
            return true;
        }
        for visit in self.visits.as_slice() {
            if visit.is_readable || visit.is_writable {
                return true;
            }
        }
        false
    }

    /// Waits until something comes, but no longer than this, in ms.
    pub fn wait(&mut self, longest: u64) -> io::Result<()> {
        match self
            .poll
            .poll(&mut self.events, Some(Duration::from_millis(longest)))
        {
            Ok(()) => {}
            Err(fault) => return Err(fault),
        }
        for event in self.events.iter() {
            match usize::from(event.token()) {
                SOCKET => self.socket = true,
                COMMANDS => self.commands = true,
                LISTENER => self.listener = true,
                SIGNALS => self.signals.is_told = true,
                token => {
                    if let Some(visit) = self.visits.get_mut(token.saturating_sub(FIRST_VISITOR)) {
                        visit.is_readable = visit.is_readable
                            || event.is_readable()
                            || event.is_read_closed();
                        visit.is_writable = visit.is_writable || event.is_writable();
                    }
                }
            }
        }
        Ok(())
    }
}
