//! The machine's sockets and clock, as a loop stands on them.
ghost use Rattle.std.specs.Prelude.{◌≡◌};

use crate::address_words::AddressWord;
use crate::clock::LiveClock;
use crate::ending::CommonEnding;
use crate::readiness::Readiness;
use live_io::{Fault, Surroundings, Told};
use mio::net::UdpSocket;
use output_queues::boxed;
use std::alloc::Global;
use std::io;
use std::io::ErrorKind;
use std::net::{Ipv4Addr, Net, SocketAddr, SocketAddrV4};
use std::rt::Clock;

// Who types the line that a signal stands for: somebody of this machine, who can't be answered.
fn nobody() -> SocketAddr {
    SocketAddr::V4(SocketAddrV4::new(Ipv4Addr::LOCALHOST, 0))
}

/// A socket for datagrams, another for lines of who types, and the machine's clock. What went over sockets isn't told. A signal of the
/// system that is to end the program is heard as `stop`, typed at this machine.
pub struct Live<'a, R> {
    pub rt: &'a R,
    socket: UdpSocket,
    commands: UdpSocket,
    // Their addresses.
    own: [SocketAddrV4; 2],
    /// What the system told of its sockets, and of a page's.
    pub ready: Box<Readiness>,
    pub clock: LiveClock<'a, R>,
}

// Written out: a derived drop, and those of all its parts, are proved anew by each crate that lets one go.
impl<R> Drop for Live<'_, R> {
    fn drop(self) {
        let Live {
            rt: _,
            socket: datagrams,
            commands: lines,
            own: _,
            ready,
            clock,
        } = self;
        drop(datagrams);
        drop(lines);
        drop(ready);
        drop(clock);
    }
}

/// A socket that a word asks for, or a key of a configuration.
#[derive(Clone, Copy)]
pub struct SocketWanted {
    pub word: AddressWord,
    pub address: SocketAddrV4,
}

impl SocketWanted {
    // How a program ends that doesn't get it, for an error of this kind.
    fn refused(self, kind: ErrorKind) -> CommonEnding {
        CommonEnding::unbound(self.word, self.address, kind)
    }
}

// A socket at this address, that is waited for.
fn bind<R: Net>(rt: &R, address: SocketAddrV4) -> io::Result<UdpSocket> {
    UdpSocket::bind(rt, SocketAddr::V4(address))
}

// The address of a socket; port 0, from which nothing comes, where it has none of the kind that sockets here have.
fn address_of(socket: &UdpSocket) -> SocketAddrV4 {
    match socket.local_addr() {
        Ok(SocketAddr::V4(address)) => address,
        Ok(SocketAddr::V6(_)) | Err(_) => SocketAddrV4::new(Ipv4Addr::UNSPECIFIED, 0),
    }
}

impl<'a, R: Net + Clock> Live<'a, R> {
    /// These sockets, and the clock at moment 0. To each something may have come already. An error is of the system's kind.
    pub fn watch(
        rt: &'a R,
        alloc: Global,
        mut socket: UdpSocket,
        mut commands: UdpSocket,
    ) -> Result<Box<Live<'a, R>>, ErrorKind> {
        let own = [address_of(&socket), address_of(&commands)];
        let ready = match Readiness::watch(rt, alloc, &mut socket, &mut commands) {
            Ok(ready) => ready,
            Err(kind) => return Err(kind),
        };
        let clock = match LiveClock::start(rt) {
            Ok(clock) => clock,
            Err(fault) => return Err(fault.kind()),
        };
        let live = Live {
            rt,
            socket,
            commands,
            own,
            ready,
            clock,
        };
        match boxed(alloc, live) {
            Ok(live) => Ok(live),
            Err(_) => Err(ErrorKind::OutOfMemory),
        }
    }

    /// The sockets that words ask for, for datagrams and for lines of who types, and the clock at moment 0. An error says how the program
    /// ends then.
    pub fn open(
        rt: &'a R,
        alloc: Global,
        datagrams: SocketWanted,
        lines: SocketWanted,
    ) -> Result<Box<Live<'a, R>>, CommonEnding> {
        let socket = match bind(rt, datagrams.address) {
            Ok(socket) => socket,
            Err(fault) => return Err(datagrams.refused(fault.kind())),
        };
        let commands = match bind(rt, lines.address) {
            Ok(commands) => commands,
            Err(fault) => return Err(lines.refused(fault.kind())),
        };
        match Live::watch(rt, alloc, socket, commands) {
            Ok(live) => Ok(live),
            Err(kind) => Err(datagrams.refused(kind)),
        }
    }

    /// Waits so long, in ms, whatever comes to its sockets; less where a signal comes, which is heard later.
    pub fn sleep(&self, longest: u64) {
        self.ready.signals.wait(self.rt, longest);
    }
}

impl<R: Net + Clock> Surroundings for Live<'_, R> {
    ghost use Rattle.live_io.specs.Around.{unasked};

    ghost around = { record unasked { sockets = λ live. live.own } };

    fn moment(&self) -> Result<u64, Fault> {
        match self.clock.passed() {
            Ok(passed) => Ok(passed),
            Err(_) => Err(Fault),
        }
    }

    fn time(&self) -> u64 {
        self.clock.time()
    }

    fn own(&self) -> [SocketAddrV4; 2] {
        self.own
    }

    fn told(&self) -> Told {
        Told {
            lines: self.ready.commands || self.ready.signals.is_told,
            datagrams: self.ready.socket,
        }
    }

    fn wait(&mut self, longest: u64) -> Result<(), Fault> {
        match self.ready.wait(longest) {
            Ok(()) => Ok(()),
            Err(_) => Err(Fault),
        }
    }

    fn receive(&mut self, room: &mut [u8]) -> Result<Option<(SocketAddrV4, usize)>, Fault> {
        match self.socket.recv_from(room) {
            Ok((len, SocketAddr::V4(source))) => Ok(Some((source, len))),
            Ok(_) => Ok(None),
            Err(fault) => match fault.kind() {
                // It is empty, and isn't looked at again before it is told.
                ErrorKind::WouldBlock => {
                    self.ready.socket = false;
                    Ok(None)
                }
                ErrorKind::Interrupted => Ok(None),
                _ => Err(Fault),
            },
        }
    }

    fn send(&mut self, to: SocketAddrV4, bytes: &[u8]) -> Result<(), Fault> {
        match self.socket.send_to(bytes, SocketAddr::V4(to)) {
            Ok(len) if len == bytes.len() => Ok(()),
            _ => Err(Fault),
        }
    }

    fn hear(&mut self, room: &mut [u8]) -> Option<(SocketAddr, usize)> {
        if let Some(line) = self.ready.signals.line() {
            if let Some(place) = room.get_mut(..line.len()) {
                place.copy_from_slice(line);
                return Some((nobody(), line.len()));
            }
        }
        match self.commands.recv_from(room) {
            Ok((len, source)) => Some((source, len)),
            Err(fault) => {
                self.ready.fail_to_hear(fault.kind());
                None
            }
        }
    }

    fn answer(&mut self, to: SocketAddr, text: &[u8]) {
        let _ = self.commands.send_to(text, to);
    }
}
