//! A line is sent to somebody's socket, and the answer is waited for.
use std::io;
use std::io::ErrorKind;
use std::net::{Ipv4Addr, Net, SocketAddrV4, UdpSocket};
use std::rt::Clock;
use std::time::{Duration, Instant};

// So long an answer is waited for, in ms.
const LONGEST_WAIT: u64 = 2000;

/// Why a line isn't answered.
#[derive(Clone, Copy)]
pub enum AskFault {
    /// Nobody answers at that address.
    NoAnswer,
    /// The clock can't be read.
    Clock,
    /// The system gives no socket for it, by an error of this kind.
    Refused { kind: ErrorKind },
}

// Why a line isn't answered that can't be sent.
fn unsent(fault: io::Error) -> AskFault {
    match fault.kind() {
        ErrorKind::ConnectionRefused => AskFault::NoAnswer,
        kind => AskFault::Refused { kind },
    }
}

// What came of waiting.
enum Heard {
    // The answer, of so many bytes.
    Answer { length: usize },
    // Something that is no answer.
    Other,
    // Nothing will come.
    Nothing,
}

// Waits so long, in ms, for a datagram of the peer's.
fn take_from_peer(socket: &UdpSocket, left: u64, room: &mut [u8]) -> Result<Heard, AskFault> {
    let peer = match socket.peer_addr() {
        Ok(peer) => peer,
        Err(fault) => return Err(unsent(fault)),
    };
    match socket.set_read_timeout(Some(Duration::from_millis(left))) {
        Ok(()) => {}
        Err(fault) => return Err(unsent(fault)),
    }
    match socket.recv_from(room) {
        Ok((length, source)) if source == peer => Ok(Heard::Answer { length }),
        // It came before the socket was connected.
        Ok(_) => Ok(Heard::Other),
        Err(fault) if fault.kind() == ErrorKind::Interrupted => Ok(Heard::Other),
        // The time is over, or the system says that nobody is there.
        Err(_) => Ok(Heard::Nothing),
    }
}

// Waits for the answer, and leaves it alone in the room.
fn hear<R: Clock>(rt: &R, socket: &UdpSocket, room: &mut Vec<u8>) -> Result<(), AskFault> {
    let Ok(start) = Instant::now(rt) else {
        return Err(AskFault::Clock);
    };
    for _ in 0..u16::MAX {
        let passed = match start.elapsed(rt) {
            Ok(passed) => u64::try_from(passed.as_millis()).unwrap_or(u64::MAX),
            Err(_) => return Err(AskFault::Clock),
        };
        // How long an answer is still waited for, in ms.
        let left = LONGEST_WAIT.saturating_sub(passed);
        if left == 0 {
            break;
        }
        match take_from_peer(socket, left, room.as_mut_slice()) {
            Ok(Heard::Answer { length }) => {
                room.truncate(length);
                return Ok(());
            }
            Ok(Heard::Other) => {}
            Ok(Heard::Nothing) => break,
            Err(fault) => return Err(fault),
        }
    }
    Err(AskFault::NoAnswer)
}

/// Sends a line to a socket at this address, and leaves its first answer alone in the room, if one comes within 2 s.
pub fn ask<R: Net + Clock>(
    rt: &R,
    address: SocketAddrV4,
    line: &[u8],
    room: &mut Vec<u8>,
) -> Result<(), AskFault> {
    let socket = match UdpSocket::bind(rt, SocketAddrV4::new(Ipv4Addr::UNSPECIFIED, 0)) {
        Ok(socket) => socket,
        Err(fault) => return Err(unsent(fault)),
    };
    // So it takes datagrams from there alone, and it is told where nobody is there.
    let sent = match socket.connect(address) {
        Ok(()) => socket.send(line),
        Err(fault) => Err(fault),
    };
    match sent {
        Ok(_) => hear(rt, &socket, room),
        Err(fault) => Err(unsent(fault)),
    }
}
