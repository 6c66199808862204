//! Signals of the system. A program can't ask the system for them. So the launcher (packaging/launcher.c) blocks SIGTERM, SIGINT and
//! SIGHUP, as far as they are to end the program, and opens a signalfd(2) for them at a number that is agreed on.
use libc::net::{POLLIN, poll};
use libc::read;
use libc::types::pollfd;
use mio::unix::SourceFd;
use mio::{Interest, Registry, Token};
use std::io;
use std::os::fd::RawFd;
use std::rt::Clock;
use std::thread::sleep;
use std::time::Duration;

const NUMBER: RawFd = 3;

// Where the system says what is open there, and what it says of a signalfd(2).
const PATH: &[u8] = b"/proc/self/fd/3";

const KIND: &[u8] = b"anon_inode:[signalfd]";

// The record of one signal has so many bytes. The first four are its number, in the order of the machine.
const RECORD: usize = 128;

const HANGUP: u32 = 1;

const INTERRUPT: u32 = 2;

const TERMINATE: u32 = 15;

// Whether a launcher has opened it.
fn is_open() -> bool {
    let mut room = [0u8; 64];
    match usize::try_from(os::readlink(PATH, &mut room)) {
        Ok(length) => room.get(..length) == Some(KIND),
        Err(_) => false,
    }
}

// The line that a signal stands for. Another signal is an empty line, which asks for nothing.
fn line_of(record: &[u8; RECORD]) -> &'static [u8] {
    match u32::from_le_bytes([record[0], record[1], record[2], record[3]]) {
        TERMINATE | INTERRUPT | HANGUP => b"stop",
        _ => b"",
    }
}

/// The signals that are read from the launcher's descriptor.
#[derive(Clone, Copy)]
pub struct SystemSignals {
    are_given: bool,
    /// Whether one may have come since none was found.
    pub is_told: bool,
}

impl SystemSignals {
    /// Watches for signals, where a launcher gives them: one may have come already.
    pub fn watch(registry: &Registry, token: Token) -> io::Result<SystemSignals> {
        let are_given = is_open();
        if are_given {
            match registry.register(&mut SourceFd(&NUMBER), token, Interest::READABLE) {
                Ok(()) => {}
                Err(fault) => return Err(fault),
            }
        }
        Ok(SystemSignals {
            are_given,
            is_told: are_given,
        })
    }

    /// The line that the next signal stands for, if one has come.
    pub fn line(&mut self) -> Option<&'static [u8]> {
        if !self.are_given || !self.is_told {
            return None;
        }
        let mut record = [0u8; RECORD];
        match usize::try_from(read(NUMBER, &mut record)) {
            Ok(RECORD) => Some(line_of(&record)),
            _ => {
                self.is_told = false;
                None
            }
        }
    }

    /// Waits until one comes, but no longer than this, in ms. It isn't taken.
    pub fn wait<R: Clock>(self, rt: &R, longest: u64) {
        if !self.are_given {
            sleep(rt, Duration::from_millis(longest));
            return;
        }
        let mut waited = [pollfd {
            fd: NUMBER,
            events: POLLIN,
            revents: 0,
        }];
        let _ = poll(&mut waited, i32::try_from(longest).unwrap_or(i32::MAX));
    }
}
