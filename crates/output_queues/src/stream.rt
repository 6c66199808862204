//! Where something is written that nobody may read: by no write that waits.
ghost use Rattle.std.specs.Prelude.{◌≡◌};
ghost use Rattle.output_queues.specs.declared.stream.Way.TheVariants.{Own};

use libc::net::{POLLNVAL, POLLOUT, poll};
use libc::types::pollfd;
use std::fs::OpenOptions;
use std::io::{ErrorKind, Write};
use std::os::fd::{AsRawFd, RawFd};
use std::os::unix::fs::{FileTypeExt, OpenOptionsExt};
use std::rt::Files;
use std::{fs, io};

// Who may read and write a file that is made: its owner.
const OWNER_ALONE: u32 = 0o600;

const OUTPUT: RawFd = 1;

const ERROR: RawFd = 2;

// Where the system has them.
const OUTPUT_PATH: &str = "/proc/self/fd/1";

const ERROR_PATH: &str = "/proc/self/fd/2";

// What takes anything takes so many bytes at once: PIPE_BUF of a pipe.
const PIECE: usize = 4096;

// A terminal may take no more.
const TERMINAL_PIECE: usize = 128;

// How bytes go there.
#[derive(Drop)]
enum Way<F> {
    // They don't: it isn't open.
    Closed,
    // By the number that was given: a file, which doesn't wait.
    Plain,
    // By one of its own, by which no write waits: a pipe or a terminal, opened anew, or a file that was made.
    Own(F),
    // By the number that was given, which is asked before each piece of so many bytes whether it takes one: a socket, or what may not be
    // opened anew.
    Asked { piece: usize },
}

/// Where something is written.
#[derive(Drop)]
pub struct Stream<F> {
    // The number that was given.
    number: RawFd,
    way: Way<F>,
}

// What the system is asked of a stream, if it is asked that: it passes over a number below 0.
fn question(number: RawFd, is_asked: bool) -> pollfd {
    pollfd {
        fd: if is_asked { number } else { -1 },
        events: POLLOUT,
        revents: 0,
    }
}

/// Waits until standard output or standard error, of those that are asked, takes something, or has failed; but no longer than this, in
/// ms.
pub fn wait_for_streams(output: bool, error: bool, longest: u64) {
    let mut asked = [question(OUTPUT, output), question(ERROR, error)];
    let longest = i32::try_from(longest).unwrap_or(i32::MAX);
    let _ = poll(&mut asked, longest);
}

// Whether a stream takes something now, or has failed.
fn takes(number: RawFd) -> bool {
    poll(&mut [question(number, true)], 0) > 0
}

// Whether it is open.
fn is_open(number: RawFd) -> bool {
    let mut asked = [question(number, true)];
    let _ = poll(&mut asked, 0);
    asked[0].revents & POLLNVAL == 0
}

// A copy by which no write waits; where that can't be had the number is asked.
fn own_way<F: AsRawFd + Drop>(opened: io::Result<F>, piece: usize) -> Way<F> {
    match opened {
        Ok(file) => {
            if os::set_nonblocking(file.as_raw_fd(), true) == 0 {
                Way::Own(file)
            } else {
                Way::Asked { piece }
            }
        }
        Err(_) => Way::Asked { piece },
    }
}

// Opened anew for writing alone: so a terminal comes to control nothing.
fn open_anew<R: Files>(rt: &R, path: &str) -> io::Result<R::File> {
    OpenOptions::new().write(true).open(rt, path)
}

// The same of a pipe: so it is told where nobody reads it any more. That open would wait where nobody does already, unless this program
// reads too.
fn open_pipe_anew<R: Files>(rt: &R, path: &str) -> io::Result<R::File> {
    let _reads = OpenOptions::new().read(true).write(true).open(rt, path)?;
    open_anew(rt, path)
}

// The way to what is at this number, which the system has at this path.
fn way_of<R: Files>(rt: &R, number: RawFd, path: &str) -> Way<R::File>
where
    R::File: AsRawFd,
{
    let Ok(known) = fs::metadata(rt, path) else {
        return if is_open(number) {
            Way::Asked {
                piece: TERMINAL_PIECE,
            }
        } else {
            Way::Closed
        };
    };
    let kind = known.file_type();
    if kind.is_fifo() {
        return own_way(open_pipe_anew(rt, path), PIECE);
    }
    if kind.is_char_device() {
        return own_way(open_anew(rt, path), TERMINAL_PIECE);
    }
    if kind.is_socket() {
        return Way::Asked { piece: PIECE };
    }
    Way::Plain
}

// Writes by a number: how much of a text was taken.
fn write_by(number: RawFd, text: &[u8]) -> io::Result<usize> {
    match usize::try_from(libc::write(number, text)) {
        Ok(count) => Ok(count),
        Err(_) => Err(io::Error::from_raw_os_error(os::errno())),
    }
}

impl<F: Write + Drop> Stream<F> {
    /// Standard output.
    pub fn output<R: Files<File = F>>(rt: &R) -> Stream<F>
    where
        F: AsRawFd,
    {
        Stream {
            number: OUTPUT,
            way: way_of(rt, OUTPUT, OUTPUT_PATH),
        }
    }

    /// Standard error.
    pub fn error<R: Files<File = F>>(rt: &R) -> Stream<F>
    where
        F: AsRawFd,
    {
        Stream {
            number: ERROR,
            way: way_of(rt, ERROR, ERROR_PATH),
        }
    }

    /// A stream over what never waits, as a file, or what takes its place in memory.
    pub fn over(file: F) -> Stream<F>
        ensures { result.way ≡ Own file }
    {
        Stream {
            number: -1,
            way: Way::Own(file),
        }
    }

    // Writes of a text what is taken.
    fn write(&mut self, text: &[u8]) -> io::Result<usize> {
        let number = self.number;
        match &mut self.way {
            Way::Closed => Ok(text.len()),
            Way::Plain => write_by(number, text),
            Way::Own(file) => file.write(text),
            Way::Asked { piece } => {
                if takes(number) {
                    write_by(number, text.get(..*piece).unwrap_or(text))
                } else {
                    Ok(0)
                }
            }
        }
    }

    /// Writes the front of a text, as much as is taken at once: how many bytes that is. No write waits. An error says why it can't be
    /// written.
    pub fn take(&mut self, text: &[u8]) -> io::Result<usize> {
        match self.write(text) {
            Ok(count) => Ok(count),
            Err(fault) => {
                let kind = fault.kind();
                if kind == ErrorKind::WouldBlock || kind == ErrorKind::Interrupted {
                    return Ok(0);
                }
                Err(fault)
            }
        }
    }
}

/// A file of this name that isn't there yet, for its owner alone. What is there already, as a named pipe, is an error.
pub fn make_for_owner<R: Files>(rt: &R, name: &str) -> io::Result<Stream<R::File>> {
    let file = OpenOptions::new()
        .write(true)
        .create_new(true)
        .mode(OWNER_ALONE)
        .open(rt, name)?;
    Ok(Stream::over(file))
}
