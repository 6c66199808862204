//! Stories of `rgwd --tell`: a line that is sent to somebody's telephones, and what is printed of their answers.
//!
//! Who asks has a socket of the machine's, and so have the telephones here; the clock is the story's. Each time that it is looked at what
//! comes next comes, at its moment.
use crate::stories::{Clocks, Plan, Story, Transcript, put_sent};
use live_io::{Coming, Happening};
use live_system::{AskFault, ask, put_printed};
use mg_bytes::OutOfMemory;
use rgwd_words::answered_by;
use scenario_files::parted;
use std::alloc::Global;
use std::cell::Cell;
use std::net::{Ipv4Addr, Net, SocketAddr, SocketAddrV4, UdpSocket};
use std::rc::Rc;
use std::rt::Clock;
use std::time::Duration;
use std::{io, mem};

// No datagram has more bytes (RFC 768).
const ROOM: usize = 65_535;

// So long it is waited for the line, in ms. What was sent on the loopback is there at once.
const LONGEST_WAIT: u64 = 200;

// A moment past each at which an answer is waited for.
const LATE: u64 = 1_000_000;

// Telephones that answer by a story, and the clock of who asks them.
#[derive(Drop)]
struct Telephones<'a, R> {
    alloc: Global,
    rt: &'a R,
    clocks: Rc<Clocks>,
    // Their address in the story, and their socket.
    address: SocketAddrV4,
    socket: UdpSocket,
    // Who asked, once the line has come.
    asker: Cell<Option<SocketAddr>>,
    // What is to come, and what was given; nothing while that is taken out.
    plan: Cell<Option<Plan>>,
    given: Cell<Option<Transcript>>,
}

// The line comes, and is told: who sent it.
fn hear<R>(telephones: &Telephones<'_, R>) -> Option<SocketAddr> {
    let mut room = [0u8; 1024];
    let (len, asker) = telephones.socket.recv_from(&mut room).ok()?;
    let mut given = telephones.given.replace(None)?;
    let line = room.get(..len).unwrap_or(&[]);
    let at = telephones.clocks.stamp();
    put_sent(telephones.alloc, &mut given, at, telephones.address, line);
    telephones.given.set(Some(given));
    Some(asker)
}

// What is to come next.
fn next<R>(telephones: &Telephones<'_, R>) -> Option<Coming> {
    let mut plan = telephones.plan.replace(None)?;
    let next = plan.coming.pop_front();
    telephones.plan.set(Some(plan));
    next
}

// What is to come next comes, at its moment; where nothing is, it is late.
fn answer<R>(telephones: &Telephones<'_, R>, asker: SocketAddr) {
    let Some(Coming { moment, what }) = next(telephones) else {
        return telephones.clocks.reach(LATE);
    };
    telephones.clocks.reach(moment);
    if let Happening::Datagram { bytes, .. } = what {
        let _ = telephones.socket.send_to(bytes.as_slice(), asker);
    }
}

impl<R> Clock for Telephones<'_, R> {
    fn monotonic(&self) -> io::Result<Duration> {
        match self.asker.get() {
            Some(asker) => answer(self, asker),
            None => self.asker.set(hear(self)),
        }
        self.clocks.monotonic()
    }

    fn since_1970(&self) -> io::Result<Duration> {
        self.clocks.since_1970()
    }
}

impl<R: Net> Net for Telephones<'_, R> {
    type Stream = R::Stream;

    type Listener = R::Listener;

    fn bind(&self, addr: SocketAddr) -> io::Result<R::Listener> {
        self.rt.bind(addr)
    }

    fn connect(&self, addr: SocketAddr) -> io::Result<R::Stream> {
        self.rt.connect(addr)
    }

    fn bind_udp(&self, addr: SocketAddr) -> io::Result<UdpSocket> {
        self.rt.bind_udp(addr)
    }
}

// A socket of this machine, at any port.
fn socket_of<R: Net>(rt: &R) -> io::Result<(UdpSocket, SocketAddrV4)> {
    let socket = UdpSocket::bind(rt, SocketAddrV4::new(Ipv4Addr::LOCALHOST, 0))?;
    socket.set_read_timeout(Some(Duration::from_millis(LONGEST_WAIT)))?;
    match socket.local_addr()? {
        SocketAddr::V4(address) => Ok((socket, address)),
        SocketAddr::V6(_) => Err(io::Error::from(io::ErrorKind::Unsupported)),
    }
}

// The address of the telephones, and the line, that words ask for, if they ask for that: `--tell 127.0.0.1:2428 phone 1 off`.
fn asked_in(words: &[String]) -> Option<(SocketAddrV4, &str)> {
    let asked = words.first()?.as_str().strip_prefix("--tell ")?;
    let (address, line) = parted(asked, " ");
    Some((address.parse::<SocketAddrV4>().ok()?, line))
}

// Puts what is printed of an answer, and with which status the program ends by it, where a story asks for that.
fn put_answer<R>(
    telephones: &Telephones<'_, R>,
    answer: &[u8],
    has_status: bool,
    given: &mut Transcript,
) -> Result<(), OutOfMemory> {
    let mut text = Vec::new(telephones.alloc);
    put_printed(telephones.alloc, &mut text, answer)?;
    let at = telephones.clocks.stamp();
    given.tell(at, b"print ", text.as_slice());
    if has_status {
        given.tell_status(at, answered_by(answer).status());
    }
    Ok(())
}

// Sends a line to telephones that are there, and puts what is printed: whether it was sent.
fn tell<R: Net>(
    telephones: &Telephones<'_, R>,
    there: SocketAddrV4,
    line: &str,
    has_status: bool,
    given: &mut Transcript,
) -> Result<bool, OutOfMemory> {
    let mut room = vec![in telephones.alloc; 0u8; ROOM]?;
    match ask(telephones, there, line.as_bytes(), &mut room) {
        Ok(()) => put_answer(telephones, room.as_slice(), has_status, given)?,
        Err(AskFault::NoAnswer) => {}
        Err(AskFault::Clock | AskFault::Refused { .. }) => return Ok(false),
    }
    match telephones.given.replace(None) {
        Some(mut sent) => given.append(&mut sent),
        None => given.refuse(),
    }
    Ok(true)
}

/// Puts what is sent and printed where the words of a story ask for that, and whether it can be; nothing where they don't.
pub fn play_telling<R: AllocGlobal + Net>(
    rt: &R,
    story: &mut Story,
    given: &mut Transcript,
) -> Result<Option<bool>, OutOfMemory> {
    let alloc = rt.alloc();
    let Some((address, line)) = asked_in(story.words.as_slice()) else {
        return Ok(None);
    };
    let Ok((socket, there)) = socket_of(rt) else {
        return Ok(Some(false));
    };
    let plan = mem::replace(&mut story.plan, Plan::none(alloc));
    let telephones = Telephones {
        alloc,
        rt,
        clocks: story.clocks.clone()?,
        address,
        socket,
        asker: Cell::new(None),
        plan: Cell::new(Some(plan)),
        given: Cell::new(Some(Transcript::new(alloc))),
    };
    let has_status = story.has_status;
    Ok(Some(tell(&telephones, there, line, has_status, given)?))
}
