//! A gateway that is served over a UDP socket, with the call agent's in the same process.
//!
//! Under a title stand rows of two fields, two blanks apart: a datagram that the agent sends before a turn is served, and
//! what it gets then.
//!
//! - `AUEP 1200 aaln/1@~¶  200 1200 OK¶` an answer;
//! - `200 7 OK¶  none` nothing;
//! - `''  fault: 1 not received, 0 not sent` nothing is sent, so the turn is a fault; so many the socket has counted so far.
use crate::forms::text_of;
use crate::gateways::usual_gateway;
use gateway_core::{DATAGRAM_ROOM, Gateway};
use mg_bytes::OutOfMemory;
use rgw_play::UdpWire;
use scenario_files::{Outcome, Report, Row, Titled, in_full, told_titled};
use std::alloc::Global;
use std::net::{Ipv4Addr, Net, SocketAddrV4, UdpSocket};
use std::time::Duration;

// For how long each socket waits for a datagram, in ms. What was sent on the loopback is there at once.
const LONGEST_WAIT: u64 = 200;

// Both ends: a gateway with its socket, and the agent's socket.
#[derive(Drop)]
struct Ends {
    gateway: Box<Gateway>,
    wire: UdpWire,
    agent: UdpSocket,
}

// A free port of this host.
fn any_port() -> SocketAddrV4 {
    SocketAddrV4::new(Ipv4Addr::LOCALHOST, 0)
}

// The agent's socket beside that of the gateway, which hears that alone and waits so long; nothing where the host refuses it.
fn agent_beside<R: Net>(rt: &R, wire: &UdpWire, wait: Duration) -> Option<UdpSocket> {
    let address = wire.address().ok()?;
    let agent = UdpSocket::bind(rt, any_port()).ok()?;
    if agent.set_read_timeout(Some(wait)).is_err() || agent.connect(address).is_err() {
        return None;
    }
    Some(agent)
}

// Both ends, each at a free port; nothing where the host refuses one, or memory.
fn both_ends<R: AllocGlobal + Net>(rt: &R) -> Option<Ends> {
    let wait = Duration::from_millis(LONGEST_WAIT);
    let gateway = usual_gateway(rt.alloc()).ok()?;
    let wire = UdpWire::bind(rt, any_port(), wait).ok()?;
    let agent = agent_beside(rt, &wire, wait)?;
    Some(Ends {
        gateway,
        wire,
        agent,
    })
}

// What the agent gets.
fn put_received(given: &mut Outcome, agent: &UdpSocket) {
    let mut room = [0u8; DATAGRAM_ROOM];
    match agent.recv(&mut room) {
        Ok(len) => match room.get(..len) {
            Some(bytes) => given.put(bytes),
            None => given.put(b"more than there is room for"),
        },
        Err(_) => given.put(b"none"),
    }
}

impl Ends {
    // What comes of a turn.
    fn serve(&mut self, given: &mut Outcome) {
        if self.gateway.serve(&mut self.wire, 1).receive_faults == 0 {
            return put_received(given, &self.agent);
        }
        given.put_behind(b"fault: ", self.wire.receive_faults());
        given.put_behind(b" not received, ", self.wire.send_faults());
        given.put(b" not sent");
    }

    // What comes of a datagram of the agent's, and a turn.
    fn turn(&mut self, row: &mut Row<'_>) {
        row.is_exact = true;
        let field = row.before("  ");
        let bytes = text_of(&mut row.given, field);
        let bytes = bytes.as_bytes();
        if row.given.is_refused || (!bytes.is_empty() && self.agent.send(bytes).is_err()) {
            return row.given.put(b"it can't be sent");
        }
        self.serve(&mut row.given);
    }

    // What a row gives that it doesn't say.
    fn unlike(&mut self, alloc: Global, written: &str) -> Result<Option<String>, OutOfMemory> {
        let full = in_full(alloc, written)?;
        let mut row = Row::of(alloc, full.as_str());
        self.turn(&mut row);
        row.unlike()
    }

    // Tells the rows under a title.
    fn told(&mut self, alloc: Global, title: &str, lines: &str, report: &mut Report) {
        for row in lines.lines() {
            if !row.is_empty() && !row.starts_with('#') {
                let unlike = self.unlike(alloc, row);
                report.row(title, row, &unlike);
            }
        }
    }
}

// Rows at two new ends under each title.
#[derive(Clone, Copy)]
struct SocketRows;

impl Titled for SocketRows {
    fn told<R: AllocGlobal + Net>(
        &mut self,
        rt: &R,
        title: &str,
        lines: &str,
        report: &mut Report,
    ) {
        match both_ends(rt) {
            Some(mut ends) => ends.told(rt.alloc(), title, lines, report),
            None => report.wrong(title, "\n  there are no sockets\n"),
        }
    }
}

/// Tells the rows of a file.
pub fn told<R: AllocGlobal + Net>(rt: &R, text: &str, report: &mut Report) {
    told_titled(rt, &mut SocketRows, text, report);
}
