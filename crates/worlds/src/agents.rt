//! A call agent alone, a row each. Its address is 127.0.0.1:2727, and its gateway's 127.0.0.1:2427; that has 2 lines in the
//! domain rgw.example.net.
//!
//! - `agent 999999999` a new agent, whose ids begin with this one; else they begin with 1;
//! - `issue AUEP  aaln/1@rgw.example.net` it issues a command; `issue RQNT  aaln/1@rgw.example.net  X: 1¶` one with these
//!   bytes behind its line; `issue AUEPX  aaln/1@rgw.example.net  3 BadCommand` one that is refused;
//! - `issued 1` the id of the last command that it issued;
//! - `hears 127.0.0.1:2427  200 1 OK¶` a datagram comes from this address;
//! - `tick 1000` the clock goes on; `tick 2001  2 TickTooFar`, `phone 1 off  4 NoSuchLine` what is refused; `at 30000` ticks
//!   of 1,000 ms at most, up to this moment;
//! - `sends 500 127.0.0.1:2427  AUEP 1 aaln/1@~¶` the next datagram that wasn't told yet: its moment, where it goes, and its
//!   bytes; `sends none`;
//! - `firsts 1-4096` announcements with these ids come from the gateway one by one, and each is answered at once by 200;
//! - `due 500` when something falls due next; `due none`;
//! - `answers 1  200  200 1 OK¶` the answer to the command with this id; `answers 2  none`;
//! - `taken 1  L/hd,D/5` what notifications of a line told; `taken 2  none`.
use crate::boxing::in_box;
use crate::forms::{
    Command, address_in, number_of, numbered, put_answer, put_refusal, put_taken, text_of,
};
use crate::gateways::{agent_address, gateway_address};
use crate::given::{Given, given_in};
use crate::outputs::is_just_200;
use agent_core::{Agent, IssueFault, Issued};
use endpoint_names::Route;
use gateway_core::{Event, Outputs, Refusal};
use mg_bytes::{OutOfMemory, Sequence, Text};
use scenario_files::{Outcome, Row, Scenario, bytes_of, item_at, range_in};
use std::alloc::Global;

/// An agent, and what it sent.
#[derive(Drop)]
pub struct AgentScenario {
    agent: Box<Agent>,
    // The moment that it is there.
    now: u64,
    // The id of the last command that it issued.
    issued: u32,
    // What it sent, each time that it did something.
    sent: Vec<Outputs>,
    // So many of these datagrams were told.
    told: usize,
}

// An agent whose ids begin with this one, or with 1 where none begin with it.
fn agent_from(alloc: Global, first: u32) -> Result<Box<Agent>, OutOfMemory> {
    let first = if 1 <= first && first <= 999_999_999 {
        first
    } else {
        1
    };
    let domain = Text::of(bytes_of(alloc, "rgw.example.net")?);
    let own = Route::One(agent_address());
    in_box(
        alloc,
        Agent::new(alloc, own, gateway_address(), domain, 2, first),
    )
}

fn name_of(fault: IssueFault) -> &'static str {
    match fault {
        IssueFault::OutOfMemory => "OutOfMemory",
        IssueFault::NoMoreIds => "NoMoreIds",
        IssueFault::BadCommand => "BadCommand",
    }
}

impl AgentScenario {
    // `999999999`
    fn open(&mut self, row: &mut Row<'_>) {
        let first = row.number();
        let Ok(agent) = agent_from(row.given.alloc, first) else {
            return row.given.refuse();
        };
        self.agent = agent;
        self.now = 0;
        self.issued = 0;
        self.sent = Vec::new(row.given.alloc);
        self.told = 0;
    }

    // A command is issued. There is a place for what is sent before it is.
    fn issue(&mut self, given: &mut Outcome, command: &Command) -> Result<(), OutOfMemory> {
        let mut sent = Vec::with_capacity(given.alloc, 1)?;
        self.sent.reserve(1)?;
        let issued = self.agent.issue(
            command.verb.as_bytes(),
            command.name.as_bytes(),
            command.rest.as_bytes(),
        );
        match issued {
            Ok(issued) => {
                let Issued { id, datagram } = issued;
                let _ = sent.push(datagram);
                let _ = self.sent.push(Sequence::of(sent));
                self.issued = id;
            }
            Err(IssueFault::OutOfMemory) => given.refuse(),
            Err(fault) => put_refusal(given, fault.number(), name_of(fault)),
        }
        Ok(())
    }

    // A command is issued, or an event comes: an act or a tick.
    fn take_given(&mut self, given: &mut Outcome, taken: &Given) {
        match taken {
            Given::Issue { command } => {
                let is_issued = given.is_refused || self.issue(given, command).is_ok();
                given.refuse_unless(is_issued);
            }
            Given::Dial { line, act } => self.step(
                given,
                Event::Phone {
                    line: *line,
                    act: *act,
                },
            ),
            Given::Tick { moment } => self.step(given, Event::Tick { moment: *moment }),
            Given::Deliver { .. } => given.unread(),
        }
    }

    // An event, and its refusal or nothing; what it gives is kept. There is a place for what is sent before it is.
    fn step(&mut self, given: &mut Outcome, event: Event<'_>) {
        if given.is_unread || given.is_refused {
            return;
        }
        if self.sent.reserve(1).is_err() {
            return given.refuse();
        }
        match self.agent.step(event) {
            Ok(outputs) => {
                if self.sent.push(outputs).is_err() {
                    return given.refuse();
                }
                if let Event::Tick { moment } = event {
                    self.now = moment;
                }
            }
            Err(Refusal::OutOfMemory) => given.refuse(),
            Err(refusal) => put_refusal(given, refusal.number(), refusal.name()),
        }
    }

    // `127.0.0.1:2427  200 1 OK¶`
    fn hear(&mut self, row: &mut Row<'_>) {
        let source = address_in(row);
        let field = row.rest();
        let bytes = text_of(&mut row.given, field);
        let bytes = bytes.as_bytes();
        self.step(&mut row.given, Event::Datagram { source, bytes });
    }

    // Ticks up to this moment. After a refusal of memory they go on from the last that was taken.
    fn tick_up_to(&mut self, given: &mut Outcome, end: u64) {
        for _ in 0..end.saturating_sub(self.now).div_ceil(1000) {
            let moment = self.now.saturating_add(1000).min(end);
            self.step(given, Event::Tick { moment });
            if given.is_refused || !given.bytes.is_empty() {
                return;
            }
        }
    }

    // The next datagram: its moment, where it goes, and its bytes.
    fn put_sent(&mut self, given: &mut Outcome) {
        let Some(datagram) = item_at(self.sent.as_slice(), self.told) else {
            return given.put(b"none");
        };
        given.put_shown(datagram.moment);
        given.put_behind(b" ", datagram.to);
        given.put_both(b"  ", datagram.bytes.as_bytes());
        if !given.is_refused {
            self.told = self.told.wrapping_add(1);
        }
    }

    // Whether an announcement with this id is answered by 200.
    fn is_answered(&mut self, given: &mut Outcome, id: u32) -> bool {
        let behind = " *@rgw.example.net MGCP 1.0\r\nRM: restart\r\n";
        let text = numbered(given, "RSIP ", id, behind);
        if given.is_refused {
            return false;
        }
        let sent = self.agent.step(Event::Datagram {
            source: gateway_address(),
            bytes: text.as_bytes(),
        });
        is_just_200(given, &sent, gateway_address(), id)
    }

    // `1-4096`. Where memory is refused the first of them come again, which gives the same answers.
    fn announce(&mut self, row: &mut Row<'_>) {
        let Some((first, last)) = range_in(row.rest()) else {
            return row.given.unread();
        };
        for id in first..=last {
            if !self.is_answered(&mut row.given, id) {
                row.given.put(b"another answer to ");
                return row.given.put_shown(id);
            }
        }
    }
}

impl Scenario for AgentScenario {
    fn begin(alloc: Global) -> Result<AgentScenario, OutOfMemory> {
        Ok(AgentScenario {
            agent: agent_from(alloc, 1)?,
            now: 0,
            issued: 0,
            sent: Vec::new(alloc),
            told: 0,
        })
    }

    fn turn(&mut self, row: &mut Row<'_>) {
        row.is_exact = true;
        let word = row.before(" ");
        match word {
            "agent" => self.open(row),
            "issued" => row.given.put_shown(self.issued),
            "hears" => self.hear(row),
            "at" => {
                let words = row.rest();
                let end = number_of(&mut row.given, words);
                self.tick_up_to(&mut row.given, end);
            }
            "sends" => self.put_sent(&mut row.given),
            "firsts" => self.announce(row),
            "due" => row.given.put_or_none(self.agent.next_due()),
            "answers" => put_answer(row, &self.agent),
            "taken" => put_taken(row, &self.agent),
            _ => match given_in(row, word) {
                Some(taken) => self.take_given(&mut row.given, &taken),
                None => row.given.unread(),
            },
        }
    }
}
