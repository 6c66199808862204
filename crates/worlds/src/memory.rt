//! A gateway that takes events, and is served over a wire in memory, a row each:
//!
//! - `gives datagram 200 1 OK¶`, `gives phone 1 off`, `gives at 1000`, `gives end`, `gives fault` what the next wire is to
//!   give, a turn each; behind that it fails at each turn;
//! - `wire` there is such a wire now; `wire 2` the same, which fails to take the second datagram that is handed to it;
//! - `serve 100` the gateway is served over it for so many turns;
//! - `served 8 turns, 2 refused, 1 not received, 0 not sent, ended` what came of that;
//! - `run 3 taken` in place of a wire the gateway takes these events in one run; `run 2 taken, 5 PhoneState` the same, which
//!   stops at a refusal behind two; what it sends is handed to a new wire;
//! - `audits 1-20000` audits of line 1 with these ids come from the agent, the first after 10 ms, one each 10 ms, and each is
//!   answered at once by 200 and by nothing else;
//! - `sent 200 1200 OK¶` the next datagram that was handed to the wire, which goes to the agent; `sent none`;
//! - `due 501` when something falls due next; `due none`;
//! - `hook 1 off` the telephone of a line.
use crate::forms::{numbered, put_refusal};
use crate::gateways::{agent_address, put_hook, usual_gateway};
use crate::outputs::is_just_200;
use crate::plan::Planned;
use crate::planned::{event_of, planned_in};
use crate::playing::MemoryWire;
use gateway_core::{Event, Gateway, Outputs, Served, Wire};
use mg_bytes::{OutOfMemory, Sequence};
use scenario_files::{Outcome, Row, Scenario, number_in, range_in};
use std::alloc::{AllocError, Global};
use std::mem;

/// A gateway, and the wire over which it is served.
#[derive(Drop)]
pub struct MemoryScenario {
    gateway: Box<Gateway>,
    // For the next wire.
    plan: Vec<Planned>,
    wire: MemoryWire,
    served: Served,
    // So many of the datagrams that were handed to the wire were told.
    told: usize,
}

// What came of serving no turn.
const NOT_SERVED: Served = Served {
    turns: 0,
    refused: 0,
    receive_faults: 0,
    send_faults: 0,
    ended: false,
};

// The events that a plan gives.
fn events_of(alloc: Global, plan: &[Planned]) -> Result<Vec<Event<'_>>, OutOfMemory> {
    let mut events = Vec::with_capacity(alloc, plan.len())?;
    for planned in plan {
        if let Some(event) = event_of(planned) {
            events.push(event)?;
        }
    }
    Ok(events)
}

// Puts how many events were taken.
fn put_count(given: &mut Outcome, taken: usize) {
    given.put_shown(taken);
    given.put(b" taken");
}

// What a gateway sends to the events of a plan in one run. Puts what came of them.
fn run_plan(given: &mut Outcome, gateway: &mut Gateway, plan: &[Planned]) -> Outputs {
    let Ok(events) = events_of(given.alloc, plan) else {
        given.refuse();
        return Sequence::new(given.alloc);
    };
    match gateway.run(&events) {
        Ok(outputs) => {
            put_count(given, events.len());
            outputs
        }
        Err(stopped) => {
            put_count(given, stopped.place);
            given.put(b", ");
            put_refusal(given, stopped.refusal.number(), stopped.refusal.name());
            stopped.outputs
        }
    }
}

// What came of turns that were served, as a row says it.
fn put_served(given: &mut Outcome, served: &Served) {
    given.put_shown(served.turns);
    given.put_behind(b" turns, ", served.refused);
    given.put_behind(b" refused, ", served.receive_faults);
    given.put_behind(b" not received, ", served.send_faults);
    given.put(b" not sent");
    if served.ended {
        given.put(b", ended");
    }
}

// For the next wire.
fn plan_more(plan: &mut Vec<Planned>, row: &mut Row<'_>) {
    let planned = planned_in(row);
    if row.given.is_refused || plan.push(planned).is_err() {
        row.given.refuse();
    }
}

// The next datagram that was handed to the wire: how many were told then.
fn put_sent(given: &mut Outcome, wire: &MemoryWire, told: usize) -> usize {
    let Some(datagram) = wire.kept.get(told) else {
        given.put(b"none");
        return told;
    };
    if datagram.to != agent_address() {
        given.put(b"one to another address");
        return told;
    }
    given.put(datagram.bytes.as_bytes());
    if given.is_refused {
        return told;
    }
    told.wrapping_add(1)
}

impl MemoryScenario {
    fn lay(&mut self, alloc: Global, failing_send: u64) {
        let plan = mem::replace(&mut self.plan, Vec::new(alloc));
        self.wire = MemoryWire::new(alloc, plan, failing_send);
        self.told = 0;
    }

    // In place of a wire the gateway takes the events of the plan in one run.
    fn run(&mut self, given: &mut Outcome) {
        let outputs = run_plan(given, &mut self.gateway, &self.plan);
        if given.is_refused {
            return;
        }
        self.plan = Vec::new(given.alloc);
        self.lay(given.alloc, 0);
        for datagram in outputs.as_slice() {
            let _ = self.wire.send(datagram.to, datagram.bytes.as_bytes());
        }
    }

    // Whether an audit with this id is answered by 200.
    fn is_answered(&mut self, given: &mut Outcome, id: u32) -> bool {
        let audit = numbered(given, "AUEP ", id, " aaln/1@rgw.example.net MGCP 1.0\r\n");
        if given.is_refused {
            return false;
        }
        let sent = self.gateway.step(Event::Datagram {
            source: agent_address(),
            bytes: audit.as_bytes(),
        });
        is_just_200(given, &sent, agent_address(), id)
    }

    // `1-20000`
    fn audit(&mut self, row: &mut Row<'_>) {
        let Some((first, last)) = range_in(row.rest()) else {
            return row.given.unread();
        };
        let mut moment = self.gateway.now();
        for id in first..=last {
            moment = moment.saturating_add(10);
            if self.gateway.step(Event::Tick { moment }).is_err() {
                row.given.refuse();
            }
            if row.given.is_refused || !self.is_answered(&mut row.given, id) {
                row.given.put(b"another answer to ");
                return row.given.put_shown(id);
            }
        }
    }
}

impl Scenario for MemoryScenario {
    fn begin(alloc: Global) -> Result<MemoryScenario, OutOfMemory> {
        let Ok(gateway) = usual_gateway(alloc) else {
            return Err(AllocError);
        };
        Ok(MemoryScenario {
            gateway,
            plan: Vec::new(alloc),
            wire: MemoryWire::new(alloc, Vec::new(alloc), 0),
            served: NOT_SERVED,
            told: 0,
        })
    }

    fn turn(&mut self, row: &mut Row<'_>) {
        row.is_exact = true;
        match row.before(" ") {
            "gives" => plan_more(&mut self.plan, row),
            "wire" => self.lay(row.given.alloc, number_in(row.rest())),
            "serve" => self.served = self.gateway.serve(&mut self.wire, number_in(row.rest())),
            "served" => put_served(&mut row.given, &self.served),
            "run" => self.run(&mut row.given),
            "audits" => self.audit(row),
            "sent" => self.told = put_sent(&mut row.given, &self.wire, self.told),
            "due" => row.given.put_or_none(self.gateway.next_due()),
            "hook" => put_hook(row, &self.gateway),
            _ => row.given.unread(),
        }
    }
}
