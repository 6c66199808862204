//! A gateway beside a twin that takes each event after it.
//!
//! Where the gateway is refused memory it must be as the twin still is: in what can be read of it, and in what it does
//! next, be that the same event or another.
use crate::boxing::in_box;
use connections::Connection;
use gateway_config::read_config;
use gateway_core::{ConfigFault, Event, Gateway, OutDatagram, Outputs, Refusal};
use mg_bytes::OutOfMemory;
use rgw_scripts::{ScriptFault, ScriptStep, is_too_long, parts_of, read_script};
use scenario_files::{again, item_at};
use std::alloc::{AllocError, Global};
use std::slice;

/// What an input has to play. The gateway stands in a box, since a check pays for all that a value holds inline at each
/// step of a function that has one.
#[derive(Drop)]
pub struct Played {
    pub gateway: Box<Gateway>,
    pub steps: Vec<ScriptStep>,
}

// The gateway of a configuration's text, in a box; nothing where that is refused.
fn gateway_of(alloc: Global, text: &[u8]) -> Result<Option<Box<Gateway>>, OutOfMemory> {
    let Some(config) = read_config(alloc, text)? else {
        return Ok(None);
    };
    match in_box(alloc, Gateway::new(alloc, config)) {
        Ok(gateway) => Ok(Some(gateway)),
        Err(ConfigFault::OutOfMemory) => Err(AllocError),
        Err(_) => Ok(None),
    }
}

/// What an input has to play; nothing where it is refused.
pub fn scene_of(alloc: Global, input: &[u8]) -> Result<Option<Played>, OutOfMemory> {
    if is_too_long(input) {
        return Ok(None);
    }
    let parts = parts_of(input);
    let Some(gateway) = gateway_of(alloc, parts.config)? else {
        return Ok(None);
    };
    match read_script(alloc, parts.script) {
        Ok(steps) => Ok(Some(Played { gateway, steps })),
        Err(ScriptFault::OutOfMemory) => Err(AllocError),
        Err(ScriptFault::BadLine { .. }) => Ok(None),
    }
}

/// The same, read again where memory was refused; nothing, too, where it is refused once more.
pub fn scene_again(alloc: Global, input: &[u8]) -> Option<Played> {
    again!(scene_of(alloc, input)).unwrap_or(None)
}

/// The event that a step is at this moment; nothing where it is none or several.
pub fn event_of(step: &ScriptStep, now: u64) -> Option<Event<'_>> {
    match step {
        ScriptStep::Datagram { source, bytes } => Some(Event::Datagram {
            source: *source,
            bytes: bytes.as_bytes(),
        }),
        ScriptStep::Phone { line, act } => Some(Event::Phone {
            line: *line,
            act: *act,
        }),
        ScriptStep::Tick { by } => Some(Event::Tick {
            moment: now.saturating_add(*by),
        }),
        ScriptStep::At { moment } => Some(Event::Tick { moment: *moment }),
        ScriptStep::Wait { .. } | ScriptStep::Show { .. } => None,
    }
}

/// Whether each step is an event.
pub fn are_events(steps: &[ScriptStep]) -> bool {
    for step in steps {
        if event_of(step, 0).is_none() {
            return false;
        }
    }
    true
}

// Whether both places are free, or hold connections that are told apart by nothing that a command can name or change.
fn is_same_connection(one: &Option<Connection>, other: &Option<Connection>) -> bool {
    match (one, other) {
        (None, None) => true,
        (Some(one), Some(other)) => {
            one.number == other.number
                && one.call.as_slice() == other.call.as_slice()
                && one.mode == other.mode
                && one.version == other.version
        }
        _ => false,
    }
}

// By places: a check pays much more for a loop over two lists at once.
fn are_same_connections(one: &[Option<Connection>], other: &[Option<Connection>]) -> bool {
    let count = one.len();
    if count != other.len() {
        return false;
    }
    for place in 0..count {
        let (Some(held), Some(twin)) = (one.get(place), other.get(place)) else {
            return false;
        };
        if !is_same_connection(held, twin) {
            return false;
        }
    }
    true
}

/// Whether all that can be read of two gateways is the same.
pub fn are_same(one: &Gateway, other: &Gateway) -> bool {
    let lines = one.lines();
    if other.lines() != lines || one.now() != other.now() {
        return false;
    }
    for line in 1..=lines {
        if one.hook(line) != other.hook(line)
            || one.lost(line) != other.lost(line)
            || one.signals(line).as_slice() != other.signals(line).as_slice()
            || !are_same_connections(one.connections(line), other.connections(line))
        {
            return false;
        }
    }
    true
}

/// What a step gives; it is taken again where memory is refused.
pub fn stepped(gateway: &mut Gateway, event: Event<'_>) -> Result<Outputs, Refusal> {
    let outcome = gateway.step(event);
    if let Err(Refusal::OutOfMemory) = outcome {
        return gateway.step(event);
    }
    outcome
}

// Whether both go at the same moment to the same address, with the same bytes.
fn is_same_datagram(one: &OutDatagram, other: &OutDatagram) -> bool {
    one.to == other.to
        && one.moment == other.moment
        && one.bytes.as_bytes() == other.bytes.as_bytes()
}

fn count_of(lists: &[Outputs]) -> usize {
    let mut count = 0usize;
    for outputs in lists {
        count = count.wrapping_add(outputs.as_slice().len());
    }
    count
}

/// Whether two lists of lists have the same datagrams, one list behind the other.
pub fn are_same_lists(one: &[Outputs], other: &[Outputs]) -> bool {
    let count = count_of(one);
    if count != count_of(other) {
        return false;
    }
    for place in 0..count {
        let (Some(datagram), Some(twin)) = (item_at(one, place), item_at(other, place)) else {
            return false;
        };
        if !is_same_datagram(datagram, twin) {
            return false;
        }
    }
    true
}

// Whether two steps gave the same.
fn are_same_outcomes(one: &Result<Outputs, Refusal>, other: &Result<Outputs, Refusal>) -> bool {
    match (one, other) {
        (Ok(outputs), Ok(others)) => {
            are_same_lists(slice::from_ref(outputs), slice::from_ref(others))
        }
        (Err(refusal), Err(another)) => refusal == another,
        (Ok(_), Err(_)) | (Err(_), Ok(_)) => false,
    }
}

// A gateway takes the first so many of these steps.
fn advance(gateway: &mut Gateway, steps: &[ScriptStep], count: usize) {
    for step in steps.get(..count).unwrap_or(steps) {
        if let Some(event) = event_of(step, gateway.now()) {
            let _ = stepped(gateway, event);
        }
    }
}

// The gateway of an input after so many of its steps.
fn gateway_after(alloc: Global, input: &[u8], count: usize) -> Option<Box<Gateway>> {
    let mut scene = scene_again(alloc, input)?;
    advance(&mut scene.gateway, &scene.steps, count);
    Some(scene.gateway)
}

/// A gateway, and its twin.
#[derive(Drop)]
pub struct Twins {
    pub gateway: Box<Gateway>,
    pub twin: Box<Gateway>,
}

impl Twins {
    /// Two gateways of an input after so many of its steps; nothing where it is refused.
    pub fn after(alloc: Global, input: &[u8], count: usize) -> Option<Twins> {
        let gateway = gateway_after(alloc, input, count)?;
        let twin = gateway_after(alloc, input, count)?;
        Some(Twins { gateway, twin })
    }

    /// The twin takes an event too: whether it gives what the gateway gave, and both are alike then.
    pub fn follow(&mut self, event: Event<'_>, given: Result<Outputs, Refusal>) -> bool {
        let other = stepped(&mut self.twin, event);
        are_same_outcomes(&given, &other) && are_same(&self.gateway, &self.twin)
    }

    // Both take an event: whether they give the same, and are alike then.
    fn take(&mut self, event: Event<'_>) -> bool {
        let given = stepped(&mut self.gateway, event);
        self.follow(event, given)
    }

    /// Both take these steps in place of one that was refused, and eight ticks of a second: whether they stay alike.
    pub fn go_otherwise(&mut self, steps: &[ScriptStep]) -> bool {
        for step in steps {
            if let Some(event) = event_of(step, self.gateway.now()) {
                if !self.take(event) {
                    return false;
                }
            }
        }
        for _ in 0..8 {
            let moment = self.gateway.now().saturating_add(1000);
            if !self.take(Event::Tick { moment }) {
                return false;
            }
        }
        true
    }
}
