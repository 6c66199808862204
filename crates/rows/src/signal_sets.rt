//! The active signals of a line, a row each.
//!
//! - `1000 on  S: L/rg` S takes effect at this moment, on hook, or `off` hook; without an S nothing is asked for;
//! - `hook off` the hook is in this state now; `expire L/dl` this signal stops; `stop` all time-out signals stop;
//! - `due 181000 L/rg` the earliest end; `due -` no time ends any;
//! - `active  L/rg 181000  L/vmwi -` the active signals with their ends; `active` there is none;
//! - `refused on  L/dl  402` the return code with which an S is refused on hook; `-` where it isn't.
use crate::keeping::Held;
use event_syntax::read_signals;
use events_and_signals::{SignalSet, refused};
use mg_bytes::OutOfMemory;
use packages::{Hook, signal_name, signal_of};
use scenario_files::{Outcome, Row, Scenario};
use std::alloc::Global;

// `on` or `off`, up to the next field.
fn hook_of(row: &mut Row<'_>) -> Hook {
    match row.before("  ") {
        "on" => Hook::OnHook,
        "off" => Hook::OffHook,
        _ => {
            row.given.unread();
            Hook::OnHook
        }
    }
}

// What ends first.
fn put_due(given: &mut Outcome, set: &SignalSet) {
    match set.next_due() {
        Some((moment, signal)) => {
            given.put_shown(moment);
            given.put_both(b" ", signal_name(signal));
        }
        None => given.put(b"-"),
    }
}

// The active signals, a field each.
fn put_active(given: &mut Outcome, set: &SignalSet) {
    for active in set.list().as_slice() {
        given.put_both(b"  ", signal_name(active.signal));
        match active.end {
            Some(end) => given.put_behind(b" ", end),
            None => given.put(b" -"),
        }
    }
}

// `on  L/dl`: the return code of this S in this state of the hook.
fn put_refusal(row: &mut Row<'_>) {
    let hook = hook_of(row);
    match read_signals(row.before("  ").as_bytes()) {
        Ok(requests) => match refused(requests.as_slice(), hook) {
            Some(code) => row.given.put_shown(code),
            None => row.given.put(b"-"),
        },
        Err(fault) => row.given.fault(fault),
    }
}

// `1000 on  S: L/rg` takes effect at this moment.
fn apply(set: &mut SignalSet, row: &mut Row<'_>, moment: u32) {
    let hook = hook_of(row);
    let value = row.rest();
    let value = value.strip_prefix("S: ").unwrap_or(value);
    match read_signals(value.as_bytes()) {
        Ok(requests) => set.apply(requests.as_slice(), hook, u64::from(moment)),
        Err(fault) => row.given.fault(fault),
    }
}

impl Scenario for Held<SignalSet> {
    fn begin(alloc: Global) -> Result<Held<SignalSet>, OutOfMemory> {
        Held::of(alloc, SignalSet::new())
    }

    fn turn(&mut self, row: &mut Row<'_>) {
        let set = &mut *self.thing;
        match row.before(" ") {
            "hook" => set.hook_changed(hook_of(row)),
            "expire" => match signal_of(row.rest().as_bytes()) {
                Ok(signal) => set.expire(signal),
                Err(_) => row.given.unread(),
            },
            "stop" => set.stop_timeouts(),
            "due" => put_due(&mut row.given, set),
            "active" => put_active(&mut row.given, set),
            "refused" => put_refusal(row),
            moment => match moment.parse::<u32>() {
                Ok(moment) => apply(set, row, moment),
                Err(_) => row.given.unread(),
            },
        }
    }
}
