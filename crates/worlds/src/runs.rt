//! All events of a script in one run, which goes on at its place where it was refused memory.
use crate::twins::{are_same, are_same_lists, event_of, scene_again, stepped};
use gateway_core::{Event, Gateway, Outputs, Refusal};
use mg_bytes::OutOfMemory;
use rgw_scripts::ScriptStep;
use scenario_files::again;
use std::alloc::Global;

// The events of steps, and what gateways give to them: one that takes them one by one, and one that takes them in one run.
#[derive(Drop)]
struct Given<'s> {
    events: Vec<Event<'s>>,
    one_by_one: Vec<Outputs>,
    in_one_run: Vec<Outputs>,
}

// There is room for all that is kept before. A run is stopped at most once at each event, and once more for want of memory.
fn room<'s>(alloc: Global, count: usize) -> Result<Given<'s>, OutOfMemory> {
    Ok(Given {
        events: Vec::with_capacity(alloc, count)?,
        one_by_one: Vec::with_capacity(alloc, count)?,
        in_one_run: Vec::with_capacity(alloc, count.saturating_add(2))?,
    })
}

impl<'s> Given<'s> {
    // A gateway takes this event.
    fn take(&mut self, gateway: &mut Gateway, event: Event<'s>) {
        let _ = self.events.push(event);
        if let Ok(outputs) = stepped(gateway, event) {
            let _ = self.one_by_one.push(outputs);
        }
    }

    // A gateway takes the events of these steps one by one.
    fn take_all(&mut self, gateway: &mut Gateway, steps: &'s [ScriptStep]) {
        for step in steps {
            if let Some(event) = event_of(step, gateway.now()) {
                self.take(gateway, event);
            }
        }
    }

    // One run of the events behind this place: how many of these are behind it where it stopped.
    fn run_once(&mut self, gateway: &mut Gateway, place: usize) -> Option<usize> {
        let events = self.events.get(place..).unwrap_or(&[]);
        match gateway.run(events) {
            Ok(outputs) => {
                let _ = self.in_one_run.push(outputs);
                None
            }
            Err(stopped) => {
                let _ = self.in_one_run.push(stopped.outputs);
                Some(match stopped.refusal {
                    Refusal::OutOfMemory => stopped.place,
                    _ => stopped.place.wrapping_add(1),
                })
            }
        }
    }

    // A gateway takes all in one run. One that stops for want of memory goes on at its place, another one behind it.
    fn run(&mut self, gateway: &mut Gateway) {
        let mut place = 0usize;
        for _ in 0..self.events.len().saturating_add(2) {
            let Some(passed) = self.run_once(gateway, place) else {
                return;
            };
            place = place.saturating_add(passed);
        }
    }
}

// Whether a gateway gives to all events of steps in one run what its twin gives to them one by one.
fn are_runs_alike(
    alloc: Global,
    gateway: &mut Gateway,
    twin: &mut Gateway,
    steps: &[ScriptStep],
) -> bool {
    let Ok(mut given) = again!(room(alloc, steps.len())) else {
        return false;
    };
    given.take_all(twin, steps);
    given.run(gateway);
    are_same_lists(&given.in_one_run, &given.one_by_one) && are_same(gateway, twin)
}

/// Whether a gateway that takes all events of an input in one run gives what it gives to them one by one.
pub fn runs_alike(alloc: Global, input: &[u8]) -> bool {
    let Some(mut scene) = scene_again(alloc, input) else {
        return false;
    };
    let Some(mut twin) = scene_again(alloc, input) else {
        return false;
    };
    are_runs_alike(alloc, &mut scene.gateway, &mut twin.gateway, &twin.steps)
}
