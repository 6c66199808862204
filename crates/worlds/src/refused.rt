//! Scripts at a gateway that is refused memory, beside a twin.
//!
//! Under a title stand the lines of a scenario, without what is printed; each is an event. The gateway takes them one by
//! one, and the twin each of them behind it. So they do twice: where the gateway is refused memory it takes the same
//! event again, and the second time both first take the events of the block `otherwise`, after which there are new
//! twins. The third time the gateway takes all events in one run.
//!
//! Whatever differs is printed under its title. With ample memory nothing can; `./refusals` refuses each request in
//! turn.
use crate::runs::runs_alike;
use crate::twins::{Played, Twins, are_events, are_same, event_of, scene_again, scene_of};
use gateway_core::Refusal;
use mg_bytes::{OutOfMemory, put_decimal};
use rgw_scripts::ScriptStep;
use scenario_files::{Report, Titled, again, input_of, read_scenario, told_titled};
use std::alloc::Global;
use std::net::Net;

// What is said of an input that has no gateway and no steps, or for which memory was refused again.
const UNPLAYED: &str = "it can't be played";

// What comes after a refusal: the same event at once, or other ones first.
#[derive(Clone, Copy)]
enum Next<'s> {
    Again,
    Otherwise(&'s [ScriptStep]),
}

// The input that lines are; nothing where they say what is printed.
fn input_under(alloc: Global, lines: &str) -> Result<Option<String>, OutOfMemory> {
    let scenario = read_scenario(alloc, lines, false)?;
    if !scenario.printed.as_str().is_empty() {
        return Ok(None);
    }
    Ok(Some(input_of(alloc, &scenario)?))
}

// The input that lines are, which begin at the opening.
fn input_at_opening(alloc: Global, lines: &str) -> Result<String, OutOfMemory> {
    let mut scenario = read_scenario(alloc, lines, false)?;
    scenario.is_at_opening = true;
    input_of(alloc, &scenario)
}

// The steps of `otherwise`; nothing where they can't be read.
fn steps_of(alloc: Global, lines: &str) -> Result<Option<Vec<ScriptStep>>, OutOfMemory> {
    let input = input_at_opening(alloc, lines)?;
    let Some(Played { steps, .. }) = scene_of(alloc, input.as_bytes())? else {
        return Ok(None);
    };
    if are_events(&steps) {
        return Ok(Some(steps));
    }
    Ok(None)
}

// What differs where the gateway is refused memory at an event, before it takes it again.
fn refused_at(
    alloc: Global,
    input: &[u8],
    twins: &mut Twins,
    next: Next<'_>,
    place: usize,
) -> Option<&'static str> {
    if !are_same(&twins.gateway, &twins.twin) {
        return Some("it was refused, and changed the gateway");
    }
    let Next::Otherwise(steps) = next else {
        return None;
    };
    if !twins.go_otherwise(steps) {
        return Some("after it was refused the gateway goes on in another way");
    }
    match Twins::after(alloc, input, place) {
        Some(anew) => *twins = anew,
        None => return Some("there are no new twins"),
    }
    None
}

// What differs at a step.
fn differing_at(
    alloc: Global,
    input: &[u8],
    twins: &mut Twins,
    step: &ScriptStep,
    next: Next<'_>,
    place: usize,
) -> Option<&'static str> {
    let Some(event) = event_of(step, twins.gateway.now()) else {
        return Some("it is no event");
    };
    let mut given = twins.gateway.step(event);
    if let Err(Refusal::OutOfMemory) = given {
        let said = refused_at(alloc, input, twins, next, place);
        if said.is_some() {
            return said;
        }
        given = twins.gateway.step(event);
    }
    if twins.follow(event, given) {
        return None;
    }
    Some("the gateway and its twin part")
}

// The first of these steps of an input at which something differs, counted from 1, and what.
fn differing_among(
    alloc: Global,
    input: &[u8],
    steps: &[ScriptStep],
    next: Next<'_>,
) -> Option<(usize, &'static str)> {
    let Some(mut twins) = Twins::after(alloc, input, 0) else {
        return Some((0, UNPLAYED));
    };
    for (place, step) in steps.iter().enumerate() {
        if let Some(said) = differing_at(alloc, input, &mut twins, step, next, place) {
            return Some((place.wrapping_add(1), said));
        }
    }
    None
}

// What differs under a title, three times.
fn differing_under(
    alloc: Global,
    input: &[u8],
    otherwise: &[ScriptStep],
) -> Option<(usize, &'static str)> {
    let Some(scene) = scene_again(alloc, input) else {
        return Some((0, UNPLAYED));
    };
    for next in [Next::Again, Next::Otherwise(otherwise)] {
        let found = differing_among(alloc, input, &scene.steps, next);
        if found.is_some() {
            return found;
        }
    }
    if runs_alike(alloc, input) {
        return None;
    }
    Some((0, "one run gives something else than the steps"))
}

// Says at which step of a script something differs, and what.
fn put_differing(alloc: Global, report: &mut Report, title: &str, step: usize, said: &str) {
    report.wrong(title, "\n  step ");
    if put_decimal(alloc, &mut report.said, step as u64).is_err() {
        report.refuse();
    }
    report.put(b": ");
    report.put_words(said);
    report.put(b"\n");
}

// Tells the script under a title.
fn told_script(
    alloc: Global,
    title: &str,
    lines: &str,
    otherwise: &[ScriptStep],
    report: &mut Report,
) {
    let input = match again!(input_under(alloc, lines)) {
        Ok(Some(input)) => input,
        Ok(None) => return report.wrong(title, "\n  no script says what is printed\n"),
        Err(_) => return report.refuse(),
    };
    match differing_under(alloc, input.as_bytes(), otherwise) {
        None => report.count(true),
        Some((step, said)) => put_differing(alloc, report, title, step, said),
    }
}

/// Scripts, and what comes in place of an event that was refused.
#[derive(Drop)]
struct RefusedScripts {
    otherwise: Vec<ScriptStep>,
}

impl RefusedScripts {
    // Takes the steps of `otherwise`, which is no case. Where they aren't events alone that is said.
    fn take_otherwise(&mut self, alloc: Global, lines: &str, report: &mut Report) {
        match again!(steps_of(alloc, lines)) {
            Ok(Some(steps)) => self.otherwise = steps,
            Ok(None) => report.wrong("otherwise", "\n  it isn't events alone\n"),
            Err(_) => report.refuse(),
        }
    }
}

impl Titled for RefusedScripts {
    fn told<R: AllocGlobal + Net>(
        &mut self,
        rt: &R,
        title: &str,
        lines: &str,
        report: &mut Report,
    ) {
        match title {
            "otherwise" => self.take_otherwise(rt.alloc(), lines, report),
            _ => told_script(rt.alloc(), title, lines, &self.otherwise, report),
        }
    }
}

/// Tells the scripts of a file.
pub fn told<R: AllocGlobal + Net>(rt: &R, text: &str, report: &mut Report) {
    let otherwise = Vec::new(rt.alloc());
    let mut scripts = RefusedScripts { otherwise };
    told_titled(rt, &mut scripts, text, report);
}
