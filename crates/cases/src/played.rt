//! A scenario as it is played.
use mg_bytes::{OutOfMemory, split_once};
use rgw_play::{Ending, Task, WordFault, perform, simulate};
use scenario_files::{WrittenScenario, input_of, read_scenario};
use std::alloc::{AllocError, Global};
use std::io::Write;
use std::net::Net;

// The task that a scenario names; any other words ask for none. What words the program takes its own rows say, which are played by
// itself: whoever reads words links all of a reader.
fn task_of(words: &str) -> Result<Task, WordFault> {
    match words {
        "simulate" => Ok(Task::Simulate),
        "loopback" => Ok(Task::Loopback { port: 0 }),
        _ => Err(WordFault::Usage),
    }
}

// What the program says on standard error, and its exit status, where that isn't 0.
fn put_ending(out: &mut Vec<u8>, ending: Ending) -> Result<(), OutOfMemory> {
    let put = match ending.status() {
        0 => write!(out, "{ending}"),
        status => writeln!(out, "{ending}status {status}"),
    };
    match put {
        Ok(()) => Ok(()),
        Err(_) => Err(AllocError),
    }
}

// Whether these lines begin an announcement of the gateway's, its first at 1 ms, whatever its address and its domain.
fn is_announcement(place: &[u8], header: &[u8]) -> bool {
    place.starts_with(b"> 1 ") && header.starts_with(b"RSIP 1 *@") && header.ends_with(b" MGCP 1.0")
}

// What stands behind the announcement that is answered up to Ready; nothing where the first datagram isn't that.
fn behind_announcement(printed: &[u8]) -> Option<&[u8]> {
    let (place, rest) = split_once(printed, b'\n')?;
    let (header, rest) = split_once(rest, b'\n')?;
    if is_announcement(place, header) {
        return rest.strip_prefix(b"RM: restart\n--\n");
    }
    None
}

// What is printed from Ready on. Where the announcement isn't as it should be all is.
fn since_ready(printed: &[u8]) -> &[u8] {
    behind_announcement(printed).unwrap_or(printed)
}

// What is printed of a scenario, without the announcement up to Ready, and with what the program says of an input that can't be
// played.
fn told_of(
    alloc: Global,
    scenario: &WrittenScenario,
    mut printed: Vec<u8>,
    ending: Ending,
) -> Result<Vec<u8>, OutOfMemory> {
    put_ending(&mut printed, ending)?;
    if scenario.is_at_opening {
        return Ok(printed);
    }
    Vec::from_slice(alloc, since_ready(&printed))
}

/// The usual settings with these changes, a line each.
pub fn settings_with(alloc: Global, changes: &str) -> Result<String, OutOfMemory> {
    let mut scenario = read_scenario(alloc, "", false)?;
    scenario.is_at_opening = true;
    scenario.changes.put(changes);
    input_of(alloc, &scenario)
}

/// What `simulate` prints of a scenario.
pub fn simulated(alloc: Global, scenario: &WrittenScenario) -> Result<Vec<u8>, OutOfMemory> {
    let input = input_of(alloc, scenario)?;
    let mut reader = input.as_bytes();
    let mut printed = Vec::new(alloc);
    let ending = simulate(alloc, &mut reader, &mut printed);
    told_of(alloc, scenario, printed, ending)
}

/// What the program prints of a scenario, where its words ask for this.
pub fn printed_by<R: AllocGlobal + Net>(
    rt: &R,
    scenario: &WrittenScenario,
    words: &str,
) -> Result<Vec<u8>, OutOfMemory> {
    let alloc = rt.alloc();
    let input = input_of(alloc, scenario)?;
    let mut reader = input.as_bytes();
    let mut printed = Vec::new(alloc);
    let ending = perform(rt, task_of(words), &mut reader, &mut printed);
    told_of(alloc, scenario, printed, ending)
}
