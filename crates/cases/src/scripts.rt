//! Scenarios: scripts of the program, with what is printed beside what causes it.
//!
//! A scenario begins with a line `= TITLE`. Its lines are those of a script and of its output, as `docs/SCRIPTS.md` has them.
//! In short:
//!
//! - `<` is `from` the agent, and `> MOMENT` goes to it.
//! - It begins at Ready: the gateway's announcement is answered, and the clock is at 1,000 ms. With a line `opening` it
//!   begins at 0.
//! - A line `set KEY ..` stands in place of the configuration's line of that key, and `set no KEY` takes it out; of
//!   another key it stands at the configuration's end.
//! - It is played twice: by the command line's `simulate`, and by its `loopback`, over two sockets. A line `words ..` stands
//!   in place of both; a line `# ..` is for the reader.
//! - Under a line `= piece NAME` stand lines that `do NAME | A | B` puts in, with A for `{1}` and B for `{2}`;
//!   `each 1 88 NAME` puts them in for each number, which is `{n}`.
//! - What the program says of an input that it can't play stands at the end, with its exit status.
//! - Before each step of a scenario without an exit status the player puts a mark: a step `show 65535`, which prints
//!   `! 4 NoSuchLine`. So an output that stands behind another cause differs.
use crate::played::printed_by;
use crate::unlike::tell_unlike;
use scenario_files::{Report, Titled, WrittenScenario, read_scenario};
use std::net::Net;

/// Scripts of the program.
#[derive(Clone, Copy)]
pub struct Scripts;

// Whether the program with these words prints what the scenario says. What differs is said, `! 4 NoSuchLine` before what each step
// gives.
fn is_told_by<R: AllocGlobal + Net>(
    rt: &R,
    title: &str,
    scenario: &WrittenScenario,
    words: &str,
    report: &mut Report,
) -> bool {
    match printed_by(rt, scenario, words) {
        Ok(printed) => {
            let wanted = scenario.printed.as_str().as_bytes();
            tell_unlike(report, title, words, "prints", &printed, wanted)
        }
        Err(_) => {
            report.refuse();
            true
        }
    }
}

// Whether a scenario says that its script is played: what can't be played has an exit status.
fn is_played(text: &str) -> bool {
    for line in text.lines() {
        if line.starts_with("status ") {
            return false;
        }
    }
    true
}

// Whether each program that a scenario is played by prints what it says.
fn is_told<R: AllocGlobal + Net>(
    rt: &R,
    title: &str,
    scenario: &WrittenScenario,
    report: &mut Report,
) -> bool {
    let words = scenario.words.as_str();
    if !words.is_empty() {
        return is_told_by(rt, title, scenario, words, report);
    }
    is_told_by(rt, title, scenario, "simulate", report)
        && is_told_by(rt, title, scenario, "loopback", report)
}

// The scenario's output has to be as it is told, that of each cause behind a mark. What can't be played has no marks: it prints
// nothing of its causes, and may say a line's number.
impl Titled for Scripts {
    fn told<R: AllocGlobal + Net>(
        &mut self,
        rt: &R,
        title: &str,
        lines: &str,
        report: &mut Report,
    ) {
        match read_scenario(rt.alloc(), lines, is_played(lines)) {
            Ok(scenario) => {
                let is_right = is_told(rt, title, &scenario, report);
                report.count(is_right);
            }
            Err(_) => report.refuse(),
        }
    }
}
