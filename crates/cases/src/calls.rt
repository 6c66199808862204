//! Calls of the program, which take all values of a row at once, a line each:
//!
//! - `settings  CHANGE  CHANGE ..  config 3 BadLines` the settings alone, changed as `set` changes them;
//! - `fault  CHANGE  CHANGE ..  lines: 97, wanted 1 to 96` what is told of such settings, or `ok` where they have no flaw;
//! - `setup  CHANGE  CHANGE ..  domain: rgw.example.net\n..` what is told of a gateway of such settings;
//! - `script  LINE  LINE ..  script line 3` a script with the usual settings, from the opening;
//! - `command  LINE  LINE ..  510 1` a datagram from the agent at Ready, and what is sent to it;
//! - `request  LINE  LINE ..  518 1` the same of a request of line 1 that has an X, and these lines besides;
//! - `sequence  1000  2  1002` how many values a list has that grew by so many one by one, and then by a list of so many.
//!
//! Where nothing is printed the answer is `ok`; more than a line is all that is printed, with `\n` for each line end.
use crate::played::{settings_with, simulated};
use gateway_config::{flaw_of, read_config, told, told_setup};
use gateway_core::Gateway;
use mg_bytes::{OutOfMemory, Sequence};
use scenario_files::{
    Outcome, Row, Scenario, TextDraft, WrittenScenario, number_in, parted, read_scenario, value_of,
};
use std::alloc::{AllocError, Global};

const REQUEST: &str = "RQNT 1 aaln/1@rgw.example.net MGCP 1.0\nX: 1\n";

// A list of so many values, which grew by one after the other.
fn numbers(alloc: Global, count: u64) -> Result<Sequence<u64>, OutOfMemory> {
    let mut all = Sequence::new(alloc);
    for number in 0..count {
        all.push(number)?;
    }
    Ok(all)
}

// Puts how long a list is that grew by so many values, and then by a list of so many.
fn put_length(given: &mut Outcome, fields: &str) -> Result<(), OutOfMemory> {
    let (count, more) = parted(fields, "  ");
    let mut all = numbers(given.alloc, number_in(count))?;
    all.append(numbers(given.alloc, number_in(more))?)?;
    given.put_shown(all.into_items().len());
    Ok(())
}

// The usual settings with the changes that values are.
fn settings_of(alloc: Global, values: &str) -> Result<String, OutOfMemory> {
    let changes = values.replace(alloc, "  ", "\n")?;
    settings_with(alloc, changes.as_str())
}

// Puts what is told of settings with these changes.
fn put_flaw(given: &mut Outcome, changes: &str) -> Result<(), OutOfMemory> {
    let settings = settings_of(given.alloc, changes)?;
    let Some(flaw) = flaw_of(given.alloc, settings.as_bytes())? else {
        given.put(b"ok");
        return Ok(());
    };
    let line = told(given.alloc, settings.as_bytes(), flaw)?;
    given.put(&line);
    Ok(())
}

// What is told of a gateway of this configuration.
fn setup_told(alloc: Global, config: &[u8]) -> Result<Vec<u8>, OutOfMemory> {
    let Some(config) = read_config(alloc, config)? else {
        return Err(AllocError);
    };
    match Gateway::new(alloc, config) {
        Ok(gateway) => told_setup(alloc, gateway.setup()),
        Err(_) => Err(AllocError),
    }
}

// Puts what is told of a gateway of settings with these changes.
fn put_setup(given: &mut Outcome, changes: &str) -> Result<(), OutOfMemory> {
    let settings = settings_of(given.alloc, changes)?;
    match setup_told(given.alloc, settings.as_bytes()) {
        Ok(lines) => given.put(&lines),
        Err(_) => given.refuse(),
    }
    Ok(())
}

// A scenario of one datagram from the agent.
fn put_heard(script: &mut TextDraft, front: &str, lines: &str) {
    script.put_line("from 127.0.0.1:2727");
    script.put(front);
    script.put_line(lines);
    script.put_line("--");
}

// The scenario that a call is, of its values, and of what they say in short forms; no where there is no such call.
fn put_scenario(scenario: &mut WrittenScenario, call: &str, lines: &str, text: &str) -> bool {
    match call {
        "settings" => {
            scenario.is_at_opening = true;
            scenario.changes.put(lines);
        }
        "script" => {
            scenario.is_at_opening = true;
            scenario.script.put(text);
        }
        "command" => put_heard(&mut scenario.script, "", text),
        "request" => put_heard(&mut scenario.script, REQUEST, text),
        _ => return false,
    }
    true
}

// What is printed, as rows say it: one answer to the agent without what stands round it, and a fault without its status.
fn answer_in(printed: &str) -> &str {
    if printed.is_empty() {
        return "ok";
    }
    let sent = printed
        .strip_prefix("> 1000 127.0.0.1:2727\n")
        .unwrap_or("");
    if let Some(answer) = sent.strip_suffix("\n--\n") {
        return answer;
    }
    match printed.split_once("\nstatus 1\n") {
        Some((fault, rest)) if rest.is_empty() => fault,
        _ => printed,
    }
}

// Puts what is printed of a scenario.
fn put_simulated(given: &mut Outcome, scenario: &WrittenScenario) -> Result<(), OutOfMemory> {
    let printed = simulated(given.alloc, scenario)?;
    let text = String::from_utf8_lossy(given.alloc, &printed)?;
    given.put_words(answer_in(text.as_str()));
    Ok(())
}

// The same of the scenario that a call is, of its values, and of what they say in short forms.
fn put_printed_of(
    given: &mut Outcome,
    call: &str,
    lines: &str,
    text: &str,
) -> Result<(), OutOfMemory> {
    let mut scenario = read_scenario(given.alloc, "", false)?;
    if put_scenario(&mut scenario, call, lines, text) {
        return put_simulated(given, &scenario);
    }
    given.unread();
    Ok(())
}

// Puts what is printed of the scenario that a call is.
fn put_printed(given: &mut Outcome, call: &str, fields: &str) -> Result<(), OutOfMemory> {
    let lines = fields.replace(given.alloc, "  ", "\n")?;
    let text = value_of(given.alloc, lines.as_str())?;
    put_printed_of(given, call, lines.as_str(), text.as_str())
}

/// Rows that stand alone, each a call of the program.
#[derive(Drop)]
pub struct Calls;

impl Scenario for Calls {
    fn begin(_alloc: Global) -> Result<Calls, OutOfMemory> {
        Ok(Calls)
    }

    fn turn(&mut self, row: &mut Row<'_>) {
        row.is_exact = true;
        let (rest, wanted) = row.left.rsplit_once("  ").unwrap_or((row.left, ""));
        let (call, values) = parted(rest, "  ");
        row.left = wanted;
        let given = &mut row.given;
        let done = match call {
            "sequence" => put_length(given, values),
            "fault" => put_flaw(given, values),
            "setup" => put_setup(given, values),
            _ => put_printed(given, call, values),
        };
        if done.is_err() {
            row.given.refuse();
        }
    }
}
