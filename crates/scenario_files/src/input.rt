//! The input of the program that a scenario stands for.
use crate::draft::TextDraft;
use crate::settings::SETTINGS;
use crate::texts::{parted, value_of};
use crate::written::WrittenScenario;
use mg_bytes::OutOfMemory;
use std::alloc::{AllocError, Global};

// The key that a line of the settings, or `no KEY`, is about.
fn key_of(line: &str) -> &str {
    let line = line.strip_prefix("no ").unwrap_or(line);
    let (word, _) = parted(line, " ");
    let (key, _) = parted(word, "\\");
    key
}

// The first of these lines that is about a key.
fn line_of<'a>(lines: &'a str, key: &str) -> Option<&'a str> {
    for line in lines.lines() {
        if key_of(line) == key {
            return Some(line);
        }
    }
    None
}

// What stands in the place of a usual line: the change of its key, or nothing where `no KEY` takes it out.
fn changed<'a>(usual: &'a str, changes: &'a str) -> &'a str {
    let line = line_of(changes, key_of(usual)).unwrap_or(usual);
    if line.starts_with("no ") { "" } else { line }
}

// The usual settings with a scenario's changes.
fn put_settings(out: &mut TextDraft, changes: &str) {
    for usual in SETTINGS.lines() {
        out.put_line(changed(usual, changes));
    }
}

// Further lines, of keys that the usual settings don't have, which stand at their end, among the names.
fn put_further(out: &mut TextDraft, changes: &str) {
    for change in changes.lines() {
        if !change.starts_with("no ") && line_of(SETTINGS, key_of(change)).is_none() {
            out.put_line(change);
        }
    }
}

// What stands before a script.
const SCRIPT: &str = "%%\n";

// The same up to Ready: the gateway's announcement is answered, and the clock is at 1,000 ms.
const READY: &str = "%%\ntick 1\nfrom 127.0.0.1:2727\n200 1 OK\n--\nat 1000\n";

/// The program's input: the settings, and the script behind what comes before it; without a script the settings alone.
pub fn input_of(alloc: Global, scenario: &WrittenScenario) -> Result<String, OutOfMemory> {
    let changes = scenario.changes.as_str();
    let script = scenario.script.as_str();
    let mut settings = TextDraft::new(alloc);
    put_settings(&mut settings, changes);
    put_further(&mut settings, changes);
    let mut input = TextDraft::new(alloc);
    input.put_made(value_of(alloc, settings.as_str()));
    input.put(if !scenario.is_at_opening {
        READY
    } else if script.is_empty() {
        ""
    } else {
        SCRIPT
    });
    input.put(script);
    if scenario.is_refused() || settings.is_refused {
        return Err(AllocError);
    }
    input.end()
}
