//! A scenario as it is written: its script, and what it says that is printed.
use crate::draft::TextDraft;
use crate::texts::{in_full, parted};
use mg_bytes::OutOfMemory;
use std::alloc::{AllocError, Global};

const AGENT: &str = "127.0.0.1:2727";

// What stands behind the moment of a datagram that goes there.
const AGENT_BEHIND: &str = " 127.0.0.1:2727";

// A mark, which stands before a cause: a step that no gateway has the line for, and what it prints.
const MARK: &str = "show 65535";

const MARK_PRINTED: &str = "! 4 NoSuchLine";

/// The program's words, if the scenario says any; whether the script begins at the opening and not at Ready; and lines of the
/// configuration, of the script, and of what is printed.
#[derive(Drop)]
pub struct WrittenScenario {
    pub words: TextDraft,
    pub is_at_opening: bool,
    pub changes: TextDraft,
    pub script: TextDraft,
    pub printed: TextDraft,
    // A mark stands before each cause.
    is_marked: bool,
    // Where the next line stands.
    place: LinePlace,
}

// Where a line of a scenario stands.
#[derive(Clone, Copy)]
enum LinePlace {
    Between,
    InHeard,
    InSent,
}

// What a line says, by its first word.
#[derive(Clone, Copy)]
enum Says {
    Heard,
    Sent,
    Words,
    Set,
    Opening,
    Printed,
    // A step of the script.
    Step,
}

const FIRST_WORDS: [(&str, Says); 13] = [
    ("<", Says::Heard),
    ("from", Says::Heard),
    (">", Says::Sent),
    ("words", Says::Words),
    ("set", Says::Set),
    ("opening", Says::Opening),
    ("!", Says::Printed),
    ("line", Says::Printed),
    ("config", Says::Printed),
    ("script", Says::Printed),
    ("usage:", Says::Printed),
    ("status", Says::Printed),
    ("wire", Says::Printed),
];

fn said_by(word: &str) -> Says {
    for (first, says) in &FIRST_WORDS {
        if *first == word {
            return *says;
        }
    }
    Says::Step
}

impl WrittenScenario {
    // A mark in the script and in what is printed, which part what the causes before and behind it give.
    fn put_mark(&mut self) {
        if self.is_marked {
            self.script.put_line(MARK);
            self.printed.put_line(MARK_PRINTED);
        }
    }

    // A datagram comes from this address, or from the agent where none is said.
    fn put_heard(&mut self, from: &str) {
        self.put_mark();
        self.script.put("from ");
        self.script
            .put_line(if from.is_empty() { AGENT } else { from });
        self.place = LinePlace::InHeard;
    }

    fn put_sent(&mut self, line: &str, rest: &str) {
        self.printed.put(line);
        self.printed
            .put_line(if rest.contains(' ') { "" } else { AGENT_BEHIND });
        self.place = LinePlace::InSent;
    }

    // A line that is a step of the script, or empty; one for the reader is none.
    fn put_step(&mut self, line: &str) {
        if line.starts_with('#') {
            return;
        }
        if !line.is_empty() {
            self.put_mark();
        }
        self.script.put_line(line);
    }

    // A line that stands between datagrams.
    fn put_between(&mut self, line: &str) {
        let (word, rest) = parted(line, " ");
        match said_by(word) {
            Says::Heard => self.put_heard(rest),
            Says::Sent => self.put_sent(line, rest),
            Says::Words => self.words.put(rest),
            Says::Set => self.changes.put_line(rest),
            Says::Opening => self.is_at_opening = true,
            Says::Printed => self.printed.put_line(line),
            Says::Step => self.put_step(line),
        }
    }

    fn put(&mut self, line: &str) {
        match self.place {
            LinePlace::Between => return self.put_between(line),
            LinePlace::InHeard => self.script.put_line(line),
            LinePlace::InSent => self.printed.put_line(line),
        }
        if line == "--" {
            self.place = LinePlace::Between;
        }
    }

    /// Memory was refused for what was put.
    pub fn is_refused(&self) -> bool {
        self.words.is_refused
            || self.changes.is_refused
            || self.script.is_refused
            || self.printed.is_refused
    }
}

/// Reads a scenario, and puts a mark before each of its causes if it is to be marked.
pub fn read_scenario(
    alloc: Global,
    text: &str,
    is_marked: bool,
) -> Result<WrittenScenario, OutOfMemory> {
    let whole = in_full(alloc, text)?;
    let mut scenario = WrittenScenario {
        words: TextDraft::new(alloc),
        is_at_opening: false,
        changes: TextDraft::new(alloc),
        script: TextDraft::new(alloc),
        printed: TextDraft::new(alloc),
        is_marked,
        place: LinePlace::Between,
    };
    for line in whole.as_str().lines() {
        scenario.put(line);
    }
    if scenario.is_refused() {
        return Err(AllocError);
    }
    Ok(scenario)
}
