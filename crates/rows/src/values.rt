//! Calls that read, write or judge values: a row a call.
//!
//! `R  D/5(N)  hd  D/5(N)` has the call's name, its values and its answer, two blanks apart. Of a call of one value each
//! value of the row gets the answer; `ok` stands for any that is no refusal. Some calls take all values of a row at once.

mod bytes;
mod capturing;
mod commands;
mod descriptions;
mod logged;
mod maps;
mod messages;
pub mod names;
mod packing;
mod shown;
mod spelled;

use crate::texts::{are_same, words_of};
use mg_bytes::OutOfMemory;
use scenario_files::{Outcome, Row, Scenario, bytes_of, parted, said};
use std::alloc::Global;

/// Rows that stand alone.
#[derive(Drop)]
pub struct Values;

/// A call's name and the number that it ends in, 0 where it ends in none: `name of 16`.
pub fn numbered(call: &str) -> (&str, u16) {
    if let Some((name, number)) = call.rsplit_once(' ') {
        if let Ok(number) = number.parse::<u16>() {
            return (name, number);
        }
    }
    (call, 0)
}

// Puts what a call gives of a value, and says whether there is such a call; each of the modules knows calls of its own.
fn put_answer(given: &mut Outcome, call: &str, value: &[u8]) -> bool {
    spelled::put_answer(given, call, value)
        || maps::put_answer(given, call, value)
        || descriptions::put_answer(given, call, value)
        || bytes::put_answer(given, call, value)
        || names::put_answer(given, call, value)
        || packing::put_answer(given, call, value)
        || capturing::put_answer(given, call, value)
        || logged::put_answer(given, call, value)
        || shown::put_answer(given, call, value)
        || messages::put_answer(given, call, value)
}

// What is given, as a row says it: fields are parted by two blanks.
fn as_said(given: &Outcome) -> Result<String, OutOfMemory> {
    let text = said(given.alloc, &given.bytes)?;
    text.replace(given.alloc, "  ", "\\s\\s")
}

// Puts what a call gives of a value, as a row says it, in place of what was given before.
fn put_answer_to(given: &mut Outcome, call: &str, field: &str) {
    given.bytes.clear();
    let Ok(value) = bytes_of(given.alloc, field) else {
        return given.refuse();
    };
    if !put_answer(given, call, &value) {
        given.unread();
    }
    let answer = as_said(given);
    given.bytes.clear();
    given.put_made(answer);
}

// Whether a row says this answer.
fn is_said(answer: &[u8], wanted: &str) -> bool {
    match wanted {
        "ok" => words_of(answer).parse::<u32>().is_err(),
        _ => are_same(answer, wanted.as_bytes()),
    }
}

// Puts what a call gives of the first of the values that the row doesn't say, with its place; where there is none, what the row says.
fn put_given(given: &mut Outcome, call: &str, values: &str, wanted: &str) {
    let mut place = 0u32;
    for field in values.split("  ") {
        place = place.saturating_add(1);
        put_answer_to(given, call, field);
        if !is_said(&given.bytes, wanted) {
            return given.put_behind(b" for value ", place);
        }
    }
    given.bytes.clear();
    given.put_words(wanted);
}

impl Scenario for Values {
    fn begin(_alloc: Global) -> Result<Values, OutOfMemory> {
        Ok(Values)
    }

    fn turn(&mut self, row: &mut Row<'_>) {
        let (rest, wanted) = row.left.rsplit_once("  ").unwrap_or((row.left, ""));
        let (call, values) = parted(rest, "  ");
        row.left = wanted;
        match call {
            "verdict" | "in range" => maps::put_answer_of_two(&mut row.given, call, values),
            // Without a value the row would say nothing of the call.
            _ if values.is_empty() => row.given.unread(),
            _ => put_given(&mut row.given, call, values, wanted),
        }
    }
}
