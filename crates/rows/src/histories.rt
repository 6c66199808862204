//! What a history remembers, a row each. The answer to a command is made from its id.
//!
//! - `first 7 at 1000` command 7 was executed, and is kept with its answer; `first 1-4096 at 1000` these one by one;
//! - `7 at 30999 again` what a command with this id is that arrives then: `new`, `again` where it gets the answer of the
//!   first, `silence` where that is confirmed, `full`; `1-4095 at 30999 again` where each is that;
//! - `confirm 1-7,9` what a K names is confirmed; `purge 31000`, `undo`;
//! - `holds 3` so many firsts are kept;
//! - `run 1-20000 every 10 holding 3000` commands that come one by one, at their ids times 10 ms: each is new, and after a
//!   purge no more firsts are ever kept; `run 1-4999 every 100 confirming holding 300` the same, each with a K that names all
//!   so far.
use crate::keeping::Held;
use crate::texts::{are_same, is_word};
use mg_bytes::{OutOfMemory, Sequence, Text};
use scenario_files::{Outcome, Row, Scenario, again, range_in};
use std::alloc::Global;
use transmission::{History, IdSpan, Look};

// `7` or `1-4096`.
fn ids_of(given: &mut Outcome, text: &str) -> IdSpan {
    let Some((first, last)) = range_in(text) else {
        given.unread();
        return IdSpan { first: 1, last: 0 };
    };
    IdSpan { first, last }
}

/// Commands that come one by one.
#[derive(Clone, Copy)]
struct Run {
    ids: IdSpan,
    /// How many ms lie between two of them.
    wait: u32,
    /// Whether each confirms all so far.
    confirming: bool,
    /// So many firsts are kept at most.
    most: u32,
}

// `1-20000 every 10 holding 3000` or `1-4999 every 100 confirming holding 300`.
fn run_of(row: &mut Row<'_>) -> Run {
    let first = row.before(" ");
    let ids = ids_of(&mut row.given, first);
    let wait = row.number_behind("every");
    let confirming = row.left.starts_with("confirming ");
    if confirming {
        row.before(" ");
    }
    let most = row.number_behind("holding");
    Run {
        ids,
        wait,
        confirming,
        most,
    }
}

fn told(history: &History, id: u32, now: u64) -> &'static str {
    match history.look(id, now) {
        Look::New => "new",
        Look::Repeat(answer) if are_same(answer.as_bytes(), &id.to_be_bytes()) => "again",
        Look::Repeat(_) => "another answer",
        Look::Confirmed => "silence",
        Look::Full => "full",
    }
}

// Keeps a command with its answer, the bytes of its id.
fn keep_once(
    history: &mut History,
    alloc: Global,
    id: u32,
    moment: u64,
) -> Result<(), OutOfMemory> {
    let answer = Text::of(id.to_be_bytes().to_vec(alloc)?);
    history.first(id, moment, answer)
}

// The same, once more where memory was refused.
fn keep(history: &mut History, given: &mut Outcome, id: u32, moment: u64) {
    if again!(keep_once(history, given.alloc, id, moment)).is_err() {
        given.refuse();
    }
}

// Of several commands each is kept by itself.
fn keep_all(history: &mut History, row: &mut Row<'_>) {
    let first = row.before(" ");
    let ids = ids_of(&mut row.given, first);
    let moment = u64::from(row.number_behind("at"));
    for id in ids.first..=ids.last {
        keep(history, &mut row.given, id, moment);
        if row.given.is_refused {
            return;
        }
    }
}

// `1-7,9`: a K names these.
fn confirm(history: &mut History, row: &mut Row<'_>) {
    let mut spans = Sequence::new(row.given.alloc);
    for written in row.rest().split(',') {
        let ids = ids_of(&mut row.given, written);
        if spans.push(ids).is_err() {
            return row.given.refuse();
        }
    }
    if history.confirm(spans).is_err() {
        row.given.refuse();
    }
}

// A K names all these.
fn confirm_all(history: &mut History, alloc: Global, ids: IdSpan) -> Result<(), OutOfMemory> {
    let mut spans = Sequence::new(alloc);
    spans.push(ids)?;
    history.confirm(spans)
}

// Puts what commands with these ids are, where one is something else than the row says, and says whether one is.
fn put_unlike(history: &History, given: &mut Outcome, ids: IdSpan, now: u64, wanted: &str) -> bool {
    for id in ids.first..=ids.last {
        let told = told(history, id, now);
        if !is_word(told, wanted) {
            given.put_words(told);
            given.put_behind(b" for ", id);
            return true;
        }
    }
    false
}

// A command of a run is kept, and maybe confirms all so far. It is done again where memory was refused.
fn take(history: &mut History, given: &mut Outcome, run: Run, id: u32, now: u64) {
    let first = run.ids.first;
    let so_far = IdSpan { first, last: id };
    if run.confirming && again!(confirm_all(history, given.alloc, so_far)).is_err() {
        return given.refuse();
    }
    keep(history, given, id, now);
}

// One command of a run: it is new, and is kept. Says whether it is otherwise, and puts that.
fn put_come(history: &mut History, given: &mut Outcome, run: Run, id: u32) -> bool {
    let now = u64::from(id).saturating_mul(u64::from(run.wait));
    history.purge(now);
    let kept = history.len();
    if kept > run.most as usize {
        given.put_shown(kept);
        given.put_behind(b" at ", now);
        return true;
    }
    let alone = IdSpan {
        first: id,
        last: id,
    };
    if put_unlike(history, given, alone, now, "new") {
        return true;
    }
    take(history, given, run, id, now);
    given.is_refused
}

// `run 1-20000 every 10 holding 3000`.
fn put_run(history: &mut History, row: &mut Row<'_>) {
    let run = run_of(row);
    for id in run.ids.first..=run.ids.last {
        if put_come(history, &mut row.given, run, id) {
            return;
        }
    }
}

impl Scenario for Held<History> {
    fn begin(alloc: Global) -> Result<Held<History>, OutOfMemory> {
        Held::of(alloc, History::new(alloc))
    }

    fn turn(&mut self, row: &mut Row<'_>) {
        let history = &mut *self.thing;
        match row.before(" ") {
            "first" => keep_all(history, row),
            "confirm" => confirm(history, row),
            "purge" => history.purge(u64::from(row.number())),
            "undo" => history.undo(),
            "run" => put_run(history, row),
            "holds" => row.given.put_shown(history.len()),
            // `7 at 30999 again`: what commands with these ids are.
            ids => {
                let ids = ids_of(&mut row.given, ids);
                let now = u64::from(row.number_behind("at"));
                let wanted = row.rest();
                put_unlike(history, &mut row.given, ids, now, wanted);
            }
        }
    }
}
