//! Turns of a line, a row each. It begins as a line of a gateway that serves.
//!
//! - `1000 asks  X: A1  R: L/hd(A)` a request, which the line doesn't refuse; `1000 asks  S: L/dl  402` one that it does;
//! - `1000 off`, `on`, `flash` or a key: an act that the hook state allows; `1000 idles off` one that the line doesn't heed;
//! - `1000 answered` its notification is answered; `5000 falls T` timer T ends, `17000 falls L/dl` a signal;
//! - `opening` the line as it opens; `1000 opened` the gateway serves from now on;
//! - `is  hook off  lost 0` what can be read of the line; `keep` and `back`: the line as it was once;
//! - `takes off  yes` its hook state allows the act; `heeds 5  no` it does nothing at it;
//! - `requested L/hd  yes`, `keeps D/5  yes` and the other questions of a request: of the one that it follows.
//!
//! A last field `tells A1 L/hd` is the X and O of the notification that the line gives then. `64 x 1000 flash` is 64 rows.
ghost use Rattle.std.specs.Prelude.{◌<◌, ◌^◌};

mod acts;
pub mod parameters;
mod shown;

use crate::keeping::{Held, Kept};
use crate::requests;
use crate::texts::{is_word, unless_fields};
use acts::{act_of, due_of};
use mg_bytes::OutOfMemory;
use mg_line::Line;
use parameters::request_of;
use scenario_files::{Outcome, Row, Scenario, parted};
use shown::{put_notice, put_state};
use std::alloc::Global;

// What a row gives whose turn can't be played.
const NO_TURN: &[u8] = b"0";

// A line as it opens.
fn opening(alloc: Global) -> Result<Held<Line>, OutOfMemory> {
    Held::of(alloc, Line::new(alloc)?)
}

// A request with these parameters; a code where the line refuses it.
fn ask(line: &mut Line, row: &mut Row<'_>, moment: u64)
    requires { moment < 2 ^ 62 }
{
    let fields = row.parameters();
    match request_of(row.given.alloc, fields) {
        Ok(request) => match line.check(&request) {
            Some(code) => row.given.put_shown(code),
            None => put_notice(&mut row.given, line.request(&request, moment)),
        },
        Err(fault) => row.given.put_code(fault),
    }
}

// An act that the hook state allows: it is done, or isn't heeded.
fn act(line: &mut Line, given: &mut Outcome, word: &str, moment: u64, is_heeded: bool)
    requires { moment < 2 ^ 62 }
{
    let Some(act) = act_of(word) else {
        return given.put(NO_TURN);
    };
    if !line.takes(act) {
        given.put(NO_TURN);
    } else if is_heeded {
        put_notice(given, line.phone(act, moment));
    } else if line.heeds(act) {
        given.put(NO_TURN);
    } else {
        line.pass_over(act);
    }
}

fn fall(line: &mut Line, given: &mut Outcome, word: &str, moment: u64)
    requires { moment < 2 ^ 62 }
{
    match due_of(word) {
        Some(due) if line.due() == Some((moment, due)) => {
            put_notice(given, line.fire(due, moment));
        }
        _ => given.put(NO_TURN),
    }
}

// A turn at this moment.
fn go_on(line: &mut Line, row: &mut Row<'_>, moment: u64)
    requires { moment < 2 ^ 62 }
{
    let words = row.before("  ");
    let (word, what) = parted(words, " ");
    match word {
        "asks" => ask(line, row, moment),
        "idles" => act(line, &mut row.given, what, moment, false),
        "falls" => fall(line, &mut row.given, what, moment),
        "answered" => put_notice(&mut row.given, line.answered(moment)),
        "opened" => put_notice(&mut row.given, line.opened(moment)),
        _ => act(line, &mut row.given, words, moment, true),
    }
}

// What the line says to a question, by its hook state or its request.
fn put_answer(line: &Line, given: &mut Outcome, question: &str) {
    let (word, act) = parted(question, " ");
    match act_of(act) {
        Some(act) if is_word(word, "takes") => given.put_judged(line.takes(act)),
        Some(act) if is_word(word, "heeds") => given.put_judged(line.heeds(act)),
        _ => requests::put_answer(given, line.requests(), question),
    }
}

// A row without a moment.
fn put_shown(held: &mut Held<Line>, row: &mut Row<'_>) {
    match row.before("  ") {
        "opening" => match opening(row.given.alloc) {
            Ok(new) => *held = new,
            Err(_) => row.given.refuse(),
        },
        "is" => {
            put_state(&mut row.given, &held.thing);
            unless_fields(row);
        }
        question => put_answer(&held.thing, &mut row.given, question),
    }
}

impl Scenario for Held<Line> {
    fn begin(alloc: Global) -> Result<Held<Line>, OutOfMemory> {
        let mut held = opening(alloc)?;
        held.thing.opened(0)?;
        Ok(held)
    }

    fn turn(&mut self, row: &mut Row<'_>) {
        let (first, rest) = row.left.split_once(' ').unwrap_or(("", ""));
        match first.parse::<u32>() {
            Ok(moment) => {
                row.left = rest.trim_start();
                go_on(&mut self.thing, row, u64::from(moment));
            }
            Err(_) => put_shown(self, row),
        }
    }
}

impl Kept for Held<Line> {
    fn copy(&self, alloc: Global) -> Result<Held<Line>, OutOfMemory> {
        Held::of(alloc, self.thing.try_copy()?)
    }
}
