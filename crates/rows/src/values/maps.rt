//! Calls of digit maps and their brackets.
//!
//! - `verdict  (0T|8xxx)  0  partial critical` what is dialled by a map: `perfect`, `partial` or `impossible`, and
//!   `critical` where timer T would complete it; a copy of what matches says the same, and so does each kind of matcher;
//! - `map  ( x x )  (xx)` a map without its blanks, 510 where it is misspelled, 502 where it is too long;
//! - `change  xx  xx` what a D makes of the map: another, `keep` where it is absent (`-`), `remove`, or a code;
//! - `range  1-3x  yes` it may stand in brackets; `in range  1-3  2  yes` that names the key.
ghost use Rattle.std.specs.Prelude.{◌≤◌, length};
ghost use Rattle.digit_map.specs.Verdict.{most_letters};

use crate::texts::are_same;
use digit_map::{
    MOST_LETTERS, MapChange, MapFault, MapText, Matcher, Verdict, is_in_range, is_range,
    read_change, read_map,
};
use digit_map_bits::{Compiled, Dialling, SlowMap};
use mg_bytes::{CodeFault, Letter, OutOfMemory, letter_of};
use scenario_files::{Outcome, bytes_of, parted, yes_or_no};
use std::alloc::{AllocError, Global};

// What is dialled; nothing where that has another sign, or more than 64.
fn letters_of(alloc: Global, dialled: &[u8]) -> Result<Option<Vec<Letter>>, OutOfMemory> {
    let mut letters = Vec::new(alloc);
    for byte in dialled {
        match letter_of(*byte) {
            Some(letter) => letters.push(letter)?,
            None => return Ok(None),
        }
    }
    Ok(Some(letters))
}

// What is said of the last of these letters, fed one by one, and whether T would complete them.
fn fed(matcher: &mut Dialling, letters: &[Letter]) -> (Option<Verdict>, bool)
    requires { length letters.now ≤ most_letters }
{
    matcher.clear();
    let mut said = None;
    for letter in letters {
        said = Some(matcher.feed(*letter));
    }
    (said, matcher.critical())
}

fn verdict_text(said: Option<Verdict>, is_critical: bool) -> &'static str {
    match (said, is_critical) {
        (None, _) => "nothing is dialled",
        (Some(Verdict::Perfect), true) => "perfect critical",
        (Some(Verdict::Perfect), false) => "perfect",
        (Some(Verdict::Partial), true) => "partial critical",
        (Some(Verdict::Partial), false) => "partial",
        (Some(Verdict::Impossible), true) => "impossible critical",
        (Some(Verdict::Impossible), false) => "impossible",
    }
}

// The same by a matcher of any kind.
fn said<M: Matcher>(
    alloc: Global,
    map: &MapText,
    letters: &[Letter],
) -> Result<(Option<Verdict>, bool), OutOfMemory>
    requires { length letters.now ≤ most_letters }
{
    let mut matcher = M::start(alloc, map)?;
    let mut said = None;
    for letter in letters {
        said = Some(matcher.feed(*letter));
    }
    Ok((said, matcher.critical()))
}

// Whether T would complete no letters, as a copy of a slow matcher says it.
fn slow_is_critical(alloc: Global, map: &MapText) -> Result<bool, OutOfMemory> {
    Ok(SlowMap::start(alloc, map)?.try_copy()?.critical())
}

// The same, as a copy of a compiled one says it.
fn compiled_is_critical(alloc: Global, map: &MapText) -> Result<bool, OutOfMemory> {
    Ok(Compiled::start(alloc, map)?.try_copy()?.critical())
}

// Whether matchers of the other kinds say the same, and their copies before any letter.
fn others_say(
    alloc: Global,
    map: &MapText,
    letters: &[Letter],
    expected: (Option<Verdict>, bool),
) -> Result<bool, OutOfMemory>
    requires { length letters.now ≤ most_letters }
{
    Ok(
        slow_is_critical(alloc, map)? == compiled_is_critical(alloc, map)?
            && said::<SlowMap>(alloc, map, letters)? == expected
            && said::<Compiled>(alloc, map, letters)? == expected,
    )
}

// What is said of letters, unless a copy of what matches says something else, after or before it is fed.
fn said_by_copy(
    matcher: &mut Dialling,
    letters: &[Letter],
) -> Result<Option<(Option<Verdict>, bool)>, OutOfMemory>
    requires { length letters.now ≤ most_letters }
{
    let said = fed(matcher, letters);
    let mut copy = matcher.try_copy()?;
    if copy.critical() != said.1 || fed(&mut copy, letters) != said {
        return Ok(None);
    }
    Ok(Some(said))
}

// By a map, by a copy of what matches, and by the other kinds of matchers.
fn verdict_by(alloc: Global, map: &MapText, letters: &[Letter]) -> Result<&'static str, OutOfMemory>
    requires { length letters.now ≤ most_letters }
{
    let said = said_by_copy(&mut Dialling::start(alloc, map)?, letters)?;
    let Some(said) = said else {
        return Ok("a copy says something else");
    };
    if others_say(alloc, map, letters, said)? {
        return Ok(verdict_text(said.0, said.1));
    }
    Ok("another matcher says something else")
}

fn verdict(alloc: Global, map: &[u8], dialled: &[u8]) -> Result<&'static str, OutOfMemory> {
    let map = match read_map(alloc, map) {
        Ok(map) => map,
        Err(MapFault::OutOfMemory) => return Err(AllocError),
        Err(_) => return Ok("no map"),
    };
    match letters_of(alloc, dialled)? {
        Some(letters) if letters.len() <= MOST_LETTERS => verdict_by(alloc, &map, &letters),
        _ => Ok("no letters"),
    }
}

fn in_range(range: &[u8], key: &[u8]) -> &'static str {
    match key {
        [byte] => match letter_of(*byte) {
            Some(letter) => yes_or_no(is_in_range(range, letter)),
            None => "no key",
        },
        _ => "no key",
    }
}

// The answer of a call of two values.
fn answer_of_two(alloc: Global, call: &str, fields: &str) -> Result<&'static str, OutOfMemory> {
    let (one, other) = parted(fields, "  ");
    let one = bytes_of(alloc, one)?;
    let other = bytes_of(alloc, other)?;
    match call {
        "verdict" => verdict(alloc, &one, &other),
        _ => Ok(in_range(&one, &other)),
    }
}

/// Puts the answer of a call of two values: of `verdict` or `in range`.
pub fn put_answer_of_two(given: &mut Outcome, call: &str, fields: &str) {
    match answer_of_two(given.alloc, call, fields) {
        Ok(answer) => given.put_words(answer),
        Err(_) => given.refuse(),
    }
}

// Puts a map, by a copy of it.
fn put_map(given: &mut Outcome, map: &MapText) {
    match map.try_copy() {
        Ok(copy) => given.put(copy.as_bytes()),
        Err(_) => given.refuse(),
    }
}

/// Puts a map without its blanks, or a code.
pub fn put_read(given: &mut Outcome, value: &[u8]) {
    match read_map(given.alloc, value) {
        Ok(map) => put_map(given, &map),
        Err(fault) => given.put_code(CodeFault::from(fault)),
    }
}

// What a D makes of the map that stands, or a code.
fn put_change(given: &mut Outcome, value: &[u8]) {
    let named = if are_same(value, b"-") {
        None
    } else {
        Some(value)
    };
    match read_change(given.alloc, named) {
        Ok(MapChange::Keep) => given.put(b"keep"),
        Ok(MapChange::Remove) => given.put(b"remove"),
        Ok(MapChange::Replace(map)) => put_map(given, &map),
        Err(fault) => given.put_code(CodeFault::from(fault)),
    }
}

/// Puts the answer of a call of one value; no where there is no such call here.
pub fn put_answer(given: &mut Outcome, call: &str, value: &[u8]) -> bool {
    match call {
        "map" => put_read(given, value),
        "change" => put_change(given, value),
        "range" => given.put_judged(is_range(value)),
        _ => return false,
    }
    true
}
