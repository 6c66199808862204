//! Cases that are lines under titles. Some lines stand once, as pieces, and are put in where they are named.
use crate::again;
use crate::draft::TextDraft;
use crate::numbers::number_in;
use crate::report::Report;
use crate::texts::parted;
use mg_bytes::OutOfMemory;
use std::alloc::Global;
use std::net::Net;

// Lines under a name.
#[derive(Drop)]
struct Piece<'a> {
    name: &'a str,
    lines: String,
}

// The lines of a name, or a line that no script has.
fn lines_of<'a>(pieces: &'a [Piece<'_>], name: &str) -> &'a str {
    for piece in pieces {
        if piece.name == name {
            return piece.lines.as_str();
        }
    }
    "no such piece\n"
}

// The places that values stand in, as many as a piece may have.
const PLACES: [&str; 9] = [
    "{1}", "{2}", "{3}", "{4}", "{5}", "{6}", "{7}", "{8}", "{9}",
];

// A text with these values, which have a `|` between them, in its places.
fn filled(alloc: Global, lines: &str, values: &str) -> Result<String, OutOfMemory> {
    let mut text = lines.to_string(alloc)?;
    let mut values = values.split('|');
    for place in &PLACES {
        let Some(value) = values.next() else {
            return Ok(text);
        };
        text = text.replace(alloc, *place, value.trim())?;
    }
    Ok(text)
}

// What `do` puts in: the lines of a name, with a value in each of their places.
fn put_done(alloc: Global, pieces: &[Piece<'_>], out: &mut TextDraft, call: &str) {
    match call.split_once('|') {
        Some((name, values)) => {
            let lines = lines_of(pieces, name.trim());
            out.put_made(filled(alloc, lines, values));
        }
        None => out.put(lines_of(pieces, call.trim())),
    }
}

// Lines with this number in each place `{n}`.
fn numbered(alloc: Global, lines: &str, number: u64) -> Result<String, OutOfMemory> {
    let number = format!(in alloc; "{number}")?;
    lines.replace(alloc, "{n}", number.as_str())
}

// What `each` puts in: the lines of a name for each number from one to another, which is `{n}`.
fn put_each(alloc: Global, pieces: &[Piece<'_>], out: &mut TextDraft, call: &str) {
    let (first, rest) = parted(call, " ");
    let (last, name) = parted(rest, " ");
    let lines = lines_of(pieces, name);
    for number in number_in(first)..=number_in(last) {
        out.put_made(numbered(alloc, lines, number));
    }
}

// A line, or what it puts in.
fn put_expanded(alloc: Global, pieces: &[Piece<'_>], out: &mut TextDraft, line: &str) {
    match line.split_once(' ') {
        Some(("do", call)) => put_done(alloc, pieces, out, call),
        Some(("each", call)) => put_each(alloc, pieces, out, call),
        _ => out.put_line(line),
    }
}

// The lines with all that they put in.
fn expanded(alloc: Global, pieces: &[Piece<'_>], lines: &str) -> Result<String, OutOfMemory> {
    let mut out = TextDraft::new(alloc);
    for line in lines.lines() {
        put_expanded(alloc, pieces, &mut out, line);
    }
    out.end()
}

// The lines under a title, with all that they put in; nothing where they are a piece, which is held from now on.
// After an error the pieces are as they were.
fn lines_under<'a>(
    alloc: Global,
    pieces: &mut Vec<Piece<'a>>,
    title: &'a str,
    lines: &str,
) -> Result<Option<String>, OutOfMemory> {
    let lines = expanded(alloc, pieces, lines)?;
    let Some(name) = title.strip_prefix("piece ") else {
        return Ok(Some(lines));
    };
    pieces.push(Piece { name, lines })?;
    Ok(None)
}

/// A kind of cases that are lines under a title.
pub trait Titled {
    /// Tells the lines under a title.
    fn told<R: AllocGlobal + Net>(&mut self, rt: &R, title: &str, lines: &str, report: &mut Report);
}

// Tells the lines under a title, or holds them as a piece.
fn told_block<'a, T: Titled, R: AllocGlobal + Net>(
    rt: &R,
    kind: &mut T,
    pieces: &mut Vec<Piece<'a>>,
    block: &'a str,
    report: &mut Report,
) {
    let (title, lines) = parted(block, "\n");
    match again!(lines_under(rt.alloc(), pieces, title, lines)) {
        Ok(Some(lines)) => kind.told(rt, title, lines.as_str(), report),
        Ok(None) => {}
        Err(_) => report.refuse(),
    }
}

/// Tells the cases of a file, with the pieces that its lines put in.
pub fn told_titled<T: Titled, R: AllocGlobal + Net>(
    rt: &R,
    kind: &mut T,
    text: &str,
    report: &mut Report,
) {
    let mut pieces = Vec::new(rt.alloc());
    let mut blocks = text.split("\n= ");
    let _ = blocks.next();
    for block in blocks {
        told_block(rt, kind, &mut pieces, block, report);
    }
}
