//! The files that a program is called with, each of which says in its first line what it has.
use crate::again;
use crate::report::Report;
use crate::texts::parted;
use std::io::Write;
use std::net::Net;
use std::process::ExitCode;
use std::rt::{Env, Files};
use std::{env, fs, io};

/// The kinds of scenarios that a program knows.
pub trait Kinds {
    /// Tells a text of this kind: whether that is one of these kinds.
    fn told<R: AllocGlobal + Net>(rt: &R, kind: &str, text: &str, report: &mut Report) -> bool;
}

// The first line before a file's first title that is no comment: nothing plays what stands there.
fn unplayed(text: &str) -> Option<&str> {
    let (before, _) = parted(text, "\n= ");
    for line in before.lines() {
        if !line.is_empty() && !line.starts_with('#') {
            return Some(line);
        }
    }
    None
}

// Tells a file by what its first line says that it has. The other lines keep the line end before them, so that a title
// may be the first of them.
fn told<K: Kinds, R: AllocGlobal + Net>(rt: &R, text: &str, report: &mut Report) {
    let (kind, _) = parted(text, "\n");
    let rest = text.strip_prefix(kind).unwrap_or("");
    if let Some(line) = unplayed(rest) {
        return report.wrong(line, "\n  stands before the first title\n");
    }
    if !K::told(rt, kind, rest, report) {
        report.wrong("there are no scenarios of ", kind);
        report.put(b"\n");
    }
}

// The text of the file of this name; nothing where it can't be read. What is read and printed is asked for by a function a call, since
// a check pays for all that an error of std's holds inline at each step of a function that has one.
fn text_of<R: AllocGlobal + Files>(rt: &R, name: &str) -> Option<String> {
    again!(fs::read_to_string(rt, name)).ok()
}

// Prints what is said of a file: whether it is printed.
fn is_printed<R: Print>(rt: &R, said: &[u8]) -> bool {
    io::writer(rt).write_all(said).is_ok()
}

// Prints how many cases a file has.
fn is_counted<R: Print>(rt: &R, name: &str, cases: u32) -> bool {
    println!(rt; "{name}: {cases}").is_ok()
}

// Prints how many cases the files have, and whether they are as they are told.
fn is_summed<R: Print>(rt: &R, cases: u32, wrong: u32) -> bool {
    let printed = if wrong > 0 {
        println!(rt; "{wrong} of {cases} cases aren't told as they happen")
    } else {
        println!(rt; "{cases} cases, all as told")
    };
    printed.is_ok()
}

// Tells the file of this name. Prints what is said of it, and how many cases it has: whether that is printed.
fn told_file<K: Kinds, R: AllocGlobal + Files + Net + Print>(
    rt: &R,
    name: &str,
    report: &mut Report,
) -> bool {
    let before = report.cases;
    match text_of(rt, name) {
        Some(text) => told::<K, R>(rt, text.as_str(), report),
        None => report.wrong(name, " can't be read\n"),
    }
    if report.is_refused {
        report.is_refused = false;
        report.wrong(name, ": memory was refused\n");
    }
    let is_said = is_printed(rt, &report.said);
    report.said.clear();
    is_said && is_counted(rt, name, report.cases.wrapping_sub(before))
}

// Tells the files: whether all that is said of them is printed.
fn told_all<K: Kinds, R: AllocGlobal + Env + Files + Net + Print>(
    rt: &R,
    report: &mut Report,
) -> bool {
    let Ok(mut names) = again!(env::args(rt)) else {
        return false;
    };
    let _ = names.next();
    for name in names {
        if !told_file::<K, R>(rt, name.as_str(), report) {
            return false;
        }
    }
    true
}

/// Tells the files that the program's words name, and says at the end how many cases they have.
pub fn play<K: Kinds, R: AllocGlobal + Env + Files + Net + Print>(rt: &R) -> ExitCode {
    let mut report = Report::nothing(rt.alloc());
    let is_told = told_all::<K, R>(rt, &mut report);
    if is_told && is_summed(rt, report.cases, report.wrong) && report.wrong == 0 {
        ExitCode::SUCCESS
    } else {
        ExitCode::FAILURE
    }
}
