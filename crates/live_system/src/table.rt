//! How words stand.
use clap::{Arg, ArgAction, Command};
use std::alloc::{AllocError, Global};

/// How a word stands.
#[derive(Clone, Copy)]
pub enum Kind {
    /// By itself, and it has to.
    Bare,
    /// With something behind it.
    Valued,
    /// With a number behind it.
    Number,
    /// With something behind it; else this is meant.
    Or(&'static str),
    /// With nothing behind it.
    Flag,
}

// What clap is told stands in functions of few steps each: a check pays at each step for all that a word, or a command, holds inline.

// A word with this name behind two hyphens.
fn hyphened<'a>(alloc: Global, name: &'static str) -> Arg<'a> {
    Arg::new(alloc, name).long(name)
}

// What clap is told of a word.
fn arg_of<'a>(alloc: Global, name: &'static str, kind: Kind) -> Arg<'a> {
    match kind {
        Kind::Bare => Arg::new(alloc, name).required(true),
        Kind::Valued => hyphened(alloc, name),
        Kind::Number => hyphened(alloc, name).value_parser(clap::value_parser!(u64)),
        Kind::Or(other) => hyphened(alloc, name).default_value(other),
        Kind::Flag => hyphened(alloc, name).action(ArgAction::SetTrue),
    }
}

// A command that takes one word more.
fn with_word<'a>(
    command: Command<'a>,
    alloc: Global,
    name: &'static str,
    kind: Kind,
) -> Result<Command<'a>, AllocError> {
    command.arg(arg_of(alloc, name, kind))
}

/// A command that takes the words of this table too. An error is for want of memory.
pub(crate) fn with_words<'a>(
    alloc: Global,
    command: Command<'a>,
    table: &[(&'static str, Kind)],
) -> Result<Command<'a>, AllocError> {
    let mut command = command;
    for (name, kind) in table {
        command = match with_word(command, alloc, *name, *kind) {
            Ok(command) => command,
            Err(refused) => return Err(refused),
        };
    }
    Ok(command)
}
