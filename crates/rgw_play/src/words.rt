//! Reads the words of the command line.
use clap::error::ErrorKind;
use clap::{Arg, ArgAction, ArgMatches, Command};
use std::alloc::{AllocError, Global};

/// What the program is asked to do.
#[derive(Clone, Copy)]
pub enum Task {
    /// To play the script on standard input.
    Simulate,
    /// The same through two sockets, of which the gateway's has this port; 0 is any free one.
    Loopback { port: u16 },
}

/// Why the words say no task.
#[derive(Clone, Copy)]
pub enum WordFault {
    /// Memory was refused.
    OutOfMemory,
    /// They are other words.
    Usage,
}

// A word, and each command that has one, is made by a function of its own: a check pays for all that they hold inline at each step of a
// function that has one.
fn port<'a>(alloc: Global) -> Arg<'a> {
    Arg::new(alloc, "port")
        .long("port")
        .action(ArgAction::Set)
        .value_parser(clap::value_parser!(u16))
        .default_value("0")
}

fn loopback<'a>(alloc: Global) -> Result<Command<'a>, AllocError> {
    Command::new(alloc, "loopback").arg(port(alloc))
}

fn command<'a>(alloc: Global) -> Result<Command<'a>, AllocError> {
    let command = Command::new(alloc, "rgw").subcommand(Command::new(alloc, "simulate"))?;
    command.subcommand(loopback(alloc)?)
}

// The task that a command line says.
fn task_in(matches: &ArgMatches<'_>) -> Result<Task, WordFault> {
    match matches.subcommand() {
        Some(("simulate", _)) => Ok(Task::Simulate),
        Some(("loopback", found)) => match found.get_one::<u16>("port") {
            Some(port) => Ok(Task::Loopback { port }),
            None => Err(WordFault::Usage),
        },
        _ => Err(WordFault::Usage),
    }
}

/// Reads the words of a command line, of which the first is the program's name.
pub fn read_words(alloc: Global, words: &[String]) -> Result<Task, WordFault> {
    let Ok(command) = command(alloc) else {
        return Err(WordFault::OutOfMemory);
    };
    match command.try_get_matches_from(words) {
        Ok(matches) => task_in(&matches),
        Err(e) if e.kind() == ErrorKind::OutOfMemory => Err(WordFault::OutOfMemory),
        Err(_) => Err(WordFault::Usage),
    }
}
