//! What stands in words, or what is wrong with them.
ghost use Rattle.std.specs.Prelude.{◌≡◌, ◌≢◌};
ghost use Rattle.clap.specs.Values.{kind_of};
ghost use Rattle.clap.specs.declared.error.kind.ErrorKind.TheVariants as kinds;

use crate::ending::CommonEnding;
use crate::table::{Kind, with_words};
use clap::error::ErrorKind;
use clap::{ArgMatches, Command, Error};
use output_queues::Outlet;
use std::alloc::{AllocError, Global};
use std::io::Write;

// What clap says of words that are wrong.
fn fault_text(alloc: Global, fault: &Error) -> Result<String, AllocError> {
    format!(in alloc; "{fault}")
}

// How a program ends by its words, by clap's error: this outlet says which words are wrong, where memory isn't refused for that.
fn ending_by<F: Write + Drop>(alloc: Global, fault: &Error, said: &mut Outlet<F>) -> CommonEnding
    ensures memory { kind_of fault.now ≡ kinds.OutOfMemory → result ≡ CommonEnding.OutOfMemory }
    ensures help { kind_of fault.now ≡ kinds.DisplayHelp → result ≡ CommonEnding.Help }
    ensures version { kind_of fault.now ≡ kinds.DisplayVersion → result ≡ CommonEnding.Version }
    ensures told { kind_of fault.now ≢ kinds.DisplayHelp → kind_of fault.now ≢ kinds.DisplayVersion
        → result ≢ CommonEnding.OutOfMemory → result ≡ CommonEnding.Told }
{
    let kind = fault.kind();
    if kind == ErrorKind::OutOfMemory {
        return CommonEnding::OutOfMemory;
    }
    if kind == ErrorKind::DisplayHelp {
        return CommonEnding::Help;
    }
    if kind == ErrorKind::DisplayVersion {
        return CommonEnding::Version;
    }
    match fault_text(alloc, fault) {
        Ok(text) => {
            said.say(text.as_bytes());
            CommonEnding::Told
        }
        Err(_) => CommonEnding::OutOfMemory,
    }
}

/// What stands in the words of a command line, of which the first is the program's name, where its command has the words of this table too;
/// or how the program ends by them: this outlet says which are wrong.
pub fn matches_in<'a, F: Write + Drop>(
    alloc: Global,
    command: Command<'a>,
    table: &[(&'static str, Kind)],
    words: &'a [String],
    said: &mut Outlet<F>,
) -> Result<ArgMatches<'a>, CommonEnding> {
    let command = match with_words(alloc, command, table) {
        Ok(command) => command,
        Err(_) => return Err(CommonEnding::OutOfMemory),
    };
    match command.try_get_matches_from(words) {
        Ok(matches) => Ok(matches),
        Err(fault) => Err(ending_by(alloc, &fault, said)),
    }
}
