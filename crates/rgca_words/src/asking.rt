//! What the words of a command line ask.
ghost use Rattle.std.specs.Prelude.{◌≡◌, None};
ghost use Rattle.rgca_words.specs.Words.{moved_by};

use crate::ending::{Ending, Moved, Said};
use crate::words::{Settings, read_words};
use live_system::CommonEnding;
use output_queues::Outlet;
use std::alloc::Global;
use std::io::Write;

// What another program does now, where a word asks for that.
fn moved_by(word: &str) -> Option<Moved>
    ensures { result ≡ moved_by word.now }
{
    if word == "check" {
        return Some(Moved::Check);
    }
    if word == "phones" {
        return Some(Moved::Phones);
    }
    if word == "load" {
        return Some(Moved::Load);
    }
    None
}

// What another program does now, where the word after the program's name asks for that.
fn moved_in(words: &[String]) -> Option<Moved> {
    match words {
        [_, word, ..] => moved_by(word.as_str()),
        _ => None,
    }
}

/// How these words, of which the first is the program's name, ask it to serve; or how it ends without that, and what it says then. This
/// outlet says which words are wrong.
pub fn asked_by<'a, F: Write + Drop>(
    alloc: Global,
    words: &'a Result<Vec<String>, CommonEnding>,
    said: &mut Outlet<F>,
) -> Result<Box<Settings<'a>>, Said> {
    let words = match words {
        Ok(words) => words.as_slice(),
        Err(ending) => return Err(Ending::Common(*ending).said_of_no_file(alloc)),
    };
    if let Some(what) = moved_in(words) {
        return Err(Ending::Moved { what }.said_of_no_file(alloc));
    }
    match read_words(alloc, words, said) {
        Ok(settings) => Ok(settings),
        Err(ending) => Err(Ending::Common(ending).said_of_no_file(alloc)),
    }
}
