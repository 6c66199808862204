//! What a command line asks for: that a gateway serves as its settings say; or what is done here, at once, since it needs none.
use crate::ending::{Ending, Said};
use crate::replaying::{REPLAY, replay_trace};
use crate::telling::{TELL, tell_line};
use crate::words::{Settings, read_words};
use live_system::CommonEnding;
use output_queues::Outlets;
use std::net::Net;
use std::rt::{Clock, Files};

// The words behind this one, where that is the first.
fn words_behind<'w>(first: &str, words: &'w [String]) -> Option<&'w [String]> {
    match words.get(1) {
        Some(word) if word.as_str() == first => words.get(2..),
        _ => None,
    }
}

/// What these words ask to be served, of which the first is the program's name; or how the program ends that serves nothing, and what it
/// says then: where it has no words, or they tell a gateway a line, or a trace is replayed, or they are refused. What belongs there these
/// outlets say.
pub fn asked_by<'w, R: AllocGlobal + Files + Net + Clock>(
    rt: &R,
    words: &'w Result<Vec<String>, CommonEnding>,
    outlets: &mut Outlets<R::File>,
) -> Result<Box<Settings<'w>>, Said> {
    let alloc = rt.alloc();
    let words = match words {
        Ok(words) => words.as_slice(),
        Err(ending) => return Err(Ending::Common(*ending).said_of_no_file(alloc)),
    };
    if let Some(asked) = words_behind(TELL, words) {
        return Err(tell_line(rt, asked, &mut outlets.output).said_of_no_file(alloc));
    }
    if let Some(asked) = words_behind(REPLAY, words) {
        return Err(replay_trace(rt, asked, outlets));
    }
    let settings = match read_words(alloc, words, &mut outlets.error) {
        Ok(settings) => settings,
        Err(ending) => return Err(ending.said_of_no_file(alloc)),
    };
    Ok(settings)
}
