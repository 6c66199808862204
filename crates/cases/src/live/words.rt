//! The words that `rgwd` is called with in a story, read as the program reads them.
use crate::stories::unread_outlet;
use clap::Command;
use live_system::{CommonEnding, matches_in};
use mg_bytes::OutOfMemory;
use rgwd_words::{Ending, Settings, WORDS, settings_in};
use std::alloc::{AllocError, Global};

// Whether these ask for what isn't played: that it says what the gateway will be, waits before its clock begins, or parts its capture.
fn is_other(settings: &Settings<'_>) -> bool {
    settings.check || settings.spread.is_some() || settings.parting.is_some()
}

/// What a command line asks for; nothing where its words are wrong, or ask for what isn't played.
pub fn settings_by<'a>(
    alloc: Global,
    line: &'a [String],
) -> Result<Option<Box<Settings<'a>>>, OutOfMemory> {
    let mut said = unread_outlet(alloc)?;
    let command = Command::new(alloc, "rgwd");
    let matches = match matches_in(alloc, command, &WORDS, line, &mut said) {
        Ok(matches) => matches,
        Err(CommonEnding::OutOfMemory) => return Err(AllocError),
        Err(_) => return Ok(None),
    };
    let settings = match settings_in(alloc, &matches) {
        Ok(settings) => settings,
        Err(Ending::Common(CommonEnding::OutOfMemory)) => return Err(AllocError),
        Err(_) => return Ok(None),
    };
    if is_other(&settings) {
        return Ok(None);
    }
    Ok(Some(settings))
}
