//! The word that says of a gateway who may speak to it, where none is said.
ghost use Rattle.std.specs.Prelude.{◌≡◌, IfOk, OnOk, option_copied};
ghost use Rattle.live_gateway.specs.Naming.{word_of, with_named_host, known_word, agents_line};

use crate::admission::known_hosts;
use live_io::Speakers;
use log_format::put_host;
use mg_bytes::{Draft, OutOfMemory};
use plain_machine::Setup;
use std::alloc::Global;
use std::net::Ipv4Addr;

// An address is named behind the others of a word, which admits these: where it isn't admitted yet; commas part those that are.
fn name(
    alloc: Global,
    word: &mut Vec<u8>,
    speakers: &mut Speakers,
    host: Ipv4Addr,
) -> Result<(), OutOfMemory>
    ensures { OnOk result (word_of word.new.items speakers.new ≡ with_named_host (word_of word.old.items speakers.old) host) }
{
    if speakers.hears(host) {
        return Ok(());
    }
    let mut item = Draft::new(alloc);
    if !word.is_empty() {
        item.put(b",");
    }
    put_host(&mut item, host);
    item.append_to(word)?;
    speakers.admit(host)
}

// The word that admits those who may speak to a gateway that is set up so, where no word says another.
fn known_word(alloc: Global, setup: &Setup) -> Result<Vec<u8>, OutOfMemory>
    ensures { IfOk result (λ word. word.items ≡ known_word setup.now) }
{
    let known = known_hosts(alloc, setup)?;
    let mut word = Vec::new(alloc);
    let mut speakers = Speakers::nobody(alloc);
    for host in known.as_slice() {
        name(alloc, &mut word, &mut speakers, *host)?;
    }
    Ok(word)
}

/// Who may speak to a gateway of this setup, as a line: by this word, where one was given, and else the addresses of its agent and of all
/// hosts that its configuration names, each once. Its only error is want of memory.
pub fn agents_line(alloc: Global, word: Option<&str>, setup: &Setup) -> Result<Vec<u8>, OutOfMemory>
    ensures { IfOk result (λ line. line.items ≡ agents_line (option_copied word.entry) setup.now) }
{
    let mut line = Draft::new(alloc);
    line.put(b"agents: --agents ");
    match word {
        Some(word) => line.put(word.as_bytes()),
        None => line.put(known_word(alloc, setup)?.as_slice()),
    }
    line.put(b"\n");
    line.end()
}
