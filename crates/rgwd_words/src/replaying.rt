//! Replays a trace, and says whether each line that went out is what the gateway sends for the lines before it.
ghost use Rattle.std.specs.Prelude.{◌≡◌, [], ◌∷◌, ◌++◌, codes, IfOk, string_bytes};
ghost use Rattle.rgwd_words.specs.Names.{Says};
ghost use Rattle.rgwd_words.specs.Replaying.{replayed_by};

use crate::ending::{Ending, Said};
use crate::words::unless_help;
use live_system::{CommonEnding, FileNames};
use mg_bytes::Draft;
use output_queues::Outlets;
use std::alloc::{AllocError, Global};
use std::fs::File;
use std::io::BufReader;
use std::rt::Files;
use traces::{ReplayFault, Verdict, put_verdict, replay};

/// The word that asks for it, which is the first.
pub const REPLAY: &str = "--replay";

// What is said of this file, which is no trace: it names it.
fn broken_text(alloc: Global, file: &str, why: &[u8]) -> Result<Vec<u8>, AllocError>
    ensures { IfOk result (λ said. said.items ≡ file.now ++ codes ": " ++ why.now) }
{
    let mut said = Draft::new(alloc);
    said.put(file.as_bytes());
    said.put(b": ");
    said.put(why);
    said.end()
}

// How the program ends that found this, and said so.
fn ending_by(verdict: &Verdict) -> Ending
    ensures { result ≡ replayed_by verdict.now }
{
    match verdict {
        Verdict::AsTold { .. } => Ending::Replayed,
        Verdict::Differs { .. } => Ending::Differs,
        Verdict::Broken { .. } => Ending::NoTrace,
    }
}

// Replays the trace in this file, and says on standard output what is found; of what is no trace on standard error: how the program ends by
// that.
fn replayed<R: AllocGlobal + Files>(rt: &R, file: &str, outlets: &mut Outlets<R::File>) -> Ending {
    let alloc = rt.alloc();
    let opened = match File::open(rt, file) {
        Ok(opened) => opened,
        Err(fault) => return Ending::unreadable(fault.kind()),
    };
    let trace = match BufReader::new(alloc, opened) {
        Ok(trace) => trace,
        Err(fault) => return Ending::unreadable(fault.kind()),
    };
    let verdict = match replay(alloc, trace) {
        Ok(verdict) => verdict,
        Err(ReplayFault::OutOfMemory) => return Ending::Common(CommonEnding::OutOfMemory),
        Err(ReplayFault::Read { kind }) => return Ending::unreadable(kind),
    };
    let mut text = Vec::new(alloc);
    if put_verdict(alloc, &mut text, &verdict).is_err() {
        return Ending::Common(CommonEnding::OutOfMemory);
    }
    if matches!(&verdict, Verdict::Broken { .. }) {
        let Ok(said) = broken_text(alloc, file, text.as_slice()) else {
            return Ending::Common(CommonEnding::OutOfMemory);
        };
        outlets.error.say(said.as_slice());
    } else {
        outlets.output.say(text.as_slice());
    }
    ending_by(&verdict)
}

/// Replays the trace in the file that the words behind `--replay` name, unless they ask how the program is used, and says what is found:
/// how the program ends by that. The file is the one that it reads.
pub fn replay_trace<R: AllocGlobal + Files>(
    rt: &R,
    words: &[String],
    outlets: &mut Outlets<R::File>,
) -> Said
    ensures { (file : _) → words.now ≡ file ∷ []
        → IfOk result.text (λ text. Says (string_bytes file) [] result.ending text.items) }
{
    match words {
        [file] => {
            let word = file.as_str();
            let ending = match unless_help(word) {
                Ok(file) => replayed(rt, file, outlets),
                Err(ending) => ending,
            };
            let files = FileNames {
                read_from: word,
                written_to: "",
            };
            ending.said(rt.alloc(), files)
        }
        _ => Ending::Common(CommonEnding::Usage).said_of_no_file(rt.alloc()),
    }
}
