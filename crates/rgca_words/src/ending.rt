//! How the program ends: its status, and what it says then.
ghost use Rattle.std.specs.Prelude.{◌≡◌, ◌⊎◌, ℕ, List, ◌++◌, ◌∷◌, [], codes, OnOk, IfOk};
ghost use Rattle.live_system.specs.Ending.{status_of as common_status};
ghost use Rattle.live_system.specs.Wording.{joined};
ghost use Rattle.rgca_words.specs.Statuses.{status_of, is_asked};
ghost use Rattle.rgca_words.specs.Texts.{moved_text, ending_text};
ghost use Rattle.live_system.specs.Files.{HasNames};
ghost use Rattle.rgca_words.specs.Names.{Says};

use crate::help::of_program;
use live_system::{About, CommonEnding, FileNames, end, put_pieces};
use mg_bytes::OutOfMemory;
use output_queues::Outlets;
use std::alloc::Global;
use std::io::Write;
use std::rt::Clock;

/// What the program once did, and another does now.
#[derive(Clone, Copy)]
pub enum Moved {
    /// It checked gateways.
    Check,
    /// It worked telephones by a script.
    Phones,
    /// It made calls at a rate.
    Load,
}

/// How the program ends. It holds no text of others but a configuration's faults: who tells it has what it names.
#[derive(Drop)]
pub enum Ending {
    /// As any program may.
    Common(CommonEnding),
    /// The words ask for what another program does now.
    Moved { what: Moved },
    /// The configuration has a fault, which a line tells, without its end.
    Config { line: Vec<u8> },
}

/// How the program ends, and what it says then; an error is for want of memory.
pub struct Said {
    pub ending: Ending,
    pub text: Result<Vec<u8>, OutOfMemory>,
}

impl Said {
    /// Says this at the program's end, and gives its exit status: that of a fault where what its words ask isn't taken.
    pub fn end<R: Clock, F: Write + Drop>(self, rt: &R, outlets: &mut Outlets<F>) -> u8
        ensures { (result ≡ status_of self.ending) ⊎ (result ≡ common_status CommonEnding.Write) }
    {
        let Said { ending, text } = self;
        let status = ending.status();
        let is_asked = ending.is_asked();
        end(rt, outlets, text, status, is_asked)
    }
}

impl Ending {
    /// The exit status: 0 it did what was asked, 2 words or a configuration that are refused, 3 memory, a file, a socket, a stream or the
    /// clock.
    pub fn status(&self) -> u8
        ensures { result ≡ status_of self.now }
    {
        match self {
            Ending::Common(ending) => ending.status(),
            Ending::Moved { .. } => 2,
            Ending::Config { .. } => 2,
        }
    }

    /// Whether what is said is what the words ask for.
    pub fn is_asked(&self) -> bool
        ensures { result ≡ is_asked self.now }
    {
        match self {
            Ending::Common(ending) => ending.is_asked(),
            _ => false,
        }
    }

    /// Puts what is said, where this is said of the program, and its files have these names: on standard output what the words ask, else
    /// lines on standard error, or nothing where it served, or where all was said. Its only error is want of memory.
    #[tactic(auto, unfolding(crate::specs::Texts::ending_text))]
    pub fn put_text(
        &self,
        alloc: Global,
        out: &mut Vec<u8>,
        about: About,
        files: FileNames<'_>,
    ) -> Result<(), OutOfMemory>
        ensures { OnOk result (out.new.items ≡ out.old.items ++ ending_text about files.entry self.now) }
    {
        match self {
            Ending::Common(ending) => ending.put_text(alloc, out, about, files),
            Ending::Moved { what } => put_moved(out, *what),
            Ending::Config { line } => put_config(out, files.read_from, line.as_slice()),
        }
    }

    // What is said, where the program's files have these names.
    fn text(&self, alloc: Global, files: FileNames<'_>) -> Result<Vec<u8>, OutOfMemory>
        ensures { (read written : List ℕ) → HasNames read written files.entry
            → IfOk result (λ text. Says read written self.now text.items) }
    {
        let mut text = Vec::new(alloc);
        match self.put_text(alloc, &mut text, of_program(), files) {
            Ok(()) => Ok(text),
            Err(refused) => Err(refused),
        }
    }

    /// The program ends so, and says what is said where its files have these names.
    pub fn said(self, alloc: Global, files: FileNames<'_>) -> Said
        ensures ending { result.ending ≡ self }
        ensures text { (read written : List ℕ) → HasNames read written files.entry
            → IfOk result.text (λ text. Says read written result.ending text.items) }
    {
        let text = self.text(alloc, files);
        Said { ending: self, text }
    }

    /// The program ends so before it has a file to read or to write.
    pub fn said_of_no_file(self, alloc: Global) -> Said
        ensures ending { result.ending ≡ self }
        ensures text { IfOk result.text (λ text. Says [] [] result.ending text.items) }
    {
        let files = FileNames {
            read_from: "",
            written_to: "",
        };
        self.said(alloc, files)
    }
}

// Where a part of the program went, in a line.
fn moved_text(what: Moved) -> &'static str
    ensures { result.now ≡ moved_text what }
{
    match what {
        Moved::Check => "rgca check is now the program rgw-check\n",
        Moved::Phones => {
            "rgca phones is now the Python module rgw_bench.phones, for tests with pytest\n"
        }
        Moved::Load => "rgca load is now the program rgw-load\n",
    }
}

// Says where a part of the program went.
fn put_moved(out: &mut Vec<u8>, what: Moved) -> Result<(), OutOfMemory>
    ensures { OnOk result (out.new.items ≡ out.old.items ++ joined (moved_text what ∷ [])) }
{
    put_pieces(out, &[moved_text(what)])
}

// The configuration in this file has a fault, which a line tells.
fn put_config(out: &mut Vec<u8>, file: &str, line: &[u8]) -> Result<(), OutOfMemory>
    ensures { OnOk result (out.new.items ≡ out.old.items ++ (file.now ++ (codes ": " ++ (line.now ++ codes "\n")))) }
{
    put_pieces(out, &[file, ": "])?;
    out.extend_from_slice(line)?;
    out.extend_from_slice(b"\n")
}
