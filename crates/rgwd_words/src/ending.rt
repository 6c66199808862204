//! How the program ends: its status, and what it says then.
ghost use Rattle.std.specs.Prelude.{◌≡◌, ◌≢◌, ◌⊎◌, ℕ, true, List, [], ◌++◌, OnOk, IfOk};
ghost use Rattle.live_system.specs.Ending.{status_of as common_status};
ghost use Rattle.rgwd_words.specs.Statuses.{status_of, is_asked, fails};
ghost use Rattle.rgwd_words.specs.Texts.{unanswered_text, ending_text};
ghost use Rattle.live_system.specs.Files.{HasNames};
ghost use Rattle.rgwd_words.specs.Names.{Says};

use crate::help::of_program;
use crate::parted::{MOST_FILES, MOST_MEGABYTES};
use gateway_core::FIRSTS;
use live_system::{About, AddressWord, CommonEnding, FileNames, end, put_around, put_pieces};
use log_format::put_peer;
use mg_bytes::{Draft, OutOfMemory};
use output_queues::Outlets;
use std::alloc::Global;
use std::io::{ErrorKind, Write};
use std::net::SocketAddrV4;
use std::rt::Clock;
use traces::LONGEST_SPREAD;

// Why there is no page at any address.
const ANY_ADDRESS: &str =
    "--http: the page answers those who name its address, and nobody names 0.0.0.0: write one of this machine's, as 127.0.0.1:8080, or a name behind --http-host\n";

// What doesn't say who may speak.
const BAD_AGENTS: &str =
    "--agents: wanted any, or addresses, as 10.0.0.7,10.1.0.0/16, of which the first 16 bits count\n";

// What is no list of names.
const BAD_HOSTS: &str = "--http-host: wanted names, as rgw.example.net,10.0.0.5, without a port\n";

// Why ids begin with no number.
const NO_TIME_OF_DAY: &str =
    "this machine has no time of day: --first N says with which number ids begin, another at each start\n";

// What may be asked where nobody answers.
const NO_ANSWER: &str =
    ": no answer; does a gateway run, with its telephones (--phones) at this address?\n";

// The last number with which ids may begin.
const LAST_FIRST: u32 = FIRSTS - 1;

/// How the program ends.
#[derive(Clone, Copy)]
pub enum Ending {
    /// As any program may.
    Common(CommonEnding),
    /// The configuration has no flaw, and standard output says what the gateway will be.
    Checked,
    /// What stands behind `--agents` doesn't say who may speak.
    BadAgents,
    /// What stands behind `--http-host` is no list of names.
    BadHosts,
    /// What stands behind `--capture-size` is no size of a capture's files, or there is no capture.
    BadSize,
    /// What stands behind `--capture-files` is no number of them, or the capture has one file alone.
    BadFiles,
    /// The page would be at any address of the machine, and so at none that it can tell.
    AnyAddress,
    /// What stands behind `--first` is no number with which ids may begin.
    BadFirst,
    /// What stands behind `--spread` is no time that a start may wait.
    BadSpread,
    /// The machine has no time of day, and no word says with which number ids begin.
    NoTimeOfDay,
    /// Each line that went out is as its trace tells it, and that is printed.
    Replayed,
    /// One isn't, and that is printed.
    Differs,
    /// What was to be replayed is no trace, and standard error says where.
    NoTrace,
    /// The telephones answered a line, and the answer is printed.
    Answered,
    /// They refuse it, and their answer is printed.
    Refused,
    /// Nobody answered a line at this address.
    NoAnswer { address: SocketAddrV4 },
}

/// How the program ends, and what it says then; an error is for want of memory.
pub struct Said {
    pub ending: Ending,
    pub text: Result<Vec<u8>, OutOfMemory>,
}

impl Said {
    /// Says it, and offers what waits for a second: the exit status of how the program ends, or that of a fault where what its words ask
    /// isn't taken.
    pub fn end<R: Clock, F: Write + Drop>(self, rt: &R, outlets: &mut Outlets<F>) -> u8
        ensures { (result ≡ status_of self.ending) ⊎ (result ≡ common_status CommonEnding.Write) }
    {
        let Said { ending, text } = self;
        end(rt, outlets, text, ending.status(), ending.is_asked())
    }
}

impl Ending {
    /// The exit status: 0 served, told, checked or replayed, 1 no answer, one that refuses, or another line, 2 words, a configuration or
    /// a trace that are refused, 3 memory, a file, a socket, a stream or the clock.
    pub fn status(self) -> u8
        ensures { result ≡ status_of self }
    {
        match self {
            Ending::Common(ending) => ending.status(),
            Ending::Checked | Ending::Answered | Ending::Replayed => 0,
            Ending::Refused | Ending::NoAnswer { .. } | Ending::Differs => 1,
            Ending::BadAgents
            | Ending::BadHosts
            | Ending::BadSize
            | Ending::BadFiles
            | Ending::AnyAddress
            | Ending::BadFirst
            | Ending::BadSpread
            | Ending::NoTrace => 2,
            Ending::NoTimeOfDay => 3,
        }
    }

    /// Whether what is said is what the words ask for.
    pub fn is_asked(self) -> bool
        ensures { result ≡ is_asked self }
    {
        match self {
            Ending::Common(ending) => ending.is_asked(),
            _ => false,
        }
    }

    /// The system doesn't let it read the file that it reads, by an error of this kind.
    pub fn unreadable(kind: ErrorKind) -> Ending
        ensures memory { kind ≡ ErrorKind.OutOfMemory → result ≡ Ending.Common CommonEnding.OutOfMemory }
        ensures told { kind ≢ ErrorKind.OutOfMemory → result ≡ Ending.Common (CommonEnding.Unreadable kind) }
    {
        Ending::Common(CommonEnding::unreadable(kind))
    }

    /// The system gives it no socket at the address that this word asks for, by an error of this kind.
    pub fn unbound(word: AddressWord, address: SocketAddrV4, kind: ErrorKind) -> Ending
        ensures memory { kind ≡ ErrorKind.OutOfMemory → result ≡ Ending.Common CommonEnding.OutOfMemory }
        ensures told { kind ≢ ErrorKind.OutOfMemory → result ≡ Ending.Common (CommonEnding.Unbound word address kind) }
        ensures failed { fails result ≡ true }
    {
        Ending::Common(CommonEnding::unbound(word, address, kind))
    }

    /// Puts what is said, where its files have these names: on standard output what the words ask, else a line on standard error, or
    /// nothing where it served or checked, an answer is printed, or all was said. Its only error is want of memory.
    #[tactic(auto, unfolding(crate::specs::Texts::ending_text))]
    pub fn put_text(
        self,
        alloc: Global,
        out: &mut Vec<u8>,
        about: About,
        files: FileNames<'_>,
    ) -> Result<(), OutOfMemory>
        ensures { OnOk result (out.new.items ≡ out.old.items ++ ending_text about files.entry self) }
    {
        match self {
            Ending::Common(ending) => ending.put_text(alloc, out, about, files),
            Ending::Checked
            | Ending::Answered
            | Ending::Refused
            | Ending::Replayed
            | Ending::Differs
            | Ending::NoTrace => Ok(()),
            Ending::BadAgents => put_pieces(out, &[BAD_AGENTS]),
            Ending::BadHosts => put_pieces(out, &[BAD_HOSTS]),
            Ending::BadSize => put_around(
                alloc,
                out,
                "--capture-size: wanted 1 to ",
                MOST_MEGABYTES,
                " MB, beside --capture\n",
            ),
            Ending::BadFiles => put_around(
                alloc,
                out,
                "--capture-files: wanted 1 to ",
                MOST_FILES,
                ", beside --capture-size\n",
            ),
            Ending::AnyAddress => put_pieces(out, &[ANY_ADDRESS]),
            Ending::BadFirst => put_around(
                alloc,
                out,
                "--first: wanted a number, 0 to ",
                u64::from(LAST_FIRST),
                "\n",
            ),
            Ending::BadSpread => put_around(
                alloc,
                out,
                "--spread: wanted 0 to ",
                u64::from(LONGEST_SPREAD),
                " ms\n",
            ),
            Ending::NoTimeOfDay => put_pieces(out, &[NO_TIME_OF_DAY]),
            Ending::NoAnswer { address } => put_unanswered(alloc, out, address),
        }
    }

    // What is said, where the program's files have these names.
    fn text(self, alloc: Global, files: FileNames<'_>) -> Result<Vec<u8>, OutOfMemory>
        ensures { (read written : List ℕ) → HasNames read written files.entry
            → IfOk result (λ text. Says read written self text.items) }
    {
        let mut text = Vec::new(alloc);
        match self.put_text(alloc, &mut text, of_program(), files) {
            Ok(()) => Ok(text),
            Err(refused) => Err(refused),
        }
    }

    /// The program ends so, and says what is said where its files have these names.
    pub fn said(self, alloc: Global, files: FileNames<'_>) -> Said
        ensures ending { result.ending ≡ self }
        ensures text { (read written : List ℕ) → HasNames read written files.entry
            → IfOk result.text (λ text. Says read written result.ending text.items) }
    {
        Said {
            ending: self,
            text: self.text(alloc, files),
        }
    }

    /// The program ends so before it has a file to read or to write.
    pub fn said_of_no_file(self, alloc: Global) -> Said
        ensures ending { result.ending ≡ self }
        ensures text { IfOk result.text (λ text. Says [] [] result.ending text.items) }
    {
        let files = FileNames {
            read_from: "",
            written_to: "",
        };
        self.said(alloc, files)
    }
}

// Nobody answered a line at this address.
fn put_unanswered(
    alloc: Global,
    out: &mut Vec<u8>,
    address: SocketAddrV4,
) -> Result<(), OutOfMemory>
    ensures { OnOk result (out.new.items ≡ out.old.items ++ unanswered_text address) }
{
    let mut text = Draft::new(alloc);
    put_peer(&mut text, address);
    text.put(NO_ANSWER.as_bytes());
    text.append_to(out)
}
