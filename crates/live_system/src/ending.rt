//! How a program ends, as far as programs have that in common: the status, and what is said then.
ghost use Rattle.std.specs.Prelude.{◌≡◌, ◌≢◌, ◌++◌, Ok, Err, Some, None, OnOk, IfOk, IfErr, IfSome};
ghost use Rattle.impairment.specs.Parts.{spoiling_of};
ghost use Rattle.output_queues.specs.Reasons.{reason_of};
ghost use Rattle.output_queues.specs.Written.{faults_in};
ghost use Rattle.live_system.specs.AddressWords.{word_text};
ghost use Rattle.live_system.specs.Ending.{status_of, is_asked, served_ending, refused_text};
ghost use Rattle.live_system.specs.Ending.{unbound_text, ending_text};

use crate::address_words::AddressWord;
use crate::network_faults::wanted_by;
use crate::wording::put_pieces;
use impairment::{Spoiling, SpoilingFault};
use mg_bytes::OutOfMemory;
use output_queues::{Written, reason_of};
use std::alloc::Global;
use std::io::ErrorKind;
use std::net::SocketAddrV4;

/// The version of the programs.
pub const VERSION: &str = "1.0";

/// What a program says of itself.
#[derive(Clone, Copy)]
pub struct About {
    /// Its words, in a line.
    pub usage: &'static str,
    /// How it is used, in pieces.
    pub help: &'static [&'static str],
    /// Its version, and that of its protocol, in pieces.
    pub version: &'static [&'static str],
}

/// The files of a program, of which an ending tells the name.
#[derive(Clone, Copy)]
pub struct FileNames<'a> {
    /// The one that it reads.
    pub read_from: &'a str,
    /// The one that it writes.
    pub written_to: &'a str,
}

/// How a program ends, whichever it is. A kind is that of the system's error. It holds no text: a check pays for each text that a
/// fault may hold wherever that is handed on. Who tells it has the names of files.
#[derive(Clone, Copy)]
pub enum CommonEnding {
    /// It served up to the moment that was asked for.
    Served,
    /// The words ask how it is used.
    Help,
    /// The words ask for its version.
    Version,
    /// The words of the command line are other words.
    Usage,
    /// They are other words, or the configuration has a flaw, and standard error says which.
    Told,
    /// What stands behind this word isn't an address.
    BadAddress {
        word: AddressWord,
    },
    /// What stands behind `--network` says nothing of a network, for this fault.
    BadNetwork {
        fault: SpoilingFault,
    },
    /// The file that it reads can't be read.
    Unreadable {
        kind: ErrorKind,
    },
    /// The file that it writes can't be written.
    Unwritable {
        kind: ErrorKind,
    },
    /// No socket can be had at the address that this word asks for, or this key of a configuration.
    Unbound {
        word: AddressWord,
        address: SocketAddrV4,
        kind: ErrorKind,
    },
    /// The clock can't be read.
    Clock,
    /// What was recorded or asked can't be written, and standard error said so at once.
    Write,
    /// Memory was refused.
    OutOfMemory,
}

impl CommonEnding {
    /// The exit status: 0 it did what was asked, 2 words or a configuration that are refused, 3 memory, a file, a socket, a stream or
    /// the clock.
    pub fn status(self) -> u8
        ensures { result ≡ status_of self }
    {
        match self {
            CommonEnding::Served | CommonEnding::Help | CommonEnding::Version => 0,
            CommonEnding::Usage
            | CommonEnding::Told
            | CommonEnding::BadAddress { .. }
            | CommonEnding::BadNetwork { .. } => 2,
            CommonEnding::Unreadable { .. }
            | CommonEnding::Unwritable { .. }
            | CommonEnding::Unbound { .. }
            | CommonEnding::Clock
            | CommonEnding::Write
            | CommonEnding::OutOfMemory => 3,
        }
    }

    /// Whether what is said is what the words ask for, and so goes to standard output.
    pub fn is_asked(self) -> bool
        ensures { result ≡ is_asked self }
    {
        match self {
            CommonEnding::Help | CommonEnding::Version => true,
            CommonEnding::Served
            | CommonEnding::Usage
            | CommonEnding::Told
            | CommonEnding::BadAddress { .. }
            | CommonEnding::BadNetwork { .. }
            | CommonEnding::Unreadable { .. }
            | CommonEnding::Unwritable { .. }
            | CommonEnding::Unbound { .. }
            | CommonEnding::Clock
            | CommonEnding::Write
            | CommonEnding::OutOfMemory => false,
        }
    }

    /// It served, and memory was refused for something that is recorded, or wasn't; this became of what was recorded. Of a record that
    /// couldn't be written it was said at once.
    pub fn of_records(is_refused: bool, written: Written) -> CommonEnding
        ensures { result ≡ served_ending is_refused (faults_in written) }
    {
        if is_refused {
            return CommonEnding::OutOfMemory;
        }
        if written.faults() > 0 {
            return CommonEnding::Write;
        }
        CommonEnding::Served
    }

    /// The system doesn't give it its words, by an error of this kind: unless memory was refused it is as if they were other words.
    pub fn wordless(kind: ErrorKind) -> CommonEnding
        ensures memory { kind ≡ ErrorKind.OutOfMemory → result ≡ CommonEnding.OutOfMemory }
        ensures other { kind ≢ ErrorKind.OutOfMemory → result ≡ CommonEnding.Usage }
    {
        match kind {
            ErrorKind::OutOfMemory => CommonEnding::OutOfMemory,
            _ => CommonEnding::Usage,
        }
    }

    /// The system doesn't let it read the file that it reads, by an error of this kind.
    pub fn unreadable(kind: ErrorKind) -> CommonEnding
        ensures memory { kind ≡ ErrorKind.OutOfMemory → result ≡ CommonEnding.OutOfMemory }
        ensures other { kind ≢ ErrorKind.OutOfMemory → result ≡ CommonEnding.Unreadable kind }
    {
        match kind {
            ErrorKind::OutOfMemory => CommonEnding::OutOfMemory,
            _ => CommonEnding::Unreadable { kind },
        }
    }

    /// The system doesn't let it write the file that it writes, by an error of this kind.
    pub fn unwritable(kind: ErrorKind) -> CommonEnding
        ensures memory { kind ≡ ErrorKind.OutOfMemory → result ≡ CommonEnding.OutOfMemory }
        ensures other { kind ≢ ErrorKind.OutOfMemory → result ≡ CommonEnding.Unwritable kind }
    {
        match kind {
            ErrorKind::OutOfMemory => CommonEnding::OutOfMemory,
            _ => CommonEnding::Unwritable { kind },
        }
    }

    /// The system gives it no socket at the address that this word asks for, by an error of this kind.
    pub fn unbound(word: AddressWord, address: SocketAddrV4, kind: ErrorKind) -> CommonEnding
        ensures memory { kind ≡ ErrorKind.OutOfMemory → result ≡ CommonEnding.OutOfMemory }
        ensures other { kind ≢ ErrorKind.OutOfMemory → result ≡ CommonEnding.Unbound word address kind }
    {
        match kind {
            ErrorKind::OutOfMemory => CommonEnding::OutOfMemory,
            _ => CommonEnding::Unbound {
                word,
                address,
                kind,
            },
        }
    }

    /// Puts what is said, where this is said of the program, and its files have these names: on standard output what the words ask,
    /// else a line on standard error, or nothing where it served, or where all was said. Its only error is want of memory.
    #[tactic(auto, unfolding(crate::specs::Ending::ending_text))]
    pub fn put_text(
        self,
        alloc: Global,
        out: &mut Vec<u8>,
        about: About,
        files: FileNames<'_>,
    ) -> Result<(), OutOfMemory>
        ensures { OnOk result (out.new.items ≡ out.old.items ++ ending_text about files.entry self) }
    {
        match self {
            CommonEnding::Served | CommonEnding::Told | CommonEnding::Write => Ok(()),
            CommonEnding::Help => put_pieces(out, about.help),
            CommonEnding::Version => put_pieces(out, about.version),
            CommonEnding::Usage => put_pieces(out, &["usage: ", about.usage, "\n"]),
            CommonEnding::BadAddress { word } => {
                put_pieces(out, &[word.text(), ": no address a.b.c.d:port\n"])
            }
            CommonEnding::BadNetwork { fault } => {
                put_pieces(out, &["--network: ", wanted_by(fault), "\n"])
            }
            CommonEnding::Unreadable { kind } => {
                put_refused(out, files.read_from, ": read fault", reason_of(kind))
            }
            CommonEnding::Unwritable { kind } => {
                put_refused(out, files.written_to, ": write fault", reason_of(kind))
            }
            CommonEnding::Unbound {
                word,
                address,
                kind,
            } => put_unbound(alloc, out, word, address, kind),
            CommonEnding::Clock => put_pieces(out, &["clock fault\n"]),
            CommonEnding::OutOfMemory => put_pieces(out, &["out of memory\n"]),
        }
    }
}

/// How a network spoils datagrams, where a text stands behind `--network`, which says that.
pub fn network_in(text: Option<&str>) -> Result<Option<Spoiling>, CommonEnding>
    ensures none { text.entry ≡ None → result ≡ Ok None }
    ensures said { IfSome text.entry (λ text. IfOk (spoiling_of text.now) (λ spoiling. result ≡ Ok (Some spoiling))) }
    ensures other { IfSome text.entry (λ text. IfErr (spoiling_of text.now) (λ fault. result ≡ Err (CommonEnding.BadNetwork fault))) }
{
    let Some(text) = text else {
        return Ok(None);
    };
    match Spoiling::read(text.as_bytes()) {
        Ok(spoiling) => Ok(Some(spoiling)),
        Err(fault) => Err(CommonEnding::BadNetwork { fault }),
    }
}

// The system refuses what this names, for a reason.
fn put_refused<'t>(
    out: &mut Vec<u8>,
    name: &'t str,
    fault: &'t str,
    reason: &'t str,
) -> Result<(), OutOfMemory>
    ensures { OnOk result (out.new.items ≡ out.old.items ++ refused_text name.now fault.now reason.now) }
{
    put_pieces(out, &[name, fault, reason, "\n"])
}

// No socket can be had at the address that this word asks for, by an error of this kind.
fn put_unbound(
    alloc: Global,
    out: &mut Vec<u8>,
    word: AddressWord,
    address: SocketAddrV4,
    kind: ErrorKind,
) -> Result<(), OutOfMemory>
    ensures { OnOk result (out.new.items ≡ out.old.items ++ unbound_text (word_text word) address (reason_of kind)) }
{
    let address = address.to_string(alloc)?;
    put_pieces(
        out,
        &[
            word.text(),
            " ",
            address.as_str(),
            ": no socket",
            reason_of(kind),
            "\n",
        ],
    )
}
