//! What the words of the command line ask for.
ghost use Rattle.std.specs.Prelude.{◌≡◌, ◌≢◌, ◌⊎◌, true, Some, None, IfOk, IfErr, codes, is_some, option_copied, option_map};
ghost use Rattle.clap.specs.Matches.{found_of, first_value};
ghost use Rattle.live_system.specs.Files.{name_of, HasNames};
ghost use Rattle.live_system.specs.Values.{IsBehind, IsRead};
ghost use Rattle.live_system.specs.Addresses.{IsAddress};
ghost use Rattle.traces.specs.Words.{first_in as first_read, spread_in as spread_read};
ghost use Rattle.page_http.specs.Naming.{names_in, names_of};
ghost use Rattle.live_io.specs.Speaking.{admitted_by, admitted_in};
ghost use Rattle.rgwd_words.specs.Asking.{spoiling_read, IsAt, AsksSockets, Asks};
ghost use Rattle.rgwd_words.specs.Parting.{parting_of};
ghost use Rattle.rgwd_words.specs.Statuses.{fails};

use crate::ending::Ending;
use crate::help::{LISTEN, PHONES, USAGE};
use crate::parted::parting_of;
use clap::{ArgMatches, Command};
use impairment::Spoiling;
use live_io::Speakers;
use live_system::{
    AddressWord, CommonEnding, FileNames, Kind, Parting, VERSION, address_behind, address_in,
    matches_in, moment_behind, network_in,
};
use output_queues::{Outlet, boxed};
use page_http::HostNames;
use std::alloc::{AllocError, Global};
use std::io::Write;
use std::net::SocketAddrV4;
use traces::{FirstNumber, spread_in};

/// The sockets that the program is asked to open, and whom it is to hear there.
#[derive(Clone, Copy)]
pub struct Sockets<'a> {
    /// The address of the gateway's socket; port 0 is any free one.
    pub listen: SocketAddrV4,
    /// The address of the telephones' socket; port 0 is any free one.
    pub phones: SocketAddrV4,
    /// Who may speak to it, where that is said: a text that `Speakers::read` takes.
    pub agents: Option<&'a str>,
    /// Whether its telephones are open to other machines.
    pub phones_open: bool,
    /// The address of its site, where it has one; port 0 is any free one.
    pub http: Option<SocketAddrV4>,
    /// Under which further names that is asked for counts, where that is said: a text that `HostNames::read` takes.
    pub http_hosts: Option<&'a str>,
}

/// Why a text isn't the list that is wanted there. It holds no text: a check pays for each text that a fault may hold wherever that is
/// handed on.
#[derive(Clone, Copy)]
pub enum ListFault {
    /// Memory was refused.
    OutOfMemory,
    /// It doesn't say who may speak.
    BadAgents,
    /// It is no list of names.
    BadHosts,
}

impl From<AllocError> for ListFault {
    ghost use Rattle.rgwd_words.specs.declared.words.ListFault.TheVariants as faults;

    ghost from_gives = { λ _ fault. fault ≡ faults.OutOfMemory };

    fn from(_refused: AllocError) -> ListFault {
        ListFault::OutOfMemory
    }
}

impl ListFault {
    /// How the program ends by it.
    pub fn ending(self) -> Ending
        ensures memory { self ≡ ListFault.OutOfMemory → result ≡ Ending.Common CommonEnding.OutOfMemory }
        ensures agents { self ≡ ListFault.BadAgents → result ≡ Ending.BadAgents }
        ensures hosts { self ≡ ListFault.BadHosts → result ≡ Ending.BadHosts }
        ensures failed { fails result ≡ true }
    {
        match self {
            ListFault::OutOfMemory => Ending::Common(CommonEnding::OutOfMemory),
            ListFault::BadAgents => Ending::BadAgents,
            ListFault::BadHosts => Ending::BadHosts,
        }
    }
}

/// What the program is asked to do.
#[derive(Clone, Copy)]
pub struct Settings<'a> {
    /// The file that has the configuration.
    pub config: &'a str,
    /// Whether it only says what the gateway will be.
    pub check: bool,
    pub sockets: Sockets<'a>,
    /// Whether what happens is written to standard output.
    pub trace: bool,
    /// Whether what is said is written to standard error, for people.
    pub log: bool,
    /// The file that datagrams are captured into, and how that is parted, where it is.
    pub capture: Option<&'a str>,
    pub parting: Option<Parting>,
    /// How a network spoils its datagrams, where one is asked for.
    pub network: Option<Spoiling>,
    /// The number with which ids begin, where that is said.
    pub first: Option<FirstNumber>,
    /// How long it waits at most before its clock begins, in ms, where it waits.
    pub spread: Option<u32>,
    /// The moment at which it ends, in ms.
    pub stop_after: Option<u64>,
}

impl<'a> Settings<'a> {
    /// The names of the program's files: what it reads is its configuration, and what it writes a capture.
    pub fn files(&self) -> FileNames<'a>
        ensures { HasNames self.now.config.now (name_of self.now.capture) result }
    {
        FileNames {
            read_from: self.config,
            written_to: self.capture.unwrap_or(""),
        }
    }
}

/// The words of the command line.
pub const WORDS: [(&str, Kind); 17] = [
    ("config", Kind::Bare),
    ("stop-after", Kind::Number),
    ("check", Kind::Flag),
    ("trace", Kind::Flag),
    ("log", Kind::Flag),
    ("phones-open", Kind::Flag),
    ("listen", Kind::Valued),
    ("phones", Kind::Valued),
    ("agents", Kind::Valued),
    ("http", Kind::Valued),
    ("http-host", Kind::Valued),
    ("capture", Kind::Valued),
    ("capture-size", Kind::Valued),
    ("capture-files", Kind::Valued),
    ("network", Kind::Valued),
    ("first", Kind::Valued),
    ("spread", Kind::Valued),
];

/// A word that doesn't ask how the program is used.
pub fn unless_help<'w>(word: &'w str) -> Result<&'w str, Ending>
    ensures itself { IfOk result (λ text. text.now ≡ word.now) }
    ensures help { IfErr result (λ ending. ending ≡ Ending.Common CommonEnding.Help) }
    ensures asks { IfErr result (λ ending. (word.now ≡ codes "--help") ⊎ (word.now ≡ codes "-h")) }
    ensures asks_not { IfOk result (λ text. (word.now ≢ codes "--help") × (word.now ≢ codes "-h")) }
{
    if word == "--help" || word == "-h" {
        return Err(Ending::Common(CommonEnding::Help));
    }
    Ok(word)
}

// The address that this text is, of a socket that a word asks for.
fn address_of(word: AddressWord, text: &str) -> Result<SocketAddrV4, Ending>
    ensures read { IfOk result (λ address. IsAddress text.now address) }
    ensures refused { IfErr result (λ ending. fails ending ≡ true) }
{
    match address_in(word, text) {
        Ok(address) => Ok(address),
        Err(ending) => Err(Ending::Common(ending)),
    }
}

// The address behind a word, or else a usual one.
fn address_at(
    matches: &ArgMatches<'_>,
    name: &str,
    word: AddressWord,
    usual: &str,
) -> Result<SocketAddrV4, Ending>
    ensures read { IfOk result (λ address. IsAt usual.now (first_value (found_of matches.now) name.now) address) }
    ensures refused { IfErr result (λ ending. fails ending ≡ true) }
{
    match matches.get_str(name) {
        Some(text) => address_of(word, text),
        None => address_of(word, usual),
    }
}

// The address of the site, if that stands there: one of the machine's, since the page answers only those who name its address; or where
// it has further names, any. What says these, if that stands there, does say names.
fn site_in(alloc: Global, matches: &ArgMatches<'_>) -> Result<Option<SocketAddrV4>, Ending>
    ensures read { IfOk result (λ site. IsBehind (first_value (found_of matches.now) (codes "http")) site) }
    ensures refused { IfErr result (λ ending. fails ending ≡ true) }
{
    let names = matches.get_str("http-host");
    let site = match address_behind(matches, "http", AddressWord::Http) {
        Ok(site) => site,
        Err(ending) => return Err(Ending::Common(ending)),
    };
    if names.is_none() && matches!(site, Some(address) if address.ip().is_unspecified()) {
        return Err(Ending::AnyAddress);
    }
    if let Some(names) = names {
        let _names = match hosts_in(alloc, names) {
            Ok(names) => names,
            Err(fault) => return Err(fault.ending()),
        };
    }
    Ok(site)
}

/// Who may speak, as this text says it.
pub fn speakers_in(alloc: Global, text: &str) -> Result<Speakers, ListFault>
    ensures read { IfOk result (λ speakers. admitted_in text.now ≡ Some (admitted_by speakers)) }
    ensures refused { IfErr result (λ fault. (fault ≡ ListFault.OutOfMemory)
        ⊎ ((fault ≡ ListFault.BadAgents) × (admitted_in text.now ≡ None))) }
{
    let Ok(read) = Speakers::read(alloc, text.as_bytes()) else {
        return Err(ListFault::OutOfMemory);
    };
    match read {
        Some(speakers) => Ok(speakers),
        None => Err(ListFault::BadAgents),
    }
}

/// The names that this text says.
pub fn hosts_in(alloc: Global, text: &str) -> Result<HostNames, ListFault>
    ensures read { IfOk result (λ names. names_in text.now ≡ Some (names_of names)) }
    ensures refused { IfErr result (λ fault. (fault ≡ ListFault.OutOfMemory)
        ⊎ ((fault ≡ ListFault.BadHosts) × (names_in text.now ≡ None))) }
{
    let Ok(read) = HostNames::read(alloc, text.as_bytes()) else {
        return Err(ListFault::OutOfMemory);
    };
    match read {
        Some(names) => Ok(names),
        None => Err(ListFault::BadHosts),
    }
}

// The bytes of a text, if that stands there.
fn bytes_in<'m>(matches: &'m ArgMatches<'_>, word: &str) -> Option<&'m [u8]>
    ensures { option_copied result ≡ first_value (found_of matches.now) word.now }
{
    match matches.get_str(word) {
        Some(text) => Some(text.as_bytes()),
        None => None,
    }
}

// Whether a text stands there.
fn stands(matches: &ArgMatches<'_>, word: &str) -> bool
    ensures { result ≡ is_some (first_value (found_of matches.now) word.now) }
{
    match matches.get_str(word) {
        Some(_) => true,
        None => false,
    }
}

// How the capture is parted, where there is one.
fn parting_in(matches: &ArgMatches<'_>) -> Result<Option<Parting>, Ending>
    ensures parted { result ≡ parting_of (is_some (first_value (found_of matches.now) (codes "capture")))
        (first_value (found_of matches.now) (codes "capture-size")) (first_value (found_of matches.now) (codes "capture-files")) }
    ensures refused { IfErr result (λ ending. fails ending ≡ true) }
{
    let has_capture = stands(matches, "capture");
    let size = bytes_in(matches, "capture-size");
    parting_of(has_capture, size, bytes_in(matches, "capture-files"))
}

// How a network spoils datagrams, if that stands there and says that.
fn spoiling_in(matches: &ArgMatches<'_>) -> Result<Option<Spoiling>, Ending>
    ensures read { IfOk result (λ network. IsRead spoiling_read (first_value (found_of matches.now) (codes "network")) network) }
    ensures refused { IfErr result (λ ending. fails ending ≡ true) }
{
    match network_in(matches.get_str("network")) {
        Ok(network) => Ok(network),
        Err(ending) => Err(Ending::Common(ending)),
    }
}

// The number with which ids begin, if that stands there and is one.
fn first_in(matches: &ArgMatches<'_>) -> Result<Option<FirstNumber>, Ending>
    ensures read { IfOk result (λ first. IsRead first_read (first_value (found_of matches.now) (codes "first")) first) }
    ensures refused { IfErr result (λ ending. fails ending ≡ true) }
{
    let Some(text) = matches.get_str("first") else {
        return Ok(None);
    };
    match FirstNumber::read(text.as_bytes()) {
        Some(first) => Ok(Some(first)),
        None => Err(Ending::BadFirst),
    }
}

// How long it waits at most before its clock begins, if that stands there and is a time that a start may wait.
fn longest_wait_in(matches: &ArgMatches<'_>) -> Result<Option<u32>, Ending>
    ensures read { IfOk result (λ spread. IsRead spread_read (first_value (found_of matches.now) (codes "spread")) spread) }
    ensures refused { IfErr result (λ ending. fails ending ≡ true) }
{
    let Some(text) = matches.get_str("spread") else {
        return Ok(None);
    };
    match spread_in(text.as_bytes()) {
        Some(spread) => Ok(Some(spread)),
        None => Err(Ending::BadSpread),
    }
}

fn sockets_in<'a>(alloc: Global, matches: &ArgMatches<'a>) -> Result<Sockets<'a>, Ending>
    ensures asks { IfOk result (λ sockets. AsksSockets (found_of matches.now) sockets) }
    ensures refused { IfErr result (λ ending. fails ending ≡ true) }
{
    let listen = match address_at(matches, "listen", AddressWord::Listen, LISTEN) {
        Ok(listen) => listen,
        Err(ending) => return Err(ending),
    };
    let phones = match address_at(matches, "phones", AddressWord::Phones, PHONES) {
        Ok(phones) => phones,
        Err(ending) => return Err(ending),
    };
    let agents = matches.get_str("agents");
    if let Some(text) = agents {
        let _speakers = match speakers_in(alloc, text) {
            Ok(speakers) => speakers,
            Err(fault) => return Err(fault.ending()),
        };
    }
    let http = match site_in(alloc, matches) {
        Ok(http) => http,
        Err(ending) => return Err(ending),
    };
    Ok(Sockets {
        listen,
        phones,
        agents,
        phones_open: matches.get_flag("phones-open"),
        http,
        http_hosts: matches.get_str("http-host"),
    })
}

// What the program is asked to do with this configuration, these sockets, and ids that begin so. It stands in a box: whoever holds it,
// or may have an ending in its place, holds little.
fn settings_with<'a>(
    alloc: Global,
    matches: &ArgMatches<'a>,
    config: &'a str,
    first: Option<FirstNumber>,
    sockets: Sockets<'a>,
) -> Result<Box<Settings<'a>>, Ending>
    requires config { first_value (found_of matches.now) (codes "config") ≡ Some config.now }
    requires first { IsRead first_read (first_value (found_of matches.now) (codes "first")) first }
    requires sockets { AsksSockets (found_of matches.now) sockets }
    ensures asks { IfOk result (λ settings. Asks (found_of matches.now) settings.value) }
    ensures refused { IfErr result (λ ending. fails ending ≡ true) }
{
    let parting = match parting_in(matches) {
        Ok(parting) => parting,
        Err(ending) => return Err(ending),
    };
    let network = match spoiling_in(matches) {
        Ok(network) => network,
        Err(ending) => return Err(ending),
    };
    let spread = match longest_wait_in(matches) {
        Ok(spread) => spread,
        Err(ending) => return Err(ending),
    };
    let settings = Settings {
        config,
        check: matches.get_flag("check"),
        sockets,
        trace: matches.get_flag("trace"),
        log: matches.get_flag("log"),
        capture: matches.get_str("capture"),
        parting,
        network,
        first,
        spread,
        stop_after: moment_behind(matches, "stop-after"),
    };
    match boxed(alloc, settings) {
        Ok(settings) => Ok(settings),
        Err(_) => Err(Ending::Common(CommonEnding::OutOfMemory)),
    }
}

/// What the program is asked to do by what stands behind its words. Its configuration is the word that stands by itself.
pub fn settings_in<'a>(alloc: Global, matches: &ArgMatches<'a>) -> Result<Box<Settings<'a>>, Ending>
    ensures config { IfOk result (λ settings.
        first_value (found_of matches.now) (codes "config") ≡ Some settings.value.config.now) }
    ensures capture { IfOk result (λ settings.
        first_value (found_of matches.now) (codes "capture") ≡ option_map (λ name. name.now) settings.value.capture) }
    ensures asks { IfOk result (λ settings. Asks (found_of matches.now) settings.value) }
    ensures refused { IfErr result (λ ending. fails ending ≡ true) }
{
    let Some(config) = matches.get_str("config") else {
        return Err(Ending::Common(CommonEnding::Usage));
    };
    let first = match first_in(matches) {
        Ok(first) => first,
        Err(ending) => return Err(ending),
    };
    match sockets_in(alloc, matches) {
        Ok(sockets) => settings_with(alloc, matches, config, first, sockets),
        Err(ending) => Err(ending),
    }
}

/// Reads the words of a command line, of which the first is the program's name; this outlet says which are wrong.
pub fn read_words<'a, F: Write + Drop>(
    alloc: Global,
    words: &'a [String],
    said: &mut Outlet<F>,
) -> Result<Box<Settings<'a>>, Ending> {
    let command = Command::new(alloc, "rgwd")
        .version(VERSION)
        .override_usage(USAGE);
    let matches = match matches_in(alloc, command, &WORDS, words, said) {
        Ok(matches) => matches,
        Err(ending) => return Err(Ending::Common(ending)),
    };
    settings_in(alloc, &matches)
}
