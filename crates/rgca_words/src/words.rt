//! Reads the words of the command line.
ghost use Rattle.std.specs.Prelude.{◌≡◌, true, Some, IfOk, IfErr, codes, option_map};
ghost use Rattle.clap.specs.Matches.{found_of, first_value, one_text};
ghost use Rattle.live_system.specs.Files.{name_of, HasNames};
ghost use Rattle.live_system.specs.Values.{IsBehind, IsMoment, IsRead, SaysFlag};
ghost use Rattle.rgca_words.specs.declared.ending.Ending.TheVariants.{Common};
ghost use Rattle.rgca_words.specs.Statuses.{fails};
ghost use Rattle.rgca_words.specs.Words.{spoiling_read};

use crate::help::{CONTROL, USAGE};
use clap::{ArgMatches, Command};
use impairment::Spoiling;
use live_system::{
    AddressWord, CommonEnding, FileNames, Kind, VERSION, address_behind, matches_in, moment_behind,
    network_in,
};
use output_queues::{Outlet, boxed};
use std::alloc::Global;
use std::io::Write;
use std::net::SocketAddrV4;

/// What the program is asked to do.
#[derive(Clone, Copy)]
pub struct Settings<'a> {
    /// The file that has the configuration.
    pub config: &'a str,
    /// The address of the socket for gateways, where it isn't the configuration's own; port 0 is any free one.
    pub listen: Option<SocketAddrV4>,
    /// The address of the socket for commands; port 0 is any free one.
    pub control: SocketAddrV4,
    /// Whether calls are routed.
    pub route: bool,
    /// Whether what is said is written to standard error, for people.
    pub log: bool,
    /// The file that datagrams are captured into.
    pub capture: Option<&'a str>,
    /// How the network is spoilt.
    pub network: Option<Spoiling>,
    /// The moment at which it ends, in ms.
    pub stop_after: Option<u64>,
}

impl<'a> Settings<'a> {
    /// The names of the program's files: what it reads is its configuration, and what it writes a capture.
    pub fn files(&self) -> FileNames<'a>
        ensures { HasNames self.now.config.now (name_of self.now.capture) result }
    {
        FileNames {
            read_from: self.config,
            written_to: self.capture.unwrap_or(""),
        }
    }
}

const WORDS: [(&str, Kind); 8] = [
    ("config", Kind::Bare),
    ("listen", Kind::Valued),
    ("control", Kind::Or(CONTROL)),
    ("route", Kind::Flag),
    ("log", Kind::Flag),
    ("capture", Kind::Valued),
    ("network", Kind::Valued),
    ("stop-after", Kind::Number),
];

// How a network spoils datagrams, if that stands there and says that.
fn spoiling_in(matches: &ArgMatches<'_>) -> Result<Option<Spoiling>, CommonEnding>
    ensures read { IfOk result (λ network. IsRead spoiling_read (first_value (found_of matches.now) (codes "network")) network) }
    ensures refused { IfErr result (λ ending. fails (Common ending) ≡ true) }
{
    network_in(matches.get_str("network"))
}

// What the program is asked to do by what stands behind its words. Its configuration is the word that stands by itself. It stands in a
// box: whoever holds it, or may have an ending in its place, holds little.
fn settings_in<'a>(
    alloc: Global,
    matches: &ArgMatches<'a>,
) -> Result<Box<Settings<'a>>, CommonEnding>
    ensures config { IfOk result (λ settings.
        first_value (found_of matches.now) (codes "config") ≡ Some settings.value.config.now) }
    ensures capture { IfOk result (λ settings.
        first_value (found_of matches.now) (codes "capture") ≡ option_map (λ name. name.now) settings.value.capture) }
    ensures control { IfOk result (λ settings.
        IsBehind (first_value (found_of matches.now) (codes "control")) (Some settings.value.control)) }
    ensures listen { IfOk result (λ settings.
        IsBehind (first_value (found_of matches.now) (codes "listen")) settings.value.listen) }
    ensures route { IfOk result (λ settings. SaysFlag (one_text (found_of matches.now) (codes "route")) settings.value.route) }
    ensures log { IfOk result (λ settings. SaysFlag (one_text (found_of matches.now) (codes "log")) settings.value.log) }
    ensures spoilt { IfOk result (λ settings.
        IsRead spoiling_read (first_value (found_of matches.now) (codes "network")) settings.value.network) }
    ensures ends { IfOk result (λ settings. IsMoment (one_text (found_of matches.now) (codes "stop-after")) settings.value.stop_after) }
    ensures refused { IfErr result (λ ending. fails (Common ending) ≡ true) }
{
    let Some(config) = matches.get_str("config") else {
        return Err(CommonEnding::Usage);
    };
    let control = match address_behind(matches, "control", AddressWord::Control) {
        Ok(Some(control)) => control,
        Ok(None) => return Err(CommonEnding::Usage),
        Err(ending) => return Err(ending),
    };
    let listen = match address_behind(matches, "listen", AddressWord::Listen) {
        Ok(listen) => listen,
        Err(ending) => return Err(ending),
    };
    let network = match spoiling_in(matches) {
        Ok(network) => network,
        Err(ending) => return Err(ending),
    };
    let settings = Settings {
        config,
        listen,
        control,
        route: matches.get_flag("route"),
        log: matches.get_flag("log"),
        capture: matches.get_str("capture"),
        network,
        stop_after: moment_behind(matches, "stop-after"),
    };
    match boxed(alloc, settings) {
        Ok(settings) => Ok(settings),
        Err(_) => Err(CommonEnding::OutOfMemory),
    }
}

/// Reads the words of a command line, of which the first is the program's name; this outlet says which are wrong.
pub(crate) fn read_words<'a, F: Write + Drop>(
    alloc: Global,
    words: &'a [String],
    said: &mut Outlet<F>,
) -> Result<Box<Settings<'a>>, CommonEnding> {
    let command = Command::new(alloc, "rgca")
        .version(VERSION)
        .override_usage(USAGE);
    let matches = match matches_in(alloc, command, &WORDS, words, said) {
        Ok(matches) => matches,
        Err(ending) => return Err(ending),
    };
    settings_in(alloc, &matches)
}
