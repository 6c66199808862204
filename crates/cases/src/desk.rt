//! Stories of `rgca`: its loop, from its words and its configuration on.
//!
//! Their lines are those of `live`, but for these:
//!
//! - `set ..` lines of the configuration; where there are none it has two gateways of two lines (`USUAL`).
//! - `<`, `>` a datagram comes from the first gateway, 127.0.0.1:2427, or goes there, or from and to the address behind them.
//! - `type AUEP ..` this is typed at the socket for commands.
//! - `print ..` a line of standard output.
//! - `words check` a first word that is no option stands in the place of the configuration. What is said of words that ask for nothing to
//!   serve is told, and the exit status: `print ..`, or `log ..` of standard error, `status ..`. What `clap` says of wrong words isn't.
//! - `read print` what is printed is read from here on, and `read print 1048413` so many bytes wait for that from the start; where the log
//!   is read late, nobody reads that without it.
//! - `refused print` memory is refused for what is printed, from the start.
use crate::stories::{
    Clocks, EndClock, LateRecord, Machine, Place, Program, Records, Story, Transcript, line_of,
    told, unread_outlet,
};
use agent_config::{AgentConfig, ConfigRefusal, read_config};
use agent_log::Journal;
use live_agent::{Recorder, Wire, WireSettings, serve_over, wire_over};
use live_system::{AddressWord, CommonEnding, SocketWanted};
use mg_bytes::OutOfMemory;
use rgca_words::{Ending, Said, Settings, asked_by};
use scenario_files::{Report, Titled};
use std::alloc::{AllocError, Global};
use std::net::{Ipv4Addr, Net, SocketAddrV4};
use std::rc::Rc;

// The configuration where a story says no other.
const USUAL: &str = "own = \"127.0.0.1:2727\"
digit_map = \"(2xx|0)\"
[gateways.\"gw1.example.net\"]
address = \"127.0.0.1:2427\"
numbers = [\"201\", \"202\"]
[gateways.\"gw2.example.net\"]
address = \"127.0.0.2:2427\"
numbers = [\"203\", \"204\"]
";

/// The program `rgca`.
#[derive(Clone, Copy)]
pub struct CallAgent;

impl Recorder for Records {
    fn write(&mut self, journal: &mut Journal, time: u64) {
        if self.keep_agent_late(journal, time) {
            return;
        }
        self.keep_day(&journal.log);
        self.keep(b"print ", &mut journal.told);
        self.keep(b"log ", &mut journal.log);
        self.keep_capture(&mut journal.capture);
    }

    fn is_offering(&self) -> bool {
        self.waits_to_be_read()
    }
}

// A configuration; nothing where it has a fault.
fn config_in(alloc: Global, settings: &str) -> Result<Option<AgentConfig>, OutOfMemory> {
    let text = if settings.is_empty() { USUAL } else { settings };
    match read_config(alloc, text.as_bytes(), false) {
        Ok(config) => Ok(Some(config)),
        Err(ConfigRefusal::OutOfMemory) => Err(AllocError),
        Err(_) => Ok(None),
    }
}

// The command line that a story says, where a first word that is no option stands in the place of the configuration.
fn line_in(alloc: Global, words: &[String]) -> Result<Vec<String>, OutOfMemory> {
    match words {
        [first, rest @ ..] if !first.as_str().starts_with('-') => {
            line_of(alloc, "rgca", first.as_str(), rest)
        }
        _ => line_of(alloc, "rgca", "agent.toml", words),
    }
}

// Puts what it says, and with which status it ends: it runs.
fn put_said(said: Said, story: &Story, given: &mut Transcript) -> Result<bool, OutOfMemory> {
    let Said { ending, text } = said;
    let text = text?;
    // Played again by who refused memory.
    if let Ending::Common(CommonEnding::OutOfMemory) = &ending {
        return Err(AllocError);
    }
    let before = if ending.is_asked() {
        b"print ".as_slice()
    } else {
        b"log ".as_slice()
    };
    given.tell(story.clocks.stamp(), before, text.as_slice());
    given.tell_status(story.clocks.stamp(), ending.status());
    Ok(true)
}

// What is asked of a wire, which ends behind what comes where no word says when.
fn wire_settings(settings: &Settings<'_>, config: &AgentConfig, story: &Story) -> WireSettings {
    let end = story.moment.saturating_add(1);
    WireSettings {
        listen: SocketWanted {
            word: AddressWord::Listen,
            address: settings.listen.unwrap_or(config.own),
        },
        control: SocketWanted {
            word: AddressWord::Control,
            address: settings.control,
        },
        network: settings.network,
        has_log: settings.log,
        has_capture: settings.capture.is_some(),
        end: Some(settings.stop_after.unwrap_or(end)),
    }
}

// What a call agent stands on, over what a story has of sockets and a clock.
fn wire_of<'c>(
    alloc: Global,
    settings: WireSettings,
    story: &mut Story,
    clocks: &'c Rc<Clocks>,
) -> Result<Box<Wire<Machine<'c>>>, OutOfMemory> {
    let here = settings.listen.address;
    let around = story.take_machine([here, settings.control.address], clocks)?;
    wire_over(alloc, around, here, settings)
}

// Memory is refused for the record of this name.
fn refuse(name: &str, journal: &mut Journal) {
    match name {
        "print" => journal.told.refuse(),
        "log" => journal.log.refuse(),
        "capture" => journal.capture.refuse(),
        _ => {}
    }
}

// Serves with this configuration to the end, as the program does, and puts what is given, with what was counted and the exit status, where
// these are asked for.
fn run(
    alloc: Global,
    config: &AgentConfig,
    is_routed: bool,
    wire: &mut Wire<Machine<'_>>,
    story: &Story,
    given: &mut Transcript,
) -> Result<bool, OutOfMemory> {
    let mut records = Records::of_story(alloc, story, LateRecord::Print)?;
    refuse(story.refused.as_str(), &mut wire.journal);
    let clock = EndClock::over(story.clocks.as_ref());
    let ending = serve_over(&clock, alloc, config, is_routed, wire, &mut records);
    records.tell_status(ending, story);
    given.append(&mut wire.around.given);
    records.put_given(given);
    Ok(true)
}

// Plays a story with a call agent of this configuration.
fn play_with(
    alloc: Global,
    settings: &Settings<'_>,
    config: &AgentConfig,
    story: &mut Story,
    given: &mut Transcript,
) -> Result<bool, OutOfMemory> {
    let clocks = story.clocks.clone()?;
    let asked = wire_settings(settings, config, story);
    let mut wire = wire_of(alloc, asked, story, &clocks)?;
    if let Some(file) = settings.capture {
        wire.journal.name_capture(file)?;
    }
    run(alloc, config, settings.route, &mut wire, story, given)
}

// Plays a story where the program is called with these words.
fn play_asked(
    alloc: Global,
    settings: &Settings<'_>,
    story: &mut Story,
    given: &mut Transcript,
) -> Result<bool, OutOfMemory> {
    match config_in(alloc, story.settings.as_str())? {
        Some(config) => play_with(alloc, settings, &config, story, given),
        None => Ok(false),
    }
}

impl Program for CallAgent {
    fn place() -> Place {
        Place {
            own: [
                SocketAddrV4::new(Ipv4Addr::LOCALHOST, 2727),
                SocketAddrV4::new(Ipv4Addr::LOCALHOST, 4280),
            ],
            peer: SocketAddrV4::new(Ipv4Addr::LOCALHOST, 2427),
        }
    }

    fn play<R: AllocGlobal + Net>(
        rt: &R,
        story: &mut Story,
        given: &mut Transcript,
    ) -> Result<bool, OutOfMemory> {
        let alloc = rt.alloc();
        let line = Ok(line_in(alloc, story.words.as_slice())?);
        let mut unread = unread_outlet(alloc)?;
        match asked_by(alloc, &line, &mut unread) {
            Ok(settings) => play_asked(alloc, &settings, story, given),
            Err(said) => put_said(said, story, given),
        }
    }
}

impl Titled for CallAgent {
    fn told<R: AllocGlobal + Net>(
        &mut self,
        rt: &R,
        title: &str,
        lines: &str,
        report: &mut Report,
    ) {
        told::<CallAgent, R>(rt, title, lines, report);
    }
}
