//! Stories of `rgwd`: its loop, from its words and its configuration on.
//!
//! - `words --log` it is called with this; each word stands in a line of its own, with its value. Who may speak is who the configuration
//!   names, unless `words --agents` says another.
//! - `set ..` changes the configuration, as in a script.
//! - `first by day` its ids begin as the time of day says, as those of the program do where no word says with which number; else with 0.
//! - `at 2000` what stands below comes, and goes out, at this moment, in ms from the start.
//! - `<`, `>` and the lines of a datagram, up to `--`: it comes from the agent, or goes there; behind them may stand an address.
//! - `raw 10.0.0.7:2727 AUEP 1 ..` a datagram comes, in short forms.
//! - `type phone 1 off` this is typed at the telephones' socket, from 127.0.0.1:40000, or from the address before it.
//! - `ask GET /state HTTP/1.1¶..` a visitor of the page asks that.
//! - `pause 31000` the program is stopped, for so many ms.
//! - `work 2` from here on each datagram that is read, and each that is sent to an agent, takes so many ms first.
//! - `clock +2000`, `clock -2000` the machine's clock is set on, or back, by so many ms; so is its time of day by `day +3600000`.
//! - `fault send` the next datagram can't be sent; `fault receive` none can be received; `fault wait` the next wait fails; `fault clock` the
//!   clock can't be read any more.
//! - `dropped 12` so many lines of the log are said not to be kept; `failed calls.pcap` a record is said not to be written.
//! - `refused log` memory is refused for the log from the start; `refused trace`, `refused capture` for these.
//! - `room 300` so many bytes of the trace find room, and no more, since nobody takes any.
//! - `read 1048385` the log is read from here on; before, nobody does, and so many bytes wait for that from the start, which aren't told.
//!   `read trace` the trace is; where the log is read late, nobody reads the trace without that.
//! - `answer done` an answer to who usually types, `answer 10.0.0.9:5000 done` to somebody else, in a datagram of its own, of which
//!   `and ..` is each further line; `page ..` a line of what a visitor gets; `log ..`, `trace ..`, `capture ..` what is recorded;
//!   `count ..` what is counted at the end, `replay ..` what a replay of the trace finds, and `status 0` the exit status.
//! - `order` of what is given at one moment lines of all kinds stand in the order in which they come; else those of each kind do.
//! - `words --tell 127.0.0.1:2428 phone 1 off` this line is sent to these telephones, which answer by `raw ..`; `print ..` is printed of
//!   that.
mod browsers;
mod telling;
mod words;

use crate::live::browsers::Browsers;
use crate::live::telling::play_telling;
use crate::live::words::settings_by;
use crate::played::settings_with;
use crate::stories::{
    Clocks, EndClock, LateRecord, Machine, Place, Program, Records, Story, Transcript, line_of,
    told,
};
use gateway_config::read_config;
use gateway_core::{ConfigFault, Gateway};
use live_gateway::{Admission, Desk, DeskSettings, boxed, end_desk, open_desk, speakers_of};
use live_io::Speakers;
use live_journal::{Journal, Recorder, Trace};
use mg_bytes::OutOfMemory;
use page_http::HostNames;
use rgwd_words::{Settings, Start, hosts_in, speakers_in};
use scenario_files::{Report, Titled};
use std::alloc::{AllocError, Global};
use std::collections::VecDeque;
use std::mem;
use std::net::{Ipv4Addr, Net, SocketAddrV4};
use std::rc::Rc;
use traces::FirstNumber;

/// The program `rgwd`.
#[derive(Clone, Copy)]
pub struct Live;

impl Recorder<Trace> for Records {
    fn write(&mut self, journal: &mut Journal, trace: &mut Trace, time: u64) {
        if self.keep_late(journal, trace, time) {
            return;
        }
        self.keep_trace(trace);
        self.keep_day(&journal.log.record);
        self.keep(b"log ", &mut journal.log.record);
        self.keep_capture(&mut journal.capture.record);
        journal.written = self.written;
    }

    fn is_offering(&self) -> bool {
        self.waits_to_be_read()
    }
}

// With which number ids begin: as the program says at its start, where a story asks for that; else as a word says, or with 0.
fn first_by(settings: &Settings<'_>, story: &Story) -> FirstNumber {
    let zero = FirstNumber::zero();
    if !story.begins_by_day {
        return settings.first.unwrap_or(zero);
    }
    match Start::now(story.clocks.as_ref(), settings) {
        Some(start) => start.first,
        None => zero,
    }
}

// A gateway of a configuration, whose ids begin with this number; nothing where that has a fault.
fn gateway_in(
    alloc: Global,
    config: &str,
    first: FirstNumber,
) -> Result<Option<Box<Gateway>>, OutOfMemory> {
    let Some(config) = read_config(alloc, config.as_bytes())? else {
        return Ok(None);
    };
    match Gateway::starting_at(alloc, config, first.number()) {
        Ok(gateway) => Ok(Some(boxed(alloc, gateway)?)),
        Err(ConfigFault::OutOfMemory) => Err(AllocError),
        Err(_) => Ok(None),
    }
}

// What is asked of a gateway, which ends behind what comes where no word says when.
fn desk_settings<'w>(settings: &Settings<'w>, story: &Story) -> DeskSettings<'w> {
    let end = story.moment.saturating_add(1);
    DeskSettings {
        has_trace: settings.trace,
        has_log: settings.log,
        capture: settings.capture,
        here: settings.sockets.listen,
        has_page: settings.sockets.http.is_some(),
        network: settings.network,
        end: Some(settings.stop_after.unwrap_or(end)),
    }
}

// Who may speak to a gateway. What says no speakers was refused with the words, so the only error is want of memory.
fn speakers_by(
    alloc: Global,
    agents: Option<&str>,
    gateway: &Gateway,
) -> Result<Speakers, AllocError> {
    match agents {
        Some(text) => match speakers_in(alloc, text) {
            Ok(speakers) => Ok(speakers),
            Err(_) => Err(AllocError),
        },
        None => speakers_of(alloc, gateway.setup()),
    }
}

// A gateway that runs, over what a story has of sockets and a clock.
fn desk_of<'c>(
    alloc: Global,
    settings: &Settings<'_>,
    config: &str,
    gateway: Box<Gateway>,
    story: &mut Story,
    clocks: &'c Rc<Clocks>,
) -> Result<Box<Desk<Machine<'c>, Trace>>, AllocError> {
    let own = [settings.sockets.listen, settings.sockets.phones];
    let admission = Admission {
        speakers: speakers_by(alloc, settings.sockets.agents, &gateway)?,
        own,
        are_phones_open: settings.sockets.phones_open,
    };
    let around = story.take_machine(own, clocks)?;
    let asked = desk_settings(settings, story);
    open_desk(alloc, &asked, config.as_bytes(), gateway, around, admission)
}

// The further names of the page. What is no list of names was refused with the words, so the only error is want of memory.
fn names_by(alloc: Global, hosts: Option<&str>) -> Result<HostNames, AllocError> {
    match hosts {
        Some(text) => match hosts_in(alloc, text) {
            Ok(names) => Ok(names),
            Err(_) => Err(AllocError),
        },
        None => Ok(HostNames::none(alloc)),
    }
}

// Who visits the page, if there is one.
fn visitors_of(
    alloc: Global,
    settings: &Settings<'_>,
    story: &mut Story,
) -> Result<Option<Box<Browsers>>, AllocError> {
    let Some(site) = settings.sockets.http else {
        return Ok(None);
    };
    let visits = mem::replace(&mut story.visits, VecDeque::new(alloc));
    let names = names_by(alloc, settings.sockets.http_hosts)?;
    let clocks = story.clocks.clone()?;
    let browsers = Browsers::new(alloc, clocks, site, names, visits);
    Ok(Some(boxed(alloc, browsers)?))
}

// Memory is refused for the record of this name.
fn refuse(name: &str, trace: &mut Trace, journal: &mut Journal) {
    match name {
        "trace" => trace.record.refuse(),
        "log" => journal.log.record.refuse(),
        "capture" => journal.capture.record.refuse(),
        _ => {}
    }
}

// It has ended, as the program does; and its status is told, where a story asks for that.
fn end(desk: &mut Desk<Machine<'_>, Trace>, records: &mut Records, story: &Story) {
    let ending = end_desk(&EndClock::over(story.clocks.as_ref()), desk, records);
    records.tell_status(ending, story);
}

// Runs a gateway by a story, and puts what it gives. Where its end is told it tells what the program tells then. Who asked for the end is
// answered behind that.
fn run(
    alloc: Global,
    desk: &mut Desk<Machine<'_>, Trace>,
    visitors: &mut Option<Box<Browsers>>,
    story: &Story,
    is_ended: bool,
    given: &mut Transcript,
) -> Result<bool, OutOfMemory> {
    let mut records = Records::of_story(alloc, story, LateRecord::Trace)?;
    refuse(
        story.refused.as_str(),
        &mut desk.play.teller,
        &mut desk.exchange.journal,
    );
    desk.run(visitors, &mut records);
    if is_ended || story.is_counted || story.has_status {
        end(desk, &mut records, story);
    } else {
        desk.answer_stop();
    }
    given.append(&mut desk.exchange.around.given);
    if let Some(browsers) = visitors {
        given.append(&mut browsers.given);
    }
    records.put_given(given);
    Ok(true)
}

// Plays a story with a gateway of this configuration.
fn play_with(
    alloc: Global,
    settings: &Settings<'_>,
    config: &str,
    gateway: Box<Gateway>,
    story: &mut Story,
    given: &mut Transcript,
) -> Result<bool, OutOfMemory> {
    let clocks = story.clocks.clone()?;
    let mut desk = desk_of(alloc, settings, config, gateway, story, &clocks)?;
    let mut visitors = visitors_of(alloc, settings, story)?;
    let is_ended = settings.stop_after.is_some();
    run(alloc, &mut desk, &mut visitors, story, is_ended, given)
}

// Plays a story where the program is called with these words.
fn play_asked(
    alloc: Global,
    settings: &Settings<'_>,
    story: &mut Story,
    given: &mut Transcript,
) -> Result<bool, OutOfMemory> {
    let config = settings_with(alloc, story.settings.as_str())?;
    let first = first_by(settings, story);
    match gateway_in(alloc, config.as_str(), first)? {
        Some(gateway) => play_with(alloc, settings, config.as_str(), gateway, story, given),
        None => Ok(false),
    }
}

impl Program for Live {
    fn place() -> Place {
        Place {
            own: [
                SocketAddrV4::new(Ipv4Addr::LOCALHOST, 2427),
                SocketAddrV4::new(Ipv4Addr::LOCALHOST, 2428),
            ],
            peer: SocketAddrV4::new(Ipv4Addr::LOCALHOST, 2727),
        }
    }

    fn play<R: AllocGlobal + Net>(
        rt: &R,
        story: &mut Story,
        given: &mut Transcript,
    ) -> Result<bool, OutOfMemory> {
        if let Some(is_sent) = play_telling(rt, story, given)? {
            return Ok(is_sent);
        }
        let alloc = rt.alloc();
        let line = line_of(alloc, "rgwd", "gateway.toml", story.words.as_slice())?;
        match settings_by(alloc, line.as_slice())? {
            Some(settings) => play_asked(alloc, &settings, story, given),
            None => Ok(false),
        }
    }
}

impl Titled for Live {
    fn told<R: AllocGlobal + Net>(
        &mut self,
        rt: &R,
        title: &str,
        lines: &str,
        report: &mut Report,
    ) {
        told::<Live, R>(rt, title, lines, report);
    }
}
