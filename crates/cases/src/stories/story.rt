//! A story as it is written: what a program is called with, what comes, and what it gives.
use crate::stories::clocks::{Clocks, Stamp};
use crate::stories::given::typist;
use crate::stories::late_log::{Late, Reading};
use crate::stories::machine::{Change, Changing, Machine, Plan};
use crate::stories::transcript::Transcript;
use live_gateway::boxed;
use live_io::{Coming, Happening};
use log_format::put_peer;
use mg_bytes::{Draft, OutOfMemory};
use output_queues::{TEXT_ROOM, Written};
use scenario_files::{bytes_of, in_full, number_in, parted, put_line};
use std::alloc::Global;
use std::collections::VecDeque;
use std::mem;
use std::net::{SocketAddr, SocketAddrV4};
use std::rc::Rc;

/// Where a program is, where a story says nothing else.
#[derive(Clone, Copy)]
pub struct Place {
    /// The addresses of its sockets.
    pub own: [SocketAddrV4; 2],
    /// The other end of a datagram.
    pub peer: SocketAddrV4,
}

/// Somebody who visits a page at a moment, in ms, and asks for this.
#[derive(Drop)]
pub struct Visit {
    pub moment: u64,
    pub request: Vec<u8>,
    /// Whether of the answer's body the first line alone is told.
    pub is_brief: bool,
}

/// What a program is called with, what comes, and what it gives.
#[derive(Drop)]
pub struct Story {
    alloc: Global,
    /// The words that it is called with.
    pub words: Vec<String>,
    /// Lines of its configuration.
    pub settings: String,
    /// Whether its ids begin as the time of day says.
    pub begins_by_day: bool,
    /// What is to come, and what is to change on its machine.
    pub plan: Plan,
    /// The clocks of its machine.
    pub clocks: Rc<Clocks>,
    /// Who visits its page.
    pub visits: VecDeque<Visit>,
    /// What becomes of what it records.
    pub written: Written,
    /// The record that memory is refused for; empty where it is for none.
    pub refused: String,
    /// So many bytes of a trace find room.
    pub room: usize,
    /// When its log is read first, and what goes to standard output, where that is said.
    pub reading: Option<Reading>,
    pub wanted: Transcript,
    /// Whether what is given at one moment is told as it comes, whatever its kind.
    pub is_ordered: bool,
    // So much is to be given so far.
    places: u64,
    /// Whether it is said what was counted at the end.
    pub is_counted: bool,
    /// Whether it is said with which status it ends.
    pub has_status: bool,
    /// The moment of which was told last, in ms.
    pub moment: u64,
    // Where the next line stands.
    place: LinePlace,
    // The other end of a datagram where none is said; that of the datagram whose lines are read, and these.
    usual: SocketAddrV4,
    peer: SocketAddrV4,
    datagram: String,
}

// Where a line stands.
#[derive(Clone, Copy)]
enum LinePlace {
    Between,
    InHeard,
    InSent,
}

// What a line says, by its first word.
#[derive(Clone, Copy)]
enum Says {
    Heard,
    Sent,
    At,
    Set,
    Words,
    First,
    Raw,
    Typed,
    Asks,
    Looks,
    Pause,
    Work,
    Clock,
    Day,
    Fault,
    Dropped,
    Failed,
    Refused,
    Room,
    Read,
    Order,
    Nothing,
    // This is to be given.
    Given,
}

const FIRST_WORDS: [(&str, Says); 23] = [
    ("<", Says::Heard),
    (">", Says::Sent),
    ("at", Says::At),
    ("set", Says::Set),
    ("words", Says::Words),
    ("first", Says::First),
    ("raw", Says::Raw),
    ("type", Says::Typed),
    ("ask", Says::Asks),
    ("look", Says::Looks),
    ("pause", Says::Pause),
    ("work", Says::Work),
    ("clock", Says::Clock),
    ("day", Says::Day),
    ("fault", Says::Fault),
    ("dropped", Says::Dropped),
    ("failed", Says::Failed),
    ("refused", Says::Refused),
    ("room", Says::Room),
    ("read", Says::Read),
    ("order", Says::Order),
    ("#", Says::Nothing),
    ("", Says::Nothing),
];

// Whether a word is this one. Asked by a call: two texts that are compared in place are some twenty steps of each function that does.
fn is_word(word: &str, name: &str) -> bool {
    word == name
}

fn said_by(word: &str) -> Says {
    for (first, says) in &FIRST_WORDS {
        if is_word(*first, word) {
            return *says;
        }
    }
    Says::Given
}

// A value in full, as its bytes.
fn value_in(alloc: Global, words: &str) -> Result<Vec<u8>, OutOfMemory> {
    let full = in_full(alloc, words)?;
    bytes_of(alloc, full.as_str())
}

// Puts the lines of a datagram that comes, without the blanks round them.
fn put_heard(bytes: &mut Draft, text: &str) {
    for line in text.lines() {
        bytes.put(line.trim().as_bytes());
        bytes.put(b"\r\n");
    }
}

// `31000`: the program is stopped for so many ms.
fn pause_in(words: &str) -> Happening {
    Happening::Pause {
        ms: number_in(words),
    }
}

// `2`: so many ms a datagram takes.
fn work_in(words: &str) -> Change {
    Change::Work {
        ms: number_in(words),
    }
}

// A change of the clock: `+2000` sets it on, and `-2000` back, by so many ms.
fn clock_in(words: &str) -> Change {
    match words.strip_prefix("-") {
        Some(ms) => Change::ClockBack { ms: number_in(ms) },
        None => Change::ClockOn {
            ms: number_in(words.strip_prefix("+").unwrap_or(words)),
        },
    }
}

// A change of the time of day: `+3600000` sets it on, and `-3600000` back, by so many ms.
fn day_in(words: &str) -> Change {
    match words.strip_prefix("-") {
        Some(ms) => Change::DayBack { ms: number_in(ms) },
        None => Change::DayOn {
            ms: number_in(words.strip_prefix("+").unwrap_or(words)),
        },
    }
}

impl Story {
    fn new(alloc: Global, at: Place, clocks: Rc<Clocks>) -> Story {
        Story {
            alloc,
            words: Vec::new(alloc),
            settings: String::new(alloc),
            begins_by_day: false,
            plan: Plan::none(alloc),
            clocks,
            visits: VecDeque::new(alloc),
            written: Written::ALL,
            refused: String::new(alloc),
            room: TEXT_ROOM,
            reading: None,
            wanted: Transcript::new(alloc),
            is_ordered: false,
            places: 0,
            is_counted: false,
            has_status: false,
            moment: 0,
            place: LinePlace::Between,
            usual: at.peer,
            peer: at.peer,
            datagram: String::new(alloc),
        }
    }

    /// Its machine, with its sockets there, by its clocks; to another one nothing is to come.
    pub fn take_machine<'c>(
        &mut self,
        own: [SocketAddrV4; 2],
        clocks: &'c Rc<Clocks>,
    ) -> Result<Box<Machine<'c>>, OutOfMemory> {
        let plan = mem::replace(&mut self.plan, Plan::none(self.alloc));
        let machine = Machine::new(self.alloc, own, plan, clocks)?;
        boxed(self.alloc, machine)
    }

    // Something is to be given at the moment of which was told last, behind all that was said so far.
    fn stamp(&mut self) -> Stamp {
        let place = self.places;
        self.places = place.saturating_add(1);
        Stamp {
            moment: self.moment,
            place,
        }
    }

    // The address that is said, or the usual one.
    fn peer_in(&self, words: &str) -> SocketAddrV4 {
        words.parse::<SocketAddrV4>().unwrap_or(self.usual)
    }

    // This happens now.
    fn add(&mut self, what: Happening) -> Result<(), OutOfMemory> {
        let moment = self.moment;
        self.plan.coming.push_back(Coming { moment, what })?;
        Ok(())
    }

    // This changes now.
    fn change(&mut self, what: Change) -> Result<(), OutOfMemory> {
        let moment = self.moment;
        self.plan.changing.push_back(Changing { moment, what })?;
        Ok(())
    }

    // `10.0.0.7:2727 VALUE`: a datagram of these bytes comes.
    fn put_raw(&mut self, rest: &str) -> Result<(), OutOfMemory> {
        let (source, value) = parted(rest, " ");
        let bytes = value_in(self.alloc, value)?;
        let source = self.peer_in(source);
        self.add(Happening::Datagram { source, bytes })
    }

    // `phone 1 off`, or `10.0.0.9:5000 phone 1 off`: this is typed.
    fn put_typed(&mut self, rest: &str) -> Result<(), OutOfMemory> {
        let (front, behind) = parted(rest, " ");
        let (from, value) = match front.parse::<SocketAddrV4>() {
            Ok(from) => (from, behind),
            Err(_) => (typist(), rest),
        };
        let from = SocketAddr::V4(from);
        let text = value_in(self.alloc, value)?;
        self.add(Happening::Lines { from, text })
    }

    // Somebody visits the page.
    fn put_visit(&mut self, rest: &str, is_brief: bool) -> Result<(), OutOfMemory> {
        let request = bytes_of(self.alloc, rest)?;
        self.visits.push_back(Visit {
            moment: self.moment,
            request,
            is_brief,
        })?;
        Ok(())
    }

    // A word that it is called with.
    fn put_word(&mut self, word: &str) -> Result<(), OutOfMemory> {
        let word = word.to_string(self.alloc)?;
        Ok(self.words.push(word)?)
    }

    // A socket fails, the clock, or a wait.
    fn put_fault(&mut self, rest: &str) -> Result<(), OutOfMemory> {
        if is_word(rest, "clock") {
            return self.change(Change::ClockFails);
        }
        if is_word(rest, "wait") {
            return self.change(Change::WaitFails);
        }
        self.add(if is_word(rest, "send") {
            Happening::SendFault
        } else {
            Happening::ReceiveFault
        })
    }

    // This record can't be written.
    fn put_failed(&mut self, name: &str) {
        match name {
            "standard output" => self.written.output = 1,
            "standard error" => self.written.error = 1,
            _ => self.written.capture = 1,
        }
    }

    // It is read from now on, and so many bytes waited for that.
    fn from_now(&self, waiting: &str) -> Late {
        Late {
            from: Some(self.moment),
            waiting: number_in(waiting) as usize,
        }
    }

    // `1048385`: the log is read from now on, and so many bytes waited for that; `trace`, `print`: what is traced, or printed, is, and
    // `print 1048413` the same.
    fn read_from_now(&mut self, rest: &str) {
        let mut reading = self.reading.unwrap_or(Reading::NEVER);
        let (record, waiting) = parted(rest, " ");
        if is_word(record, "trace") || is_word(record, "print") {
            reading.output = self.from_now(waiting);
        } else {
            reading.log = self.from_now(record);
        }
        self.reading = Some(reading);
    }

    // A datagram's lines follow, of that address or of the usual one.
    fn begin(&mut self, place: LinePlace, peer: &str) {
        self.peer = self.peer_in(peer);
        self.place = place;
        self.datagram.clear();
    }

    // A line that stands between datagrams: what it is called with, what comes, or what is to be given.
    fn put_between(&mut self, line: &str) -> Result<(), OutOfMemory> {
        let (word, rest) = parted(line, " ");
        match said_by(word) {
            Says::Set => return put_line(&mut self.settings, rest),
            Says::Words => return self.put_word(rest),
            Says::First => self.begins_by_day = true,
            Says::Raw => return self.put_raw(rest),
            Says::Typed => return self.put_typed(rest),
            Says::Asks => return self.put_visit(rest, false),
            Says::Looks => return self.put_visit(rest, true),
            Says::Fault => return self.put_fault(rest),
            Says::Pause => return self.add(pause_in(rest)),
            Says::Work => return self.change(work_in(rest)),
            Says::Clock => return self.change(clock_in(rest)),
            Says::Day => return self.change(day_in(rest)),
            Says::Heard => self.begin(LinePlace::InHeard, rest),
            Says::Sent => self.begin(LinePlace::InSent, rest),
            Says::At => self.moment = number_in(rest),
            Says::Dropped => self.written.dropped = number_in(rest),
            Says::Failed => self.put_failed(rest),
            Says::Refused => self.refused = rest.to_string(self.alloc)?,
            Says::Room => self.room = number_in(rest) as usize,
            Says::Read => self.read_from_now(rest),
            Says::Order => self.is_ordered = true,
            Says::Nothing => {}
            Says::Given => self.want(word, line),
        }
        Ok(())
    }

    // This is to be given.
    fn want(&mut self, word: &str, line: &str) {
        self.is_counted = self.is_counted || is_word(word, "count");
        self.has_status = self.has_status || is_word(word, "status");
        let at = self.stamp();
        self.wanted.tell(at, b"", line.as_bytes());
    }

    // The lines of a datagram that comes are whole.
    fn end_heard(&mut self) -> Result<(), OutOfMemory> {
        let full = in_full(self.alloc, self.datagram.as_str())?;
        let mut bytes = Draft::new(self.alloc);
        put_heard(&mut bytes, full.as_str());
        let bytes = bytes.end()?;
        let source = self.peer;
        self.add(Happening::Datagram { source, bytes })
    }

    // The lines of a datagram that goes out are whole.
    fn end_sent(&mut self) -> Result<(), OutOfMemory> {
        let full = in_full(self.alloc, self.datagram.as_str())?;
        let mut text = Draft::new(self.alloc);
        text.put(b"> ");
        put_peer(&mut text, self.peer);
        text.put(b"\n");
        text.put(full.as_bytes());
        text.put(b"--\n");
        let at = self.stamp();
        self.wanted.put(at, text);
        Ok(())
    }

    fn put(&mut self, line: &str) -> Result<(), OutOfMemory> {
        let place = self.place;
        if let LinePlace::Between = place {
            return self.put_between(line);
        }
        if !is_word(line, "--") {
            return put_line(&mut self.datagram, line);
        }
        self.place = LinePlace::Between;
        match place {
            LinePlace::InHeard => self.end_heard(),
            _ => self.end_sent(),
        }
    }
}

/// Reads a story of a program that is there.
pub fn read_story(alloc: Global, text: &str, at: Place) -> Result<Box<Story>, OutOfMemory> {
    let clocks = Rc::new(alloc, Clocks::new())?;
    let mut story = boxed(alloc, Story::new(alloc, at, clocks))?;
    for line in text.lines() {
        story.put(line)?;
    }
    Ok(story)
}
