//! Calls about what a live gateway shows: its counts for Prometheus, and what it is as JSON.
//!
//! A value has a word for each thing that isn't 0: `refused:3`, `verb:6:2` for two commands of the verb at this place,
//! `code:200:4`; `off:1` and `on:0` for a line on which so many events were lost, and behind it `tone:2000` and `tone:-`
//! for a signal and its end, and `connection:26`; `file:trace:1` for a file that couldn't be written so often; `unanswered:5` for an
//! agent that owes an answer since then.
use crate::texts::{is_word, words_of};
use crate::values::capturing::number_of;
use mg_bytes::{decimal, split_once};
use page_http::state_text;
use page_state::{
    CodeCount, ConnectionView, Counts, FileCount, LineView, Picture, SignalView, VerbCount,
    metrics_text,
};
use scenario_files::Outcome;
use std::alloc::Global;

// The words of numbers, each in the place that its number has in what is told.
const NUMBERS: [&str; 24] = [
    "clock",
    "serving",
    "first",
    "transactions",
    "in",
    "out",
    "responses",
    "unreadable",
    "answers-again",
    "notifications",
    "notifications-again",
    "announcements",
    "announcements-again",
    "given-up",
    "gateway-given-up",
    "sends",
    "second-sends",
    "other-sends",
    "strangers",
    "lost-commands",
    "refused",
    "receive-faults",
    "send-faults",
    "dropped",
];

// What words tell so far.
struct Told {
    numbers: [u64; 24],
    commands: Vec<VerbCount>,
    answers: Vec<CodeCount>,
    write_faults: Vec<FileCount>,
    lines: Vec<LineView>,
    unanswered_since: Option<u64>,
}

// Sets the number that a word names, the clock, the first of ids or a count, and says whether it names one.
fn set_number(told: &mut Told, key: &str, number: u64) -> bool {
    for (place, word) in NUMBERS.iter().enumerate() {
        if is_word(*word, key) {
            if let Some(held) = told.numbers.get_mut(place) {
                *held = number;
            }
            return true;
        }
    }
    false
}

// The picture of what words told.
fn picture_of(told: Told) -> Picture {
    let Told {
        numbers,
        commands,
        answers,
        write_faults,
        lines,
        unanswered_since,
    } = told;
    let [
        clock,
        serving,
        first,
        transactions,
        datagrams_in,
        datagrams_out,
        responses,
        unreadable,
        answers_again,
        notifications,
        notifications_again,
        announcements,
        announcements_again,
        given_up_by_lines,
        given_up_by_gateway,
        sends,
        second_sends,
        other_sends,
        strangers,
        lost_commands,
        refused,
        receive_faults,
        send_faults,
        dropped_lines,
    ] = numbers;
    Picture {
        clock,
        behind: 0,
        is_serving: serving > 0,
        unanswered_since,
        first: u32::try_from(first).unwrap_or(u32::MAX),
        lines,
        counts: Counts {
            datagrams_in,
            datagrams_out,
            commands,
            responses,
            unreadable,
            answers,
            answers_again,
            notifications,
            notifications_again,
            announcements,
            announcements_again,
            given_up_by_gateway,
            given_up_by_lines,
            sends: [sends, second_sends, 0, 0, other_sends],
            refused,
            strangers,
            lost_commands,
            receive_faults,
            send_faults,
            dropped_lines,
            write_faults,
            transactions,
        },
    }
}

// A code, a verb's place or a connection's number, which is below 1,000 here.
fn small_number_of(given: &mut Outcome, digits: &[u8]) -> u16 {
    let number = number_of(given, digits);
    if number > 999 {
        given.unread();
        return 0;
    }
    number as u16
}

// `6:2`: a verb's place or a code, and a number.
fn pair_of(given: &mut Outcome, value: &[u8]) -> (u16, u64) {
    let (place, number) = split_once(value, b':').unwrap_or((value, b""));
    (small_number_of(given, place), number_of(given, number))
}

// `capture.pcap:1`: a file, and a number.
fn file_of(given: &mut Outcome, value: &[u8]) -> Option<FileCount> {
    let (name, number) = split_once(value, b':').unwrap_or((value, b""));
    let number = number_of(given, number);
    match Vec::from_slice(given.alloc, name) {
        Ok(file) => Some(FileCount { file, number }),
        Err(_) => None,
    }
}

// The end of a signal: `-` or digits.
fn end_of(given: &mut Outcome, value: &[u8]) -> Option<u64> {
    match value {
        b"-" => None,
        _ => Some(number_of(given, value)),
    }
}

// A connection of call 1A of the line that was begun last, whose media come to 127.0.0.1:3000, and go nowhere yet: whether memory is
// there.
fn put_connection(alloc: Global, line: &mut LineView, number: u32) -> bool {
    let Ok(local) = Vec::from_slice(alloc, b"127.0.0.1:3000") else {
        return false;
    };
    let Ok(call) = Vec::from_slice(alloc, b"1A") else {
        return false;
    };
    let connection = ConnectionView {
        number,
        mode: b"sendrecv",
        codec: b"PCMU",
        packet_time: 20,
        local,
        remote: Vec::new(alloc),
        call,
    };
    line.connections.push(connection).is_ok()
}

// What a word tells of the line that was begun last.
fn tell_line(given: &mut Outcome, line: &mut LineView, key: &str, value: &[u8]) {
    let is_told = match key {
        "tone" => {
            let end = end_of(given, value);
            let signal = SignalView { name: b"L/dl", end };
            line.signals.push(signal).is_ok()
        }
        "connection" => {
            let number = u32::from(small_number_of(given, value));
            put_connection(given.alloc, line, number)
        }
        _ => return given.unread(),
    };
    if !is_told {
        given.refuse();
    }
}

// A word begins a line.
fn begun(alloc: Global, is_off_hook: bool, lost: u64) -> LineView {
    LineView {
        is_off_hook,
        signals: Vec::new(alloc),
        connections: Vec::new(alloc),
        lost,
    }
}

// What a word tells of a list.
fn tell_list(given: &mut Outcome, told: &mut Told, key: &str, value: &[u8]) {
    let is_told = match key {
        "verb" => {
            let (place, number) = pair_of(given, value);
            let verb = place.min(255) as u8;
            told.commands.push(VerbCount { verb, number }).is_ok()
        }
        "code" => {
            let (code, number) = pair_of(given, value);
            told.answers.push(CodeCount { code, number }).is_ok()
        }
        "file" => match file_of(given, value) {
            Some(file) => told.write_faults.push(file).is_ok(),
            None => false,
        },
        "unanswered" => {
            told.unanswered_since = Some(number_of(given, value));
            true
        }
        "off" | "on" => {
            let lost = number_of(given, value);
            let line = begun(given.alloc, is_word(key, "off"), lost);
            told.lines.push(line).is_ok()
        }
        _ => match told.lines.last_mut() {
            Some(line) => return tell_line(given, line, key, value),
            None => return given.unread(),
        },
    };
    if !is_told {
        given.refuse();
    }
}

fn tell(given: &mut Outcome, told: &mut Told, key: &str, value: &[u8]) {
    let number = decimal(value);
    if !set_number(told, key, number.unwrap_or(0)) {
        tell_list(given, told, key, value);
    } else if number.is_none() {
        given.unread();
    }
}

// What these words tell.
fn told_by(given: &mut Outcome, value: &[u8]) -> Told {
    let mut told = Told {
        numbers: [0; 24],
        commands: Vec::new(given.alloc),
        answers: Vec::new(given.alloc),
        write_faults: Vec::new(given.alloc),
        lines: Vec::new(given.alloc),
        unanswered_since: None,
    };
    for word in words_of(value).split(' ') {
        match word.split_once(':') {
            Some((key, value)) => tell(given, &mut told, key, value.as_bytes()),
            None => given.unread(),
        }
    }
    told
}

// Puts a text with `<` and `>` in place of braces, which are short forms in rows.
fn put_unbraced(given: &mut Outcome, text: &[u8]) {
    for byte in text {
        let shown = match *byte {
            b'{' => b'<',
            b'}' => b'>',
            byte => byte,
        };
        given.put(&[shown]);
    }
}

// Puts a picture as Prometheus wants it, or as JSON.
fn put_picture(given: &mut Outcome, call: &str, picture: &Picture) {
    if is_word(call, "state") {
        match state_text(given.alloc, picture, 1) {
            Ok(text) => put_unbraced(given, text.as_bytes()),
            Err(_) => given.refuse(),
        }
    } else {
        match metrics_text(given.alloc, picture) {
            Ok(text) => put_unbraced(given, &text),
            Err(_) => given.refuse(),
        }
    }
}

/// Puts what a call gives; no where there is no such call here.
pub fn put_answer(given: &mut Outcome, call: &str, value: &[u8]) -> bool {
    if !is_word(call, "metrics") && !is_word(call, "state") {
        return false;
    }
    let picture = picture_of(told_by(given, value));
    put_picture(given, call, &picture);
    true
}
