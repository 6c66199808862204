//! Calls about the log of a live gateway, whose domain is that of the rows: the line that each puts.
use crate::values::capturing::{address_of, number_of, parted};
use crate::values::names::DOMAIN;
use log_format::{
    Note, Notice, Stamp, Way, put_given_up, put_message, put_note, put_notice, put_pause,
    put_refused,
};
use mg_bytes::OutOfMemory;
use mgcp_text::TransactionId;
use scenario_files::Outcome;

fn id_of(given: &mut Outcome, digits: &[u8]) -> TransactionId {
    let number = number_of(given, digits);
    if number < 1 || number > 999_999_999 {
        given.unread();
        return TransactionId::of(1);
    }
    TransactionId::of(number as u32)
}

// `12 TEXT`: how long was waited, `-` or digits, and the message.
fn put_told(given: &mut Outcome, stamp: Stamp, way: Way, value: &[u8]) -> Result<(), OutOfMemory> {
    let (word, text) = parted(given, value);
    let waited = match word {
        b"-" => None,
        _ => Some(number_of(given, word)),
    };
    put_message(
        given.alloc,
        &mut given.bytes,
        DOMAIN,
        stamp,
        way,
        text,
        waited,
    )
}

// `1207 401`: the command, and the code by which it is refused.
fn refused_by(given: &mut Outcome, value: &[u8]) -> Note {
    let (id, code) = parted(given, value);
    let code = number_of(given, code);
    let id = id_of(given, id);
    if code > 999 {
        given.unread();
        return Note::Unanswered(id);
    }
    Note::Refused {
        id,
        code: code as u16,
    }
}

// `0 1200`: how much later each of two copies comes, in ms.
fn copied_by(given: &mut Outcome, value: &[u8]) -> Note {
    let (first, second) = parted(given, value);
    Note::Copied {
        first: number_of(given, first),
        second: number_of(given, second),
    }
}

// `30500 12`: how much later the program went on than it was to, in ms, and how many datagrams had come; `-` where that isn't known.
fn put_paused(given: &mut Outcome, moment: u64, value: &[u8]) -> Result<(), OutOfMemory> {
    let (lateness, word) = parted(given, value);
    let lateness = number_of(given, lateness);
    let waiting = match word {
        b"-" => None,
        _ => Some(number_of(given, word)),
    };
    put_pause(given.alloc, &mut given.bytes, moment, lateness, waiting)
}

// `answered again 1205` and so on.
fn note_of(given: &mut Outcome, call: &str, value: &[u8]) -> Note {
    match call {
        "log answered again" => Note::AnsweredAgain(id_of(given, value)),
        "log unanswered" => Note::Unanswered(id_of(given, value)),
        "log sent again" => Note::SentAgain(id_of(given, value)),
        "log refused by" => refused_by(given, value),
        "log too long" => Note::TooLong {
            length: number_of(given, value) as usize,
        },
        "log unreadable" => Note::Unreadable,
        "log not sent" => Note::Unsent,
        "log lost" => Note::Lost,
        "log late" => Note::Late {
            ms: number_of(given, value),
        },
        "log copied" => copied_by(given, value),
        "log unheard" => Note::Unheard {
            host: *address_of(given, value).ip(),
        },
        "log out of memory" => Note::OutOfMemory,
        "log stranger" => Note::Stranger {
            untold: number_of(given, value),
        },
        "log no room" => Note::NoRoom {
            young: number_of(given, value),
        },
        _ => {
            given.unread();
            Note::Unreadable
        }
    }
}

// Puts the line of a call whose value goes on behind its stamp.
fn put_line(
    given: &mut Outcome,
    call: &str,
    stamp: Stamp,
    value: &[u8],
) -> Result<(), OutOfMemory> {
    match call {
        "log came" => put_told(given, stamp, Way::Came, value),
        "log sent" => put_told(given, stamp, Way::Sent, value),
        "log given up" => put_given_up(given.alloc, &mut given.bytes, DOMAIN, stamp, value),
        // `1207 WHY`.
        "log refused" => {
            let (id, why) = parted(given, value);
            let id = id_of(given, id);
            put_refused(given.alloc, &mut given.bytes, stamp, id, why)
        }
        // `1234`: so many lines. What is noted of the program itself has no other end.
        "log dropped" => {
            let dropped = Notice::Dropped {
                lines: number_of(given, value),
            };
            put_notice(given.alloc, &mut given.bytes, stamp.moment, dropped)
        }
        // `3600000`: by so many ms.
        "log set on" => {
            let set = Notice::SetOn {
                ms: number_of(given, value),
            };
            put_notice(given.alloc, &mut given.bytes, stamp.moment, set)
        }
        "log set back" => {
            let set = Notice::SetBack {
                ms: number_of(given, value),
            };
            put_notice(given.alloc, &mut given.bytes, stamp.moment, set)
        }
        "log paused" => put_paused(given, stamp.moment, value),
        _ => {
            let note = note_of(given, call, value);
            put_note(given.alloc, &mut given.bytes, stamp, note)
        }
    }
}

/// Puts what a call gives; no where there is no such call here.
pub fn put_answer(given: &mut Outcome, call: &str, value: &[u8]) -> bool {
    if !call.starts_with("log ") {
        return false;
    }
    // `43387123456 10.0.0.7:2727`, the moment and the other end, and what stands behind them.
    let (moment, rest) = parted(given, value);
    let (peer, rest) = parted(given, rest);
    let stamp = Stamp {
        moment: number_of(given, moment),
        peer: address_of(given, peer),
    };
    if put_line(given, call, stamp, rest).is_err() {
        given.refuse();
    }
    true
}
