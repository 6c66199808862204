//! Calls about messages as text, and about what they ask for.
use crate::texts::is_word;
use crate::values::commands;
use mg_bytes::{decimal, split_once};
use mgcp_text::{
    AnswerContent, KValue, Message, TextFault, TransactionId, is_writable, param_at, read_k,
    read_message, write_message,
};
use scenario_files::Outcome;

// What a fault says, and the transaction's id where it is known.
fn put_fault(given: &mut Outcome, fault: TextFault) {
    given.put_shown(fault.number());
    match fault {
        TextFault::OutOfMemory => {}
        TextFault::NoHeader => given.put(b" no header"),
        TextFault::BadVersion { id } => given.put_behind(b" bad version ", id.number()),
        TextFault::BadBody { id } => given.put_behind(b" bad body ", id.number()),
    }
}

// The first parameter with a code: its code, a colon and its value.
fn put_first(given: &mut Outcome, message: &Message<'_>, code: &str) {
    let Some(param) = param_at(code.as_bytes(), message.params()) else {
        return given.put(b"none");
    };
    given.put(param.code.as_slice());
    given.put_both(b":", param.value.as_slice());
}

// The ids that a message confirms.
fn put_confirmed(given: &mut Outcome, message: &Message<'_>) {
    match read_k(given.alloc, message) {
        Ok(KValue::Absent) => given.put(b"none"),
        Ok(KValue::Unreadable) => given.put(b"unreadable"),
        Ok(KValue::Items(ranges)) => {
            for range in ranges.as_slice() {
                given.put_shown(range.first.number());
                given.put_behind(b"-", range.last.number());
                given.put(b"|");
            }
        }
        Err(_) => given.refuse(),
    }
}

// The text of an answer: `510 1` is the return code 510 in transaction 1.
fn put_answered(given: &mut Outcome, value: &[u8]) {
    let (code, id) = split_once(value, b' ').unwrap_or((value, b""));
    let code = decimal(code).unwrap_or(1000);
    let id = decimal(id).unwrap_or(0);
    if code > 999 || id < 1 || id > 999_999_999 {
        return given.put(b"no answer");
    }
    let answer = AnswerContent::plain(given.alloc, code as u16);
    given.put_text(answer.text(given.alloc, TransactionId::of(id as u32)));
}

// Puts what a call gives of a message; no where there is no such call.
fn put_of_message(given: &mut Outcome, call: &str, message: &Message<'_>) -> bool {
    match call {
        // What it is read as.
        "message" => match message {
            Message::Command { id, .. } => given.put_behind(b"command ", id.number()),
            Message::Response { .. } => given.put(b"response"),
        },
        // As it is written again.
        "written message" => {
            if is_writable(message) {
                given.put_text(write_message(given.alloc, message));
            } else {
                given.put(b"not writable");
            }
        }
        "parameters" => given.put_shown(message.params().len()),
        "confirms" => put_confirmed(given, message),
        "command on" | "asks" | "becomes" => commands::put_answer(given, call, message),
        _ => match call.strip_prefix("first ") {
            Some(code) => put_first(given, message, code),
            None => return false,
        },
    }
    true
}

// Puts what a call gives of a text that is no message; no where there is no such call.
fn put_of_other(given: &mut Outcome, call: &str, fault: TextFault) -> bool {
    if let TextFault::OutOfMemory = fault {
        given.refuse();
    }
    match call {
        "message" => put_fault(given, fault),
        "command on" | "asks" | "becomes" => given.put(b"no message"),
        _ => return given.is_refused,
    }
    true
}

/// Puts what a call gives; no where there is no such call here, and where it is about a message that can't be read.
pub fn put_answer(given: &mut Outcome, call: &str, value: &[u8]) -> bool {
    if is_word(call, "answer") {
        put_answered(given, value);
        return true;
    }
    match read_message(given.alloc, value) {
        Ok(message) => put_of_message(given, call, &message),
        Err(fault) => put_of_other(given, call, fault),
    }
}
