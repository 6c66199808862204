//! Calls that read what a parameter spells: what is read, as it is written again, or a code.
use crate::texts::words_of;
use crate::values::maps;
use connections::{
    CodecChoice, encoding_text, mode_text, read_encoding, read_mode, read_options, write_number,
    write_options,
};
use event_syntax::{
    read_detect, read_events, read_handling, read_observed, read_signals, write_detect,
    write_events, write_handling, write_observed, write_signals,
};
use scenario_files::Outcome;

// Puts a value of R, T, S, Q, O or D, as it is written again, or a code; no where there is no such call.
fn put_spelled(given: &mut Outcome, call: &str, value: &[u8]) -> bool {
    let alloc = given.alloc;
    match call {
        "R" => match read_events(alloc, value) {
            Ok(events) => given.put_text(write_events(alloc, events.as_slice())),
            Err(fault) => given.put_code(fault),
        },
        "T" => match read_detect(value) {
            Ok(events) => given.put_text(write_detect(alloc, events.as_slice())),
            Err(fault) => given.put_code(fault),
        },
        "S" => match read_signals(value) {
            Ok(signals) => given.put_text(write_signals(alloc, signals.as_slice())),
            Err(fault) => given.put_code(fault),
        },
        "Q" => match read_handling(value) {
            Ok(handling) => given.put_text(write_handling(alloc, handling)),
            Err(fault) => given.put_code(fault),
        },
        "O" => match read_observed(alloc, value) {
            Ok(events) => given.put_text(write_observed(alloc, events.as_slice())),
            Err(fault) => given.put_code(fault),
        },
        "D" => maps::put_read(given, value),
        _ => return false,
    }
    true
}

// What L asks for, as it is written again where it names codecs.
fn put_options(given: &mut Outcome, value: &[u8]) {
    let options = match read_options(value) {
        Ok(options) => options,
        Err(code) => return given.put_shown(code),
    };
    let time = options.packet_time;
    match options.codecs {
        CodecChoice::These(codecs) => given.put_text(write_options(given.alloc, codecs, time)),
        CodecChoice::ByEncoding => given.put_behind(b"by encoding, p:", time),
        CodecChoice::NoneKnown => given.put_behind(b"no codec, p:", time),
    }
}

// The identifier of the connection with a number.
fn put_identifier(given: &mut Outcome, value: &[u8]) {
    let number = words_of(value).parse::<u32>().unwrap_or(0);
    if write_number(given.alloc, &mut given.bytes, number).is_err() {
        given.refuse();
    }
}

/// Puts what a call gives; no where there is no such call here.
pub fn put_answer(given: &mut Outcome, call: &str, value: &[u8]) -> bool {
    match call {
        "L" => put_options(given, value),
        "M" => given.put(match read_mode(value) {
            Some(mode) => mode_text(mode),
            None => b"none".as_slice(),
        }),
        "B" => given.put(match read_encoding(value) {
            Some(encoding) => encoding_text(encoding),
            None => b"none".as_slice(),
        }),
        "I" => put_identifier(given, value),
        _ => return put_spelled(given, call, value),
    }
    true
}
