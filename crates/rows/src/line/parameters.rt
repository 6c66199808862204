//! What a line is asked for, as rows say it: `X: A1  R: L/hd(A)  D: (xx)`.
use digit_map::{MapChange, MapFault, read_change};
use event_syntax::{read_detect, read_events, read_handling, read_signals};
use events_and_signals::{EventRequest, Request};
use mg_bytes::{CodeFault, Identifier};
use std::alloc::Global;

/// The value of a parameter, where it stands there.
pub fn parameter<'a>(fields: &'a str, name: &str) -> Option<&'a str> {
    for field in fields.split("  ") {
        if let Some(value) = field.strip_prefix(name) {
            return Some(value);
        }
    }
    None
}

// The value of a parameter, or this one where it doesn't stand there.
fn value_in<'a>(fields: &'a str, name: &str, usual: &'a str) -> &'a [u8] {
    parameter(fields, name).unwrap_or(usual).as_bytes()
}

/// R and T, where they stand there.
pub fn events_of(alloc: Global, fields: &str) -> Result<EventRequest, CodeFault> {
    let requested = read_events(alloc, value_in(fields, "R: ", ""))?;
    let detected = read_detect(value_in(fields, "T: ", ""))?;
    Ok(EventRequest::of(alloc, requested, detected)?)
}

// The change of the digit map; D can be an empty one, `''`.
fn map_of(alloc: Global, fields: &str) -> Result<MapChange, MapFault> {
    read_change(
        alloc,
        match parameter(fields, "D: ") {
            Some("''") => Some(b"".as_slice()),
            Some(text) => Some(text.as_bytes()),
            None => None,
        },
    )
}

/// The request that a row asks. X is `A0` and Q `step` where they don't stand there.
pub fn request_of(alloc: Global, fields: &str) -> Result<Request, CodeFault> {
    Ok(Request {
        identifier: Identifier::of(value_in(fields, "X: ", "A0")).ok_or(CodeFault::Code(0))?,
        signals: read_signals(value_in(fields, "S: ", ""))?,
        handling: read_handling(value_in(fields, "Q: ", "step"))?,
        events: events_of(alloc, fields)?,
        map: map_of(alloc, fields)?,
    })
}
