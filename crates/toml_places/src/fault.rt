//! Why a text isn't TOML: in which line, about which key, and what may be done.
use crate::lines::line_at;
use crate::places::{Around, Places};
use log_format::{write_number, write_shown};
use mg_bytes::{Draft, OutOfMemory};
use std::alloc::Global;
use toml::de::Error;

/// Why a text isn't TOML.
#[derive(Clone, Copy)]
pub enum Reason<'t> {
    /// The value of this key, which stands at the top where it does, is no number that TOML has.
    Number {
        key: &'t [u8],
        value: &'t [u8],
        is_top: bool,
    },
    /// That of this key is a text without quotes.
    Unquoted {
        key: &'t [u8],
        value: &'t [u8],
        is_top: bool,
    },
    /// This key, or head, stands twice: in the line of the fault, and first in this one, where that is known.
    Twice {
        key: &'t [u8],
        first: Option<u64>,
    },
    /// Another reason, which TOML's reader tells.
    Other,
}

/// Why a text isn't TOML, and the line, from 1.
#[derive(Clone, Copy)]
pub struct TomlFault<'t> {
    pub line: u64,
    pub reason: Reason<'t>,
}

// Whether a sign may stand in a text that is quoted as it is.
fn is_quotable_sign(sign: u8) -> bool {
    match sign {
        b'"' | b'\'' | b'\\' | b'=' | b'{' | b'}' => false,
        _ => sign >= b' ' && sign <= b'~',
    }
}

// Whether a value is a text that lacks its quotes alone.
fn is_quotable(value: &[u8]) -> bool {
    for sign in value {
        if !is_quotable_sign(*sign) {
            return false;
        }
    }
    match value.first() {
        Some(first) => *first != b'[',
        None => false,
    }
}

// What TOML's reader says of a value that is none.
fn is_about_value(message: &str) -> bool {
    match message {
        "invalid value, expected a string, number, boolean, date-time, array or inline table"
        | "unexpected key or value, expected newline, `#`"
        | "`_` may only go between digits"
        | "invalid date-time" => true,
        _ => false,
    }
}

fn reason_of<'t>(message: &str, around: Around<'t>) -> Reason<'t> {
    let is_top = !around.is_below_head;
    let (key, value) = (around.key, around.value);
    match message {
        "duplicate key" => Reason::Twice {
            key,
            first: around.first,
        },
        "number out of range" => Reason::Number { key, value, is_top },
        _ if is_about_value(message) && is_quotable(value) => Reason::Unquoted {
            key,
            value,
            is_top,
        },
        _ => Reason::Other,
    }
}

/// Why a text isn't TOML by this fault, which isn't want of memory. Its only error is that.
pub fn toml_fault<'t>(
    alloc: Global,
    text: &'t str,
    fault: &Error,
) -> Result<TomlFault<'t>, OutOfMemory> {
    let start = match fault.span() {
        Some(span) => span.start,
        None => 0,
    };
    let line = line_at(text.as_bytes(), start);
    let places = Places::of(alloc, text)?;
    let reason = match places.around(alloc, start)? {
        Some(around) => reason_of(fault.message(), around),
        None => Reason::Other,
    };
    Ok(TomlFault { line, reason })
}

// Puts a key and what stands there.
fn put_key(out: &mut Draft, key: &[u8], value: &[u8]) {
    write_shown(out, key);
    out.put(b": ");
    write_shown(out, value);
}

/// Puts why a text isn't TOML; where TOML's reader tells that alone, this message.
pub fn put_toml_fault(out: &mut Draft, reason: Reason<'_>, message: &str) {
    match reason {
        Reason::Number { key, value, .. } => {
            put_key(out, key, value);
            out.put(b", number out of range");
        }
        Reason::Unquoted { key, value, .. } => {
            put_key(out, key, value);
            out.put(b", quote it: \"");
            write_shown(out, value);
            out.put(b"\"");
        }
        Reason::Twice { key, first } => {
            write_shown(out, key);
            out.put(b" stands twice");
            if let Some(first) = first {
                out.put(b", first in line ");
                write_number(out, first);
            }
        }
        Reason::Other => out.put(message.as_bytes()),
    }
}
