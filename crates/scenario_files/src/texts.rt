//! Short forms in what is told.
use crate::draft::TextDraft;
use mg_bytes::{Draft, OutOfMemory, decimal};
use std::alloc::Global;

/// What stands before and behind the first of these separators; all before it where there is none.
pub fn parted<'a>(text: &'a str, separator: &str) -> (&'a str, &'a str) {
    text.split_once(separator).unwrap_or((text, ""))
}

/// Puts a line with its end.
pub fn put_line(out: &mut String, line: &str) -> Result<(), OutOfMemory> {
    out.push_str(line)?;
    out.push('\n')
}

// What stands behind a `{`: `64*1}`, and the text behind it.
fn put_times(out: &mut TextDraft, piece: &str) {
    let Some((times, after)) = piece.split_once('}') else {
        return out.put(piece);
    };
    let (count, text) = times.split_once('*').unwrap_or(("1", times));
    for _ in 0..decimal(count.as_bytes()).unwrap_or(0) {
        out.put(text);
    }
    out.put(after);
}

/// The text without short forms: `~` is the domain with the protocol's name, `{64*1}` is 64 times the text `1`.
pub fn in_full(alloc: Global, text: &str) -> Result<String, OutOfMemory> {
    let named = text.replace(alloc, '~', "rgw.example.net MGCP 1.0")?;
    let mut out = TextDraft::new(alloc);
    let mut pieces = named.as_str().split('{');
    out.put(pieces.next().unwrap_or(""));
    for piece in pieces {
        put_times(&mut out, piece);
    }
    out.end()
}

// The letters that stand behind a `\` for a byte.
const SHORT_FORMS: [(&str, u8); 3] = [("s", b' '), ("t", b'\t'), ("n", b'\n')];

// Puts the byte whose two digits stand behind an `x` in front, and what follows them; all where they don't.
fn put_hexadecimal(out: &mut Draft, piece: &str) {
    let (short, rest) = piece.split_at_checked(3).unwrap_or(("", ""));
    match u8::from_str_radix(short.strip_prefix('x').unwrap_or(""), 16) {
        Ok(byte) => {
            out.put_byte(byte);
            out.put(rest.as_bytes());
        }
        Err(_) => out.put(piece.as_bytes()),
    }
}

// Puts what stands behind a `\`: the byte that its short form is, and what follows it.
fn put_short(out: &mut Draft, piece: &str) {
    for (letter, byte) in &SHORT_FORMS {
        if let Some(rest) = piece.strip_prefix(*letter) {
            out.put_byte(*byte);
            return out.put(rest.as_bytes());
        }
    }
    put_hexadecimal(out, piece);
}

// The short forms that are no single byte, and what each stands for.
const PAIRS: [(&str, &str); 2] = [("''", ""), ("¶", "\r\n")];

// What rows say for bytes, in the order in which it is put.
const SAID: [(&str, &str); 3] = [("\r\n", "¶"), ("\t", "\\t"), ("\n", "\\n")];

// A text with something else in place of each of these pieces.
fn replaced(alloc: Global, text: String, pieces: &[(&str, &str)]) -> Result<String, OutOfMemory> {
    let mut text = text;
    for (piece, other) in pieces {
        text = text.replace(alloc, *piece, *other)?;
    }
    Ok(text)
}

/// A value as its bytes: `''` is nothing, `\s` a blank, `\t` a tab, `\n` a line end, `¶` one of two bytes, and `\xff` the
/// byte with these hexadecimal digits.
pub fn bytes_of(alloc: Global, field: &str) -> Result<Vec<u8>, OutOfMemory> {
    let text = replaced(alloc, field.to_string(alloc)?, &PAIRS)?;
    let mut out = Draft::new(alloc);
    let mut pieces = text.as_str().split('\\');
    out.put(pieces.next().unwrap_or("").as_bytes());
    for piece in pieces {
        put_short(&mut out, piece);
    }
    out.end()
}

/// Bytes as a row says them.
pub fn said(alloc: Global, bytes: &[u8]) -> Result<String, OutOfMemory> {
    if bytes.is_empty() {
        return "''".to_string(alloc);
    }
    replaced(alloc, String::from_utf8_lossy(alloc, bytes)?, &SAID)
}

/// A judgement as a row says it.
pub fn yes_or_no(judged: bool) -> &'static str {
    if judged { "yes" } else { "no" }
}

/// A value as a text.
pub fn value_of(alloc: Global, field: &str) -> Result<String, OutOfMemory> {
    let bytes = bytes_of(alloc, field)?;
    String::from_utf8_lossy(alloc, &bytes)
}
