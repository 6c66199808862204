//! What a replay finds, in words.
use crate::verdict::Verdict;
use log_format::write_number;
use mg_bytes::{Draft, OutOfMemory};
use std::alloc::Global;

const HEX_DIGITS: [u8; 16] = *b"0123456789abcdef";

// Puts a byte of a line, as `\x` and two hexadecimal digits where no terminal shows it.
fn put_byte(out: &mut Draft, byte: u8) {
    if byte >= b' ' && byte <= b'~' {
        out.put_byte(byte);
        return;
    }
    let high = HEX_DIGITS[usize::from(byte / 16)];
    let low = HEX_DIGITS[usize::from(byte % 16)];
    out.put(&[b'\\', b'x', high, low]);
}

// Puts a line behind these words; `nothing` where there is none.
fn put_line(out: &mut Draft, words: &[u8], line: &[u8]) {
    out.put(words);
    if line.is_empty() {
        out.put(b"nothing");
    }
    for byte in line {
        put_byte(out, *byte);
    }
    out.put_byte(b'\n');
}

// Puts that all lines are as told, of which there are so many.
fn put_all(out: &mut Draft, lines: u64) {
    write_number(out, lines);
    let noun = if lines == 1 {
        b" line".as_slice()
    } else {
        b" lines".as_slice()
    };
    out.put(noun);
    out.put(b", all as told\n");
}

// Puts which line it is, and this behind it.
fn put_place(out: &mut Draft, line: u64, after: &[u8]) {
    out.put(b"line ");
    write_number(out, line);
    out.put(after);
}

/// Puts what a replay finds: that all lines are as told; or the first that isn't, and how the trace and the gateway have it; or the
/// line that no trace has there.
pub(crate) fn write_verdict(out: &mut Draft, verdict: &Verdict) {
    match verdict {
        Verdict::AsTold { lines } => put_all(out, *lines),
        Verdict::Differs { line, told, sent } => {
            put_place(out, *line, b" differs\n");
            put_line(out, b"told: ", told.as_slice());
            put_line(out, b"sent: ", sent.as_slice());
        }
        Verdict::Broken { line } => {
            put_place(out, *line, b": no trace has that there, or it breaks off\n");
        }
    }
}

/// Puts what a replay finds as `write_verdict` does. Its only error is want of memory.
pub fn put_verdict(alloc: Global, out: &mut Vec<u8>, verdict: &Verdict) -> Result<(), OutOfMemory> {
    let mut draft = Draft::new(alloc);
    write_verdict(&mut draft, verdict);
    draft.append_to(out)
}
