//! Words that are told of a value.
ghost use Rattle.std.specs.Prelude.{◌≡◌, IfOk};
ghost use Rattle.log_format.specs.Escaping.{shown};

use log_format::write_shown;
use mg_bytes::{Draft, OutOfMemory};
use std::alloc::{AllocError, Global};
use toml::Value;

/// A value as TOML writes it. Its only error is want of memory.
pub fn written(alloc: Global, value: &Value) -> Result<String, OutOfMemory> {
    let mut text = String::new(alloc);
    if write!(text, "{value}").is_err() {
        return Err(AllocError);
    }
    Ok(text)
}

/// Bytes as they are shown. Its only error is want of memory.
pub fn shown(alloc: Global, bytes: &[u8]) -> Result<Vec<u8>, OutOfMemory>
    ensures { IfOk result (λ text. text.items ≡ shown bytes.now) }
{
    let mut out = Draft::new(alloc);
    write_shown(&mut out, bytes);
    out.end()
}

/// Words in which another piece stands in the place of the first such one; as they are where there is none. Its only error is want of
/// memory.
pub fn replaced(
    alloc: Global,
    words: &[u8],
    old: &str,
    new: &[u8],
) -> Result<Vec<u8>, OutOfMemory> {
    let text = std::str::from_utf8(words).unwrap_or("");
    let Some((before, behind)) = text.split_once(old) else {
        return Ok(Vec::from_slice(alloc, words)?);
    };
    let mut out = Draft::new(alloc);
    out.put(before.as_bytes());
    out.put(new);
    out.put(behind.as_bytes());
    out.end()
}

/// Whether words have this piece.
pub fn has(words: &[u8], piece: &str) -> bool {
    match std::str::from_utf8(words) {
        Ok(words) => words.split_once(piece).is_some(),
        Err(_) => false,
    }
}
