//! Names of keys, one behind the other: a byte that no text in UTF-8 has parts them.
ghost use Rattle.std.specs.Prelude.{◌≡◌};

use mg_bytes::{Draft, OutOfMemory};
use std::alloc::Global;
use toml::Table;

/// What parts names.
pub const BETWEEN: u8 = 0xff;

// So many names a key has at most: TOML's reader takes fewer.
const MOST_NAMES: usize = 128;

/// These names, one behind the other.
pub(crate) fn joined(alloc: Global, names: &[&str]) -> Result<Vec<u8>, OutOfMemory> {
    let mut out = Draft::new(alloc);
    let mut is_first = true;
    for name in names {
        if !is_first {
            out.put_byte(BETWEEN);
        }
        out.put(name.as_bytes());
        is_first = false;
    }
    out.end()
}

/// The names that lead to the only value of a table.
pub(crate) fn names_in(alloc: Global, table: &Table) -> Result<Vec<u8>, OutOfMemory> {
    let mut out = Draft::new(alloc);
    let mut inner = table;
    for depth in 0..MOST_NAMES {
        let Some((name, value)) = inner.first_key_value() else {
            break;
        };
        if depth > 0 {
            out.put_byte(BETWEEN);
        }
        out.put(name.as_bytes());
        let Some(below) = value.as_table() else {
            break;
        };
        inner = below;
    }
    out.end()
}

/// How names go along others.
#[derive(Clone, Copy)]
pub enum Fit<'a> {
    /// To their end.
    Whole,
    /// So far, and these are left.
    Left(&'a [u8]),
    /// They part.
    Apart,
}

// What stands behind names, and behind what parts them from others.
fn behind<'a>(path: &'a [u8], names: &[u8]) -> Option<&'a [u8]> {
    match path.strip_prefix(names)? {
        [between, rest @ ..] if *between == BETWEEN => Some(rest),
        _ => None,
    }
}

/// How names go along a path.
pub(crate) fn along<'a>(path: &'a [u8], names: &[u8]) -> Fit<'a> {
    if path == names {
        return Fit::Whole;
    }
    if let Some(rest) = behind(path, names) {
        return Fit::Left(rest);
    }
    match behind(names, path) {
        Some(_) => Fit::Whole,
        None => Fit::Apart,
    }
}
