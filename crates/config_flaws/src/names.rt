//! A configuration without a table of names.
use mg_bytes::{Draft, OutOfMemory};
use rgw_scripts::is_too_long;
use std::alloc::{AllocError, Global};

// An empty table of names.
const NO_NAMES: &[u8] = b"\n[names]\n";

// Whether a text is TOML that has no names.
fn lacks_names(alloc: Global, text: &[u8]) -> Result<bool, OutOfMemory> {
    let Ok(text) = std::str::from_utf8(text) else {
        return Ok(false);
    };
    match toml::table_from_str(alloc, text) {
        Ok(table) => Ok(table.get("names").is_none()),
        Err(fault) if fault.is_memory() => Err(AllocError),
        Err(_) => Ok(false),
    }
}

/// The text of a configuration, with an empty table of names behind it where it is TOML that has none: no line of it is another one by that.
pub fn with_names(alloc: Global, text: Vec<u8>) -> Result<Vec<u8>, OutOfMemory> {
    if is_too_long(text.as_slice()) || !lacks_names(alloc, text.as_slice())? {
        return Ok(text);
    }
    let mut named = Draft::new(alloc);
    named.put(text.as_slice());
    named.put(NO_NAMES);
    named.end()
}
