//! The nearest of some names to another one.
use mg_bytes::{Draft, OutOfMemory};
use std::alloc::Global;
use strsim::levenshtein;

// A name with more bytes is compared with none.
const LONGEST_NAME: usize = 64;

// How far a name is from another one: how many letters are put in, left out or turned; behind all that have it in them where the other one
// hasn't.
fn distance(alloc: Global, name: &str, other: &str) -> Result<usize, OutOfMemory> {
    let turned = levenshtein(alloc, name, other)?;
    if other.split_once(name).is_some() {
        Ok(turned)
    } else {
        Ok(turned.saturating_add(LONGEST_NAME))
    }
}

// The nearest of these names to another one, in capitals or not; of several the first. `None` where it has more than 64 bytes, or there is
// none.
fn nearest<'n>(
    alloc: Global,
    name: &str,
    known: &[&'n str],
) -> Result<Option<&'n str>, OutOfMemory> {
    if name.len() > LONGEST_NAME {
        return Ok(None);
    }
    let small = name.to_ascii_lowercase(alloc)?;
    let mut found = None;
    let mut least = usize::MAX;
    for other in known {
        let away = distance(alloc, small.as_str(), other)?;
        if away < least {
            least = away;
            found = Some(*other);
        }
    }
    Ok(found)
}

/// Puts the nearest of the names that there are to one that isn't among them.
pub fn put_nearest(
    alloc: Global,
    out: &mut Draft,
    name: &str,
    known: &[&str],
) -> Result<(), OutOfMemory> {
    if let Some(other) = nearest(alloc, name, known)? {
        out.put(b", the nearest is ");
        out.put(other.as_bytes());
    }
    Ok(())
}
