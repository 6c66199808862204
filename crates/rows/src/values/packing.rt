//! Calls about what shares a datagram.
ghost use Rattle.std.specs.Prelude.{◌≡◌};
ghost use Rattle.std.specs.List.{list_all};
ghost use Rattle.mgcp_text.specs.Packing.{is_joinable};

use crate::texts::{put_pieces, words_of};
use crate::values::numbered;
use mg_bytes::{OutOfMemory, Text};
use mgcp_text::{is_joinable, join, parts};
use scenario_files::Outcome;
use std::alloc::Global;

// The texts of a value, each of which has a `|` behind it.
fn texts_in(alloc: Global, value: &[u8]) -> Result<Vec<Text>, OutOfMemory> {
    let mut texts = Vec::new(alloc);
    if let Some(inner) = words_of(value).strip_suffix("|") {
        for text in inner.split('|') {
            texts.push(Text::of(Vec::from_slice(alloc, text.as_bytes())?))?;
        }
    }
    Ok(texts)
}

fn all_joinable(texts: &[Text], max: usize) -> bool
    ensures { result ≡ list_all (is_joinable max) texts.now }
{
    texts.iter().all(|text| is_joinable(text.as_bytes(), max))
}

// The datagrams of the texts of a value; none where these can't be joined.
fn datagrams_of(alloc: Global, value: &[u8], max: usize) -> Result<Vec<Text>, OutOfMemory> {
    let texts = texts_in(alloc, value)?;
    if !all_joinable(&texts, max) {
        return Ok(Vec::new(alloc));
    }
    join(alloc, &texts, max)
}

// The datagrams, or how long each is.
fn put_joined(given: &mut Outcome, call: &str, value: &[u8], max: usize) {
    let Ok(datagrams) = datagrams_of(given.alloc, value, max) else {
        return given.refuse();
    };
    for datagram in &datagrams {
        match call {
            "lengths in" => given.put_shown(datagram.as_bytes().len()),
            _ => given.put(datagram.as_bytes()),
        }
        given.put(b"|");
    }
}

/// Puts what a call gives; no where there is no such call here.
pub fn put_answer(given: &mut Outcome, call: &str, value: &[u8]) -> bool {
    let (call, max) = numbered(call);
    let max = usize::from(max);
    match call {
        "parts" => put_pieces(given, parts(value)),
        "joinable in" => given.put_judged(is_joinable(value, max)),
        "joined in" | "lengths in" => put_joined(given, call, value, max),
        _ => return false,
    }
    true
}
