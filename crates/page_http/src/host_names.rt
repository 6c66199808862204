//! Further names under which a gateway may be asked whether it is well, and what was counted.
ghost use Rattle.std.specs.Prelude.{◌≡◌, [], IfOk, option_map};
ghost use Rattle.std.specs.List.{list_all, list_any};
ghost use Rattle.mg_bytes.specs.Case.{same_but_case};
ghost use Rattle.mg_bytes.specs.Items.{items_of};
ghost use Rattle.page_http.specs.Naming.{names_of, is_name_byte, is_name, names_from, names_in, name_part, is_named};

use mg_bytes::{Text, list_items, same_no_case, split_once};
use std::alloc::{AllocError, Global};

/// Names of hosts.
pub struct HostNames {
    names: Vec<Text>,
}

// Written out: a derived drop, and those of all its parts, are proved anew by each crate that lets one go.
impl Drop for HostNames {
    fn drop(self) {
        let HostNames { names } = self;
        drop(names);
    }
}

fn is_name_byte(byte: u8) -> bool
    ensures { result ≡ is_name_byte byte }
{
    byte.is_ascii_alphanumeric() || byte == b'-' || byte == b'.'
}

fn all_name_bytes(text: &[u8]) -> bool
    ensures { result ≡ list_all is_name_byte text.now }
{
    text.iter().all(|byte| is_name_byte(*byte))
}

fn is_name(text: &[u8]) -> bool
    ensures { result ≡ is_name text.now }
{
    !text.is_empty() && all_name_bytes(text)
}

// A host's name, without its port.
fn name_part(host: &[u8]) -> &[u8]
    ensures { result.now ≡ name_part host.now }
{
    match split_once(host, b':') {
        Some((name, _)) => name,
        None => host,
    }
}

// Whether one of these is the name, in any case.
fn is_any_of(names: &[Text], name: &[u8]) -> bool
    ensures { result ≡ list_any (λ known. same_but_case known name.now) names.now }
{
    for known in names {
        if same_no_case(known.as_bytes(), name) {
            return true;
        }
    }
    false
}

// The names that a text says, which commas part; nothing where it says others.
#[tactic(auto, unfolding(crate::specs::Naming::names_from))]
fn names_in(alloc: Global, text: &[u8]) -> Result<Option<Vec<Text>>, AllocError>
    ensures { IfOk result (λ found. option_map (λ names. names.items) found ≡ names_from [] (items_of text.now)) }
{
    let mut names = Vec::new(alloc);
    for item in list_items(text) {
        if !is_name(item) {
            return Ok(None);
        }
        names.push(Text::of(Vec::from_slice(alloc, item)?))?;
    }
    Ok(Some(names))
}

impl HostNames {
    /// None.
    pub fn none(alloc: Global) -> HostNames
        ensures { names_of result ≡ [] }
    {
        HostNames {
            names: Vec::new(alloc),
        }
    }

    /// Those that a text says, which commas part: letters, digits, `-` and `.`, an address too. `None` where it says others; the only
    /// error is want of memory.
    pub fn read(alloc: Global, text: &[u8]) -> Result<Option<HostNames>, AllocError>
        ensures { IfOk result (λ found. option_map names_of found ≡ names_in text.now) }
    {
        match names_in(alloc, text)? {
            Some(names) => Ok(Some(HostNames { names })),
            None => Ok(None),
        }
    }

    /// Whether a host, as a request names it, has one of them, whatever its port.
    pub fn has(&self, host: &[u8]) -> bool
        ensures { result ≡ is_named (names_of self.now) host.now }
    {
        is_any_of(self.names.as_slice(), name_part(host))
    }
}
