//! Endpoint names (RFC 3435, 2.1.2 and 3.2.1.3).
ghost use Rattle.std.specs.Prelude.{◌≡◌, ◌==◌, ◌++◌, if◌then◌else◌, slice_index, take, drop, codes, option_map};
ghost use Rattle.std.specs.Prelude.{IfOk, OnOk};
ghost use Rattle.mg_bytes.specs.Bytes.{digit_zero};
ghost use Rattle.mg_bytes.specs.Case.{same_but_case};
ghost use Rattle.mg_bytes.specs.Numbers.{decimal_of};
ghost use Rattle.endpoint_names.specs.Name.{line_named, names_all, names_any, has_wildcard, is_wildcard, pattern_of, name_of};
ghost use Rattle.endpoint_names.specs.Name.{means_line, name_fault_number, local_text, name_text};

use mg_bytes::{OutOfMemory, Text, decimal, put_decimal, same_no_case, split_once};
use std::alloc::Global;

// The room, in bytes, that a written name begins with: most are shorter.
const ROOM: usize = 64;

/// The endpoints that a name means.
#[derive(Clone, Copy)]
pub enum Pattern {
    /// The line with this number, from 1.
    One(u16),
    /// All lines: `*`.
    All,
    /// Any one line: `$`.
    Any,
}

/// Why a name means no endpoint of this gateway.
#[derive(Clone, Copy)]
pub enum NameFault {
    /// No endpoint has it, or it is of another domain.
    Unknown = 1,
    /// A term of the local name is `*` or `$`, in a place where this gateway takes none.
    TooComplicated = 2,
}

impl NameFault {
    /// Its number, from 1.
    pub fn number(self) -> u8
        ensures { result ≡ name_fault_number self }
    {
        self as u8
    }
}

fn is_wildcard(term: &[u8]) -> bool
    ensures { result ≡ is_wildcard term.now }
{
    term == b"*".as_slice() || term == b"$".as_slice()
}

#[tactic(auto, unfolding(crate::specs::Name::has_wildcard))]
fn has_wildcard(local: &[u8]) -> bool
    ensures { result ≡ has_wildcard local.now }
{
    local
        .split(|byte| *byte == b'/')
        .any(|term| is_wildcard(term))
}

#[tactic(auto, unfolding(crate::specs::Name::names_all))]
fn names_all(local: &[u8]) -> bool
    ensures { result ≡ names_all local.now }
{
    same_no_case(local, b"*") || same_no_case(local, b"aaln/*") || same_no_case(local, b"*/*")
}

#[tactic(auto, unfolding(crate::specs::Name::names_any))]
fn names_any(local: &[u8]) -> bool
    ensures { result ≡ names_any local.now }
{
    same_no_case(local, b"$") || same_no_case(local, b"aaln/$") || same_no_case(local, b"$/$")
}

// What stands after `aaln/`, in any case.
fn after_aaln(local: &[u8]) -> Option<&[u8]>
    ensures { option_map (λ rest. rest.now) result ≡
        (if same_but_case (take 5 local.now) (codes "aaln/") then Some (drop 5 local.now) else None) }
{
    if local.len() < 5 || !same_no_case(&local[..5], b"aaln/") {
        return None;
    }
    Some(&local[5..])
}

// The number that decimal digits without a leading zero spell.
fn plain_number(digits: &[u8]) -> Option<u64>
    ensures { result ≡
        (if slice_index digits.now 0 == digit_zero then None else decimal_of digits.now) }
{
    if let [b'0', ..] = digits {
        return None;
    }
    decimal(digits)
}

#[tactic(auto, using(crate::proofs::LineLemmas::line_named_is))]
fn line_named(local: &[u8], lines: u16) -> Option<u16>
    ensures { result ≡ line_named local.now lines }
{
    let number = plain_number(after_aaln(local)?)?;
    if number > u64::from(lines) {
        return None;
    }
    Some(number as u16)
}

fn pattern_of(local: &[u8], lines: u16) -> Result<Pattern, NameFault>
    ensures { result ≡ pattern_of local.now lines }
{
    if names_all(local) {
        Ok(Pattern::All)
    } else if names_any(local) {
        Ok(Pattern::Any)
    } else if let Some(line) = line_named(local, lines) {
        Ok(Pattern::One(line))
    } else if has_wildcard(local) {
        Err(NameFault::TooComplicated)
    } else {
        Err(NameFault::Unknown)
    }
}

/// What an endpoint's name means on the gateway with this domain and so many lines (RFC 3435, 2.1.2 and 3.2.1.3).
///
/// The name is split at its first `@`. The local name is `aaln/` and a line's number without leading zeros,
/// `*` or `$` for all lines or any one, or one of the two after `aaln/`, or in both places. Case does not matter.
/// A name without `@`, of another domain or of no line is `Unknown`; another one with a term `*` or `$` is
/// `TooComplicated`.
#[tactic(auto, unfolding(crate::specs::Name::name_of))]
pub fn read_name(name: &[u8], domain: &[u8], lines: u16) -> Result<Pattern, NameFault>
    ensures { result ≡ name_of name.now domain.now lines }
{
    let Some((local, named_domain)) = split_once(name, b'@') else {
        return Err(NameFault::Unknown);
    };
    if !same_no_case(named_domain, domain) {
        return Err(NameFault::Unknown);
    }
    pattern_of(local, lines)
}

/// Whether the line with this number is among those that a name means (RFC 3435, 2.1.2): one line alone, or every
/// line where the name means all lines or any one.
pub fn matches(pattern: Pattern, line: u16) -> bool
    ensures { result ≡ means_line pattern line }
{
    match pattern {
        Pattern::One(named) => named == line,
        Pattern::All | Pattern::Any => true,
    }
}

fn put_local_name(alloc: Global, out: &mut Vec<u8>, pattern: Pattern) -> Result<(), OutOfMemory>
    ensures { OnOk result (out.new.items ≡ out.old.items ++ local_text pattern) }
{
    match pattern {
        Pattern::One(line) => {
            out.extend_from_slice(b"aaln/")?;
            put_decimal(alloc, out, u64::from(line))
        }
        Pattern::All => out.extend_from_slice(b"*"),
        Pattern::Any => out.extend_from_slice(b"$"),
    }
}

/// The name of endpoints on the gateway with this domain, as it is written (RFC 3435, 2.1.2): `aaln/` and the line's
/// number without leading zeros, `*` for all lines or `$` for any one, then `@` and the domain.
///
/// Its only error is want of memory.
#[tactic(auto, unfolding(crate::specs::Name::name_text))]
pub fn write_name(alloc: Global, pattern: Pattern, domain: &[u8]) -> Result<Text, OutOfMemory>
    ensures { IfOk result (λ text. text ≡ name_text pattern domain.now) }
{
    let mut out = Vec::with_capacity(alloc, ROOM)?;
    put_local_name(alloc, &mut out, pattern)?;
    out.push(b'@')?;
    out.extend_from_slice(domain)?;
    Ok(Text::of(out))
}
