//! The items of L, and their values (RFC 3435, 3.2.2).
ghost use Rattle.std.specs.Prelude.{◌≡◌, option_map, take, codes, Some};
ghost use Rattle.std.specs.List.{list_any};
ghost use Rattle.mg_bytes.specs.Case.{same_but_case};
ghost use Rattle.mg_bytes.specs.Items.{items_of};
ghost use Rattle.connections.specs.Options.{with_codec, with_found, with_name, codecs_in};
ghost use Rattle.connections.specs.Options.{bounds_of, lies_in, time_within, is_ignored, is_option, name_of, is_of};
ghost use Rattle.connections.specs.Options.{comes_again, is_once, are_options, value_in, value_of};

use crate::codec::{Codec, Codecs, codec_named, is_same_codec};
use mg_bytes::{ListItems, decimal, list_items, same_no_case, split_once};

fn with_codec(codecs: Option<Codecs>, codec: Codec) -> Codecs
    ensures { with_codec codecs codec ≡ Some result }
{
    match codecs {
        None => Codecs::Only(codec),
        Some(Codecs::Only(first)) => {
            if is_same_codec(first, codec) {
                Codecs::Only(first)
            } else {
                Codecs::Both(first)
            }
        }
        Some(Codecs::Both(first)) => Codecs::Both(first),
    }
}

// What a name adds, where this gateway knows it.
fn with_name(codecs: Option<Codecs>, name: &[u8]) -> Option<Codecs>
    ensures { result ≡ with_name codecs name.now }
{
    match codec_named(name) {
        Some(codec) => Some(with_codec(codecs, codec)),
        None => codecs,
    }
}

// The codecs that the value of `a` names.
pub(crate) fn codecs_in(value: &[u8]) -> Option<Codecs>
    ensures { result ≡ codecs_in value.now }
{
    let mut codecs = None;
    let mut rest = value;
    while let Some((name, after)) = split_once(rest, b';') {
        codecs = with_name(codecs, name);
        rest = after;
    }
    with_name(codecs, rest)
}

// The least and the greatest packet time that the value of `p` spells.
#[tactic(auto, unfolding(crate::specs::Options::bounds_of))]
pub(crate) fn bounds_of(value: &[u8]) -> Option<(u64, u64)>
    ensures { result ≡ bounds_of value.now }
{
    match split_once(value, b'-') {
        None => {
            let ms = decimal(value)?;
            Some((ms, ms))
        }
        Some((least, greatest)) => Some((decimal(least)?, decimal(greatest)?)),
    }
}

fn lies_in(bounds: (u64, u64), ms: u64) -> bool
    ensures { result ≡ lies_in bounds ms }
{
    bounds.0 <= ms && ms <= bounds.1
}

// The least packet time within the bounds that this gateway has.
pub(crate) fn time_within(bounds: (u64, u64)) -> Option<u16>
    ensures { result ≡ time_within bounds }
{
    if lies_in(bounds, 10) {
        Some(10)
    } else if lies_in(bounds, 20) {
        Some(20)
    } else if lies_in(bounds, 30) {
        Some(30)
    } else {
        None
    }
}

fn begins_x(name: &[u8]) -> bool
    ensures { result ≡ same_but_case (take 2 name.now) (codes "x-") }
{
    name.len() >= 2 && same_no_case(&name[..2], b"x-")
}

fn is_ignored(name: &[u8]) -> bool
    ensures { result ≡ is_ignored name.now }
{
    same_no_case(name, b"b")
        || same_no_case(name, b"e")
        || same_no_case(name, b"gc")
        || same_no_case(name, b"r")
        || same_no_case(name, b"s")
        || same_no_case(name, b"t")
        || same_no_case(name, b"nt")
        || begins_x(name)
}

#[tactic(auto, unfolding(crate::specs::Options::is_option))]
fn is_option(item: &[u8]) -> bool
    ensures { result ≡ is_option item.now }
{
    match split_once(item, b':') {
        None => false,
        Some((name, value)) => {
            if same_no_case(name, b"p") {
                bounds_of(value).is_some()
            } else {
                same_no_case(name, b"a") || is_ignored(name)
            }
        }
    }
}

#[tactic(auto, unfolding(crate::specs::Options::name_of))]
fn name_of(item: &[u8]) -> &[u8]
    ensures { result.now ≡ name_of item.now }
{
    match split_once(item, b':') {
        None => item,
        Some((name, _)) => name,
    }
}

fn is_of(name: &[u8], item: &[u8]) -> bool
    ensures { result ≡ is_of name.now item.now }
{
    same_no_case(name_of(item), name)
}

fn any_of(name: &[u8], items: ListItems<'_>) -> bool
    ensures { result ≡ list_any (is_of name.now) items.entry }
{
    for item in items {
        if is_of(name, item) {
            return true;
        }
    }
    false
}

// Whether a second item has this name.
#[tactic(auto, unfolding(crate::specs::Options::comes_again))]
fn comes_again(name: &[u8], list: &[u8]) -> bool
    ensures { result ≡ comes_again name.now (items_of list.now) }
{
    let mut items = list_items(list);
    while let Some(item) = items.next() {
        if is_of(name, item) {
            return any_of(name, items);
        }
    }
    false
}

fn is_once(list: &[u8], item: &[u8]) -> bool
    ensures { result ≡ is_once (items_of list.now) item.now }
{
    is_option(item) && !comes_again(name_of(item), list)
}

// Whether each item is an option, and no two have one name.
pub(crate) fn are_options(list: &[u8]) -> bool
    ensures { result ≡ are_options (items_of list.now) }
{
    for item in list_items(list) {
        if !is_once(list, item) {
            return false;
        }
    }
    true
}

#[tactic(auto, unfolding(crate::specs::Options::value_in))]
fn value_in<'a>(name: &[u8], item: &'a [u8]) -> Option<&'a [u8]>
    ensures { option_map (λ value. value.now) result ≡ value_in name.now item.now }
{
    let (own, value) = split_once(item, b':')?;
    if same_no_case(own, name) {
        Some(value)
    } else {
        None
    }
}

// The value of the item of this name.
#[tactic(auto, unfolding(crate::specs::Options::value_of))]
pub(crate) fn value_of<'a>(name: &[u8], list: &'a [u8]) -> Option<&'a [u8]>
    ensures { option_map (λ value. value.now) result ≡ value_of name.now (items_of list.now) }
{
    for item in list_items(list) {
        if let Some(value) = value_in(name, item) {
            return Some(value);
        }
    }
    None
}
