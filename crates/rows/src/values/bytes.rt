//! Calls that take texts apart: lines, words, items, numbers and addresses.
use crate::texts::{put_piece, put_pieces, words_of};
use mg_bytes::{
    decimal, has_dot_line, hex_text, ipv4_address, lines, list_items, port_number, put_decimal,
    same_no_case, split_once, trimmed, words,
};
use scenario_files::Outcome;

// What stands behind each line.
fn put_rests(given: &mut Outcome, value: &[u8]) {
    let mut left = lines(value);
    for _ in lines(value) {
        let _line = left.next();
        put_piece(given, left.rest());
    }
}

// The two sides of the first colon, or none.
fn put_sides(given: &mut Outcome, value: &[u8]) {
    if let Some((left, right)) = split_once(value, b':') {
        put_piece(given, left);
        put_piece(given, right);
    }
}

// The digits that a number is written with.
fn put_digits(given: &mut Outcome, value: &[u8]) {
    let number = words_of(value).parse::<u64>().unwrap_or(0);
    if put_decimal(given.alloc, &mut given.bytes, number).is_err() {
        given.refuse();
    }
}

fn is_same(value: &[u8]) -> bool {
    match split_once(value, b' ') {
        Some((left, right)) => same_no_case(left, right),
        None => false,
    }
}

/// Puts what a call gives; no where there is no such call here.
pub fn put_answer(given: &mut Outcome, call: &str, value: &[u8]) -> bool {
    match call {
        "lines" => put_pieces(given, lines(value)),
        "rests" => put_rests(given, value),
        "words in" => put_pieces(given, words(value)),
        "items" => put_pieces(given, list_items(value)),
        "colon" => put_sides(given, value),
        "trimmed" => given.put(trimmed(value)),
        "written number" => put_digits(given, value),
        "number" => given.put_or_none(decimal(value)),
        "port" => given.put_or_none(port_number(value)),
        "address" => given.put_or_none(ipv4_address(value)),
        "hexadecimal" => given.put_judged(hex_text(value)),
        "same" => given.put_judged(is_same(value)),
        "dot line" => given.put_judged(has_dot_line(value)),
        _ => return false,
    }
    true
}
