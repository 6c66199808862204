//! Calls about capture files. Bytes are told in hexadecimal digits, four bytes a word.
use log_format::{Packet, put_head, put_packet};
use mg_bytes::{decimal, ipv4_address, port_number, split_once};
use scenario_files::Outcome;
use std::io::Write;
use std::net::{Ipv4Addr, SocketAddrV4};

/// What stands before the next blank, and what stands behind it. Where there is none there is no such row.
pub fn parted<'v>(given: &mut Outcome, text: &'v [u8]) -> (&'v [u8], &'v [u8]) {
    let Some(parts) = split_once(text, b' ') else {
        given.unread();
        return (text, b"");
    };
    parts
}

/// The number that digits say. Where they say none there is no such row.
pub fn number_of(given: &mut Outcome, digits: &[u8]) -> u64 {
    let Some(number) = decimal(digits) else {
        given.unread();
        return 0;
    };
    number
}

/// The address that `10.0.0.7:2727` spells. Where it spells none there is no such row.
pub fn address_of(given: &mut Outcome, text: &[u8]) -> SocketAddrV4 {
    let (host, port) = split_once(text, b':').unwrap_or((text, b""));
    match (ipv4_address(host), port_number(port)) {
        (Some(host), Some(port)) => SocketAddrV4::new(host, port),
        _ => {
            given.unread();
            SocketAddrV4::new(Ipv4Addr::UNSPECIFIED, 0)
        }
    }
}

fn put_hex(given: &mut Outcome, bytes: &[u8]) {
    for (place, byte) in bytes.iter().enumerate() {
        if place > 0 && place % 4 == 0 {
            given.put(b" ");
        }
        let byte = *byte;
        if write!(given.bytes, "{byte:02x}").is_err() {
            given.refuse();
        }
    }
}

// `1000002 10.0.0.7:2727 127.0.0.1:2427 abc`: the moment, where it came from and went to, and the bytes of a datagram.
fn put_captured(given: &mut Outcome, value: &[u8]) {
    let (moment, rest) = parted(given, value);
    let (from, rest) = parted(given, rest);
    let (to, bytes) = parted(given, rest);
    let packet = Packet {
        moment: number_of(given, moment),
        from: address_of(given, from),
        to: address_of(given, to),
        bytes,
    };
    let mut record = Vec::new(given.alloc);
    if put_packet(given.alloc, &mut record, &packet).is_err() {
        given.refuse();
    }
    put_hex(given, &record);
}

/// Puts what a call gives; no where there is no such call here.
pub fn put_answer(given: &mut Outcome, call: &str, value: &[u8]) -> bool {
    match call {
        // What a capture file begins with.
        "capture head" => {
            let mut head = Vec::new(given.alloc);
            if put_head(&mut head).is_err() {
                given.refuse();
            }
            put_hex(given, &head);
        }
        "captured" => put_captured(given, value),
        _ => return false,
    }
    true
}
